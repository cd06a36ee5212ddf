// One place, which a value has or has not.
ghost use Rattle.std.specs.Prelude.{true};
ghost use Rattle.std.proofs.Common.{rules};

use super::truth::Truth;

impl Truth for bool {
    type Row = bool;

    ghost sort = { record { width = 1; means = λ yes _. yes; written = λ yes. yes; keeps = λ _. true; reads = λ yes _. yes } };

    ghost lawful = { Prim.search rules };

    fn places() -> usize {
        1
    }

    fn empty() -> bool {
        false
    }

    fn meet(&mut self, other: &bool) {
        *self &= *other;
    }

    fn join(&mut self, other: &bool) {
        *self |= *other;
    }

    fn complement(&mut self) {
        *self = !*self;
    }

    fn write(&self) -> bool {
        *self
    }

    fn read(row: bool) -> bool {
        row
    }
}
