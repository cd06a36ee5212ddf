// A truth sort: values that mean sets of places below a width. A sort of code: a truth sort with places besides.
ghost use Rattle.std.specs.Prelude.{◌≡◌, ℕ, ◌<◌, ◌≤◌, Bool, true, false, not, ◌&&◌, ◌||◌, ◌==◌, nat_lt};
ghost use Rattle.codes.specs.Sorts.{Sort, Lawful, Agree, Changed, Next};

use words::CodeFault;

pub trait Truth: Sized {
    // What a value lies as in a list.
    type Row: Copy;

    ghost sort: { Sort Self Self.Row };

    // The width.
    fn places() -> usize
        ensures { result ≡ sort.width };

    fn empty() -> Self
        ensures { Agree sort.width (sort.means result) (λ _. false) };

    fn meet(&mut self, other: &Self)
        ensures { Agree sort.width (sort.means self.new) (λ p. sort.means self.old p && sort.means other.now p) };

    fn join(&mut self, other: &Self)
        ensures { Agree sort.width (sort.means self.new) (λ p. sort.means self.old p || sort.means other.now p) };

    fn complement(&mut self)
        ensures { Agree sort.width (sort.means self.new) (λ p. not (sort.means self.old p)) };

    fn write(&self) -> Self::Row
        ensures { result ≡ sort.written self.now };

    // The value that was written as this row; the empty value where the row breaks the sort's rule.
    fn read(row: Self::Row) -> Self
        ensures back { (v : Self) → row ≡ sort.written v → result ≡ v }
        ensures set { Agree sort.width (sort.means result) (sort.reads row) };

    ghost lawful: { Lawful sort };
}

pub trait Code: Truth {
    fn put(&mut self, place: usize) -> Result<(), CodeFault>
        ensures { Changed Self.Truth.sort self.old self.new place (λ p. (p == place) || Self.Truth.sort.means self.old p) result };

    fn take(&mut self, place: usize) -> Result<(), CodeFault>
        ensures { Changed Self.Truth.sort self.old self.new place (λ p. not (p == place) && Self.Truth.sort.means self.old p) result };

    fn has(&self, place: usize) -> bool
        ensures { result ≡ (nat_lt place Self.Truth.sort.width && Self.Truth.sort.means self.now place) };

    // The least place from this one up.
    fn next(&self, from: usize) -> Option<usize>
        ensures { Next Self.Truth.sort.width (Self.Truth.sort.means self.now) from result };
}
