// Where the names in a question get their values.
ghost use Rattle.std.specs.Prelude.{◌≡◌, ℕ, Bool, IfOk};
ghost use Rattle.codes.specs.Sorts.{Sort, Agree};
ghost use Rattle.words.specs.Refusals.{Says, catalogue_told};
ghost use Rattle.questions.specs.Questions.{name_refusal};

use codes::Truth;
use words::CatalogueFault;

pub trait Names<T: Truth> {
    // Whether the kind of a serial stands.
    ghost standing: { Self → ℕ → Bool };

    // The places of the value of a serial's name.
    ghost named: { Self → ℕ → ℕ → Bool };

    // The places of `all`.
    ghost whole: { Self → ℕ → Bool };

    // The value of the name in the word at this index.
    fn name(&self, serial: u32, index: usize) -> Result<T::Row, CatalogueFault>
        ensures refused { Says catalogue_told result (name_refusal (standing self.now) index serial) }
        ensures value { IfOk result (λ row. Agree T.Truth.sort.width (T.Truth.sort.reads row) (named self.now serial)) };

    fn all(&self) -> T::Row
        ensures { Agree T.Truth.sort.width (T.Truth.sort.reads result) (whole self.now) };
}
