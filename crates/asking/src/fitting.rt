// Fitting a kind to a question: the same words, over yes and no.
ghost use Rattle.std.specs.Prelude.{◌≡◌, ℕ, Bool, true, length, drop, IfOk};
ghost use Rattle.descent.specs.Lines.{stands};
ghost use Rattle.words.specs.Refusals.{Says, question_told};
ghost use Rattle.closing.specs.Tables.{sets_of};
ghost use Rattle.catalogue.specs.Ledger.{fit, refused, set_of};
ghost use Rattle.catalogue.specs.Table.{Belongs, table_of};
ghost use Rattle.catalogue.specs.View.{view};
ghost use Rattle.asking.specs.Naming.{fits_name};

use super::checks::check_fit;
use super::rows::{Rows, place_of};
use catalogue::Catalogue;
use codes::{Code, Truth};
use questions::{Names, check_count, evaluate};
use words::{CatalogueFault, QuestionFault};

// With the place of the kind that is to fit.
#[derive(Drop)]
struct FitNames<'a, 'b, C: Truth> {
    rows: Rows<'a, 'b, C>,
    place: usize,
}

// A name means whether the kind descends from the named one, and all that it stands.
impl<'a, 'b, C: Code + Drop> Names<bool> for FitNames<'a, 'b, C> {
    ghost standing = { λ s k. stands k (view s.rows.catalogue.now).book.kinds };

    ghost named = { λ s serial _. fits_name (view s.rows.catalogue.now) C.Truth.sort.width (sets_of C.Truth.sort s.rows.table.now) s.place serial };

    ghost whole = { λ _ _. true };

    fn name(&self, serial: u32, index: usize) -> Result<bool, CatalogueFault> {
        let row = self.rows.named(serial, index)?;
        Ok(C::read(row).has(self.place))
    }

    fn all(&self) -> bool {
        true
    }
}

// Whether the kind with this serial is in the question's set.
pub fn fit<C: Code + Drop>(
    catalogue: &Catalogue,
    table: &[C::Row],
    serial: u32,
    words: &[u32],
    working: &mut [bool],
) -> Result<bool, QuestionFault>
    ensures says { Says question_told result (refused (view catalogue.now).book (fit serial words.now (length table.now) (length working.old))) }
    ensures value { Belongs (view catalogue.now) (table_of C.Truth.sort table.now) → IfOk result (λ yes. yes ≡ set_of (view catalogue.now).book words.now serial) }
    ensures beyond { drop 32 working.new ≡ drop 32 working.old }
{
    check_fit(catalogue, table.len(), working.len())?;
    check_count(words)?;
    let place = place_of(catalogue, serial, 0)?;
    let names = FitNames::<C> {
        rows: Rows { catalogue, table },
        place,
    };
    evaluate::<bool, FitNames<'_, '_, C>>(words, &names, working)?;
    Ok(working[0])
}
