// A catalogue with its table, and what a name finds there.
ghost use Rattle.std.specs.Prelude.{◌≡◌, ℕ, ◌<◌, ◌≤◌, true, length, IfOk};
ghost use Rattle.descent.specs.Lines.{stands};
ghost use Rattle.words.specs.Refusals.{Says, catalogue_told};
ghost use Rattle.questions.specs.Questions.{name_refusal};
ghost use Rattle.closing.specs.Tables.{sets_of};
ghost use Rattle.catalogue.specs.View.{view};
ghost use Rattle.asking.specs.Naming.{seat, row_places};

use catalogue::Catalogue;
use codes::Truth;
use words::{CatalogueFault, check_serial};

// The table has a row for each place.
#[derive(Drop)]
pub(super) struct Rows<'a, 'b, C: Truth> {
    pub(super) catalogue: &'a Catalogue,
    pub(super) table: &'b [C::Row],
    ghost room: { (view catalogue.now).book.wide ≤ length table.now },
}

// The place of the kind that is named in the word at this index.
pub(super) fn place_of(
    catalogue: &Catalogue,
    serial: u32,
    index: usize,
) -> Result<usize, CatalogueFault>
    ensures refused { Says catalogue_told result (name_refusal (λ k. stands k (view catalogue.now).book.kinds) index serial) }
    ensures stood { IfOk result (λ p. stands serial (view catalogue.now).book.kinds ≡ true) }
    ensures value { IfOk result (λ p. p ≡ seat (view catalogue.now).book.kinds (view catalogue.now).places serial) }
    ensures within { IfOk result (λ p. p < (view catalogue.now).book.wide) }
{
    check_serial(serial, index)?;
    let Some(kind) = catalogue.find(serial) else {
        return Err(CatalogueFault::KindMissing(index));
    };
    Ok(kind.place)
}

impl<'a, 'b, C: Truth> Rows<'a, 'b, C> {
    // The row at the place of the kind that is named in the word at this index.
    pub(super) fn named(&self, serial: u32, index: usize) -> Result<C::Row, CatalogueFault>
        ensures refused { Says catalogue_told result (name_refusal (λ k. stands k (view self.now.catalogue.now).book.kinds) index serial) }
        ensures value { IfOk result (λ row. (p : ℕ) → C.Truth.sort.reads row p ≡ row_places (view self.now.catalogue.now) (sets_of C.Truth.sort self.now.table.now) serial p) }
    {
        let place = place_of(self.catalogue, serial, index)?;
        Ok(self.table[place])
    }
}
