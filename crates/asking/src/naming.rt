// A name means the row at the named kind's place.
ghost use Rattle.std.specs.Prelude.{ℕ};
ghost use Rattle.descent.specs.Lines.{places_of, stands};
ghost use Rattle.codes.specs.Sorts.{Agree};
ghost use Rattle.closing.specs.Tables.{sets_of};
ghost use Rattle.catalogue.specs.View.{view};
ghost use Rattle.asking.specs.Naming.{row_places};

use super::rows::Rows;
use codes::{Code, Truth};
use descent::Standing;
use questions::Names;
use words::CatalogueFault;

// With the row of all standing kinds.
#[derive(Drop)]
pub(super) struct RowNames<'a, 'b, C: Truth> {
    pub(super) rows: Rows<'a, 'b, C>,
    pub(super) all: C::Row,
}

impl<'a, 'b, C: Code + Drop> Names<C> for RowNames<'a, 'b, C> {
    ghost standing = { λ s k. stands k (view s.rows.catalogue.now).book.kinds };

    ghost named = { λ s. row_places (view s.rows.catalogue.now) (sets_of C.Truth.sort s.rows.table.now) };

    ghost whole = { λ s. C.Truth.sort.reads s.all };

    fn name(&self, serial: u32, index: usize) -> Result<C::Row, CatalogueFault> {
        self.rows.named(serial, index)
    }

    fn all(&self) -> C::Row {
        self.all
    }
}

// The row of all: the place of each standing kind, and no free place.
pub(super) fn all_kinds<C: Code + Drop>(standing: &Standing<'_>) -> C::Row
    ensures { Agree C.Truth.sort.width (C.Truth.sort.reads result) (λ p. stands p (places_of standing.now.kinds.now)) }
{
    let mut all = C::empty();
    for kind in standing.kinds {
        let _ = all.put(kind.place);
    }
    all.write()
}
