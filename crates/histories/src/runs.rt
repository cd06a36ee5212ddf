// Making calls in turn.
ghost use Rattle.std.specs.Prelude.{◌≡◌, List, map};
ghost use Rattle.catalogue.specs.Ledger.{Ledger};
ghost use Rattle.catalogue.specs.Table.{table_of};
ghost use Rattle.catalogue.specs.View.{view};
ghost use Rattle.histories.specs.Calls.{rooms, heard, ledger_after};
ghost use Rattle.histories.specs.Holds.{Holds, SameMemory};

use super::calls::Call;
use super::making::make;
use super::memory::Lists;
use catalogue::Catalogue;
use codes::{Code, Truth};

// Makes the calls in turn. What they say is let go.
pub fn follow<C: Code + Drop>(
    catalogue: &mut Catalogue,
    lists: &mut Lists<'_, C::Row>,
    calls: &[Call<'_>],
)
    ensures lent { SameMemory lists.old lists.new }
    ensures held { (l : Ledger) → Holds (view catalogue.old) (table_of C.Truth.sort lists.old.table.now) l → Holds (view catalogue.new) (table_of C.Truth.sort lists.new.table.now) (ledger_after l (map (heard (rooms lists.old)) calls.now)) }
{
    for call in calls {
        let _ = make::<C>(catalogue, lists, *call);
    }
}
