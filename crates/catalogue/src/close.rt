// Closing a catalogue over any sort of code.
ghost use Rattle.std.specs.Prelude.{◌≡◌, length};
ghost use Rattle.words.specs.Refusals.{closing_told};
ghost use Rattle.closing.specs.Closing.{Closes};
ghost use Rattle.closing.specs.Lists.{lent_at, left_at};
ghost use Rattle.catalogue.specs.Ledger.{close};
ghost use Rattle.catalogue.specs.Table.{table_of, Belongs};
ghost use Rattle.catalogue.specs.View.{view, Moved};

use super::state::Catalogue;
use closing::ClosingLists;
use codes::{Code, Truth};
use words::ClosingFault;

impl Catalogue {
    // Fills the code table with what descends from each kind; where a ring stands, empties it and tells the ring instead.
    pub fn close<C: Code + Drop>(
        &mut self,
        lists: ClosingLists<'_, C::Row>,
    ) -> Result<(), ClosingFault>
        ensures moved { (view self.old).book.wide ≡ C.Truth.sort.width → Moved closing_told (close (length lists.entry.table.now) (length lists.entry.marks.now) (length lists.entry.walk.now) (length lists.entry.ring.now)) (view self.old) (view self.new) result }
        ensures lists { Closes C.Truth.sort (view self.old).book.wide (view self.old).book.kinds (view self.old).places (view self.old).book.lines (lent_at lists.entry) (left_at lists.exit) result }
        ensures belongs { Belongs (view self.old) (table_of C.Truth.sort (lent_at lists.entry).table) → Belongs (view self.new) (table_of C.Truth.sort (left_at lists.exit).table) }
    {
        // Handed on as they came, the lists would be lost to the proof: it follows a struct of them field by field.
        let ClosingLists {
            table,
            marks,
            walk,
            ring,
        } = lists;
        closing::close::<C>(
            &self.standing(),
            ClosingLists {
                table,
                marks,
                walk,
                ring,
            },
        )?;
        self.closed = true;
        Ok(())
    }
}
