// The closing of a catalogue: its table filled, or a ring told.
ghost use Rattle.words.specs.Refusals.{Says, closing_told};
ghost use Rattle.descent.specs.Lines.{serials_of, places_of};
ghost use Rattle.closing.specs.Closing.{closing_refusal, Closes};
ghost use Rattle.closing.specs.Lists.{lent_at, left_at};

use super::fill::fill;
use super::lists::ClosingLists;
use super::ring::ClosedTable;
use super::rows::clear;
use super::told::write_ring;
use codes::{Code, Truth};
use descent::Standing;
use words::ClosingFault;

// Fills the table with the descents of what stands; where some kind leads up to itself, empties it and tells a ring instead.
pub fn close<C: Code + Drop>(
    standing: &Standing<'_>,
    lists: ClosingLists<'_, C::Row>,
) -> Result<(), ClosingFault>
    ensures told { Says closing_told result (closing_refusal standing.now.width C.Truth.sort.width standing.now.lines.now (lent_at lists.entry)) }
    ensures left { Closes C.Truth.sort standing.now.width (serials_of standing.now.kinds.now) (places_of standing.now.kinds.now) standing.now.lines.now (lent_at lists.entry) (left_at lists.exit) result }
{
    let w = standing.width;
    lists.check(w, C::places())?;
    let ClosingLists {
        table,
        marks,
        walk,
        ring,
    } = lists;
    let rows = &mut table[..w];
    fill::<C>(standing, rows);
    let closed = ClosedTable::<C> { standing, rows };
    if let Some(round) = closed.find_ring(&mut marks[..w], &mut walk[..w]) {
        write_ring(standing, &walk[round], ring);
        clear::<C>(rows);
        return Err(ClosingFault::Ring);
    }
    Ok(())
}
