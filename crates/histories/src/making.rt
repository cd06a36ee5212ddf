// One call on a finder.
ghost use Rattle.std.specs.Prelude.{◌≡◌, length, take, IfOk};
ghost use Rattle.words.specs.Refusals.{closing_told};
ghost use Rattle.closing.specs.Closing.{lent, Closes};
ghost use Rattle.catalogue.specs.Ledger.{Ledger, close};
ghost use Rattle.descent.specs.Proper.{CanHold};
ghost use Rattle.catalogue.specs.Table.{table_of, Belongs};
ghost use Rattle.catalogue.specs.View.{view, Moved};
ghost use Rattle.histories.specs.Calls.{rooms, heard};
ghost use Rattle.histories.specs.Sayings.{given, said, Replies};
ghost use Rattle.histories.specs.Holds.{Holds, Answered, SameMemory};
ghost use Rattle.histories.specs.RingLists.{RingLeft};

use super::calls::Call;
use super::memory::{Lists, handed};
use super::reply::{Reply, told};
use asking::{ask, fit};
use catalogue::Catalogue;
use closing::ClosingLists;
use codes::{Code, Truth};
use words::{ClosingFault, Refusal};

// Closes over these lists. What is written to the start of a list comes back to the list only where the start is lent by itself, and
// not in a struct.
fn close_over<C: Code + Drop>(
    catalogue: &mut Catalogue,
    table: &mut [C::Row],
    marks: &mut [u8],
    walk: &mut [usize],
    ring: &mut [u32],
) -> Result<(), ClosingFault>
    ensures moved { (view catalogue.old).book.wide ≡ C.Truth.sort.width → Moved closing_told (close (length table.old) (length marks.old) (length walk.old) (length ring.old)) (view catalogue.old) (view catalogue.new) result }
    ensures lists { Closes C.Truth.sort (view catalogue.old).book.wide (view catalogue.old).book.kinds (view catalogue.old).places (view catalogue.old).book.lines (lent table.old marks.old walk.old ring.old) (lent table.new marks.new walk.new ring.new) result }
    ensures belongs { Belongs (view catalogue.old) (table_of C.Truth.sort table.old) → Belongs (view catalogue.new) (table_of C.Truth.sort table.new) }
{
    catalogue.close::<C>(ClosingLists {
        table,
        marks,
        walk,
        ring,
    })
}

// Makes a call, over the start of each list that it says or the whole of a shorter one. Inlined, since a caller mostly knows which call.
#[inline(always)]
pub fn make<C: Code + Drop>(
    catalogue: &mut Catalogue,
    lists: &mut Lists<'_, C::Row>,
    call: Call<'_>,
) -> Result<Reply<usize>, Refusal>
    ensures lent { SameMemory lists.old lists.new }
    ensures proper { CanHold (view catalogue.old).book.wide (view catalogue.old).book.kinds (view catalogue.old).book.lines }
    ensures answered { (l : Ledger) → Holds (view catalogue.old) (table_of C.Truth.sort lists.old.table.now) l → Answered l (heard (rooms lists.old) call.entry) (said (λ count. take count lists.new.words.now) result) (view catalogue.new) (table_of C.Truth.sort lists.new.table.now) }
    ensures replies { IfOk result (λ reply. Replies (length lists.new.words.now) (given (view catalogue.old).book (heard (rooms lists.old) call.entry)) reply) }
    ensures ring { RingLeft (view catalogue.old).book.lines lists.old.ring.now lists.new.ring.now result }
{
    // One by one: the check does not cover a pattern over a lent struct of `&mut`s.
    let table = &mut *lists.table;
    let words = &mut *lists.words;
    let marks = &mut *lists.marks;
    let walk = &mut *lists.walk;
    let ring = &mut *lists.ring;
    let working = &mut *lists.working;
    let truths = &mut *lists.truths;
    match call {
        Call::Enter { serial } => told(catalogue.enter(serial)),
        Call::Withdraw { serial } => told(catalogue.withdraw(serial)),
        Call::EnterLine { child, parent } => told(catalogue.enter_line(child, parent)),
        Call::WithdrawLine { child, parent } => told(catalogue.withdraw_line(child, parent)),
        Call::ReadImage { words: image } => told(catalogue.read_image(image)),
        Call::WriteImage { image } => told(catalogue.write_image(handed(words, image).0)),
        Call::Close {
            table: rows,
            marks: bytes,
            walk: steps,
            ring: names,
        } => told(close_over::<C>(
            catalogue,
            handed(table, rows).0,
            handed(marks, bytes).0,
            handed(walk, steps).0,
            handed(ring, names).0,
        )),
        Call::Ask {
            words: question,
            table: rows,
            working: values,
            answer,
        } => {
            let (start, _) = handed(table, rows);
            told(ask::<C>(
                catalogue,
                start,
                question,
                handed(working, values).0,
                handed(words, answer).0,
            ))
        }
        Call::Fit {
            serial,
            words: question,
            table: rows,
            working: values,
        } => {
            let (start, _) = handed(table, rows);
            told(fit::<C>(catalogue, start, serial, question, handed(truths, values).0))
        }
        Call::Recall {
            words: kept,
            answer,
        } => told(catalogue.recall(kept, handed(words, answer).0)),
    }
}
