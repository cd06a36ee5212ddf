// Asking a question of a closed catalogue.
ghost use Rattle.std.specs.Prelude.{◌≡◌, length, drop, OnOk, slice_index_or};
ghost use Rattle.words.specs.Refusals.{Says, question_told};
ghost use Rattle.formats.specs.Formats.{Listed, answer_of};
ghost use Rattle.catalogue.specs.Ledger.{ask, refused, answering};
ghost use Rattle.catalogue.specs.Table.{Belongs, table_of};
ghost use Rattle.catalogue.specs.View.{view};
ghost use Rattle.asking.specs.Asking.{AsPlaces, Kept};

use super::checks::check_ask;
use super::decode::decode;
use super::naming::{RowNames, all_kinds};
use super::rows::Rows;
use catalogue::Catalogue;
use codes::{Code, Truth};
use questions::evaluate;
use words::QuestionFault;

// Writes the names of the uppermost kinds that the question covers, and tells how many words the answer has. The first working row is
// left as the question's set.
pub fn ask<C: Code + Drop>(
    catalogue: &Catalogue,
    table: &[C::Row],
    words: &[u32],
    working: &mut [C::Row],
    answer: &mut [u32],
) -> Result<usize, QuestionFault>
    ensures says { Says question_told result (refused (view catalogue.now).book (ask words.now (length table.now) (length working.old) (length answer.old))) }
    ensures list { Belongs (view catalogue.now) (table_of C.Truth.sort table.now) → Listed (answer_of (answering (view catalogue.now).book words.now)) answer.old answer.new result }
    ensures set { Belongs (view catalogue.now) (table_of C.Truth.sort table.now) → OnOk result ((d : C.Row) → AsPlaces (view catalogue.now) words.now (C.Truth.sort.reads (slice_index_or working.new 0 d))) }
    ensures kept { Kept answer.old answer.new result }
    ensures beyond { drop 32 working.new ≡ drop 32 working.old }
{
    check_ask(catalogue, table.len(), answer.len(), working.len())?;
    let standing = catalogue.standing();
    let names = RowNames::<C> {
        rows: Rows { catalogue, table },
        all: all_kinds::<C>(&standing),
    };
    evaluate::<C, RowNames<'_, '_, C>>(words, &names, working)?;
    Ok(decode::<C>(&standing, table, working[0], answer))
}
