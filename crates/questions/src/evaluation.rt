// Evaluates a question in memory that the caller lends.
ghost use Rattle.std.specs.Prelude.{◌≡◌, [], ◌∷◌, length, drop, OnOk};
ghost use Rattle.words.specs.Refusals.{Says, question_told, first_of, list_refusal};
ghost use Rattle.questions.specs.Questions.{most_entries, question_refusal, count_refusal, value_of};
ghost use Rattle.questions.specs.Entries.{FirstReads};

use super::checks::MAX_ENTRIES;
use super::count::check_count;
use super::lent::Reader;
use super::names::Names;
use super::step::step;
use codes::Truth;
use stack::Stack;
use words::QuestionFault;

// Carries out every word, from an empty stack on, and leaves the question's value in the first of the slots that it works in.
fn run<T: Truth + Drop, N: Names<T>>(
    words: &[u32],
    names: &N,
    slots: &mut [T::Row],
) -> Result<(), QuestionFault>
    requires { length slots.old ≡ most_entries }
    ensures refused { Says question_told result (question_refusal (N.Names.standing names.now) words.now) }
    ensures value { OnOk result (FirstReads T.Truth.sort (value_of (N.Names.named names.now) (N.Names.whole names.now) words.now) slots.new) }
{
    let mut stack = Stack::new(slots);
    for placed in Reader::new(words) {
        step::<T, N>(names, placed, &mut stack)?;
    }
    if stack.depth() != 1 {
        return Err(QuestionFault::NotOneLeft);
    }
    Ok(())
}

// Leaves the question's value in the first slot. The slots up to the most entries are worked in; the others stay.
pub fn evaluate<T: Truth + Drop, N: Names<T>>(
    words: &[u32],
    names: &N,
    slots: &mut [T::Row],
) -> Result<(), QuestionFault>
    ensures refused { Says question_told result (first_of (list_refusal (length slots.old) most_entries ∷ count_refusal words.now ∷ question_refusal (N.Names.standing names.now) words.now ∷ [])) }
    ensures value { OnOk result (FirstReads T.Truth.sort (value_of (N.Names.named names.now) (N.Names.whole names.now) words.now) slots.new) }
    ensures beyond { drop most_entries slots.new ≡ drop most_entries slots.old }
{
    words::need(slots.len(), MAX_ENTRIES)?;
    check_count(words)?;
    run::<T, N>(words, names, &mut slots[0..MAX_ENTRIES])
}
