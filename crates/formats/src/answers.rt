// Kept answers: which words are one, and which of the kinds that it names still stand.
ghost use Rattle.std.specs.Prelude.{◌≡◌, ◌≤◌, ◌++◌, map, length, drop, IfOk};
ghost use Rattle.descent.specs.Lines.{serials_of, stands};
ghost use Rattle.words.specs.declared.word.WordKind.TheVariants.{Name};
ghost use Rattle.words.specs.Words.{word_of};
ghost use Rattle.words.specs.Refusals.{Says, answer_told};
ghost use Rattle.formats.specs.Formats.{Listed, answer_of, answer_refusal, recall_refusal, serials_in, named_in, still_among};

use super::names::{Names, check_names};
use super::writer::put;
use descent::Standing;
use search::locate;
use stack::Stack;
use words::{AnswerFault, WordKind, is_kind, low_bits, make_word, need};

// An answer is a head and exactly as many names as it counts, their serials rising. Gives the names.
fn check_answer(words: &[u32]) -> Result<Names<'_>, AnswerFault>
    ensures says { Says answer_told result (answer_refusal words.now) }
    ensures names { IfOk result (λ names. names.words.now ≡ drop 1 words.now) }
{
    let (head, rest) = match words {
        [head, rest @ ..] if is_kind(*head, WordKind::AnswerHead) => (*head, rest),
        _ => return Err(AnswerFault::NotAnswer(0)),
    };
    let count = low_bits(head);
    let (names, after) = check_names(rest, count)?;
    if !after.is_empty() {
        return Err(AnswerFault::NotAnswer(count as usize + 1));
    }
    Ok(names)
}

// Whether a kind stands.
fn is_standing(standing: &Standing<'_>, serial: u32) -> bool
    ensures { result ≡ stands serial (serials_of standing.now.kinds.now) }
{
    locate(standing.kinds, serial as u64).is_ok()
}

// Writes those of the names that stand, and tells how many.
fn write_standing(standing: &Standing<'_>, names: Names<'_>, list: &mut [u32]) -> usize
    requires { standing.now.width ≤ length list.old }
    ensures count { result ≡ length (still_among (serials_of standing.now.kinds.now) (serials_in names.entry.words.now)) }
    ensures list { list.new ≡ map (word_of Name) (still_among (serials_of standing.now.kinds.now) (serials_in names.entry.words.now)) ++ drop result list.old }
{
    let mut kept = Stack::new(list);
    for word in names.words {
        let serial = low_bits(*word);
        if is_standing(standing, serial) {
            put(&mut kept, WordKind::Name, serial);
        }
    }
    kept.depth()
}

// Writes the answer that holds those of the kinds named that stand, and tells how many words it has.
pub fn recall(
    standing: &Standing<'_>,
    words: &[u32],
    answer: &mut [u32],
) -> Result<usize, AnswerFault>
    ensures says { Says answer_told result (recall_refusal standing.now.width words.now (length answer.old)) }
    ensures list { Listed (answer_of (still_among (serials_of standing.now.kinds.now) (named_in words.now))) answer.old answer.new result }
{
    need(answer.len(), standing.width + 1)?;
    let names = check_answer(words)?;
    let count = write_standing(standing, names, &mut answer[1..]);
    // The head counts what was kept, so it comes last.
    answer[0] = make_word(WordKind::AnswerHead, count as u32);
    Ok(count + 1)
}
