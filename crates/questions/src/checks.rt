// What is checked of a word before it is carried out.
ghost use Rattle.std.specs.Prelude.{◌≡◌, ◌≤◌, IfOk, MatchOption};
ghost use Rattle.codes.specs.Sorts.{Agree};
ghost use Rattle.words.specs.declared.word.LowBits.TheVariants as low;
ghost use Rattle.words.specs.Refusals.{Says, question_told};
ghost use Rattle.words.specs.Words.{low_bits};
ghost use Rattle.questions.specs.Questions.{most_entries, low_refusal, effect_refusal};

use super::lent::PlacedWord;
use super::names::Names;
use codes::Truth;
use words::{LowBits, QuestionFault, StackEffect};

// The most entries at a time.
pub const MAX_ENTRIES: usize = 32;

// The value of a word that names a kind, and none of a word whose low bits are 0, as they have to be.
pub(super) fn named_row<T: Truth, N: Names<T>>(
    names: &N,
    rule: LowBits,
    placed: PlacedWord,
) -> Result<Option<T::Row>, QuestionFault>
    ensures refused { Says question_told result (low_refusal (N.Names.standing names.now) placed.index rule (low_bits placed.word)) }
    ensures value { IfOk result (λ o. MatchOption o (rule ≡ low.Zero) (λ row. (rule ≡ low.Serial) × Agree T.Truth.sort.width (T.Truth.sort.reads row) (N.Names.named names.now (low_bits placed.word)))) }
{
    let low = words::low_bits(placed.word);
    match rule {
        LowBits::Serial => Ok(Some(names.name(low, placed.index)?)),
        LowBits::Zero if low == 0 => Ok(None),
        _ => Err(QuestionFault::NotQuestionWord(placed.index)),
    }
}

pub(super) fn check_effect(
    effect: StackEffect,
    depth: usize,
    index: usize,
) -> Result<(), QuestionFault>
    requires { depth ≤ most_entries }
    ensures { Says question_told result (effect_refusal index depth effect) }
{
    let kept = depth.saturating_sub(effect.takes);
    if effect.leaves > MAX_ENTRIES - kept {
        return Err(QuestionFault::TooDeep(index));
    }
    if depth < effect.takes {
        return Err(QuestionFault::TooFew(index));
    }
    Ok(())
}
