// How many words a question has.
ghost use Rattle.words.specs.Refusals.{Says, question_told};
ghost use Rattle.questions.specs.Questions.{count_refusal};

use words::QuestionFault;

pub const MAX_WORDS: usize = 1_024;

pub fn check_count(words: &[u32]) -> Result<(), QuestionFault>
    ensures { Says question_told result (count_refusal words.now) }
{
    if words.is_empty() || words.len() > MAX_WORDS {
        return Err(QuestionFault::WordCount);
    }
    Ok(())
}
