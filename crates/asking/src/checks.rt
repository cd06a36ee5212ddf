// What is checked before a question is looked at: the lists that are handed in, and that the catalogue is closed.
ghost use Rattle.std.specs.Prelude.{not, [], ◌∷◌};
ghost use Rattle.words.specs.declared.refusal.Part.TheVariants as part;
ghost use Rattle.words.specs.Refusals.{Says, question_told, refusal, refuse_if, first_of, list_refusal};
ghost use Rattle.catalogue.specs.View.{view};
ghost use Rattle.asking.specs.Asking.{ask_refusal, fit_refusal};

use catalogue::Catalogue;
use questions::MAX_ENTRIES;
use words::{QuestionFault, need};

// The lists come as their lengths, beside the catalogue: `Rows`, which holds both, can be made only once they are checked.

// What every question needs: working values, and a closed catalogue.
fn check_ready(catalogue: &Catalogue, working: usize) -> Result<(), QuestionFault>
    ensures { Says question_told result (first_of (list_refusal working 32 ∷ refuse_if (not (view catalogue.now).book.closed) (refusal 12 0 part.Question) ∷ [])) }
{
    need(working, MAX_ENTRIES)?;
    if !catalogue.is_closed() {
        return Err(QuestionFault::Open);
    }
    Ok(())
}

pub(super) fn check_ask(
    catalogue: &Catalogue,
    table: usize,
    answer: usize,
    working: usize,
) -> Result<(), QuestionFault>
    ensures { Says question_told result (ask_refusal (view catalogue.now).book table answer working) }
{
    need(table, catalogue.width())?;
    need(answer, catalogue.width() + 1)?;
    check_ready(catalogue, working)
}

pub(super) fn check_fit(
    catalogue: &Catalogue,
    table: usize,
    working: usize,
) -> Result<(), QuestionFault>
    ensures { Says question_told result (fit_refusal (view catalogue.now).book table working) }
{
    need(table, catalogue.width())?;
    check_ready(catalogue, working)
}
