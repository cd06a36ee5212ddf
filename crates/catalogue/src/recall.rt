// Recalling a kept answer: of the kinds that it names, those that stand.
ghost use Rattle.std.specs.Prelude.{length};
ghost use Rattle.words.specs.Refusals.{Says, answer_told};
ghost use Rattle.formats.specs.Formats.{Listed, answer_of};
ghost use Rattle.catalogue.specs.Ledger.{recall, refused, still_standing};
ghost use Rattle.catalogue.specs.View.{view};

use super::state::Catalogue;
use words::AnswerFault;

impl Catalogue {
    // Writes the answer that holds those of the kinds named that stand, and tells how many words it has.
    pub fn recall(&self, words: &[u32], answer: &mut [u32]) -> Result<usize, AnswerFault>
        ensures says { Says answer_told result (refused (view self.now).book (recall words.now (length answer.old))) }
        ensures list { Listed (answer_of (still_standing (view self.now).book words.now)) answer.old answer.new result }
    {
        formats::recall(&self.standing(), words, answer)
    }
}
