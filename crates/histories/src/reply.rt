// What a call gives where it is accepted, or why it is refused.
ghost use Rattle.std.specs.Prelude.{◌≡◌, Err, IsOkAnd, MatchResult};
ghost use Rattle.histories.specs.declared.reply.Reply.TheVariants.{Done, Words, Verdict};

use words::{Fault, Refusal};

// W is what words are told by: how many of the list of words, from its start, or the words themselves.
#[derive(Drop)]
pub enum Reply<W> {
    // Nothing to tell.
    Done,
    Words(W),
    Verdict(bool),
}

impl From<()> for Reply<usize> {
    ghost from_gives = { λ _ y. y ≡ Done };

    fn from((): ()) -> Reply<usize> {
        Reply::Done
    }
}

impl From<usize> for Reply<usize> {
    ghost from_gives = { λ n y. y ≡ Words n };

    fn from(count: usize) -> Reply<usize> {
        Reply::Words(count)
    }
}

impl From<bool> for Reply<usize> {
    ghost from_gives = { λ is y. y ≡ Verdict is };

    fn from(yes: bool) -> Reply<usize> {
        Reply::Verdict(yes)
    }
}

// A result as a call tells it.
pub(crate) fn told<T: Into<Reply<usize>>, F: Fault + Drop>(
    given: Result<T, F>,
) -> Result<Reply<usize>, Refusal>
    ensures { MatchResult given (λ x. IsOkAnd result (T.Into.converts x)) (λ f. result ≡ Err (F.Fault.told f)) }
{
    match given {
        Ok(value) => Ok(value.into()),
        Err(fault) => Err(fault.refusal()),
    }
}
