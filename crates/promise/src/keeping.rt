// What a call said, kept while later calls write to its lists.
ghost use Rattle.std.specs.Prelude.{◌≡◌, take, IfOk};
ghost use Rattle.histories.specs.Sayings.{said};
ghost use Rattle.promise.specs.Runs.{shown};

use histories::{Lists, Reply};
use std::alloc::{AllocError, Global};
use words::Refusal;

// With the words themselves.
pub type Kept = Result<Reply<Vec<u32>>, Refusal>;

pub(crate) fn keep<R>(
    heap: Global,
    reply: Result<Reply<usize>, Refusal>,
    lists: &Lists<'_, R>,
) -> Result<Kept, AllocError>
    ensures { IfOk result (λ kept. shown kept ≡ said (λ count. take count lists.now.words.now) reply) }
{
    match reply {
        Ok(Reply::Done) => Ok(Ok(Reply::Done)),
        Ok(Reply::Words(count)) => {
            let told = lists.words[..count.min(lists.words.len())].to_vec(heap)?;
            Ok(Ok(Reply::Words(told)))
        }
        Ok(Reply::Verdict(yes)) => Ok(Ok(Reply::Verdict(yes))),
        Err(refusal) => Ok(Err(refusal)),
    }
}
