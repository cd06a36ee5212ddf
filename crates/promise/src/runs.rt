// Whole runs of calls on new finders, and the promise that two finders never disagree.
ghost use Rattle.std.specs.Prelude.{◌≡◌, List, map, MatchResult};
ghost use Rattle.catalogue.specs.declared.enter.SetUpFault.TheVariants.{Memory as NoMemory};
ghost use Rattle.catalogue.specs.Ledger.{blank};
ghost use Rattle.histories.specs.Calls.{rooms_of, heard};
ghost use Rattle.promise.specs.Runs.{shown, Followed};
ghost use Rattle.promise.specs.Promise.{run_of, Promised};

use super::keeping::{Kept, keep};
use catalogue::{Catalogue, SetUpFault};
use codes::{Code, Truth};
use histories::{Call, Memory, make};
use std::alloc::{AllocError, Global};

// Makes the calls on a new catalogue with this memory, and keeps what each said.
fn run<C: Code + Drop>(
    heap: Global,
    mut memory: Memory<C::Row>,
    calls: &[Call<'_>],
) -> Result<Vec<Kept>, SetUpFault>
    ensures { MatchResult result (λ said. Followed (blank C.Truth.sort.width) (map (heard (rooms_of memory)) calls.now) (map shown said.items)) (λ f. f ≡ NoMemory) }
{
    let mut catalogue = Catalogue::new(heap, C::places())?;
    let mut lists = memory.lend();
    let mut said = Vec::new(heap);
    for call in calls {
        let reply = make::<C>(&mut catalogue, &mut lists, *call);
        let kept = keep(heap, reply, &lists)?;
        said.push(kept).map_err(AllocError::from)?;
    }
    Ok(said)
}

// Makes two finders, one of each sort, makes the calls of each on it, and tells what each call said. Whatever the calls and the
// memory, the two never disagree.
pub fn compare<E: Code + Drop, W: Code + Drop>(
    heap: Global,
    east_memory: Memory<E::Row>,
    east_calls: &[Call<'_>],
    west_memory: Memory<W::Row>,
    west_calls: &[Call<'_>],
) -> Result<(Vec<Kept>, Vec<Kept>), SetUpFault>
    ensures { MatchResult result (λ said. Promised (run_of E.Truth.sort.width (rooms_of east_memory) east_calls.now said.0.items) (run_of W.Truth.sort.width (rooms_of west_memory) west_calls.now said.1.items)) (λ f. f ≡ NoMemory) }
{
    let east = run::<E>(heap, east_memory, east_calls)?;
    let west = run::<W>(heap, west_memory, west_calls)?;
    Ok((east, west))
}
