// The lists of a finder: its code table, and what its calls work in and write to.
ghost use Rattle.std.specs.Prelude.{◌≡◌, ◌++◌, min, length, IfOk};
ghost use Rattle.std.specs.Borrow.{sem, LendsBoth, Array};
ghost use Rattle.histories.specs.Calls.{rooms, rooms_of, full_rooms};
ghost use Rattle.histories.specs.Holds.{SameItems};

use catalogue::MAX_LINES;
use codes::{Code, Truth};
use questions::MAX_ENTRIES;
use std::alloc::{AllocError, Global};

// As they are lent to calls. They may have any length and hold anything. R is what the codes of a sort lie as.
#[derive(Drop)]
pub struct Lists<'a, R> {
    pub table: &'a mut [R],
    // For answers and images.
    pub words: &'a mut [u32],
    // For closing.
    pub marks: &'a mut [u8],
    pub walk: &'a mut [usize],
    pub ring: &'a mut [u32],
    // For asking.
    pub working: &'a mut [R],
    // For fitting.
    pub truths: &'a mut [bool],
}

// As a finder owns them.
#[derive(Drop)]
pub struct Memory<R> {
    pub table: Vec<R>,
    pub words: Vec<u32>,
    pub marks: Vec<u8>,
    pub walk: Vec<usize>,
    pub ring: Vec<u32>,
    pub working: Vec<R>,
    pub truths: Vec<bool>,
}

impl<R> Memory<R> {
    // All of them, for a call or more.
    #[inline(always)]
    pub fn lend(&mut self) -> Lists<'_, R>
        ensures rooms { rooms result ≡ rooms_of self.old }
        ensures items { SameItems self.old result }
    {
        Lists {
            table: &mut self.table,
            words: &mut self.words,
            marks: &mut self.marks,
            walk: &mut self.walk,
            ring: &mut self.ring,
            working: &mut self.working,
            truths: &mut self.truths,
        }
    }
}

// Lists that are long enough for every call on a catalogue of the sort's width.
pub fn full_memory<C: Code + Drop>(heap: Global) -> Result<Memory<C::Row>, AllocError>
    ensures { IfOk result (λ memory. rooms_of memory ≡ full_rooms C.Truth.sort.width) }
{
    let width = C::places();
    Ok(Memory {
        table: vec![in heap; C::empty().write(); width]?,
        words: vec![in heap; 0; 2 + width + 2 * MAX_LINES]?,
        marks: vec![in heap; 0; width]?,
        walk: vec![in heap; 0; width]?,
        ring: vec![in heap; 0; width + 1]?,
        working: vec![in heap; C::empty().write(); MAX_ENTRIES]?,
        truths: vec![in heap; false; MAX_ENTRIES]?,
    })
}

// A list in two: what a call is handed of it, which is as much as the call says or the whole of a shorter list, and the rest.
pub(crate) fn handed<T>(list: &mut [T], room: usize) -> (&mut [T], &mut [T])
    ensures* writes_back { sem 𝓛 (LendsBoth (Array T.row 0) (Array T.row 0) (Array T.row 0) list.entry result ◌++◌) }
    ensures whole { list.old ≡ result.0.now ++ result.1.now }
    ensures count { length result.0.now ≡ min room (length list.old) }
{
    let count = room.min(list.len());
    list.split_at_mut(count)
}
