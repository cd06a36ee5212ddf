// The stack itself: lent slots, of which the first `depth` hold the entries.
ghost use Rattle.std.specs.Prelude.{◌≤◌, length};

// Every slot holds an entry.
#[derive(Clone, Copy, PartialEq, Eq, Debug)]
pub struct Full;

// A depth beside the slots, since the memory is lent and no stack may take its own. No model: clauses name the slots that were lent.
#[derive(Drop)]
pub struct Stack<'a, T> {
    pub(super) slots: &'a mut [T],
    pub(super) depth: usize,
    ghost within: { depth ≤ length slots.now },
}
