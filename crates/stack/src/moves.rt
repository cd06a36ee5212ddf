// What a stack can do. A push leaves the slots beyond the entries as they were; a pop leaves its entry behind in its slot. Each move says
// that the slots are the lender's still (`SameSlots`): a field that is lent could be given others.
ghost use Rattle.std.specs.Prelude.{◌≡◌, [], ◌∷◌, ◌++◌, length, MatchOption, MatchResult};
ghost use Rattle.stack.specs.Held.{held, room, SameSlots, SameBeyond};

use super::lent::{Full, Stack};

impl<'a, T: Copy> Stack<'a, T> {
    // An empty stack. When it is gone, the lender's slots begin with what it held last.
    pub fn new(slots: &'a mut [T]) -> Stack<'a, T>
        ensures empty { held result ≡ [] }
        ensures same { result.slots.now ≡ slots.old }
        ensures lender { result.slots.ghost_name ≡ slots.entry.ghost_name }
    {
        Stack { slots, depth: 0 }
    }

    // How many entries the stack holds.
    pub fn depth(&self) -> usize
        ensures { result ≡ length (held self.now) }
    {
        self.depth
    }

    pub fn push(&mut self, entry: T) -> Result<(), Full>
        ensures cases { MatchResult result (λ _. held self.new ≡ held self.old ++ entry ∷ []) (λ _. (length (held self.old) ≡ room self.old) × (self.new ≡ self.old)) }
        ensures slots { SameSlots self.old self.new }
        ensures beyond { SameBeyond self.old self.new }
    {
        if self.depth == self.slots.len() {
            return Err(Full);
        }
        self.slots[self.depth] = entry;
        self.depth += 1;
        Ok(())
    }

    // The entry that was pushed last.
    pub fn pop(&mut self) -> Option<T>
        ensures cases { MatchOption result ((held self.old ≡ []) × (self.new ≡ self.old)) (λ entry. held self.old ≡ held self.new ++ entry ∷ []) }
        ensures slots { SameSlots self.old self.new }
    {
        if self.depth == 0 {
            return None;
        }
        self.depth -= 1;
        Some(self.slots[self.depth])
    }
}
