// The lists that a closing is lent.
ghost use Rattle.std.specs.Prelude.{◌≤◌};
ghost use Rattle.words.specs.Refusals.{Says, list_told};
ghost use Rattle.closing.specs.Closing.{lent_refusal};
ghost use Rattle.closing.specs.Lists.{lent_at};

use words::{ListFault, need};

// A row for each place, a mark and a step for each place, and the words of a ring.
#[derive(Drop)]
pub struct ClosingLists<'a, R> {
    pub table: &'a mut [R],
    pub marks: &'a mut [u8],
    pub walk: &'a mut [usize],
    pub ring: &'a mut [u32],
}

impl<R> ClosingLists<'_, R> {
    // Refuses a row of too few places, and lists that are too short.
    pub(crate) fn check(&self, w: usize, places: usize) -> Result<(), ListFault>
        requires { w ≤ 512 }
        ensures { Says list_told result (lent_refusal w places (lent_at self.now)) }
    {
        need(places, w)?;
        need(self.table.len(), w)?;
        need(self.marks.len(), w)?;
        need(self.walk.len(), w)?;
        need(self.ring.len(), w + 1)
    }
}
