// Setting and unsetting runs of places, on which meet, join, put and take stand, and the complement.
ghost use Rattle.std.specs.Prelude.{◌≡◌, ◌≤◌, length, not, ◌&&◌, ◌||◌, if◌then◌else◌, nat_le, nat_lt};
ghost use Rattle.packets.specs.Bounds.{count_below};
ghost use Rattle.packets.specs.Packets.{bounds_of, packets_have};
ghost use Rattle.codes.specs.Sorts.{Agree};

use super::bounds::Bounds;
use super::value::Packets;
use codes::PLACES;

impl Packets {
    // How many bounds lie below n.
    pub(super) fn below(&self, n: usize) -> usize
        ensures count { result ≡ count_below n (bounds_of self.now) }
        ensures within { result ≤ length (bounds_of self.now) }
    {
        self.row
            .as_slice()
            .partition_point(|bound| usize::from(*bound) < n)
    }

    // The places from start on and below end are all in or all out, by value; the others are as they were.
    // A bound stands at either end only where the places beside it differ, so that runs that touch are one packet.
    fn with_run(self, start: usize, end: usize, value: bool) -> Packets
        ensures { Agree 512 (packets_have result) (λ p. (if nat_le start p && nat_lt p end then value else packets_have self p)) }
    {
        let stop = end.min(PLACES);
        if start >= stop {
            return self;
        }
        let held = self.row.as_slice();
        let before = self.below(start);
        let through = self.below(stop + 1);
        let mut row = Bounds::empty();
        row.extend(&held[..before]);
        row.push_if((before % 2 == 1) != value, start as u16);
        row.push_if((through % 2 == 1) != value, stop as u16);
        row.extend(&held[through..]);
        Packets { row }
    }

    // Puts in the places from start on and below end; those past the width are left out.
    pub fn set_run(&mut self, start: usize, end: usize)
        ensures { Agree 512 (packets_have self.new) (λ p. (nat_le start p && nat_lt p end) || packets_have self.old p) }
    {
        *self = self.with_run(start, end, true);
    }

    // Takes out the places from start on and below end.
    pub fn unset_run(&mut self, start: usize, end: usize)
        ensures { Agree 512 (packets_have self.new) (λ p. not (nat_le start p && nat_lt p end) && packets_have self.old p) }
    {
        *self = self.with_run(start, end, false);
    }

    // The places that are out. The bounds stay, but for one at 0 and one at 512, which come or go.
    pub(super) fn turned(self) -> Packets
        ensures { Agree 512 (packets_have result) (λ p. not (packets_have self p)) }
    {
        let held = self.row.as_slice();
        let from = self.below(1);
        let to = self.below(PLACES);
        let mut row = Bounds::empty();
        row.push_if(from == 0, 0);
        row.extend(&held[from..to]);
        row.push_if(to == held.len(), 512);
        Packets { row }
    }
}
