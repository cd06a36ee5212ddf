// Packets as a sort of code.
ghost use Rattle.packets.specs.Packets.{packets_sort};
ghost use Rattle.packets.specs.OnePackets.{packets_lawful};

use super::bounds::Bounds;
use super::row::PacketRow;
use super::value::Packets;
use codes::{Code, PLACES, Truth, within_width};
use words::CodeFault;

impl Truth for Packets {
    type Row = PacketRow;

    ghost sort = { packets_sort };

    ghost lawful = { packets_lawful };

    fn places() -> usize {
        PLACES
    }

    fn empty() -> Packets {
        Packets {
            row: Bounds::empty(),
        }
    }

    // What lies before the first packet of the other, between its packets and after its last is unset.
    fn meet(&mut self, other: &Packets) {
        let mut edge = 0;
        let (pairs, _) = other.row.as_slice().as_chunks::<2>();
        for [first, after] in pairs {
            self.unset_run(edge, usize::from(*first));
            edge = usize::from(*after);
        }
        self.unset_run(edge, PLACES);
    }

    // Each packet of the other is set.
    fn join(&mut self, other: &Packets) {
        let (pairs, _) = other.row.as_slice().as_chunks::<2>();
        for [first, after] in pairs {
            self.set_run(usize::from(*first), usize::from(*after));
        }
    }

    fn complement(&mut self) {
        *self = self.turned();
    }

    fn write(&self) -> PacketRow {
        self.row.row()
    }

    fn read(row: PacketRow) -> Packets {
        if !row.keeps_rule() {
            return <Packets as Truth>::empty();
        }
        Packets {
            row: Bounds::of_row(row),
        }
    }
}

impl Code for Packets {
    fn put(&mut self, place: usize) -> Result<(), CodeFault> {
        within_width(place)?;
        self.set_run(place, place + 1);
        Ok(())
    }

    fn take(&mut self, place: usize) -> Result<(), CodeFault> {
        within_width(place)?;
        self.unset_run(place, place + 1);
        Ok(())
    }

    // Where the number of bounds that are not above the place is odd, it lies in a packet.
    fn has(&self, place: usize) -> bool {
        if place >= PLACES {
            return false;
        }
        self.below(place + 1) % 2 == 1
    }

    // This place where it lies in a packet, else the first place of the next packet.
    fn next(&self, from: usize) -> Option<usize> {
        if from >= PLACES {
            return None;
        }
        let passed = self.below(from + 1);
        if passed % 2 == 1 {
            return Some(from);
        }
        let bound = self.row.as_slice().get(passed)?;
        Some(usize::from(*bound))
    }
}
