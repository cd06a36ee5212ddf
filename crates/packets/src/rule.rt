// Whether a row keeps the rule of packets.
ghost use Rattle.std.specs.Prelude.{◌≡◌};
ghost use Rattle.packets.specs.Bounds.{rises};
ghost use Rattle.packets.specs.Packets.{zeros, row_keeps};

use super::row::PacketRow;
use codes::PLACES;

// The bounds rise strictly, and none is above the width.
fn rises(bounds: &[u16]) -> bool
    ensures { result ≡ rises 512 0 bounds.now }
{
    let mut low = 0;
    for bound in bounds {
        let bound = usize::from(*bound);
        if bound < low || bound > PLACES {
            return false;
        }
        low = bound + 1;
    }
    true
}

fn clear(past: &[u16]) -> bool
    ensures { result ≡ zeros past.now }
{
    past.iter().all(|bound| *bound == 0)
}

impl PacketRow {
    // There is 0 at each place past the bounds.
    pub(super) fn keeps_rule(&self) -> bool
        ensures { result ≡ row_keeps self.now }
    {
        match self.bounds.split_at_checked(self.len) {
            Some((held, past)) => held.len() % 2 == 0 && rises(held) && clear(past),
            None => false,
        }
    }
}
