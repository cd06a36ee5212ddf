// Five hundred and twelve places as packets: unbroken runs that lie apart, from the left.
ghost use Rattle.std.specs.Prelude.{◌≡◌, true};
ghost use Rattle.packets.specs.Bounds.{keeps_rule};

use super::bounds::Bounds;

#[derive(Clone, Copy, PartialEq, Eq)]
pub struct Packets {
    pub(crate) row: Bounds,
    ghost rule: { keeps_rule 512 row ≡ true },
}
