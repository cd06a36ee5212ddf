// The catalogue's state, and what is always true of it.
ghost use Rattle.std.specs.Prelude.{◌≡◌, true, map};
ghost use Rattle.descent.specs.Proper.{joining};

use super::seats::Seats;
use super::sorted::Sorted;
use descent::Line;

// Lines by rising child, then rising parent, each between two standing kinds. Contracts see a catalogue through `view`: a model
// would hide what is always true of it from the crates that stand on it.
#[derive(Drop)]
pub struct Catalogue {
    pub(crate) seats: Seats,
    pub(crate) lines: Sorted<Line>,
    pub(crate) closed: bool,
    ghost most: { lines.most ≡ 2048 },
    ghost joins: { joining (map (λ k. k.serial) seats.kinds.entries.items) lines.entries.items ≡ true },
}
