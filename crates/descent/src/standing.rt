// What stands in a catalogue, lent to those who only read it.
ghost use Rattle.std.specs.Prelude.{◌≡◌, ℕ, ◌^◌, ◌≤◌, true, map};
ghost use Rattle.descent.specs.Order.{rising_from, line_key};
ghost use Rattle.descent.specs.Proper.{below, distinct, joining};

use super::kind::Kind;
use super::line::Line;

// The most places that a catalogue may have.
pub const MAX_WIDTH: usize = 512;

// The most lines that may stand.
pub const MAX_LINES: usize = 2048;

// Kinds by rising serial, each at a place of its own below the width; lines by rising child, then rising parent, each between two
// standing kinds.
#[derive(Drop)]
pub struct Standing<'a> {
    pub width: usize,
    pub kinds: &'a [Kind],
    pub lines: &'a [Line],
    ghost wide: { (1 ≤ width) × (width ≤ 512) },
    ghost rising: { rising_from 0 (map (λ k. k.serial) kinds.now) ≡ true },
    ghost serials: { below (2 ^ 28) (map (λ k. k.serial) kinds.now) ≡ true },
    ghost low: { below width (map (λ k. k.place) kinds.now) ≡ true },
    ghost apart: { distinct (map (λ k. k.place) kinds.now) ≡ true },
    ghost ordered: { rising_from 0 (map line_key lines.now) ≡ true },
    ghost joins: { joining (map (λ k. k.serial) kinds.now) lines.now ≡ true },
}
