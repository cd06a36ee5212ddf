// Values that mean sets of places, whatever they are made of. Knows nothing of kinds.
#![tactic(auto)]

mod truth;
mod width;
mod yes_no;

pub use truth::{Code, Truth};
pub use width::within_width;

// The width of bits and of packets.
pub const PLACES: usize = 512;
