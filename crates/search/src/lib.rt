// Where a key stands in a row that is kept by rising key.
#![tactic(auto)]

mod keys;
mod spot;

pub use keys::Keyed;
pub use spot::{count_below, locate};
