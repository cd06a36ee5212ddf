// A stack over memory that its user lends, for every type of entry.
#![tactic(auto)]

mod lent;
mod moves;

pub use lent::{Full, Stack};
