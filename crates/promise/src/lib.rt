// Two finders over any two sorts of code, each after calls of its own, never disagree.
#![tactic(auto)]

mod keeping;
mod runs;

pub use keeping::Kept;
pub use runs::compare;
