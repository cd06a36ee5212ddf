// Is-a lines between kinds of part, and what follows from them: descent, rings, coverage, and the closure by places.
#![tactic(auto)]

mod kind;
mod line;
mod standing;
pub mod theorems;

pub use kind::Kind;
pub use line::Line;
pub use standing::{MAX_LINES, MAX_WIDTH, Standing};
