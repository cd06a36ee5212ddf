// Closing: the table of descents filled over any sort of code, and the ring that stops it.
#![tactic(auto)]

mod closing;
mod fill;
mod find;
mod lists;
mod marks;
mod ring;
mod rows;
mod told;

pub use closing::close;
pub use lists::ClosingLists;
