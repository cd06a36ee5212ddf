// Questions about kinds: reading their words, and evaluating them over any truth sort. Knows nothing of catalogues.
#![tactic(auto)]

mod checks;
mod count;
mod evaluation;
mod lent;
mod names;
mod reader;
mod rows;
mod step;
pub mod theorems;

pub use checks::MAX_ENTRIES;
pub use count::{MAX_WORDS, check_count};
pub use evaluation::evaluate;
pub use lent::{PlacedWord, Reader};
pub use names::Names;
