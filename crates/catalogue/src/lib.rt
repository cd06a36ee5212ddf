// A catalogue of kinds and lines: entering, withdrawing, closing, its image, and recalling kept answers.
#![tactic(auto)]

mod close;
mod enter;
mod image;
mod lookup;
mod recall;
mod seats;
mod sorted;
mod state;

pub use closing::ClosingLists;
pub use descent::{MAX_LINES, MAX_WIDTH};
pub use enter::SetUpFault;
pub use state::Catalogue;
