// The answer lines of the line protocol, and where a kept answer ends in a file of them.
#![tactic(auto)]

mod answers;
mod kits;
mod pieces;

pub use answers::{
    write_ok, write_ok_kits, write_ok_words, write_refusal, write_ring, write_verdict,
};
pub use kits::kit_length;
