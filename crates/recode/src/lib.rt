// Both ways between bits and packets.
#![tactic(auto)]

mod between;

pub use between::{bits_again, bits_of, packets_again, packets_of};
