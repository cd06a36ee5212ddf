// Codes in bits: one bit a place.
#![tactic(auto)]

mod code;
mod value;

pub use value::Bits;
