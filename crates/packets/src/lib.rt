// Packet codes: unbroken runs of places, from the left.
#![tactic(auto)]

mod bounds;
mod code;
mod row;
mod rule;
mod runs;
mod shown;
mod value;

pub use row::PacketRow;
pub use value::Packets;
