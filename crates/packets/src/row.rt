// Packets as they lie in a list: any numbers at all.
#[derive(Clone, Copy)]
pub struct PacketRow {
    pub bounds: [u16; 512],
    pub len: usize,
}
