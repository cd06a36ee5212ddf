// Packets as pairs, and whether two packet codes are one.
ghost use Rattle.std.specs.Prelude.{◌≡◌, ℕ, ◌*◌, length, Decides};
ghost use Rattle.packets.specs.Bounds.{packet_at, SomePacketHas};
ghost use Rattle.packets.specs.Packets.{bounds_of, packets_have};
ghost use Rattle.codes.specs.Sorts.{Agree};

use super::value::Packets;

impl Packets {
    // The number of packets.
    pub fn count(&self) -> usize
        ensures { 2 * result ≡ length (bounds_of self.now) }
    {
        self.row.as_slice().len() / 2
    }

    // The first place of the packet at this index, and the first place after it. A place belongs where it lies in some packet.
    pub fn packet(&self, index: usize) -> Option<(usize, usize)>
        ensures value { result ≡ packet_at (bounds_of self.now) index }
        ensures belongs { (p : ℕ) → Decides (packets_have self.now p) (SomePacketHas (bounds_of self.now) p) }
    {
        let (pairs, _) = self.row.as_slice().as_chunks::<2>();
        let [first, after] = pairs.get(index)?;
        Some((usize::from(*first), usize::from(*after)))
    }

    // Each set has one packet code: the codes are equal exactly where they mean the same places.
    pub fn same(&self, other: &Packets) -> bool
        ensures equal { Decides result (self.now ≡ other.now) }
        ensures places { Decides result (Agree 512 (packets_have self.now) (packets_have other.now)) }
    {
        self.row.as_slice() == other.row.as_slice()
    }
}
