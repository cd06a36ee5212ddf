// Both ways between bits and packets.
ghost use Rattle.std.specs.Prelude.{◌≡◌};
ghost use Rattle.recode.specs.Between.{Twins};

use bits::Bits;
use codes::{Code, PLACES, Truth};
use packets::Packets;

// The one packet code of these bits, run by run: a run begins at a place that is in, and ends at the next that is out.
pub fn packets_of(bits: &Bits) -> Packets
    ensures { Twins bits.now result }
{
    let mut gaps = *bits;
    gaps.complement();
    let mut packets = <Packets as Truth>::empty();
    // No range to go over: each search begins where the last run ended.
    let mut from = 0;
    while let Some(start) = bits.next(from) {
        let end = gaps.next(start).unwrap_or(PLACES);
        packets.set_run(start, end);
        from = end;
    }
    packets
}

// The one code in bits of these packets.
pub fn bits_of(packets: &Packets) -> Bits
    ensures { Twins result packets.now }
{
    let mut bits = <Bits as Truth>::empty();
    // Packet by packet, so that no place is searched for.
    for index in 0..packets.count() {
        if let Some((first, after)) = packets.packet(index) {
            for place in first..after {
                let _ = bits.put(place);
            }
        }
    }
    bits
}

// Bits turned into packets and back are the same bits.
pub fn bits_again(bits: &Bits) -> Bits
    ensures { result ≡ bits.now }
{
    bits_of(&packets_of(bits))
}

// Packets turned into bits and back are the same packets.
pub fn packets_again(packets: &Packets) -> Packets
    ensures { result ≡ packets.now }
{
    packets_of(&bits_of(packets))
}
