// A table of cases for every sort of code. A set of places is shown as its runs, <first, first after>.
#![tactic(auto)]

use bits::Bits;
use codes::{Code, Truth};
use packets::{PacketRow, Packets};
use recode::{bits_again, bits_of, packets_again, packets_of};
use std::io;
use words::{CodeFault, Fault, Part};

// The runs of a code, by asking for each place.
fn show<C: Code>(rt: &HostRuntime, label: &str, code: &C) -> io::Result<()> {
    print!(rt; "{label}:")?;
    let mut inside = false;
    for place in 0..C::places() {
        let has = code.has(place);
        if has && !inside {
            print!(rt; " <{place},")?;
        }
        if !has && inside {
            print!(rt; "{place}>")?;
        }
        inside = has;
    }
    if inside {
        print!(rt; "end>")?;
    }
    println!(rt; "")
}

// The places of a code, by asking for the next.
fn show_places<C: Code>(rt: &HostRuntime, label: &str, code: &C) -> io::Result<()> {
    print!(rt; "{label}:")?;
    for place in 0..C::places() {
        if code.next(place) == Some(place) {
            print!(rt; " {place}")?;
        }
    }
    println!(rt; "")
}

fn show_next<C: Code>(rt: &HostRuntime, code: &C, from: usize) -> io::Result<()> {
    match code.next(from) {
        Some(place) => println!(rt; "next from {from}: {place}"),
        None => println!(rt; "next from {from}: none"),
    }
}

fn show_change(
    rt: &HostRuntime,
    call: &str,
    place: usize,
    done: Result<(), CodeFault>,
) -> io::Result<()> {
    match done {
        Ok(()) => println!(rt; "{call} {place}: done"),
        Err(fault) => {
            let told = fault.refusal();
            println!(rt;
                "{call} {place}: refused {} at {}, by the code: {}",
                told.number,
                told.index,
                told.part == Part::Code
            )
        }
    }
}

fn with_runs<C: Code>(runs: &[(usize, usize)]) -> C {
    let mut code = C::empty();
    for (first, after) in runs {
        for place in *first..*after {
            let _ = code.put(place);
        }
    }
    code
}

// Every other place.
fn alternate<C: Code>() -> C {
    let mut code = C::empty();
    for place in (0..C::places()).step_by(2) {
        let _ = code.put(place);
    }
    code
}

fn place_cases<C: Code + Copy>(rt: &HostRuntime) -> io::Result<()> {
    let mut code: C = C::empty();
    for place in [0, 63, 64, 511, 512] {
        show_change(rt, "put", place, code.put(place))?;
    }
    show(rt, "put", &code)?;
    for place in [63, 511, 512, 100] {
        show_change(rt, "take", place, code.take(place))?;
    }
    show(rt, "take", &code)?;
    for from in [0, 1, 64, 65, 511, 512] {
        show_next(rt, &code, from)?;
    }
    println!(rt; "has 512: {}", code.has(512))
}

fn set_cases<C: Code + Copy>(rt: &HostRuntime) -> io::Result<()> {
    let a: C = with_runs(&[(4, 6), (12, 16), (18, 23)]);
    show(rt, "a", &a)?;
    show_places(rt, "a", &a)?;
    let b: C = with_runs(&[(0, 5), (6, 12), (20, 70), (500, 512)]);
    show(rt, "b", &b)?;
    let mut code = a;
    code.join(&b);
    show(rt, "a or b", &code)?;
    code = a;
    code.meet(&b);
    show(rt, "a and b", &code)?;
    code = a;
    code.complement();
    show(rt, "not a", &code)?;
    code.complement();
    show(rt, "not not a", &code)?;
    code = b;
    code.complement();
    show(rt, "not b", &code)?;
    show(rt, "a read again", &C::read(a.write()))
}

fn edge_cases<C: Code + Copy>(rt: &HostRuntime) -> io::Result<()> {
    let empty: C = C::empty();
    show(rt, "empty", &empty)?;
    let mut full = empty;
    full.complement();
    show(rt, "full", &full)?;
    let even: C = alternate();
    let mut odd = even;
    odd.complement();
    let mut code = even;
    code.meet(&odd);
    show(rt, "even and odd", &code)?;
    code = even;
    code.join(&odd);
    show(rt, "even or odd", &code)?;
    code = full;
    code.meet(&empty);
    show(rt, "full and empty", &code)?;
    code = empty;
    code.meet(&full);
    show(rt, "empty and full", &code)?;
    full.complement();
    show(rt, "not full", &full)
}

fn code_cases<C: Code + Copy>(rt: &HostRuntime, sort: &str) -> io::Result<()> {
    println!(rt; "-- {sort}")?;
    place_cases::<C>(rt)?;
    set_cases::<C>(rt)?;
    edge_cases::<C>(rt)
}

fn yes_no_cases(rt: &HostRuntime) -> io::Result<()> {
    println!(rt; "-- yes or no")?;
    for a in [false, true] {
        for b in [false, true] {
            let mut meet = a;
            meet.meet(&b);
            let mut join = a;
            join.join(&b);
            println!(rt; "{a} {b}: and {meet}, or {join}")?;
        }
        let mut other = a;
        other.complement();
        println!(rt;
            "not {a}: {other}; read again: {}",
            <bool as Truth>::read(a.write())
        )?;
    }
    println!(rt;
        "places {}, empty {}",
        <bool as Truth>::places(),
        <bool as Truth>::empty()
    )
}

fn show_packets(rt: &HostRuntime, label: &str, packets: &Packets) -> io::Result<()> {
    print!(rt; "{label}: {} packets", packets.count())?;
    for index in 0..3 {
        match packets.packet(index) {
            Some((first, after)) => print!(rt; " <{first},{after}>")?,
            None => print!(rt; " none")?,
        }
    }
    println!(rt; "")
}

fn run_cases(rt: &HostRuntime) -> io::Result<()> {
    println!(rt; "-- runs")?;
    let mut packets = <Packets as Truth>::empty();
    packets.set_run(10, 20);
    packets.set_run(20, 30);
    show_packets(rt, "touching", &packets)?;
    packets.set_run(35, 40);
    packets.set_run(30, 35);
    show_packets(rt, "closed gap", &packets)?;
    packets.unset_run(15, 17);
    show_packets(rt, "unset inside", &packets)?;
    packets.unset_run(0, 16);
    packets.unset_run(39, 600);
    show_packets(rt, "unset over the ends", &packets)?;
    packets.set_run(500, 600);
    packets.set_run(9, 9);
    packets.set_run(9, 8);
    show_packets(rt, "past the width, and no places", &packets)?;
    packets.set_run(0, 512);
    show_packets(rt, "all", &packets)?;
    let even: Packets = alternate();
    show_packets(rt, "even", &even)?;
    let mut odd = even;
    odd.complement();
    show_packets(rt, "odd", &odd)?;
    let apart = even.same(&odd);
    odd.complement();
    let same = even.same(&odd);
    println!(rt; "even is odd: {apart}; even is odd's complement: {same}")
}

fn both_ways(rt: &HostRuntime, label: &str, packets: &Packets) -> io::Result<()> {
    let bits = bits_of(packets);
    show(rt, label, &bits)?;
    let same = packets_of(&bits).same(packets) && packets_again(packets).same(packets);
    let words = bits_again(&bits) == bits;
    println!(rt; "{label}: the same packets {same}, the same bits {words}")
}

fn between_cases(rt: &HostRuntime) -> io::Result<()> {
    println!(rt; "-- between bits and packets")?;
    let mut packets = <Packets as Truth>::empty();
    both_ways(rt, "empty", &packets)?;
    packets.set_run(4, 6);
    packets.set_run(12, 16);
    packets.set_run(18, 23);
    both_ways(rt, "three", &packets)?;
    show_places(rt, "three", &bits_of(&packets))?;
    packets.set_run(60, 130);
    packets.set_run(511, 512);
    both_ways(rt, "across words", &packets)?;
    packets.set_run(0, 512);
    both_ways(rt, "full", &packets)?;
    let even: Packets = alternate();
    let bits: Bits = alternate();
    let same = packets_of(&bits).same(&even);
    println!(rt; "even: the same packets {same}")
}

fn row(start: &[u16], len: usize) -> PacketRow {
    let mut bounds = [0; 512];
    for (held, bound) in bounds.iter_mut().zip(start) {
        *held = *bound;
    }
    PacketRow { bounds, len }
}

fn show_row(rt: &HostRuntime, label: &str, start: &[u16], len: usize) -> io::Result<()> {
    show(rt, label, &<Packets as Truth>::read(row(start, len)))
}

fn row_cases(rt: &HostRuntime) -> io::Result<()> {
    println!(rt; "-- rows")?;
    show_row(rt, "kept", &[4, 6, 12, 512], 4)?;
    show_row(rt, "not rising", &[4, 6, 5, 9], 4)?;
    show_row(rt, "bounds that are equal", &[4, 6, 6, 9], 4)?;
    show_row(rt, "an odd count", &[4, 6, 12], 3)?;
    show_row(rt, "a bound above the width", &[4, 513], 2)?;
    show_row(rt, "more past the length", &[4, 6, 12, 16], 2)?;
    show_row(rt, "a length above the row", &[4, 6], 513)
}

fn main(rt: HostRuntime) -> io::Result<()> {
    yes_no_cases(&rt)?;
    code_cases::<Bits>(&rt, "bits")?;
    code_cases::<Packets>(&rt, "packets")?;
    run_cases(&rt)?;
    between_cases(&rt)?;
    row_cases(&rt)
}
