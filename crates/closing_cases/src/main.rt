// Cases for the closing of a catalogue, over bits and over packets: tables, rings, and lists that are too short or too long.
#![tactic(auto)]

mod lists;
mod runs;
mod show;
mod tables;

use bits::Bits;
use codes::{Code, Truth};
use packets::Packets;
use runs::{long_ring, run_case, run_published, short_lists, tailed_ring};
use std::io;
use tables::{CASES, PUBLISHED};

fn cases<C: Code + Drop>(rt: &HostRuntime, sort: &str) -> io::Result<()> {
    println!(rt; "== {sort}")?;
    for case in CASES {
        run_case::<C>(rt, case)?;
    }
    long_ring::<C>(rt)?;
    tailed_ring::<C>(rt)?;
    short_lists::<C>(rt)?;
    for case in PUBLISHED {
        run_published::<C>(rt, case)?;
    }
    Ok(())
}

fn main(rt: HostRuntime) -> io::Result<()> {
    cases::<Bits>(&rt, "bits")?;
    cases::<Packets>(&rt, "packets")
}
