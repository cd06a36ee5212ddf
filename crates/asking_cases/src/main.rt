// The worked cases of asking, fitting and recalling in the clutch catalogue, over bits and over packets.
#![tactic(auto)]

mod tables;

use asking::{ask, fit};
use bits::Bits;
use catalogue::{Catalogue, MAX_WIDTH};
use closing::ClosingLists;
use codes::{Code, Truth};
use packets::Packets;
use questions::MAX_ENTRIES;
use showing::{set_up, show_done, show_verdict, show_words};
use std::alloc::Global;
use std::io;
use tables::{CLUTCHES, DRY, EDITS, KIT, QUESTIONS};
use words::ClosingFault;

// A head, and a name for each place.
const ANSWER: usize = 513;

fn clutches(heap: Global) -> io::Result<Catalogue> {
    let mut catalogue = set_up(heap, MAX_WIDTH)?;
    let _ = catalogue.read_image(&CLUTCHES);
    Ok(catalogue)
}

fn close<C: Code + Drop>(
    catalogue: &mut Catalogue,
    table: &mut [C::Row],
) -> Result<(), ClosingFault> {
    let mut marks = [0; MAX_WIDTH];
    let mut walk = [0; MAX_WIDTH];
    let mut ring = [0; ANSWER];
    catalogue.close::<C>(ClosingLists {
        table,
        marks: &mut marks,
        walk: &mut walk,
        ring: &mut ring,
    })
}

// A catalogue with its table.
#[derive(Drop)]
struct Asked<'a, C: Code> {
    catalogue: &'a Catalogue,
    table: &'a [C::Row],
}

impl<C: Code + Drop> Asked<'_, C> {
    // Asks with so many working values and so long an answer list.
    fn question(
        &self,
        rt: &HostRuntime,
        words: &[u32],
        values: usize,
        room: usize,
    ) -> io::Result<()> {
        let mut working = vec![in rt.alloc(); C::empty().write(); values]?;
        let mut answer = vec![in rt.alloc(); 0u32; room]?;
        let asked = ask::<C>(self.catalogue, self.table, words, &mut working, &mut answer);
        show_words(rt, asked, &answer)
    }

    fn questions(&self, rt: &HostRuntime) -> io::Result<()> {
        for (label, words) in QUESTIONS {
            print!(rt; "{label}: ")?;
            self.question(rt, words, MAX_ENTRIES, ANSWER)?;
        }
        Ok(())
    }

    fn long_question(&self, rt: &HostRuntime) -> io::Result<()> {
        print!(rt; "1,025 words: ")?;
        let words = vec![in rt.alloc(); DRY[0]; 1_025]?;
        self.question(rt, &words, MAX_ENTRIES, ANSWER)
    }

    fn short_lists(&self, rt: &HostRuntime) -> io::Result<()> {
        println!(rt; "without a table, 31 working values, 512 answer words:")?;
        let untabled = Asked::<C> {
            catalogue: self.catalogue,
            table: &[],
        };
        untabled.question(rt, &DRY, MAX_ENTRIES, ANSWER)?;
        self.question(rt, &DRY, 31, ANSWER)?;
        self.question(rt, &DRY, MAX_ENTRIES, 512)
    }

    fn fitting(&self, rt: &HostRuntime, serial: u32) -> io::Result<()> {
        print!(rt; "{serial} fits 10 and not 20: ")?;
        let mut working = [false; MAX_ENTRIES];
        show_verdict(
            rt,
            fit::<C>(self.catalogue, self.table, serial, &DRY, &mut working),
        )
    }

    // What is asked of the closed catalogue.
    fn closed_cases(&self, rt: &HostRuntime) -> io::Result<()> {
        self.questions(rt)?;
        self.long_question(rt)?;
        self.short_lists(rt)?;
        self.fitting(rt, 10)?;
        self.fitting(rt, 20)
    }
}

// The kit of 50, recalled.
fn recalled(rt: &HostRuntime, catalogue: &Catalogue) -> io::Result<()> {
    let mut answer = [0; ANSWER];
    show_words(rt, catalogue.recall(&KIT, &mut answer), &answer)
}

fn kit(rt: &HostRuntime, catalogue: &mut Catalogue) -> io::Result<()> {
    for (label, step) in EDITS {
        print!(rt; "{label}: ")?;
        let _ = step.carry_out(catalogue);
        recalled(rt, catalogue)?;
    }
    Ok(())
}

// The same calls over any sort of code.
fn cases<C: Code + Drop>(rt: &HostRuntime) -> io::Result<()> {
    let mut catalogue = clutches(rt.alloc())?;
    let mut table = vec![in rt.alloc(); C::empty().write(); MAX_WIDTH]?;
    let open = Asked::<C> {
        catalogue: &catalogue,
        table: &table,
    };
    open.question(rt, &DRY, MAX_ENTRIES, ANSWER)?;
    show_done(rt, close::<C>(&mut catalogue, &mut table))?;
    let closed = Asked::<C> {
        catalogue: &catalogue,
        table: &table,
    };
    closed.closed_cases(rt)?;
    kit(rt, &mut catalogue)
}

fn main(rt: HostRuntime) -> io::Result<()> {
    println!(rt; "== bits, open and then closed")?;
    cases::<Bits>(&rt)?;
    println!(rt; "== packets, open and then closed")?;
    cases::<Packets>(&rt)
}
