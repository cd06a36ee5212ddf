// Each case set up, closed and shown.
use super::lists::{Lengths, Lists, kept_beyond, make_lists, marks_zero};
use super::show::{places_had, ring_length, row_has, show_outcome, show_ring, show_rows};
use super::tables::{CLUTCH, Case, Published};
use catalogue::Catalogue;
use closing::ClosingLists;
use codes::{Code, Truth};
use descent::Kind;
use showing::set_up;
use std::alloc::Global;
use std::io;
use words::ClosingFault;

fn enter_lines(catalogue: &mut Catalogue, lines: &[(u32, u32)]) {
    for (child, parent) in lines {
        let _ = catalogue.enter_line(*child, *parent);
    }
}

// With one place more than there are kinds, so that one stays free.
fn build(heap: Global, case: Case) -> io::Result<Catalogue> {
    let mut catalogue = set_up(heap, case.kinds.len().saturating_add(1))?;
    for serial in case.kinds {
        let _ = catalogue.enter(*serial);
    }
    enter_lines(&mut catalogue, case.lines);
    Ok(catalogue)
}

fn close<C: Code + Drop>(
    catalogue: &mut Catalogue,
    lists: &mut Lists<C>,
) -> Result<(), ClosingFault> {
    catalogue.close::<C>(ClosingLists {
        table: &mut lists.table,
        marks: &mut lists.marks,
        walk: &mut lists.walk,
        ring: &mut lists.ring,
    })
}

// Closes over lists that are longer than needed; shows the outcome, the ring, and that the marks are zero and the rest is kept.
fn closed<C: Code + Drop>(rt: &HostRuntime, catalogue: &mut Catalogue) -> io::Result<Lists<C>> {
    let width = catalogue.standing().width;
    let mut lists = make_lists::<C>(rt.alloc(), Lengths::needed(width).longer())?;
    let done = close::<C>(catalogue, &mut lists);
    let refused = done.is_err();
    show_outcome(rt, done)?;
    if refused {
        show_ring(rt, &catalogue.standing(), &lists.ring)?;
    }
    let zero = marks_zero(&lists.marks, width);
    let ring = if refused {
        ring_length(&lists.ring).map_or(0, |count| count.saturating_add(1))
    } else {
        0
    };
    let kept = kept_beyond::<C>(
        &lists,
        Lengths {
            ring,
            ..Lengths::needed(width)
        },
    );
    let had = places_had::<C>(&lists.table, width);
    println!(rt; "places had: {had}, marks zero: {zero}, rest kept: {kept}")?;
    Ok(lists)
}

pub fn run_case<C: Code + Drop>(rt: &HostRuntime, case: Case) -> io::Result<()> {
    println!(rt; "-- {}", case.label)?;
    let mut catalogue = build(rt.alloc(), case)?;
    let lists = closed::<C>(rt, &mut catalogue)?;
    show_rows::<C>(rt, catalogue.standing().kinds, &lists.table)
}

fn counted(heap: Global, width: usize, last: u32) -> io::Result<Catalogue> {
    let mut catalogue = set_up(heap, width)?;
    for serial in 1..last {
        let _ = catalogue.enter(serial);
    }
    let _ = catalogue.enter(last);
    for serial in 1..last {
        let _ = catalogue.enter_line(serial, serial.saturating_add(1));
    }
    Ok(catalogue)
}

// The same kinds first in a row, and then in a ring.
pub fn long_ring<C: Code + Drop>(rt: &HostRuntime) -> io::Result<()> {
    println!(rt; "-- three hundred kinds in a row")?;
    let mut catalogue = counted(rt.alloc(), 300, 300)?;
    let _ = closed::<C>(rt, &mut catalogue)?;
    println!(rt; "-- a ring of them")?;
    let _ = catalogue.enter_line(300, 1);
    let _ = closed::<C>(rt, &mut catalogue)?;
    println!(rt; "-- the ring undone")?;
    let _ = catalogue.withdraw_line(150, 151);
    let _ = closed::<C>(rt, &mut catalogue)?;
    Ok(())
}

// Kinds above the ring have serials on both sides of its own, so that the walk has to pass them by.
pub fn tailed_ring<C: Code + Drop>(rt: &HostRuntime) -> io::Result<()> {
    println!(rt; "-- a ring of 98, 99 and 100 over a tail from 2 to 97, under 1 and 101")?;
    let mut catalogue = counted(rt.alloc(), 102, 101)?;
    let _ = catalogue.withdraw_line(1, 2);
    for parent in [1, 101] {
        let _ = catalogue.enter_line(99, parent);
    }
    let _ = catalogue.enter_line(100, 98);
    let _ = closed::<C>(rt, &mut catalogue)?;
    Ok(())
}

fn short_list<C: Code + Drop>(rt: &HostRuntime, label: &str, lengths: Lengths) -> io::Result<()> {
    let mut catalogue = build(rt.alloc(), CLUTCH)?;
    let mut lists = make_lists::<C>(rt.alloc(), lengths)?;
    print!(rt; "{label}: ")?;
    show_outcome(rt, close::<C>(&mut catalogue, &mut lists))?;
    println!(rt;
        "all kept: {}",
        kept_beyond::<C>(&lists, Lengths::default())
    )
}

pub fn short_lists<C: Code + Drop>(rt: &HostRuntime) -> io::Result<()> {
    println!(rt; "-- lists of clutch parts, six places wide")?;
    let enough = Lengths::needed(6);
    short_list::<C>(rt, "five rows", Lengths { table: 5, ..enough })?;
    short_list::<C>(rt, "five marks", Lengths { marks: 5, ..enough })?;
    short_list::<C>(rt, "a walk of five", Lengths { walk: 5, ..enough })?;
    short_list::<C>(rt, "six words for a ring", Lengths { ring: 6, ..enough })?;
    short_list::<C>(rt, "as long as needed", enough)
}

fn name_of(names: &[&'static str], serial: u32) -> &'static str {
    names
        .get((serial as usize).saturating_sub(1))
        .copied()
        .unwrap_or("?")
}

// The code as it is published, its last index first, and then the kinds by name.
fn show_code<C: Code + Drop>(
    rt: &HostRuntime,
    kinds: &[Kind],
    table: &[C::Row],
    names: &[&'static str],
    place: usize,
) -> io::Result<()> {
    for other in kinds.iter().rev() {
        let has = u8::from(row_has::<C>(table, place, other.place));
        print!(rt; "{has}")?;
    }
    for other in kinds.iter().rev() {
        if row_has::<C>(table, place, other.place) {
            print!(rt; " {}", name_of(names, other.serial))?;
        }
    }
    println!(rt; "")
}

fn build_published(heap: Global, case: Published) -> io::Result<Catalogue> {
    let mut catalogue = set_up(heap, case.names.len())?;
    for (serial, _) in (1..u32::MAX).zip(case.names) {
        let _ = catalogue.enter(serial);
    }
    enter_lines(&mut catalogue, case.lines);
    Ok(catalogue)
}

pub fn run_published<C: Code + Drop>(rt: &HostRuntime, case: Published) -> io::Result<()> {
    println!(rt; "-- {}", case.label)?;
    let mut catalogue = build_published(rt.alloc(), case)?;
    let lists = closed::<C>(rt, &mut catalogue)?;
    let standing = catalogue.standing();
    for kind in standing.kinds.iter().rev() {
        print!(rt; "{} ", name_of(case.names, kind.serial))?;
        show_code::<C>(rt, standing.kinds, &lists.table, case.names, kind.place)?;
    }
    Ok(())
}
