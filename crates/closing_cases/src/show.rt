// How a closing is shown: its outcome, the ring, and for each kind the kinds whose places its code has.
use codes::{Code, Truth};
use descent::{Kind, Line, Standing};
use std::io;
use words::{ClosingFault, Fault, WordKind, is_kind, low_bits};

// The most kinds of a ring that are all shown.
const SHOWN: usize = 12;

// As `show_done` shows it, but for the word, which would be a parameter that all other calls of that one set to the same.
pub fn show_outcome(rt: &HostRuntime, done: Result<(), ClosingFault>) -> io::Result<()> {
    match done {
        Ok(()) => println!(rt; "closed"),
        Err(fault) => println!(rt; "{}", fault.refusal()),
    }
}

pub fn row_has<C: Code + Drop>(table: &[C::Row], i: usize, j: usize) -> bool {
    table.get(i).is_some_and(|row| C::read(*row).has(j))
}

pub fn show_rows<C: Code + Drop>(
    rt: &HostRuntime,
    kinds: &[Kind],
    table: &[C::Row],
) -> io::Result<()> {
    for kind in kinds {
        print!(rt; "{}:", kind.serial)?;
        show_row::<C>(rt, kinds, table, kind.place)?;
    }
    Ok(())
}

fn show_row<C: Code + Drop>(
    rt: &HostRuntime,
    kinds: &[Kind],
    table: &[C::Row],
    place: usize,
) -> io::Result<()> {
    for other in kinds {
        if row_has::<C>(table, place, other.place) {
            print!(rt; " {}", other.serial)?;
        }
    }
    println!(rt; "")
}

fn places_of<C: Code + Drop>(row: C::Row) -> usize {
    let code = C::read(row);
    (0..C::places()).filter(|place| code.has(*place)).count()
}

// How many places the rows below the width have.
pub fn places_had<C: Code + Drop>(table: &[C::Row], width: usize) -> usize {
    table.iter().take(width).fold(
        0,
        |count: usize, row| count.saturating_add(places_of::<C>(*row)),
    )
}

// Whether each of these words is a name whose kind has the next as a parent; the last has the first.
fn goes_round(lines: &[Line], names: &[u32]) -> bool {
    let next = names.iter().skip(1).chain(names.first());
    !names.is_empty()
        && names.iter().zip(next).all(|(name, parent)| {
            is_kind(*name, WordKind::Name)
                && lines.contains(&Line {
                    child: low_bits(*name),
                    parent: low_bits(*parent),
                })
        })
}

fn show_names(rt: &HostRuntime, names: &[u32]) -> io::Result<()> {
    for name in names.iter().take(SHOWN) {
        print!(rt; " {}", low_bits(*name))?;
    }
    if names.len() > SHOWN {
        print!(rt; " ..")?;
    }
    println!(rt; "")
}

// The number of kinds in a told ring, where there is one.
pub fn ring_length(ring: &[u32]) -> Option<usize> {
    let head = ring.first()?;
    is_kind(*head, WordKind::RingHead).then_some(low_bits(*head) as usize)
}

pub fn show_ring(rt: &HostRuntime, standing: &Standing<'_>, ring: &[u32]) -> io::Result<()> {
    let told = ring_length(ring).and_then(|count| ring.get(1..count.saturating_add(1)));
    let Some(names) = told else {
        return println!(rt; "no ring");
    };
    print!(rt; "ring of {}:", names.len())?;
    show_names(rt, names)?;
    println!(rt;
        "each under the next: {}",
        goes_round(standing.lines, names)
    )
}
