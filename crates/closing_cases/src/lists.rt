// The lists that a closing is lent, filled with junk, and what is left of the junk.
use codes::{Code, Truth};
use std::alloc::Global;
use std::io;

const BYTE: u8 = 165;

const PLACE: usize = 777;

const WORD: u32 = 0xDEAD_BEEF;

// Two places that no row of these cases has together.
const LOW: usize = 3;

const HIGH: usize = 511;

// Rows, bytes, places and words that a list is longer than it has to be.
const MORE: usize = 2;

#[derive(Clone, Copy, Default)]
pub struct Lengths {
    pub table: usize,
    pub marks: usize,
    pub walk: usize,
    pub ring: usize,
}

impl Lengths {
    // What closing needs at this width.
    pub fn needed(width: usize) -> Lengths {
        Lengths {
            table: width,
            marks: width,
            walk: width,
            ring: width.saturating_add(1),
        }
    }

    pub fn longer(self) -> Lengths {
        Lengths {
            table: self.table.saturating_add(MORE),
            marks: self.marks.saturating_add(MORE),
            walk: self.walk.saturating_add(MORE),
            ring: self.ring.saturating_add(MORE),
        }
    }
}

#[derive(Drop)]
pub struct Lists<C: Code> {
    pub table: Vec<C::Row>,
    pub marks: Vec<u8>,
    pub walk: Vec<usize>,
    pub ring: Vec<u32>,
}

fn junk_row<C: Code + Drop>() -> C::Row {
    let mut code = C::empty();
    let _ = code.put(LOW);
    let _ = code.put(HIGH);
    code.write()
}

fn is_junk<C: Code + Drop>(row: C::Row) -> bool {
    let code = C::read(row);
    (0..C::places()).all(|place| code.has(place) == (place == LOW || place == HIGH))
}

pub fn make_lists<C: Code + Drop>(heap: Global, lengths: Lengths) -> io::Result<Lists<C>> {
    Ok(Lists {
        table: vec![in heap; junk_row::<C>(); lengths.table]?,
        marks: vec![in heap; BYTE; lengths.marks]?,
        walk: vec![in heap; PLACE; lengths.walk]?,
        ring: vec![in heap; WORD; lengths.ring]?,
    })
}

fn rows_kept<C: Code + Drop>(table: &[C::Row], from: usize) -> bool {
    table.iter().skip(from).all(|row| is_junk::<C>(*row))
}

fn kept<T: Copy + Eq>(list: &[T], from: usize, junk: T) -> bool {
    list.iter().skip(from).all(|one| *one == junk)
}

// Whether the junk still stands from these lengths on.
pub fn kept_beyond<C: Code + Drop>(lists: &Lists<C>, from: Lengths) -> bool {
    rows_kept::<C>(&lists.table, from.table)
        && kept(&lists.marks, from.marks, BYTE)
        && kept(&lists.walk, from.walk, PLACE)
        && kept(&lists.ring, from.ring, WORD)
}

// Whether the marks below this length are zero.
pub fn marks_zero(marks: &[u8], length: usize) -> bool {
    marks.iter().take(length).all(|mark| *mark == 0)
}
