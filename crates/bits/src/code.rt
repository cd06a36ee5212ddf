// Bits as a sort of code: word by word, and one word for one place.
ghost use Rattle.bits.specs.Bits.{bits_sort};
ghost use Rattle.std.proofs.Common.{rules, arith};

use super::value::{Bits, WORDS};
use codes::{Code, PLACES, Truth, within_width};
use words::CodeFault;

const WORD_BITS: usize = 64;

impl Truth for Bits {
    type Row = [u64; WORDS];

    ghost sort = { bits_sort };

    ghost lawful = { first_of (Prim.search rules, Prim.grind (arith, Self.row.coded.inj)) };

    fn places() -> usize {
        PLACES
    }

    fn empty() -> Bits {
        Bits { words: [0; WORDS] }
    }

    // The other's words are taken by index: after a zip over `iter_mut` nothing is known of what was written.
    fn meet(&mut self, other: &Bits) {
        for (i, word) in self.words.iter_mut().enumerate() {
            *word &= other.words[i];
        }
    }

    fn join(&mut self, other: &Bits) {
        for (i, word) in self.words.iter_mut().enumerate() {
            *word |= other.words[i];
        }
    }

    fn complement(&mut self) {
        for word in self.words.iter_mut() {
            *word = !*word;
        }
    }

    fn write(&self) -> [u64; WORDS] {
        self.words
    }

    fn read(row: [u64; WORDS]) -> Bits {
        Bits { words: row }
    }
}

impl Code for Bits {
    fn put(&mut self, place: usize) -> Result<(), CodeFault> {
        within_width(place)?;
        let i = place / WORD_BITS;
        self.words[i] |= 1 << (place % WORD_BITS);
        Ok(())
    }

    fn take(&mut self, place: usize) -> Result<(), CodeFault> {
        within_width(place)?;
        let i = place / WORD_BITS;
        self.words[i] &= !(1 << (place % WORD_BITS));
        Ok(())
    }

    fn has(&self, place: usize) -> bool {
        if place >= PLACES {
            return false;
        }
        (self.words[place / WORD_BITS] >> (place % WORD_BITS)) & 1 == 1
    }

    // What is left of the first word, and then the first word that is not 0. That word is at hand in the loop: an index
    // that only running tells, read after it, would force the row into memory.
    fn next(&self, from: usize) -> Option<usize> {
        if from >= PLACES {
            return None;
        }
        let first = from / WORD_BITS;
        let rest = self.words[first] >> (from % WORD_BITS);
        if rest != 0 {
            return Some(from + rest.trailing_zeros() as usize);
        }
        for (i, word) in self.words.iter().enumerate().skip(first + 1) {
            if *word != 0 {
                return Some(i * WORD_BITS + word.trailing_zeros() as usize);
            }
        }
        None
    }
}
