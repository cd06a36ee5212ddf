// What is kept by rising key, and by which key.
ghost use Rattle.std.specs.Prelude.{◌≡◌, ℕ};
ghost use Rattle.words.specs.Words.{low_bits};
ghost use Rattle.descent.specs.Order.{line_key};

use descent::{Kind, Line};
use words::low_bits;

pub trait Keyed {
    ghost key: { Self → ℕ };

    fn key(&self) -> u64
        ensures { result ≡ key self.now };
}

impl Keyed for Kind {
    ghost key = { λ k. k.serial };

    fn key(&self) -> u64 {
        self.serial as u64
    }
}

// By rising child, then rising parent. One number and no pair, so that kinds, lines and words are searched by one contract over numbers.
impl Keyed for Line {
    ghost key = { line_key };

    fn key(&self) -> u64 {
        self.child as u64 * 0x1_0000_0000 + self.parent as u64
    }
}

// A word goes by its serial.
impl Keyed for u32 {
    ghost key = { low_bits };

    fn key(&self) -> u64 {
        low_bits(*self) as u64
    }
}
