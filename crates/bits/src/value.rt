// Five hundred and twelve places, one to a bit: place p is bit p % 64 of word p / 64.
ghost use Rattle.std.specs.Prelude.{◌≡◌, ℕ, ◌^◌, ◌<◌, length, slice_index};

pub(crate) const WORDS: usize = 8;

// Both ghost fields stay, though the array's type says as much of running code: the promise that each set has one code
// speaks of every value, and a value in a contract is a list of numbers.
#[derive(Clone, Copy, PartialEq, Eq)]
pub struct Bits {
    pub(crate) words: [u64; WORDS],
    ghost whole: { length words ≡ 8 },
    ghost fits: { (k : ℕ) → slice_index words k < 2 ^ 64 },
}
