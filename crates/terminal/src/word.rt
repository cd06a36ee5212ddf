// A word as a field: eight hexadecimal digits.
ghost use Rattle.std.specs.Prelude.{◌≡◌, ◌<◌, Some};
ghost use Rattle.terminal.specs.Numbers.{word_in, hex_digit, hex_digits, Appends};

use super::numeral::parse_numeral;
use std::alloc::AllocError;

const WORD_DIGITS: usize = 8;

// Takes digits of either case.
#[tactic(auto, using(crate::proofs::Digits::word_fits))]
pub fn parse_word(field: &[u8]) -> Option<u32>
    ensures { result ≡ word_in field.now }
{
    if field.len() != WORD_DIGITS {
        return None;
    }
    parse_numeral(field, 16)
}

// Writes upper case. Without memory, leaves `out` as it was.
#[tactic(auto, using(crate::proofs::Digits::word_in_hex_digits))]
pub fn write_word(out: &mut Vec<u8>, word: u32) -> Result<(), AllocError>
    ensures after { Appends result out.old.items (hex_digits word) out.new.items }
    ensures back { word_in (hex_digits word) ≡ Some word }
{
    out.extend_from_slice(&hex_digits(word))
}

// The shift wraps, so that the closure may be called at any place.
pub(super) fn hex_digits(word: u32) -> [u8; WORD_DIGITS]
    ensures { result ≡ hex_digits word }
{
    [28u32, 24, 20, 16, 12, 8, 4, 0].map(|place| hex_digit(word.wrapping_shr(place) % 16))
}

fn hex_digit(digit: u32) -> u8
    requires { digit < 16 }
    ensures { result ≡ hex_digit digit }
{
    b"0123456789ABCDEF"[digit as usize]
}
