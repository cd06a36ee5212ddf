// Serials and counts, as decimal numbers.
ghost use Rattle.std.specs.Prelude.{◌≡◌, ◌≤◌, length, drop, decimal};
ghost use Rattle.terminal.specs.Numbers.{decimal_in, Appends, WritesDecimal};

use super::numeral::parse_numeral;
use std::alloc::AllocError;

// As many digits as the largest number of 64 bits has.
const MOST_DIGITS: usize = 20;

pub fn parse_decimal(field: &[u8]) -> Option<u32>
    ensures { result ≡ decimal_in field.now }
{
    if field.is_empty() {
        return None;
    }
    parse_numeral(field, 10)
}

// Without memory, leaves `out` as it was.
pub fn write_decimal(out: &mut Vec<u8>, number: u64) -> Result<(), AllocError>
    ensures after { Appends result out.old.items (decimal number) out.new.items }
    ensures digits { WritesDecimal number (decimal number) }
{
    let mut digits = [0u8; MOST_DIGITS];
    let start = fill_digits(&mut digits, number);
    out.extend_from_slice(&digits[start..MOST_DIGITS])
}

// Writes the digits to the end of the slice, the last one first, and gives the index of the first. By hand: the kit's `itoa` would be
// one library more to trust, and of a `Vec` that std prints to nothing is promised after an error.
fn fill_digits(digits: &mut [u8], number: u64) -> usize
    requires { length digits.old ≡ 20 }
    ensures within { result ≤ 20 }
    ensures digits { drop result digits.new ≡ decimal number }
{
    let mut at = MOST_DIGITS;
    let mut left = number;
    while left >= 10 {
        at -= 1;
        digits[at] = b'0' + (left % 10) as u8;
        left /= 10;
    }
    at -= 1;
    digits[at] = b'0' + left as u8;
    at
}
