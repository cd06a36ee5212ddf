// Digits of any base, read as a number of 32 bits.
ghost use Rattle.std.specs.Prelude.{◌≡◌, ◌≤◌};
ghost use Rattle.terminal.specs.Numbers.{numeral_in};

// `u32::from_str_radix` reads another language: it takes a plus before the digits.
#[tactic(auto, using(crate::proofs::Digits::numeral_large))]
pub(super) fn parse_numeral(field: &[u8], base: u32) -> Option<u32>
    requires low { 2 ≤ base }
    requires high { base ≤ 36 }
    ensures { result ≡ numeral_in base field.now }
{
    let mut value = 0u32;
    for byte in field {
        let digit = char::from(*byte).to_digit(base)?;
        let shifted = value.checked_mul(base)?;
        value = shifted.checked_add(digit)?;
    }
    Some(value)
}
