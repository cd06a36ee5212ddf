// A run of names: the words after a head.
ghost use Rattle.std.specs.Prelude.{◌≡◌, ℕ, ◌^◌, ◌<◌, true, length, take, drop, IfOk};
ghost use Rattle.descent.specs.Order.{rising_from};
ghost use Rattle.words.specs.declared.refusal.Refusal.{Refusal};
ghost use Rattle.words.specs.Words.{low_bits};
ghost use Rattle.words.specs.Refusals.{Says, names_told};
ghost use Rattle.formats.specs.Formats.{name_refusal, names_refusal, serials_in};

use words::{NamesFault, WordKind, check_serial, is_kind, low_bits};

// Names that were checked.
#[derive(Clone, Copy)]
pub(crate) struct Names<'a> {
    pub(crate) words: &'a [u32],
    ghost rising: { rising_from 0 (serials_in words.now) ≡ true },
    ghost few: { length words.now < 2 ^ 32 },
}

// The serial of the name that is due at an index, above the one before.
fn check_name(word: u32, at: usize, last: u32) -> Result<u32, NamesFault>
    ensures says { (due : ℕ → Refusal) → Says (names_told due) result (name_refusal due last at word) }
    ensures serial { IfOk result (λ serial. serial ≡ low_bits word) }
{
    if !is_kind(word, WordKind::Name) {
        return Err(NamesFault::NotDue(at));
    }
    let serial = low_bits(word);
    check_serial(serial, at)?;
    if serial <= last {
        return Err(NamesFault::NotDue(at));
    }
    Ok(serial)
}

// So many names, their serials rising, and the words behind them. A head at index 0 is before the words.
pub(crate) fn check_names(words: &[u32], count: u32) -> Result<(Names<'_>, &[u32]), NamesFault>
    ensures says { (due : ℕ → Refusal) → Says (names_told due) result (names_refusal due count 0 1 words.now) }
    ensures names { IfOk result (λ parts. parts.0.words.now ≡ take count words.now) }
    ensures count { IfOk result (λ parts. length parts.0.words.now ≡ count) }
    ensures rest { IfOk result (λ parts. parts.1.now ≡ drop count words.now) }
{
    let mut last = 0;
    // By index: a chain over the words ends where they end, and the name missing there would be told in a second place.
    for i in 0..count as usize {
        let Some(word) = words.get(i) else {
            return Err(NamesFault::NotDue(i + 1));
        };
        last = check_name(*word, i + 1, last)?;
    }
    let (names, rest) = words.split_at(count as usize);
    Ok((Names { words: names }, rest))
}
