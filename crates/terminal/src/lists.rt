// Lists of words as fields of a line.
ghost use Rattle.std.specs.Prelude.{◌≡◌, [], ◌∷◌, is_some, Some, MatchResult, OnOk};
ghost use Rattle.terminal.specs.declared.lists.FieldFault.TheVariants.{Memory};
ghost use Rattle.terminal.specs.Fields.{fields_left};
ghost use Rattle.terminal.specs.Lists.{words_in, Unread, spaced, ReadsBack};
ghost use Rattle.terminal.specs.Numbers.{Appends, hex_digits};

use super::fields::Fields;
use super::word::{hex_digits, parse_word};
use std::alloc::{AllocError, AllocFailed, Global};

// A field is not eight hexadecimal digits, or there is no memory for the words.
#[derive(Clone, Copy, PartialEq, Eq, Debug)]
pub enum FieldFault {
    NotWord,
    Memory,
}

impl<T: Drop> From<AllocFailed<T>> for FieldFault {
    ghost from_gives = { λ _ y. y ≡ Memory };

    fn from(_refused: AllocFailed<T>) -> FieldFault {
        FieldFault::Memory
    }
}

// Reads all the fields that are left. That each is a word is checked before memory is taken, so that a field that is
// none is always told.
pub fn parse_words(heap: Global, fields: &mut Fields<'_>) -> Result<Vec<u32>, FieldFault>
    ensures cases { MatchResult result (λ words. words_in (fields_left fields.old) ≡ Some words.items) (Unread (fields_left fields.old)) }
    ensures all { OnOk result (fields_left fields.new ≡ []) }
{
    if !all_words(*fields) {
        return Err(FieldFault::NotWord);
    }
    let mut words = Vec::new(heap);
    // No `for`: of a lent reader that one goes over, the proof does not learn what it left.
    while let Some(field) = fields.next() {
        let word = parse_word(field).unwrap();
        words.push(word)?;
    }
    Ok(words)
}

// Whether each field that is left is a word.
fn all_words(mut fields: Fields<'_>) -> bool
    ensures { result ≡ is_some (words_in (fields_left fields.entry)) }
{
    fields.all(|field| parse_word(field).is_some())
}

// Writes each word behind a space. Without memory, leaves `out` as it was.
pub fn write_words(out: &mut Vec<u8>, words: &[u32]) -> Result<(), AllocError>
    ensures after { Appends result out.old.items (spaced words.now) out.new.items }
    ensures back { ReadsBack words.now }
{
    let start = out.len();
    // No `try_for_each`: of a closure that writes to `out`, the proof does not learn what it wrote.
    for word in words {
        if let Err(fault) = write_spaced(out, *word) {
            out.truncate(start);
            return Err(fault);
        }
    }
    Ok(())
}

fn write_spaced(out: &mut Vec<u8>, word: u32) -> Result<(), AllocError>
    ensures { Appends result out.old.items (32 ∷ hex_digits word) out.new.items }
{
    let [a, b, c, d, e, f, g, h] = hex_digits(word);
    out.extend_from_slice(&[b' ', a, b, c, d, e, f, g, h])
}
