// A ring as words: a head with the number of kinds, and then their names.
ghost use Rattle.std.specs.Prelude.{◌≡◌, ℕ, ◌+◌, ◌<◌, ◌≤◌, List, ◌∷◌, ◌++◌, map, length, drop, find, ◌==◌};
ghost use Rattle.words.specs.Words.{word_of};
ghost use Rattle.words.specs.declared.word.WordKind.TheVariants.{RingHead, Name};
ghost use Rattle.closing.specs.Direct.{serial_at};

use descent::{Kind, Standing};
use words::{WordKind, make_word};

// The kind at this place.
fn kind_at(kinds: &[Kind], place: usize) -> Option<Kind>
    ensures { result ≡ find (λ k. k.place == place) kinds.now }
{
    kinds.iter().copied().find(|kind| kind.place == place)
}

// The serial of the kind at this place. 0 where there is none, as the definition has it: a ring has places of kinds alone.
fn serial_at(kinds: &[Kind], place: usize) -> u32
    ensures { result ≡ serial_at kinds.now place }
{
    kind_at(kinds, place).map_or(0, |kind| kind.serial)
}

pub(crate) fn write_ring(standing: &Standing<'_>, places: &[usize], ring: &mut [u32])
    requires room { length places.now < length ring.old }
    requires few { length places.now ≤ 512 }
    ensures { ring.new ≡ (word_of RingHead (length places.now) ∷ map (λ p. word_of Name (serial_at standing.now.kinds.now p)) places.now) ++ drop (length places.now + 1) ring.old }
{
    ring[0] = make_word(WordKind::RingHead, places.len() as u32);
    for (i, place) in places.iter().enumerate() {
        ring[i + 1] = make_word(WordKind::Name, serial_at(standing.kinds, *place));
    }
}
