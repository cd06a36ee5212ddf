// Where the first kit ends in a file of kept answers, one behind the other.
ghost use Rattle.std.specs.Prelude.{◌≡◌, ℕ, ◌+◌, ◌<◌, ◌≤◌, true, false, ◌⊎◌, length, slice_index};
ghost use Rattle.words.specs.declared.word.WordKind.TheVariants.{AnswerHead};
ghost use Rattle.words.specs.Words.{is_kind, low_bits};
ghost use Rattle.protocol.specs.Kits.{before_head, kit_length};

use words::{WordKind, is_kind, low_bits};

// How many words the first kit has: none where there are no words. A kit ends behind as many names as its head counts, or before the
// next head if that comes first, so that a broken kit takes no other with it. Words before a head are a kit that is no answer.
pub fn kit_length(words: &[u32]) -> usize
    ensures value { result ≡ kit_length words.now }
    ensures some { 0 < length words.now → 0 < result }
    ensures within { result ≤ length words.now }
    ensures one { (k : ℕ) → 0 < k → k < result → is_kind AnswerHead (slice_index words.now k) ≡ false }
    ensures counted { is_kind AnswerHead (slice_index words.now 0) ≡ true → result ≤ low_bits (slice_index words.now 0) + 1 }
    ensures stops { result < length words.now → (is_kind AnswerHead (slice_index words.now result) ≡ true) ⊎ ((is_kind AnswerHead (slice_index words.now 0) ≡ true) × (result ≡ low_bits (slice_index words.now 0) + 1)) }
{
    let [head, rest @ ..] = words else {
        return 0;
    };
    // Cut first, so that no word behind the kit is looked at.
    let most = if is_kind(*head, WordKind::AnswerHead) {
        rest.len().min(low_bits(*head) as usize)
    } else {
        rest.len()
    };
    before_head(&rest[..most]) + 1
}

// How many words come before the next head.
fn before_head(words: &[u32]) -> usize
    ensures value { result ≡ before_head words.now }
    ensures within { result ≤ length words.now }
{
    words
        .iter()
        .take_while(|word| !is_kind(**word, WordKind::AnswerHead))
        .count()
}
