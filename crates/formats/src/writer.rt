// Words written one behind another: a stack over the list that is lent.
ghost use Rattle.std.specs.Prelude.{◌≡◌, ◌<◌, [], ◌∷◌, length};
ghost use Rattle.words.specs.Words.{low_bits, word_of};
ghost use Rattle.formats.specs.Writing.{Writes};

use stack::Stack;
use words::{WordKind, make_word};

// Writes the word of this kind with these low bits, where there is room.
pub(crate) fn put(list: &mut Stack<'_, u32>, kind: WordKind, low: u32)
    requires { list.old.depth < length list.old.slots.now }
    ensures writes { Writes list.old list.new (word_of kind (low_bits low) ∷ []) }
    ensures lender { list.new.slots.ghost_name ≡ list.old.slots.ghost_name }
{
    let _ = list.push(make_word(kind, low));
}
