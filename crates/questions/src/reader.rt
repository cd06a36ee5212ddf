// Reads the words of a question one by one, where they lie.
ghost use Rattle.std.specs.Prelude.{◌≡◌, ◌+◌, [], ◌∷◌, MatchOption};
ghost use Rattle.std.specs.Iterator.{item_count};
ghost use Rattle.questions.specs.Reading.{unread, place};

use super::lent::{PlacedWord, Reader};

impl<'a> Reader<'a> {
    pub fn new(words: &'a [u32]) -> Reader<'a>
        ensures start { place result ≡ 0 }
        ensures whole { unread result ≡ words.now }
    {
        Reader { words, at: 0 }
    }
}

impl<'a> Iterator for Reader<'a> {
    type Item = PlacedWord;

    // Where no word is left, nothing changes.
    ghost next_gives = { λ old result new. MatchOption result
        ((unread old ≡ []) × (new ≡ old))
        (λ next. (next.index ≡ place old) × (place new ≡ place old + 1) × (unread old ≡ next.word ∷ unread new)) };

    ghost remaining = { item_count unread };

    fn next(&mut self) -> Option<PlacedWord> {
        let word = *self.words.get(self.at)?;
        let index = self.at;
        self.at += 1;
        Some(PlacedWord { index, word })
    }
}
