// The words that a reader was lent, and how far it has come.
ghost use Rattle.std.specs.Prelude.{◌≤◌, length};

// A word with its index in the question.
#[derive(Clone, Copy)]
pub struct PlacedWord {
    pub index: usize,
    pub word: u32,
}

// A place of its own over the question's words, which lie where the caller has them.
#[derive(Drop)]
pub struct Reader<'a> {
    pub(super) words: &'a [u32],
    pub(super) at: usize,
    ghost within: { at ≤ length words.now },
}
