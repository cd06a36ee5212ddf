// Words in files: four bytes each, the most significant first.
ghost use Rattle.std.specs.Prelude.{◌≡◌, IfOk, MatchResult};
ghost use Rattle.words.specs.declared.files.DecodeFault.TheVariants.{Memory};
ghost use Rattle.words.specs.Files.{bytes_of, Decodes, Undecoded};

use std::alloc::{AllocError, AllocFailed, Global};

// The bytes end inside a word, or there is no memory for the words.
#[derive(Clone, Copy, PartialEq, Eq, Debug)]
pub enum DecodeFault {
    PartialWord,
    Memory,
}

impl<T: Drop> From<AllocFailed<T>> for DecodeFault {
    ghost from_gives = { λ _ y. y ≡ Memory };

    fn from(_refused: AllocFailed<T>) -> DecodeFault {
        DecodeFault::Memory
    }
}

pub fn encode(heap: Global, words: &[u32]) -> Result<Vec<u8>, AllocError>
    ensures { IfOk result (λ bytes. bytes.items ≡ bytes_of words.now) }
{
    let mut bytes = Vec::new(heap);
    for word in words {
        bytes.extend_from_slice(&word.to_be_bytes())?;
    }
    Ok(bytes)
}

// Turns the bytes that `encode` made back into the same words.
pub fn decode(heap: Global, bytes: &[u8]) -> Result<Vec<u32>, DecodeFault>
    ensures { MatchResult result (λ words. Decodes bytes.now words.items) (Undecoded bytes.now) }
{
    let (chunks, rest) = bytes.as_chunks::<4>();
    if !rest.is_empty() {
        return Err(DecodeFault::PartialWord);
    }
    let mut words = Vec::new(heap);
    for chunk in chunks {
        words.push(u32::from_be_bytes(*chunk))?;
    }
    Ok(words)
}
