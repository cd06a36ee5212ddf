// Entries that are kept by rising key, and found by halving.
ghost use Rattle.std.specs.Prelude.{◌≡◌, ◌<◌, ◌≤◌, true, [], ◌∷◌, ◌++◌, map, length, IfOk, nat_le, vec_len, vec_capacity, slice_index_or};
ghost use Rattle.std.specs.List.{insert, remove};
ghost use Rattle.descent.specs.Order.{rising_from};
ghost use Rattle.search.specs.Order.{Located};

use search::{Keyed, locate};
use std::alloc::{AllocError, Global};

// No more than `most` entries. A map would do, but it takes memory when an entry goes in, and here all is taken at set-up. Each change
// says that `most` and the memory stay, since a field that is lent could be given another value.
#[derive(Drop)]
pub struct Sorted<T: Keyed + Drop> {
    pub(crate) most: usize,
    pub(crate) entries: Vec<T>,
    ghost room: { most ≤ vec_capacity entries },
    ghost few: { vec_len entries ≤ most },
    ghost rising: { rising_from 0 (map T.Keyed.key entries.items) ≡ true },
}

impl<T: Keyed + Drop> Sorted<T> {
    pub(crate) fn new(heap: Global, most: usize) -> Result<Sorted<T>, AllocError>
        ensures { IfOk result (λ s. (s.most ≡ most) × (s.entries.items ≡ [])) }
    {
        let entries = Vec::with_capacity(heap, most)?;
        Ok(Sorted { most, entries })
    }

    pub(crate) fn as_slice(&self) -> &[T]
        ensures { result.now ≡ self.now.entries.items }
    {
        self.entries.as_slice()
    }

    // Where a key is, or the gap where it would go.
    pub(crate) fn locate(&self, key: u64) -> Result<usize, usize>
        ensures { Located (map T.Keyed.key self.now.entries.items) key result }
    {
        locate(&self.entries, key)
    }

    pub(crate) fn is_full(&self) -> bool
        ensures { result ≡ nat_le self.now.most (length self.now.entries.items) }
    {
        self.entries.len() >= self.most
    }

    // There is room, so it cannot fail. Behind the others nothing has to move, as where an image is read.
    pub(crate) fn insert(&mut self, at: usize, entry: T)
        requires within { at ≤ vec_len self.old.entries }
        requires room { vec_len self.old.entries < self.old.most }
        requires rising { rising_from 0 (insert (map T.Keyed.key self.old.entries.items) at (T.Keyed.key entry)) ≡ true }
        ensures entries { self.new.entries.items ≡ insert self.old.entries.items at entry }
        ensures most { self.new.most ≡ self.old.most }
        ensures capacity { vec_capacity self.new.entries ≡ vec_capacity self.old.entries }
    {
        if at == self.entries.len() {
            self.entries.push_reserved(entry);
        } else {
            self.entries.insert(at, entry).unwrap();
        }
    }

    // Puts an entry behind the others.
    pub(crate) fn push(&mut self, entry: T)
        requires room { vec_len self.old.entries < self.old.most }
        requires rising { rising_from 0 (map T.Keyed.key self.old.entries.items ++ T.Keyed.key entry ∷ []) ≡ true }
        ensures entries { self.new.entries.items ≡ self.old.entries.items ++ entry ∷ [] }
        ensures most { self.new.most ≡ self.old.most }
        ensures capacity { vec_capacity self.new.entries ≡ vec_capacity self.old.entries }
    {
        self.entries.push_reserved(entry);
    }

    pub(crate) fn remove(&mut self, at: usize) -> T
        requires { at < vec_len self.old.entries }
        ensures value { result ≡ slice_index_or self.old.entries.items at result }
        ensures entries { self.new.entries.items ≡ remove self.old.entries.items at }
        ensures most { self.new.most ≡ self.old.most }
        ensures capacity { vec_capacity self.new.entries ≡ vec_capacity self.old.entries }
    {
        self.entries.remove(at)
    }
}
