// The standing kinds and the places, of which each kind has one of its own.
ghost use Rattle.std.specs.Prelude.{◌≡◌, ◌^◌, ◌<◌, ◌≤◌, true, [], ◌++◌, map, length, IfOk, vec_len, vec_capacity};
ghost use Rattle.std.specs.List.{insert, range_with_len};
ghost use Rattle.descent.specs.Lines.{serials_of};
ghost use Rattle.descent.specs.Order.{rising_from};
ghost use Rattle.descent.specs.Proper.{below};
ghost use Rattle.formats.specs.Formats.{serials_in};
ghost use Rattle.catalogue.specs.Proper.{seated};
ghost use Rattle.catalogue.specs.Seats.{Seated, Freed};

use super::sorted::Sorted;
use descent::Kind;
use std::alloc::{AllocError, Global};
use words::low_bits;

// Kinds by rising serial, each at a place below the width, which is the most kinds that may stand; the other places are free.
#[derive(Drop)]
pub struct Seats {
    pub(crate) kinds: Sorted<Kind>,
    pub(crate) free: Vec<usize>,
    ghost wide: { (1 ≤ kinds.most) × (kinds.most ≤ 512) },
    ghost room: { kinds.most ≤ vec_capacity free },
    ghost serials: { below (2 ^ 28) (map (λ k. k.serial) kinds.entries.items) ≡ true },
    ghost seats: { seated kinds.most (map (λ k. k.place) kinds.entries.items ++ free.items) ≡ true },
}

// The places below the width.
fn all_places(heap: Global, width: usize) -> Result<Vec<usize>, AllocError>
    ensures { IfOk result (λ v. v.items ≡ range_with_len 0 width) }
{
    (0..width).collect(heap)
}

impl Seats {
    // So many places, all of them free.
    pub(crate) fn new(heap: Global, width: usize) -> Result<Seats, AllocError>
        requires some { 1 ≤ width }
        requires most { width ≤ 512 }
        ensures { IfOk result (λ s. (s.kinds.most ≡ width) × (s.kinds.entries.items ≡ [])) }
    {
        let kinds = Sorted::new(heap, width)?;
        let free = all_places(heap, width)?;
        Ok(Seats { kinds, free })
    }

    // Seats a new kind at a free place.
    pub(crate) fn seat(&mut self, at: usize, serial: u32)
        requires within { at ≤ vec_len self.old.kinds.entries }
        requires room { vec_len self.old.kinds.entries < self.old.kinds.most }
        requires rising { rising_from 0 (insert (serials_of self.old.kinds.entries.items) at serial) ≡ true }
        requires low { serial < 2 ^ 28 }
        ensures seated { Seated serial at self.old.kinds.entries.items self.old.free.items self.new.kinds.entries.items self.new.free.items }
        ensures width { self.new.kinds.most ≡ self.old.kinds.most }
        ensures capacity { vec_capacity self.new.kinds.entries ≡ vec_capacity self.old.kinds.entries }
        ensures places { vec_capacity self.new.free ≡ vec_capacity self.old.free }
    {
        let place = self.free.take_last();
        self.kinds.insert(at, Kind { serial, place });
    }

    // Takes a kind out, and frees its place.
    pub(crate) fn unseat(&mut self, at: usize)
        requires { at < vec_len self.old.kinds.entries }
        ensures freed { Freed at self.old.kinds.entries.items self.old.free.items self.new.kinds.entries.items self.new.free.items }
        ensures width { self.new.kinds.most ≡ self.old.kinds.most }
        ensures capacity { vec_capacity self.new.kinds.entries ≡ vec_capacity self.old.kinds.entries }
        ensures places { vec_capacity self.new.free ≡ vec_capacity self.old.free }
    {
        let kind = self.kinds.remove(at);
        self.free.push_reserved(kind.place);
    }

    // Seats a kind for each name, one behind another, where none stands yet.
    pub(crate) fn seat_names(&mut self, names: &[u32])
        requires none { self.old.kinds.entries.items ≡ [] }
        requires room { length names.now ≤ self.old.kinds.most }
        requires rising { rising_from 0 (serials_in names.now) ≡ true }
        ensures serials { serials_of self.new.kinds.entries.items ≡ serials_in names.now }
        ensures width { self.new.kinds.most ≡ self.old.kinds.most }
        ensures capacity { vec_capacity self.new.kinds.entries ≡ vec_capacity self.old.kinds.entries }
        ensures places { vec_capacity self.new.free ≡ vec_capacity self.old.free }
    {
        for (at, name) in names.iter().enumerate() {
            self.seat(at, low_bits(*name));
        }
    }
}
