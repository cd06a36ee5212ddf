// At most 512 bounds, from the front of an array. A code is copied as plain data, which the kit's ArrayVec is not.
ghost use Rattle.std.specs.Prelude.{◌≡◌, ◌+◌, ◌<◌, ◌≤◌, true, [], ◌∷◌, ◌++◌, length, take, if◌then◌else◌};
ghost use Rattle.packets.specs.Packets.{row_keeps, row_of};

use super::row::PacketRow;
use std::marker::Model;

#[derive(Clone, Copy, PartialEq, Eq)]
pub struct Bounds {
    at: [u16; 512],
    len: usize,
}

impl Model for Bounds {
    ghost use Rattle.std.specs.Prelude.{ℕ, List, take};

    ghost Value = { List ℕ };

    ghost use Rattle.packets.specs.Filling.{IsFilled, filled, filled_back};

    ghost view = { λ b. take b.len b.at };

    ghost invariant = { IsFilled };

    ghost inverse = { filled };

    ghost inverse_ok = { filled_back };
}

impl Bounds {
    pub fn empty() -> Bounds
        ensures { result ≡ [] }
    {
        Bounds {
            at: [0; 512],
            len: 0,
        }
    }

    pub fn as_slice(&self) -> &[u16]
        ensures { result.now ≡ self.now }
    {
        &self.at[..self.len]
    }

    pub fn push(&mut self, bound: u16)
        requires { length self.old < 512 }
        ensures { self.new ≡ self.old ++ bound ∷ [] }
    {
        self.at[self.len] = bound;
        self.len += 1;
    }

    // By a test, since a caller would make it an Option only to have it taken apart here.
    pub fn push_if(&mut self, wanted: bool, bound: u16)
        requires { length self.old + (if wanted then 1 else 0) ≤ 512 }
        ensures { self.new ≡ self.old ++ (if wanted then bound ∷ [] else []) }
    {
        if wanted {
            self.push(bound);
        }
    }

    pub fn extend(&mut self, more: &[u16])
        requires { length self.old + length more.now ≤ 512 }
        ensures { self.new ≡ self.old ++ more.now }
    {
        let end = self.len + more.len();
        self.at[self.len..end].copy_from_slice(more);
        self.len = end;
    }

    // How they lie in a list.
    pub fn row(&self) -> PacketRow
        ensures { result ≡ row_of self.now }
    {
        PacketRow {
            bounds: self.at,
            len: self.len,
        }
    }

    // The bounds of a row that keeps the rule.
    pub fn of_row(row: PacketRow) -> Bounds
        requires { row_keeps row ≡ true }
        ensures { result ≡ take row.len row.bounds }
    {
        let at = row.bounds;
        Bounds { at, len: row.len }
    }
}
