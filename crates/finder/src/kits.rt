// The kits of a file of kept answers, one behind the other.
ghost use Rattle.std.specs.Prelude.{length};
ghost use Rattle.std.specs.Iterator.{at_most};

use protocol::kit_length;

#[derive(Drop)]
pub struct Kits<'a> {
    left: &'a [u32],
}

impl<'a> Kits<'a> {
    pub fn new(words: &'a [u32]) -> Kits<'a> {
        Kits { left: words }
    }
}

impl<'a> Iterator for Kits<'a> {
    type Item = &'a [u32];

    ghost remaining = { λ kits. at_most (length kits.left.now) };

    fn next(&mut self) -> Option<&'a [u32]> {
        if self.left.is_empty() {
            return None;
        }
        let (kit, left) = self.left.split_at(kit_length(self.left));
        self.left = left;
        Some(kit)
    }
}
