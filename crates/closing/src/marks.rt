// Marks on the places that a walk has met, in bytes that its caller lends.
ghost use Rattle.std.specs.Prelude.{◌≡◌, ℕ, ◌<◌, Bool, not, length, replicate, ◌==◌, slice_index, slice_set};

// Every byte is zero when the marks are made, and again when they go, whichever way the walk ends.
pub(crate) struct Marks<'a> {
    pub(crate) bytes: &'a mut [u8],
}

impl<'a> Marks<'a> {
    pub(crate) fn over(bytes: &'a mut [u8]) -> Marks<'a>
        ensures clear { result.bytes.now ≡ replicate (length bytes.old) 0 }
        ensures lender { result.bytes.ghost_name ≡ bytes.entry.ghost_name }
    {
        bytes.fill(0);
        Marks { bytes }
    }

    pub(crate) fn set(&mut self, place: usize)
        requires { place < length self.old.bytes.now }
        ensures after { self.new.bytes.now ≡ slice_set self.old.bytes.now place 1 }
        ensures lender { self.new.bytes.ghost_name ≡ self.old.bytes.ghost_name }
    {
        self.bytes[place] = 1;
    }

    pub(crate) fn is_set(&self, place: usize) -> bool
        requires { place < length self.now.bytes.now }
        ensures { result ≡ not (slice_index self.now.bytes.now place == 0) }
    {
        self.bytes[place] != 0
    }
}

impl Drop for Marks<'_> {
    fn drop(self)
        ensures { self.exit.0.now ≡ replicate (length self.entry.bytes.now) 0 }
    {
        self.bytes.fill(0);
        let Marks { bytes: _ } = self;
    }
}
