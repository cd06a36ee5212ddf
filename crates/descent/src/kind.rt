// A standing kind.

// The serial is the kind's for good; the place is its own while it stands.
#[derive(Clone, Copy, PartialEq, Eq, Debug)]
pub struct Kind {
    pub serial: u32,
    pub place: usize,
}
