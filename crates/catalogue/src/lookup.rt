// What a catalogue tells of itself.
ghost use Rattle.std.specs.Prelude.{◌≡◌, ◌≤◌};
ghost use Rattle.catalogue.specs.View.{view, Found};

use super::state::Catalogue;
use descent::Kind;

impl Catalogue {
    pub fn width(&self) -> usize
        ensures value { result ≡ (view self.now).book.wide }
        ensures bound { result ≤ 512 }
    {
        self.seats.kinds.most
    }

    pub fn is_closed(&self) -> bool
        ensures { result ≡ (view self.now).book.closed }
    {
        self.closed
    }

    // The standing kind with this serial.
    pub fn find(&self, serial: u32) -> Option<Kind>
        ensures { Found (view self.now) serial result }
    {
        let Ok(at) = self.seats.kinds.locate(serial as u64) else {
            return None;
        };
        Some(self.seats.kinds.entries[at])
    }
}
