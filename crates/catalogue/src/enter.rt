// Setting a catalogue up, and entering and withdrawing kinds and lines.
ghost use Rattle.std.specs.Prelude.{◌≡◌, IfOk};
ghost use Rattle.descent.specs.Lines.{mentioned};
ghost use Rattle.search.specs.Order.{Located};
ghost use Rattle.words.specs.Refusals.{Says, catalogue_told};
ghost use Rattle.catalogue.specs.Ledger.{enter, withdraw, enter_line, withdraw_line, kind_refusal, ends_refusal};
ghost use Rattle.catalogue.specs.declared.enter.SetUpFault.TheVariants.{Memory};
ghost use Rattle.catalogue.specs.View.{view, Moved, Shows};
ghost use Rattle.catalogue.specs.SetUp.{SetUp};

use super::seats::Seats;
use super::sorted::Sorted;
use super::state::Catalogue;
use descent::{Line, MAX_LINES, MAX_WIDTH, Standing};
use search::Keyed;
use std::alloc::{AllocError, Global};
use words::{CatalogueFault, check_serial};

// Why a catalogue cannot be set up.
#[derive(Clone, Copy, Debug, PartialEq, Eq)]
pub enum SetUpFault {
    Width,
    Memory,
}

impl From<AllocError> for SetUpFault {
    ghost from_gives = { λ _ r. r ≡ Memory };

    fn from(_error: AllocError) -> SetUpFault {
        SetUpFault::Memory
    }
}

impl Catalogue {
    // An empty catalogue of so many places, with memory for all that may ever stand there.
    pub fn new(heap: Global, width: usize) -> Result<Catalogue, SetUpFault>
        ensures { SetUp width result }
    {
        if width == 0 || width > MAX_WIDTH {
            return Err(SetUpFault::Width);
        }
        let seats = Seats::new(heap, width)?;
        let lines = Sorted::new(heap, MAX_LINES)?;
        Ok(Catalogue {
            seats,
            lines,
            closed: false,
        })
    }

    // What stands, for those who only read it.
    pub fn standing(&self) -> Standing<'_>
        ensures { Shows (view self.now) result }
    {
        Standing {
            width: self.width(),
            kinds: self.seats.kinds.as_slice(),
            lines: self.lines.as_slice(),
        }
    }

    // The four calls from here on name their own faults: a body for all of them would have more parameters than lines.
    pub fn enter(&mut self, serial: u32) -> Result<(), CatalogueFault>
        ensures { Moved catalogue_told (enter serial) (view self.old) (view self.new) result }
    {
        check_serial(serial, 0)?;
        let Err(at) = self.seats.kinds.locate(serial as u64) else {
            return Err(CatalogueFault::KindStands);
        };
        if self.seats.kinds.is_full() {
            return Err(CatalogueFault::Full);
        }
        self.seats.seat(at, serial);
        self.closed = false;
        Ok(())
    }

    pub fn withdraw(&mut self, serial: u32) -> Result<(), CatalogueFault>
        ensures { Moved catalogue_told (withdraw serial) (view self.old) (view self.new) result }
    {
        let at = self.check_kind(serial)?;
        if has_line(self.lines.as_slice(), serial) {
            return Err(CatalogueFault::KindHasLine);
        }
        self.seats.unseat(at);
        self.closed = false;
        Ok(())
    }

    // The two ends of a line that is handed in: the child's faults come before the parent's.
    fn check_ends(&self, child: u32, parent: u32) -> Result<(), CatalogueFault>
        ensures { Says catalogue_told result (ends_refusal (view self.now).book child parent) }
    {
        self.check_kind(child)?;
        self.check_kind(parent)?;
        if child == parent {
            return Err(CatalogueFault::OwnParent(0));
        }
        Ok(())
    }

    // A kind that is handed in has to stand; tells where.
    fn check_kind(&self, serial: u32) -> Result<usize, CatalogueFault>
        ensures says { Says catalogue_told result (kind_refusal (view self.now).book serial) }
        ensures at { IfOk result (λ at. Located (view self.now).book.kinds serial (Ok at)) }
    {
        check_serial(serial, 0)?;
        let Ok(at) = self.seats.kinds.locate(serial as u64) else {
            return Err(CatalogueFault::KindMissing(0));
        };
        Ok(at)
    }

    pub fn enter_line(&mut self, child: u32, parent: u32) -> Result<(), CatalogueFault>
        ensures { Moved catalogue_told (enter_line child parent) (view self.old) (view self.new) result }
    {
        self.check_ends(child, parent)?;
        let line = Line { child, parent };
        let Err(at) = self.lines.locate(line.key()) else {
            return Err(CatalogueFault::LineStands);
        };
        if self.lines.is_full() {
            return Err(CatalogueFault::LinesFull(0));
        }
        self.lines.insert(at, line);
        self.closed = false;
        Ok(())
    }

    pub fn withdraw_line(&mut self, child: u32, parent: u32) -> Result<(), CatalogueFault>
        ensures { Moved catalogue_told (withdraw_line child parent) (view self.old) (view self.new) result }
    {
        self.check_ends(child, parent)?;
        let line = Line { child, parent };
        let Ok(at) = self.lines.locate(line.key()) else {
            return Err(CatalogueFault::LineMissing);
        };
        let _ = self.lines.remove(at);
        self.closed = false;
        Ok(())
    }
}

// Whether some line has the kind.
fn has_line(lines: &[Line], serial: u32) -> bool
    ensures { result ≡ mentioned serial lines.now }
{
    lines
        .iter()
        .any(|line| line.child == serial || line.parent == serial)
}
