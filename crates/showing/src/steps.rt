// A catalogue for a case, and the calls that change it.
ghost use Rattle.std.specs.Prelude.{◌≡◌, Some, IfOk};
ghost use Rattle.words.specs.Refusals.{catalogue_told};
ghost use Rattle.catalogue.specs.Ledger.{blank};
ghost use Rattle.catalogue.specs.View.{view, Moved};
ghost use Rattle.showing.specs.Steps.{call_of, step_text};

use catalogue::{Catalogue, SetUpFault};
use std::alloc::{AllocError, Global};
use std::{fmt, io};
use words::CatalogueFault;

#[derive(Clone, Copy, PartialEq, Eq, Debug)]
pub enum Step {
    Enter(u32),
    Withdraw(u32),
    Line(u32, u32),
    Unline(u32, u32),
}

impl Step {
    pub fn carry_out(self, catalogue: &mut Catalogue) -> Result<(), CatalogueFault>
        ensures { Moved catalogue_told (call_of self) (view catalogue.old) (view catalogue.new) result }
    {
        match self {
            Step::Enter(serial) => catalogue.enter(serial),
            Step::Withdraw(serial) => catalogue.withdraw(serial),
            Step::Line(child, parent) => catalogue.enter_line(child, parent),
            Step::Unline(child, parent) => catalogue.withdraw_line(child, parent),
        }
    }
}

impl fmt::Display for Step {
    ghost output = { λ step. Some (step_text step) };

    fn fmt<W: fmt::Write>(&self, f: &mut fmt::Formatter<W>) -> fmt::Result {
        match self {
            Step::Enter(serial) => write!(f, "enter {serial}"),
            Step::Withdraw(serial) => write!(f, "withdraw {serial}"),
            Step::Line(child, parent) => write!(f, "line {child} {parent}"),
            Step::Unline(child, parent) => write!(f, "unline {child} {parent}"),
        }
    }
}

pub fn set_up(heap: Global, width: usize) -> io::Result<Catalogue>
    ensures { IfOk result (λ catalogue. (view catalogue).book ≡ blank width) }
{
    Catalogue::new(heap, width).map_err(|fault| match fault {
        SetUpFault::Width => io::Error::from(io::ErrorKind::InvalidInput),
        SetUpFault::Memory => io::Error::from(AllocError),
    })
}
