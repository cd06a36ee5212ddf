// Why a call came to nothing: the catalogue refused it, or it could not be tried.
use catalogue::SetUpFault;
use protocol::write_refusal;
use std::alloc::AllocError;
use std::io::Write;
use std::{fmt, io};
use terminal::FieldFault;
use words::{DecodeFault, Refusal};

// Why a line was no call, or a call could not be tried.
#[derive(Clone, Copy)]
pub enum Mistake {
    NoSuchCall,
    FieldCount,
    NotSerial,
    NotWord,
    FileName,
    Unreadable,
    PartialWord,
    Unwritable,
    NotBuilt,
    Memory,
    Usage,
}

// What a person reads behind `error`.
impl fmt::Display for Mistake {
    fn fmt<W: fmt::Write>(&self, f: &mut fmt::Formatter<W>) -> fmt::Result {
        f.write_str(match self {
            Mistake::NoSuchCall => "no such call; help lists them",
            Mistake::FieldCount => "too few or too many fields for this call",
            Mistake::NotSerial => "a serial is a decimal number that fits 32 bits",
            Mistake::NotWord => "a word is eight hexadecimal digits",
            Mistake::FileName => "the name of a file has to be UTF-8",
            Mistake::Unreadable => "the file cannot be read",
            Mistake::PartialWord => "the file ends inside a word",
            Mistake::Unwritable => "the file cannot be written; what it held is whole",
            Mistake::NotBuilt => "not built yet",
            Mistake::Memory => "no memory for this call",
            Mistake::Usage => "usage: finder [--code bits|packets] [IMAGE]",
        })
    }
}

#[derive(Clone, Copy)]
pub enum Trouble {
    Refused(Refusal),
    Mistaken(Mistake),
}

// The line of a call that came to nothing.
pub fn write_trouble(out: &mut Vec<u8>, trouble: Trouble) -> io::Result<()> {
    match trouble {
        Trouble::Refused(told) => Ok(write_refusal(out, told)?),
        Trouble::Mistaken(mistake) => writeln!(out, "error {mistake}"),
    }
}

impl From<FieldFault> for Mistake {
    fn from(fault: FieldFault) -> Mistake {
        match fault {
            FieldFault::NotWord => Mistake::NotWord,
            FieldFault::Memory => Mistake::Memory,
        }
    }
}

impl From<DecodeFault> for Mistake {
    fn from(fault: DecodeFault) -> Mistake {
        match fault {
            DecodeFault::PartialWord => Mistake::PartialWord,
            DecodeFault::Memory => Mistake::Memory,
        }
    }
}

impl From<AllocError> for Mistake {
    fn from(_error: AllocError) -> Mistake {
        Mistake::Memory
    }
}

impl From<AllocError> for Trouble {
    fn from(_error: AllocError) -> Trouble {
        Trouble::Mistaken(Mistake::Memory)
    }
}

// Lines are written to memory first, which fails only where there is none.
impl From<io::Error> for Trouble {
    fn from(_error: io::Error) -> Trouble {
        Trouble::Mistaken(Mistake::Memory)
    }
}

// The width is in range, so setting up fails only for memory.
impl From<SetUpFault> for Trouble {
    fn from(_fault: SetUpFault) -> Trouble {
        Trouble::Mistaken(Mistake::Memory)
    }
}

impl From<Mistake> for Trouble {
    fn from(mistake: Mistake) -> Trouble {
        Trouble::Mistaken(mistake)
    }
}

impl From<Refusal> for Trouble {
    fn from(told: Refusal) -> Trouble {
        Trouble::Refused(told)
    }
}
