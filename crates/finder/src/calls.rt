// A line of input, read as a command.
use super::trouble::Mistake;
use histories::Call;
use std::alloc::Global;
use terminal::{Fields, parse_decimal, parse_words};

// Questions are handed out with a later delivery; until then their calls answer that they are not built.
const QUESTIONS_BUILT: bool = false;

// Each call is handed the whole of every list.
pub const WHOLE: usize = usize::MAX;

// A call on the catalogue, or what the program does besides.
#[derive(Clone, Copy)]
pub enum Command<'a> {
    Make(Call<'a>),
    Load(&'a str),
    Save(&'a str),
    Kits(&'a str),
    Help,
}

// None where the line is blank or a remark. The words of the line are left in `words`.
pub fn parse_command<'a>(
    heap: Global,
    line: &'a [u8],
    words: &'a mut Vec<u32>,
) -> Result<Option<Command<'a>>, Mistake> {
    let mut fields = Fields::new(line);
    let Some(name) = fields.next() else {
        return Ok(None);
    };
    if name[0] == b'#' {
        return Ok(None);
    }
    let command = parse_named(heap, name, &mut fields, words)?;
    if fields.next().is_some() {
        return Err(Mistake::FieldCount);
    }
    Ok(Some(command))
}

// The command of this name, with the fields that it takes.
fn parse_named<'a>(
    heap: Global,
    name: &[u8],
    fields: &mut Fields<'a>,
    words: &'a mut Vec<u32>,
) -> Result<Command<'a>, Mistake> {
    Ok(match name {
        b"load" => Command::Load(take_file(fields)?),
        b"save" => Command::Save(take_file(fields)?),
        b"kits" => Command::Kits(take_file(fields)?),
        b"help" => Command::Help,
        _ => Command::Make(parse_call(heap, name, fields, words)?),
    })
}

fn parse_call<'a>(
    heap: Global,
    name: &[u8],
    fields: &mut Fields<'_>,
    words: &'a mut Vec<u32>,
) -> Result<Call<'a>, Mistake> {
    Ok(match name {
        b"enter" => Call::Enter {
            serial: take_serial(fields)?,
        },
        b"withdraw" => Call::Withdraw {
            serial: take_serial(fields)?,
        },
        b"line" => Call::EnterLine {
            child: take_serial(fields)?,
            parent: take_serial(fields)?,
        },
        b"unline" => Call::WithdrawLine {
            child: take_serial(fields)?,
            parent: take_serial(fields)?,
        },
        b"close" => Call::Close {
            table: WHOLE,
            marks: WHOLE,
            walk: WHOLE,
            ring: WHOLE,
        },
        b"read" => Call::ReadImage {
            words: take_words(heap, fields, words)?,
        },
        b"write" => Call::WriteImage { image: WHOLE },
        b"recall" => Call::Recall {
            words: take_words(heap, fields, words)?,
            answer: WHOLE,
        },
        b"ask" | b"fit" if !QUESTIONS_BUILT => return Err(Mistake::NotBuilt),
        b"ask" => Call::Ask {
            words: take_words(heap, fields, words)?,
            table: WHOLE,
            working: WHOLE,
            answer: WHOLE,
        },
        b"fit" => Call::Fit {
            serial: take_serial(fields)?,
            words: take_words(heap, fields, words)?,
            table: WHOLE,
            working: WHOLE,
        },
        _ => return Err(Mistake::NoSuchCall),
    })
}

fn take_serial(fields: &mut Fields<'_>) -> Result<u32, Mistake> {
    let field = fields.next().ok_or(Mistake::FieldCount)?;
    parse_decimal(field).ok_or(Mistake::NotSerial)
}

// All the fields that are left.
fn take_words<'a>(
    heap: Global,
    fields: &mut Fields<'_>,
    words: &'a mut Vec<u32>,
) -> Result<&'a [u32], Mistake> {
    *words = parse_words(heap, fields)?;
    Ok(words.as_slice())
}

// The name of a file is one field, so it has no space in it.
fn take_file<'a>(fields: &mut Fields<'a>) -> Result<&'a str, Mistake> {
    let field = fields.next().ok_or(Mistake::FieldCount)?;
    std::str::from_utf8(field).map_err(|_| Mistake::FileName)
}
