// The lines that the program writes for people; each begins with `#`.
use super::options::CodeName;
use protocol::write_refusal;
use std::alloc::AllocError;
use std::io;
use std::io::Write;
use terminal::write_decimal;
use words::{Refusal, low_bits};

// As long as the longest greeting. Were it wrong, only the memory taken would differ.
const GREETING_LEN: usize = 44;

const HELP: &str =
    "# one call a line; serials are decimal, words eight hexadecimal digits, fields apart by spaces
# enter SERIAL            enter a kind
# withdraw SERIAL         withdraw a kind that no line has
# line CHILD PARENT       enter a line: the child is a kind of the parent
# unline CHILD PARENT     withdraw a line
# close                   fill the codes of what descends from each kind; refused where a ring stands
# read WORDS              read an image into an empty catalogue
# write                   write the image
# recall WORDS            of the kinds that a kept answer names, those that stand
# load FILE               read an image file into an empty catalogue
# save FILE               write the image to a file, by way of FILE.tmp
# kits FILE               recall each kept answer of a file; tell the kits, and how many lost kinds
#                         (a kit ends with the names that its head counts, or before the next head)
# ask WORDS, fit SERIAL WORDS are not built yet
# help                    these lines
# answers: ok, ok WORDS, ok KITS CHANGED, refused NUMBER at INDEX by PART (ring WORDS), error and why
";

// `out` grows by doubling from what is taken first, so that is room for the whole line and not for its first piece.
pub fn write_greeting(out: &mut Vec<u8>, code: CodeName) -> io::Result<()> {
    out.reserve(GREETING_LEN)?;
    writeln!(out, "# finder over {code}; help lists the calls")
}

pub fn write_help(out: &mut Vec<u8>) -> io::Result<()> {
    write!(out, "{HELP}")
}

pub fn write_standing(out: &mut Vec<u8>, kinds: usize, lines: usize) -> io::Result<()> {
    writeln!(out, "# kinds: {kinds}, lines: {lines}")
}

// A kit that lost kinds: those that it named, and those that stand. By hand, as all that is told of a kit: a file may have
// thousands, and with `writeln!` it took up to 1.7 times as long.
pub fn write_lost(
    out: &mut Vec<u8>,
    number: usize,
    kit: &[u32],
    left: &[u32],
) -> Result<(), AllocError> {
    write_kit(out, number)?;
    out.extend_from_slice(b"named")?;
    write_serials(out, kit)?;
    out.extend_from_slice(b"; standing")?;
    write_serials(out, left)?;
    out.extend_from_slice(b"\n")
}

pub fn write_refused_kit(
    out: &mut Vec<u8>,
    number: usize,
    told: Refusal,
) -> Result<(), AllocError> {
    write_kit(out, number)?;
    write_refusal(out, told)
}

// Kits are counted from 1.
fn write_kit(out: &mut Vec<u8>, number: usize) -> Result<(), AllocError> {
    out.extend_from_slice(b"# kit ")?;
    write_decimal(out, number as u64)?;
    out.extend_from_slice(b": ")
}

// The serials of the names behind an answer's head, each behind a space.
fn write_serials(out: &mut Vec<u8>, answer: &[u32]) -> Result<(), AllocError> {
    let [_, names @ ..] = answer else {
        return Ok(());
    };
    if names.is_empty() {
        return out.extend_from_slice(b" none");
    }
    for name in names {
        out.extend_from_slice(b" ")?;
        write_decimal(out, low_bits(*name) as u64)?;
    }
    Ok(())
}
