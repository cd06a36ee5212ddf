// The answer lines of the protocol: what comes back for a call. Without memory for the whole line, nothing is written.
// They are no Display: where `write!` to a Vec fails, the library promises nothing of what the Vec holds then. So the text of a
// refusal is written piece by piece here, though `Refusal` has it as its Display.
ghost use Rattle.std.specs.Prelude.{◌≡◌, ◌++◌};
ghost use Rattle.std.specs.List.{flat_map};
ghost use Rattle.terminal.specs.Numbers.{Appends};
ghost use Rattle.protocol.specs.Answers.{ok_line, ok_words, ok_verdict, ok_kits, refused_line, ring_line};
ghost use Rattle.words.specs.Refusals.{refusal_text};
ghost use Rattle.protocol.specs.Pieces.{bytes_of};

use super::pieces::{Piece, write_pieces};
use std::alloc::AllocError;
use words::Refusal;

pub fn write_ok(out: &mut Vec<u8>) -> Result<(), AllocError>
    ensures { Appends result out.old.items ok_line out.new.items }
{
    out.extend_from_slice(b"ok\n")
}

pub fn write_ok_words(out: &mut Vec<u8>, words: &[u32]) -> Result<(), AllocError>
    ensures { Appends result out.old.items (ok_words words.now) out.new.items }
{
    write_pieces(
        out,
        &[Piece::Text(b"ok"), Piece::Words(words), Piece::Text(b"\n")],
    )
}

// Whether a kind fits a question.
pub fn write_verdict(out: &mut Vec<u8>, fits: bool) -> Result<(), AllocError>
    ensures { Appends result out.old.items (ok_verdict fits) out.new.items }
{
    if fits {
        out.extend_from_slice(b"ok yes\n")
    } else {
        out.extend_from_slice(b"ok no\n")
    }
}

pub fn write_ok_kits(out: &mut Vec<u8>, kits: usize, changed: usize) -> Result<(), AllocError>
    ensures { Appends result out.old.items (ok_kits kits changed) out.new.items }
{
    write_pieces(
        out,
        &[
            Piece::Text(b"ok "),
            Piece::Number(kits as u64),
            Piece::Text(b" "),
            Piece::Number(changed as u64),
            Piece::Text(b"\n"),
        ],
    )
}

pub fn write_refusal(out: &mut Vec<u8>, told: Refusal) -> Result<(), AllocError>
    ensures { Appends result out.old.items (refused_line told) out.new.items }
{
    write_refused_with(out, told, &[Piece::Text(b"\n")])
}

// A refusal with the ring that it was met for behind it.
pub fn write_ring(out: &mut Vec<u8>, told: Refusal, ring: &[u32]) -> Result<(), AllocError>
    ensures { Appends result out.old.items (ring_line told ring.now) out.new.items }
{
    write_refused_with(
        out,
        told,
        &[
            Piece::Text(b" ring"),
            Piece::Words(ring),
            Piece::Text(b"\n"),
        ],
    )
}

// A refusal with the rest of its line behind it.
fn write_refused_with(
    out: &mut Vec<u8>,
    told: Refusal,
    behind: &[Piece<'_>],
) -> Result<(), AllocError>
    ensures { Appends result out.old.items (refusal_text told ++ flat_map bytes_of behind.now) out.new.items }
{
    let start = out.len();
    write_refused(out, told)?;
    if let Err(fault) = write_pieces(out, behind) {
        out.truncate(start);
        return Err(fault);
    }
    Ok(())
}

// A refusal without a line break.
fn write_refused(out: &mut Vec<u8>, told: Refusal) -> Result<(), AllocError>
    ensures { Appends result out.old.items (refusal_text told) out.new.items }
{
    write_pieces(
        out,
        &[
            Piece::Text(b"refused "),
            Piece::Number(told.number as u64),
            Piece::Text(b" at "),
            Piece::Number(told.index as u64),
            Piece::Text(b" by "),
            Piece::Text(told.part.name().as_bytes()),
        ],
    )
}
