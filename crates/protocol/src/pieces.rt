// Pieces of a line, written all or none.
ghost use Rattle.std.specs.List.{flat_map};
ghost use Rattle.terminal.specs.Numbers.{Appends};
ghost use Rattle.protocol.specs.Pieces.{bytes_of};

use std::alloc::AllocError;
use terminal::{write_decimal, write_words};

// A piece of a line: bytes as they are, a number in decimal, or words each behind a space.
#[derive(Clone, Copy)]
pub(super) enum Piece<'a> {
    Text(&'a [u8]),
    Number(u64),
    Words(&'a [u32]),
}

fn write_piece(out: &mut Vec<u8>, piece: Piece<'_>) -> Result<(), AllocError>
    ensures { Appends result out.old.items (bytes_of piece.entry) out.new.items }
{
    match piece {
        Piece::Text(text) => out.extend_from_slice(text),
        Piece::Number(number) => write_decimal(out, number),
        Piece::Words(words) => write_words(out, words),
    }
}

// Without memory for them all, leaves `out` as it was. The other functions that cut `out` back do it by hand as here: one that took
// the writing as a closure would have to require that it may be called, and could promise only what the closure tells of itself.
pub(super) fn write_pieces(out: &mut Vec<u8>, pieces: &[Piece<'_>]) -> Result<(), AllocError>
    ensures { Appends result out.old.items (flat_map bytes_of pieces.now) out.new.items }
{
    let start = out.len();
    for piece in pieces {
        if let Err(fault) = write_piece(out, *piece) {
            out.truncate(start);
            return Err(fault);
        }
    }
    Ok(())
}
