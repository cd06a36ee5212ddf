// The check of a place that a code of the full width is handed.
ghost use Rattle.std.specs.Prelude.{◌<◌, ◌≤◌, IfOk, IfErr};

use super::PLACES;
use words::CodeFault;

// Refuses a place past the width.
pub fn within_width(place: usize) -> Result<(), CodeFault>
    ensures below { IfOk result (λ _. place < 512) }
    ensures past { IfErr result (λ _. 512 ≤ place) }
{
    if place >= PLACES {
        return Err(CodeFault::PastWidth);
    }
    Ok(())
}
