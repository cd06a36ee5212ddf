// The makers' serials, each given to one kind for good.
ghost use Rattle.std.specs.Prelude.{◌≡◌, ℕ};
ghost use Rattle.words.specs.Refusals.{Says, serial_told, bad_serial, serial_refusal};

use super::refusal::SerialFault;

pub const MAX_SERIAL: u32 = 268_435_455;

// A serial that was handed in, or stands in the word at this index.
pub fn check_serial(serial: u32, index: usize) -> Result<(), SerialFault>
    ensures { Says serial_told result (serial_refusal serial index) }
{
    if serial == 0 || serial > MAX_SERIAL {
        return Err(SerialFault::Range(index));
    }
    Ok(())
}
