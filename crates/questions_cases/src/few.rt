// Three kinds, of which one has the place.
ghost use Rattle.std.specs.Prelude.{true, ◌==◌, nat_lt};

use questions::Names;
use words::{CatalogueFault, check_serial};

// Kinds 1 to 3 stand, and 2 has the place.
pub struct Few;

impl Names<bool> for Few {
    ghost standing = { λ _ k. nat_lt k 4 };

    ghost named = { λ _ k _. (k == 2) };

    ghost whole = { λ _ _. true };

    fn name(&self, serial: u32, index: usize) -> Result<bool, CatalogueFault> {
        check_serial(serial, index)?;
        if serial >= 4 {
            return Err(CatalogueFault::KindMissing(index));
        }
        Ok(serial == 2)
    }

    fn all(&self) -> bool {
        true
    }
}
