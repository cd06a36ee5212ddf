// Where a kind stands, by halving.
ghost use Rattle.std.specs.Prelude.{◌≡◌, true};
ghost use Rattle.descent.specs.Lines.{serials_of, stands};
ghost use Rattle.closing.specs.Direct.{place_of};

use descent::Standing;
use search::count_below;

// The place of a kind that stands.
pub(crate) fn place_of(standing: &Standing<'_>, serial: u32) -> usize
    requires { stands serial (serials_of standing.now.kinds.now) ≡ true }
    ensures { result ≡ place_of standing.now.kinds.now serial }
{
    let at = count_below(standing.kinds, serial as u64);
    standing.kinds[at].place
}
