// The table filled with descents: each kind's own place and the places of its children, and then what these lead to.
// The rows are handed from step to step as a slice: a struct that lends them would owe in each step that it still lends the same.
ghost use Rattle.std.specs.Prelude.{◌≡◌, ◌<◌, ◌≤◌, true, ◌||◌, length};
ghost use Rattle.descent.specs.Proper.{below};
ghost use Rattle.descent.specs.Closure.{closure};
ghost use Rattle.descent.specs.Lines.{serials_of, places_of};
ghost use Rattle.closing.specs.Tables.{sets_of, cell, Cells, FitsWidth, Filled};
ghost use Rattle.closing.specs.Direct.{own, linked, direct};

use super::find::place_of;
use super::rows::{clear, put, step};
use codes::{Code, Truth};
use descent::{Kind, Line, Standing};

// Puts each kind's place into its own row.
fn put_kinds<C: Code + Drop>(kinds: &[Kind], rows: &mut [C::Row])
    requires low { below (length rows.old) (places_of kinds.now) ≡ true }
    requires enough_places { length rows.old ≤ C.Truth.sort.width }
    ensures { Cells C.Truth.sort.width (sets_of C.Truth.sort rows.new) (λ i j. cell (sets_of C.Truth.sort rows.old) i j || own (places_of kinds.now) i j) }
{
    for kind in kinds {
        put::<C>(rows, kind.place, kind.place);
    }
}

// Puts each child's place into its parent's row.
fn put_lines<C: Code + Drop>(standing: &Standing<'_>, rows: &mut [C::Row])
    requires { FitsWidth standing.now.width (length rows.old) C.Truth.sort.width }
    ensures { Cells C.Truth.sort.width (sets_of C.Truth.sort rows.new) (λ i j. cell (sets_of C.Truth.sort rows.old) i j || linked standing.now.kinds.now standing.now.lines.now i j) }
{
    for line in standing.lines {
        put::<C>(
            rows,
            place_of(standing, line.parent),
            place_of(standing, line.child),
        );
    }
}

// Fills the rows with what descends by no line or by one.
fn fill_direct<C: Code + Drop>(standing: &Standing<'_>, rows: &mut [C::Row])
    requires { FitsWidth standing.now.width (length rows.old) C.Truth.sort.width }
    ensures { Cells C.Truth.sort.width (sets_of C.Truth.sort rows.new) (direct standing.now.kinds.now standing.now.lines.now) }
{
    clear::<C>(rows);
    put_kinds::<C>(standing.kinds, rows);
    put_lines::<C>(standing, rows);
}

// Joins, place by place, what meets there.
fn join_all<C: Code + Drop>(rows: &mut [C::Row])
    requires { length rows.old ≤ C.Truth.sort.width }
    ensures { Cells (length rows.old) (sets_of C.Truth.sort rows.new) (closure (length rows.old) (cell (sets_of C.Truth.sort rows.old))) }
{
    for k in 0..rows.len() {
        step::<C>(rows, k);
    }
}

// Fills the rows with descents.
pub(crate) fn fill<C: Code + Drop>(standing: &Standing<'_>, rows: &mut [C::Row])
    requires { FitsWidth standing.now.width (length rows.old) C.Truth.sort.width }
    ensures { Filled standing.now.width (serials_of standing.now.kinds.now) (places_of standing.now.kinds.now) standing.now.lines.now (sets_of C.Truth.sort rows.new) }
{
    fill_direct::<C>(standing, rows);
    join_all::<C>(rows);
}
