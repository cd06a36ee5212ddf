// Looking into the rows of a table, and changing them.
ghost use Rattle.std.specs.Prelude.{◌≡◌, ℕ, ◌<◌, ◌≤◌, Bool, false, ◌&&◌, ◌||◌, length, replicate, ◌==◌};
ghost use Rattle.closing.specs.Tables.{sets_of, cell, Cells, Empty};

use codes::{Code, Truth};

// Whether row i has place j.
pub(crate) fn has<C: Code + Drop>(rows: &[C::Row], i: usize, j: usize) -> bool
    requires row { i < length rows.now }
    requires place { j < C.Truth.sort.width }
    ensures { result ≡ cell (sets_of C.Truth.sort rows.now) i j }
{
    C::read(rows[i]).has(j)
}

// Puts place j into row i.
pub(crate) fn put<C: Code + Drop>(rows: &mut [C::Row], i: usize, j: usize)
    requires row { i < length rows.old }
    requires place { j < C.Truth.sort.width }
    ensures { Cells C.Truth.sort.width (sets_of C.Truth.sort rows.new) (λ a b. cell (sets_of C.Truth.sort rows.old) a b || (a == i && b == j)) }
{
    let mut row = C::read(rows[i]);
    let _ = row.put(j);
    rows[i] = row.write();
}

// What a slice's `fill` does, which asks for a clone that never fails; of a row it is only known that it is copied.
fn fill_copied<R: Copy>(rows: &mut [R], row: R)
    ensures { rows.new ≡ replicate (length rows.old) row }
{
    for slot in rows.iter_mut() {
        *slot = row;
    }
}

// Makes every row empty.
pub(crate) fn clear<C: Code + Drop>(rows: &mut [C::Row])
    ensures { Empty C.Truth.sort.width (sets_of C.Truth.sort rows.new) }
{
    let empty = C::empty();
    fill_copied(rows, empty.write());
}

// Each row that has k also gets what row k has.
pub(crate) fn step<C: Code + Drop>(rows: &mut [C::Row], k: usize)
    requires row { k < length rows.old }
    requires enough_places { length rows.old ≤ C.Truth.sort.width }
    ensures { Cells (length rows.old) (sets_of C.Truth.sort rows.new) (λ i j. cell (sets_of C.Truth.sort rows.old) i j || (cell (sets_of C.Truth.sort rows.old) i k && cell (sets_of C.Truth.sort rows.old) k j)) }
{
    let pivot = C::read(rows[k]);
    for slot in rows.iter_mut() {
        let mut row = C::read(*slot);
        if row.has(k) {
            row.join(&pivot);
            *slot = row.write();
        }
    }
}
