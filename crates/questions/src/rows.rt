// Sets as rows: what an operator makes of the rows that it takes.
ghost use Rattle.std.specs.Prelude.{Bool, false, not, ◌&&◌, ◌||◌};
ghost use Rattle.codes.specs.Sorts.{Agree};

use codes::Truth;

// What of all is not in a.
pub(super) fn lacked<T: Truth + Drop>(all: T::Row, a: T::Row) -> T::Row
    ensures { Agree T.Truth.sort.width (T.Truth.sort.reads result) (λ p. T.Truth.sort.reads all p && not (T.Truth.sort.reads a p)) }
{
    let mut others = T::read(a);
    others.complement();
    let mut value = T::read(all);
    value.meet(&others);
    value.write()
}

pub(super) fn nothing<T: Truth + Drop>() -> T::Row
    ensures { Agree T.Truth.sort.width (T.Truth.sort.reads result) (λ _. false) }
{
    T::empty().write()
}
