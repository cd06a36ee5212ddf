// A closed table, and the walk in it that finds a ring.
ghost use Rattle.std.specs.Prelude.{◌≡◌, ℕ, ◌<◌, ◌≤◌, true, false, List, [], length, replicate, take, drop, ◌==◌, position, MatchOption};
ghost use Rattle.descent.specs.Lines.{serials_of, places_of, has_line, stands};
ghost use Rattle.descent.specs.Descent.{LeadsUp, descends};
ghost use Rattle.descent.specs.Rings.{ringed};
ghost use Rattle.closing.specs.Tables.{sets_of, FitsWidth, Filled};
ghost use Rattle.closing.specs.Marks.{Looped, Round};
ghost use Rattle.stack.specs.Held.{held, room, SameSlots};

use super::find::place_of;
use super::marks::Marks;
use super::rows::has;
use codes::{Code, Truth};
use descent::{Line, Standing};
use search::{Keyed, count_below};
use stack::Stack;
use std::ops::Range;

// The rows of what stands, filled with descents.
#[derive(Drop)]
pub(crate) struct ClosedTable<'a, C: Code> {
    pub(crate) standing: &'a Standing<'a>,
    pub(crate) rows: &'a [C::Row],
    ghost fits: { FitsWidth standing.now.width (length rows.now) C.Truth.sort.width },
    ghost filled: { Filled standing.now.width (serials_of standing.now.kinds.now) (places_of standing.now.kinds.now) standing.now.lines.now (sets_of C.Truth.sort rows.now) },
}

impl<C: Code + Drop> ClosedTable<'_, C> {
    // Whether the kind `low` descends from the kind `high`.
    fn descends(&self, low: u32, high: u32) -> bool
        requires low_stands { stands low (serials_of self.now.standing.now.kinds.now) ≡ true }
        requires high_stands { stands high (serials_of self.now.standing.now.kinds.now) ≡ true }
        ensures { result ≡ descends self.now.standing.now.lines.now low high }
    {
        has::<C>(
            self.rows,
            place_of(self.standing, high),
            place_of(self.standing, low),
        )
    }

    // A kind that leads up to itself. A `for`, since the test of a `find` has to take any line, and this one takes kinds that stand.
    fn on_ring(&self) -> Option<u32>
        ensures { MatchOption result (ringed self.now.standing.now.lines.now ≡ false) (λ k. LeadsUp self.now.standing.now.lines.now k k) }
    {
        for line in self.standing.lines {
            if self.descends(line.parent, line.child) {
                return Some(line.child);
            }
        }
        None
    }

    // A parent of `kind`, which leads up to `top`, that is `top` or leads up to it. A kind's lines stand together, and one of them
    // leads on, so none after them is looked at.
    fn parent_towards(&self, kind: u32, top: u32) -> u32
        requires { LeadsUp self.now.standing.now.lines.now kind top }
        ensures line { has_line kind result self.now.standing.now.lines.now ≡ true }
        ensures leads_on { descends self.now.standing.now.lines.now result top ≡ true }
    {
        let start = Line {
            child: kind,
            parent: 0,
        };
        let first = count_below(self.standing.lines, start.key());
        for line in &self.standing.lines[first..] {
            if self.descends(line.parent, top) {
                return line.parent;
            }
        }
        unreachable()
    }

    // Goes up from `top`, which leads up to itself, until a place is met again, and tells that place; the places met lie on the stack.
    fn climb(&self, marks: &mut Marks<'_>, stack: &mut Stack<'_, usize>, top: u32) -> usize
        requires comes_round { LeadsUp self.now.standing.now.lines.now top top }
        requires unmarked { marks.old.bytes.now ≡ replicate self.now.standing.now.width 0 }
        requires none_held { held stack.old ≡ [] }
        requires one_slot_each { room stack.old ≡ self.now.standing.now.width }
        ensures looped { Looped self.now.standing.now.kinds.now self.now.standing.now.lines.now (held stack.new) result }
        ensures slots { SameSlots stack.old stack.new }
        ensures lender { marks.new.bytes.ghost_name ≡ marks.old.bytes.ghost_name }
        ensures as_many_marks { length marks.new.bytes.now ≡ length marks.old.bytes.now }
    {
        let mut kind = top;
        let mut place = place_of(self.standing, top);
        while !marks.is_set(place) {
            marks.set(place);
            let _ = stack.push(place);
            kind = self.parent_towards(kind, top);
            place = place_of(self.standing, kind);
        }
        place
    }

    // Climbs from `top` and leaves the places met at the front of the walk: how many these are, and which one was met again.
    fn walk_from(&self, marks: &mut Marks<'_>, walk: &mut [usize], top: u32) -> (usize, usize)
        requires comes_round { LeadsUp self.now.standing.now.lines.now top top }
        requires unmarked { marks.old.bytes.now ≡ replicate self.now.standing.now.width 0 }
        requires one_step_each { length walk.old ≡ self.now.standing.now.width }
        ensures looped { Looped self.now.standing.now.kinds.now self.now.standing.now.lines.now (take result.0 walk.new) result.1 }
        ensures within { result.0 ≤ length walk.new }
        ensures lender { marks.new.bytes.ghost_name ≡ marks.old.bytes.ghost_name }
        ensures as_many_marks { length marks.new.bytes.now ≡ length marks.old.bytes.now }
    {
        let mut stack = Stack::new(walk);
        let again = self.climb(marks, &mut stack, top);
        (stack.depth(), again)
    }

    // Which part of the walk goes round, where the table shows a ring; every mark is zero afterwards.
    pub(crate) fn find_ring(&self, marks: &mut [u8], walk: &mut [usize]) -> Option<Range<usize>>
        requires one_mark_each { length marks.old ≡ self.now.standing.now.width }
        requires one_step_each { length walk.old ≡ self.now.standing.now.width }
        ensures found { MatchOption result (ringed self.now.standing.now.lines.now ≡ false) (λ r. (r.start ≤ r.end) × (r.end ≤ self.now.standing.now.width) × Round self.now.standing.now.kinds.now self.now.standing.now.lines.now (drop r.start (take r.end walk.new))) }
        ensures clear { marks.new ≡ replicate self.now.standing.now.width 0 }
    {
        let mut guard = Marks::over(marks);
        let top = self.on_ring()?;
        let (met, again) = self.walk_from(&mut guard, walk, top);
        let start = place_in(&walk[..met], again).unwrap();
        Some(start..met)
    }
}

// Where this place first is in the list.
fn place_in(places: &[usize], place: usize) -> Option<usize>
    ensures { result ≡ position (λ p. p == place) places.now }
{
    places.iter().position(|p| *p == place)
}
