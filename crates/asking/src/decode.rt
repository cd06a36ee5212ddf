// From the places of a question's set to the names of the uppermost kinds that it covers.
ghost use Rattle.std.specs.Prelude.{◌≡◌, ℕ, ◌+◌, ◌≤◌, Bool, not, ◌&&◌, ◌||◌, ◌∷◌, ◌++◌, length, drop, ◌==◌, nat_lt};
ghost use Rattle.std.proofs.Math.Seq.{paste};
ghost use Rattle.words.specs.declared.word.WordKind.TheVariants.{AnswerHead};
ghost use Rattle.words.specs.Words.{word_of};
ghost use Rattle.codes.specs.Sorts.{Agree};
ghost use Rattle.closing.specs.Tables.{sets_of};
ghost use Rattle.descent.specs.Lines.{places_of};
ghost use Rattle.asking.specs.Decoding.{apart, below_covered, chosen, names_of, decoded};

use codes::{Code, Truth};
use descent::Standing;
use words::{WordKind, make_word};

// What stands, its table, and the places outside a question's set.
#[derive(Drop)]
struct Decoder<'a, 'b, C: Truth> {
    standing: &'a Standing<'a>,
    table: &'b [C::Row],
    outside: C,
    ghost rows: { standing.now.width ≤ length table.now },
}

// Joins the row without the kind's own place.
fn join_others<C: Code + Drop>(below: &mut C, row: C::Row, place: usize)
    ensures { Agree C.Truth.sort.width (C.Truth.sort.means below.new) (λ p. C.Truth.sort.means below.old p || (C.Truth.sort.reads row p && not (p == place))) }
{
    let mut others = C::read(row);
    let _ = others.take(place);
    below.join(&others);
}

impl<'a, 'b, C: Code + Drop> Decoder<'a, 'b, C> {
    // Whether no place of the row lies outside.
    fn is_covered(&self, row: C::Row) -> bool
        ensures { result ≡ apart C.Truth.sort.width (C.Truth.sort.reads row) (C.Truth.sort.means self.now.outside) }
    {
        let mut left = C::read(row);
        left.meet(&self.outside);
        left.next(0).is_none()
    }

    // The places of the kinds that lie below another covered kind.
    #[tactic(auto, using(crate::proofs::Written::place_within))]
    fn lying_below(&self) -> C
        ensures { Agree C.Truth.sort.width (C.Truth.sort.means result) (below_covered C.Truth.sort.width (sets_of C.Truth.sort self.now.table.now) (C.Truth.sort.means self.now.outside) (places_of self.now.standing.now.kinds.now)) }
    {
        let mut below = C::empty();
        for kind in self.standing.kinds {
            let row = self.table[kind.place];
            if self.is_covered(row) {
                join_others::<C>(&mut below, row, kind.place);
            }
        }
        below
    }

    // Whether the kind with this row and place is covered, and not one of those below.
    fn is_chosen(&self, row: C::Row, place: usize, below: &C) -> bool
        ensures { result ≡ (apart C.Truth.sort.width (C.Truth.sort.reads row) (C.Truth.sort.means self.now.outside) && not (nat_lt place C.Truth.sort.width && C.Truth.sort.means below.now place)) }
    {
        self.is_covered(row) && !below.has(place)
    }

    // Writes the names of the chosen kinds behind the place of a head, and tells how many.
    #[tactic(auto, using(crate::proofs::Written::place_within))]
    fn write_names(&self, below: &C, answer: &mut [u32]) -> usize
        requires { length self.now.standing.now.kinds.now + 1 ≤ length answer.old }
        ensures few { result ≤ length self.now.standing.now.kinds.now }
        ensures count { result ≡ length (names_of (chosen C.Truth.sort.width (sets_of C.Truth.sort self.now.table.now) (C.Truth.sort.means self.now.outside) (C.Truth.sort.means below.now)) self.now.standing.now.kinds.now) }
        ensures list { answer.new ≡ paste answer.old 1 (names_of (chosen C.Truth.sort.width (sets_of C.Truth.sort self.now.table.now) (C.Truth.sort.means self.now.outside) (C.Truth.sort.means below.now)) self.now.standing.now.kinds.now) result }
    {
        // Counted by hand: the one stack would speak of what it holds, and not of the answer, and of a chain that writes through its
        // closure nothing is known.
        let mut count = 0;
        for kind in self.standing.kinds {
            if self.is_chosen(self.table[kind.place], kind.place, below) {
                answer[1 + count] = make_word(WordKind::Name, kind.serial);
                count += 1;
            }
        }
        count
    }
}

// Writes the answer that the set decodes to, and tells how many words it has. What is not covered is left out here, once.
pub(super) fn decode<C: Code + Drop>(
    standing: &Standing<'_>,
    table: &[C::Row],
    set: C::Row,
    answer: &mut [u32],
) -> usize
    requires rows { standing.now.width ≤ length table.now }
    requires room { length standing.now.kinds.now + 1 ≤ length answer.old }
    ensures count { result ≡ length (decoded C.Truth.sort standing.now.kinds.now table.now set) + 1 }
    ensures list { answer.new ≡ word_of AnswerHead (length (decoded C.Truth.sort standing.now.kinds.now table.now set)) ∷ decoded C.Truth.sort standing.now.kinds.now table.now set ++ drop result answer.old }
    ensures within { result ≤ length standing.now.kinds.now + 1 }
{
    let mut outside = C::read(set);
    outside.complement();
    let decoder = Decoder::<C> {
        standing,
        table,
        outside,
    };
    let below = decoder.lying_below();
    let count = decoder.write_names(&below, answer);
    answer[0] = make_word(WordKind::AnswerHead, count as u32);
    count + 1
}
