// One word of a question, carried out on the stack.
ghost use Rattle.std.specs.Prelude.{◌≡◌, ℕ, ◌+◌, ◌-◌, ◌<◌, ◌≤◌, Bool, not, ◌&&◌, ◌||◌, [], ◌∷◌, ◌++◌, length, OnOk};
ghost use Rattle.codes.specs.Sorts.{Agree};
ghost use Rattle.stack.specs.Held.{held, room, SameSlots};
ghost use Rattle.words.specs.declared.word.LowBits.TheVariants as low;
ghost use Rattle.words.specs.Refusals.{Says, question_told};
ghost use Rattle.words.specs.Words.{kind_number, rule_of};
ghost use Rattle.questions.specs.Questions.{most_entries, on_top, on_two, word_refusal};
ghost use Rattle.questions.specs.Entries.{Turned, Fitting, Stepped};

use super::checks::{check_effect, named_row};
use super::lent::PlacedWord;
use super::names::Names;
use super::rows::{lacked, nothing};
use codes::Truth;
use stack::Stack;
use words::{QuestionFault, WordKind};

// Leaves a row on top, where there is room.
fn put<R: Copy>(stack: &mut Stack<'_, R>, row: R)
    requires { length (held stack.old) < room stack.old }
    ensures after { held stack.new ≡ held stack.old ++ row ∷ [] }
    ensures slots { SameSlots stack.old stack.new }
{
    let _ = stack.push(row);
}

// The row on top, where there is one.
fn taken<R: Copy>(stack: &mut Stack<'_, R>) -> R
    requires { 0 < length (held stack.old) }
    ensures after { held stack.old ≡ held stack.new ++ result ∷ [] }
    ensures slots { SameSlots stack.old stack.new }
{
    stack.pop().unwrap()
}

// The two values on top become one, as the change leaves the lower by the upper: whatever it computes place by place.
fn combine<T: Truth + Drop, F: FnOnce(&mut T, &T)>(stack: &mut Stack<'_, T::Row>, change: F)
    requires deep { 2 ≤ length (held stack.old) }
    requires callable { F.IsAlwaysCallable change }
    ensures { (f : Bool → Bool → Bool) →
        ((a b left : _) → F.post change a b tt left →
        Agree T.Truth.sort.width (T.Truth.sort.means left.now) (λ p. f (T.Truth.sort.means a.now p) (T.Truth.sort.means b.now p))) →
        Turned T.Truth.sort (λ _. on_two f) (length (held stack.old) - 1) stack.old stack.new }
{
    let b = T::read(taken(stack));
    let mut a = T::read(taken(stack));
    change(&mut a, &b);
    put(stack, a.write());
}

// The value on top becomes what of all is not in it.
fn lack_top<T: Truth + Drop>(stack: &mut Stack<'_, T::Row>, all: T::Row)
    requires { 1 ≤ length (held stack.old) }
    ensures { Turned T.Truth.sort (λ p. on_top (λ a. T.Truth.sort.reads all p && not a)) (length (held stack.old)) stack.old stack.new }
{
    let a = taken(stack);
    put(stack, lacked::<T>(all, a));
}

// Carries out a word that names no kind, where the stack is deep enough and has room.
fn operate<T: Truth + Drop, N: Names<T>>(names: &N, word: u32, stack: &mut Stack<'_, T::Row>)
    requires low { (rule_of (kind_number word)).low ≡ low.Zero }
    requires fits { Fitting (length (held stack.old)) (rule_of (kind_number word)).effect }
    requires room { room stack.old ≡ most_entries }
    ensures { Stepped T.Truth.sort (N.Names.named names.now) (N.Names.whole names.now) word stack.old stack.new }
{
    match words::rule(word).kind {
        WordKind::And => combine::<T, _>(stack, T::meet),
        WordKind::Or => combine::<T, _>(stack, T::join),
        WordKind::Not => lack_top::<T>(stack, names.all()),
        WordKind::All => put(stack, names.all()),
        WordKind::Nothing => put(stack, nothing::<T>()),
        _ => unreachable(),
    }
}

// Carries out a word, or refuses it. Names and stack stay apart: a struct of both would have to promise with each word that its names stay.
pub(super) fn step<T: Truth + Drop, N: Names<T>>(
    names: &N,
    placed: PlacedWord,
    stack: &mut Stack<'_, T::Row>,
) -> Result<(), QuestionFault>
    requires { room stack.old ≡ most_entries }
    ensures refused { Says question_told result (word_refusal (N.Names.standing names.now) placed.index (length (held stack.old)) placed.word) }
    ensures after { OnOk result (Stepped T.Truth.sort (N.Names.named names.now) (N.Names.whole names.now) placed.word stack.old stack.new) }
    ensures slots { SameSlots stack.old stack.new }
{
    let rule = words::rule(placed.word);
    let Some(effect) = rule.effect else {
        return Err(QuestionFault::NotQuestionWord(placed.index));
    };
    let named = named_row::<T, N>(names, rule.low, placed)?;
    check_effect(effect, stack.depth(), placed.index)?;
    match named {
        Some(row) => put(stack, row),
        None => operate::<T, N>(names, placed.word, stack),
    }
    Ok(())
}
