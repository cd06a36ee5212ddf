// A word: its kind in the top four bits, and what the kind says in the low 28.
ghost use Rattle.std.specs.Prelude.{◌≡◌, ℕ, ◌+◌, ◌*◌, ◌/◌, ◌%◌, ◌^◌, ◌<◌};
ghost use Rattle.words.specs.Words.{kind_number, low_bits, number_of, is_kind, word_of, rule_of};

// A kind's number stands in the top four bits; the numbers 12 to 14 are unused as well.
#[derive(Clone, Copy, PartialEq, Eq, Debug)]
pub enum WordKind {
    Unused = 0,
    Name = 1,
    And = 2,
    Or = 3,
    Not = 4,
    All = 5,
    Nothing = 6,
    AnswerHead = 7,
    ImageHead = 8,
    Child = 9,
    Parent = 10,
    RingHead = 11,
    ImageEnd = 15,
}

impl From<WordKind> for u32 {
    ghost from_gives = { λ kind number. number ≡ number_of kind };

    fn from(kind: WordKind) -> u32 {
        kind as u32
    }
}

// What the low bits of a word have to be.
#[derive(Clone, Copy, PartialEq, Eq, Debug)]
pub enum LowBits {
    Serial,
    Zero,
    Count,
    Unused,
}

// How many entries a word of a question takes from the stack, and how many it leaves there.
#[derive(Clone, Copy, PartialEq, Eq, Debug)]
pub struct StackEffect {
    pub takes: usize,
    pub leaves: usize,
}

#[derive(Clone, Copy, PartialEq, Eq, Debug)]
pub struct WordRule {
    pub kind: WordKind,
    pub low: LowBits,
    pub effect: Option<StackEffect>,
}

// The number of values of the low bits.
const LOW_RANGE: u32 = 0x1000_0000;

// What operands and operators do to the stack.
const OPERAND: Option<StackEffect> = Some(StackEffect {
    takes: 0,
    leaves: 1,
});

const UNARY: Option<StackEffect> = Some(StackEffect {
    takes: 1,
    leaves: 1,
});

const BINARY: Option<StackEffect> = Some(StackEffect {
    takes: 2,
    leaves: 1,
});

const UNUSED: WordRule = WordRule {
    kind: WordKind::Unused,
    low: LowBits::Unused,
    effect: None,
};

// One row for each value of the top four bits.
#[rattlefmt::skip]
const RULES: [WordRule; 16] = [
    UNUSED,
    WordRule { kind: WordKind::Name, low: LowBits::Serial, effect: OPERAND },
    WordRule { kind: WordKind::And, low: LowBits::Zero, effect: BINARY },
    WordRule { kind: WordKind::Or, low: LowBits::Zero, effect: BINARY },
    WordRule { kind: WordKind::Not, low: LowBits::Zero, effect: UNARY },
    WordRule { kind: WordKind::All, low: LowBits::Zero, effect: OPERAND },
    WordRule { kind: WordKind::Nothing, low: LowBits::Zero, effect: OPERAND },
    WordRule { kind: WordKind::AnswerHead, low: LowBits::Count, effect: None },
    WordRule { kind: WordKind::ImageHead, low: LowBits::Count, effect: None },
    WordRule { kind: WordKind::Child, low: LowBits::Serial, effect: None },
    WordRule { kind: WordKind::Parent, low: LowBits::Serial, effect: None },
    WordRule { kind: WordKind::RingHead, low: LowBits::Count, effect: None },
    UNUSED,
    UNUSED,
    UNUSED,
    WordRule { kind: WordKind::ImageEnd, low: LowBits::Count, effect: None },
];

// The row of the word's kind.
pub fn rule(word: u32) -> WordRule
    ensures { result ≡ rule_of (kind_number word) }
{
    RULES[(word >> 28) as usize]
}

pub fn low_bits(word: u32) -> u32
    ensures { result ≡ low_bits word }
{
    word % LOW_RANGE
}

pub fn is_kind(word: u32, kind: WordKind) -> bool
    ensures { result ≡ is_kind kind word }
{
    word >> 28 == u32::from(kind)
}

// The word of this kind with these low bits; bits above the low 28 are left out.
pub fn make_word(kind: WordKind, low: u32) -> u32
    ensures { result ≡ word_of kind (low_bits low) }
{
    u32::from(kind) * LOW_RANGE + low % LOW_RANGE
}
