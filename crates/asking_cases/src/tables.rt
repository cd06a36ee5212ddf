// The clutch catalogue, questions about it, and what happens to it after an answer was kept.
use showing::Step;

pub const CLUTCHES: [u32; 15] = [
    0x8000_0005,
    0x1000_000A,
    0x1000_0014,
    0x1000_001E,
    0x1000_0028,
    0x1000_0032,
    0x9000_0014,
    0xA000_000A,
    0x9000_001E,
    0xA000_000A,
    0x9000_0032,
    0xA000_0014,
    0x9000_0032,
    0xA000_0028,
    0xF000_000E,
];

const N10: u32 = 0x1000_000A;

const N20: u32 = 0x1000_0014;

const N30: u32 = 0x1000_001E;

const N40: u32 = 0x1000_0028;

const N50: u32 = 0x1000_0032;

const N99: u32 = 0x1000_0063;

const AND: u32 = 0x2000_0000;

const OR: u32 = 0x3000_0000;

const NOT: u32 = 0x4000_0000;

const ALL: u32 = 0x5000_0000;

const NOTHING: u32 = 0x6000_0000;

// 10 and not 20.
pub const DRY: [u32; 4] = [N10, N20, NOT, AND];

// 32 names and 31 ands, as deep as a question may go.
const DEEP: [u32; 63] = [
    N10, N10, N10, N10, N10, N10, N10, N10, N10, N10, N10, N10, N10, N10, N10, N10, N10, N10, N10,
    N10, N10, N10, N10, N10, N10, N10, N10, N10, N10, N10, N10, N10, AND, AND, AND, AND, AND, AND,
    AND, AND, AND, AND, AND, AND, AND, AND, AND, AND, AND, AND, AND, AND, AND, AND, AND, AND, AND,
    AND, AND, AND, AND, AND, AND,
];

pub const QUESTIONS: [(&'static str, &'static [u32]); 14] = [
    ("10 and 40", &[N10, N40, AND]),
    ("10 or 40", &[N10, N40, OR]),
    ("all", &[ALL]),
    ("not 20", &[N20, NOT]),
    ("not not 20", &[N20, NOT, NOT]),
    ("20 or 30", &[N20, N30, OR]),
    ("10 and not 20", &DRY),
    ("20 and 30", &[N20, N30, AND]),
    ("nothing", &[NOTHING]),
    ("99", &[N99]),
    ("a lone and", &[AND]),
    ("10 and 20 without an operator", &[N10, N20]),
    ("32 names and 31 ands", &DEEP),
    ("33 names", &[N10; 33]),
];

// The answer 50.
pub const KIT: [u32; 2] = [0x7000_0001, N50];

// Calls that the kit is recalled after.
pub const EDITS: [(&'static str, Step); 5] = [
    ("50 is no 20 any more", Step::Unline(50, 20)),
    ("50 is no 40 any more", Step::Unline(50, 40)),
    ("50 is withdrawn", Step::Withdraw(50)),
    ("60 is entered", Step::Enter(60)),
    ("50 is entered again", Step::Enter(50)),
];
