// The cases: calls in their order, images that are damaged in each way, and kept answers that are.
use showing::Step;

// Words, and what is the matter with them.
#[derive(Clone, Copy)]
pub struct Case {
    pub label: &'static str,
    pub words: &'static [u32],
}

// Words by their kinds: A an answer head, N a name, I an image head, C a child, P a parent, E an image end, U an unused kind; with
// the count or serial in them.
const A0: u32 = 0x7000_0000;

const A1: u32 = 0x7000_0001;

const A2: u32 = 0x7000_0002;

const A3: u32 = 0x7000_0003;

const N0: u32 = 0x1000_0000;

const N10: u32 = 0x1000_000A;

const N11: u32 = 0x1000_000B;

const N20: u32 = 0x1000_0014;

const N30: u32 = 0x1000_001E;

const N99: u32 = 0x1000_0063;

const I0: u32 = 0x8000_0000;

const I1: u32 = 0x8000_0001;

const I2: u32 = 0x8000_0002;

const I3: u32 = 0x8000_0003;

const I4: u32 = 0x8000_0004;

const I513: u32 = 0x8000_0201;

const C0: u32 = 0x9000_0000;

const C10: u32 = 0x9000_000A;

const C20: u32 = 0x9000_0014;

const C30: u32 = 0x9000_001E;

const C99: u32 = 0x9000_0063;

const P0: u32 = 0xA000_0000;

const P10: u32 = 0xA000_000A;

const P20: u32 = 0xA000_0014;

const P99: u32 = 0xA000_0063;

const E1: u32 = 0xF000_0001;

const E2: u32 = 0xF000_0002;

const E3: u32 = 0xF000_0003;

const E4: u32 = 0xF000_0004;

const E5: u32 = 0xF000_0005;

const E6: u32 = 0xF000_0006;

const E8: u32 = 0xF000_0008;

const U10: u32 = 0xC000_000A;

// In a catalogue of three places.
pub const STEPS: [Step; 30] = [
    Step::Enter(0),
    Step::Enter(268_435_456),
    Step::Enter(268_435_455),
    Step::Enter(10),
    Step::Enter(10),
    Step::Enter(20),
    Step::Enter(20),
    Step::Enter(30),
    Step::Withdraw(0),
    Step::Withdraw(30),
    Step::Withdraw(268_435_455),
    Step::Enter(30),
    Step::Line(0, 0),
    Step::Line(99, 0),
    Step::Line(10, 268_435_456),
    Step::Line(10, 99),
    Step::Line(99, 99),
    Step::Line(10, 10),
    Step::Line(20, 10),
    Step::Line(20, 10),
    Step::Withdraw(10),
    Step::Withdraw(20),
    Step::Unline(0, 10),
    Step::Unline(10, 99),
    Step::Unline(10, 10),
    Step::Unline(10, 20),
    Step::Unline(20, 10),
    Step::Unline(20, 10),
    Step::Withdraw(10),
    Step::Withdraw(10),
];

// 10, 20 and 30, with lines 20-10 and 30-10, damaged in each way; the last two are whole.
pub const IMAGES: [Case; 26] = [
    Case {
        label: "no word",
        words: &[],
    },
    Case {
        label: "an answer head",
        words: &[A3, N10, N20, N30, E4],
    },
    Case {
        label: "a count above the width",
        words: &[I513, N10, N20, N30, E4],
    },
    Case {
        label: "a count too high",
        words: &[I4, N10, N20, N30, C20, P10, E6],
    },
    Case {
        label: "a count too low",
        words: &[I2, N10, N20, N30, C20, P10, E6],
    },
    Case {
        label: "names missing",
        words: &[I3, N10],
    },
    Case {
        label: "a name repeated",
        words: &[I3, N10, N10, N30, E4],
    },
    Case {
        label: "names out of order",
        words: &[I3, N20, N10, N30, E4],
    },
    Case {
        label: "serial 0 in a name",
        words: &[I3, N0, N20, N30, E4],
    },
    Case {
        label: "serial 0 in a child",
        words: &[I2, N10, N20, C0, P10, E5],
    },
    Case {
        label: "a child that does not stand",
        words: &[I2, N10, N20, C99, P10, E5],
    },
    Case {
        label: "serial 0 in a parent",
        words: &[I2, N10, N20, C20, P0, E5],
    },
    Case {
        label: "a parent that does not stand",
        words: &[I2, N10, N20, C20, P99, E5],
    },
    Case {
        label: "a kind as its own parent",
        words: &[I2, N10, N20, C20, P20, E5],
    },
    Case {
        label: "a parent before its child",
        words: &[I2, N10, N20, P10, C20, E5],
    },
    Case {
        label: "two children running",
        words: &[I2, N10, N20, C20, C20, E5],
    },
    Case {
        label: "a child and then the end",
        words: &[I2, N10, N20, C20, E4],
    },
    Case {
        label: "a child and no more words",
        words: &[I2, N10, N20, C20],
    },
    Case {
        label: "a line repeated",
        words: &[I3, N10, N20, N30, C20, P10, C20, P10, E8],
    },
    Case {
        label: "lines out of order",
        words: &[I3, N10, N20, N30, C30, P10, C20, P10, E8],
    },
    Case {
        label: "a word of an unused kind",
        words: &[I1, N10, U10, E3],
    },
    Case {
        label: "a wrong count at the end",
        words: &[I1, N10, E3],
    },
    Case {
        label: "a word after the end",
        words: &[I1, N10, E2, E2],
    },
    Case {
        label: "no end",
        words: &[I1, N10],
    },
    Case {
        label: "whole",
        words: &[I3, N10, N20, N30, C20, P10, C30, P10, E8],
    },
    Case {
        label: "whole, where kinds stand",
        words: &[I0, E1],
    },
];

// Recalled where 10, 20 and 30 stand.
pub const ANSWERS: [Case; 14] = [
    Case {
        label: "no word",
        words: &[],
    },
    Case {
        label: "an image head",
        words: &[I1, N10],
    },
    Case {
        label: "a name for a head",
        words: &[N10],
    },
    Case {
        label: "a name missing",
        words: &[A2, N10],
    },
    Case {
        label: "a word beyond the names",
        words: &[A1, N10, N20],
    },
    Case {
        label: "a child for a name",
        words: &[A1, C10],
    },
    Case {
        label: "serial 0 in a name",
        words: &[A2, N10, N0],
    },
    Case {
        label: "names out of order",
        words: &[A2, N20, N10],
    },
    Case {
        label: "a name repeated",
        words: &[A2, N10, N10],
    },
    Case {
        label: "the leftmost of two faults",
        words: &[A3, N10, N0, C20],
    },
    Case {
        label: "whole",
        words: &[A2, N10, N30],
    },
    Case {
        label: "whole, a kind gone",
        words: &[A3, N10, N11, N30],
    },
    Case {
        label: "whole, all kinds gone",
        words: &[A1, N99],
    },
    Case {
        label: "whole, no kinds",
        words: &[A0],
    },
];
