// The cases: kinds, and lines from a child to its parent.

#[derive(Clone, Copy)]
pub struct Case {
    pub label: &'static str,
    pub kinds: &'static [u32],
    pub lines: &'static [(u32, u32)],
}

// A taxonomy whose codes are published. The serial of a kind is its index there, counted from one; the lines are read off the codes,
// each between two kinds with no third between them.
#[derive(Clone, Copy)]
pub struct Published {
    pub label: &'static str,
    pub names: &'static [&'static str],
    pub lines: &'static [(u32, u32)],
}

pub const CLUTCH: Case = Case {
    label: "clutch parts",
    kinds: &[10, 20, 30, 40, 50],
    lines: &[(20, 10), (30, 10), (50, 20), (50, 40)],
};

// The walk to the late ring starts at 10 and meets 30 and 20 before it comes back to 30.
pub const CASES: [Case; 9] = [
    Case {
        label: "no kinds",
        kinds: &[],
        lines: &[],
    },
    Case {
        label: "kinds without lines",
        kinds: &[30, 10, 20],
        lines: &[],
    },
    CLUTCH,
    Case {
        label: "clutch parts with a line from 10 to 50",
        kinds: &[10, 20, 30, 40, 50],
        lines: &[(20, 10), (30, 10), (50, 20), (50, 40), (10, 50)],
    },
    Case {
        label: "a ring of two kinds",
        kinds: &[10, 20],
        lines: &[(10, 20), (20, 10)],
    },
    Case {
        label: "a ring of two kinds under and over others",
        kinds: &[10, 20, 30, 40],
        lines: &[(10, 20), (20, 30), (30, 20), (30, 40)],
    },
    Case {
        label: "two rings",
        kinds: &[10, 20, 30, 40, 50, 60],
        lines: &[(10, 20), (20, 30), (30, 20), (40, 50), (50, 60), (60, 40)],
    },
    Case {
        label: "two rings that share a kind",
        kinds: &[10, 20, 30],
        lines: &[(10, 20), (20, 10), (20, 30), (30, 20)],
    },
    Case {
        label: "a ring that the walk meets late",
        kinds: &[10, 20, 30, 40],
        lines: &[(10, 30), (30, 20), (20, 30), (30, 40), (40, 10)],
    },
];

pub const PUBLISHED: [Published; 2] = [
    Published {
        label: "a published taxonomy of twelve kinds",
        names: &["A", "D", "C", "B", "E", "F", "H", "G", "J", "I", "K", "L"],
        lines: &[
            (1, 2),
            (4, 2),
            (1, 3),
            (4, 5),
            (2, 6),
            (3, 6),
            (6, 7),
            (2, 8),
            (5, 8),
            (6, 9),
            (8, 9),
            (6, 10),
            (8, 10),
            (7, 11),
            (9, 11),
            (10, 11),
            (9, 12),
            (10, 12),
        ],
    },
    Published {
        label: "a published taxonomy of nine animals",
        names: &[
            "bird",
            "animal",
            "carnivore",
            "pet",
            "canid",
            "dog",
            "ostrich",
            "canary",
            "poodle",
        ],
        lines: &[
            (1, 2),
            (3, 2),
            (4, 2),
            (5, 3),
            (6, 4),
            (8, 4),
            (6, 5),
            (9, 6),
            (7, 1),
            (8, 1),
        ],
    },
];
