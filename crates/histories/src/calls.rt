// The calls that a terminal can make on a catalogue, with all that they are handed.

// Of a list that a finder owns, a call has how much of it is handed in: that much from its start, or all of it where it is shorter.
#[derive(Clone, Copy)]
pub enum Call<'a> {
    Enter {
        serial: u32,
    },
    Withdraw {
        serial: u32,
    },
    EnterLine {
        child: u32,
        parent: u32,
    },
    WithdrawLine {
        child: u32,
        parent: u32,
    },
    ReadImage {
        words: &'a [u32],
    },
    WriteImage {
        image: usize,
    },
    Close {
        table: usize,
        marks: usize,
        walk: usize,
        ring: usize,
    },
    Ask {
        words: &'a [u32],
        table: usize,
        working: usize,
        answer: usize,
    },
    Fit {
        serial: u32,
        words: &'a [u32],
        table: usize,
        working: usize,
    },
    Recall {
        words: &'a [u32],
        answer: usize,
    },
}
