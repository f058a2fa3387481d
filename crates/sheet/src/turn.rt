// What a sheet is asked, and what it answers.
use interval::Interval;
use taylor::ModelRecord;

// A posting and a narrowing are lent working records beside.
#[derive(Clone, Copy)]
pub enum Turn<'a> {
    Post {
        office: u64,
        text: &'a [u8],
    },
    Narrow {
        office: u64,
        variable: u64,
        lower: f64,
        upper: f64,
    },
    Strike {
        office: u64,
    },
    ReadModel {
        line: u64,
    },
    ReadRange {
        line: u64,
    },
    ReadAccount {
        office: u64,
    },
}

// Of an accepted turn.
#[derive(Clone, Copy)]
pub enum Answer {
    // the new line's number, the pairs that it made, and its clean mark
    Posted { line: u64, pairs: u64, clean: bool },
    // how many lines were worked again, and the pairs that they made
    Narrowed { lines: u64, pairs: u64 },
    Struck,
    // a line's model
    ModelIs(ModelRecord),
    // a line's range: the method's, plus the remainder
    RangeIs(Interval),
    // an account's pairs
    PairsAre(u64),
}
