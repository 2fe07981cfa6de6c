// The bounds of every column and state, each under its one name, and why a call refuses.
#![tactic(auto)]

ghost use Rattle.std.specs.Prelude.{◌≡◌};
ghost use Rattle.bounds.specs.Refusals.{number_of, row_named, why_number};

// Rows, counted from row 0 of the views.
pub const ROW_LIMIT: usize = 32767;

// Blocks of one column, the open one included.
pub const BLOCK_LIMIT: usize = 4096;

// Bytes of the data, and of one value or block.
pub const BYTE_LIMIT: usize = 16777216;

// The largest maximum that compaction takes.
pub const MOST_COMPACTION: usize = 2147483647;

// Why a call refuses, in the order of the numbers. BadView holds the lowest bad row, counted from the column's first.
#[derive(Clone, Copy, PartialEq, Eq)]
pub enum Refusal {
    Setting,
    Fit,
    Row,
    TooLong,
    RowRoom,
    BlockRoom,
    DataRoom,
    NoBlock,
    Range,
    NotUtf8,
    BadView(usize),
    Offsets,
}

impl Refusal {
    // The refusal's number: 1 to 13, and never the retired one.
    pub fn number(self) -> u8
        ensures { result ≡ number_of self }
    {
        match self {
            Refusal::Setting => 1,
            Refusal::Fit => 2,
            Refusal::Row => 3,
            Refusal::TooLong => 4,
            Refusal::RowRoom => 5,
            Refusal::BlockRoom => 6,
            Refusal::DataRoom => 7,
            Refusal::NoBlock => 8,
            Refusal::Range => 9,
            Refusal::NotUtf8 => 10,
            Refusal::BadView(_) => 11,
            Refusal::Offsets => 13,
        }
    }

    // The row that the refusal names, 0 where it names none.
    pub fn row(self) -> usize
        ensures { result ≡ row_named self }
    {
        match self {
            Refusal::BadView(k) => k,
            _ => 0,
        }
    }
}

// 0 where a call is accepted, the refusal's number where it isn't.
pub fn why_number(w: Result<(), Refusal>) -> u8
    ensures { result ≡ why_number w }
{
    match w {
        Ok(()) => 0,
        Err(r) => r.number(),
    }
}
