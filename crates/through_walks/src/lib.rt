// An instrument of tests, no part of the library: the row walk over a table of records, asked by a table of two number slices, as through_records has the
// calls. Its contract says no more than that it is safe and ends.
#![tactic(auto)]

use blocks::Walk;
use bounds::Refusal;
use column::{Buffers, Column};
use through_records::Table;

// What a walk gives at a place: why the value is refused, whether it is the one that was asked for, and the place after it, which is given either way.
#[derive(Clone, Copy)]
pub struct Stepped {
    pub why: Result<(), Refusal>,
    pub same: bool,
    pub at: usize,
}

// The walk of a column, set to a row, and one step of it.
pub fn walk_at(l: Buffers<'_, '_>, c: Column, row: usize, want: &[u8]) -> Stepped {
    let t = Table::gather(l.starts, l.lens);
    let w = blocks::new(l.views, l.bytes, t.lent(), l.nulls, c);
    let i = blocks::next(Walk { at: row, ..w });
    Stepped {
        why: i.why,
        same: i.value == want,
        at: i.walk.at,
    }
}
