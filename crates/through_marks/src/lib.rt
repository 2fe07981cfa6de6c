// Instruments of tests, no part of the library: marks over a table of records, asked by a table of two number slices, as through_records has the calls. Their
// contracts say no more than that they are safe and end.
#![tactic(auto)]

use bounds::Refusal;
use codes::Mark;
use column::{Buffers, Column};
use marks::Tally;
use through_records::Table;

// A row's mark.
pub fn mark_at(l: Buffers<'_, '_>, c: Column, row: usize) -> Result<Mark, Refusal> {
    let t = Table::gather(l.starts, l.lens);
    mark_blocks::mark_at(l.views, l.bytes, t.lent(), l.nulls, c, row)
}

// How many rows have each mark.
pub fn count_marks(l: Buffers<'_, '_>, c: Column) -> Result<Tally, Refusal> {
    let t = Table::gather(l.starts, l.lens);
    mark_blocks::count_marks(l.views, l.bytes, t.lent(), l.nulls, c)
}
