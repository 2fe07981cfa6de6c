// The mark of each row of a column, and how many rows have each mark, over the block table lent as a slice of records.
#![tactic(auto)]

ghost use Rattle.std.specs.Prelude.{◌≡◌};
ghost use Rattle.column.specs.Lent.{buffers};
ghost use Rattle.marks.specs.Marking.{mark_at, marks_of};

use bounds::Refusal;
use codes::Mark;
use column::{Block, Column, Seen};
use marks::Tally;

// A row's mark. A view that isn't reachable is refused under a null too.
pub fn mark_at<'a>(
    views: &'a [u8],
    bytes: &'a [u8],
    table: &'a [Block],
    nulls: &'a [u8],
    c: Column,
    row: usize,
) -> Result<Mark, Refusal>
    ensures { result ≡ mark_at (buffers views.now bytes.now table.now nulls.now) c row }
{
    let k = blocks::block_of(views, c, row);
    let block = tables::block_or(table, k, Block { start: 0, len: 0 });
    let count = tables::count(table);
    marks::mark_with(views, bytes, nulls, c, row, Seen { count, block })
}

// How many rows have each mark. The lowest row whose view isn't reachable is refused, under a null too.
pub fn count_marks<'a>(
    views: &'a [u8],
    bytes: &'a [u8],
    table: &'a [Block],
    nulls: &'a [u8],
    c: Column,
) -> Result<Tally, Refusal>
    ensures { result ≡ marks_of (buffers views.now bytes.now table.now nulls.now) c }
{
    if !column::fits_with(views, nulls, c, tables::count(table)) {
        return Err(Refusal::Fit);
    }
    let mut t = Tally::default();
    for k in 0..c.rows {
        let m = mark_at(views, bytes, table, nulls, c, k)?;
        t = t.with(m);
    }
    Ok(t)
}
