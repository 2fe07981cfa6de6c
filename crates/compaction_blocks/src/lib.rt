// Compaction over block tables that are lent as slices of records: the source's is read, the new column's is written through.
#![tactic(auto)]

ghost use Rattle.std.specs.Prelude.{◌≡◌, true, ℕ, ◌+◌, ◌*◌, ◌<◌, ◌≤◌, length};
ghost use Rattle.bounds.specs.Bounds.{row_limit};
ghost use Rattle.views.specs.View.{view_size, short_most, view_at, length_of};
ghost use Rattle.column.specs.Lent.{buffers, block, table_of};
ghost use Rattle.column.specs.Meaning.{row_view, blocks_of, shown};
ghost use Rattle.column.specs.Spot.{Names};
ghost use Rattle.column.specs.Truth.{reachable};
ghost use Rattle.compaction.specs.Steps.{stand_at, SourceFits, RowIn, RowPut, Small, TablePut, WriteIn, TableIn, CutCounted, Filled, CutListed, Measured, Judges};
ghost use Rattle.compaction_blocks.specs.Compacts.{Compacts};
ghost use Rattle.compaction_blocks.specs.Records.{starts_in, lens_in, source_of, lent_by};

use bounds::Refusal;
use column::{Block, Column};
use compaction::{Judged, Outcome, Stand};

// The buffers of a column whose block table is a slice of records.
#[derive(Clone, Copy)]
struct Records<'a> {
    views: &'a [u8],
    bytes: &'a [u8],
    table: &'a [Block],
    nulls: &'a [u8],
}

// The record of the block that the view of a row names; an empty one where the table has none.
fn record_at(l: Records<'_>, at: usize) -> Block
    requires { view_size * at + view_size ≤ length l.views.now }
    ensures { (blocks : ℕ) → Names (table_of (starts_in l.entry.table.now) (lens_in l.entry.table.now)) blocks (view_at l.entry.views.now at) result }
{
    match l.table.get(views::view_block(l.views, at)) {
        Some(b) => *b,
        None => Block { start: 0, len: 0 },
    }
}

// Where the walk stands after all rows, or the lowest row that isn't true.
fn measure(l: Records<'_>, c: Column, most: usize) -> Result<Stand, Refusal>
    requires { SourceFits l.views.now (starts_in l.table.now) (lens_in l.table.now) c }
    ensures { Measured most (source_of l.entry) c result }
{
    let mut s = Stand::default();
    for k in 0..c.rows {
        let at = c.first + k;
        let b = record_at(l, at);
        if !column::true_with(l.views, l.bytes, at, c.kind, c.blocks, b) {
            return Err(Refusal::BadView(k));
        }
        s = s.step(views::view_len(l.views, at), most);
    }
    Ok(s)
}

// The blocks of the new column, or why the call is refused.
fn judge(l: Records<'_>, c: Column, most: usize, to: Records<'_>) -> Result<Judged, Refusal>
    ensures { Judges most (lent_by l.entry) c (lent_by to.entry) result }
{
    if bounds::MOST_COMPACTION < most {
        return Err(Refusal::Setting);
    }
    if !column::fits_with(l.views, l.nulls, c, l.table.len()) {
        return Err(Refusal::Fit);
    }
    let s = measure(l, c, most)?;
    let blocks = s.blocks();
    let bytes = s.bytes();
    let places = to.table.len();
    laying::why_rooms_with(
        to.views, to.bytes, to.nulls, places, c.mapped, c.rows, blocks, bytes,
    )?;
    Ok(Judged { blocks, bytes })
}

// The row of any value: a short one's view as it is.
fn put_row(
    l: Records<'_>,
    blocks: usize,
    at: usize,
    newviews: &mut [u8],
    newbytes: &mut [u8],
    row: usize,
    s: Stand,
    most: usize,
) -> Stand
    requires source { (view_size * at + view_size ≤ length l.views.now) × (reachable (source_of l) blocks (view_at l.views.now at) ≡ true) }
    requires room { RowIn (length_of (view_at l.views.now at)) newviews.old newbytes.old row s }
    ensures { RowPut most row (view_at l.entry.views.now at) (shown (blocks_of (source_of l.entry) blocks) (view_at l.entry.views.now at)) s
        newviews.old newbytes.old result newviews.new newbytes.new }
{
    if views::view_len(l.views, at) <= views::SHORT_MOST {
        words::copy16(
            newviews,
            views::VIEW_SIZE * row,
            l.views,
            views::VIEW_SIZE * at,
        );
        return s;
    }
    let b = record_at(l, at);
    let spot = column::spot_with(l.views, at, blocks, column::room_of(l.bytes), b);
    let value = column::part_of(l.views, l.bytes, spot);
    compaction::put_long(newviews, newbytes, row, value, s, most)
}

// All rows: their views, and the long values end to end.
fn write(l: Records<'_>, c: Column, most: usize, newviews: &mut [u8], newbytes: &mut [u8])
    requires source { SourceFits l.views.now (starts_in l.table.now) (lens_in l.table.now) c }
    requires room { WriteIn most (source_of l) c newviews.old newbytes.old }
    ensures { Filled most (source_of l.entry) c newviews.old newbytes.old newviews.new newbytes.new }
{
    let mut s = Stand::default();
    for k in 0..c.rows {
        s = put_row(l, c.blocks, c.first + k, newviews, newbytes, k, s, most);
    }
}

// The record of the current block.
fn record_of(s: Stand) -> Block
    ensures { result ≡ block s.base s.fill }
{
    Block {
        start: s.base,
        len: s.fill,
    }
}

// The table after a row of `n` bytes: where it closes the current block, that block's record is written.
fn put_record(newtable: &mut [Block], n: usize, s: Stand, most: usize) -> Stand
    requires { Small n s × (short_most < n → s.closed < length newtable.old) }
    ensures { TablePut most n s (starts_in newtable.old) (lens_in newtable.old) result (starts_in newtable.new) (lens_in newtable.new) }
{
    if views::SHORT_MOST < n && most < s.fill + n {
        newtable[s.closed] = record_of(s);
    }
    s.step(n, most)
}

// The records of all blocks, by the lengths alone.
fn write_table(views: &[u8], c: Column, most: usize, newtable: &mut [Block])
    requires { (view_size * (c.first + c.rows) ≤ length views.now) × (c.first + c.rows ≤ row_limit)
        × (TableIn (stand_at most (λ r. view_at views.now (c.first + r)) c.rows) (starts_in newtable.old) (lens_in newtable.old)) }
    ensures { CutListed most (λ r. view_at views.now (c.first + r)) c.rows (starts_in newtable.old) (lens_in newtable.old)
        (starts_in newtable.new) (lens_in newtable.new) }
{
    let mut s = Stand::default();
    for k in 0..c.rows {
        let n = views::view_len(views, c.first + k);
        s = put_record(newtable, n, s, most);
    }
    if s.bytes() != 0 {
        newtable[s.closed] = record_of(s);
    }
}

// The same; where the first pass found no block or one, there is nothing to walk.
fn put_table(views: &[u8], c: Column, most: usize, j: Judged, newtable: &mut [Block])
    requires source { (view_size * (c.first + c.rows) ≤ length views.now) × (c.first + c.rows ≤ row_limit)
        × (TableIn (stand_at most (λ r. view_at views.now (c.first + r)) c.rows) (starts_in newtable.old) (lens_in newtable.old)) }
    requires counted { CutCounted most (λ r. view_at views.now (c.first + r)) c.rows j.blocks j.bytes }
    ensures { CutListed most (λ r. view_at views.now (c.first + r)) c.rows (starts_in newtable.old) (lens_in newtable.old)
        (starts_in newtable.new) (lens_in newtable.new) }
{
    match j.blocks {
        0 => {}
        1 => {
            newtable[0] = Block {
                start: 0,
                len: j.bytes,
            }
        }
        _ => write_table(views, c, most, newtable),
    }
}

// Writes a column anew into buffers of its own: long values in row order, null rows too, in blocks within a maximum or of one value.
// What is lent stays a slice each: the theorems `compact-says` and `compact-one` speak of each, and of what it holds at exit.
pub fn compact<'a>(
    views: &'a [u8],
    bytes: &'a [u8],
    table: &'a [Block],
    nulls: &'a [u8],
    c: Column,
    most: usize,
    newviews: &mut [u8],
    newbytes: &mut [u8],
    newtable: &mut [Block],
    newnulls: &mut [u8],
) -> Outcome
    ensures { Compacts most (buffers views.now bytes.now table.now nulls.now) c
        (buffers newviews.old newbytes.old newtable.old newnulls.old) result
        newviews.new newbytes.new newtable.new newnulls.new }
{
    let l = Records {
        views,
        bytes,
        table,
        nulls,
    };
    let to = Records {
        views: newviews,
        bytes: newbytes,
        table: newtable,
        nulls: newnulls,
    };
    match judge(l, c, most, to) {
        Err(r) => Outcome {
            why: Err(r),
            column: c,
        },
        Ok(j) => {
            write(l, c, most, newviews, newbytes);
            put_table(views, c, most, j, newtable);
            compaction::put_map(newnulls, nulls, c);
            Outcome {
                why: Ok(()),
                column: Column {
                    first: 0,
                    blocks: j.blocks,
                    ..c
                },
            }
        }
    }
}
