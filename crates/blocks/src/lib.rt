// The block table lent as a slice of records, as document 01 has it: the record of a block, what a row sees of the table, and reading over it.
// A function that has the table is thin: it asks `look` what the row sees, and a function over numbers does the work.
#![tactic(auto)]

ghost use Rattle.std.specs.Prelude.{◌≡◌, true, List, ℕ, ◌+◌, ◌*◌, ◌≤◌, length, get_or};
ghost use Rattle.views.specs.View.{view_size, view_at, block_of};
ghost use Rattle.column.specs.declared.Block.{Block};
ghost use Rattle.column.specs.Lent.{buffers, block, fits};
ghost use Rattle.column.specs.Spot.{Sees};
ghost use Rattle.reading.specs.Reading.{why_value, value_at, points_at};
ghost use Rattle.bounds.specs.Bounds.{row_limit};
ghost use Rattle.bounds.specs.Refusals.{is_accepted};
ghost use Rattle.comparison.specs.Compare.{compare_rows};
ghost use Rattle.reading.specs.Walk.{cursor, walk_value, walk_step};
ghost use Rattle.blocks.specs.Walk.{held_by, place_after};
ghost use Rattle.validity.specs.Check.{why_invalid};
ghost use Rattle.blocks.specs.Places.{Asks, Answers, PlacesCounted, PlaceFound, Stopped};

use bounds::Refusal;
use column::{Block, Column, Seen};
use comparison::Side;
use std::cmp::Ordering;

// The number of the block that a row's view names; where the views have no such row, 0.
pub fn block_of(views: &[u8], c: Column, row: usize) -> usize
    ensures { view_size * (c.first + row) + view_size ≤ length views.now → result ≡ block_of (view_at views.now (c.first + row)) }
{
    let rows = views.len() / views::VIEW_SIZE;
    if rows <= c.first || rows - c.first <= row {
        return 0;
    }
    views::view_block(views, c.first + row)
}

// What a row of a column sees of the table.
fn look<'a>(views: &'a [u8], table: &'a [Block], c: Column, row: usize) -> Seen
    ensures { Sees table.now views.now (c.first + row) result }
{
    let k = block_of(views, c, row);
    let b = tables::block_or(table, k, Block { start: 0, len: 0 });
    Seen {
        count: tables::count(table),
        block: b,
    }
}

// Why a row's value is refused.
pub fn why_value<'a>(
    views: &'a [u8],
    bytes: &'a [u8],
    table: &'a [Block],
    nulls: &'a [u8],
    c: Column,
    row: usize,
) -> Result<(), Refusal>
    ensures { result ≡ why_value (buffers views.now bytes.now table.now nulls.now) c row }
{
    let s = look(views, table, c, row);
    reading::why_with(views, bytes, nulls, c, row, s)
}

// A row's value, a part of the views where it is short and of the data where it is long; empty where it is refused.
pub fn value<'a>(
    views: &'a [u8],
    bytes: &'a [u8],
    table: &'a [Block],
    nulls: &'a [u8],
    c: Column,
    row: usize,
) -> &'a [u8]
    ensures { (result.now ≡ value_at (buffers views.now bytes.now table.now nulls.now) c row)
        × (result.ref_ptr ≡ points_at (buffers views.now bytes.now table.now nulls.now) c row views.entry.ref_ptr
        bytes.entry.ref_ptr) }
{
    let s = look(views, table, c, row);
    reading::value_with(views, bytes, nulls, c, row, s)
}

// The row walk: the lent buffers, the column, and the place of the next row.
#[derive(Clone, Copy)]
pub struct Walk<'a> {
    pub views: &'a [u8],
    pub bytes: &'a [u8],
    pub table: &'a [Block],
    pub nulls: &'a [u8],
    pub column: Column,
    pub at: usize,
}

// What a walk gives: the value at its place, why it is refused, and the walk after it.
#[derive(Clone, Copy)]
pub struct Item<'a> {
    pub value: &'a [u8],
    pub why: Result<(), Refusal>,
    pub walk: Walk<'a>,
}

// The place after a row: the next one where the row's value was accepted, the same one where it wasn't.
fn next_place(at: usize, why: Result<(), Refusal>) -> usize
    ensures { (is_accepted why ≡ true → at ≤ row_limit) → result ≡ place_after why at }
{
    if at <= bounds::ROW_LIMIT && why.is_ok() {
        at + 1
    } else {
        at
    }
}

// A walk before the first row.
pub fn new<'a>(
    views: &'a [u8],
    bytes: &'a [u8],
    table: &'a [Block],
    nulls: &'a [u8],
    column: Column,
) -> Walk<'a>
    ensures { result ≡ record { views = views.entry; bytes = bytes.entry; table = table.entry; nulls = nulls.entry; column = column; at = 0 } }
{
    Walk {
        views,
        bytes,
        table,
        nulls,
        column,
        at: 0,
    }
}

// The value at the walk's place, and the step to the next row: past the end 3, at a bad row 11, and the place stays.
pub fn next<'a>(w: Walk<'a>) -> Item<'a>
    ensures { ((result.value.now ≡ walk_value (held_by w.entry) w.entry.column (cursor w.entry.at))
        × (result.value.ref_ptr ≡ points_at (held_by w.entry) w.entry.column w.entry.at w.entry.views.ref_ptr w.entry.bytes.ref_ptr))
        × ((result.why ≡ (walk_step (held_by w.entry) w.entry.column (cursor w.entry.at)).why)
        × (result.walk ≡ record {
          views = w.entry.views;
          bytes = w.entry.bytes;
          table = w.entry.table;
          nulls = w.entry.nulls;
          column =
              w.entry.column;
          at = (walk_step (held_by w.entry) w.entry.column (cursor w.entry.at)).next.at;
        })) }
{
    let value = value(w.views, w.bytes, w.table, w.nulls, w.column, w.at);
    let why = why_value(w.views, w.bytes, w.table, w.nulls, w.column, w.at);
    let at = next_place(w.at, why);
    Item {
        value,
        why,
        walk: Walk { at, ..w },
    }
}

// Row i of one column against row j of another, null bits ignored.
pub fn compare<'a>(
    views: &'a [u8],
    bytes: &'a [u8],
    table: &'a [Block],
    nulls: &'a [u8],
    c: Column,
    i: usize,
    views2: &'a [u8],
    bytes2: &'a [u8],
    table2: &'a [Block],
    nulls2: &'a [u8],
    d: Column,
    j: usize,
) -> Result<Ordering, Side>
    ensures { result ≡ compare_rows (buffers views.now bytes.now table.now nulls.now) c i
        (buffers views2.now bytes2.now table2.now nulls2.now) d j }
{
    let s = look(views, table, c, i);
    let s2 = look(views2, table2, d, j);
    comparison::compare_with(
        views, bytes, nulls, c, i, s, views2, bytes2, nulls2, d, j, s2,
    )
}

// The number of the record that place k of the check asks for: a row asks for that of the block its view names, a block for its own.
fn place_of(views: &[u8], c: Column, k: usize) -> usize
    ensures { Asks views.now c k result }
{
    if k < c.rows {
        block_of(views, c, k)
    } else {
        k - c.rows
    }
}

// Whether place k of the check holds, by the record that it asks for; past the places none does.
fn judge<'a>(views: &'a [u8], bytes: &'a [u8], c: Column, places: usize, k: usize, b: Block) -> bool
    ensures { (table : List Block) (p : ℕ) → Asks views.now c k p → b ≡ get_or table p (block 0 0)
        → Answers views.now bytes.now table c places k result }
{
    if places <= k {
        return false;
    }
    if c.rows <= k {
        return column::in_data(bytes, b.start, b.len);
    }
    let room = views.len() / views::VIEW_SIZE;
    if room <= c.first || room - c.first <= k {
        return false;
    }
    column::true_with(views, bytes, c.first + k, c.kind, c.blocks, b)
}

// How many places the check asks: a column's rows and blocks, and none where the column doesn't fit.
fn places_with<'a>(views: &'a [u8], nulls: &'a [u8], c: Column, count: usize) -> usize
    ensures { PlacesCounted views.now nulls.now c count result }
{
    if !column::fits_with(views, nulls, c, count) || bounds::BLOCK_LIMIT < c.blocks {
        return 0;
    }
    c.rows + c.blocks
}

// The verdict of a check that stopped at place k.
fn check_with<'a>(
    views: &'a [u8],
    nulls: &'a [u8],
    c: Column,
    count: usize,
    k: usize,
) -> Result<(), Refusal>
    ensures { (bytes : List ℕ) (table : List Block) → count ≡ length table
        → (fits (buffers views.now bytes table nulls.now) c ≡ true
        → Stopped (buffers views.now bytes table nulls.now) c k)
        → result ≡ why_invalid (buffers views.now bytes table nulls.now) c }
{
    if !column::fits_with(views, nulls, c, count) {
        return Err(Refusal::Fit);
    }
    if k < c.rows {
        return Err(Refusal::BadView(k));
    }
    if k - c.rows < c.blocks {
        return Err(Refusal::Range);
    }
    Ok(())
}

// Whether place k of the check holds.
fn holds<'a>(
    views: &'a [u8],
    bytes: &'a [u8],
    table: &'a [Block],
    c: Column,
    places: usize,
    k: usize,
) -> bool
    ensures { Answers views.now bytes.now table.now c places k result }
{
    let p = place_of(views, c, k);
    let b = tables::block_or(table, p, Block { start: 0, len: 0 });
    judge(views, bytes, c, places, k, b)
}

// The first place of the check that doesn't hold, or how many there are.
pub fn stop_at<'a>(
    views: &'a [u8],
    bytes: &'a [u8],
    table: &'a [Block],
    c: Column,
    places: usize,
) -> usize
    ensures { PlaceFound views.now bytes.now table.now c places result }
{
    for k in 0..places {
        if !holds(views, bytes, table, c, places, k) {
            return k;
        }
    }
    places
}

// Why a column isn't valid: its numbers don't fit, the lowest row whose view isn't true, or a block outside the data.
pub fn check<'a>(
    views: &'a [u8],
    bytes: &'a [u8],
    table: &'a [Block],
    nulls: &'a [u8],
    c: Column,
) -> Result<(), Refusal>
    ensures { result ≡ why_invalid (buffers views.now bytes.now table.now nulls.now) c }
{
    let n = tables::count(table);
    let places = places_with(views, nulls, c, n);
    let k = stop_at(views, bytes, table, c, places);
    check_with(views, nulls, c, n, k)
}
