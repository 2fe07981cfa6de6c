// What a column's rows show: values, prefixes, suffixes, lengths, null bits, null runs, slices, totals, the row walk.
// Every call tests its own inputs: none asks anything of its caller.
#![tactic(auto)]

ghost use Rattle.bounds.specs.Refusals.{answered};
ghost use Rattle.std.specs.Prelude.{◌≡◌, true, false, List, [], ◌+◌, ◌*◌, ◌/◌, ◌≤◌, ◌<◌, length};
ghost use Rattle.basis.specs.Pick.{pick};
ghost use Rattle.null_bits.specs.Bits as bits;
ghost use Rattle.views.specs.View.{view_size, length_of, is_short, view_at};
ghost use Rattle.column.specs.declared.Block.{Block};
ghost use Rattle.column.specs.Lent.{lent_of, buffers};
ghost use Rattle.column.specs.Spot.{further, Sees};
ghost use Rattle.reading.specs.Reading as spec;
ghost use Rattle.reading.specs.Reading.{why_reach, why_of, located_bytes, points_of, LiesAt};
ghost use Rattle.reading.specs.TotalLaws.{rows_only, Held};
ghost use Rattle.reading.specs.Walk.{walk_start, walk_value, walk_step};

use bounds::Refusal;
use column::{Buffers, Column, Seen, Spot};

// A place in a row walk: the next row.
#[derive(Clone, Copy)]
pub struct Cursor {
    pub at: usize,
}

// Why a walk doesn't go on, and the next place: the same one where it doesn't.
// No Result: what `walk_step` promises says the next place on a refusal too.
#[derive(Clone, Copy)]
pub struct Step {
    pub why: Result<(), Refusal>,
    pub next: Cursor,
}

fn judged(row: usize, s: Spot) -> Result<Spot, Refusal>
    ensures { result ≡ answered (why_reach row s) s }
{
    if column::is_reached(s) {
        Ok(s)
    } else {
        Err(Refusal::BadView(row))
    }
}

// Where a row's value stands, by what the row sees of the table.
pub fn locate_with<'a>(
    views: &'a [u8],
    bytes: &'a [u8],
    nulls: &'a [u8],
    c: Column,
    row: usize,
    s: Seen,
) -> Result<Spot, Refusal>
    ensures { LiesAt views.now bytes.now result
        × ((table : List Block) → Sees table views.now (c.first + row) s
        → result ≡ spec.located_at (buffers views.now bytes.now table nulls.now) c row) }
{
    if !column::fits_with(views, nulls, c, s.count) {
        return Err(Refusal::Fit);
    }
    if c.rows <= row {
        return Err(Refusal::Row);
    }
    judged(
        row,
        column::spot_with(
            views,
            c.first + row,
            c.blocks,
            column::room_of(bytes),
            s.block,
        ),
    )
}

// Where a row's value stands.
pub fn locate(l: Buffers<'_, '_>, c: Column, row: usize) -> Result<Spot, Refusal>
    ensures { result ≡ spec.located_at (lent_of l.entry) c row }
{
    if !column::fits(l, c) {
        return Err(Refusal::Fit);
    }
    if c.rows <= row {
        return Err(Refusal::Row);
    }
    judged(row, column::spot_at(l, c.blocks, c.first + row))
}

// Why a value that was looked for is refused.
pub fn why_of(l: Result<Spot, Refusal>) -> Result<(), Refusal>
    ensures { result ≡ why_of l }
{
    l?;
    Ok(())
}

// The bytes of a value that was looked for: a part of the views or of the data; an empty one of the views where it is refused.
pub fn part_of<'a>(views: &'a [u8], bytes: &'a [u8], l: Result<Spot, Refusal>) -> &'a [u8]
    requires { LiesAt views.now bytes.now l }
    ensures { (result.now ≡ located_bytes views.now bytes.now l) × (result.ref_ptr ≡ points_of views.entry.ref_ptr bytes.entry.ref_ptr l) }
{
    match l {
        Ok(s) => column::part_of(views, bytes, s),
        Err(_) => &views[..0],
    }
}

// The question beside `value`, `prefix`, `suffix` and `walk_value`: why a row's value is refused.
pub fn why_value(l: Buffers<'_, '_>, c: Column, row: usize) -> Result<(), Refusal>
    ensures { result ≡ spec.why_value (lent_of l.entry) c row }
{
    why_of(locate(l, c, row))
}

// The same by what the row sees of the table.
pub fn why_with<'a>(
    views: &'a [u8],
    bytes: &'a [u8],
    nulls: &'a [u8],
    c: Column,
    row: usize,
    s: Seen,
) -> Result<(), Refusal>
    ensures { (table : List Block) → Sees table views.now (c.first + row) s
        → result ≡ spec.why_value (buffers views.now bytes.now table nulls.now) c row }
{
    why_of(locate_with(views, bytes, nulls, c, row, s))
}

// A row's value, its null bit ignored: a part of the views where it is short, of the data where it is long; empty where it is refused.
pub fn value<'a>(l: Buffers<'a, '_>, c: Column, row: usize) -> &'a [u8]
    ensures { (result.now ≡ spec.value_at (lent_of l.entry) c row)
        × (result.ref_ptr ≡ spec.points_at (lent_of l.entry) c row l.entry.views.ref_ptr
        l.entry.bytes.ref_ptr) }
{
    let s = locate(l, c, row);
    part_of(l.views, l.bytes, s)
}

// The same by what the row sees of the table.
pub fn value_with<'a>(
    views: &'a [u8],
    bytes: &'a [u8],
    nulls: &'a [u8],
    c: Column,
    row: usize,
    s: Seen,
) -> &'a [u8]
    ensures { (table : List Block) → Sees table views.now (c.first + row) s
        → (result.now ≡ spec.value_at (buffers views.now bytes.now table nulls.now) c row)
        × (result.ref_ptr ≡ spec.points_at (buffers views.now bytes.now table nulls.now) c row views.entry.ref_ptr
        bytes.entry.ref_ptr) }
{
    let l = locate_with(views, bytes, nulls, c, row, s);
    part_of(views, bytes, l)
}

// The first n bytes of a row's value, empty where it has fewer.
pub fn prefix<'a>(l: Buffers<'a, '_>, c: Column, row: usize, n: usize) -> &'a [u8]
    ensures { (result.now ≡ spec.prefix_at (lent_of l.entry) c row n)
        × (result.ref_ptr ≡ spec.points_at (lent_of l.entry) c row l.entry.views.ref_ptr
        l.entry.bytes.ref_ptr) }
{
    let v = value(l, c, row);
    if v.len() < n { &v[..0] } else { &v[..n] }
}

// The last n bytes of a row's value, empty where it has fewer.
pub fn suffix<'a>(l: Buffers<'a, '_>, c: Column, row: usize, n: usize) -> &'a [u8]
    ensures { (result.now ≡ spec.suffix_at (lent_of l.entry) c row n)
        × (result.ref_ptr ≡ further (spec.points_at (lent_of l.entry) c row
        l.entry.views.ref_ptr l.entry.bytes.ref_ptr) (spec.skip_of n (spec.value_at (lent_of l.entry) c row))) }
{
    let v = value(l, c, row);
    if v.len() < n {
        &v[..0]
    } else {
        &v[v.len() - n..]
    }
}

fn why_column(l: Buffers<'_, '_>, c: Column) -> Result<(), Refusal>
    ensures { result ≡ spec.why_fit (lent_of l.entry) c }
{
    if column::fits(l, c) {
        Ok(())
    } else {
        Err(Refusal::Fit)
    }
}

// Why `count` rows from `start` on are refused.
fn why_run(l: Buffers<'_, '_>, c: Column, start: usize, count: usize) -> Result<(), Refusal>
    ensures { result ≡ spec.why_run (lent_of l.entry) c start count }
{
    if !column::fits(l, c) {
        return Err(Refusal::Fit);
    }
    if c.rows < start || c.rows - start < count {
        return Err(Refusal::Row);
    }
    Ok(())
}

// The length of a row's value, whether its view is reachable or not.
pub fn length(l: Buffers<'_, '_>, c: Column, row: usize) -> Result<usize, Refusal>
    ensures { result ≡ spec.length_at (lent_of l.entry) c row }
{
    why_run(l, c, row, 1)?;
    Ok(views::view_len(l.views, c.first + row))
}

// Whether a row is valid or null.
pub fn null_bit(l: Buffers<'_, '_>, c: Column, row: usize) -> Result<bool, Refusal>
    ensures { result ≡ spec.bit_of (lent_of l.entry) c row }
{
    why_run(l, c, row, 1)?;
    Ok(null_bits::valid_at(l.nulls, c.mapped, c.first + row))
}

// How many of the rows from `start` on, `count` of them, are null.
pub fn null_run(l: Buffers<'_, '_>, c: Column, start: usize, count: usize) -> Result<usize, Refusal>
    ensures { result ≡ spec.null_run (lent_of l.entry) c start count }
{
    why_run(l, c, start, count)?;
    Ok(null_bits::count_nulls(l.nulls, c.mapped, c.first + start, count))
}

// The rows from `start` on, `count` of them, as a column over the same buffers.
pub fn slice(l: Buffers<'_, '_>, c: Column, start: usize, count: usize) -> Result<Column, Refusal>
    ensures { result ≡ spec.slice (lent_of l.entry) c start count }
{
    why_run(l, c, start, count)?;
    Ok(Column {
        first: c.first + start,
        rows: count,
        ..c
    })
}

// What a row adds to `total_bytes_len`: its length unless it is null, read first so that no branch hangs on the bit. The row counts from row 0 of the views.
fn valid_bytes(views: &[u8], nulls: &[u8], mapped: bool, at: usize) -> usize
    requires { (view_size * at + view_size ≤ length views.now) × (mapped ≡ true → at / 8 < length nulls.now) }
    ensures { (result ≡ pick (bits.valid_at nulls.now mapped at) (length_of (view_at views.now at)) 0) × (result < 4294967296) }
{
    let len = views::view_len(views, at);
    if null_bits::valid_at(nulls, mapped, at) {
        len
    } else {
        0
    }
}

fn sum_valid(views: &[u8], nulls: &[u8], mapped: bool, first: usize, rows: usize) -> usize
    requires { Held views.now nulls.now mapped first rows }
    ensures { result ≡ spec.bytes_len (buffers views.now [] [] nulls.now) (rows_only mapped first) rows }
{
    let mut sum = 0;
    for k in 0..rows {
        sum += valid_bytes(views, nulls, mapped, first + k);
    }
    sum
}

// The lengths of the rows that aren't null, short and long.
pub fn total_bytes_len(l: Buffers<'_, '_>, c: Column) -> Result<usize, Refusal>
    ensures { result ≡ spec.total_bytes_len (lent_of l.entry) c }
{
    why_column(l, c)?;
    Ok(sum_valid(l.views, l.nulls, c.mapped, c.first, c.rows))
}

// What a row adds to `total_buffer_bytes_used`: its length if it is long.
fn long_bytes(views: &[u8], at: usize) -> usize
    requires { view_size * at + view_size ≤ length views.now }
    ensures { (result ≡ pick (is_short (length_of (view_at views.now at))) 0 (length_of (view_at views.now at))) × (result < 4294967296) }
{
    let len = views::view_len(views, at);
    if len <= views::SHORT_MOST { 0 } else { len }
}

fn sum_long(views: &[u8], first: usize, rows: usize) -> usize
    requires { Held views.now [] false first rows }
    ensures { result ≡ spec.buffer_bytes (buffers views.now [] [] []) (rows_only false first) rows }
{
    let mut sum = 0;
    for k in 0..rows {
        sum += long_bytes(views, first + k);
    }
    sum
}

// The lengths of the long rows, null ones too.
pub fn total_buffer_bytes_used(l: Buffers<'_, '_>, c: Column) -> Result<usize, Refusal>
    ensures { result ≡ spec.total_buffer_bytes_used (lent_of l.entry) c }
{
    why_column(l, c)?;
    Ok(sum_long(l.views, c.first, c.rows))
}

// Before the first row.
pub fn walk_start() -> Cursor
    ensures { result ≡ walk_start }
{
    Cursor { at: 0 }
}

// The value at the cursor's place, empty where it is refused.
pub fn walk_value<'a>(l: Buffers<'a, '_>, c: Column, cursor: Cursor) -> &'a [u8]
    ensures { (result.now ≡ walk_value (lent_of l.entry) c cursor)
        × (result.ref_ptr ≡ spec.points_at (lent_of l.entry) c cursor.at
        l.entry.views.ref_ptr l.entry.bytes.ref_ptr) }
{
    value(l, c, cursor.at)
}

// The step to the next row: past the end 3, at a bad row 11, and the place stays.
pub fn walk_step(l: Buffers<'_, '_>, c: Column, cursor: Cursor) -> Step
    ensures { result ≡ walk_step (lent_of l.entry) c cursor }
{
    let why = why_value(l, c, cursor.at);
    if why.is_err() {
        return Step { why, next: cursor };
    }
    Step {
        why,
        next: Cursor { at: cursor.at + 1 },
    }
}
