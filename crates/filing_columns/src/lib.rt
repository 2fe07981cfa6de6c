// A column and a view of a completed block added to a builder, its block table, and the column's, lent as slices of records.
// The builder's buffers stay parameters of their own: a call takes `&mut` of those alone that it writes, and a struct of all would ask it of each.
#![tactic(auto)]

ghost use Rattle.std.specs.Prelude.{◌≡◌, [], ◌+◌, ◌≤◌, length};
ghost use Rattle.std.proofs.Math.Seq.{paste};
ghost use Rattle.column.specs.Lent.{buffers};
ghost use Rattle.column.specs.Meaning.{bytes_of};
ghost use Rattle.validity.specs.Check.{why_invalid};
ghost use Rattle.builder.specs.Others.{block_bytes, sizes, why_column, put_column, why_view, put_view};
ghost use Rattle.appending.specs.Laying.{end_from, put_data, put_records, by_kind};
ghost use Rattle.filing.specs.Files.{Files};
ghost use Rattle.filing_columns.specs.Columns.{Counts, Lays, column_by, Says};

use bounds::Refusal;
use builder::{Answer, State};
use column::{Block, Column};

// The column judged by the builder's kind.
fn judged(s: State, c: Column) -> Column
    ensures { result ≡ by_kind s.kind c }
{
    Column { kind: s.kind, ..c }
}

// The lengths of the first n blocks together.
fn total(table: &[Block], n: usize) -> usize
    requires { (n ≤ length table.now) × Counts table.now n }
    ensures { result ≡ sizes (buffers [] [] table.now []) n }
{
    table[..n].iter().map(|b| b.len).sum()
}

// 2, 11, 9, 5, 6 and 7 for a column, by the lengths of what the builder lends, and by the count of its records.
fn why_column<'a>(
    s: State,
    views: usize,
    bytes: usize,
    count: usize,
    nulls: usize,
    places: usize,
    srcviews: &'a [u8],
    srcbytes: &'a [u8],
    srctable: &'a [Block],
    srcnulls: &'a [u8],
    c: Column,
) -> Result<(), Refusal>
    ensures { result ≡ column_by s views bytes count nulls places c
        (why_invalid (buffers srcviews.now srcbytes.now srctable.now srcnulls.now) (by_kind s.kind c))
        (sizes (buffers [] [] srctable.now []) c.blocks) }
{
    if !filing::fits_with(s, views, bytes, count, nulls, places) {
        return Err(Refusal::Fit);
    }
    blocks::check(srcviews, srcbytes, srctable, srcnulls, judged(s, c))?;
    if builder::rows_room(s.merging, views, nulls, places) < s.rows + c.rows {
        return Err(Refusal::RowRoom);
    }
    appending::why_room(
        s,
        builder::blocks_room(count, count),
        builder::bytes_room(bytes),
        c.blocks,
        total(srctable, c.blocks),
    )
}

// The bytes of a block of another table, laid at a place.
fn lay_block(bytes: &mut [u8], at: usize, src: &[u8], b: Block)
    requires { (at + b.len ≤ length bytes.old) × (b.start + b.len ≤ length src.now) }
    ensures { bytes.new ≡ paste bytes.old at (bytes_of src.now b) b.len }
{
    builder::lay(bytes, at, &src[b.start..b.start + b.len]);
}

// The first n blocks of another table, laid whole from `base` on; their records from block `first` on. The end of the last.
fn put_blocks<'a>(
    bytes: &mut [u8],
    table: &mut [Block],
    src: &'a [u8],
    srctable: &'a [Block],
    first: usize,
    base: usize,
    n: usize,
) -> usize
    requires { Lays (length bytes.old) first base src.now srctable.now n }
    ensures { (result ≡ end_from (block_bytes (buffers [] src.now srctable.now [])) n base)
        × (bytes.new ≡ put_data (block_bytes (buffers [] src.now srctable.now [])) n bytes.old base)
        × (table.new ≡ put_records (block_bytes (buffers [] src.now srctable.now [])) n table.old first base) }
{
    let mut at = base;
    for k in 0..n {
        let b = tables::block_or(srctable, k, Block { start: 0, len: 0 });
        lay_block(bytes, at, src, b);
        tables::put_or(
            table,
            first + k,
            Block {
                start: at,
                len: b.len,
            },
        );
        at += b.len;
    }
    at
}

// A column is added: the open block, if any, is completed, the column's blocks are copied whole, its views renumbered, its null bits copied.
pub fn append_column<'a>(
    s: State,
    views: &mut [u8],
    bytes: &mut [u8],
    table: &mut [Block],
    nulls: &mut [u8],
    places: &[u32],
    srcviews: &'a [u8],
    srcbytes: &'a [u8],
    srctable: &'a [Block],
    srcnulls: &'a [u8],
    c: Column,
) -> Answer
    ensures { Files
        (why_column (buffers srcviews.now srcbytes.now srctable.now srcnulls.now) c)
        (put_column (buffers srcviews.now srcbytes.now srctable.now srcnulls.now) c) s
        views.old bytes.old table.old nulls.old places.now
        result views.new bytes.new table.new nulls.new places.now }
{
    let why = why_column(
        s,
        views.len(),
        bytes.len(),
        table.len(),
        nulls.len(),
        places.len(),
        srcviews,
        srcbytes,
        srctable,
        srcnulls,
        c,
    );
    if why.is_err() {
        return Answer { why, state: s };
    }
    filing::put_open(s, table);
    let t = appending::close(s);
    let before = t.blocks;
    let end = put_blocks(bytes, table, srcbytes, srctable, before, t.base, c.blocks);
    appending::put_rows(views, s.rows, srcviews, c.first, c.rows, before);
    null_bits::runs::copy_column(nulls, s.rows, srcnulls, c.mapped, c.first, c.rows);
    let some = appending::flag(
        s.nulled,
        null_bits::count_nulls(srcnulls, c.mapped, c.first, c.rows),
    );
    Answer {
        why: Ok(()),
        state: appending::column_more(t, c.rows, c.blocks, end, some),
    }
}

// 2, 8, 9, 10 and 5 for n bytes at an offset of completed block k, by the count of the records and that of the block.
fn why_view(
    s: State,
    views: &[u8],
    bytes: &[u8],
    count: usize,
    b: Block,
    nulls: &[u8],
    places: &[u32],
    k: u32,
    offset: u32,
    n: u32,
) -> Result<(), Refusal>
    ensures { Says s views.now bytes.now nulls.now places.now count k offset n b result }
{
    if !filing::fits_with(
        s,
        views.len(),
        bytes.len(),
        count,
        nulls.len(),
        places.len(),
    ) {
        return Err(Refusal::Fit);
    }
    if s.blocks <= k as usize {
        return Err(Refusal::NoBlock);
    }
    if !column::in_data(bytes, b.start, b.len) {
        return Err(Refusal::Range);
    }
    let o = offset as usize;
    let m = n as usize;
    if b.len < o + m {
        return Err(Refusal::Range);
    }
    let a = b.start + o;
    if !column::of_kind(s.kind, &bytes[a..a + m]) {
        return Err(Refusal::NotUtf8);
    }
    if builder::rows_room(s.merging, views.len(), nulls.len(), places.len()) <= s.rows {
        return Err(Refusal::RowRoom);
    }
    Ok(())
}

// A row is added that shows n bytes at an offset of a completed block.
pub fn append_view(
    s: State,
    views: &mut [u8],
    bytes: &[u8],
    table: &[Block],
    nulls: &mut [u8],
    places: &[u32],
    block: u32,
    offset: u32,
    n: u32,
) -> Answer
    ensures { Files (λ b. why_view b block offset n) (put_view block offset n) s
        views.old bytes.now table.now nulls.old places.now
        result views.new bytes.now table.now nulls.new places.now }
{
    let b = tables::block_or(table, block as usize, Block { start: 0, len: 0 });
    let why = why_view(
        s,
        views,
        bytes,
        table.len(),
        b,
        nulls,
        places,
        block,
        offset,
        n,
    );
    if why.is_err() {
        return Answer { why, state: s };
    }
    let a = b.start + offset as usize;
    let e = a + n as usize;
    views::put_view(
        views,
        views::VIEW_SIZE * s.rows,
        &bytes[a..e],
        block,
        offset,
    );
    null_bits::put_bit(nulls, s.rows, true);
    Answer {
        why: Ok(()),
        state: builder::row_more(s, true),
    }
}
