// A block, a view of a completed block, and a whole column added to a builder. The state goes in by value and comes back; the buffers are lent.
// The builder's buffers stay parameters of their own: a call takes `&mut` of those alone that it writes, and a struct of all would ask it of each.
#![tactic(auto)]

ghost use Rattle.std.specs.Prelude.{◌≡◌, true, [], ℕ, ◌+◌, ◌*◌, ◌^◌, ◌≤◌, ◌<◌, eqb, length, set, get_or};
ghost use Rattle.basis.specs.Pick.{pick};
ghost use Rattle.std.proofs.Math.Seq.{paste};
ghost use Rattle.bounds.specs.Bounds.{row_limit, block_limit, byte_limit};
ghost use Rattle.views.specs.View.{view_at};
ghost use Rattle.column.specs.Lent.{lent_of};
ghost use Rattle.column.specs.Room.{bare};
ghost use Rattle.builder.specs.State.{held, all_blocks, used, closed};
ghost use Rattle.builder.specs.Others.{why_room, why_block, put_block, block_number, why_view, put_view, renumbered, block_bytes, why_column, put_column};
ghost use Rattle.builder.specs.Does.{Does, answer};
ghost use Rattle.appending.specs.Laying.{block_more, column_more, end_from, put_data, put_starts, put_lens, put_from, lens_total, by_kind, Taking};

use bounds::Refusal;
use builder::{Answer, State};
use column::{Buffers, Column, Kind};

// What adding a block answers: the verdict beside the state that it leaves, and the block's number, 0 where it is refused.
// No Result of the two: `append_block` promises the state and the number on a refusal too (`Does`, `block_number`).
#[derive(Clone, Copy)]
pub struct Placed {
    pub answer: Answer,
    pub block: usize,
}

// 6 and 7 for n blocks and m bytes more.
pub fn why_room(s: State, blocks: usize, bytes: usize, n: usize, m: usize) -> Result<(), Refusal>
    requires { (all_blocks s + n < 2 ^ 64) × (used s + m < 2 ^ 64) }
    ensures { result ≡ why_room s blocks bytes n m }
{
    if blocks < builder::all_blocks(s) + n {
        return Err(Refusal::BlockRoom);
    }
    if bytes < s.base + s.fill + m {
        return Err(Refusal::DataRoom);
    }
    Ok(())
}

// The state with the open block, if any, completed.
pub fn close(s: State) -> State
    requires { (all_blocks s < 2 ^ 64) × (used s < 2 ^ 64) }
    ensures { result ≡ closed s }
{
    State {
        blocks: builder::all_blocks(s),
        base: s.base + s.fill,
        fill: 0,
        cap: 0,
        ..s
    }
}

// A block's bytes and its record, which is that of block k.
fn put_block(
    bytes: &mut [u8],
    starts: &mut [usize],
    lens: &mut [usize],
    k: usize,
    at: usize,
    x: &[u8],
)
    requires { (at + length x.now ≤ length bytes.old) × (k < length starts.old) × (k < length lens.old) }
    ensures { (bytes.new ≡ paste bytes.old at x.now (length x.now))
        × (starts.new ≡ set starts.old k at)
        × (lens.new ≡ set lens.old k (length x.now)) }
{
    builder::lay(bytes, at, x);
    starts[k] = at;
    lens[k] = x.len();
}

// The state with a block of n bytes more, where none is open.
pub fn block_more(s: State, n: usize) -> State
    requires { (s.blocks < 2 ^ 32) × (s.base + n < 2 ^ 64) }
    ensures { result ≡ block_more n s }
{
    State {
        blocks: s.blocks + 1,
        base: s.base + n,
        ..s
    }
}

// 2, 4, 6 and 7 for a block.
fn why_block(
    s: State,
    views: &[u8],
    bytes: &[u8],
    starts: &[usize],
    lens: &[usize],
    nulls: &[u8],
    places: &[u32],
    x: &[u8],
) -> Result<(), Refusal>
    ensures { result ≡ why_block (held s views.now bytes.now starts.now lens.now nulls.now
        places.now) x.now }
{
    if !builder::fits_lent(s, views, bytes, starts, lens, nulls, places) {
        return Err(Refusal::Fit);
    }
    if bounds::BYTE_LIMIT < x.len() {
        return Err(Refusal::TooLong);
    }
    why_room(
        s,
        builder::blocks_room(starts.len(), lens.len()),
        builder::bytes_room(bytes.len()),
        1,
        x.len(),
    )
}

// A block is added whole, after the open one, if any, is completed.
pub fn append_block(
    s: State,
    views: &[u8],
    bytes: &mut [u8],
    starts: &mut [usize],
    lens: &mut [usize],
    nulls: &[u8],
    places: &[u32],
    x: &[u8],
) -> Placed
    ensures { Does (λ b. why_block b x.now) (put_block x.now) s
        views.now bytes.old starts.old lens.old nulls.now places.now
        result.answer views.now bytes.new starts.new lens.new nulls.now places.now
        × (result.block ≡ block_number (held s views.now bytes.old starts.old lens.old nulls.now
        places.now) x.now) }
{
    let why = why_block(s, views, bytes, starts, lens, nulls, places, x);
    if why.is_err() {
        return Placed {
            answer: Answer { why, state: s },
            block: 0,
        };
    }
    builder::put_record(s, starts, lens);
    let t = close(s);
    let k = t.blocks;
    let at = t.base;
    put_block(bytes, starts, lens, k, at, x);
    Placed {
        answer: Answer {
            why: Ok(()),
            state: block_more(t, x.len()),
        },
        block: k,
    }
}

// 2, 8, 9, 10 and 5 for n bytes at an offset of a completed block.
fn why_view(
    s: State,
    views: &[u8],
    bytes: &[u8],
    starts: &[usize],
    lens: &[usize],
    nulls: &[u8],
    places: &[u32],
    block: u32,
    offset: u32,
    n: u32,
) -> Result<(), Refusal>
    ensures { result ≡ why_view (held s views.now bytes.now starts.now lens.now nulls.now
        places.now) block offset n }
{
    if !builder::fits_lent(s, views, bytes, starts, lens, nulls, places) {
        return Err(Refusal::Fit);
    }
    let k = block as usize;
    if s.blocks <= k {
        return Err(Refusal::NoBlock);
    }
    let start = starts[k];
    let size = lens[k];
    if !column::in_data(bytes, start, size) {
        return Err(Refusal::Range);
    }
    let o = offset as usize;
    let m = n as usize;
    if size < o + m {
        return Err(Refusal::Range);
    }
    let a = start + o;
    if !column::of_kind(s.kind, &bytes[a..a + m]) {
        return Err(Refusal::NotUtf8);
    }
    if builder::rows_room(s.merging, views.len(), nulls.len(), places.len()) <= s.rows {
        return Err(Refusal::RowRoom);
    }
    Ok(())
}

// A row is added that shows n bytes at an offset of a completed block.
pub fn append_view(
    s: State,
    views: &mut [u8],
    bytes: &[u8],
    starts: &[usize],
    lens: &[usize],
    nulls: &mut [u8],
    places: &[u32],
    block: u32,
    offset: u32,
    n: u32,
) -> Answer
    ensures { Does (λ b. why_view b block offset n) (put_view block offset n) s
        views.old bytes.now starts.now lens.now nulls.old places.now
        result views.new bytes.now starts.now lens.now nulls.new places.now }
{
    let s = builder::anew(s);
    let why = why_view(
        s, views, bytes, starts, lens, nulls, places, block, offset, n,
    );
    if why.is_err() {
        return Answer { why, state: s };
    }
    let a = starts[block as usize] + offset as usize;
    let e = a + n as usize;
    let o = views::VIEW_SIZE * s.rows;
    views::put_view(views, o, &bytes[a..e], block, offset);
    null_bits::put_bit(nulls, s.rows, true);
    Answer {
        why: Ok(()),
        state: builder::row_more(s, true),
    }
}

// The lengths of the first n blocks together.
fn total(lens: &[usize], n: usize) -> usize
    requires { (n ≤ length lens.now) × (n ≤ block_limit) × ((k : ℕ) → k < n → get_or lens.now k 0 ≤ byte_limit) }
    ensures { (result ≡ lens_total lens.now n) × (result ≤ 16777216 * n) }
{
    lens[..n].iter().sum()
}

// The same column judged by another kind.
fn with_kind(c: Column, kind: Kind) -> Column
    ensures { result ≡ by_kind kind c }
{
    Column { kind, ..c }
}

// 2, 11, 9, 5, 6 and 7 for a column, which is judged by the builder's kind.
fn why_column<'a>(
    s: State,
    views: &[u8],
    bytes: &[u8],
    starts: &[usize],
    lens: &[usize],
    nulls: &[u8],
    places: &[u32],
    src: Buffers<'a, '_>,
    c: Column,
) -> Result<(), Refusal>
    ensures { result ≡ why_column (lent_of src.entry) c
        (held s views.now bytes.now starts.now lens.now nulls.now places.now) }
{
    if !builder::fits_lent(s, views, bytes, starts, lens, nulls, places) {
        return Err(Refusal::Fit);
    }
    validity::check(src, with_kind(c, s.kind))?;
    if builder::rows_room(s.merging, views.len(), nulls.len(), places.len()) < s.rows + c.rows {
        return Err(Refusal::RowRoom);
    }
    why_room(
        s,
        builder::blocks_room(starts.len(), lens.len()),
        builder::bytes_room(bytes.len()),
        c.blocks,
        total(src.lens, c.blocks),
    )
}

// The first n blocks of another table, laid whole from `base` on; their records from block `first` on. The end of the last.
fn put_blocks(
    bytes: &mut [u8],
    starts: &mut [usize],
    lens: &mut [usize],
    first: usize,
    base: usize,
    src: &[u8],
    srcstarts: &[usize],
    srclens: &[usize],
    n: usize,
) -> usize
    requires { Taking (length bytes.old) (length starts.old) (length lens.old) first base src.now srcstarts.now srclens.now n }
    ensures { (result ≡ end_from (block_bytes (bare [] src.now srcstarts.now srclens.now)) n base)
        × (bytes.new ≡ put_data (block_bytes (bare [] src.now srcstarts.now srclens.now)) n bytes.old base)
        × (starts.new ≡ put_starts (block_bytes (bare [] src.now srcstarts.now srclens.now)) n
        starts.old first base)
        × (lens.new ≡ put_lens (block_bytes (bare [] src.now srcstarts.now srclens.now)) n lens.old first) }
{
    let mut at = base;
    for k in 0..n {
        let a = srcstarts[k];
        let m = srclens[k];
        put_block(bytes, starts, lens, first + k, at, &src[a..a + m]);
        at += m;
    }
    at
}

// The view of another column's row stored as that of row `to`, pointing `before` blocks further on where it is long.
fn put_row(views: &mut [u8], to: usize, src: &[u8], from: usize, before: usize)
    requires { (16 * to + 16 ≤ length views.old) × (16 * from + 16 ≤ length src.now) × (before < 2 ^ 32) }
    ensures { views.new ≡ paste views.old (16 * to) (renumbered before (view_at src.now from)) 16 }
{
    let o = views::VIEW_SIZE * to;
    words::copy16(views, o, src, views::VIEW_SIZE * from);
    if views::SHORT_MOST < views::view_len(src, from) {
        let k = views::view_block(src, from);
        words::put32(views, o + 8, (k + before) as u64);
    }
}

// The views of n rows of another column from its row `from` on, stored from row `to` on.
pub fn put_rows(views: &mut [u8], to: usize, src: &[u8], from: usize, n: usize, before: usize)
    requires { (16 * (to + n) ≤ length views.old) × (16 * (from + n) ≤ length src.now) × (before < 2 ^ 32) }
    ensures { views.new ≡ put_from (λ k. renumbered before (view_at src.now (from + k))) n views.old to }
{
    for k in 0..n {
        put_row(views, to + k, src, from + k, before);
    }
}

// Whether a null was added, before or among rows with so many.
pub fn flag(nulled: bool, nulls: usize) -> bool
    ensures { result ≡ pick (eqb nulls 0) nulled true }
{
    nulled || nulls != 0
}

// The state with so many rows and blocks more, up to an end.
pub fn column_more(s: State, rows: usize, blocks: usize, end: usize, nulled: bool) -> State
    requires { (s.rows + rows ≤ row_limit) × (s.blocks + blocks ≤ block_limit) }
    ensures { result ≡ column_more rows blocks end nulled s }
{
    State {
        rows: s.rows + rows,
        blocks: s.blocks + blocks,
        base: end,
        nulled,
        ..s
    }
}

// A column is added: the open block, if any, is completed, the column's blocks are copied whole, its views renumbered, its null bits copied.
pub fn append_column<'a>(
    s: State,
    views: &mut [u8],
    bytes: &mut [u8],
    starts: &mut [usize],
    lens: &mut [usize],
    nulls: &mut [u8],
    places: &[u32],
    src: Buffers<'a, '_>,
    c: Column,
) -> Answer
    ensures { Does (why_column (lent_of src.entry) c)
        (put_column (lent_of src.entry) c) s
        views.old bytes.old starts.old lens.old nulls.old places.now
        result views.new bytes.new starts.new lens.new nulls.new places.now }
{
    let why = why_column(s, views, bytes, starts, lens, nulls, places, src, c);
    if why.is_err() {
        return Answer { why, state: s };
    }
    builder::put_record(s, starts, lens);
    let t = close(s);
    let before = t.blocks;
    let end = put_blocks(
        bytes, starts, lens, before, t.base, src.bytes, src.starts, src.lens, c.blocks,
    );
    put_rows(views, s.rows, src.views, c.first, c.rows, before);
    null_bits::runs::copy_column(nulls, s.rows, src.nulls, c.mapped, c.first, c.rows);
    let added = null_bits::count_nulls(src.nulls, c.mapped, c.first, c.rows);
    let some = flag(s.nulled, added);
    Answer {
        why: Ok(()),
        state: column_more(t, c.rows, c.blocks, end, some),
    }
}
