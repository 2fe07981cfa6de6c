// A value added to a builder, once or n times, over a block table that is lent as a slice of records, and the search of the merge table that it needs.
// The builder's buffers stay parameters of their own: a call takes `&mut` of those alone that it writes, and a struct of all would ask it of each.
#![tactic(auto)]

ghost use Rattle.std.specs.Prelude.{◌≡◌, true, [], ◌+◌, ◌^◌, ◌≤◌, ◌<◌, length};
ghost use Rattle.basis.specs.Pick.{pick};
ghost use Rattle.growth.specs.Growing.{fits_growth};
ghost use Rattle.column.specs.Lent.{buffers};
ghost use Rattle.builder.specs.State.{held, all_blocks, used, fits_open, roomed};
ghost use Rattle.builder.specs.Rooms.{shows_row};
ghost use Rattle.builder.specs.RoomLaws.{Judged};
ghost use Rattle.builder.specs.Values.{found_by, why_store, why_values, put_value, put_values};
ghost use Rattle.filing.specs.Files.{Files, open_table};
ghost use Rattle.filing.specs.FilesLaws.{blank};
ghost use Rattle.filing_values.specs.Search.{Fine};

use builder::{Answer, State};
use column::Block;
use merging::Found;

// The open block takes n bytes more, or it is completed and a new one does.
fn make_room(s: State, table: &mut [Block], n: usize) -> State
    requires { (all_blocks s < 2 ^ 64) × (used s + n < 2 ^ 64) × (fits_growth s.growth ≡ true) }
    ensures { (result ≡ roomed n s) × (table.new ≡ pick (fits_open s n) table.old (open_table s table.old)) }
{
    if values::fits_open(s, n) {
        s
    } else {
        filing::put_open(s, table);
        values::fresh(s, n)
    }
}

// Whether row r is there and shows x, which is long.
fn shows_row(s: State, views: &[u8], bytes: &[u8], table: &[Block], x: &[u8], r: usize) -> bool
    requires { Fine s views.now table.now x.now }
    ensures { result ≡ shows_row s (buffers views.now bytes.now table.now []) x.now r }
{
    if s.rows <= r {
        return false;
    }
    let len = views::view_len(views, r);
    if len != x.len() {
        return false;
    }
    let k = views::view_block(views, r);
    if builder::all_blocks(s) <= k {
        return false;
    }
    let b = tables::block_or(table, k, Block { start: 0, len: 0 });
    let d = filing::record_or(s, k, b);
    if !column::in_data(bytes, d.start, d.len) {
        return false;
    }
    let o = views::view_offset(views, r);
    if d.len < o + len {
        return false;
    }
    let a = d.start + o;
    let e = a + len;
    order::same(&bytes[a..e], x)
}

// What the merge table answers for x, which is long. An empty place is a 0 and no None: C lends the table.
fn find(s: State, views: &[u8], bytes: &[u8], table: &[Block], places: &[u32], x: &[u8]) -> Found
    requires { Fine s views.now table.now x.now }
    ensures { result ≡ found_by s.merging places.now (shows_row s (buffers views.now bytes.now table.now []) x.now) x.now }
{
    if !values::does_merge(s.merging, x.len()) {
        return Found::Full;
    }
    let n = places.len();
    if n == 0 {
        return Found::Full;
    }
    let mut p = (hash::hash(x) % (n as u64)) as usize;
    for _ in 0..n {
        let e = places[p] as usize;
        if e == 0 {
            return Found::Free(p);
        }
        if shows_row(s, views, bytes, table, x, e - 1) {
            return Found::Row(e - 1);
        }
        p = values::next_place(n, p);
    }
    Found::Full
}

// A long value is added, where a row has room: it takes the view of the row that the merge table names for it, or is laid in the open block.
fn add_long(
    s: State,
    views: &mut [u8],
    bytes: &mut [u8],
    table: &mut [Block],
    nulls: &mut [u8],
    places: &mut [u32],
    x: &[u8],
) -> Answer
    requires { Judged (held s views.old bytes.old (blank (length table.old)) (blank (length table.old)) nulls.old places.old) x.now
        × (12 < length x.now) }
    ensures { Files (λ b. why_store b x.now) (put_value x.now) s
        views.old bytes.old table.old nulls.old places.old
        result views.new bytes.new table.new nulls.new places.new }
{
    let rows = s.rows;
    let n = x.len();
    let f = find(s, views, bytes, table, places, x);
    if let Found::Row(r) = f {
        values::copy_view(views, r, rows);
        null_bits::put_bit(nulls, rows, true);
        return Answer {
            why: Ok(()),
            state: builder::row_more(s, true),
        };
    }
    let why = values::why_lay(
        s,
        builder::blocks_room(table.len(), table.len()),
        builder::bytes_room(bytes.len()),
        n,
    );
    if why.is_err() {
        return Answer { why, state: s };
    }
    values::enter(f, places, rows);
    let t = make_room(s, table, n);
    builder::lay(bytes, t.base + t.fill, x);
    views::long_view(
        views,
        views::VIEW_SIZE * rows,
        x,
        t.blocks as u32,
        t.fill as u32,
    );
    null_bits::put_bit(nulls, rows, true);
    Answer {
        why: Ok(()),
        state: values::stored(t, n),
    }
}

// A value is added once, where a row has room.
fn add_one(
    s: State,
    views: &mut [u8],
    bytes: &mut [u8],
    table: &mut [Block],
    nulls: &mut [u8],
    places: &mut [u32],
    x: &[u8],
) -> Answer
    requires { Judged (held s views.old bytes.old (blank (length table.old)) (blank (length table.old)) nulls.old places.old) x.now }
    ensures { Files (λ b. why_store b x.now) (put_value x.now) s
        views.old bytes.old table.old nulls.old places.old
        result views.new bytes.new table.new nulls.new places.new }
{
    if x.len() <= views::SHORT_MOST {
        views::short_view(views, views::VIEW_SIZE * s.rows, x);
        null_bits::put_bit(nulls, s.rows, true);
        Answer {
            why: Ok(()),
            state: builder::row_more(s, true),
        }
    } else {
        add_long(s, views, bytes, table, nulls, places, x)
    }
}

// A value is added.
pub fn append_value(
    s: State,
    views: &mut [u8],
    bytes: &mut [u8],
    table: &mut [Block],
    nulls: &mut [u8],
    places: &mut [u32],
    x: &[u8],
) -> Answer
    ensures { Files (λ b. why_values 1 b x.now) (put_values 1 x.now) s
        views.old bytes.old table.old nulls.old places.old
        result views.new bytes.new table.new nulls.new places.new }
{
    append_values(s, views, bytes, table, nulls, places, x, 1)
}

// A value is added n times.
pub fn append_values(
    s: State,
    views: &mut [u8],
    bytes: &mut [u8],
    table: &mut [Block],
    nulls: &mut [u8],
    places: &mut [u32],
    x: &[u8],
    n: usize,
) -> Answer
    ensures { Files (λ b. why_values n b x.now) (put_values n x.now) s
        views.old bytes.old table.old nulls.old places.old
        result views.new bytes.new table.new nulls.new places.new }
{
    let rows = s.rows;
    let why = values::why_first(
        s,
        builder::rows_room(s.merging, views.len(), nulls.len(), places.len()),
        builder::blocks_room(table.len(), table.len()),
        builder::bytes_room(bytes.len()),
        x,
        n,
    );
    if why.is_err() || n == 0 {
        return Answer { why, state: s };
    }
    let r = add_one(s, views, bytes, table, nulls, places, x);
    if r.why.is_err() {
        return r;
    }
    values::copy_rows(views, rows, rows + 1, n - 1);
    null_bits::runs::put_run(nulls, rows + 1, n - 1, true);
    Answer {
        why: Ok(()),
        state: values::rows_more(r.state, n - 1),
    }
}
