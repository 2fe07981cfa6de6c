// The calls that add a value, a value n times, or a null, and the search of the merge table. The state goes in by value and comes back; the buffers are lent.
#![tactic(auto)]

ghost use Rattle.std.specs.Prelude.{◌≡◌, true, false, not, ◌&&◌, ℕ, suc, ◌+◌, ◌-◌, ◌*◌, ◌^◌, ◌≤◌, ◌<◌, leb, eqb, length, take, drop};
ghost use Rattle.std.proofs.Math.Seq.{paste};
ghost use Rattle.basis.specs.Pick.{pick};
ghost use Rattle.bounds.specs.Bounds.{row_limit, block_limit};
ghost use Rattle.bounds.specs.Refusals.{refuse, accepted};
ghost use Rattle.words.specs.Words.{put_word};
ghost use Rattle.views.specs.View.{short_most, view_at};
ghost use Rattle.growth.specs.Growing.{fits_growth};
ghost use Rattle.merging.specs.Table.{is_row, row_of, entered, after};
ghost use Rattle.column.specs.Room.{bare};
ghost use Rattle.column.specs.Truth.{of_kind};
ghost use Rattle.builder.specs.State.{held, all_blocks, used, fits_rooms, closed, sized, fits_open, roomed, laid, rowed};
ghost use Rattle.builder.specs.Rooms.{open_starts, open_lens, shows_row, Ready};
ghost use Rattle.builder.specs.Values.{merges, found_by, why_lay, why_rows, why_store, why_values, put_value, put_values, why_null, put_null};
ghost use Rattle.builder.specs.Does.{Does};
ghost use Rattle.builder.specs.TimesLaws.{put_copies, rowed_by};
ghost use Rattle.builder.specs.RoomLaws.{Judged};

use bounds::Refusal;
use builder::{Answer, Merging, State};
use column::Kind;
use merging::Found;

// Whether a value is one of the kind: only a text is looked at, and only for it is anything called.
fn of_kind(kind: Kind, x: &[u8]) -> bool
    ensures { result ≡ of_kind kind x.now }
{
    match kind {
        Kind::Binary => true,
        Kind::Text => column::of_kind(Kind::Text, x),
    }
}

// 4, 10 and 5 for a value as so many rows more.
fn why_row(kind: Kind, x: &[u8], rows: usize, more: usize, room: usize) -> Result<(), Refusal>
    requires { rows ≤ room }
    ensures { result ≡ why_rows kind x.now rows more room accepted }
{
    if bounds::BYTE_LIMIT < x.len() {
        return Err(Refusal::TooLong);
    }
    if !of_kind(kind, x) {
        return Err(Refusal::NotUtf8);
    }
    if room - rows < more {
        return Err(Refusal::RowRoom);
    }
    Ok(())
}

// 2, 4, 10 and 5; no row is accepted whatever the value.
pub fn why_first(
    s: State,
    rows: usize,
    blocks: usize,
    bytes: usize,
    x: &[u8],
    n: usize,
) -> Result<(), Refusal>
    requires { blocks ≤ block_limit }
    ensures { result ≡ refuse Refusal.Fit (not (fits_rooms s rows blocks bytes)) (pick (eqb n 0) accepted (why_rows s.kind x.now
        s.rows n rows accepted)) }
{
    if !builder::state_fits(s, rows, blocks, bytes) {
        return Err(Refusal::Fit);
    }
    if n == 0 {
        return Ok(());
    }
    why_row(s.kind, x, s.rows, n, rows)
}

// 2 and 5 for a null.
pub fn why_null(s: State, rows: usize, blocks: usize, bytes: usize) -> Result<(), Refusal>
    requires { blocks ≤ block_limit }
    ensures { result ≡ refuse Refusal.Fit (not (fits_rooms s rows blocks bytes)) (refuse Refusal.RowRoom (leb rows s.rows) accepted) }
{
    if !builder::state_fits(s, rows, blocks, bytes) {
        return Err(Refusal::Fit);
    }
    if rows <= s.rows {
        return Err(Refusal::RowRoom);
    }
    Ok(())
}

// A null row is added: the work.
fn null_call(
    s: State,
    views: &mut [u8],
    bytes: &[u8],
    starts: &[usize],
    lens: &[usize],
    nulls: &mut [u8],
    places: &[u32],
) -> Answer
    ensures { Does why_null put_null s views.old bytes.now starts.now lens.now nulls.old
        places.now
        result views.new bytes.now starts.now lens.now nulls.new places.now }
{
    let rows = s.rows;
    let w = why_null(
        s,
        builder::rows_room(s.merging, views.len(), nulls.len(), places.len()),
        builder::blocks_room(starts.len(), lens.len()),
        builder::bytes_room(bytes.len()),
    );
    if w.is_err() {
        return Answer { why: w, state: s };
    }
    views::zero_view(views, views::VIEW_SIZE * rows);
    null_bits::put_bit(nulls, rows, false);
    Answer {
        why: Ok(()),
        state: builder::row_more(s, false),
    }
}

// Whether an open block is there that takes n bytes more.
pub fn fits_open(s: State, n: usize) -> bool
    requires { s.fill + n < 2 ^ 64 }
    ensures { result ≡ fits_open s n }
{
    s.fill != 0 && s.fill + n <= s.cap
}

// The state with the open block, if any, completed, and the next size taken for a block that holds n bytes at least.
pub fn fresh(s: State, n: usize) -> State
    requires { (all_blocks s < 2 ^ 64) × (used s < 2 ^ 64) × (fits_growth s.growth ≡ true) }
    ensures { result ≡ sized n (closed s) }
{
    let step = s.growth.step();
    State {
        growth: step.growth,
        blocks: builder::all_blocks(s),
        base: s.base + s.fill,
        fill: 0,
        cap: n.max(step.size),
        ..s
    }
}

// The open block takes n bytes more, or it is completed and a new one does.
fn make_room(s: State, starts: &mut [usize], lens: &mut [usize], n: usize) -> State
    requires { (all_blocks s ≤ length starts.old) × (all_blocks s ≤ length lens.old) × (used s + n < 2 ^ 64) × (fits_growth s.growth ≡ true) }
    ensures { (result ≡ roomed n s) × (starts.new ≡ pick (fits_open s n) starts.old (open_starts s starts.old))
        × (lens.new ≡ pick (fits_open s n) lens.old (open_lens s lens.old)) }
{
    if fits_open(s, n) {
        s
    } else {
        builder::put_record(s, starts, lens);
        fresh(s, n)
    }
}

// The state with n bytes more in the open block and a valid row more.
pub fn stored(s: State, n: usize) -> State
    requires { (s.rows < row_limit) × (s.fill + n < 2 ^ 64) }
    ensures { result ≡ rowed true (laid n s) }
{
    State {
        rows: s.rows + 1,
        fill: s.fill + n,
        ..s
    }
}

// The view of a row written as two words.
fn put_words(views: &mut [u8], row: usize, lo: u64, hi: u64)
    requires { 16 * row + 16 ≤ length views.old }
    ensures { views.new ≡ put_word (put_word views.old (16 * row) lo 8) (16 * row + 8) hi 8 }
{
    let o = views::VIEW_SIZE * row;
    words::put64(views, o, lo);
    words::put64(views, o + 8, hi);
}

// The view of one row copied to another row.
pub fn copy_view(views: &mut [u8], from: usize, to: usize)
    requires { (16 * from + 16 ≤ length views.old) × (16 * to + 16 ≤ length views.old) }
    ensures { views.new ≡ paste views.old (16 * to) (view_at views.old from) 16 }
{
    let p = views::VIEW_SIZE * from;
    let lo = words::le64(views, p);
    let hi = words::le64(views, p + 8);
    put_words(views, to, lo, hi);
}

// Whether n bytes more need a new block, and there is no room for one.
fn no_block(s: State, blocks: usize, n: usize) -> bool
    requires { (all_blocks s < 2 ^ 64) × (used s + n < 2 ^ 64) }
    ensures { result ≡ not (fits_open s n) && leb blocks (all_blocks s) }
{
    !fits_open(s, n) && blocks <= builder::all_blocks(s)
}

// 6 and 7 for n bytes more.
pub fn why_lay(s: State, blocks: usize, bytes: usize, n: usize) -> Result<(), Refusal>
    requires { (all_blocks s < 2 ^ 64) × (used s + n < 2 ^ 64) }
    ensures { result ≡ why_lay s blocks bytes n }
{
    if no_block(s, blocks, n) {
        return Err(Refusal::BlockRoom);
    }
    if bytes < s.base + s.fill + n {
        return Err(Refusal::DataRoom);
    }
    Ok(())
}

// Whether row r is there and shows x, which is long.
fn shows_row(
    s: State,
    views: &[u8],
    bytes: &[u8],
    starts: &[usize],
    lens: &[usize],
    x: &[u8],
    r: usize,
) -> bool
    requires { Ready s views.now starts.now lens.now × (12 < length x.now) }
    ensures { result ≡ shows_row s (bare views.now bytes.now starts.now lens.now) x.now r }
{
    if s.rows <= r {
        return false;
    }
    let len = views::view_len(views, r);
    if len != x.len() {
        return false;
    }
    let k = views::view_block(views, r);
    if builder::all_blocks(s) <= k {
        return false;
    }
    let start = builder::at_or(starts, s.blocks, s.base, k);
    let size = builder::at_or(lens, s.blocks, s.fill, k);
    if !column::in_data(bytes, start, size) {
        return false;
    }
    let o = views::view_offset(views, r);
    if size < o + len {
        return false;
    }
    let a = start + o;
    let e = a + len;
    order::same(&bytes[a..e], x)
}

// The place after p, in a circle of n.
pub fn next_place(n: usize, p: usize) -> usize
    requires { p < n }
    ensures { (result ≡ after n p) × (result < n) }
{
    if p + 1 == n { 0 } else { p + 1 }
}

pub fn does_merge(m: Merging, n: usize) -> bool
    ensures { result ≡ merges m n }
{
    match m {
        Merging::Off => false,
        Merging::On => true,
        Merging::UpTo(k) => n <= k,
    }
}

// What the merge table answers for x, which is long. An empty place is a 0 and no None: C lends the table.
fn find(
    s: State,
    views: &[u8],
    bytes: &[u8],
    starts: &[usize],
    lens: &[usize],
    places: &[u32],
    x: &[u8],
) -> Found
    requires { Ready s views.now starts.now lens.now × (12 < length x.now) }
    ensures { result ≡ found_by s.merging places.now (shows_row s (bare views.now bytes.now starts.now
        lens.now) x.now) x.now }
{
    if !does_merge(s.merging, x.len()) {
        return Found::Full;
    }
    let n = places.len();
    if n == 0 {
        return Found::Full;
    }
    let mut p = (hash::hash(x) % (n as u64)) as usize;
    for _ in 0..n {
        let e = places[p] as usize;
        if e == 0 {
            return Found::Free(p);
        }
        if shows_row(s, views, bytes, starts, lens, x, e - 1) {
            return Found::Row(e - 1);
        }
        p = next_place(n, p);
    }
    Found::Full
}

pub fn is_row(f: Found) -> bool
    ensures { result ≡ is_row f }
{
    matches!(f, Found::Row(_))
}

// 0 where no row was found, as the definition `row_of` says, under `put_found`: who calls this asks `is_row` first.
pub fn row_of(f: Found) -> usize
    ensures { result ≡ row_of f }
{
    match f {
        Found::Row(r) => r,
        Found::Free(_) | Found::Full => 0,
    }
}

// Row `row` entered at the place that was found for it, if any.
pub fn enter(f: Found, places: &mut [u32], row: usize)
    requires { (row < row_limit) × ((p : ℕ) → f ≡ Found.Free p → p < length places.old) }
    ensures { places.new ≡ entered f (suc row) places.old }
{
    if let Found::Free(p) = f {
        places[p] = (row + 1) as u32;
    }
}

// A long value is added, where a row has room: it takes the view of the row that the merge table names for it, or is laid in the open block.
fn add_long(
    s: State,
    views: &mut [u8],
    bytes: &mut [u8],
    starts: &mut [usize],
    lens: &mut [usize],
    nulls: &mut [u8],
    places: &mut [u32],
    x: &[u8],
) -> Answer
    requires { Judged (held s views.old bytes.old starts.old lens.old nulls.old places.old) x.now × (12 < length x.now) }
    ensures { Does (λ b. why_store b x.now) (put_value x.now) s
        views.old bytes.old starts.old lens.old nulls.old places.old
        result views.new bytes.new starts.new lens.new nulls.new places.new }
{
    let rows = s.rows;
    let n = x.len();
    let f = find(s, views, bytes, starts, lens, places, x);
    if let Found::Row(r) = f {
        copy_view(views, r, rows);
        null_bits::put_bit(nulls, rows, true);
        return Answer {
            why: Ok(()),
            state: builder::row_more(s, true),
        };
    }
    let w = why_lay(
        s,
        builder::blocks_room(starts.len(), lens.len()),
        builder::bytes_room(bytes.len()),
        n,
    );
    if w.is_err() {
        return Answer { why: w, state: s };
    }
    enter(f, places, rows);
    let t = make_room(s, starts, lens, n);
    builder::lay(bytes, t.base + t.fill, x);
    views::long_view(
        views,
        views::VIEW_SIZE * rows,
        x,
        t.blocks as u32,
        t.fill as u32,
    );
    null_bits::put_bit(nulls, rows, true);
    Answer {
        why: Ok(()),
        state: stored(t, n),
    }
}

// A value is added once, where a row has room.
fn add_one(
    s: State,
    views: &mut [u8],
    bytes: &mut [u8],
    starts: &mut [usize],
    lens: &mut [usize],
    nulls: &mut [u8],
    places: &mut [u32],
    x: &[u8],
) -> Answer
    requires { Judged (held s views.old bytes.old starts.old lens.old nulls.old places.old) x.now }
    ensures { Does (λ b. why_store b x.now) (put_value x.now) s
        views.old bytes.old starts.old lens.old nulls.old places.old
        result views.new bytes.new starts.new lens.new nulls.new places.new }
{
    if x.len() <= views::SHORT_MOST {
        views::short_view(views, views::VIEW_SIZE * s.rows, x);
        null_bits::put_bit(nulls, s.rows, true);
        Answer {
            why: Ok(()),
            state: builder::row_more(s, true),
        }
    } else {
        add_long(s, views, bytes, starts, lens, nulls, places, x)
    }
}

// Whether a value is short and stands in a slice that goes on for twelve bytes from where it begins.
fn is_short_in(n: usize, left: usize) -> bool
    ensures { result ≡ leb n short_most && leb short_most left }
{
    n <= views::SHORT_MOST && views::SHORT_MOST <= left
}

// The bytes of a slice from `a` to `e` are added once, where a row has room: what a batch over one slice calls for each.
pub fn add_part(
    s: State,
    views: &mut [u8],
    bytes: &mut [u8],
    starts: &mut [usize],
    lens: &mut [usize],
    nulls: &mut [u8],
    places: &mut [u32],
    all: &[u8],
    a: usize,
    e: usize,
) -> Answer
    requires { Judged (held s views.old bytes.old starts.old lens.old nulls.old places.old) (take (e - a) (drop a all.now))
        × (a ≤ e) × (e ≤ length all.now) }
    ensures { Does (λ b. why_store b (take (e - a) (drop a all.now))) (put_value (take (e - a) (drop a all.now))) s
        views.old bytes.old starts.old lens.old nulls.old places.old
        result views.new bytes.new starts.new lens.new nulls.new places.new }
{
    let n = e - a;
    if is_short_in(n, all.len() - a) {
        views::short_view_in(views, views::VIEW_SIZE * s.rows, all, a, n);
        null_bits::put_bit(nulls, s.rows, true);
        Answer {
            why: Ok(()),
            state: builder::row_more(s, true),
        }
    } else {
        add_one(s, views, bytes, starts, lens, nulls, places, &all[a..e])
    }
}

// The view of row `from` copied to each of the n rows from `to` on.
pub fn copy_rows(views: &mut [u8], from: usize, to: usize, n: usize)
    requires { (from < to) × (16 * (to + n) ≤ length views.old) }
    ensures { views.new ≡ put_copies views.old to (view_at views.old from) n }
{
    let p = views::VIEW_SIZE * from;
    let lo = words::le64(views, p);
    let hi = words::le64(views, p + 8);
    for k in 0..n {
        put_words(views, to + k, lo, hi);
    }
}

// The state with n valid rows more.
pub fn rows_more(s: State, n: usize) -> State
    requires { s.rows + n ≤ row_limit }
    ensures { result ≡ rowed_by n s }
{
    State {
        rows: s.rows + n,
        ..s
    }
}

// A value is added n times: the work.
fn value_call(
    s: State,
    views: &mut [u8],
    bytes: &mut [u8],
    starts: &mut [usize],
    lens: &mut [usize],
    nulls: &mut [u8],
    places: &mut [u32],
    x: &[u8],
    n: usize,
) -> Answer
    ensures { Does (λ b. why_values n b x.now) (put_values n x.now) s
        views.old bytes.old starts.old lens.old nulls.old places.old
        result views.new bytes.new starts.new lens.new nulls.new places.new }
{
    let rows = s.rows;
    let w = why_first(
        s,
        builder::rows_room(s.merging, views.len(), nulls.len(), places.len()),
        builder::blocks_room(starts.len(), lens.len()),
        builder::bytes_room(bytes.len()),
        x,
        n,
    );
    if w.is_err() {
        return Answer { why: w, state: s };
    }
    if n == 0 {
        return Answer {
            why: Ok(()),
            state: s,
        };
    }
    let r = add_one(s, views, bytes, starts, lens, nulls, places, x);
    if r.why.is_err() {
        return r;
    }
    copy_rows(views, rows, rows + 1, n - 1);
    null_bits::runs::put_run(nulls, rows + 1, n - 1, true);
    Answer {
        why: Ok(()),
        state: rows_more(r.state, n - 1),
    }
}

// A value is added: the work. It has no part in the call above, so that nothing is tested for copies that aren't made.
fn one_call(
    s: State,
    views: &mut [u8],
    bytes: &mut [u8],
    starts: &mut [usize],
    lens: &mut [usize],
    nulls: &mut [u8],
    places: &mut [u32],
    x: &[u8],
) -> Answer
    ensures { Does (λ b. why_values 1 b x.now) (put_values 1 x.now) s
        views.old bytes.old starts.old lens.old nulls.old places.old
        result views.new bytes.new starts.new lens.new nulls.new places.new }
{
    let w = why_first(
        s,
        builder::rows_room(s.merging, views.len(), nulls.len(), places.len()),
        builder::blocks_room(starts.len(), lens.len()),
        builder::bytes_room(bytes.len()),
        x,
        1,
    );
    if w.is_err() {
        return Answer { why: w, state: s };
    }
    add_one(s, views, bytes, starts, lens, nulls, places, x)
}

// A value is added.
pub fn append_value(
    s: State,
    views: &mut [u8],
    bytes: &mut [u8],
    starts: &mut [usize],
    lens: &mut [usize],
    nulls: &mut [u8],
    places: &mut [u32],
    x: &[u8],
) -> Answer
    ensures { Does (λ b. why_values 1 b x.now) (put_values 1 x.now) s
        views.old bytes.old starts.old lens.old nulls.old places.old
        result views.new bytes.new starts.new lens.new nulls.new places.new }
{
    one_call(
        builder::anew(s),
        views,
        bytes,
        starts,
        lens,
        nulls,
        places,
        x,
    )
}

// A value is added n times.
pub fn append_values(
    s: State,
    views: &mut [u8],
    bytes: &mut [u8],
    starts: &mut [usize],
    lens: &mut [usize],
    nulls: &mut [u8],
    places: &mut [u32],
    x: &[u8],
    n: usize,
) -> Answer
    ensures { Does (λ b. why_values n b x.now) (put_values n x.now) s
        views.old bytes.old starts.old lens.old nulls.old places.old
        result views.new bytes.new starts.new lens.new nulls.new places.new }
{
    value_call(
        builder::anew(s),
        views,
        bytes,
        starts,
        lens,
        nulls,
        places,
        x,
        n,
    )
}

// A null row is added.
pub fn append_null(
    s: State,
    views: &mut [u8],
    bytes: &[u8],
    starts: &[usize],
    lens: &[usize],
    nulls: &mut [u8],
    places: &[u32],
) -> Answer
    ensures { Does why_null put_null s views.old bytes.now starts.now lens.now nulls.old
        places.now
        result views.new bytes.now starts.now lens.now nulls.new places.now }
{
    null_call(builder::anew(s), views, bytes, starts, lens, nulls, places)
}
