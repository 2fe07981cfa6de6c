// The builder's calls over a block table that is lent as a slice of records, which the caller can write through.
// The builder's buffers stay parameters of their own: a call takes `&mut` of those alone that it writes, and a struct of all would ask it of each.
#![tactic(auto)]

ghost use Rattle.std.specs.Prelude.{◌≡◌, List, ℕ, ◌*◌, ◌≤◌, ◌<◌, length, get_or, Err, MatchResult};
ghost use Rattle.basis.specs.Pick.{if_lt};
ghost use Rattle.bounds.specs.Bounds.{block_limit};
ghost use Rattle.bounds.specs.Refusals.{accepted};
ghost use Rattle.views.specs.View.{view_at, block_of};
ghost use Rattle.column.specs.Lent.{block};
ghost use Rattle.column.specs.Room.{bare};
ghost use Rattle.builder.specs.State.{all_blocks, fits_rooms};
ghost use Rattle.builder.specs.Rooms.{room_of_rows, room_of_blocks, room_of_bytes, Ready};
ghost use Rattle.builder.specs.Get.{why_get, get_value};
ghost use Rattle.builder.specs.Others.{why_block, put_block, block_number};
ghost use Rattle.builder.specs.Values.{why_null, put_null};
ghost use Rattle.builder.specs.Finish.{why_finish, copied, finished, finish_column};
ghost use Rattle.filing.specs.Files.{Files, filed, open_table};
ghost use Rattle.filing.specs.Rows.{RowNames};
ghost use Rattle.finishing.specs.Places.{spot_row, get_points};
ghost use Rattle.column.specs.Spot.{Lies, bytes_at, points_to};
ghost use Rattle.filing.specs.LayLaws.{block_by};

use appending::Placed;
use bounds::Refusal;
use builder::{Answer, State};
use column::{Block, Spot};
use finishing::Finished;

// Whether a state fits what is lent, by the lengths, and by the count of the records.
pub fn fits_with(
    s: State,
    views: usize,
    bytes: usize,
    count: usize,
    nulls: usize,
    places: usize,
) -> bool
    ensures { result ≡ fits_rooms s (room_of_rows s.merging views nulls places) (room_of_blocks count count) (room_of_bytes bytes) }
{
    builder::state_fits(
        s,
        builder::rows_room(s.merging, views, nulls, places),
        builder::blocks_room(count, count),
        builder::bytes_room(bytes),
    )
}

// The open block's record, if any, is written.
pub fn put_open(s: State, table: &mut [Block])
    ensures { table.new ≡ open_table s table.old }
{
    if s.fill != 0 {
        tables::put_or(
            table,
            s.blocks,
            Block {
                start: s.base,
                len: s.fill,
            },
        );
    }
}

// A null row is added.
pub fn append_null(
    s: State,
    views: &mut [u8],
    bytes: &[u8],
    table: &[Block],
    nulls: &mut [u8],
    places: &[u32],
) -> Answer
    ensures { Files why_null put_null s views.old bytes.now table.now nulls.old places.now
        result views.new bytes.now table.now nulls.new places.now }
{
    let why = values::why_null(
        s,
        builder::rows_room(s.merging, views.len(), nulls.len(), places.len()),
        builder::blocks_room(table.len(), table.len()),
        builder::bytes_room(bytes.len()),
    );
    if why.is_err() {
        return Answer { why, state: s };
    }
    views::zero_view(views, views::VIEW_SIZE * s.rows);
    null_bits::put_bit(nulls, s.rows, false);
    Answer {
        why: Ok(()),
        state: builder::row_more(s, false),
    }
}

// The column so far, the open block's record written; the state stays, and the builder goes on in the same buffers.
pub fn finish_copy(
    s: State,
    views: &[u8],
    bytes: &[u8],
    table: &mut [Block],
    nulls: &[u8],
    places: &[u32],
) -> Finished
    ensures { Files why_finish copied s views.now bytes.now table.old nulls.now places.now
        result.answer views.now bytes.now table.new nulls.now places.now
        × (result.column ≡ finish_column (filed s views.now bytes.now table.old nulls.now places.now)) }
{
    if !fits_with(
        s,
        views.len(),
        bytes.len(),
        table.len(),
        nulls.len(),
        places.len(),
    ) {
        return finishing::refused(s);
    }
    put_open(s, table);
    Finished {
        answer: Answer {
            why: Ok(()),
            state: s,
        },
        column: finishing::column_of(s),
    }
}

// The column that was built; rows, blocks and merge table are emptied, and the growth size is kept.
pub fn finish(
    s: State,
    views: &[u8],
    bytes: &[u8],
    table: &mut [Block],
    nulls: &[u8],
    places: &mut [u32],
) -> Finished
    ensures { Files why_finish finished s views.now bytes.now table.old nulls.now places.old
        result.answer views.now bytes.now table.new nulls.now places.new
        × (result.column ≡ finish_column (filed s views.now bytes.now table.old nulls.now places.old)) }
{
    if !fits_with(
        s,
        views.len(),
        bytes.len(),
        table.len(),
        nulls.len(),
        places.len(),
    ) {
        return finishing::refused(s);
    }
    put_open(s, table);
    finishing::clear(s.merging, places);
    Finished {
        answer: Answer {
            why: Ok(()),
            state: finishing::empty_state(s.kind, s.growth, s.merging),
        },
        column: finishing::column_of(s),
    }
}

// The record of block k, by the table's: the open block's after those of the completed ones.
pub fn record_or(s: State, k: usize, b: Block) -> Block
    ensures { (result.start ≡ if_lt k s.blocks b.start s.base) × (result.len ≡ if_lt k s.blocks b.len s.fill) }
{
    if k < s.blocks {
        return b;
    }
    Block {
        start: s.base,
        len: s.fill,
    }
}

// Where the value of a row stands while it is built.
fn spot_row(s: State, views: &[u8], bytes: &[u8], table: &[Block], r: usize) -> Spot
    requires { (16 * s.rows ≤ length views.now) × (r < s.rows) × (all_blocks s ≤ block_limit) }
    ensures { Lies views.now bytes.now result × ((ss ns : List ℕ) → Ready s views.now ss ns
        → RowNames views.now r (get_or table.now (block_of (view_at views.now r)) (block 0 0)) ss ns
        → result ≡ spot_row s (bare views.now bytes.now ss ns) r) }
{
    let k = views::view_block(views, r);
    let b = tables::block_or(table, k, Block { start: 0, len: 0 });
    column::spot_with(
        views,
        r,
        builder::all_blocks(s),
        column::room_of(bytes),
        record_or(s, k, b),
    )
}

// Where a row's value stands while it is built, or why it is refused. Compiled into both of its callers: where it stayed a call of its own, each took 1.2
// times the instructions.
#[inline(always)]
fn locate(
    s: State,
    views: &[u8],
    bytes: &[u8],
    table: &[Block],
    nulls: &[u8],
    places: &[u32],
    r: usize,
) -> Result<Spot, Refusal>
    ensures { MatchResult result
        (λ x. (accepted ≡ why_get (filed s views.now bytes.now table.now nulls.now places.now) r) × Lies views.now bytes.now x
        × (bytes_at views.now bytes.now x ≡ get_value (filed s views.now bytes.now table.now nulls.now places.now) r)
        × ((v d : ℕ × ℕ) → points_to v d x ≡ get_points (filed s views.now bytes.now table.now nulls.now places.now) r v d))
        (λ e. Err e ≡ why_get (filed s views.now bytes.now table.now nulls.now places.now) r) }
{
    if !fits_with(
        s,
        views.len(),
        bytes.len(),
        table.len(),
        nulls.len(),
        places.len(),
    ) {
        return Err(Refusal::Fit);
    }
    if s.rows <= r {
        return Err(Refusal::Row);
    }
    let spot = spot_row(s, views, bytes, table, r);
    if !column::is_reached(spot) {
        return Err(Refusal::BadView(r));
    }
    Ok(spot)
}

// The question beside `get_value`: why a row's value is refused.
pub fn why_get<'a>(
    s: State,
    views: &'a [u8],
    bytes: &'a [u8],
    table: &[Block],
    nulls: &[u8],
    places: &[u32],
    r: usize,
) -> Result<(), Refusal>
    ensures { result ≡ why_get (filed s views.now bytes.now table.now nulls.now places.now) r }
{
    locate(s, views, bytes, table, nulls, places, r)?;
    Ok(())
}

// A row's value while it is built, its null bit ignored: a part of the views or of the data; empty where it is refused.
// No Result: `get_value` and `get_points` say which part, the empty one, a refused call answers.
pub fn get_value<'a>(
    s: State,
    views: &'a [u8],
    bytes: &'a [u8],
    table: &[Block],
    nulls: &[u8],
    places: &[u32],
    r: usize,
) -> &'a [u8]
    ensures { (result.now ≡ get_value (filed s views.now bytes.now table.now nulls.now places.now) r)
        × (result.ref_ptr ≡ get_points (filed s views.now bytes.now table.now nulls.now places.now) r
        views.entry.ref_ptr bytes.entry.ref_ptr) }
{
    match locate(s, views, bytes, table, nulls, places, r) {
        Ok(spot) => column::part_of(views, bytes, spot),
        Err(_) => &views[0..0],
    }
}

// 2, 4, 6 and 7 for a block of n bytes, by the lengths of what is lent, and by the count of the records.
fn why_block(
    s: State,
    views: usize,
    bytes: usize,
    count: usize,
    nulls: usize,
    places: usize,
    n: usize,
) -> Result<(), Refusal>
    ensures { result ≡ block_by s views bytes count nulls places n }
{
    if !fits_with(s, views, bytes, count, nulls, places) {
        return Err(Refusal::Fit);
    }
    if bounds::BYTE_LIMIT < n {
        return Err(Refusal::TooLong);
    }
    appending::why_room(
        s,
        builder::blocks_room(count, count),
        builder::bytes_room(bytes),
        1,
        n,
    )
}

// A block is added whole, after the open one, if any, is completed.
pub fn append_block(
    s: State,
    views: &[u8],
    bytes: &mut [u8],
    table: &mut [Block],
    nulls: &[u8],
    places: &[u32],
    x: &[u8],
) -> Placed
    ensures { Files (λ b. why_block b x.now) (put_block x.now) s
        views.now bytes.old table.old nulls.now places.now
        result.answer views.now bytes.new table.new nulls.now places.now
        × (result.block ≡ block_number (filed s views.now bytes.old table.old nulls.now places.now)
        x.now) }
{
    let why = why_block(
        s,
        views.len(),
        bytes.len(),
        table.len(),
        nulls.len(),
        places.len(),
        x.len(),
    );
    if why.is_err() {
        return Placed {
            answer: Answer { why, state: s },
            block: 0,
        };
    }
    put_open(s, table);
    let t = appending::close(s);
    let k = t.blocks;
    builder::lay(bytes, t.base, x);
    tables::put_or(
        table,
        k,
        Block {
            start: t.base,
            len: x.len(),
        },
    );
    Placed {
        answer: Answer {
            why: Ok(()),
            state: appending::block_more(t, x.len()),
        },
        block: k,
    }
}
