// A builder's start, its two finishes, and the value of a row while it is built. The state goes in by value and comes back; the buffers are lent.
#![tactic(auto)]

ghost use Rattle.std.specs.Prelude.{◌≡◌, true, false, ◌&&◌, ◌<◌, leb};
ghost use Rattle.bounds.specs.Bounds.{byte_limit};
ghost use Rattle.views.specs.View.{view_at};
ghost use Rattle.column.specs.Lent.{table_of};
ghost use Rattle.column.specs.Spot.{Names};
ghost use Rattle.column.specs.Room.{bare};
ghost use Rattle.builder.specs.State.{held, all_blocks};
ghost use Rattle.builder.specs.Rooms.{Ready, open_starts, open_lens};
ghost use Rattle.builder.specs.Get.{why_get, get_value};
ghost use Rattle.builder.specs.Start.{lawful_sizes, lawful_merging, growth_of, is_off, empty_state, cleared, why_start, start_state, start_places};
ghost use Rattle.builder.specs.Finish.{why_finish, copied, finished, finish_column};
ghost use Rattle.builder.specs.Does.{Does, answer};
ghost use Rattle.finishing.specs.Places.{spot_row, get_points};

use bounds::Refusal;
use builder::{Answer, Merging, Settings, Sizes, State};
use column::{Block, Column, Kind, Spot};
use growth::Growth;

// What a finish answers: its verdict beside the state that it leaves, and the column that was built, without rows where it is refused. A record and no
// Result: `Does`, and the theorems over it, say what the state is on a refusal too, and `finish_column` what the column is.
#[derive(Clone, Copy)]
pub struct Finished {
    pub answer: Answer,
    pub column: Column,
}

fn lawful_size(n: usize) -> bool
    ensures { result ≡ leb 1 n && leb n byte_limit }
{
    1 <= n && n <= bounds::BYTE_LIMIT
}

fn lawful_sizes(s: Sizes) -> bool
    ensures { result ≡ lawful_sizes s }
{
    match s {
        Sizes::Doubled => true,
        Sizes::Same(n) => lawful_size(n),
    }
}

fn lawful_merging(m: Merging) -> bool
    ensures { result ≡ lawful_merging m }
{
    match m {
        Merging::Off | Merging::On => true,
        Merging::UpTo(n) => 1 <= n,
    }
}

fn growth_of(s: Sizes) -> Growth
    ensures { result ≡ growth_of s }
{
    match s {
        Sizes::Doubled => Growth::Doubling(growth::START_SIZE),
        Sizes::Same(n) => Growth::Fixed(n),
    }
}

fn is_off(m: Merging) -> bool
    ensures { result ≡ is_off m }
{
    matches!(m, Merging::Off)
}

// A state without rows and blocks.
pub fn empty_state(kind: Kind, growth: Growth, merging: Merging) -> State
    ensures { result ≡ empty_state kind growth merging }
{
    State {
        kind,
        growth,
        merging,
        rows: 0,
        blocks: 0,
        base: 0,
        fill: 0,
        cap: 0,
        nulled: false,
    }
}

// The merge table emptied, where it is used.
pub fn clear(m: Merging, places: &mut [u32])
    ensures { places.new ≡ cleared m places.old }
{
    if !is_off(m) {
        places.fill(0);
    }
}

// The builder's settings are taken: its state before the first row, and the merge table emptied. Refused, the state fits no buffers.
pub fn start(t: Settings, places: &mut [u32]) -> Answer
    ensures { (result ≡ answer (why_start t) (start_state t)) × (places.new ≡ start_places t places.old) }
{
    if !lawful_sizes(t.sizes) || !lawful_merging(t.merging) {
        return Answer {
            why: Err(Refusal::Setting),
            state: empty_state(t.kind, Growth::Fixed(0), t.merging),
        };
    }
    clear(t.merging, places);
    Answer {
        why: Ok(()),
        state: empty_state(t.kind, growth_of(t.sizes), t.merging),
    }
}

// The column of all rows so far.
pub fn column_of(s: State) -> Column
    requires { all_blocks s < 18446744073709551616 }
    ensures { result ≡ record { first = 0; rows = s.rows; blocks = all_blocks s; kind = s.kind; mapped = s.nulled } }
{
    Column {
        first: 0,
        rows: s.rows,
        blocks: builder::all_blocks(s),
        kind: s.kind,
        mapped: s.nulled,
    }
}

pub fn refused(s: State) -> Finished
    ensures { (result.answer ≡ answer (Err Refusal.Fit) s)
        × (result.column ≡ record { first = 0; rows = 0; blocks = 0; kind = s.kind; mapped = false }) }
{
    Finished {
        answer: Answer {
            why: Err(Refusal::Fit),
            state: s,
        },
        column: Column {
            first: 0,
            rows: 0,
            blocks: 0,
            kind: s.kind,
            mapped: false,
        },
    }
}

// The column so far, the open block's record written; the state stays, and the builder goes on in the same buffers.
pub fn finish_copy(
    s: State,
    views: &[u8],
    bytes: &[u8],
    starts: &mut [usize],
    lens: &mut [usize],
    nulls: &[u8],
    places: &[u32],
) -> Finished
    ensures { Does why_finish copied s views.now bytes.now starts.old lens.old nulls.now
        places.now
        result.answer views.now bytes.now starts.new lens.new nulls.now places.now
        × (result.column ≡ finish_column (held s views.now bytes.now starts.old lens.old nulls.now
        places.now)) }
{
    if !builder::fits_lent(s, views, bytes, starts, lens, nulls, places) {
        return refused(s);
    }
    builder::put_record(s, starts, lens);
    Finished {
        answer: Answer {
            why: Ok(()),
            state: s,
        },
        column: column_of(s),
    }
}

// The column that was built; rows, blocks and merge table are emptied, and the growth size is kept.
pub fn finish(
    s: State,
    views: &[u8],
    bytes: &[u8],
    starts: &mut [usize],
    lens: &mut [usize],
    nulls: &[u8],
    places: &mut [u32],
) -> Finished
    ensures { Does why_finish finished s views.now bytes.now starts.old lens.old
        nulls.now places.old
        result.answer views.now bytes.now starts.new lens.new nulls.now places.new
        × (result.column ≡ finish_column (held s views.now bytes.now starts.old lens.old nulls.now
        places.old)) }
{
    if !builder::fits_lent(s, views, bytes, starts, lens, nulls, places) {
        return refused(s);
    }
    builder::put_record(s, starts, lens);
    clear(s.merging, places);
    Finished {
        answer: Answer {
            why: Ok(()),
            state: empty_state(s.kind, s.growth, s.merging),
        },
        column: column_of(s),
    }
}

// The record of the block that the view of a row names, the open block under the next number. An empty one where it names none, and no None:
// `column::spot_with` takes a record of any view, and doesn't read it then.
fn record_row(s: State, views: &[u8], starts: &[usize], lens: &[usize], r: usize) -> Block
    requires { Ready s views.now starts.now lens.now × (r < s.rows) }
    ensures { Names (table_of (open_starts s starts.now) (open_lens s lens.now)) (all_blocks s) (view_at views.now r) result }
{
    if views::view_len(views, r) <= views::SHORT_MOST {
        return Block { start: 0, len: 0 };
    }
    let k = views::view_block(views, r);
    if builder::all_blocks(s) <= k {
        return Block { start: 0, len: 0 };
    }
    Block {
        start: builder::at_or(starts, s.blocks, s.base, k),
        len: builder::at_or(lens, s.blocks, s.fill, k),
    }
}

// Where the value of a row stands while it is built.
pub fn spot_row(
    s: State,
    views: &[u8],
    bytes: &[u8],
    starts: &[usize],
    lens: &[usize],
    r: usize,
) -> Spot
    requires { Ready s views.now starts.now lens.now × (r < s.rows) }
    ensures { result ≡ spot_row s (bare views.now bytes.now starts.now lens.now) r }
{
    let b = record_row(s, views, starts, lens, r);
    column::spot_with(views, r, builder::all_blocks(s), column::room_of(bytes), b)
}

// The question beside `get_value`: why a row's value is refused.
pub fn why_get(
    s: State,
    views: &[u8],
    bytes: &[u8],
    starts: &[usize],
    lens: &[usize],
    nulls: &[u8],
    places: &[u32],
    r: usize,
) -> Result<(), Refusal>
    ensures { result ≡ why_get (held s views.now bytes.now starts.now lens.now nulls.now
        places.now) r }
{
    if !builder::fits_lent(s, views, bytes, starts, lens, nulls, places) {
        return Err(Refusal::Fit);
    }
    if s.rows <= r {
        return Err(Refusal::Row);
    }
    if !column::is_reached(spot_row(s, views, bytes, starts, lens, r)) {
        return Err(Refusal::BadView(r));
    }
    Ok(())
}

// A row's value while it is built, its null bit ignored: a part of the views or of the data; empty where it is refused.
pub fn get_value<'a>(
    s: State,
    views: &'a [u8],
    bytes: &'a [u8],
    starts: &[usize],
    lens: &[usize],
    nulls: &[u8],
    places: &[u32],
    r: usize,
) -> &'a [u8]
    ensures { (result.now ≡ get_value (held s views.now bytes.now starts.now lens.now
        nulls.now places.now) r)
        × (result.ref_ptr ≡ get_points (held s views.now bytes.now starts.now lens.now nulls.now
        places.now) r views.entry.ref_ptr bytes.entry.ref_ptr) }
{
    if why_get(s, views, bytes, starts, lens, nulls, places, r).is_err() {
        return &views[0..0];
    }
    column::part_of(views, bytes, spot_row(s, views, bytes, starts, lens, r))
}
