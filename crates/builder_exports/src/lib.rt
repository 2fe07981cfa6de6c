// The builder for C and Rust: its state, settings and columns by numbers, its buffers lent. include/tambuyeel.h says the same for C.
#![tactic(auto)]

ghost use Rattle.std.specs.Prelude.{◌≡◌};
ghost use Rattle.bounds.specs.Refusals.{why_number, if_accepted};
ghost use Rattle.column.specs.Lent.{lent};
ghost use Rattle.builder.specs.State.{held};
ghost use Rattle.builder.specs.Get.{column_of};
ghost use Rattle.builder.specs.Start.{why_start, started, start_places};
ghost use Rattle.builder.specs.Values.{why_values, put_values, why_null, put_null};
ghost use Rattle.builder.specs.Others.{why_block, put_block, block_number, why_view, put_view, why_column, put_column};
ghost use Rattle.builder.specs.Finish.{why_finish, copied, finished};
ghost use Rattle.numbers.specs.Numbers.{column_from, column_numbers, why_told};
ghost use Rattle.builder_exports.specs.Numbers.{growth_from, sizes_of, merging_of, state_of, settings_of};
ghost use Rattle.builder_exports.specs.Numbers.{growth_number, growth_size, merging_number, merging_most, numbers_of};
ghost use Rattle.builder_exports.specs.Numbers.{place_got, Exported};

use builder::{Answer, Merging, Settings, Sizes, State};
use column::Buffers;
use growth::Growth;
use numbers::{Counted, Place, Told};

fn growth_of(g: usize, n: usize) -> Growth
    ensures { result ≡ growth_from g n }
{
    match g {
        0 => Growth::Fixed(n),
        _ => Growth::Doubling(n),
    }
}

fn sizes_of(g: usize, n: usize) -> Sizes
    ensures { result ≡ sizes_of g n }
{
    match g {
        0 => Sizes::Same(n),
        _ => Sizes::Doubled,
    }
}

fn merging_of(m: usize, most: usize) -> Merging
    ensures { result ≡ merging_of m most }
{
    match m {
        0 => Merging::Off,
        1 => Merging::On,
        _ => Merging::UpTo(most),
    }
}

// A state by its eleven numbers, which are C's. No From, here or below: neither type is this crate's.
pub fn state_of(l: &[usize; 11]) -> State
    ensures { result ≡ state_of l.now }
{
    State {
        kind: numbers::kind_of(l[0]),
        growth: growth_of(l[1], l[2]),
        merging: merging_of(l[3], l[4]),
        rows: l[5],
        blocks: l[6],
        base: l[7],
        fill: l[8],
        cap: l[9],
        nulled: l[10] != 0,
    }
}

fn settings_of(l: &[usize; 5]) -> Settings
    ensures { result ≡ settings_of l.now }
{
    Settings {
        kind: numbers::kind_of(l[0]),
        sizes: sizes_of(l[1], l[2]),
        merging: merging_of(l[3], l[4]),
    }
}

fn growth_number(g: Growth) -> usize
    ensures { result ≡ growth_number g }
{
    match g {
        Growth::Fixed(_) => 0,
        Growth::Doubling(_) => 1,
    }
}

fn growth_size(g: Growth) -> usize
    ensures { result ≡ growth_size g }
{
    match g {
        Growth::Fixed(n) | Growth::Doubling(n) => n,
    }
}

fn merging_number(m: Merging) -> usize
    ensures { result ≡ merging_number m }
{
    match m {
        Merging::Off => 0,
        Merging::On => 1,
        Merging::UpTo(_) => 2,
    }
}

fn merging_most(m: Merging) -> usize
    ensures { result ≡ merging_most m }
{
    match m {
        Merging::Off | Merging::On => 0,
        Merging::UpTo(n) => n,
    }
}

// A state as numbers.
fn numbers_of(s: State) -> [usize; 11]
    ensures { result ≡ numbers_of s }
{
    [
        numbers::kind_number(s.kind),
        growth_number(s.growth),
        growth_size(s.growth),
        merging_number(s.merging),
        merging_most(s.merging),
        s.rows,
        s.blocks,
        s.base,
        s.fill,
        s.cap,
        numbers::flag_number(s.nulled),
    ]
}

// The state's numbers after a call: as they came where it is refused.
fn leave(a: Answer, state: &mut [usize; 11])
    ensures { state.new ≡ if_accepted a.why (numbers_of a.state) state.old }
{
    if a.why.is_ok() {
        *state = numbers_of(a.state);
    }
}

// The same, and the call's number.
pub fn tell(a: Answer, state: &mut [usize; 11]) -> u64
    ensures { (result ≡ why_number a.why) × (state.new ≡ if_accepted a.why (numbers_of a.state) state.old) }
{
    leave(a, state);
    bounds::why_number(a.why) as u64
}

// A builder started: its state's numbers, and the merge table emptied where it is used.
pub fn tambuyeel_start(settings: &[usize; 5], state: &mut [usize; 11], places: &mut [u32]) -> u64
    ensures { (result ≡ why_number (why_start (settings_of settings.now)))
        × (state.new ≡ if_accepted (why_start (settings_of settings.now)) (numbers_of (started (settings_of settings.now)))
        state.old)
        × (places.new ≡ start_places (settings_of settings.now) places.old) }
{
    let a = finishing::start(settings_of(settings), places);
    tell(a, state)
}

// A value is added.
pub fn tambuyeel_append_value(
    state: &mut [usize; 11],
    views: &mut [u8],
    bytes: &mut [u8],
    starts: &mut [usize],
    lens: &mut [usize],
    nulls: &mut [u8],
    places: &mut [u32],
    x: &[u8],
) -> u64
    ensures { Exported (λ b. why_values 1 b x.now) (put_values 1 x.now) state.old
        views.old bytes.old starts.old lens.old nulls.old places.old
        result state.new views.new bytes.new starts.new lens.new nulls.new places.new }
{
    let s = state_of(state);
    let a = values::append_value(s, views, bytes, starts, lens, nulls, places, x);
    tell(a, state)
}

// A value is added n times. It is exported by a crate of its own, times_exports: in one object with the call above each would call the same worker, and
// hand it everything through memory, where now the work is compiled into both.
pub fn tambuyeel_append_values(
    state: &mut [usize; 11],
    views: &mut [u8],
    bytes: &mut [u8],
    starts: &mut [usize],
    lens: &mut [usize],
    nulls: &mut [u8],
    places: &mut [u32],
    x: &[u8],
    n: usize,
) -> u64
    ensures { Exported (λ b. why_values n b x.now) (put_values n x.now) state.old
        views.old bytes.old starts.old lens.old nulls.old places.old
        result state.new views.new bytes.new starts.new lens.new nulls.new places.new }
{
    let s = state_of(state);
    let a = values::append_values(s, views, bytes, starts, lens, nulls, places, x, n);
    tell(a, state)
}

// A null row is added.
pub fn tambuyeel_append_null(
    state: &mut [usize; 11],
    views: &mut [u8],
    bytes: &[u8],
    starts: &[usize],
    lens: &[usize],
    nulls: &mut [u8],
    places: &[u32],
) -> u64
    ensures { Exported why_null put_null state.old
        views.old bytes.now starts.now lens.now nulls.old places.now
        result state.new views.new bytes.now starts.now lens.now nulls.new places.now }
{
    let s = state_of(state);
    let a = values::append_null(s, views, bytes, starts, lens, nulls, places);
    tell(a, state)
}

// A block is added whole, after the open one, if any, is completed; its number.
pub fn tambuyeel_append_block(
    state: &mut [usize; 11],
    views: &[u8],
    bytes: &mut [u8],
    starts: &mut [usize],
    lens: &mut [usize],
    nulls: &[u8],
    places: &[u32],
    x: &[u8],
) -> Counted
    ensures { Exported (λ b. why_block b x.now) (put_block x.now) state.old
        views.now bytes.old starts.old lens.old nulls.now places.now
        result.refused state.new views.now bytes.new starts.new lens.new nulls.now
        places.now
        × (result.number ≡ block_number (held (state_of state.old) views.now bytes.old starts.old
        lens.old nulls.now places.now) x.now) }
{
    let s = state_of(state);
    let a = appending::append_block(s, views, bytes, starts, lens, nulls, places, x);
    Counted {
        refused: tell(a.answer, state),
        number: a.block,
    }
}

// A row is added that shows n bytes at an offset of a completed block.
pub fn tambuyeel_append_view(
    state: &mut [usize; 11],
    views: &mut [u8],
    bytes: &[u8],
    starts: &[usize],
    lens: &[usize],
    nulls: &mut [u8],
    places: &[u32],
    block: u32,
    offset: u32,
    n: u32,
) -> u64
    ensures { Exported (λ b. why_view b block offset n) (put_view block offset n) state.old
        views.old bytes.now starts.now lens.now nulls.old places.now
        result state.new views.new bytes.now starts.now lens.now nulls.new places.now }
{
    let s = state_of(state);
    let a = appending::append_view(
        s, views, bytes, starts, lens, nulls, places, block, offset, n,
    );
    tell(a, state)
}

// A column is added: the open block, if any, is completed, the column's blocks are copied whole.
pub fn tambuyeel_append_column<'a>(
    state: &mut [usize; 11],
    views: &mut [u8],
    bytes: &mut [u8],
    starts: &mut [usize],
    lens: &mut [usize],
    nulls: &mut [u8],
    places: &[u32],
    srcviews: &'a [u8],
    srcbytes: &'a [u8],
    srcstarts: &[usize],
    srclens: &[usize],
    srcnulls: &[u8],
    column: &[usize; 5],
) -> Told
    ensures { Exported (why_column (lent srcviews.now srcbytes.now srcstarts.now srclens.now
        srcnulls.now) (column_from column.now)) (put_column (lent srcviews.now srcbytes.now
        srcstarts.now srclens.now srcnulls.now) (column_from column.now)) state.old
        views.old bytes.old starts.old lens.old nulls.old places.now
        result.number state.new views.new bytes.new starts.new lens.new nulls.new
        places.now
        × (result ≡ why_told (why_column (lent srcviews.now srcbytes.now srcstarts.now srclens.now
        srcnulls.now) (column_from column.now) (held (state_of state.old) views.old bytes.old
        starts.old lens.old nulls.old places.now))) }
{
    let s = state_of(state);
    let a = appending::append_column(
        s,
        views,
        bytes,
        starts,
        lens,
        nulls,
        places,
        Buffers {
            views: srcviews,
            bytes: srcbytes,
            starts: srcstarts,
            lens: srclens,
            nulls: srcnulls,
        },
        numbers::column_of(column),
    );
    leave(a, state);
    numbers::told_why(a.why)
}

// Which bytes of which buffer a row's value is while it is built.
pub fn tambuyeel_get_value(
    state: &[usize; 11],
    views: &[u8],
    bytes: &[u8],
    starts: &[usize],
    lens: &[usize],
    nulls: &[u8],
    places: &[u32],
    row: usize,
) -> Place
    ensures { result ≡ place_got (state_of state.now) views.now bytes.now starts.now lens.now
        nulls.now places.now row }
{
    let s = state_of(state);
    match finishing::why_get(s, views, bytes, starts, lens, nulls, places, row) {
        Ok(()) => numbers::place_of(finishing::spot_row(s, views, bytes, starts, lens, row)),
        Err(r) => Place {
            refused: r.number() as u64,
            buffer: 0,
            offset: 0,
            len: 0,
        },
    }
}

// The column that was built; rows, blocks and merge table are emptied, and the growth size is kept.
pub fn tambuyeel_finish(
    state: &mut [usize; 11],
    views: &[u8],
    bytes: &[u8],
    starts: &mut [usize],
    lens: &mut [usize],
    nulls: &[u8],
    places: &mut [u32],
    column: &mut [usize; 5],
) -> u64
    ensures { Exported why_finish finished state.old
        views.now bytes.now starts.old lens.old nulls.now places.old
        result state.new views.now bytes.now starts.new lens.new nulls.now places.new
        × (column.new ≡ if_accepted (why_finish (held (state_of state.old) views.now bytes.now
        starts.old lens.old nulls.now places.old))
        (column_numbers (column_of (held (state_of state.old) views.now bytes.now starts.old
        lens.old nulls.now places.old))) column.old) }
{
    let s = state_of(state);
    let a = finishing::finish(s, views, bytes, starts, lens, nulls, places);
    numbers::hand(a.answer.why, a.column, column);
    tell(a.answer, state)
}

// The column so far, the open block's record written; the builder goes on in the same buffers.
pub fn tambuyeel_finish_by_copy(
    state: &mut [usize; 11],
    views: &[u8],
    bytes: &[u8],
    starts: &mut [usize],
    lens: &mut [usize],
    nulls: &[u8],
    places: &[u32],
    column: &mut [usize; 5],
) -> u64
    ensures { Exported why_finish copied state.old
        views.now bytes.now starts.old lens.old nulls.now places.now
        result state.new views.now bytes.now starts.new lens.new nulls.now places.now
        × (column.new ≡ if_accepted (why_finish (held (state_of state.old) views.now bytes.now
        starts.old lens.old nulls.now places.now))
        (column_numbers (column_of (held (state_of state.old) views.now bytes.now starts.old
        lens.old nulls.now places.now))) column.old) }
{
    let s = state_of(state);
    let a = finishing::finish_copy(s, views, bytes, starts, lens, nulls, places);
    numbers::hand(a.answer.why, a.column, column);
    tell(a.answer, state)
}
