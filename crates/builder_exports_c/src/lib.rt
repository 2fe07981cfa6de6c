// The calls of `builder_exports` for C and Rust, each under its own name; `tambuyeel_append_values` is exported by times_exports. include/tambuyeel.h says the
// same for C.
#![tactic(auto)]

ghost use Rattle.std.specs.Prelude.{◌≡◌};
ghost use Rattle.bounds.specs.Refusals.{why_number, if_accepted};
ghost use Rattle.column.specs.Lent.{lent};
ghost use Rattle.builder.specs.State.{held};
ghost use Rattle.builder.specs.Get.{column_of};
ghost use Rattle.builder.specs.Start.{why_start, started, start_places};
ghost use Rattle.builder.specs.Values.{why_values, put_values, why_null, put_null};
ghost use Rattle.builder.specs.Others.{why_block, put_block, block_number, why_view, put_view, why_column, put_column};
ghost use Rattle.builder.specs.Finish.{why_finish, copied, finished};
ghost use Rattle.numbers.specs.Numbers.{column_from, column_numbers, why_told};
ghost use Rattle.builder_exports.specs.Numbers.{state_of, settings_of, numbers_of, place_got, Exported};

use numbers::{Counted, Place, Told};

// A builder started: its state's numbers, and the merge table emptied where it is used.
#[unsafe(no_mangle)]
pub extern "C" fn tambuyeel_start(
    settings: &[usize; 5],
    state: &mut [usize; 11],
    places: &mut [u32],
) -> u64
    ensures { (result ≡ why_number (why_start (settings_of settings.now)))
        × (state.new ≡ if_accepted (why_start (settings_of settings.now)) (numbers_of (started (settings_of settings.now)))
        state.old)
        × (places.new ≡ start_places (settings_of settings.now) places.old) }
{
    builder_exports::tambuyeel_start(settings, state, places)
}

// A value is added.
#[unsafe(no_mangle)]
pub extern "C" fn tambuyeel_append_value(
    state: &mut [usize; 11],
    views: &mut [u8],
    bytes: &mut [u8],
    starts: &mut [usize],
    lens: &mut [usize],
    nulls: &mut [u8],
    places: &mut [u32],
    x: &[u8],
) -> u64
    ensures { Exported (λ b. why_values 1 b x.now) (put_values 1 x.now) state.old
        views.old bytes.old starts.old lens.old nulls.old places.old
        result state.new views.new bytes.new starts.new lens.new nulls.new places.new }
{
    builder_exports::tambuyeel_append_value(state, views, bytes, starts, lens, nulls, places, x)
}

// A null row is added.
#[unsafe(no_mangle)]
pub extern "C" fn tambuyeel_append_null(
    state: &mut [usize; 11],
    views: &mut [u8],
    bytes: &[u8],
    starts: &[usize],
    lens: &[usize],
    nulls: &mut [u8],
    places: &[u32],
) -> u64
    ensures { Exported why_null put_null state.old
        views.old bytes.now starts.now lens.now nulls.old places.now
        result state.new views.new bytes.now starts.now lens.now nulls.new places.now }
{
    builder_exports::tambuyeel_append_null(state, views, bytes, starts, lens, nulls, places)
}

// A block is added whole, after the open one, if any, is completed; its number.
#[unsafe(no_mangle)]
pub extern "C" fn tambuyeel_append_block(
    state: &mut [usize; 11],
    views: &[u8],
    bytes: &mut [u8],
    starts: &mut [usize],
    lens: &mut [usize],
    nulls: &[u8],
    places: &[u32],
    x: &[u8],
) -> Counted
    ensures { Exported (λ b. why_block b x.now) (put_block x.now) state.old
        views.now bytes.old starts.old lens.old nulls.now places.now
        result.refused state.new views.now bytes.new starts.new lens.new nulls.now
        places.now
        × (result.number ≡ block_number (held (state_of state.old) views.now bytes.old starts.old
        lens.old nulls.now places.now) x.now) }
{
    builder_exports::tambuyeel_append_block(state, views, bytes, starts, lens, nulls, places, x)
}

// A row is added that shows n bytes at an offset of a completed block.
#[unsafe(no_mangle)]
pub extern "C" fn tambuyeel_append_view(
    state: &mut [usize; 11],
    views: &mut [u8],
    bytes: &[u8],
    starts: &[usize],
    lens: &[usize],
    nulls: &mut [u8],
    places: &[u32],
    block: u32,
    offset: u32,
    n: u32,
) -> u64
    ensures { Exported (λ b. why_view b block offset n) (put_view block offset n) state.old
        views.old bytes.now starts.now lens.now nulls.old places.now
        result state.new views.new bytes.now starts.now lens.now nulls.new places.now }
{
    builder_exports::tambuyeel_append_view(
        state, views, bytes, starts, lens, nulls, places, block, offset, n,
    )
}

// A column is added: the open block, if any, is completed, the column's blocks are copied whole.
#[unsafe(no_mangle)]
pub extern "C" fn tambuyeel_append_column<'a>(
    state: &mut [usize; 11],
    views: &mut [u8],
    bytes: &mut [u8],
    starts: &mut [usize],
    lens: &mut [usize],
    nulls: &mut [u8],
    places: &[u32],
    srcviews: &'a [u8],
    srcbytes: &'a [u8],
    srcstarts: &[usize],
    srclens: &[usize],
    srcnulls: &[u8],
    column: &[usize; 5],
) -> Told
    ensures { Exported (why_column (lent srcviews.now srcbytes.now srcstarts.now srclens.now
        srcnulls.now) (column_from column.now)) (put_column (lent srcviews.now srcbytes.now
        srcstarts.now srclens.now srcnulls.now) (column_from column.now)) state.old
        views.old bytes.old starts.old lens.old nulls.old places.now
        result.number state.new views.new bytes.new starts.new lens.new nulls.new
        places.now
        × (result ≡ why_told (why_column (lent srcviews.now srcbytes.now srcstarts.now srclens.now
        srcnulls.now) (column_from column.now) (held (state_of state.old) views.old bytes.old
        starts.old lens.old nulls.old places.now))) }
{
    builder_exports::tambuyeel_append_column(
        state, views, bytes, starts, lens, nulls, places, srcviews, srcbytes, srcstarts, srclens,
        srcnulls, column,
    )
}

// Which bytes of which buffer a row's value is while it is built.
#[unsafe(no_mangle)]
pub extern "C" fn tambuyeel_get_value(
    state: &[usize; 11],
    views: &[u8],
    bytes: &[u8],
    starts: &[usize],
    lens: &[usize],
    nulls: &[u8],
    places: &[u32],
    row: usize,
) -> Place
    ensures { result ≡ place_got (state_of state.now) views.now bytes.now starts.now lens.now
        nulls.now places.now row }
{
    builder_exports::tambuyeel_get_value(state, views, bytes, starts, lens, nulls, places, row)
}

// The column that was built; rows, blocks and merge table are emptied, and the growth size is kept.
#[unsafe(no_mangle)]
pub extern "C" fn tambuyeel_finish(
    state: &mut [usize; 11],
    views: &[u8],
    bytes: &[u8],
    starts: &mut [usize],
    lens: &mut [usize],
    nulls: &[u8],
    places: &mut [u32],
    column: &mut [usize; 5],
) -> u64
    ensures { Exported why_finish finished state.old
        views.now bytes.now starts.old lens.old nulls.now places.old
        result state.new views.now bytes.now starts.new lens.new nulls.now places.new
        × (column.new ≡ if_accepted (why_finish (held (state_of state.old) views.now bytes.now
        starts.old lens.old nulls.now places.old))
        (column_numbers (column_of (held (state_of state.old) views.now bytes.now starts.old
        lens.old nulls.now places.old))) column.old) }
{
    builder_exports::tambuyeel_finish(state, views, bytes, starts, lens, nulls, places, column)
}

// The column so far, the open block's record written; the builder goes on in the same buffers.
#[unsafe(no_mangle)]
pub extern "C" fn tambuyeel_finish_by_copy(
    state: &mut [usize; 11],
    views: &[u8],
    bytes: &[u8],
    starts: &mut [usize],
    lens: &mut [usize],
    nulls: &[u8],
    places: &[u32],
    column: &mut [usize; 5],
) -> u64
    ensures { Exported why_finish copied state.old
        views.now bytes.now starts.old lens.old nulls.now places.now
        result state.new views.now bytes.now starts.new lens.new nulls.now places.now
        × (column.new ≡ if_accepted (why_finish (held (state_of state.old) views.now bytes.now
        starts.old lens.old nulls.now places.now))
        (column_numbers (column_of (held (state_of state.old) views.now bytes.now starts.old
        lens.old nulls.now places.now))) column.old) }
{
    builder_exports::tambuyeel_finish_by_copy(
        state, views, bytes, starts, lens, nulls, places, column,
    )
}
