// Instruments of tests, no part of the library: the calls of `record_exports` for drivers, each under its own name. Parameters stand one by one: this is the C
// interface.
#![tactic(auto)]

use numbers::{Counted, Told};

// A value is added.
#[unsafe(no_mangle)]
pub extern "C" fn records_append_value(
    state: &mut [usize; 11],
    views: &mut [u8],
    bytes: &mut [u8],
    starts: &mut [usize],
    lens: &mut [usize],
    nulls: &mut [u8],
    places: &mut [u32],
    x: &[u8],
) -> u64 {
    record_exports::records_append_value(state, views, bytes, starts, lens, nulls, places, x)
}

// A value is added n times.
#[unsafe(no_mangle)]
pub extern "C" fn records_append_values(
    state: &mut [usize; 11],
    views: &mut [u8],
    bytes: &mut [u8],
    starts: &mut [usize],
    lens: &mut [usize],
    nulls: &mut [u8],
    places: &mut [u32],
    x: &[u8],
    times: usize,
) -> u64 {
    record_exports::records_append_values(
        state, views, bytes, starts, lens, nulls, places, x, times,
    )
}

// A null is added.
#[unsafe(no_mangle)]
pub extern "C" fn records_append_null(
    state: &mut [usize; 11],
    views: &mut [u8],
    bytes: &[u8],
    starts: &[usize],
    lens: &[usize],
    nulls: &mut [u8],
    places: &[u32],
) -> u64 {
    record_exports::records_append_null(state, views, bytes, starts, lens, nulls, places)
}

// A block is added; its number.
#[unsafe(no_mangle)]
pub extern "C" fn records_append_block(
    state: &mut [usize; 11],
    views: &[u8],
    bytes: &mut [u8],
    starts: &mut [usize],
    lens: &mut [usize],
    nulls: &[u8],
    places: &[u32],
    x: &[u8],
) -> Counted {
    record_exports::records_append_block(state, views, bytes, starts, lens, nulls, places, x)
}

// A view of a completed block is added.
#[unsafe(no_mangle)]
pub extern "C" fn records_append_view(
    state: &mut [usize; 11],
    views: &mut [u8],
    bytes: &[u8],
    starts: &[usize],
    lens: &[usize],
    nulls: &mut [u8],
    places: &[u32],
    block: u32,
    offset: u32,
    size: u32,
) -> u64 {
    record_exports::records_append_view(
        state, views, bytes, starts, lens, nulls, places, block, offset, size,
    )
}

// A column is added, with the row that its refusal names.
#[unsafe(no_mangle)]
pub extern "C" fn records_append_column<'a>(
    state: &mut [usize; 11],
    views: &mut [u8],
    bytes: &mut [u8],
    starts: &mut [usize],
    lens: &mut [usize],
    nulls: &mut [u8],
    places: &[u32],
    srcviews: &'a [u8],
    srcbytes: &'a [u8],
    srcstarts: &[usize],
    srclens: &[usize],
    srcnulls: &'a [u8],
    column: &[usize; 5],
) -> Told {
    record_exports::records_append_column(
        state, views, bytes, starts, lens, nulls, places, srcviews, srcbytes, srcstarts, srclens,
        srcnulls, column,
    )
}

// The column that was built.
#[unsafe(no_mangle)]
pub extern "C" fn records_finish(
    state: &mut [usize; 11],
    views: &[u8],
    bytes: &[u8],
    starts: &mut [usize],
    lens: &mut [usize],
    nulls: &[u8],
    places: &mut [u32],
    column: &mut [usize; 5],
) -> u64 {
    record_exports::records_finish(state, views, bytes, starts, lens, nulls, places, column)
}

// The column so far.
#[unsafe(no_mangle)]
pub extern "C" fn records_finish_by_copy(
    state: &mut [usize; 11],
    views: &[u8],
    bytes: &[u8],
    starts: &mut [usize],
    lens: &mut [usize],
    nulls: &[u8],
    places: &[u32],
    column: &mut [usize; 5],
) -> u64 {
    record_exports::records_finish_by_copy(state, views, bytes, starts, lens, nulls, places, column)
}

// 0 where a row's value while it is built can be read, else the refusal's number.
#[unsafe(no_mangle)]
pub extern "C" fn records_why_get<'a>(
    state: &[usize; 11],
    views: &'a [u8],
    bytes: &'a [u8],
    starts: &[usize],
    lens: &[usize],
    nulls: &[u8],
    places: &[u32],
    row: usize,
) -> u64 {
    record_exports::records_why_get(state, views, bytes, starts, lens, nulls, places, row)
}

// 1 where a row's value while it is built is `want`, else 0.
#[unsafe(no_mangle)]
pub extern "C" fn records_get_value_is<'a>(
    state: &[usize; 11],
    views: &'a [u8],
    bytes: &'a [u8],
    starts: &[usize],
    lens: &[usize],
    nulls: &[u8],
    places: &[u32],
    row: usize,
    want: &[u8],
) -> u64 {
    record_exports::records_get_value_is(
        state, views, bytes, starts, lens, nulls, places, row, want,
    )
}

// 0 where a row's value can be read, else the refusal's number.
#[unsafe(no_mangle)]
pub extern "C" fn records_why_value<'a>(
    views: &'a [u8],
    bytes: &'a [u8],
    starts: &[usize],
    lens: &[usize],
    nulls: &'a [u8],
    column: &[usize; 5],
    row: usize,
) -> u64 {
    record_exports::records_why_value(views, bytes, starts, lens, nulls, column, row)
}

// 1 where a row's value is `want`, else 0.
#[unsafe(no_mangle)]
pub extern "C" fn records_value_is<'a>(
    views: &'a [u8],
    bytes: &'a [u8],
    starts: &[usize],
    lens: &[usize],
    nulls: &'a [u8],
    column: &[usize; 5],
    row: usize,
    want: &[u8],
) -> u64 {
    record_exports::records_value_is(views, bytes, starts, lens, nulls, column, row, want)
}

// The row walk set to a row, and a step of it whose value has to be `want`: the refusal's number or 0, and the place after it.
#[unsafe(no_mangle)]
pub extern "C" fn records_walk<'a>(
    views: &'a [u8],
    bytes: &'a [u8],
    starts: &[usize],
    lens: &[usize],
    nulls: &'a [u8],
    column: &[usize; 5],
    row: usize,
    want: &[u8],
) -> Counted {
    record_exports::records_walk(views, bytes, starts, lens, nulls, column, row, want)
}

// 0 where the column is valid, else the refusal's number, with the row that it names.
#[unsafe(no_mangle)]
pub extern "C" fn records_check<'a>(
    views: &'a [u8],
    bytes: &'a [u8],
    starts: &[usize],
    lens: &[usize],
    nulls: &'a [u8],
    column: &[usize; 5],
) -> Told {
    record_exports::records_check(views, bytes, starts, lens, nulls, column)
}

// Row i of one column against row j of another, by exports' numbers.
#[unsafe(no_mangle)]
pub extern "C" fn records_compare<'a>(
    views: &'a [u8],
    bytes: &'a [u8],
    starts: &[usize],
    lens: &[usize],
    nulls: &'a [u8],
    column: &[usize; 5],
    i: usize,
    views2: &'a [u8],
    bytes2: &'a [u8],
    starts2: &[usize],
    lens2: &[usize],
    nulls2: &'a [u8],
    column2: &[usize; 5],
    j: usize,
) -> u64 {
    record_exports::records_compare(
        views, bytes, starts, lens, nulls, column, i, views2, bytes2, starts2, lens2, nulls2,
        column2, j,
    )
}

// A column is written anew, with the row that its refusal names.
#[unsafe(no_mangle)]
pub extern "C" fn records_compact<'a>(
    views: &'a [u8],
    bytes: &'a [u8],
    starts: &[usize],
    lens: &[usize],
    nulls: &'a [u8],
    column: &[usize; 5],
    most: usize,
    newviews: &mut [u8],
    newbytes: &mut [u8],
    newstarts: &mut [usize],
    newlens: &mut [usize],
    newnulls: &mut [u8],
    newcolumn: &mut [usize; 5],
) -> Told {
    record_exports::records_compact(
        views, bytes, starts, lens, nulls, column, most, newviews, newbytes, newstarts, newlens,
        newnulls, newcolumn,
    )
}
