// Instruments of tests, no part of the library: the calls over a table of records, by numbers as exports and builder_exports have them, for the programs of
// the gate and for drivers in Rust. A table of more records than through_records holds is answered with TOO_MANY, and nothing is done.
// Parameters stand one by one, since record_exports_c has each call with the same ones for C.
#![tactic(auto)]

use column::Buffers;
use numbers::{Counted, Told};

// More than any refusal's number.
pub const TOO_MANY: u64 = 99;

// The answer of a step of the walk whose value is another than the one asked for.
pub const OTHER: u64 = 98;

// Whether a table of two slices has more records than there can be: either slice is longer than that.
fn is_too_long(starts: &[usize], lens: &[usize]) -> bool {
    through_records::MOST < starts.len().max(lens.len())
}

fn too_many() -> Told {
    Told {
        number: TOO_MANY,
        row: 0,
    }
}

// A value is added.
pub fn records_append_value(
    state: &mut [usize; 11],
    views: &mut [u8],
    bytes: &mut [u8],
    starts: &mut [usize],
    lens: &mut [usize],
    nulls: &mut [u8],
    places: &mut [u32],
    x: &[u8],
) -> u64 {
    if is_too_long(starts, lens) {
        return TOO_MANY;
    }
    let s = builder_exports::state_of(state);
    let r = through_values::append_value(s, views, bytes, starts, lens, nulls, places, x);
    builder_exports::tell(r, state)
}

// A value is added n times.
pub fn records_append_values(
    state: &mut [usize; 11],
    views: &mut [u8],
    bytes: &mut [u8],
    starts: &mut [usize],
    lens: &mut [usize],
    nulls: &mut [u8],
    places: &mut [u32],
    x: &[u8],
    times: usize,
) -> u64 {
    if is_too_long(starts, lens) {
        return TOO_MANY;
    }
    let s = builder_exports::state_of(state);
    let r = through_values::append_values(s, views, bytes, starts, lens, nulls, places, x, times);
    builder_exports::tell(r, state)
}

// A null is added.
pub fn records_append_null(
    state: &mut [usize; 11],
    views: &mut [u8],
    bytes: &[u8],
    starts: &[usize],
    lens: &[usize],
    nulls: &mut [u8],
    places: &[u32],
) -> u64 {
    if is_too_long(starts, lens) {
        return TOO_MANY;
    }
    let s = builder_exports::state_of(state);
    let r = through_records::append_null(s, views, bytes, starts, lens, nulls, places);
    builder_exports::tell(r, state)
}

// A block is added; its number.
pub fn records_append_block(
    state: &mut [usize; 11],
    views: &[u8],
    bytes: &mut [u8],
    starts: &mut [usize],
    lens: &mut [usize],
    nulls: &[u8],
    places: &[u32],
    x: &[u8],
) -> Counted {
    if is_too_long(starts, lens) {
        return Counted {
            refused: TOO_MANY,
            number: 0,
        };
    }
    let s = builder_exports::state_of(state);
    let r = through_records::append_block(s, views, bytes, starts, lens, nulls, places, x);
    Counted {
        refused: builder_exports::tell(r.answer, state),
        number: r.block,
    }
}

// A view of a completed block is added.
pub fn records_append_view(
    state: &mut [usize; 11],
    views: &mut [u8],
    bytes: &[u8],
    starts: &[usize],
    lens: &[usize],
    nulls: &mut [u8],
    places: &[u32],
    block: u32,
    offset: u32,
    size: u32,
) -> u64 {
    if is_too_long(starts, lens) {
        return TOO_MANY;
    }
    let s = builder_exports::state_of(state);
    let r = through_columns::append_view(
        s, views, bytes, starts, lens, nulls, places, block, offset, size,
    );
    builder_exports::tell(r, state)
}

// A column is added, with the row that its refusal names.
pub fn records_append_column<'a>(
    state: &mut [usize; 11],
    views: &mut [u8],
    bytes: &mut [u8],
    starts: &mut [usize],
    lens: &mut [usize],
    nulls: &mut [u8],
    places: &[u32],
    srcviews: &'a [u8],
    srcbytes: &'a [u8],
    srcstarts: &[usize],
    srclens: &[usize],
    srcnulls: &'a [u8],
    column: &[usize; 5],
) -> Told {
    if is_too_long(starts, lens) || is_too_long(srcstarts, srclens) {
        return too_many();
    }
    let s = builder_exports::state_of(state);
    let r = through_columns::append_column(
        s,
        views,
        bytes,
        starts,
        lens,
        nulls,
        places,
        Buffers {
            views: srcviews,
            bytes: srcbytes,
            starts: srcstarts,
            lens: srclens,
            nulls: srcnulls,
        },
        numbers::column_of(column),
    );
    builder_exports::tell(r, state);
    numbers::told_why(r.why)
}

// The column that was built.
pub fn records_finish(
    state: &mut [usize; 11],
    views: &[u8],
    bytes: &[u8],
    starts: &mut [usize],
    lens: &mut [usize],
    nulls: &[u8],
    places: &mut [u32],
    column: &mut [usize; 5],
) -> u64 {
    if is_too_long(starts, lens) {
        return TOO_MANY;
    }
    let s = builder_exports::state_of(state);
    let r = through_records::finish(s, views, bytes, starts, lens, nulls, places);
    numbers::hand(r.answer.why, r.column, column);
    builder_exports::tell(r.answer, state)
}

// The column so far.
pub fn records_finish_by_copy(
    state: &mut [usize; 11],
    views: &[u8],
    bytes: &[u8],
    starts: &mut [usize],
    lens: &mut [usize],
    nulls: &[u8],
    places: &[u32],
    column: &mut [usize; 5],
) -> u64 {
    if is_too_long(starts, lens) {
        return TOO_MANY;
    }
    let s = builder_exports::state_of(state);
    let r = through_records::finish_copy(s, views, bytes, starts, lens, nulls, places);
    numbers::hand(r.answer.why, r.column, column);
    builder_exports::tell(r.answer, state)
}

// 0 where a row's value while it is built can be read, else the refusal's number.
pub fn records_why_get<'a>(
    state: &[usize; 11],
    views: &'a [u8],
    bytes: &'a [u8],
    starts: &[usize],
    lens: &[usize],
    nulls: &[u8],
    places: &[u32],
    row: usize,
) -> u64 {
    if is_too_long(starts, lens) {
        return TOO_MANY;
    }
    let s = builder_exports::state_of(state);
    let w = through_records::why_get(s, views, bytes, starts, lens, nulls, places, row);
    u64::from(bounds::why_number(w))
}

// 1 where a row's value while it is built is `want`, else 0.
pub fn records_get_value_is<'a>(
    state: &[usize; 11],
    views: &'a [u8],
    bytes: &'a [u8],
    starts: &[usize],
    lens: &[usize],
    nulls: &[u8],
    places: &[u32],
    row: usize,
    want: &[u8],
) -> u64 {
    if is_too_long(starts, lens) {
        return TOO_MANY;
    }
    let s = builder_exports::state_of(state);
    u64::from(through_records::get_value_is(
        s, views, bytes, starts, lens, nulls, places, row, want,
    ))
}

// 0 where a row's value can be read, else the refusal's number.
pub fn records_why_value<'a>(
    views: &'a [u8],
    bytes: &'a [u8],
    starts: &[usize],
    lens: &[usize],
    nulls: &'a [u8],
    column: &[usize; 5],
    row: usize,
) -> u64 {
    if is_too_long(starts, lens) {
        return TOO_MANY;
    }
    let l = Buffers {
        views,
        bytes,
        starts,
        lens,
        nulls,
    };
    let w = through_records::why_value(l, numbers::column_of(column), row);
    u64::from(bounds::why_number(w))
}

// 1 where a row's value is `want`, else 0.
pub fn records_value_is<'a>(
    views: &'a [u8],
    bytes: &'a [u8],
    starts: &[usize],
    lens: &[usize],
    nulls: &'a [u8],
    column: &[usize; 5],
    row: usize,
    want: &[u8],
) -> u64 {
    if is_too_long(starts, lens) {
        return TOO_MANY;
    }
    let l = Buffers {
        views,
        bytes,
        starts,
        lens,
        nulls,
    };
    u64::from(through_records::value_is(l, numbers::column_of(column), row, want))
}

// The row walk set to a row, and a step of it whose value has to be `want`: the refusal's number or 0, and the place after it.
pub fn records_walk<'a>(
    views: &'a [u8],
    bytes: &'a [u8],
    starts: &[usize],
    lens: &[usize],
    nulls: &'a [u8],
    column: &[usize; 5],
    row: usize,
    want: &[u8],
) -> Counted {
    if is_too_long(starts, lens) {
        return Counted {
            refused: TOO_MANY,
            number: 0,
        };
    }
    let l = Buffers {
        views,
        bytes,
        starts,
        lens,
        nulls,
    };
    let g = through_walks::walk_at(l, numbers::column_of(column), row, want);
    Counted {
        refused: if g.same {
            u64::from(bounds::why_number(g.why))
        } else {
            OTHER
        },
        number: g.at,
    }
}

// 0 where the column is valid, else the refusal's number, with the row that it names.
pub fn records_check<'a>(
    views: &'a [u8],
    bytes: &'a [u8],
    starts: &[usize],
    lens: &[usize],
    nulls: &'a [u8],
    column: &[usize; 5],
) -> Told {
    if is_too_long(starts, lens) {
        return too_many();
    }
    let l = Buffers {
        views,
        bytes,
        starts,
        lens,
        nulls,
    };
    numbers::told_why(through_records::check(l, numbers::column_of(column)))
}

// Row i of one column against row j of another, by exports' numbers.
pub fn records_compare<'a>(
    views: &'a [u8],
    bytes: &'a [u8],
    starts: &[usize],
    lens: &[usize],
    nulls: &'a [u8],
    column: &[usize; 5],
    i: usize,
    views2: &'a [u8],
    bytes2: &'a [u8],
    starts2: &[usize],
    lens2: &[usize],
    nulls2: &'a [u8],
    column2: &[usize; 5],
    j: usize,
) -> u64 {
    if is_too_long(starts, lens) || is_too_long(starts2, lens2) {
        return TOO_MANY;
    }
    let l = Buffers {
        views,
        bytes,
        starts,
        lens,
        nulls,
    };
    let m = Buffers {
        views: views2,
        bytes: bytes2,
        starts: starts2,
        lens: lens2,
        nulls: nulls2,
    };
    exports::compared_number(through_records::compare(
        l,
        numbers::column_of(column),
        i,
        m,
        numbers::column_of(column2),
        j,
    ))
}

// A column is written anew, with the row that its refusal names.
pub fn records_compact<'a>(
    views: &'a [u8],
    bytes: &'a [u8],
    starts: &[usize],
    lens: &[usize],
    nulls: &'a [u8],
    column: &[usize; 5],
    most: usize,
    newviews: &mut [u8],
    newbytes: &mut [u8],
    newstarts: &mut [usize],
    newlens: &mut [usize],
    newnulls: &mut [u8],
    newcolumn: &mut [usize; 5],
) -> Told {
    if is_too_long(newstarts, newlens) || is_too_long(starts, lens) {
        return too_many();
    }
    let l = Buffers {
        views,
        bytes,
        starts,
        lens,
        nulls,
    };
    let c = numbers::column_of(column);
    let r = through_columns::compact(l, c, most, newviews, newbytes, newstarts, newlens, newnulls);
    numbers::hand(r.why, r.column, newcolumn);
    numbers::told_why(r.why)
}
