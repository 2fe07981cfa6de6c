// A row's prefix, suffix, length and null bit, the nulls of a run, slices and totals, for C and Rust.
ghost use Rattle.std.specs.Prelude.{◌≡◌};
ghost use Rattle.column.specs.Lent.{lent};
ghost use Rattle.reading.specs.Reading as spec;
ghost use Rattle.numbers.specs.Numbers.{column_from};
ghost use Rattle.exports.specs.Exported.{place_at};
ghost use Rattle.exports.specs.Parts.{number_told, bit_told, slice_told, prefix_place, suffix_place};

use crate::Run;
use bounds::Refusal;
use column::{Buffers, Column};
use numbers::{Counted, Place};

fn told_number(n: Result<usize, Refusal>) -> Counted
    ensures { result ≡ number_told n }
{
    match n {
        Ok(x) => Counted {
            refused: 0,
            number: x,
        },
        Err(r) => Counted {
            refused: r.number() as u64,
            number: 0,
        },
    }
}

fn told_bit(b: Result<bool, Refusal>) -> Counted
    ensures { result ≡ bit_told b }
{
    told_number(b.map(usize::from))
}

fn told_slice(s: Result<Column, Refusal>) -> Run
    ensures { result ≡ slice_told s }
{
    match s {
        Ok(c) => Run {
            refused: 0,
            first: c.first,
            rows: c.rows,
        },
        Err(r) => Run {
            refused: r.number() as u64,
            first: 0,
            rows: 0,
        },
    }
}

// The length of a row's value.
pub fn tambuyeel_length(
    views: &[u8],
    bytes: &[u8],
    starts: &[usize],
    lens: &[usize],
    nulls: &[u8],
    column: &[usize; 5],
    row: usize,
) -> Counted
    ensures { result ≡ number_told (spec.length_at (lent views.now bytes.now starts.now lens.now nulls.now)
        (column_from column.now) row) }
{
    told_number(reading::length(
        Buffers {
            views,
            bytes,
            starts,
            lens,
            nulls,
        },
        numbers::column_of(column),
        row,
    ))
}

// 1 where a row is valid, 0 where it is null.
pub fn tambuyeel_null_bit(
    views: &[u8],
    bytes: &[u8],
    starts: &[usize],
    lens: &[usize],
    nulls: &[u8],
    column: &[usize; 5],
    row: usize,
) -> Counted
    ensures { result ≡ bit_told (spec.bit_of (lent views.now bytes.now starts.now lens.now nulls.now)
        (column_from column.now) row) }
{
    told_bit(reading::null_bit(
        Buffers {
            views,
            bytes,
            starts,
            lens,
            nulls,
        },
        numbers::column_of(column),
        row,
    ))
}

// How many of the rows from `start` on, `count` of them, are null.
pub fn tambuyeel_null_run(
    views: &[u8],
    bytes: &[u8],
    starts: &[usize],
    lens: &[usize],
    nulls: &[u8],
    column: &[usize; 5],
    start: usize,
    count: usize,
) -> Counted
    ensures { result ≡ number_told (spec.null_run (lent views.now bytes.now starts.now lens.now nulls.now)
        (column_from column.now) start count) }
{
    told_number(reading::null_run(
        Buffers {
            views,
            bytes,
            starts,
            lens,
            nulls,
        },
        numbers::column_of(column),
        start,
        count,
    ))
}

// The rows from `start` on, `count` of them: the first row and the rows of a column that is otherwise the same.
pub fn tambuyeel_slice(
    views: &[u8],
    bytes: &[u8],
    starts: &[usize],
    lens: &[usize],
    nulls: &[u8],
    column: &[usize; 5],
    start: usize,
    count: usize,
) -> Run
    ensures { result ≡ slice_told (spec.slice (lent views.now bytes.now starts.now lens.now nulls.now)
        (column_from column.now) start count) }
{
    told_slice(reading::slice(
        Buffers {
            views,
            bytes,
            starts,
            lens,
            nulls,
        },
        numbers::column_of(column),
        start,
        count,
    ))
}

// The lengths of the rows that aren't null, short and long.
pub fn tambuyeel_total_bytes_len(
    views: &[u8],
    bytes: &[u8],
    starts: &[usize],
    lens: &[usize],
    nulls: &[u8],
    column: &[usize; 5],
) -> Counted
    ensures { result ≡ number_told (spec.total_bytes_len (lent views.now bytes.now starts.now lens.now nulls.now)
        (column_from column.now)) }
{
    told_number(reading::total_bytes_len(
        Buffers {
            views,
            bytes,
            starts,
            lens,
            nulls,
        },
        numbers::column_of(column),
    ))
}

// The lengths of the long rows, null ones too.
pub fn tambuyeel_total_buffer_bytes_used(
    views: &[u8],
    bytes: &[u8],
    starts: &[usize],
    lens: &[usize],
    nulls: &[u8],
    column: &[usize; 5],
) -> Counted
    ensures { result ≡ number_told (spec.total_buffer_bytes_used (lent views.now bytes.now starts.now lens.now nulls.now)
        (column_from column.now)) }
{
    told_number(reading::total_buffer_bytes_used(
        Buffers {
            views,
            bytes,
            starts,
            lens,
            nulls,
        },
        numbers::column_of(column),
    ))
}

// Which bytes of which buffer the first n bytes of a row's value are; none where it has fewer.
pub fn tambuyeel_prefix(
    views: &[u8],
    bytes: &[u8],
    starts: &[usize],
    lens: &[usize],
    nulls: &[u8],
    column: &[usize; 5],
    row: usize,
    n: usize,
) -> Place
    ensures { result ≡ prefix_place n (place_at (lent views.now bytes.now starts.now lens.now nulls.now)
        (column_from column.now) row) }
{
    let p = crate::tambuyeel_value(views, bytes, starts, lens, nulls, column, row);
    let len = if p.len < n { 0 } else { n };
    Place { len, ..p }
}

// Which bytes of which buffer the last n bytes of a row's value are; none where it has fewer.
pub fn tambuyeel_suffix(
    views: &[u8],
    bytes: &[u8],
    starts: &[usize],
    lens: &[usize],
    nulls: &[u8],
    column: &[usize; 5],
    row: usize,
    n: usize,
) -> Place
    ensures { result ≡ suffix_place n (place_at (lent views.now bytes.now starts.now lens.now nulls.now)
        (column_from column.now) row) }
{
    let p = crate::tambuyeel_value(views, bytes, starts, lens, nulls, column, row);
    if p.len < n {
        return Place { len: 0, ..p };
    }
    Place {
        offset: p.offset + (p.len - n),
        len: n,
        ..p
    }
}
