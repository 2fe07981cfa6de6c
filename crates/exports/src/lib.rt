// Columns for C and Rust: reading, the check, comparison and same column by numbers and lent slices. include/tambuyeel.h says the same for C.
#![tactic(auto)]

ghost use Rattle.std.specs.Prelude.{◌≡◌};
ghost use Rattle.bounds.specs.Refusals.{why_number};
ghost use Rattle.column.specs.Lent.{lent};
ghost use Rattle.reading.specs.Reading.{why_value};
ghost use Rattle.validity.specs.Check.{why_invalid};
ghost use Rattle.comparison.specs.Compare.{compare_rows};
ghost use Rattle.comparison.specs.Same.{same_column};
ghost use Rattle.numbers.specs.Numbers.{column_from, why_told};
ghost use Rattle.exports.specs.Exported.{order_number, compared_number, same_told, place_told, place_at};

use bounds::Refusal;
use column::{Buffers, Spot};
use comparison::Side;
use numbers::{Place, Told};
use std::cmp::Ordering;

pub mod parts;

// Rows of a column: the refusal's number or 0, the first row, how many.
#[repr(C)]
#[derive(Clone, Copy)]
pub struct Run {
    pub refused: u64,
    pub first: usize,
    pub rows: usize,
}

fn order_number(o: Ordering) -> u64
    ensures { result ≡ order_number o }
{
    match o {
        Ordering::Less => 0,
        Ordering::Equal => 1,
        Ordering::Greater => 2,
    }
}

pub fn compared_number(c: Result<Ordering, Side>) -> u64
    ensures { result ≡ compared_number c }
{
    match c {
        Ok(o) => order_number(o),
        Err(Side::Left(r)) => 16 + r.number() as u64,
        Err(Side::Right(r)) => 32 + r.number() as u64,
    }
}

fn told_same(s: Result<bool, Side>) -> Told
    ensures { result ≡ same_told s }
{
    match s {
        Ok(same) => Told {
            number: u64::from(same),
            row: 0,
        },
        Err(Side::Left(r)) => Told {
            number: 16 + r.number() as u64,
            row: r.row(),
        },
        Err(Side::Right(r)) => Told {
            number: 32 + r.number() as u64,
            row: r.row(),
        },
    }
}

// 0 where the row's value can be read, else the refusal's number.
pub fn tambuyeel_why_value(
    views: &[u8],
    bytes: &[u8],
    starts: &[usize],
    lens: &[usize],
    nulls: &[u8],
    column: &[usize; 5],
    row: usize,
) -> u8
    ensures { result ≡ why_number (why_value (lent views.now bytes.now starts.now lens.now nulls.now)
        (column_from column.now) row) }
{
    bounds::why_number(reading::why_value(
        Buffers {
            views,
            bytes,
            starts,
            lens,
            nulls,
        },
        numbers::column_of(column),
        row,
    ))
}

// 0 where the column is valid, else the refusal's number, with the row that it names.
pub fn tambuyeel_check<'a>(
    views: &'a [u8],
    bytes: &'a [u8],
    starts: &[usize],
    lens: &[usize],
    nulls: &[u8],
    column: &[usize; 5],
) -> Told
    ensures { result ≡ why_told (why_invalid (lent views.now bytes.now starts.now lens.now nulls.now)
        (column_from column.now)) }
{
    numbers::told_why(validity::check(
        Buffers {
            views,
            bytes,
            starts,
            lens,
            nulls,
        },
        numbers::column_of(column),
    ))
}

// Row i of one column against row j of another: 0 below, 1 equal, 2 above; refused, the number and 16 on the left, 32 on the right.
pub fn tambuyeel_compare<'a>(
    views: &'a [u8],
    bytes: &'a [u8],
    starts: &[usize],
    lens: &[usize],
    nulls: &[u8],
    column: &[usize; 5],
    i: usize,
    views2: &'a [u8],
    bytes2: &'a [u8],
    starts2: &[usize],
    lens2: &[usize],
    nulls2: &[u8],
    column2: &[usize; 5],
    j: usize,
) -> u64
    ensures { result ≡ compared_number (compare_rows (lent views.now bytes.now starts.now lens.now nulls.now)
        (column_from column.now) i (lent views2.now bytes2.now starts2.now lens2.now nulls2.now)
        (column_from column2.now) j) }
{
    let c = numbers::column_of(column);
    let d = numbers::column_of(column2);
    let l = Buffers {
        views,
        bytes,
        starts,
        lens,
        nulls,
    };
    let m = Buffers {
        views: views2,
        bytes: bytes2,
        starts: starts2,
        lens: lens2,
        nulls: nulls2,
    };
    compared_number(comparison::compare(l, c, i, m, d, j))
}

// 1 where two columns are the same, 0 where they aren't; refused, the number and 16 on the left, 32 on the right, with the row that it names.
pub fn tambuyeel_same_column<'a>(
    views: &'a [u8],
    bytes: &'a [u8],
    starts: &[usize],
    lens: &[usize],
    nulls: &[u8],
    column: &[usize; 5],
    views2: &'a [u8],
    bytes2: &'a [u8],
    starts2: &[usize],
    lens2: &[usize],
    nulls2: &[u8],
    column2: &[usize; 5],
) -> Told
    ensures { result ≡ same_told (same_column (lent views.now bytes.now starts.now lens.now nulls.now)
        (column_from column.now) (lent views2.now bytes2.now starts2.now lens2.now nulls2.now)
        (column_from column2.now)) }
{
    let c = numbers::column_of(column);
    let d = numbers::column_of(column2);
    let l = Buffers {
        views,
        bytes,
        starts,
        lens,
        nulls,
    };
    let m = Buffers {
        views: views2,
        bytes: bytes2,
        starts: starts2,
        lens: lens2,
        nulls: nulls2,
    };
    told_same(comparison::same_column(l, c, m, d))
}

pub fn told_place(l: Result<Spot, Refusal>) -> Place
    ensures { result ≡ place_told l }
{
    match l {
        Ok(s) => numbers::place_of(s),
        Err(r) => Place {
            refused: r.number() as u64,
            buffer: 0,
            offset: 0,
            len: 0,
        },
    }
}

// Which bytes of which buffer a row's value is.
pub fn tambuyeel_value(
    views: &[u8],
    bytes: &[u8],
    starts: &[usize],
    lens: &[usize],
    nulls: &[u8],
    column: &[usize; 5],
    row: usize,
) -> Place
    ensures { result ≡ place_at (lent views.now bytes.now starts.now lens.now nulls.now) (column_from column.now) row }
{
    told_place(reading::locate(
        Buffers {
            views,
            bytes,
            starts,
            lens,
            nulls,
        },
        numbers::column_of(column),
        row,
    ))
}
