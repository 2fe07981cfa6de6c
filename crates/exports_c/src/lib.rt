// The calls of `exports` for C and Rust, each under its own name. include/tambuyeel.h says the same for C.
#![tactic(auto)]

ghost use Rattle.std.specs.Prelude.{◌≡◌};
ghost use Rattle.bounds.specs.Refusals.{why_number};
ghost use Rattle.column.specs.Lent.{lent};
ghost use Rattle.reading.specs.Reading as spec;
ghost use Rattle.reading.specs.Reading.{why_value};
ghost use Rattle.validity.specs.Check.{why_invalid};
ghost use Rattle.comparison.specs.Compare.{compare_rows};
ghost use Rattle.comparison.specs.Same.{same_column};
ghost use Rattle.numbers.specs.Numbers.{column_from, why_told};
ghost use Rattle.exports.specs.Exported.{compared_number, same_told, place_at};
ghost use Rattle.exports.specs.Parts.{number_told, bit_told, slice_told, prefix_place, suffix_place};

use exports::Run;
use numbers::{Counted, Place, Told};

// 0 where the row's value can be read, else the refusal's number.
#[unsafe(no_mangle)]
pub extern "C" fn tambuyeel_why_value(
    views: &[u8],
    bytes: &[u8],
    starts: &[usize],
    lens: &[usize],
    nulls: &[u8],
    column: &[usize; 5],
    row: usize,
) -> u8
    ensures { result ≡ why_number (why_value (lent views.now bytes.now starts.now lens.now nulls.now)
        (column_from column.now) row) }
{
    exports::tambuyeel_why_value(views, bytes, starts, lens, nulls, column, row)
}

// 0 where the column is valid, else the refusal's number, with the row that it names.
#[unsafe(no_mangle)]
pub extern "C" fn tambuyeel_check<'a>(
    views: &'a [u8],
    bytes: &'a [u8],
    starts: &[usize],
    lens: &[usize],
    nulls: &[u8],
    column: &[usize; 5],
) -> Told
    ensures { result ≡ why_told (why_invalid (lent views.now bytes.now starts.now lens.now nulls.now)
        (column_from column.now)) }
{
    exports::tambuyeel_check(views, bytes, starts, lens, nulls, column)
}

// Row i of one column against row j of another: 0 below, 1 equal, 2 above; refused, the number and 16 on the left, 32 on the right.
#[unsafe(no_mangle)]
pub extern "C" fn tambuyeel_compare<'a>(
    views: &'a [u8],
    bytes: &'a [u8],
    starts: &[usize],
    lens: &[usize],
    nulls: &[u8],
    column: &[usize; 5],
    i: usize,
    views2: &'a [u8],
    bytes2: &'a [u8],
    starts2: &[usize],
    lens2: &[usize],
    nulls2: &[u8],
    column2: &[usize; 5],
    j: usize,
) -> u64
    ensures { result ≡ compared_number (compare_rows (lent views.now bytes.now starts.now lens.now nulls.now)
        (column_from column.now) i (lent views2.now bytes2.now starts2.now lens2.now nulls2.now)
        (column_from column2.now) j) }
{
    exports::tambuyeel_compare(
        views, bytes, starts, lens, nulls, column, i, views2, bytes2, starts2, lens2, nulls2,
        column2, j,
    )
}

// 1 where two columns are the same, 0 where they aren't; refused, the number and 16 on the left, 32 on the right, with the row that it names.
#[unsafe(no_mangle)]
pub extern "C" fn tambuyeel_same_column<'a>(
    views: &'a [u8],
    bytes: &'a [u8],
    starts: &[usize],
    lens: &[usize],
    nulls: &[u8],
    column: &[usize; 5],
    views2: &'a [u8],
    bytes2: &'a [u8],
    starts2: &[usize],
    lens2: &[usize],
    nulls2: &[u8],
    column2: &[usize; 5],
) -> Told
    ensures { result ≡ same_told (same_column (lent views.now bytes.now starts.now lens.now nulls.now)
        (column_from column.now) (lent views2.now bytes2.now starts2.now lens2.now nulls2.now)
        (column_from column2.now)) }
{
    exports::tambuyeel_same_column(
        views, bytes, starts, lens, nulls, column, views2, bytes2, starts2, lens2, nulls2, column2,
    )
}

// Which bytes of which buffer a row's value is.
#[unsafe(no_mangle)]
pub extern "C" fn tambuyeel_value(
    views: &[u8],
    bytes: &[u8],
    starts: &[usize],
    lens: &[usize],
    nulls: &[u8],
    column: &[usize; 5],
    row: usize,
) -> Place
    ensures { result ≡ place_at (lent views.now bytes.now starts.now lens.now nulls.now) (column_from column.now) row }
{
    exports::tambuyeel_value(views, bytes, starts, lens, nulls, column, row)
}

// The length of a row's value.
#[unsafe(no_mangle)]
pub extern "C" fn tambuyeel_length(
    views: &[u8],
    bytes: &[u8],
    starts: &[usize],
    lens: &[usize],
    nulls: &[u8],
    column: &[usize; 5],
    row: usize,
) -> Counted
    ensures { result ≡ number_told (spec.length_at (lent views.now bytes.now starts.now lens.now nulls.now)
        (column_from column.now) row) }
{
    exports::parts::tambuyeel_length(views, bytes, starts, lens, nulls, column, row)
}

// 1 where a row is valid, 0 where it is null.
#[unsafe(no_mangle)]
pub extern "C" fn tambuyeel_null_bit(
    views: &[u8],
    bytes: &[u8],
    starts: &[usize],
    lens: &[usize],
    nulls: &[u8],
    column: &[usize; 5],
    row: usize,
) -> Counted
    ensures { result ≡ bit_told (spec.bit_of (lent views.now bytes.now starts.now lens.now nulls.now)
        (column_from column.now) row) }
{
    exports::parts::tambuyeel_null_bit(views, bytes, starts, lens, nulls, column, row)
}

// How many of the rows from `start` on, `count` of them, are null.
#[unsafe(no_mangle)]
pub extern "C" fn tambuyeel_null_run(
    views: &[u8],
    bytes: &[u8],
    starts: &[usize],
    lens: &[usize],
    nulls: &[u8],
    column: &[usize; 5],
    start: usize,
    count: usize,
) -> Counted
    ensures { result ≡ number_told (spec.null_run (lent views.now bytes.now starts.now lens.now nulls.now)
        (column_from column.now) start count) }
{
    exports::parts::tambuyeel_null_run(views, bytes, starts, lens, nulls, column, start, count)
}

// The rows from `start` on, `count` of them: the first row and the rows of a column that is otherwise the same.
#[unsafe(no_mangle)]
pub extern "C" fn tambuyeel_slice(
    views: &[u8],
    bytes: &[u8],
    starts: &[usize],
    lens: &[usize],
    nulls: &[u8],
    column: &[usize; 5],
    start: usize,
    count: usize,
) -> Run
    ensures { result ≡ slice_told (spec.slice (lent views.now bytes.now starts.now lens.now nulls.now)
        (column_from column.now) start count) }
{
    exports::parts::tambuyeel_slice(views, bytes, starts, lens, nulls, column, start, count)
}

// The lengths of the rows that aren't null, short and long.
#[unsafe(no_mangle)]
pub extern "C" fn tambuyeel_total_bytes_len(
    views: &[u8],
    bytes: &[u8],
    starts: &[usize],
    lens: &[usize],
    nulls: &[u8],
    column: &[usize; 5],
) -> Counted
    ensures { result ≡ number_told (spec.total_bytes_len (lent views.now bytes.now starts.now lens.now nulls.now)
        (column_from column.now)) }
{
    exports::parts::tambuyeel_total_bytes_len(views, bytes, starts, lens, nulls, column)
}

// The lengths of the long rows, null ones too.
#[unsafe(no_mangle)]
pub extern "C" fn tambuyeel_total_buffer_bytes_used(
    views: &[u8],
    bytes: &[u8],
    starts: &[usize],
    lens: &[usize],
    nulls: &[u8],
    column: &[usize; 5],
) -> Counted
    ensures { result ≡ number_told (spec.total_buffer_bytes_used (lent views.now bytes.now starts.now lens.now nulls.now)
        (column_from column.now)) }
{
    exports::parts::tambuyeel_total_buffer_bytes_used(views, bytes, starts, lens, nulls, column)
}

// Which bytes of which buffer the first n bytes of a row's value are; none where it has fewer.
#[unsafe(no_mangle)]
pub extern "C" fn tambuyeel_prefix(
    views: &[u8],
    bytes: &[u8],
    starts: &[usize],
    lens: &[usize],
    nulls: &[u8],
    column: &[usize; 5],
    row: usize,
    n: usize,
) -> Place
    ensures { result ≡ prefix_place n (place_at (lent views.now bytes.now starts.now lens.now nulls.now)
        (column_from column.now) row) }
{
    exports::parts::tambuyeel_prefix(views, bytes, starts, lens, nulls, column, row, n)
}

// Which bytes of which buffer the last n bytes of a row's value are; none where it has fewer.
#[unsafe(no_mangle)]
pub extern "C" fn tambuyeel_suffix(
    views: &[u8],
    bytes: &[u8],
    starts: &[usize],
    lens: &[usize],
    nulls: &[u8],
    column: &[usize; 5],
    row: usize,
    n: usize,
) -> Place
    ensures { result ≡ suffix_place n (place_at (lent views.now bytes.now starts.now lens.now nulls.now)
        (column_from column.now) row) }
{
    exports::parts::tambuyeel_suffix(views, bytes, starts, lens, nulls, column, row, n)
}
