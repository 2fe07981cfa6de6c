// The marks of element codes for C and Rust: a row's mark, and how many rows have each, by numbers and lent slices. include/tambuyeel.h says the same for C.
#![tactic(auto)]

ghost use Rattle.std.specs.Prelude.{◌≡◌};
ghost use Rattle.column.specs.Lent.{lent};
ghost use Rattle.marks.specs.Marking.{mark_at, marks_of};
ghost use Rattle.numbers.specs.Numbers.{column_from};
ghost use Rattle.mark_exports.specs.MarksTold.{mark_told, marks_told};

use bounds::Refusal;
use codes::Mark;
use column::Buffers;
use marks::Tally;
use numbers::Counted;

// How many rows have each mark: 0 or the refusal's number, the row that refusal 11 names, the nulls, the rows that are no codes, the codes, the dates.
#[repr(C)]
#[derive(Clone, Copy)]
pub struct Marks {
    pub refused: u64,
    pub row: usize,
    pub nulls: usize,
    pub others: usize,
    pub codes: usize,
    pub dates: usize,
}

fn told_mark(m: Result<Mark, Refusal>) -> Counted
    ensures { result ≡ mark_told m }
{
    match m {
        Ok(x) => Counted {
            refused: 0,
            number: codes::number_of(x),
        },
        Err(r) => Counted {
            refused: r.number() as u64,
            number: 0,
        },
    }
}

fn told_marks(t: Result<Tally, Refusal>) -> Marks
    ensures { result ≡ marks_told t }
{
    match t {
        Ok(n) => Marks {
            refused: 0,
            row: 0,
            nulls: n.nulls,
            others: n.others,
            codes: n.codes,
            dates: n.dates,
        },
        Err(r) => Marks {
            refused: r.number() as u64,
            row: r.row(),
            nulls: 0,
            others: 0,
            codes: 0,
            dates: 0,
        },
    }
}

// A row's mark: 0 a null, 1 no code, 2 a code, 3 a code that a spreadsheet would take for a date.
#[unsafe(no_mangle)]
pub extern "C" fn tambuyeel_mark<'a>(
    views: &'a [u8],
    bytes: &'a [u8],
    starts: &[usize],
    lens: &[usize],
    nulls: &[u8],
    column: &[usize; 5],
    row: usize,
) -> Counted
    ensures { result ≡ mark_told (mark_at (lent views.now bytes.now starts.now lens.now nulls.now)
        (column_from column.now) row) }
{
    told_mark(marks::mark_at(
        Buffers {
            views,
            bytes,
            starts,
            lens,
            nulls,
        },
        numbers::column_of(column),
        row,
    ))
}

// How many rows have each mark.
#[unsafe(no_mangle)]
pub extern "C" fn tambuyeel_count_marks<'a>(
    views: &'a [u8],
    bytes: &'a [u8],
    starts: &[usize],
    lens: &[usize],
    nulls: &[u8],
    column: &[usize; 5],
) -> Marks
    ensures { result ≡ marks_told (marks_of (lent views.now bytes.now starts.now lens.now nulls.now)
        (column_from column.now)) }
{
    told_marks(marks::count_marks(
        Buffers {
            views,
            bytes,
            starts,
            lens,
            nulls,
        },
        numbers::column_of(column),
    ))
}
