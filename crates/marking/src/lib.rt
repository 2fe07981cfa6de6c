// The answer of `shelfmarks`, written piece by piece into a lent buffer: what is written and what is left are the whole, piece after piece.
#![tactic(auto)]

ghost use Rattle.std.specs.Prelude.{◌≡◌};
ghost use Rattle.column.specs.Lent.{lent_of};
ghost use Rattle.listing.specs.Put.{HoldsText};
ghost use Rattle.marking.specs.Text.{mark_name, tally_lines};
ghost use Rattle.marking.specs.Left.{marks_from, bytes_from, marks_left, WroteMarks};

use codes::Mark;
use column::{Buffers, Column};
use marks::Tally;
use whole::{Piece, Place};

// The four counts.
fn put_tally(out: &mut [u8; whole::ROOM], t: Tally) -> usize
    ensures { HoldsText out.new result (tally_lines t) }
{
    let a = listing::put_line(out, 0, b"dates=", t.dates);
    let b = listing::put_line(out, a, b"codes=", t.codes);
    let c = listing::put_line(out, b, b"others=", t.others);
    listing::put_line(out, c, b"nulls=", t.nulls)
}

// The name of a mark.
fn put_name(out: &mut [u8; whole::ROOM], m: Mark) -> usize
    ensures { HoldsText out.new result (mark_name m) }
{
    match m {
        Mark::Null => listing::put_bytes(out, 0, b"null="),
        Mark::Other => listing::put_bytes(out, 0, b"other="),
        Mark::Code => listing::put_bytes(out, 0, b"code="),
        Mark::Date => listing::put_bytes(out, 0, b"date="),
    }
}

// The counts of a column that is refused.
const NO_TALLY: Tally = Tally {
    nulls: 0,
    others: 0,
    codes: 0,
    dates: 0,
};

// The name of row k's mark, or the four counts where the column has no such row.
fn line_piece(l: Buffers<'_, '_>, c: Column, k: usize, out: &mut [u8; whole::ROOM]) -> Piece
    ensures { WroteMarks (lent_of l.entry) c
        (marks_from (lent_of l.entry) c k) out.new result }
{
    if c.rows <= k {
        let t = marks::count_marks(l, c).unwrap_or(NO_TALLY);
        return Piece {
            written: put_tally(out, t),
            place: Place::End,
        };
    }
    let m = marks::mark_at(l, c, k).unwrap_or(Mark::Other);
    Piece {
        written: put_name(out, m),
        place: Place::Part(k, 0),
    }
}

// Of row k, its bytes from byte `at` on, or its line end; nothing where the column has no such row.
fn part_piece(
    l: Buffers<'_, '_>,
    c: Column,
    k: usize,
    at: usize,
    out: &mut [u8; whole::ROOM],
) -> Piece
    ensures { WroteMarks (lent_of l.entry) c
        (bytes_from (lent_of l.entry) c k at) out.new result }
{
    if c.rows <= k {
        return Piece {
            written: 0,
            place: Place::End,
        };
    }
    let x = reading::value(l, c, k);
    if x.len() <= at {
        return Piece {
            written: listing::put_bytes(out, 0, b"\n"),
            place: Place::Line(k + 1),
        };
    }
    let to = shelf::part_end(x.len(), at);
    Piece {
        written: listing::put_bytes(out, 0, &x[at..to]),
        place: Place::Part(k, to),
    }
}

// The next piece of an answer, at the start of out, and the place after it.
pub fn next_piece(l: Buffers<'_, '_>, c: Column, p: Place, out: &mut [u8; whole::ROOM]) -> Piece
    ensures { WroteMarks (lent_of l.entry) c
        (marks_left (lent_of l.entry) c p) out.new result }
{
    match p {
        Place::Refused(n) => Piece {
            written: listing::put_refused(out, n),
            place: Place::End,
        },
        Place::Opening => line_piece(l, c, 0, out),
        Place::Line(k) => line_piece(l, c, k, out),
        Place::Part(k, at) => part_piece(l, c, k, at, out),
        Place::End => Piece {
            written: 0,
            place: Place::End,
        },
    }
}
