// The program's answer, written piece by piece into a lent buffer: what is written and what is left are the whole, piece after piece.
#![tactic(auto)]

ghost use Rattle.std.specs.Prelude.{◌≡◌, ◌<◌};
ghost use Rattle.column.specs.Lent.{lent_of};
ghost use Rattle.shelf.specs.Items.{item_count, item_at};
ghost use Rattle.shelf.specs.declared.Item.TheVariants as item;
ghost use Rattle.listing.specs.Put.{HoldsText};
ghost use Rattle.whole.specs.Answer.{closing_of};
ghost use Rattle.whole.specs.Rest.{lines_from, parts_from, rest_of, item_value, WrotePiece};
ghost use Rattle.whole.specs.Rest as spec;

use column::{Buffers, Column};
use shelf::Item;

// Where the writing of an answer stands: before a refusal, before a listing, before its line k, in line k before byte `at` of its value, or at the end.
#[derive(Clone, Copy)]
pub enum Place {
    Refused(usize),
    Opening,
    Line(usize),
    Part(usize, usize),
    End,
}

// The place after a piece, and how many bytes the piece has.
#[derive(Clone, Copy)]
pub struct Piece {
    pub place: Place,
    pub written: usize,
}

// The bytes that a piece may take.
pub const ROOM: usize = 4000;

pub fn ended(p: Place) -> bool
    ensures { result ≡ spec.is_end p }
{
    matches!(p, Place::End)
}

fn closing_piece(l: Buffers<'_, '_>, c: Column, out: &mut [u8; ROOM]) -> usize
    ensures { HoldsText out.new result (closing_of (lent_of l.entry) c) }
{
    listing::put_closing(
        out,
        c.rows,
        reading::null_run(l, c, 0, c.rows).unwrap_or(0),
        reading::total_bytes_len(l, c).unwrap_or(0),
        reading::total_buffer_bytes_used(l, c).unwrap_or(0),
        c.blocks,
    )
}

// The start of row r on line k: its bracket, or all of a null row's line.
fn row_piece(l: Buffers<'_, '_>, c: Column, k: usize, row: usize, out: &mut [u8; ROOM]) -> Piece
    requires { (k < item_count c.rows) × (item.Row row ≡ item_at c.rows k) }
    ensures { WrotePiece (lent_of l.entry) c
        (lines_from (lent_of l.entry) c k) out.new result }
{
    if reading::null_bit(l, c, row).unwrap_or(false) {
        Piece {
            written: listing::put_row_open(out),
            place: Place::Part(k, 0),
        }
    } else {
        Piece {
            written: listing::put_row_null(out),
            place: Place::Line(k + 1),
        }
    }
}

// The start of line k, or the closing lines where the listing has no such line.
fn line_piece(l: Buffers<'_, '_>, c: Column, k: usize, out: &mut [u8; ROOM]) -> Piece
    ensures { WrotePiece (lent_of l.entry) c
        (lines_from (lent_of l.entry) c k) out.new result }
{
    if shelf::items(c.rows) <= k {
        return Piece {
            written: closing_piece(l, c, out),
            place: Place::End,
        };
    }
    match shelf::nth_item(c.rows, k) {
        Item::Row(r) => row_piece(l, c, k, r, out),
        Item::Gap(n) => Piece {
            written: listing::put_gap(out, n),
            place: Place::Line(k + 1),
        },
    }
}

fn item_value<'a>(l: Buffers<'a, '_>, c: Column, it: Item) -> &'a [u8]
    ensures { result.now ≡ item_value (lent_of l.entry) c it }
{
    match it {
        Item::Row(r) => reading::value(l, c, r),
        Item::Gap(n) => &l.views[0..0],
    }
}

// In line k, from byte `at` of its value on; nothing where the listing has no such line.
fn part_piece(l: Buffers<'_, '_>, c: Column, k: usize, at: usize, out: &mut [u8; ROOM]) -> Piece
    ensures { WrotePiece (lent_of l.entry) c
        (parts_from (lent_of l.entry) c k at)
        out.new result }
{
    if shelf::items(c.rows) <= k {
        return Piece {
            written: 0,
            place: Place::End,
        };
    }
    let x = item_value(l, c, shelf::nth_item(c.rows, k));
    if x.len() <= at {
        return Piece {
            written: listing::put_row_close(out),
            place: Place::Line(k + 1),
        };
    }
    let to = shelf::part_end(x.len(), at);
    Piece {
        written: listing::row_part(out, x, at, to),
        place: Place::Part(k, to),
    }
}

// The next piece of an answer, at the start of out, and the place after it.
pub fn next_piece(l: Buffers<'_, '_>, c: Column, p: Place, out: &mut [u8; ROOM]) -> Piece
    ensures { WrotePiece (lent_of l.entry) c
        (rest_of (lent_of l.entry) c p) out.new result }
{
    match p {
        Place::Refused(n) => Piece {
            written: listing::put_refused(out, n),
            place: Place::End,
        },
        Place::Opening => Piece {
            written: listing::put_opening(out),
            place: Place::Line(0),
        },
        Place::Line(k) => line_piece(l, c, k, out),
        Place::Part(k, at) => part_piece(l, c, k, at, out),
        Place::End => Piece {
            written: 0,
            place: Place::End,
        },
    }
}
