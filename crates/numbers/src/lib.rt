// Columns, verdicts and places as the numbers that C and Rust see: what the exported calls share.
#![tactic(auto)]

ghost use Rattle.std.specs.Prelude.{◌≡◌};
ghost use Rattle.bounds.specs.Refusals.{if_accepted};
ghost use Rattle.numbers.specs.Numbers.{kind_from, column_from, kind_number, flag, column_numbers, why_told, place_of};

use bounds::Refusal;
use column::{Column, Kind, Spot};

// A verdict: 0 or the refusal's number, and the row that refusal 11 names.
#[repr(C)]
#[derive(Clone, Copy)]
pub struct Told {
    pub number: u64,
    pub row: usize,
}

// A number: 0 or the refusal's number, and what was asked for.
#[repr(C)]
#[derive(Clone, Copy)]
pub struct Counted {
    pub refused: u64,
    pub number: usize,
}

// A part of a buffer: 0 or the refusal's number, which buffer (0 the views, 1 the data), from where, how many bytes.
#[repr(C)]
#[derive(Clone, Copy)]
pub struct Place {
    pub refused: u64,
    pub buffer: u64,
    pub offset: usize,
    pub len: usize,
}

// No From impl: `Kind` is another crate's type, and any number names a kind.
pub fn kind_of(k: usize) -> Kind
    ensures { result ≡ kind_from k }
{
    match k {
        0 => Kind::Binary,
        _ => Kind::Text,
    }
}

// A column by its five numbers.
pub fn column_of(l: &[usize; 5]) -> Column
    ensures { result ≡ column_from l.now }
{
    let [first, rows, blocks, kind, mapped] = *l;
    Column {
        first,
        rows,
        blocks,
        kind: kind_of(kind),
        mapped: mapped != 0,
    }
}

pub fn kind_number(k: Kind) -> usize
    ensures { result ≡ kind_number k }
{
    match k {
        Kind::Binary => 0,
        Kind::Text => 1,
    }
}

pub fn flag_number(b: bool) -> usize
    ensures { result ≡ flag b }
{
    usize::from(b)
}

pub fn column_numbers(c: Column) -> [usize; 5]
    ensures { result ≡ column_numbers c }
{
    [
        c.first,
        c.rows,
        c.blocks,
        kind_number(c.kind),
        flag_number(c.mapped),
    ]
}

// The column's numbers after a finish: as they came where it is refused.
pub fn hand(w: Result<(), Refusal>, c: Column, column: &mut [usize; 5])
    ensures { column.new ≡ if_accepted w (column_numbers c) column.old }
{
    if w.is_ok() {
        *column = column_numbers(c);
    }
}

pub fn told_why(w: Result<(), Refusal>) -> Told
    ensures { result ≡ why_told w }
{
    match w {
        Ok(()) => Told { number: 0, row: 0 },
        Err(r) => Told {
            number: r.number() as u64,
            row: r.row(),
        },
    }
}

pub fn place_of(s: Spot) -> Place
    ensures { result ≡ place_of s }
{
    match s {
        Spot::View(a, n) => Place {
            refused: 0,
            buffer: 0,
            offset: a,
            len: n,
        },
        Spot::Data(a, n) => Place {
            refused: 0,
            buffer: 1,
            offset: a,
            len: n,
        },
        Spot::NoBlock | Spot::Outside => Place {
            refused: 0,
            buffer: 0,
            offset: 0,
            len: 0,
        },
    }
}
