// The program's input: its lines, the first bad one, and the column that they make.
#![tactic(auto)]

ghost use Rattle.std.specs.Prelude.{◌≡◌, ◌+◌, ◌≤◌, ◌<◌};
ghost use Rattle.std.specs.Iterator.{YieldsFirstRef, item_count as items_left};
ghost use Rattle.column.specs.Lent.{lent};
ghost use Rattle.builder.specs.State.{held};
ghost use Rattle.shelf.specs.Lines.{lines, first_bad_line};
ghost use Rattle.shelf.specs.Lines as spec;
ghost use Rattle.shelf.specs.Items.{item_count, item_at, part_end};
ghost use Rattle.shelf.specs.Adding.{added, added_all, built, shelf_lent, shelf_column};

use builder::{Merging, Settings, Sizes, State};
use column::{Column, Kind};

// What a line says: a value, a null row, or neither.
#[derive(Clone, Copy)]
pub enum Line {
    Code,
    Null,
    Bad,
}

fn says(line: &[u8]) -> Line
    ensures { result ≡ spec.says line.now }
{
    if line.starts_with(b"code=") {
        Line::Code
    } else if line == b"null=".as_slice() {
        Line::Null
    } else {
        Line::Bad
    }
}

fn bad(line: Line) -> bool
    ensures { result ≡ spec.is_bad_line line }
{
    matches!(line, Line::Bad)
}

// The lines of a text from where the next one starts, each without its line feed; the last line feed may be missing.
#[derive(Drop)]
struct Lines<'a> {
    rest: &'a [u8],
}

impl<'a> Iterator for Lines<'a> {
    type Item = &'a [u8];

    ghost next_gives = { YieldsFirstRef (λ s. lines s.rest.now) };

    ghost remaining = { items_left (λ s. lines s.rest.now) };

    fn next(&mut self) -> Option<&'a [u8]> {
        let rest = self.rest;
        if rest.is_empty() {
            return None;
        }
        let end = rest.iter().position(|b| *b == b'\n').unwrap_or(rest.len());
        self.rest = rest.get(end + 1..).unwrap_or(&[]);
        Some(&rest[..end])
    }
}

// The number of the first bad line, from 1; 0 where there is none. No Option: `first_bad_line` has that 0, and whole's `answered-bad` speaks of it.
pub fn first_bad(s: &[u8]) -> usize
    ensures { result ≡ first_bad_line 0 (lines s.now) }
{
    match (Lines { rest: s }).position(|line| bad(says(line))) {
        Some(k) => k + 1,
        None => 0,
    }
}

// The row of a line. The verdict is dropped: the crate `answering` proves that none is refused where the input is accepted.
fn turn(
    s: State,
    views: &mut [u8],
    bytes: &mut [u8],
    starts: &mut [usize],
    lens: &mut [usize],
    nulls: &mut [u8],
    places: &mut [u32],
    line: &[u8],
) -> State
    ensures { held result views.new bytes.new starts.new lens.new nulls.new places.new
        ≡ added line.now (held s views.old bytes.old starts.old lens.old nulls.old
        places.old) }
{
    match says(line) {
        Line::Code => {
            let x = line.get(5..).unwrap_or(&[]);
            values::append_value(s, views, bytes, starts, lens, nulls, places, x).state
        }
        Line::Null => values::append_null(s, views, bytes, starts, lens, nulls, places).state,
        Line::Bad => s,
    }
}

// The rows of all lines.
fn add_lines(
    before: State,
    views: &mut [u8],
    bytes: &mut [u8],
    starts: &mut [usize],
    lens: &mut [usize],
    nulls: &mut [u8],
    places: &mut [u32],
    input: &[u8],
) -> State
    ensures { held result views.new bytes.new starts.new lens.new nulls.new places.new
        ≡ added_all (lines input.now) (held before views.old bytes.old starts.old lens.old
        nulls.old places.old) }
{
    let mut s = before;
    for line in (Lines { rest: input }) {
        s = turn(s, views, bytes, starts, lens, nulls, places, line);
    }
    s
}

// The column of all lines, in lent buffers.
pub fn build(
    views: &mut [u8],
    bytes: &mut [u8],
    starts: &mut [usize],
    lens: &mut [usize],
    nulls: &mut [u8],
    places: &mut [u32],
    input: &[u8],
) -> Column
    ensures { (result ≡ shelf_column (built input.now views.old bytes.old starts.old lens.old
        nulls.old places.old))
        × (lent views.new bytes.new starts.new lens.new nulls.new
        ≡ shelf_lent (built input.now views.old bytes.old starts.old lens.old
        nulls.old places.old)) }
{
    let begun = finishing::start(
        Settings {
            kind: Kind::Binary,
            sizes: Sizes::Doubled,
            merging: Merging::Off,
        },
        places,
    );
    let s = add_lines(
        begun.state,
        views,
        bytes,
        starts,
        lens,
        nulls,
        places,
        input,
    );
    finishing::finish(s, views, bytes, starts, lens, nulls, places).column
}

// What stands on a line of a listing: a row, or how many rows aren't shown.
#[derive(Clone, Copy)]
pub enum Item {
    Row(usize),
    Gap(usize),
}

// How many lines list so many rows.
pub fn items(rows: usize) -> usize
    ensures { result ≡ item_count rows }
{
    rows.min(21)
}

// Line k of them: above twenty rows the first ten, the gap, the last ten.
pub fn nth_item(rows: usize, k: usize) -> Item
    requires { k < item_count rows }
    ensures { result ≡ item_at rows k }
{
    if rows <= 20 || k < 10 {
        Item::Row(k)
    } else if k == 10 {
        Item::Gap(rows - 20)
    } else {
        Item::Row(rows - 21 + k)
    }
}

// Where the part of a value that begins at `at` ends: 800 bytes on, or at the value's end.
pub fn part_end(n: usize, at: usize) -> usize
    requires { at < n }
    ensures value { result ≡ part_end n at }
    ensures lower_bound { (at < result) × (result ≤ n) × (result ≤ at + 800) }
{
    at + (n - at).min(800)
}
