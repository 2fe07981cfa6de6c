// Replays data/texts.bin and data/columns.bin, the fixed lists of marks that bench/marks/cases.py lays out: texts with their marks, and columns with the mark
// of each row that is asked for and how many rows have each mark. Columns and rows are asked for twice, the second time over a table of records.
// Writes how many texts there were, how many of these are no codes, codes and dates, how many columns and rows were asked for, how many answers are others than
// the lists', the first of those, and whether a list ended inside a record.
#![tactic(auto)]

use bounds::Refusal;
use codes::Mark;
use column::{Buffers, Column};
use lists::{Buffered, Few, Room, Score, Stop};
use std::io::Read;
use std::{fs, io};

#[derive(Clone, Copy, Default)]
struct Tally {
    texts: u64,
    others: u64,
    codes: u64,
    dates: u64,
    columns: u64,
    rows: u64,
    answers: Score,
}

// The next text, of at most 64 bytes: a head of its length and its mark, then its bytes.
fn text<R: Read>(from: &mut R, t: &mut Tally) -> Result<(), Stop> {
    let [n, mark]: [usize; 2] = lists::head(from)?;
    let text = Few::<u8, 64>::read(from, n)?;
    t.answers
        .count(codes::number_of(codes::mark_of(text.lent())) == mark);
    if mark != 0 {
        t.texts = lists::more(t.texts);
    }
    match mark {
        1 => t.others = lists::more(t.others),
        2 => t.codes = lists::more(t.codes),
        3 => t.dates = lists::more(t.dates),
        _ => {}
    }
    Ok(())
}

// A row's mark in the list's words: the refusal, the row that it names, and the mark.
fn mark_words(mark: Result<Mark, Refusal>) -> [usize; 3] {
    match mark {
        Ok(m) => [0, 0, codes::number_of(m)],
        Err(r) => [usize::from(r.number()), r.row(), 0],
    }
}

// How many rows have each mark in the list's words: the refusal, the row that it names, and the counts.
fn tally_words(tally: Result<marks::Tally, Refusal>) -> [usize; 6] {
    match tally {
        Ok(n) => [0, 0, n.nulls, n.others, n.codes, n.dates],
        Err(r) => [usize::from(r.number()), r.row(), 0, 0, 0, 0],
    }
}

// A row's mark, over two number slices and over records: right or not.
fn is_row_right(l: Buffers<'_, '_>, c: Column, row: usize, want: [usize; 3]) -> bool {
    mark_words(marks::mark_at(l, c, row)) == want
        && mark_words(through_marks::mark_at(l, c, row)) == want
}

// How many rows have each mark, over two number slices and over records: right or not.
fn is_count_right(l: Buffers<'_, '_>, c: Column, want: [usize; 6]) -> bool {
    tally_words(marks::count_marks(l, c)) == want
        && tally_words(through_marks::count_marks(l, c)) == want
}

// The next column: its numbers, the lengths of its buffers, how many rows have each mark, and how many are asked for; then its buffers and the rows.
fn column<R: Read>(from: &mut R, t: &mut Tally) -> Result<(), Stop> {
    let c = lists::column_of(lists::head(from)?);
    let lengths = lists::words(from)?;
    let counts: [usize; 6] = lists::words(from)?;
    let [rows]: [usize; 1] = lists::words(from)?;
    let room = Room::read(from, lengths)?;
    t.answers.count(is_count_right(room.lent(), c, counts));
    t.columns = lists::more(t.columns);
    for _ in 0..rows {
        let [row, refusal, named, mark]: [usize; 4] = lists::words(from)?;
        t.answers
            .count(is_row_right(room.lent(), c, row, [refusal, named, mark]));
        t.rows = lists::more(t.rows);
    }
    Ok(())
}

fn main(rt: HostRuntime) -> io::Result<()> {
    let mut t = Tally::default();
    let Ok(texts) = fs::open(&rt, "texts.bin") else {
        return println!(rt; "no texts.bin");
    };
    let torn_text = lists::replay(&mut Buffered::new(texts), &mut t, text)?;
    let Ok(columns) = fs::open(&rt, "columns.bin") else {
        return println!(rt; "no columns.bin");
    };
    let torn_column = lists::replay(&mut Buffered::new(columns), &mut t, column)?;
    println!(rt; "texts={}", t.texts)?;
    println!(rt; "others={}", t.others)?;
    println!(rt; "codes={}", t.codes)?;
    println!(rt; "dates={}", t.dates)?;
    println!(rt; "columns={}", t.columns)?;
    println!(rt; "rows={}", t.rows)?;
    println!(rt; "wrong={}", t.answers.wrong)?;
    println!(rt; "first={}", t.answers.first.unwrap_or(0))?;
    println!(rt; "torn={}", u64::from(torn_text || torn_column))
}
