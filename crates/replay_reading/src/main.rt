// Replays data/reading.bin, the fixed list of answers about columns that oracle/README.md lays out: groups of two columns and questions about them.
// A question about a part is asked twice, the second time with every byte of the part changed where the list says that it lies: so the part lies there.
// Value, check, comparison and the walk are also asked over a table of records, and a column that is valid is walked there from its first row to its end.
// Writes how many groups and questions there were, how many were also asked over records, how many columns were walked, how many questions were answered
// otherwise, the first of those, and whether the list ended inside a group.
#![tactic(auto)]

mod question;
mod said;

use column::{Buffers, Column};
use lists::{Buffered, Few, Room, Score, Stop};
use question::{Call, Question};
use reading::Cursor;
use said::Said;
use std::io::Read;
use std::{fs, io};

// What a call says that answers a part of the left column's views or data, and the part; none for the other calls.
fn ask_part<'a>(l: Buffers<'a, '_>, c: Column, q: &Question) -> Option<(Said, &'a [u8])> {
    let (why, number, part) = match q.call {
        Call::Value => (reading::why_value(l, c, q.a), 0, reading::value(l, c, q.a)),
        Call::Prefix => (
            reading::why_value(l, c, q.a),
            0,
            reading::prefix(l, c, q.a, q.b),
        ),
        Call::Suffix => (
            reading::why_value(l, c, q.a),
            0,
            reading::suffix(l, c, q.a, q.b),
        ),
        Call::Walk => {
            let cursor = Cursor { at: q.a };
            let step = reading::walk_step(l, c, cursor);
            (step.why, step.next.at, reading::walk_value(l, c, cursor))
        }
        _ => return None,
    };
    let said = Said {
        number,
        size: part.len(),
        ..said::told(why)
    };
    Some((said, part))
}

// What a call says that answers a number of the left column.
fn ask_number(l: Buffers<'_, '_>, c: Column, q: &Question) -> Said {
    match q.call {
        Call::Length => said::told(reading::length(l, c, q.a)),
        Call::NullBit => said::told(reading::null_bit(l, c, q.a)),
        Call::NullRun => said::told(reading::null_run(l, c, q.a, q.b)),
        Call::Slice => said::told(reading::slice(l, c, q.a, q.b)),
        Call::TotalBytesLen => said::told(reading::total_bytes_len(l, c)),
        Call::TotalBufferBytesUsed => said::told(reading::total_buffer_bytes_used(l, c)),
        _ => said::told(validity::check(l, c)),
    }
}

// Over a table of records a valid column is walked from its first row to its end.
fn is_walked(l: Buffers<'_, '_>, c: Column) -> bool {
    for k in 0..c.rows {
        let g = through_walks::walk_at(l, c, k, reading::value(l, c, k));
        if g.why.is_err() || !g.same || g.at != k + 1 {
            return false;
        }
    }
    let end = through_walks::walk_at(l, c, c.rows, &[]);
    end.why.is_err() && end.at == c.rows
}

// A question about one column over a table of records: right or not; yes where there is no such call.
fn is_right_over_records(l: Buffers<'_, '_>, c: Column, q: &Question) -> bool {
    let want = q.part.of(l).unwrap_or(&[]);
    match q.call {
        Call::Value => {
            let said = Said {
                size: want.len(),
                ..said::told(through_records::why_value(l, c, q.a))
            };
            said == q.said && through_records::value_is(l, c, q.a, want)
        }
        Call::Check => {
            said::told(through_records::check(l, c)) == q.said
                && (!q.finds_valid() || is_walked(l, c))
        }
        Call::Walk => {
            let g = through_walks::walk_at(l, c, q.a, want);
            let said = Said {
                number: g.at,
                size: want.len(),
                ..said::told(g.why)
            };
            said == q.said && g.same
        }
        _ => true,
    }
}

// A question about one column: right or not.
fn is_right_of_one(l: Buffers<'_, '_>, c: Column, q: &Question) -> bool {
    if !is_right_over_records(l, c, q) {
        return false;
    }
    match ask_part(l, c, q) {
        Some((said, part)) => said == q.said && q.part.of(l) == Some(part),
        None => ask_number(l, c, q) == q.said,
    }
}

// The same with every byte of the part that the list names changed where it lies; yes where it names none.
fn is_right_changed(l: Buffers<'_, '_>, c: Column, q: &Question) -> bool {
    let mut views = Few::<u8, 1024>::copy(l.views);
    let mut bytes = Few::<u8, 1024>::copy(l.bytes);
    q.part.change(views.lend(), bytes.lend());
    let l = Buffers {
        views: views.lent(),
        bytes: bytes.lent(),
        starts: l.starts,
        lens: l.lens,
        nulls: l.nulls,
    };
    is_right_of_one(l, c, q)
}

// One question about the two columns: right or not.
fn is_right(l: Buffers<'_, '_>, c: Column, m: Buffers<'_, '_>, d: Column, q: &Question) -> bool {
    let of_two = q.said_of_two(column::fits(l, c), c.rows);
    match q.call {
        Call::Compare => {
            said::told(comparison::compare(l, c, q.a, m, d, q.b)) == of_two
                && said::told(through_records::compare(l, c, q.a, m, d, q.b)) == of_two
        }
        Call::SameColumn => said::told(comparison::same_column(l, c, m, d)) == of_two,
        Call::Value | Call::Prefix | Call::Suffix | Call::Walk => {
            is_right_of_one(l, c, q) && is_right_changed(l, c, q)
        }
        _ => is_right_of_one(l, c, q),
    }
}

#[derive(Clone, Copy, Default)]
struct Tally {
    groups: u64,
    records: u64,
    walks: u64,
    questions: Score,
}

impl Tally {
    fn count(&mut self, q: &Question, right: bool) {
        self.questions.count(right);
        if q.is_over_records() {
            self.records = lists::more(self.records);
        }
        if q.finds_valid() {
            self.walks = lists::more(self.walks);
        }
    }
}

// The next group: a head of two columns and the lengths of their buffers, the buffers, and n questions.
fn group<R: Read>(from: &mut R, t: &mut Tally) -> Result<(), Stop> {
    let [_, n]: [usize; 2] = lists::head(from)?;
    let c = lists::column_of(lists::words(from)?);
    let left = lists::words(from)?;
    let d = lists::column_of(lists::words(from)?);
    let right = lists::words(from)?;
    t.groups = lists::more(t.groups);
    let left = Room::read(from, left)?;
    let right = Room::read(from, right)?;
    for _ in 0..n {
        let q = Question::read(from)?;
        t.count(&q, is_right(left.lent(), c, right.lent(), d, &q));
    }
    Ok(())
}

fn main(rt: HostRuntime) -> io::Result<()> {
    let Ok(file) = fs::open(&rt, "reading.bin") else {
        return println!(rt; "no reading.bin");
    };
    let mut t = Tally::default();
    let torn = lists::replay(&mut Buffered::new(file), &mut t, group)?;
    println!(rt; "groups={}", t.groups)?;
    println!(rt; "questions={}", t.questions.asked)?;
    println!(rt; "records={}", t.records)?;
    println!(rt; "walks={}", t.walks)?;
    println!(rt; "wrong={}", t.questions.wrong)?;
    println!(rt; "first={}", t.questions.first.unwrap_or(0))?;
    println!(rt; "torn={}", u64::from(torn))
}
