// Replays data/compaction.bin and data/offsets.bin, the fixed lists of answers that oracle/README.md lays out: the refusal, the row that it names, the new
// column, and every byte of the output's buffers. Writes for each list how many records there were, how many were accepted, how many were answered
// otherwise, the first of those, and whether the list ended inside a record. Each is also asked for over tables of records.
#![tactic(auto)]

use bounds::Refusal;
use column::{Buffers, Column};
use lists::{Buffered, Few, Lent, Over, Room, Score, Stop};
use output_blocks::Layout;
use std::io::Read;
use std::rt::Files;
use std::{fs, io};

// Every byte of an output buffer before the call.
const BEFORE: u8 = 0xaa;

// What the list says of a record: the lengths of the output's buffers, five words, and the buffers after the call.
#[derive(Drop)]
struct Wanted {
    lengths: [usize; 4],
    words: [usize; 5],
    room: Room,
}

impl Wanted {
    fn read<R: Read>(from: &mut R, lengths: [usize; 4]) -> Result<Wanted, Stop> {
        let words = lists::words(from)?;
        let room = Room::read(from, lengths)?;
        Ok(Wanted {
            lengths,
            words,
            room,
        })
    }

    // Whether the verdict and, where it accepts, the column are the list's.
    fn is_said(&self, said: Result<Column, Refusal>) -> bool {
        let [refusal, row, rows, blocks, mapped] = self.words;
        match said {
            Ok(c) => {
                refusal == 0
                    && row == 0
                    && c.first == 0
                    && c.rows == rows
                    && c.blocks == blocks
                    && c.mapped == (mapped == 1)
            }
            Err(r) => usize::from(r.number()) == refusal && r.row() == row,
        }
    }

    // What a call over output buffers answers: whether it accepts, and whether it says and leaves in them, byte by byte, what the list has.
    fn of<F: FnOnce(&mut Room) -> Result<Column, Refusal>>(&self, call: F) -> Result<Answer, Stop>
        requires { F.IsAlwaysCallable call }
    {
        let mut room = Room::new(self.lengths, BEFORE)?;
        let said = call(&mut room);
        Ok(Answer {
            accepted: said.is_ok(),
            right: self.is_said(said) && lists::same(room.lent(), self.room.lent()),
        })
    }
}

#[derive(Clone, Copy)]
struct Answer {
    accepted: bool,
    right: bool,
}

#[derive(Clone, Copy, Default)]
struct Tally {
    records: Score,
    accepted: u64,
}

impl Tally {
    // A record, by what was answered by number slices and over records.
    fn count(&mut self, slices: Answer, records: Answer) {
        if slices.accepted {
            self.accepted = lists::more(self.accepted);
        }
        self.records.count(slices.right && records.right);
    }
}

// A column is written anew.
fn compact(
    over: Over,
    l: Buffers<'_, '_>,
    c: Column,
    most: usize,
    to: &mut Room,
) -> Result<Column, Refusal> {
    let Lent {
        views,
        bytes,
        starts,
        lens,
        nulls,
    } = to.lend();
    let done = match over {
        Over::Slices => compaction::compact(l, c, most, views, bytes, starts, lens, nulls),
        Over::Records => through_columns::compact(l, c, most, views, bytes, starts, lens, nulls),
    };
    done.why.map(|()| done.column)
}

// The next compaction: the maximum, the source's numbers and the lengths of its buffers and of the output's; then the source's buffers, and the answer.
fn compaction<R: Read>(from: &mut R, t: &mut Tally) -> Result<(), Stop> {
    let [_, most]: [usize; 2] = lists::head(from)?;
    let c = lists::column_of(lists::words(from)?);
    let lengths = lists::words(from)?;
    let made_lengths = lists::words(from)?;
    let room = Room::read(from, lengths)?;
    let want = Wanted::read(from, made_lengths)?;
    let l = room.lent();
    t.count(
        want.of(|to| compact(Over::Slices, l, c, most, to))?,
        want.of(|to| compact(Over::Records, l, c, most, to))?,
    );
    Ok(())
}

// An offset column: its offsets of 32 bits, its bytes, its map, and the layout of the new column.
#[derive(Clone, Copy)]
struct Source<'a> {
    offsets: &'a [u8],
    bytes: &'a [u8],
    map: &'a [u8],
    how: Layout,
}

fn convert(over: Over, s: Source<'_>, to: &mut Room) -> Result<Column, Refusal> {
    let Lent {
        views,
        bytes,
        starts,
        lens,
        nulls,
    } = to.lend();
    let done = match over {
        Over::Slices => offsets::from_offsets(
            s.offsets,
            s.bytes,
            s.map,
            s.how.mapped,
            s.how.kind,
            views,
            bytes,
            starts,
            lens,
            nulls,
        ),
        Over::Records => through_records::from_offsets(
            s.offsets, s.bytes, s.map, s.how, views, bytes, starts, lens, nulls,
        ),
    };
    done.why.map(|()| done.column)
}

// The next offset column: kind, how many offsets and bytes, the input map, and the lengths of the output's buffers; then the source, and the answer.
fn conversion<R: Read>(from: &mut R, t: &mut Tally) -> Result<(), Stop> {
    let [_, kind, count, size, mapped, map]: [usize; 6] = lists::head(from)?;
    let lengths = lists::words(from)?;
    if 256 < count {
        return Err(Stop::Torn);
    }
    let offsets = Few::<u8, 1024>::read(from, 4 * count)?;
    let bytes = Few::<u8, 1024>::read(from, size)?;
    let map = Few::<u8, 16>::read(from, map)?;
    let want = Wanted::read(from, lengths)?;
    let s = Source {
        offsets: offsets.lent(),
        bytes: bytes.lent(),
        map: map.lent(),
        how: Layout {
            mapped: mapped == 1,
            kind: lists::kind_of(kind),
        },
    };
    t.count(
        want.of(|to| convert(Over::Slices, s, to))?,
        want.of(|to| convert(Over::Records, s, to))?,
    );
    Ok(())
}

// Replays the list of that name; says so where there is none.
fn replay<P: Files + Print, F: Fn(&mut Buffered<P::File>, &mut Tally) -> Result<(), Stop>>(
    rt: &P,
    file: &str,
    turn: F,
) -> io::Result<()>
    requires { F.IsAlwaysCallable turn }
{
    let Ok(from) = fs::open(rt, file) else {
        return println!(rt; "no list");
    };
    let mut t = Tally::default();
    let torn = lists::replay(&mut Buffered::new(from), &mut t, turn)?;
    println!(rt; "records={}", t.records.asked)?;
    println!(rt; "accepted={}", t.accepted)?;
    println!(rt; "wrong={}", t.records.wrong)?;
    println!(rt; "first={}", t.records.first.unwrap_or(0))?;
    println!(rt; "torn={}", u64::from(torn))
}

fn main(rt: HostRuntime) -> io::Result<()> {
    println!(rt; "compaction")?;
    replay(&rt, "compaction.bin", compaction)?;
    println!(rt; "offsets")?;
    replay(&rt, "offsets.bin", conversion)
}
