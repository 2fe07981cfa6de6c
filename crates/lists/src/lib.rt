// The fixed lists as the programs that replay them read them: words, columns and buffers, and what is counted. Instruments: their contracts say no more
// than that they are safe and end. No heap is there, so buffers, the reader's too, are arrays, and a list is taken word by word.
#![tactic(auto)]

ghost use Rattle.std.specs.Prelude.{◌≤◌, length};
ghost use Rattle.std.specs.Io.{ReadsAtMost};

use column::{Buffers, Column, Kind};
use std::cmp::Ordering;
use std::io;
use std::io::Read;

// Why a list isn't read on: it ended before a record, it ended inside one or has one that isn't a list's, or the reader failed.
#[derive(Debug, Drop)]
pub enum Stop {
    End,
    Torn,
    Failed(io::Error),
}

impl From<io::Error> for Stop {
    fn from(e: io::Error) -> Stop {
        Stop::Failed(e)
    }
}

// Reads until the buffer is full or the list ends, and answers how many bytes came, at the buffer's start.
pub fn read_full<R: Read>(from: &mut R, buf: &mut [u8]) -> io::Result<usize>
    ensures { ReadsAtMost result buf.new }
{
    let mut done = 0;
    while done < buf.len() {
        let n = from.read(&mut buf[done..])?;
        if n == 0 {
            return Ok(done);
        }
        done += n;
    }
    Ok(done)
}

// The bytes that a list's reader holds.
const HELD: usize = 4096;

// A list's reader, some thousand bytes at a time: read from its file word by word, a list took 5 to 10 times as long.
#[derive(Drop)]
pub struct Buffered<R> {
    from: R,
    bytes: [u8; HELD],
    at: usize,
    end: usize,
    ghost in_room: { (at ≤ end) × (end ≤ length bytes) },
}

impl<R: Read> Buffered<R> {
    pub fn new(from: R) -> Buffered<R> {
        Buffered {
            from,
            bytes: [0; HELD],
            at: 0,
            end: 0,
        }
    }
}

impl<R: Read> Read for Buffered<R> {
    fn read(&mut self, buf: &mut [u8]) -> io::Result<usize> {
        if self.at == self.end {
            let n = self.from.read(&mut self.bytes)?;
            self.at = 0;
            self.end = n;
        }
        let n = buf.len().min(self.end - self.at);
        buf[..n].copy_from_slice(&self.bytes[self.at..self.at + n]);
        self.at += n;
        Ok(n)
    }
}

// Fills the buffer.
pub fn fill<R: Read>(from: &mut R, buf: &mut [u8]) -> Result<(), Stop> {
    if read_full(from, buf)? < buf.len() {
        return Err(Stop::Torn);
    }
    Ok(())
}

// The next word, if the list doesn't end before it.
fn word<R: Read>(from: &mut R) -> Result<usize, Stop> {
    let mut bytes = [0; 8];
    match read_full(from, &mut bytes)? {
        0 => Err(Stop::End),
        8 => Ok(usize::from_le_bytes(bytes)),
        _ => Err(Stop::Torn),
    }
}

// The first N words of a record, if the list doesn't end before it.
pub fn head<R: Read, const N: usize>(from: &mut R) -> Result<[usize; N], Stop> {
    let mut head = [0; N];
    for k in 0..N {
        head[k] = match word(from) {
            Err(Stop::End) if 0 < k => return Err(Stop::Torn),
            w => w?,
        };
    }
    Ok(head)
}

// N words inside a record.
pub fn words<R: Read, const N: usize>(from: &mut R) -> Result<[usize; N], Stop> {
    match head(from) {
        Err(Stop::End) => Err(Stop::Torn),
        words => words,
    }
}

// A column by its five words.
pub fn column_of([first, rows, blocks, kind, mapped]: [usize; 5]) -> Column {
    Column {
        first,
        rows,
        blocks,
        kind: kind_of(kind),
        mapped: mapped == 1,
    }
}

pub fn kind_of(k: usize) -> Kind {
    match k {
        0 => Kind::Binary,
        _ => Kind::Text,
    }
}

// Where the lists have an order as a number.
pub fn order_number(o: Ordering) -> usize {
    match o {
        Ordering::Less => 0,
        Ordering::Equal => 1,
        Ordering::Greater => 2,
    }
}

// The n bytes of a buffer from a place on, if it has them.
pub fn part(of: &[u8], at: usize, n: usize) -> Option<&[u8]> {
    of.get(at..at.checked_add(n)?)
}

// A buffer of n elements, at most N. An array holds them, since no heap is there.
#[derive(Drop)]
pub struct Few<T, const N: usize> {
    all: [T; N],
    n: usize,
    ghost in_room: { n ≤ N },
}

impl<T: Copy, const N: usize> Few<T, N> {
    // n times x. No list has more than N.
    pub fn new(x: T, n: usize) -> Result<Few<T, N>, Stop> {
        if N < n {
            return Err(Stop::Torn);
        }
        Ok(Few { all: [x; N], n })
    }

    pub fn lent(&self) -> &[T]
        ensures { length result.now ≤ N }
    {
        &self.all[..self.n]
    }

    pub fn lend(&mut self) -> &mut [T] {
        let n = self.n;
        let all = &mut self.all;
        &mut all[..n]
    }
}

impl<const N: usize> Few<u8, N> {
    // The list's next n bytes.
    pub fn read<R: Read>(from: &mut R, n: usize) -> Result<Few<u8, N>, Stop> {
        let mut bytes = Few::new(0, n)?;
        fill(from, bytes.lend())?;
        Ok(bytes)
    }

    // The first N bytes of a buffer, or all there are.
    pub fn copy(from: &[u8]) -> Few<u8, N> {
        let n = from.len().min(N);
        let mut all = [0; N];
        all[..n].copy_from_slice(&from[..n]);
        Few { all, n }
    }
}

// A column's buffers to lend.
#[derive(Drop)]
pub struct Room {
    views: Few<u8, 1024>,
    bytes: Few<u8, 1024>,
    starts: Few<usize, 16>,
    lens: Few<usize, 16>,
    nulls: Few<u8, 16>,
}

// The buffers lent to be written.
#[derive(Drop)]
pub struct Lent<'a> {
    pub views: &'a mut [u8],
    pub bytes: &'a mut [u8],
    pub starts: &'a mut [usize],
    pub lens: &'a mut [usize],
    pub nulls: &'a mut [u8],
}

impl Room {
    // Buffers of these lengths, the views, the data and the map in bytes and the table in records, every byte x.
    pub fn new([views, bytes, blocks, nulls]: [usize; 4], x: u8) -> Result<Room, Stop> {
        let number = usize::from_le_bytes([x; 8]);
        Ok(Room {
            views: Few::new(x, views)?,
            bytes: Few::new(x, bytes)?,
            starts: Few::new(number, blocks)?,
            lens: Few::new(number, blocks)?,
            nulls: Few::new(x, nulls)?,
        })
    }

    // Buffers of these lengths as a list has them: the table by records, a start and a length.
    pub fn read<R: Read>(from: &mut R, lengths: [usize; 4]) -> Result<Room, Stop> {
        let mut room = Room::new(lengths, 0)?;
        let Lent {
            views,
            bytes,
            starts,
            lens,
            nulls,
        } = room.lend();
        fill(from, views)?;
        fill(from, bytes)?;
        read_table(from, starts, lens)?;
        fill(from, nulls)?;
        Ok(room)
    }

    pub fn lent(&self) -> Buffers<'_, '_> {
        Buffers {
            views: self.views.lent(),
            bytes: self.bytes.lent(),
            starts: self.starts.lent(),
            lens: self.lens.lent(),
            nulls: self.nulls.lent(),
        }
    }

    pub fn lend(&mut self) -> Lent<'_> {
        let Room {
            views,
            bytes,
            starts,
            lens,
            nulls,
        } = self;
        Lent {
            views: views.lend(),
            bytes: bytes.lend(),
            starts: starts.lend(),
            lens: lens.lend(),
            nulls: nulls.lend(),
        }
    }
}

// Reads a table's records, a start and a length each.
pub fn read_table<R: Read>(
    from: &mut R,
    starts: &mut [usize],
    lens: &mut [usize],
) -> Result<(), Stop> {
    for (start, len) in starts.iter_mut().zip(lens) {
        let [s, n]: [usize; 2] = words(from)?;
        *start = s;
        *len = n;
    }
    Ok(())
}

// Whether the buffers are the same, number by number.
pub fn same(l: Buffers<'_, '_>, m: Buffers<'_, '_>) -> bool {
    l.views == m.views
        && l.bytes == m.bytes
        && l.starts == m.starts
        && l.lens == m.lens
        && l.nulls == m.nulls
}

// One more, up to more than any list has.
pub fn more(n: u64) -> u64 {
    if n < 1000000000 { n + 1 } else { n }
}

// How many answers were compared with a list's, how many of them are others, and which was the first of those.
#[derive(Clone, Copy, Default)]
pub struct Score {
    pub asked: u64,
    pub wrong: u64,
    pub first: Option<u64>,
}

impl Score {
    pub fn count(&mut self, right: bool) {
        self.asked = more(self.asked);
        if !right {
            self.wrong = more(self.wrong);
            self.first = self.first.or(Some(self.asked));
        }
    }
}

// How a call takes a block table: as two number slices, or as a table of records.
#[derive(Clone, Copy)]
pub enum Over {
    Slices,
    Records,
}

// Takes turn after turn until the list ends, up to more than any list has. Whether it ended inside a record.
pub fn replay<R: Read, T, F: Fn(&mut R, &mut T) -> Result<(), Stop>>(
    from: &mut R,
    tally: &mut T,
    turn: F,
) -> io::Result<bool>
    requires { F.IsAlwaysCallable turn }
{
    for _ in 0..1000000 {
        match turn(from, tally) {
            Ok(()) => {}
            Err(Stop::End) => return Ok(false),
            Err(Stop::Torn) => return Ok(true),
            Err(Stop::Failed(e)) => return Err(e),
        }
    }
    Ok(false)
}
