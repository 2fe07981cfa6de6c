// Instruments of tests, no part of the library: the calls over a table of records, asked by a table of two number slices.
// The records are gathered into a local array and lent to the call; a call that writes records scatters them into the two slices again. They are there
// to run the proved calls, so their contracts say no more than that they are safe and end: what is answered is compared with lists of answers.
// A builder's buffers are lent one by one, as `values` and the other crates of the builder have them.
#![tactic(auto)]

ghost use Rattle.std.specs.Prelude.{◌≤◌};

use appending::Placed;
use bounds::Refusal;
use builder::{Answer, State};
use column::{Block, Buffers, Column};
use comparison::Side;
use finishing::Finished;
use offsets::Outcome;
use output_blocks::Layout;
use std::cmp::Ordering;

// The most records that a table here can have.
pub const MOST: usize = 16;

// A table of records. An array holds them, since no heap is there.
#[derive(Clone, Copy)]
pub struct Table {
    records: [Block; 16],
    count: usize,
    ghost in_room: { count ≤ 16 },
}

impl Table {
    // The records of a table of two number slices, up to MOST of them.
    pub fn gather(starts: &[usize], lens: &[usize]) -> Table {
        let count = starts.len().min(lens.len()).min(MOST);
        let mut records = [Block { start: 0, len: 0 }; 16];
        for k in 0..count {
            records[k] = Block {
                start: starts[k],
                len: lens[k],
            };
        }
        Table { records, count }
    }

    pub fn lent(&self) -> &[Block] {
        &self.records[..self.count]
    }

    pub fn lend(&mut self) -> &mut [Block] {
        let n = self.count;
        let records = &mut self.records;
        &mut records[..n]
    }

    // The records written to two number slices, as far as those go.
    pub fn scatter(&self, starts: &mut [usize], lens: &mut [usize]) {
        for ((b, start), len) in self.lent().iter().zip(starts).zip(lens) {
            *start = b.start;
            *len = b.len;
        }
    }
}

// Why a row's value is refused.
pub fn why_value(l: Buffers<'_, '_>, c: Column, row: usize) -> Result<(), Refusal> {
    let t = Table::gather(l.starts, l.lens);
    blocks::why_value(l.views, l.bytes, t.lent(), l.nulls, c, row)
}

// Whether a row's value is `want`.
pub fn value_is(l: Buffers<'_, '_>, c: Column, row: usize, want: &[u8]) -> bool {
    let t = Table::gather(l.starts, l.lens);
    blocks::value(l.views, l.bytes, t.lent(), l.nulls, c, row) == want
}

// Why a column isn't valid.
pub fn check(l: Buffers<'_, '_>, c: Column) -> Result<(), Refusal> {
    let t = Table::gather(l.starts, l.lens);
    blocks::check(l.views, l.bytes, t.lent(), l.nulls, c)
}

// Row i of one column against row j of another.
pub fn compare(
    l: Buffers<'_, '_>,
    c: Column,
    i: usize,
    m: Buffers<'_, '_>,
    d: Column,
    j: usize,
) -> Result<Ordering, Side> {
    let t = Table::gather(l.starts, l.lens);
    let u = Table::gather(m.starts, m.lens);
    blocks::compare(
        l.views,
        l.bytes,
        t.lent(),
        l.nulls,
        c,
        i,
        m.views,
        m.bytes,
        u.lent(),
        m.nulls,
        d,
        j,
    )
}

// A null is added.
pub fn append_null(
    s: State,
    views: &mut [u8],
    bytes: &[u8],
    starts: &[usize],
    lens: &[usize],
    nulls: &mut [u8],
    places: &[u32],
) -> Answer {
    let t = Table::gather(starts, lens);
    filing::append_null(s, views, bytes, t.lent(), nulls, places)
}

// A block is added.
pub fn append_block(
    s: State,
    views: &[u8],
    bytes: &mut [u8],
    starts: &mut [usize],
    lens: &mut [usize],
    nulls: &[u8],
    places: &[u32],
    x: &[u8],
) -> Placed {
    let mut t = Table::gather(starts, lens);
    let r = filing::append_block(s, views, bytes, t.lend(), nulls, places, x);
    t.scatter(starts, lens);
    r
}

// The column that was built.
pub fn finish(
    s: State,
    views: &[u8],
    bytes: &[u8],
    starts: &mut [usize],
    lens: &mut [usize],
    nulls: &[u8],
    places: &mut [u32],
) -> Finished {
    let mut t = Table::gather(starts, lens);
    let r = filing::finish(s, views, bytes, t.lend(), nulls, places);
    t.scatter(starts, lens);
    r
}

// The column so far.
pub fn finish_copy(
    s: State,
    views: &[u8],
    bytes: &[u8],
    starts: &mut [usize],
    lens: &mut [usize],
    nulls: &[u8],
    places: &[u32],
) -> Finished {
    let mut t = Table::gather(starts, lens);
    let r = filing::finish_copy(s, views, bytes, t.lend(), nulls, places);
    t.scatter(starts, lens);
    r
}

// Why a row's value while it is built is refused.
pub fn why_get(
    s: State,
    views: &[u8],
    bytes: &[u8],
    starts: &[usize],
    lens: &[usize],
    nulls: &[u8],
    places: &[u32],
    r: usize,
) -> Result<(), Refusal> {
    let t = Table::gather(starts, lens);
    filing::why_get(s, views, bytes, t.lent(), nulls, places, r)
}

// Whether a row's value while it is built is `want`.
pub fn get_value_is(
    s: State,
    views: &[u8],
    bytes: &[u8],
    starts: &[usize],
    lens: &[usize],
    nulls: &[u8],
    places: &[u32],
    r: usize,
    want: &[u8],
) -> bool {
    let t = Table::gather(starts, lens);
    filing::get_value(s, views, bytes, t.lent(), nulls, places, r) == want
}

// A column from 32-bit offsets.
pub fn from_offsets(
    offsets: &[u8],
    bytes: &[u8],
    nulls: &[u8],
    how: Layout,
    newviews: &mut [u8],
    newbytes: &mut [u8],
    newstarts: &mut [usize],
    newlens: &mut [usize],
    newnulls: &mut [u8],
) -> Outcome {
    let mut t = Table::gather(newstarts, newlens);
    let r = output_blocks::from_offsets(
        offsets,
        bytes,
        nulls,
        how,
        newviews,
        newbytes,
        t.lend(),
        newnulls,
    );
    t.scatter(newstarts, newlens);
    r
}
