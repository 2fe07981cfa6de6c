// Instruments of tests, no part of the library: a view and a column added, and compaction, over tables of records, asked by tables of two number
// slices, as through_records has the other calls. Their contracts say no more than that they are safe and end.
#![tactic(auto)]

use builder::{Answer, State};
use column::{Buffers, Column};
use compaction::Outcome;
use through_records::Table;

// A view of a completed block is added.
pub fn append_view(
    s: State,
    views: &mut [u8],
    bytes: &[u8],
    starts: &[usize],
    lens: &[usize],
    nulls: &mut [u8],
    places: &[u32],
    block: u32,
    offset: u32,
    size: u32,
) -> Answer {
    let t = Table::gather(starts, lens);
    filing_columns::append_view(
        s,
        views,
        bytes,
        t.lent(),
        nulls,
        places,
        block,
        offset,
        size,
    )
}

// A column is added.
pub fn append_column(
    s: State,
    views: &mut [u8],
    bytes: &mut [u8],
    starts: &mut [usize],
    lens: &mut [usize],
    nulls: &mut [u8],
    places: &[u32],
    src: Buffers<'_, '_>,
    c: Column,
) -> Answer {
    let mut t = Table::gather(starts, lens);
    let u = Table::gather(src.starts, src.lens);
    let r = filing_columns::append_column(
        s,
        views,
        bytes,
        t.lend(),
        nulls,
        places,
        src.views,
        src.bytes,
        u.lent(),
        src.nulls,
        c,
    );
    t.scatter(starts, lens);
    r
}

// A column is written anew.
pub fn compact(
    l: Buffers<'_, '_>,
    c: Column,
    most: usize,
    newviews: &mut [u8],
    newbytes: &mut [u8],
    newstarts: &mut [usize],
    newlens: &mut [usize],
    newnulls: &mut [u8],
) -> Outcome {
    let mut t = Table::gather(newstarts, newlens);
    let u = Table::gather(l.starts, l.lens);
    let r = compaction_blocks::compact(
        l.views,
        l.bytes,
        u.lent(),
        l.nulls,
        c,
        most,
        newviews,
        newbytes,
        t.lend(),
        newnulls,
    );
    t.scatter(newstarts, newlens);
    r
}
