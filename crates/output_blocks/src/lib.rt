// The offset column over a block table that is lent as a slice of records, which the caller can write through.
#![tactic(auto)]

ghost use Rattle.offsets.specs.Offsets.{source};
ghost use Rattle.output_blocks.specs.Tabled.{Tabled};

use column::{Block, Kind};
use offsets::Outcome;

// Whether the source has a map, and the new column's kind.
#[derive(Clone, Copy)]
pub struct Layout {
    pub mapped: bool,
    pub kind: Kind,
}

// A column from 32-bit offsets: all bytes become one block, a null row's view is zero.
pub fn from_offsets<'a>(
    offsets: &[u8],
    bytes: &'a [u8],
    nulls: &[u8],
    how: Layout,
    newviews: &mut [u8],
    newbytes: &mut [u8],
    table: &mut [Block],
    newnulls: &mut [u8],
) -> Outcome
    ensures { Tabled (source offsets.now bytes.now nulls.now how.mapped) how.kind
        newviews.old newbytes.old table.old newnulls.old result newviews.new newbytes.new
        table.new newnulls.new }
{
    let mut starts = [0usize; 1];
    let mut lens = [0usize; 1];
    let places = table.len().min(1);
    let outcome = offsets::from_offsets(
        offsets,
        bytes,
        nulls,
        how.mapped,
        how.kind,
        newviews,
        newbytes,
        &mut starts[..places],
        &mut lens[..places],
        newnulls,
    );
    if outcome.why.is_ok() {
        table[0] = Block {
            start: 0,
            len: bytes.len(),
        };
    }
    outcome
}
