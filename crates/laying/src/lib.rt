// What compaction and the offset column share: whether buffers have room for a column that is written from their front on.
#![tactic(auto)]

ghost use Rattle.std.specs.Prelude.{◌≡◌, List, length};
ghost use Rattle.column.specs.declared.Block.{Block};
ghost use Rattle.column.specs.Lent.{buffers, lent_of};
ghost use Rattle.laying.specs.Rooms.{why_rooms};

use bounds::Refusal;
use column::{Buffers, Column, Kind};

// Whether buffers have room for so many rows, blocks and bytes from their front on, by how many records the table has.
pub fn why_rooms_with(
    views: &[u8],
    bytes: &[u8],
    nulls: &[u8],
    count: usize,
    mapped: bool,
    rows: usize,
    blocks: usize,
    total: usize,
) -> Result<(), Refusal>
    ensures { (table : List Block) → count ≡ length table
        → result ≡ why_rooms mapped rows blocks total (buffers views.now bytes.now table nulls.now) }
{
    let none = Column {
        first: 0,
        rows,
        blocks: 0,
        kind: Kind::Binary,
        mapped,
    };
    if !column::fits_with(views, nulls, none, count) {
        return Err(Refusal::RowRoom);
    }
    if !column::fits_with(views, nulls, Column { blocks, ..none }, count) {
        return Err(Refusal::BlockRoom);
    }
    if !column::in_data(bytes, 0, total) {
        return Err(Refusal::DataRoom);
    }
    Ok(())
}

// The same over a table of two number slices.
pub fn why_rooms(
    to: Buffers<'_, '_>,
    mapped: bool,
    rows: usize,
    blocks: usize,
    total: usize,
) -> Result<(), Refusal>
    ensures { result ≡ why_rooms mapped rows blocks total (lent_of to.entry) }
{
    let count = to.starts.len().min(to.lens.len());
    why_rooms_with(
        to.views, to.bytes, to.nulls, count, mapped, rows, blocks, total,
    )
}
