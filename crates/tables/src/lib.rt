// The block table lent as a slice of records: how many there are, one read, one written. Reading, comparison, the check and the marks over
// such a table ask no more of it than this.
#![tactic(auto)]

ghost use Rattle.std.specs.Prelude.{◌≡◌, length, get_or, set};

use column::Block;

// How many records the table has.
pub fn count(table: &[Block]) -> usize
    ensures { result ≡ length table.now }
{
    table.len()
}

// The record of block k, or `other` where the table has none.
pub fn block_or(table: &[Block], k: usize, other: Block) -> Block
    ensures { result ≡ get_or table.now k other }
{
    if k < table.len() {
        return table[k];
    }
    other
}

// The record of block k becomes b; past the table's end nothing changes.
pub fn put_or(table: &mut [Block], k: usize, b: Block)
    ensures { table.new ≡ set table.old k b }
{
    if k < table.len() {
        table[k] = b;
        return;
    }
}
