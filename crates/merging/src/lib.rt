// The merge table: a lent slice of row numbers plus one, searched from the place of a hash.
#![tactic(auto)]

// What a search for a value's bytes ends at: a row that shows them, an empty place, or neither.
#[derive(Clone, Copy)]
pub enum Found {
    Row(usize),
    Free(usize),
    Full,
}
