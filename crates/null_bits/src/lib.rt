// Null bits: a row's bit read and written, and nulls counted over a run of rows by ones in masked bytes and words of the map.
// Leaves: their callers know that the rows lie in the map. A column without a map has no nulls; `mapped` says beside the map whether there is one, and
// no Option does, since C's column lends it so and `count_nulls` and `copy_column` are stated, in specs and theorems, for both.
#![tactic(auto)]

ghost use Rattle.std.specs.Prelude.{◌≡◌, true, ◌+◌, ◌*◌, ◌/◌, ◌%◌, ◌^◌, ◌≤◌, ◌<◌, length};
ghost use Rattle.null_bits.specs.Bits.{is_valid, valid_at, count_nulls, put_bit, Counted};

pub mod runs;

// Whether a row that the map holds is valid.
pub fn is_valid(map: &[u8], row: usize) -> bool
    requires { row / 8 < length map.now }
    ensures { result ≡ is_valid map.now row }
{
    ((map[row / 8] as usize) >> (row % 8)) % 2 == 1
}

// Whether a row of a column is valid: without a map each is.
pub fn valid_at(map: &[u8], mapped: bool, row: usize) -> bool
    requires { mapped ≡ true → row / 8 < length map.now }
    ensures { result ≡ valid_at map.now mapped row }
{
    !mapped || is_valid(map, row)
}

// Appends the bit of a row: the bits of its byte below it are kept, and those above it are 0.
pub fn put_bit(map: &mut [u8], row: usize, valid: bool)
    requires { row / 8 < length map.old }
    ensures { map.new ≡ put_bit map.old row valid }
{
    let i = row / 8;
    let pos = row % 8;
    let one = 1usize << pos;
    let kept = (map[i] as usize) & (one - 1);
    if valid {
        map[i] = (kept | one) as u8;
    } else {
        map[i] = kept as u8;
    }
}

// The valid rows among `rows` of the byte i, from its bit `skip` on.
fn count_part(map: &[u8], i: usize, skip: u32, rows: u32) -> usize
    requires { (i < length map.now) × (skip < 8) × (skip + rows ≤ 8) }
    ensures { Counted map.now (8 * i + skip) rows result }
{
    let part = ((map[i] as u32) >> skip) & ((1u32 << rows) - 1);
    part.count_ones() as usize
}

// The valid rows of whole bytes from i on.
fn count_bytes(map: &[u8], i: usize, bytes: usize) -> usize
    requires { (i + bytes ≤ length map.now) × (8 * bytes < 2 ^ 64) }
    ensures { Counted map.now (8 * i) (8 * bytes) result }
{
    let mut n = 0;
    for byte in &map[i..i + bytes] {
        n += byte.count_ones() as usize;
    }
    n
}

// The valid rows of whole words of eight bytes from the byte i on.
fn count_words(map: &[u8], i: usize, words: usize) -> usize
    requires { (i + 8 * words ≤ length map.now) × (64 * words < 2 ^ 64) }
    ensures { Counted map.now (8 * i) (64 * words) result }
{
    let mut n = 0;
    for k in 0..words {
        n += words::le64(map, i + 8 * k).count_ones() as usize;
    }
    n
}

// How many of the rows first, first + 1, .. (rows of them) are valid. The run may start and end inside a byte.
pub fn count_valid(map: &[u8], first: usize, rows: usize) -> usize
    requires { first + rows ≤ 8 * length map.now }
    ensures { Counted map.now first rows result }
{
    if rows == 0 {
        return 0;
    }
    let i = first / 8;
    let skip = first % 8;
    let head = 8 - skip;
    if rows <= head {
        return count_part(map, i, skip as u32, rows as u32);
    }
    let a = count_part(map, i, skip as u32, head as u32);
    let left = rows - head;
    let words = left / 64;
    let b = count_words(map, i + 1, words);
    let j = i + 1 + 8 * words;
    let bytes = left % 64 / 8;
    let d = count_bytes(map, j, bytes);
    let tail = left % 8;
    if tail == 0 {
        return a + b + d;
    }
    a + b + d + count_part(map, j + bytes, 0, tail as u32)
}

// How many rows of a column's run are null: without a map none is.
pub fn count_nulls(map: &[u8], mapped: bool, first: usize, rows: usize) -> usize
    requires { mapped ≡ true → first + rows ≤ 8 * length map.now }
    ensures { result ≡ count_nulls map.now mapped first rows }
{
    if mapped {
        rows - count_valid(map, first, rows)
    } else {
        0
    }
}
