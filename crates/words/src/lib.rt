// Numbers in bytes: each load is one machine load. Leaves: their callers know the bounds.
#![tactic(auto)]

ghost use Rattle.std.specs.Prelude.{◌≡◌, ◌+◌, ◌*◌, ◌/◌, ◌%◌, ◌^◌, ◌≤◌, ◌<◌, length, drop};
ghost use Rattle.std.proofs.Math.Seq.{paste};
ghost use Rattle.words.specs.Words.{word_at, be_at, put_word};

pub fn wide(x: u8) -> u64
    ensures { (result ≡ x) × (result < 256) }
{
    x as u64
}

pub fn be32(b: &[u8], i: usize) -> u64
    requires { i + 4 ≤ length b.now }
    ensures { (result ≡ be_at b.now i 4) × (result < 2 ^ 32) }
{
    ((wide(b[i]) * 256 + wide(b[i + 1])) * 256 + wide(b[i + 2])) * 256 + wide(b[i + 3])
}

pub fn be64(b: &[u8], i: usize) -> u64
    requires { i + 8 ≤ length b.now }
    ensures { result ≡ be_at b.now i 8 }
{
    4294967296 * be32(b, i) + be32(b, i + 4)
}

pub fn le32(b: &[u8], i: usize) -> u64
    requires { i + 4 ≤ length b.now }
    ensures { (result ≡ word_at b.now i 4) × (result < 2 ^ 32) }
{
    wide(b[i]) + 256 * wide(b[i + 1]) + 65536 * wide(b[i + 2]) + 16777216 * wide(b[i + 3])
}

pub fn le64(b: &[u8], i: usize) -> u64
    requires { i + 8 ≤ length b.now }
    ensures { result ≡ word_at b.now i 8 }
{
    wide(b[i])
        + 256 * wide(b[i + 1])
        + 65536 * wide(b[i + 2])
        + 16777216 * wide(b[i + 3])
        + 4294967296 * wide(b[i + 4])
        + 1099511627776 * wide(b[i + 5])
        + 281474976710656 * wide(b[i + 6])
        + 72057594037927936 * wide(b[i + 7])
}

fn low(x: u64) -> u8
    ensures { result ≡ x % 256 }
{
    (x % 256) as u8
}

// Stores the four low bytes of a number.
pub fn put32(b: &mut [u8], i: usize, x: u64)
    requires { i + 4 ≤ length b.old }
    ensures { b.new ≡ put_word b.old i x 4 }
{
    b[i] = low(x);
    b[i + 1] = low(x / 256);
    b[i + 2] = low(x / 65536);
    b[i + 3] = low(x / 16777216);
}

// Stores a number of eight bytes.
pub fn put64(b: &mut [u8], i: usize, x: u64)
    requires { i + 8 ≤ length b.old }
    ensures { b.new ≡ put_word b.old i x 8 }
{
    put32(b, i, x);
    put32(b, i + 4, x / 4294967296);
}

// Copies the sixteen bytes of `src` from `p` on to `dst` from `o` on: both words are loaded before the first is stored.
pub fn copy16(dst: &mut [u8], o: usize, src: &[u8], p: usize)
    requires { (o + 16 ≤ length dst.old) × (p + 16 ≤ length src.now) }
    ensures { dst.new ≡ paste dst.old o (drop p src.now) 16 }
{
    let x = le64(src, p);
    let y = le64(src, p + 8);
    put64(dst, o, x);
    put64(dst, o + 8, y);
}
