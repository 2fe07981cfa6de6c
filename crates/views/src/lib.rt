// View records: sixteen bytes a row, their fields read as words and their bytes written as words.
#![tactic(auto)]

ghost use Rattle.std.specs.Prelude.{◌≡◌, ◌+◌, ◌-◌, ◌*◌, ◌%◌, ◌^◌, min, ◌≤◌, ◌<◌, length, take, drop};
ghost use Rattle.std.proofs.Math.Seq.{paste};
ghost use Rattle.words.specs.Words.{word_at};
ghost use Rattle.views.specs.View.{view_size, short_most, view_at, length_of, block_of, offset_of, short_view, long_view, make_view, zero_view};
ghost use Rattle.views.specs.Made.{make_of};

use bounds::Refusal;

// Bytes of a view.
pub const VIEW_SIZE: usize = 16;

// The longest value that its view holds whole.
pub const SHORT_MOST: usize = 12;

// The length of the value that the view of `row` shows.
pub fn view_len(views: &[u8], row: usize) -> usize
    requires { view_size * row + view_size ≤ length views.now }
    ensures { (result ≡ length_of (view_at views.now row)) × (result < 2 ^ 32) }
{
    words::le32(views, VIEW_SIZE * row) as usize
}

// The block number of a long value's view.
pub fn view_block(views: &[u8], row: usize) -> usize
    requires { view_size * row + view_size ≤ length views.now }
    ensures { (result ≡ block_of (view_at views.now row)) × (result < 2 ^ 32) }
{
    words::le32(views, VIEW_SIZE * row + 8) as usize
}

// Where in its block a long value begins.
pub fn view_offset(views: &[u8], row: usize) -> usize
    requires { view_size * row + view_size ≤ length views.now }
    ensures { (result ≡ offset_of (view_at views.now row)) × (result < 2 ^ 32) }
{
    words::le32(views, VIEW_SIZE * row + 12) as usize
}

#[derive(Clone, Copy)]
struct Pair {
    lo: u64,
    hi: u64,
}

// At most three bytes as a number.
fn few(v: &[u8]) -> u64
    requires { length v.now < 4 }
    ensures { (result ≡ word_at v.now 0 4) × (result < 2 ^ 32) }
{
    let n = v.len();
    if n == 0 {
        return 0;
    }
    if n == 1 {
        return words::wide(v[0]);
    }
    if n == 2 {
        return words::wide(v[0]) + 256 * words::wide(v[1]);
    }
    words::wide(v[0]) + 256 * words::wide(v[1]) + 65536 * words::wide(v[2])
}

// The two words of a short view. From four bytes on no branch asks how many there are: the words read end where the value ends.
fn words_of(v: &[u8]) -> Pair
    requires { length v.now ≤ short_most }
    ensures { (result.lo ≡ length v.now + 4294967296 * word_at v.now 0 4) × (result.hi ≡ word_at v.now 4 8) }
{
    let n = v.len();
    if n < 4 {
        let f = few(v);
        return Pair {
            lo: n as u64 + 4294967296 * f,
            hi: 0,
        };
    }
    let k = basis::least(n - 4, 4);
    let f = words::le32(v, 0);
    let m = words::le32(v, k) >> ((8 * (4 - k)) as u64);
    let t = words::le32(v, n - 4) >> ((8 * (8 + k - n)) as u64);
    Pair {
        lo: n as u64 + 4294967296 * f,
        hi: m + 4294967296 * t,
    }
}

// Writes the view of a short value into the sixteen bytes from `o` on.
pub fn short_view(b: &mut [u8], o: usize, v: &[u8])
    requires { (o + view_size ≤ length b.old) × (length v.now ≤ short_most) }
    ensures { b.new ≡ paste b.old o (short_view v.now) view_size }
{
    let p = words_of(v);
    let lo = p.lo;
    let hi = p.hi;
    words::put64(b, o, lo);
    words::put64(b, o + 8, hi);
}

// The first n bytes of a number of four.
fn front(f: u64, n: usize) -> u64
    requires { f < 2 ^ 32 }
    ensures { (result ≡ f % 2 ^ (8 * min n 4)) × (result < 2 ^ 32) }
{
    let bits = 8 * basis::least(n, 4);
    f % (1u64 << (bits as u64))
}

// The bytes of a number of eight that a value of n bytes has behind its first four.
fn behind(m: u64, n: usize) -> u64
    requires { n ≤ short_most }
    ensures { result ≡ m % 2 ^ (8 * (n - 4)) }
{
    if n <= 4 {
        return 0;
    }
    let bits = (8 * (SHORT_MOST - n)) as u64;
    (m << bits) >> bits
}

// The same for the n bytes from `a` on of a slice that goes on for twelve: no branch asks how many they are.
pub fn short_view_in(b: &mut [u8], o: usize, all: &[u8], a: usize, n: usize)
    requires { (o + view_size ≤ length b.old) × (n ≤ short_most) × (a + short_most ≤ length all.now) }
    ensures { b.new ≡ paste b.old o (short_view (take n (drop a all.now))) view_size }
{
    let f = front(words::le32(all, a), n);
    let m = behind(words::le64(all, a + 4), n);
    words::put64(b, o, n as u64 + 4294967296 * f);
    words::put64(b, o + 8, m);
}

// Writes the view of a null row into the sixteen bytes from `o` on.
pub fn zero_view(b: &mut [u8], o: usize)
    requires { o + view_size ≤ length b.old }
    ensures { b.new ≡ paste b.old o zero_view view_size }
{
    words::put64(b, o, 0);
    words::put64(b, o + 8, 0);
}

// Writes the view of a long value, which stands at `offset` of a block.
pub fn long_view(b: &mut [u8], o: usize, v: &[u8], block: u32, offset: u32)
    requires { (o + view_size ≤ length b.old) × (4 ≤ length v.now) × (length v.now < 2 ^ 32) }
    ensures { b.new ≡ paste b.old o (long_view v.now block offset) view_size }
{
    let f = words::le32(v, 0);
    words::put64(b, o, v.len() as u64 + 4294967296 * f);
    words::put64(b, o + 8, block as u64 + 4294967296 * (offset as u64));
}

// Writes the view of a value into the sixteen bytes from `o` on.
pub fn put_view(b: &mut [u8], o: usize, v: &[u8], block: u32, offset: u32)
    requires { (o + view_size ≤ length b.old) × (length v.now < 2 ^ 32) }
    ensures { b.new ≡ paste b.old o (make_view v.now block offset) view_size }
{
    if v.len() <= SHORT_MOST {
        short_view(b, o, v);
    } else {
        long_view(b, o, v, block, offset);
    }
}

// A view beside why it wasn't made; refused, its bytes are zeros. So it is no Result: `make_of` says them, and `length-made` their number.
#[derive(Clone, Copy)]
pub struct Made {
    pub why: Result<(), Refusal>,
    pub view: [u8; 16],
}

// The view of a value, which stands at `offset` of a block if it is long.
pub fn make_view(v: &[u8], block: u32, offset: u32) -> Made
    ensures { result ≡ make_of v.now block offset }
{
    let mut view = [0; 16];
    if bounds::BYTE_LIMIT < v.len() {
        return Made {
            why: Err(Refusal::TooLong),
            view,
        };
    }
    put_view(&mut view, 0, v, block, offset);
    Made { why: Ok(()), view }
}
