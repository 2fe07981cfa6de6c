// Well-formed UTF-8, and where the first ill-formed sequence begins. std's `from_utf8` took 1.3 to 1.7 times as long as Rust's on ASCII rows of 64 bytes,
// where 1.2 is asked (docs/SPEED.md) and this takes 0.8 to 1.1.
#![tactic(auto)]

ghost use Rattle.std.specs.Prelude.{◌≡◌, ◌+◌, ◌-◌, ◌≤◌, ◌<◌, length, drop, get_or};
ghost use Rattle.utf8.specs.Table.{table, led, led_by, within, in_ranges, front_length, first_bad, well_formed, ◌‥◌};
ghost use Rattle.utf8.specs.Lead.{tails_of, tails, nexts, Passed, SequenceOf};

// What a lead byte says: how many bytes its sequence has, and the bounds of the second one.
#[derive(Clone, Copy)]
pub enum Lead {
    One,
    Two(u8, u8),
    Three(u8, u8),
    Four(u8, u8),
    Bad,
}

// The lead byte by the ranges of Unicode's Table 3-7.
fn lead_of(b: u8) -> Lead
    ensures { led b table ≡ tails result }
{
    match b {
        0..=0x7f => Lead::One,
        0xc2..=0xdf => Lead::Two(0x80, 0xbf),
        0xe0 => Lead::Three(0xa0, 0xbf),
        0xe1..=0xec => Lead::Three(0x80, 0xbf),
        0xed => Lead::Three(0x80, 0x9f),
        0xee..=0xef => Lead::Three(0x80, 0xbf),
        0xf0 => Lead::Four(0x90, 0xbf),
        0xf1..=0xf3 => Lead::Four(0x80, 0xbf),
        0xf4 => Lead::Four(0x80, 0x8f),
        _ => Lead::Bad,
    }
}

fn in_range(b: u8, lo: u8, hi: u8) -> bool
    ensures { result ≡ within b (lo ‥ hi) }
{
    (lo..=hi).contains(&b)
}

// In a sequence of n bytes whose lead is at i: does each byte after the second one go on with it?
fn goes_on(s: &[u8], i: usize, n: usize) -> bool
    requires { (i + n ≤ length s.now) × (2 ≤ n) × (n ≤ 4) }
    ensures { result ≡ in_ranges (nexts (i + n - (i + 2))) (drop (i + 2) s.now) }
{
    n == 2 || in_range(s[i + 2], 0x80, 0xbf) && (n == 3 || in_range(s[i + 3], 0x80, 0xbf))
}

// n where the bytes after the lead at i are in their ranges, the second one in lo to hi.
fn more(s: &[u8], i: usize, n: usize, lo: u8, hi: u8) -> Option<usize>
    requires { (i < length s.now) × (2 ≤ n) × (n ≤ 4) }
    ensures { SequenceOf (led_by (tails_of n (lo ‥ hi)) (drop (i + 1) s.now)) (length s.now - i) result }
{
    if n <= s.len() - i && goes_on(s, i, n) && in_range(s[i + 1], lo, hi) {
        Some(n)
    } else {
        None
    }
}

// How many bytes the sequence at i has, if it is well formed.
fn seq(s: &[u8], i: usize) -> Option<usize>
    requires { i < length s.now }
    ensures { SequenceOf (front_length (drop i s.now)) (length s.now - i) result }
{
    match lead_of(s[i]) {
        Lead::One => Some(1),
        Lead::Two(lo, hi) => more(s, i, 2, lo, hi),
        Lead::Three(lo, hi) => more(s, i, 3, lo, hi),
        Lead::Four(lo, hi) => more(s, i, 4, lo, hi),
        Lead::Bad => None,
    }
}

// Where the run of ASCII bytes at `at` ends, in turns of sixteen bytes: no more than fifteen of it are left.
fn ascii_words(s: &[u8], at: usize) -> usize
    requires { at ≤ length s.now }
    ensures { Passed s.now at result }
{
    // No `for`: what is asked is the place itself where the run stops.
    let mut i = at;
    while 16 <= s.len() - i
        && (words::le64(s, i) | words::le64(s, i + 8)) & 0x8080808080808080 == 0
    {
        i += 16;
    }
    i
}

// Where the run of ASCII bytes that begins at `at` ends.
fn ascii(s: &[u8], at: usize) -> usize
    requires { (at < length s.now) × (get_or s.now at 0 ≤ 127) }
    ensures { Passed s.now at result × (at < result) }
{
    for i in ascii_words(s, at)..s.len() {
        if 127 < s[i] {
            return i;
        }
    }
    s.len()
}

// Where the first ill-formed sequence begins: all before that place is well formed, and no well-formed sequence starts there. In a well-formed text
// it is the end.
pub fn first_bad(s: &[u8]) -> usize
    ensures { result ≡ first_bad s.now }
{
    // No `for`: a turn goes on by a run or a sequence, whatever its length.
    let mut i = 0;
    while i < s.len() {
        if s[i] < 128 {
            i = ascii(s, i);
        } else {
            let Some(n) = seq(s, i) else {
                return i;
            };
            i += n;
        }
    }
    i
}

// Is the text well-formed UTF-8?
pub fn is_utf8(s: &[u8]) -> bool
    ensures { result ≡ well_formed s.now }
{
    first_bad(s) == s.len()
}
