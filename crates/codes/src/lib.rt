// Element codes: whether a value conforms to the code profile, and whether a spreadsheet would take it for a date.
#![tactic(auto)]

ghost use Rattle.std.specs.Prelude.{◌≡◌, true, [], ◌∷◌, ◌+◌, ◌≤◌, length, take};
ghost use Rattle.codes.specs.Grammar.{number_after};
ghost use Rattle.codes.specs.Recogniser as spec;
ghost use Rattle.codes.specs.Recogniser.{is_code_byte, may_stand, parted, is_day, is_month, is_year, is_month_year, is_day_month, is_month_day, is_group, groups_follow, is_groups};
ghost use Rattle.codes.specs.Windows.{window_ok};
ghost use Rattle.codes.specs.MonthWords.{is_month_word};
ghost use Rattle.codes.specs.Marks.{mark_of, mark_number};

// What a row is under the profile: null, no code, a code, a code that a spreadsheet would take for a date.
#[derive(Clone, Copy)]
pub enum Mark {
    Null,
    Other,
    Code,
    Date,
}

// The number of a mark, by which C is told it (mark_exports).
pub fn number_of(m: Mark) -> usize
    ensures { result ≡ mark_number m }
{
    match m {
        Mark::Null => 0,
        Mark::Other => 1,
        Mark::Code => 2,
        Mark::Date => 3,
    }
}

// The bytes that a code may have, from the hyphen to Z, a bit each: no branch hangs on which of them it is.
const CODE_BYTES: usize = 0x3ffffff01ff9;

fn is_code_byte(b: u8) -> bool
    ensures { result ≡ is_code_byte b }
{
    match b {
        45..=90 => (CODE_BYTES >> (b as usize - 45)) % 2 == 1,
        _ => false,
    }
}

// After a hyphen and at the start only a letter or a digit, else a hyphen too.
fn may_stand(after: bool, b: u8) -> bool
    ensures { result ≡ may_stand after b }
{
    is_code_byte(b) && !(after && b == 45)
}

// Letters, digits and single hyphens, none of them first or last.
fn is_parted(s: &[u8]) -> bool
    ensures { result ≡ parted true s.now }
{
    let mut after = true;
    for b in s {
        if !may_stand(after, *b) {
            return false;
        }
        after = *b == 45;
    }
    !after
}

// The high bit of each of eight bytes.
const HIGH: u64 = 0x8080808080808080;

// Nine bytes from i on as eight pairs of neighbours, all at once: eight lanes to a word, and the high bit of a lane says yes. Where no byte is above 127
// no lane passes its eight bits.
fn window(s: &[u8], i: usize) -> bool
    requires { i + 9 ≤ length s.now }
    ensures { result ≡ window_ok s.now i }
{
    let w = words::le64(s, i);
    let v = words::le64(s, i + 1);
    if w & HIGH != 0 {
        return false;
    }
    if v & HIGH != 0 {
        return false;
    }
    let letters = (w + 0x3f3f3f3f3f3f3f3f) & ((w + 0x2525252525252525) ^ HIGH);
    let digits = (w + 0x5050505050505050) & ((w + 0x4646464646464646) ^ HIGH);
    let others = (w ^ 0x2d2d2d2d2d2d2d2d) + 0x7f7f7f7f7f7f7f7f;
    let next = ((v ^ 0x2d2d2d2d2d2d2d2d) + 0x7f7f7f7f7f7f7f7f) & HIGH;
    ((letters | digits) | (others ^ HIGH)) & (others | next) & HIGH == HIGH
}

// The same as `is_parted` of nine bytes and more: the pairs from byte 0 on, those from byte 8 on where there are so many, and those up to the last byte.
fn is_parted_long(s: &[u8]) -> bool
    requires { (9 ≤ length s.now) × (length s.now ≤ 24) }
    ensures { result ≡ parted true s.now }
{
    let n = s.len();
    if s[0] == 45 {
        return false;
    }
    if !may_stand(true, s[n - 1]) {
        return false;
    }
    if !window(s, 0) {
        return false;
    }
    if n <= 17 {
        return window(s, n - 9);
    }
    window(s, 8) && window(s, n - 9)
}

// Does a value conform to the profile?
pub fn conforms(s: &[u8]) -> bool
    ensures { result ≡ spec.conforms s.now }
{
    let n = s.len();
    // Both bounds by one test: by two ranges the mark of a text that is no code took 1.3 times as long.
    match n {
        4..=24 => {
            if n < 9 {
                is_parted(s)
            } else {
                is_parted_long(s)
            }
        }
        _ => false,
    }
}

// How many digits a text begins with.
fn leading(s: &[u8]) -> usize
    ensures { (result ≡ spec.leading s.now) × (result ≤ length s.now) }
{
    for (i, b) in s.iter().enumerate() {
        if !b.is_ascii_digit() {
            return i;
        }
    }
    s.len()
}

fn past_hyphen<'a>(s: &'a [u8]) -> &'a [u8]
    ensures { result.now ≡ spec.past_hyphen s.now }
{
    match s.split_first() {
        Some((b, rest)) if *b == 45 => rest,
        _ => s,
    }
}

// The number that two digits say.
fn two_digits(a: u8, b: u8) -> usize
    requires { (48 ≤ a) × (48 ≤ b) }
    ensures { result ≡ number_after 0 (a ∷ b ∷ []) }
{
    (a - 48) as usize * 10 + (b - 48) as usize
}

// Are the d digits that a text begins with a day: 1 to 31 in one or two digits?
fn begins_with_day(s: &[u8], d: usize) -> bool
    requires { (d ≡ spec.leading s.now) × (d ≤ length s.now) }
    ensures { result ≡ is_day (take d s.now) }
{
    match d {
        1 => s[0] != 48,
        2 => {
            let n = two_digits(s[0], s[1]);
            n != 0 && n <= 31
        }
        _ => false,
    }
}

// A day, and nothing else.
fn is_day(s: &[u8]) -> bool
    ensures { result ≡ is_day s.now }
{
    let d = leading(s);
    d == s.len() && begins_with_day(s, d)
}

fn is_month_word(w: usize) -> bool
    ensures { result ≡ is_month_word w }
{
    matches!(
        w,
        0x4a414e
            | 0x464542
            | 0x4d4152
            | 0x415052
            | 0x4d4159
            | 0x4a554e
            | 0x4a554c
            | 0x415547
            | 0x534550
            | 0x4f4354
            | 0x4e4f56
            | 0x444543
    )
}

// A month: JAN to DEC.
fn is_month(s: &[u8]) -> bool
    ensures { result ≡ is_month s.now }
{
    match s {
        [a, b, c] => is_month_word(*a as usize * 65536 + *b as usize * 256 + *c as usize),
        _ => false,
    }
}

// After a month: nothing, or a hyphen and two or four digits.
fn is_year(s: &[u8]) -> bool
    ensures { result ≡ is_year s.now }
{
    match s.split_first() {
        None => true,
        Some((b, rest)) if *b == 45 => {
            let d = leading(rest);
            d == rest.len() && (d == 2 || d == 4)
        }
        Some(_) => false,
    }
}

fn is_month_year(s: &[u8]) -> bool
    ensures { result ≡ is_month_year s.now }
{
    match s.split_at_checked(3) {
        Some((month, rest)) => is_month(month) && is_year(rest),
        None => false,
    }
}

fn is_month_day(s: &[u8]) -> bool
    ensures { result ≡ is_month_day s.now }
{
    match s.split_at_checked(3) {
        Some((month, rest)) => is_month(month) && is_day(past_hyphen(rest)),
        None => false,
    }
}

// A text that begins with d digits.
fn is_day_month(s: &[u8], d: usize) -> bool
    requires { (d ≡ spec.leading s.now) × (d ≤ length s.now) }
    ensures { result ≡ is_day_month s.now }
{
    begins_with_day(s, d) && is_month_year(past_hyphen(&s[d..]))
}

fn is_group(d: usize) -> bool
    ensures { result ≡ is_group d }
{
    1 <= d && d <= 4
}

// A hyphen and a group, twice at most, and the end.
fn groups_follow(s: &[u8]) -> bool
    ensures { result ≡ groups_follow 2 s.now }
{
    let mut rest = s;
    for _ in 0..2usize {
        let Some((b, digits)) = rest.split_first() else {
            return true;
        };
        // Before any digit is counted: what follows may be long.
        if *b != 45 {
            return false;
        }
        let d = leading(digits);
        if !is_group(d) {
            return false;
        }
        rest = &digits[d..];
    }
    rest.is_empty()
}

// A text that begins with d digits.
fn is_groups(s: &[u8], d: usize) -> bool
    requires { (d ≡ spec.leading s.now) × (d ≤ length s.now) }
    ensures { result ≡ is_groups s.now }
{
    if !is_group(d) {
        return false;
    }
    d < s.len() && groups_follow(&s[d..])
}

// Would a spreadsheet take a text for a date?
pub fn is_date(s: &[u8]) -> bool
    ensures { result ≡ spec.is_date s.now }
{
    match leading(s) {
        0 => is_month_day(s),
        d => is_day_month(s, d) || is_groups(s, d),
    }
}

// The mark of a value.
pub fn mark_of(s: &[u8]) -> Mark
    ensures { result ≡ mark_of s.now }
{
    if !conforms(s) {
        return Mark::Other;
    }
    if is_date(s) { Mark::Date } else { Mark::Code }
}
