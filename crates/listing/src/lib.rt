// The pieces of a listing's text, each written into a lent buffer.
#![tactic(auto)]

ghost use Rattle.std.specs.Prelude.{◌≡◌, [], ◌∷◌, ◌+◌, ◌*◌, ◌-◌, ◌≤◌, ◌<◌, length};
ghost use Rattle.listing.specs.Text.{decimal, text_from, item_text, number_line, opening, row_open, row_close, row_null, gap_line, closing, refused_line};
ghost use Rattle.listing.specs.Put.{Put, HoldsText, Rest};

// One byte more of a text that stands at the start of out.
fn put(out: &mut [u8], at: usize, x: u8) -> usize
    requires { at < length out.old }
    ensures { Put out.old out.new at result (x ∷ []) }
{
    out[at] = x;
    at + 1
}

// The bytes of s more.
pub fn put_bytes(out: &mut [u8], at: usize, s: &[u8]) -> usize
    requires { at + length s.now ≤ length out.old }
    ensures { Put out.old out.new at result s.now }
{
    let end = at + s.len();
    out[at..end].copy_from_slice(s);
    end
}

// A number's digits more.
fn put_number(out: &mut [u8], at: usize, n: usize) -> usize
    requires { at + length (decimal n) ≤ length out.old }
    ensures { Put out.old out.new at result (decimal n) }
{
    if n < 10 {
        return put(out, at, digit(n));
    }
    let b = put_number(out, at, n / 10);
    put(out, b, digit(n % 10))
}

fn digit(n: usize) -> u8
    requires { n < 10 }
    ensures { result ≡ 48 + n }
{
    48 + n as u8
}

// The k-th byte of a value more: a comma and a space before all but the first.
fn put_item(out: &mut [u8], at: usize, k: usize, x: u8) -> usize
    requires { at + 5 ≤ length out.old }
    ensures { Put out.old out.new at result (item_text k x) }
{
    if k == 0 {
        return put_number(out, at, x as usize);
    }
    let b = put(out, at, 44);
    let c = put(out, b, 32);
    put_number(out, c, x as usize)
}

// The text of the bytes of a value from byte `from` to byte `to`: what is left of the value's text then is that from `to` on.
pub fn row_part(out: &mut [u8], x: &[u8], from: usize, to: usize) -> usize
    requires { (from ≤ to) × (to ≤ length x.now) × (5 * (to - from) ≤ length out.old) }
    ensures { Rest out.new result (text_from x.now to) (text_from x.now from) }
{
    let mut w = 0;
    for k in from..to {
        w = put_item(out, w, k, x[k]);
    }
    w
}

// `name`, a number, a line end.
pub fn put_line(out: &mut [u8], at: usize, name: &[u8], n: usize) -> usize
    requires { at + length name.now + 21 ≤ length out.old }
    ensures put { Put out.old out.new at result (number_line name.now n) }
    ensures upper_bound { result ≤ at + length name.now + 21 }
{
    let b = put_bytes(out, at, name);
    let c = put_number(out, b, n);
    put(out, c, 10)
}

// "BinaryViewArray", "[".
pub fn put_opening(out: &mut [u8]) -> usize
    requires { 200 ≤ length out.old }
    ensures { HoldsText out.new result opening }
{
    put_bytes(out, 0, b"BinaryViewArray\n[\n")
}

pub fn put_row_open(out: &mut [u8]) -> usize
    requires { 200 ≤ length out.old }
    ensures { HoldsText out.new result row_open }
{
    put_bytes(out, 0, b"  [")
}

pub fn put_row_close(out: &mut [u8]) -> usize
    requires { 200 ≤ length out.old }
    ensures { HoldsText out.new result row_close }
{
    put_bytes(out, 0, b"],\n")
}

pub fn put_row_null(out: &mut [u8]) -> usize
    requires { 200 ≤ length out.old }
    ensures { HoldsText out.new result row_null }
{
    put_bytes(out, 0, b"  null,\n")
}

// "  ...N elements...,"
pub fn put_gap(out: &mut [u8], n: usize) -> usize
    requires { 200 ≤ length out.old }
    ensures { HoldsText out.new result (gap_line n) }
{
    let a = put_bytes(out, 0, b"  ...");
    let b = put_number(out, a, n);
    put_bytes(out, b, b" elements...,\n")
}

// "]" and the five closing lines.
pub fn put_closing(
    out: &mut [u8],
    rows: usize,
    nulls: usize,
    bytes: usize,
    long: usize,
    blocks: usize,
) -> usize
    requires { 200 ≤ length out.old }
    ensures { HoldsText out.new result (closing rows nulls bytes long blocks) }
{
    let a = put_bytes(out, 0, b"]\n");
    let b = put_line(out, a, b"rows=", rows);
    let c = put_line(out, b, b"nulls=", nulls);
    let d = put_line(out, c, b"bytes=", bytes);
    let e = put_line(out, d, b"block_bytes=", long);
    put_line(out, e, b"blocks=", blocks)
}

// "refused=N"
pub fn put_refused(out: &mut [u8], n: usize) -> usize
    requires { 200 ≤ length out.old }
    ensures { HoldsText out.new result (refused_line n) }
{
    put_line(out, 0, b"refused=", n)
}
