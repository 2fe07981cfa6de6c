// A copy of any length to the front of a slice: by overlapping words to 64 bytes, above by std's `copy_from_slice`, a memmove.
#![tactic(auto)]

ghost use Rattle.std.specs.Prelude.{◌≡◌, ◌+◌, ◌≤◌, length};
ghost use Rattle.copy.specs.Over.{over};

// 8 to 16 bytes: two words that may overlap.
fn two_words(src: &[u8], dst: &mut [u8])
    requires { (8 ≤ length src.now) × (length src.now ≤ 16) × (length src.now ≤ length dst.old) }
    ensures { dst.new ≡ over src.now dst.old }
{
    let n = src.len();
    let x = words::le64(src, 0);
    let y = words::le64(src, n - 8);
    words::put64(dst, 0, x);
    words::put64(dst, n - 8, y);
}

// 16 to 32 bytes: four, all loaded before the first store.
fn four_words(src: &[u8], dst: &mut [u8])
    requires { (16 ≤ length src.now) × (length src.now ≤ 32) × (length src.now ≤ length dst.old) }
    ensures { dst.new ≡ over src.now dst.old }
{
    let n = src.len();
    let x = words::le64(src, 0);
    let y = words::le64(src, 8);
    let z = words::le64(src, n - 16);
    let w = words::le64(src, n - 8);
    words::put64(dst, 0, x);
    words::put64(dst, 8, y);
    words::put64(dst, n - 16, z);
    words::put64(dst, n - 8, w);
}

// The half that 16 to 64 bytes are copied by, twice.
fn half(n: usize) -> usize
    requires { (16 ≤ n) × (n ≤ 64) }
    ensures { (16 ≤ result) × (result ≤ 32) × (result ≤ n) × (n ≤ result + result) }
{
    if n <= 32 { 16 } else { 32 }
}

// 16 to 64 bytes: the first half and the last, which may overlap. No branch asks which half it is: lengths in no order cost no more than one length.
fn two_halves(src: &[u8], dst: &mut [u8])
    requires { (16 ≤ length src.now) × (length src.now ≤ 64) × (length src.now ≤ length dst.old) }
    ensures { dst.new ≡ over src.now dst.old }
{
    let m = half(src.len());
    let o = src.len() - m;
    four_words(&src[0..m], dst);
    four_words(&src[o..], &mut dst[o..]);
}

// Any length, by one memmove: for bytes that are many, or fewer than eight.
pub fn chunks(src: &[u8], dst: &mut [u8])
    requires { length src.now ≤ length dst.old }
    ensures { dst.new ≡ over src.now dst.old }
{
    dst[..src.len()].copy_from_slice(src);
}

// `src` is written over the front of `dst`.
pub fn copy(src: &[u8], dst: &mut [u8])
    requires { length src.now ≤ length dst.old }
    ensures { dst.new ≡ over src.now dst.old }
{
    let n = src.len();
    if n < 8 {
        chunks(src, dst);
    } else if n <= 16 {
        two_words(src, dst);
    } else if n <= 64 {
        two_halves(src, dst);
    } else {
        chunks(src, dst);
    }
}
