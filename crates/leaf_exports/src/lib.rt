// Instruments, not calls of the library: the leaves in batches, for bench/ to time. What is measured is the work, not the call.
#![tactic(auto)]

ghost use Rattle.std.specs.Prelude.{◌≡◌, ◌+◌, ◌/◌};
ghost use Rattle.basis.specs.Pick.{pick};
ghost use Rattle.order.specs.Order.{ordering};
ghost use Rattle.leaf_exports.specs.Batches.{nulls_batch, parts_copied, one_if_less, pair_in, pairs_batch};

// Nulls of the runs of `rows` rows that start at row 0, 1, .. 63, 0, .. (times of them), added up; 0 where the map is too short.
#[unsafe(no_mangle)]
pub extern "C" fn leaf_count_nulls(map: &[u8], rows: usize, times: usize) -> u64
    ensures { result ≡ nulls_batch map.now rows times }
{
    let bytes = map.len();
    if bytes < 9 {
        return 0;
    }
    if bytes - 9 < rows / 8 {
        return 0;
    }
    let mut sum: u64 = 0;
    for k in 0..times {
        let n = null_bits::count_nulls(map, true, k % 64, rows);
        sum = sum.wrapping_add(n as u64);
    }
    sum
}

// The whole parts of n bytes that both slices have room for, copied one by one.
#[unsafe(no_mangle)]
pub extern "C" fn leaf_copy_parts(src: &[u8], dst: &mut [u8], n: usize)
    ensures { dst.new ≡ parts_copied src.now dst.old n }
{
    if n == 0 {
        return;
    }
    let room = src.len().min(dst.len());
    for k in 0..room / n {
        let o = k * n;
        copy::copy(&src[o..o + n], &mut dst[o..]);
    }
}

// 1 where the value from s to m is the same as the one from m to e, or below it; 0 where it isn't, or one isn't in the bytes.
fn pair_in(bytes: &[u8], s: usize, m: usize, e: usize, sameness: bool) -> u64
    ensures { result ≡ pair_in bytes.now s m e sameness }
{
    if m < s {
        return 0;
    }
    if e < m {
        return 0;
    }
    if bytes.len() < e {
        return 0;
    }
    if sameness {
        u64::from(order::same(&bytes[s..m], &bytes[m..e]))
    } else {
        u64::from(order::cmp(&bytes[s..m], &bytes[m..e]).is_lt())
    }
}

// How many values are the same as the next one, or below it: value k goes from ends[k] to ends[k + 1].
#[unsafe(no_mangle)]
pub extern "C" fn leaf_count_pairs(bytes: &[u8], ends: &[usize], sameness: bool) -> u64
    ensures { result ≡ pairs_batch bytes.now ends.now sameness }
{
    let mut sum: u64 = 0;
    for k in 0..ends.len().saturating_sub(2) {
        let x = pair_in(bytes, ends[k], ends[k + 1], ends[k + 2], sameness);
        sum = sum.wrapping_add(x);
    }
    sum
}
