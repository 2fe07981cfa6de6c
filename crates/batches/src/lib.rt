// Instruments of the timing driver, no calls of the library: a whole column in one call, so that what is measured is the work. A column that does not
// fit answers 0. What all rows share is found once: that the column fits, and whether its blocks lie in the data.
#![tactic(auto)]

ghost use Rattle.std.specs.Prelude.{◌≡◌, ◌+◌, ◌-◌, ◌%◌, ◌^◌, ◌<◌, ◌≤◌, true, [], ◌==◌};
ghost use Rattle.order.specs.Order.{ordering};
ghost use Rattle.views.specs.View.{view_at};
ghost use Rattle.column.specs.Lent.{lent_of, fits, all_in_data, lent};
ghost use Rattle.column.specs.Room.{bare, bare_of};
ghost use Rattle.column.specs.Meaning.{row_view, blocks_of};
ghost use Rattle.column.specs.Spot.{spot_in, bytes_at, Lies};
ghost use Rattle.column.specs.Truth.{reachable_at};
ghost use Rattle.comparison.specs.Compare.{compare_views, compare_rows};
ghost use Rattle.comparison.specs.Readable.{ViewReadable};
ghost use Rattle.numbers.specs.Numbers.{column_from};
ghost use Rattle.exports.specs.Exported.{compared_number};
ghost use Rattle.batches.specs.Batches.{is_less, less_rows, less_batch, taste_of, taste_rows, taste_batch};

use column::{Buffers, Column, Spot};
use std::cmp::Ordering;

// Where the value of a row stands.
fn spot_of(l: Buffers<'_, '_>, c: Column, known: bool, k: usize) -> Spot
    requires { (fits (lent_of l) c ≡ true) × (k < c.rows)
        × (known ≡ true → all_in_data (bare [] l.bytes.now l.starts.now l.lens.now) c.blocks ≡ true) }
    ensures { result ≡ spot_in (lent_of l.entry) c.blocks
        (row_view (lent_of l.entry) c k) (c.first + k) }
{
    column::spot_knowing(l, c.blocks, known, c.first + k)
}

// The order of a row and the next one, both reachable; the row counts from row 0 of the views.
fn order_of<'a>(l: Buffers<'a, '_>, blocks: usize, at: usize) -> Ordering
    requires { ViewReadable l.views.now l.bytes.now l.starts.now l.lens.now blocks at
        × ViewReadable l.views.now l.bytes.now l.starts.now l.lens.now blocks (at + 1) }
    ensures { ordering result ≡ compare_views (blocks_of (bare_of l.entry) blocks)
        (view_at l.entry.views.now at) (blocks_of (bare_of l.entry) blocks)
        (view_at l.entry.views.now (at + 1)) }
{
    let a = views::VIEW_SIZE * at;
    let e = a + views::VIEW_SIZE;
    let a2 = views::VIEW_SIZE * (at + 1);
    let e2 = a2 + views::VIEW_SIZE;
    let told = comparison::by_views(&l.views[a..e], &l.views[a2..e2]);
    match told {
        Some(o) => o,
        None => {
            let x = column::value_part(l, blocks, at);
            let y = column::value_part(l, blocks, at + 1);
            order::cmp(x, y)
        }
    }
}

// Whether a row is below the next one, by whether each is reachable.
fn is_below<'a>(l: Buffers<'a, '_>, c: Column, k: usize, good: bool, next: bool) -> bool
    requires { (fits (lent_of l) c ≡ true) × (k + 1 < c.rows) × (good ≡ reachable_at (lent_of l) c k)
        × (next ≡ reachable_at (lent_of l) c (k + 1)) }
    ensures { result ≡ (compared_number (compare_rows (lent_of l.entry) c k
        (lent_of l.entry) c (k + 1)) == 0) }
{
    if !good {
        return false;
    }
    next && order_of(l, c.blocks, c.first + k).is_lt()
}

// How many rows of a column that fits are below the next one. Each row is looked at once: what is found of the next one is carried along.
fn count_less<'a>(l: Buffers<'a, '_>, c: Column) -> u64
    requires { fits (lent_of l) c ≡ true }
    ensures { result ≡ less_rows (lent_of l.entry) c (c.rows - 1) }
{
    if c.rows == 0 {
        return 0;
    }
    let known = column::all_in_data(l.bytes, l.starts, l.lens, c.blocks);
    let mut good = column::is_reached(spot_of(l, c, known, 0));
    let mut n = 0;
    for k in 0..c.rows - 1 {
        let s = spot_of(l, c, known, k + 1);
        let next = column::is_reached(s);
        n += u64::from(is_below(l, c, k, good, next));
        good = next;
    }
    n
}

// How many rows are below the next one, by their views; 0 where the column doesn't fit its buffers.
#[unsafe(no_mangle)]
pub extern "C" fn bench_count_less<'a>(
    views: &'a [u8],
    bytes: &'a [u8],
    starts: &[usize],
    lens: &[usize],
    nulls: &[u8],
    column: &[usize; 5],
) -> u64
    ensures { result ≡ less_batch (lent views.now bytes.now starts.now lens.now nulls.now) (column_from column.now) }
{
    let c = numbers::column_of(column);
    let l = Buffers {
        views,
        bytes,
        starts,
        lens,
        nulls,
    };
    if !column::fits(l, c) {
        return 0;
    }
    count_less(l, c)
}

fn taste(x: &[u8]) -> u64
    ensures { result ≡ taste_of x.now }
{
    match x {
        [] => 0,
        [b, ..] => (x.len() as u64).wrapping_add(u64::from(*b)),
    }
}

// A sum and the taste of what stands there, added in each case: the loop then has no choice between the two slices.
fn taste_more(views: &[u8], bytes: &[u8], s: Spot, sum: u64) -> u64
    requires { Lies views.now bytes.now s }
    ensures { result ≡ (sum + taste_of (bytes_at views.now bytes.now s)) % 2 ^ 64 }
{
    match s {
        Spot::View(a, n) => sum.wrapping_add(taste(&views[a..a + n])),
        Spot::Data(a, n) => sum.wrapping_add(taste(&bytes[a..a + n])),
        Spot::NoBlock | Spot::Outside => sum,
    }
}

// The lengths and the first bytes of all values of a column that fits, added up modulo 2^64.
fn taste_all<'a>(l: Buffers<'a, '_>, c: Column) -> u64
    requires { fits (lent_of l) c ≡ true }
    ensures { result ≡ taste_rows (lent_of l.entry) c c.rows }
{
    let known = column::all_in_data(l.bytes, l.starts, l.lens, c.blocks);
    let mut sum = 0;
    for k in 0..c.rows {
        let s = spot_of(l, c, known, k);
        sum = taste_more(l.views, l.bytes, s, sum);
    }
    sum
}

// The lengths and the first bytes of all values, added up modulo 2^64; 0 where the column doesn't fit its buffers.
#[unsafe(no_mangle)]
pub extern "C" fn bench_read_all<'a>(
    views: &'a [u8],
    bytes: &'a [u8],
    starts: &[usize],
    lens: &[usize],
    nulls: &[u8],
    column: &[usize; 5],
) -> u64
    ensures { result ≡ taste_batch (lent views.now bytes.now starts.now lens.now nulls.now) (column_from column.now) }
{
    let c = numbers::column_of(column);
    let l = Buffers {
        views,
        bytes,
        starts,
        lens,
        nulls,
    };
    if !column::fits(l, c) {
        return 0;
    }
    taste_all(l, c)
}
