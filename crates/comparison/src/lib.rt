// Two rows of two columns in byte order by their views, and whether two columns show the same.
#![tactic(auto)]

ghost use Rattle.std.specs.Prelude.{◌≡◌, ◌&&◌, List, ℕ, ◌+◌, ◌*◌, ◌≤◌, length};
ghost use Rattle.bounds.specs.Refusals.{accepted};
ghost use Rattle.order.specs.Order.{ordering, cmp};
ghost use Rattle.views.specs.View.{view_size, view_at, is_short};
ghost use Rattle.column.specs.declared.Block.{Block};
ghost use Rattle.column.specs.Lent.{lent_of, buffers};
ghost use Rattle.column.specs.Room.{bare_of};
ghost use Rattle.column.specs.Meaning.{shown};
ghost use Rattle.column.specs.Spot.{Sees};
ghost use Rattle.column.specs.Truth.{reachable_at, lowest};
ghost use Rattle.comparison.specs.Compare.{both_of, compare_views, told_by, compare_rows};
ghost use Rattle.comparison.specs.Same.{why_all, same_row, same_rows, same_column};
ghost use Rattle.comparison.specs.Readable.{RowsInRoom, Comparable, AllComparable};

use bounds::Refusal;
use column::{Buffers, Column, Seen};
use std::cmp::Ordering;

// On which of two columns a call refuses, and why.
#[derive(Clone, Copy, PartialEq, Eq)]
pub enum Side {
    Left(Refusal),
    Right(Refusal),
}

pub fn both_short(len: usize, len2: usize) -> bool
    ensures { result ≡ (is_short len && is_short len2) }
{
    len <= views::SHORT_MOST && len2 <= views::SHORT_MOST
}

// The verdict on two columns by the verdicts on each: the lower number, and of equal ones the left.
fn verdict_of(w: Result<(), Refusal>, v: Result<(), Refusal>) -> Result<(), Side>
    ensures { result ≡ both_of w v }
{
    match (w, v) {
        (Ok(()), Ok(())) => Ok(()),
        (Ok(()), Err(s)) => Err(Side::Right(s)),
        (Err(r), Ok(())) => Err(Side::Left(r)),
        (Err(r), Err(s)) => {
            if r.number() <= s.number() {
                Err(Side::Left(r))
            } else {
                Err(Side::Right(s))
            }
        }
    }
}

// The bytes of a row's view, none where the views have no such row.
fn view_of<'a>(views: &'a [u8], c: Column, row: usize) -> &'a [u8]
    ensures { view_size * (c.first + row) + view_size ≤ length views.now → result.now ≡ view_at views.now (c.first + row) }
{
    let rows = views.len() / views::VIEW_SIZE;
    if rows <= c.first || rows - c.first <= row {
        return &views[..0];
    }
    let a = views::VIEW_SIZE * (c.first + row);
    &views[a..a + views::VIEW_SIZE]
}

// Two views: their four bytes first, which decide between short ones too; then, of short ones, the other eight and the lengths.
pub fn by_views(v: &[u8], w: &[u8]) -> Option<Ordering>
    requires { (length v.now ≡ view_size) × (length w.now ≡ view_size) }
    ensures { (bs cs : List (List ℕ)) → told_by result (cmp (shown bs v.now) (shown cs w.now))
        ≡ compare_views bs v.now cs w.now }
{
    let p = words::be32(v, 4);
    let q = words::be32(w, 4);
    if p != q {
        return Some(order::by_word(p, q));
    }
    if both_short(views::view_len(v, 0), views::view_len(w, 0)) {
        return Some(order::cmp_short(v, w));
    }
    None
}

// Two views and the values that they show.
fn order_with<'a>(v: &'a [u8], x: &'a [u8], w: &'a [u8], y: &'a [u8]) -> Ordering
    ensures { (bs cs : List (List ℕ)) → length v.now ≡ view_size → length w.now ≡ view_size
        → x.now ≡ shown bs v.now → y.now ≡ shown cs w.now → ordering result ≡ compare_views bs v.now cs
        w.now }
{
    if v.len() != views::VIEW_SIZE || w.len() != views::VIEW_SIZE {
        return Ordering::Equal;
    }
    match by_views(v, w) {
        Some(o) => o,
        None => order::cmp(x, y),
    }
}

// Two rows, by what each sees of its table.
pub fn compare_with<'a>(
    views: &'a [u8],
    bytes: &'a [u8],
    nulls: &'a [u8],
    c: Column,
    i: usize,
    s: Seen,
    views2: &'a [u8],
    bytes2: &'a [u8],
    nulls2: &'a [u8],
    d: Column,
    j: usize,
    s2: Seen,
) -> Result<Ordering, Side>
    ensures { (table table2 : List Block) → Sees table views.now (c.first + i) s → Sees table2 views2.now (d.first + j) s2
        → result ≡ compare_rows (buffers views.now bytes.now table nulls.now) c i (buffers views2.now
        bytes2.now table2 nulls2.now) d j }
{
    let p = reading::locate_with(views, bytes, nulls, c, i, s);
    let q = reading::locate_with(views2, bytes2, nulls2, d, j, s2);
    verdict_of(reading::why_of(p), reading::why_of(q))?;
    let x = reading::part_of(views, bytes, p);
    let y = reading::part_of(views2, bytes2, q);
    let v = view_of(views, c, i);
    let w = view_of(views2, d, j);
    Ok(order_with(v, x, w, y))
}

// Row i of one column against row j of another, null bits ignored.
pub fn compare<'a>(
    l: Buffers<'a, '_>,
    c: Column,
    i: usize,
    m: Buffers<'a, '_>,
    d: Column,
    j: usize,
) -> Result<Ordering, Side>
    ensures { result ≡ compare_rows (lent_of l.entry) c i
        (lent_of m.entry) d j }
{
    let p = reading::locate(l, c, i);
    let q = reading::locate(m, d, j);
    verdict_of(reading::why_of(p), reading::why_of(q))?;
    let x = reading::part_of(l.views, l.bytes, p);
    let y = reading::part_of(m.views, m.bytes, q);
    let v = view_of(l.views, c, i);
    let w = view_of(m.views, d, j);
    Ok(order_with(v, x, w, y))
}

// Which rows of a column that fits are reachable: accepted where all are, else the lowest that isn't.
fn judge_rows(l: Buffers<'_, '_>, c: Column) -> Result<(), Refusal>
    requires { RowsInRoom l.views.now l.starts.now l.lens.now c }
    ensures { result ≡ lowest (reachable_at (bare_of l.entry) c) c.rows accepted }
{
    for k in 0..c.rows {
        if !column::reachable_at(l, c.blocks, c.first + k) {
            return Err(Refusal::BadView(k));
        }
    }
    Ok(())
}

// Why the question whether a column is the same as another refuses, of the one.
fn why_all(l: Buffers<'_, '_>, c: Column) -> Result<(), Refusal>
    ensures { result ≡ why_all (lent_of l.entry) c }
{
    if !column::fits(l, c) {
        return Err(Refusal::Fit);
    }
    judge_rows(l, c)
}

// Whether row k of two columns has equal null bits and shows equal values.
fn same_row<'a>(l: Buffers<'a, '_>, c: Column, m: Buffers<'a, '_>, d: Column, k: usize) -> bool
    requires { Comparable (lent_of l) c k (lent_of m) d k }
    ensures { result ≡ same_row (lent_of l.entry) c
        (lent_of m.entry) d k }
{
    let valid = null_bits::valid_at(l.nulls, c.mapped, c.first + k);
    let valid2 = null_bits::valid_at(m.nulls, d.mapped, d.first + k);
    valid == valid2
        && order::same(
            column::value_part(l, c.blocks, c.first + k),
            column::value_part(m, d.blocks, d.first + k),
        )
}

// Whether all rows of two columns of as many rows are the same.
fn same_rows<'a>(l: Buffers<'a, '_>, c: Column, m: Buffers<'a, '_>, d: Column) -> bool
    requires { AllComparable (lent_of l) c (lent_of m) d × (c.rows ≡ d.rows) }
    ensures { result ≡ same_rows (lent_of l.entry) c
        (lent_of m.entry) d c.rows }
{
    for k in 0..c.rows {
        if !same_row(l, c, m, d, k) {
            return false;
        }
    }
    true
}

// Whether two columns have as many rows and, at each row, equal null bits and equal shown values.
pub fn same_column<'a>(
    l: Buffers<'a, '_>,
    c: Column,
    m: Buffers<'a, '_>,
    d: Column,
) -> Result<bool, Side>
    ensures { result ≡ same_column (lent_of l.entry) c
        (lent_of m.entry) d }
{
    verdict_of(why_all(l, c), why_all(m, d))?;
    Ok(c.rows == d.rows && same_rows(l, c, m, d))
}
