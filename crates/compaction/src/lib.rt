// Compaction: the long values of a column copied in row order into blocks of their own, each within a maximum or holding one value.
#![tactic(auto)]

ghost use Rattle.std.specs.Prelude.{◌≡◌, true, ◌+◌, ◌*◌, ◌^◌, ◌≤◌, ◌<◌, length};
ghost use Rattle.std.proofs.Math.Seq.{paste};
ghost use Rattle.views.specs.View.{view_size, short_most, long_view, view_at, length_of};
ghost use Rattle.bounds.specs.Bounds.{row_limit};
ghost use Rattle.column.specs.Lent.{lent_of};
ghost use Rattle.column.specs.Room.{InRoom, bare_of};
ghost use Rattle.column.specs.Meaning.{blocks_of, shown};
ghost use Rattle.column.specs.Truth.{reachable};
ghost use Rattle.compaction.specs.Compact.{Wrote};
ghost use Rattle.compaction.specs.Steps.{row_step, room_stand, add_stand, stand_at, Small, SourceFits, PlaceIn, LongIn, RowIn, LongPut, RowPut, TablePut, WriteIn, TableIn, CutCounted, Filled, CutListed, Measured, blocks_by, Judges, map_by};

use bounds::Refusal;
use column::{Buffers, Column};

// A call's verdict and the new column. No `Result`: refused, the column is the one that came (`compact_of`).
#[derive(Clone, Copy)]
pub struct Outcome {
    pub why: Result<(), Refusal>,
    pub column: Column,
}

// How many blocks the new column has, and their bytes.
#[derive(Clone, Copy)]
pub struct Judged {
    pub blocks: usize,
    pub bytes: usize,
}

// Where the walk stands: the blocks closed, their bytes, and the bytes of the current block.
#[derive(Clone, Copy, Default)]
pub struct Stand {
    pub closed: usize,
    pub base: usize,
    pub fill: usize,
}

// `Small` stays a `requires`: it is asked of a walk and the next value's length together, so no invariant of `Stand` can say it.
impl Stand {
    // Where a value of `n` bytes goes.
    fn room_for(self, n: usize, most: usize) -> Stand
        requires { Small n self }
        ensures { result ≡ room_stand most n self }
    {
        if self.fill + n <= most {
            return self;
        }
        Stand {
            closed: self.closed + 1,
            base: self.base + self.fill,
            fill: 0,
        }
    }

    // The walk after a value of `n` bytes in the current block.
    fn grown(self, n: usize) -> Stand
        requires { self.fill + n < 2 ^ 64 }
        ensures { result ≡ add_stand n self }
    {
        Stand {
            fill: self.fill + n,
            ..self
        }
    }

    // The walk after a row of `n` bytes.
    pub fn step(self, n: usize, most: usize) -> Stand
        requires { Small n self }
        ensures { result ≡ row_step most n self }
    {
        if n <= views::SHORT_MOST {
            return self;
        }
        self.room_for(n, most).grown(n)
    }

    // The bytes copied so far.
    pub fn bytes(self) -> usize
        requires { Small 0 self }
        ensures { result ≡ self.base + self.fill }
    {
        self.base + self.fill
    }

    // The blocks that the walk makes: none where it copied nothing.
    pub fn blocks(self) -> usize
        requires { Small 0 self }
        ensures { result ≡ blocks_by self }
    {
        if self.bytes() == 0 {
            return 0;
        }
        self.closed + 1
    }
}

// Where the walk stands after all rows, or the lowest row that isn't true.
fn measure(l: Buffers<'_, '_>, c: Column, most: usize) -> Result<Stand, Refusal>
    requires { SourceFits l.views.now l.starts.now l.lens.now c }
    ensures { Measured most (bare_of l.entry) c result }
{
    let mut s = Stand::default();
    for k in 0..c.rows {
        let at = c.first + k;
        if !column::is_true_at(l, c.kind, c.blocks, at) {
            return Err(Refusal::BadView(k));
        }
        s = s.step(views::view_len(l.views, at), most);
    }
    Ok(s)
}

// Copies a long value to its place, and writes the view of its row.
fn put_value(newviews: &mut [u8], newbytes: &mut [u8], row: usize, value: &[u8], s: Stand)
    requires { PlaceIn newviews.old newbytes.old row value.now s }
    ensures views { newviews.new ≡ paste newviews.old (view_size * row) (long_view value.now s.closed s.fill) view_size }
    ensures bytes { newbytes.new ≡ paste newbytes.old (s.base + s.fill) value.now (length value.now) }
{
    let at = s.base + s.fill;
    copy::copy(value, &mut newbytes[at..]);
    views::long_view(
        newviews,
        views::VIEW_SIZE * row,
        value,
        s.closed as u32,
        s.fill as u32,
    );
}

// The row of a long value.
pub fn put_long(
    newviews: &mut [u8],
    newbytes: &mut [u8],
    row: usize,
    value: &[u8],
    s: Stand,
    most: usize,
) -> Stand
    requires { LongIn (length value.now) newviews.old newbytes.old row s }
    ensures { LongPut most row value.now s newviews.old newbytes.old result newviews.new newbytes.new }
{
    let n = value.len();
    let t = s.room_for(n, most);
    put_value(newviews, newbytes, row, value, t);
    t.grown(n)
}

// The row of any value: a short one's view as it is.
fn put_row(
    l: Buffers<'_, '_>,
    blocks: usize,
    at: usize,
    newviews: &mut [u8],
    newbytes: &mut [u8],
    row: usize,
    s: Stand,
    most: usize,
) -> Stand
    requires source { InRoom l.views.now l.starts.now l.lens.now blocks at × (reachable (bare_of l) blocks
        (view_at l.views.now at) ≡ true) }
    requires room { RowIn (length_of (view_at l.views.now at)) newviews.old newbytes.old row s }
    ensures { RowPut most row (view_at l.entry.views.now at)
        (shown (blocks_of (bare_of l.entry) blocks)
        (view_at l.entry.views.now at)) s newviews.old newbytes.old result newviews.new newbytes.new }
{
    if views::view_len(l.views, at) <= views::SHORT_MOST {
        words::copy16(
            newviews,
            views::VIEW_SIZE * row,
            l.views,
            views::VIEW_SIZE * at,
        );
        return s;
    }
    let value = column::value_part(l, blocks, at);
    put_long(newviews, newbytes, row, value, s, most)
}

// All rows: their views, and the long values end to end.
fn write(l: Buffers<'_, '_>, c: Column, most: usize, newviews: &mut [u8], newbytes: &mut [u8])
    requires source { SourceFits l.views.now l.starts.now l.lens.now c }
    requires room { WriteIn most (bare_of l) c newviews.old newbytes.old }
    ensures { Filled most (bare_of l.entry) c newviews.old
        newbytes.old newviews.new newbytes.new }
{
    let mut s = Stand::default();
    for k in 0..c.rows {
        s = put_row(l, c.blocks, c.first + k, newviews, newbytes, k, s, most);
    }
}

// The table after a row of `n` bytes: where it closes the current block, that block's record is written.
fn put_record(
    newstarts: &mut [usize],
    newlens: &mut [usize],
    n: usize,
    s: Stand,
    most: usize,
) -> Stand
    requires { Small n s × (short_most < n → (s.closed < length newstarts.old) × (s.closed < length newlens.old)) }
    ensures { TablePut most n s newstarts.old newlens.old result newstarts.new newlens.new }
{
    if views::SHORT_MOST < n && most < s.fill + n {
        newstarts[s.closed] = s.base;
        newlens[s.closed] = s.fill;
    }
    s.step(n, most)
}

// The records of all blocks, by the lengths alone.
fn write_table(views: &[u8], c: Column, most: usize, newstarts: &mut [usize], newlens: &mut [usize])
    requires { (view_size * (c.first + c.rows) ≤ length views.now) × (c.first + c.rows ≤ row_limit)
        × (TableIn (stand_at most (λ r. view_at views.now (c.first + r)) c.rows) newstarts.old newlens.old) }
    ensures { CutListed most (λ r. view_at views.now (c.first + r)) c.rows newstarts.old newlens.old
        newstarts.new newlens.new }
{
    let mut s = Stand::default();
    for k in 0..c.rows {
        let n = views::view_len(views, c.first + k);
        s = put_record(newstarts, newlens, n, s, most);
    }
    if s.bytes() != 0 {
        newstarts[s.closed] = s.base;
        newlens[s.closed] = s.fill;
    }
}

// The same; where the first pass found no block or one, there is nothing to walk.
fn put_table(
    views: &[u8],
    c: Column,
    most: usize,
    j: Judged,
    newstarts: &mut [usize],
    newlens: &mut [usize],
)
    requires source { (view_size * (c.first + c.rows) ≤ length views.now) × (c.first + c.rows ≤ row_limit)
        × (TableIn (stand_at most (λ r. view_at views.now (c.first + r)) c.rows) newstarts.old newlens.old) }
    requires counted { CutCounted most (λ r. view_at views.now (c.first + r)) c.rows j.blocks j.bytes }
    ensures { CutListed most (λ r. view_at views.now (c.first + r)) c.rows newstarts.old newlens.old
        newstarts.new newlens.new }
{
    match j.blocks {
        0 => {}
        1 => {
            newstarts[0] = 0;
            newlens[0] = j.bytes;
        }
        _ => write_table(views, c, most, newstarts, newlens),
    }
}

// The blocks of the new column, or why the call is refused.
fn judge(l: Buffers<'_, '_>, c: Column, most: usize, to: Buffers<'_, '_>) -> Result<Judged, Refusal>
    ensures { Judges most (lent_of l.entry) c (lent_of to.entry) result }
{
    if bounds::MOST_COMPACTION < most {
        return Err(Refusal::Setting);
    }
    if !column::fits(l, c) {
        return Err(Refusal::Fit);
    }
    let s = measure(l, c, most)?;
    let blocks = s.blocks();
    let bytes = s.bytes();
    laying::why_rooms(to, c.mapped, c.rows, blocks, bytes)?;
    Ok(Judged { blocks, bytes })
}

// The map, if there is one, from bit 0 on.
pub fn put_map(newnulls: &mut [u8], nulls: &[u8], c: Column)
    requires { (c.mapped ≡ true → (c.rows ≤ 8 * length newnulls.old) × (c.first + c.rows ≤ 8 * length nulls.now)) × (c.first + c.rows < 2 ^ 63) }
    ensures { newnulls.new ≡ map_by newnulls.old nulls.now c.mapped c.first c.rows }
{
    if c.mapped {
        null_bits::runs::copy_column(newnulls, 0, nulls, c.mapped, c.first, c.rows);
    }
}

// Writes a column anew into buffers of its own: long values in row order, null rows too, in blocks within a maximum or of one value.
// What is written stays five slices: C lends them so, and the theorems `one-views` to `one-nulls` speak of each at exit.
pub fn compact<'a>(
    l: Buffers<'a, '_>,
    c: Column,
    most: usize,
    newviews: &mut [u8],
    newbytes: &mut [u8],
    newstarts: &mut [usize],
    newlens: &mut [usize],
    newnulls: &mut [u8],
) -> Outcome
    ensures { Wrote most (lent_of l.entry) c
        newviews.old newbytes.old newstarts.old newlens.old newnulls.old result
        newviews.new newbytes.new newstarts.new newlens.new newnulls.new }
{
    let to = Buffers {
        views: newviews,
        bytes: newbytes,
        starts: newstarts,
        lens: newlens,
        nulls: newnulls,
    };
    match judge(l, c, most, to) {
        Err(r) => Outcome {
            why: Err(r),
            column: c,
        },
        Ok(j) => {
            write(l, c, most, newviews, newbytes);
            put_table(l.views, c, most, j, newstarts, newlens);
            put_map(newnulls, l.nulls, c);
            Outcome {
                why: Ok(()),
                column: Column {
                    first: 0,
                    blocks: j.blocks,
                    ..c
                },
            }
        }
    }
}
