// A column from the offset layout: one more offset than rows, and the bytes that they cut. Offsets are of four bytes, or of eight in the Large form.
#![tactic(auto)]

ghost use Rattle.std.specs.Prelude.{◌≡◌, true, ◌&&◌, ℕ, ◌+◌, ◌*◌, ◌/◌, ◌^◌, ◌≤◌, ◌<◌, ltb, length, MatchOption};
ghost use Rattle.std.proofs.Math.Seq.{paste};
ghost use Rattle.views.specs.View.{view_size};
ghost use Rattle.bounds.specs.Refusals.{answered};
ghost use Rattle.column.specs.Lent.{lent_of};
ghost use Rattle.column.specs.Truth.{of_kind};
ghost use Rattle.laying.specs.Written.{put_rows};
ghost use Rattle.offsets.specs.Offsets.{source, offset_at, offset_count, half, cuts, cut_at, any_null, kind_at, row_view_of, rows_in, why_offsets, Converted};
ghost use Rattle.offsets.specs.Steps.{width, source_of, rising, all_kinds, CutIn, SourceIn};
ghost use Rattle.utf8.specs.Cut.{Begins};

use bounds::Refusal;
use column::{Buffers, Column, Kind};

// A call's verdict and the new column. No `Result`: refused, it is a column without rows of the kind asked for (`offsets_of`).
#[derive(Clone, Copy)]
pub struct Outcome {
    pub why: Result<(), Refusal>,
    pub column: Column,
}

// What is read: the offsets, in the Large form of eight bytes each, the bytes that they cut, and the map, if there is one.
#[derive(Clone, Copy)]
struct Input<'a, 't> {
    offsets: &'t [u8],
    large: bool,
    bytes: &'a [u8],
    nulls: &'t [u8],
    mapped: bool,
}

// Whether no sequence of text goes on at a place.
fn begins(bytes: &[u8], o: usize) -> bool
    ensures { result ≡ true → Begins bytes.now o }
{
    match bytes.get(o) {
        None => true,
        Some(b) => *b < 0x80 || 0xc0 <= *b,
    }
}

impl<'a> Input<'a, '_> {
    // How many offsets there are.
    fn count(self) -> usize
        ensures { (result ≡ offset_count (width self.entry) self.entry.offsets.now) × (result < 2 ^ 62) }
    {
        if self.large {
            self.offsets.len() / 8
        } else {
            self.offsets.len() / 4
        }
    }

    // How many rows: one less than offsets, where there is an offset.
    fn rows(self) -> Option<usize>
        ensures { MatchOption result (0 ≡ offset_count (width self.entry) self.entry.offsets.now)
            (λ n. (n + 1 ≡ offset_count (width self.entry) self.entry.offsets.now) × (n < 2 ^ 62)) }
    {
        self.count().checked_sub(1)
    }

    fn offset_at(self, j: usize) -> usize
        requires { j < offset_count (width self) self.offsets.now }
        ensures { result ≡ offset_at (width self.entry) self.entry.offsets.now j }
    {
        if self.large {
            words::le64(self.offsets, 8 * j) as usize
        } else {
            words::le32(self.offsets, 4 * j) as usize
        }
    }

    // The first number that, as a signed one, is negative.
    fn half(self) -> usize
        ensures { result ≡ half (width self.entry) }
    {
        if self.large {
            9223372036854775808
        } else {
            2147483648
        }
    }

    // Whether none of the offsets 1 to `rows` is below the one before it.
    fn rises(self, rows: usize) -> bool
        requires { (rows < offset_count (width self) self.offsets.now) × (rows < 2 ^ 62) }
        ensures { result ≡ rising (width self.entry) self.entry.offsets.now rows }
    {
        let mut last = self.offset_at(0);
        for j in 0..rows {
            let next = self.offset_at(j + 1);
            if next < last {
                return false;
            }
            last = next;
        }
        true
    }

    // Whether the offsets, one more than `rows`, are lawful and within the bytes.
    fn cuts(self, rows: usize) -> bool
        requires { (rows + 1 ≡ offset_count (width self) self.offsets.now) × (rows < 2 ^ 62) }
        ensures { result ≡ cuts (width self.entry) self.entry.offsets.now (length self.entry.bytes.now) }
    {
        let last = self.offset_at(rows);
        last < self.half() && last <= self.bytes.len() && self.rises(rows)
    }

    // The bytes that a row's two offsets cut out.
    fn value_part(self, j: usize) -> &'a [u8]
        requires { CutIn (width self) self.offsets.now (length self.bytes.now) j × (j < 2 ^ 62) }
        ensures { result.now ≡ cut_at (width self.entry) self.entry.offsets.now self.entry.bytes.now j }
    {
        let a = self.offset_at(j);
        let e = self.offset_at(j + 1);
        &self.bytes[a..e]
    }

    // Whether a row is of the kind; a null one is of every kind.
    fn row_of_kind(self, kind: Kind, j: usize) -> bool
        requires { CutIn (width self) self.offsets.now (length self.bytes.now) j × (j < 2 ^ 62)
            × (self.mapped ≡ true → j / 8 < length self.nulls.now) }
        ensures { result ≡ kind_at (width self.entry) (source_of self.entry) kind j }
    {
        if !null_bits::valid_at(self.nulls, self.mapped, j) {
            return true;
        }
        column::of_kind(kind, self.value_part(j))
    }

    // Whether no sequence of text goes on at an offset.
    fn on_bounds(self, rows: usize) -> bool
        requires { (rows < offset_count (width self) self.offsets.now) × (rows < 2 ^ 62) }
        ensures { result ≡ true → (j : ℕ) → j ≤ rows → Begins self.entry.bytes.now (offset_at (width self.entry) self.entry.offsets.now j) }
    {
        for j in 0..rows + 1 {
            if !begins(self.bytes, self.offset_at(j)) {
                return false;
            }
        }
        true
    }

    // Whether one look at all bytes shows that each row is of the kind; a no says nothing.
    fn whole(self, kind: Kind, rows: usize) -> bool
        requires { (rows < offset_count (width self) self.offsets.now) × (rows < 2 ^ 62)
            × ((j : ℕ) → j < rows → CutIn (width self) self.offsets.now (length self.bytes.now) j) }
        ensures { result ≡ true → (j : ℕ) → j < rows → of_kind kind (cut_at (width self.entry) self.entry.offsets.now self.entry.bytes.now j) ≡ true }
    {
        match kind {
            Kind::Binary => true,
            Kind::Text => utf8::is_utf8(self.bytes) && self.on_bounds(rows),
        }
    }

    // Whether each row is of the kind.
    fn all_of_kind(self, kind: Kind, rows: usize) -> bool
        requires { SourceIn (width self) (source_of self) rows }
        ensures { result ≡ all_kinds (width self.entry) (source_of self.entry) kind rows }
    {
        if self.whole(kind, rows) {
            return true;
        }
        for j in 0..rows {
            if !self.row_of_kind(kind, j) {
                return false;
            }
        }
        true
    }

    // Whether a map is lent that has too few bits.
    fn map_short(self, rows: usize) -> bool
        requires { rows < 2 ^ 62 }
        ensures { result ≡ self.entry.mapped && ltb (8 * length self.entry.nulls.now) rows }
    {
        self.mapped && self.nulls.len() < (rows + 7) / 8
    }

    // How many rows the new column has, or why the call is refused.
    fn judge(self, kind: Kind, to: Buffers<'_, '_>) -> Result<usize, Refusal>
        ensures { result ≡ answered (why_offsets (width self.entry) (source_of self.entry) kind (lent_of to.entry))
            (rows_in (width self.entry) (source_of self.entry)) }
    {
        let Some(rows) = self.rows() else {
            return Err(Refusal::Offsets);
        };
        if self.map_short(rows) {
            return Err(Refusal::Fit);
        }
        if !self.cuts(rows) {
            return Err(Refusal::Offsets);
        }
        if !self.all_of_kind(kind, rows) {
            return Err(Refusal::NotUtf8);
        }
        laying::why_rooms(to, true, rows, 1, self.bytes.len())?;
        Ok(rows)
    }

    // Writes the view of a row: a null one's is zero.
    fn put_row(self, newviews: &mut [u8], j: usize)
        requires { CutIn (width self) self.offsets.now (length self.bytes.now) j × (self.mapped ≡ true → j / 8 < length self.nulls.now)
            × (view_size * j + view_size ≤ length newviews.old) × (length self.bytes.now < 2 ^ 32) × (j < 2 ^ 59) }
        ensures { newviews.new ≡ paste newviews.old (view_size * j) (row_view_of (width self.entry) (source_of self.entry) j) view_size }
    {
        if !null_bits::valid_at(self.nulls, self.mapped, j) {
            views::zero_view(newviews, views::VIEW_SIZE * j);
            return;
        }
        let a = self.offset_at(j);
        let value = self.value_part(j);
        views::put_view(newviews, views::VIEW_SIZE * j, value, 0, a as u32);
    }

    // All rows' views.
    fn write(self, newviews: &mut [u8], rows: usize)
        requires { SourceIn (width self) (source_of self) rows × (view_size * rows ≤ length newviews.old)
            × (length self.bytes.now < 2 ^ 32) × (rows < 2 ^ 59) }
        ensures { newviews.new ≡ put_rows newviews.old (row_view_of (width self.entry) (source_of self.entry)) rows }
    {
        for j in 0..rows {
            self.put_row(newviews, j);
        }
    }

    // Whether one of the first rows is null.
    fn any_null(self, rows: usize) -> bool
        requires { self.mapped ≡ true → rows ≤ 8 * length self.nulls.now }
        ensures { result ≡ any_null self.entry.nulls.now self.entry.mapped rows }
    {
        null_bits::count_nulls(self.nulls, self.mapped, 0, rows) != 0
    }

    fn convert(
        self,
        kind: Kind,
        newviews: &mut [u8],
        newbytes: &mut [u8],
        newstarts: &mut [usize],
        newlens: &mut [usize],
        newnulls: &mut [u8],
    ) -> Outcome
        ensures { Converted (width self.entry) (source_of self.entry) kind
            newviews.old newbytes.old newstarts.old newlens.old newnulls.old result
            newviews.new newbytes.new newstarts.new newlens.new newnulls.new }
    {
        let to = Buffers {
            views: newviews,
            bytes: newbytes,
            starts: newstarts,
            lens: newlens,
            nulls: newnulls,
        };
        match self.judge(kind, to) {
            Err(r) => Outcome {
                why: Err(r),
                column: Column {
                    first: 0,
                    rows: 0,
                    blocks: 0,
                    kind,
                    mapped: false,
                },
            },
            Ok(rows) => {
                self.write(newviews, rows);
                copy::chunks(self.bytes, newbytes);
                newstarts[0] = 0;
                newlens[0] = self.bytes.len();
                null_bits::runs::copy_column(newnulls, 0, self.nulls, self.mapped, 0, rows);
                Outcome {
                    why: Ok(()),
                    column: Column {
                        first: 0,
                        rows,
                        blocks: 1,
                        kind,
                        mapped: self.any_null(rows),
                    },
                }
            }
        }
    }
}

// A column from 32-bit offsets: all bytes become one block, a null row's view is zero.
// What is read and written stays slices: C lends them so, and the theorems `one-views` to `one-nulls` speak of each that is written at exit.
pub fn from_offsets<'a>(
    offsets: &[u8],
    bytes: &'a [u8],
    nulls: &[u8],
    mapped: bool,
    kind: Kind,
    newviews: &mut [u8],
    newbytes: &mut [u8],
    newstarts: &mut [usize],
    newlens: &mut [usize],
    newnulls: &mut [u8],
) -> Outcome
    ensures { Converted 4 (source offsets.now bytes.now nulls.now mapped) kind newviews.old
        newbytes.old newstarts.old newlens.old newnulls.old result newviews.new
        newbytes.new newstarts.new newlens.new newnulls.new }
{
    let input = Input {
        offsets,
        large: false,
        bytes,
        nulls,
        mapped,
    };
    input.convert(kind, newviews, newbytes, newstarts, newlens, newnulls)
}
