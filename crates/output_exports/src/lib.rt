// Compaction and the offset column for C and Rust: a column by numbers and lent slices into lent slices and numbers. include/tambuyeel.h says the same for C.
#![tactic(auto)]

ghost use Rattle.std.specs.Prelude.{not, eqb};
ghost use Rattle.column.specs.Lent.{lent};
ghost use Rattle.offsets.specs.Offsets.{source};
ghost use Rattle.numbers.specs.Numbers.{column_from, kind_from};
ghost use Rattle.output_exports.specs.Given.{ExportsCompact, Converts};

use column::Buffers;
use numbers::Told;

// Compaction: 0, or 1, 2, 11 with its row, 5, 6 or 7. Refused, the new column's buffers and numbers stay as they came. Source and output are apart.
#[unsafe(no_mangle)]
pub extern "C" fn tambuyeel_compact<'a>(
    views: &'a [u8],
    bytes: &'a [u8],
    starts: &[usize],
    lens: &[usize],
    nulls: &[u8],
    column: &[usize; 5],
    most: usize,
    newviews: &mut [u8],
    newbytes: &mut [u8],
    newstarts: &mut [usize],
    newlens: &mut [usize],
    newnulls: &mut [u8],
    newcolumn: &mut [usize; 5],
) -> Told
    ensures { ExportsCompact most (lent views.now bytes.now starts.now lens.now nulls.now)
        (column_from column.now) newviews.old newbytes.old newstarts.old newlens.old
        newnulls.old newcolumn.old result newviews.new newbytes.new newstarts.new newlens.new
        newnulls.new newcolumn.new }
{
    let done = compaction::compact(
        Buffers {
            views,
            bytes,
            starts,
            lens,
            nulls,
        },
        numbers::column_of(column),
        most,
        newviews,
        newbytes,
        newstarts,
        newlens,
        newnulls,
    );
    numbers::hand(done.why, done.column, newcolumn);
    numbers::told_why(done.why)
}

// A column from 32-bit offsets, little-endian: 0, or 2, 13, 10, 5, 6 or 7. `mapped` 0: there is no input map; `kind` 0 Binary, else String.
#[unsafe(no_mangle)]
pub extern "C" fn tambuyeel_from_offsets<'a>(
    offsets: &[u8],
    bytes: &'a [u8],
    nulls: &[u8],
    mapped: usize,
    kind: usize,
    newviews: &mut [u8],
    newbytes: &mut [u8],
    newstarts: &mut [usize],
    newlens: &mut [usize],
    newnulls: &mut [u8],
    newcolumn: &mut [usize; 5],
) -> u64
    ensures { Converts (source offsets.now bytes.now nulls.now (not (eqb mapped 0))) (kind_from kind)
        newviews.old newbytes.old newstarts.old newlens.old newnulls.old
        newcolumn.old result newviews.new newbytes.new newstarts.new newlens.new newnulls.new
        newcolumn.new }
{
    let done = offsets::from_offsets(
        offsets,
        bytes,
        nulls,
        mapped != 0,
        numbers::kind_of(kind),
        newviews,
        newbytes,
        newstarts,
        newlens,
        newnulls,
    );
    numbers::hand(done.why, done.column, newcolumn);
    u64::from(bounds::why_number(done.why))
}
