// The mark of each row of a column under the code profile, and how many rows have each mark.
// Every public call over a column tests its own inputs: none asks anything of its caller. `Tally::with` asks that the tally has room.
#![tactic(auto)]

ghost use Rattle.std.specs.Prelude.{◌≡◌, true, List, ◌+◌, ◌*◌, ◌<◌, length};
ghost use Rattle.basis.specs.Pick.{pick};
ghost use Rattle.bounds.specs.Bounds.{row_limit};
ghost use Rattle.null_bits.specs.Bits as bits;
ghost use Rattle.column.specs.declared.Block.{Block};
ghost use Rattle.column.specs.Lent.{lent_of, buffers};
ghost use Rattle.column.specs.Spot.{bytes_at, Lies, Sees};
ghost use Rattle.codes.specs.declared.Mark.TheVariants.{Null};
ghost use Rattle.codes.specs.Marks.{mark_of};
ghost use Rattle.marks.specs.Marking.{mark_at, marks_of};
ghost use Rattle.marks.specs.MarkingLaws.{with_mark, Room};

use bounds::Refusal;
use codes::Mark;
use column::{Buffers, Column, Seen, Spot};

// How many rows have each mark.
#[derive(Clone, Copy, Default)]
pub struct Tally {
    pub nulls: usize,
    pub others: usize,
    pub codes: usize,
    pub dates: usize,
}

impl Tally {
    // One more row of a mark.
    pub fn with(self, m: Mark) -> Tally
        requires { Room self }
        ensures { result ≡ with_mark self m }
    {
        match m {
            Mark::Null => Tally {
                nulls: self.nulls + 1,
                ..self
            },
            Mark::Other => Tally {
                others: self.others + 1,
                ..self
            },
            Mark::Code => Tally {
                codes: self.codes + 1,
                ..self
            },
            Mark::Date => Tally {
                dates: self.dates + 1,
                ..self
            },
        }
    }
}

// The mark of a row whose value stands there: the bytes of a null row aren't asked.
fn mark_there<'a>(views: &'a [u8], bytes: &'a [u8], s: Spot, valid: bool) -> Mark
    requires { Lies views.now bytes.now s }
    ensures { result ≡ pick valid (mark_of (bytes_at views.now bytes.now s)) Null }
{
    if valid {
        codes::mark_of(column::part_of(views, bytes, s))
    } else {
        Mark::Null
    }
}

// A row's mark. A view that isn't reachable is refused under a null too.
pub fn mark_at(l: Buffers<'_, '_>, c: Column, row: usize) -> Result<Mark, Refusal>
    ensures { result ≡ mark_at (lent_of l.entry) c row }
{
    let s = reading::locate(l, c, row)?;
    let valid = null_bits::valid_at(l.nulls, c.mapped, c.first + row);
    Ok(mark_there(l.views, l.bytes, s, valid))
}

// Whether a row is valid, where nothing is known of the map: a row past it isn't, nor one past the limit.
fn valid_in(nulls: &[u8], mapped: bool, first: usize, row: usize) -> bool
    ensures { first + row < row_limit → (mapped ≡ true → first + row < 8 * length nulls.now)
        → result ≡ bits.valid_at nulls.now mapped (first + row) }
{
    if bounds::ROW_LIMIT <= first || bounds::ROW_LIMIT - first <= row {
        return false;
    }
    let at = first + row;
    if nulls.len() <= at / 8 {
        !mapped
    } else {
        null_bits::valid_at(nulls, mapped, at)
    }
}

// The same as `mark_at` by what the row sees of the table.
pub fn mark_with<'a>(
    views: &'a [u8],
    bytes: &'a [u8],
    nulls: &'a [u8],
    c: Column,
    row: usize,
    s: Seen,
) -> Result<Mark, Refusal>
    ensures { (table : List Block) → Sees table views.now (c.first + row) s
        → result ≡ mark_at (buffers views.now bytes.now table nulls.now) c row }
{
    let p = reading::locate_with(views, bytes, nulls, c, row, s)?;
    let valid = valid_in(nulls, c.mapped, c.first, row);
    Ok(mark_there(views, bytes, p, valid))
}

// One more row, whose value stands there. It asks for the mark itself, so that a pass over the rows has one call a row.
fn add_there<'a>(views: &'a [u8], bytes: &'a [u8], s: Spot, valid: bool, t: Tally) -> Tally
    requires { Lies views.now bytes.now s × Room t }
    ensures { result ≡ with_mark t (pick valid (mark_of (bytes_at views.now bytes.now s)) Null) }
{
    if valid {
        t.with(codes::mark_of(column::part_of(views, bytes, s)))
    } else {
        t.with(Mark::Null)
    }
}

// How many rows have each mark. The lowest row whose view isn't reachable is refused, under a null too.
pub fn count_marks<'a>(l: Buffers<'a, '_>, c: Column) -> Result<Tally, Refusal>
    ensures { result ≡ marks_of (lent_of l.entry) c }
{
    if !column::fits(l, c) {
        return Err(Refusal::Fit);
    }
    let mut t = Tally::default();
    for k in 0..c.rows {
        let at = c.first + k;
        let s = column::spot_at(l, c.blocks, at);
        if !column::is_reached(s) {
            return Err(Refusal::BadView(k));
        }
        let valid = null_bits::valid_at(l.nulls, c.mapped, at);
        t = add_there(l.views, l.bytes, s, valid, t);
    }
    Ok(t)
}
