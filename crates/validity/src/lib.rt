// The validity check of a column: all its views are true and its blocks lie in the data.
#![tactic(auto)]

ghost use Rattle.std.specs.Prelude.{◌≡◌};
ghost use Rattle.column.specs.Lent.{lent_of};
ghost use Rattle.validity.specs.Check.{why_invalid};

use bounds::Refusal;
use column::{Buffers, Column};

// Why a column isn't valid: its numbers don't fit, the lowest row whose view isn't true, or a block outside the data.
pub fn check<'a>(l: Buffers<'a, '_>, c: Column) -> Result<(), Refusal>
    ensures { result ≡ why_invalid (lent_of l.entry) c }
{
    if !column::fits(l, c) {
        return Err(Refusal::Fit);
    }
    for k in 0..c.rows {
        if !column::is_true_at(l, c.kind, c.blocks, c.first + k) {
            return Err(Refusal::BadView(k));
        }
    }
    if !column::all_in_data(l.bytes, l.starts, l.lens, c.blocks) {
        return Err(Refusal::Range);
    }
    Ok(())
}
