// Instruments of tests, no part of the library: the value calls over a table of records, asked by a table of two number slices, as through_records has the
// other calls. Their contracts say no more than that they are safe and end.
#![tactic(auto)]

use builder::{Answer, State};
use through_records::Table;

// A value is added.
pub fn append_value(
    s: State,
    views: &mut [u8],
    bytes: &mut [u8],
    starts: &mut [usize],
    lens: &mut [usize],
    nulls: &mut [u8],
    places: &mut [u32],
    x: &[u8],
) -> Answer {
    let mut t = Table::gather(starts, lens);
    let r = filing_values::append_value(s, views, bytes, t.lend(), nulls, places, x);
    t.scatter(starts, lens);
    r
}

// A value is added as often as `times` says.
pub fn append_values(
    s: State,
    views: &mut [u8],
    bytes: &mut [u8],
    starts: &mut [usize],
    lens: &mut [usize],
    nulls: &mut [u8],
    places: &mut [u32],
    x: &[u8],
    times: usize,
) -> Answer {
    let mut t = Table::gather(starts, lens);
    let r = filing_values::append_values(s, views, bytes, t.lend(), nulls, places, x, times);
    t.scatter(starts, lens);
    r
}
