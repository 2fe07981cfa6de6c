// Values added in a batch to a fresh builder, an instrument for timing: nothing is promised of the whole but that it misuses nothing. Each value is added
// by `values::add_part`, whose promise is that of the value call.
#![tactic(auto)]

ghost use Rattle.std.specs.Prelude.{◌≡◌, true, ◌-◌, ◌≤◌, ◌<◌, length};
ghost use Rattle.bounds.specs.Bounds.{byte_limit};
ghost use Rattle.builder.specs.State.{held, rows_room, fits_state};

use builder::{Merging, State};
use column::Kind;
use growth::Growth;

fn merging_of(merge: usize) -> Merging {
    if merge == 0 {
        Merging::Off
    } else {
        Merging::On
    }
}

fn fresh(merge: usize) -> State {
    State {
        kind: Kind::Binary,
        growth: Growth::Doubling(growth::START_SIZE),
        merging: merging_of(merge),
        rows: 0,
        blocks: 0,
        base: 0,
        fill: 0,
        cap: 0,
        nulled: false,
    }
}

// One value more. The state fits what is lent before and after, so it isn't asked again.
fn turn(
    s: State,
    views: &mut [u8],
    bytes: &mut [u8],
    starts: &mut [usize],
    lens: &mut [usize],
    nulls: &mut [u8],
    places: &mut [u32],
    all: &[u8],
    a: usize,
    e: usize,
) -> State
    requires { (fits_state (held s views.old bytes.old starts.old lens.old nulls.old places.old) ≡ true)
        × (s.rows < rows_room (held s views.old bytes.old starts.old lens.old nulls.old places.old))
        × (a ≤ e) × (e ≤ length all.now) × (e - a ≤ byte_limit) }
    ensures { (fits_state (held result views.new bytes.new starts.new lens.new nulls.new
        places.new) ≡ true) × (result.merging ≡ s.merging) }
{
    let t = builder::anew(s);
    values::add_part(t, views, bytes, starts, lens, nulls, places, all, a, e).state
}

// Adds the values of `all` that end at `ends`, each from the end of the one before. Answers the rows added.
#[unsafe(no_mangle)]
pub extern "C" fn tambuyeel_build(
    views: &mut [u8],
    bytes: &mut [u8],
    starts: &mut [usize],
    lens: &mut [usize],
    nulls: &mut [u8],
    places: &mut [u32],
    all: &[u8],
    ends: &[usize],
    merge: usize,
) -> usize {
    let mut s = fresh(merge);
    let room = builder::rows_room(s.merging, views.len(), nulls.len(), places.len());
    if !builder::state_fits(
        s,
        room,
        builder::blocks_room(starts.len(), lens.len()),
        builder::bytes_room(bytes.len()),
    ) {
        return 0;
    }
    let mut a = 0;
    for &e in ends {
        if e < a || all.len() < e || bounds::BYTE_LIMIT < e - a || room <= s.rows {
            break;
        }
        s = turn(s, views, bytes, starts, lens, nulls, places, all, a, e);
        a = e;
    }
    s.rows
}
