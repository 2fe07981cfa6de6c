// The builder: its settings and state, whether the state fits what is lent, and the steps that its calls share.
#![tactic(auto)]

ghost use Rattle.std.specs.Prelude.{◌≡◌, ◌+◌, ◌*◌, ◌/◌, ◌^◌, ◌≤◌, ◌<◌, length, get_or};
ghost use Rattle.std.proofs.Math.Seq.{paste};
ghost use Rattle.basis.specs.Pick.{if_lt};
ghost use Rattle.bounds.specs.Bounds.{row_limit, block_limit};
ghost use Rattle.builder.specs.State.{held, places_room, all_blocks, fits_rooms, fits_state, rowed};
ghost use Rattle.builder.specs.Rooms.{room_of_rows, room_of_blocks, room_of_bytes, open_starts, open_lens};

use bounds::Refusal;
use column::Kind;
use growth::Growth;

// Which long values take the view of an earlier row with the same bytes: none, all, or those of at most so many bytes.
#[derive(Clone, Copy)]
pub enum Merging {
    Off,
    On,
    UpTo(usize),
}

// The sizes of new blocks: doubled from one to the next, or always the same.
#[derive(Clone, Copy)]
pub enum Sizes {
    Doubled,
    Same(usize),
}

// What is given at start.
#[derive(Clone, Copy)]
pub struct Settings {
    pub kind: Kind,
    pub sizes: Sizes,
    pub merging: Merging,
}

// `blocks` are the completed ones, `base` the bytes before the open block, `fill` the bytes of the open block, where 0 says that there is none,
// `cap` the open block's capacity, `nulled` whether a null was added. `fill` is no Option: C holds a state as these numbers, and `is_open`, under each
// theorem over a state, asks for 0.
#[derive(Clone, Copy)]
pub struct State {
    pub kind: Kind,
    pub growth: Growth,
    pub merging: Merging,
    pub rows: usize,
    pub blocks: usize,
    pub base: usize,
    pub fill: usize,
    pub cap: usize,
    pub nulled: bool,
}

// A call's verdict, and the state that it leaves: as it came where the call is refused. A record and no Result: `Does`, and the theorems over it, say
// what the state is on a refusal too.
#[derive(Clone, Copy)]
pub struct Answer {
    pub why: Result<(), Refusal>,
    pub state: State,
}

// The bytes of a map that has a bit for every row there can be (`map-enough`).
const MAP_MOST: usize = 4096;

fn places_room(m: Merging, places: usize) -> usize
    ensures { result ≡ places_room m places }
{
    match m {
        Merging::Off => bounds::ROW_LIMIT,
        Merging::On | Merging::UpTo(_) => places,
    }
}

// The room for rows, by the lengths of what is lent.
pub fn rows_room(m: Merging, views: usize, nulls: usize, places: usize) -> usize
    ensures { result ≡ room_of_rows m views nulls places }
{
    let map = 8 * nulls.min(MAP_MOST);
    bounds::ROW_LIMIT
        .min(views / views::VIEW_SIZE)
        .min(map)
        .min(places_room(m, places))
}

pub fn blocks_room(starts: usize, lens: usize) -> usize
    ensures { result ≡ room_of_blocks starts lens }
{
    bounds::BLOCK_LIMIT.min(starts).min(lens)
}

pub fn bytes_room(bytes: usize) -> usize
    ensures { result ≡ room_of_bytes bytes }
{
    bounds::BYTE_LIMIT.min(bytes)
}

// The blocks, the open one included.
pub fn all_blocks(s: State) -> usize
    requires { all_blocks s < 2 ^ 64 }
    ensures { result ≡ all_blocks s }
{
    if s.fill == 0 { s.blocks } else { s.blocks + 1 }
}

// Whether a state fits rooms for so many rows, blocks and bytes.
pub fn state_fits(s: State, rows: usize, blocks: usize, bytes: usize) -> bool
    requires { blocks ≤ block_limit }
    ensures { result ≡ fits_rooms s rows blocks bytes }
{
    s.rows <= rows
        && s.blocks <= blocks
        && all_blocks(s) <= blocks
        && s.base <= bytes
        && s.fill <= bytes - s.base
        && s.growth.fits()
}

// Whether a state fits the buffers that are lent. The buffers are parameters of their own, here and in each call: which of them a call may write differs
// from call to call, and its signature says it, as one struct of them would not.
pub fn fits_lent(
    s: State,
    views: &[u8],
    bytes: &[u8],
    starts: &[usize],
    lens: &[usize],
    nulls: &[u8],
    places: &[u32],
) -> bool
    ensures { result ≡ fits_state (held s views.now bytes.now starts.now lens.now nulls.now
        places.now) }
{
    state_fits(
        s,
        rows_room(s.merging, views.len(), nulls.len(), places.len()),
        blocks_room(starts.len(), lens.len()),
        bytes_room(bytes.len()),
    )
}

// The state with a row more.
pub fn row_more(s: State, valid: bool) -> State
    requires { s.rows < row_limit }
    ensures { result ≡ rowed valid s }
{
    State {
        rows: s.rows + 1,
        nulled: !valid || s.nulled,
        ..s
    }
}

// The record of the open block, if any, is written.
pub fn put_record(s: State, starts: &mut [usize], lens: &mut [usize])
    requires { (all_blocks s ≤ length starts.old) × (all_blocks s ≤ length lens.old) }
    ensures { (starts.new ≡ open_starts s starts.old) × (lens.new ≡ open_lens s lens.old) }
{
    if s.fill != 0 {
        starts[s.blocks] = s.base;
        lens[s.blocks] = s.fill;
    }
}

// A value laid in the unused tail of the data.
pub fn lay(bytes: &mut [u8], at: usize, x: &[u8])
    requires { at + length x.now ≤ length bytes.old }
    ensures { bytes.new ≡ paste bytes.old at x.now (length x.now) }
{
    copy::copy(x, &mut bytes[at..]);
}

// The number at k of those of the completed blocks, or the open block's.
pub fn at_or(numbers: &[usize], blocks: usize, last: usize, k: usize) -> usize
    requires { blocks ≤ length numbers.now }
    ensures { result ≡ if_lt k blocks (get_or numbers.now k 0) last }
{
    if k < blocks { numbers[k] } else { last }
}

// This and the two below make a value anew by its variant, where a copy of it would do but for speed: see `anew`.
fn same_kind(k: Kind) -> Kind
    ensures { result ≡ k }
{
    match k {
        Kind::Binary => Kind::Binary,
        Kind::Text => Kind::Text,
    }
}

fn same_growth(g: Growth) -> Growth
    ensures { result ≡ g }
{
    match g {
        Growth::Fixed(n) => Growth::Fixed(n),
        Growth::Doubling(n) => Growth::Doubling(n),
    }
}

fn same_merging(m: Merging) -> Merging
    ensures { result ≡ m }
{
    match m {
        Merging::Off => Merging::Off,
        Merging::On => Merging::On,
        Merging::UpTo(n) => Merging::UpTo(n),
    }
}

// The same state, made of its numbers: the padding of the one that came in isn't carried from call to call. A copy, `s`, is too slow.
pub fn anew(s: State) -> State
    ensures { result ≡ s }
{
    State {
        kind: same_kind(s.kind),
        growth: same_growth(s.growth),
        merging: same_merging(s.merging),
        rows: s.rows,
        blocks: s.blocks,
        base: s.base,
        fill: s.fill,
        cap: s.cap,
        nulled: s.nulled,
    }
}
