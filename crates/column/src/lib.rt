// A column over lent buffers: its numbers, the records of its blocks, the kind of its values, and how far a view reaches.
// The leaves over one row count it from row 0 of the views; their callers know that it is there.
#![tactic(auto)]

ghost use Rattle.std.specs.Prelude.{◌≡◌, true, List, [], ℕ, ◌+◌, ◌*◌, ◌≤◌, length, drop, leb};
ghost use Rattle.bounds.specs.Bounds.{row_limit};
ghost use Rattle.views.specs.View.{view_size, short_most, view_at, length_of, body_of};
ghost use Rattle.column.specs.Lent.{buffers, map_room, data_room, block, table_of, fits, in_data, all_in_data, lent_of};
ghost use Rattle.column.specs.Room.{bare, Listed, InRoom, bare_of};
ghost use Rattle.column.specs.Meaning.{blocks_of, shown};
ghost use Rattle.column.specs.Spot.{spot_of, spot_in, bytes_at, points_to, Lies, Names};
ghost use Rattle.column.specs.Truth.{reach_by, reach_of, is_inside, reachable, zeros, honest, of_kind, is_true};

// What the values are: any bytes, or UTF-8.
#[derive(Clone, Copy)]
pub enum Kind {
    Binary,
    Text,
}

// A block's place in the data.
#[repr(C)]
#[derive(Clone, Copy)]
pub struct Block {
    pub start: usize,
    pub len: usize,
}

// The buffers that a caller lends for a column: the views, the data, the block table as two number slices, and the null map.
// 'a is how long a value may be read, 't how long the table and the map are lent.
// The table stays two number slices: the C interface lends it so. Crate blocks reads over a slice of records.
#[derive(Clone, Copy)]
pub struct Buffers<'a, 't> {
    pub views: &'a [u8],
    pub bytes: &'a [u8],
    pub starts: &'t [usize],
    pub lens: &'t [usize],
    pub nulls: &'t [u8],
}

// A column's numbers. `first` counts from row 0 of the views; a slice moves it and shares all buffers.
// Whether it has a null map stays a flag here, and the map a slice in `Buffers`: the C interface's column has it so, apart from the buffers.
#[derive(Clone, Copy)]
pub struct Column {
    pub first: usize,
    pub rows: usize,
    pub blocks: usize,
    pub kind: Kind,
    pub mapped: bool,
}

// Where a view's value stands, or what keeps it from being read.
// No Result: `spot_of` and its laws in specs/Spot name the four answers in one type, and a caller asks `is_reached` or matches them all.
#[derive(Clone, Copy)]
pub enum Spot {
    // In the views: from where, how many bytes.
    View(usize, usize),
    // In the data.
    Data(usize, usize),
    // The block number isn't below the block count.
    NoBlock,
    // The block isn't in the data, or the range isn't in the block.
    Outside,
}

// Whether a view's value can be read, or what keeps it from being read.
// An enum of its own and no Result: docs/DECISIONS.md 47, and the builder's laws (builder/SearchLaws) cite it.
#[derive(Clone, Copy)]
pub enum Reach {
    Inside,
    NoBlock,
    Outside,
}

// What a row sees of a block table: how many records there are, and the record of the block that its view names.
#[derive(Clone, Copy)]
pub struct Seen {
    pub count: usize,
    pub block: Block,
}

// Whether a column's null map, if it has one, has a bit for each of the rows 0 to `rows` - 1.
pub fn map_holds(nulls: &[u8], mapped: bool, rows: usize) -> bool
    requires { rows ≤ row_limit }
    ensures { result ≡ leb rows (map_room mapped nulls.now) }
{
    !mapped || (rows + 7) / 8 <= nulls.len()
}

// Whether a column's numbers fit the buffers, by how many records the table has.
pub fn fits_with(views: &[u8], nulls: &[u8], c: Column, count: usize) -> bool
    ensures { (result ≡ true → view_size * (c.first + c.rows) ≤ length views.now)
        × ((bytes : List ℕ) (table : List Block) → count ≡ length table → result ≡ fits (buffers views.now bytes table nulls.now) c) }
{
    c.first <= bounds::ROW_LIMIT
        && c.rows <= bounds::ROW_LIMIT - c.first
        && c.first + c.rows <= views.len() / views::VIEW_SIZE
        && map_holds(nulls, c.mapped, c.first + c.rows)
        && c.blocks <= bounds::BLOCK_LIMIT
        && c.blocks <= count
}

// Whether a column's numbers fit the buffers that are lent for it.
pub fn fits(l: Buffers<'_, '_>, c: Column) -> bool
    ensures { result ≡ fits (lent_of l.entry) c }
{
    fits_with(l.views, l.nulls, c, l.starts.len().min(l.lens.len()))
}

// Whether a block lies in the data.
pub fn in_data(bytes: &[u8], start: usize, len: usize) -> bool
    ensures { result ≡ in_data (buffers [] bytes.now [] []) (block start len) }
{
    len <= bounds::BYTE_LIMIT && start <= bounds::BYTE_LIMIT - len && start + len <= bytes.len()
}

// Whether the first blocks of the table lie in the data.
pub fn all_in_data(bytes: &[u8], starts: &[usize], lens: &[usize], blocks: usize) -> bool
    requires { Listed starts.now lens.now blocks }
    ensures { result ≡ all_in_data (bare [] bytes.now starts.now lens.now) blocks }
{
    for k in 0..blocks {
        if !in_data(bytes, starts[k], lens[k]) {
            return false;
        }
    }
    true
}

// How much of the data counts.
pub fn room_of(bytes: &[u8]) -> usize
    ensures { result ≡ data_room (buffers [] bytes.now [] []) }
{
    bytes.len().min(bounds::BYTE_LIMIT)
}

// Where the value of a row stands, by the record of the block that its view names; the row counts from row 0 of the views.
pub fn spot_with(views: &[u8], at: usize, blocks: usize, room: usize, b: Block) -> Spot
    requires { view_size * at + view_size ≤ length views.now }
    ensures { result ≡ spot_of room blocks b (view_at views.now at) at }
{
    let len = views::view_len(views, at);
    if len <= views::SHORT_MOST {
        return Spot::View(views::VIEW_SIZE * at + 4, len);
    }
    if blocks <= views::view_block(views, at) {
        return Spot::NoBlock;
    }
    let offset = views::view_offset(views, at);
    if b.len < offset + len || room < b.len || room - b.len < b.start {
        return Spot::Outside;
    }
    Spot::Data(b.start + offset, len)
}

// The record of the block that the view of a row names, of the first blocks of the table; an empty one where it names none.
// An Option would be no plainer: `spot_with` takes a record and doesn't look at it then (`Names` asks nothing of it).
fn record_at(l: Buffers<'_, '_>, blocks: usize, at: usize) -> Block
    requires { InRoom l.views.now l.starts.now l.lens.now blocks at }
    ensures { Names (table_of l.entry.starts.now l.entry.lens.now) blocks (view_at l.entry.views.now at) result }
{
    if views::view_len(l.views, at) <= views::SHORT_MOST {
        return Block { start: 0, len: 0 };
    }
    let k = views::view_block(l.views, at);
    if blocks <= k {
        return Block { start: 0, len: 0 };
    }
    Block {
        start: l.starts[k],
        len: l.lens[k],
    }
}

// Where the value of a row stands, over the first blocks of a table of two number slices.
pub fn spot_at(l: Buffers<'_, '_>, blocks: usize, at: usize) -> Spot
    requires { InRoom l.views.now l.starts.now l.lens.now blocks at }
    ensures { result ≡ spot_in (bare_of l.entry) blocks
        (view_at l.entry.views.now at) at }
{
    let b = record_at(l, blocks, at);
    spot_with(l.views, at, blocks, room_of(l.bytes), b)
}

// Whether a block lies in the data, where it may be known that it does.
fn lies(bytes: &[u8], start: usize, len: usize, known: bool) -> bool
    ensures { (known ≡ true → in_data (buffers [] bytes.now [] []) (block start len) ≡ true)
        → result ≡ in_data (buffers [] bytes.now [] []) (block start len) }
{
    known || in_data(bytes, start, len)
}

// The same as `spot_at`, where it may be known that the first blocks of the table lie in the data: no long row is then tested for it.
pub fn spot_knowing(l: Buffers<'_, '_>, blocks: usize, known: bool, at: usize) -> Spot
    requires { InRoom l.views.now l.starts.now l.lens.now blocks at
        × (known ≡ true → all_in_data (bare [] l.bytes.now l.starts.now l.lens.now) blocks ≡ true) }
    ensures { result ≡ spot_in (bare_of l.entry) blocks
        (view_at l.entry.views.now at) at }
{
    let len = views::view_len(l.views, at);
    if views::SHORT_MOST < len {
        let k = views::view_block(l.views, at);
        if blocks <= k {
            return Spot::NoBlock;
        }
        let offset = views::view_offset(l.views, at);
        let start = l.starts[k];
        let size = l.lens[k];
        if size < offset + len || !lies(l.bytes, start, size, known) {
            return Spot::Outside;
        }
        return Spot::Data(start + offset, len);
    }
    Spot::View(views::VIEW_SIZE * at + 4, len)
}

fn reach_of(s: Spot) -> Reach
    ensures { result ≡ reach_by s }
{
    match s {
        Spot::View(..) | Spot::Data(..) => Reach::Inside,
        Spot::NoBlock => Reach::NoBlock,
        Spot::Outside => Reach::Outside,
    }
}

// Whether a value that stands so can be read.
pub fn is_reached(s: Spot) -> bool
    ensures { result ≡ is_inside (reach_by s) }
{
    matches!(s, Spot::View(..) | Spot::Data(..))
}

// The bytes that stand there: a part of the views or of the data; an empty one of the views where there is none.
pub fn part_of<'a>(views: &'a [u8], bytes: &'a [u8], s: Spot) -> &'a [u8]
    requires { Lies views.now bytes.now s }
    ensures { (result.now ≡ bytes_at views.now bytes.now s) × (result.ref_ptr ≡ points_to views.entry.ref_ptr bytes.entry.ref_ptr s) }
{
    match s {
        Spot::View(a, n) => &views[a..a + n],
        Spot::Data(a, n) => &bytes[a..a + n],
        Spot::NoBlock | Spot::Outside => &views[..0],
    }
}

// How far the view of a row reaches over the first blocks of the table.
pub fn reach_at(l: Buffers<'_, '_>, blocks: usize, at: usize) -> Reach
    requires { InRoom l.views.now l.starts.now l.lens.now blocks at }
    ensures { result ≡ reach_of (bare_of l.entry) blocks
        (view_at l.entry.views.now at) }
{
    reach_of(spot_at(l, blocks, at))
}

// Whether the view of a row is reachable.
pub fn reachable_at(l: Buffers<'_, '_>, blocks: usize, at: usize) -> bool
    requires { InRoom l.views.now l.starts.now l.lens.now blocks at }
    ensures { result ≡ reachable (bare_of l.entry) blocks
        (view_at l.entry.views.now at) }
{
    is_reached(spot_at(l, blocks, at))
}

// Where the value of a row stands whose view is reachable.
fn spot_reached(l: Buffers<'_, '_>, blocks: usize, at: usize) -> Spot
    requires { InRoom l.views.now l.starts.now l.lens.now blocks at × (reachable (bare_of l) blocks
        (view_at l.views.now at) ≡ true) }
    ensures { result ≡ spot_in (bare_of l.entry) blocks
        (view_at l.entry.views.now at) at }
{
    let len = views::view_len(l.views, at);
    if views::SHORT_MOST < len {
        let k = views::view_block(l.views, at);
        let offset = views::view_offset(l.views, at);
        return Spot::Data(l.starts[k] + offset, len);
    }
    Spot::View(views::VIEW_SIZE * at + 4, len)
}

// The value that a reachable view shows: a part of the views where it is short, of the data where it is long.
pub fn value_part<'a>(l: Buffers<'a, '_>, blocks: usize, at: usize) -> &'a [u8]
    requires { InRoom l.views.now l.starts.now l.lens.now blocks at × (reachable (bare_of l) blocks
        (view_at l.views.now at) ≡ true) }
    ensures { (result.now ≡ shown (blocks_of (bare_of l.entry) blocks)
        (view_at l.entry.views.now at))
        × (result.ref_ptr ≡ points_to l.entry.views.ref_ptr l.entry.bytes.ref_ptr (spot_in (bare_of l.entry) blocks (view_at l.entry.views.now at) at)) }
{
    let s = spot_reached(l, blocks, at);
    part_of(l.views, l.bytes, s)
}

// Whether the bytes after a short value, which its view holds up to its end, are zeros.
fn zeros_after(views: &[u8], at: usize, len: usize) -> bool
    requires { (view_size * at + view_size ≤ length views.now) × (len ≤ short_most) }
    ensures { result ≡ zeros (drop len (body_of (view_at views.now at))) }
{
    let body = views::VIEW_SIZE * at + 4;
    let hi = words::le64(views, body + 4);
    if len < 4 {
        hi == 0 && words::le32(views, body) >> (8 * len) == 0
    } else {
        len == views::SHORT_MOST || hi >> (8 * (len - 4)) == 0
    }
}

// Whether a view is honest about the value that it shows.
pub fn honest_at(views: &[u8], at: usize, value: &[u8]) -> bool
    requires { (view_size * at + view_size ≤ length views.now) × (length value.now ≡ length_of (view_at views.now at)) }
    ensures { result ≡ honest (view_at views.now at) value.now }
{
    let len = value.len();
    if len <= views::SHORT_MOST {
        zeros_after(views, at, len)
    } else {
        words::le32(views, views::VIEW_SIZE * at + 4) == words::le32(value, 0)
    }
}

// Whether a value is one of the kind.
pub fn of_kind(kind: Kind, value: &[u8]) -> bool
    ensures { result ≡ of_kind kind value.now }
{
    match kind {
        Kind::Binary => true,
        Kind::Text => utf8::is_utf8(value),
    }
}

// Whether the view of a row is true for values of a kind, by the record of the block that it names.
pub fn true_with<'a>(
    views: &'a [u8],
    bytes: &'a [u8],
    at: usize,
    kind: Kind,
    blocks: usize,
    b: Block,
) -> bool
    requires { view_size * at + view_size ≤ length views.now }
    ensures { (table : List Block) (nulls : List ℕ) → Names table blocks (view_at views.now at) b
        → result ≡ is_true (buffers views.now bytes.now table nulls) kind blocks (view_at views.now at) }
{
    let s = spot_with(views, at, blocks, room_of(bytes), b);
    if !is_reached(s) {
        return false;
    }
    let value = part_of(views, bytes, s);
    honest_at(views, at, value) && of_kind(kind, value)
}

// Whether the view of a row is true for values of a kind.
pub fn is_true_at<'a>(l: Buffers<'a, '_>, kind: Kind, blocks: usize, at: usize) -> bool
    requires { InRoom l.views.now l.starts.now l.lens.now blocks at }
    ensures { result ≡ is_true (bare_of l.entry) kind blocks
        (view_at l.entry.views.now at) }
{
    let b = record_at(l, blocks, at);
    true_with(l.views, l.bytes, at, kind, blocks, b)
}
