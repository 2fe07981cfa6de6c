// The bits of a run of rows written one after the other, eight at a time: one bit over and over, or the bits of another map's run.
ghost use Rattle.std.specs.Prelude.{◌≡◌, true, ℕ, ◌+◌, ◌*◌, ◌/◌, ◌%◌, ◌^◌, ◌≤◌, ◌<◌, length};
ghost use Rattle.null_bits.specs.Bits.{is_valid};
ghost use Rattle.null_bits.specs.Runs.{digit, put_bits, put_bytes, put_run, copy_bits, copy_column};

// Eight bits of a map from a row on, as a number with the low bit first.
fn byte_at(map: &[u8], row: usize) -> usize
    requires { row + 8 ≤ 8 * length map.now }
    ensures { (result < 256) × ((j : ℕ) → j < 8 → digit result j ≡ is_valid map.now (row + j)) }
{
    let i = row / 8;
    let pos = row % 8;
    let low = map[i] as usize;
    if pos == 0 {
        return low;
    }
    let both = low + 256 * (map[i + 1] as usize);
    (both >> pos) % 256
}

// Appends eight bits, those of a number below 256, from a row on.
fn put_byte(map: &mut [u8], row: usize, x: usize)
    requires { (row + 8 ≤ 8 * length map.old) × (x < 256) }
    ensures { map.new ≡ put_bits map.old row (digit x) 8 }
{
    let i = row / 8;
    let pos = row % 8;
    if pos == 0 {
        map[i] = x as u8;
        return;
    }
    let left = 8 - pos;
    let kept = (map[i] as usize) & ((1usize << pos) - 1);
    let low = x & ((1usize << left) - 1);
    map[i] = (kept + (low << pos)) as u8;
    map[i + 1] = (x >> left) as u8;
}

// One bit eight times.
fn all_bits(valid: bool) -> usize
    ensures { (result < 256) × ((j : ℕ) → j < 8 → digit result j ≡ valid) }
{
    if valid { 255 } else { 0 }
}

// Appends the first n bits of a number below 256, where they lie in one byte of the map.
fn put_part(map: &mut [u8], row: usize, n: usize, x: usize)
    requires { (row + n ≤ 8 * length map.old) × (row % 8 + n ≤ 8) × (n < 8) × (x < 256) }
    ensures { map.new ≡ put_bits map.old row (digit x) n }
{
    let i = row / 8;
    let pos = row % 8;
    if n == 0 {
        return;
    }
    let kept = (map[i] as usize) & ((1usize << pos) - 1);
    let low = x & ((1usize << n) - 1);
    map[i] = (kept + (low << pos)) as u8;
}

// Whole bytes of the map, the same number below 256 in each.
fn put_bytes(map: &mut [u8], i: usize, bytes: usize, x: usize)
    requires { (i + bytes ≤ length map.old) × (x < 256) }
    ensures { map.new ≡ put_bytes map.old i x bytes }
{
    map[i..i + bytes].fill(x as u8);
}

// Appends one bit `rows` times, from row `first` on: up to the next whole byte, whole bytes, and the rest.
pub fn put_run(map: &mut [u8], first: usize, rows: usize, valid: bool)
    requires { (first + rows ≤ 8 * length map.old) × (first + rows < 2 ^ 64) }
    ensures { map.new ≡ put_run map.old first rows valid }
{
    let x = all_bits(valid);
    let gap = (8 - first % 8) % 8;
    if rows <= gap {
        put_part(map, first, rows, x);
        return;
    }
    let left = rows - gap;
    put_part(map, first, gap, x);
    put_bytes(map, (first + gap) / 8, left / 8, x);
    put_part(map, first + gap + left / 8 * 8, left % 8, x);
}

fn copy_few(map: &mut [u8], first: usize, src: &[u8], from: usize, rows: usize)
    requires { (first + rows ≤ 8 * length map.old) × (first + rows < 2 ^ 64) × (from + rows ≤ 8 * length src.now) × (from + rows < 2 ^ 64) }
    ensures { map.new ≡ copy_bits map.old first src.now from rows }
{
    for k in 0..rows {
        crate::put_bit(map, first + k, crate::is_valid(src, from + k));
    }
}

// Appends to `map`, from row `first` on, the bits of `rows` rows of `src` from its row `from` on.
pub fn copy_bits(map: &mut [u8], first: usize, src: &[u8], from: usize, rows: usize)
    requires { (first + rows ≤ 8 * length map.old) × (first + rows < 2 ^ 64) × (from + rows ≤ 8 * length src.now) × (from + rows < 2 ^ 64) }
    ensures { map.new ≡ copy_bits map.old first src.now from rows }
{
    for k in 0..rows / 8 {
        put_byte(map, first + 8 * k, byte_at(src, from + 8 * k));
    }
    let done = rows / 8 * 8;
    copy_few(map, first + done, src, from + done, rows - done);
}

// The same from a column, whose map may be absent: then each row is valid.
pub fn copy_column(map: &mut [u8], first: usize, src: &[u8], mapped: bool, from: usize, rows: usize)
    requires { (first + rows ≤ 8 * length map.old) × (first + rows < 2 ^ 64) × (mapped ≡ true → from + rows ≤ 8 * length src.now)
        × (from + rows < 2 ^ 64) }
    ensures { map.new ≡ copy_column map.old first src.now mapped from rows }
{
    if mapped {
        copy_bits(map, first, src, from, rows);
    } else {
        put_run(map, first, rows, true);
    }
}
