// A hash of byte strings of eight bytes and more, by words: two lanes, so that two multiplications go on at a time.
#![tactic(auto)]

ghost use Rattle.std.specs.Prelude.{◌≡◌, ◌*◌, ◌%◌, ◌^◌, ◌≤◌, length};
ghost use Rattle.hash.specs.Hash.{rotl, mixed, hash_of};

// The lanes' multipliers.
const KEY_A: u64 = 0x517cc1b727220a95;

const KEY_B: u64 = 0x9e3779b97f4a7c15;

fn mix(h: u64, w: u64, k: u64) -> u64
    ensures { result ≡ mixed h w k }
{
    (h.rotate_left(5) ^ w).wrapping_mul(k)
}

pub fn hash(s: &[u8]) -> u64
    requires { 8 ≤ length s.now }
    ensures { result ≡ hash_of s.now }
{
    let n = s.len();
    let pairs = (n - 1) / 16;
    let mut h = n as u64;
    let mut g = 0;
    for k in 0..pairs {
        let i = 16 * k;
        h = mix(h, words::le64(s, i), KEY_A);
        g = mix(g, words::le64(s, i + 8), KEY_B);
    }
    let i = 16 * pairs;
    if 8 < n - i {
        g = mix(g, words::le64(s, i), KEY_B);
    }
    h = mix(h, words::le64(s, n - 8), KEY_A);
    h = mix(h, g, KEY_A);
    h ^ (h / 4294967296)
}
