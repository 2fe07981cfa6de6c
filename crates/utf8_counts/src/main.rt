// Tries every string of one, two and three bytes and writes how many of each are well-formed UTF-8.
#![tactic(auto)]

ghost use Rattle.std.specs.Prelude.{◌≤◌};

use std::io;

// How many of the first strings of n bytes are well-formed.
fn count(n: usize, strings: u32) -> usize
    requires { n ≤ 4 }
{
    (0..strings)
        .filter(|x| utf8::is_utf8(&x.to_le_bytes()[..n]))
        .count()
}

fn main(rt: HostRuntime) -> io::Result<()> {
    println!(rt; "one={}", count(1, 256))?;
    println!(rt; "two={}", count(2, 65536))?;
    println!(rt; "three={}", count(3, 16777216))
}
