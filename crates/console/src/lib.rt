// What the programs share: standard input read whole, a failure said, and whether an answer is a refusal.
#![tactic(auto)]

ghost use Rattle.std.specs.Prelude.{◌≡◌};
ghost use Rattle.std.specs.Io.{ReadsAtMost};
ghost use Rattle.console.specs.Status.{is_refusal};

use std::io;
use std::io::{ErrorKind, Read};
use whole::Place;

// Reads until the input is full, ends, or fails, and answers how many bytes came, at the input's start.
pub fn read_all<R: Read>(from: &mut R, input: &mut [u8]) -> io::Result<usize>
    ensures { ReadsAtMost result input.new }
{
    lists::read_full(from, input)
}

// Does an answer that begins there refuse the input?
pub fn is_refusal(p: Place) -> bool
    ensures { result ≡ is_refusal p }
{
    matches!(p, Place::Refused(_))
}

// Says on standard error what failed and why. A pipe that was closed is no news.
pub fn tell(rt: &impl Eprint, what: &str, why: &io::Error) {
    if why.kind() != ErrorKind::BrokenPipe {
        let _ = eprintln!(rt; "{what}: {why}");
    }
}
