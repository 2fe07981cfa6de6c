// The program's answer to its input.
// What is listed at each row is the line that came in: specs/Listed says it, and proofs/Listed proves it of every accepted input.
#![tactic(auto)]

ghost use Rattle.std.specs.Prelude.{◌≡◌};
ghost use Rattle.answering.specs.Begins.{refusal, AnswerBegins};

use column::{Column, Kind};
use whole::Place;

// Bytes of input, and what is lent for whatever so many bytes can ask for: 2,730 rows, and 16,379 bytes of values in one block.
pub const INPUT: usize = 16384;

pub const VIEWS: usize = 43680;

pub const BYTES: usize = 16379;

pub const NULLS: usize = 342;

// The column to list, and the place at which its listing, or a refusal, begins.
#[derive(Clone, Copy)]
pub struct Begun {
    pub column: Column,
    pub place: Place,
}

fn refused(n: usize) -> Begun
    ensures { result ≡ refusal n }
{
    Begun {
        column: Column {
            first: 0,
            rows: 0,
            blocks: 0,
            kind: Kind::Binary,
            mapped: false,
        },
        place: Place::Refused(n),
    }
}

// The first piece's place; `whole::next_piece` writes the answer from there on.
pub fn begin(
    views: &mut [u8; VIEWS],
    bytes: &mut [u8; BYTES],
    starts: &mut [usize; 1],
    lens: &mut [usize; 1],
    nulls: &mut [u8; NULLS],
    places: &mut [u32; 1],
    input: &[u8],
) -> Begun
    ensures { AnswerBegins input.now views.old bytes.old starts.old lens.old
        nulls.old places.old views.new bytes.new starts.new lens.new nulls.new result }
{
    if INPUT < input.len() {
        return refused(0);
    }
    let bad = shelf::first_bad(input);
    if bad != 0 {
        return refused(bad);
    }
    let c = shelf::build(views, bytes, starts, lens, nulls, places, input);
    Begun {
        column: c,
        place: Place::Opening,
    }
}
