// Lists the column that the lines of standard input make: reads, calls, and writes piece by piece.
// Where a read or a write fails it stops and says so on standard error.
// Its status: 0 for a listing, 1 for a refused input, 2 where a read or a write failed.
#![tactic(auto)]

use column::{Buffers, Column};
use std::io;
use std::io::Write;
use std::process::ExitCode;
use whole::Place;

// One byte more than an input may have, so that too much is seen.
const MOST: usize = 16385;

// Writes the pieces from a place on, until all are written or a write fails.
fn write_pieces<W: Write>(
    to: &mut W,
    l: Buffers<'_, '_>,
    c: Column,
    first: Place,
) -> io::Result<()> {
    let mut out = [0u8; whole::ROOM];
    let mut p = first;
    // No plainer as a `for`: the loop counts nothing, and each piece says where the next begins and takes the one buffer.
    while !whole::ended(p) {
        let r = whole::next_piece(l, c, p, &mut out);
        to.write_all(&out[..r.written])?;
        p = r.place;
    }
    Ok(())
}

// Writes the answer, and answers the status. A pipe that was closed is no news.
fn answer(rt: &(impl Print + Eprint), input: &[u8]) -> ExitCode {
    let mut views = [0u8; answering::VIEWS];
    let mut bytes = [0u8; answering::BYTES];
    let mut starts = [0usize; 1];
    let mut lens = [0usize; 1];
    let mut nulls = [0u8; answering::NULLS];
    let mut places = [0u32; 1];
    let begun = answering::begin(
        &mut views,
        &mut bytes,
        &mut starts,
        &mut lens,
        &mut nulls,
        &mut places,
        input,
    );
    let l = Buffers {
        views: &views,
        bytes: &bytes,
        starts: &starts,
        lens: &lens,
        nulls: &nulls,
    };
    let p = begun.place;
    let mut to = io::writer(rt);
    if let Err(why) = write_pieces(&mut to, l, begun.column, p) {
        console::tell(rt, "shelflist: standard output", &why);
        ExitCode::from(2)
    } else if console::is_refusal(p) {
        ExitCode::from(1)
    } else {
        ExitCode::SUCCESS
    }
}

fn main(rt: HostRuntime) -> ExitCode {
    let mut input = [0u8; MOST];
    match console::read_all(&mut rt.reader(), &mut input) {
        Ok(n) => answer(&rt, &input[..n]),
        Err(why) => {
            console::tell(&rt, "shelflist: standard input", &why);
            ExitCode::from(2)
        }
    }
}
