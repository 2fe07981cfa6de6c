// Replays data/building.bin, the fixed list of builder calls that oracle/README.md lays out, through the calls for C and Rust: groups of calls on one
// builder, from its start on. Then it does the same over tables of records: the start alone, which has no such form, is asked as before.
// After each call its answer, the whole state and a column answered are compared, and after a group every lent buffer. Writes how many groups, calls
// and refusals there were,
// how many calls and how many groups' buffers differed, the first such call, and whether the list ended inside a group.
#![tactic(auto)]

mod call;
mod held;

use call::Question;
use held::Builder;
use lists::{Buffered, Over, Room, Score, Stop};
use std::io::Read;
use std::rt::Files;
use std::{fs, io};

#[derive(Clone, Copy, Default)]
struct Tally {
    groups: u64,
    refused: u64,
    buffers: u64,
    calls: Score,
}

// Whether the list goes on with these buffers; where it ends inside them, it doesn't.
fn goes_on<R: Read>(from: &mut R, lengths: [usize; 4], room: &Room) -> Result<bool, Stop> {
    match Room::read(from, lengths) {
        Ok(want) => Ok(lists::same(want.lent(), room.lent())),
        Err(Stop::Failed(e)) => Err(Stop::Failed(e)),
        Err(_) => Ok(false),
    }
}

// The next group: a head of settings and the lengths of the buffers, n calls on a builder that is started, and the buffers after them.
fn group<R: Read>(from: &mut R, over: Over, t: &mut Tally) -> Result<(), Stop> {
    let [_, n]: [usize; 2] = lists::head(from)?;
    let settings: [usize; 5] = lists::words(from)?;
    let lengths: [usize; 4] = lists::words(from)?;
    let [places]: [usize; 1] = lists::words(from)?;
    t.groups = lists::more(t.groups);
    let mut b = Builder::start(settings, lengths, places)?;
    for _ in 0..n {
        let q = Question::read(from, settings)?;
        let answer = b.ask(over, &q);
        t.calls.count(answer == q.answer);
        if q.answer.said.refusal != 0 {
            t.refused = lists::more(t.refused);
        }
    }
    if !goes_on(from, lengths, &b.room)? {
        t.buffers = lists::more(t.buffers);
    }
    Ok(())
}

fn replay<R: Read>(from: &mut R, over: Over, t: &mut Tally) -> io::Result<bool> {
    lists::replay(from, t, |from, t| group(from, over, t))
}

// The list, over number slices or over records.
fn list(rt: &(impl Files + Print), over: Over) -> io::Result<()> {
    let Ok(file) = fs::open(rt, "building.bin") else {
        return println!(rt; "no building.bin");
    };
    let mut t = Tally::default();
    let torn = replay(&mut Buffered::new(file), over, &mut t)?;
    println!(rt; "groups={}", t.groups)?;
    println!(rt; "calls={}", t.calls.asked)?;
    println!(rt; "refused={}", t.refused)?;
    println!(rt; "wrong={}", t.calls.wrong)?;
    println!(rt; "first={}", t.calls.first.unwrap_or(0))?;
    println!(rt; "buffers={}", t.buffers)?;
    println!(rt; "torn={}", u64::from(torn))
}

fn main(rt: HostRuntime) -> io::Result<()> {
    list(&rt, Over::Slices)?;
    println!(rt; "over records")?;
    list(&rt, Over::Records)
}
