// Replays the fixed lists of the leaves' answers: views, UTF-8, null runs, growth and byte order. A list's record is a head of words and then bytes.
// Writes for each list how many records were answered as the list has them, how many otherwise, and whether the list ended inside a record.
#![tactic(auto)]

use growth::Growth;
use lists::{Buffered, Few, Stop};
use std::io::Read;
use std::rt::Files;
use std::{fs, io};

// What follows a head: at most 64 bytes, and of order's two texts each.
type Body = Few<u8, 64>;

// How many records were answered as the list has them, and how many otherwise.
#[derive(Clone, Copy, Default)]
struct Tally {
    right: u64,
    wrong: u64,
}

impl Tally {
    fn count(&mut self, right: bool) {
        if right {
            self.right = lists::more(self.right);
        } else {
            self.wrong = lists::more(self.wrong);
        }
    }
}

fn view<R: Read>(from: &mut R, t: &mut Tally) -> Result<(), Stop> {
    let [block, offset, n]: [usize; 3] = lists::head(from)?;
    let mut view = [0; 16];
    lists::fill(from, &mut view)?;
    let value = Body::read(from, n)?;
    t.count(match (u32::try_from(block), u32::try_from(offset)) {
        (Ok(block), Ok(offset)) => {
            let made = views::make_view(value.lent(), block, offset);
            made.why.is_ok() && made.view == view
        }
        _ => false,
    });
    Ok(())
}

// A text: whether it is UTF-8, and the place up to which it is.
fn text<R: Read>(from: &mut R, t: &mut Tally) -> Result<(), Stop> {
    let [n, formed, bad]: [usize; 3] = lists::head(from)?;
    let text = Body::read(from, n)?;
    let text = text.lent();
    t.count(utf8::first_bad(text) == bad && utf8::is_utf8(text) == (formed == 1));
    Ok(())
}

// The nulls of a run.
fn run<R: Read>(from: &mut R, t: &mut Tally) -> Result<(), Stop> {
    let [n, first, rows, nulls]: [usize; 4] = lists::head(from)?;
    let map = Body::read(from, n)?;
    let map = map.lent();
    t.count(
        first <= 512
            && rows <= 512
            && first + rows <= 8 * map.len()
            && null_bits::count_nulls(map, true, first, rows) == nulls,
    );
    Ok(())
}

// A growth step: what it answers, and the state after it, of the same kind.
fn step<R: Read>(from: &mut R, t: &mut Tally) -> Result<(), Stop> {
    let [kind, before, refusal, size, after]: [usize; 5] = lists::head(from)?;
    let s = match kind {
        0 => Growth::Fixed(before),
        _ => Growth::Doubling(before),
    }
    .step();
    let stands = match s.growth {
        Growth::Fixed(n) => kind == 0 && n == after,
        Growth::Doubling(n) => kind != 0 && n == after,
    };
    t.count(stands && s.size == size && usize::from(bounds::why_number(s.why)) == refusal);
    Ok(())
}

// Two texts, in which order they stand.
fn pair<R: Read>(from: &mut R, t: &mut Tally) -> Result<(), Stop> {
    let [n, m, order]: [usize; 3] = lists::head(from)?;
    let left = Body::read(from, n)?;
    let right = Body::read(from, m)?;
    t.count(lists::order_number(order::cmp(left.lent(), right.lent())) == order);
    Ok(())
}

// Replays a list record by record.
fn replay<P: Files + Print, F: Fn(&mut Buffered<P::File>, &mut Tally) -> Result<(), Stop>>(
    rt: &P,
    name: &str,
    file: &str,
    turn: F,
) -> io::Result<()>
    requires { F.IsAlwaysCallable turn }
{
    print!(rt; "{name}")?;
    let Ok(from) = fs::open(rt, file) else {
        return println!(rt; " absent");
    };
    let mut t = Tally::default();
    let torn = u64::from(lists::replay(&mut Buffered::new(from), &mut t, turn)?);
    let right = t.right;
    let wrong = t.wrong;
    println!(rt; " right={right} wrong={wrong} torn={torn}")
}

fn main(rt: HostRuntime) -> io::Result<()> {
    replay(&rt, "make_view", "make_view.bin", view)?;
    replay(&rt, "utf8", "utf8.bin", text)?;
    replay(&rt, "null_runs", "null_runs.bin", run)?;
    replay(&rt, "growth", "growth.bin", step)?;
    replay(&rt, "order", "order.bin", pair)
}
