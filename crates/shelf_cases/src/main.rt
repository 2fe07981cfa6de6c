// Answers each input of a list of files and of a list of vectors by the functions that `shelflist` is made of, and holds the answer to the one that is on file.
// Two arguments name an input and its answer. vectors.bin has records: three words, lawful or not, the bytes of the input and of the answer; then both.
#![tactic(auto)]

ghost use Rattle.std.specs.Prelude.{◌≤◌, length};

use column::{Buffers, Column};
use std::env::{Env, FillError};
use std::io::Read;
use std::rt::Files;
use std::{fs, io, str};
use whole::Place;

const MOST: usize = 16385;

// Records of vectors.bin that are read at most.
const RECORDS: u64 = 1000000;

// Whether n bytes came, at the start of want.
fn read_part<R: Read>(file: &mut R, want: &mut [u8], n: usize) -> io::Result<bool>
    requires { n ≤ length want.old }
    ensures { n ≤ length want.new }
{
    Ok(lists::read_full(file, &mut want[..n])? == n)
}

// Whether a file goes on with these bytes.
fn goes_on<R: Read>(file: &mut R, text: &[u8]) -> io::Result<bool> {
    let mut want = [0u8; whole::ROOM];
    let n = text.len();
    Ok(n <= want.len() && read_part(file, &mut want, n)? && &want[..n] == text)
}

// Whether a file goes on with the pieces from a place on.
fn same_pieces<R: Read>(
    file: &mut R,
    l: Buffers<'_, '_>,
    c: Column,
    first: Place,
) -> io::Result<bool> {
    let mut out = [0u8; whole::ROOM];
    let mut p = first;
    // No plainer as a `for`: the loop counts nothing, and each piece says where the next begins and takes the one buffer.
    while !whole::ended(p) {
        let r = whole::next_piece(l, c, p, &mut out);
        if !goes_on(file, &out[..r.written])? {
            return Ok(false);
        }
        p = r.place;
    }
    Ok(true)
}

// Whether a file goes on with the answer to an input.
fn same_answer<R: Read>(file: &mut R, input: &[u8]) -> io::Result<bool> {
    let mut views = [0u8; answering::VIEWS];
    let mut bytes = [0u8; answering::BYTES];
    let mut starts = [0usize; 1];
    let mut lens = [0usize; 1];
    let mut nulls = [0u8; answering::NULLS];
    let mut places = [0u32; 1];
    let begun = answering::begin(
        &mut views,
        &mut bytes,
        &mut starts,
        &mut lens,
        &mut nulls,
        &mut places,
        input,
    );
    let l = Buffers {
        views: &views,
        bytes: &bytes,
        starts: &starts,
        lens: &lens,
        nulls: &nulls,
    };
    same_pieces(file, l, begun.column, begun.place)
}

fn at_end<R: Read>(file: &mut R) -> io::Result<bool> {
    let mut one = [0u8; 1];
    Ok(lists::read_full(file, &mut one)? == 0)
}

// Argument i, an empty one where there is none or it has no room.
fn argument<'a>(rt: &impl Env, i: usize, name: &'a mut [u8]) -> &'a str {
    match rt.arg(i, name) {
        Ok(n) => str::from_utf8(&name[..n]).unwrap_or(""),
        Err(_) => "",
    }
}

fn open<R: Env + Files>(rt: &R, i: usize) -> io::Result<R::File> {
    let mut name = [0u8; 60];
    fs::open(rt, argument(rt, i, &mut name))
}

// Whether the answer to the file that argument i names is the file that argument j names, to its last byte.
fn case_right(rt: &(impl Env + Files), i: usize, j: usize) -> io::Result<bool> {
    let mut input = [0u8; MOST];
    let Ok(mut from) = open(rt, i) else {
        return Ok(false);
    };
    let Ok(mut file) = open(rt, j) else {
        return Ok(false);
    };
    let n = lists::read_full(&mut from, &mut input)?;
    Ok(same_answer(&mut file, &input[..n])? && at_end(&mut file)?)
}

fn say(rt: &impl Print, right: bool) -> io::Result<()> {
    println!(rt; " {}", if right { "right" } else { "WRONG" })
}

fn one_case(rt: &(impl Env + Files + Print), i: usize, j: usize) -> io::Result<()> {
    let mut name = [0u8; 60];
    print!(rt; "{}", argument(rt, i, &mut name))?;
    say(rt, case_right(rt, i, j)?)
}

// Whether the next record is right; None where there is no more.
fn one_vector<R: Read>(file: &mut R) -> io::Result<Option<bool>> {
    let mut input = [0u8; MOST];
    let mut head = [0u8; 24];
    if lists::read_full(file, &mut head)? != 24 {
        return Ok(None);
    }
    let n = words::le64(&head, 8) as usize;
    let right = n <= MOST && read_part(file, &mut input, n)? && same_answer(file, &input[..n])?;
    Ok(Some(right))
}

// All records, each at the place where the answer before it ended: an answer that is too short or too long is told at the record after it.
fn vectors<R: Read>(rt: &impl Print, file: &mut R) -> io::Result<()> {
    for k in 0..RECORDS {
        match one_vector(file)? {
            Some(true) => {}
            Some(false) => break,
            None => {
                print!(rt; "vectors {k}")?;
                return say(rt, true);
            }
        }
    }
    print!(rt; "vectors")?;
    say(rt, false)
}

// How many arguments there are, up to more than name the cases.
fn count_arguments(rt: &impl Env) -> usize
    ensures { result ≤ 1000000 }
{
    let mut name = [0u8; 60];
    for i in 0..1000000usize {
        if let Err(FillError::NotPresent) = rt.arg(i + 1, &mut name) {
            return i;
        }
    }
    1000000
}

// The cases of so many pairs of arguments.
fn cases(rt: &(impl Env + Files + Print), count: usize) -> io::Result<()>
    requires { count ≤ 9223372036854775807 }
{
    for k in 0..count {
        one_case(rt, 2 * k + 1, 2 * k + 2)?;
    }
    Ok(())
}

fn main(rt: HostRuntime) -> io::Result<()> {
    cases(&rt, count_arguments(&rt).div_ceil(2))?;
    let Ok(mut file) = fs::open(&rt, "vectors.bin") else {
        return Ok(());
    };
    vectors(&rt, &mut file)
}
