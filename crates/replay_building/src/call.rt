// A builder call of the list, and what it has to say and leave.
use lists::{Few, Stop};
use numbers::{Counted, Place, Told};
use std::io::Read;

#[derive(Clone, Copy, PartialEq, Eq)]
pub enum Call {
    Value,
    // A value as often as this.
    Values(usize),
    Null,
    Block,
    // A view: block, offset and size.
    View(u32, u32, u32),
    Column,
    // The value of a row.
    Get(usize),
    Finish,
    Copy,
    // No number of a call: asked as the copy is, and the column of no kind.
    Other,
}

// A number as 32 bits; one that has more becomes the largest, which names no block, no byte and no length either.
fn narrow(n: usize) -> u32 {
    u32::try_from(n).unwrap_or(u32::MAX)
}

impl Call {
    // Four words. 0 is asked as 5 is.
    fn of([call, a, b, c]: [usize; 4]) -> Call {
        match call {
            0 | 5 => Call::View(narrow(a), narrow(b), narrow(c)),
            1 => Call::Value,
            2 => Call::Values(a),
            3 => Call::Null,
            4 => Call::Block,
            6 => Call::Column,
            7 => Call::Get(a),
            8 => Call::Finish,
            9 => Call::Copy,
            _ => Call::Other,
        }
    }
}

// What a call says, in the list's words: the refusal's number, the row that it names, a number, and a part: 1 of the views or 2 of the data, where it
// begins, its length. The list has 0 where a call says nothing, and so has this.
#[derive(Clone, Copy, Default, PartialEq, Eq)]
pub struct Said {
    pub refusal: usize,
    pub row: usize,
    pub number: usize,
    pub which: usize,
    pub at: usize,
    pub len: usize,
}

// A refusal's number, 0 where the call is accepted.
impl From<u64> for Said {
    fn from(refusal: u64) -> Said {
        Said {
            refusal: refusal as usize,
            ..Said::default()
        }
    }
}

impl From<Told> for Said {
    fn from(t: Told) -> Said {
        Said {
            row: t.row,
            ..Said::from(t.number)
        }
    }
}

impl From<Counted> for Said {
    fn from(c: Counted) -> Said {
        Said {
            number: c.number,
            ..Said::from(c.refused)
        }
    }
}

// An empty part lies nowhere.
impl From<Place> for Said {
    fn from(p: Place) -> Said {
        let said = Said::from(p.refused);
        if p.len == 0 {
            return said;
        }
        Said {
            which: if p.buffer == 0 { 1 } else { 2 },
            at: p.offset,
            len: p.len,
            ..said
        }
    }
}

impl Said {
    // The same of a row, which 11 names.
    pub fn of_row(self, row: usize) -> Said {
        Said {
            row: if self.refusal == 11 { row } else { 0 },
            ..self
        }
    }
}

// What a call says, and what is there afterwards: the state, and the column that it answers, zeros where it answers none.
#[derive(Clone, Copy, PartialEq, Eq)]
pub struct Answer {
    pub said: Said,
    pub state: [usize; 11],
    pub column: [usize; 5],
}

// A call with its bytes, and the list's answer.
#[derive(Drop)]
pub struct Question {
    pub call: Call,
    pub bytes: Few<u8, 512>,
    pub answer: Answer,
}

impl Question {
    // A call on a builder of these settings: 21 words, and bytes.
    pub fn read<R: Read>(
        from: &mut R,
        [kind, sizes, _, merging, most]: [usize; 5],
    ) -> Result<Question, Stop> {
        let call = Call::of(lists::words(from)?);
        let [n]: [usize; 1] = lists::words(from)?;
        let [refusal, row, number, which, at, len]: [usize; 6] = lists::words(from)?;
        let [rows, blocks, base, fill, cap, size, nulled]: [usize; 7] = lists::words(from)?;
        let [made_rows, made_blocks, mapped]: [usize; 3] = lists::words(from)?;
        let bytes = Few::<u8, 512>::read(from, n)?;
        let made_kind = match call {
            Call::Finish | Call::Copy => kind,
            _ => 0,
        };
        Ok(Question {
            call,
            bytes,
            answer: Answer {
                said: Said {
                    refusal,
                    row,
                    number,
                    which,
                    at,
                    len,
                },
                state: [
                    kind, sizes, size, merging, most, rows, blocks, base, fill, cap, nulled,
                ],
                column: [0, made_rows, made_blocks, made_kind, mapped],
            },
        })
    }
}
