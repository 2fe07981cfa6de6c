// A question of the list: the call with its arguments, and what it has to say.
use crate::said::Said;
use column::Buffers;
use lists::Stop;
use std::io::Read;

#[derive(Clone, Copy, PartialEq, Eq)]
pub enum Call {
    Value,
    Prefix,
    Suffix,
    Length,
    NullBit,
    NullRun,
    Slice,
    TotalBytesLen,
    TotalBufferBytesUsed,
    Compare,
    Check,
    SameColumn,
    Walk,
    // No number of a call: answered as the check is, over slices alone.
    Other,
}

impl From<usize> for Call {
    fn from(k: usize) -> Call {
        match k {
            1 => Call::Value,
            2 => Call::Prefix,
            3 => Call::Suffix,
            4 => Call::Length,
            5 => Call::NullBit,
            6 => Call::NullRun,
            7 => Call::Slice,
            8 => Call::TotalBytesLen,
            9 => Call::TotalBufferBytesUsed,
            10 => Call::Compare,
            11 => Call::Check,
            12 => Call::SameColumn,
            13 => Call::Walk,
            _ => Call::Other,
        }
    }
}

// Which buffer a part lies in.
#[derive(Clone, Copy)]
pub enum Buffer {
    Views,
    Data,
    Neither,
}

impl From<usize> for Buffer {
    fn from(k: usize) -> Buffer {
        match k {
            1 => Buffer::Views,
            2 => Buffer::Data,
            _ => Buffer::Neither,
        }
    }
}

// Where the list says that a part lies.
#[derive(Clone, Copy)]
pub struct Part {
    buffer: Buffer,
    at: usize,
    len: usize,
}

impl Part {
    // The part of these buffers; none where they don't have it.
    pub fn of<'a>(self, l: Buffers<'a, '_>) -> Option<&'a [u8]> {
        match self.buffer {
            Buffer::Views => lists::part(l.views, self.at, self.len),
            Buffer::Data => lists::part(l.bytes, self.at, self.len),
            Buffer::Neither => lists::part(&[], 0, self.len),
        }
    }

    // Changes every byte of the part where it lies.
    pub fn change(self, views: &mut [u8], bytes: &mut [u8]) {
        match self.buffer {
            Buffer::Views => self.change_in(views),
            Buffer::Data => self.change_in(bytes),
            Buffer::Neither => {}
        }
    }

    fn change_in(self, buffer: &mut [u8]) {
        for x in buffer.iter_mut().skip(self.at).take(self.len) {
            *x ^= 255;
        }
    }
}

#[derive(Clone, Copy)]
pub struct Question {
    pub call: Call,
    pub a: usize,
    pub b: usize,
    // With side 0: of one column none is said.
    pub said: Said,
    side: usize,
    pub part: Part,
}

impl Question {
    // Ten words.
    pub fn read<R: Read>(from: &mut R) -> Result<Question, Stop> {
        let [call, a, b]: [usize; 3] = lists::words(from)?;
        let [refusal, row, side, number]: [usize; 4] = lists::words(from)?;
        let [buffer, at, size]: [usize; 3] = lists::words(from)?;
        Ok(Question {
            call: Call::from(call),
            a,
            b,
            said: Said {
                refusal,
                row,
                side: 0,
                number,
                size,
            },
            side,
            part: Part {
                buffer: Buffer::from(buffer),
                at,
                len: size,
            },
        })
    }

    // What a call on two columns has to say, by whether the left one fits and its rows. Which one is refused the list says with 11 alone: with 2 it is the
    // left one unless that fits, with 3 unless it has the row.
    pub fn said_of_two(&self, fits: bool, rows: usize) -> Said {
        Said {
            side: match self.said.refusal {
                0 => 0,
                2 => if fits { 2 } else { 1 },
                3 => if self.a < rows { 2 } else { 1 },
                _ => self.side,
            },
            ..self.said
        }
    }

    // Whether the list says here that a column is valid.
    pub fn finds_valid(&self) -> bool {
        self.call == Call::Check && self.said.refusal == 0
    }

    // Whether the call is there over a table of records.
    pub fn is_over_records(&self) -> bool {
        match self.call {
            Call::Value | Call::Compare | Call::Check | Call::Walk => true,
            _ => false,
        }
    }
}
