// A builder over its buffers, asked over number slices or over tables of records.
use crate::call::{Answer, Call, Question, Said};
use lists::{Few, Lent, Over, Room, Stop};
use numbers::Counted;

// No refusal's number: said where the bytes of a call are no column.
const NO_COLUMN: u64 = 99;

#[derive(Drop)]
pub struct Builder {
    pub settings: [usize; 5],
    pub room: Room,
    state: [usize; 11],
    places: Few<u32, 64>,
}

// The n bytes from a place on; none where there are fewer.
fn cut(of: &[u8], at: usize, n: usize) -> &[u8] {
    lists::part(of, at, n).unwrap_or(&[])
}

// What call 6 is given: a column's numbers and its buffers.
#[derive(Drop)]
struct Source<'a> {
    column: [usize; 5],
    views: &'a [u8],
    bytes: &'a [u8],
    starts: Few<usize, 16>,
    lens: Few<usize, 16>,
    nulls: &'a [u8],
}

impl<'a> Source<'a> {
    // Five words, four lengths, and the buffers, of which one that isn't there whole is empty.
    fn of(x: &'a [u8]) -> Result<Source<'a>, Stop> {
        let mut from = x;
        let column = lists::words(&mut from)?;
        let [views, bytes, blocks, nulls]: [usize; 4] = lists::words(&mut from)?;
        if 4096 < views || 4096 < bytes {
            return Err(Stop::Torn);
        }
        let mut starts = Few::new(0, blocks)?;
        let mut lens = Few::new(0, blocks)?;
        let at = 72 + views + bytes;
        let end = at + 16 * starts.lent().len();
        let mut table = x.get(at..end).unwrap_or(&[]);
        let _ = lists::read_table(&mut table, starts.lend(), lens.lend());
        Ok(Source {
            column,
            views: cut(x, 72, views),
            bytes: cut(x, 72 + views, bytes),
            starts,
            lens,
            nulls: cut(x, end, nulls),
        })
    }
}

impl Builder {
    // A builder started over buffers of these lengths and so many places, every byte of the buffers 170.
    pub fn start(
        settings: [usize; 5],
        lengths: [usize; 4],
        places: usize,
    ) -> Result<Builder, Stop> {
        let room = Room::new(lengths, 170)?;
        let mut places = Few::new(170, places)?;
        let mut state = [0; 11];
        if builder_exports::tambuyeel_start(&settings, &mut state, places.lend()) != 0 {
            return Err(Stop::Torn);
        }
        Ok(Builder {
            settings,
            room,
            state,
            places,
        })
    }

    // State, views, data, table, map and places.
    fn lend(
        &mut self,
    ) -> (
        &mut [usize; 11],
        &mut [u8],
        &mut [u8],
        &mut [usize],
        &mut [usize],
        &mut [u8],
        &mut [u32],
    ) {
        let Builder {
            settings: _,
            room,
            state,
            places,
        } = self;
        let Lent {
            views,
            bytes,
            starts,
            lens,
            nulls,
        } = room.lend();
        (state, views, bytes, starts, lens, nulls, places.lend())
    }

    fn append_value(&mut self, over: Over, x: &[u8]) -> u64 {
        let (state, views, bytes, starts, lens, nulls, places) = self.lend();
        match over {
            Over::Slices => builder_exports::tambuyeel_append_value(
                state, views, bytes, starts, lens, nulls, places, x,
            ),
            Over::Records => record_exports::records_append_value(
                state, views, bytes, starts, lens, nulls, places, x,
            ),
        }
    }

    fn append_values(&mut self, over: Over, x: &[u8], times: usize) -> u64 {
        let (state, views, bytes, starts, lens, nulls, places) = self.lend();
        match over {
            Over::Slices => builder_exports::tambuyeel_append_values(
                state, views, bytes, starts, lens, nulls, places, x, times,
            ),
            Over::Records => record_exports::records_append_values(
                state, views, bytes, starts, lens, nulls, places, x, times,
            ),
        }
    }

    fn append_null(&mut self, over: Over) -> u64 {
        let (state, views, bytes, starts, lens, nulls, places) = self.lend();
        match over {
            Over::Slices => builder_exports::tambuyeel_append_null(
                state, views, bytes, starts, lens, nulls, places,
            ),
            Over::Records => record_exports::records_append_null(
                state, views, bytes, starts, lens, nulls, places,
            ),
        }
    }

    fn append_block(&mut self, over: Over, x: &[u8]) -> Counted {
        let (state, views, bytes, starts, lens, nulls, places) = self.lend();
        match over {
            Over::Slices => builder_exports::tambuyeel_append_block(
                state, views, bytes, starts, lens, nulls, places, x,
            ),
            Over::Records => record_exports::records_append_block(
                state, views, bytes, starts, lens, nulls, places, x,
            ),
        }
    }

    fn append_view(&mut self, over: Over, block: u32, offset: u32, size: u32) -> u64 {
        let (state, views, bytes, starts, lens, nulls, places) = self.lend();
        match over {
            Over::Slices => builder_exports::tambuyeel_append_view(
                state, views, bytes, starts, lens, nulls, places, block, offset, size,
            ),
            Over::Records => record_exports::records_append_view(
                state, views, bytes, starts, lens, nulls, places, block, offset, size,
            ),
        }
    }

    fn append_column(&mut self, over: Over, x: &[u8]) -> Said {
        let Ok(s) = Source::of(x) else {
            return Said::from(NO_COLUMN);
        };
        let (state, views, bytes, starts, lens, nulls, places) = self.lend();
        Said::from(match over {
            Over::Slices => builder_exports::tambuyeel_append_column(
                state,
                views,
                bytes,
                starts,
                lens,
                nulls,
                places,
                s.views,
                s.bytes,
                s.starts.lent(),
                s.lens.lent(),
                s.nulls,
                &s.column,
            ),
            Over::Records => record_exports::records_append_column(
                state,
                views,
                bytes,
                starts,
                lens,
                nulls,
                places,
                s.views,
                s.bytes,
                s.starts.lent(),
                s.lens.lent(),
                s.nulls,
                &s.column,
            ),
        })
    }

    // The value of a row. Over records it is asked whether that is the part that the list names, which is said where it is; else a number is, which the list
    // hasn't.
    fn get_value(&self, over: Over, row: usize, want: Said) -> Said {
        let l = self.room.lent();
        let places = self.places.lent();
        match over {
            Over::Slices => Said::from(builder_exports::tambuyeel_get_value(
                &self.state,
                l.views,
                l.bytes,
                l.starts,
                l.lens,
                l.nulls,
                places,
                row,
            )),
            Over::Records => {
                let buffer = if want.which == 1 { l.views } else { l.bytes };
                let part = cut(buffer, want.at, want.len);
                let same = record_exports::records_get_value_is(
                    &self.state,
                    l.views,
                    l.bytes,
                    l.starts,
                    l.lens,
                    l.nulls,
                    places,
                    row,
                    part,
                );
                Said {
                    number: if same == 1 { 0 } else { 1 },
                    which: want.which,
                    at: want.at,
                    len: part.len(),
                    ..Said::from(record_exports::records_why_get(
                        &self.state,
                        l.views,
                        l.bytes,
                        l.starts,
                        l.lens,
                        l.nulls,
                        places,
                        row,
                    ))
                }
            }
        }
        .of_row(row)
    }

    fn finish(&mut self, over: Over, column: &mut [usize; 5]) -> u64 {
        let (state, views, bytes, starts, lens, nulls, places) = self.lend();
        match over {
            Over::Slices => builder_exports::tambuyeel_finish(
                state, views, bytes, starts, lens, nulls, places, column,
            ),
            Over::Records => record_exports::records_finish(
                state, views, bytes, starts, lens, nulls, places, column,
            ),
        }
    }

    fn finish_by_copy(&mut self, over: Over, column: &mut [usize; 5]) -> u64 {
        let (state, views, bytes, starts, lens, nulls, places) = self.lend();
        match over {
            Over::Slices => builder_exports::tambuyeel_finish_by_copy(
                state, views, bytes, starts, lens, nulls, places, column,
            ),
            Over::Records => record_exports::records_finish_by_copy(
                state, views, bytes, starts, lens, nulls, places, column,
            ),
        }
    }

    // A call's answer.
    pub fn ask(&mut self, over: Over, q: &Question) -> Answer {
        let x = q.bytes.lent();
        let mut column = [0; 5];
        let said = match q.call {
            Call::Value => Said::from(self.append_value(over, x)),
            Call::Values(times) => Said::from(self.append_values(over, x, times)),
            Call::Null => Said::from(self.append_null(over)),
            Call::Block => Said::from(self.append_block(over, x)),
            Call::View(block, offset, size) => {
                Said::from(self.append_view(over, block, offset, size))
            }
            Call::Column => self.append_column(over, x),
            Call::Get(row) => self.get_value(over, row, q.answer.said),
            Call::Finish => Said::from(self.finish(over, &mut column)),
            Call::Copy | Call::Other => Said::from(self.finish_by_copy(over, &mut column)),
        };
        Answer {
            said,
            state: self.state,
            column,
        }
    }
}
