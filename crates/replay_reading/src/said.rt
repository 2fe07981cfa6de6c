// What a call says, in the list's words: the refusal's number with its row and side, a number, and the length of a slice or a part. The list has 0 where
// a call says nothing, and so has this.
use bounds::Refusal;
use column::Column;
use comparison::Side;
use std::cmp::Ordering;

#[derive(Clone, Copy, Default, PartialEq, Eq)]
pub struct Said {
    pub refusal: usize,
    pub row: usize,
    pub side: usize,
    pub number: usize,
    pub size: usize,
}

impl From<()> for Said {
    fn from(_: ()) -> Said {
        Said::default()
    }
}

impl From<usize> for Said {
    fn from(number: usize) -> Said {
        Said {
            number,
            ..Said::default()
        }
    }
}

impl From<bool> for Said {
    fn from(b: bool) -> Said {
        Said::from(usize::from(b))
    }
}

impl From<Ordering> for Said {
    fn from(o: Ordering) -> Said {
        Said::from(lists::order_number(o))
    }
}

impl From<Column> for Said {
    fn from(c: Column) -> Said {
        Said {
            number: c.first,
            size: c.rows,
            ..Said::default()
        }
    }
}

// The row is named with 11 alone.
impl From<Refusal> for Said {
    fn from(r: Refusal) -> Said {
        Said {
            refusal: usize::from(r.number()),
            row: r.row(),
            ..Said::default()
        }
    }
}

impl From<Side> for Said {
    fn from(s: Side) -> Said {
        match s {
            Side::Left(r) => Said {
                side: 1,
                ..Said::from(r)
            },
            Side::Right(r) => Said {
                side: 2,
                ..Said::from(r)
            },
        }
    }
}

// What a call says, accepted or refused.
pub fn told<T: Into<Said>, E: Into<Said>>(answer: Result<T, E>) -> Said {
    match answer {
        Ok(x) => x.into(),
        Err(e) => e.into(),
    }
}
