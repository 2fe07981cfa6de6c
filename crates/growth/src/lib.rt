// How the next block's size is chosen: always the same, or the next one on the wall sheet of sizes.
#![tactic(auto)]

ghost use Rattle.std.specs.Prelude.{◌≡◌};
ghost use Rattle.growth.specs.Growing.{fits_growth, step_of};
ghost use Rattle.growth.specs.declared.Growth.TheVariants.{Doubling};

use bounds::Refusal;

// Where doubling starts; not on the sheet.
pub const START_SIZE: usize = 8192;

// The wall sheet: the sizes of the first block to the eighth. Every later block has the eighth.
const SHEET: [usize; 8] = [
    16384, 32768, 65536, 131072, 262144, 524288, 1048576, 2097152,
];

#[derive(Clone, Copy)]
pub enum Growth {
    Fixed(usize),
    Doubling(usize),
}

// A step: why there is none, the state after it, the size. A record and no Result: the laws `same_above` and `size_none` speak of the state and the size of
// a refused one.
#[derive(Clone, Copy)]
pub struct Step {
    pub why: Result<(), Refusal>,
    pub growth: Growth,
    pub size: usize,
}

// The size after `s`: the next one on the sheet. The start comes before the first, and the last stays. 0 where `s` is neither the start nor on the sheet.
fn next_size(s: usize) -> usize
    ensures { result ≡ (step_of (Doubling s)).size }
{
    let mut before = START_SIZE;
    for k in 0..SHEET.len() {
        let n = SHEET[k];
        if s == before {
            return n;
        }
        before = n;
    }
    if s == before {
        return before;
    }
    0
}

impl Growth {
    // Is this a state that a start makes or a step leaves?
    pub fn fits(self) -> bool
        ensures { result ≡ fits_growth self }
    {
        match self {
            Growth::Fixed(n) => {
                if n < 1 {
                    return false;
                }
                n <= bounds::BYTE_LIMIT
            }
            Growth::Doubling(s) => next_size(s) != 0,
        }
    }

    // The next block's size, beside the state after it.
    pub fn step(self) -> Step
        ensures { result ≡ step_of self }
    {
        if !self.fits() {
            return Step {
                why: Err(Refusal::Fit),
                growth: self,
                size: 0,
            };
        }
        match self {
            Growth::Fixed(n) => Step {
                why: Ok(()),
                growth: self,
                size: n,
            },
            Growth::Doubling(s) => {
                let n = next_size(s);
                Step {
                    why: Ok(()),
                    growth: Growth::Doubling(n),
                    size: n,
                }
            }
        }
    }
}
