// The library that C and Rust programs link: the calls of the three coders under plain names. C has no enums that hold values, so each
// answer is a struct of numbers.
#![tactic(auto)]

ghost use Rattle.std.specs.Prelude.{◌≡◌, ◌<◌};
ghost use Rattle.answers.specs.Meaning.{counted, skipped, tested};
ghost use Rattle.chowderyard.specs.Boundary.{answered, told, position_of};

use answers::{Place, Refusal, Skipped};
use elem::Elem;

mod calls0124;
mod calls1234;
mod calls1248;

// What a call answers: the number of a refusal, or 0 and then how many bytes and, for skipping, the sum of the deltas.
#[repr(C)]
#[derive(Clone, Copy)]
pub struct Answer {
    pub number: u8,
    pub count: u64,
    pub sum: u64,
}

// What the tightness check answers: the number of a refusal, or 0 and then 1 where a number is loose, with its place.
#[repr(C)]
#[derive(Clone, Copy)]
pub struct TightnessAnswer {
    pub number: u8,
    pub loose: u8,
    pub group: u64,
    pub position: u8,
}

impl From<Result<usize, Refusal>> for Answer {
    ghost from_gives = { λ given made. answered made ≡ counted given };

    fn from(answer: Result<usize, Refusal>) -> Answer {
        match answer {
            Ok(count) => Answer {
                number: 0,
                count: count as u64,
                sum: 0,
            },
            Err(why) => Answer {
                number: why.number(),
                count: 0,
                sum: 0,
            },
        }
    }
}

// The refusing arm stands twice: a conversion of a refusal alone would have a law of its own for two callers.
impl<E: Elem> From<Result<Skipped<E>, Refusal>> for Answer {
    ghost from_gives = { λ given made. answered made ≡ skipped E.number given };

    fn from(answer: Result<Skipped<E>, Refusal>) -> Answer {
        match answer {
            Ok(Skipped { read, sum }) => Answer {
                number: 0,
                count: read as u64,
                sum: sum.as_u64(),
            },
            Err(why) => Answer {
                number: why.number(),
                count: 0,
                sum: 0,
            },
        }
    }
}

// A position is one of four, so it fits a byte: that is asked, which `From` cannot do.
fn of_tightness(answer: Result<Option<Place>, Refusal>) -> TightnessAnswer
    requires { position_of (tested answer) < 4 }
    ensures { result ≡ told (tested answer) }
{
    match answer {
        Ok(None) => TightnessAnswer {
            number: 0,
            loose: 0,
            group: 0,
            position: 0,
        },
        Ok(Some(Place { group, position })) => TightnessAnswer {
            number: 0,
            loose: 1,
            group: group as u64,
            position: position as u8,
        },
        Err(why) => TightnessAnswer {
            number: why.number(),
            loose: 0,
            group: 0,
            position: 0,
        },
    }
}
