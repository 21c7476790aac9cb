// Whether a call gave the answer of a case, `refused 4`, `count 7`, `count 4 sum 6`, `tight` or `loose group 1 position 0`, and left the
// buffers as the case says.
use crate::Number;
use crate::case::{Case, Part};
use answers::{Place, Refusal, Skipped};

// Whether the answer has a number at one place.
fn has(case: Case, at: usize, number: u64) -> bool {
    case.number(Part::Answer, at) == number
}

// Whether the answer begins with a name, and has a number at one place.
fn says(case: Case, name: &[u8], at: usize, number: u64) -> bool {
    case.word(Part::Answer, 0) == name && has(case, at, number)
}

fn is_refused(why: Refusal, case: Case) -> bool {
    says(case, b"refused", 1, u64::from(why.number()))
}

pub fn is_counted(came: Result<usize, Refusal>, case: Case) -> bool {
    match came {
        Ok(count) => says(case, b"count", 1, count as u64),
        Err(why) => is_refused(why, case),
    }
}

pub fn is_skipped<E: Number>(came: Result<Skipped<E>, Refusal>, case: Case) -> bool {
    match came {
        Ok(Skipped { read, sum }) => {
            says(case, b"count", 1, read as u64) && has(case, 3, sum.as_u64())
        }
        Err(why) => is_refused(why, case),
    }
}

pub fn is_tested(came: Result<Option<Place>, Refusal>, case: Case) -> bool {
    match came {
        Ok(None) => says(case, b"tight", 1, 0),
        Ok(Some(Place { group, position })) => {
            says(case, b"loose", 2, group as u64) && has(case, 4, position as u64)
        }
        Err(why) => is_refused(why, case),
    }
}

// Whether a buffer holds a part's bytes, and no more.
fn is_bytes(buf: &[u8], case: Case, part: Part) -> bool {
    buf.len() == case.count(part)
        && buf
            .iter()
            .enumerate()
            .all(|(i, byte)| *byte == case.byte(part, i))
}

pub fn is_encoded(came: Result<usize, Refusal>, tags: &[u8], data: &[u8], case: Case) -> bool {
    is_counted(came, case)
        && is_bytes(tags, case, Part::Left)
        && is_bytes(data, case, Part::LeftData)
}

pub fn is_decoded<E: Number>(came: Result<usize, Refusal>, values: &[E], case: Case) -> bool {
    is_counted(came, case)
        && values.len() == case.count(Part::Left)
        && values.iter().enumerate().all(|(i, value)| *value
            == E::wrapping_from(case.number(Part::Left, i)))
}
