// Runs a coder on a file of cases. A line that has a bar is a case, and its parts stand between bars: the call, and the start of its
// deltas; values, tags and data that are lent; the answer; what the buffers that the call may alter hold then. A part holds words, and a
// word with a star stands as often as the number behind it says: `AA*3` is `AA AA AA`. What is not there is read as nothing, or as 0, so
// that a damaged file gives a wrong answer and no panic.
#![tactic(auto)]

mod answer;
mod case;
mod file;
mod number;
mod text;

pub use answer::{is_counted, is_decoded, is_encoded, is_skipped, is_tested};
pub use case::{Call, Case, Part};
use coder::Coder;
pub use file::read;
pub use number::Number;
use std::rt::Files;

// Whether a call does what the case says. A name that is no call's does not. The arrays that are lent from are fixed, since nothing here
// allocates.
fn holds<C: Coder>(case: Case) -> bool
where
    C::Elem: Number,
{
    let mut values = case.numbers(Part::Values);
    let mut tags = case.bytes(Part::Tags);
    let mut data = case.bytes(Part::Data);
    let values = &mut values[..case.count(Part::Values)];
    let tags = &mut tags[..case.count(Part::Tags)];
    let data = &mut data[..case.count(Part::Data)];
    match case.call() {
        None => false,
        Some(Call::Encode) => {
            let came = coder::encode::<C>(values, tags, data);
            answer::is_encoded(came, tags, data, case)
        }
        Some(Call::EncodeDeltas) => {
            let came = coder::encode_deltas::<C>(case.start(), values, tags, data);
            answer::is_encoded(came, tags, data, case)
        }
        Some(Call::Decode) => {
            let came = coder::decode::<C>(tags, data, values);
            answer::is_decoded(came, values, case)
        }
        Some(Call::DecodeDeltas) => {
            let came = coder::decode_deltas::<C>(case.start(), tags, data, values);
            answer::is_decoded(came, values, case)
        }
        Some(Call::DataLen) => answer::is_counted(coder::data_len::<C>(tags), case),
        Some(Call::SkipDeltas) => answer::is_skipped(coder::skip_deltas::<C>(tags, data), case),
        Some(Call::Tightness) => answer::is_tested(coder::tightness::<C>(tags, data), case),
    }
}

// Writes the line, and whether the case below it holds. What cannot be written is left out.
fn say(rt: &impl Print, line: &[u8], holds: bool) {
    let _ = rt.write_all(line);
    let _ = if holds {
        println!(rt; ": ok")
    } else {
        println!(rt; ": WRONG")
    };
}

// Runs every case, and prints for each the line before it.
fn run_all<C: Coder>(rt: &impl Print, file: &[u8])
where
    C::Elem: Number,
{
    let mut before = file;
    let mut found = 0u32;
    let mut wrong = 0u32;
    for line in file.split(|c| *c == b'\n') {
        if line.contains(&b'|') {
            let holds = holds::<C>(Case(line));
            say(rt, before, holds);
            found = found.saturating_add(1);
            wrong = wrong.saturating_add(u32::from(!holds));
        }
        before = line;
    }
    let _ = println!(rt; "{wrong} wrong of {found}");
}

// Runs the cases of cases.txt, as much as there is room for: the buffer is fixed too.
pub fn run<C: Coder>(rt: &(impl Files + Print))
where
    C::Elem: Number,
{
    let mut buf = [0; 16384];
    let n = read(rt, "cases.txt", &mut buf);
    run_all::<C>(rt, &buf[..n]);
}
