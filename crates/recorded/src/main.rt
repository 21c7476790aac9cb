// Replays the recorded answers of the published crate through the calls of the three coders. Prints for each coder and call how many
// records there are and how many differ, and before that line the number of each that does, from 0 on. data/answers.bin holds 512 bytes of
// text, the count of records, the length of the file, the records, and a check number of all bytes before it. oracle/record.py wrote it.
#![tactic(auto)]

mod calls;
mod kind;
mod little_endian;
mod record;

ghost use Rattle.std.specs.Prelude.{◌≤◌};

use kind::{Call, CoderName, Kind};
use little_endian::le32;
use record::Record;
use std::fmt;

// How many records there are, and how many of them differ.
#[derive(Clone, Copy)]
struct Tally {
    records: u64,
    differ: u64,
}

impl fmt::Display for Tally {
    fn fmt<W: fmt::Write>(&self, f: &mut fmt::Formatter<W>) -> fmt::Result {
        write!(f, "{} records, {} differ", self.records, self.differ)
    }
}

// Replays the records of a kind. What cannot be written is left out.
fn replay(rt: &impl Print, records: &[u8], count: u32, kind: Kind) -> Tally
    ensures { (result.records ≤ 4294967295) × (result.differ ≤ 4294967295) }
{
    let mut found = 0;
    let mut differ = 0;
    let mut rest = records;
    // The file says how many records there are; each is found behind the one before, and its number is printed.
    for k in 0..u64::from(count) {
        let Some((record, behind)) = Record::split_first(rest) else {
            break;
        };
        if record.kind == Some(kind) {
            found += 1;
            if !calls::agrees(kind, record) {
                differ += 1;
                let _ = println!(rt; "record {k} DIFFERS");
            }
        }
        rest = behind;
    }
    Tally {
        records: found,
        differ,
    }
}

// Replays the six calls of the three coders, and prints a line for each.
fn replay_all(rt: &impl Print, records: &[u8], count: u32) -> Tally {
    let mut found = 0;
    let mut differ = 0;
    for coder in CoderName::ALL {
        for call in Call::ALL {
            let tally = replay(rt, records, count, Kind { coder, call });
            let _ = println!(rt; "{coder} {call:<15}{tally}");
            found += tally.records;
            differ += tally.differ;
        }
    }
    Tally {
        records: found,
        differ,
    }
}

// The check number of these bytes.
fn check_number(s: &[u8]) -> u64 {
    let mut number = 0;
    for byte in s {
        number = (257 * number + u64::from(*byte) + 1) % 4294967291;
    }
    number
}

// The check number is right where the length and the count of records are right too.
fn report(rt: &impl Print, s: &[u8]) {
    let (checked, last) = s.split_at(s.len().saturating_sub(4));
    let count = le32(s, 512);
    let all = replay_all(rt, checked.get(520..).unwrap_or(&[]), count);
    let check = check_number(checked);
    let is_right = check == u64::from(le32(last, 0))
        && s.len() == le32(s, 516) as usize
        && all.records == u64::from(count)
        && 520 < checked.len();
    let verdict = if is_right { "right" } else { "WRONG" };
    let _ = println!(rt; "{all}, check number {check} {verdict}");
}

// The buffer is fixed, since nothing here allocates.
fn main(rt: HostRuntime) {
    let mut buf = [0; 262144];
    let n = cases::read(&rt, "answers.bin", &mut buf);
    report(&rt, &buf[..n]);
}
