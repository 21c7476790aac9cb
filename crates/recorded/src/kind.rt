// The kinds of records: the coder and the call, which have numbers in the file from 0 on, so each enum finds its own by a line. Call is not that
// of `cases`: the published crate has no tightness check.
use std::fmt;

#[derive(Clone, Copy, PartialEq, Eq)]
pub enum CoderName {
    Coder1234,
    Coder0124,
    Coder1248,
}

impl CoderName {
    // In the order of their numbers.
    pub const ALL: [CoderName; 3] = [
        CoderName::Coder1234,
        CoderName::Coder0124,
        CoderName::Coder1248,
    ];

    pub fn from_number(number: u8) -> Option<CoderName> {
        CoderName::ALL.get(usize::from(number)).copied()
    }
}

impl fmt::Display for CoderName {
    fn fmt<W: fmt::Write>(&self, f: &mut fmt::Formatter<W>) -> fmt::Result {
        f.pad(match self {
            CoderName::Coder1234 => "1234",
            CoderName::Coder0124 => "0124",
            CoderName::Coder1248 => "1248",
        })
    }
}

#[derive(Clone, Copy, PartialEq, Eq)]
pub enum Call {
    Encode,
    EncodeDeltas,
    Decode,
    DecodeDeltas,
    DataLen,
    SkipDeltas,
}

impl Call {
    // In the order of their numbers.
    pub const ALL: [Call; 6] = [
        Call::Encode,
        Call::EncodeDeltas,
        Call::Decode,
        Call::DecodeDeltas,
        Call::DataLen,
        Call::SkipDeltas,
    ];

    pub fn from_number(number: u8) -> Option<Call> {
        Call::ALL.get(usize::from(number)).copied()
    }
}

impl fmt::Display for Call {
    fn fmt<W: fmt::Write>(&self, f: &mut fmt::Formatter<W>) -> fmt::Result {
        f.pad(match self {
            Call::Encode => "encode:",
            Call::EncodeDeltas => "encode_deltas:",
            Call::Decode => "decode:",
            Call::DecodeDeltas => "decode_deltas:",
            Call::DataLen => "data_len:",
            Call::SkipDeltas => "skip_deltas:",
        })
    }
}

#[derive(Clone, Copy, PartialEq, Eq)]
pub struct Kind {
    pub coder: CoderName,
    pub call: Call,
}
