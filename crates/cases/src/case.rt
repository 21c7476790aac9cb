// The parts of a case, and the words in them.
ghost use Rattle.std.specs.Prelude.{◌≤◌};

use crate::{Number, text};
use std::array;

// The calls by their names.
#[derive(Clone, Copy)]
pub enum Call {
    Encode,
    EncodeDeltas,
    Decode,
    DecodeDeltas,
    DataLen,
    SkipDeltas,
    Tightness,
}

// The parts of a case, in order. Left is what the tags hold after the call, or the values where it decodes.
#[derive(Clone, Copy)]
pub enum Part {
    Call,
    Values,
    Tags,
    Data,
    Answer,
    Left,
    LeftData,
}

// The line of a case.
#[derive(Clone, Copy)]
pub struct Case<'a>(pub &'a [u8]);

impl<'a> Case<'a> {
    // A part as it stands: nothing, where there is none.
    fn part(self, part: Part) -> &'a [u8] {
        self.0
            .split(|c| *c == b'|')
            .nth(part as usize)
            .unwrap_or(&[])
    }

    // The word at an index of a part, each counted as often as it stands.
    pub fn word(self, part: Part, index: usize) -> &'a [u8] {
        let mut left = index;
        for word in self.part(part).split(|c| *c == b' ') {
            let times = text::times(word);
            if left < times {
                return word;
            }
            left -= times;
        }
        &[]
    }

    // How many words a part has, at most 80: the arrays that are lent have that many.
    pub fn count(self, part: Part) -> usize
        ensures { result ≤ 80 }
    {
        let words = self.part(part).split(|c| *c == b' ');
        let count = words.map(text::times).fold(0, usize::wrapping_add);
        count.min(80)
    }

    pub fn byte(self, part: Part, index: usize) -> u8 {
        text::byte(self.word(part, index))
    }

    pub fn number(self, part: Part, index: usize) -> u64 {
        text::decimal(self.word(part, index))
    }

    // A part's bytes, and then 0: of fixed size, since nothing here allocates.
    pub fn bytes(self, part: Part) -> [u8; 80] {
        array::from_fn(|i| self.byte(part, i))
    }

    // A part's numbers, and then 0: of fixed size too.
    pub fn numbers<E: Number>(self, part: Part) -> [E; 80] {
        array::from_fn(|i| E::wrapping_from(self.number(part, i)))
    }

    // The call, or None where the name is no call's.
    pub fn call(self) -> Option<Call> {
        match self.word(Part::Call, 0) {
            b"encode" => Some(Call::Encode),
            b"encode_deltas" => Some(Call::EncodeDeltas),
            b"decode" => Some(Call::Decode),
            b"decode_deltas" => Some(Call::DecodeDeltas),
            b"data_len" => Some(Call::DataLen),
            b"skip_deltas" => Some(Call::SkipDeltas),
            b"tightness" => Some(Call::Tightness),
            _ => None,
        }
    }

    // The start of the deltas.
    pub fn start<E: Number>(self) -> E {
        E::wrapping_from(self.number(Part::Call, 1))
    }
}
