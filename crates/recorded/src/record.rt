// The records of the file of recorded answers: a head of 32 bytes, values, tags, data.
use crate::kind::{Call, CoderName, Kind};
use crate::little_endian::{le16, le64};
use answers::{Refusal, Skipped};
use cases::Number;

#[derive(Clone, Copy)]
pub struct Record<'a> {
    // None where it is of no call or no coder.
    pub kind: Option<Kind>,
    // How many values there are.
    pub len: usize,
    pub start: u64,
    count: u64,
    sum: u64,
    values: &'a [u8],
    pub tags: &'a [u8],
    pub data: &'a [u8],
}

impl<'a> Record<'a> {
    // The record with which s begins, and what stands behind it: None where it is cut.
    pub fn split_first(s: &'a [u8]) -> Option<(Record<'a>, &'a [u8])> {
        let (head, rest) = s.split_at_checked(32)?;
        let call = Call::from_number(head[0]);
        let coder = CoderName::from_number(head[1]);
        let len = usize::from(le16(head, 2));
        let width = match coder {
            Some(CoderName::Coder1248) => 8,
            _ => 4,
        };
        let (values, rest) = rest.split_at_checked(width * len)?;
        let (tags, rest) = rest.split_at_checked(usize::from(le16(head, 4)))?;
        let (data, rest) = rest.split_at_checked(usize::from(le16(head, 6)))?;
        let record = Record {
            kind: coder.zip(call).map(|(coder, call)| Kind { coder, call }),
            len,
            start: le64(head, 8),
            count: le64(head, 16),
            sum: le64(head, 24),
            values,
            tags,
            data,
        };
        Some((record, rest))
    }

    // The values, and AA bytes behind the last: of fixed size, since nothing here allocates.
    pub fn values<E: Number>(self) -> [E; 160] {
        let mut values = [E::wrapping_from(0xAAAA_AAAA_AAAA_AAAA); 160];
        for (value, bytes) in values.iter_mut().zip(self.values.chunks_exact(E::SIZE)) {
            *value = E::wrapping_from(le64(bytes, 0));
        }
        values
    }

    // Whether this is the recorded count, and the sum is 0: only skipping has a sum.
    pub fn is_count(self, came: Result<usize, Refusal>) -> bool {
        match came {
            Ok(count) => count as u64 == self.count && self.sum == 0,
            Err(_) => false,
        }
    }

    pub fn is_skipped<E: Number>(self, came: Result<Skipped<E>, Refusal>) -> bool {
        match came {
            Ok(Skipped { read, sum }) => read as u64 == self.count && sum.as_u64() == self.sum,
            Err(_) => false,
        }
    }

    // Whether encoding gave what is recorded. The buffers held AA bytes.
    pub fn is_stored(self, came: Result<usize, Refusal>, tags: &[u8], data: &[u8]) -> bool {
        self.is_count(came) && holds(tags, self.tags) && holds(data, self.data)
    }
}

// Whether buf holds the recorded bytes, and AA in every byte behind them.
fn holds(buf: &[u8], recorded: &[u8]) -> bool {
    match buf.split_at_checked(recorded.len()) {
        Some((front, behind)) => front == recorded && behind.iter().all(|byte| *byte == 0xAA),
        None => false,
    }
}
