// Records, replayed: whether a call answers as the crate did.
use crate::kind::{Call, CoderName, Kind};
use crate::record::Record;
use cases::Number;
use coder::Coder;
use coding_descriptor::{Coder0124, Coder1234, Coder1248};
use elem::Elem;

// Encodes, as deltas where there is a start: no second function, since all before and behind the call is the same. Lends as much as the crate was lent: the tags, and what the widest groups take. The buffers
// are fixed, since nothing here allocates: no record has more than 160 values.
fn encodes<C: Coder>(start: Option<C::Elem>, record: Record) -> bool
where
    C::Elem: Number,
{
    let lent = record.len.min(160);
    let mut tags = [0xAA; 40];
    let mut data = [0xAA; 1280];
    let data = &mut data[..160 * C::Elem::SIZE];
    let lent_values = &record.values()[..lent];
    let lent_tags = &mut tags[..record.tags.len().min(40)];
    let lent_data = &mut data[..lent * C::Elem::SIZE];
    let came = match start {
        Some(initial) => coder::encode_deltas::<C>(initial, lent_values, lent_tags, lent_data),
        None => coder::encode::<C>(lent_values, lent_tags, lent_data),
    };
    record.is_stored(came, &tags, data)
}

// Decodes, from deltas where there is a start. Lends as many values as are recorded, in a fixed buffer too.
fn decodes<C: Coder>(start: Option<C::Elem>, record: Record) -> bool
where
    C::Elem: Number,
{
    let mut values = [C::Elem::wrapping_from(0xAAAA_AAAA_AAAA_AAAA); 160];
    let Some(lent) = values.get_mut(..record.len) else {
        return false;
    };
    let came = match start {
        Some(initial) => coder::decode_deltas::<C>(initial, record.tags, record.data, lent),
        None => coder::decode::<C>(record.tags, record.data, lent),
    };
    record.is_count(came) && values == record.values()
}

// Whether a call of one coder answers as the crate's did.
fn agrees_through<C: Coder>(call: Call, record: Record) -> bool
where
    C::Elem: Number,
{
    let start = Some(C::Elem::wrapping_from(record.start));
    match call {
        Call::Encode => encodes::<C>(None, record),
        Call::EncodeDeltas => encodes::<C>(start, record),
        Call::Decode => decodes::<C>(None, record),
        Call::DecodeDeltas => decodes::<C>(start, record),
        Call::DataLen => record.is_count(coder::data_len::<C>(record.tags)),
        Call::SkipDeltas => record.is_skipped(coder::skip_deltas::<C>(record.tags, record.data)),
    }
}

// Whether the call answers as the crate's did.
pub fn agrees(kind: Kind, record: Record) -> bool {
    match kind.coder {
        CoderName::Coder1234 => agrees_through::<Coder1234>(kind.call, record),
        CoderName::Coder0124 => agrees_through::<Coder0124>(kind.call, record),
        CoderName::Coder1248 => agrees_through::<Coder1248>(kind.call, record),
    }
}
