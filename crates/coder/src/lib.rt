// The calls of the three coders. Each answers on any input: what it cannot do it refuses, and then alters nothing.
#![tactic(auto)]

ghost use Rattle.std.specs.Prelude.{◌≡◌, ◌≤◌, map, length, IfOk};
ghost use Rattle.packed.specs.Refusals.{Lent, group_limit, first_of};
ghost use Rattle.packed.specs.Calls.{encoded, encoding, encoding_deltas, decoded, decoding, decoding_deltas, skipping, measuring, testing};
ghost use Rattle.packed.specs.Column.{Ends};
ghost use Rattle.answers.specs.Meaning.{verdict_number, counted, skipped, tested, data_rows};

use answers::{Place, Refusal, Skipped};
use coding_descriptor::{Coder0124, Coder1234, Coder1248};
use elem::Elem;
use fast_decode::FastDecode;
use fast_encode::FastEncode;
use stage_ends::{SideBySide, StageEnds};

// A coding with all that its calls need. Values, tags and data come apart, since callers lend them so, in C too.
pub trait Coder: FastEncode + FastDecode + SideBySide {}

impl Coder for Coder1234 {}

impl Coder for Coder0124 {}

impl Coder for Coder1248 {}

// Encodes a slice of values, writing tags and data to separate streams. Returns the number of bytes written to the data stream.
pub fn encode<C: Coder>(
    values: &[C::Elem],
    tags: &mut [u8],
    data: &mut [u8],
) -> Result<usize, Refusal>
    ensures { encoded (counted result) tags.new «data».new ≡ encoding C.table (map C.Elem.number values.now) tags.old «data».old }
{
    answers::encode_verdict(values.len(), tags.len(), data.len(), 4 * C::Elem::SIZE)?;
    Ok(encode_impl::encode_groups::<C>(values, tags, data))
}

// The same, with values interpreted as deltas starting from initial.
pub fn encode_deltas<C: Coder>(
    initial: C::Elem,
    values: &[C::Elem],
    tags: &mut [u8],
    data: &mut [u8],
) -> Result<usize, Refusal>
    ensures { encoded (counted result) tags.new «data».new ≡ encoding_deltas C.table C.Elem.modulus (C.Elem.number initial) (map C.Elem.number values.now) tags.old «data».old }
{
    answers::encode_verdict(values.len(), tags.len(), data.len(), 4 * C::Elem::SIZE)?;
    Ok(encode_impl::encode_deltas_groups::<C>(initial, values, tags, data))
}

// Where the three stages end, if the data is there: what is left to refuse where the counts are right.
fn ready_ends<C: Coder>(tags: &[u8], data: &[u8]) -> Result<StageEnds, Refusal>
    requires { length tags.now ≤ group_limit }
    ensures ready { IfOk result (λ e. Ends C.table tags.now «data».now e.eights e.eights_read e.groups e.read e.taken e.copied × (e.taken ≤ e.copied)) }
    ensures verdict { (l : Lent) → l.tags ≡ tags.now → l.bytes ≡ length «data».now → verdict_number result ≡ first_of C.table l data_rows }
{
    let ends = stage_ends::stage_ends::<C>(tags, data);
    answers::data_verdict(data.len(), ends.read + ends.taken, ends.copied, ends.taken)?;
    Ok(ends)
}

// Decodes input tags and data streams to an output slice. Returns the number of bytes consumed from the data stream.
pub fn decode<C: Coder>(tags: &[u8], data: &[u8], values: &mut [C::Elem]) -> Result<usize, Refusal>
    ensures { decoded (counted result) (map C.Elem.number values.new) ≡ decoding C.table tags.now «data».now (map C.Elem.number values.old) }
{
    answers::count_verdict(values.len(), tags.len())?;
    let ends = ready_ends::<C>(tags, data)?;
    Ok(stages::decode_stages::<C>(tags, data, values, ends))
}

// The same, with values interpreted as deltas starting from initial.
pub fn decode_deltas<C: Coder>(
    initial: C::Elem,
    tags: &[u8],
    data: &[u8],
    values: &mut [C::Elem],
) -> Result<usize, Refusal>
    ensures { decoded (counted result) (map C.Elem.number values.new) ≡ decoding_deltas C.table C.Elem.modulus (C.Elem.number initial) tags.now «data».now (map C.Elem.number values.old) }
{
    answers::count_verdict(values.len(), tags.len())?;
    let ends = ready_ends::<C>(tags, data)?;
    let (read, _last) = stages::decode_deltas_stages::<C>(initial, tags, data, values, ends);
    Ok(read)
}

// Returns the data length of all the groups encoded by tags.
pub fn data_len<C: Coder>(tags: &[u8]) -> Result<usize, Refusal>
    ensures { counted result ≡ measuring C.table tags.now }
{
    answers::limit_verdict(tags.len())?;
    Ok(stage_ends::data_len_from::<C>(tags, 0))
}

// Skip deltas read from input tag and data streams. Returns the number of bytes consumed from the data stream and the sum of all
// the deltas that were skipped.
pub fn skip_deltas<C: Coder>(tags: &[u8], data: &[u8]) -> Result<Skipped<C::Elem>, Refusal>
    ensures { skipped C.Elem.number result ≡ skipping C.table C.Elem.modulus tags.now «data».now }
{
    answers::limit_verdict(tags.len())?;
    let ends = ready_ends::<C>(tags, data)?;
    let (read, sum) = stages::skip_deltas_stages::<C>(tags, data, ends);
    Ok(Skipped { read, sum })
}

// Whether each number is stored at its shortest width, None, or the place of the first that is not. The Rust has no such check.
pub fn tightness<C: Coder>(tags: &[u8], data: &[u8]) -> Result<Option<Place>, Refusal>
    ensures { tested result ≡ testing C.table tags.now «data».now }
{
    answers::limit_verdict(tags.len())?;
    answers::missing_verdict(data.len(), stage_ends::data_len_from::<C>(tags, 0))?;
    Ok(tightness::first_loose::<C>(tags, data))
}
