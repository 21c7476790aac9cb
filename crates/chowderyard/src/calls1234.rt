// The calls of `Coder1234` under plain names. Each answers on any input: nothing is asked of a caller that proves nothing.
// The three coders have such a file each, since C has no generic functions.
ghost use Rattle.std.specs.Prelude.{◌≡◌};
ghost use Rattle.packed.specs.Format.{t1234, m32};
ghost use Rattle.packed.specs.Calls.{encoded, encoding, encoding_deltas, decoded, decoding, decoding_deltas, skipping, measuring, testing};
ghost use Rattle.chowderyard.specs.Boundary.{answered, told};

use crate::{Answer, TightnessAnswer};
use coding_descriptor::Coder1234;

// Encodes values: the bytes written to data.
#[unsafe(no_mangle)]
pub extern "C" fn chowder_encode_1234(values: &[u32], tags: &mut [u8], data: &mut [u8]) -> Answer
    ensures { encoded (answered result) tags.new «data».new ≡ encoding t1234 values.now tags.old «data».old }
{
    coder::encode::<Coder1234>(values, tags, data).into()
}

// The same of the steps from start.
#[unsafe(no_mangle)]
pub extern "C" fn chowder_encode_deltas_1234(
    start: u32,
    values: &[u32],
    tags: &mut [u8],
    data: &mut [u8],
) -> Answer
    ensures { encoded (answered result) tags.new «data».new ≡ encoding_deltas t1234 m32 start values.now tags.old «data».old }
{
    coder::encode_deltas::<Coder1234>(start, values, tags, data).into()
}

// Decodes tags and data to fill values: the bytes read.
#[unsafe(no_mangle)]
pub extern "C" fn chowder_decode_1234(tags: &[u8], data: &[u8], values: &mut [u32]) -> Answer
    ensures { decoded (answered result) values.new ≡ decoding t1234 tags.now «data».now values.old }
{
    coder::decode::<Coder1234>(tags, data, values).into()
}

// The same, adding each number to the value before it, the first to start.
#[unsafe(no_mangle)]
pub extern "C" fn chowder_decode_deltas_1234(
    start: u32,
    tags: &[u8],
    data: &[u8],
    values: &mut [u32],
) -> Answer
    ensures { decoded (answered result) values.new ≡ decoding_deltas t1234 m32 start tags.now «data».now values.old }
{
    coder::decode_deltas::<Coder1234>(start, tags, data, values).into()
}

// The bytes that the numbers of all tags take.
#[unsafe(no_mangle)]
pub extern "C" fn chowder_data_len_1234(tags: &[u8]) -> Answer
    ensures { answered result ≡ measuring t1234 tags.now }
{
    coder::data_len::<Coder1234>(tags).into()
}

// The bytes of all numbers and their wrapping sum.
#[unsafe(no_mangle)]
pub extern "C" fn chowder_skip_deltas_1234(tags: &[u8], data: &[u8]) -> Answer
    ensures { answered result ≡ skipping t1234 m32 tags.now «data».now }
{
    coder::skip_deltas::<Coder1234>(tags, data).into()
}

// Whether each number is stored at its shortest width, or the place of the first that is not.
#[unsafe(no_mangle)]
pub extern "C" fn chowder_tightness_1234(tags: &[u8], data: &[u8]) -> TightnessAnswer
    ensures { result ≡ told (testing t1234 tags.now «data».now) }
{
    crate::of_tightness(coder::tightness::<Coder1234>(tags, data))
}
