// Whole columns, the encoding half of `coder_impl.rs`: of values or of their deltas. The Rust's asserts are the calls' refusals, checked above.
// HasRoom stands in each contract: a type that said it would hold values, tags and data, and be taken apart by each function here.
#![tactic(auto)]

ghost use Rattle.std.specs.Prelude.{map, ◌+◌, ◌*◌, ◌/◌, ◌≤◌, length};
ghost use Rattle.packed.specs.Format.{steps};
ghost use Rattle.packed.specs.Group.{Encodes};
ghost use Rattle.packed.specs.Column.{RunsEncode};
ghost use Rattle.wide_stores.specs.Wide.{HasRoom};

use elem::Elem;
use fast_encode::{EncodeSink, FastEncode, StandardEncodeSink};
use front_end::{front_end, group_len, group_tag, is_zero};
use raw_group::Encoded;

// One group stored byte by byte, with no byte that is not its own. Kept apart: put into its caller, it would have registers saved for each group of
// zeros there.
#[inline(never)]
fn encode_bytes<D: FastEncode>(output: &mut [u8], at: usize, group: [D::Elem; 4]) -> Encoded
    requires { at + 4 * D.Elem.SIZE ≤ length output.old }
    ensures { Encodes D.table (map D.Elem.number group) output.old at result.tag result.written output.new }
{
    raw_group::encode::<D>(output, at, group)
}

// The same. Where a group may have no bytes it is passed quickly then: of the groups so stored all but a few may have none, and they may be many.
fn encode<D: FastEncode>(output: &mut [u8], at: usize, group: [D::Elem; 4]) -> Encoded
    requires { at + 4 * D.Elem.SIZE ≤ length output.old }
    ensures { Encodes D.table (map D.Elem.number group) output.old at result.tag result.written output.new }
{
    if D::tag_len()[0] != 0 {
        return raw_group::encode::<D>(output, at, group);
    }
    if is_zero(group) && group_len::<D>(group) == 0 {
        return Encoded {
            tag: group_tag::<D>(group),
            written: 0,
        };
    }
    encode_bytes::<D>(output, at, group)
}

// Groups so stored.
fn encode_exactly<D: FastEncode, S: EncodeSink<D::Elem>>(
    mut sink: S,
    values: &[D::Elem],
    tags: &mut [u8],
    data: &mut [u8],
) -> usize
    requires { HasRoom D.table values.now tags.old «data».old }
    ensures { RunsEncode D.table (S.stored sink (map D.Elem.number values.now)) tags.old «data».old (length values.now / 4) result tags.new «data».new }
{
    let (groups, _) = values.as_chunks::<4>();
    let mut written = 0usize;
    // By place, as in encode_front.
    for (i, group) in groups.iter().enumerate() {
        let e = encode::<D>(data, written, sink.handle(*group));
        tags[i] = e.tag;
        written += e.written;
    }
    written
}

// Encode the groups of values, where each has room for the widest. Returns the number of bytes written.
// All bytes behind those must keep what they held, and the front leaves some there that are not its own. A group may have none, so the last
// groups that have as many are looked for: they are stored exactly, and cover them.
fn encode_to_sink<D: FastEncode, S: EncodeSink<D::Elem>>(
    sink: S,
    values: &[D::Elem],
    tags: &mut [u8],
    data: &mut [u8],
) -> usize
    requires { HasRoom D.table values.now tags.old «data».old }
    ensures { RunsEncode D.table (S.stored sink (map D.Elem.number values.now)) tags.old «data».old (length values.now / 4) result tags.new «data».new }
{
    let front = front_end::<D, _>(sink, values);
    let at = 4 * front;
    let written = fast_encode::encode_front::<D, _>(sink, &values[..at], tags, data);
    let rest = sink.from(values, at);
    written
        + encode_exactly::<D, _>(
            rest,
            &values[at..],
            &mut tags[front..],
            &mut data[written..],
        )
}

pub fn encode_groups<D: FastEncode>(values: &[D::Elem], tags: &mut [u8], data: &mut [u8]) -> usize
    requires { HasRoom D.table values.now tags.old «data».old }
    ensures { RunsEncode D.table (map D.Elem.number values.now) tags.old «data».old (length values.now / 4) result tags.new «data».new }
{
    encode_to_sink::<D, _>(StandardEncodeSink, values, tags, data)
}

// The same of the deltas from initial on: each group's first delta goes on from the last value of the group before.
pub fn encode_deltas_groups<D: FastEncode>(
    initial: D::Elem,
    values: &[D::Elem],
    tags: &mut [u8],
    data: &mut [u8],
) -> usize
    requires { HasRoom D.table values.now tags.old «data».old }
    ensures { RunsEncode D.table (steps D.Elem.modulus (D.Elem.number initial) (map D.Elem.number values.now)) tags.old «data».old (length values.now / 4) result tags.new «data».new }
{
    encode_to_sink::<D, _>([initial; 4], values, tags, data)
}
