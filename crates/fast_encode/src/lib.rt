// The front of a column, encoded by whole words, as the Rust's `write_unaligned` does: every number is stored with all its bytes, and the
// store of the next one covers those that are not its own. What is left behind the last number, at most what the widest width has above the
// narrowest, is the caller's to cover.
#![tactic(auto)]

mod coder0124;
mod coder1234;
mod coder1248;
mod sink;

ghost use Rattle.std.specs.Prelude.{map, ◌+◌, ◌*◌, ◌/◌, ◌≤◌, length};
ghost use Rattle.packed.specs.Group.{Shortest};
ghost use Rattle.wide_stores.specs.Wide.{FoundByZeros, left_behind, StoresWide, EncodesWide, HasRoom, RunsWide};

use coding_descriptor::{CodingDescriptor, TagValue};
use elem::Elem;
use raw_group::Encoded;
pub use sink::{EncodeSink, StandardEncodeSink};

// A coding whose tag values are known by the zero bytes in front of a value.
pub trait FastEncode: CodingDescriptor {
    // The 2-bit tag value and the number of bytes of a value with so many zero bytes in front.
    fn by_zeros(zeros: usize) -> TagValue
        requires { zeros ≤ Self.Elem.SIZE }
        ensures { FoundByZeros Self.table Self.Elem.SIZE zeros result.tag result.len };
}

// The 2-bit tag value and the number of bytes used to encode value, found faster than by the descriptor's own formula.
pub fn tag_value<D: FastEncode>(value: D::Elem) -> TagValue
    ensures { Shortest D.table D.Elem.SIZE (D.Elem.number value) result.tag result.len }
{
    D::by_zeros(value.zero_bytes())
}

// One value: all its bytes, of which those that are not its own lie behind them.
fn encode_value<D: FastEncode>(output: &mut [u8], at: usize, value: D::Elem) -> TagValue
    requires { at + D.Elem.SIZE ≤ length output.old }
    ensures { StoresWide D.table D.Elem.SIZE (left_behind D.table) (D.Elem.number value) output.old at result.tag result.len output.new }
{
    raw_group::store(output, at, D::Elem::SIZE, value);
    tag_value::<D>(value)
}

// One group, where there is room for the widest. Written out: as a loop it takes 14.5 instructions a value, and so 10.5.
fn encode<D: FastEncode>(output: &mut [u8], at: usize, group: [D::Elem; 4]) -> Encoded
    requires { at + 4 * D.Elem.SIZE ≤ length output.old }
    ensures { EncodesWide D.table (left_behind D.table) (map D.Elem.number group) output.old at result.tag result.written output.new }
{
    let first = encode_value::<D>(output, at, group[0]);
    let at1 = at + first.len;
    let second = encode_value::<D>(output, at1, group[1]);
    let at2 = at1 + second.len;
    let third = encode_value::<D>(output, at2, group[2]);
    let at3 = at2 + third.len;
    let fourth = encode_value::<D>(output, at3, group[3]);
    Encoded {
        tag: first.tag + 4 * (second.tag + 4 * (third.tag + 4 * fourth.tag)),
        written: at3 + fourth.len - at,
    }
}

// The groups of values, where each has room for the widest. Returns the number of bytes written.
pub fn encode_front<D: FastEncode, S: EncodeSink<D::Elem>>(
    mut sink: S,
    values: &[D::Elem],
    tags: &mut [u8],
    data: &mut [u8],
) -> usize
    requires { HasRoom D.table values.now tags.old «data».old }
    ensures { RunsWide D.table (left_behind D.table) (S.stored sink (map D.Elem.number values.now)) tags.old «data».old (length values.now / 4) result tags.new «data».new }
{
    let (groups, _) = values.as_chunks::<4>();
    let mut written = 0usize;
    // The Rust goes over `zip(tags.iter_mut())`; of the tags so written a proof knows the count alone, and `returns` does not close.
    for (i, group) in groups.iter().enumerate() {
        let e = encode::<D>(data, written, sink.handle(*group));
        tags[i] = e.tag;
        written += e.written;
    }
    written
}
