// One group of four numbers: encode, decode, delta and skip, the scalar part of `raw_group.rs`. Where the Rust adds to a pointer, a slice and a
// place come together: a type of the two would be made for each group and taken apart by each load and store.
#![tactic(auto)]

ghost use Rattle.std.specs.Prelude.{◌≡◌, ℕ, map, ◌+◌, ◌-◌, ◌*◌, ◌^◌, ◌<◌, ◌≤◌, length, take, drop, get_or};
ghost use Rattle.std.proofs.lemmas.List.Edits.{sets};
ghost use Rattle.packed.specs.Format.{le_value, le_bytes, steps, walked, wrapping_sum};
ghost use Rattle.packed.specs.Group.{Encodes, Decodes, DecodesDeltas, Skips};

use coding_descriptor::CodingDescriptor;
use elem::Elem;

// The one-byte tag for a group and the number of bytes written.
#[derive(Clone, Copy)]
pub struct Encoded {
    pub tag: u8,
    pub written: usize,
}

// Stores the len low bytes of a value, low byte first, and no other byte.
pub fn store<E: Elem>(output: &mut [u8], at: usize, len: usize, value: E)
    requires { at + len ≤ length output.old }
    ensures { output.new ≡ sets output.old at (le_bytes len (E.number value)) }
{
    // Byte by byte down a u64: shifting value anew for each byte takes five instructions in place of one.
    let mut rest = value.as_u64();
    for byte in &mut output[at..at + len] {
        *byte = rest.byte(0);
        rest /= 256;
    }
}

// Encode the contents of group to output, from at on, where there is room for the widest group.
pub fn encode<D: CodingDescriptor>(output: &mut [u8], at: usize, group: [D::Elem; 4]) -> Encoded
    requires { at + 4 * D.Elem.SIZE ≤ length output.old }
    ensures { Encodes D.table (map D.Elem.number group) output.old at result.tag result.written output.new }
{
    let mut tag = 0u8;
    let mut written = 0usize;
    for value in &group {
        let vt = D::tag_value(*value);
        store(output, at + written, vt.len, *value);
        // The first of four fields ends in the two low bits.
        tag = tag / 4 + 64 * vt.tag;
        written += vt.len;
    }
    Encoded { tag, written }
}

// The steps from the last element of base through the group.
pub fn deltas<E: Elem>(base: [E; 4], group: [E; 4]) -> [E; 4]
    ensures { map E.number result ≡ steps E.modulus (get_or (map E.number base) 3 0) (map E.number group) }
{
    [
        group[0].wrapping_sub(base[3]),
        group[1].wrapping_sub(group[0]),
        group[2].wrapping_sub(group[1]),
        group[3].wrapping_sub(group[2]),
    ]
}

// Encodes group as deltas against the last element of base to output.
pub fn encode_deltas<D: CodingDescriptor>(
    output: &mut [u8],
    at: usize,
    base: [D::Elem; 4],
    group: [D::Elem; 4],
) -> Encoded
    requires { at + 4 * D.Elem.SIZE ≤ length output.old }
    ensures { Encodes D.table (steps D.Elem.modulus (get_or (map D.Elem.number base) 3 0) (map D.Elem.number group)) output.old at result.tag result.written output.new }
{
    encode::<D>(output, at, deltas(base, group))
}

// The number of len bytes, of which mask is the mask: the bytes behind them do not count.
pub fn number<E: Elem>(input: &[u8], at: usize, len: usize, mask: E) -> E
    requires in_bounds { at + E.SIZE ≤ length input.now }
    requires mask { (len ≤ E.SIZE) × (E.number mask ≡ 256 ^ len - 1) }
    ensures { E.number result ≡ le_value (take len (drop at input.now)) }
{
    E::load(input, at).masked(mask)
}

// Decode the contents of the group with tag from input, from at on, where the widest group would be there. Returns the number of bytes read
// and the decoded group.
pub fn decode<D: CodingDescriptor>(input: &[u8], at: usize, tag: u8) -> (usize, [D::Elem; 4])
    requires { at + 4 * D.Elem.SIZE ≤ length input.now }
    ensures { Decodes D.table input.now at tag result.0 (map D.Elem.number result.1) }
{
    let mut buf = [D::Elem::zero(); 4];
    let mut read = 0usize;
    let mut rest = tag;
    for value in buf.iter_mut() {
        let vtag = (rest % 4) as usize;
        let len = D::tag_len()[vtag];
        *value = number(input, at + read, len, D::tag_max()[vtag]);
        read += len;
        rest = rest / 4;
    }
    (read, buf)
}

// The values that deltas make from the last element of base on.
pub fn values<E: Elem>(base: [E; 4], deltas: [E; 4]) -> [E; 4]
    ensures { map E.number result ≡ walked E.modulus (get_or (map E.number base) 3 0) (map E.number deltas) }
{
    let first = base[3].wrapping_add(deltas[0]);
    let second = first.wrapping_add(deltas[1]);
    let third = second.wrapping_add(deltas[2]);
    [first, second, third, third.wrapping_add(deltas[3])]
}

// Decode the contents of the group as deltas from base with tag from input.
pub fn decode_deltas<D: CodingDescriptor>(
    input: &[u8],
    at: usize,
    tag: u8,
    base: [D::Elem; 4],
) -> (usize, [D::Elem; 4])
    requires { at + 4 * D.Elem.SIZE ≤ length input.now }
    ensures { DecodesDeltas D.table input.now D.Elem.modulus at tag (get_or (map D.Elem.number base) 3 0) result.0 (map D.Elem.number result.1) }
{
    let (read, group) = decode::<D>(input, at, tag);
    (read, values(base, group))
}

// The wrapping sum over four.
pub fn sum<E: Elem>(group: [E; 4]) -> E
    ensures { E.number result ≡ wrapping_sum E.modulus (map E.number group) }
{
    group.iter().fold(E::zero(), |s, v| s.wrapping_add(*v))
}

// Skips the group of deltas with tag at input. Returns the number of bytes read and the sum of the delta values.
pub fn skip_deltas<D: CodingDescriptor>(input: &[u8], at: usize, tag: u8) -> (usize, D::Elem)
    requires { at + 4 * D.Elem.SIZE ≤ length input.now }
    ensures { Skips D.table input.now D.Elem.modulus at tag result.0 (D.Elem.number result.1) }
{
    let (read, group) = decode::<D>(input, at, tag);
    (read, sum(group))
}
