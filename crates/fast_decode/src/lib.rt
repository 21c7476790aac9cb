// A group decoded by tables, as the Rust's faster engines have their own `decode8`: one entry of the first tells where its four numbers
// begin and where it ends, so that no read waits for the lengths before it. The masks come by half tags, from a table in which they lie
// side by side or from a smaller one in which each is found for itself. A slice and a place come together, as in `raw_group`.
#![tactic(auto)]

mod coder0124;
mod coder1234;
mod coder1248;

ghost use Rattle.std.specs.Prelude.{◌≡◌, ℕ, map, ◌+◌, ◌*◌, ◌/◌, ◌%◌, ◌≤◌, length, get_or};
ghost use Rattle.packed.specs.Format.{widths};
ghost use Rattle.packed.specs.Group.{Decodes, DecodesDeltas, Skips};
ghost use Rattle.tag_utils.specs.Tables.{masks};
ghost use Rattle.places.specs.Places.{place_of, Places, halves_of, sides_of};

use coding_descriptor::CodingDescriptor;
use elem::Elem;

// The tables by which a coding's groups are decoded.
pub trait FastDecode: CodingDescriptor {
    // For each tag where the second, the third and the fourth number begin and where the group ends, a byte each.
    fn places() -> &'static [u32; 256]
        ensures { Places Self.table result.now };

    // The four masks of a tag, each loaded for itself.
    fn half_masks(tag: u8) -> [Self::Elem; 4]
        ensures { map Self.Elem.number result ≡ masks (widths Self.table tag) };

    // The same four side by side where the coding has such rows, so that four numbers are masked and stored at once.
    fn side_masks(tag: u8) -> [Self::Elem; 4]
        ensures { map Self.Elem.number result ≡ masks (widths Self.table tag) };
}

// The four masks of a tag from a table in which a half tag's two lie next to each other. Flat, as Halves says where each mask lies.
fn half_masks_of(tag: u8, halves: &[u32; 32]) -> [u32; 4]
    ensures { result ≡ halves_of 2 1 halves.now tag }
{
    let low = 2 * (tag as usize % 16);
    let high = 2 * (tag as usize / 16);
    [halves[low], halves[low + 1], halves[high], halves[high + 1]]
}

// The four masks of a tag from two rows of four by one operation.
fn side_masks_of(tag: u8, sides: &[u32; 128]) -> [u32; 4]
    ensures { result ≡ sides_of sides.now (4 * (tag % 16)) (64 + 4 * (tag / 16)) }
{
    let low = 4 * (tag as usize % 16);
    let high = 64 + 4 * (tag as usize / 16);
    [
        sides[low] & sides[high],
        sides[low + 1] & sides[high + 1],
        sides[low + 2] & sides[high + 2],
        sides[low + 3] & sides[high + 3],
    ]
}

// The four numbers at their places. The tag and the lengths are for the promise alone: no instruction is left of them. Each place is taken
// out of the entry when it is needed, since LLVM keeps the order: all four first would be more than there are registers for.
fn numbers<D: FastDecode>(
    input: &[u8],
    at: usize,
    tag: u8,
    place: u32,
    mask: [D::Elem; 4],
) -> (usize, [D::Elem; 4])
    requires in_bounds { at + 4 * D.Elem.SIZE ≤ length input.now }
    requires entries { (place ≡ place_of (widths D.table tag)) × (map D.Elem.number mask ≡ masks (widths D.table tag)) }
    ensures { Decodes D.table input.now at tag result.0 (map D.Elem.number result.1) }
{
    let second = (place % 256) as usize;
    let one = raw_group::number(input, at, second, mask[0]);
    let third = (place / 256 % 256) as usize;
    let two = raw_group::number(input, at + second, third - second, mask[1]);
    let fourth = (place / 65536 % 256) as usize;
    let three = raw_group::number(input, at + third, fourth - third, mask[2]);
    let read = (place / 16777216) as usize;
    let four = raw_group::number(input, at + fourth, read - fourth, mask[3]);
    (read, [one, two, three, four])
}

// Decode the contents of the group with tag from input, from at on, where the widest group would be there. Returns the number of bytes read
// and the decoded group.
pub fn decode<D: FastDecode>(input: &[u8], at: usize, tag: u8) -> (usize, [D::Elem; 4])
    requires { at + 4 * D.Elem.SIZE ≤ length input.now }
    ensures { Decodes D.table input.now at tag result.0 (map D.Elem.number result.1) }
{
    let mask = D::side_masks(tag);
    numbers::<D>(input, at, tag, D::places()[tag as usize], mask)
}

// Decode the contents of the group as deltas from base with tag from input. Each number is added to the one before it, so their masks are
// loaded one by one.
pub fn decode_deltas<D: FastDecode>(
    input: &[u8],
    at: usize,
    tag: u8,
    base: [D::Elem; 4],
) -> (usize, [D::Elem; 4])
    requires { at + 4 * D.Elem.SIZE ≤ length input.now }
    ensures { DecodesDeltas D.table input.now D.Elem.modulus at tag (get_or (map D.Elem.number base) 3 0) result.0 (map D.Elem.number result.1) }
{
    let mask = D::half_masks(tag);
    let (read, group) = numbers::<D>(input, at, tag, D::places()[tag as usize], mask);
    (read, raw_group::values(base, group))
}

// Skips the group of deltas with tag at input. Returns the number of bytes read and the sum of the delta values.
pub fn skip_deltas<D: FastDecode>(input: &[u8], at: usize, tag: u8) -> (usize, D::Elem)
    requires { at + 4 * D.Elem.SIZE ≤ length input.now }
    ensures { Skips D.table input.now D.Elem.modulus at tag result.0 (D.Elem.number result.1) }
{
    let mask = D::half_masks(tag);
    let (read, group) = numbers::<D>(input, at, tag, D::places()[tag as usize], mask);
    (read, raw_group::sum(group))
}
