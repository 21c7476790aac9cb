// `CodingDescriptor`: the parameters of a coding, and the three codings.
#![tactic(auto)]

mod coder0124;
mod coder1234;
mod coder1248;

ghost use Rattle.std.specs.Prelude.{◌≡◌, List, map, ℕ, ◌+◌, ◌-◌, ◌<◌, length, get_or};
ghost use Rattle.packed.specs.Format.{total, widths};
ghost use Rattle.packed.specs.Group.{Shortest};
ghost use Rattle.packed.proofs.Ends.{Table};
ghost use Rattle.tag_utils.specs.Tables.{masks, Lengths};

pub use coder0124::Coder0124;
pub use coder1234::Coder1234;
pub use coder1248::Coder1248;
use elem::Elem;

// The 2-bit tag value and the number of bytes used to encode a value.
#[derive(Clone, Copy)]
pub struct TagValue {
    pub tag: u8,
    pub len: usize,
}

pub trait CodingDescriptor {
    type Elem: Elem;

    // The width of each 2-bit tag value.
    ghost table: { List ℕ };

    // Map from the two-bit tag value for a single value to the encoded length. The masks stand in a table of their own, as in the Rust: most
    // callers want the lengths alone.
    fn tag_len() -> &'static [usize; 4]
        ensures { result.now ≡ table };

    // Mask of the encoded bytes for each 2-bit tag value.
    fn tag_max() -> &'static [Self::Elem; 4]
        ensures { map Self.Elem.number result.now ≡ masks table };

    // The number of bytes of a group, by tag.
    fn tag_length_table() -> &'static [u32; 256]
        ensures { Lengths table result.now };

    // The 2-bit tag value and the number of bytes used to encode value.
    fn tag_value(value: Self::Elem) -> TagValue
        ensures { Shortest table Self.Elem.SIZE (Self.Elem.number value) result.tag result.len };

    ghost is_table: { Table table };

    ghost widest: { get_or table 3 0 ≡ Self.Elem.SIZE };
}

// Returns the number of bytes a group of 4 with the given tag occupies.
pub fn data_len<D: CodingDescriptor>(tag: u8) -> usize
    ensures { result ≡ total (widths D.table tag) }
{
    D::tag_length_table()[tag as usize] as usize
}
