// Coder 0124 packs 32-bit integers into lengths of 0, 1, 2, or 4 bytes.
ghost use Rattle.std.specs.Prelude.{◌≡◌, ℕ, ◌-◌, ◌/◌, ◌<◌, refl};
ghost use Rattle.packed.specs.Format.{t0124};
ghost use Rattle.packed.proofs.Coders.{table0124};

use crate::{CodingDescriptor, TagValue};

#[derive(Clone, Copy)]
pub struct Coder0124;

static TAG_LEN: [usize; 4] = [0, 1, 2, 4];

static TAG_MAX: [u32; 4] = [0, 0xFF, 0xFFFF, 0xFFFFFFFF];

static LENGTH_TABLE: [u32; 256] = [
    0, 1, 2, 4, 1, 2, 3, 5, 2, 3, 4, 6, 4, 5, 6, 8, 1, 2, 3, 5, 2, 3, 4, 6, 3, 4, 5, 7, 5, 6, 7, 9,
    2, 3, 4, 6, 3, 4, 5, 7, 4, 5, 6, 8, 6, 7, 8, 10, 4, 5, 6, 8, 5, 6, 7, 9, 6, 7, 8, 10, 8, 9, 10,
    12, 1, 2, 3, 5, 2, 3, 4, 6, 3, 4, 5, 7, 5, 6, 7, 9, 2, 3, 4, 6, 3, 4, 5, 7, 4, 5, 6, 8, 6, 7,
    8, 10, 3, 4, 5, 7, 4, 5, 6, 8, 5, 6, 7, 9, 7, 8, 9, 11, 5, 6, 7, 9, 6, 7, 8, 10, 7, 8, 9, 11,
    9, 10, 11, 13, 2, 3, 4, 6, 3, 4, 5, 7, 4, 5, 6, 8, 6, 7, 8, 10, 3, 4, 5, 7, 4, 5, 6, 8, 5, 6,
    7, 9, 7, 8, 9, 11, 4, 5, 6, 8, 5, 6, 7, 9, 6, 7, 8, 10, 8, 9, 10, 12, 6, 7, 8, 10, 7, 8, 9, 11,
    8, 9, 10, 12, 10, 11, 12, 14, 4, 5, 6, 8, 5, 6, 7, 9, 6, 7, 8, 10, 8, 9, 10, 12, 5, 6, 7, 9, 6,
    7, 8, 10, 7, 8, 9, 11, 9, 10, 11, 13, 6, 7, 8, 10, 7, 8, 9, 11, 8, 9, 10, 12, 10, 11, 12, 14,
    8, 9, 10, 12, 9, 10, 11, 13, 10, 11, 12, 14, 12, 13, 14, 16,
];

static TAG_VALUE_MAP: [usize; 5] = [0, 1, 2, 3, 3];

// Each coder has tables of its own, so each gives them out itself: an `impl` that a macro writes is refused here.
impl CodingDescriptor for Coder0124 {
    type Elem = u32;

    ghost table = { t0124 };

    fn tag_len() -> &'static [usize; 4] {
        &TAG_LEN
    }

    fn tag_max() -> &'static [u32; 4] {
        &TAG_MAX
    }

    fn tag_length_table() -> &'static [u32; 256] {
        &LENGTH_TABLE
    }

    fn tag_value(value: u32) -> TagValue {
        let tag = TAG_VALUE_MAP[4 - (value.leading_zeros() as usize / 8)];
        TagValue {
            tag: tag as u8,
            len: TAG_LEN[tag],
        }
    }

    ghost is_table = { table0124 };

    ghost widest = { refl };
}
