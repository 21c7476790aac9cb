// Coder 1234 packs 32-bit integers into lengths of 1, 2, 3, or 4 bytes.
ghost use Rattle.std.specs.Prelude.{◌≡◌, ℕ, ◌-◌, ◌/◌, ◌<◌, refl};
ghost use Rattle.packed.specs.Format.{t1234};
ghost use Rattle.packed.proofs.Coders.{table1234};

use crate::{CodingDescriptor, TagValue};

#[derive(Clone, Copy)]
pub struct Coder1234;

static TAG_LEN: [usize; 4] = [1, 2, 3, 4];

static TAG_MAX: [u32; 4] = [0xFF, 0xFFFF, 0xFFFFFF, 0xFFFFFFFF];

static LENGTH_TABLE: [u32; 256] = [
    4, 5, 6, 7, 5, 6, 7, 8, 6, 7, 8, 9, 7, 8, 9, 10, 5, 6, 7, 8, 6, 7, 8, 9, 7, 8, 9, 10, 8, 9, 10,
    11, 6, 7, 8, 9, 7, 8, 9, 10, 8, 9, 10, 11, 9, 10, 11, 12, 7, 8, 9, 10, 8, 9, 10, 11, 9, 10, 11,
    12, 10, 11, 12, 13, 5, 6, 7, 8, 6, 7, 8, 9, 7, 8, 9, 10, 8, 9, 10, 11, 6, 7, 8, 9, 7, 8, 9, 10,
    8, 9, 10, 11, 9, 10, 11, 12, 7, 8, 9, 10, 8, 9, 10, 11, 9, 10, 11, 12, 10, 11, 12, 13, 8, 9,
    10, 11, 9, 10, 11, 12, 10, 11, 12, 13, 11, 12, 13, 14, 6, 7, 8, 9, 7, 8, 9, 10, 8, 9, 10, 11,
    9, 10, 11, 12, 7, 8, 9, 10, 8, 9, 10, 11, 9, 10, 11, 12, 10, 11, 12, 13, 8, 9, 10, 11, 9, 10,
    11, 12, 10, 11, 12, 13, 11, 12, 13, 14, 9, 10, 11, 12, 10, 11, 12, 13, 11, 12, 13, 14, 12, 13,
    14, 15, 7, 8, 9, 10, 8, 9, 10, 11, 9, 10, 11, 12, 10, 11, 12, 13, 8, 9, 10, 11, 9, 10, 11, 12,
    10, 11, 12, 13, 11, 12, 13, 14, 9, 10, 11, 12, 10, 11, 12, 13, 11, 12, 13, 14, 12, 13, 14, 15,
    10, 11, 12, 13, 11, 12, 13, 14, 12, 13, 14, 15, 13, 14, 15, 16,
];

// Each coder has tables of its own, so each gives them out itself: an `impl` that a macro writes is refused here.
impl CodingDescriptor for Coder1234 {
    type Elem = u32;

    ghost table = { t1234 };

    fn tag_len() -> &'static [usize; 4] {
        &TAG_LEN
    }

    fn tag_max() -> &'static [u32; 4] {
        &TAG_MAX
    }

    fn tag_length_table() -> &'static [u32; 256] {
        &LENGTH_TABLE
    }

    fn tag_value(value: u32) -> TagValue {
        let tag = 3u32.saturating_sub(value.leading_zeros() / 8);
        TagValue {
            tag: tag as u8,
            len: tag as usize + 1,
        }
    }

    ghost is_table = { table1234 };

    ghost widest = { refl };
}
