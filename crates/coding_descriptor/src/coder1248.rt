// Coder 1248 packs 64-bit integers into lengths of 1, 2, 4, or 8 bytes.
ghost use Rattle.std.specs.Prelude.{◌≡◌, ℕ, ◌-◌, ◌/◌, ◌<◌, refl};
ghost use Rattle.packed.specs.Format.{t1248};
ghost use Rattle.packed.proofs.Coders.{table1248};

use crate::{CodingDescriptor, TagValue};

#[derive(Clone, Copy)]
pub struct Coder1248;

static TAG_LEN: [usize; 4] = [1, 2, 4, 8];

static TAG_MAX: [u64; 4] = [0xFF, 0xFFFF, 0xFFFFFFFF, 0xFFFFFFFFFFFFFFFF];

static LENGTH_TABLE: [u32; 256] = [
    4, 5, 7, 11, 5, 6, 8, 12, 7, 8, 10, 14, 11, 12, 14, 18, 5, 6, 8, 12, 6, 7, 9, 13, 8, 9, 11, 15,
    12, 13, 15, 19, 7, 8, 10, 14, 8, 9, 11, 15, 10, 11, 13, 17, 14, 15, 17, 21, 11, 12, 14, 18, 12,
    13, 15, 19, 14, 15, 17, 21, 18, 19, 21, 25, 5, 6, 8, 12, 6, 7, 9, 13, 8, 9, 11, 15, 12, 13, 15,
    19, 6, 7, 9, 13, 7, 8, 10, 14, 9, 10, 12, 16, 13, 14, 16, 20, 8, 9, 11, 15, 9, 10, 12, 16, 11,
    12, 14, 18, 15, 16, 18, 22, 12, 13, 15, 19, 13, 14, 16, 20, 15, 16, 18, 22, 19, 20, 22, 26, 7,
    8, 10, 14, 8, 9, 11, 15, 10, 11, 13, 17, 14, 15, 17, 21, 8, 9, 11, 15, 9, 10, 12, 16, 11, 12,
    14, 18, 15, 16, 18, 22, 10, 11, 13, 17, 11, 12, 14, 18, 13, 14, 16, 20, 17, 18, 20, 24, 14, 15,
    17, 21, 15, 16, 18, 22, 17, 18, 20, 24, 21, 22, 24, 28, 11, 12, 14, 18, 12, 13, 15, 19, 14, 15,
    17, 21, 18, 19, 21, 25, 12, 13, 15, 19, 13, 14, 16, 20, 15, 16, 18, 22, 19, 20, 22, 26, 14, 15,
    17, 21, 15, 16, 18, 22, 17, 18, 20, 24, 21, 22, 24, 28, 18, 19, 21, 25, 19, 20, 22, 26, 21, 22,
    24, 28, 25, 26, 28, 32,
];

// Each coder has tables of its own, so each gives them out itself: an `impl` that a macro writes is refused here.
impl CodingDescriptor for Coder1248 {
    type Elem = u64;

    ghost table = { t1248 };

    fn tag_len() -> &'static [usize; 4] {
        &TAG_LEN
    }

    fn tag_max() -> &'static [u64; 4] {
        &TAG_MAX
    }

    fn tag_length_table() -> &'static [u32; 256] {
        &LENGTH_TABLE
    }

    // Computes a 3-bit value in [0,7] in the same way as coder 1234, then takes ~log2 to get a mapping from
    // bytes required to length: [0,1] => 0, [2,2] => 1, [3,4] => 2, [5,8] => 3.
    fn tag_value(value: u64) -> TagValue {
        let t3 = 7u32.saturating_sub(value.leading_zeros() / 8);
        let tag = 32 - t3.leading_zeros();
        TagValue {
            tag: tag as u8,
            len: TAG_LEN[tag as usize],
        }
    }

    ghost is_table = { table1248 };

    ghost widest = { refl };
}
