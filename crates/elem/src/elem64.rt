// A number of 64 bits as an element. `elem32` says the same of 32: an `impl` that a macro writes is refused here.
ghost use Rattle.std.specs.Prelude.{◌%◌};
ghost use Rattle.std.proofs.Common.{rules};
ghost use Rattle.packed.specs.Format.{m64};

use crate::Elem;

impl Elem for u64 {
    const SIZE: usize = 8;

    ghost SIZE = { 8 };

    ghost modulus = { m64 };

    ghost number = { λ x. x % m64 };

    fn zero() -> u64 {
        0
    }

    fn is_zero(self) -> bool {
        self == 0
    }

    fn wrapping_add(self, other: u64) -> u64 {
        u64::wrapping_add(self, other)
    }

    fn wrapping_sub(self, other: u64) -> u64 {
        u64::wrapping_sub(self, other)
    }

    fn masked(self, mask: u64) -> u64 {
        self & mask
    }

    // `to_le_bytes` would make an array of all bytes for this one.
    fn byte(self, i: usize) -> u8 {
        ((self >> (8 * i)) % 256) as u8
    }

    fn load(input: &[u8], at: usize) -> u64 {
        u64::from_le_bytes([
            input[at],
            input[at + 1],
            input[at + 2],
            input[at + 3],
            input[at + 4],
            input[at + 5],
            input[at + 6],
            input[at + 7],
        ])
    }

    fn with_low_byte(self, byte: u8) -> u64 {
        self * 256 + byte as u64
    }

    fn as_u64(self) -> u64 {
        self
    }

    fn zero_bytes(self) -> usize {
        (self.leading_zeros() / 8) as usize
    }

    ghost small = { Prim.search rules };

    ghost few = { Prim.search rules };

    ghost wraps = { Prim.search rules };

    ghost below = { λ x. Prim.search rules };
}
