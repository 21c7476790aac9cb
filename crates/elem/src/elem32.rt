// A number of 32 bits as an element. `elem64` says the same of 64: an `impl` that a macro writes is refused here.
ghost use Rattle.std.specs.Prelude.{◌%◌};
ghost use Rattle.std.proofs.Common.{rules};
ghost use Rattle.packed.specs.Format.{m32};

use crate::Elem;
use zero_bytes::zero_bytes32;

impl Elem for u32 {
    const SIZE: usize = 4;

    ghost SIZE = { 4 };

    ghost modulus = { m32 };

    ghost number = { λ x. x % m32 };

    fn zero() -> u32 {
        0
    }

    fn is_zero(self) -> bool {
        self == 0
    }

    fn wrapping_add(self, other: u32) -> u32 {
        u32::wrapping_add(self, other)
    }

    fn wrapping_sub(self, other: u32) -> u32 {
        u32::wrapping_sub(self, other)
    }

    fn masked(self, mask: u32) -> u32 {
        self & mask
    }

    // `to_le_bytes` would make an array of all bytes for this one.
    fn byte(self, i: usize) -> u8 {
        ((self >> (8 * i)) % 256) as u8
    }

    fn load(input: &[u8], at: usize) -> u32 {
        u32::from_le_bytes([input[at], input[at + 1], input[at + 2], input[at + 3]])
    }

    fn with_low_byte(self, byte: u8) -> u32 {
        self * 256 + byte as u32
    }

    fn as_u64(self) -> u64 {
        self as u64
    }

    fn zero_bytes(self) -> usize {
        zero_bytes32(self)
    }

    ghost small = { Prim.search rules };

    ghost few = { Prim.search rules };

    ghost wraps = { Prim.search rules };

    ghost below = { λ x. Prim.search rules };
}
