// The elements of the three coders, u32 and u64: the integers that the Rust's `CodingDescriptor::Elem` stands for.
#![tactic(auto)]

mod elem32;
mod elem64;

ghost use Rattle.std.specs.Prelude.{◌≡◌, ℕ, ◌+◌, ◌-◌, ◌*◌, ◌/◌, ◌%◌, ◌^◌, ◌<◌, ◌≤◌, eqb, length, take, drop};
ghost use Rattle.std.specs.Int.Bits.{bit_and};
ghost use Rattle.std.specs.Int.Count.{count_leading_zeros};
ghost use Rattle.std.specs.Mem.{type_size};
ghost use Rattle.std.proofs.Common.{rules};
ghost use Rattle.packed.specs.Format.{m32, m64, le_value};

pub trait Elem: Copy + 'static {
    // How many bytes an element has.
    const SIZE: usize;

    ghost SIZE: { ℕ };

    // Where its arithmetic wraps.
    ghost modulus: { ℕ };

    // The number that it is.
    ghost number: { Self → ℕ };

    fn zero() -> Self
        ensures { number result ≡ 0 };

    fn is_zero(self) -> bool
        ensures { result ≡ eqb (number self) 0 };

    fn wrapping_add(self, other: Self) -> Self
        ensures { number result ≡ (number self + number other) % modulus };

    fn wrapping_sub(self, other: Self) -> Self
        ensures { number result ≡ (number self + (modulus - number other)) % modulus };

    // The bits that mask has too.
    fn masked(self, mask: Self) -> Self
        ensures { number result ≡ bit_and (number self) (number mask) };

    // The i-th byte, from the low one up.
    fn byte(self, i: usize) -> u8
        requires { i < SIZE }
        ensures { result ≡ number self / 256 ^ i % 256 };

    // Its bytes put together, low byte first: one load.
    fn load(input: &[u8], at: usize) -> Self
        requires { at + SIZE ≤ length input.now }
        ensures { number result ≡ le_value (take SIZE (drop at input.now)) };

    // The number with a byte more at its low end, where it fits.
    fn with_low_byte(self, byte: u8) -> Self
        requires { number self * 256 + byte < modulus }
        ensures { number result ≡ number self * 256 + byte };

    fn as_u64(self) -> u64
        ensures { result ≡ number self };

    // The count of zero bytes in front.
    fn zero_bytes(self) -> usize
        ensures { result ≡ count_leading_zeros (8 * SIZE) (number self) / 8 };

    // Four of them fit in memory.
    ghost small: { 4 * type_size Self.row < 2 ^ 63 };

    // No element has more than eight bytes.
    ghost few: { SIZE ≤ 8 };

    ghost wraps: { modulus ≡ 256 ^ SIZE };

    ghost below: { (x : Self) → number x < modulus };
}
