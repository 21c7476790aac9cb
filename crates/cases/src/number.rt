// The numbers that coders take and give, as a file has them.
ghost use Rattle.std.specs.Prelude.{◌≡◌, ◌*◌, ◌%◌, ◌^◌, ◌<◌};
ghost use Rattle.std.specs.Mem.{type_size};
ghost use Rattle.std.proofs.Common.{rules};

use elem::Elem;

// An element that is read from a file as 64 bits, and compared.
pub trait Number: Elem + PartialEq {
    // The value, without the bits above the element's width.
    fn wrapping_from(value: u64) -> Self
        ensures { Self.number result ≡ value % Self.modulus };

    // The arrays of them fit in memory.
    ghost fits: { 160 * type_size Self.row < 2 ^ 63 };

    // It has a byte at least.
    ghost wide: { 0 < Self.SIZE };
}

impl Number for u32 {
    fn wrapping_from(value: u64) -> u32 {
        (value % 4294967296) as u32
    }

    ghost fits = { Prim.search rules };

    ghost wide = { Prim.search rules };
}

impl Number for u64 {
    fn wrapping_from(value: u64) -> u64 {
        value
    }

    ghost fits = { Prim.search rules };

    ghost wide = { Prim.search rules };
}
