// The count of zero bytes in front of a value, for the encoders.
#![tactic(auto)]

ghost use Rattle.std.specs.Prelude.{◌≡◌, ◌/◌};
ghost use Rattle.std.specs.Int.Count.{count_leading_zeros};

// The number of leading zero bits divided by eight: the bytes in reverse order, with a bit set behind them so that there is one to find,
// and the zero bits counted from the low end. On the processor measured (docs/SPEED.md) that takes a sixth of the time of counting from the
// high end, as `leading_zeros` does.
pub fn zero_bytes32(value: u32) -> usize
    ensures { result ≡ count_leading_zeros 32 value / 8 }
{
    let turned = value % 256 * 16777216
        + value / 256 % 256 * 65536
        + value / 65536 % 256 * 256
        + value / 16777216;
    (u64::trailing_zeros(turned as u64 + 4294967296) / 8) as usize
}
