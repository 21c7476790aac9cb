// Groups through coder 0124.
use crate::groups::{Shown, both, deltas, length, reads};
use coding_descriptor::Coder0124;

impl Shown for Coder0124 {
    const NAME: &'static str = "0124";
}

pub fn run(rt: &impl Print) {
    both::<Coder0124>(
        rt,
        [0, 255, 256, 65536],
        0xE4,
        b"\xFF\x00\x01\x00\x00\x01\x00",
    );
    both::<Coder0124>(rt, [0, 0, 0, 0], 0x00, b"");
    both::<Coder0124>(rt, [0, 1, 255, 256], 0x94, b"\x01\xFF\x00\x01");
    both::<Coder0124>(
        rt,
        [65535, 65536, 16777215, 16777216],
        0xFE,
        b"\xFF\xFF\x00\x00\x01\x00\xFF\xFF\xFF\x00\x00\x00\x00\x01",
    );
    both::<Coder0124>(
        rt,
        [4294967295, 4294967295, 4294967295, 4294967295],
        0xFF,
        b"\xFF\xFF\xFF\xFF\xFF\xFF\xFF\xFF\xFF\xFF\xFF\xFF\xFF\xFF\xFF\xFF",
    );
    reads::<Coder0124>(rt, 0x55, b"\x00\x00\x00\x00", [0, 0, 0, 0]);
    deltas::<Coder0124>(
        rt,
        1798,
        [1799, 1802, 1803, 1804],
        0x55,
        b"\x01\x03\x01\x01",
        6,
    );
    deltas::<Coder0124>(rt, 5, [4, 4, 4, 4], 0x03, b"\xFF\xFF\xFF\xFF", 4294967295);
    length::<Coder0124>(rt, 0xE4, 7);
    length::<Coder0124>(rt, 0xFF, 16);
    length::<Coder0124>(rt, 0x00, 0);
}
