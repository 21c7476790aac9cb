// Groups through coder 1248.
use crate::groups::{Shown, both, deltas, length, reads};
use coding_descriptor::Coder1248;

impl Shown for Coder1248 {
    const NAME: &'static str = "1248";
}

pub fn run(rt: &impl Print) {
    both::<Coder1248>(
        rt,
        [0, 256, 65536, 4294967296],
        0xE4,
        b"\x00\x00\x01\x00\x00\x01\x00\x00\x00\x00\x00\x01\x00\x00\x00",
    );
    both::<Coder1248>(rt, [0, 0, 0, 0], 0x00, b"\x00\x00\x00\x00");
    both::<Coder1248>(
        rt,
        [255, 256, 65535, 65536],
        0x94,
        b"\xFF\x00\x01\xFF\xFF\x00\x00\x01\x00",
    );
    both::<Coder1248>(
        rt,
        [4294967295, 4294967296, 18446744073709551615, 1],
        0x3E,
        b"\xFF\xFF\xFF\xFF\x00\x00\x00\x00\x01\x00\x00\x00\xFF\xFF\xFF\xFF\xFF\xFF\xFF\xFF\x01",
    );
    both::<Coder1248>(
        rt,
        [
            18446744073709551615,
            18446744073709551615,
            18446744073709551615,
            18446744073709551615,
        ],
        0xFF,
        b"\xFF\xFF\xFF\xFF\xFF\xFF\xFF\xFF\xFF\xFF\xFF\xFF\xFF\xFF\xFF\xFF\xFF\xFF\xFF\xFF\xFF\xFF\xFF\xFF\xFF\xFF\xFF\xFF\xFF\xFF\xFF\xFF",
    );
    reads::<Coder1248>(
        rt,
        0xFF,
        b"\x05\x00\x00\x00\x00\x00\x00\x00\x05\x00\x00\x00\x00\x00\x00\x00\x05\x00\x00\x00\x00\x00\x00\x00\x05\x00\x00\x00\x00\x00\x00\x00",
        [5, 5, 5, 5],
    );
    deltas::<Coder1248>(
        rt,
        1798,
        [1799, 1802, 1803, 1804],
        0x00,
        b"\x01\x03\x01\x01",
        6,
    );
    deltas::<Coder1248>(
        rt,
        5,
        [4, 4, 4, 4],
        0x03,
        b"\xFF\xFF\xFF\xFF\xFF\xFF\xFF\xFF\x00\x00\x00",
        18446744073709551615,
    );
    length::<Coder1248>(rt, 0xE4, 15);
    length::<Coder1248>(rt, 0xFF, 32);
    length::<Coder1248>(rt, 0x00, 4);
}
