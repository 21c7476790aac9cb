// Groups through coder 1234.
use crate::groups::{Shown, both, deltas, length, reads};
use coding_descriptor::Coder1234;

impl Shown for Coder1234 {
    const NAME: &'static str = "1234";
}

pub fn run(rt: &impl Print) {
    both::<Coder1234>(
        rt,
        [0, 255, 256, 65536],
        0x90,
        b"\x00\xFF\x00\x01\x00\x00\x01",
    );
    both::<Coder1234>(rt, [0, 0, 0, 0], 0x00, b"\x00\x00\x00\x00");
    both::<Coder1234>(
        rt,
        [255, 256, 65535, 65536],
        0x94,
        b"\xFF\x00\x01\xFF\xFF\x00\x00\x01",
    );
    both::<Coder1234>(
        rt,
        [16777215, 16777216, 4294967295, 1],
        0x3E,
        b"\xFF\xFF\xFF\x00\x00\x00\x01\xFF\xFF\xFF\xFF\x01",
    );
    both::<Coder1234>(
        rt,
        [4294967295, 4294967295, 4294967295, 4294967295],
        0xFF,
        b"\xFF\xFF\xFF\xFF\xFF\xFF\xFF\xFF\xFF\xFF\xFF\xFF\xFF\xFF\xFF\xFF",
    );
    reads::<Coder1234>(
        rt,
        0xFF,
        b"\x05\x00\x00\x00\x05\x00\x00\x00\x05\x00\x00\x00\x05\x00\x00\x00",
        [5, 5, 5, 5],
    );
    deltas::<Coder1234>(
        rt,
        1798,
        [1799, 1802, 1803, 1804],
        0x00,
        b"\x01\x03\x01\x01",
        6,
    );
    deltas::<Coder1234>(
        rt,
        5,
        [4, 4, 4, 4],
        0x03,
        b"\xFF\xFF\xFF\xFF\x00\x00\x00",
        4294967295,
    );
    length::<Coder1234>(rt, 0xE4, 10);
    length::<Coder1234>(rt, 0xFF, 16);
    length::<Coder1234>(rt, 0x00, 4);
}
