// The lengths of four tags of coder 1234, side by side.
ghost use Rattle.std.specs.Prelude.{◌≡◌, ◌+◌, ◌*◌};

use crate::SideBySide;
use coding_descriptor::Coder1234;
use tag_words::{pairs, sum_of_halves};

impl SideBySide for Coder1234 {
    fn data_len4_side_by_side(tag4: u32) -> u32 {
        // A width is its field and one more.
        sum_of_halves(pairs(tag4)) + 16
    }
}
