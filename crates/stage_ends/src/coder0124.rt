// The lengths of four tags of coder 0124, side by side.
ghost use Rattle.std.specs.Prelude.{◌≡◌, ◌+◌, ◌*◌};

use crate::SideBySide;
use coding_descriptor::Coder0124;
use tag_words::{pairs, sum_of_halves, uppers};

impl SideBySide for Coder0124 {
    fn data_len4_side_by_side(tag4: u32) -> u32 {
        // A width is its field, and one more where both bits are set.
        sum_of_halves(pairs(tag4) + pairs(tag4 & uppers(tag4)))
    }
}
