// The lengths of four tags of coder 1248, side by side.
ghost use Rattle.std.specs.Prelude.{◌≡◌, ◌+◌, ◌*◌};

use crate::SideBySide;
use coding_descriptor::Coder1248;
use tag_words::{pairs, sum_of_halves, uppers};

impl SideBySide for Coder1248 {
    fn data_len4_side_by_side(tag4: u32) -> u32 {
        let upper = uppers(tag4);
        // A width is its field and one more, another one where the upper bit is set, and three more where both are.
        sum_of_halves(pairs(tag4) + pairs(upper) + 3 * pairs(tag4 & upper)) + 16
    }
}
