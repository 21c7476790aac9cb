// Coder 1248: the tag values by the count of zero bytes in front.
use crate::FastEncode;
use coding_descriptor::{Coder1248, TagValue};

static BY_ZEROS: [TagValue; 9] = [
    TagValue { tag: 3, len: 8 },
    TagValue { tag: 3, len: 8 },
    TagValue { tag: 3, len: 8 },
    TagValue { tag: 3, len: 8 },
    TagValue { tag: 2, len: 4 },
    TagValue { tag: 2, len: 4 },
    TagValue { tag: 1, len: 2 },
    TagValue { tag: 0, len: 1 },
    TagValue { tag: 0, len: 1 },
];

// Each coder has a table of its own, so each gives it out itself: an `impl` that a macro writes is refused here.
impl FastEncode for Coder1248 {
    fn by_zeros(zeros: usize) -> TagValue {
        BY_ZEROS[zeros]
    }
}
