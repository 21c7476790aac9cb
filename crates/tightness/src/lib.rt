// The tightness check, below its refusals. It is ours: the Rust has none.
#![tactic(auto)]

ghost use Rattle.std.specs.Prelude.{◌≡◌, ◌≤◌, length};
ghost use Rattle.packed.specs.Format.{le_value, data_len};
ghost use Rattle.packed.specs.Calls.{tightness_of};
ghost use Rattle.answers.specs.Meaning.{place_of};

use answers::Place;
use coding_descriptor::CodingDescriptor;
use elem::Elem;

// The number of these bytes, low byte first, those bytes alone: the last number may end with the data.
fn stored_number<E: Elem>(bytes: &[u8]) -> E
    requires { length bytes.now ≤ E.SIZE }
    ensures { E.number result ≡ le_value bytes.now }
{
    let mut value = E::zero();
    // No `fold`: that the next byte fits, which with_low_byte asks, is known of the loop's value alone.
    for byte in bytes.iter().rev() {
        value = value.with_low_byte(*byte);
    }
    value
}

// The place of the first stored number whose width is not the shortest.
pub fn first_loose<D: CodingDescriptor>(tags: &[u8], data: &[u8]) -> Option<Place>
    requires { data_len D.table tags.now ≤ length «data».now }
    ensures { place_of result ≡ tightness_of D.table tags.now «data».now }
{
    let mut at = 0usize;
    for (group, tag) in tags.iter().enumerate() {
        let mut rest = *tag;
        // position is a part of the answer and indexes nothing: an array of the tag's four lengths would be made for this loop alone
        for position in 0..4 {
            let len = D::tag_len()[(rest % 4) as usize];
            // A number of the narrowest width is never loose, so it need not be read.
            if rest % 4 != 0 {
                let value = stored_number(&data[at..at + len]);
                if len != D::tag_value(value).len {
                    return Some(Place { group, position });
                }
            }
            at += len;
            rest = rest / 4;
        }
    }
    None
}
