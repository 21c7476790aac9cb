// How many groups of a column may be encoded by whole words. The words leave bytes behind the last number that the groups behind it have to
// cover, and a group can have none, as zeros of coder 0124: the end is looked for from behind.
#![tactic(auto)]

ghost use Rattle.std.specs.Prelude.{true, [], ◌∷◌, ◌≡◌, map, ◌/◌, ◌≤◌, length};
ghost use Rattle.packed.specs.Format.{short_width, tag_of, bytes_of};
ghost use Rattle.wide_stores.specs.Wide.{left_behind, Covers};

use coding_descriptor::{CodingDescriptor, data_len};
use elem::Elem;
use fast_encode::{EncodeSink, FastEncode, tag_value};

// Four zeros, of which a column may have many. Four tests: `all` over a list of four would be no shorter, and its law has to be taken apart.
pub fn is_zero<E: Elem>(group: [E; 4]) -> bool
    ensures { result ≡ true → map E.number group ≡ 0 ∷ 0 ∷ 0 ∷ 0 ∷ [] }
{
    group[0].is_zero() && group[1].is_zero() && group[2].is_zero() && group[3].is_zero()
}

// The one-byte tag of a group. Zeros are passed quickly.
pub fn group_tag<D: FastEncode>(group: [D::Elem; 4]) -> u8
    ensures { result ≡ tag_of D.table (map D.Elem.number group) }
{
    if is_zero(group) {
        return 0;
    }
    let first = tag_value::<D>(group[0]).tag;
    let second = tag_value::<D>(group[1]).tag;
    let third = tag_value::<D>(group[2]).tag;
    let fourth = tag_value::<D>(group[3]).tag;
    first + 4 * (second + 4 * (third + 4 * fourth))
}

// How many bytes a group has.
pub fn group_len<D: FastEncode>(group: [D::Elem; 4]) -> usize
    ensures { result ≡ length (bytes_of D.table (map D.Elem.number group)) }
{
    data_len::<D>(group_tag::<D>(group))
}

// A number that is not 0 has a byte or more. A function of its own: where its arms join, what the next call needs of each is lost.
fn some_len<E: Elem>(value: E) -> usize
    ensures { (result ≤ E.number value) × (result ≤ 1) }
{
    if value.is_zero() { 0 } else { 1 }
}

// So many bytes a number has at least: that, and the narrowest width.
fn least_len<D: FastEncode>(value: D::Elem) -> usize
    ensures { (result ≤ short_width D.table (D.Elem.number value)) × (result ≤ 8) }
{
    D::tag_len()[0].max(some_len(value))
}

// So a group has at least so many. No tag is looked for here: of a short column that would be the most part of the work.
fn least_group_len<D: FastEncode>(group: [D::Elem; 4]) -> usize
    ensures { result ≤ length (bytes_of D.table (map D.Elem.number group)) }
{
    least_len::<D>(group[0])
        + least_len::<D>(group[1])
        + least_len::<D>(group[2])
        + least_len::<D>(group[3])
}

// What whole words leave behind at most. `stage_ends` has four times this as slack; a crate between the two for a line would be no plainer.
fn to_cover<D: CodingDescriptor>() -> usize
    ensures { result ≡ left_behind D.table }
{
    D::tag_len()[3] - D::tag_len()[0]
}

// The groups behind the answer have as many bytes as the words leave or more, or it is 0. Kept apart: put into its caller, it would leave too
// few registers to the loop over the groups in front.
#[inline(never)]
pub fn front_end<D: FastEncode, S: EncodeSink<D::Elem>>(start: S, values: &[D::Elem]) -> usize
    ensures { Covers D.table (left_behind D.table) (S.stored start (map D.Elem.number values.now)) (length values.now / 4) result }
{
    let (groups, _) = values.as_chunks::<4>();
    let mut uncovered = to_cover::<D>();
    // By place: over `groups.iter().enumerate().rev()` the place has to be told from what was yielded, and `returns-then-uncovered-eq0` stays open.
    for front in (0..groups.len()).rev() {
        let mut sink = start.from(values, 4 * front);
        let stored = sink.handle(groups[front]);
        uncovered = uncovered.saturating_sub(least_group_len::<D>(stored));
        if uncovered == 0 {
            return front;
        }
    }
    0
}
