// Lengths of runs of tags, and where the three stages end. No data byte is looked at. That the tags are within the limit keeps each sum in its
// type; the calls check it first of all, and a type of such tags would be opened by each function here to say it.
#![tactic(auto)]

mod coder0124;
mod coder1234;
mod coder1248;

ghost use Rattle.std.specs.Prelude.{◌≡◌, ◌+◌, ◌-◌, ◌*◌, ◌%◌, ◌≤◌, ◌<◌, length, drop};
ghost use Rattle.packed.specs.Refusals.{group_limit};
ghost use Rattle.packed.specs.Stages.{slack, eights, singles};
ghost use Rattle.packed.specs.Column.{Measured, EndsAt, Ends};
ghost use Rattle.tag_words.specs.Words.{lengths4};

use coding_descriptor::{CodingDescriptor, data_len};
use elem::Elem;
use tag_utils::tags4;

// The lengths of four tags at once, without a table.
pub trait SideBySide: CodingDescriptor {
    // The number of encoded bytes of the 4 groups whose tags are put together in tag4: their fields are added side by side in it.
    fn data_len4_side_by_side(tag4: u32) -> u32
        ensures { result ≡ lengths4 Self.table tag4 };
}

// Where a stage ends: how many groups were taken by then, and their bytes.
#[derive(Clone, Copy)]
pub struct End {
    pub groups: usize,
    pub read: usize,
}

// Where the eight-tag stage ends, where the single-tag stage ends, what the tail takes and what is copied for it.
#[derive(Clone, Copy)]
pub struct StageEnds {
    pub eights: usize,
    pub eights_read: usize,
    pub groups: usize,
    pub read: usize,
    pub taken: usize,
    pub copied: usize,
}

// The number of encoded bytes of the 4 groups whose tags are put together in tag4: a sum in u32, as the entries are, so that each is added
// straight from the table. By `/` and `%`: `to_le_bytes` would give four bytes to be widened one by one.
fn data_len4<D: CodingDescriptor>(tag4: u32) -> u32
    ensures { result ≡ lengths4 D.table tag4 }
{
    let lens = D::tag_length_table();
    lens[(tag4 % 256) as usize]
        + lens[(tag4 / 256 % 256) as usize]
        + lens[(tag4 / 65536 % 256) as usize]
        + lens[(tag4 / 16777216) as usize]
}

// The number of encoded bytes of 8 groups, from the i-th on: one load for each four tags.
fn data_len8<D: CodingDescriptor>(tags: &[u8], i: usize) -> usize
    requires { i + 8 ≤ length tags.now }
    ensures { Measured D.table tags.now i (i + 8) result }
{
    (data_len4::<D>(tags4(tags, i)) + data_len4::<D>(tags4(tags, i + 4))) as usize
}

// The number of encoded bytes of so many fours of groups, from the i-th on.
fn data_len_fours<D: SideBySide>(tags: &[u8], from: usize, fours: usize) -> u32
    requires { (from + 4 * fours ≤ length tags.now) × (length tags.now ≤ group_limit) }
    ensures { Measured D.table tags.now from (from + 4 * fours) result }
{
    let mut len = 0u32;
    // Over places: a part of four tags would have to become an array first, which is no plainer.
    for k in 0..fours {
        len += D::data_len4_side_by_side(tags4(tags, from + 4 * k));
    }
    len
}

// The number of encoded bytes of all groups from the i-th on: by fours, and the last ones from the table.
pub fn data_len_from<D: SideBySide>(tags: &[u8], from: usize) -> usize
    requires { (from ≤ length tags.now) × (length tags.now ≤ group_limit) }
    ensures { Measured D.table tags.now from (length tags.now) result }
{
    let fours = (tags.len() - from) / 4;
    let mut len = data_len_fours::<D>(tags, from, fours) as usize;
    for tag in &tags[from + 4 * fours..] {
        len += data_len::<D>(*tag);
    }
    len
}

// What the widest group has above the narrowest: so much more than its own bytes may be read of the last group.
fn slack<D: CodingDescriptor>() -> usize
    ensures { result ≡ slack D.table }
{
    (D::tag_len()[3] - D::tag_len()[0]) * 4
}

// All eights of tags but the last ones, where the bytes of them all plus slack are there: each of these eights is taken then, and need not
// be tried. Otherwise none.
fn front_end<D: SideBySide>(tags: &[u8], data: &[u8]) -> End
    requires { length tags.now ≤ group_limit }
    ensures measured { Measured D.table tags.now 0 result.groups result.read × (result.groups % 8 ≡ 0) }
    ensures slack_there { 0 < result.groups → result.read + slack D.table ≤ length «data».now }
{
    let eights = tags.len().saturating_sub(64) / 8;
    let read = data_len_fours::<D>(tags, 0, 2 * eights) as usize;
    if read + slack::<D>() > data.len() {
        return End { groups: 0, read: 0 };
    }
    End {
        groups: 8 * eights,
        read,
    }
}

// Eight tags at once while their bytes plus slack are there.
fn eights_end<D: SideBySide>(tags: &[u8], data: &[u8]) -> End
    requires { length tags.now ≤ group_limit }
    ensures { EndsAt D.table tags.now «data».now (eights D.table tags.now (length «data».now)) result.groups result.read }
{
    let front = front_end::<D>(tags, data);
    let mut read = front.read;
    let eights = tags.len() / 8;
    // By place, since the place where it stops is the answer.
    for k in front.groups / 8..eights {
        let len8 = data_len8::<D>(tags, 8 * k);
        if read + len8 + slack::<D>() > data.len() {
            return End {
                groups: 8 * k,
                read,
            };
        }
        read += len8;
    }
    End {
        groups: 8 * eights,
        read,
    }
}

// Single tags, from where the first stage ended, while the bytes of the widest group remain.
fn singles_end<D: CodingDescriptor>(tags: &[u8], data: &[u8], from: End) -> End
    requires { EndsAt D.table tags.now «data».now from.groups from.groups from.read }
    ensures { EndsAt D.table tags.now «data».now (from.groups + singles D.table (drop from.groups tags.now) (length «data».now - from.read)) result.groups result.read }
{
    let mut read = from.read;
    // By place, since the place where it stops is the answer.
    for i in from.groups..tags.len() {
        if read + D::Elem::SIZE * 4 > data.len() {
            return End { groups: i, read };
        }
        read += data_len::<D>(tags[i]);
    }
    End {
        groups: tags.len(),
        read,
    }
}

// The ends put together.
pub fn stage_ends<D: SideBySide>(tags: &[u8], data: &[u8]) -> StageEnds
    requires { length tags.now ≤ group_limit }
    ensures { Ends D.table tags.now «data».now result.eights result.eights_read result.groups result.read result.taken result.copied }
{
    let first = eights_end::<D>(tags, data);
    let second = singles_end::<D>(tags, data, first);
    let groups = second.groups;
    // No tags left, nothing copied.
    let copied = if groups < tags.len() {
        data.len() - second.read
    } else {
        0
    };
    StageEnds {
        eights: first.groups,
        eights_read: first.read,
        groups,
        read: second.read,
        taken: data_len_from::<D>(tags, groups),
        copied,
    }
}
