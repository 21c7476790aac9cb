// The mask tables of `tag_utils.rs`, and tags by fours. The tables of the three coders are statics, in each one's module of
// `coding_descriptor`: a constant's value may call a few built-in functions and no others.
#![tactic(auto)]

ghost use Rattle.std.specs.Prelude.{◌≡◌, ℕ, ◌+◌, ◌^◌, ◌-◌, ◌≤◌, length, take, drop, get_or};
ghost use Rattle.packed.specs.Format.{le_value};
ghost use Rattle.tag_utils.specs.Tables.{masks};

// The mask of a width: all ones in its bytes.
fn tag_mask32(len: usize) -> u32
    requires { len ≤ 4 }
    ensures { result ≡ 256 ^ len - 1 }
{
    if len == 4 {
        u32::MAX
    } else {
        (1u32 << (len * 8)) - 1
    }
}

// A table that maps each value tag to a mask that covers values of that width.
// tag_len is the byte length for each 2-bit tag value.
pub fn tag_mask_table32(tag_len: [usize; 4]) -> [u32; 4]
    requires { (f : ℕ) → get_or tag_len f 0 ≤ 4 }
    ensures { result ≡ masks tag_len }
{
    [
        tag_mask32(tag_len[0]),
        tag_mask32(tag_len[1]),
        tag_mask32(tag_len[2]),
        tag_mask32(tag_len[3]),
    ]
}

// The mask of a width: all ones in its bytes.
fn tag_mask64(len: usize) -> u64
    requires { len ≤ 8 }
    ensures { result ≡ 256 ^ len - 1 }
{
    if len == 8 {
        u64::MAX
    } else {
        (1u64 << (len * 8)) - 1
    }
}

// A table that maps each value tag to a mask that covers values of that width.
// tag_len is the byte length for each 2-bit tag value.
pub fn tag_mask_table64(tag_len: [usize; 4]) -> [u64; 4]
    requires { (f : ℕ) → get_or tag_len f 0 ≤ 8 }
    ensures { result ≡ masks tag_len }
{
    [
        tag_mask64(tag_len[0]),
        tag_mask64(tag_len[1]),
        tag_mask64(tag_len[2]),
        tag_mask64(tag_len[3]),
    ]
}

// Four tags put together, the first in the low byte: one load.
pub fn tags4(tags: &[u8], i: usize) -> u32
    requires { i + 4 ≤ length tags.now }
    ensures { result ≡ le_value (take 4 (drop i tags.now)) }
{
    u32::from_le_bytes([tags[i], tags[i + 1], tags[i + 2], tags[i + 3]])
}
