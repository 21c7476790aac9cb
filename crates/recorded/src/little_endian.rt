// Numbers that stand low byte first. What is read past an end is 0. `from_le_bytes` is a method of each type, so each width has a line.
use std::array;

fn bytes_at<const N: usize>(s: &[u8], at: usize) -> [u8; N] {
    let rest = s.get(at..).unwrap_or(&[]);
    array::from_fn(|i| rest.get(i).copied().unwrap_or(0))
}

pub fn le16(s: &[u8], at: usize) -> u16 {
    u16::from_le_bytes(bytes_at(s, at))
}

pub fn le32(s: &[u8], at: usize) -> u32 {
    u32::from_le_bytes(bytes_at(s, at))
}

pub fn le64(s: &[u8], at: usize) -> u64 {
    u64::from_le_bytes(bytes_at(s, at))
}
