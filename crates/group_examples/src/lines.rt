// The lines that are printed, and the buffers that the coders are lent: fixed arrays, since nothing here allocates.
use std::fmt;

// Numbers, with a space before each.
#[derive(Clone, Copy)]
pub struct Numbers<'a>(pub &'a [u64]);

impl fmt::Display for Numbers<'_> {
    fn fmt<W: fmt::Write>(&self, f: &mut fmt::Formatter<W>) -> fmt::Result {
        for number in self.0 {
            write!(f, " {number}")?;
        }
        Ok(())
    }
}

// A tag and its data, in hex.
#[derive(Clone, Copy)]
pub struct Packed<'a> {
    pub tag: u8,
    pub data: &'a [u8],
}

impl fmt::Display for Packed<'_> {
    fn fmt<W: fmt::Write>(&self, f: &mut fmt::Formatter<W>) -> fmt::Result {
        write!(f, " tag {:02X}, data", self.tag)?;
        for byte in self.data {
            write!(f, " {byte:02X}")?;
        }
        Ok(())
    }
}

// What an encoder made of a group, in a buffer of AA bytes, from index 2 on.
#[derive(Clone, Copy, PartialEq, Eq)]
pub struct Stored {
    pub tag: u8,
    pub written: usize,
    pub output: [u8; 40],
}

impl fmt::Display for Stored {
    fn fmt<W: fmt::Write>(&self, f: &mut fmt::Formatter<W>) -> fmt::Result {
        let packed = Packed {
            tag: self.tag,
            data: &self.output,
        };
        write!(f, "{packed}, {} bytes", self.written)
    }
}

// What a decoder read.
#[derive(Clone, Copy, PartialEq, Eq)]
pub struct Got {
    pub read: usize,
    pub group: [u64; 4],
}

impl fmt::Display for Got {
    fn fmt<W: fmt::Write>(&self, f: &mut fmt::Formatter<W>) -> fmt::Result {
        write!(f, "{}, {} bytes", Numbers(&self.group), self.read)
    }
}

// What a skip gave.
#[derive(Clone, Copy, PartialEq, Eq)]
pub struct Skip {
    pub read: usize,
    pub sum: u64,
}

impl fmt::Display for Skip {
    fn fmt<W: fmt::Write>(&self, f: &mut fmt::Formatter<W>) -> fmt::Result {
        write!(f, " sum {}, {} bytes", self.sum, self.read)
    }
}

// A buffer with data at index 2, and other bytes before and behind it. By `zip`: `copy_from_slice` would ask that the data fit.
pub fn laid(data: &[u8], other: u8) -> [u8; 40] {
    let mut buf = [other; 40];
    for (slot, byte) in buf[2..].iter_mut().zip(data) {
        *slot = *byte;
    }
    buf
}

// The end of a line. What cannot be written is left out.
pub fn end(rt: &impl Print, is_right: bool, came: impl fmt::Display + Drop) {
    if is_right {
        let _ = println!(rt; ": ok");
    } else {
        let _ = println!(rt; ": WRONG, came{came}");
    }
}
