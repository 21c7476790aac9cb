// Groups through a coder. Each line says what must come, and ok, or WRONG and what came.
use crate::lines::{Got, Numbers, Packed, Skip, Stored, end, laid};
use coding_descriptor::{CodingDescriptor, data_len};
use elem::Elem;
use std::array;

// A coder that is shown under its name.
pub trait Shown: CodingDescriptor {
    const NAME: &'static str;
}

fn wide<E: Elem>(group: [E; 4]) -> [u64; 4] {
    array::from_fn(|i| group[i].as_u64())
}

// A base of which only the last element counts.
fn based<E: Elem + From<u8>>(base: E) -> [E; 4] {
    [E::from(9), E::from(9), E::from(9), base]
}

// The buffers are fixed, since nothing here allocates.
fn encode<D: Shown>(group: [D::Elem; 4]) -> Stored {
    let mut output = [0xAA; 40];
    let came = raw_group::encode::<D>(&mut output, 2, group);
    Stored {
        tag: came.tag,
        written: came.written,
        output,
    }
}

fn encode_deltas<D: Shown>(base: D::Elem, group: [D::Elem; 4]) -> Stored
where
    D::Elem: From<u8>,
{
    let mut output = [0xAA; 40];
    let came = raw_group::encode_deltas::<D>(&mut output, 2, based(base), group);
    Stored {
        tag: came.tag,
        written: came.written,
        output,
    }
}

// Reads with other bytes behind the data, which do not count. A tag and its data are lent apart, as the calls take them.
fn decode<D: Shown>(tag: u8, data: &[u8], behind: u8) -> Got {
    let (read, group) = raw_group::decode::<D>(&laid(data, behind), 2, tag);
    Got {
        read,
        group: wide(group),
    }
}

fn decode_deltas<D: Shown>(base: D::Elem, tag: u8, data: &[u8], behind: u8) -> Got
where
    D::Elem: From<u8>,
{
    let input = laid(data, behind);
    let (read, group) = raw_group::decode_deltas::<D>(&input, 2, tag, based(base));
    Got {
        read,
        group: wide(group),
    }
}

fn skip_deltas<D: Shown>(tag: u8, data: &[u8], behind: u8) -> Skip {
    let (read, sum) = raw_group::skip_deltas::<D>(&laid(data, behind), 2, tag);
    Skip {
        read,
        sum: sum.as_u64(),
    }
}

// The rest of a line: a group, and what it must be stored as.
fn show_stored(rt: &impl Print, group: [u64; 4], tag: u8, data: &[u8], came: Stored) {
    let must = Stored {
        tag,
        written: data.len(),
        output: laid(data, 0xAA),
    };
    let packed = Packed { tag, data };
    let _ = print!(rt; "{} ->{packed}, {} bytes", Numbers(&group), data.len());
    end(rt, came == must, came);
}

// The rest of a line: a tag with its data, and the group that must be read, with 00 and with FF bytes behind the data.
fn show_read(rt: &impl Print, tag: u8, data: &[u8], group: [u64; 4], zeros: Got, ones: Got) {
    let must = Got {
        read: data.len(),
        group,
    };
    let _ = print!(rt; "{} ->{must}", Packed { tag, data });
    end(
        rt,
        zeros == must && ones == must,
        format_args!("{zeros}{ones}"),
    );
}

// A tag with its data, and the group that must be read.
pub fn reads<D: Shown>(rt: &impl Print, tag: u8, data: &[u8], group: [D::Elem; 4]) {
    let zeros = decode::<D>(tag, data, 0);
    let ones = decode::<D>(tag, data, 255);
    let _ = print!(rt; "{}:", D::NAME);
    show_read(rt, tag, data, wide(group), zeros, ones);
}

// A group through encode, and back.
pub fn both<D: Shown>(rt: &impl Print, group: [D::Elem; 4], tag: u8, data: &[u8]) {
    let _ = print!(rt; "{}:", D::NAME);
    show_stored(rt, wide(group), tag, data, encode::<D>(group));
    reads::<D>(rt, tag, data, group);
}

// A group through encode_deltas, and back.
fn both_deltas<D: Shown>(rt: &impl Print, base: D::Elem, group: [D::Elem; 4], tag: u8, data: &[u8])
where
    D::Elem: From<u8>,
{
    let start = base.as_u64();
    let _ = print!(rt; "{} deltas from {start}:", D::NAME);
    let came = encode_deltas::<D>(base, group);
    show_stored(rt, wide(group), tag, data, came);
    let _ = print!(rt; "{} deltas from {start}:", D::NAME);
    let zeros = decode_deltas::<D>(base, tag, data, 0);
    let ones = decode_deltas::<D>(base, tag, data, 255);
    show_read(rt, tag, data, wide(group), zeros, ones);
}

// A tag with its data, and the sum that a skip must give.
fn skips<D: Shown>(rt: &impl Print, tag: u8, data: &[u8], sum: D::Elem) {
    let must = Skip {
        read: data.len(),
        sum: sum.as_u64(),
    };
    let came = skip_deltas::<D>(tag, data, 255);
    let _ = print!(rt; "{}: skip{} ->{must}", D::NAME, Packed { tag, data });
    end(rt, came == must, came);
}

// A group through the calls on deltas.
pub fn deltas<D: Shown>(
    rt: &impl Print,
    base: D::Elem,
    group: [D::Elem; 4],
    tag: u8,
    data: &[u8],
    sum: D::Elem,
)
where
    D::Elem: From<u8>,
{
    both_deltas::<D>(rt, base, group, tag, data);
    skips::<D>(rt, tag, data, sum);
}

// A tag, and the length that its data must have.
pub fn length<D: Shown>(rt: &impl Print, tag: u8, len: usize) {
    let came = data_len::<D>(tag);
    let _ = print!(rt; "{}: length of tag {tag:02X}, {len} bytes", D::NAME);
    end(rt, came == len, format_args!(", {came} bytes"));
}
