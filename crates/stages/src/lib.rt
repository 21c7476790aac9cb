// The three stages: eight tags at once, single tags, and the rest from a zeroed scratch.
#![tactic(auto)]

ghost use Rattle.std.specs.Prelude.{◌≡◌, map, ◌-◌, ◌*◌, ◌≤◌, length, drop, replicate};
ghost use Rattle.std.proofs.lemmas.List.Edits.{sets};
ghost use Rattle.packed.specs.Column.{Ends, Tail, Runs, RunsDeltas, RunsSum};
ghost use Rattle.packed.specs.Sinks.{Made};

use elem::Elem;
use fast_decode::FastDecode;
use runs::{Deltas, Sink, Skipped, Values};
use stage_ends::StageEnds;

// What is left of the data, from read on, and zeros behind it: of fixed size, since nothing here allocates.
fn scratch(data: &[u8], read: usize) -> [u8; 64]
    requires { (read ≤ length «data».now) × (length «data».now - read ≤ 64) }
    ensures { result ≡ sets (replicate 64 0) 0 (drop read «data».now) }
{
    let mut buf = [0u8; 64];
    buf[..data.len() - read].copy_from_slice(&data[read..]);
    buf
}

// The rest of the tags, from a scratch, so that a whole widest group can be read for each of them.
fn run_tail<D: FastDecode, S: Sink<D>>(
    tags: &[u8],
    groups: usize,
    data: &[u8],
    read: usize,
    carried: D::Elem,
    values: &mut [D::Elem],
) -> (usize, D::Elem)
    requires tail { Tail D.table tags.now «data».now groups read }
    requires room { S.Fits (length values.old) (length tags.now) }
    ensures { Made D.table S.Took tags.now «data».now (map D.Elem.number values.old) groups (length tags.now) read (D.Elem.number carried) result.0 (map D.Elem.number values.new) (D.Elem.number result.1) }
{
    let buf = scratch(data, read);
    let (rest, last) = runs::singles::<D, S>(tags, groups, tags.len(), &buf, 0, carried, values);
    (read + rest, last)
}

// The three stages of a sink. Returns where they end in the data and what is carried then. That ends are of these tags and data is asked here and
// by each call below: a type that said it would have to hold all three, and to be taken apart here again.
fn run_stages<D: FastDecode, S: Sink<D>>(
    tags: &[u8],
    data: &[u8],
    start: D::Elem,
    values: &mut [D::Elem],
    ends: StageEnds,
) -> (usize, D::Elem)
    requires ends { Ends D.table tags.now «data».now ends.eights ends.eights_read ends.groups ends.read ends.taken ends.copied × (ends.taken ≤ ends.copied) }
    requires room { S.Fits (length values.old) (length tags.now) }
    ensures { Made D.table S.Took tags.now «data».now (map D.Elem.number values.old) 0 (length tags.now) 0 (D.Elem.number start) result.0 (map D.Elem.number values.new) (D.Elem.number result.1) }
{
    let (first, carried) = runs::eights::<D, S>(tags, ends.eights, data, start, values);
    let (second, last) = runs::singles::<D, S>(
        tags,
        ends.eights,
        ends.groups,
        data,
        first,
        carried,
        values,
    );
    if ends.groups < tags.len() {
        return run_tail::<D, S>(tags, ends.groups, data, second, last, values);
    }
    (second, last)
}

pub fn decode_stages<D: FastDecode>(
    tags: &[u8],
    data: &[u8],
    values: &mut [D::Elem],
    ends: StageEnds,
) -> usize
    requires ends { Ends D.table tags.now «data».now ends.eights ends.eights_read ends.groups ends.read ends.taken ends.copied × (ends.taken ≤ ends.copied) }
    requires tags_in_bounds { 4 * length tags.now ≤ length values.old }
    ensures { Runs D.table tags.now «data».now (map D.Elem.number values.old) 0 (length tags.now) 0 result (map D.Elem.number values.new) }
{
    let (read, _) = run_stages::<D, Values>(tags, data, D::Elem::zero(), values, ends);
    read
}

// Returns the last value too.
pub fn decode_deltas_stages<D: FastDecode>(
    initial: D::Elem,
    tags: &[u8],
    data: &[u8],
    values: &mut [D::Elem],
    ends: StageEnds,
) -> (usize, D::Elem)
    requires ends { Ends D.table tags.now «data».now ends.eights ends.eights_read ends.groups ends.read ends.taken ends.copied × (ends.taken ≤ ends.copied) }
    requires tags_in_bounds { 4 * length tags.now ≤ length values.old }
    ensures { RunsDeltas D.table tags.now «data».now (map D.Elem.number values.old) D.Elem.modulus 0 (length tags.now) 0 (D.Elem.number initial) result.0 (D.Elem.number result.1) (map D.Elem.number values.new) }
{
    run_stages::<D, Deltas>(tags, data, initial, values, ends)
}

pub fn skip_deltas_stages<D: FastDecode>(
    tags: &[u8],
    data: &[u8],
    ends: StageEnds,
) -> (usize, D::Elem)
    requires { Ends D.table tags.now «data».now ends.eights ends.eights_read ends.groups ends.read ends.taken ends.copied × (ends.taken ≤ ends.copied) }
    ensures { RunsSum D.table tags.now «data».now D.Elem.modulus 0 (length tags.now) 0 0 result.0 (D.Elem.number result.1) }
{
    run_stages::<D, Skipped>(tags, data, D::Elem::zero(), &mut [], ends)
}
