// Runs over the groups from `from` up to `to`, eight at once and one by one. The bytes of a run start at `at`, and each of its groups has
// a whole widest group's bytes before the end of the data. What is made of the groups is a sink's, as in the Rust.
#![tactic(auto)]

mod deltas;
mod skipped;
mod values;

ghost use Rattle.std.specs.Prelude.{◌≡◌, List, ℕ, map, ◌+◌, ◌*◌, ◌%◌, ◌≤◌, length, drop};
ghost use Rattle.std.proofs.lemmas.List.Edits.{sets};
ghost use Rattle.packed.specs.Format.{total, widths, numbers};
ghost use Rattle.packed.specs.Column.{Windows};
ghost use Rattle.packed.specs.Sinks.{Sinks, Made};

pub use deltas::Deltas;
use elem::Elem;
use fast_decode::FastDecode;
pub use skipped::Skipped;
pub use values::Values;

// What a run makes of its groups, as the Rust's `DecodeSink`. It carries an element from one group to the next. The values are passed beside
// it, so that the sink itself is a name alone, and nothing is left of it when it runs.
pub trait Sink<D: FastDecode> {
    // Whether so many values have room for so many groups.
    ghost Fits: { ℕ → ℕ → Type 0 };

    // What became of numbers: of them, the values before, where they belong among these, what was carried, the values after, and what is
    // carried then.
    ghost Took: { List ℕ → List ℕ → ℕ → ℕ → List ℕ → ℕ → Type 0 };

    // Takes the i-th group, with tag, from data, from at on. Returns the number of bytes read and what is carried on.
    fn handle1(
        data: &[u8],
        at: usize,
        tag: u8,
        carried: D::Elem,
        values: &mut [D::Elem],
        i: usize,
    ) -> (usize, D::Elem)
        requires window { at + 4 * D.Elem.SIZE ≤ length «data».now }
        requires room { Fits (length values.old) (i + 1) }
        ensures read { result.0 ≡ total (widths D.table tag) }
        ensures took { Took (numbers (widths D.table tag) (drop at «data».now)) (map D.Elem.number values.old) (4 * i) (D.Elem.number carried) (map D.Elem.number values.new) (D.Elem.number result.1) };

    // The same by tables, for one of eight groups. Two functions, as in the Rust. What they take is one call's: a struct of it would be made for
    // each group and taken apart at once.
    fn handle8(
        data: &[u8],
        at: usize,
        tag: u8,
        carried: D::Elem,
        values: &mut [D::Elem],
        i: usize,
    ) -> (usize, D::Elem)
        requires window { at + 4 * D.Elem.SIZE ≤ length «data».now }
        requires room { Fits (length values.old) (i + 1) }
        ensures read { result.0 ≡ total (widths D.table tag) }
        ensures took { Took (numbers (widths D.table tag) (drop at «data».now)) (map D.Elem.number values.old) (4 * i) (D.Elem.number carried) (map D.Elem.number values.new) (D.Elem.number result.1) };

    ghost laws: { Sinks D.Elem.modulus Fits Took };
}

// Stores a group of 4 elements from at on, one by one: `copy_from_slice` would leave a comparison of addresses in each round of the hot loops,
// which took a third more time.
fn store_group<E: Elem>(values: &mut [E], at: usize, group: [E; 4])
    requires { at + 4 ≤ length values.old }
    ensures { map E.number values.new ≡ sets (map E.number values.old) at (map E.number group) }
{
    values[at] = group[0];
    values[at + 1] = group[1];
    values[at + 2] = group[2];
    values[at + 3] = group[3];
}

// Takes 8 groups, from the i-th on. Returns where they end in the data and what is carried on.
fn eight<D: FastDecode, S: Sink<D>>(
    tags: &[u8],
    i: usize,
    data: &[u8],
    at: usize,
    start: D::Elem,
    values: &mut [D::Elem],
) -> (usize, D::Elem)
    requires windows { Windows D.table tags.now «data».now i (i + 8) at }
    requires room { S.Fits (length values.old) (i + 8) }
    ensures { Made D.table S.Took tags.now «data».now (map D.Elem.number values.old) i (i + 8) at (D.Elem.number start) result.0 (map D.Elem.number values.new) (D.Elem.number result.1) }
{
    let mut read = at;
    let mut carried = start;
    // By place, as in `singles`.
    for k in 0..8 {
        let (len, next) = S::handle8(data, read, tags[i + k], carried, values, i + k);
        read += len;
        carried = next;
    }
    (read, carried)
}

// Eight tags at once.
pub fn eights<D: FastDecode, S: Sink<D>>(
    tags: &[u8],
    to: usize,
    data: &[u8],
    start: D::Elem,
    values: &mut [D::Elem],
) -> (usize, D::Elem)
    requires windows { Windows D.table tags.now «data».now 0 to 0 × (to % 8 ≡ 0) }
    requires room { S.Fits (length values.old) to }
    ensures { Made D.table S.Took tags.now «data».now (map D.Elem.number values.old) 0 to 0 (D.Elem.number start) result.0 (map D.Elem.number values.new) (D.Elem.number result.1) }
{
    let mut read = 0usize;
    let mut carried = start;
    // By place, as in `singles`.
    for i in (0..to).step_by(8) {
        (read, carried) = eight::<D, S>(tags, i, data, read, carried, values);
    }
    (read, carried)
}

// Single tags. An index and no iterator over `tags[from..to]`, since it is the group's place among the values too.
// A struct of the five, with windows as its fact, proves but is no plainer: here alone all five are taken, and each call writes it out.
pub fn singles<D: FastDecode, S: Sink<D>>(
    tags: &[u8],
    from: usize,
    to: usize,
    data: &[u8],
    at: usize,
    start: D::Elem,
    values: &mut [D::Elem],
) -> (usize, D::Elem)
    requires windows { Windows D.table tags.now «data».now from to at }
    requires room { S.Fits (length values.old) to }
    ensures { Made D.table S.Took tags.now «data».now (map D.Elem.number values.old) from to at (D.Elem.number start) result.0 (map D.Elem.number values.new) (D.Elem.number result.1) }
{
    let mut read = at;
    let mut carried = start;
    for i in from..to {
        let (len, next) = S::handle1(data, read, tags[i], carried, values, i);
        read += len;
        carried = next;
    }
    (read, carried)
}
