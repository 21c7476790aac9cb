// The deltas are added back and stored. The last value is carried.
ghost use Rattle.std.specs.Prelude.{ℕ, ◌*◌, ◌≤◌};
ghost use Rattle.packed.specs.Sinks.{Walks};
ghost use Rattle.packed.proofs.Sinks.{walks_laws};

use crate::{Sink, store_group};
use fast_decode::FastDecode;

pub struct Deltas;

impl<D: FastDecode> Sink<D> for Deltas {
    ghost Fits = { λ (len n : ℕ). 4 * n ≤ len };

    ghost Took = { Walks D.Elem.modulus };

    fn handle1(
        data: &[u8],
        at: usize,
        tag: u8,
        carried: D::Elem,
        values: &mut [D::Elem],
        i: usize,
    ) -> (usize, D::Elem) {
        let (len, group) = raw_group::decode_deltas::<D>(data, at, tag, [carried; 4]);
        store_group(values, 4 * i, group);
        (len, group[3])
    }

    fn handle8(
        data: &[u8],
        at: usize,
        tag: u8,
        carried: D::Elem,
        values: &mut [D::Elem],
        i: usize,
    ) -> (usize, D::Elem) {
        let (len, group) = fast_decode::decode_deltas::<D>(data, at, tag, [carried; 4]);
        store_group(values, 4 * i, group);
        (len, group[3])
    }

    ghost laws = { walks_laws D.Elem.modulus };
}
