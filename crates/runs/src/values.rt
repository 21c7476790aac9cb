// The decoded values are stored, and nothing is carried.
ghost use Rattle.std.specs.Prelude.{ℕ, ◌*◌, ◌≤◌};
ghost use Rattle.packed.specs.Sinks.{Stores};
ghost use Rattle.packed.proofs.Sinks.{stores_laws};

use crate::{Sink, store_group};
use fast_decode::FastDecode;

pub struct Values;

impl<D: FastDecode> Sink<D> for Values {
    ghost Fits = { λ (len n : ℕ). 4 * n ≤ len };

    ghost Took = { Stores };

    fn handle1(
        data: &[u8],
        at: usize,
        tag: u8,
        carried: D::Elem,
        values: &mut [D::Elem],
        i: usize,
    ) -> (usize, D::Elem) {
        let (len, group) = raw_group::decode::<D>(data, at, tag);
        store_group(values, 4 * i, group);
        (len, carried)
    }

    fn handle8(
        data: &[u8],
        at: usize,
        tag: u8,
        carried: D::Elem,
        values: &mut [D::Elem],
        i: usize,
    ) -> (usize, D::Elem) {
        let (len, group) = fast_decode::decode::<D>(data, at, tag);
        store_group(values, 4 * i, group);
        (len, carried)
    }

    ghost laws = { stores_laws D.Elem.modulus };
}
