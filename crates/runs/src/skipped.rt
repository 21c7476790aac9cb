// The deltas are added up. Their sum is carried, and nothing is stored, so that no values are room enough.
ghost use Rattle.std.specs.Prelude.{ℕ, ◌≡◌};
ghost use Rattle.packed.specs.Sinks.{Sums};
ghost use Rattle.packed.proofs.Sinks.{sums_laws};

use crate::Sink;
use elem::Elem;
use fast_decode::FastDecode;

pub struct Skipped;

impl<D: FastDecode> Sink<D> for Skipped {
    ghost Fits = { λ (len n : ℕ). len ≡ len };

    ghost Took = { Sums D.Elem.modulus };

    fn handle1(
        data: &[u8],
        at: usize,
        tag: u8,
        carried: D::Elem,
        _values: &mut [D::Elem],
        _i: usize,
    ) -> (usize, D::Elem) {
        let (len, sum) = raw_group::skip_deltas::<D>(data, at, tag);
        (len, carried.wrapping_add(sum))
    }

    fn handle8(
        data: &[u8],
        at: usize,
        tag: u8,
        carried: D::Elem,
        _values: &mut [D::Elem],
        _i: usize,
    ) -> (usize, D::Elem) {
        let (len, sum) = fast_decode::skip_deltas::<D>(data, at, tag);
        (len, carried.wrapping_add(sum))
    }

    ghost laws = { sums_laws D.Elem.modulus };
}
