// What is stored of a column's values: the values, or the steps between them.
ghost use Rattle.std.specs.Prelude.{◌≡◌, List, ◌++◌, map, ℕ, ◌≤◌, length, take, drop, get_or, refl};
ghost use Rattle.packed.specs.Format.{steps};
ghost use Rattle.packed.proofs.Encodes.{steps-take};

use elem::Elem;

pub trait EncodeSink<E: Elem>: Copy {
    // The numbers that are stored of values.
    ghost stored: { Self → List ℕ → List ℕ };

    // The group that is stored of the next group of values.
    fn handle(&mut self, group: [E; 4]) -> [E; 4]
        ensures { (rest : List ℕ) → stored self.old (map E.number group ++ rest) ≡ map E.number result ++ stored self.new rest };

    // The sink for the values from a place on.
    fn from(self, values: &[E], at: usize) -> Self
        requires { at ≤ length values.now }
        ensures { stored result (drop at (map E.number values.now)) ≡ drop at (stored self (map E.number values.now)) };

    ghost prefix: { (sink : Self) (n : ℕ) (values : List ℕ) → take n (stored sink values) ≡ stored sink (take n values) };
}

#[derive(Clone, Copy)]
pub struct StandardEncodeSink;

impl<E: Elem> EncodeSink<E> for StandardEncodeSink {
    ghost stored = { λ sink values. values };

    ghost prefix = { λ sink n values. refl };

    fn handle(&mut self, group: [E; 4]) -> [E; 4]
        ensures { (rest : List ℕ) → map E.number group ++ rest ≡ map E.number result ++ rest }
    {
        group
    }

    fn from(self, _values: &[E], _at: usize) -> StandardEncodeSink {
        self
    }
}

// Of deltas: the group of values before, or four times the start. No struct is
// put round it: that one fits in memory (`encode_to_sink-requires-room-S-EncodeSink`) does not follow from what Elem says of an array.
impl<E: Elem> EncodeSink<E> for [E; 4] {
    ghost stored = { λ base values. steps E.modulus (get_or (map E.number base) 3 0) values };

    ghost prefix = { λ base n values. steps-take E.modulus (get_or (map E.number base) 3 0) n values };

    fn handle(&mut self, group: [E; 4]) -> [E; 4]
        ensures { (rest : List ℕ) → steps E.modulus (get_or (map E.number self.old) 3 0) (map E.number group ++ rest) ≡ map E.number result ++ steps E.modulus (get_or (map E.number self.new) 3 0) rest }
    {
        let stored = raw_group::deltas(*self, group);
        *self = group;
        stored
    }

    fn from(self, values: &[E], at: usize) -> [E; 4] {
        if at == 0 { self } else { [values[at - 1]; 4] }
    }
}
