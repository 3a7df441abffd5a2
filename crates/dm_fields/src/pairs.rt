//! One field behind another, a field that is lent, and no field at all: the lists of fields.

use crate::field::{Field, Spelled};
use crate::input::{Input, ReadError};
use std::alloc::Global;

impl<T: Spelled> Spelled for &T {
    ghost spelling = { λ r. T.spelling r.now };

    ghost fits = { λ r. T.fits r.now };

    fn spelled_len(&self) -> usize {
        (*self).spelled_len()
    }

    fn put(&self, out: &mut [u8], at: usize) -> usize {
        (*self).put(out, at)
    }
}

impl<A: Spelled, B: Spelled> Spelled for (A, B) {
    ghost use Rattle.std.specs.Prelude.{◌++◌};

    ghost spelling = { λ p. A.spelling p.0 ++ B.spelling p.1 };

    ghost fits = { λ p. A.fits p.0 × B.fits p.1 };

    fn spelled_len(&self) -> usize {
        self.0.spelled_len() + self.1.spelled_len()
    }

    fn put(&self, out: &mut [u8], at: usize) -> usize {
        let middle = self.0.put(out, at);
        self.1.put(out, middle)
    }
}

impl<A: Field, B: Field> Field for (A, B) {
    ghost use Rattle.dm_fields.specs.Once.{pair_once};

    ghost once = { pair_once A.spelling A.fits B.spelling B.fits A.once B.once };

    fn read(alloc: Global, input: &mut Input<'_>) -> Result<(A, B), ReadError> {
        let first = A::read(alloc, input)?;
        let second = B::read(alloc, input)?;
        Ok((first, second))
    }
}

// Nothing, which is what a record without fields has.
impl Spelled for () {
    ghost use Rattle.std.specs.Prelude.{[], ⊤};

    ghost spelling = { λ _. [] };

    ghost fits = { λ _. ⊤ };

    fn spelled_len(&self) -> usize {
        0
    }

    fn put(&self, _out: &mut [u8], at: usize) -> usize {
        at
    }
}

impl Field for () {
    ghost use Rattle.std.specs.Prelude.{refl};

    ghost once = { λ x y r s p q e. (refl, e) };

    fn read(_alloc: Global, _input: &mut Input<'_>) -> Result<(), ReadError> {
        Ok(())
    }
}
