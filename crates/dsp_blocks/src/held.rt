ghost use Rattle.std.specs.Prelude.{length};
ghost use Rattle.dsp_unit.specs.Unit.{UnitState};

use crate::{Drive, Look};
use dsp_filter::{EachChannel, Filter};
use dsp_sat::Sample;

/// What holds a unit. That the type of the unit is one of units is proved here, once for all its
/// parameters, so that a caller proves little.
pub trait Held {
    ghost state: { Self → UnitState };

    /// Changes the unit.
    fn drive<D: Drive>(
        &mut self,
        given: &[D::Given],
        out: &mut [i32],
        counter: &mut D::Counter,
    ) -> usize
        requires { D.Asks (state self.old) given.now (length out.old) }
        ensures { D.Does (state self.old) (state self.new) given.now (length out.old) out.new
            result counter.old counter.new };

    /// Reads the unit.
    fn look<K: Look>(&self, look: &K, out: &mut [i64]) -> K::Answer
        requires { K.Asks look.now (state self.now) (length out.old) }
        ensures { K.Tells look.now (state self.now) out.new result };
}

impl<T: Sample, F: Filter<T> + Drop> Held for EachChannel<T, F> {
    ghost state = { λ u. u };

    fn drive<D: Drive>(
        &mut self,
        given: &[D::Given],
        out: &mut [i32],
        counter: &mut D::Counter,
    ) -> usize {
        D::drive(self, given, out, counter)
    }

    fn look<K: Look>(&self, look: &K, out: &mut [i64]) -> K::Answer {
        look.look(self, out)
    }
}
