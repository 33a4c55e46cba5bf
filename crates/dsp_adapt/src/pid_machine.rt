use crate::PidSample;
use dsp_defs::Steps;
use dsp_filter::Machine;
use dsp_sat::{Sample, product};
use std::sync::ledger::Ledger;

/// The steps of a controller: its gains A0, A1 and A2, the last two samples, and the last output.
#[derive(Clone, Copy)]
pub(crate) struct PidMachine<T> {
    pub(crate) a0: T,
    pub(crate) a1: T,
    pub(crate) a2: T,
    pub(crate) x1: T,
    pub(crate) x2: T,
    pub(crate) y1: T,
}

impl<T: PidSample> Machine<T> for PidMachine<T> {
    ghost use Rattle.std.specs.Prelude.{◌∷◌, [], refl};
    ghost use Rattle.dsp_adapt.specs.PidState.{pid_acts};

    ghost acts = { λ m.
        pid_acts T.format (record { a0 = T.number m.a0; a1 = T.number m.a1; a2 = T.number m.a2 }) };

    ghost kept = { λ m. T.number m.x1 ∷ T.number m.x2 ∷ T.number m.y1 ∷ [] };

    ghost price = { 3 };

    ghost size = { λ m x. refl };

    #[inline(always)]
    fn step<L: Ledger>(&mut self, x: T, steps: &mut Steps<L>) -> T {
        let newest = product(self.a0, x, steps);
        let second = product(self.a1, self.x1, steps);
        let third = product(self.a2, self.x2, steps);
        let y = T::controlled(newest, second, third, self.y1);
        self.x2 = self.x1;
        self.x1 = x;
        self.y1 = y;
        y
    }
}
