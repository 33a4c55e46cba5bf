ghost use Rattle.std.specs.Prelude.{◌≡◌, ◌+◌, ◌*◌, ◌∷◌, ◌++◌, [], ℕ, ℤ, List, length, map};
ghost use Rattle.dsp_defs.specs.Counts.{Rises};
ghost use Rattle.dsp_defs.specs.Streaming.{Behaviour, GoesOn};

use dsp_defs::Steps;
use dsp_sat::Sample;
use std::sync::ledger::Ledger;

/// What gives a value for a sample, and keeps a few numbers in between.
pub trait Machine<T: Sample> {
    ghost acts: { Self → Behaviour };

    ghost kept: { Self → List ℤ };

    // The products of a step.
    ghost price: { ℕ };

    /// The value for the next sample.
    fn step<L: Ledger>(&mut self, x: T, steps: &mut Steps<L>) -> T
        ensures acts { acts self.new ≡ acts self.old }
        ensures goes { GoesOn (acts self.old).gives (acts self.old).keeps (kept self.old)
            (kept self.new) (T.number x ∷ []) (T.number result ∷ []) }
        ensures steps { Rises steps.old steps.new price price };

    ghost size: { (m : Self) (x : List ℤ) → length (kept m) ≡ length ((acts m).keeps x) };
}

/// Writes over each sample the value that the machine gives for it.
#[inline(always)]
pub fn run_machine<T: Sample, M: Machine<T>, L: Ledger>(
    machine: &mut M,
    samples: &mut [T],
    steps: &mut Steps<L>,
)
    ensures acts { M.acts machine.new ≡ M.acts machine.old }
    ensures goes { GoesOn (M.acts machine.old).gives (M.acts machine.old).keeps (M.kept machine.old)
        (M.kept machine.new) (map T.number samples.old) (map T.number samples.new) }
    ensures steps { Rises steps.old steps.new (length samples.old * M.price)
        (length samples.old * M.price) }
{
    for sample in samples.iter_mut() {
        *sample = machine.step(*sample, steps);
    }
}
