ghost use Rattle.std.specs.Prelude.{◌≡◌, ◌≤◌, ◌*◌, length, map};
ghost use Rattle.std.specs.List.{zip};
ghost use Rattle.dsp_defs.specs.Counts.{Rises};
ghost use Rattle.dsp_defs.specs.Kept.{lattice_kept};
ghost use Rattle.dsp_defs.specs.Lattice.{lattice_fir};
ghost use Rattle.dsp_defs.specs.Streaming.{GoesOn};
ghost use Rattle.dsp_lattice.specs.LatticeState.{sections_give, filter_kept};

use crate::NarrowSample;
use dsp_defs::Steps;
use dsp_sat::Sample;
use std::sync::ledger::Ledger;

/// Writes over the values f and g of each sample those that the sections give for them, one section
/// after another.
fn run_sections<T: NarrowSample, L: Ledger>(
    coefficients: &[T],
    states: &mut [T],
    forward: &mut [T],
    backward: &mut [T],
    steps: &mut Steps<L>,
)
    requires states { length states.old ≡ length coefficients.now }
    requires same { length backward.old ≡ length forward.old }
    ensures goes { GoesOn (sections_give (map T.number coefficients.now))
        (lattice_kept (map T.number coefficients.now)) (map T.number states.old)
        (map T.number states.new) (zip (map T.number forward.old) (map T.number backward.old))
        (zip (map T.number forward.new) (map T.number backward.new)) }
    ensures steps { Rises steps.old steps.new (length coefficients.now * (length forward.old * 2))
        (length coefficients.now * (length forward.old * 2)) }
{
    for m in 0..coefficients.len() {
        states[m] = T::run_section(coefficients[m], states[m], forward, backward, steps);
    }
}

/// Writes over each sample what the lattice gives for it, section after section over all samples.
pub(crate) fn run_lattice<T: NarrowSample, L: Ledger>(
    coefficients: &[T],
    states: &mut [T],
    backward: &mut [T],
    samples: &mut [T],
    steps: &mut Steps<L>,
)
    requires states { length states.old ≡ length coefficients.now }
    requires room { length samples.old ≤ length backward.old }
    ensures goes { GoesOn (lattice_fir (map T.number coefficients.now))
        (filter_kept (map T.number coefficients.now)) (map T.number states.old)
        (map T.number states.new) (map T.number samples.old) (map T.number samples.new) }
    ensures steps { Rises steps.old steps.new (length coefficients.now * (length samples.old * 2))
        (length coefficients.now * (length samples.old * 2)) }
{
    let count = samples.len();
    let backward = &mut backward[..count];
    backward.copy_from_slice(samples);
    run_sections(coefficients, states, samples, backward, steps);
}
