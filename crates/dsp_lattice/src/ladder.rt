ghost use Rattle.std.specs.Prelude.{◌≡◌, ◌≤◌, ◌+◌, ◌*◌, length, map, drop, All, FitsSigned};
ghost use Rattle.dsp_defs.specs.Counts.{Rises};
ghost use Rattle.dsp_defs.specs.Formats.{word};
ghost use Rattle.dsp_defs.specs.Lattice.{backward_values, ladder_close, ladder_sum};

use crate::LatticeSample;
use dsp_defs::Steps;
use dsp_sat::{Sample, product};
use std::sync::ledger::Ledger;

/// The output for the next sample. The coefficients are in order from the last section to the first, as
/// are the values g of the sections, with that of the first section's input after them. Groups of
/// sections go in lanes, and the sections that are left one after another.
#[inline(always)]
pub(crate) fn ladder_step<T: LatticeSample, L: Ledger>(
    reflections: &[T],
    ladder: &[T],
    backward: &mut [T],
    x: T,
    steps: &mut Steps<L>,
) -> T
    requires few { length reflections.now ≤ 255 }
    requires ladder { length ladder.now ≡ length reflections.now + 1 }
    requires backward { length backward.old ≡ length reflections.now + 1 }
    requires in_format { All (FitsSigned (word T.format)) (map T.number ladder.now) }
    ensures backward { map T.number backward.new ≡ backward_values T.format (T.number x)
        (map T.number reflections.now) (drop 1 (map T.number backward.old)) }
    ensures value { T.number result ≡ ladder_close T.format
        (ladder_sum (map T.number ladder.now) (map T.number backward.new)) }
    ensures steps { Rises steps.old steps.new (3 * length reflections.now + 1)
        (3 * length reflections.now + 1) }
{
    // The proof has from this that the sample is a number of the format.
    let _number = x.number();
    let last = reflections.len();
    let groups = T::ladder_groups(reflections, ladder, backward, x, steps);
    let mut f = groups.f;
    let mut sum = groups.sum;
    for m in groups.at..last {
        let k = reflections[m];
        let before = backward[m + 1];
        let down = product(k, before, steps);
        f = T::lowered(f, down);
        let up = product(k, f, steps);
        let g = T::raised(up, before);
        backward[m] = g;
        let term = product(ladder[m], g, steps);
        sum = T::accumulate(sum, term);
    }
    backward[last] = f;
    let term = product(ladder[last], f, steps);
    T::close(T::accumulate(sum, term))
}
