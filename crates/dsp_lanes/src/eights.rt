ghost use Rattle.std.specs.Prelude.{◌≡◌, ◌+◌, ◌*◌, ◌≤◌, ◌*ℤ◌, length, map};
ghost use Rattle.std.specs.Simd.Lanes.{put_chunk};
ghost use Rattle.dsp_defs.specs.Formats.{close};
ghost use Rattle.dsp_defs.specs.Signal.{sample, sum_below, values};
ghost use Rattle.dsp_lanes.specs.Turns.{RisesWithin};

use crate::doubled::Doubled;
use crate::kernels::LaneKernels;
use crate::plain::Plain;
use crate::row_form::RowForm;
use crate::rows::row_group;
use dsp_defs::Steps;
use std::sync::ledger::Ledger;

/// Writes the L outputs from `at` on, by a form of eight outputs where L is 8 or 16.
#[inline(always)]
pub(crate) fn group_of_eights<T: LaneKernels<L>, F: RowForm<T>, const L: usize, M: Ledger>(
    taps: &[T],
    window: &[T],
    out: &mut [T],
    at: usize,
    steps: &mut Steps<M>,
)
    requires eight { F.size ≡ 8 }
    requires takes { F.Takes taps.now }
    requires few { L ≤ 64 }
    requires room { at + L ≤ length out.old }
    requires window { at + L + length taps.now ≤ length window.now + 1 }
    ensures out { map T.number out.new ≡ put_chunk at (map T.number out.old)
        (values L (λ i.
        close T.format (sum_below (length taps.now) (λ j.
        sample (map T.number taps.now) j *ℤ sample (map T.number window.now) (at + i + j))))) }
    ensures steps { RisesWithin steps.old steps.new (length taps.now * L) (length taps.now) }
{
    if L == 8 {
        row_group::<T, F, M>(taps, window, out, at, steps)
    } else if L == 16 {
        row_group::<T, Doubled<F>, M>(taps, window, out, at, steps)
    } else {
        row_group::<T, Plain<L>, M>(taps, window, out, at, steps)
    }
}

/// Writes the 2L outputs from `at` on, by a form of eight outputs where L is 4, 8 or 16.
#[inline(always)]
pub(crate) fn double_group_of_eights<T: LaneKernels<L>, F: RowForm<T>, const L: usize, M: Ledger>(
    taps: &[T],
    window: &[T],
    out: &mut [T],
    at: usize,
    steps: &mut Steps<M>,
)
    requires eight { F.size ≡ 8 }
    requires takes { F.Takes taps.now }
    requires few { L ≤ 64 }
    requires room { at + 2 * L ≤ length out.old }
    requires window { at + 2 * L + length taps.now ≤ length window.now + 1 }
    ensures out { map T.number out.new ≡ put_chunk at (map T.number out.old)
        (values (2 * L) (λ i.
        close T.format (sum_below (length taps.now) (λ j.
        sample (map T.number taps.now) j *ℤ sample (map T.number window.now) (at + i + j))))) }
    ensures steps { RisesWithin steps.old steps.new (length taps.now * (2 * L)) (length taps.now) }
{
    if L == 4 {
        row_group::<T, F, M>(taps, window, out, at, steps)
    } else if L == 8 {
        row_group::<T, Doubled<F>, M>(taps, window, out, at, steps)
    } else if L == 16 {
        row_group::<T, Doubled<Doubled<F>>, M>(taps, window, out, at, steps)
    } else {
        row_group::<T, Doubled<Plain<L>>, M>(taps, window, out, at, steps)
    }
}
