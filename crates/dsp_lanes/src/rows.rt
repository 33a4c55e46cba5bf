ghost use Rattle.std.specs.Prelude.{◌≡◌, ◌+◌, ◌*◌, ◌<◌, ◌≤◌, ◌+ℤ◌, ◌*ℤ◌, length, map};
ghost use Rattle.std.specs.Simd.Lanes.{put_chunk};
ghost use Rattle.dsp_defs.specs.Numbers.{wrap};
ghost use Rattle.dsp_defs.specs.Formats.{accumulator, close};
ghost use Rattle.dsp_defs.specs.Signal.{sample, sum_below, values};
ghost use Rattle.dsp_defs.specs.Counts.{Rises};
ghost use Rattle.dsp_lanes.specs.Turns.{RisesWithin};

use crate::row_form::RowForm;
use dsp_defs::Steps;
use dsp_sat::Sample;
use std::sync::ledger::Ledger;

/// Writes the group of outputs from `at` on, two taps a turn.
#[inline(always)]
pub(crate) fn row_group<T: Sample, F: RowForm<T>, M: Ledger>(
    taps: &[T],
    window: &[T],
    out: &mut [T],
    at: usize,
    steps: &mut Steps<M>,
)
    requires few { F.size ≤ 128 }
    requires takes { F.Takes taps.now }
    requires room { at + F.size ≤ length out.old }
    requires window { at + F.size + length taps.now ≤ length window.now + 1 }
    ensures out { map T.number out.new ≡ put_chunk at (map T.number out.old)
        (values F.size (λ i.
        close T.format (sum_below (length taps.now) (λ j.
        sample (map T.number taps.now) j *ℤ sample (map T.number window.now) (at + i + j))))) }
    ensures steps { RisesWithin steps.old steps.new (length taps.now * F.size) (length taps.now) }
{
    let size = (F::behind(at) - at) as u64;
    let mut sums = F::no_sums();
    let mut j = 0;
    'pairs: while taps.len() - j >= 2 {
        sums = F::add_pair(sums, taps, j, window, at + j);
        steps.count(2 * size, 1);
        j += 2;
    }
    if j < taps.len() {
        sums = F::add_tap(sums, taps, j, window, at + j);
        steps.count(size, 1);
    }
    F::closes(taps, window);
    F::close(sums, out, at);
}

/// Adds to a sum the product of the tap `j` and of its sample in the window at `at`.
#[inline(always)]
pub(crate) fn add_one<T: Sample, M: Ledger>(
    sum: T::Acc,
    taps: &[T],
    j: usize,
    window: &[T],
    at: usize,
    steps: &mut Steps<M>,
) -> T::Acc
    requires taps { j < length taps.now }
    requires window { at + j < length window.now }
    ensures sum { T.total result ≡ wrap (accumulator T.format) (T.total sum
        +ℤ sample (map T.number taps.now) j *ℤ sample (map T.number window.now) (at + j)) }
    ensures steps { Rises steps.old steps.new 1 1 }
{
    let product = T::product(taps[j], window[at + j], steps);
    T::accumulate(sum, product)
}

/// The sum of the taps over the window at `at`.
#[inline(always)]
pub(crate) fn row_sum<T: Sample, M: Ledger>(
    taps: &[T],
    window: &[T],
    at: usize,
    steps: &mut Steps<M>,
) -> T::Acc
    requires { at + length taps.now ≤ length window.now }
    ensures sum { T.total result ≡ wrap (accumulator T.format)
        (sum_below (length taps.now) (λ j.
        sample (map T.number taps.now) j *ℤ sample (map T.number window.now) (at + j))) }
    ensures steps { Rises steps.old steps.new (length taps.now) (length taps.now) }
{
    let mut sum = T::empty();
    for j in 0..taps.len() {
        sum = add_one::<T, M>(sum, taps, j, window, at, steps);
    }
    sum
}
