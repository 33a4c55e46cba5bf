ghost use Rattle.std.specs.Prelude.{◌≡◌, ◌<◌, ◌≤◌, ◌+◌, ◌*◌, ℤ, length, map};
ghost use Rattle.dsp_defs.specs.Counts.{Rises};
ghost use Rattle.dsp_defs.specs.Numbers.{wrap};
ghost use Rattle.dsp_defs.specs.Formats.{accumulator};
ghost use Rattle.dsp_lanes.specs.Rows.{IsRow, row_at};
ghost use Rattle.dsp_lanes.specs.Turns.{RisesWithin, lane_turns};

use crate::dot_form::DotForm;
use crate::rows::add_one;
use dsp_defs::Steps;
use dsp_sat::Sample;
use std::sync::ledger::Ledger;

/// Four sums.
#[derive(Clone, Copy)]
pub struct Four<A> {
    pub first: A,
    pub second: A,
    pub third: A,
    pub fourth: A,
}

/// Adds to a sum the products of a group of taps, those from `at` on, and of the window at `start`.
#[inline(always)]
fn add_group<T: Sample, F: DotForm<T>, M: Ledger>(
    sums: F::Sums,
    taps: &[T],
    at: usize,
    window: &[T],
    start: usize,
    steps: &mut Steps<M>,
) -> F::Sums
    requires fit { F.AreSums sums }
    requires taps { at + F.size ≤ length taps.now }
    requires window { start + length taps.now ≤ length window.now }
    ensures sums { IsRow F.width (map T.number taps.now) (map T.number window.now) at start (F.value sums)
        → IsRow F.width (map T.number taps.now) (map T.number window.now) (at + F.size) start
        (F.value result) }
    ensures fit { F.AreSums result }
    ensures steps { Rises steps.old steps.new F.size 1 }
{
    steps.count(F::size() as u64, 1);
    F::add_products(sums, taps, &window[start..start + taps.len()], at)
}

/// The sums of the products of the taps and of four windows that lie `step` apart, a group of each a
/// turn and then one after another. They are known up to a multiple of the form's width.
#[inline(always)]
pub(crate) fn four_sums<T: Sample, F: DotForm<T>, M: Ledger>(
    taps: &[T],
    window: &[T],
    first: usize,
    step: usize,
    steps: &mut Steps<M>,
) -> Four<T::Acc>
    requires some { 0 < F.size }
    requires narrows { (z : ℤ) → wrap F.width (wrap (accumulator T.format) z) ≡ wrap F.width z }
    requires window { first + 3 * step + length taps.now ≤ length window.now }
    ensures first { wrap F.width (T.total result.first)
        ≡ wrap F.width (row_at (map T.number taps.now) (map T.number window.now) first) }
    ensures second { wrap F.width (T.total result.second)
        ≡ wrap F.width (row_at (map T.number taps.now) (map T.number window.now) (first + step)) }
    ensures third { wrap F.width (T.total result.third)
        ≡ wrap F.width (row_at (map T.number taps.now) (map T.number window.now)
        (first + 2 * step)) }
    ensures fourth { wrap F.width (T.total result.fourth)
        ≡ wrap F.width (row_at (map T.number taps.now) (map T.number window.now)
        (first + 3 * step)) }
    ensures steps { RisesWithin steps.old steps.new (4 * length taps.now)
        (4 * lane_turns F.size (length taps.now)) }
{
    let second = first + step;
    let third = first + 2 * step;
    let fourth = first + 3 * step;
    let size = F::size();
    let mut parts = Four {
        first: F::no_sums(),
        second: F::no_sums(),
        third: F::no_sums(),
        fourth: F::no_sums(),
    };
    let mut at = 0;
    'groups: while taps.len() - at >= size {
        parts = Four {
            first: add_group::<T, F, M>(parts.first, taps, at, window, first, steps),
            second: add_group::<T, F, M>(parts.second, taps, at, window, second, steps),
            third: add_group::<T, F, M>(parts.third, taps, at, window, third, steps),
            fourth: add_group::<T, F, M>(parts.fourth, taps, at, window, fourth, steps),
        };
        at += size;
    }
    let mut sums = Four {
        first: F::total(parts.first),
        second: F::total(parts.second),
        third: F::total(parts.third),
        fourth: F::total(parts.fourth),
    };
    'rest: while at < taps.len() {
        sums = Four {
            first: add_one::<T, M>(sums.first, taps, at, window, first, steps),
            second: add_one::<T, M>(sums.second, taps, at, window, second, steps),
            third: add_one::<T, M>(sums.third, taps, at, window, third, steps),
            fourth: add_one::<T, M>(sums.fourth, taps, at, window, fourth, steps),
        };
        at += 1;
    }
    sums
}

/// The sums of the products of the taps and of two windows, a group of each a turn and then one after
/// another. They are known up to a multiple of the form's width.
#[inline(always)]
fn two_sums<T: Sample, F: DotForm<T>, M: Ledger>(
    taps: &[T],
    window: &[T],
    first: usize,
    second: usize,
    steps: &mut Steps<M>,
) -> (T::Acc, T::Acc)
    requires some { 0 < F.size }
    requires narrows { (z : ℤ) → wrap F.width (wrap (accumulator T.format) z) ≡ wrap F.width z }
    requires window_first { first + length taps.now ≤ length window.now }
    requires window_second { second + length taps.now ≤ length window.now }
    ensures first { wrap F.width (T.total result.0)
        ≡ wrap F.width (row_at (map T.number taps.now) (map T.number window.now) first) }
    ensures second { wrap F.width (T.total result.1)
        ≡ wrap F.width (row_at (map T.number taps.now) (map T.number window.now) second) }
    ensures steps { RisesWithin steps.old steps.new (2 * length taps.now)
        (2 * lane_turns F.size (length taps.now)) }
{
    let size = F::size();
    let mut one = F::no_sums();
    let mut other = F::no_sums();
    let mut at = 0;
    'groups: while taps.len() - at >= size {
        one = add_group::<T, F, M>(one, taps, at, window, first, steps);
        other = add_group::<T, F, M>(other, taps, at, window, second, steps);
        at += size;
    }
    let mut sum = F::total(one);
    let mut other_sum = F::total(other);
    'rest: while at < taps.len() {
        sum = add_one::<T, M>(sum, taps, at, window, first, steps);
        other_sum = add_one::<T, M>(other_sum, taps, at, window, second, steps);
        at += 1;
    }
    (sum, other_sum)
}

/// The same four sums, of two windows and then of the other two: for a form whose sums of four windows
/// are more than a processor's registers hold.
#[inline(always)]
pub(crate) fn four_by_twos<T: Sample, F: DotForm<T>, M: Ledger>(
    taps: &[T],
    window: &[T],
    first: usize,
    step: usize,
    steps: &mut Steps<M>,
) -> Four<T::Acc>
    requires some { 0 < F.size }
    requires narrows { (z : ℤ) → wrap F.width (wrap (accumulator T.format) z) ≡ wrap F.width z }
    requires window { first + 3 * step + length taps.now ≤ length window.now }
    ensures first { wrap F.width (T.total result.first)
        ≡ wrap F.width (row_at (map T.number taps.now) (map T.number window.now) first) }
    ensures second { wrap F.width (T.total result.second)
        ≡ wrap F.width (row_at (map T.number taps.now) (map T.number window.now) (first + step)) }
    ensures third { wrap F.width (T.total result.third)
        ≡ wrap F.width (row_at (map T.number taps.now) (map T.number window.now)
        (first + 2 * step)) }
    ensures fourth { wrap F.width (T.total result.fourth)
        ≡ wrap F.width (row_at (map T.number taps.now) (map T.number window.now)
        (first + 3 * step)) }
    ensures steps { RisesWithin steps.old steps.new (4 * length taps.now)
        (4 * lane_turns F.size (length taps.now)) }
{
    let second = first + step;
    let third = first + 2 * step;
    let fourth = first + 3 * step;
    let (first, second) = two_sums::<T, F, M>(taps, window, first, second, steps);
    let (third, fourth) = two_sums::<T, F, M>(taps, window, third, fourth, steps);
    Four {
        first,
        second,
        third,
        fourth,
    }
}
