//! Loops in which the product of a factor with each sample changes the number that stands at its place.
ghost use Rattle.std.specs.Prelude.{◌≡◌, ◌+◌, ◌*◌, ◌<◌, ◌≤◌, ℕ, ℤ, length, map};
ghost use Rattle.std.specs.Simd.Lanes.{zip2, chunk, put_chunk};
ghost use Rattle.dsp_defs.specs.Counts.{Rises};
ghost use Rattle.dsp_lanes.specs.Turns.{RisesWithin, lane_turns};

use crate::kernels::LaneSample;
use crate::weights::WeightSample;
use dsp_defs::Steps;
use dsp_sat::Sample;
use std::sync::ledger::Ledger;

/// What a factor and a sample make of the number at the sample's place.
pub(crate) trait Update<T: Sample> {
    /// What stands at each place.
    type Slot: Copy;

    ghost size: { ℕ };

    ghost number: { Self.Slot → ℤ };

    ghost next: { T → ℤ → ℤ → ℤ };

    /// The number of places of a group.
    fn size() -> usize
        ensures { result ≡ size };

    /// Updates the group at `at`.
    fn group(factor: T, window: &[T], slots: &mut [Self::Slot], at: usize)
        requires window { at + size ≤ length window.now }
        requires room { at + size ≤ length slots.old }
        ensures { map number slots.new ≡ put_chunk at (map number slots.old)
            (zip2 (next factor) (chunk at size (map number slots.old))
            (chunk at size (map T.number window.now))) };

    /// Updates the two groups from `at` on.
    #[inline(always)]
    fn double(factor: T, window: &[T], slots: &mut [Self::Slot], at: usize)
        requires window { at + 2 * size ≤ length window.now }
        requires room { at + 2 * size ≤ length slots.old }
        ensures { map number slots.new ≡ put_chunk at (map number slots.old)
            (zip2 (next factor) (chunk at (2 * size) (map number slots.old))
            (chunk at (2 * size) (map T.number window.now))) }
    {
        Self::group(factor, window, slots, at);
        Self::group(factor, window, slots, at + Self::size());
    }

    /// The next number at one place.
    fn one<M: Ledger>(factor: T, slot: Self::Slot, x: T, steps: &mut Steps<M>) -> Self::Slot
        ensures value { number result ≡ next factor (number slot) (T.number x) }
        ensures steps { Rises steps.old steps.new 1 1 };

    ghost some: { 0 < size };

    ghost few: { size ≤ 64 };
}

/// Updates each place by its sample, two groups at a time, then one, and then one place after another.
#[inline(always)]
pub(crate) fn update_each<T: Sample, U: Update<T>, M: Ledger>(
    factor: T,
    window: &[T],
    slots: &mut [U::Slot],
    steps: &mut Steps<M>,
)
    requires same { length window.now ≡ length slots.old }
    ensures slots { map U.number slots.new ≡ zip2 (U.next factor) (map U.number slots.old)
        (map T.number window.now) }
    ensures steps { RisesWithin steps.old steps.new (length slots.old)
        (lane_turns U.size (length slots.old)) }
{
    let size = U::size();
    let mut at = 0;
    'doubles: while slots.len() - at >= 2 * size {
        U::double(factor, window, slots, at);
        steps.count(2 * size as u64, 2);
        at += 2 * size;
    }
    'groups: while slots.len() - at >= size {
        U::group(factor, window, slots, at);
        steps.count(size as u64, 1);
        at += size;
    }
    'rest: while at < slots.len() {
        slots[at] = U::one(factor, slots[at], window[at], steps);
        at += 1;
    }
}

/// Adds the terms of a tap of a sparse filter to sums, in groups of L.
pub(crate) struct SparseTerms<const L: usize>;

impl<T: LaneSample<L>, const L: usize> Update<T> for SparseTerms<L> {
    type Slot = i32;

    ghost use Rattle.std.specs.Prelude.{◌+ℤ◌};
    ghost use Rattle.dsp_defs.specs.Numbers.{wrap, w32};
    ghost use Rattle.dsp_defs.specs.Sums.{sparse_term};

    ghost size = { L };

    ghost number = { λ s. s };

    ghost next = { λ tap s x. wrap w32 (s +ℤ sparse_term T.format (T.number tap) x) };

    #[inline(always)]
    fn size() -> usize {
        L
    }

    #[inline(always)]
    fn group(tap: T, window: &[T], sums: &mut [i32], at: usize) {
        T::delay_group(tap, window, sums, at)
    }

    #[inline(always)]
    fn one<M: Ledger>(tap: T, sum: i32, x: T, steps: &mut Steps<M>) -> i32 {
        sum.wrapping_add(T::sparse_term(tap, x, steps))
    }

    ghost some = { T.some };

    ghost few = { T.few };
}

/// Adds the products of a tap to sums, in groups of L.
pub(crate) struct Products<const L: usize>;

impl<T: LaneSample<L>, const L: usize> Update<T> for Products<L> {
    type Slot = T::Acc;

    ghost use Rattle.std.specs.Prelude.{◌+ℤ◌, ◌*ℤ◌};
    ghost use Rattle.dsp_defs.specs.Formats.{accumulator};
    ghost use Rattle.dsp_defs.specs.Numbers.{wrap};

    ghost size = { L };

    ghost number = { T.total };

    ghost next = { λ tap s x. wrap (accumulator T.format) (s +ℤ (T.number tap *ℤ x)) };

    #[inline(always)]
    fn size() -> usize {
        L
    }

    #[inline(always)]
    fn group(tap: T, row: &[T], sums: &mut [T::Acc], at: usize) {
        T::mac_group(tap, row, sums, at)
    }

    #[inline(always)]
    fn one<M: Ledger>(tap: T, sum: T::Acc, x: T, steps: &mut Steps<M>) -> T::Acc {
        let product = T::product(tap, x, steps);
        T::accumulate(sum, product)
    }

    ghost some = { T.some };

    ghost few = { T.few };
}

/// Changes the weights of an adaptive filter by a step size.
pub(crate) struct Weights;

impl<T: WeightSample> Update<T> for Weights {
    type Slot = T;

    ghost use Rattle.dsp_defs.specs.Adaptive.{weight_after};

    ghost size = { T.group };

    ghost number = { T.number };

    ghost next = { λ alpha w x. weight_after T.format (T.number alpha) w x };

    #[inline(always)]
    fn size() -> usize {
        T::group()
    }

    #[inline(always)]
    fn group(alpha: T, window: &[T], weights: &mut [T], at: usize) {
        T::weight_group(alpha, window, weights, at)
    }

    #[inline(always)]
    fn double(alpha: T, window: &[T], weights: &mut [T], at: usize) {
        T::weight_double(alpha, window, weights, at)
    }

    #[inline(always)]
    fn one<M: Ledger>(alpha: T, weight: T, x: T, steps: &mut Steps<M>) -> T {
        let change = T::product(alpha, x, steps);
        T::weight_after(weight, change)
    }

    ghost some = { T.some };

    ghost few = { T.few };
}
