ghost use Rattle.std.specs.Prelude.{◌≡◌, ◌↔◌, ◌+◌, ◌<◌, ◌≤◌, ℤ, List, pos, ◌+ℤ◌, ◌*ℤ◌, ◌*◌, IsTrue, length};
ghost use Rattle.std.specs.Prelude.{map, replicate};
ghost use Rattle.std.specs.Simd.Lanes.{zip2, chunk, put_chunk};
ghost use Rattle.dsp_defs.specs.Numbers.{wrap, w32};
ghost use Rattle.dsp_defs.specs.Formats.{accumulator, close};
ghost use Rattle.dsp_defs.specs.Elementwise.{mult, scale, IsScaleShift};
ghost use Rattle.dsp_defs.specs.Sums.{sparse_term};
ghost use Rattle.dsp_defs.specs.Signal.{sample, sum_below, values};
ghost use Rattle.dsp_lanes.specs.Regrouped.{list_sum};
ghost use Rattle.dsp_lanes.specs.Rows.{row_at};
ghost use Rattle.dsp_lanes.specs.Turns.{RisesWithin, lane_turns};

use crate::four_dots::Four;
use dsp_defs::Steps;
use dsp_sat::Sample;
use std::sync::ledger::Ledger;

/// What a type of samples does with a group of L of them, those from `at` on, in one turn.
pub trait LaneKernels<const L: usize>: Sample {
    /// A vector of L accumulators.
    type Sums: Copy;

    ghost lanes: { Self.Sums → List ℤ };

    ghost AreSums: { Self.Sums → Type 0 };

    /// L empty sums.
    fn no_sums() -> Self::Sums
        ensures sums { lanes result ≡ replicate L (pos 0) }
        ensures fit { AreSums result };

    /// Adds the products of two groups.
    fn add_products(sums: Self::Sums, taps: &[Self], window: &[Self], at: usize) -> Self::Sums
        requires fit { AreSums sums }
        requires taps { at + L ≤ length taps.now }
        requires window { at + L ≤ length window.now }
        ensures sums { lanes result ≡ zip2 (λ s p. wrap (accumulator Self.format) (s +ℤ p))
            (lanes sums) (zip2 (λ t x. t *ℤ x) (chunk at L (map Self.number taps.now))
            (chunk at L (map Self.number window.now))) }
        ensures fit { AreSums result };

    /// Adds the products of one tap with a group.
    fn add_multiples(sums: Self::Sums, tap: Self, window: &[Self], at: usize) -> Self::Sums
        requires fit { AreSums sums }
        requires window { at + L ≤ length window.now }
        ensures sums { lanes result ≡ zip2 (λ s x.
            wrap (accumulator Self.format) (s +ℤ (Self.number tap *ℤ x))) (lanes sums)
            (chunk at L (map Self.number window.now)) }
        ensures fit { AreSums result };

    /// The sum of the lanes.
    fn sum_lanes(sums: Self::Sums) -> Self::Acc
        requires { AreSums sums }
        ensures { Self.total result ≡ wrap (accumulator Self.format) (list_sum (lanes sums)) };

    /// Closes each sum.
    fn close_group(sums: Self::Sums, out: &mut [Self], at: usize)
        requires fit { AreSums sums }
        requires room { at + L ≤ length out.old }
        ensures { map Self.number out.new ≡ put_chunk at (map Self.number out.old)
            (map (close Self.format) (lanes sums)) };

    /// `mult` of two groups.
    fn mult_group(a: &[Self], b: &[Self], out: &mut [Self], at: usize)
        requires left { at + L ≤ length a.now }
        requires right { at + L ≤ length b.now }
        requires room { at + L ≤ length out.old }
        ensures { map Self.number out.new ≡ put_chunk at (map Self.number out.old)
            (zip2 (mult Self.format) (chunk at L (map Self.number a.now))
            (chunk at L (map Self.number b.now))) };

    /// `scale` of a group.
    fn scale_group(a: &[Self], factor: Self, places: i32, out: &mut [Self], at: usize)
        requires places { IsScaleShift Self.format places }
        requires input { at + L ≤ length a.now }
        requires room { at + L ≤ length out.old }
        ensures { map Self.number out.new ≡ put_chunk at (map Self.number out.old)
            (map (scale Self.format (Self.number factor) places)
            (chunk at L (map Self.number a.now))) };

    /// Adds one tap's terms of a sparse filter to a group of sums.
    fn delay_group(tap: Self, window: &[Self], sums: &mut [i32], at: usize)
        requires window { at + L ≤ length window.now }
        requires room { at + L ≤ length sums.old }
        ensures { sums.new ≡ put_chunk at sums.old
            (zip2 (λ s x. wrap w32 (s +ℤ sparse_term Self.format (Self.number tap) x))
            (chunk at L sums.old) (chunk at L (map Self.number window.now))) };

    /// Adds the products of one tap with a group of a row to a group of sums.
    fn mac_group(tap: Self, row: &[Self], sums: &mut [Self::Acc], at: usize)
        requires row { at + L ≤ length row.now }
        requires room { at + L ≤ length sums.old }
        ensures { map Self.total sums.new ≡ put_chunk at (map Self.total sums.old)
            (zip2 (λ s x. wrap (accumulator Self.format) (s +ℤ (Self.number tap *ℤ x)))
            (chunk at L (map Self.total sums.old)) (chunk at L (map Self.number row.now))) };
}

/// How a type of samples makes outputs of a filter, L, 2L and 4L at a time, scales 2L at a time, and
/// makes sums of products.
pub trait FilterKernels<const L: usize>: LaneKernels<L> {
    /// `scale` of two groups.
    fn scale_double(a: &[Self], factor: Self, places: i32, out: &mut [Self], at: usize)
        requires few { L ≤ 64 }
        requires places { IsScaleShift Self.format places }
        requires input { at + 2 * L ≤ length a.now }
        requires room { at + 2 * L ≤ length out.old }
        ensures { map Self.number out.new ≡ put_chunk at (map Self.number out.old)
            (map (scale Self.format (Self.number factor) places)
            (chunk at (2 * L) (map Self.number a.now))) };

    ghost AreSmall: { List Self → Type 0 };

    /// Whether sums of products by these taps are small enough for a faster form.
    fn are_small(taps: &[Self]) -> bool
        ensures { IsTrue result ↔ AreSmall taps.now };

    /// Writes the L outputs from `at` on, at most a turn for each tap.
    fn row_group<M: Ledger>(
        taps: &[Self],
        window: &[Self],
        small: bool,
        out: &mut [Self],
        at: usize,
        steps: &mut Steps<M>,
    )
        requires few { L ≤ 64 }
        requires small { IsTrue small → AreSmall taps.now }
        requires room { at + L ≤ length out.old }
        requires window { at + L + length taps.now ≤ length window.now + 1 }
        ensures out { map Self.number out.new ≡ put_chunk at (map Self.number out.old)
            (values L (λ i.
            close Self.format (sum_below (length taps.now) (λ j.
            sample (map Self.number taps.now) j *ℤ sample (map Self.number window.now)
            (at + i + j))))) }
        ensures steps { RisesWithin steps.old steps.new (length taps.now * L) (length taps.now) };

    /// Writes the 2L outputs from `at` on, at most two turns for each tap.
    fn double_group<M: Ledger>(
        taps: &[Self],
        window: &[Self],
        small: bool,
        out: &mut [Self],
        at: usize,
        steps: &mut Steps<M>,
    )
        requires few { L ≤ 64 }
        requires small { IsTrue small → AreSmall taps.now }
        requires room { at + 2 * L ≤ length out.old }
        requires window { at + 2 * L + length taps.now ≤ length window.now + 1 }
        ensures out { map Self.number out.new ≡ put_chunk at (map Self.number out.old)
            (values (2 * L) (λ i.
            close Self.format (sum_below (length taps.now) (λ j.
            sample (map Self.number taps.now) j *ℤ sample (map Self.number window.now)
            (at + i + j))))) }
        ensures steps { RisesWithin steps.old steps.new (length taps.now * (2 * L)) (2 * length taps.now) };

    /// Writes the 4L outputs from `at` on, at most four turns for each tap.
    fn quad_group<M: Ledger>(
        taps: &[Self],
        window: &[Self],
        small: bool,
        out: &mut [Self],
        at: usize,
        steps: &mut Steps<M>,
    )
        requires few { L ≤ 64 }
        requires small { IsTrue small → AreSmall taps.now }
        requires room { at + 4 * L ≤ length out.old }
        requires window { at + 4 * L + length taps.now ≤ length window.now + 1 }
        ensures out { map Self.number out.new ≡ put_chunk at (map Self.number out.old)
            (values (4 * L) (λ i.
            close Self.format (sum_below (length taps.now) (λ j.
            sample (map Self.number taps.now) j *ℤ sample (map Self.number window.now)
            (at + i + j))))) }
        ensures steps { RisesWithin steps.old steps.new (length taps.now * (4 * L)) (4 * length taps.now) }
    {
        Self::double_group(taps, window, small, out, at, steps);
        Self::double_group(taps, window, small, out, at + 2 * L, steps);
    }

    /// The sums of the products of the taps and the windows at `first`, `first + step`,
    /// `first + 2 * step` and `first + 3 * step`, wrapped to the accumulator.
    fn four_dots<M: Ledger>(
        taps: &[Self],
        window: &[Self],
        first: usize,
        step: usize,
        small: bool,
        steps: &mut Steps<M>,
    ) -> Four<Self::Acc>
        requires some { 0 < L }
        requires few { L ≤ 64 }
        requires small { IsTrue small → AreSmall taps.now }
        requires window { first + 3 * step + length taps.now ≤ length window.now }
        ensures first { Self.total result.first ≡ wrap (accumulator Self.format)
            (row_at (map Self.number taps.now) (map Self.number window.now) first) }
        ensures second { Self.total result.second ≡ wrap (accumulator Self.format)
            (row_at (map Self.number taps.now) (map Self.number window.now) (first + step)) }
        ensures third { Self.total result.third ≡ wrap (accumulator Self.format)
            (row_at (map Self.number taps.now) (map Self.number window.now) (first + 2 * step)) }
        ensures fourth { Self.total result.fourth ≡ wrap (accumulator Self.format)
            (row_at (map Self.number taps.now) (map Self.number window.now) (first + 3 * step)) }
        ensures steps { RisesWithin steps.old steps.new (4 * length taps.now)
            (4 * lane_turns L (length taps.now)) };

    /// The sum of the products, wrapped to the accumulator.
    fn dot<M: Ledger>(taps: &[Self], window: &[Self], steps: &mut Steps<M>) -> Self::Acc
        requires some { 0 < L }
        requires few { L ≤ 64 }
        requires same { length window.now ≡ length taps.now }
        ensures sum { Self.total result ≡ wrap (accumulator Self.format)
            (sum_below (length taps.now) (λ k.
            sample (map Self.number taps.now) k *ℤ sample (map Self.number window.now) k)) }
        ensures steps { RisesWithin steps.old steps.new (length taps.now)
            (lane_turns L (length taps.now)) };
}

/// A type of samples at L lanes.
pub trait LaneSample<const L: usize>: FilterKernels<L> {
    ghost some: { 0 < L };

    ghost few: { L ≤ 64 };
}
