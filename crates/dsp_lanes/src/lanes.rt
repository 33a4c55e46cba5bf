ghost use Rattle.std.specs.Prelude.{◌≡◌, ◌+◌, ◌*◌, ℕ, ◌<◌, ◌≤◌, ◌≤ℤ◌, ◌+ℤ◌, ◌*ℤ◌, length, map};
ghost use Rattle.std.specs.Simd.Lanes.{zip2};
ghost use Rattle.dsp_defs.specs.Numbers.{wrap, w32};
ghost use Rattle.dsp_defs.specs.Formats.{accumulator, close};
ghost use Rattle.dsp_defs.specs.Signal.{sample, sum_below, values};
ghost use Rattle.dsp_defs.specs.Elementwise.{abs, add, clip, mult, negate, scale, shift, sub, IsScaleShift};
ghost use Rattle.dsp_defs.specs.Elementwise.{IsShift};
ghost use Rattle.dsp_defs.specs.Sums.{sparse_term};
ghost use Rattle.dsp_defs.specs.Streaming.{rows};
ghost use Rattle.dsp_lanes.specs.Rows.{row_at};
ghost use Rattle.dsp_lanes.specs.Turns.{RisesWithin, lane_turns};

use crate::kernels::LaneSample;
use crate::operations::{
    Abs, Clip, Difference, Negate, Offset, Shift, Sum, change_each, join_each,
};
use crate::rows::row_sum;
use crate::updates::{Products, SparseTerms, update_each};
use dsp_defs::Steps;
use std::marker::PhantomData;
use std::sync::ledger::Ledger;

/// Calls on slices of samples, L at a time. Lengths are in samples. No call takes memory or fails,
/// and those that make products count each product, and a turn for each group of L samples and for
/// each sample of the rest.
pub struct Lanes<T: LaneSample<L>, const L: usize> {
    marker: PhantomData<T>,
}

impl<T: LaneSample<L>, const L: usize> Lanes<T, L> {
    /// The saturating sums: `arm_add_q7`, `arm_add_q15`, `arm_add_q31`. Lengths are equal.
    pub fn add(a: &[T], b: &[T], out: &mut [T])
        requires left { length a.now ≡ length out.old }
        requires right { length b.now ≡ length out.old }
        ensures { map T.number out.new ≡ zip2 (add T.format) (map T.number a.now) (map T.number b.now) }
    {
        join_each(Sum, a, b, out)
    }

    /// The saturating differences: `arm_sub_q7`, `arm_sub_q15`, `arm_sub_q31`. Lengths are equal.
    pub fn sub(a: &[T], b: &[T], out: &mut [T])
        requires left { length a.now ≡ length out.old }
        requires right { length b.now ≡ length out.old }
        ensures { map T.number out.new ≡ zip2 (sub T.format) (map T.number a.now) (map T.number b.now) }
    {
        join_each(Difference, a, b, out)
    }

    /// Adds a constant to each sample and saturates: `arm_offset_q7`, `arm_offset_q15`,
    /// `arm_offset_q31`. Lengths are equal.
    pub fn offset(a: &[T], constant: T, out: &mut [T])
        requires { length a.now ≡ length out.old }
        ensures { map T.number out.new ≡ map (λ x. add T.format x (T.number constant))
            (map T.number a.now) }
    {
        change_each(Offset { constant }, a, out)
    }

    /// The saturating negatives: `arm_negate_q7`, `arm_negate_q15`, `arm_negate_q31`. Lengths are
    /// equal.
    pub fn negate(a: &[T], out: &mut [T])
        requires { length a.now ≡ length out.old }
        ensures { map T.number out.new ≡ map (negate T.format) (map T.number a.now) }
    {
        change_each(Negate, a, out)
    }

    /// The saturating absolute values: `arm_abs_q7`, `arm_abs_q15`, `arm_abs_q31`. Lengths are equal.
    pub fn abs(a: &[T], out: &mut [T])
        requires { length a.now ≡ length out.old }
        ensures { map T.number out.new ≡ map (abs T.format) (map T.number a.now) }
    {
        change_each(Abs, a, out)
    }

    /// Times 2^places, saturated where it grows and rounded down where it shrinks: `arm_shift_q7`,
    /// `arm_shift_q15`, `arm_shift_q31`. Lengths are equal.
    pub fn shift(a: &[T], places: i32, out: &mut [T])
        requires places { IsShift T.format places }
        requires same { length a.now ≡ length out.old }
        ensures { map T.number out.new ≡ map (shift T.format places) (map T.number a.now) }
    {
        change_each(Shift { places }, a, out)
    }

    /// Clamps each sample to `low..=high`: `arm_clip_q7`, `arm_clip_q15`, `arm_clip_q31`. Lengths are
    /// equal.
    pub fn clip(a: &[T], low: T, high: T, out: &mut [T])
        requires limits { T.number low ≤ℤ T.number high }
        requires same { length a.now ≡ length out.old }
        ensures { map T.number out.new ≡ map (clip (T.number low) (T.number high)) (map T.number a.now) }
    {
        change_each(Clip { low, high }, a, out)
    }

    /// The saturated products: `arm_mult_q7`, `arm_mult_q15`, `arm_mult_q31`. Lengths are equal.
    pub fn mult<M: Ledger>(a: &[T], b: &[T], out: &mut [T], steps: &mut Steps<M>)
        requires left { length a.now ≡ length out.old }
        requires right { length b.now ≡ length out.old }
        ensures out { map T.number out.new ≡ zip2 (mult T.format) (map T.number a.now)
            (map T.number b.now) }
        ensures steps { RisesWithin steps.old steps.new (length out.old) (lane_turns L (length out.old)) }
    {
        let mut at = 0;
        'groups: while out.len() - at >= L {
            T::mult_group(a, b, out, at);
            steps.count(L as u64, 1);
            at += L;
        }
        'rest: while at < out.len() {
            out[at] = T::mult(a[at], b[at], steps);
            at += 1;
        }
    }

    /// Times a fraction and 2^places: `arm_scale_q7`, `arm_scale_q15`, `arm_scale_q31`. Lengths are
    /// equal.
    pub fn scale<M: Ledger>(a: &[T], factor: T, places: i32, out: &mut [T], steps: &mut Steps<M>)
        requires places { IsScaleShift T.format places }
        requires same { length a.now ≡ length out.old }
        ensures out { map T.number out.new ≡ map (scale T.format (T.number factor) places)
            (map T.number a.now) }
        ensures steps { RisesWithin steps.old steps.new (length out.old) (lane_turns L (length out.old)) }
    {
        let mut at = 0;
        'doubles: while out.len() - at >= 2 * L {
            T::scale_double(a, factor, places, out, at);
            steps.count(2 * L as u64, 2);
            at += 2 * L;
        }
        'groups: while out.len() - at >= L {
            T::scale_group(a, factor, places, out, at);
            steps.count(L as u64, 1);
            at += L;
        }
        'rest: while at < out.len() {
            out[at] = T::scale(a[at], factor, places, steps);
            at += 1;
        }
    }

    /// The sum of the products, wrapped to the accumulator: `arm_dot_prod_q7`, `arm_dot_prod_q15`.
    /// Lengths are equal.
    pub fn dot<M: Ledger>(taps: &[T], window: &[T], steps: &mut Steps<M>) -> T::Acc
        requires { length window.now ≡ length taps.now }
        ensures sum { T.total result ≡ wrap (accumulator T.format)
            (sum_below (length taps.now) (λ k.
            sample (map T.number taps.now) k *ℤ sample (map T.number window.now) k)) }
        ensures steps { RisesWithin steps.old steps.new (length taps.now) (lane_turns L (length taps.now)) }
    {
        T::dot(taps, window, steps)
    }

    /// `out[i] = close(sum over j of taps[j] * window[i + j])`: the work of a FIR filter on a window
    /// of `taps.len() - 1` past samples and a block. There is at least one tap.
    pub fn rows<M: Ledger>(taps: &[T], window: &[T], out: &mut [T], steps: &mut Steps<M>)
        requires taps { 0 < length taps.now }
        requires window { length window.now + 1 ≡ length out.old + length taps.now }
        ensures out { map T.number out.new ≡ rows T.format (map T.number taps.now)
            (map T.number window.now) (length out.old) }
        ensures steps { RisesWithin steps.old steps.new (length taps.now * length out.old)
            (length taps.now * lane_turns L (length out.old)) }
    {
        let small = T::are_small(taps);
        let mut at = 0;
        'quads: while out.len() - at >= 4 * L {
            T::quad_group(taps, window, small, out, at, steps);
            at += 4 * L;
        }
        'doubles: while out.len() - at >= 2 * L {
            T::double_group(taps, window, small, out, at, steps);
            at += 2 * L;
        }
        'groups: while out.len() - at >= L {
            T::row_group(taps, window, small, out, at, steps);
            at += L;
        }
        'rest: while at < out.len() {
            out[at] = T::close(row_sum(taps, window, at, steps));
            at += 1;
        }
    }

    /// `out[i] = close(sum over j of taps[j] * window[first + i * step + j])`: the work of a decimator.
    pub fn strided_rows<M: Ledger>(
        taps: &[T],
        window: &[T],
        first: usize,
        step: usize,
        out: &mut [T],
        steps: &mut Steps<M>,
    )
        requires { (i : ℕ) → i < length out.old → first + i * step + length taps.now ≤ length window.now }
        ensures out { map T.number out.new ≡ values (length out.old) (λ i.
            close T.format (row_at (map T.number taps.now) (map T.number window.now)
            (first + i * step))) }
        ensures steps { RisesWithin steps.old steps.new (length out.old * length taps.now)
            (length out.old * lane_turns L (length taps.now)) }
    {
        let small = T::are_small(taps);
        let mut at = 0;
        'fours: while out.len() - at >= 4 {
            let sums = T::four_dots(taps, window, first + at * step, step, small, steps);
            out[at] = T::close(sums.first);
            out[at + 1] = T::close(sums.second);
            out[at + 2] = T::close(sums.third);
            out[at + 3] = T::close(sums.fourth);
            at += 4;
        }
        'rest: while at < out.len() {
            let start = first + at * step;
            let sum = T::dot(taps, &window[start..start + taps.len()], steps);
            out[at] = T::close(sum);
            at += 1;
        }
    }

    /// Adds one tap's term to each sum, wrapped to 32 bits: the inner step of `arm_fir_sparse_q7`,
    /// `arm_fir_sparse_q15`, `arm_fir_sparse_q31`. Lengths are equal.
    pub fn delayed<M: Ledger>(tap: T, window: &[T], sums: &mut [i32], steps: &mut Steps<M>)
        requires { length window.now ≡ length sums.old }
        ensures sums { sums.new ≡ zip2 (λ s x.
            wrap w32 (s +ℤ sparse_term T.format (T.number tap) x)) sums.old
            (map T.number window.now) }
        ensures steps { RisesWithin steps.old steps.new (length sums.old) (lane_turns L (length sums.old)) }
    {
        update_each::<T, SparseTerms<L>, M>(tap, window, sums, steps)
    }

    /// Adds one tap's products to each sum, wrapped to the accumulator. Lengths are equal.
    pub fn mac<M: Ledger>(tap: T, row: &[T], sums: &mut [T::Acc], steps: &mut Steps<M>)
        requires { length row.now ≡ length sums.old }
        ensures sums { map T.total sums.new ≡ zip2 (λ s x.
            wrap (accumulator T.format) (s +ℤ (T.number tap *ℤ x))) (map T.total sums.old)
            (map T.number row.now) }
        ensures steps { RisesWithin steps.old steps.new (length sums.old) (lane_turns L (length sums.old)) }
    {
        update_each::<T, Products<L>, M>(tap, row, sums, steps)
    }
}
