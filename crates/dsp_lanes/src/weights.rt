//! The weights of adaptive filters.
ghost use Rattle.std.specs.Prelude.{◌≡◌, ◌+◌, ◌*◌, ◌<◌, ◌≤◌, ◌+ℤ◌, ◌*ℤ◌, ℕ, ℤ, pos, FitsSigned, length, map};
ghost use Rattle.std.specs.Simd.Lanes.{Each1, zip2, chunk, put_chunk};
ghost use Rattle.dsp_defs.specs.Adaptive.{weight_after};
ghost use Rattle.dsp_defs.specs.Numbers.{floor_shift, saturate, wrap, w32};
ghost use Rattle.dsp_defs.specs.Signal.{sample, values};
ghost use Rattle.dsp_defs.specs.declared.format.Fmt.TheVariants.{Q15};
ghost use Rattle.dsp_lanes.specs.Turns.{RisesWithin, lane_turns};

use crate::fits::{q15_fit, q31_fit};
use crate::scales::high_products;
use crate::updates::{Weights, update_each};
use dsp_defs::Steps;
use dsp_sat::{Sample, low_word, sat16};
use std::simd::prelude::*;
use std::sync::ledger::Ledger;

/// A weight after an update by a product of the step size and a sample in Q15.
#[inline(always)]
fn weight15(weight: i16, product: i32) -> i16
    ensures { (alpha x : ℤ) → product ≡ alpha *ℤ x → result ≡ weight_after Q15 alpha weight x }
{
    sat16(i64::from(weight) + i64::from(product >> 15))
}

/// Twice the high word of a product, wrapped.
#[inline(always)]
fn change31(product: i64) -> i32
    ensures { (alpha x : ℤ) → product ≡ alpha *ℤ x
        → result ≡ wrap w32 (pos 2 *ℤ floor_shift (alpha *ℤ x) 32) }
{
    low_word(2 * (product >> 32))
}

/// Samples of the weights of an adaptive filter.
pub trait WeightSample: Sample {
    ghost group: { ℕ };

    /// The number of weights of a group.
    fn group() -> usize
        ensures { result ≡ group };

    /// The next weight, from the product of the step size and the sample.
    fn weight_after(weight: Self, product: Self::Wide) -> Self
        ensures { (alpha x : ℤ) → Self.wide product ≡ alpha *ℤ x
            → Self.number result ≡ weight_after Self.format alpha (Self.number weight) x };

    /// The next weights of the group at `at`.
    fn weight_group(alpha: Self, window: &[Self], weights: &mut [Self], at: usize)
        requires window { at + group ≤ length window.now }
        requires room { at + group ≤ length weights.old }
        ensures { map Self.number weights.new ≡ put_chunk at (map Self.number weights.old)
            (zip2 (λ w x. weight_after Self.format (Self.number alpha) w x)
            (chunk at group (map Self.number weights.old))
            (chunk at group (map Self.number window.now))) };

    /// The next weights of the two groups from `at` on.
    #[inline(always)]
    fn weight_double(alpha: Self, window: &[Self], weights: &mut [Self], at: usize)
        requires window { at + 2 * group ≤ length window.now }
        requires room { at + 2 * group ≤ length weights.old }
        ensures { map Self.number weights.new ≡ put_chunk at (map Self.number weights.old)
            (zip2 (λ w x. weight_after Self.format (Self.number alpha) w x)
            (chunk at (2 * group) (map Self.number weights.old))
            (chunk at (2 * group) (map Self.number window.now))) }
    {
        Self::weight_group(alpha, window, weights, at);
        Self::weight_group(alpha, window, weights, at + Self::group());
    }

    ghost some: { 0 < group };

    ghost few: { group ≤ 64 };
}

/// Updates each weight by the product of the step size and its sample: the inner step of `arm_lms_q15`
/// and `arm_lms_q31`. Lengths are equal. It counts each product, and a turn for each group and for each
/// sample of the rest.
pub fn update_weights<T: WeightSample, M: Ledger>(
    alpha: T,
    window: &[T],
    weights: &mut [T],
    steps: &mut Steps<M>,
)
    requires { length window.now ≡ length weights.old }
    ensures weights { map T.number weights.new ≡ values (length weights.old) (λ j.
        weight_after T.format (T.number alpha) (sample (map T.number weights.old) j)
        (sample (map T.number window.now) j)) }
    ensures steps { RisesWithin steps.old steps.new (length weights.old)
        (lane_turns T.group (length weights.old)) }
{
    update_each::<T, Weights, M>(alpha, window, weights, steps)
}

/// The saturated sums of numbers and changes. No step overflows, since each change is cut first.
#[inline(always)]
fn saturating_lanes<const N: usize>(values: Simd<i32, N>, changes: Simd<i32, N>) -> Simd<i32, N>
    requires values { Each1 (FitsSigned w32) values }
    requires changes { Each1 (FitsSigned w32) changes }
    requires long { length values ≡ N }
    ensures sums { result ≡ zip2 (λ v d. saturate 32 (v +ℤ d)) values.entry changes.entry }
    ensures fit { Each1 (FitsSigned w32) result }
{
    let above = Simd::splat(i32::MAX) - values.simd_max(Simd::splat(0));
    let below = Simd::splat(i32::MIN) - values.simd_min(Simd::splat(0));
    values + changes.simd_min(above).simd_max(below)
}

/// The saturated sums of four numbers and four changes.
#[inline(always)]
pub fn saturating_sum(values: i32x4, changes: i32x4) -> i32x4
    requires values { Each1 (FitsSigned w32) values }
    requires changes { Each1 (FitsSigned w32) changes }
    requires long { length values ≡ 4 }
    ensures sums { result ≡ zip2 (λ v d. saturate 32 (v +ℤ d)) values changes }
    ensures fit { Each1 (FitsSigned w32) result }
{
    saturating_lanes(values, changes)
}

/// The high words of the products of a number and four samples, the even and the odd ones apart.
#[inline(always)]
fn high_words(factor: i32, samples: i32x4) -> i32x4
    requires fit { Each1 (FitsSigned w32) samples }
    requires long { length samples ≡ 4 }
    ensures words { result ≡ map (λ x. floor_shift (factor *ℤ x) 32) samples }
    ensures fit { Each1 (FitsSigned w32) result }
{
    let f = i32x2::splat(factor).cast::<i64>();
    let even = (f * samples.swizzle([0, 2]).cast::<i64>()) >> Simd::splat(32);
    let odd = (f * samples.swizzle([1, 3]).cast::<i64>()) >> Simd::splat(32);
    even.cast::<i32>().shuffle(odd.cast::<i32>(), [0, 2, 1, 3])
}

impl WeightSample for i16 {
    ghost use Rattle.std.proofs.Common.{lit<};

    ghost group = { 8 };

    #[inline(always)]
    fn group() -> usize {
        8
    }

    #[inline(always)]
    fn weight_after(weight: i16, product: i32) -> i16 {
        weight15(weight, product)
    }

    #[inline(always)]
    fn weight_group(alpha: i16, window: &[i16], weights: &mut [i16], at: usize) {
        q15_fit(window);
        q15_fit(weights);
        let a = i16x8::splat(alpha).cast::<i32>();
        let x = i16x8::from_slice(&window[at..]).cast::<i32>();
        let w = i16x8::from_slice(&weights[at..]).cast::<i32>();
        (w + ((a * x) >> Simd::splat(15)))
            .simd_min(Simd::splat(0x7fff))
            .simd_max(Simd::splat(-0x8000))
            .cast::<i16>()
            .copy_to_slice(&mut weights[at..]);
    }

    ghost some = { lit< tt };

    ghost few = { lit< tt };
}

impl WeightSample for i32 {
    ghost use Rattle.std.proofs.Common.{lit<};

    ghost group = { 4 };

    #[inline(always)]
    fn group() -> usize {
        4
    }

    #[inline(always)]
    fn weight_after(weight: i32, product: i64) -> i32 {
        Self::add(weight, change31(product))
    }

    #[inline(always)]
    fn weight_group(alpha: i32, window: &[i32], weights: &mut [i32], at: usize) {
        q31_fit(window);
        q31_fit(weights);
        let high = high_words(alpha, i32x4::from_slice(&window[at..]));
        let w = i32x4::from_slice(&weights[at..]);
        saturating_sum(w, high + high).copy_to_slice(&mut weights[at..]);
    }

    #[inline(always)]
    fn weight_double(alpha: i32, window: &[i32], weights: &mut [i32], at: usize) {
        q31_fit(window);
        q31_fit(weights);
        let high = high_products(i32x8::from_slice(&window[at..]), alpha);
        let w = i32x8::from_slice(&weights[at..]);
        saturating_lanes(w, high + high).copy_to_slice(&mut weights[at..]);
    }

    ghost some = { lit< tt };

    ghost few = { lit< tt };
}
