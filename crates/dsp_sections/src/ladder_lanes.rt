//! How a lattice with feedback works on neighbouring sections in lanes.
ghost use Rattle.std.specs.Prelude.{◌≡◌, ◌+◌, ◌-◌, ◌<◌, ◌≤◌, ◌∷◌, ◌+ℤ◌, ◌-ℤ◌, ℕ, ℤ, List, pos, negsuc, IsTrue};
ghost use Rattle.std.specs.Prelude.{length, map, replicate, take, FitsSigned};
ghost use Rattle.std.specs.Int.{w16, w32};
ghost use Rattle.std.specs.Int.Signed.{lt_z};
ghost use Rattle.std.specs.Simd.Lanes.{Each1, zip2, chunk, put_chunk};
ghost use Rattle.dsp_defs.specs.Counts.{Rises};
ghost use Rattle.dsp_defs.specs.Formats.{word_bits};
ghost use Rattle.dsp_defs.specs.Lattice.{reflected};
ghost use Rattle.dsp_defs.specs.Numbers.{saturate};
ghost use Rattle.dsp_defs.specs.Signal.{sample};
ghost use Rattle.dsp_sections.specs.Ladders.{lowered_values};

use crate::reflections::saturated_sums;
use dsp_defs::Steps;
use dsp_lanes::{q15_fit, q31_fit, saturating_sum};
use dsp_sat::Sample;
use std::simd::prelude::*;
use std::sync::ledger::Ledger;

/// What a type of samples does with one number of each of `size` neighbouring sections.
pub(crate) trait LadderLanes: Sample {
    /// One number of each section of a group.
    type Lanes: Copy;

    ghost size: { ℕ };

    ghost lanes: { Self.Lanes → List ℤ };

    ghost AreLanes: { Self.Lanes → Type 0 };

    ghost IsExact: { ℤ → Type 0 };

    /// The number of sections of a group.
    fn size() -> usize
        ensures { result ≡ size };

    /// The same number for each section.
    fn splat(x: Self) -> Self::Lanes
        ensures value { lanes result ≡ replicate size (Self.number x) }
        ensures fit { AreLanes result };

    /// The numbers from `at` on.
    fn load(numbers: &[Self], at: usize) -> Self::Lanes
        requires inside { at + size ≤ length numbers.now }
        ensures value { lanes result ≡ chunk at size (map Self.number numbers.now) }
        ensures fit { AreLanes result };

    /// The numbers behind the one at `at`. They are read as the group from `at` on was stored, and the
    /// last of them alone.
    fn load_next(numbers: &[Self], at: usize) -> Self::Lanes
        requires inside { at + size < length numbers.now }
        ensures value { lanes result ≡ chunk (at + 1) size (map Self.number numbers.now) }
        ensures fit { AreLanes result };

    /// Writes the numbers from `at` on.
    fn store(values: Self::Lanes, numbers: &mut [Self], at: usize)
        requires fit { AreLanes values }
        requires inside { at + size ≤ length numbers.old }
        ensures { map Self.number numbers.new ≡ put_chunk at (map Self.number numbers.old) (lanes values) };

    /// Whether lanes have room for what sections with these coefficients reflect.
    fn are_exact(k: Self::Lanes) -> bool
        requires fit { AreLanes k }
        ensures { IsTrue result → Each1 IsExact (lanes k) };

    /// The products of coefficients and values as fractions. It counts the products, and as many turns.
    fn reflected<M: Ledger>(
        k: Self::Lanes,
        values: Self::Lanes,
        steps: &mut Steps<M>,
    ) -> Self::Lanes
        requires fit_k { AreLanes k }
        requires fit_values { AreLanes values }
        requires exact { Each1 IsExact (lanes k) }
        ensures value { lanes result ≡ zip2 (reflected Self.format) (lanes k) (lanes values) }
        ensures fit { AreLanes result }
        ensures steps { Rises steps.old steps.new size size };

    /// The saturated sums.
    fn sums(a: Self::Lanes, b: Self::Lanes) -> Self::Lanes
        requires fit_a { AreLanes a }
        requires fit_b { AreLanes b }
        ensures value { lanes result ≡ zip2 (λ x y. saturate (word_bits Self.format) (x +ℤ y))
            (lanes a) (lanes b) }
        ensures fit { AreLanes result };

    /// Values less products, saturated.
    fn lowered(values: Self::Lanes, products: Self::Lanes) -> Self::Lanes
        requires fit_values { AreLanes values }
        requires fit_products { AreLanes products }
        ensures value { lanes result ≡ zip2 (λ f p. saturate (word_bits Self.format) (f -ℤ p))
            (lanes values) (lanes products) }
        ensures fit { AreLanes result };

    /// The last number of `front`, and all others but the last.
    fn behind(front: Self::Lanes, values: Self::Lanes) -> Self::Lanes
        requires fit_front { AreLanes front }
        requires fit_values { AreLanes values }
        ensures value { lanes result ≡ sample (lanes front) (size - 1) ∷ take (size - 1) (lanes values) }
        ensures fit { AreLanes result };

    /// The last number of `front` less the sums of the first product, the first two and so on, which is
    /// what the sections pass on if no step saturates; and whether a test finds that it is right.
    fn guess(front: Self::Lanes, products: Self::Lanes) -> (Self::Lanes, bool)
        requires fit_front { AreLanes front }
        requires fit_products { AreLanes products }
        ensures fit { AreLanes result.0 }
        ensures right { IsTrue result.1 → lanes result.0 ≡ lowered_values (word_bits Self.format)
            (sample (lanes front) (size - 1)) (lanes products) };

    /// The number of the last section.
    fn last(a: Self::Lanes) -> Self
        requires { AreLanes a }
        ensures { Self.number result ≡ sample (lanes a) (size - 1) };

    ghost some: { 0 < size };

    ghost whole: { (v : Self.Lanes) → AreLanes v → length (lanes v) ≡ size };
}

/// Whether the numbers are the same.
#[inline(always)]
fn are_same(a: i16x8, b: i16x8) -> bool
    requires long_a { length a ≡ 8 }
    requires long_b { length b ≡ 8 }
    requires fit_a { Each1 (FitsSigned w16) a }
    requires fit_b { Each1 (FitsSigned w16) b }
    ensures { IsTrue result → a ≡ b }
{
    a.simd_ne(b).to_bitmask() == 0
}

impl LadderLanes for i16 {
    type Lanes = i16x8;

    ghost use Rattle.std.specs.Prelude.{◌≢◌};
    ghost use Rattle.std.proofs.Common.{lit<};

    ghost size = { 8 };

    ghost lanes = { λ v. v };

    ghost AreLanes = { λ v. Each1 (FitsSigned w16) v × (length v ≡ 8) };

    ghost IsExact = { λ k. k ≢ negsuc 32767 };

    ghost some = { lit< tt };

    ghost whole = { λ v fit. fit.1 };

    #[inline(always)]
    fn size() -> usize {
        8
    }

    #[inline(always)]
    fn splat(x: i16) -> i16x8 {
        i16x8::splat(x)
    }

    #[inline(always)]
    fn load(numbers: &[i16], at: usize) -> i16x8 {
        q15_fit(numbers);
        i16x8::from_slice(&numbers[at..])
    }

    #[inline(always)]
    fn load_next(numbers: &[i16], at: usize) -> i16x8 {
        q15_fit(numbers);
        let last = i16x8::splat(numbers[at + 8]);
        i16x8::from_slice(&numbers[at..]).shuffle(last, [1, 2, 3, 4, 5, 6, 7, 8])
    }

    #[inline(always)]
    fn store(values: i16x8, numbers: &mut [i16], at: usize) {
        values.copy_to_slice(&mut numbers[at..]);
    }

    #[inline(always)]
    fn are_exact(k: i16x8) -> bool {
        are_same(k, k.simd_max(i16x8::splat(-0x7fff)))
    }

    /// A shift by 15 is one by 16 of a product by twice the coefficient, which is a factor of 16 bits and
    /// a multiple of 2^16. That multiple, 1, 0 or -1, takes each value once.
    #[inline(always)]
    fn reflected<M: Ledger>(k: i16x8, values: i16x8, steps: &mut Steps<M>) -> i16x8 {
        let twice = k + k;
        let whole = (k >> i16x8::splat(15)) - (twice >> i16x8::splat(15));
        let products = values.cast::<i32>() * twice.cast::<i32>();
        let high = (products >> i32x8::splat(16)).cast::<i16>();
        steps.count(8, 8);
        high + values * whole
    }

    #[inline(always)]
    fn sums(a: i16x8, b: i16x8) -> i16x8 {
        saturated_sums(a, b)
    }

    #[inline(always)]
    fn lowered(values: i16x8, products: i16x8) -> i16x8 {
        let one_less = i16x8::splat(-1);
        one_less - saturated_sums(products, one_less - values)
    }

    #[inline(always)]
    fn behind(front: i16x8, values: i16x8) -> i16x8 {
        front.shuffle(values, [7, 8, 9, 10, 11, 12, 13, 14])
    }

    /// A guess that the steps leave as it is is right, however it was made.
    #[inline(always)]
    fn guess(front: i16x8, products: i16x8) -> (i16x8, bool) {
        let zero = i16x8::splat(0);
        let twos = products + zero.shuffle(products, [0, 8, 9, 10, 11, 12, 13, 14]);
        let fours = twos + zero.shuffle(twos, [0, 1, 8, 9, 10, 11, 12, 13]);
        let sums = fours + zero.shuffle(fours, [0, 1, 2, 3, 8, 9, 10, 11]);
        let values = front.swizzle([7, 7, 7, 7, 7, 7, 7, 7]) - sums;
        let next = Self::lowered(Self::behind(front, values), products);
        (values, are_same(next, values))
    }

    #[inline(always)]
    fn last(a: i16x8) -> i16 {
        let numbers = a.to_array();
        numbers[7]
    }
}

/// Whether differences stay in 32 bits: a number becomes less just where it is more than 0 that is taken
/// from it.
#[inline(always)]
fn stay_in_words(values: i32x4, taken: i32x4, differences: i32x4) -> bool
    requires long_values { length values ≡ 4 }
    requires long_taken { length taken ≡ 4 }
    requires long_differences { length differences ≡ 4 }
    requires fit_values { Each1 (FitsSigned w32) values }
    requires fit_taken { Each1 (FitsSigned w32) taken }
    requires fit_differences { Each1 (FitsSigned w32) differences }
    ensures { IsTrue result → zip2 lt_z differences values ≡ map (lt_z (pos 0)) taken }
{
    let less = differences.simd_lt(values).to_simd();
    let above = taken.simd_gt(i32x4::splat(0)).to_simd();
    less.simd_ne(above).to_bitmask() == 0
}

impl LadderLanes for i32 {
    type Lanes = i32x4;

    ghost use Rattle.std.proofs.Common.{lit<};

    ghost size = { 4 };

    ghost lanes = { λ v. v };

    ghost AreLanes = { λ v. Each1 (FitsSigned w32) v × (length v ≡ 4) };

    ghost IsExact = { λ k. Unit {0} };

    ghost some = { lit< tt };

    ghost whole = { λ v fit. fit.1 };

    #[inline(always)]
    fn size() -> usize {
        4
    }

    #[inline(always)]
    fn splat(x: i32) -> i32x4 {
        i32x4::splat(x)
    }

    #[inline(always)]
    fn load(numbers: &[i32], at: usize) -> i32x4 {
        q31_fit(numbers);
        i32x4::from_slice(&numbers[at..])
    }

    #[inline(always)]
    fn load_next(numbers: &[i32], at: usize) -> i32x4 {
        q31_fit(numbers);
        let last = i32x4::splat(numbers[at + 4]);
        i32x4::from_slice(&numbers[at..]).shuffle(last, [1, 2, 3, 4])
    }

    #[inline(always)]
    fn store(values: i32x4, numbers: &mut [i32], at: usize) {
        values.copy_to_slice(&mut numbers[at..]);
    }

    #[inline(always)]
    fn are_exact(_k: i32x4) -> bool {
        true
    }

    /// A shift by 31 is one by 32 of twice the product, and what is left of it in 32 bits is the same.
    #[inline(always)]
    fn reflected<M: Ledger>(k: i32x4, values: i32x4, steps: &mut Steps<M>) -> i32x4 {
        let products = k.cast::<i64>() * values.cast::<i64>();
        steps.count(4, 4);
        ((products << Simd::splat(1)) >> Simd::splat(32)).cast::<i32>()
    }

    #[inline(always)]
    fn sums(a: i32x4, b: i32x4) -> i32x4 {
        saturating_sum(b, a)
    }

    #[inline(always)]
    fn lowered(values: i32x4, products: i32x4) -> i32x4 {
        let one_less = i32x4::splat(-1);
        one_less - saturating_sum(products, one_less - values)
    }

    #[inline(always)]
    fn behind(front: i32x4, values: i32x4) -> i32x4 {
        front.shuffle(values, [3, 4, 5, 6])
    }

    #[inline(always)]
    fn guess(front: i32x4, products: i32x4) -> (i32x4, bool) {
        let zero = i32x4::splat(0);
        let twos = products + zero.shuffle(products, [0, 4, 5, 6]);
        let sums = twos + zero.shuffle(twos, [0, 1, 4, 5]);
        let values = front.swizzle([3, 3, 3, 3]) - sums;
        (
            values,
            stay_in_words(Self::behind(front, values), products, values),
        )
    }

    #[inline(always)]
    fn last(a: i32x4) -> i32 {
        let numbers = a.to_array();
        numbers[3]
    }
}
