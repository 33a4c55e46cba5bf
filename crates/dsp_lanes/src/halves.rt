//! Samples of 32 bits, of which a vector's even ones are multiplied apart from its odd ones: a product of
//! 64 bits takes each of them where it lies.
ghost use Rattle.std.specs.Prelude.{◌≡◌, ◌+ℤ◌, ◌*ℤ◌};
ghost use Rattle.std.specs.Simd.Lanes.{zip2};
ghost use Rattle.dsp_defs.specs.Numbers.{wrap, w32, w64};
ghost use Rattle.dsp_lanes.specs.Pairs.{AreHalves};

use crate::dot_form::DotForm;
use crate::fits::q31_fit;
use crate::kernels::LaneKernels;
use crate::row_form::RowForm;
use crate::scales::{even_words, odd_words};
use std::simd::prelude::*;

/// Eight outputs or products.
pub(crate) struct EightHalves;

/// The sums of the even and of the odd ones of eight.
#[derive(Clone, Copy)]
pub(crate) struct EightSums {
    even: i64x4,
    odd: i64x4,
}

/// Adds the products of a factor with the even and with the odd ones of eight samples.
#[inline(always)]
fn add_words(sums: EightSums, factor: i32, even: i64x4, odd: i64x4) -> EightSums
    requires fit_sums { AreHalves w64 sums.even sums.odd }
    requires fit { AreHalves w32 even odd }
    ensures evens { result.even ≡ zip2 (λ s x. wrap w64 (s +ℤ (factor *ℤ x))) sums.even even }
    ensures odds { result.odd ≡ zip2 (λ s x. wrap w64 (s +ℤ (factor *ℤ x))) sums.odd odd }
    ensures fit { AreHalves w64 result.even result.odd }
{
    let factors = even_words(i32x8::splat(factor));
    EightSums {
        even: sums.even + factors * even,
        odd: sums.odd + factors * odd,
    }
}

impl RowForm<i32> for EightHalves {
    type Sums = EightSums;

    ghost use Rattle.dsp_defs.specs.Formats.{close};
    ghost use Rattle.dsp_defs.specs.declared.format.Fmt.TheVariants.{Q31};
    ghost use Rattle.dsp_lanes.specs.Pairs.{in_turn};

    ghost size = { 8 };

    ghost width = { w64 };

    ghost lanes = { λ s. in_turn s.even s.odd };

    ghost AreSums = { λ s n. AreHalves w64 s.even s.odd };

    ghost Takes = { λ taps. Unit {0} };

    ghost shut = { close Q31 };

    #[inline(always)]
    fn behind(at: usize) -> usize {
        at + 8
    }

    #[inline(always)]
    fn no_sums() -> EightSums {
        EightSums {
            even: i64x4::splat(0),
            odd: i64x4::splat(0),
        }
    }

    #[inline(always)]
    fn add_tap(sums: EightSums, taps: &[i32], j: usize, window: &[i32], at: usize) -> EightSums {
        q31_fit(taps);
        q31_fit(window);
        let samples = i32x8::from_slice(&window[at..]);
        add_words(sums, taps[j], even_words(samples), odd_words(samples))
    }

    #[inline(always)]
    fn add_pair(sums: EightSums, taps: &[i32], j: usize, window: &[i32], at: usize) -> EightSums {
        q31_fit(taps);
        q31_fit(window);
        let now = i32x8::from_slice(&window[at..]);
        let next = i32x8::from_slice(&window[at + 1..]);
        // The odd words from `at` on are the even ones from `at + 1` on.
        let shared = even_words(next);
        let sums = add_words(sums, taps[j], even_words(now), shared);
        add_words(sums, taps[j + 1], shared, odd_words(next))
    }

    #[inline(always)]
    fn closes(_taps: &[i32], _window: &[i32]) {}

    #[inline(always)]
    fn close(sums: EightSums, out: &mut [i32], at: usize) {
        let sums = sums.even.shuffle(sums.odd, [0, 4, 1, 5, 2, 6, 3, 7]);
        <i32 as LaneKernels<8>>::close_group(sums, out, at)
    }
}

impl DotForm<i32> for EightHalves {
    type Sums = EightSums;

    ghost use Rattle.dsp_lanes.specs.Regrouped.{list_sum};

    ghost size = { 8 };

    ghost width = { w64 };

    ghost value = { λ s. list_sum s.even +ℤ list_sum s.odd };

    ghost AreSums = { λ s. AreHalves w64 s.even s.odd };

    #[inline(always)]
    fn size() -> usize {
        8
    }

    #[inline(always)]
    fn no_sums() -> EightSums {
        EightSums {
            even: i64x4::splat(0),
            odd: i64x4::splat(0),
        }
    }

    #[inline(always)]
    fn add_products(sums: EightSums, taps: &[i32], window: &[i32], at: usize) -> EightSums {
        q31_fit(taps);
        q31_fit(window);
        let t = i32x8::from_slice(&taps[at..]);
        let x = i32x8::from_slice(&window[at..]);
        EightSums {
            even: sums.even + even_words(t) * even_words(x),
            odd: sums.odd + odd_words(t) * odd_words(x),
        }
    }

    #[inline(always)]
    fn total(sums: EightSums) -> i64 {
        (sums.even + sums.odd).reduce_sum()
    }
}
