//! Products of 16 bits added in pairs in 32-bit sums, which are exact where the taps are narrow.
use crate::dot_form::DotForm;
use crate::fits::q15_fit;
use std::simd::prelude::*;

/// Eight products.
pub(crate) struct NarrowDots;

impl DotForm<i16> for NarrowDots {
    type Sums = i32x4;

    ghost use Rattle.std.specs.Prelude.{◌≡◌, FitsSigned, length};
    ghost use Rattle.std.specs.Simd.Lanes.{Each1};
    ghost use Rattle.dsp_defs.specs.Numbers.{w32};
    ghost use Rattle.dsp_lanes.specs.Regrouped.{list_sum};

    ghost size = { 8 };

    ghost width = { w32 };

    ghost value = { list_sum };

    ghost AreSums = { λ s. (Each1 (FitsSigned w32) s) × (length s ≡ 4) };

    #[inline(always)]
    fn size() -> usize {
        8
    }

    #[inline(always)]
    fn no_sums() -> i32x4 {
        i32x4::splat(0)
    }

    #[inline(always)]
    fn add_products(sums: i32x4, taps: &[i16], window: &[i16], at: usize) -> i32x4 {
        q15_fit(taps);
        q15_fit(window);
        let t = i16x8::from_slice(&taps[at..]).cast::<i32>();
        let x = i16x8::from_slice(&window[at..]).cast::<i32>();
        let products = t * x;
        sums + (products.swizzle([0, 2, 4, 6]) + products.swizzle([1, 3, 5, 7]))
    }

    #[inline(always)]
    fn total(sums: i32x4) -> i64 {
        i64::from(sums.reduce_sum())
    }
}
