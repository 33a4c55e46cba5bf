//! Products of 16 bits added in pairs, one multiply-add each, in 64-bit sums that are exact for any taps.
use crate::dot_form::DotForm;
use crate::fits::q15_fit;
use std::simd::prelude::*;

/// Eight products.
pub struct PairDots;

/// Sums of pairs of products, each pair less 1: two products come to at most 2^31, which is one more
/// than a lane of 32 bits holds. And how many pairs there are.
#[derive(Clone, Copy)]
pub struct DotSums {
    less: i64x4,
    pairs: i64,
}

impl DotForm<i16> for PairDots {
    type Sums = DotSums;

    ghost use Rattle.std.specs.Prelude.{◌≡◌, ◌+ℤ◌, FitsSigned, length};
    ghost use Rattle.std.specs.Simd.Lanes.{Each1};
    ghost use Rattle.dsp_defs.specs.Numbers.{w64};
    ghost use Rattle.dsp_lanes.specs.Regrouped.{list_sum};

    ghost size = { 8 };

    ghost width = { w64 };

    ghost value = { λ s. list_sum s.less +ℤ s.pairs };

    ghost AreSums = { λ s. (Each1 (FitsSigned w64) s.less) × (length s.less ≡ 4)
        × (FitsSigned w64 s.pairs) };

    #[inline(always)]
    fn size() -> usize {
        8
    }

    #[inline(always)]
    fn no_sums() -> DotSums {
        DotSums {
            less: i64x4::splat(0),
            pairs: 0,
        }
    }

    #[inline(always)]
    fn add_products(sums: DotSums, taps: &[i16], window: &[i16], at: usize) -> DotSums {
        q15_fit(taps);
        q15_fit(window);
        let t = i16x8::from_slice(&taps[at..]).cast::<i32>();
        let x = i16x8::from_slice(&window[at..]).cast::<i32>();
        let products = t * x;
        let pairs = products.swizzle([0, 2, 4, 6]) + products.swizzle([1, 3, 5, 7]);
        DotSums {
            less: sums.less + (pairs + i32x4::splat(-1)).cast::<i64>(),
            pairs: sums.pairs.wrapping_add(4),
        }
    }

    #[inline(always)]
    fn total(sums: DotSums) -> i64 {
        sums.less.reduce_sum().wrapping_add(sums.pairs)
    }
}
