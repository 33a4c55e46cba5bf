use crate::dots::dot_groups;
use crate::doubled::Doubled;
use crate::eights::{double_group_of_eights, group_of_eights};
use crate::fits::{q15_fit, q31_fit, sums_64_fit};
use crate::four_dots::{Four, four_sums};
use crate::high_pairs::HighPairs;
use crate::kernels::{FilterKernels, LaneKernels};
use crate::narrow_dots::NarrowDots;
use crate::pair_dots::PairDots;
use crate::pair_samples::is_narrow;
use crate::pairs::Pairs;
use crate::plain::Plain;
use crate::rows::row_group;
use crate::scales::scale_groups;
use dsp_defs::{MAX_TAPS, Steps};
use dsp_sat::low_word;
use std::simd::prelude::*;
use std::sync::ledger::Ledger;

/// Sums of two parts hold the products of as many taps as a filter may have.
const _: () = prove!(MAX_TAPS < 0x8000);

impl<const L: usize> LaneKernels<L> for i16 {
    type Sums = Simd<i64, L>;

    ghost use Rattle.std.specs.Prelude.{FitsSigned};
    ghost use Rattle.std.specs.Simd.Lanes.{Each1};
    ghost use Rattle.std.specs.Int.{w64};

    ghost lanes = { λ sums. sums };

    ghost AreSums = { λ sums. Each1 (FitsSigned w64) sums };

    #[inline(always)]
    fn no_sums() -> Simd<i64, L> {
        Simd::splat(0)
    }

    #[inline(always)]
    fn add_products(sums: Simd<i64, L>, taps: &[i16], window: &[i16], at: usize) -> Simd<i64, L> {
        q15_fit(taps);
        q15_fit(window);
        let t = Simd::<i16, L>::from_slice(&taps[at..]).cast::<i64>();
        let x = Simd::<i16, L>::from_slice(&window[at..]).cast::<i64>();
        sums + t * x
    }

    #[inline(always)]
    fn add_multiples(sums: Simd<i64, L>, tap: i16, window: &[i16], at: usize) -> Simd<i64, L> {
        q15_fit(window);
        let t = Simd::<i16, L>::splat(tap).cast::<i64>();
        let x = Simd::<i16, L>::from_slice(&window[at..]).cast::<i64>();
        sums + t * x
    }

    #[inline(always)]
    fn sum_lanes(sums: Simd<i64, L>) -> i64 {
        sums.reduce_sum()
    }

    #[inline(always)]
    fn close_group(sums: Simd<i64, L>, out: &mut [i16], at: usize) {
        (sums >> Simd::splat(15))
            .simd_min(Simd::splat(0x7fff))
            .simd_max(Simd::splat(-0x8000))
            .cast::<i16>()
            .copy_to_slice(&mut out[at..]);
    }

    #[inline(always)]
    fn mult_group(a: &[i16], b: &[i16], out: &mut [i16], at: usize) {
        q15_fit(a);
        q15_fit(b);
        let x = Simd::<i16, L>::from_slice(&a[at..]).cast::<i32>();
        let y = Simd::<i16, L>::from_slice(&b[at..]).cast::<i32>();
        ((x * y) >> Simd::splat(15))
            .simd_min(Simd::splat(0x7fff))
            .simd_max(Simd::splat(-0x8000))
            .cast::<i16>()
            .copy_to_slice(&mut out[at..]);
    }

    #[inline(always)]
    fn scale_group(a: &[i16], factor: i16, places: i32, out: &mut [i16], at: usize) {
        q15_fit(a);
        let x = Simd::<i16, L>::from_slice(&a[at..]).cast::<i32>();
        let f = Simd::<i16, L>::splat(factor).cast::<i32>();
        ((x * f) >> Simd::splat(15 - places))
            .simd_min(Simd::splat(0x7fff))
            .simd_max(Simd::splat(-0x8000))
            .cast::<i16>()
            .copy_to_slice(&mut out[at..]);
    }

    #[inline(always)]
    fn delay_group(tap: i16, window: &[i16], sums: &mut [i32], at: usize) {
        q15_fit(window);
        q31_fit(sums);
        let t = Simd::<i16, L>::splat(tap).cast::<i32>();
        let x = Simd::<i16, L>::from_slice(&window[at..]).cast::<i32>();
        let s = Simd::<i32, L>::from_slice(&sums[at..]);
        (s + t * x).copy_to_slice(&mut sums[at..]);
    }

    #[inline(always)]
    fn mac_group(tap: i16, row: &[i16], sums: &mut [i64], at: usize) {
        q15_fit(row);
        sums_64_fit(sums);
        let t = Simd::<i16, L>::splat(tap).cast::<i64>();
        let x = Simd::<i16, L>::from_slice(&row[at..]).cast::<i64>();
        let s = Simd::<i64, L>::from_slice(&sums[at..]);
        (s + t * x).copy_to_slice(&mut sums[at..]);
    }
}

impl<const L: usize> FilterKernels<L> for i16 {
    ghost use Rattle.dsp_lanes.specs.Narrow.{IsNarrow};

    ghost AreSmall = { IsNarrow };

    #[inline(always)]
    fn scale_double(a: &[i16], factor: i16, places: i32, out: &mut [i16], at: usize) {
        scale_groups::<i16, L>(a, factor, places, out, at)
    }

    #[inline(always)]
    fn are_small(taps: &[i16]) -> bool {
        is_narrow(taps)
    }

    #[inline(always)]
    fn row_group<M: Ledger>(
        taps: &[i16],
        window: &[i16],
        small: bool,
        out: &mut [i16],
        at: usize,
        steps: &mut Steps<M>,
    ) {
        if small {
            group_of_eights::<i16, Pairs, L, M>(taps, window, out, at, steps)
        } else if taps.len() < 0x8000 {
            group_of_eights::<i16, HighPairs, L, M>(taps, window, out, at, steps)
        } else {
            row_group::<i16, Plain<L>, M>(taps, window, out, at, steps)
        }
    }

    #[inline(always)]
    fn double_group<M: Ledger>(
        taps: &[i16],
        window: &[i16],
        small: bool,
        out: &mut [i16],
        at: usize,
        steps: &mut Steps<M>,
    ) {
        if small {
            double_group_of_eights::<i16, Pairs, L, M>(taps, window, out, at, steps)
        } else if taps.len() < 0x8000 {
            double_group_of_eights::<i16, HighPairs, L, M>(taps, window, out, at, steps)
        } else {
            row_group::<i16, Doubled<Plain<L>>, M>(taps, window, out, at, steps)
        }
    }

    #[inline(always)]
    fn four_dots<M: Ledger>(
        taps: &[i16],
        window: &[i16],
        first: usize,
        step: usize,
        small: bool,
        steps: &mut Steps<M>,
    ) -> Four<i64> {
        if L != 8 {
            four_sums::<i16, Plain<L>, M>(taps, window, first, step, steps)
        } else if small {
            q15_fit(window);
            let sums = four_sums::<i16, NarrowDots, M>(taps, window, first, step, steps);
            Four {
                first: i64::from(low_word(sums.first)),
                second: i64::from(low_word(sums.second)),
                third: i64::from(low_word(sums.third)),
                fourth: i64::from(low_word(sums.fourth)),
            }
        } else {
            four_sums::<i16, PairDots, M>(taps, window, first, step, steps)
        }
    }

    #[inline(always)]
    fn dot<M: Ledger>(taps: &[i16], window: &[i16], steps: &mut Steps<M>) -> i64 {
        if L == 8 {
            dot_groups::<i16, PairDots, M>(taps, window, steps)
        } else {
            dot_groups::<i16, Plain<L>, M>(taps, window, steps)
        }
    }
}
