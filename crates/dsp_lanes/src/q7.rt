use crate::dots::dot_groups;
use crate::eights::{double_group_of_eights, group_of_eights};
use crate::fits::{q7_fit, q31_fit};
use crate::four_dots::{Four, four_sums};
use crate::kernels::{FilterKernels, LaneKernels};
use crate::pairs::Pairs;
use crate::plain::Plain;
use crate::scales::scale_groups;
use dsp_defs::Steps;
use std::simd::prelude::*;
use std::sync::ledger::Ledger;

impl<const L: usize> LaneKernels<L> for i8 {
    type Sums = Simd<i32, L>;

    ghost use Rattle.std.specs.Prelude.{FitsSigned};
    ghost use Rattle.std.specs.Simd.Lanes.{Each1};
    ghost use Rattle.std.specs.Int.{w32};

    ghost lanes = { λ sums. sums };

    ghost AreSums = { λ sums. Each1 (FitsSigned w32) sums };

    #[inline(always)]
    fn no_sums() -> Simd<i32, L> {
        Simd::splat(0)
    }

    #[inline(always)]
    fn add_products(sums: Simd<i32, L>, taps: &[i8], window: &[i8], at: usize) -> Simd<i32, L> {
        q7_fit(taps);
        q7_fit(window);
        let t = Simd::<i8, L>::from_slice(&taps[at..]).cast::<i32>();
        let x = Simd::<i8, L>::from_slice(&window[at..]).cast::<i32>();
        sums + t * x
    }

    #[inline(always)]
    fn add_multiples(sums: Simd<i32, L>, tap: i8, window: &[i8], at: usize) -> Simd<i32, L> {
        q7_fit(window);
        let t = Simd::<i8, L>::splat(tap).cast::<i32>();
        let x = Simd::<i8, L>::from_slice(&window[at..]).cast::<i32>();
        sums + t * x
    }

    #[inline(always)]
    fn sum_lanes(sums: Simd<i32, L>) -> i32 {
        sums.reduce_sum()
    }

    #[inline(always)]
    fn close_group(sums: Simd<i32, L>, out: &mut [i8], at: usize) {
        (sums >> Simd::splat(7))
            .simd_min(Simd::splat(0x7f))
            .simd_max(Simd::splat(-0x80))
            .cast::<i8>()
            .copy_to_slice(&mut out[at..]);
    }

    #[inline(always)]
    fn mult_group(a: &[i8], b: &[i8], out: &mut [i8], at: usize) {
        q7_fit(a);
        q7_fit(b);
        let x = Simd::<i8, L>::from_slice(&a[at..]).cast::<i16>();
        let y = Simd::<i8, L>::from_slice(&b[at..]).cast::<i16>();
        ((x * y) >> Simd::splat(7))
            .simd_min(Simd::splat(0x7f))
            .simd_max(Simd::splat(-0x80))
            .cast::<i8>()
            .copy_to_slice(&mut out[at..]);
    }

    #[inline(always)]
    fn scale_group(a: &[i8], factor: i8, places: i32, out: &mut [i8], at: usize) {
        q7_fit(a);
        let x = Simd::<i8, L>::from_slice(&a[at..]).cast::<i16>();
        let f = Simd::<i8, L>::splat(factor).cast::<i16>();
        let amount = (7 - places) as i16;
        ((x * f) >> Simd::splat(amount))
            .simd_min(Simd::splat(0x7f))
            .simd_max(Simd::splat(-0x80))
            .cast::<i8>()
            .copy_to_slice(&mut out[at..]);
    }

    #[inline(always)]
    fn delay_group(tap: i8, window: &[i8], sums: &mut [i32], at: usize) {
        q7_fit(window);
        q31_fit(sums);
        let t = Simd::<i8, L>::splat(tap).cast::<i32>();
        let x = Simd::<i8, L>::from_slice(&window[at..]).cast::<i32>();
        let s = Simd::<i32, L>::from_slice(&sums[at..]);
        (s + t * x).copy_to_slice(&mut sums[at..]);
    }

    #[inline(always)]
    fn mac_group(tap: i8, row: &[i8], sums: &mut [i32], at: usize) {
        q7_fit(row);
        q31_fit(sums);
        let t = Simd::<i8, L>::splat(tap).cast::<i32>();
        let x = Simd::<i8, L>::from_slice(&row[at..]).cast::<i32>();
        let s = Simd::<i32, L>::from_slice(&sums[at..]);
        (s + t * x).copy_to_slice(&mut sums[at..]);
    }
}

impl<const L: usize> FilterKernels<L> for i8 {
    ghost AreSmall = { λ _. Unit {0} };

    #[inline(always)]
    fn scale_double(a: &[i8], factor: i8, places: i32, out: &mut [i8], at: usize) {
        scale_groups::<i8, L>(a, factor, places, out, at)
    }

    #[inline(always)]
    fn are_small(_taps: &[i8]) -> bool {
        true
    }

    #[inline(always)]
    fn row_group<M: Ledger>(
        taps: &[i8],
        window: &[i8],
        small: bool,
        out: &mut [i8],
        at: usize,
        steps: &mut Steps<M>,
    ) {
        group_of_eights::<i8, Pairs, L, M>(taps, window, out, at, steps)
    }

    #[inline(always)]
    fn double_group<M: Ledger>(
        taps: &[i8],
        window: &[i8],
        small: bool,
        out: &mut [i8],
        at: usize,
        steps: &mut Steps<M>,
    ) {
        double_group_of_eights::<i8, Pairs, L, M>(taps, window, out, at, steps)
    }

    #[inline(always)]
    fn four_dots<M: Ledger>(
        taps: &[i8],
        window: &[i8],
        first: usize,
        step: usize,
        small: bool,
        steps: &mut Steps<M>,
    ) -> Four<i32> {
        four_sums::<i8, Plain<L>, M>(taps, window, first, step, steps)
    }

    #[inline(always)]
    fn dot<M: Ledger>(taps: &[i8], window: &[i8], steps: &mut Steps<M>) -> i32 {
        dot_groups::<i8, Plain<L>, M>(taps, window, steps)
    }
}
