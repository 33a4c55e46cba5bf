ghost use Rattle.std.specs.Prelude.{◌≡◌, ◌≤◌, true};
ghost use Rattle.dsp_lanes.specs.Turns.{lane_turns};

use crate::dots::dot_groups;
use crate::doubled::Doubled;
use crate::fits::{q31_fit, sums_64_fit};
use crate::four_dots::{Four, four_by_twos, four_sums};
use crate::halves::EightHalves;
use crate::kernels::{FilterKernels, LaneKernels};
use crate::plain::Plain;
use crate::rows::row_group;
use crate::scales::{moved, scale_eight, scale_groups};
use dsp_defs::Steps;
use std::simd::prelude::*;
use std::sync::ledger::Ledger;

/// Whether sums of so many products go by eights: where these and their rest take no more turns than
/// groups of four and theirs.
#[inline(always)]
fn go_by_eights(count: usize) -> bool
    ensures { result ≡ true → lane_turns 8 count ≤ lane_turns 4 count }
{
    count % 8 < 4 || count >= 32
}

impl<const L: usize> LaneKernels<L> for i32 {
    type Sums = Simd<i64, L>;

    ghost use Rattle.std.specs.Prelude.{FitsSigned};
    ghost use Rattle.std.specs.Simd.Lanes.{Each1};
    ghost use Rattle.std.specs.Int.{w64};

    ghost lanes = { λ sums. sums };

    ghost AreSums = { λ sums. Each1 (FitsSigned w64) sums };

    #[inline(always)]
    fn no_sums() -> Simd<i64, L> {
        Simd::splat(0)
    }

    #[inline(always)]
    fn add_products(sums: Simd<i64, L>, taps: &[i32], window: &[i32], at: usize) -> Simd<i64, L> {
        q31_fit(taps);
        q31_fit(window);
        let t = Simd::<i32, L>::from_slice(&taps[at..]).cast::<i64>();
        let x = Simd::<i32, L>::from_slice(&window[at..]).cast::<i64>();
        sums + t * x
    }

    #[inline(always)]
    fn add_multiples(sums: Simd<i64, L>, tap: i32, window: &[i32], at: usize) -> Simd<i64, L> {
        q31_fit(window);
        let t = Simd::<i32, L>::splat(tap).cast::<i64>();
        let x = Simd::<i32, L>::from_slice(&window[at..]).cast::<i64>();
        sums + t * x
    }

    #[inline(always)]
    fn sum_lanes(sums: Simd<i64, L>) -> i64 {
        sums.reduce_sum()
    }

    #[inline(always)]
    fn close_group(sums: Simd<i64, L>, out: &mut [i32], at: usize) {
        let high = sums >> Simd::splat(31);
        ((high << Simd::splat(32)) >> Simd::splat(32))
            .cast::<i32>()
            .copy_to_slice(&mut out[at..]);
    }

    #[inline(always)]
    fn mult_group(a: &[i32], b: &[i32], out: &mut [i32], at: usize) {
        q31_fit(a);
        q31_fit(b);
        let x = Simd::<i32, L>::from_slice(&a[at..]).cast::<i64>();
        let y = Simd::<i32, L>::from_slice(&b[at..]).cast::<i64>();
        let high = ((x * y) >> Simd::splat(32)).cast::<i32>();
        let half = high
            .simd_min(Simd::splat(0x3fff_ffff))
            .simd_max(Simd::splat(-0x4000_0000));
        (half + half).copy_to_slice(&mut out[at..]);
    }

    #[inline(always)]
    fn scale_group(a: &[i32], factor: i32, places: i32, out: &mut [i32], at: usize) {
        q31_fit(a);
        let x = Simd::<i32, L>::from_slice(&a[at..]).cast::<i64>();
        let f = Simd::<i32, L>::splat(factor).cast::<i64>();
        let high = ((x * f) >> Simd::splat(32)).cast::<i32>();
        moved(high, places + 1).copy_to_slice(&mut out[at..]);
    }

    #[inline(always)]
    fn delay_group(tap: i32, window: &[i32], sums: &mut [i32], at: usize) {
        q31_fit(window);
        q31_fit(sums);
        let t = Simd::<i32, L>::splat(tap).cast::<i64>();
        let x = Simd::<i32, L>::from_slice(&window[at..]).cast::<i64>();
        let terms = ((t * x) >> Simd::splat(32)).cast::<i32>();
        let s = Simd::<i32, L>::from_slice(&sums[at..]);
        (s + terms).copy_to_slice(&mut sums[at..]);
    }

    #[inline(always)]
    fn mac_group(tap: i32, row: &[i32], sums: &mut [i64], at: usize) {
        q31_fit(row);
        sums_64_fit(sums);
        let t = Simd::<i32, L>::splat(tap).cast::<i64>();
        let x = Simd::<i32, L>::from_slice(&row[at..]).cast::<i64>();
        let s = Simd::<i64, L>::from_slice(&sums[at..]);
        (s + t * x).copy_to_slice(&mut sums[at..]);
    }
}

impl<const L: usize> FilterKernels<L> for i32 {
    ghost AreSmall = { λ _. Unit {0} };

    #[inline(always)]
    fn scale_double(a: &[i32], factor: i32, places: i32, out: &mut [i32], at: usize) {
        if L == 4 {
            scale_eight(a, factor, places, out, at)
        } else {
            scale_groups::<i32, L>(a, factor, places, out, at)
        }
    }

    #[inline(always)]
    fn are_small(_taps: &[i32]) -> bool {
        true
    }

    #[inline(always)]
    fn row_group<M: Ledger>(
        taps: &[i32],
        window: &[i32],
        small: bool,
        out: &mut [i32],
        at: usize,
        steps: &mut Steps<M>,
    ) {
        row_group::<i32, Plain<L>, M>(taps, window, out, at, steps)
    }

    #[inline(always)]
    fn double_group<M: Ledger>(
        taps: &[i32],
        window: &[i32],
        small: bool,
        out: &mut [i32],
        at: usize,
        steps: &mut Steps<M>,
    ) {
        if L == 4 {
            row_group::<i32, EightHalves, M>(taps, window, out, at, steps)
        } else {
            row_group::<i32, Doubled<Plain<L>>, M>(taps, window, out, at, steps)
        }
    }

    #[inline(always)]
    fn quad_group<M: Ledger>(
        taps: &[i32],
        window: &[i32],
        small: bool,
        out: &mut [i32],
        at: usize,
        steps: &mut Steps<M>,
    ) {
        if L == 4 {
            row_group::<i32, Doubled<EightHalves>, M>(taps, window, out, at, steps)
        } else {
            <i32 as FilterKernels<L>>::double_group(taps, window, small, out, at, steps);
            <i32 as FilterKernels<L>>::double_group(taps, window, small, out, at + 2 * L, steps);
        }
    }

    #[inline(always)]
    fn four_dots<M: Ledger>(
        taps: &[i32],
        window: &[i32],
        first: usize,
        step: usize,
        small: bool,
        steps: &mut Steps<M>,
    ) -> Four<i64> {
        if L == 4 && go_by_eights(taps.len()) {
            four_by_twos::<i32, EightHalves, M>(taps, window, first, step, steps)
        } else {
            four_sums::<i32, Plain<L>, M>(taps, window, first, step, steps)
        }
    }

    #[inline(always)]
    fn dot<M: Ledger>(taps: &[i32], window: &[i32], steps: &mut Steps<M>) -> i64 {
        if L == 4 && go_by_eights(taps.len()) {
            dot_groups::<i32, EightHalves, M>(taps, window, steps)
        } else {
            dot_groups::<i32, Plain<L>, M>(taps, window, steps)
        }
    }
}
