//! Two taps at once, for eight outputs: the even outputs in one vector and the odd ones in another, so
//! that a pair of taps is one multiply-add for each. The sums are of 32 bits.
ghost use Rattle.std.specs.Prelude.{◌≡◌, ◌+◌, ◌≤◌, ◌*ℤ◌, ℕ, ℤ, List, FitsSigned, length, map};
ghost use Rattle.std.specs.Simd.Lanes.{Each1, chunk, put_chunk};
ghost use Rattle.dsp_defs.specs.Numbers.{wrap, w16, w32};
ghost use Rattle.dsp_defs.specs.Formats.{close};
ghost use Rattle.dsp_defs.specs.Signal.{sample, sum_below};
ghost use Rattle.dsp_lanes.specs.Pairs.{four, pair_sum, repeated};

use crate::row_form::RowForm;
use dsp_sat::Sample;
use std::simd::prelude::*;

/// A sample of at most 16 bits. Its products with taps that are small enough add up in 32 bits.
pub(crate) trait PairSample: Sample {
    ghost AreSmall: { List Self → Type 0 };

    ghost shut: { ℤ → ℤ };

    /// Eight samples from `at` on.
    fn eight(samples: &[Self], at: usize) -> i32x8
        requires { at + 8 ≤ length samples.now }
        ensures values { result ≡ chunk at 8 (map Self.number samples.now) }
        ensures fit { Each1 (FitsSigned w16) result };

    /// The taps `j` and `j + 1`, four times.
    fn pair(taps: &[Self], j: usize) -> i32x8
        requires { j + 2 ≤ length taps.now }
        ensures values { result ≡ repeated (sample (map Self.number taps.now) j)
            (sample (map Self.number taps.now) (j + 1)) }
        ensures fit { Each1 (FitsSigned w16) result };

    /// Does nothing: a sum of products by these taps is shut as its exact value is closed.
    fn closes(taps: &[Self], window: &[Self])
        requires { AreSmall taps.now }
        ensures { (p : ℕ)
            → shut (wrap w32 (sum_below (length taps.now) (λ j.
            sample (map Self.number taps.now) j *ℤ sample (map Self.number window.now) (p + j))))
            ≡ close Self.format (sum_below (length taps.now) (λ j.
            sample (map Self.number taps.now) j *ℤ sample (map Self.number window.now) (p + j))) };

    /// Shuts eight sums.
    fn close_eight(sums: i32x8, out: &mut [Self], at: usize)
        requires fit { Each1 (FitsSigned w32) sums }
        requires long { length sums ≡ 8 }
        requires room { at + 8 ≤ length out.old }
        ensures { map Self.number out.new ≡ put_chunk at (map Self.number out.old) (map shut sums) };
}

/// What two taps give to four sums that lie two apart.
#[inline(always)]
pub(crate) fn pair_sums<T: PairSample>(taps: &[T], window: &[T], j: usize, at: usize) -> i32x4
    requires taps { j + 2 ≤ length taps.now }
    requires window { at + 8 ≤ length window.now }
    ensures { result ≡ four (pair_sum (map T.number taps.now) (map T.number window.now) j) at }
{
    let products = T::eight(window, at) * T::pair(taps, j);
    products.swizzle([0, 2, 4, 6]) + products.swizzle([1, 3, 5, 7])
}

/// Eight outputs, two taps at once.
pub(crate) struct Pairs;

/// The sums of eight outputs.
#[derive(Clone, Copy)]
pub(crate) struct PairSums {
    even: i32x4,
    odd: i32x4,
}

impl<T: PairSample> RowForm<T> for Pairs {
    type Sums = PairSums;

    ghost use Rattle.std.specs.Prelude.{◌≡◌, FitsSigned, length};
    ghost use Rattle.std.specs.Simd.Lanes.{Each1};
    ghost use Rattle.dsp_defs.specs.Numbers.{w32};
    ghost use Rattle.dsp_lanes.specs.Pairs.{in_turn};

    ghost size = { 8 };

    ghost width = { w32 };

    ghost lanes = { λ s. in_turn s.even s.odd };

    ghost AreSums = { λ s n. (Each1 (FitsSigned w32) s.even) × (Each1 (FitsSigned w32) s.odd)
        × (length s.even ≡ 4) × (length s.odd ≡ 4) };

    ghost Takes = { T.AreSmall };

    ghost shut = { T.shut };

    #[inline(always)]
    fn behind(at: usize) -> usize {
        at + 8
    }

    #[inline(always)]
    fn no_sums() -> PairSums {
        PairSums {
            even: i32x4::splat(0),
            odd: i32x4::splat(0),
        }
    }

    #[inline(always)]
    fn add_tap(sums: PairSums, taps: &[T], j: usize, window: &[T], at: usize) -> PairSums {
        let products = T::eight(window, at) * i32x8::splat(taps[j].number());
        PairSums {
            even: sums.even + products.swizzle([0, 2, 4, 6]),
            odd: sums.odd + products.swizzle([1, 3, 5, 7]),
        }
    }

    #[inline(always)]
    fn add_pair(sums: PairSums, taps: &[T], j: usize, window: &[T], at: usize) -> PairSums {
        PairSums {
            even: sums.even + pair_sums(taps, window, j, at),
            odd: sums.odd + pair_sums(taps, window, j, at + 1),
        }
    }

    #[inline(always)]
    fn closes(taps: &[T], window: &[T]) {
        T::closes(taps, window)
    }

    #[inline(always)]
    fn close(sums: PairSums, out: &mut [T], at: usize) {
        T::close_eight(
            sums.even.shuffle(sums.odd, [0, 4, 1, 5, 2, 6, 3, 7]),
            out,
            at,
        )
    }
}
