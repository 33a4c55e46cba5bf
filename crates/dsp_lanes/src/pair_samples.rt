ghost use Rattle.std.specs.Prelude.{◌≡◌, ◌≤◌, ◌*◌, ◌↔◌, IsTrue, length, map, sum, unsigned_abs};
ghost use Rattle.dsp_lanes.specs.Narrow.{IsNarrow};

use crate::fits::{q7_fit, q15_fit};
use crate::pairs::PairSample;
use std::simd::prelude::*;

/// The sum of the magnitudes of a few taps.
fn magnitudes(taps: &[i16]) -> u32
    requires { length taps.now ≤ 64 }
    ensures sum { result ≡ sum (map unsigned_abs taps.now) }
    ensures bound { result ≤ 64 * 32768 }
{
    let mut sum = 0u32;
    for tap in taps {
        sum += u32::from(tap.unsigned_abs());
    }
    sum
}

/// Whether sums of products by these taps stay in 32 bits.
pub(crate) fn is_narrow(taps: &[i16]) -> bool
    ensures { IsTrue result ↔ IsNarrow taps.now }
{
    let mut sum = 0u32;
    for chunk in taps.chunks(64) {
        sum += magnitudes(chunk);
        if sum > 65_535 {
            return false;
        }
    }
    true
}

impl PairSample for i16 {
    ghost use Rattle.dsp_defs.specs.Numbers.{◌>>◌, saturate};
    ghost use Rattle.dsp_lanes.specs.Narrow.{IsNarrow};

    ghost AreSmall = { IsNarrow };

    ghost shut = { λ s. saturate 16 (s >> 15) };

    #[inline(always)]
    fn eight(samples: &[i16], at: usize) -> i32x8 {
        q15_fit(samples);
        i16x8::from_slice(&samples[at..]).cast::<i32>()
    }

    #[inline(always)]
    fn pair(taps: &[i16], j: usize) -> i32x8 {
        q15_fit(taps);
        i16x2::from_slice(&taps[j..])
            .swizzle([0, 1, 0, 1, 0, 1, 0, 1])
            .cast::<i32>()
    }

    #[inline(always)]
    fn closes(_taps: &[i16], window: &[i16]) {
        q15_fit(window);
    }

    #[inline(always)]
    fn close_eight(sums: i32x8, out: &mut [i16], at: usize) {
        (sums >> Simd::splat(15))
            .simd_min(Simd::splat(0x7fff))
            .simd_max(Simd::splat(-0x8000))
            .cast::<i16>()
            .copy_to_slice(&mut out[at..]);
    }
}

impl PairSample for i8 {
    ghost use Rattle.dsp_defs.specs.Numbers.{◌>>◌, saturate};

    ghost AreSmall = { λ taps. Unit {0} };

    ghost shut = { λ s. saturate 8 (s >> 7) };

    #[inline(always)]
    fn eight(samples: &[i8], at: usize) -> i32x8 {
        q7_fit(samples);
        i8x8::from_slice(&samples[at..]).cast::<i32>()
    }

    #[inline(always)]
    fn pair(taps: &[i8], j: usize) -> i32x8 {
        q7_fit(taps);
        i8x2::from_slice(&taps[j..])
            .swizzle([0, 1, 0, 1, 0, 1, 0, 1])
            .cast::<i32>()
    }

    #[inline(always)]
    fn closes(_taps: &[i8], _window: &[i8]) {}

    #[inline(always)]
    fn close_eight(sums: i32x8, out: &mut [i8], at: usize) {
        (sums >> Simd::splat(7))
            .simd_min(Simd::splat(0x7f))
            .simd_max(Simd::splat(-0x80))
            .cast::<i8>()
            .copy_to_slice(&mut out[at..]);
    }
}
