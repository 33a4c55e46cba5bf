use crate::fits::q15_fit;
use crate::high_sums::{HighSums, no_high_sums, raise, shifted};
use crate::pairs::pair_sums;
use crate::row_form::RowForm;
use std::simd::prelude::*;

/// Eight outputs of less than 2^15 taps of 16 bits, two taps at once, in sums of two parts.
pub(crate) struct HighPairs;

/// The sums of eight outputs, the even ones and the odd ones.
#[derive(Clone, Copy)]
pub(crate) struct HighRows {
    even: HighSums,
    odd: HighSums,
}

impl RowForm<i16> for HighPairs {
    type Sums = HighRows;

    ghost use Rattle.std.specs.Prelude.{◌≡◌, ◌<◌, length};
    ghost use Rattle.dsp_defs.specs.Numbers.{w64};
    ghost use Rattle.dsp_defs.specs.Formats.{close};
    ghost use Rattle.dsp_defs.specs.declared.format.Fmt.TheVariants.{Q15};
    ghost use Rattle.dsp_lanes.specs.HighSums.{AreHighSums, wholes};
    ghost use Rattle.dsp_lanes.specs.Pairs.{in_turn};

    ghost size = { 8 };

    ghost width = { w64 };

    ghost lanes = { λ s. in_turn (wholes s.even.low s.even.high) (wholes s.odd.low s.odd.high) };

    ghost AreSums = { λ s n. (AreHighSums n s.even.low s.even.high)
        × (AreHighSums n s.odd.low s.odd.high) };

    ghost Takes = { λ taps. length taps < 32768 };

    ghost shut = { close Q15 };

    #[inline(always)]
    fn behind(at: usize) -> usize {
        at + 8
    }

    #[inline(always)]
    fn no_sums() -> HighRows {
        HighRows {
            even: no_high_sums(),
            odd: no_high_sums(),
        }
    }

    #[inline(always)]
    fn add_tap(sums: HighRows, taps: &[i16], j: usize, window: &[i16], at: usize) -> HighRows {
        q15_fit(taps);
        q15_fit(window);
        let tap = i16x8::splat(taps[j]).cast::<i32>();
        let products = tap * i16x8::from_slice(&window[at..]).cast::<i32>();
        HighRows {
            even: raise(sums.even, products.swizzle([0, 2, 4, 6])),
            odd: raise(sums.odd, products.swizzle([1, 3, 5, 7])),
        }
    }

    #[inline(always)]
    fn add_pair(sums: HighRows, taps: &[i16], j: usize, window: &[i16], at: usize) -> HighRows {
        q15_fit(taps);
        q15_fit(window);
        HighRows {
            even: raise(sums.even, pair_sums(taps, window, j, at)),
            odd: raise(sums.odd, pair_sums(taps, window, j, at + 1)),
        }
    }

    #[inline(always)]
    fn closes(_taps: &[i16], _window: &[i16]) {}

    #[inline(always)]
    fn close(sums: HighRows, out: &mut [i16], at: usize) {
        shifted(sums.even)
            .shuffle(shifted(sums.odd), [0, 4, 1, 5, 2, 6, 3, 7])
            .simd_min(Simd::splat(0x7fff))
            .simd_max(Simd::splat(-0x8000))
            .cast::<i16>()
            .copy_to_slice(&mut out[at..]);
    }
}
