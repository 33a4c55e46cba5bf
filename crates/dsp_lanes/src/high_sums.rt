//! Four sums of products of 16 bits in two parts of 32 bits, which are exact for less than 2^15 products each.
ghost use Rattle.std.specs.Prelude.{◌≡◌, ◌+ℤ◌, ℕ, FitsSigned, length, map, negsuc, pos, replicate};
ghost use Rattle.std.specs.Simd.Lanes.{Each1, zip2};
ghost use Rattle.dsp_defs.specs.Numbers.{floor_shift, wrap, w32};
ghost use Rattle.dsp_lanes.specs.HighSums.{AreHighSums, wholes};

use std::simd::prelude::*;

/// The sums, wrapped to 32 bits, and the sums of the high halves of all that was added, less 1: two products
/// come to at most 2^31, which is one more than a lane holds. What a sum has beyond its high half is at
/// most 2^16 for each number that was added.
#[derive(Clone, Copy)]
pub(crate) struct HighSums {
    pub low: i32x4,
    pub high: i32x4,
}

/// Empty sums.
#[inline(always)]
pub(crate) fn no_high_sums() -> HighSums
    ensures low { result.low ≡ replicate 4 (pos 0) }
    ensures high { result.high ≡ replicate 4 (pos 0) }
{
    HighSums {
        low: i32x4::splat(0),
        high: i32x4::splat(0),
    }
}

/// Adds a number to each of the sums.
#[inline(always)]
pub(crate) fn raise(sums: HighSums, more: i32x4) -> HighSums
    requires low { Each1 (FitsSigned w32) sums.low }
    requires high { Each1 (FitsSigned w32) sums.high }
    requires more { Each1 (FitsSigned w32) more }
    requires long { length more ≡ 4 }
    ensures low { result.low ≡ zip2 (λ s p. wrap w32 (s +ℤ p)) sums.low more }
    ensures high { result.high ≡ zip2 (λ s p.
        wrap w32 (s +ℤ floor_shift (wrap w32 (p +ℤ negsuc 0)) 16)) sums.high more }
{
    HighSums {
        low: sums.low + more,
        high: sums.high + ((more + i32x4::splat(-1)) >> i32x4::splat(16)),
    }
}

/// The sums, shifted by 15 places.
#[inline(always)]
pub(crate) fn shifted(sums: HighSums) -> i32x4
    requires { (n : ℕ) × AreHighSums n sums.low sums.high }
    ensures sums { result ≡ map (λ s. floor_shift s 15) (wholes sums.low sums.high) }
    ensures fit { Each1 (FitsSigned w32) result }
{
    let rest = sums.low - (sums.high << i32x4::splat(16));
    sums.high + sums.high + (rest >> i32x4::splat(15))
}
