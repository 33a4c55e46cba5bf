//! Numbers of four sections in the lanes of a vector.
ghost use Rattle.std.specs.Prelude.{◌≡◌, ◌≤◌, ◌<◌, ◌∷◌, [], FitsSigned, length};
ghost use Rattle.std.specs.Int.{w64};
ghost use Rattle.std.specs.Simd.Lanes.{Each1};
ghost use Rattle.dsp_defs.specs.Numbers.{floor_shift};
ghost use Rattle.dsp_sections.specs.SectionWaves.{low};

use dsp_sat::low_word;
use std::simd::prelude::*;

/// Numbers of four sections.
#[inline(always)]
pub(crate) fn in_lanes(first: i64, second: i64, third: i64, fourth: i64) -> Simd<i64, 4>
    ensures value { result ≡ first ∷ second ∷ third ∷ fourth ∷ [] }
    ensures fit { Each1 (FitsSigned w64) result }
{
    Simd::from_array([first, second, third, fourth])
}

/// Coefficients of four sections, which have the post shift in them, without it.
#[inline(always)]
pub(crate) fn plain_in_lanes(
    first: i64,
    second: i64,
    third: i64,
    fourth: i64,
    post_shift: u8,
) -> Simd<i64, 4>
    requires { post_shift ≤ 30 }
    ensures value { result ≡ floor_shift first post_shift ∷ floor_shift second post_shift
        ∷ floor_shift third post_shift ∷ floor_shift fourth post_shift ∷ [] }
    ensures fit { Each1 (FitsSigned w64) result }
{
    in_lanes(
        first >> post_shift,
        second >> post_shift,
        third >> post_shift,
        fourth >> post_shift,
    )
}

/// The number in a lane.
#[inline(always)]
pub(crate) fn number_in(lanes: Simd<i64, 4>, lane: usize) -> i64
    requires lanes { (length lanes ≡ 4) × Each1 (FitsSigned w64) lanes }
    requires inside { lane < 4 }
    ensures { result ≡ low lanes lane }
{
    i64::from(low_word(lanes[lane]))
}
