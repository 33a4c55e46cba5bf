//! Chains, their measures, their frames, their cost and their unit.

ghost use Rattle.std.specs.Prelude.{◌≡◌, [], ◌∷◌, pos, true, false, Some, None, replicate};
ghost use Rattle.dsp_defs.specs.Numbers.{neg};
ghost use Rattle.dsp_defs.specs.Block.{frames_in};
ghost use Rattle.dsp_defs.specs.Measure.{measures};
ghost use Rattle.dsp_defs.specs.Shape.{whole_unit, unit, default_block, is_legal, frames_given};
ghost use Rattle.dsp_defs.specs.Shape.{frames_behind, whole_frames, gathered, held, window_at, rate_after};
ghost use Rattle.dsp_defs.specs.Shape.{gcd};
ghost use Rattle.dsp_defs.specs.Cost.{cost, live_cost, rest, block_rest, turns};
ghost use Rattle.dsp_theorems.specs.Given.{given_by_chain, live_by_chain};

use dsp_defs::{Block, Fmt, Measure};

const HALF: [i16; 1] = [16384];

const HALVES: [i16; 2] = [16384, 16384];

const EIGHT: [i16; 8] = [1, 2, 3, 4, 4, 3, 2, 1];

const FOUR: [i16; 4] = [4096, 8192, 8192, 4096];

const TWO_SECTIONS: [i16; 12] = [16384, 0, 0, 0, 16384, 0, 16384, 0, 0, 0, 0, 0];

pub fn values_of_chains()
    ensures route_and_add { given_by_chain Fmt.Q15 1 (Block.Route (pos 0 ∷ pos 0 ∷ []) ∷ Block.Add ∷ [])
        (pos 20000 ∷ []) ≡ pos 32767 ∷ [] }
    ensures route_and_sub { given_by_chain Fmt.Q31 1
        (Block.To Fmt.Q15 ∷ Block.Route (pos 0 ∷ pos 0 ∷ []) ∷ Block.Sub ∷ []) (pos 65536 ∷ neg 1 ∷ []) ≡ pos
        0 ∷ pos 0 ∷ [] }
    ensures tail_through_a_tail { given_by_chain Fmt.Q15 1 (Block.Conv HALVES ∷ Block.Conv HALVES ∷ [])
        (pos 4 ∷ pos 8 ∷ []) ≡ pos 1 ∷ pos 4 ∷ pos 5 ∷ pos 2 ∷ [] }
    ensures two_sections { given_by_chain Fmt.Q15 2 (Block.Biquad 0 TWO_SECTIONS ∷ [])
        (pos 1000 ∷ neg 1000 ∷ pos 0 ∷ pos 0 ∷ []) ≡ pos 250 ∷ neg 250 ∷ pos 125 ∷ neg 125 ∷ [] }
{}

pub fn measures_of_a_chain()
    ensures { measures Fmt.Q15 1 1 (Block.Power ∷ Block.Max ∷ []) (frames_in 1 (pos 3 ∷ neg 4 ∷ [])) ≡
        Measure.Power 1 0 (pos 25) ∷ Measure.Max 2 0 (Some (pos 3, 0)) ∷ [] }
{}

// `conv` has given as many values as it took, `conv_partial` those of its window among them, and `correlate` none.
pub fn live_values_of_tails()
    ensures conv { live_by_chain Fmt.Q15 1 (Block.Conv HALVES ∷ []) (pos 2 ∷ pos 4 ∷ []) ≡ pos 1 ∷ pos 3 ∷ [] }
    ensures conv_partial { live_by_chain Fmt.Q15 1 (Block.ConvPartial 1 2 HALVES ∷ []) (pos 2 ∷ pos 4 ∷ []) ≡
        pos 3 ∷ [] }
    ensures correlate { live_by_chain Fmt.Q15 1 (Block.Correlate HALF ∷ []) (pos 2 ∷ pos 4 ∷ []) ≡ [] }
{}

pub fn frames()
    ensures conv { frames_given (Block.Conv HALVES ∷ Block.Decimate 2 HALF ∷ []) 4 ≡ 2 }
    ensures window_by_the_table { frames_given (Block.ConvPartial 2 3 HALVES ∷ []) 2 ≡ 3 }
    ensures window_of_nothing { frames_given (Block.ConvPartial 2 3 HALVES ∷ []) 0 ≡ 3 }
    ensures window_that_is_there { frames_behind whole_frames (Block.ConvPartial 2 3 HALVES ∷ []) 2 ≡ 1 }
    ensures window_past_the_end { window_at (Block.ConvPartial 2 3 HALVES ∷ []) 2 ≡ Some (5, 3) }
    ensures window_inside { window_at (Block.ConvPartial 1 2 HALVES ∷ []) 2 ≡ None }
    ensures gathered { gathered (Block.Conv HALVES ∷ Block.Correlate HALF ∷ []) 4 ≡ 5 }
    ensures held { held (Block.Conv HALVES ∷ Block.Correlate HALF ∷ []) 4 ≡ 4 }
    ensures rate { rate_after (rate_after 4000000000 (Block.Interpolate 2 HALVES)) (Block.Decimate 2 HALF) ≡
        2147483647 }
{}

pub fn units()
    ensures decimator { whole_unit (Block.Decimate 3 HALF ∷ []) ≡ 3 }
    ensures decimator_behind_an_interpolator { whole_unit
        (Block.Interpolate 2 HALVES ∷ Block.Decimate 4 HALF ∷ []) ≡ 2 }
    ensures matrix_behind_a_decimator { whole_unit (Block.Decimate 2 HALF ∷ Block.MatTrans 2 3 ∷ []) ≡ 12 }
    ensures divisor { gcd 12 18 ≡ 6 }
    ensures too_long { unit 1 (replicate 64 (Block.Decimate 255 HALF)) ≡ 0 }
    ensures too_many_samples { unit 16 (Block.Interpolate 255 HALF ∷ Block.Interpolate 255 HALF ∷
        Block.Interpolate 255 HALF ∷ []) ≡ 0 }
{}

pub fn block_lengths()
    ensures default { default_block 1 [] ≡ 256 }
    ensures default_is_a_multiple { default_block 1 (Block.Decimate 3 HALF ∷ []) ≡ 258 }
    ensures legal { is_legal 1 (Block.Decimate 2 HALF ∷ []) 4 ≡ true }
    ensures part_of_a_group { is_legal 1 (Block.Decimate 2 HALF ∷ []) 5 ≡ false }
    ensures longest { is_legal 16 [] 65536 ≡ true }
    ensures too_long { is_legal 1 [] 65537 ≡ false }
{}

pub fn costs()
    ensures fir { cost Fmt.Q15 1 (Block.Fir HALF ∷ []) 3 ≡ 3 }
    ensures sections { cost Fmt.Q15 2 (Block.Biquad 0 TWO_SECTIONS ∷ []) 2 ≡ 40 }
    ensures long_chain { cost Fmt.Q15 2 (Block.Biquad 0 TWO_SECTIONS ∷ Block.Fir EIGHT ∷ Block.Decimate 2 FOUR
        ∷ Block.Power ∷ []) 100000 ≡ 4100000 }
    ensures tail { cost Fmt.Q15 1 (Block.Conv HALVES ∷ []) 3 ≡ 8 }
    ensures live { live_cost Fmt.Q15 1 (Block.Conv HALVES ∷ []) 3 ≡ 6 }
    ensures rest { rest Fmt.Q15 1 (Block.Conv HALVES ∷ []) 3 ≡ 2 }
    ensures window { cost Fmt.Q15 1 (Block.ConvPartial 0 5 HALVES ∷ []) 0 ≡ 10 }
    ensures correlation { cost Fmt.Q15 1 (Block.Correlate HALVES ∷ []) 3 ≡ 6 }
    ensures correlation_begun { block_rest Fmt.Q15 1 (Block.Correlate HALVES) 3 3 2 ≡ 5 }
    ensures correlation_done { block_rest Fmt.Q15 1 (Block.Correlate HALVES) 3 3 5 ≡ 0 }
{}

// 16 frames a call: two calls of 16 and one of 8, in lanes of 8.
pub fn turn_bounds()
    ensures fir { turns false Fmt.Q15 1 (Block.Fir HALVES ∷ []) 16 40 ≡ 10 }
    ensures two_calls_of_eight { turns false Fmt.Q15 1 (Block.Fir HALVES ∷ []) 8 16 ≡ 4 }
    ensures rest { turns false Fmt.Q15 1 (Block.Conv HALVES ∷ []) 16 40 ≡ 12 }
    ensures others_by_their_products { turns false Fmt.Q15 2 (Block.Biquad 0 TWO_SECTIONS ∷ []) 16 2 ≡ 40 }
    ensures nine_channels_in_a_bank { turns true Fmt.Q15 9 (Block.Biquad 0 TWO_SECTIONS ∷ []) 16 2 ≡ 40 }
{}
