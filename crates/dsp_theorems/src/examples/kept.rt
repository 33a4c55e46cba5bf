//! Kept numbers: of a few signals, and which numbers can be such.

ghost use Rattle.std.specs.Prelude.{◌≡◌, [], ◌∷◌, ◌++◌, pos, replicate};
ghost use Rattle.dsp_defs.specs.Numbers.{neg};
ghost use Rattle.dsp_defs.specs.Block.{frames_in};
ghost use Rattle.dsp_defs.specs.Kept.{kept_numbers, kept_of_chain, kept_count, HasPlace, FitsAfter};

use dsp_defs::{Block, Fmt};

const HALF: [i16; 1] = [16384];

const THREE: [i16; 3] = [1, 2, 3];

const RECURSIVE: [i16; 6] = [16384, 0, 0, 0, 16384, 0];

pub fn kept_samples()
    ensures fir { kept_numbers Fmt.Q15 2 (Block.Fir THREE) (frames_in 2 (pos 1 ∷ pos 2 ∷ [])) ≡ pos 0 ∷ pos 1
        ∷ pos 0 ∷ pos 2 ∷ [] }
    ensures sparse { kept_numbers Fmt.Q15 1 (Block.Sparse (pos 1 ∷ pos 1 ∷ []) (pos 0 ∷ pos 2 ∷ []))
        (frames_in 1 (pos 7 ∷ pos 8 ∷ pos 9 ∷ [])) ≡ pos 8 ∷ pos 9 ∷ [] }
    ensures decimate { kept_numbers Fmt.Q15 1 (Block.Decimate 2 HALF)
        (frames_in 1 (pos 2 ∷ pos 4 ∷ pos 6 ∷ [])) ≡ pos 6 ∷ pos 1 ∷ [] }
    ensures conv { kept_numbers Fmt.Q15 1 (Block.Conv THREE) (frames_in 1 (pos 7 ∷ [])) ≡ pos 0 ∷ pos 7 ∷ pos
        1 ∷ [] }
    ensures conv_partial { kept_numbers Fmt.Q15 1 (Block.ConvPartial 1 1 THREE)
        (frames_in 1 (pos 7 ∷ pos 8 ∷ pos 9 ∷ [])) ≡ pos 8 ∷ pos 9 ∷ pos 2 ∷ [] }
    ensures group { kept_numbers Fmt.Q15 1 (Block.MatTrans 1 2) (frames_in 1 (pos 7 ∷ pos 8 ∷ pos 9 ∷ [])) ≡
        pos 9 ∷ [] }
{}

pub fn kept_states()
    ensures biquad { kept_of_chain Fmt.Q15 1 (Block.Biquad 0 RECURSIVE ∷ []) (frames_in 1 (pos 1000 ∷ [])) ≡
        pos 1000 ∷ pos 0 ∷ pos 500 ∷ pos 0 ∷ [] }
    ensures wide { kept_numbers Fmt.Q31 1 (Block.Biquad64 1
        (pos 268435456 ∷ pos 0 ∷ pos 0 ∷ pos 1073741824 ∷ pos 0 ∷ [])) (frames_in 1 (pos 1 ∷ [])) ≡ pos 1 ∷
        pos 0 ∷ pos 1073741824 ∷ pos 0 ∷ [] }
    ensures lattice { kept_numbers Fmt.Q15 1 (Block.LatticeFir (pos 16384 ∷ pos 0 ∷ []))
        (frames_in 1 (pos 1000 ∷ [])) ≡ pos 1000 ∷ pos 500 ∷ [] }
    ensures ladder { kept_numbers Fmt.Q15 1 (Block.LatticeIir HALF (pos 0 ∷ pos 16384 ∷ []))
        (frames_in 1 (pos 1000 ∷ [])) ≡ pos 1000 ∷ [] }
    ensures ladder_of_nothing { kept_numbers Fmt.Q15 2 (Block.LatticeIir HALF (pos 0 ∷ pos 16384 ∷ [])) [] ≡
        replicate 2 (pos 0) }
    ensures lms { kept_numbers Fmt.Q15 2 (Block.Lms 0 (pos 16384) (pos 5 ∷ pos 0 ∷ []))
        (frames_in 2 (pos 16384 ∷ pos 8192 ∷ [])) ≡ pos 16384 ∷ pos 2048 ∷ pos 5 ∷ [] }
    ensures pid { kept_numbers Fmt.Q15 1 (Block.Pid (pos 16384) (pos 0) (pos 0))
        (frames_in 1 (pos 100 ∷ pos 200 ∷ [])) ≡ pos 200 ∷ pos 100 ∷ pos 100 ∷ [] }
{}

pub fn kept_measures()
    ensures power { kept_numbers Fmt.Q15 2 Block.Power (frames_in 2 (pos 3 ∷ neg 4 ∷ [])) ≡ pos 9 ∷ pos 16 ∷
        [] }
    ensures complex { kept_numbers Fmt.Q15 4 Block.CmplxDot
        (frames_in 4 (pos 16384 ∷ pos 0 ∷ pos 16384 ∷ pos 0 ∷ [])) ≡ pos 268435456 ∷ pos 0 ∷ [] }
    ensures max { kept_numbers Fmt.Q15 1 Block.Max (frames_in 1 (pos 3 ∷ neg 4 ∷ [])) ≡ pos 1 ∷ pos 3 ∷ pos 0
        ∷ pos 2 ∷ [] }
    ensures nothing { kept_numbers Fmt.Q15 1 Block.Min [] ≡ replicate 4 (pos 0) }
{}

pub fn counts()
    ensures decimate { kept_count Fmt.Q15 1 (Block.Decimate 2 HALF) 3 ≡ 2 }
    ensures interpolate { kept_count Fmt.Q15 2 (Block.Interpolate 1 THREE) 9 ≡ 4 }
    ensures lms { kept_count Fmt.Q15 2 (Block.Lms 0 (pos 0) THREE) 9 ≡ 5 }
    ensures biquad64 { kept_count Fmt.Q31 2 (Block.Biquad64 0 (replicate 10 (pos 0))) 9 ≡ 16 }
    ensures group { kept_count Fmt.Q15 1 (Block.MatTrans 2 3) 10 ≡ 4 }
    ensures correlate { kept_count Fmt.Q15 2 (Block.Correlate THREE) 10 ≡ 20 }
{}

pub fn numbers_that_can_be_kept()
    ensures place { HasPlace Fmt.Q15 1 (Block.Decimate 2 HALF) 3 (pos 99999 ∷ pos 1 ∷ []) }
    ensures max { FitsAfter Fmt.Q15 1 Block.Max 2 (pos 1 ∷ pos 32767 ∷ pos 1 ∷ pos 2 ∷ []) }
    ensures biquad64 { FitsAfter Fmt.Q31 1 (Block.Biquad64 0 (replicate 5 (pos 0))) 9
        (pos 0 ∷ pos 0 ∷ pos 9223372036854775807 ∷ neg 9223372036854775808 ∷ []) }
{}
