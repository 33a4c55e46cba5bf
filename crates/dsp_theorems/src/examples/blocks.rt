//! A few samples through one block.

ghost use Rattle.std.specs.Prelude.{◌≡◌, [], ◌∷◌, pos, None, Some, replicate};
ghost use Rattle.dsp_defs.specs.Numbers.{neg};
ghost use Rattle.dsp_defs.specs.Adaptive.{pid_gains};
ghost use Rattle.dsp_theorems.specs.Given.{given, measured};

use dsp_defs::{Block, Fmt, Measure};

const HALF: [i16; 1] = [16384];

const HALVES: [i16; 2] = [16384, 16384];

const LEAST_TWICE: [i16; 2] = [-32768, -32768];

const GREATEST_TWICE: [i16; 2] = [32767, 32767];

const EVEN: [i16; 5] = [2, 4, 6, 8, 10];

const IMPULSE: [i16; 3] = [1000, 0, 0];

pub fn fir_rounds_down()
    ensures { given Fmt.Q15 1 (Block.Fir HALF) (pos 1000 ∷ neg 1000 ∷ neg 1 ∷ []) ≡ pos 500 ∷ neg 500 ∷ neg 1
        ∷ [] }
{}

pub fn fir_saturates_in_q15()
    ensures { given Fmt.Q15 1 (Block.Fir GREATEST_TWICE) GREATEST_TWICE ≡ pos 32766 ∷ pos 32767 ∷ [] }
{}

pub fn fir_wraps_in_q31()
    ensures { let least = replicate 2 (neg 2147483648) in
        given Fmt.Q31 1 (Block.Fir least) least ≡ neg 2147483648 ∷ pos 0 ∷ [] }
{}

pub fn mult_of_the_least_values()
    ensures q7 { given Fmt.Q7 2 Block.Mult (replicate 2 (neg 128)) ≡ pos 127 ∷ [] }
    ensures q15 { given Fmt.Q15 2 Block.Mult (replicate 2 (neg 32768)) ≡ pos 32767 ∷ [] }
    ensures q31 { given Fmt.Q31 2 Block.Mult (replicate 2 (neg 2147483648)) ≡ pos 2147483646 ∷ [] }
{}

pub fn scale_in_q31()
    ensures even { given Fmt.Q31 1 (Block.Scale (pos 1073741824) (pos 1)) (pos 2147483647 ∷ []) ≡ pos
        2147483644 ∷ [] }
    ensures saturated { given Fmt.Q31 1 (Block.Scale (pos 1073741824) (pos 2)) (pos 2147483647 ∷ []) ≡ pos
        2147483647 ∷ [] }
{}

pub fn decimate_takes_the_first_of_each_group()
    ensures { given Fmt.Q15 1 (Block.Decimate 2 HALF) EVEN ≡ pos 1 ∷ pos 3 ∷ [] }
{}

pub fn interpolate_reads_reversed_taps()
    ensures { given Fmt.Q15 1 (Block.Interpolate 2 (pos 8192 ∷ pos 16384 ∷ [])) (pos 4 ∷ pos 8 ∷ []) ≡ pos 2 ∷
        pos 1 ∷ pos 4 ∷ pos 2 ∷ [] }
{}

const RECURSIVE: [i16; 6] = [16384, 0, 0, 0, 16384, 0];

const UNUSED: [i16; 6] = [32767, 77, 32767, 0, 0, 0];

pub fn biquad_in_q15()
    ensures impulse { given Fmt.Q15 1 (Block.Biquad 0 RECURSIVE) IMPULSE ≡ pos 500 ∷ pos 250 ∷ pos 125 ∷ [] }
    ensures second_number_is_unused { given Fmt.Q15 1 (Block.Biquad 0 UNUSED) GREATEST_TWICE ≡ pos 32766 ∷ pos
        32767 ∷ [] }
{}

const SMALL: [i32; 5] = [268435456, 0, 0, 1073741824, 0];

pub fn biquad64_feeds_back_the_wide_value()
    ensures wide { given Fmt.Q31 1 (Block.Biquad64 1 SMALL) (replicate 4 (pos 1)) ≡ pos 0 ∷ pos 0 ∷ pos 0 ∷
        pos 1 ∷ [] }
    ensures narrow { given Fmt.Q31 1 (Block.Biquad 1 SMALL) (replicate 4 (pos 1)) ≡ replicate 4 (pos 0) }
{}

pub fn conv_has_a_tail()
    ensures some { given Fmt.Q15 1 (Block.Conv HALVES) (pos 2 ∷ pos 4 ∷ []) ≡ pos 1 ∷ pos 3 ∷ pos 2 ∷ [] }
    ensures none { given Fmt.Q15 1 (Block.Conv HALVES) [] ≡ [] }
{}

pub fn conv_partial_is_a_window()
    ensures { given Fmt.Q15 1 (Block.ConvPartial 1 2 HALVES) (pos 2 ∷ pos 4 ∷ []) ≡ pos 3 ∷ pos 2 ∷ [] }
{}

pub fn correlate_starts_at_the_end_of_the_list()
    ensures { given Fmt.Q15 1 (Block.Correlate HALF) (pos 2 ∷ pos 4 ∷ pos 6 ∷ []) ≡ pos 0 ∷ pos 0 ∷ pos 1 ∷
        pos 2 ∷ pos 3 ∷ [] }
{}

// The output stands in channel 0, the error in channel 1.
pub fn lms_uses_the_weights_before_the_sample()
    ensures q15 { given Fmt.Q15 2 (Block.Lms 0 (pos 16384) (pos 0 ∷ []))
        (pos 16384 ∷ pos 8192 ∷ pos 16384 ∷ pos 8192 ∷ []) ≡ pos 0 ∷ pos 8192 ∷ pos 1024 ∷ pos 7168 ∷ [] }
    ensures q31 { given Fmt.Q31 2 (Block.Lms 0 (pos 1073741824) (pos 0 ∷ []))
        (pos 2147483647 ∷ neg 2147483648 ∷ []) ≡ pos 0 ∷ neg 2147483648 ∷ [] }
{}

pub fn pid_proportional()
    ensures values { given Fmt.Q15 1 (Block.Pid (pos 16384) (pos 0) (pos 0)) (pos 100 ∷ pos 100 ∷ []) ≡ pos 50
        ∷ pos 50 ∷ [] }
    ensures gains { pid_gains Fmt.Q15 (pos 16384) (pos 0) (pos 32767) ≡ record
        { a0 = pos 32767; a1 = neg 32768; a2 = pos 32767 } }
{}

pub fn sparse_wraps_where_fir_saturates()
    ensures sparse { given Fmt.Q15 1 (Block.Sparse LEAST_TWICE (pos 0 ∷ pos 1 ∷ [])) LEAST_TWICE ≡ pos 32767 ∷
        neg 32768 ∷ [] }
    ensures fir { given Fmt.Q15 1 (Block.Fir LEAST_TWICE) LEAST_TWICE ≡ GREATEST_TWICE }
{}

pub fn lattices()
    ensures iir { given Fmt.Q15 1 (Block.LatticeIir HALF (pos 0 ∷ pos 16384 ∷ [])) (pos 1000 ∷ pos 0 ∷ []) ≡
        pos 500 ∷ neg 250 ∷ [] }
    ensures iir_in_q31 { given Fmt.Q31 1 (Block.LatticeIir (pos 0 ∷ []) (pos 0 ∷ pos 1073741824 ∷ []))
        (pos 2 ∷ neg 1 ∷ []) ≡ pos 1 ∷ neg 1 ∷ [] }
    ensures fir { given Fmt.Q15 1 (Block.LatticeFir HALF) (pos 1000 ∷ pos 0 ∷ []) ≡ pos 1000 ∷ pos 500 ∷ [] }
{}

pub fn complex_blocks()
    ensures product { given Fmt.Q15 4 Block.CmplxMult (pos 16384 ∷ pos 0 ∷ pos 16384 ∷ pos 16384 ∷ []) ≡ pos
        2048 ∷ pos 2048 ∷ [] }
    ensures conjugate { given Fmt.Q15 2 Block.Conj LEAST_TWICE ≡ neg 32768 ∷ pos 32767 ∷ [] }
{}

pub fn matrices_drop_the_open_group()
    ensures product { given Fmt.Q15 1 (Block.MatMult 1 2 1 HALVES) EVEN ≡ pos 3 ∷ pos 7 ∷ [] }
    ensures sum { given Fmt.Q15 1 (Block.MatAdd 1 2 (pos 1 ∷ pos 32767 ∷ []))
        (pos 1 ∷ pos 2 ∷ pos 3 ∷ pos 4 ∷ pos 5 ∷ []) ≡ pos 2 ∷ pos 32767 ∷ pos 4 ∷ pos 32767 ∷ [] }
    ensures transposed { given Fmt.Q15 1 (Block.MatTrans 2 2) (pos 1 ∷ pos 2 ∷ pos 3 ∷ pos 4 ∷ []) ≡ pos 1 ∷
        pos 3 ∷ pos 2 ∷ pos 4 ∷ [] }
{}

pub fn conversions()
    ensures wider { given Fmt.Q15 1 (Block.To Fmt.Q31) (pos 256 ∷ []) ≡ pos 16777216 ∷ [] }
    ensures narrower { given Fmt.Q15 1 (Block.To Fmt.Q7) (neg 1 ∷ []) ≡ neg 1 ∷ [] }
{}

pub fn measures_of_nothing()
    ensures power { measured Fmt.Q15 1 Block.Power [] ≡ Measure.Power 1 0 (pos 0) ∷ [] }
    ensures max { measured Fmt.Q15 1 Block.Max [] ≡ Measure.Max 1 0 None ∷ [] }
{}

pub fn scalar_products()
    ensures dot { measured Fmt.Q31 2 Block.Dot (replicate 2 (pos 1073741824)) ≡ Measure.Dot 1
        (pos 70368744177664) ∷ [] }
    ensures complex { measured Fmt.Q15 4 Block.CmplxDot (pos 16384 ∷ pos 0 ∷ pos 16384 ∷ pos 0 ∷ []) ≡
        Measure.CmplxDot 1 (pos 4194304) (pos 0) ∷ [] }
{}

// The first of equal samples counts.
pub fn extremes()
    ensures least { measured Fmt.Q7 1 Block.Min (neg 128 ∷ pos 5 ∷ neg 128 ∷ []) ≡ Measure.Min 1 0
        (Some (neg 128, 0)) ∷ [] }
    ensures greatest { measured Fmt.Q7 1 Block.Max (neg 128 ∷ pos 5 ∷ neg 128 ∷ []) ≡ Measure.Max 1 0
        (Some (pos 5, 1)) ∷ [] }
{}
