//! Convolutions and correlations.

ghost use Rattle.std.specs.Prelude.{◌≡◌};
ghost use Rattle.dsp_theorems.specs.Given.{given};

use dsp_defs::{Block, Fmt};

const CONV_Q7_TAPS_1: [i8; 6] = [1, 126, -127, 1, 126, 0];

const CONV_Q7_IN_1: [i8; 5] = [-128, -128, -128, -128, -128];

const CONV_Q7_OUT_1: [i8; 10] = [-1, -127, 0, -1, -127, -126, 0, -127, -126, 0];

const CONV_Q7_TAPS_2: [i8; 4] = [-10, -97, 44, -9];

const CONV_Q7_IN_2: [i8; 3] = [127, 127, 127];

const CONV_Q7_OUT_2: [i8; 6] = [-10, -107, -63, -62, 34, -9];

const CONV_Q7_TAPS_3: [i8; 3] = [15, 4, -18];

const CONV_Q7_IN_3: [i8; 3] = [-1, -1, -1];

const CONV_Q7_OUT_3: [i8; 5] = [-1, -1, -1, 0, 0];

pub fn conv_q7()
    ensures first { given Fmt.Q7 1 (Block.Conv CONV_Q7_TAPS_1) CONV_Q7_IN_1 ≡ CONV_Q7_OUT_1 }
    ensures second { given Fmt.Q7 1 (Block.Conv CONV_Q7_TAPS_2) CONV_Q7_IN_2 ≡ CONV_Q7_OUT_2 }
    ensures third { given Fmt.Q7 1 (Block.Conv CONV_Q7_TAPS_3) CONV_Q7_IN_3 ≡ CONV_Q7_OUT_3 }
{}

const CONV_Q31_TAPS_1: [i32; 3] = [0, -2147483648, -2147483648];

const CONV_Q31_IN_1: [i32; 5] = [-2147483647, 0, 0, -2147483648, -1];

const CONV_Q31_OUT_1: [i32; 7] = [0, 2147483647, 2147483647, 0, -2147483648, -2147483647, 1];

const CONV_Q31_TAPS_2: [i32; 1] = [2147483647];

const CONV_Q31_IN_2: [i32; 6] = [-4, -4, 252, 996, 508, 1996];

const CONV_Q31_OUT_2: [i32; 6] = [-4, -4, 251, 995, 507, 1995];

const CONV_Q31_TAPS_3: [i32; 3] = [2147483647, 1, 0];

const CONV_Q31_IN_3: [i32; 4] = [-17, 110804327, 16, -2093563086];

const CONV_Q31_OUT_3: [i32; 8] = [-17, 110804326, 15, -2093563085, 0, -1, 0, 0];

pub fn conv_q31()
    ensures first { given Fmt.Q31 1 (Block.Conv CONV_Q31_TAPS_1) CONV_Q31_IN_1 ≡ CONV_Q31_OUT_1 }
    ensures second { given Fmt.Q31 2 (Block.Conv CONV_Q31_TAPS_2) CONV_Q31_IN_2 ≡ CONV_Q31_OUT_2 }
    ensures third { given Fmt.Q31 2 (Block.Conv CONV_Q31_TAPS_3) CONV_Q31_IN_3 ≡ CONV_Q31_OUT_3 }
{}

const CONV_Q15_TAPS_1: [i16; 6] = [2795, -32768, 16385, -27925, -10, -32768];

const CONV_Q15_IN_1: [i16; 2] = [19, -4250];

const CONV_Q15_OUT_1: [i16; 12] = [1, -363, -19, 4250, 9, -2126, -17, 3621, -1, 1, -19, 4250];

const CONV_Q15_TAPS_2: [i16; 6] = [-4, 6788, 32767, 3, 2323, -16099];

const CONV_Q15_IN_2: [i16; 2] = [11947, -3672];

const CONV_Q15_OUT_2: [i16; 7] = [-2, 2475, 11185, -3671, 846, -6130, 1804];

const CONV_Q15_TAPS_3: [i16; 2] = [16383, -32767];

const CONV_Q15_IN_3: [i16; 3] = [16385, 32766, -16384];

const CONV_Q15_OUT_3: [i16; 4] = [8191, -3, -32768, 16383];

pub fn conv_q15()
    ensures first { given Fmt.Q15 2 (Block.Conv CONV_Q15_TAPS_1) CONV_Q15_IN_1 ≡ CONV_Q15_OUT_1 }
    ensures second { given Fmt.Q15 1 (Block.Conv CONV_Q15_TAPS_2) CONV_Q15_IN_2 ≡ CONV_Q15_OUT_2 }
    ensures third { given Fmt.Q15 1 (Block.Conv CONV_Q15_TAPS_3) CONV_Q15_IN_3 ≡ CONV_Q15_OUT_3 }
{}

const CONV_PARTIAL_Q31_TAPS_1: [i32; 4] = [2147483646, 2147483646, 2147483646, 2147483646];

const CONV_PARTIAL_Q31_IN_1: [i32; 3] = [1073741825, 1073741823, -2147483648];

const CONV_PARTIAL_Q31_OUT_1: [i32; 2] = [1073741823, 2147483646];

const CONV_PARTIAL_Q31_TAPS_2: [i32; 2] = [-2147483647, -2147483647];

const CONV_PARTIAL_Q31_IN_2: [i32; 5] = [-2147483648, 2147483647, 1, 2147483647, 1073741824];

const CONV_PARTIAL_Q31_OUT_2: [i32; 1] = [1073741826];

const CONV_PARTIAL_Q31_TAPS_3: [i32; 3] = [-1073741824, -1073741824, -1073741824];

const CONV_PARTIAL_Q31_IN_3: [i32; 6] = [-20, -13, 4, 5, 2, 14];

const CONV_PARTIAL_Q31_OUT_3: [i32; 2] = [-11, -8];

pub fn conv_partial_q31()
    ensures first { given Fmt.Q31 1 (Block.ConvPartial 0 2 CONV_PARTIAL_Q31_TAPS_1) CONV_PARTIAL_Q31_IN_1 ≡
        CONV_PARTIAL_Q31_OUT_1 }
    ensures second { given Fmt.Q31 1 (Block.ConvPartial 4 1 CONV_PARTIAL_Q31_TAPS_2) CONV_PARTIAL_Q31_IN_2 ≡
        CONV_PARTIAL_Q31_OUT_2 }
    ensures third { given Fmt.Q31 1 (Block.ConvPartial 5 2 CONV_PARTIAL_Q31_TAPS_3) CONV_PARTIAL_Q31_IN_3 ≡
        CONV_PARTIAL_Q31_OUT_3 }
{}

const CONV_PARTIAL_Q7_TAPS_1: [i8; 4] = [-128, -128, -128, -128];

const CONV_PARTIAL_Q7_IN_1: [i8; 10] = [127, -128, -128, -128, 126, -128, -127, -128, -128, -128];

const CONV_PARTIAL_Q7_OUT_1: [i8; 6] = [-125, 127, 2, 127, 127, 127];

const CONV_PARTIAL_Q7_TAPS_2: [i8; 5] = [-64, -5, 103, -108, 14];

const CONV_PARTIAL_Q7_IN_2: [i8; 3] = [23, -128, 63];

const CONV_PARTIAL_Q7_OUT_2: [i8; 2] = [-8, -125];

const CONV_PARTIAL_Q7_TAPS_3: [i8; 2] = [-91, -128];

const CONV_PARTIAL_Q7_IN_3: [i8; 6] = [-7, 9, 8, -8, 19, -13];

const CONV_PARTIAL_Q7_OUT_3: [i8; 3] = [-6, -10, 13];

pub fn conv_partial_q7()
    ensures first { given Fmt.Q7 2 (Block.ConvPartial 2 3 CONV_PARTIAL_Q7_TAPS_1) CONV_PARTIAL_Q7_IN_1 ≡
        CONV_PARTIAL_Q7_OUT_1 }
    ensures second { given Fmt.Q7 1 (Block.ConvPartial 2 2 CONV_PARTIAL_Q7_TAPS_2) CONV_PARTIAL_Q7_IN_2 ≡
        CONV_PARTIAL_Q7_OUT_2 }
    ensures third { given Fmt.Q7 1 (Block.ConvPartial 4 3 CONV_PARTIAL_Q7_TAPS_3) CONV_PARTIAL_Q7_IN_3 ≡
        CONV_PARTIAL_Q7_OUT_3 }
{}

const CONV_PARTIAL_Q15_TAPS_1: [i16; 4] = [1, 1, 1, 1];

const CONV_PARTIAL_Q15_IN_1: [i16; 2] = [32767, -32768];

const CONV_PARTIAL_Q15_OUT_1: [i16; 2] = [0, -1];

const CONV_PARTIAL_Q15_TAPS_2: [i16; 2] = [5, 6];

const CONV_PARTIAL_Q15_IN_2: [i16; 2] = [-32768, -32768];

const CONV_PARTIAL_Q15_OUT_2: [i16; 2] = [-11, -6];

const CONV_PARTIAL_Q15_TAPS_3: [i16; 4] = [32767, -15, -32767, 30889];

const CONV_PARTIAL_Q15_IN_3: [i16; 8] = [16385, 32766, 16385, 32766, 16385, 32766, 16385, 32766];

const CONV_PARTIAL_Q15_OUT_3: [i16; 10] = [
    16384, 32765, 16376, 32750, -8, -15, 15437, 30872, -947, -1893,
];

pub fn conv_partial_q15()
    ensures first { given Fmt.Q15 1 (Block.ConvPartial 0 2 CONV_PARTIAL_Q15_TAPS_1) CONV_PARTIAL_Q15_IN_1 ≡
        CONV_PARTIAL_Q15_OUT_1 }
    ensures second { given Fmt.Q15 1 (Block.ConvPartial 1 2 CONV_PARTIAL_Q15_TAPS_2) CONV_PARTIAL_Q15_IN_2 ≡
        CONV_PARTIAL_Q15_OUT_2 }
    ensures third { given Fmt.Q15 2 (Block.ConvPartial 0 5 CONV_PARTIAL_Q15_TAPS_3) CONV_PARTIAL_Q15_IN_3 ≡
        CONV_PARTIAL_Q15_OUT_3 }
{}

const CORRELATE_Q15_TAPS_1: [i16; 3] = [-32768, -32767, 16383];

const CORRELATE_Q15_IN_1: [i16; 3] = [32767, -32768, 32767];

const CORRELATE_Q15_OUT_1: [i16; 5] = [16382, -32768, 16382, 1, -32767];

const CORRELATE_Q15_TAPS_2: [i16; 2] = [-3, -1];

const CORRELATE_Q15_IN_2: [i16; 3] = [17, -11, -15];

const CORRELATE_Q15_OUT_2: [i16; 5] = [0, -1, -1, 0, 0];

const CORRELATE_Q15_TAPS_3: [i16; 1] = [-17886];

const CORRELATE_Q15_IN_3: [i16; 6] = [1, 0, 3, 32767, 5, -32767];

const CORRELATE_Q15_OUT_3: [i16; 10] = [0, 0, 0, 0, -1, 0, -2, -17886, -3, 17885];

pub fn correlate_q15()
    ensures first { given Fmt.Q15 1 (Block.Correlate CORRELATE_Q15_TAPS_1) CORRELATE_Q15_IN_1 ≡
        CORRELATE_Q15_OUT_1 }
    ensures second { given Fmt.Q15 1 (Block.Correlate CORRELATE_Q15_TAPS_2) CORRELATE_Q15_IN_2 ≡
        CORRELATE_Q15_OUT_2 }
    ensures third { given Fmt.Q15 2 (Block.Correlate CORRELATE_Q15_TAPS_3) CORRELATE_Q15_IN_3 ≡
        CORRELATE_Q15_OUT_3 }
{}

const CORRELATE_Q7_TAPS_1: [i8; 4] = [1, 1, 1, 1];

const CORRELATE_Q7_IN_1: [i8; 10] = [63, 117, 63, 64, 63, 126, 63, -128, 63, -6];

const CORRELATE_Q7_OUT_1: [i8; 18] = [0, 0, 0, 0, 0, 1, 1, 2, 1, 1, 1, 0, 1, -1, 0, -2, 0, -1];

const CORRELATE_Q7_TAPS_2: [i8; 4] = [0, -127, 0, 127];

const CORRELATE_Q7_IN_2: [i8; 5] = [127, 127, 127, 127, 127];

const CORRELATE_Q7_OUT_2: [i8; 9] = [0, 126, 126, 0, 0, 0, -127, -127, 0];

const CORRELATE_Q7_TAPS_3: [i8; 2] = [126, 126];

const CORRELATE_Q7_IN_3: [i8; 4] = [12, 12, -11, -13];

const CORRELATE_Q7_OUT_3: [i8; 7] = [0, 0, 11, 23, 0, -24, -13];

pub fn correlate_q7()
    ensures first { given Fmt.Q7 2 (Block.Correlate CORRELATE_Q7_TAPS_1) CORRELATE_Q7_IN_1 ≡
        CORRELATE_Q7_OUT_1 }
    ensures second { given Fmt.Q7 1 (Block.Correlate CORRELATE_Q7_TAPS_2) CORRELATE_Q7_IN_2 ≡
        CORRELATE_Q7_OUT_2 }
    ensures third { given Fmt.Q7 1 (Block.Correlate CORRELATE_Q7_TAPS_3) CORRELATE_Q7_IN_3 ≡
        CORRELATE_Q7_OUT_3 }
{}

const CORRELATE_Q31_TAPS_1: [i32; 2] = [-2147483647, -2147483647];

const CORRELATE_Q31_IN_1: [i32; 3] = [-2147483648, 2147483647, -2147483648];

const CORRELATE_Q31_OUT_1: [i32; 5] = [0, 2147483647, 0, 0, 2147483647];

const CORRELATE_Q31_TAPS_2: [i32; 2] = [-4, -1];

const CORRELATE_Q31_IN_2: [i32; 4] = [1073741824, 1073741824, 1073741824, 1073741824];

const CORRELATE_Q31_OUT_2: [i32; 7] = [0, 0, -1, -3, -3, -3, -2];

const CORRELATE_Q31_TAPS_3: [i32; 1] = [1190905480];

const CORRELATE_Q31_IN_3: [i32; 6] = [2147483646, -1826497706, -5, -1, 8, -1073741824];

const CORRELATE_Q31_OUT_3: [i32; 11] = [
    0,
    0,
    0,
    0,
    0,
    1190905478,
    -1012899973,
    -3,
    -1,
    4,
    -595452740,
];

pub fn correlate_q31()
    ensures first { given Fmt.Q31 1 (Block.Correlate CORRELATE_Q31_TAPS_1) CORRELATE_Q31_IN_1 ≡
        CORRELATE_Q31_OUT_1 }
    ensures second { given Fmt.Q31 1 (Block.Correlate CORRELATE_Q31_TAPS_2) CORRELATE_Q31_IN_2 ≡
        CORRELATE_Q31_OUT_2 }
    ensures third { given Fmt.Q31 1 (Block.Correlate CORRELATE_Q31_TAPS_3) CORRELATE_Q31_IN_3 ≡
        CORRELATE_Q31_OUT_3 }
{}
