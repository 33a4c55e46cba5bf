//! Filters that are sums of products.

ghost use Rattle.std.specs.Prelude.{◌≡◌};
ghost use Rattle.dsp_theorems.specs.Given.{given};

use dsp_defs::{Block, Fmt};

const DECIMATE_Q31_TAPS_1: [i32; 1] = [-78369040];

const DECIMATE_Q31_IN_1: [i32; 4] = [1073741824, -2147483648, 2147483646, 2147483647];

const DECIMATE_Q31_OUT_1: [i32; 2] = [-39184520, -78369040];

const DECIMATE_Q31_TAPS_2: [i32; 3] = [830500144, -1762242241, -801663488];

const DECIMATE_Q31_IN_2: [i32; 6] = [-1002202632, 0, -1036934945, 0, 545971078, 0];

const DECIMATE_Q31_OUT_2: [i32; 6] = [374125902, 0, 1209507089, 0, 259520510, 0];

const DECIMATE_Q31_TAPS_3: [i32; 5] = [-5, 995, 1995, 2995, 3995];

const DECIMATE_Q31_IN_3: [i32; 8] = [
    2147483647, 2147483647, 2147483647, 2147483647, 2147483647, 2147483647, 2147483647, 2147483647,
];

const DECIMATE_Q31_OUT_3: [i32; 2] = [3994, 9979];

pub fn decimate_q31()
    ensures first { given Fmt.Q31 1 (Block.Decimate 2 DECIMATE_Q31_TAPS_1) DECIMATE_Q31_IN_1 ≡
        DECIMATE_Q31_OUT_1 }
    ensures second { given Fmt.Q31 2 (Block.Decimate 1 DECIMATE_Q31_TAPS_2) DECIMATE_Q31_IN_2 ≡
        DECIMATE_Q31_OUT_2 }
    ensures third { given Fmt.Q31 1 (Block.Decimate 3 DECIMATE_Q31_TAPS_3) DECIMATE_Q31_IN_3 ≡
        DECIMATE_Q31_OUT_3 }
{}

const DECIMATE_Q15_TAPS_1: [i16; 3] = [32767, 32767, 32767];

const DECIMATE_Q15_IN_1: [i16; 6] = [32767, -32768, 1, -32768, -32768, -32768];

const DECIMATE_Q15_OUT_1: [i16; 2] = [32766, -32767];

const DECIMATE_Q15_TAPS_2: [i16; 4] = [-23880, 32767, 16688, 4];

const DECIMATE_Q15_IN_2: [i16; 4] = [18, -17, -6, 6];

const DECIMATE_Q15_OUT_2: [i16; 2] = [0, 9];

const DECIMATE_Q15_TAPS_3: [i16; 4] = [1, 1001, 2001, 3001];

const DECIMATE_Q15_IN_3: [i16; 6] = [2058, -32768, -11679, 4, -17072, 10];

const DECIMATE_Q15_OUT_3: [i16; 2] = [188, -3001];

pub fn decimate_q15()
    ensures first { given Fmt.Q15 2 (Block.Decimate 2 DECIMATE_Q15_TAPS_1) DECIMATE_Q15_IN_1 ≡
        DECIMATE_Q15_OUT_1 }
    ensures second { given Fmt.Q15 1 (Block.Decimate 2 DECIMATE_Q15_TAPS_2) DECIMATE_Q15_IN_2 ≡
        DECIMATE_Q15_OUT_2 }
    ensures third { given Fmt.Q15 2 (Block.Decimate 2 DECIMATE_Q15_TAPS_3) DECIMATE_Q15_IN_3 ≡
        DECIMATE_Q15_OUT_3 }
{}

const FIR_Q7_TAPS_1: [i8; 4] = [-128, 1, 1, 127];

const FIR_Q7_IN_1: [i8; 5] = [127, 127, 127, 127, 127];

const FIR_Q7_OUT_1: [i8; 5] = [126, 127, 127, 0, 0];

const FIR_Q7_TAPS_2: [i8; 2] = [73, -95];

const FIR_Q7_IN_2: [i8; 6] = [-105, 127, 7, -33, -13, 4];

const FIR_Q7_OUT_2: [i8; 6] = [77, -128, 67, 28, -10, -11];

const FIR_Q7_TAPS_3: [i8; 3] = [-5, -3, -1];

const FIR_Q7_IN_3: [i8; 6] = [-128, -128, -128, -128, -128, -128];

const FIR_Q7_OUT_3: [i8; 6] = [1, 4, 9, 9, 9, 9];

pub fn fir_q7()
    ensures first { given Fmt.Q7 1 (Block.Fir FIR_Q7_TAPS_1) FIR_Q7_IN_1 ≡ FIR_Q7_OUT_1 }
    ensures second { given Fmt.Q7 1 (Block.Fir FIR_Q7_TAPS_2) FIR_Q7_IN_2 ≡ FIR_Q7_OUT_2 }
    ensures third { given Fmt.Q7 1 (Block.Fir FIR_Q7_TAPS_3) FIR_Q7_IN_3 ≡ FIR_Q7_OUT_3 }
{}

const FIR_Q15_TAPS_1: [i16; 5] = [-1, -1, -1, -1, -1];

const FIR_Q15_IN_1: [i16; 2] = [1, -32768];

const FIR_Q15_OUT_1: [i16; 2] = [-1, 0];

const FIR_Q15_TAPS_2: [i16; 7] = [30407, 18004, 7273, 19021, 24599, 18928, -12130];

const FIR_Q15_IN_2: [i16; 2] = [32767, -1701];

const FIR_Q15_OUT_2: [i16; 2] = [-12130, 19557];

const FIR_Q15_TAPS_3: [i16; 1] = [16385];

const FIR_Q15_IN_3: [i16; 10] = [-4, -32768, 1, -32768, 18, -32768, 6, -32768, 19, -32768];

const FIR_Q15_OUT_3: [i16; 10] = [-3, -16385, 0, -16385, 9, -16385, 3, -16385, 9, -16385];

pub fn fir_q15()
    ensures first { given Fmt.Q15 1 (Block.Fir FIR_Q15_TAPS_1) FIR_Q15_IN_1 ≡ FIR_Q15_OUT_1 }
    ensures second { given Fmt.Q15 1 (Block.Fir FIR_Q15_TAPS_2) FIR_Q15_IN_2 ≡ FIR_Q15_OUT_2 }
    ensures third { given Fmt.Q15 2 (Block.Fir FIR_Q15_TAPS_3) FIR_Q15_IN_3 ≡ FIR_Q15_OUT_3 }
{}

const FIR_Q31_TAPS_1: [i32; 2] = [-2147483648, 2147483647];

const FIR_Q31_IN_1: [i32; 3] = [-12, 830095645, 1029048192];

const FIR_Q31_OUT_1: [i32; 3] = [-12, 830095656, 198952546];

const FIR_Q31_TAPS_2: [i32; 6] = [
    -1137833132,
    -79370782,
    938811417,
    -319403187,
    101248439,
    698905035,
];

const FIR_Q31_IN_2: [i32; 3] = [1, 0, -2147483648];

const FIR_Q31_OUT_2: [i32; 3] = [0, 0, -698905036];

const FIR_Q31_TAPS_3: [i32; 5] = [2147483647, 2147483647, 2147483647, 2147483647, 2147483647];

const FIR_Q31_IN_3: [i32; 1] = [1];

const FIR_Q31_OUT_3: [i32; 1] = [0];

pub fn fir_q31()
    ensures first { given Fmt.Q31 1 (Block.Fir FIR_Q31_TAPS_1) FIR_Q31_IN_1 ≡ FIR_Q31_OUT_1 }
    ensures second { given Fmt.Q31 1 (Block.Fir FIR_Q31_TAPS_2) FIR_Q31_IN_2 ≡ FIR_Q31_OUT_2 }
    ensures third { given Fmt.Q31 1 (Block.Fir FIR_Q31_TAPS_3) FIR_Q31_IN_3 ≡ FIR_Q31_OUT_3 }
{}

const INTERPOLATE_Q15_TAPS_1: [i16; 2] = [-32768, 0];

const INTERPOLATE_Q15_IN_1: [i16; 2] = [32767, 32767];

const INTERPOLATE_Q15_OUT_1: [i16; 2] = [0, -32767];

const INTERPOLATE_Q15_TAPS_2: [i16; 1] = [-32768];

const INTERPOLATE_Q15_IN_2: [i16; 4] = [-11, -24418, -10615, 6260];

const INTERPOLATE_Q15_OUT_2: [i16; 4] = [11, 24418, 10615, -6260];

const INTERPOLATE_Q15_TAPS_3: [i16; 4] = [32767, 32767, 32767, 32767];

const INTERPOLATE_Q15_IN_3: [i16; 2] = [4, 7];

const INTERPOLATE_Q15_OUT_3: [i16; 4] = [3, 3, 10, 10];

pub fn interpolate_q15()
    ensures first { given Fmt.Q15 1 (Block.Interpolate 1 INTERPOLATE_Q15_TAPS_1) INTERPOLATE_Q15_IN_1 ≡
        INTERPOLATE_Q15_OUT_1 }
    ensures second { given Fmt.Q15 1 (Block.Interpolate 1 INTERPOLATE_Q15_TAPS_2) INTERPOLATE_Q15_IN_2 ≡
        INTERPOLATE_Q15_OUT_2 }
    ensures third { given Fmt.Q15 1 (Block.Interpolate 2 INTERPOLATE_Q15_TAPS_3) INTERPOLATE_Q15_IN_3 ≡
        INTERPOLATE_Q15_OUT_3 }
{}

const INTERPOLATE_Q31_TAPS_1: [i32; 12] = [
    1073741824,
    -1073741824,
    1073741824,
    2147483647,
    1073741823,
    -2147483648,
    0,
    2147483647,
    1073741825,
    -2147483648,
    1073741825,
    1073741825,
];

const INTERPOLATE_Q31_IN_1: [i32; 6] = [-13, -7, -14, -3, 15, -13];

const INTERPOLATE_Q31_OUT_1: [i32; 18] = [
    -7, -7, 13, -11, -17, 7, 2, -21, 1, -9, -13, -11, 16, 1, -33, -3, 13, 3,
];

const INTERPOLATE_Q31_TAPS_2: [i32; 2] = [-2147483648, 2147483646];

const INTERPOLATE_Q31_IN_2: [i32; 3] = [-2147483647, -2147483647, -2147483647];

const INTERPOLATE_Q31_OUT_2: [i32; 6] = [
    -2147483646,
    2147483647,
    -2147483646,
    2147483647,
    -2147483646,
    2147483647,
];

const INTERPOLATE_Q31_TAPS_3: [i32; 4] = [2147483646, -2147483648, 2147483646, 1];

const INTERPOLATE_Q31_IN_3: [i32; 2] = [-2147483648, -2147483648];

const INTERPOLATE_Q31_OUT_3: [i32; 8] = [
    -1,
    -2147483646,
    -2147483648,
    -2147483646,
    -1,
    -2147483646,
    -2147483648,
    -2147483646,
];

pub fn interpolate_q31()
    ensures first { given Fmt.Q31 1 (Block.Interpolate 3 INTERPOLATE_Q31_TAPS_1) INTERPOLATE_Q31_IN_1 ≡
        INTERPOLATE_Q31_OUT_1 }
    ensures second { given Fmt.Q31 1 (Block.Interpolate 2 INTERPOLATE_Q31_TAPS_2) INTERPOLATE_Q31_IN_2 ≡
        INTERPOLATE_Q31_OUT_2 }
    ensures third { given Fmt.Q31 1 (Block.Interpolate 4 INTERPOLATE_Q31_TAPS_3) INTERPOLATE_Q31_IN_3 ≡
        INTERPOLATE_Q31_OUT_3 }
{}

const SPARSE_Q31_TAPS_1: [i32; 3] = [2147483647, -2147483648, 2147483647];

const SPARSE_Q31_DELAYS_1: [i32; 3] = [0, 2, 1];

const SPARSE_Q31_IN_1: [i32; 4] = [2147483647, 2147483647, 2147483647, 2147483647];

const SPARSE_Q31_OUT_1: [i32; 4] = [2147483646, -4, 2147483644, 2147483644];

const SPARSE_Q31_TAPS_2: [i32; 2] = [-274218907, 1633071602];

const SPARSE_Q31_DELAYS_2: [i32; 2] = [1, 3];

const SPARSE_Q31_IN_2: [i32; 6] = [1073741824, -4, -2147483647, 9, 868182279, -1700587919];

const SPARSE_Q31_OUT_2: [i32; 6] = [0, -137109454, 0, 1090754706, -6, -1743932514];

const SPARSE_Q31_TAPS_3: [i32; 2] = [-18, -15];

const SPARSE_Q31_DELAYS_3: [i32; 2] = [2, 3];

const SPARSE_Q31_IN_3: [i32; 6] = [
    1011169600, 1301595242, -402648362, -486712487, 1149530338, 1654905852,
];

const SPARSE_Q31_OUT_3: [i32; 6] = [0, 0, -10, -20, -8, 6];

pub fn sparse_q31()
    ensures first { given Fmt.Q31 1 (Block.Sparse SPARSE_Q31_TAPS_1 SPARSE_Q31_DELAYS_1) SPARSE_Q31_IN_1 ≡
        SPARSE_Q31_OUT_1 }
    ensures second { given Fmt.Q31 1 (Block.Sparse SPARSE_Q31_TAPS_2 SPARSE_Q31_DELAYS_2) SPARSE_Q31_IN_2 ≡
        SPARSE_Q31_OUT_2 }
    ensures third { given Fmt.Q31 1 (Block.Sparse SPARSE_Q31_TAPS_3 SPARSE_Q31_DELAYS_3) SPARSE_Q31_IN_3 ≡
        SPARSE_Q31_OUT_3 }
{}

const SPARSE_Q7_TAPS_1: [i8; 2] = [-128, -128];

const SPARSE_Q7_DELAYS_1: [i32; 2] = [3, 0];

const SPARSE_Q7_IN_1: [i8; 4] = [127, 0, 1, -1];

const SPARSE_Q7_OUT_1: [i8; 4] = [-127, 0, -1, -126];

const SPARSE_Q7_TAPS_2: [i8; 2] = [-64, -64];

const SPARSE_Q7_DELAYS_2: [i32; 2] = [4, 0];

const SPARSE_Q7_IN_2: [i8; 5] = [3, 4, 5, 6, 7];

const SPARSE_Q7_OUT_2: [i8; 5] = [-2, -2, -3, -3, -5];

const SPARSE_Q7_TAPS_3: [i8; 2] = [25, 109];

const SPARSE_Q7_DELAYS_3: [i32; 2] = [1, 2];

const SPARSE_Q7_IN_3: [i8; 6] = [4, -127, 4, -127, 4, -127];

const SPARSE_Q7_OUT_3: [i8; 6] = [0, 0, 0, -25, 4, -128];

pub fn sparse_q7()
    ensures first { given Fmt.Q7 1 (Block.Sparse SPARSE_Q7_TAPS_1 SPARSE_Q7_DELAYS_1) SPARSE_Q7_IN_1 ≡
        SPARSE_Q7_OUT_1 }
    ensures second { given Fmt.Q7 1 (Block.Sparse SPARSE_Q7_TAPS_2 SPARSE_Q7_DELAYS_2) SPARSE_Q7_IN_2 ≡
        SPARSE_Q7_OUT_2 }
    ensures third { given Fmt.Q7 2 (Block.Sparse SPARSE_Q7_TAPS_3 SPARSE_Q7_DELAYS_3) SPARSE_Q7_IN_3 ≡
        SPARSE_Q7_OUT_3 }
{}

const SPARSE_Q15_TAPS_1: [i16; 2] = [32766, -18];

const SPARSE_Q15_DELAYS_1: [i32; 2] = [1, 0];

const SPARSE_Q15_IN_1: [i16; 6] = [-32768, -1395, 32767, 27719, 32767, -12035];

const SPARSE_Q15_OUT_1: [i16; 6] = [18, 0, -32768, -1411, 32747, 27723];

const SPARSE_Q15_TAPS_2: [i16; 2] = [19950, -32193];

const SPARSE_Q15_DELAYS_2: [i32; 2] = [0, 1];

const SPARSE_Q15_IN_2: [i16; 3] = [16384, 16385, 32767];

const SPARSE_Q15_OUT_2: [i16; 3] = [9975, -6121, 3851];

const SPARSE_Q15_TAPS_3: [i16; 2] = [32228, 17788];

const SPARSE_Q15_DELAYS_3: [i32; 2] = [0, 1];

const SPARSE_Q15_IN_3: [i16; 3] = [32767, 32767, 32767];

const SPARSE_Q15_OUT_3: [i16; 3] = [32227, 32767, 32767];

pub fn sparse_q15()
    ensures first { given Fmt.Q15 2 (Block.Sparse SPARSE_Q15_TAPS_1 SPARSE_Q15_DELAYS_1) SPARSE_Q15_IN_1 ≡
        SPARSE_Q15_OUT_1 }
    ensures second { given Fmt.Q15 1 (Block.Sparse SPARSE_Q15_TAPS_2 SPARSE_Q15_DELAYS_2) SPARSE_Q15_IN_2 ≡
        SPARSE_Q15_OUT_2 }
    ensures third { given Fmt.Q15 1 (Block.Sparse SPARSE_Q15_TAPS_3 SPARSE_Q15_DELAYS_3) SPARSE_Q15_IN_3 ≡
        SPARSE_Q15_OUT_3 }
{}
