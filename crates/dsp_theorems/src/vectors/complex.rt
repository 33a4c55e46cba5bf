//! Blocks that work on complex numbers, two channels each.

ghost use Rattle.std.specs.Prelude.{◌≡◌};
ghost use Rattle.dsp_theorems.specs.Given.{given};

use dsp_defs::{Block, Fmt};

const CMPLX_CONJ_Q15_IN_1: [i16; 6] = [0, 1, 0, 32767, 0, -32768];

const CMPLX_CONJ_Q15_OUT_1: [i16; 6] = [0, -1, 0, -32767, 0, 32767];

const CMPLX_CONJ_Q15_IN_2: [i16; 4] = [0, -32767, 0, 0];

const CMPLX_CONJ_Q15_OUT_2: [i16; 4] = [0, 32767, 0, 0];

const CMPLX_CONJ_Q15_IN_3: [i16; 4] = [16384, -6043, 16384, -4844];

const CMPLX_CONJ_Q15_OUT_3: [i16; 4] = [16384, 6043, 16384, 4844];

pub fn cmplx_conj_q15()
    ensures first { given Fmt.Q15 2 Block.Conj CMPLX_CONJ_Q15_IN_1 ≡ CMPLX_CONJ_Q15_OUT_1 }
    ensures second { given Fmt.Q15 2 Block.Conj CMPLX_CONJ_Q15_IN_2 ≡ CMPLX_CONJ_Q15_OUT_2 }
    ensures third { given Fmt.Q15 2 Block.Conj CMPLX_CONJ_Q15_IN_3 ≡ CMPLX_CONJ_Q15_OUT_3 }
{}

const CMPLX_CONJ_Q31_IN_1: [i32; 8] = [
    0,
    -2147483648,
    1,
    -2147483647,
    -2147483648,
    2147483647,
    0,
    0,
];

const CMPLX_CONJ_Q31_OUT_1: [i32; 8] = [
    0,
    2147483647,
    1,
    2147483647,
    -2147483648,
    -2147483647,
    0,
    0,
];

const CMPLX_CONJ_Q31_IN_2: [i32; 4] = [1, -1, 1, 1];

const CMPLX_CONJ_Q31_OUT_2: [i32; 4] = [1, 1, 1, -1];

const CMPLX_CONJ_Q31_IN_3: [i32; 4] = [523347273, 10, 2147483646, -19];

const CMPLX_CONJ_Q31_OUT_3: [i32; 4] = [523347273, -10, 2147483646, 19];

pub fn cmplx_conj_q31()
    ensures first { given Fmt.Q31 2 Block.Conj CMPLX_CONJ_Q31_IN_1 ≡ CMPLX_CONJ_Q31_OUT_1 }
    ensures second { given Fmt.Q31 2 Block.Conj CMPLX_CONJ_Q31_IN_2 ≡ CMPLX_CONJ_Q31_OUT_2 }
    ensures third { given Fmt.Q31 2 Block.Conj CMPLX_CONJ_Q31_IN_3 ≡ CMPLX_CONJ_Q31_OUT_3 }
{}

const CMPLX_MAG_SQUARED_Q15_IN_1: [i16; 4] = [5, -32768, 6, 32767];

const CMPLX_MAG_SQUARED_Q15_OUT_1: [i16; 2] = [8192, 8191];

const CMPLX_MAG_SQUARED_Q15_IN_2: [i16; 4] = [16383, 540, 16383, 32767];

const CMPLX_MAG_SQUARED_Q15_OUT_2: [i16; 2] = [2049, 10239];

const CMPLX_MAG_SQUARED_Q15_IN_3: [i16; 8] = [23132, -11, 16383, 6, 16383, -26391, -1, -28314];

const CMPLX_MAG_SQUARED_Q15_OUT_3: [i16; 4] = [4082, 2047, 7361, 6116];

pub fn cmplx_mag_squared_q15()
    ensures first { given Fmt.Q15 2 Block.MagSquared CMPLX_MAG_SQUARED_Q15_IN_1 ≡ CMPLX_MAG_SQUARED_Q15_OUT_1 }
    ensures second { given Fmt.Q15 2 Block.MagSquared CMPLX_MAG_SQUARED_Q15_IN_2 ≡ CMPLX_MAG_SQUARED_Q15_OUT_2 }
    ensures third { given Fmt.Q15 2 Block.MagSquared CMPLX_MAG_SQUARED_Q15_IN_3 ≡ CMPLX_MAG_SQUARED_Q15_OUT_3 }
{}

const CMPLX_MAG_SQUARED_Q31_IN_1: [i32; 10] = [
    1073741823,
    2147483646,
    -1300723671,
    -2147483648,
    -2095791817,
    5,
    8,
    -2147483648,
    2147483647,
    -10,
];

const CMPLX_MAG_SQUARED_Q31_OUT_1: [i32; 5] = [
    671088638, 733831907, 511336063, 536870912, 536870911,
];

const CMPLX_MAG_SQUARED_Q31_IN_2: [i32; 10] = [
    7, -5, -1, -4, 430506675, -3, -899040499, -2, 2016722518, -1,
];

const CMPLX_MAG_SQUARED_Q31_OUT_2: [i32; 5] = [0, 0, 21575949, 94095456, 473480871];

const CMPLX_MAG_SQUARED_Q31_IN_3: [i32; 10] = [
    -1129286579,
    1818951948,
    988278245,
    1608290635,
    -76410944,
    -906562254,
    1381348247,
    -890623273,
    -278784803,
    2124357774,
];

const CMPLX_MAG_SQUARED_Q31_OUT_3: [i32; 5] = [
    533633209, 414821860, 96356234, 314476525, 534418145,
];

pub fn cmplx_mag_squared_q31()
    ensures first { given Fmt.Q31 2 Block.MagSquared CMPLX_MAG_SQUARED_Q31_IN_1 ≡ CMPLX_MAG_SQUARED_Q31_OUT_1 }
    ensures second { given Fmt.Q31 2 Block.MagSquared CMPLX_MAG_SQUARED_Q31_IN_2 ≡ CMPLX_MAG_SQUARED_Q31_OUT_2 }
    ensures third { given Fmt.Q31 2 Block.MagSquared CMPLX_MAG_SQUARED_Q31_IN_3 ≡ CMPLX_MAG_SQUARED_Q31_OUT_3 }
{}

const CMPLX_MULT_Q15_IN_1: [i16; 16] = [
    16384, 32767, 2, -17997, 1, 19090, -561, 8575, -32767, -18, -32768, 6586, 32767, 32468, -32768,
    -9270,
];

const CMPLX_MULT_Q15_OUT_1: [i16; 8] = [4500, -2250, -1249, -82, 8192, -1643, -5895, -10435];

const CMPLX_MULT_Q15_IN_2: [i16; 8] = [-32768, 0, 32766, 0, -32768, 0, 32766, 0];

const CMPLX_MULT_Q15_OUT_2: [i16; 4] = [-8192, 0, -8192, 0];

const CMPLX_MULT_Q15_IN_3: [i16; 8] = [16385, -32768, -1, 0, 16385, -32768, 1, 16383];

const CMPLX_MULT_Q15_OUT_3: [i16; 4] = [-1, 0, 4096, 2046];

pub fn cmplx_mult_q15()
    ensures first { given Fmt.Q15 4 Block.CmplxMult CMPLX_MULT_Q15_IN_1 ≡ CMPLX_MULT_Q15_OUT_1 }
    ensures second { given Fmt.Q15 4 Block.CmplxMult CMPLX_MULT_Q15_IN_2 ≡ CMPLX_MULT_Q15_OUT_2 }
    ensures third { given Fmt.Q15 4 Block.CmplxMult CMPLX_MULT_Q15_IN_3 ≡ CMPLX_MULT_Q15_OUT_3 }
{}

const CMPLX_MULT_Q31_IN_1: [i32; 12] = [
    -2147483647,
    0,
    -2147483648,
    2147483647,
    -2147483647,
    0,
    -2147483648,
    2147483647,
    -2147483647,
    0,
    -2147483648,
    2147483647,
];

const CMPLX_MULT_Q31_OUT_1: [i32; 6] = [
    536870911, -536870912, 536870911, -536870912, 536870911, -536870912,
];

const CMPLX_MULT_Q31_IN_2: [i32; 8] = [
    -2147483647,
    2147483647,
    2147483646,
    2147483647,
    -2147483647,
    2147483647,
    2147483646,
    2147483647,
];

const CMPLX_MULT_Q31_OUT_2: [i32; 4] = [-1073741823, -1, -1073741823, -1];

const CMPLX_MULT_Q31_IN_3: [i32; 12] = [
    2147483647,
    2147483647,
    1,
    -2147483648,
    2147483647,
    -1,
    1,
    -2147483648,
    2147483647,
    -2147483648,
    1,
    -2147483648,
];

const CMPLX_MULT_Q31_OUT_3: [i32; 6] = [
    536870912, -536870912, 0, -536870913, -536870912, -536870913,
];

pub fn cmplx_mult_q31()
    ensures first { given Fmt.Q31 4 Block.CmplxMult CMPLX_MULT_Q31_IN_1 ≡ CMPLX_MULT_Q31_OUT_1 }
    ensures second { given Fmt.Q31 4 Block.CmplxMult CMPLX_MULT_Q31_IN_2 ≡ CMPLX_MULT_Q31_OUT_2 }
    ensures third { given Fmt.Q31 4 Block.CmplxMult CMPLX_MULT_Q31_IN_3 ≡ CMPLX_MULT_Q31_OUT_3 }
{}

const CMPLX_MULT_REAL_Q15_IN_1: [i16; 9] = [
    -32768, 32767, -32768, -32768, -32767, -32768, 0, -32768, -32768,
];

const CMPLX_MULT_REAL_Q15_OUT_1: [i16; 6] = [32767, -32767, 32767, 32767, 0, 32767];

const CMPLX_MULT_REAL_Q15_IN_2: [i16; 6] = [10988, -14323, 0, 1778, -30024, 256];

const CMPLX_MULT_REAL_Q15_OUT_2: [i16; 4] = [0, 0, 13, -235];

const CMPLX_MULT_REAL_Q15_IN_3: [i16; 6] = [4, 16384, 4154, 5, 16384, 19297];

const CMPLX_MULT_REAL_Q15_OUT_3: [i16; 4] = [0, 2077, 2, 9648];

pub fn cmplx_mult_real_q15()
    ensures first { given Fmt.Q15 3 Block.CmplxMultReal CMPLX_MULT_REAL_Q15_IN_1 ≡ CMPLX_MULT_REAL_Q15_OUT_1 }
    ensures second { given Fmt.Q15 3 Block.CmplxMultReal CMPLX_MULT_REAL_Q15_IN_2 ≡ CMPLX_MULT_REAL_Q15_OUT_2 }
    ensures third { given Fmt.Q15 3 Block.CmplxMultReal CMPLX_MULT_REAL_Q15_IN_3 ≡ CMPLX_MULT_REAL_Q15_OUT_3 }
{}
