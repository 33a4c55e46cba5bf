//! Matrices.

ghost use Rattle.std.specs.Prelude.{◌≡◌, pos};
ghost use Rattle.dsp_defs.specs.Numbers.{neg};
ghost use Rattle.dsp_theorems.specs.Given.{given};

use dsp_defs::{Block, Fmt};

const MAT_ADD_Q15_MATRIX_1: [i16; 4] = [32767, 32766, 32767, -32767];

const MAT_ADD_Q15_IN_1: [i16; 22] = [
    -32768, -32767, -32768, 1, 32766, 32767, 32766, -32767, 32767, -32768, -1, -32767, 32767,
    -32768, 32767, -1, 0, -32768, 32767, -1, 32767, 32767,
];

const MAT_ADD_Q15_OUT_1: [i16; 16] = [
    -1, 0, -2, 32767, 32767, 32767, -1, -32768, 32767, -1, 32765, -1, 32767, -1, 0, -32768,
];

const MAT_ADD_Q15_MATRIX_2: [i16; 2] = [4, 260];

const MAT_ADD_Q15_IN_2: [i16; 5] = [11141, 14128, 14234, 30970, 23307];

const MAT_ADD_Q15_OUT_2: [i16; 4] = [11145, 14388, 14238, 31230];

const MAT_ADD_Q15_MATRIX_3: [i16; 4] = [14911, 16384, 10248, 32766];

const MAT_ADD_Q15_IN_3: [i16; 8] = [0, 0, 0, 0, 0, 0, 0, 0];

const MAT_ADD_Q15_OUT_3: [i16; 8] = [14911, 16384, 10248, 32766, 14911, 16384, 10248, 32766];

pub fn mat_add_q15()
    ensures first { given Fmt.Q15 2 (Block.MatAdd 2 2 MAT_ADD_Q15_MATRIX_1) MAT_ADD_Q15_IN_1 ≡
        MAT_ADD_Q15_OUT_1 }
    ensures second { given Fmt.Q15 1 (Block.MatAdd 1 2 MAT_ADD_Q15_MATRIX_2) MAT_ADD_Q15_IN_2 ≡
        MAT_ADD_Q15_OUT_2 }
    ensures third { given Fmt.Q15 1 (Block.MatAdd 1 4 MAT_ADD_Q15_MATRIX_3) MAT_ADD_Q15_IN_3 ≡
        MAT_ADD_Q15_OUT_3 }
{}

const MAT_ADD_Q31_MATRIX_1: [i32; 2] = [-2147483648, 2147483647];

const MAT_ADD_Q31_IN_1: [i32; 12] = [
    2147483647,
    0,
    2147483647,
    4,
    2147483647,
    -1432159180,
    2147483647,
    -1,
    2147483647,
    -2147483648,
    2147483647,
    1,
];

const MAT_ADD_Q31_OUT_1: [i32; 12] = [
    -1,
    -2147483648,
    2147483647,
    2147483647,
    -1,
    -2147483648,
    2147483647,
    2147483646,
    -1,
    -2147483648,
    2147483647,
    2147483647,
];

const MAT_ADD_Q31_MATRIX_2: [i32; 2] = [-11, 5];

const MAT_ADD_Q31_IN_2: [i32; 5] = [-3, 253, 509, 765, 1021];

const MAT_ADD_Q31_OUT_2: [i32; 4] = [-14, 258, 498, 770];

const MAT_ADD_Q31_MATRIX_3: [i32; 1] = [-2];

const MAT_ADD_Q31_IN_3: [i32; 6] = [2, -2147483647, 0, 1073741825, 625067993, -1147057928];

const MAT_ADD_Q31_OUT_3: [i32; 6] = [0, -2147483648, -2, 1073741823, 625067991, -1147057930];

pub fn mat_add_q31()
    ensures first { given Fmt.Q31 2 (Block.MatAdd 1 2 MAT_ADD_Q31_MATRIX_1) MAT_ADD_Q31_IN_1 ≡
        MAT_ADD_Q31_OUT_1 }
    ensures second { given Fmt.Q31 1 (Block.MatAdd 1 2 MAT_ADD_Q31_MATRIX_2) MAT_ADD_Q31_IN_2 ≡
        MAT_ADD_Q31_OUT_2 }
    ensures third { given Fmt.Q31 2 (Block.MatAdd 1 1 MAT_ADD_Q31_MATRIX_3) MAT_ADD_Q31_IN_3 ≡
        MAT_ADD_Q31_OUT_3 }
{}

const MAT_MULT_Q15_MATRIX_1: [i16; 6] = [10, -26707, 32767, 7761, -16050, 8353];

const MAT_MULT_Q15_IN_1: [i16; 4] = [-32768, 1, 1, 16384];

const MAT_MULT_Q15_OUT_1: [i16; 6] = [-10, 26706, -32767, 3880, -8026, 4177];

const MAT_MULT_Q15_MATRIX_2: [i16; 1] = [-4];

const MAT_MULT_Q15_IN_2: [i16; 6] = [-5, 16384, 995, 2201, 1995, -2];

const MAT_MULT_Q15_OUT_2: [i16; 4] = [0, -2, -1, -1];

const MAT_MULT_Q15_MATRIX_3: [i16; 3] = [3, 259, 515];

const MAT_MULT_Q15_IN_3: [i16; 4] = [9, -20, -12, -18];

const MAT_MULT_Q15_OUT_3: [i16; 9] = [0, 0, 0, -1, -1, -1, -1, -1, -1];

pub fn mat_mult_q15()
    ensures first { given Fmt.Q15 1 (Block.MatMult 2 2 3 MAT_MULT_Q15_MATRIX_1) MAT_MULT_Q15_IN_1 ≡
        MAT_MULT_Q15_OUT_1 }
    ensures second { given Fmt.Q15 2 (Block.MatMult 2 1 1 MAT_MULT_Q15_MATRIX_2) MAT_MULT_Q15_IN_2 ≡
        MAT_MULT_Q15_OUT_2 }
    ensures third { given Fmt.Q15 1 (Block.MatMult 3 1 3 MAT_MULT_Q15_MATRIX_3) MAT_MULT_Q15_IN_3 ≡
        MAT_MULT_Q15_OUT_3 }
{}

const MAT_SCALE_Q31_IN_1: [i32; 14] = [
    2147483647,
    0,
    0,
    1,
    2147483647,
    -1,
    0,
    2147483646,
    -2147483648,
    2147483647,
    -2147483647,
    1073741825,
    -1,
    2147483646,
];

const MAT_SCALE_Q31_OUT_1: [i32; 12] = [
    -2147483648,
    0,
    0,
    -2,
    -2147483648,
    0,
    0,
    -2147483646,
    2147483646,
    -2147483648,
    2147483646,
    -1073741826,
];

const MAT_SCALE_Q31_IN_2: [i32; 5] = [1, 2147483646, -2147483647, -2147483647, 0];

const MAT_SCALE_Q31_OUT_2: [i32; 4] = [-2, -2147483646, 2147483646, 2147483646];

const MAT_SCALE_Q31_IN_3: [i32; 5] = [0, 0, -1, -2147483647, -1];

const MAT_SCALE_Q31_OUT_3: [i32; 4] = [0, 0, 0, 2147483647];

pub fn mat_scale_q31()
    ensures first { given Fmt.Q31 1 (Block.MatScale 2 2 (neg 2147483647) (pos 0)) MAT_SCALE_Q31_IN_1 ≡
        MAT_SCALE_Q31_OUT_1 }
    ensures second { given Fmt.Q31 1 (Block.MatScale 2 1 (neg 2147483648) (pos 0)) MAT_SCALE_Q31_IN_2 ≡
        MAT_SCALE_Q31_OUT_2 }
    ensures third { given Fmt.Q31 1 (Block.MatScale 2 1 (neg 1573718453) (pos 30)) MAT_SCALE_Q31_IN_3 ≡
        MAT_SCALE_Q31_OUT_3 }
{}

const MAT_SCALE_Q15_IN_1: [i16; 6] = [32767, -32768, -32767, 32767, 32766, 1];

const MAT_SCALE_Q15_OUT_1: [i16; 6] = [32767, -32768, -32768, 32767, 32767, 32767];

const MAT_SCALE_Q15_IN_2: [i16; 5] = [32297, 12, -25887, 32767, -27075];

const MAT_SCALE_Q15_OUT_2: [i16; 4] = [-32768, -304, 32767, -32768];

const MAT_SCALE_Q15_IN_3: [i16; 12] = [
    -32768, 3, -32768, 4, -32768, 5, -32768, 6, -32768, 7, -32768, 8,
];

const MAT_SCALE_Q15_OUT_3: [i16; 8] = [-32768, 1169, -32768, 1558, -32768, 1948, -32768, 2338];

pub fn mat_scale_q15()
    ensures first { given Fmt.Q15 1 (Block.MatScale 1 3 (pos 32767) (pos 15)) MAT_SCALE_Q15_IN_1 ≡
        MAT_SCALE_Q15_OUT_1 }
    ensures second { given Fmt.Q15 1 (Block.MatScale 2 2 (neg 25932) (pos 5)) MAT_SCALE_Q15_IN_2 ≡
        MAT_SCALE_Q15_OUT_2 }
    ensures third { given Fmt.Q15 2 (Block.MatScale 2 2 (pos 6235) (pos 11)) MAT_SCALE_Q15_IN_3 ≡
        MAT_SCALE_Q15_OUT_3 }
{}

const MAT_SUB_Q15_MATRIX_1: [i16; 4] = [12, -16, -7, -12];

const MAT_SUB_Q15_IN_1: [i16; 9] = [32767, 0, 32767, -1, 16385, -32768, 0, 0, -32768];

const MAT_SUB_Q15_OUT_1: [i16; 8] = [32755, 16, 32767, 11, 16373, -32752, 7, 12];

const MAT_SUB_Q15_MATRIX_2: [i16; 2] = [24718, -707];

const MAT_SUB_Q15_IN_2: [i16; 6] = [-20465, 3231, -19706, 32590, -32358, 13114];

const MAT_SUB_Q15_OUT_2: [i16; 6] = [-32768, 3938, -32768, 32767, -32768, 13821];

const MAT_SUB_Q15_MATRIX_3: [i16; 6] = [-7, 12, -9, -14, -16, -2];

const MAT_SUB_Q15_IN_3: [i16; 11] = [-1, -5, -16384, 17647, -11, -32768, 5, 14272, 3, -32768, -20];

const MAT_SUB_Q15_OUT_3: [i16; 6] = [6, -17, -16375, 17661, 5, -32766];

pub fn mat_sub_q15()
    ensures first { given Fmt.Q15 1 (Block.MatSub 2 2 MAT_SUB_Q15_MATRIX_1) MAT_SUB_Q15_IN_1 ≡
        MAT_SUB_Q15_OUT_1 }
    ensures second { given Fmt.Q15 1 (Block.MatSub 2 1 MAT_SUB_Q15_MATRIX_2) MAT_SUB_Q15_IN_2 ≡
        MAT_SUB_Q15_OUT_2 }
    ensures third { given Fmt.Q15 1 (Block.MatSub 3 2 MAT_SUB_Q15_MATRIX_3) MAT_SUB_Q15_IN_3 ≡
        MAT_SUB_Q15_OUT_3 }
{}

const MAT_SUB_Q31_MATRIX_1: [i32; 4] = [1740259584, -1903476172, -457065655, -1478993152];

const MAT_SUB_Q31_IN_1: [i32; 4] = [14, -2147483648, 1840505447, 2147483647];

const MAT_SUB_Q31_OUT_1: [i32; 4] = [-1740259570, -244007476, 2147483647, 2147483647];

const MAT_SUB_Q31_MATRIX_2: [i32; 2] = [1, 0];

const MAT_SUB_Q31_IN_2: [i32; 2] = [0, 0];

const MAT_SUB_Q31_OUT_2: [i32; 2] = [-1, 0];

const MAT_SUB_Q31_MATRIX_3: [i32; 2] = [-2, -1513883941];

const MAT_SUB_Q31_IN_3: [i32; 6] = [-5, -4, -3, -2, -1, 0];

const MAT_SUB_Q31_OUT_3: [i32; 6] = [-3, 1513883937, -1, 1513883939, 1, 1513883941];

pub fn mat_sub_q31()
    ensures first { given Fmt.Q31 1 (Block.MatSub 2 2 MAT_SUB_Q31_MATRIX_1) MAT_SUB_Q31_IN_1 ≡
        MAT_SUB_Q31_OUT_1 }
    ensures second { given Fmt.Q31 1 (Block.MatSub 2 1 MAT_SUB_Q31_MATRIX_2) MAT_SUB_Q31_IN_2 ≡
        MAT_SUB_Q31_OUT_2 }
    ensures third { given Fmt.Q31 1 (Block.MatSub 1 2 MAT_SUB_Q31_MATRIX_3) MAT_SUB_Q31_IN_3 ≡
        MAT_SUB_Q31_OUT_3 }
{}

const MAT_TRANS_Q31_IN_1: [i32; 4] = [1, -2147483648, 1073741825, 2147483647];

const MAT_TRANS_Q31_OUT_1: [i32; 3] = [1, -2147483648, 1073741825];

const MAT_TRANS_Q31_IN_2: [i32; 2] = [-2147483647, 1];

const MAT_TRANS_Q31_OUT_2: [i32; 2] = [-2147483647, 1];

const MAT_TRANS_Q31_IN_3: [i32; 4] = [220794655, -543070332, -1223880307, -677979076];

const MAT_TRANS_Q31_OUT_3: [i32; 4] = [220794655, -543070332, -1223880307, -677979076];

pub fn mat_trans_q31()
    ensures first { given Fmt.Q31 1 (Block.MatTrans 3 1) MAT_TRANS_Q31_IN_1 ≡ MAT_TRANS_Q31_OUT_1 }
    ensures second { given Fmt.Q31 1 (Block.MatTrans 1 1) MAT_TRANS_Q31_IN_2 ≡ MAT_TRANS_Q31_OUT_2 }
    ensures third { given Fmt.Q31 1 (Block.MatTrans 4 1) MAT_TRANS_Q31_IN_3 ≡ MAT_TRANS_Q31_OUT_3 }
{}

const MAT_TRANS_Q15_IN_1: [i16; 7] = [0, -32768, 32767, 16383, 32767, -32768, 1];

const MAT_TRANS_Q15_OUT_1: [i16; 6] = [0, -32768, 32767, 16383, 32767, -32768];

const MAT_TRANS_Q15_IN_2: [i16; 2] = [32767, 16384];

const MAT_TRANS_Q15_OUT_2: [i16; 2] = [32767, 16384];

const MAT_TRANS_Q15_IN_3: [i16; 4] = [-17514, -25743, -16, 17203];

const MAT_TRANS_Q15_OUT_3: [i16; 4] = [-17514, -25743, -16, 17203];

pub fn mat_trans_q15()
    ensures first { given Fmt.Q15 1 (Block.MatTrans 1 3) MAT_TRANS_Q15_IN_1 ≡ MAT_TRANS_Q15_OUT_1 }
    ensures second { given Fmt.Q15 1 (Block.MatTrans 1 1) MAT_TRANS_Q15_IN_2 ≡ MAT_TRANS_Q15_OUT_2 }
    ensures third { given Fmt.Q15 1 (Block.MatTrans 1 2) MAT_TRANS_Q15_IN_3 ≡ MAT_TRANS_Q15_OUT_3 }
{}
