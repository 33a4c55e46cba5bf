//! Filters that are recursions.

ghost use Rattle.std.specs.Prelude.{◌≡◌, pos};
ghost use Rattle.dsp_defs.specs.Numbers.{neg};
ghost use Rattle.dsp_theorems.specs.Given.{given};

use dsp_defs::{Block, Fmt};

const BIQUAD_Q31_SECTIONS_1: [i32; 5] = [0, 2147483647, 2147483647, 0, 2147483647];

const BIQUAD_Q31_IN_1: [i32; 2] = [-2147483648, -2147483648];

const BIQUAD_Q31_OUT_1: [i32; 2] = [0, 1073741824];

const BIQUAD_Q31_SECTIONS_2: [i32; 5] = [
    1073741824, 1073741824, 1073741824, 1073741824, 1073741824,
];

const BIQUAD_Q31_IN_2: [i32; 2] = [-7, 2147483647];

const BIQUAD_Q31_OUT_2: [i32; 2] = [-3584, -1839104];

const BIQUAD_Q31_SECTIONS_3: [i32; 5] = [
    2147483646, 2147483646, 2147483646, 2147483646, 2147483646,
];

const BIQUAD_Q31_IN_3: [i32; 3] = [-2147483648, -2147483648, -2147483648];

const BIQUAD_Q31_OUT_3: [i32; 3] = [-2147483646, -2147483641, -2147483630];

pub fn biquad_q31()
    ensures first { given Fmt.Q31 1 (Block.Biquad 30 BIQUAD_Q31_SECTIONS_1) BIQUAD_Q31_IN_1 ≡ BIQUAD_Q31_OUT_1 }
    ensures second { given Fmt.Q31 1 (Block.Biquad 10 BIQUAD_Q31_SECTIONS_2) BIQUAD_Q31_IN_2 ≡
        BIQUAD_Q31_OUT_2 }
    ensures third { given Fmt.Q31 1 (Block.Biquad 0 BIQUAD_Q31_SECTIONS_3) BIQUAD_Q31_IN_3 ≡ BIQUAD_Q31_OUT_3 }
{}

const BIQUAD_Q15_SECTIONS_1: [i16; 12] = [
    16384, -16, -10, 15, -27433, 32767, 20, -12, 13, -1, -26761, -1,
];

const BIQUAD_Q15_IN_1: [i16; 4] = [32767, 16384, -32768, -16384];

const BIQUAD_Q15_OUT_1: [i16; 4] = [79, -287, 961, -3164];

const BIQUAD_Q15_SECTIONS_2: [i16; 6] = [-1, 18, 32766, -32768, -856, -16384];

const BIQUAD_Q15_IN_2: [i16; 2] = [10, 5692];

const BIQUAD_Q15_OUT_2: [i16; 2] = [-1, 9];

const BIQUAD_Q15_SECTIONS_3: [i16; 6] = [32767, 1, -1, 32767, 0, 0];

const BIQUAD_Q15_IN_3: [i16; 4] = [-1, -1, -1, -1];

const BIQUAD_Q15_OUT_3: [i16; 4] = [-8192, -8192, -16384, -16384];

pub fn biquad_q15()
    ensures first { given Fmt.Q15 1 (Block.Biquad 2 BIQUAD_Q15_SECTIONS_1) BIQUAD_Q15_IN_1 ≡ BIQUAD_Q15_OUT_1 }
    ensures second { given Fmt.Q15 1 (Block.Biquad 0 BIQUAD_Q15_SECTIONS_2) BIQUAD_Q15_IN_2 ≡ BIQUAD_Q15_OUT_2 }
    ensures third { given Fmt.Q15 1 (Block.Biquad 13 BIQUAD_Q15_SECTIONS_3) BIQUAD_Q15_IN_3 ≡ BIQUAD_Q15_OUT_3 }
{}

const BIQUAD64_Q31_SECTIONS_1: [i32; 5] = [
    -1741618249,
    1859707074,
    -1497379513,
    1481834381,
    793527787,
];

const BIQUAD64_Q31_IN_1: [i32; 4] = [2147483647, 1073741825, -2147483647, -2147483648];

const BIQUAD64_Q31_OUT_1: [i32; 4] = [-1741618249, -212875953, 383646497, -680710768];

const BIQUAD64_Q31_SECTIONS_2: [i32; 5] = [2, 3, 4, 5, 6];

const BIQUAD64_Q31_IN_2: [i32; 2] = [2147483647, 0];

const BIQUAD64_Q31_OUT_2: [i32; 2] = [1, 3];

const BIQUAD64_Q31_SECTIONS_3: [i32; 5] = [
    2147483647, 2147483647, 2147483647, 2147483647, 2147483647,
];

const BIQUAD64_Q31_IN_3: [i32; 3] = [1073741823, 1073741823, 2147483646];

const BIQUAD64_Q31_OUT_3: [i32; 3] = [2147483645, -14, -48];

pub fn biquad64_q31()
    ensures first { given Fmt.Q31 1 (Block.Biquad64 0 BIQUAD64_Q31_SECTIONS_1) BIQUAD64_Q31_IN_1 ≡
        BIQUAD64_Q31_OUT_1 }
    ensures second { given Fmt.Q31 1 (Block.Biquad64 0 BIQUAD64_Q31_SECTIONS_2) BIQUAD64_Q31_IN_2 ≡
        BIQUAD64_Q31_OUT_2 }
    ensures third { given Fmt.Q31 1 (Block.Biquad64 1 BIQUAD64_Q31_SECTIONS_3) BIQUAD64_Q31_IN_3 ≡
        BIQUAD64_Q31_OUT_3 }
{}

const LATTICE_FIR_Q15_K_1: [i16; 2] = [-32768, 0];

const LATTICE_FIR_Q15_IN_1: [i16; 6] = [0, -32767, 32767, 32767, 32766, 32767];

const LATTICE_FIR_Q15_OUT_1: [i16; 6] = [0, -32767, 32767, 0, -1, 1];

const LATTICE_FIR_Q15_K_2: [i16; 1] = [32766];

const LATTICE_FIR_Q15_IN_2: [i16; 2] = [32766, 32766];

const LATTICE_FIR_Q15_OUT_2: [i16; 2] = [32766, 32767];

const LATTICE_FIR_Q15_K_3: [i16; 1] = [1];

const LATTICE_FIR_Q15_IN_3: [i16; 3] = [-32767, -32767, 1];

const LATTICE_FIR_Q15_OUT_3: [i16; 3] = [-32767, -32768, 0];

pub fn lattice_fir_q15()
    ensures first { given Fmt.Q15 1 (Block.LatticeFir LATTICE_FIR_Q15_K_1) LATTICE_FIR_Q15_IN_1 ≡
        LATTICE_FIR_Q15_OUT_1 }
    ensures second { given Fmt.Q15 1 (Block.LatticeFir LATTICE_FIR_Q15_K_2) LATTICE_FIR_Q15_IN_2 ≡
        LATTICE_FIR_Q15_OUT_2 }
    ensures third { given Fmt.Q15 1 (Block.LatticeFir LATTICE_FIR_Q15_K_3) LATTICE_FIR_Q15_IN_3 ≡
        LATTICE_FIR_Q15_OUT_3 }
{}

const LATTICE_IIR_Q31_K_1: [i32; 4] = [2147483646, 2147483646, 2147483646, 2147483646];

const LATTICE_IIR_Q31_V_1: [i32; 5] = [2147483646, -1, -2147483648, 1, -2147483648];

const LATTICE_IIR_Q31_IN_1: [i32; 4] = [-2147483648, 2147483647, 0, -2147483648];

const LATTICE_IIR_Q31_OUT_1: [i32; 4] = [-2147483647, -2147483647, 2147483638, 2];

const LATTICE_IIR_Q31_K_2: [i32; 2] = [-2147483648, -2147483648];

const LATTICE_IIR_Q31_V_2: [i32; 3] = [8, 5, 9];

const LATTICE_IIR_Q31_IN_2: [i32; 3] = [1073741825, 2147483646, -2147483648];

const LATTICE_IIR_Q31_OUT_2: [i32; 3] = [-3, -2, -4];

const LATTICE_IIR_Q31_K_3: [i32; 2] = [2147483647, 2147483647];

const LATTICE_IIR_Q31_V_3: [i32; 3] = [3, -5, 4];

const LATTICE_IIR_Q31_IN_3: [i32; 5] = [-2, 998, 1998, 2998, 3998];

const LATTICE_IIR_Q31_OUT_3: [i32; 5] = [-1, 0, 0, 0, 0];

pub fn lattice_iir_q31()
    ensures first { given Fmt.Q31 1 (Block.LatticeIir LATTICE_IIR_Q31_K_1 LATTICE_IIR_Q31_V_1)
        LATTICE_IIR_Q31_IN_1 ≡ LATTICE_IIR_Q31_OUT_1 }
    ensures second { given Fmt.Q31 1 (Block.LatticeIir LATTICE_IIR_Q31_K_2 LATTICE_IIR_Q31_V_2)
        LATTICE_IIR_Q31_IN_2 ≡ LATTICE_IIR_Q31_OUT_2 }
    ensures third { given Fmt.Q31 1 (Block.LatticeIir LATTICE_IIR_Q31_K_3 LATTICE_IIR_Q31_V_3)
        LATTICE_IIR_Q31_IN_3 ≡ LATTICE_IIR_Q31_OUT_3 }
{}

const LATTICE_IIR_Q15_K_1: [i16; 4] = [-2, 1, -14249, 32767];

const LATTICE_IIR_Q15_V_1: [i16; 5] = [32767, -32768, 16385, 0, -1];

const LATTICE_IIR_Q15_IN_1: [i16; 4] = [-31799, -3236, 9895, -8278];

const LATTICE_IIR_Q15_OUT_1: [i16; 4] = [6916, -26019, 29133, -3433];

const LATTICE_IIR_Q15_K_2: [i16; 1] = [32767];

const LATTICE_IIR_Q15_V_2: [i16; 2] = [32767, 32767];

const LATTICE_IIR_Q15_IN_2: [i16; 3] = [32767, 1, 32767];

const LATTICE_IIR_Q15_OUT_2: [i16; 3] = [32767, -32763, 32767];

const LATTICE_IIR_Q15_K_3: [i16; 3] = [-17, -2, -5];

const LATTICE_IIR_Q15_V_3: [i16; 4] = [-32767, 1, 16385, 32766];

const LATTICE_IIR_Q15_IN_3: [i16; 2] = [-10306, -14214];

const LATTICE_IIR_Q15_OUT_3: [i16; 2] = [-10310, -19373];

pub fn lattice_iir_q15()
    ensures first { given Fmt.Q15 1 (Block.LatticeIir LATTICE_IIR_Q15_K_1 LATTICE_IIR_Q15_V_1)
        LATTICE_IIR_Q15_IN_1 ≡ LATTICE_IIR_Q15_OUT_1 }
    ensures second { given Fmt.Q15 1 (Block.LatticeIir LATTICE_IIR_Q15_K_2 LATTICE_IIR_Q15_V_2)
        LATTICE_IIR_Q15_IN_2 ≡ LATTICE_IIR_Q15_OUT_2 }
    ensures third { given Fmt.Q15 1 (Block.LatticeIir LATTICE_IIR_Q15_K_3 LATTICE_IIR_Q15_V_3)
        LATTICE_IIR_Q15_IN_3 ≡ LATTICE_IIR_Q15_OUT_3 }
{}

const LMS_Q15_TAPS_1: [i16; 3] = [32766, 32766, 32766];

const LMS_Q15_IN_1: [i16; 8] = [32767, -32768, 32767, 0, 32767, 0, 32767, 32767];

const LMS_Q15_OUT_1: [i16; 8] = [32765, 3, 32767, -32767, 32766, -32766, -32768, -1];

const LMS_Q15_TAPS_2: [i16; 1] = [0];

const LMS_Q15_IN_2: [i16; 4] = [-32767, -1, -32768, -32768];

const LMS_Q15_OUT_2: [i16; 4] = [0, -1, 0, -32768];

const LMS_Q15_TAPS_3: [i16; 4] = [-30605, -32768, -32768, 16383];

const LMS_Q15_IN_3: [i16; 6] = [-4, -4, -1, 996, 2, 1996];

const LMS_Q15_OUT_3: [i16; 6] = [-1024, 1020, 1792, -796, 3071, -1075];

pub fn lms_q15()
    ensures first { given Fmt.Q15 2 (Block.Lms 0 (pos 32766) LMS_Q15_TAPS_1) LMS_Q15_IN_1 ≡ LMS_Q15_OUT_1 }
    ensures second { given Fmt.Q15 2 (Block.Lms 0 (pos 1) LMS_Q15_TAPS_2) LMS_Q15_IN_2 ≡ LMS_Q15_OUT_2 }
    ensures third { given Fmt.Q15 2 (Block.Lms 9 (neg 25763) LMS_Q15_TAPS_3) LMS_Q15_IN_3 ≡ LMS_Q15_OUT_3 }
{}

const LMS_Q31_TAPS_1: [i32; 6] = [
    -2147483648,
    -2147483648,
    -2147483648,
    -2147483648,
    -2147483648,
    -2147483648,
];

const LMS_Q31_IN_1: [i32; 6] = [
    2147483647,
    2147483647,
    2147483647,
    -1,
    2147483647,
    -2147483647,
];

const LMS_Q31_OUT_1: [i32; 6] = [-2147483647, -2, 2, -3, -2147483642, -5];

const LMS_Q31_TAPS_2: [i32; 2] = [112785624, -1068560706];

const LMS_Q31_IN_2: [i32; 4] = [0, 3, -2147483648, 259];

const LMS_Q31_OUT_2: [i32; 4] = [0, 3, 1068560706, -1068560447];

const LMS_Q31_TAPS_3: [i32; 3] = [1582085867, 611098064, -268769581];

const LMS_Q31_IN_3: [i32; 4] = [2147483647, -5, 2147483646, -3];

const LMS_Q31_OUT_3: [i32; 4] = [-939357034, 939357029, 97605347, -97605350];

pub fn lms_q31()
    ensures first { given Fmt.Q31 2 (Block.Lms 0 (neg 2147483648) LMS_Q31_TAPS_1) LMS_Q31_IN_1 ≡ LMS_Q31_OUT_1 }
    ensures second { given Fmt.Q31 2 (Block.Lms 0 (neg 2147483648) LMS_Q31_TAPS_2) LMS_Q31_IN_2 ≡
        LMS_Q31_OUT_2 }
    ensures third { given Fmt.Q31 2 (Block.Lms 30 (pos 2147483647) LMS_Q31_TAPS_3) LMS_Q31_IN_3 ≡
        LMS_Q31_OUT_3 }
{}

const PID_Q15_IN_1: [i16; 4] = [-32767, 0, -32767, 0];

const PID_Q15_OUT_1: [i16; 4] = [1, 0, 32767, 0];

const PID_Q15_IN_2: [i16; 3] = [2, 5, 8];

const PID_Q15_OUT_2: [i16; 3] = [-2, -6, -11];

const PID_Q15_IN_3: [i16; 4] = [32767, 16384, -32767, -32768];

const PID_Q15_OUT_3: [i16; 4] = [-29296, -16116, 27092, 28559];

pub fn pid_q15()
    ensures first { given Fmt.Q15 2 (Block.Pid (neg 1) (neg 32768) (pos 32767)) PID_Q15_IN_1 ≡ PID_Q15_OUT_1 }
    ensures second { given Fmt.Q15 1 (Block.Pid (neg 21270) (pos 16) (neg 20853)) PID_Q15_IN_2 ≡ PID_Q15_OUT_2 }
    ensures third { given Fmt.Q15 1 (Block.Pid (neg 27827) (neg 1468) (neg 1)) PID_Q15_IN_3 ≡ PID_Q15_OUT_3 }
{}

const PID_Q31_IN_1: [i32; 2] = [-2147483648, 2147483647];

const PID_Q31_OUT_1: [i32; 2] = [1073741825, -1];

const PID_Q31_IN_2: [i32; 2] = [1073741824, 1073741824];

const PID_Q31_OUT_2: [i32; 2] = [6671506, 443202673];

const PID_Q31_IN_3: [i32; 4] = [-2147483648, -2147483648, -2147483648, -2147483648];

const PID_Q31_OUT_3: [i32; 4] = [-2147483646, -2147483645, 5, -2147483641];

pub fn pid_q31()
    ensures first { given Fmt.Q31 1 (Block.Pid (neg 2147483647) (neg 1) (pos 1073741823)) PID_Q31_IN_1 ≡
        PID_Q31_OUT_1 }
    ensures second { given Fmt.Q31 1 (Block.Pid (pos 1) (pos 443202673) (neg 429859662)) PID_Q31_IN_2 ≡
        PID_Q31_OUT_2 }
    ensures third { given Fmt.Q31 1 (Block.Pid (pos 2147483647) (neg 2147483648) (pos 2147483647))
        PID_Q31_IN_3 ≡ PID_Q31_OUT_3 }
{}
