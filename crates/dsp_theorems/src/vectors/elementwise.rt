//! Blocks that work on one sample.

ghost use Rattle.std.specs.Prelude.{◌≡◌, pos};
ghost use Rattle.dsp_defs.specs.Numbers.{neg};
ghost use Rattle.dsp_theorems.specs.Given.{given};

use dsp_defs::{Block, Fmt};

const ABS_Q15_IN_1: [i16; 3] = [-32768, 0, 32767];

const ABS_Q15_OUT_1: [i16; 3] = [32767, 0, 32767];

const ABS_Q15_IN_2: [i16; 2] = [18, 32766];

const ABS_Q15_OUT_2: [i16; 2] = [18, 32766];

const ABS_Q15_IN_3: [i16; 4] = [0, 2, -32768, 258];

const ABS_Q15_OUT_3: [i16; 4] = [0, 2, 32767, 258];

pub fn abs_q15()
    ensures first { given Fmt.Q15 1 Block.Abs ABS_Q15_IN_1 ≡ ABS_Q15_OUT_1 }
    ensures second { given Fmt.Q15 1 Block.Abs ABS_Q15_IN_2 ≡ ABS_Q15_OUT_2 }
    ensures third { given Fmt.Q15 2 Block.Abs ABS_Q15_IN_3 ≡ ABS_Q15_OUT_3 }
{}

const ABS_Q31_IN_1: [i32; 1] = [-2147483648];

const ABS_Q31_OUT_1: [i32; 1] = [2147483647];

const ABS_Q31_IN_2: [i32; 1] = [2147483647];

const ABS_Q31_OUT_2: [i32; 1] = [2147483647];

const ABS_Q31_IN_3: [i32; 12] = [5, 4, 7, 1004, 9, 2004, 11, 3004, 13, 4004, 15, 5004];

const ABS_Q31_OUT_3: [i32; 12] = [5, 4, 7, 1004, 9, 2004, 11, 3004, 13, 4004, 15, 5004];

pub fn abs_q31()
    ensures first { given Fmt.Q31 1 Block.Abs ABS_Q31_IN_1 ≡ ABS_Q31_OUT_1 }
    ensures second { given Fmt.Q31 1 Block.Abs ABS_Q31_IN_2 ≡ ABS_Q31_OUT_2 }
    ensures third { given Fmt.Q31 2 Block.Abs ABS_Q31_IN_3 ≡ ABS_Q31_OUT_3 }
{}

const ABS_Q7_IN_1: [i8; 5] = [127, 63, -128, 127, 1];

const ABS_Q7_OUT_1: [i8; 5] = [127, 63, 127, 127, 1];

const ABS_Q7_IN_2: [i8; 2] = [65, -128];

const ABS_Q7_OUT_2: [i8; 2] = [65, 127];

const ABS_Q7_IN_3: [i8; 3] = [63, 12, 65];

const ABS_Q7_OUT_3: [i8; 3] = [63, 12, 65];

pub fn abs_q7()
    ensures first { given Fmt.Q7 1 Block.Abs ABS_Q7_IN_1 ≡ ABS_Q7_OUT_1 }
    ensures second { given Fmt.Q7 1 Block.Abs ABS_Q7_IN_2 ≡ ABS_Q7_OUT_2 }
    ensures third { given Fmt.Q7 1 Block.Abs ABS_Q7_IN_3 ≡ ABS_Q7_OUT_3 }
{}

const CLIP_Q7_IN_1: [i8; 5] = [-128, 127, 0, 126, 126];

const CLIP_Q7_OUT_1: [i8; 5] = [126, 127, 126, 126, 126];

const CLIP_Q7_IN_2: [i8; 4] = [11, -108, -6, -13];

const CLIP_Q7_OUT_2: [i8; 4] = [11, -104, -6, -13];

const CLIP_Q7_IN_3: [i8; 4] = [-31, 53, 9, -1];

const CLIP_Q7_OUT_3: [i8; 4] = [-31, -22, -22, -22];

pub fn clip_q7()
    ensures first { given Fmt.Q7 1 (Block.Clip (pos 126) (pos 127)) CLIP_Q7_IN_1 ≡ CLIP_Q7_OUT_1 }
    ensures second { given Fmt.Q7 1 (Block.Clip (neg 104) (pos 82)) CLIP_Q7_IN_2 ≡ CLIP_Q7_OUT_2 }
    ensures third { given Fmt.Q7 1 (Block.Clip (neg 128) (neg 22)) CLIP_Q7_IN_3 ≡ CLIP_Q7_OUT_3 }
{}

const CLIP_Q31_IN_1: [i32; 3] = [-2147483648, -2147483648, -2147483648];

const CLIP_Q31_OUT_1: [i32; 3] = [-1070960555, -1070960555, -1070960555];

const CLIP_Q31_IN_2: [i32; 2] = [-19, -1488647736];

const CLIP_Q31_OUT_2: [i32; 2] = [2147483647, 2147483647];

const CLIP_Q31_IN_3: [i32; 4] = [230337941, -1150015168, -1379804369, 204663105];

const CLIP_Q31_OUT_3: [i32; 4] = [230337941, 15, 15, 204663105];

pub fn clip_q31()
    ensures first { given Fmt.Q31 1 (Block.Clip (neg 1070960555) (neg 1070960555)) CLIP_Q31_IN_1 ≡
        CLIP_Q31_OUT_1 }
    ensures second { given Fmt.Q31 1 (Block.Clip (pos 2147483647) (pos 2147483647)) CLIP_Q31_IN_2 ≡
        CLIP_Q31_OUT_2 }
    ensures third { given Fmt.Q31 1 (Block.Clip (pos 15) (pos 479747123)) CLIP_Q31_IN_3 ≡ CLIP_Q31_OUT_3 }
{}

const CLIP_Q15_IN_1: [i16; 12] = [
    -19433, -29140, 7, 5704, 15994, -20393, 18163, -25243, -10, -30992, -32768, -692,
];

const CLIP_Q15_OUT_1: [i16; 12] = [
    16383, 16383, 16383, 16383, 16383, 16383, 18163, 16383, 16383, 16383, 16383, 16383,
];

const CLIP_Q15_IN_2: [i16; 2] = [-15, -16622];

const CLIP_Q15_OUT_2: [i16; 2] = [-15, -813];

const CLIP_Q15_IN_3: [i16; 5] = [17274, 23698, -8073, -21062, -15946];

const CLIP_Q15_OUT_3: [i16; 5] = [13314, 13314, 7, 7, 7];

pub fn clip_q15()
    ensures first { given Fmt.Q15 2 (Block.Clip (pos 16383) (pos 32767)) CLIP_Q15_IN_1 ≡ CLIP_Q15_OUT_1 }
    ensures second { given Fmt.Q15 1 (Block.Clip (neg 813) (pos 32767)) CLIP_Q15_IN_2 ≡ CLIP_Q15_OUT_2 }
    ensures third { given Fmt.Q15 1 (Block.Clip (pos 7) (pos 13314)) CLIP_Q15_IN_3 ≡ CLIP_Q15_OUT_3 }
{}

const NEGATE_Q7_IN_1: [i8; 5] = [1, 0, 127, -128, 126];

const NEGATE_Q7_OUT_1: [i8; 5] = [-1, 0, -127, 127, -126];

const NEGATE_Q7_IN_2: [i8; 4] = [-6, -5, 52, 80];

const NEGATE_Q7_OUT_2: [i8; 4] = [6, 5, -52, -80];

const NEGATE_Q7_IN_3: [i8; 5] = [-128, 1, 126, -128, 1];

const NEGATE_Q7_OUT_3: [i8; 5] = [127, -1, -126, 127, -1];

pub fn negate_q7()
    ensures first { given Fmt.Q7 1 Block.Negate NEGATE_Q7_IN_1 ≡ NEGATE_Q7_OUT_1 }
    ensures second { given Fmt.Q7 2 Block.Negate NEGATE_Q7_IN_2 ≡ NEGATE_Q7_OUT_2 }
    ensures third { given Fmt.Q7 1 Block.Negate NEGATE_Q7_IN_3 ≡ NEGATE_Q7_OUT_3 }
{}

const NEGATE_Q15_IN_1: [i16; 5] = [-1, -1, -32768, -32768, 32767];

const NEGATE_Q15_OUT_1: [i16; 5] = [1, 1, 32767, 32767, -32767];

const NEGATE_Q15_IN_2: [i16; 4] = [32767, 1, 1, 1];

const NEGATE_Q15_OUT_2: [i16; 4] = [-32767, -1, -1, -1];

const NEGATE_Q15_IN_3: [i16; 4] = [16385, 32766, 32767, -1];

const NEGATE_Q15_OUT_3: [i16; 4] = [-16385, -32766, -32767, 1];

pub fn negate_q15()
    ensures first { given Fmt.Q15 1 Block.Negate NEGATE_Q15_IN_1 ≡ NEGATE_Q15_OUT_1 }
    ensures second { given Fmt.Q15 2 Block.Negate NEGATE_Q15_IN_2 ≡ NEGATE_Q15_OUT_2 }
    ensures third { given Fmt.Q15 1 Block.Negate NEGATE_Q15_IN_3 ≡ NEGATE_Q15_OUT_3 }
{}

const NEGATE_Q31_IN_1: [i32; 4] = [1499694220, 17, 1073741823, 2147483647];

const NEGATE_Q31_OUT_1: [i32; 4] = [-1499694220, -17, -1073741823, -2147483647];

const NEGATE_Q31_IN_2: [i32; 2] = [2147483646, 2147483646];

const NEGATE_Q31_OUT_2: [i32; 2] = [-2147483646, -2147483646];

const NEGATE_Q31_IN_3: [i32; 4] = [2147483647, 2147483647, 2147483647, 2147483647];

const NEGATE_Q31_OUT_3: [i32; 4] = [-2147483647, -2147483647, -2147483647, -2147483647];

pub fn negate_q31()
    ensures first { given Fmt.Q31 1 Block.Negate NEGATE_Q31_IN_1 ≡ NEGATE_Q31_OUT_1 }
    ensures second { given Fmt.Q31 1 Block.Negate NEGATE_Q31_IN_2 ≡ NEGATE_Q31_OUT_2 }
    ensures third { given Fmt.Q31 1 Block.Negate NEGATE_Q31_IN_3 ≡ NEGATE_Q31_OUT_3 }
{}

const OFFSET_Q7_IN_1: [i8; 4] = [-128, 127, -128, -128];

const OFFSET_Q7_OUT_1: [i8; 4] = [-128, -1, -128, -128];

const OFFSET_Q7_IN_2: [i8; 2] = [5, 7];

const OFFSET_Q7_OUT_2: [i8; 2] = [-122, -120];

const OFFSET_Q7_IN_3: [i8; 2] = [-127, 127];

const OFFSET_Q7_OUT_3: [i8; 2] = [-25, 127];

pub fn offset_q7()
    ensures first { given Fmt.Q7 1 (Block.Offset (neg 128)) OFFSET_Q7_IN_1 ≡ OFFSET_Q7_OUT_1 }
    ensures second { given Fmt.Q7 1 (Block.Offset (neg 127)) OFFSET_Q7_IN_2 ≡ OFFSET_Q7_OUT_2 }
    ensures third { given Fmt.Q7 1 (Block.Offset (pos 102)) OFFSET_Q7_IN_3 ≡ OFFSET_Q7_OUT_3 }
{}

const OFFSET_Q15_IN_1: [i16; 5] = [32767, 1, -32768, -32767, 16384];

const OFFSET_Q15_OUT_1: [i16; 5] = [32767, 24910, -7859, -7858, 32767];

const OFFSET_Q15_IN_2: [i16; 4] = [1, -1, 16384, 16384];

const OFFSET_Q15_OUT_2: [i16; 4] = [-16, -18, 16367, 16367];

const OFFSET_Q15_IN_3: [i16; 5] = [-18, 24912, -3, -6, 0];

const OFFSET_Q15_OUT_3: [i16; 5] = [-25505, -575, -25490, -25493, -25487];

pub fn offset_q15()
    ensures first { given Fmt.Q15 1 (Block.Offset (pos 24909)) OFFSET_Q15_IN_1 ≡ OFFSET_Q15_OUT_1 }
    ensures second { given Fmt.Q15 1 (Block.Offset (neg 17)) OFFSET_Q15_IN_2 ≡ OFFSET_Q15_OUT_2 }
    ensures third { given Fmt.Q15 1 (Block.Offset (neg 25487)) OFFSET_Q15_IN_3 ≡ OFFSET_Q15_OUT_3 }
{}

const OFFSET_Q31_IN_1: [i32; 1] = [187913323];

const OFFSET_Q31_OUT_1: [i32; 1] = [-1959570325];

const OFFSET_Q31_IN_2: [i32; 4] = [-2147483648, -2147483648, -2147483648, -2147483648];

const OFFSET_Q31_OUT_2: [i32; 4] = [-1, -1, -1, -1];

const OFFSET_Q31_IN_3: [i32; 5] = [12, -20, 14, 1, -2147483647];

const OFFSET_Q31_OUT_3: [i32; 5] = [123052544, 123052512, 123052546, 123052533, -2024431115];

pub fn offset_q31()
    ensures first { given Fmt.Q31 1 (Block.Offset (neg 2147483648)) OFFSET_Q31_IN_1 ≡ OFFSET_Q31_OUT_1 }
    ensures second { given Fmt.Q31 1 (Block.Offset (pos 2147483647)) OFFSET_Q31_IN_2 ≡ OFFSET_Q31_OUT_2 }
    ensures third { given Fmt.Q31 1 (Block.Offset (pos 123052532)) OFFSET_Q31_IN_3 ≡ OFFSET_Q31_OUT_3 }
{}

const SCALE_Q7_IN_1: [i8; 6] = [-128, 127, 0, 127, 126, 127];

const SCALE_Q7_OUT_1: [i8; 6] = [-128, 127, 0, 127, 127, 127];

const SCALE_Q7_IN_2: [i8; 3] = [-1, -127, 126];

const SCALE_Q7_OUT_2: [i8; 3] = [-1, -127, 126];

const SCALE_Q7_IN_3: [i8; 3] = [-128, -1, 126];

const SCALE_Q7_OUT_3: [i8; 3] = [-1, -1, 0];

pub fn scale_q7()
    ensures first { given Fmt.Q7 1 (Block.Scale (pos 127) (pos 7)) SCALE_Q7_IN_1 ≡ SCALE_Q7_OUT_1 }
    ensures second { given Fmt.Q7 1 (Block.Scale (pos 1) (pos 7)) SCALE_Q7_IN_2 ≡ SCALE_Q7_OUT_2 }
    ensures third { given Fmt.Q7 1 (Block.Scale (pos 126) (neg 8)) SCALE_Q7_IN_3 ≡ SCALE_Q7_OUT_3 }
{}

const SCALE_Q31_IN_1: [i32; 3] = [-2147483648, -2147483648, -2147483648];

const SCALE_Q31_OUT_1: [i32; 3] = [2147483647, 2147483647, 2147483647];

const SCALE_Q31_IN_2: [i32; 1] = [2147483647];

const SCALE_Q31_OUT_2: [i32; 1] = [0];

const SCALE_Q31_IN_3: [i32; 4] = [3, 5, 7, 9];

const SCALE_Q31_OUT_3: [i32; 4] = [0, 4, 4, 8];

pub fn scale_q31()
    ensures first { given Fmt.Q31 1 (Block.Scale (neg 2147483648) (pos 30)) SCALE_Q31_IN_1 ≡ SCALE_Q31_OUT_1 }
    ensures second { given Fmt.Q31 1 (Block.Scale (pos 0) (neg 31)) SCALE_Q31_IN_2 ≡ SCALE_Q31_OUT_2 }
    ensures third { given Fmt.Q31 1 (Block.Scale (pos 1062776692) (pos 1)) SCALE_Q31_IN_3 ≡ SCALE_Q31_OUT_3 }
{}

const SCALE_Q15_IN_1: [i16; 2] = [32766, 32766];

const SCALE_Q15_OUT_1: [i16; 2] = [-32768, -32768];

const SCALE_Q15_IN_2: [i16; 4] = [1, -1, 1, -1];

const SCALE_Q15_OUT_2: [i16; 4] = [32767, -32767, 32767, -32767];

const SCALE_Q15_IN_3: [i16; 6] = [1745, 5, 1, 261, 16383, 517];

const SCALE_Q15_OUT_3: [i16; 6] = [32767, 32767, 9382, 32767, 32767, 32767];

pub fn scale_q15()
    ensures first { given Fmt.Q15 1 (Block.Scale (neg 32768) (pos 15)) SCALE_Q15_IN_1 ≡ SCALE_Q15_OUT_1 }
    ensures second { given Fmt.Q15 2 (Block.Scale (pos 32767) (pos 15)) SCALE_Q15_IN_2 ≡ SCALE_Q15_OUT_2 }
    ensures third { given Fmt.Q15 2 (Block.Scale (pos 9382) (pos 15)) SCALE_Q15_IN_3 ≡ SCALE_Q15_OUT_3 }
{}

const SHIFT_Q15_IN_1: [i16; 4] = [-32768, 1, -32768, 32767];

const SHIFT_Q15_OUT_1: [i16; 4] = [-1, 0, -1, 0];

const SHIFT_Q15_IN_2: [i16; 5] = [4, 260, 516, 772, 1028];

const SHIFT_Q15_OUT_2: [i16; 5] = [4, 260, 516, 772, 1028];

const SHIFT_Q15_IN_3: [i16; 6] = [-3, 32766, -1, 32766, 1, 32766];

const SHIFT_Q15_OUT_3: [i16; 6] = [-1, 0, -1, 0, 0, 0];

pub fn shift_q15()
    ensures first { given Fmt.Q15 1 (Block.Shift (neg 15)) SHIFT_Q15_IN_1 ≡ SHIFT_Q15_OUT_1 }
    ensures second { given Fmt.Q15 1 (Block.Shift (pos 0)) SHIFT_Q15_IN_2 ≡ SHIFT_Q15_OUT_2 }
    ensures third { given Fmt.Q15 2 (Block.Shift (neg 15)) SHIFT_Q15_IN_3 ≡ SHIFT_Q15_OUT_3 }
{}

const SHIFT_Q31_IN_1: [i32; 6] = [-2147483648, -226478983, -9, -1, -2147483648, 43642876];

const SHIFT_Q31_OUT_1: [i32; 6] = [-134217728, -14154937, -1, -1, -134217728, 2727679];

const SHIFT_Q31_IN_2: [i32; 4] = [-8, -5, 10, 8];

const SHIFT_Q31_OUT_2: [i32; 4] = [-16777216, -10485760, 20971520, 16777216];

const SHIFT_Q31_IN_3: [i32; 8] = [-3, 12, -1, 803035265, 1, 950523306, 3, 776270694];

const SHIFT_Q31_OUT_3: [i32; 8] = [-1, 0, -1, 0, 0, 0, 0, 0];

pub fn shift_q31()
    ensures first { given Fmt.Q31 1 (Block.Shift (neg 4)) SHIFT_Q31_IN_1 ≡ SHIFT_Q31_OUT_1 }
    ensures second { given Fmt.Q31 1 (Block.Shift (pos 21)) SHIFT_Q31_IN_2 ≡ SHIFT_Q31_OUT_2 }
    ensures third { given Fmt.Q31 2 (Block.Shift (neg 31)) SHIFT_Q31_IN_3 ≡ SHIFT_Q31_OUT_3 }
{}

const SHIFT_Q7_IN_1: [i8; 8] = [64, 63, -128, 63, 0, 63, -128, 63];

const SHIFT_Q7_OUT_1: [i8; 8] = [0, 0, -1, 0, 0, 0, -1, 0];

const SHIFT_Q7_IN_2: [i8; 3] = [104, 11, -92];

const SHIFT_Q7_OUT_2: [i8; 3] = [127, 22, -128];

const SHIFT_Q7_IN_3: [i8; 2] = [126, -1];

const SHIFT_Q7_OUT_3: [i8; 2] = [0, -1];

pub fn shift_q7()
    ensures first { given Fmt.Q7 2 (Block.Shift (neg 7)) SHIFT_Q7_IN_1 ≡ SHIFT_Q7_OUT_1 }
    ensures second { given Fmt.Q7 1 (Block.Shift (pos 1)) SHIFT_Q7_IN_2 ≡ SHIFT_Q7_OUT_2 }
    ensures third { given Fmt.Q7 2 (Block.Shift (neg 7)) SHIFT_Q7_IN_3 ≡ SHIFT_Q7_OUT_3 }
{}

const Q7_TO_Q31_IN_1: [i8; 4] = [-10, -15, 31, -30];

const Q7_TO_Q31_OUT_1: [i32; 4] = [-167772160, -251658240, 520093696, -503316480];

const Q7_TO_Q31_IN_2: [i8; 3] = [-1, -25, -49];

const Q7_TO_Q31_OUT_2: [i32; 3] = [-16777216, -419430400, -822083584];

const Q7_TO_Q31_IN_3: [i8; 0] = [];

const Q7_TO_Q31_OUT_3: [i32; 0] = [];

pub fn q7_to_q31()
    ensures first { given Fmt.Q7 1 (Block.To Fmt.Q31) Q7_TO_Q31_IN_1 ≡ Q7_TO_Q31_OUT_1 }
    ensures second { given Fmt.Q7 1 (Block.To Fmt.Q31) Q7_TO_Q31_IN_2 ≡ Q7_TO_Q31_OUT_2 }
    ensures third { given Fmt.Q7 1 (Block.To Fmt.Q31) Q7_TO_Q31_IN_3 ≡ Q7_TO_Q31_OUT_3 }
{}

const Q7_TO_Q15_IN_1: [i8; 6] = [11, -6, 0, -14, 2, -4];

const Q7_TO_Q15_OUT_1: [i16; 6] = [2816, -1536, 0, -3584, 512, -1024];

const Q7_TO_Q15_IN_2: [i8; 2] = [-103, -66];

const Q7_TO_Q15_OUT_2: [i16; 2] = [-26368, -16896];

const Q7_TO_Q15_IN_3: [i8; 6] = [1, 1, 1, 1, 1, 1];

const Q7_TO_Q15_OUT_3: [i16; 6] = [256, 256, 256, 256, 256, 256];

pub fn q7_to_q15()
    ensures first { given Fmt.Q7 1 (Block.To Fmt.Q15) Q7_TO_Q15_IN_1 ≡ Q7_TO_Q15_OUT_1 }
    ensures second { given Fmt.Q7 1 (Block.To Fmt.Q15) Q7_TO_Q15_IN_2 ≡ Q7_TO_Q15_OUT_2 }
    ensures third { given Fmt.Q7 1 (Block.To Fmt.Q15) Q7_TO_Q15_IN_3 ≡ Q7_TO_Q15_OUT_3 }
{}

const Q31_TO_Q15_IN_1: [i32; 1] = [2147483647];

const Q31_TO_Q15_OUT_1: [i16; 1] = [32767];

const Q31_TO_Q15_IN_2: [i32; 5] = [
    -2147483648,
    -2147483648,
    -2147483648,
    -2147483648,
    -2147483648,
];

const Q31_TO_Q15_OUT_2: [i16; 5] = [-32768, -32768, -32768, -32768, -32768];

const Q31_TO_Q15_IN_3: [i32; 6] = [0, 0, 0, 0, 0, 0];

const Q31_TO_Q15_OUT_3: [i16; 6] = [0, 0, 0, 0, 0, 0];

pub fn q31_to_q15()
    ensures first { given Fmt.Q31 1 (Block.To Fmt.Q15) Q31_TO_Q15_IN_1 ≡ Q31_TO_Q15_OUT_1 }
    ensures second { given Fmt.Q31 1 (Block.To Fmt.Q15) Q31_TO_Q15_IN_2 ≡ Q31_TO_Q15_OUT_2 }
    ensures third { given Fmt.Q31 1 (Block.To Fmt.Q15) Q31_TO_Q15_IN_3 ≡ Q31_TO_Q15_OUT_3 }
{}

const Q31_TO_Q7_IN_1: [i32; 2] = [1358540973, 270988448];

const Q31_TO_Q7_OUT_1: [i8; 2] = [80, 16];

const Q31_TO_Q7_IN_2: [i32; 1] = [-1];

const Q31_TO_Q7_OUT_2: [i8; 1] = [-1];

const Q31_TO_Q7_IN_3: [i32; 4] = [2147483647, 2147483647, 2147483647, 2147483647];

const Q31_TO_Q7_OUT_3: [i8; 4] = [127, 127, 127, 127];

pub fn q31_to_q7()
    ensures first { given Fmt.Q31 1 (Block.To Fmt.Q7) Q31_TO_Q7_IN_1 ≡ Q31_TO_Q7_OUT_1 }
    ensures second { given Fmt.Q31 1 (Block.To Fmt.Q7) Q31_TO_Q7_IN_2 ≡ Q31_TO_Q7_OUT_2 }
    ensures third { given Fmt.Q31 1 (Block.To Fmt.Q7) Q31_TO_Q7_IN_3 ≡ Q31_TO_Q7_OUT_3 }
{}

const Q15_TO_Q31_IN_1: [i16; 6] = [32767, 32767, 32767, 32767, 32767, 32767];

const Q15_TO_Q31_OUT_1: [i32; 6] = [
    2147418112, 2147418112, 2147418112, 2147418112, 2147418112, 2147418112,
];

const Q15_TO_Q31_IN_2: [i16; 4] = [32767, 1, 1, 32767];

const Q15_TO_Q31_OUT_2: [i32; 4] = [2147418112, 65536, 65536, 2147418112];

const Q15_TO_Q31_IN_3: [i16; 1] = [3];

const Q15_TO_Q31_OUT_3: [i32; 1] = [196608];

pub fn q15_to_q31()
    ensures first { given Fmt.Q15 1 (Block.To Fmt.Q31) Q15_TO_Q31_IN_1 ≡ Q15_TO_Q31_OUT_1 }
    ensures second { given Fmt.Q15 2 (Block.To Fmt.Q31) Q15_TO_Q31_IN_2 ≡ Q15_TO_Q31_OUT_2 }
    ensures third { given Fmt.Q15 1 (Block.To Fmt.Q31) Q15_TO_Q31_IN_3 ≡ Q15_TO_Q31_OUT_3 }
{}

const Q15_TO_Q7_IN_1: [i16; 3] = [32767, 32767, 32767];

const Q15_TO_Q7_OUT_1: [i8; 3] = [127, 127, 127];

const Q15_TO_Q7_IN_2: [i16; 2] = [32767, 1349];

const Q15_TO_Q7_OUT_2: [i8; 2] = [127, 5];

pub fn q15_to_q7()
    ensures first { given Fmt.Q15 1 (Block.To Fmt.Q7) Q15_TO_Q7_IN_1 ≡ Q15_TO_Q7_OUT_1 }
    ensures second { given Fmt.Q15 1 (Block.To Fmt.Q7) Q15_TO_Q7_IN_2 ≡ Q15_TO_Q7_OUT_2 }
{}
