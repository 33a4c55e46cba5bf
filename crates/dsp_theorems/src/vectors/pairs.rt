//! Blocks that work on one frame.

ghost use Rattle.std.specs.Prelude.{◌≡◌};
ghost use Rattle.dsp_theorems.specs.Given.{given};

use dsp_defs::{Block, Fmt};

const ADD_Q31_IN_1: [i32; 10] = [
    -1073741824,
    -8,
    1073741824,
    11,
    -2147483648,
    0,
    2147483647,
    6,
    -1,
    -18,
];

const ADD_Q31_OUT_1: [i32; 5] = [-1073741832, 1073741835, -2147483648, 2147483647, -19];

const ADD_Q31_IN_2: [i32; 6] = [-3, -10, -14, 18, -11, 3];

const ADD_Q31_OUT_2: [i32; 3] = [-13, 4, -8];

const ADD_Q31_IN_3: [i32; 8] = [
    10,
    -1724109203,
    19,
    -1047787875,
    1073741825,
    -1774729368,
    -12,
    1986310169,
];

const ADD_Q31_OUT_3: [i32; 4] = [-1724109193, -1047787856, -700987543, 1986310157];

pub fn add_q31()
    ensures first { given Fmt.Q31 2 Block.Add ADD_Q31_IN_1 ≡ ADD_Q31_OUT_1 }
    ensures second { given Fmt.Q31 2 Block.Add ADD_Q31_IN_2 ≡ ADD_Q31_OUT_2 }
    ensures third { given Fmt.Q31 2 Block.Add ADD_Q31_IN_3 ≡ ADD_Q31_OUT_3 }
{}

const ADD_Q15_IN_1: [i16; 10] = [-1, 0, 1, 0, -32768, 0, 1, 0, 32767, 0];

const ADD_Q15_OUT_1: [i16; 5] = [-1, 1, -32768, 1, 32767];

const ADD_Q15_IN_2: [i16; 4] = [-20501, -15, -23302, 9668];

const ADD_Q15_OUT_2: [i16; 2] = [-20516, -13634];

const ADD_Q15_IN_3: [i16; 4] = [-1, 32766, 16384, -16384];

const ADD_Q15_OUT_3: [i16; 2] = [32765, 0];

pub fn add_q15()
    ensures first { given Fmt.Q15 2 Block.Add ADD_Q15_IN_1 ≡ ADD_Q15_OUT_1 }
    ensures second { given Fmt.Q15 2 Block.Add ADD_Q15_IN_2 ≡ ADD_Q15_OUT_2 }
    ensures third { given Fmt.Q15 2 Block.Add ADD_Q15_IN_3 ≡ ADD_Q15_OUT_3 }
{}

const ADD_Q7_IN_1: [i8; 6] = [-4, -128, -28, 51, -52, -17];

const ADD_Q7_OUT_1: [i8; 3] = [-128, 23, -69];

const ADD_Q7_IN_2: [i8; 4] = [7, 127, -8, 127];

const ADD_Q7_OUT_2: [i8; 2] = [127, 119];

const ADD_Q7_IN_3: [i8; 6] = [0, 71, 63, 18, 63, -18];

const ADD_Q7_OUT_3: [i8; 3] = [71, 81, 45];

pub fn add_q7()
    ensures first { given Fmt.Q7 2 Block.Add ADD_Q7_IN_1 ≡ ADD_Q7_OUT_1 }
    ensures second { given Fmt.Q7 2 Block.Add ADD_Q7_IN_2 ≡ ADD_Q7_OUT_2 }
    ensures third { given Fmt.Q7 2 Block.Add ADD_Q7_IN_3 ≡ ADD_Q7_OUT_3 }
{}

const MULT_Q15_IN_1: [i16; 8] = [-32768, -32768, -17, -32768, -16, -32768, 18, -32768];

const MULT_Q15_OUT_1: [i16; 4] = [32767, 17, 16, -18];

const MULT_Q15_IN_2: [i16; 2] = [32767, -5];

const MULT_Q15_OUT_2: [i16; 1] = [-5];

const MULT_Q15_IN_3: [i16; 4] = [32766, -11, 16385, -28820];

const MULT_Q15_OUT_3: [i16; 2] = [-11, -14411];

pub fn mult_q15()
    ensures first { given Fmt.Q15 2 Block.Mult MULT_Q15_IN_1 ≡ MULT_Q15_OUT_1 }
    ensures second { given Fmt.Q15 2 Block.Mult MULT_Q15_IN_2 ≡ MULT_Q15_OUT_2 }
    ensures third { given Fmt.Q15 2 Block.Mult MULT_Q15_IN_3 ≡ MULT_Q15_OUT_3 }
{}

const MULT_Q31_IN_1: [i32; 8] = [
    2147483647,
    -207310279,
    -1073741824,
    -338202006,
    2147483647,
    366459117,
    -2147483648,
    61378359,
];

const MULT_Q31_OUT_1: [i32; 4] = [-207310280, 169101002, 366459116, -61378360];

const MULT_Q31_IN_2: [i32; 6] = [-3, -2147483648, 0, -2147483648, 3, -2147483648];

const MULT_Q31_OUT_2: [i32; 3] = [2, 0, -4];

const MULT_Q31_IN_3: [i32; 6] = [1580838008, 10, -262057109, -5, 251731295, 19];

const MULT_Q31_OUT_3: [i32; 3] = [6, 0, 2];

pub fn mult_q31()
    ensures first { given Fmt.Q31 2 Block.Mult MULT_Q31_IN_1 ≡ MULT_Q31_OUT_1 }
    ensures second { given Fmt.Q31 2 Block.Mult MULT_Q31_IN_2 ≡ MULT_Q31_OUT_2 }
    ensures third { given Fmt.Q31 2 Block.Mult MULT_Q31_IN_3 ≡ MULT_Q31_OUT_3 }
{}

const MULT_Q7_IN_1: [i8; 12] = [-80, 65, -66, 127, -4, -128, -128, -64, -8, 63, 14, -1];

const MULT_Q7_OUT_1: [i8; 6] = [-41, -66, 4, 64, -4, -1];

const MULT_Q7_IN_2: [i8; 4] = [127, 126, 127, 127];

const MULT_Q7_OUT_2: [i8; 2] = [125, 126];

const MULT_Q7_IN_3: [i8; 10] = [-127, 1, -127, -1, -127, -128, -127, 0, -127, -127];

const MULT_Q7_OUT_3: [i8; 5] = [-1, 0, 127, 0, 126];

pub fn mult_q7()
    ensures first { given Fmt.Q7 2 Block.Mult MULT_Q7_IN_1 ≡ MULT_Q7_OUT_1 }
    ensures second { given Fmt.Q7 2 Block.Mult MULT_Q7_IN_2 ≡ MULT_Q7_OUT_2 }
    ensures third { given Fmt.Q7 2 Block.Mult MULT_Q7_IN_3 ≡ MULT_Q7_OUT_3 }
{}

const ROUTE_Q7_CHANNELS_1: [i32; 4] = [0, 0, 0, 0];

const ROUTE_Q7_IN_1: [i8; 2] = [-127, -128];

const ROUTE_Q7_OUT_1: [i8; 8] = [-127, -127, -127, -127, -128, -128, -128, -128];

const ROUTE_Q7_CHANNELS_2: [i32; 3] = [1, 1, 0];

const ROUTE_Q7_IN_2: [i8; 4] = [-1, 1, -1, 1];

const ROUTE_Q7_OUT_2: [i8; 6] = [1, 1, -1, 1, 1, -1];

const ROUTE_Q7_CHANNELS_3: [i32; 2] = [1, 1];

const ROUTE_Q7_IN_3: [i8; 8] = [101, -122, 19, 0, 1, 14, 19, 15];

const ROUTE_Q7_OUT_3: [i8; 8] = [-122, -122, 0, 0, 14, 14, 15, 15];

pub fn route_q7()
    ensures first { given Fmt.Q7 1 (Block.Route ROUTE_Q7_CHANNELS_1) ROUTE_Q7_IN_1 ≡ ROUTE_Q7_OUT_1 }
    ensures second { given Fmt.Q7 2 (Block.Route ROUTE_Q7_CHANNELS_2) ROUTE_Q7_IN_2 ≡ ROUTE_Q7_OUT_2 }
    ensures third { given Fmt.Q7 2 (Block.Route ROUTE_Q7_CHANNELS_3) ROUTE_Q7_IN_3 ≡ ROUTE_Q7_OUT_3 }
{}

const ROUTE_Q31_CHANNELS_1: [i32; 2] = [1, 1];

const ROUTE_Q31_IN_1: [i32; 8] = [
    1073741823,
    1,
    940052988,
    2147483647,
    1200908329,
    2147483646,
    -1073741824,
    2147483647,
];

const ROUTE_Q31_OUT_1: [i32; 8] = [
    1, 1, 2147483647, 2147483647, 2147483646, 2147483646, 2147483647, 2147483647,
];

const ROUTE_Q31_CHANNELS_2: [i32; 2] = [0, 0];

const ROUTE_Q31_IN_2: [i32; 3] = [-3, 0, 3];

const ROUTE_Q31_OUT_2: [i32; 6] = [-3, -3, 0, 0, 3, 3];

const ROUTE_Q31_CHANNELS_3: [i32; 4] = [0, 0, 0, 0];

const ROUTE_Q31_IN_3: [i32; 2] = [508935879, 1325914699];

const ROUTE_Q31_OUT_3: [i32; 8] = [
    508935879, 508935879, 508935879, 508935879, 1325914699, 1325914699, 1325914699, 1325914699,
];

pub fn route_q31()
    ensures first { given Fmt.Q31 2 (Block.Route ROUTE_Q31_CHANNELS_1) ROUTE_Q31_IN_1 ≡ ROUTE_Q31_OUT_1 }
    ensures second { given Fmt.Q31 1 (Block.Route ROUTE_Q31_CHANNELS_2) ROUTE_Q31_IN_2 ≡ ROUTE_Q31_OUT_2 }
    ensures third { given Fmt.Q31 1 (Block.Route ROUTE_Q31_CHANNELS_3) ROUTE_Q31_IN_3 ≡ ROUTE_Q31_OUT_3 }
{}

const ROUTE_Q15_CHANNELS_1: [i32; 5] = [0, 1, 0, 1, 1];

const ROUTE_Q15_IN_1: [i16; 10] = [
    -32767, 32767, -32767, 32767, -32767, 32767, -32767, 32767, -32767, 32767,
];

const ROUTE_Q15_OUT_1: [i16; 25] = [
    -32767, 32767, -32767, 32767, 32767, -32767, 32767, -32767, 32767, 32767, -32767, 32767,
    -32767, 32767, 32767, -32767, 32767, -32767, 32767, 32767, -32767, 32767, -32767, 32767, 32767,
];

const ROUTE_Q15_CHANNELS_2: [i32; 2] = [0, 0];

const ROUTE_Q15_IN_2: [i16; 2] = [-1, 999];

const ROUTE_Q15_OUT_2: [i16; 4] = [-1, -1, 999, 999];

const ROUTE_Q15_CHANNELS_3: [i32; 3] = [0, 0, 0];

const ROUTE_Q15_IN_3: [i16; 2] = [14, -12];

const ROUTE_Q15_OUT_3: [i16; 6] = [14, 14, 14, -12, -12, -12];

pub fn route_q15()
    ensures first { given Fmt.Q15 2 (Block.Route ROUTE_Q15_CHANNELS_1) ROUTE_Q15_IN_1 ≡ ROUTE_Q15_OUT_1 }
    ensures second { given Fmt.Q15 1 (Block.Route ROUTE_Q15_CHANNELS_2) ROUTE_Q15_IN_2 ≡ ROUTE_Q15_OUT_2 }
    ensures third { given Fmt.Q15 1 (Block.Route ROUTE_Q15_CHANNELS_3) ROUTE_Q15_IN_3 ≡ ROUTE_Q15_OUT_3 }
{}

const SUB_Q7_IN_1: [i8; 6] = [-34, 127, -68, 0, 93, -128];

const SUB_Q7_OUT_1: [i8; 3] = [-128, -68, 127];

const SUB_Q7_IN_2: [i8; 6] = [-1, -106, -1, -122, -1, 95];

const SUB_Q7_OUT_2: [i8; 3] = [105, 121, -96];

const SUB_Q7_IN_3: [i8; 8] = [11, -1, 32, 64, 15, -127, 63, -128];

const SUB_Q7_OUT_3: [i8; 4] = [12, -32, 127, 127];

pub fn sub_q7()
    ensures first { given Fmt.Q7 2 Block.Sub SUB_Q7_IN_1 ≡ SUB_Q7_OUT_1 }
    ensures second { given Fmt.Q7 2 Block.Sub SUB_Q7_IN_2 ≡ SUB_Q7_OUT_2 }
    ensures third { given Fmt.Q7 2 Block.Sub SUB_Q7_IN_3 ≡ SUB_Q7_OUT_3 }
{}

const SUB_Q31_IN_1: [i32; 8] = [0, 2147483647, 0, -2147483648, 0, -1, 0, 2147483647];

const SUB_Q31_OUT_1: [i32; 4] = [-2147483647, 2147483647, 1, -2147483647];

const SUB_Q31_IN_2: [i32; 4] = [-2147483647, 0, 2147483647, 0];

const SUB_Q31_OUT_2: [i32; 2] = [-2147483647, 2147483647];

const SUB_Q31_IN_3: [i32; 6] = [1, -2, 1001, 0, 2001, 2];

const SUB_Q31_OUT_3: [i32; 3] = [3, 1001, 1999];

pub fn sub_q31()
    ensures first { given Fmt.Q31 2 Block.Sub SUB_Q31_IN_1 ≡ SUB_Q31_OUT_1 }
    ensures second { given Fmt.Q31 2 Block.Sub SUB_Q31_IN_2 ≡ SUB_Q31_OUT_2 }
    ensures third { given Fmt.Q31 2 Block.Sub SUB_Q31_IN_3 ≡ SUB_Q31_OUT_3 }
{}

const SUB_Q15_IN_1: [i16; 6] = [32767, -32768, 32767, 16384, 32767, -32768];

const SUB_Q15_OUT_1: [i16; 3] = [32767, 16383, 32767];

const SUB_Q15_IN_2: [i16; 6] = [-30950, 1, 12, 3, 1, 5];

const SUB_Q15_OUT_2: [i16; 3] = [-30951, 9, -4];

const SUB_Q15_IN_3: [i16; 12] = [
    -1, 32767, 1, 32767, 32767, 32767, -32768, 32767, 32767, 32767, 1, 32767,
];

const SUB_Q15_OUT_3: [i16; 6] = [-32768, -32766, 0, -32768, 0, -32766];

pub fn sub_q15()
    ensures first { given Fmt.Q15 2 Block.Sub SUB_Q15_IN_1 ≡ SUB_Q15_OUT_1 }
    ensures second { given Fmt.Q15 2 Block.Sub SUB_Q15_IN_2 ≡ SUB_Q15_OUT_2 }
    ensures third { given Fmt.Q15 2 Block.Sub SUB_Q15_IN_3 ≡ SUB_Q15_OUT_3 }
{}
