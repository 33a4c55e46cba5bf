//! Measures.

ghost use Rattle.std.specs.Prelude.{◌≡◌, [], ◌∷◌, pos, Some};
ghost use Rattle.dsp_defs.specs.Numbers.{neg};
ghost use Rattle.dsp_theorems.specs.Given.{measured};

use dsp_defs::{Block, Fmt, Measure};

const CMPLX_DOT_Q31_IN_1: [i32; 12] = [
    2147483647,
    1,
    -2147483648,
    2147483647,
    2147483647,
    2147483647,
    -2147483648,
    2147483647,
    2147483647,
    0,
    -2147483648,
    2147483646,
];

const CMPLX_DOT_Q31_IN_2: [i32; 8] = [
    3,
    1269111120,
    -1507624432,
    -1614196105,
    6,
    -1020025820,
    382307459,
    -1052958382,
];

const CMPLX_DOT_Q31_IN_3: [i32; 12] = [
    -955830809,
    1073741824,
    -20,
    -4,
    1073741824,
    -2147483648,
    16,
    -16,
    -11,
    2147483646,
    18,
    12,
];

pub fn cmplx_dot_q31()
    ensures first { measured Fmt.Q31 4 Block.CmplxDot CMPLX_DOT_Q31_IN_1 ≡ Measure.CmplxDot 1
        (neg 1125899906318335) (pos 562949952503808) ∷ [] }
    ensures second { measured Fmt.Q31 4 Block.CmplxDot CMPLX_DOT_Q31_IN_2 ≡ Measure.CmplxDot 1
        (pos 59481780240585) (neg 140582667355582) ∷ [] }
    ensures third { measured Fmt.Q31 4 Block.CmplxDot CMPLX_DOT_Q31_IN_3 ≡ Measure.CmplxDot 1 (neg 1192511)
        (neg 1863797) ∷ [] }
{}

const CMPLX_DOT_Q15_IN_1: [i16; 8] = [32767, 32767, 32767, -32767, 32767, 32767, 32767, -32768];

const CMPLX_DOT_Q15_IN_2: [i16; 8] = [0, -32768, -32768, -32768, 0, -32768, 0, -32768];

const CMPLX_DOT_Q15_IN_3: [i16; 8] = [-1, -12, 20662, 32767, -32768, 9612, -18, 3];

pub fn cmplx_dot_q15()
    ensures first { measured Fmt.Q15 4 Block.CmplxDot CMPLX_DOT_Q15_IN_1 ≡ Measure.CmplxDot 1 (pos 67105280)
        (neg 512) ∷ [] }
    ensures second { measured Fmt.Q15 4 Block.CmplxDot CMPLX_DOT_Q15_IN_2 ≡ Measure.CmplxDot 1 (neg 33554432)
        (pos 16777216) ∷ [] }
    ensures third { measured Fmt.Q15 4 Block.CmplxDot CMPLX_DOT_Q15_IN_3 ≡ Measure.CmplxDot 1 (pos 14586)
        (neg 8626) ∷ [] }
{}

const DOT_Q31_IN_1: [i32; 6] = [-2147483648, 0, -2147483648, 0, -2147483648, 0];

const DOT_Q31_IN_2: [i32; 6] = [1, 2147483647, 1, 2147483647, 1, 2147483647];

const DOT_Q31_IN_3: [i32; 4] = [352474745, -1658787099, 408618670, 970575834];

pub fn dot_q31()
    ensures first { measured Fmt.Q31 2 Block.Dot DOT_Q31_IN_1 ≡ Measure.Dot 1 (pos 0) ∷ [] }
    ensures second { measured Fmt.Q31 2 Block.Dot DOT_Q31_IN_2 ≡ Measure.Dot 1 (pos 393213) ∷ [] }
    ensures third { measured Fmt.Q31 2 Block.Dot DOT_Q31_IN_3 ≡ Measure.Dot 1 (neg 11479806720344) ∷ [] }
{}

const DOT_Q7_IN_1: [i8; 4] = [127, -15, -128, 16];

const DOT_Q7_IN_2: [i8; 8] = [65, -121, -1, -13, 127, -87, -128, 103];

const DOT_Q7_IN_3: [i8; 10] = [-73, 20, -65, 91, -122, -128, 52, 127, 49, -127];

pub fn dot_q7()
    ensures first { measured Fmt.Q7 2 Block.Dot DOT_Q7_IN_1 ≡ Measure.Dot 1 (neg 3953) ∷ [] }
    ensures second { measured Fmt.Q7 2 Block.Dot DOT_Q7_IN_2 ≡ Measure.Dot 1 (neg 32085) ∷ [] }
    ensures third { measured Fmt.Q7 2 Block.Dot DOT_Q7_IN_3 ≡ Measure.Dot 1 (pos 8622) ∷ [] }
{}

const DOT_Q15_IN_1: [i16; 8] = [
    -32767, -32768, -32767, -32768, -32767, -32768, -32767, -32768,
];

const DOT_Q15_IN_2: [i16; 2] = [-1, 32767];

const DOT_Q15_IN_3: [i16; 6] = [32766, -1, 32766, -1, 32766, -1];

pub fn dot_q15()
    ensures first { measured Fmt.Q15 2 Block.Dot DOT_Q15_IN_1 ≡ Measure.Dot 1 (pos 4294836224) ∷ [] }
    ensures second { measured Fmt.Q15 2 Block.Dot DOT_Q15_IN_2 ≡ Measure.Dot 1 (neg 32767) ∷ [] }
    ensures third { measured Fmt.Q15 2 Block.Dot DOT_Q15_IN_3 ≡ Measure.Dot 1 (neg 98298) ∷ [] }
{}

const MAX_Q31_IN_1: [i32; 4] = [-10, 2147483647, 12, -2147483648];

const MAX_Q31_IN_2: [i32; 2] = [3, 5];

const MAX_Q31_IN_3: [i32; 6] = [
    441461479,
    -2010500376,
    963489463,
    -1514743678,
    416154646,
    -710576265,
];

pub fn max_q31()
    ensures first { measured Fmt.Q31 2 Block.Max MAX_Q31_IN_1 ≡ Measure.Max 1 0 (Some (pos 12, 1)) ∷
        Measure.Max 1 1 (Some (pos 2147483647, 0)) ∷ [] }
    ensures second { measured Fmt.Q31 1 Block.Max MAX_Q31_IN_2 ≡ Measure.Max 1 0 (Some (pos 5, 1)) ∷ [] }
    ensures third { measured Fmt.Q31 1 Block.Max MAX_Q31_IN_3 ≡ Measure.Max 1 0 (Some (pos 963489463, 2)) ∷ [] }
{}

const MAX_Q15_IN_1: [i16; 4] = [-32768, 32767, -32768, -32768];

const MAX_Q15_IN_2: [i16; 4] = [-32768, -1, -32768, -32767];

const MAX_Q15_IN_3: [i16; 4] = [-30414, 18945, -14787, 16660];

pub fn max_q15()
    ensures first { measured Fmt.Q15 1 Block.Max MAX_Q15_IN_1 ≡ Measure.Max 1 0 (Some (pos 32767, 1)) ∷ [] }
    ensures second { measured Fmt.Q15 1 Block.Max MAX_Q15_IN_2 ≡ Measure.Max 1 0 (Some (neg 1, 1)) ∷ [] }
    ensures third { measured Fmt.Q15 1 Block.Max MAX_Q15_IN_3 ≡ Measure.Max 1 0 (Some (pos 18945, 1)) ∷ [] }
{}

const MAX_Q7_IN_1: [i8; 4] = [-128, -128, -128, -128];

const MAX_Q7_IN_2: [i8; 4] = [-10, 124, -14, -9];

const MAX_Q7_IN_3: [i8; 1] = [4];

pub fn max_q7()
    ensures first { measured Fmt.Q7 1 Block.Max MAX_Q7_IN_1 ≡ Measure.Max 1 0 (Some (neg 128, 0)) ∷ [] }
    ensures second { measured Fmt.Q7 2 Block.Max MAX_Q7_IN_2 ≡ Measure.Max 1 0 (Some (neg 10, 0)) ∷
        Measure.Max 1 1 (Some (pos 124, 0)) ∷ [] }
    ensures third { measured Fmt.Q7 1 Block.Max MAX_Q7_IN_3 ≡ Measure.Max 1 0 (Some (pos 4, 0)) ∷ [] }
{}

const MIN_Q7_IN_1: [i8; 3] = [-128, -1, 127];

const MIN_Q7_IN_2: [i8; 2] = [2, 5];

const MIN_Q7_IN_3: [i8; 2] = [-128, 1];

pub fn min_q7()
    ensures first { measured Fmt.Q7 1 Block.Min MIN_Q7_IN_1 ≡ Measure.Min 1 0 (Some (neg 128, 0)) ∷ [] }
    ensures second { measured Fmt.Q7 1 Block.Min MIN_Q7_IN_2 ≡ Measure.Min 1 0 (Some (pos 2, 0)) ∷ [] }
    ensures third { measured Fmt.Q7 1 Block.Min MIN_Q7_IN_3 ≡ Measure.Min 1 0 (Some (neg 128, 0)) ∷ [] }
{}

const MIN_Q15_IN_1: [i16; 1] = [-32768];

const MIN_Q15_IN_2: [i16; 1] = [32767];

const MIN_Q15_IN_3: [i16; 4] = [-16384, 12423, 4, -18];

pub fn min_q15()
    ensures first { measured Fmt.Q15 1 Block.Min MIN_Q15_IN_1 ≡ Measure.Min 1 0 (Some (neg 32768, 0)) ∷ [] }
    ensures second { measured Fmt.Q15 1 Block.Min MIN_Q15_IN_2 ≡ Measure.Min 1 0 (Some (pos 32767, 0)) ∷ [] }
    ensures third { measured Fmt.Q15 1 Block.Min MIN_Q15_IN_3 ≡ Measure.Min 1 0 (Some (neg 16384, 0)) ∷ [] }
{}

const MIN_Q31_IN_1: [i32; 5] = [2147483647, -1, -1, -2147483648, -1073741824];

const MIN_Q31_IN_2: [i32; 4] = [-2147483648, 1, -2147483648, 2147483646];

const MIN_Q31_IN_3: [i32; 4] = [705423872, -378384213, -769689512, 245060443];

pub fn min_q31()
    ensures first { measured Fmt.Q31 1 Block.Min MIN_Q31_IN_1 ≡ Measure.Min 1 0 (Some (neg 2147483648, 3)) ∷
        [] }
    ensures second { measured Fmt.Q31 1 Block.Min MIN_Q31_IN_2 ≡ Measure.Min 1 0 (Some (neg 2147483648, 0)) ∷
        [] }
    ensures third { measured Fmt.Q31 1 Block.Min MIN_Q31_IN_3 ≡ Measure.Min 1 0 (Some (neg 769689512, 2)) ∷ [] }
{}

const POWER_Q31_IN_1: [i32; 5] = [2147483647, -2147483648, -1, 2147483647, -2147483648];

const POWER_Q31_IN_2: [i32; 4] = [2147483646, 2147483647, -1, -1];

const POWER_Q31_IN_3: [i32; 4] = [-12, 1794303234, -1088126773, -677013843];

pub fn power_q31()
    ensures first { measured Fmt.Q31 1 Block.Power POWER_Q31_IN_1 ≡ Measure.Power 1 0 (pos 1125899906318336) ∷
        [] }
    ensures second { measured Fmt.Q31 1 Block.Power POWER_Q31_IN_2 ≡ Measure.Power 1 0 (pos 562949952634880) ∷
        [] }
    ensures third { measured Fmt.Q31 2 Block.Power POWER_Q31_IN_3 ≡ Measure.Power 1 0 (pos 72266838019982) ∷
        Measure.Power 1 1 (pos 224479482370390) ∷ [] }
{}

const POWER_Q7_IN_1: [i8; 5] = [-1, 1, 127, -128, 127];

const POWER_Q7_IN_2: [i8; 3] = [-6, 23, 118];

const POWER_Q7_IN_3: [i8; 4] = [-1, 127, 0, 127];

pub fn power_q7()
    ensures first { measured Fmt.Q7 1 Block.Power POWER_Q7_IN_1 ≡ Measure.Power 1 0 (pos 48644) ∷ [] }
    ensures second { measured Fmt.Q7 1 Block.Power POWER_Q7_IN_2 ≡ Measure.Power 1 0 (pos 14489) ∷ [] }
    ensures third { measured Fmt.Q7 2 Block.Power POWER_Q7_IN_3 ≡ Measure.Power 1 0 (pos 1) ∷ Measure.Power 1
        1 (pos 32258) ∷ [] }
{}

const POWER_Q15_IN_1: [i16; 12] = [
    32767, -32768, -1, -32768, -1, -32768, -32768, -32768, 32766, -32768, -32768, -32768,
];

const POWER_Q15_IN_2: [i16; 4] = [-20, -18, 10, -7];

const POWER_Q15_IN_3: [i16; 0] = [];

pub fn power_q15()
    ensures first { measured Fmt.Q15 2 Block.Power POWER_Q15_IN_1 ≡ Measure.Power 1 0 (pos 4294770695) ∷
        Measure.Power 1 1 (pos 6442450944) ∷ [] }
    ensures second { measured Fmt.Q15 1 Block.Power POWER_Q15_IN_2 ≡ Measure.Power 1 0 (pos 873) ∷ [] }
    ensures third { measured Fmt.Q15 1 Block.Power POWER_Q15_IN_3 ≡ Measure.Power 1 0 (pos 0) ∷ [] }
{}
