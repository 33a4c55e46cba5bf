use std::simd::prelude::*;

/// Four sections of a cascade, a lane of 64 bits for each, whose low word is a number of its section: the
/// coefficients, the last two samples and the last two outputs. What a section gives to the next is its
/// last output.
#[derive(Clone, Copy)]
pub struct WaveLanes {
    pub b0: Simd<i64, 4>,
    pub b1: Simd<i64, 4>,
    pub b2: Simd<i64, 4>,
    pub a1: Simd<i64, 4>,
    pub a2: Simd<i64, 4>,
    pub x1: Simd<i64, 4>,
    pub x2: Simd<i64, 4>,
    pub y1: Simd<i64, 4>,
    pub y2: Simd<i64, 4>,
    pub post_shift: u8,
}
