//! Callers of dsp_sat.
ghost use Rattle.std.specs.Prelude.{◌≤ℤ◌};

use dsp_defs::Steps;
use dsp_sat::{
    Sample, floor_shift, low_word, mult32x64, sat8, sat16, sat31, sat32, wrap16, wrap32, wrap64,
};
use std::process::Abort;
use std::sync::ledger::Ledger;

/// Two samples, and their sum, their difference and their product.
const PAIRS_7: [(i8, i8, [i32; 3]); 6] = [
    (100, 50, [127, 50, 39]),
    (100, -50, [50, 127, -40]),
    (-100, 50, [-50, -128, -40]),
    (-100, -50, [-128, -50, 39]),
    (-128, -128, [-128, 0, 127]),
    (5, -7, [-2, 12, -1]),
];

const PAIRS_15: [(i16, i16, [i32; 3]); 7] = [
    (30000, 10000, [32767, 20000, 9155]),
    (30000, -10000, [20000, 32767, -9156]),
    (-30000, 10000, [-20000, -32768, -9156]),
    (-30000, -10000, [-32768, -20000, 9155]),
    (-32768, -32768, [-32768, 0, 32767]),
    (16384, 16384, [32767, 0, 8192]),
    (3, -5, [-2, 8, -1]),
];

const PAIRS_31: [(i32, i32, [i32; 3]); 8] = [
    (2000000000, 1000000000, [i32::MAX, 1000000000, 931322574]),
    (2000000000, -1000000000, [1000000000, i32::MAX, -931322576]),
    (-2000000000, 1000000000, [-1000000000, i32::MIN, -931322576]),
    (-2000000000, -1000000000, [i32::MIN, -1000000000, 931322574]),
    (i32::MIN, i32::MIN, [i32::MIN, 0, 2147483646]),
    (i32::MIN, 1, [-2147483647, i32::MIN, -2]),
    (65536, 65536, [131072, 0, 2]),
    (3, -5, [-2, 8, -2]),
];

/// What is made of two samples.
fn pairs<T: Sample, M: Ledger>(rt: &impl Abort, rows: &[(T, T, [i32; 3])], steps: &mut Steps<M>) {
    for (a, b, wanted) in rows {
        let sum = T::add(*a, *b).number();
        let difference = T::sub(*a, *b).number();
        let product = T::mult(*a, *b, steps).number();
        assert_same!(rt; [sum, difference, product], *wanted);
    }
}

/// A sample, the sample with its sign turned, and its absolute value.
const ALONE_7: [(i8, [i32; 2]); 5] = [
    (-128, [127, 127]),
    (-127, [127, 127]),
    (127, [-127, 127]),
    (-5, [5, 5]),
    (0, [0, 0]),
];

const ALONE_15: [(i16, [i32; 2]); 5] = [
    (-32768, [32767, 32767]),
    (-32767, [32767, 32767]),
    (32767, [-32767, 32767]),
    (-9, [9, 9]),
    (0, [0, 0]),
];

const ALONE_31: [(i32, [i32; 2]); 5] = [
    (i32::MIN, [i32::MAX, i32::MAX]),
    (-2147483647, [i32::MAX, i32::MAX]),
    (i32::MAX, [-2147483647, i32::MAX]),
    (-9, [9, 9]),
    (0, [0, 0]),
];

fn alone<T: Sample>(rt: &impl Abort, rows: &[(T, [i32; 2])]) {
    for (x, wanted) in rows {
        let made = [T::negate(*x).number(), T::abs(*x).number()];
        assert_same!(rt; made, *wanted);
    }
}

/// Three samples clipped to a range: one below it, one in it and one above it.
fn clipped<T: Sample>(rt: &impl Abort, xs: [T; 3], low: T, high: T, wanted: [i32; 3])
    requires { T.number low ≤ℤ T.number high }
{
    let made = [
        T::clip(xs[0], low, high).number(),
        T::clip(xs[1], low, high).number(),
        T::clip(xs[2], low, high).number(),
    ];
    assert_same!(rt; made, wanted);
}

#[test]
fn samples_alone(rt: HostRuntime) {
    alone(&rt, &ALONE_7);
    alone(&rt, &ALONE_15);
    alone(&rt, &ALONE_31);
    clipped(&rt, [-128i8, 2, 127], -3, 5, [-3, 2, 5]);
    clipped(&rt, [-32768i16, 200, 32767], -300, 500, [-300, 200, 500]);
    clipped(
        &rt,
        [i32::MIN, 0, i32::MAX],
        -70000,
        80000,
        [-70000, 0, 80000],
    );
}

/// A sample, the places that it is shifted by, and what it is then.
const SHIFTED_7: [(i8, i32, i8); 9] = [
    (5, 4, 80),
    (5, 5, 127),
    (-5, 5, -128),
    (-1, 7, -128),
    (1, 7, 127),
    (-128, -7, -1),
    (127, -7, 0),
    (-5, -1, -3),
    (9, 0, 9),
];

const SHIFTED_15: [(i16, i32, i16); 9] = [
    (1000, 5, 32000),
    (1000, 6, 32767),
    (-1000, 6, -32768),
    (-1, 15, -32768),
    (1, 15, 32767),
    (-32768, -15, -1),
    (32767, -15, 0),
    (-1001, -1, -501),
    (7, 0, 7),
];

const SHIFTED_31: [(i32, i32, i32); 9] = [
    (1, 30, 1073741824),
    (1, 31, i32::MAX),
    (-1, 31, i32::MIN),
    (1048576, 11, i32::MAX),
    (-1048576, 11, i32::MIN),
    (i32::MIN, -31, -1),
    (i32::MAX, -31, 0),
    (-3, -1, -2),
    (5, 0, 5),
];

#[test]
fn shifted_samples(rt: HostRuntime) {
    for (x, places, wanted) in &SHIFTED_7 {
        assert_holds!(&rt; -7 <= *places);
        assert_holds!(&rt; *places <= 7);
        assert_same!(&rt; i8::shift(*x, *places), *wanted);
    }
    for (x, places, wanted) in &SHIFTED_15 {
        assert_holds!(&rt; -15 <= *places);
        assert_holds!(&rt; *places <= 15);
        assert_same!(&rt; i16::shift(*x, *places), *wanted);
    }
    for (x, places, wanted) in &SHIFTED_31 {
        assert_holds!(&rt; -31 <= *places);
        assert_holds!(&rt; *places <= 31);
        assert_same!(&rt; i32::shift(*x, *places), *wanted);
    }
}

/// A sample, its factor, the places that the product is shifted by, and what it is then.
const SCALED_7: [(i8, i8, i32, i8); 8] = [
    (100, 64, 0, 50),
    (100, 64, 1, 100),
    (100, 64, 2, 127),
    (-100, 64, 2, -128),
    (-128, -128, 7, 127),
    (3, -5, 6, -8),
    (-1, 1, -8, -1),
    (127, 127, -8, 0),
];

const SCALED_15: [(i16, i16, i32, i16); 8] = [
    (20000, 16384, 0, 10000),
    (20000, 16384, 1, 20000),
    (20000, 16384, 2, 32767),
    (-20000, 16384, 2, -32768),
    (-32768, -32768, 15, 32767),
    (3, -5, 14, -8),
    (-1, 1, -16, -1),
    (32767, 32767, -16, 0),
];

/// Samples times a fraction and a power of two.
fn scaled<M: Ledger>(rt: &impl Abort, steps: &mut Steps<M>) {
    for (x, fract, places, wanted) in &SCALED_7 {
        assert_holds!(rt; -8 <= *places);
        assert_holds!(rt; *places <= 7);
        assert_same!(rt; i8::scale(*x, *fract, *places, steps), *wanted);
    }
    for (x, fract, places, wanted) in &SCALED_15 {
        assert_holds!(rt; -16 <= *places);
        assert_holds!(rt; *places <= 15);
        assert_same!(rt; i16::scale(*x, *fract, *places, steps), *wanted);
    }
}

/// The same in Q31, where the upper half of the product is moved, by one place more.
const SCALED_31: [(i32, i32, i32, i32); 12] = [
    (2000000000, 1000000000, 0, 931322574),
    (2000000000, 1000000000, 1, 1862645148),
    (2000000000, 1000000000, 2, i32::MAX),
    (2000000000, 1000000000, -1, 465661287),
    (2000000000, 1000000000, -2, 232830643),
    (-2000000000, 1000000000, 1, -1862645152),
    (-2000000000, 1000000000, 2, i32::MIN),
    (i32::MIN, i32::MIN, 0, i32::MAX),
    (i32::MIN, i32::MIN, -31, 1),
    (i32::MIN, 1, -31, -1),
    (65536, 65536, 30, i32::MAX),
    (65536, -65536, 30, i32::MIN),
];

/// Words times a fraction and a power of two.
fn scaled_words<M: Ledger>(rt: &impl Abort, steps: &mut Steps<M>) {
    for (x, fract, places, wanted) in &SCALED_31 {
        assert_holds!(rt; -31 <= *places);
        assert_holds!(rt; *places <= 30);
        assert_same!(rt; i32::scale(*x, *fract, *places, steps), *wanted);
    }
}

/// Two numbers, and their product without its low 32 bits.
const WIDE_PRODUCTS: [(i64, i32, i64); 4] = [
    (4294967296, 3, 3),
    (4294967295, 1, 0),
    (-1, 1, -1),
    (i64::MIN, i32::MIN, 4611686018427387904),
];

/// Products of 32 and 64 bits without their low 32.
fn wide_products<M: Ledger>(rt: &impl Abort, steps: &mut Steps<M>) {
    for (y, a, wanted) in &WIDE_PRODUCTS {
        assert_same!(rt; mult32x64(*y, *a, steps), *wanted);
    }
}

/// The calls that count their products.
pub(crate) fn counted<M: Ledger>(rt: &impl Abort, steps: &mut Steps<M>) {
    pairs(rt, &PAIRS_7, steps);
    pairs(rt, &PAIRS_15, steps);
    pairs(rt, &PAIRS_31, steps);
    scaled(rt, steps);
    scaled_words(rt, steps);
    wide_products(rt, steps);
}

/// A number, and what it is in 8, 16, 31 and 32 bits at its end.
const SATURATED_8: [(i32, i8); 6] = [
    (127, 127),
    (128, 127),
    (-128, -128),
    (-129, -128),
    (i32::MAX, 127),
    (i32::MIN, -128),
];

const SATURATED_16: [(i64, i16); 6] = [
    (32767, 32767),
    (32768, 32767),
    (-32768, -32768),
    (-32769, -32768),
    (i64::MAX, 32767),
    (i64::MIN, -32768),
];

const SATURATED_31: [(i64, i32); 6] = [
    (1073741823, 1073741823),
    (1073741824, 1073741823),
    (-1073741824, -1073741824),
    (-1073741825, -1073741824),
    (i64::MAX, 1073741823),
    (i64::MIN, -1073741824),
];

const SATURATED_32: [(i128, i32); 6] = [
    (2147483647, i32::MAX),
    (2147483648, i32::MAX),
    (-2147483648, i32::MIN),
    (-2147483649, i32::MIN),
    (i128::MAX, i32::MAX),
    (i128::MIN, i32::MIN),
];

#[test]
fn saturated_numbers(rt: HostRuntime) {
    for (value, wanted) in &SATURATED_8 {
        assert_same!(&rt; sat8(*value), *wanted);
    }
    for (value, wanted) in &SATURATED_16 {
        assert_same!(&rt; sat16(*value), *wanted);
    }
    for (value, wanted) in &SATURATED_31 {
        assert_same!(&rt; sat31(*value), *wanted);
    }
    for (value, wanted) in &SATURATED_32 {
        assert_same!(&rt; sat32(*value), *wanted);
    }
}

/// A number, and its low 16, 32 and 64 bits.
const WRAPPED_16: [(i64, i16); 8] = [
    (32767, 32767),
    (32768, -32768),
    (65535, -1),
    (65536, 0),
    (98304, -32768),
    (-32768, -32768),
    (-32769, 32767),
    (i64::MIN, 0),
];

const WRAPPED_32: [(i64, i32); 6] = [
    (2147483647, i32::MAX),
    (2147483648, i32::MIN),
    (4294967295, -1),
    (4294967296, 0),
    (-2147483648, i32::MIN),
    (-2147483649, i32::MAX),
];

const WRAPPED_64: [(i128, i64); 6] = [
    (9223372036854775807, i64::MAX),
    (9223372036854775808, i64::MIN),
    (18446744073709551615, -1),
    (18446744073709551616, 0),
    (-9223372036854775808, i64::MIN),
    (-9223372036854775809, i64::MAX),
];

#[test]
fn wrapped_numbers(rt: HostRuntime) {
    for (value, wanted) in &WRAPPED_16 {
        assert_same!(&rt; wrap16(*value), *wanted);
    }
    for (value, wanted) in &WRAPPED_32 {
        assert_same!(&rt; wrap32(i128::from(*value)), *wanted);
        assert_same!(&rt; low_word(*value), *wanted);
    }
    for (value, wanted) in &WRAPPED_64 {
        assert_same!(&rt; wrap64(*value), *wanted);
    }
}

/// A number, the places that it is shifted down by, and what it is then.
const SHIFTED_DOWN: [(i128, u32, i128); 5] = [
    (7, 1, 3),
    (-7, 1, -4),
    (5, 0, 5),
    (1, 126, 0),
    (-1, 126, -1),
];

#[test]
fn numbers_shifted_down(rt: HostRuntime) {
    for (value, places, wanted) in &SHIFTED_DOWN {
        assert_holds!(&rt; *places <= 126);
        assert_same!(&rt; floor_shift(*value, *places), *wanted);
    }
}
