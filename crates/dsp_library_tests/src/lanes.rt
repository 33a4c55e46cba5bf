//! Callers of dsp_lanes.
ghost use Rattle.std.specs.Prelude.{◌≡◌};
ghost use Rattle.dsp_lanes.specs.Turns.{RisesWithin};

use dsp_defs::Steps;
use dsp_lanes::{Lanes, update_weights};
use std::process::Abort;
use std::sync::ledger::Ledger;

#[test]
fn q7_row(rt: HostRuntime) {
    {
        let mut out = [0i8; 5];
        Lanes::<i8, 16>::negate(&[1, 0, 127, -128, 126], &mut out);
        assert_same!(&rt; out, [-1, 0, -127, 127, -126]);
        Lanes::<i8, 16>::abs(&[127, 63, -128, 127, 1], &mut out);
        assert_same!(&rt; out, [127, 63, 127, 127, 1]);
        Lanes::<i8, 16>::clip(&[-128, 127, 0, 126, 126], 126, 127, &mut out);
        assert_same!(&rt; out, [126, 127, 126, 126, 126]);
    }
    let mut three = [0i8; 3];
    Lanes::<i8, 16>::shift(&[104, 11, -92], 1, &mut three);
    assert_same!(&rt; three, [127, 22, -128]);
    Lanes::<i8, 16>::add(&[-4, -28, -52], &[-128, 51, -17], &mut three);
    assert_same!(&rt; three, [-128, 23, -69]);
}

#[test]
fn q15_row(rt: HostRuntime) {
    {
        let mut out = [0i16; 6];
        let a = [-32767, 32767, 32767, -32768, -32767, 32767];
        let b = [-32768, -32768, 0, 32767, -32767, -32767];
        Lanes::<i16, 8>::add(&a, &b, &mut out);
        assert_same!(&rt; out, [-32768, -1, 32767, -1, -32768, 0]);
    }
    {
        let mut five = [0i16; 5];
        Lanes::<i16, 8>::offset(&[32767, 1, -32768, -32767, 16384], 24909, &mut five);
        assert_same!(&rt; five, [32767, 24910, -7859, -7858, 32767]);
    }
    let mut three = [0i16; 3];
    Lanes::<i16, 8>::sub(&[32767, 32767, 32767], &[-32768, 16384, -32768], &mut three);
    assert_same!(&rt; three, [32767, 16383, 32767]);
}

#[test]
fn q31_row(rt: HostRuntime) {
    let mut out = [0i32; 4];
    Lanes::<i32, 4>::sub(&[0, 0, 0, 0], &[i32::MAX, i32::MIN, -1, i32::MAX], &mut out);
    assert_same!(&rt; out, [-2147483647, i32::MAX, 1, -2147483647]);
    Lanes::<i32, 4>::shift(&[-1, i32::MIN, i32::MIN, i32::MIN], 31, &mut out);
    assert_same!(&rt; out, [i32::MIN, i32::MIN, i32::MIN, i32::MIN]);
}

/// Worked products in Q7.
fn q7_products<M: Ledger>(rt: &impl Abort, steps: &mut Steps<M>)
    ensures { RisesWithin steps.old steps.new 17 2 }
{
    let least = [-128i8; 17];
    let mut out = [0i8; 17];
    Lanes::<i8, 16>::mult(&least, &least, &mut out, steps);
    assert_same!(rt; out, [127i8; 17]);
}

/// A worked dot product in Q31.
fn q31_dot<M: Ledger>(rt: &impl Abort, steps: &mut Steps<M>)
    ensures { RisesWithin steps.old steps.new 5 2 }
{
    let least = [i32::MIN; 5];
    let sum = Lanes::<i32, 4>::dot(&least, &least, steps);
    assert_same!(rt; sum, 4611686018427387904);
}

/// Worked outputs in Q15.
fn q15_rows<M: Ledger>(rt: &impl Abort, steps: &mut Steps<M>)
    ensures { RisesWithin steps.old steps.new 10 4 }
{
    let mut out = [0i16; 5];
    Lanes::<i16, 4>::rows(&[16384, 16384], &[2, 4, 6, 8, 10, 12], &mut out, steps);
    assert_same!(rt; out, [3, 5, 7, 9, 11]);
}

/// Worked outputs, products and terms in Q15.
fn q15_outputs<M: Ledger>(rt: &impl Abort, steps: &mut Steps<M>) {
    {
        // Worked outputs in Q15 of a whole group and a rest, by three taps.
        let mut out = [0i16; 9];
        let window = [2, 4, 6, 8, 10, 12, 14, 16, 18, 20, 22];
        Lanes::<i16, 8>::rows(&[16384, 16384, 0], &window, &mut out, steps);
        assert_same!(rt; out, [3, 5, 7, 9, 11, 13, 15, 17, 19]);
    }
    {
        // Worked products by a factor.
        let mut out = [0i16; 2];
        Lanes::<i16, 8>::scale(&[32766, 32766], -32768, 15, &mut out, steps);
        assert_same!(rt; out, [-32768, -32768]);
    }
    {
        // Worked terms of a sparse filter.
        let mut sums = [2147418113, 0];
        Lanes::<i16, 8>::delayed(32767, &[32767, 1], &mut sums, steps);
        assert_same!(rt; sums, [-1073872894, 32767]);
    }
    {
        // Two products of the least number come to 2^31, which 32 bits do not hold.
        let mut out = [0i16; 17];
        Lanes::<i16, 8>::rows(&[i16::MIN, i16::MIN], &[i16::MIN; 18], &mut out, steps);
        assert_same!(rt; out, [i16::MAX; 17]);
    }
    let sum = Lanes::<i16, 8>::dot(&[i16::MIN; 9], &[i16::MIN; 9], steps);
    assert_same!(rt; sum, 9663676416);
}

/// Worked outputs by a form of each format: whole groups, two at a time, and one output more.
fn halves_of_sums<M: Ledger>(rt: &impl Abort, steps: &mut Steps<M>) {
    {
        let mut seventh = [0i8; 33];
        Lanes::<i8, 16>::rows(&[64, 64], &[2i8; 34], &mut seventh, steps);
        assert_same!(rt; seventh, [2i8; 33]);
    }
    let mut last = [0i32; 9];
    let window = [2, 4, 6, 8, 10, 12, 14, 16, 18, 20];
    Lanes::<i32, 4>::rows(&[1 << 30, 1 << 30], &window, &mut last, steps);
    assert_same!(rt; last, [3, 5, 7, 9, 11, 13, 15, 17, 19]);
}

/// Nine sums of the greatest number, grown by twice 1, -1, 0, 3, .. 7 and -32768.
const GROWN_SUMS: [i64; 9] = [
    i64::MIN + 1,
    i64::MAX - 2,
    i64::MAX,
    i64::MIN + 5,
    i64::MIN + 7,
    i64::MIN + 9,
    i64::MIN + 11,
    i64::MIN + 13,
    i64::MAX - 65536,
];

/// 25 numbers from the least to the greatest.
const RISING_WINDOW: [i16; 25] = [
    -32768, -32767, -30000, -21845, -20000, -10923, -9999, -5000, -1025, -100, -3, -1, 0, 1, 2, 3,
    77, 1024, 3641, 3642, 4096, 9999, 20001, 30000, 32767,
];

/// 25 weights of 30000, each grown by three quarters of its number of `RISING_WINDOW`, rounded down.
const GROWN_WEIGHTS: [i16; 25] = [
    5424, 5424, 7500, 13616, 15000, 21807, 22500, 26250, 29231, 29925, 29997, 29999, 30000, 30000,
    30001, 30002, 30057, 30768, 32730, 32731, 32767, 32767, 32767, 32767, 32767,
];

/// Weights and sums that grow by products.
fn grown<M: Ledger>(rt: &impl Abort, steps: &mut Steps<M>) {
    {
        // Weights that grow, a group and a rest of them, some to the ends.
        let mut weights = [32767i16, -32768, 0, 100, 0, 0, 0, 0, 5];
        let window = [-32768i16, 32767, 2, -3, 32767, 1, 0, 4, -32768];
        update_weights(-32768, &window, &mut weights, steps);
        assert_same!(rt; weights, [32767, -32768, -2, 103, -32767, -1, 0, -4, 32767]);
    }
    {
        let mut longer = [0, i32::MAX, i32::MIN, 7, 1];
        update_weights(1 << 30, &[8, i32::MAX, i32::MIN, -1, 4], &mut longer, steps);
        assert_same!(rt; longer, [4, i32::MAX, i32::MIN, 5, 3]);
    }
    {
        // Three groups and one more.
        let mut weights = [30000i16; 25];
        update_weights(24576, &RISING_WINDOW, &mut weights, steps);
        assert_same!(rt; weights, GROWN_WEIGHTS);
    }
    {
        // Two groups. The product of two least numbers is a change that wraps to the least one.
        let mut groups = [0, -1, i32::MAX, 7, i32::MAX, -7, 5, i32::MIN];
        let window = [i32::MIN, i32::MIN, i32::MIN, -3, -2, i32::MAX, 1, 2];
        update_weights(i32::MIN, &window, &mut groups, steps);
        assert_same!(rt; groups, [i32::MIN, i32::MIN, -1, 9, i32::MAX, i32::MIN, 3, i32::MIN]);
    }
    // Nine sums grow by their products, which wrap.
    let mut sums = [i64::MAX; 9];
    Lanes::<i16, 8>::mac(2, &[1, -1, 0, 3, 4, 5, 6, 7, -32768], &mut sums, steps);
    assert_same!(rt; sums, GROWN_SUMS);
}

/// Every second output, four at a time and one more, by narrow taps, and by the least ones.
fn every_second<M: Ledger>(rt: &impl Abort, steps: &mut Steps<M>) {
    {
        let mut out = [0i16; 5];
        let window = [2i16, 4, 6, 8, 10, 12, 14, 16, 18, 20];
        Lanes::<i16, 8>::strided_rows(&[16384, 16384], &window, 0, 2, &mut out, steps);
        assert_same!(rt; out, [3, 7, 11, 15, 19]);
        Lanes::<i16, 8>::strided_rows(&[i16::MIN; 9], &[i16::MIN; 17], 0, 2, &mut out, steps);
        assert_same!(rt; out, [i16::MAX; 5]);
    }
    let mut last = [0i32; 5];
    let longer = [2, 4, 6, 8, 10, 12, 14, 16, 18, 20];
    Lanes::<i32, 4>::strided_rows(&[1 << 30, 1 << 30], &longer, 0, 2, &mut last, steps);
    assert_same!(rt; last, [3, 7, 11, 15, 19]);
}

/// Nothing is counted for no samples.
fn no_samples<M: Ledger>(steps: &mut Steps<M>)
    ensures { RisesWithin steps.old steps.new 0 0 }
{
    Lanes::<i16, 8>::mult(&[], &[], &mut [], steps);
    Lanes::<i16, 8>::scale(&[], 1, 0, &mut [], steps);
    let _sum = Lanes::<i16, 8>::dot(&[], &[], steps);
    Lanes::<i16, 8>::rows(&[1], &[], &mut [], steps);
    Lanes::<i16, 8>::delayed(1, &[], &mut [], steps);
    Lanes::<i16, 8>::mac(1, &[], &mut [], steps);
    Lanes::<i16, 8>::add(&[], &[], &mut []);
    Lanes::<i16, 8>::sub(&[], &[], &mut []);
    Lanes::<i16, 8>::offset(&[], 1, &mut []);
    Lanes::<i16, 8>::negate(&[], &mut []);
    Lanes::<i16, 8>::abs(&[], &mut []);
    Lanes::<i16, 8>::shift(&[], 1, &mut []);
    Lanes::<i16, 8>::clip(&[], 0, 1, &mut []);
}

/// The calls that count their products.
pub(crate) fn counted<M: Ledger>(rt: &impl Abort, steps: &mut Steps<M>) {
    q7_products(rt, steps);
    q31_dot(rt, steps);
    q15_rows(rt, steps);
    q15_outputs(rt, steps);
    halves_of_sums(rt, steps);
    grown(rt, steps);
    every_second(rt, steps);
    no_samples(steps);
}
