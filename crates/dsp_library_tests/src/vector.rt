//! Callers of dsp_vector.
use dsp_defs::Steps;
use dsp_vector::{
    convert_7_15, convert_7_31, convert_15_7, convert_15_31, convert_31_7, convert_31_15, vec_abs,
    vec_add, vec_clip, vec_mult, vec_negate, vec_offset, vec_scale, vec_shift, vec_sub,
};
use std::process::Abort;
use std::sync::ledger::Ledger;

/// Products of samples and by a factor, in each format.
fn products<M: Ledger>(rt: &impl Abort, steps: &mut Steps<M>) {
    {
        let mut q7 = [0i8; 17];
        vec_mult(&[-128i8; 17], &[-128; 17], &mut q7, steps);
        assert_same!(rt; q7, [127; 17]);
    }
    {
        let mut three = [0i8; 3];
        vec_scale(&[-128i8, 127, 0], -128, 7, &mut three, steps);
        assert_same!(rt; three, [127, -128, 0]);
    }
    {
        let mut q15 = [0i16; 3];
        vec_mult(&[-17i16, -16, 18], &[-32768; 3], &mut q15, steps);
        assert_same!(rt; q15, [17, 16, -18]);
        vec_scale(&[32766i16, 1, 0], -32768, 15, &mut q15, steps);
        assert_same!(rt; q15, [-32768, -32768, 0]);
    }
    let mut q31 = [0i32; 3];
    let a = [2147483647, -1073741824, i32::MIN];
    let b = [-207310279, -338202006, i32::MIN];
    vec_mult(&a, &b, &mut q31, steps);
    assert_same!(rt; q31, [-207310280, 169101002, 2147483646]);
    vec_scale(&[3, 5, 7], 1062776692, 1, &mut q31, steps);
    assert_same!(rt; q31, [0, 4, 4]);
}

/// Calls on slices that count their products.
pub(crate) fn counted<M: Ledger>(rt: &impl Abort, steps: &mut Steps<M>) {
    products(rt, steps);
}

#[test]
fn calls_on_one_slice(rt: HostRuntime) {
    {
        let mut q7 = [0i8; 3];
        vec_negate(&[127i8, -128, 126], &mut q7);
        assert_same!(&rt; q7, [-127, 127, -126]);
        vec_shift(&[104i8, 11, -92], 1, &mut q7);
        assert_same!(&rt; q7, [127, 22, -128]);
    }
    {
        let mut q15 = [0i16; 3];
        vec_abs(&[-32768i16, 0, 32767], &mut q15);
        assert_same!(&rt; q15, [32767, 0, 32767]);
        vec_offset(&[32767i16, 1, -32768], 24909, &mut q15);
        assert_same!(&rt; q15, [32767, 24910, -7859]);
    }
    let mut q31 = [0i32; 3];
    vec_shift(&[i32::MIN, -9, -1], -4, &mut q31);
    assert_same!(&rt; q31, [-134217728, -1, -1]);
    vec_clip(
        &[230337941, -1150015168, 204663105],
        15,
        204663100,
        &mut q31,
    );
    assert_same!(&rt; q31, [204663100, 15, 204663100]);
}

#[test]
fn calls_on_two_slices(rt: HostRuntime) {
    {
        let mut q7 = [0i8; 3];
        vec_add(&[-4i8, -28, -52], &[-128, 51, -17], &mut q7);
        assert_same!(&rt; q7, [-128, 23, -69]);
    }
    {
        let mut q15 = [0i16; 3];
        vec_sub(&[32767i16, 32767, 0], &[-32768, 16384, 1], &mut q15);
        assert_same!(&rt; q15, [32767, 16383, -1]);
    }
    let mut q31 = [0i32; 2];
    vec_add(&[672115929, 10], &[i32::MAX, -1724109203], &mut q31);
    assert_same!(&rt; q31, [i32::MAX, -1724109193]);
}

#[test]
fn conversions_of_slices(rt: HostRuntime) {
    {
        let mut q15 = [0i16; 3];
        convert_7_15(&[-70, 100, -30], &mut q15);
        assert_same!(&rt; q15, [-17920, 25600, -7680]);
        convert_31_15(&[0, -3, i32::MIN], &mut q15);
        assert_same!(&rt; q15, [0, -1, -32768]);
    }
    {
        let mut q31 = [0i32; 3];
        convert_7_31(&[-1, -25, -49], &mut q31);
        assert_same!(&rt; q31, [-16777216, -419430400, -822083584]);
        convert_15_31(&[32767, 1, 256], &mut q31);
        assert_same!(&rt; q31, [2147418112, 65536, 16777216]);
    }
    let mut q7 = [0i8; 3];
    convert_15_7(&[32767, 1349, -1], &mut q7);
    assert_same!(&rt; q7, [127, 5, -1]);
    convert_31_7(&[1358540973, 270988448, -1], &mut q7);
    assert_same!(&rt; q7, [80, 16, -1]);
}
