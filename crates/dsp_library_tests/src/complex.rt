//! Callers of dsp_complex.
use dsp_complex::{conj, mag_squared, mult_cmplx, mult_real};
use dsp_defs::Steps;
use std::process::Abort;
use std::sync::ledger::Ledger;

/// Complex products, products by real numbers, and squares of magnitudes.
fn all_products<M: Ledger>(rt: &impl Abort, steps: &mut Steps<M>) {
    {
        // Complex products in Q15, then in Q31.
        let mut two = [0i16; 2];
        mult_cmplx(&[16384i16, 0], &[16384, 16384], &mut two, steps);
        assert_same!(rt; two, [2048, 2048]);
    }
    {
        let mut four = [0i32; 4];
        let a = [-2147483647, i32::MAX, i32::MIN, -13];
        let b = [2147483646, i32::MAX, 1, 12];
        mult_cmplx(&a, &b, &mut four, steps);
        assert_same!(rt; four, [-1073741823, -1, 0, -4]);
    }
    {
        // Products by real numbers.
        let mut products = [0i16; 4];
        let a = [-32768, 32767, -32768, -32767];
        mult_real(&a, &[-32768, -32768], &mut products, steps);
        assert_same!(rt; products, [32767, -32767, 32767, 32767]);
    }
    {
        // Squares of magnitudes in Q15, then in Q31.
        let mut two = [0i16; 2];
        mag_squared(&[-32768i16, -1, -32768, -32768], &mut two, steps);
        assert_same!(rt; two, [8192, 16384]);
    }
    let mut magnitudes = [0i32; 2];
    let a = [i32::MAX, -1073741824, 803170804, i32::MAX];
    mag_squared(&a, &mut magnitudes, steps);
    assert_same!(rt; magnitudes, [671088639, 611968495]);
}

/// Calls on slices that count their products.
pub(crate) fn counted<M: Ledger>(rt: &impl Abort, steps: &mut Steps<M>) {
    all_products(rt, steps);
}

#[test]
fn conjugates(rt: HostRuntime) {
    let mut q15 = [0i16; 4];
    conj(&[-32768i16, -32768, -1, 32767], &mut q15);
    assert_same!(&rt; q15, [-32768, 32767, -1, -32767]);
    let mut q31 = [0i32; 4];
    conj(&[1, i32::MIN, i32::MIN, i32::MAX], &mut q31);
    assert_same!(&rt; q31, [1, i32::MAX, i32::MIN, -2147483647]);
}
