ghost use Rattle.std.specs.Prelude.{◌≡◌, ◌+◌, ◌*◌, ◌/◌, ◌%◌, length, map};
ghost use Rattle.dsp_defs.specs.Complex.{cmplx_conj, cmplx_mag_squared, cmplx_mult, cmplx_mult_real};
ghost use Rattle.dsp_defs.specs.Signal.{sample, values};
ghost use Rattle.dsp_lanes.specs.Turns.{RisesWithin};
ghost use Rattle.dsp_complex.specs.Pairs.{re, im, interleaved};

use crate::scalars::{Complex, ComplexSample, conjugate, product, squared};
use dsp_defs::Steps;
use dsp_sat::Sample;
use std::sync::ledger::Ledger;

/// The conjugates of complex numbers, each its real part and then its imaginary part:
/// `arm_cmplx_conj_q15`, `arm_cmplx_conj_q31`. Lengths are equal and even.
pub fn conj<T: ComplexSample>(a: &[T], out: &mut [T])
    requires same { length a.now ≡ length out.old }
    requires pairs { length out.old % 2 ≡ 0 }
    ensures { map T.number out.new ≡ interleaved (length out.old / 2) (λ n.
        cmplx_conj T.format (re (map T.number a.now) n) (im (map T.number a.now) n)) }
{
    for n in 0..out.len() / 2 {
        let given = conjugate(Complex {
            re: a[n * 2],
            im: a[n * 2 + 1],
        });
        out[n * 2] = given.re;
        out[n * 2 + 1] = given.im;
    }
}

/// The products of complex numbers, each its real part and then its imaginary part, and four
/// products counted for each: `arm_cmplx_mult_cmplx_q15`, `arm_cmplx_mult_cmplx_q31`. Lengths are
/// equal and even.
pub fn mult_cmplx<T: ComplexSample, M: Ledger>(
    a: &[T],
    b: &[T],
    out: &mut [T],
    steps: &mut Steps<M>,
)
    requires left { length a.now ≡ length out.old }
    requires right { length b.now ≡ length out.old }
    requires pairs { length out.old % 2 ≡ 0 }
    ensures out { map T.number out.new ≡ interleaved (length out.old / 2) (λ n.
        cmplx_mult T.format (re (map T.number a.now) n) (im (map T.number a.now) n)
        (re (map T.number b.now) n) (im (map T.number b.now) n)) }
    ensures steps { RisesWithin steps.old steps.new (4 * (length out.old / 2)) (4 * (length out.old / 2)) }
{
    for n in 0..out.len() / 2 {
        let left = Complex {
            re: a[n * 2],
            im: a[n * 2 + 1],
        };
        let right = Complex {
            re: b[n * 2],
            im: b[n * 2 + 1],
        };
        let given = product(left, right, steps);
        out[n * 2] = given.re;
        out[n * 2 + 1] = given.im;
    }
}

/// Complex numbers, each its real part and then its imaginary part, times real ones, and two
/// products counted for each: `arm_cmplx_mult_real_q15`. There are twice as many parts as real
/// numbers.
pub fn mult_real<M: Ledger>(a: &[i16], r: &[i16], out: &mut [i16], steps: &mut Steps<M>)
    requires left { length a.now ≡ 2 * length r.now }
    requires room { length out.old ≡ 2 * length r.now }
    ensures out { out.new ≡ interleaved (length r.now) (λ n.
        cmplx_mult_real (re a.now n) (im a.now n) (sample r.now n)) }
    ensures steps { RisesWithin steps.old steps.new (2 * length r.now) (2 * length r.now) }
{
    for (n, factor) in r.iter().enumerate() {
        out[n * 2] = i16::mult(a[n * 2], *factor, steps);
        out[n * 2 + 1] = i16::mult(a[n * 2 + 1], *factor, steps);
    }
}

/// The squared magnitudes of complex numbers, each its real part and then its imaginary part, and
/// two products counted for each: `arm_cmplx_mag_squared_q15`, `arm_cmplx_mag_squared_q31`. There
/// are twice as many parts as magnitudes.
pub fn mag_squared<T: ComplexSample, M: Ledger>(a: &[T], out: &mut [T], steps: &mut Steps<M>)
    requires { length a.now ≡ 2 * length out.old }
    ensures out { map T.number out.new ≡ values (length out.old) (λ n.
        cmplx_mag_squared T.format (re (map T.number a.now) n) (im (map T.number a.now) n)) }
    ensures steps { RisesWithin steps.old steps.new (2 * length out.old) (2 * length out.old) }
{
    for n in 0..out.len() {
        let taken = Complex {
            re: a[n * 2],
            im: a[n * 2 + 1],
        };
        out[n] = squared(taken, steps);
    }
}
