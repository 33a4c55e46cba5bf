ghost use Rattle.std.specs.Prelude.{◌≡◌, ◌≤◌, ◌+◌, ◌-◌, ◌^◌, ◌*ℤ◌, nat_abs, refl};
ghost use Rattle.dsp_defs.specs.Complex.{cmplx_conj, cmplx_mag_squared, cmplx_mult, product_shift};
ghost use Rattle.dsp_defs.specs.Counts.{Rises};
ghost use Rattle.dsp_defs.specs.Formats.{word_bits};
ghost use Rattle.dsp_defs.specs.Numbers.{floor_shift};

use dsp_defs::Steps;
use dsp_sat::{WideSample, wide_product};
use std::sync::ledger::Ledger;

/// The samples of complex numbers: those of Q15 and Q31.
pub trait ComplexSample: WideSample {
    ghost has_shift: { word_bits Self.format + 1 ≡ product_shift Self.format };
}

impl ComplexSample for i16 {
    ghost has_shift = { refl };
}

impl ComplexSample for i32 {
    ghost has_shift = { refl };
}

/// A complex number.
#[derive(Clone, Copy)]
pub(crate) struct Complex<T> {
    pub re: T,
    pub im: T,
}

/// The conjugate.
#[inline(always)]
pub(crate) fn conjugate<T: ComplexSample>(a: Complex<T>) -> Complex<T>
    ensures re { T.number result.re ≡ (cmplx_conj T.format (T.number a.re) (T.number a.im)).0 }
    ensures im { T.number result.im ≡ (cmplx_conj T.format (T.number a.re) (T.number a.im)).1 }
{
    Complex {
        re: a.re,
        im: T::negate(a.im),
    }
}

/// A product of two parts, shifted so that the sum of two of them fits the word.
#[inline(always)]
fn shifted_product<T: ComplexSample, L: Ledger>(a: T, b: T, steps: &mut Steps<L>) -> i32
    ensures value { result ≡ floor_shift (T.number a *ℤ T.number b) (product_shift T.format) }
    ensures small { nat_abs result ≤ 2 ^ (word_bits T.format - 3) }
    ensures steps { Rises steps.old steps.new 1 1 }
{
    (wide_product(a, b, steps) >> (T::WORD_BITS + 1)) as i32
}

/// The product.
#[inline(always)]
pub(crate) fn product<T: ComplexSample, L: Ledger>(
    a: Complex<T>,
    b: Complex<T>,
    steps: &mut Steps<L>,
) -> Complex<T>
    ensures re { T.number result.re ≡ (cmplx_mult T.format (T.number a.re) (T.number a.im)
        (T.number b.re) (T.number b.im)).0 }
    ensures im { T.number result.im ≡ (cmplx_mult T.format (T.number a.re) (T.number a.im)
        (T.number b.re) (T.number b.im)).1 }
    ensures steps { Rises steps.old steps.new 4 4 }
{
    let re = shifted_product(a.re, b.re, steps) - shifted_product(a.im, b.im, steps);
    let im = shifted_product(a.re, b.im, steps) + shifted_product(a.im, b.re, steps);
    Complex {
        re: T::of_number(re),
        im: T::of_number(im),
    }
}

/// The squared magnitude.
#[inline(always)]
pub(crate) fn squared<T: ComplexSample, L: Ledger>(a: Complex<T>, steps: &mut Steps<L>) -> T
    ensures value { T.number result ≡ cmplx_mag_squared T.format (T.number a.re) (T.number a.im) }
    ensures steps { Rises steps.old steps.new 2 2 }
{
    if T::WORD_BITS == 32 {
        let sum = shifted_product(a.re, a.re, steps) + shifted_product(a.im, a.im, steps);
        T::of_number(sum)
    } else {
        let sum = wide_product(a.re, a.re, steps) + wide_product(a.im, a.im, steps);
        T::of_number((sum >> (T::WORD_BITS + 1)) as i32)
    }
}
