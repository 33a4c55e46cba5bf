use crate::MeasureSample;
use crate::complex_products::add_complex_slices;
use dsp_defs::Steps;
use dsp_sat::WideSample;
use std::marker::{Model, PhantomData};
use std::sync::ledger::Ledger;

/// The sums of the real and of the imaginary parts of the products of two complex signals
/// (`arm_cmplx_dot_prod_q15`, `arm_cmplx_dot_prod_q31`).
#[derive(Drop)]
pub struct CmplxDot<T: MeasureSample + WideSample> {
    re: i64,
    im: i64,
    marker: PhantomData<T>,
}

impl<T: MeasureSample + WideSample> Model for CmplxDot<T> {
    ghost use Rattle.std.specs.Prelude.{ℤ, FitsSigned};
    ghost use Rattle.dsp_defs.specs.Formats.{accumulator};

    ghost Value = { ℤ × ℤ };

    ghost view = { λ d. (d.re, d.im) };

    ghost invariant = { λ d. FitsSigned (accumulator T.format) d.re
        × FitsSigned (accumulator T.format) d.im };
}

impl<T: MeasureSample + WideSample> CmplxDot<T> {
    ghost use Rattle.std.specs.Prelude.{◌≡◌, ◌++◌, ◌↔◌, ◌∷◌, ◌*◌, ◌/◌, ◌%◌, [], ℤ, pos, List, length, map};
    ghost use Rattle.std.specs.Prelude.{IsTrue};
    ghost use Rattle.dsp_defs.specs.Counts.{Rises};
    ghost use Rattle.dsp_defs.specs.Formats.{accumulator};
    ghost use Rattle.dsp_defs.specs.Measure.{cmplx_dot_close};
    ghost use Rattle.dsp_defs.specs.Kept.{Each, IsOfKind, in_words};
    ghost use Rattle.dsp_measure.specs.Sums.{complex_sums};

    /// The sums of nothing.
    pub fn new() -> Self
        ensures zero { result ≡ (pos 0, pos 0) }
        ensures stands { result ≡ complex_sums T.format [] [] }
    {
        CmplxDot {
            re: 0,
            im: 0,
            marker: PhantomData,
        }
    }

    /// Takes the next numbers of both signals, as many of each, the real part of each number first.
    pub fn put<L: Ledger>(&mut self, a: &[T], b: &[T], steps: &mut Steps<L>)
        requires same { length a.now ≡ length b.now }
        requires pairs { length a.now % 2 ≡ 0 }
        ensures sums { (x y : List ℤ) → length x ≡ length y → length x % 2 ≡ 0
            → self.old ≡ complex_sums T.format x y
            → self.new ≡ complex_sums T.format (x ++ map T.number a.now) (y ++ map T.number b.now) }
        ensures steps { Rises steps.old steps.new (4 * (length a.now / 2)) (4 * (length a.now / 2)) }
    {
        (self.re, self.im) = add_complex_slices((self.re, self.im), a, b, steps);
    }

    /// The complex dot product of all that was put: its real and its imaginary part.
    pub fn value(&self) -> (i64, i64)
        ensures re { result.0 ≡ cmplx_dot_close T.format self.now.0 }
        ensures im { result.1 ≡ cmplx_dot_close T.format self.now.1 }
    {
        (T::close_complex(self.re), T::close_complex(self.im))
    }

    /// How many numbers it keeps: the two sums, before they are shifted.
    pub fn kept_count(&self) -> usize
        ensures { result ≡ 2 }
    {
        2
    }

    /// Writes the sums, the real one first.
    pub fn keep(&self, out: &mut [i64])
        requires { length out.old ≡ 2 }
        ensures { out.new ≡ self.now.0 ∷ self.now.1 ∷ [] }
    {
        out[0] = self.re;
        out[1] = self.im;
    }

    /// Whether these can be its sums.
    pub fn fits(&self, numbers: &[i64]) -> bool
        ensures { IsTrue result ↔ Each IsOfKind (in_words (accumulator T.format) 2) numbers.now }
    {
        numbers.len() == 2 && T::is_sum(numbers[0]) && T::is_sum(numbers[1])
    }

    /// Keeps these sums from now on.
    pub fn restore(&mut self, numbers: &[i64])
        requires { Each IsOfKind (in_words (accumulator T.format) 2) numbers.now }
        ensures { numbers.now ≡ self.new.0 ∷ self.new.1 ∷ [] }
    {
        self.re = numbers[0];
        self.im = numbers[1];
    }
}
