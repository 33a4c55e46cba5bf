use crate::MeasureSample;
use crate::products::add_slices;
use dsp_defs::Steps;
use std::marker::{Model, PhantomData};
use std::sync::ledger::Ledger;

/// The sum of the products of two signals (`arm_dot_prod_q7`, `arm_dot_prod_q15`,
/// `arm_dot_prod_q31`).
#[derive(Drop)]
pub struct Dot<T: MeasureSample> {
    sum: i64,
    marker: PhantomData<T>,
}

impl<T: MeasureSample> Model for Dot<T> {
    ghost use Rattle.std.specs.Prelude.{ℤ, FitsSigned};
    ghost use Rattle.dsp_defs.specs.Formats.{accumulator};

    ghost Value = { ℤ };

    ghost view = { λ d. d.sum };

    ghost invariant = { λ d. FitsSigned (accumulator T.format) d.sum };
}

impl<T: MeasureSample> Dot<T> {
    ghost use Rattle.std.specs.Prelude.{◌≡◌, ◌++◌, ◌↔◌, ◌∷◌, [], ℤ, pos, List, length, map, IsTrue};
    ghost use Rattle.dsp_defs.specs.Counts.{Rises};
    ghost use Rattle.dsp_defs.specs.Formats.{accumulator};
    ghost use Rattle.dsp_defs.specs.Measure.{dot};
    ghost use Rattle.dsp_defs.specs.Kept.{Each, IsOfKind, in_words};

    /// The sum of nothing.
    pub fn new() -> Self
        ensures zero { result ≡ pos 0 }
        ensures stands { result ≡ dot T.format [] [] }
    {
        Dot {
            sum: 0,
            marker: PhantomData,
        }
    }

    /// Takes the next samples of both signals, as many of each.
    pub fn put<L: Ledger>(&mut self, a: &[T], b: &[T], steps: &mut Steps<L>)
        requires { length a.now ≡ length b.now }
        ensures value { (x y : List ℤ) → length x ≡ length y → self.old ≡ dot T.format x y
            → self.new ≡ dot T.format (x ++ map T.number a.now) (y ++ map T.number b.now) }
        ensures steps { Rises steps.old steps.new (length a.now) (length a.now) }
    {
        self.sum = add_slices(self.sum, a, b, steps);
    }

    /// The dot product of all that was put.
    pub fn value(&self) -> i64
        ensures { result ≡ self.now }
    {
        self.sum
    }

    /// How many numbers it keeps: the sum.
    pub fn kept_count(&self) -> usize
        ensures { result ≡ 1 }
    {
        1
    }

    /// Writes the sum.
    pub fn keep(&self, out: &mut [i64])
        requires { length out.old ≡ 1 }
        ensures { out.new ≡ self.now ∷ [] }
    {
        out[0] = self.sum;
    }

    /// Whether this can be its sum.
    pub fn fits(&self, numbers: &[i64]) -> bool
        ensures { IsTrue result ↔ Each IsOfKind (in_words (accumulator T.format) 1) numbers.now }
    {
        numbers.len() == 1 && T::is_sum(numbers[0])
    }

    /// Keeps this sum from now on.
    pub fn restore(&mut self, numbers: &[i64])
        requires { Each IsOfKind (in_words (accumulator T.format) 1) numbers.now }
        ensures { numbers.now ≡ self.new ∷ [] }
    {
        self.sum = numbers[0];
    }
}
