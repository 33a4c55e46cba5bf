use crate::{Dot, MeasureSample};
use dsp_defs::Steps;
use std::marker::Model;
use std::sync::ledger::Ledger;

/// The sum of the squares of a signal (`arm_power_q7`, `arm_power_q15`, `arm_power_q31`): its dot
/// product with itself.
#[derive(Drop)]
pub struct Power<T: MeasureSample> {
    squares: Dot<T>,
}

impl<T: MeasureSample> Model for Power<T> {
    ghost use Rattle.std.specs.Prelude.{ℤ};

    ghost Value = { ℤ };

    ghost view = { λ p. p.squares };
}

impl<T: MeasureSample> Power<T> {
    ghost use Rattle.std.specs.Prelude.{◌≡◌, ◌++◌, ◌↔◌, ◌∷◌, [], ℤ, pos, List, length, map, IsTrue};
    ghost use Rattle.dsp_defs.specs.Counts.{Rises};
    ghost use Rattle.dsp_defs.specs.Formats.{accumulator};
    ghost use Rattle.dsp_defs.specs.Measure.{power};
    ghost use Rattle.dsp_defs.specs.Kept.{Each, IsOfKind, in_words};

    /// The sum of nothing.
    pub fn new() -> Self
        ensures zero { result ≡ pos 0 }
        ensures stands { result ≡ power T.format [] }
    {
        Power {
            squares: Dot::new(),
        }
    }

    /// Takes the next samples of the signal, any number of them.
    pub fn put<L: Ledger>(&mut self, samples: &[T], steps: &mut Steps<L>)
        ensures value { (x : List ℤ) → self.old ≡ power T.format x
            → self.new ≡ power T.format (x ++ map T.number samples.now) }
        ensures steps { Rises steps.old steps.new (length samples.now) (length samples.now) }
    {
        self.squares.put(samples, samples, steps);
    }

    /// The power of all that was put.
    pub fn value(&self) -> i64
        ensures { result ≡ self.now }
    {
        self.squares.value()
    }

    /// How many numbers it keeps: the sum.
    pub fn kept_count(&self) -> usize
        ensures { result ≡ 1 }
    {
        self.squares.kept_count()
    }

    /// Writes the sum.
    pub fn keep(&self, out: &mut [i64])
        requires { length out.old ≡ 1 }
        ensures { out.new ≡ self.now ∷ [] }
    {
        self.squares.keep(out);
    }

    /// Whether this can be its sum.
    pub fn fits(&self, numbers: &[i64]) -> bool
        ensures { IsTrue result ↔ Each IsOfKind (in_words (accumulator T.format) 1) numbers.now }
    {
        self.squares.fits(numbers)
    }

    /// Keeps this sum from now on.
    pub fn restore(&mut self, numbers: &[i64])
        requires { Each IsOfKind (in_words (accumulator T.format) 1) numbers.now }
        ensures { numbers.now ≡ self.new ∷ [] }
    {
        self.squares.restore(numbers);
    }
}
