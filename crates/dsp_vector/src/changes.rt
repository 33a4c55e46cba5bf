ghost use Rattle.std.specs.Prelude.{◌≡◌, ◌≤◌, ◌*◌, ◌≤ℤ◌, ℕ, ℤ, All, FitsSigned, length, map};
ghost use Rattle.std.specs.Prelude.{take};
ghost use Rattle.dsp_defs.specs.Counts.{Rises};
ghost use Rattle.dsp_defs.specs.Elementwise.{abs, add, clip, convert, negate, scale, shift, IsScaleShift};
ghost use Rattle.dsp_defs.specs.Elementwise.{IsShift};
ghost use Rattle.dsp_defs.specs.Formats.{word};

use crate::clamped::{scaled, shifted, sum};
use crate::conversions::converted;
use dsp_defs::Steps;
use dsp_sat::{Sample, greatest};
use std::sync::ledger::Ledger;

/// An operation on one sample, which is a number of the format of T as its parameters are, and becomes
/// one of the format of U. Numbers stay in their 32 bits where they can.
pub(crate) trait Change<T: Sample, U: Sample>: Copy {
    ghost CanChange: { Self → Type 0 };

    ghost value: { Self → ℤ → ℤ };

    // The products of a change.
    ghost price: { ℕ };

    fn change<L: Ledger>(self, x: i32, steps: &mut Steps<L>) -> i32
        requires can { CanChange self }
        requires in_format { FitsSigned (word T.format) x }
        ensures value { result ≡ value self x }
        ensures fits { FitsSigned (word U.format) result }
        ensures steps { Rises steps.old steps.new price price };
}

/// Adds a constant.
#[derive(Clone, Copy)]
pub(crate) struct Offset {
    pub value: i32,
}

impl<T: Sample> Change<T, T> for Offset {
    ghost CanChange = { λ offset. FitsSigned (word T.format) offset.value };

    ghost value = { λ offset x. add T.format x offset.value };

    ghost price = { 0 };

    fn change<L: Ledger>(self, x: i32, _steps: &mut Steps<L>) -> i32 {
        sum::<T>(x, self.value)
    }
}

/// The negative.
#[derive(Clone, Copy)]
pub(crate) struct Negate;

impl<T: Sample> Change<T, T> for Negate {
    ghost CanChange = { λ _. Unit {0} };

    ghost value = { λ _. negate T.format };

    ghost price = { 0 };

    fn change<L: Ledger>(self, x: i32, _steps: &mut Steps<L>) -> i32 {
        -x.max(-greatest::<T>())
    }
}

/// The absolute value.
#[derive(Clone, Copy)]
pub(crate) struct Abs;

impl<T: Sample> Change<T, T> for Abs {
    ghost CanChange = { λ _. Unit {0} };

    ghost value = { λ _. abs T.format };

    ghost price = { 0 };

    fn change<L: Ledger>(self, x: i32, _steps: &mut Steps<L>) -> i32 {
        x.max(-greatest::<T>()).abs()
    }
}

/// A fraction and a power of two.
#[derive(Clone, Copy)]
pub(crate) struct Scale {
    pub fract: i32,
    pub shift: i32,
}

impl<T: Sample> Change<T, T> for Scale {
    ghost CanChange = { λ scaled. FitsSigned (word T.format) scaled.fract
        × IsScaleShift T.format scaled.shift };

    ghost value = { λ scaled. scale T.format scaled.fract scaled.shift };

    ghost price = { 1 };

    fn change<L: Ledger>(self, x: i32, steps: &mut Steps<L>) -> i32 {
        scaled::<T, L>(x, self.fract, self.shift, steps)
    }
}

/// A power of two.
#[derive(Clone, Copy)]
pub(crate) struct Shift {
    pub shift: i32,
}

impl<T: Sample> Change<T, T> for Shift {
    ghost CanChange = { λ moved. IsShift T.format moved.shift };

    ghost value = { λ moved. shift T.format moved.shift };

    ghost price = { 0 };

    fn change<L: Ledger>(self, x: i32, _steps: &mut Steps<L>) -> i32 {
        shifted::<T>(x, self.shift)
    }
}

/// A clamp to `low..=high`.
#[derive(Clone, Copy)]
pub(crate) struct Clip {
    pub low: i32,
    pub high: i32,
}

impl<T: Sample> Change<T, T> for Clip {
    ghost CanChange = { λ limits. (FitsSigned (word T.format) limits.low)
        × (FitsSigned (word T.format) limits.high) × (limits.low ≤ℤ limits.high) };

    ghost value = { λ limits. clip limits.low limits.high };

    ghost price = { 0 };

    fn change<L: Ledger>(self, x: i32, _steps: &mut Steps<L>) -> i32 {
        x.max(self.low).min(self.high)
    }
}

/// The same fraction in another format.
#[derive(Clone, Copy)]
pub(crate) struct Convert;

impl<T: Sample, U: Sample> Change<T, U> for Convert {
    ghost CanChange = { λ _. Unit {0} };

    ghost value = { λ _. convert T.format U.format };

    ghost price = { 0 };

    fn change<L: Ledger>(self, x: i32, _steps: &mut Steps<L>) -> i32 {
        converted::<T, U>(T::of_number(x)).number()
    }
}

/// Writes what the operation makes of each sample, and answers their number.
#[inline(always)]
pub(crate) fn change_each<T: Sample, U: Sample, O: Change<T, U>, L: Ledger>(
    operation: O,
    samples: &[i32],
    out: &mut [i32],
    steps: &mut Steps<L>,
) -> usize
    requires can { O.CanChange operation }
    requires in_format { All (FitsSigned (word T.format)) samples.now }
    requires room { length samples.now ≤ length out.old }
    ensures count { result ≡ length samples.now }
    ensures values { take (length samples.now) out.new ≡ map (O.value operation) samples.now }
    ensures fits { All (FitsSigned (word U.format)) (take (length samples.now) out.new) }
    ensures steps { Rises steps.old steps.new (length samples.now * O.price)
        (length samples.now * O.price) }
{
    for (i, sample) in samples.iter().enumerate() {
        out[i] = operation.change(*sample, steps);
    }
    samples.len()
}
