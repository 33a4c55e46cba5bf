ghost use Rattle.std.specs.Prelude.{◌≡◌, ◌≤◌, ◌<◌, ◌+◌, ◌*◌, ◌/◌, ℕ, ℤ, All, FitsSigned, length, take};
ghost use Rattle.dsp_defs.specs.Counts.{Rises};
ghost use Rattle.dsp_defs.specs.Elementwise.{add, mult, sub};
ghost use Rattle.dsp_defs.specs.Formats.{word};
ghost use Rattle.dsp_defs.specs.Signal.{sample, values};

use crate::clamped::{difference, multiplied, sum};
use dsp_defs::Steps;
use dsp_sat::Sample;
use std::sync::ledger::Ledger;

/// An operation on two samples, which are numbers of the format as the result is.
pub(crate) trait Join<T: Sample>: Copy {
    ghost value: { ℤ → ℤ → ℤ };

    // The products of a frame.
    ghost price: { ℕ };

    fn join<L: Ledger>(self, a: i32, b: i32, steps: &mut Steps<L>) -> i32
        requires first { FitsSigned (word T.format) a }
        requires second { FitsSigned (word T.format) b }
        ensures value { result ≡ value a b }
        ensures fits { FitsSigned (word T.format) result }
        ensures steps { Rises steps.old steps.new price price };
}

/// The sum.
#[derive(Clone, Copy)]
pub(crate) struct Sum;

impl<T: Sample> Join<T> for Sum {
    ghost value = { add T.format };

    ghost price = { 0 };

    fn join<L: Ledger>(self, a: i32, b: i32, _steps: &mut Steps<L>) -> i32 {
        sum::<T>(a, b)
    }
}

/// The difference.
#[derive(Clone, Copy)]
pub(crate) struct Difference;

impl<T: Sample> Join<T> for Difference {
    ghost value = { sub T.format };

    ghost price = { 0 };

    fn join<L: Ledger>(self, a: i32, b: i32, _steps: &mut Steps<L>) -> i32 {
        difference::<T>(a, b)
    }
}

/// The product.
#[derive(Clone, Copy)]
pub(crate) struct Product;

impl<T: Sample> Join<T> for Product {
    ghost value = { mult T.format };

    ghost price = { 1 };

    fn join<L: Ledger>(self, a: i32, b: i32, steps: &mut Steps<L>) -> i32 {
        multiplied::<T, L>(a, b, steps)
    }
}

/// Writes what the operation makes of each frame of two samples, and answers the number of frames.
#[inline(always)]
pub(crate) fn join_pairs<T: Sample, O: Join<T>, L: Ledger>(
    operation: O,
    samples: &[i32],
    out: &mut [i32],
    steps: &mut Steps<L>,
) -> usize
    requires in_format { All (FitsSigned (word T.format)) samples.now }
    requires room { length samples.now / 2 ≤ length out.old }
    ensures count { result ≡ length samples.now / 2 }
    ensures values { take (length samples.now / 2) out.new ≡ values (length samples.now / 2) (λ n.
        O.value (sample samples.now (n * 2)) (sample samples.now (n * 2 + 1))) }
    ensures fits { All (FitsSigned (word T.format)) (take (length samples.now / 2) out.new) }
    ensures steps { Rises steps.old steps.new (length samples.now / 2 * O.price)
        (length samples.now / 2 * O.price) }
{
    let count = samples.len() / 2;
    for n in 0..count {
        out[n] = operation.join(samples[n * 2], samples[n * 2 + 1], steps);
    }
    count
}
