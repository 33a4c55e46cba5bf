//! Values given by a formula of their number, and sums of terms.

ghost use Rattle.std.specs.Prelude.{◌≡◌, ◌+◌, ◌*◌, ◌^◌, ◌<◌, ◌≤◌, ℕ, ℤ, All, FitsSigned, IfOk, length, nat_abs};
ghost use Rattle.dsp_defs.specs.Formats.{word};
ghost use Rattle.dsp_defs.specs.Signal.{sum_below, values};
ghost use Rattle.dsp_defs.specs.declared.format.Fmt.{Fmt};

use dsp_defs::Steps;
use std::alloc::{AllocError, Global};
use std::sync::ledger::Ledger;

/// The terms of a sum, each a product or a part of one.
pub trait Terms {
    // The numbers at which there is a term.
    ghost Has: { Self → ℕ → Type 0 };

    ghost term: { Self → ℕ → ℤ };

    /// Term k.
    fn term<L: Ledger>(&self, k: usize, steps: &mut Steps<L>) -> i128
        requires { Has self.now k }
        ensures value { result ≡ term self.now k }
        ensures small { nat_abs result ≤ 2 ^ 62 }
        ensures products { steps.new.multiplies ≤ steps.old.multiplies + 1 };
}

/// The exact sum of the first `count` terms.
pub fn sum_below<T: Terms, L: Ledger>(count: usize, terms: &T, steps: &mut Steps<L>) -> i128
    requires { (k : ℕ) → k < count → T.Has terms.now k }
    ensures value { result ≡ sum_below count (T.term terms.now) }
    ensures small { nat_abs result ≤ count * 2 ^ 62 }
    ensures products { steps.new.multiplies ≤ steps.old.multiplies + count }
{
    let mut sum = 0;
    for k in 0..count {
        sum += terms.term(k, steps);
    }
    sum
}

/// A signal's sample at each number n, by a formula.
pub trait Formula {
    ghost format: { Self → Fmt };

    // The numbers at which it gives a sample.
    ghost Gives: { Self → ℕ → Type 0 };

    ghost at: { Self → ℕ → ℤ };

    // The most products of one sample.
    ghost cost: { Self → ℕ };

    /// Sample n.
    fn at<L: Ledger>(&self, n: usize, steps: &mut Steps<L>) -> i32
        requires { Gives self.now n }
        ensures value { result ≡ at self.now n }
        ensures fits { FitsSigned (word (format self.now)) result }
        ensures products { steps.new.multiplies ≤ steps.old.multiplies + cost self.now };
}

/// The samples at 0 to `count - 1`.
pub fn values<F: Formula, L: Ledger>(
    alloc: Global,
    count: usize,
    formula: &F,
    steps: &mut Steps<L>,
) -> Result<Vec<i32>, AllocError>
    requires { (n : ℕ) → n < count → F.Gives formula.now n }
    ensures values { IfOk result (λ y. y.items ≡ values count (F.at formula.now)) }
    ensures length { IfOk result (λ y. length y.items ≡ count) }
    ensures fits { IfOk result (λ y. All (FitsSigned (word (F.format formula.now))) y.items) }
    ensures products { steps.new.multiplies ≤ steps.old.multiplies + count * F.cost formula.now }
{
    let mut y = Vec::with_capacity(alloc, count)?;
    for n in 0..count {
        y.push(formula.at(n, steps))?;
    }
    Ok(y)
}
