//! Recursions over a whole signal: each value from the inputs up to it and the values before it.
ghost use Rattle.std.specs.Prelude.{◌≡◌, ◌+◌, ◌*◌, ◌≤◌, ℕ, List, All, IfOk, length, reverse};
ghost use Rattle.dsp_defs.specs.Signal.{outputs};

use dsp_defs::Steps;
use std::alloc::{AllocError, Global};
use std::sync::ledger::Ledger;

/// What a recursion gives next.
pub trait Recurrence {
    type In: Copy;

    type Out: Copy;

    // From both histories, the newest first.
    ghost next: { Self → List Self.In → List Self.Out → Self.Out };

    ghost IsValue: { Self → Self.Out → Type 0 };

    // The most products of one value.
    ghost cost: { Self → ℕ };

    /// The value at the last of the inputs, from these and the values before it.
    fn next<L: Ledger>(&self, x: &[Self::In], y: &[Self::Out], steps: &mut Steps<L>) -> Self::Out
        ensures value { result ≡ next self.now (reverse x.now) (reverse y.now) }
        ensures fits { IsValue self.now result }
        ensures products { steps.new.multiplies ≤ steps.old.multiplies + cost self.now };
}

/// The values for a whole signal.
pub fn outputs<R: Recurrence, L: Ledger>(
    alloc: Global,
    recurrence: &R,
    x: &[R::In],
    steps: &mut Steps<L>,
) -> Result<Vec<R::Out>, AllocError>
    ensures values { IfOk result (λ y. y.items ≡ outputs (R.next recurrence.now) x.now) }
    ensures length { IfOk result (λ y. length y.items ≡ length x.now) }
    ensures fits { IfOk result (λ y. All (R.IsValue recurrence.now) y.items) }
    ensures products { steps.new.multiplies ≤ steps.old.multiplies + length x.now * R.cost recurrence.now }
{
    let mut y = Vec::with_capacity(alloc, x.len())?;
    for n in 0..x.len() {
        let next = recurrence.next(&x[..n + 1], y.as_slice(), steps);
        y.push(next)?;
    }
    Ok(y)
}
