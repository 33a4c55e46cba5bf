//! The correlation.
ghost use Rattle.std.specs.Prelude.{◌≡◌, ◌+◌, ◌*◌, ◌<◌, ◌≤◌, ◌^◌, ◌+ℤ◌, ◌*ℤ◌, ℕ, pos, All, FitsSigned, IfOk};
ghost use Rattle.std.specs.Prelude.{length, map, nat_abs};
ghost use Rattle.dsp_defs.specs.Formats.{close, word};
ghost use Rattle.dsp_defs.specs.Signal.{delayed, sample};
ghost use Rattle.dsp_defs.specs.Sums.{correlate};

use dsp_defs::{Fmt, Steps};
use dsp_exact::{close, product};
use std::alloc::{AllocError, Global};
use std::sync::ledger::Ledger;

/// Adds a * b[j] to the sum at each place at - j.
fn scatter<L: Ledger>(sums: &mut [i128], at: usize, a: i32, b: &[i32], steps: &mut Steps<L>)
    requires inside { at < length sums.old }
    requires room { length b.now ≤ at + 1 }
    requires small { (n : ℕ) → n < length sums.old → nat_abs (sample sums.old n) ≤ 2 ^ 124 }
    ensures length { length sums.new ≡ length sums.old }
    ensures values { (n : ℕ) → n < length sums.old
        → sample sums.new n ≡ sample sums.old n +ℤ a *ℤ delayed b.now at n }
    ensures small { (n : ℕ) → n < length sums.old
        → nat_abs (sample sums.new n) ≤ nat_abs (sample sums.old n) + 2 ^ 62 }
    ensures products { steps.new.multiplies ≤ steps.old.multiplies + length b.now }
{
    for j in 0..b.len() {
        sums[at - j] += product(a, b[j], steps);
    }
}

/// Sums as samples.
fn all_closed(alloc: Global, format: Fmt, sums: &[i128]) -> Result<Vec<i32>, AllocError>
    ensures values { IfOk result (λ y. y.items ≡ map (close format) sums.now) }
    ensures fits { IfOk result (λ y. All (FitsSigned (word format)) y.items) }
{
    sums.iter().map(|s| close(format, *s)).collect(alloc)
}

/// c(n) = close(sum over k of x(k) * b[k-(n-(m-1))]) for n < 2*m-1, with m the greater length; none of no
/// samples; each in the format of the samples. Each product is made once, and added where it belongs.
/// The source is `arm_correlate_q7`, `arm_correlate_q15` and `arm_correlate_q31` of CMSIS-DSP.
pub fn correlate<L: Ledger>(
    alloc: Global,
    format: Fmt,
    taps: &[i32],
    x: &[i32],
    steps: &mut Steps<L>,
) -> Result<Vec<i32>, AllocError>
    requires { length x.now + length taps.now < 2 ^ 60 }
    ensures values { IfOk result (λ y. y.items ≡ correlate format taps.now x.now) }
    ensures fits { IfOk result (λ y. All (FitsSigned (word format)) y.items) }
    ensures products { steps.new.multiplies ≤ steps.old.multiplies + length x.now * length taps.now }
{
    if x.is_empty() {
        return Ok(Vec::new(alloc));
    }
    let m = x.len().max(taps.len());
    let mut sums = vec![in alloc; 0i128; 2 * m - 1]?;
    for k in 0..x.len() {
        scatter(sums.as_mut_slice(), k + m - 1, x[k], taps, steps);
    }
    all_closed(alloc, format, sums.as_slice())
}
