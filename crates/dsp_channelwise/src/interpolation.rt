//! The interpolator.
#![tactic(auto, using(crate::proofs::Phases::phases))]

ghost use Rattle.std.specs.Prelude.{◌≡◌, ◌+◌, ◌*◌, ◌/◌, ◌%◌, ◌<◌, ◌≤◌, ◌^◌, ◌*ℤ◌, All, FitsSigned, IfOk};
ghost use Rattle.std.specs.Prelude.{length};
ghost use Rattle.dsp_defs.specs.Formats.{close, word};
ghost use Rattle.dsp_defs.specs.Signal.{delayed, sample};
ghost use Rattle.dsp_defs.specs.Sums.{convolution_at, interpolate, phase_taps};

use crate::sums::reversed;
use dsp_defs::{Fmt, Steps};
use dsp_exact::{Formula, Terms, close, delayed, product, sample, sum_below, values};
use std::alloc::{AllocError, Global};
use std::sync::ledger::Ledger;

/// y(n*L+p) = close(sum over k of b[L*k+p] * x(n-k)).
#[derive(Clone, Copy)]
struct Interpolated<'a> {
    format: Fmt,
    b: &'a [i32],
    factor: usize,
    x: &'a [i32],
}

/// The terms of value i: b[L*k+p] * x(n-k), where i is n*L+p.
#[derive(Clone, Copy)]
struct PhaseDelays<'a> {
    of: Interpolated<'a>,
    i: usize,
}

impl<'a> Terms for PhaseDelays<'a> {
    ghost Has = { λ t k. (k < length t.of.b.now / t.of.factor) × (1 ≤ t.of.factor) };

    ghost term = { λ t k. sample (phase_taps t.of.factor t.of.b.now (t.i % t.of.factor)) k
        *ℤ delayed t.of.x.now (t.i / t.of.factor) k };

    fn term<L: Ledger>(&self, k: usize, steps: &mut Steps<L>) -> i128 {
        let factor = self.of.factor;
        let tap = sample(self.of.b, factor * k + self.i % factor);
        product(tap, delayed(self.of.x, self.i / factor, k), steps)
    }
}

impl<'a> Formula for Interpolated<'a> {
    ghost format = { λ f. f.format };

    ghost Gives = { λ f i. 1 ≤ f.factor };

    ghost at = { λ f i. close f.format
        (convolution_at (phase_taps f.factor f.b.now (i % f.factor)) f.x.now (i / f.factor)) };

    ghost cost = { λ f. length f.b.now / f.factor };

    fn at<L: Ledger>(&self, i: usize, steps: &mut Steps<L>) -> i32 {
        let count = self.b.len() / self.factor;
        let terms = PhaseDelays { of: *self, i };
        close(self.format, sum_below(count, &terms, steps))
    }
}

/// y(n*L+p) = close(sum over k of b[L*k+p] * x(n-k)), L values for each sample, by the taps from b[T-1]
/// to b[0]; each in the format of the samples. The source is `arm_fir_interpolate_q15` and
/// `arm_fir_interpolate_q31` of CMSIS-DSP.
pub fn interpolate<L: Ledger>(
    alloc: Global,
    format: Fmt,
    factor: u8,
    taps: &[i32],
    x: &[i32],
    steps: &mut Steps<L>,
) -> Result<Vec<i32>, AllocError>
    requires factor { 1 ≤ factor }
    requires small { length x.now * factor < 2 ^ 64 }
    ensures values { IfOk result (λ y. y.items ≡ interpolate format factor taps.now x.now) }
    ensures fits { IfOk result (λ y. All (FitsSigned (word format)) y.items) }
    ensures products { steps.new.multiplies ≤ steps.old.multiplies + length x.now * length taps.now }
{
    let b = reversed(alloc, taps)?;
    let factor = usize::from(factor);
    let formula = Interpolated {
        format,
        b: b.as_slice(),
        factor,
        x,
    };
    values(alloc, x.len() * factor, &formula, steps)
}
