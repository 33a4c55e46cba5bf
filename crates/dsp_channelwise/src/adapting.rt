//! The adaptive filter.
ghost use Rattle.std.specs.Prelude.{◌≡◌, ◌≢◌, ◌+◌, ◌*◌, ◌≤◌, ◌*ℤ◌, ℕ, All, FitsSigned, IfOk, length, map};
ghost use Rattle.std.specs.Prelude.{reverse};
ghost use Rattle.dsp_defs.specs.Adaptive.{adapted, errors_of, lms, lms_close, outputs_of, step_size};
ghost use Rattle.dsp_defs.specs.Adaptive.{weight_after};
ghost use Rattle.dsp_defs.specs.Formats.{word};
ghost use Rattle.dsp_defs.specs.Grammar.{Suits};
ghost use Rattle.dsp_defs.specs.Signal.{sample};
ghost use Rattle.dsp_defs.specs.declared.format.Fmt.TheVariants.{Q7};
ghost use Rattle.dsp_defs.specs.declared.script.Block.TheVariants as Blocks;
ghost use Rattle.dsp_channelwise.specs.Adapting.{adapted_of, pairs_of};

use crate::newest::Weighted;
use crate::sums::reversed;
use dsp_defs::{Fmt, Steps};
use dsp_exact::{Formula, add, back, product, sample, saturate, sum, sum_below, values, wrap};
use dsp_sat::{floor_shift, wrap32, wrap64};
use std::alloc::{AllocError, Global};
use std::sync::ledger::Ledger;

/// sat_16(wrap_32(s >> (15-p))), and wrap_32(wrap_64(s) >> (31-p)) in Q31.
fn lms_close(format: Fmt, post_shift: u8, sum: i128) -> i32
    requires wide { format ≢ Q7 }
    ensures value { result ≡ lms_close format post_shift sum }
    ensures fits { FitsSigned (word format) result }
{
    let p = u32::from(post_shift);
    match format {
        Fmt::Q31 => wrap32(i128::from(wrap64(sum)) >> 31u32.saturating_sub(p)),
        _ => saturate(Fmt::Q15, i128::from(wrap32(sum >> 15u32.saturating_sub(p)))),
    }
}

/// alpha, by which the weights move: wrap_16(e*mu >> 15), and wrap_32(e*mu >> 31) in Q31.
fn step_size<L: Ledger>(format: Fmt, mu: i32, e: i32, steps: &mut Steps<L>) -> i32
    ensures value { result ≡ step_size format mu e }
    ensures products { steps.new.multiplies ≤ steps.old.multiplies + 1 }
{
    let p = product(e, mu, steps);
    match format {
        Fmt::Q31 => wrap(Fmt::Q31, p >> 31),
        _ => wrap(Fmt::Q15, p >> 15),
    }
}

/// The weights after a sample: sat_16(w + (alpha*x >> 15)), and sat_32(w + wrap_32(2*(alpha*x >> 32))) in
/// Q31.
#[derive(Clone, Copy)]
struct Moved<'a> {
    format: Fmt,
    alpha: i32,
    w: &'a [i32],
    x: &'a [i32],
}

impl<'a> Formula for Moved<'a> {
    ghost format = { λ f. f.format };

    ghost Gives = { λ f k. f.format ≢ Q7 };

    ghost at = { λ f k. weight_after f.format f.alpha
        (sample f.w.now k) (sample (reverse f.x.now) k) };

    ghost cost = { λ f. 1 };

    fn at<L: Ledger>(&self, k: usize, steps: &mut Steps<L>) -> i32 {
        let w = sample(self.w, k);
        let p = product(self.alpha, back(self.x, k), steps);
        let high = floor_shift(p, 32);
        match self.format {
            Fmt::Q31 => add(Fmt::Q31, w, wrap32(high + high)),
            _ => saturate(Fmt::Q15, sum(i128::from(w), floor_shift(p, 15))),
        }
    }
}

/// What is given of one sample, and the weights after it.
#[derive(Drop)]
pub(crate) struct Adapted {
    pub output: i32,
    pub error: i32,
    pub weights: Vec<i32>,
}

/// From the weights before a sample, the inputs up to it and its reference: y, the sum of w_k*x(n-k), the
/// error wrap(reference - y), and the weights after it.
#[tactic(auto, using(dsp_exact::proofs::Exact::exact))]
fn adapted_to<L: Ledger>(
    alloc: Global,
    format: Fmt,
    post_shift: u8,
    mu: i32,
    w: &[i32],
    x: &[i32],
    reference: i32,
    steps: &mut Steps<L>,
) -> Result<Adapted, AllocError>
    requires wide { format ≢ Q7 }
    ensures value { IfOk result (λ a. adapted_of a
        ≡ adapted format post_shift mu w.now (reverse x.now) reference) }
    ensures length { IfOk result (λ a. length a.weights.items ≡ length w.now) }
    ensures fits { IfOk result (λ a. FitsSigned (word format) a.output
        × FitsSigned (word format) a.error) }
    ensures products { steps.new.multiplies ≤ steps.old.multiplies + (2 * length w.now + 1) }
{
    let sum = sum_below(w.len(), &Weighted { w, x }, steps);
    let output = lms_close(format, post_shift, sum);
    let error = wrap(format, i128::from(reference) - i128::from(output));
    let alpha = step_size(format, mu, error, steps);
    let moved = Moved {
        format,
        alpha,
        w,
        x,
    };
    let weights = values(alloc, w.len(), &moved, steps)?;
    Ok(Adapted {
        output,
        error,
        weights,
    })
}

/// The output and the error of each sample, by the first weights from w_{T-1} to w_0; each in the format
/// of the samples. The source is `arm_lms_q15` and `arm_lms_q31` of CMSIS-DSP.
pub fn lms<L: Ledger>(
    alloc: Global,
    format: Fmt,
    post_shift: u8,
    mu: i32,
    taps: &[i32],
    x: &[i32],
    reference: &[i32],
    steps: &mut Steps<L>,
) -> Result<(Vec<i32>, Vec<i32>), AllocError>
    requires suits { (channels : ℕ) × Suits (record { format = format; channels = channels })
        (Blocks.Lms post_shift mu taps.now) }
    requires format { All (FitsSigned (word format)) x.now }
    requires reference_format { All (FitsSigned (word format)) reference.now }
    requires alike { length reference.now ≡ length x.now }
    ensures outputs { IfOk result (λ y. y.0.items
        ≡ map outputs_of (lms format post_shift mu taps.now (pairs_of x.now reference.now))) }
    ensures errors { IfOk result (λ y. y.1.items
        ≡ map errors_of (lms format post_shift mu taps.now (pairs_of x.now reference.now))) }
    ensures fits { IfOk result (λ y. All (FitsSigned (word format)) y.0.items
        × All (FitsSigned (word format)) y.1.items) }
    ensures products { steps.new.multiplies ≤ steps.old.multiplies
        + length x.now * (2 * length taps.now + 1) }
{
    let mut outputs = Vec::with_capacity(alloc, x.len())?;
    let mut errors = Vec::with_capacity(alloc, x.len())?;
    let mut w = reversed(alloc, taps)?;
    for n in 0..x.len() {
        let past = &x[..n + 1];
        let next = adapted_to(alloc, format, post_shift, mu, &w, past, reference[n], steps)?;
        outputs.push(next.output)?;
        errors.push(next.error)?;
        w = next.weights;
    }
    Ok((outputs, errors))
}
