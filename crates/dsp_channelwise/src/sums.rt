//! Filters and whole-signal operations that are sums of products.
ghost use Rattle.std.specs.Prelude.{◌≡◌, ◌+◌, ◌*◌, ◌/◌, ◌<◌, ◌≤◌, ◌^◌, ◌*ℤ◌, ℕ, All, FitsSigned, IfOk};
ghost use Rattle.std.specs.Prelude.{length, reverse};
ghost use Rattle.dsp_defs.specs.Formats.{close, word};
ghost use Rattle.dsp_defs.specs.Signal.{delayed, sample, values};
ghost use Rattle.dsp_defs.specs.Sums.{conv, conv_partial, convolution_at, decimate, fir, full_length};

use dsp_defs::{Fmt, Steps};
use dsp_exact::{Formula, Terms, close, delayed, product, sample, sum_below, values};
use std::alloc::{AllocError, Global};
use std::sync::ledger::Ledger;

/// The list from its end to its start.
pub(crate) fn reversed(alloc: Global, list: &[i32]) -> Result<Vec<i32>, AllocError>
    ensures { IfOk result (λ y. y.items ≡ reverse list.now) }
{
    list.iter().rev().copied().collect(alloc)
}

/// The terms b[k] * x(n-k).
#[derive(Clone, Copy)]
struct Delays<'a> {
    b: &'a [i32],
    x: &'a [i32],
    n: usize,
}

impl<'a> Terms for Delays<'a> {
    ghost Has = { λ t k. Unit {0} };

    ghost term = { λ t k. sample t.b.now k *ℤ delayed t.x.now t.n k };

    fn term<L: Ledger>(&self, k: usize, steps: &mut Steps<L>) -> i128 {
        product(sample(self.b, k), delayed(self.x, self.n, k), steps)
    }
}

/// The closed sums over b[k] * x(n-k) at n = first, first + step, ..
#[derive(Clone, Copy)]
struct Convolution<'a> {
    format: Fmt,
    b: &'a [i32],
    x: &'a [i32],
    first: usize,
    step: usize,
}

impl<'a> Formula for Convolution<'a> {
    ghost format = { λ f. f.format };

    ghost Gives = { λ f n. f.first + n * f.step < 2 ^ 64 };

    ghost at = { λ f n. close f.format (convolution_at f.b.now f.x.now (f.first + n * f.step)) };

    ghost cost = { λ f. length f.b.now };

    fn at<L: Ledger>(&self, n: usize, steps: &mut Steps<L>) -> i32 {
        let terms = Delays {
            b: self.b,
            x: self.x,
            n: self.first + n * self.step,
        };
        close(self.format, sum_below(self.b.len(), &terms, steps))
    }
}

/// The first `count` of these sums.
fn convolved<L: Ledger>(
    alloc: Global,
    format: Fmt,
    b: &[i32],
    x: &[i32],
    first: usize,
    step: usize,
    count: usize,
    steps: &mut Steps<L>,
) -> Result<Vec<i32>, AllocError>
    requires { (n : ℕ) → n < count → first + n * step < 2 ^ 64 }
    ensures values { IfOk result (λ y. y.items ≡ values count
        (λ n. close format (convolution_at b.now x.now (first + n * step)))) }
    ensures fits { IfOk result (λ y. All (FitsSigned (word format)) y.items) }
    ensures products { steps.new.multiplies ≤ steps.old.multiplies + count * length b.now }
{
    let formula = Convolution {
        format,
        b,
        x,
        first,
        step,
    };
    values(alloc, count, &formula, steps)
}

/// y(n) = close(sum over k of b[k] * x(n-k)), as many values as x has samples, by the taps from b[T-1]
/// to b[0]; each in the format of the samples. The source is `arm_fir_q7`, `arm_fir_q15` and
/// `arm_fir_q31` of CMSIS-DSP.
pub fn fir<L: Ledger>(
    alloc: Global,
    format: Fmt,
    taps: &[i32],
    x: &[i32],
    steps: &mut Steps<L>,
) -> Result<Vec<i32>, AllocError>
    ensures values { IfOk result (λ y. y.items ≡ fir format taps.now x.now) }
    ensures fits { IfOk result (λ y. All (FitsSigned (word format)) y.items) }
    ensures products { steps.new.multiplies ≤ steps.old.multiplies + length x.now * length taps.now }
{
    let b = reversed(alloc, taps)?;
    convolved(alloc, format, b.as_slice(), x, 0, 1, x.len(), steps)
}

/// y(j) = close(sum over k of b[k] * x(j*M-k)), a value for each whole group of M samples, by the taps
/// from b[T-1] to b[0]; each in the format of the samples. The source is `arm_fir_decimate_q15` and
/// `arm_fir_decimate_q31` of CMSIS-DSP.
pub fn decimate<L: Ledger>(
    alloc: Global,
    format: Fmt,
    factor: u8,
    taps: &[i32],
    x: &[i32],
    steps: &mut Steps<L>,
) -> Result<Vec<i32>, AllocError>
    requires { 1 ≤ factor }
    ensures values { IfOk result (λ y. y.items ≡ decimate format factor taps.now x.now) }
    ensures fits { IfOk result (λ y. All (FitsSigned (word format)) y.items) }
    ensures products { steps.new.multiplies ≤ steps.old.multiplies
        + length x.now / factor * length taps.now }
{
    let b = reversed(alloc, taps)?;
    let step = usize::from(factor);
    let count = x.len() / step;
    convolved(alloc, format, b.as_slice(), x, 0, step, count, steps)
}

/// The values of a full convolution: N+T-1, or 0 where N is 0.
fn full_length(n: usize, t: usize) -> usize
    requires { n + t < 2 ^ 64 }
    ensures { result ≡ full_length n t }
{
    if n == 0 { 0 } else { n + t - 1 }
}

/// y(n) = close(sum over k of b[k] * x(n-k)) for all N+T-1 values, also past the end of x, by the taps
/// from b[0] on; each in the format of the samples. The source is `arm_conv_q7`, `arm_conv_q15` and
/// `arm_conv_q31` of CMSIS-DSP.
pub fn conv<L: Ledger>(
    alloc: Global,
    format: Fmt,
    taps: &[i32],
    x: &[i32],
    steps: &mut Steps<L>,
) -> Result<Vec<i32>, AllocError>
    requires { length x.now + length taps.now < 2 ^ 64 }
    ensures values { IfOk result (λ y. y.items ≡ conv format taps.now x.now) }
    ensures fits { IfOk result (λ y. All (FitsSigned (word format)) y.items) }
    ensures products { steps.new.multiplies ≤ steps.old.multiplies
        + full_length (length x.now) (length taps.now) * length taps.now }
{
    let count = full_length(x.len(), taps.len());
    convolved(alloc, format, taps, x, 0, 1, count, steps)
}

/// y(first), .., y(first+count-1) of the full convolution, as far as it goes, by the taps from b[0] on;
/// each in the format of the samples. The source is `arm_conv_partial_q7`, `arm_conv_partial_q15` and
/// `arm_conv_partial_q31` of CMSIS-DSP.
pub fn conv_partial<L: Ledger>(
    alloc: Global,
    format: Fmt,
    first: u32,
    count: u32,
    taps: &[i32],
    x: &[i32],
    steps: &mut Steps<L>,
) -> Result<Vec<i32>, AllocError>
    requires { length x.now + length taps.now < 2 ^ 64 }
    ensures values { IfOk result (λ y. y.items ≡ conv_partial format first count taps.now x.now) }
    ensures fits { IfOk result (λ y. All (FitsSigned (word format)) y.items) }
    ensures products { steps.new.multiplies ≤ steps.old.multiplies + count * length taps.now }
{
    let first = first as usize;
    let full = full_length(x.len(), taps.len());
    let count = (count as usize).min(full.saturating_sub(first));
    convolved(alloc, format, taps, x, first, 1, count, steps)
}
