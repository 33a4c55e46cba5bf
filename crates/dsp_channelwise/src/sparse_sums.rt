//! The sparse filter.
ghost use Rattle.std.specs.Prelude.{◌≡◌, ◌+◌, ◌*◌, ◌<◌, ◌≤◌, ◌^◌, All, FitsSigned, IfOk, get_or, length, map};
ghost use Rattle.std.specs.Prelude.{nat_abs};
ghost use Rattle.dsp_defs.specs.Formats.{word};
ghost use Rattle.dsp_defs.specs.Signal.{delayed, sample, sum_below};
ghost use Rattle.dsp_defs.specs.Sums.{sparse, sparse_close, sparse_term};

use dsp_defs::{Fmt, Steps};
use dsp_exact::{Formula, Terms, delayed, product, sample, saturate, sum_below, values};
use dsp_sat::{floor_shift, wrap32};
use std::alloc::{AllocError, Global};
use std::sync::ledger::Ledger;

/// A sum of a sparse filter as a sample: the accumulator has 32 bits in each format.
fn sparse_close(format: Fmt, sum: i128) -> i32
    requires { nat_abs sum < 2 ^ 126 }
    ensures value { result ≡ sparse_close format sum }
    ensures fits { FitsSigned (word format) result }
{
    match format {
        Fmt::Q7 => saturate(Fmt::Q7, i128::from(wrap32(sum)) >> 7),
        Fmt::Q15 => saturate(Fmt::Q15, i128::from(wrap32(sum)) >> 15),
        Fmt::Q31 => wrap32(2 * sum),
    }
}

/// b*x, and in Q31 its high word.
fn sparse_term<L: Ledger>(format: Fmt, b: i32, x: i32, steps: &mut Steps<L>) -> i128
    ensures value { result ≡ sparse_term format b x }
    ensures small { nat_abs result ≤ 2 ^ 62 }
    ensures products { steps.new.multiplies ≤ steps.old.multiplies + 1 }
{
    let p = product(b, x, steps);
    match format {
        Fmt::Q31 => floor_shift(p, 32),
        _ => p,
    }
}

/// The sums of a sparse filter.
#[derive(Clone, Copy)]
struct SparseSums<'a> {
    format: Fmt,
    b: &'a [i32],
    delays: &'a [i32],
    x: &'a [i32],
}

/// The terms of one of these sums: b[k] * x(n-d[k]), and in Q31 its high word.
#[derive(Clone, Copy)]
struct SparseDelays<'a> {
    of: SparseSums<'a>,
    n: usize,
}

impl<'a> Terms for SparseDelays<'a> {
    ghost Has = { λ t k. k < length t.of.delays.now };

    ghost term = { λ t k. sparse_term t.of.format (sample t.of.b.now k)
        (delayed t.of.x.now t.n (get_or (map nat_abs t.of.delays.now) k 0)) };

    fn term<L: Ledger>(&self, k: usize, steps: &mut Steps<L>) -> i128 {
        let delay = self.of.delays[k].unsigned_abs() as usize;
        let x = delayed(self.of.x, self.n, delay);
        sparse_term(self.of.format, sample(self.of.b, k), x, steps)
    }
}

impl<'a> Formula for SparseSums<'a> {
    ghost format = { λ f. f.format };

    ghost Gives = { λ f n. length f.b.now ≤ length f.delays.now };

    ghost at = { λ f n. sparse_close f.format (sum_below (length f.b.now) (λ k. sparse_term f.format
        (sample f.b.now k) (delayed f.x.now n (get_or (map nat_abs f.delays.now) k 0)))) };

    ghost cost = { λ f. length f.b.now };

    fn at<L: Ledger>(&self, n: usize, steps: &mut Steps<L>) -> i32 {
        let terms = SparseDelays { of: *self, n };
        sparse_close(self.format, sum_below(self.b.len(), &terms, steps))
    }
}

/// y(n) from the sum over k of b[k] * x(n-d[k]), as many values as x has samples, by a tap and a delay
/// for each k; each in the format of the samples. The source is `arm_fir_sparse_q7`,
/// `arm_fir_sparse_q15` and `arm_fir_sparse_q31` of CMSIS-DSP.
pub fn sparse<L: Ledger>(
    alloc: Global,
    format: Fmt,
    taps: &[i32],
    delays: &[i32],
    x: &[i32],
    steps: &mut Steps<L>,
) -> Result<Vec<i32>, AllocError>
    requires { length taps.now ≤ length delays.now }
    ensures values { IfOk result (λ y. y.items ≡ sparse format taps.now (map nat_abs delays.now) x.now) }
    ensures fits { IfOk result (λ y. All (FitsSigned (word format)) y.items) }
    ensures products { steps.new.multiplies ≤ steps.old.multiplies + length x.now * length taps.now }
{
    let formula = SparseSums {
        format,
        b: taps,
        delays,
        x,
    };
    values(alloc, x.len(), &formula, steps)
}
