//! The formulas of complex blocks: each frame has the parts of one or two complex numbers.
#![tactic(auto, using(crate::proofs::Shifted::parts))]

ghost use Rattle.std.specs.Prelude.{◌≡◌, ◌≤◌, ◌+◌, ◌-◌, ◌*◌, ◌^◌, ◌*ℤ◌, All, FitsSigned, nat_abs};
ghost use Rattle.dsp_defs.specs.Complex.{cmplx_mag_squared, cmplx_mult, product_shift};
ghost use Rattle.dsp_defs.specs.Formats.{word, word_bits};
ghost use Rattle.dsp_defs.specs.Numbers.{floor_shift};
ghost use Rattle.dsp_defs.specs.Signal.{sample};

use dsp_defs::{Fmt, Steps};
use dsp_exact::{difference, sample, sum};
use std::sync::ledger::Ledger;

/// How far a product of two parts is shifted, so that the sum of two of them fits the word.
fn product_shift(format: Fmt) -> u32
    ensures { result ≡ product_shift format }
{
    match format {
        Fmt::Q31 => 33,
        _ => 17,
    }
}

/// The product of parts i and j of the frame.
fn product<L: Ledger>(format: Fmt, frame: &[i32], i: usize, j: usize, steps: &mut Steps<L>) -> i128
    requires { All (FitsSigned (word format)) frame.now }
    ensures value { result ≡ sample frame.now i *ℤ sample frame.now j }
    ensures small { nat_abs result ≤ 2 ^ (2 * word_bits format - 2) }
    ensures products { steps.new.multiplies ≡ steps.old.multiplies + 1 }
{
    dsp_exact::product(sample(frame, i), sample(frame, j), steps)
}

/// That product, shifted.
fn shifted<L: Ledger>(format: Fmt, frame: &[i32], i: usize, j: usize, steps: &mut Steps<L>) -> i128
    requires { All (FitsSigned (word format)) frame.now }
    ensures value { result ≡ floor_shift (sample frame.now i *ℤ sample frame.now j)
        (product_shift format) }
    ensures small { nat_abs result ≤ 2 ^ (word_bits format - 3) }
    ensures products { steps.new.multiplies ≡ steps.old.multiplies + 1 }
{
    product(format, frame, i, j, steps) >> product_shift(format)
}

/// A number as small as the sum of two such products, as a sample.
fn as_sample(format: Fmt, v: i128) -> i32
    requires { nat_abs v ≤ 2 * 2 ^ (word_bits format - 3) }
    ensures value { result ≡ v }
    ensures fits { FitsSigned (word format) result }
{
    v as i32
}

/// The real part of the product of the frame's two numbers, a*c - b*d.
pub fn real_part<L: Ledger>(format: Fmt, frame: &[i32], steps: &mut Steps<L>) -> i32
    requires { All (FitsSigned (word format)) frame.now }
    ensures value { result ≡ (cmplx_mult format (sample frame.now 0) (sample frame.now 1)
        (sample frame.now 2) (sample frame.now 3)).0 }
    ensures fits { FitsSigned (word format) result }
    ensures products { steps.new.multiplies ≡ steps.old.multiplies + 2 }
{
    let ac = shifted(format, frame, 0, 2, steps);
    let bd = shifted(format, frame, 1, 3, steps);
    as_sample(format, difference(ac, bd))
}

/// The imaginary part, a*d + b*c.
pub fn imaginary_part<L: Ledger>(format: Fmt, frame: &[i32], steps: &mut Steps<L>) -> i32
    requires { All (FitsSigned (word format)) frame.now }
    ensures value { result ≡ (cmplx_mult format (sample frame.now 0) (sample frame.now 1)
        (sample frame.now 2) (sample frame.now 3)).1 }
    ensures fits { FitsSigned (word format) result }
    ensures products { steps.new.multiplies ≡ steps.old.multiplies + 2 }
{
    let ad = shifted(format, frame, 0, 3, steps);
    let bc = shifted(format, frame, 1, 2, steps);
    as_sample(format, sum(ad, bc))
}

/// The squared magnitude of the frame's number. The squares are shifted one by one in Q31, and else
/// their sum is.
pub fn mag_squared<L: Ledger>(format: Fmt, frame: &[i32], steps: &mut Steps<L>) -> i32
    requires { All (FitsSigned (word format)) frame.now }
    ensures value { result ≡ cmplx_mag_squared format (sample frame.now 0) (sample frame.now 1) }
    ensures fits { FitsSigned (word format) result }
    ensures products { steps.new.multiplies ≡ steps.old.multiplies + 2 }
{
    match format {
        Fmt::Q31 => {
            let aa = shifted(format, frame, 0, 0, steps);
            let bb = shifted(format, frame, 1, 1, steps);
            as_sample(format, sum(aa, bb))
        }
        _ => {
            let aa = product(format, frame, 0, 0, steps);
            let bb = product(format, frame, 1, 1, steps);
            as_sample(format, sum(aa, bb) >> product_shift(format))
        }
    }
}
