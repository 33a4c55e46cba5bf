//! The lattice with feedback and a ladder.
ghost use Rattle.std.specs.Prelude.{◌≡◌, ◌≢◌, ◌+◌, ◌*◌, ◌≤◌, ◌^◌, ◌+ℤ◌, ◌-ℤ◌, ◌*ℤ◌, All, FitsSigned, IfOk};
ghost use Rattle.std.specs.Prelude.{drop, length, nat_abs};
ghost use Rattle.dsp_defs.specs.Formats.{word, word_bits};
ghost use Rattle.dsp_defs.specs.Numbers.{saturate};
ghost use Rattle.dsp_defs.specs.Lattice.{backward_values, ladder_close, ladder_sum};
ghost use Rattle.dsp_defs.specs.Lattice.{lattice_iir, reflected};
ghost use Rattle.dsp_defs.specs.Signal.{sample};
ghost use Rattle.dsp_defs.specs.declared.format.Fmt.TheVariants.{Q7};

use dsp_defs::{Fmt, Steps};
use dsp_exact::{Terms, difference, product, sample, saturate, sum, sum_below};
use dsp_sat::{floor_shift, wrap32, wrap64};
use std::alloc::{AllocError, Global};
use std::sync::ledger::Ledger;

/// k*g >> 15, and wrap_32(k*g >> 31) in Q31.
fn reflected<L: Ledger>(format: Fmt, k: i32, g: i32, steps: &mut Steps<L>) -> i128
    ensures value { result ≡ reflected format k g }
    ensures small { nat_abs result ≤ 2 ^ 62 }
    ensures products { steps.new.multiplies ≤ steps.old.multiplies + 1 }
{
    let p = product(k, g, steps);
    match format {
        Fmt::Q31 => i128::from(wrap32(floor_shift(p, 31))),
        _ => floor_shift(p, 15),
    }
}

/// f_{m-1} and g_m from f_m, k_m and g_{m-1}(n-1).
fn ladder_step<L: Ledger>(format: Fmt, f: i32, k: i32, g: i32, steps: &mut Steps<L>) -> (i32, i32)
    ensures lower { result.0 ≡ saturate (word_bits format) (f -ℤ reflected format k g) }
    ensures upper { result.1 ≡ saturate (word_bits format) (reflected format k result.0 +ℤ g) }
    ensures products { steps.new.multiplies ≤ steps.old.multiplies + 2 }
{
    let down = reflected(format, k, g, steps);
    let lower = saturate(format, difference(i128::from(f), down));
    let up = reflected(format, k, lower, steps);
    let upper = saturate(format, sum(up, i128::from(g)));
    (lower, upper)
}

/// g_S(n), .., g_0(n) from f_S(n), k_S .. k_1 and g_{S-1}(n-1), .., g_0(n-1), which are those of `before`
/// after its first.
fn backward_values<L: Ledger>(
    alloc: Global,
    format: Fmt,
    f: i32,
    k: &[i32],
    before: &[i32],
    steps: &mut Steps<L>,
) -> Result<Vec<i32>, AllocError>
    ensures values { IfOk result (λ g. g.items ≡ backward_values format f k.now (drop 1 before.now)) }
    ensures products { steps.new.multiplies ≤ steps.old.multiplies + length k.now * 2 }
{
    let mut values = Vec::new(alloc);
    let mut f = f;
    for m in 0..k.len() {
        let (lower, upper) = ladder_step(format, f, k[m], sample(before, m + 1), steps);
        values.push(upper)?;
        f = lower;
    }
    values.push(f)?;
    Ok(values)
}

/// The terms v_m * g_m.
#[derive(Clone, Copy)]
struct Ladder<'a> {
    v: &'a [i32],
    g: &'a [i32],
}

impl<'a> Terms for Ladder<'a> {
    ghost Has = { λ t m. Unit {0} };

    ghost term = { λ t m. sample t.v.now m *ℤ sample t.g.now m };

    fn term<L: Ledger>(&self, m: usize, steps: &mut Steps<L>) -> i128 {
        product(sample(self.v, m), sample(self.g, m), steps)
    }
}

/// sat_16(s >> 15), and wrap_32(wrap_64(s) >> 31) in Q31.
fn ladder_close(format: Fmt, sum: i128) -> i32
    requires wide { format ≢ Q7 }
    ensures value { result ≡ ladder_close format sum }
    ensures fits { FitsSigned (word format) result }
{
    match format {
        Fmt::Q31 => wrap32(i128::from(wrap64(sum)) >> 31),
        _ => saturate(Fmt::Q15, sum >> 15),
    }
}

/// The ladder sum as a sample.
fn ladder_value<L: Ledger>(format: Fmt, v: &[i32], g: &[i32], steps: &mut Steps<L>) -> i32
    requires wide { format ≢ Q7 }
    ensures value { result ≡ ladder_close format (ladder_sum v.now g.now) }
    ensures fits { FitsSigned (word format) result }
    ensures products { steps.new.multiplies ≤ steps.old.multiplies + length v.now }
{
    ladder_close(format, sum_below(v.len(), &Ladder { v, g }, steps))
}

/// y(n), the ladder sum as a sample, as many values as x has samples, by k from k_S to k_1 and v from
/// v_S to v_0; each in the format of the samples. The source is `arm_iir_lattice_q15` and
/// `arm_iir_lattice_q31` of CMSIS-DSP.
pub fn lattice_iir<L: Ledger>(
    alloc: Global,
    format: Fmt,
    k: &[i32],
    v: &[i32],
    x: &[i32],
    steps: &mut Steps<L>,
) -> Result<Vec<i32>, AllocError>
    requires wide { format ≢ Q7 }
    ensures values { IfOk result (λ y. y.items ≡ lattice_iir format k.now v.now x.now) }
    ensures fits { IfOk result (λ y. All (FitsSigned (word format)) y.items) }
    ensures products { steps.new.multiplies ≤ steps.old.multiplies
        + length x.now * (length k.now * 2 + length v.now) }
{
    let mut y = Vec::with_capacity(alloc, x.len())?;
    let mut g = Vec::new(alloc);
    for n in 0..x.len() {
        g = backward_values(alloc, format, x[n], k, g.as_slice(), steps)?;
        y.push(ladder_value(format, v, g.as_slice(), steps))?;
    }
    Ok(y)
}
