//! Cascades of second-order sections, one whole signal after another; those in a wide form feed back their
//! accumulators of 64 bits.
ghost use Rattle.std.specs.Prelude.{[], ◌∷◌, ◌≡◌, ◌≢◌, ◌+◌, ◌-◌, ◌*◌, ◌*ℤ◌, ◌≤◌, All, FitsSigned, IfOk, MatchOption};
ghost use Rattle.std.specs.Prelude.{length, map};
ghost use Rattle.dsp_defs.specs.Biquad.{biquad, biquad64, fed_back, section_close, section_output, sections};
ghost use Rattle.dsp_defs.specs.Biquad.{wide_output};
ghost use Rattle.dsp_defs.specs.Cost.{section_count};
ghost use Rattle.dsp_defs.specs.Formats.{word};
ghost use Rattle.dsp_defs.specs.Numbers.{floor_shift, w32, w64, wrap};
ghost use Rattle.dsp_defs.specs.declared.format.Fmt.TheVariants.{Q7, Q31};
ghost use Rattle.dsp_channelwise.specs.Recursions.{section_of};

use crate::newest::Weighted;
use dsp_defs::{Fmt, Steps};
use dsp_exact::{Recurrence, back_wide, outputs, saturate, sum, sum_below};
use dsp_sat::{floor_shift, mult32x64, wrap32, wrap64};
use std::alloc::{AllocError, Global};
use std::sync::ledger::Ledger;

/// The coefficients of a section: b0, b1, b2, and those of the feedback, a1 and a2.
#[derive(Clone, Copy)]
pub(crate) struct Section([i32; 3], [i32; 2]);

/// The first section of these numbers and the numbers after it. A section has six numbers in Q15, where
/// the second is not used, and else five.
fn first_section(format: Fmt, numbers: &[i32]) -> Option<(Section, &[i32])>
    requires { format ≢ Q7 }
    ensures { MatchOption result (sections format numbers.now ≡ [])
        (λ r. (sections format numbers.now ≡ section_of r.0 ∷ sections format r.1.now)
        × (section_count format numbers.now ≡ section_count format r.1.now + 1)) }
{
    match format {
        Fmt::Q15 => match numbers {
            [b0, _, b1, b2, a1, a2, rest @ ..] => Some((
                Section([*b0, *b1, *b2], [*a1, *a2]),
                rest,
            )),
            _ => None,
        },
        _ => match numbers {
            [b0, b1, b2, a1, a2, rest @ ..] => Some((Section([*b0, *b1, *b2], [*a1, *a2]), rest)),
            _ => None,
        },
    }
}

/// A sum of a section as a sample.
fn section_close(format: Fmt, post_shift: u8, sum: i128) -> i32
    requires wide { format ≢ Q7 }
    ensures value { result ≡ section_close format post_shift sum }
    ensures fits { FitsSigned (word format) result }
{
    let p = u32::from(post_shift);
    match format {
        Fmt::Q31 => wrap32(i128::from(wrap64(sum)) >> 31u32.saturating_sub(p)),
        _ => saturate(Fmt::Q15, sum >> 15u32.saturating_sub(p)),
    }
}

/// y = close(b0*x + b1*x1 + b2*x2 + a1*y1 + a2*y2)
#[derive(Clone, Copy)]
struct Narrow {
    format: Fmt,
    post_shift: u8,
    section: Section,
    ghost wide: { format ≢ Q7 },
}

impl Recurrence for Narrow {
    type In = i32;

    type Out = i32;

    ghost next = { λ r. section_output r.format r.post_shift (section_of r.section) };

    ghost IsValue = { λ r y. FitsSigned (word r.format) y };

    ghost cost = { λ r. 5 };

    fn next<L: Ledger>(&self, x: &[i32], y: &[i32], steps: &mut Steps<L>) -> i32 {
        let Section(b, a) = &self.section;
        let forward = sum_below(3, &Weighted { w: b, x }, steps);
        let back = sum_below(2, &Weighted { w: a, x: y }, steps);
        section_close(self.format, self.post_shift, sum(forward, back))
    }
}

/// The sections one after another, as many values as x has samples, by the coefficients of each: `b0, 0,
/// b1, b2, a1, a2` in Q15 and `b0, b1, b2, a1, a2` in Q31, fractions times 2^post_shift. The source is
/// `arm_biquad_cascade_df1_q15` and `arm_biquad_cascade_df1_q31` of CMSIS-DSP.
pub fn biquad<L: Ledger>(
    alloc: Global,
    format: Fmt,
    post_shift: u8,
    coefficients: &[i32],
    x: &[i32],
    steps: &mut Steps<L>,
) -> Result<Vec<i32>, AllocError>
    requires wide { format ≢ Q7 }
    requires fits { All (FitsSigned (word format)) x.now }
    ensures values { IfOk result (λ y. y.items ≡ biquad format post_shift coefficients.now x.now) }
    ensures fits { IfOk result (λ y. All (FitsSigned (word format)) y.items) }
    ensures products { steps.new.multiplies ≤ steps.old.multiplies
        + length x.now * (5 * section_count format coefficients.now) }
{
    let mut y = x.to_vec(alloc)?;
    let mut numbers = coefficients;
    while let Some((section, later)) = first_section(format, numbers) {
        let recurrence = Narrow {
            format,
            post_shift,
            section,
        };
        y = outputs(alloc, &recurrence, y.as_slice(), steps)?;
        numbers = later;
    }
    Ok(y)
}

/// Y = wrap_64(acc * 2^(p+1))
fn fed_back(post_shift: u8, acc: i64) -> i64
    requires { post_shift ≤ 30 }
    ensures { result ≡ fed_back post_shift acc }
{
    wrap64(i128::from(acc) * 2i128.pow(u32::from(post_shift) + 1))
}

/// a*Y >> 32
fn fed_product<L: Ledger>(post_shift: u8, acc: i64, a: i32, steps: &mut Steps<L>) -> i64
    requires { post_shift ≤ 30 }
    ensures value { result ≡ floor_shift (a *ℤ fed_back post_shift acc) 32 }
    ensures products { steps.new.multiplies ≡ steps.old.multiplies + 1 }
{
    mult32x64(fed_back(post_shift, acc), a, steps)
}

/// acc = wrap_64(b0*x + b1*x1 + b2*x2 + (a1*Y1 >> 32) + (a2*Y2 >> 32))
#[derive(Clone, Copy)]
struct Wide {
    post_shift: u8,
    section: Section,
    ghost in_range: { post_shift ≤ 30 },
}

impl Recurrence for Wide {
    type In = i32;

    type Out = i64;

    ghost next = { λ r. wide_output r.post_shift (section_of r.section) };

    ghost IsValue = { λ r y. FitsSigned w64 y };

    ghost cost = { λ r. 5 };

    fn next<L: Ledger>(&self, x: &[i32], y: &[i64], steps: &mut Steps<L>) -> i64 {
        let Section(b, a) = &self.section;
        let forward = sum_below(3, &Weighted { w: b, x }, steps);
        let y1 = fed_product(self.post_shift, back_wide(y, 0), a[0], steps);
        let y2 = fed_product(self.post_shift, back_wide(y, 1), a[1], steps);
        wrap64(sum(sum(forward, i128::from(y1)), i128::from(y2)))
    }
}

/// wrap_32(acc >> (31-p))
fn shifted(post_shift: u8, acc: i64) -> i32
    ensures { result ≡ wrap w32 (floor_shift acc (31 - post_shift)) }
{
    wrap32(floor_shift(i128::from(acc), 31u32.saturating_sub(u32::from(post_shift))))
}

/// y = wrap_32(acc >> (31-p))
fn all_shifted(alloc: Global, post_shift: u8, accs: &[i64]) -> Result<Vec<i32>, AllocError>
    ensures values { IfOk result (λ y. y.items ≡
        map (λ acc. wrap w32 (floor_shift acc (31 - post_shift))) accs.now) }
    ensures fits { IfOk result (λ y. All (FitsSigned w32) y.items) }
{
    accs.iter().map(|a| shifted(post_shift, *a)).collect(alloc)
}

/// The sections one after another, as many values as x has samples, by the coefficients `b0, b1, b2, a1,
/// a2` of each, fractions times 2^post_shift in Q31. The source is `arm_biquad_cas_df1_32x64_q31` of
/// CMSIS-DSP.
pub fn biquad64<L: Ledger>(
    alloc: Global,
    post_shift: u8,
    coefficients: &[i32],
    x: &[i32],
    steps: &mut Steps<L>,
) -> Result<Vec<i32>, AllocError>
    requires in_range { post_shift ≤ 30 }
    requires fits { All (FitsSigned (word Q31)) x.now }
    ensures values { IfOk result (λ y. y.items ≡ biquad64 post_shift coefficients.now x.now) }
    ensures fits { IfOk result (λ y. All (FitsSigned (word Q31)) y.items) }
    ensures products { steps.new.multiplies ≤ steps.old.multiplies
        + length x.now * (5 * section_count Q31 coefficients.now) }
{
    let mut y = x.to_vec(alloc)?;
    let mut numbers = coefficients;
    while let Some((section, later)) = first_section(Fmt::Q31, numbers) {
        let recurrence = Wide {
            post_shift,
            section,
        };
        let accs = outputs(alloc, &recurrence, y.as_slice(), steps)?;
        y = all_shifted(alloc, post_shift, accs.as_slice())?;
        numbers = later;
    }
    Ok(y)
}
