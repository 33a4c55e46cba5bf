ghost use Rattle.std.specs.Prelude.{◌≡◌, refl, ℕ, ℤ, ◌-◌, ◌-ℤ◌, ◌*ℤ◌};
ghost use Rattle.dsp_defs.specs.Numbers.{floor_shift, wrap, w16, w32};
ghost use Rattle.dsp_defs.specs.Formats.{accumulator, word};
ghost use Rattle.dsp_defs.specs.Adaptive.{lms_close, step_size};
ghost use Rattle.dsp_defs.specs.Parameters.{greatest_lms_shift};
ghost use Rattle.dsp_defs.specs.declared.format.Fmt.TheVariants.{Q15};

use dsp_lanes::WeightSample;
use dsp_sat::{WideSample, low_word, sat16, wrap16};

/// The output of a sum of products in Q15.
#[inline(always)]
fn close15(sum: i64, post_shift: u8) -> i16
    ensures { result ≡ lms_close Q15 post_shift sum }
{
    sat16(i64::from(low_word(sum >> 15u32.saturating_sub(u32::from(post_shift)))))
}

/// The output of a sum of products in Q31, which was wrapped before.
#[inline(always)]
fn close31(sum: i64, post_shift: u8) -> i32
    ensures { result ≡ wrap w32 (floor_shift sum (31 - post_shift)) }
{
    low_word(sum >> 31u32.saturating_sub(u32::from(post_shift)))
}

/// The step size of a product of an error and mu in Q15.
#[inline(always)]
fn step15(product: i32) -> i16
    ensures { result ≡ wrap w16 (floor_shift product 15) }
{
    wrap16(i64::from(product >> 15))
}

/// The samples of an LMS filter.
pub trait LmsSample: WideSample + WeightSample {
    const GREATEST_SHIFT: u8;

    // The greatest post shift.
    ghost GREATEST_SHIFT: { ℕ };

    /// The output of a sum of products that was wrapped to the accumulator.
    fn closed(sum: Self::Acc, post_shift: u8) -> Self
        ensures { (s : ℤ) → Self.total sum ≡ wrap (accumulator Self.format) s
            → Self.number result ≡ lms_close Self.format post_shift s };

    /// The wrapped difference of the reference and the output.
    fn error(reference: Self, output: Self) -> Self
        ensures { Self.number result ≡ wrap (word Self.format)
            (Self.number reference -ℤ Self.number output) };

    /// The step size, from the product of the error and mu.
    fn step_size(product: Self::Wide) -> Self
        ensures { (mu e : ℤ) → Self.wide product ≡ e *ℤ mu
            → Self.number result ≡ step_size Self.format mu e };

    ghost has_shift: { GREATEST_SHIFT ≡ greatest_lms_shift Self.format };
}

impl LmsSample for i16 {
    const GREATEST_SHIFT: u8 = 14;

    ghost GREATEST_SHIFT = { 14 };

    #[inline(always)]
    fn closed(sum: i64, post_shift: u8) -> i16 {
        close15(sum, post_shift)
    }

    #[inline(always)]
    fn error(reference: i16, output: i16) -> i16 {
        reference.wrapping_sub(output)
    }

    #[inline(always)]
    fn step_size(product: i32) -> i16 {
        step15(product)
    }

    ghost has_shift = { refl };
}

impl LmsSample for i32 {
    const GREATEST_SHIFT: u8 = 30;

    ghost GREATEST_SHIFT = { 30 };

    #[inline(always)]
    fn closed(sum: i64, post_shift: u8) -> i32 {
        close31(sum, post_shift)
    }

    #[inline(always)]
    fn error(reference: i32, output: i32) -> i32 {
        reference.wrapping_sub(output)
    }

    #[inline(always)]
    fn step_size(product: i64) -> i32 {
        low_word(product >> 31)
    }

    ghost has_shift = { refl };
}
