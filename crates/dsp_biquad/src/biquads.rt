ghost use Rattle.std.specs.Prelude.{◌≡◌, ℕ, ℤ, List, IfOk, IfErr, MatchOption, length, map};
ghost use Rattle.dsp_unit.specs.Filter.{FilterState, IsNewFilter};
ghost use Rattle.dsp_defs.specs.declared.script.Block.{Block};
ghost use Rattle.dsp_biquad.specs.Making.{cascade_fault};

use crate::making::check_cascade;
use crate::{Cascade, CascadeSection, Section, Section64};
use dsp_defs::MakeFault;
use dsp_filter::{StepFilter, all_fit};
use dsp_sat::Sample;
use std::alloc::Global;

/// A cascade of biquads on one channel. It keeps four numbers for each section, section after section:
/// the last two samples and the last two values that are fed back, the newest first.
pub type Biquads<T, S> = StepFilter<T, Cascade<T, S>>;

/// A cascade in Q15 (`arm_biquad_cascade_df1_q15`).
pub type Biquad15 = Biquads<i16, Section<i16>>;

/// A cascade in Q31 (`arm_biquad_cascade_df1_q31`).
pub type Biquad31 = Biquads<i32, Section<i32>>;

/// A cascade in Q31 with its feedback in 64 bits (`arm_biquad_cas_df1_32x64_q31`).
pub type Biquad64 = Biquads<i32, Section64>;

/// What a cascade has besides the calls of every `StepFilter`.
pub trait BiquadCalls<T: Sample> {
    ghost filter: { Self → FilterState };

    // The block of a post shift and the numbers of sections, how many of these a section has, and the
    // greatest post shift.
    ghost block_of: { ℕ → List ℤ → Block };

    ghost SIZE: { ℕ };

    ghost GREATEST_SHIFT: { ℕ };

    /// A cascade that has taken nothing, from the post shift and the numbers of its sections one after
    /// another, for blocks of at most `block` samples. `Length` where the numbers are none, no whole
    /// sections or those of more than 64, then `Range` where the post shift is too great, `Range` where
    /// the block is not in 1..`MAX_SAMPLES`, then `Memory`. No later call takes memory.
    fn new(
        alloc: Global,
        post_shift: u8,
        coefficients: &[T],
        block: usize,
    ) -> Result<Self, MakeFault>
        ensures made { IfOk result (λ cascade. IsNewFilter
            (block_of post_shift (map T.number coefficients.now)) T.format block (filter cascade)) }
        ensures fault { MatchOption (cascade_fault SIZE GREATEST_SHIFT
            (length coefficients.now) post_shift block) (IfErr result (λ e. e ≡ MakeFault.Memory))
            (λ e. result ≡ Err e) };
}

impl<T: Sample, S: CascadeSection<T>> BiquadCalls<T> for Biquads<T, S> {
    ghost filter = { λ f. f };

    ghost block_of = { S.block };

    ghost SIZE = { S.SIZE };

    ghost GREATEST_SHIFT = { S.GREATEST_SHIFT };

    fn new(
        alloc: Global,
        post_shift: u8,
        coefficients: &[T],
        block: usize,
    ) -> Result<Self, MakeFault> {
        check_cascade(
            coefficients.len(),
            S::SIZE,
            post_shift,
            S::GREATEST_SHIFT,
            block,
        )?;
        all_fit(coefficients);
        let Ok(coefficients) = Vec::from_slice(alloc, coefficients) else {
            return Err(MakeFault::Memory);
        };
        let Ok(cascade) = Cascade::new(alloc, post_shift, coefficients) else {
            return Err(MakeFault::Memory);
        };
        Ok(StepFilter::of_work(cascade, block))
    }
}
