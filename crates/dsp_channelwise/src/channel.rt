//! What a block gives of one whole channel.
ghost use Rattle.std.specs.Prelude.{◌≡◌, ◌+◌, ◌≤◌, ℕ, All, FitsSigned, IfOk, IfSome, IsSome, length};
ghost use Rattle.dsp_defs.specs.Block.{whole_channel};
ghost use Rattle.dsp_defs.specs.Cost.{whole_block_cost};
ghost use Rattle.dsp_defs.specs.Formats.{word};
ghost use Rattle.dsp_defs.specs.Grammar.{Suits};
ghost use Rattle.dsp_defs.specs.Sizes.{IsSmall};

use crate::{
    biquad, biquad64, conv, conv_partial, correlate, decimate, fir, interpolate, lattice_fir,
    lattice_iir, matrix, pid, sparse,
};
use dsp_defs::{Block, Fmt, Steps};
use std::alloc::{AllocError, Global};
use std::sync::ledger::Ledger;

/// What a block that works on each channel by itself gives of a whole channel: samples of the format.
/// The channel has at most `MAX_CHECKED` samples.
pub fn whole_channel<L: Ledger>(
    alloc: Global,
    format: Fmt,
    block: &Block,
    x: &[i32],
    steps: &mut Steps<L>,
) -> Result<Vec<i32>, AllocError>
    requires channel { IsSome (whole_channel format block.now) }
    requires suits { (channels : ℕ) × Suits (record { format = format; channels = channels }) block.now }
    requires small { IsSmall (length x.now) }
    requires format { All (FitsSigned (word format)) x.now }
    ensures values { IfSome (whole_channel format block.now) (λ f. IfOk result (λ y. y.items ≡ f x.now)) }
    ensures fits { IfOk result (λ y. All (FitsSigned (word format)) y.items) }
    ensures products { steps.new.multiplies ≤ steps.old.multiplies
        + whole_block_cost format 1 block.now (length x.now) }
{
    match block {
        Block::Fir { taps } => fir(alloc, format, taps.as_slice(), x, steps),
        Block::Sparse { taps, delays } => {
            sparse(alloc, format, taps.as_slice(), delays.as_slice(), x, steps)
        }
        Block::Decimate { factor, taps } => {
            decimate(alloc, format, *factor, taps.as_slice(), x, steps)
        }
        Block::Interpolate { factor, taps } => {
            interpolate(alloc, format, *factor, taps.as_slice(), x, steps)
        }
        Block::LatticeFir { k } => lattice_fir(alloc, k.as_slice(), x, steps),
        Block::LatticeIir { k, v } => {
            lattice_iir(alloc, format, k.as_slice(), v.as_slice(), x, steps)
        }
        Block::Biquad {
            post_shift,
            coefficients,
        } => {
            let numbers = coefficients.as_slice();
            biquad(alloc, format, *post_shift, numbers, x, steps)
        }
        Block::Biquad64 {
            post_shift,
            coefficients,
        } => biquad64(alloc, *post_shift, coefficients.as_slice(), x, steps),
        Block::Conv { taps } => conv(alloc, format, taps.as_slice(), x, steps),
        Block::ConvPartial { first, count, taps } => {
            conv_partial(alloc, format, *first, *count, taps.as_slice(), x, steps)
        }
        Block::Correlate { taps } => correlate(alloc, format, taps.as_slice(), x, steps),
        Block::Pid { kp, ki, kd } => pid(alloc, format, *kp, *ki, *kd, x, steps),
        _ => matrix(alloc, format, block, x, steps),
    }
}
