ghost use Rattle.std.specs.Prelude.{◌≤◌, ◌≢◌, ◌*◌, IfOk, true};
ghost use Rattle.dsp_unit.specs.Unit.{IsMade, IsNew};
ghost use Rattle.dsp_defs.specs.Grammar.{Suits};
ghost use Rattle.dsp_defs.specs.declared.format.Fmt.TheVariants.{Q7, Q15, Q31};
ghost use Rattle.dsp_fir.specs.ByChannel.{IsWindowIn};
ghost use Rattle.dsp_rate.specs.ByChannel.{IsDecimateIn, IsInterpolateIn};
ghost use Rattle.dsp_lattice.specs.LatticeState.{IsFirLatticeIn, IsIirLatticeIn};
ghost use Rattle.dsp_biquad.specs.Sections.{IsBiquadIn, IsBiquad64};
ghost use Rattle.dsp_conv.specs.ByChannel.{IsConvIn, IsCorrelateIn};
ghost use Rattle.dsp_adapt.specs.LmsUnit.{IsLmsIn};
ghost use Rattle.dsp_adapt.specs.PidState.{IsPidBlock};
ghost use Rattle.dsp_matrix.specs.Matrices.{IsElementwiseIn, IsProductIn};
ghost use Rattle.dsp_blocks.specs.BlockUnit.{HasRoom, state_of};

use crate::{BlockUnit, Cascades};
use dsp_adapt::LmsUnit;
use dsp_bank::BankUnit;
use dsp_defs::{Block, Fmt, MAX_SAMPLES};
use dsp_filter::EachChannel;
use std::alloc::{AllocError, Global};

/// A FIR or sparse filter for each channel.
pub fn fir(
    alloc: Global,
    block: &Block,
    format: Fmt,
    channels: u8,
    frames: usize,
) -> Result<BlockUnit, AllocError>
    requires block { IsWindowIn format block.now }
    requires room { HasRoom block.now channels frames }
    ensures { IfOk result (λ u. IsNew block.now format channels frames (state_of u)) }
{
    match format {
        Fmt::Q7 => Ok(BlockUnit::Fir7(EachChannel::new(alloc, block, channels, frames)?)),
        Fmt::Q15 => Ok(BlockUnit::Fir15(EachChannel::new(alloc, block, channels, frames)?)),
        Fmt::Q31 => Ok(BlockUnit::Fir31(EachChannel::new(alloc, block, channels, frames)?)),
    }
}

/// A decimator for each channel.
pub fn decimate(
    alloc: Global,
    block: &Block,
    format: Fmt,
    channels: u8,
    frames: usize,
) -> Result<BlockUnit, AllocError>
    requires block { IsDecimateIn format block.now }
    requires wide { format ≢ Q7 }
    requires room { HasRoom block.now channels frames }
    ensures { IfOk result (λ u. IsNew block.now format channels frames (state_of u)) }
{
    match format {
        Fmt::Q7 => unreachable!(),
        Fmt::Q15 => Ok(BlockUnit::Decimate15(EachChannel::new(alloc, block, channels, frames)?)),
        Fmt::Q31 => Ok(BlockUnit::Decimate31(EachChannel::new(alloc, block, channels, frames)?)),
    }
}

/// An interpolator for each channel.
pub fn interpolate(
    alloc: Global,
    block: &Block,
    format: Fmt,
    channels: u8,
    frames: usize,
) -> Result<BlockUnit, AllocError>
    requires block { IsInterpolateIn format block.now }
    requires wide { format ≢ Q7 }
    requires room { HasRoom block.now channels frames }
    ensures { IfOk result (λ u. IsNew block.now format channels frames (state_of u)) }
{
    match format {
        Fmt::Q7 => unreachable!(),
        Fmt::Q15 => Ok(BlockUnit::Interpolate15(EachChannel::new(alloc, block, channels, frames)?)),
        Fmt::Q31 => Ok(BlockUnit::Interpolate31(EachChannel::new(alloc, block, channels, frames)?)),
    }
}

/// A lattice without feedback for each channel.
pub fn lattice_fir(
    alloc: Global,
    block: &Block,
    channels: u8,
    frames: usize,
) -> Result<BlockUnit, AllocError>
    requires block { IsFirLatticeIn Q15 block.now }
    requires room { HasRoom block.now channels frames }
    ensures { IfOk result (λ u. IsNew block.now Q15 channels frames (state_of u)) }
{
    Ok(BlockUnit::LatticeFir15(EachChannel::new(alloc, block, channels, frames)?))
}

/// A lattice with feedback for each channel.
pub fn lattice_iir(
    alloc: Global,
    block: &Block,
    format: Fmt,
    channels: u8,
    frames: usize,
) -> Result<BlockUnit, AllocError>
    requires block { IsIirLatticeIn format block.now }
    requires wide { format ≢ Q7 }
    requires room { HasRoom block.now channels frames }
    ensures { IfOk result (λ u. IsNew block.now format channels frames (state_of u)) }
{
    match format {
        Fmt::Q7 => unreachable!(),
        Fmt::Q15 => Ok(BlockUnit::LatticeIir15(EachChannel::new(alloc, block, channels, frames)?)),
        Fmt::Q31 => Ok(BlockUnit::LatticeIir31(EachChannel::new(alloc, block, channels, frames)?)),
    }
}

/// A cascade for each channel.
pub fn biquad(
    alloc: Global,
    block: &Block,
    format: Fmt,
    channels: u8,
    frames: usize,
) -> Result<BlockUnit, AllocError>
    requires block { IsBiquadIn format block.now }
    requires wide { format ≢ Q7 }
    requires room { HasRoom block.now channels frames }
    ensures { IfOk result (λ u. IsNew block.now format channels frames (state_of u)) }
{
    match format {
        Fmt::Q7 => unreachable!(),
        Fmt::Q15 => Ok(BlockUnit::Biquad15(Cascades::new(alloc, block, channels, frames)?)),
        Fmt::Q31 => Ok(BlockUnit::Biquad31(Cascades::new(alloc, block, channels, frames)?)),
    }
}

/// A cascade on all channels of a frame at once.
pub fn bank(
    alloc: Global,
    block: &Block,
    format: Fmt,
    channels: u8,
    frames: usize,
) -> Result<BlockUnit, AllocError>
    requires block { IsBiquadIn format block.now }
    requires wide { format ≢ Q7 }
    requires room { HasRoom block.now channels frames }
    ensures { IfOk result (λ u. IsMade true block.now format channels frames (state_of u)) }
{
    match format {
        Fmt::Q7 => unreachable!(),
        Fmt::Q15 => Ok(BlockUnit::Bank15(BankUnit::new(alloc, block, channels, frames)?)),
        Fmt::Q31 => Ok(BlockUnit::Bank31(BankUnit::new(alloc, block, channels, frames)?)),
    }
}

/// A cascade with wide feedback for each channel.
pub fn biquad64(
    alloc: Global,
    block: &Block,
    channels: u8,
    frames: usize,
) -> Result<BlockUnit, AllocError>
    requires block { IsBiquad64 block.now }
    requires room { HasRoom block.now channels frames }
    ensures { IfOk result (λ u. IsNew block.now Q31 channels frames (state_of u)) }
{
    Ok(BlockUnit::Biquad64(Cascades::new(alloc, block, channels, frames)?))
}

/// A convolution, or a part of one, for each channel.
pub fn conv(
    alloc: Global,
    block: &Block,
    format: Fmt,
    channels: u8,
    frames: usize,
) -> Result<BlockUnit, AllocError>
    requires block { IsConvIn format block.now }
    requires room { HasRoom block.now channels frames }
    ensures { IfOk result (λ u. IsNew block.now format channels frames (state_of u)) }
{
    match format {
        Fmt::Q7 => Ok(BlockUnit::Conv7(EachChannel::new(alloc, block, channels, frames)?)),
        Fmt::Q15 => Ok(BlockUnit::Conv15(EachChannel::new(alloc, block, channels, frames)?)),
        Fmt::Q31 => Ok(BlockUnit::Conv31(EachChannel::new(alloc, block, channels, frames)?)),
    }
}

/// A correlation for each channel.
pub fn correlate(
    alloc: Global,
    block: &Block,
    format: Fmt,
    channels: u8,
    frames: usize,
) -> Result<BlockUnit, AllocError>
    requires block { IsCorrelateIn format block.now }
    requires room { HasRoom block.now channels frames }
    ensures { IfOk result (λ u. IsNew block.now format channels frames (state_of u)) }
{
    match format {
        Fmt::Q7 => Ok(BlockUnit::Correlate7(EachChannel::new(alloc, block, channels, frames)?)),
        Fmt::Q15 => Ok(BlockUnit::Correlate15(EachChannel::new(alloc, block, channels, frames)?)),
        Fmt::Q31 => Ok(BlockUnit::Correlate31(EachChannel::new(alloc, block, channels, frames)?)),
    }
}

/// An adaptive filter of the first channel, with the second as its reference.
pub fn lms(
    alloc: Global,
    block: &Block,
    format: Fmt,
    frames: usize,
) -> Result<BlockUnit, AllocError>
    requires block { IsLmsIn format block.now }
    requires wide { format ≢ Q7 }
    requires frames { 1 ≤ frames }
    requires samples { frames * 2 ≤ MAX_SAMPLES }
    ensures { IfOk result (λ u. IsNew block.now format 2 frames (state_of u)) }
{
    match format {
        Fmt::Q7 => unreachable!(),
        Fmt::Q15 => Ok(BlockUnit::Lms15(LmsUnit::new(alloc, block, frames)?)),
        Fmt::Q31 => Ok(BlockUnit::Lms31(LmsUnit::new(alloc, block, frames)?)),
    }
}

/// A controller for each channel.
pub fn pid(
    alloc: Global,
    block: &Block,
    format: Fmt,
    channels: u8,
    frames: usize,
) -> Result<BlockUnit, AllocError>
    requires block { IsPidBlock block.now }
    requires suits { Suits (record { format = format; channels = channels }) block.now }
    requires room { HasRoom block.now channels frames }
    ensures { IfOk result (λ u. IsNew block.now format channels frames (state_of u)) }
{
    match format {
        Fmt::Q7 => unreachable!(),
        Fmt::Q15 => Ok(BlockUnit::Pid15(EachChannel::new(alloc, block, channels, frames)?)),
        Fmt::Q31 => Ok(BlockUnit::Pid31(EachChannel::new(alloc, block, channels, frames)?)),
    }
}

/// A filter of whole groups for each channel, of a block that works on their elements.
pub fn matrix(
    alloc: Global,
    block: &Block,
    format: Fmt,
    channels: u8,
    frames: usize,
) -> Result<BlockUnit, AllocError>
    requires block { IsElementwiseIn format block.now }
    requires wide { format ≢ Q7 }
    requires room { HasRoom block.now channels frames }
    ensures { IfOk result (λ u. IsNew block.now format channels frames (state_of u)) }
{
    match format {
        Fmt::Q7 => unreachable!(),
        Fmt::Q15 => Ok(BlockUnit::Matrix15(EachChannel::new(alloc, block, channels, frames)?)),
        Fmt::Q31 => Ok(BlockUnit::Matrix31(EachChannel::new(alloc, block, channels, frames)?)),
    }
}

/// A product of matrices for each channel.
pub fn product(
    alloc: Global,
    block: &Block,
    channels: u8,
    frames: usize,
) -> Result<BlockUnit, AllocError>
    requires block { IsProductIn Q15 block.now }
    requires room { HasRoom block.now channels frames }
    ensures { IfOk result (λ u. IsNew block.now Q15 channels frames (state_of u)) }
{
    Ok(BlockUnit::MatMult15(EachChannel::new(alloc, block, channels, frames)?))
}
