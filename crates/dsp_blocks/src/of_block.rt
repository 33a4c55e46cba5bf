ghost use Rattle.std.specs.Prelude.{IfOk};
ghost use Rattle.dsp_defs.specs.Grammar.{Suits};
ghost use Rattle.dsp_unit.specs.Unit.{IsNew};
ghost use Rattle.dsp_blocks.specs.BlockUnit.{HasRoom, state_of};

use crate::{BlockUnit, makers};
use dsp_complex::ComplexUnit;
use dsp_defs::{Block, Fmt};
use dsp_unit::AnyUnit;
use dsp_vector::VectorUnit;
use std::alloc::{AllocError, Global};

/// The unit of a block that is no bank.
fn plain(
    alloc: Global,
    block: &Block,
    format: Fmt,
    channels: u8,
    frames: usize,
) -> Result<BlockUnit, AllocError>
    requires suits { Suits (record { format = format; channels = channels }) block.now }
    requires room { HasRoom block.now channels frames }
    ensures { IfOk result (λ u. IsNew block.now format channels frames (state_of u)) }
{
    match block {
        Block::Offset { .. }
        | Block::Negate
        | Block::Abs
        | Block::Scale { .. }
        | Block::Shift { .. }
        | Block::Clip { .. }
        | Block::To { .. }
        | Block::Add
        | Block::Sub
        | Block::Mult
        | Block::Route { .. } => Ok(BlockUnit::Vector(VectorUnit::new(
            alloc, block, format, channels, frames,
        )?)),
        Block::Conj | Block::CmplxMult | Block::CmplxMultReal | Block::MagSquared => {
            Ok(BlockUnit::Complex(ComplexUnit::new(alloc, block, format, channels, frames)?))
        }
        Block::Fir { .. } | Block::Sparse { .. } => makers::fir(
            alloc, block, format, channels, frames,
        ),
        Block::Decimate { .. } => makers::decimate(alloc, block, format, channels, frames),
        Block::Interpolate { .. } => makers::interpolate(alloc, block, format, channels, frames),
        Block::LatticeFir { .. } => makers::lattice_fir(alloc, block, channels, frames),
        Block::LatticeIir { .. } => makers::lattice_iir(alloc, block, format, channels, frames),
        Block::Biquad { .. } => makers::biquad(alloc, block, format, channels, frames),
        Block::Biquad64 { .. } => makers::biquad64(alloc, block, channels, frames),
        Block::Conv { .. } | Block::ConvPartial { .. } => makers::conv(
            alloc, block, format, channels, frames,
        ),
        Block::Correlate { .. } => makers::correlate(alloc, block, format, channels, frames),
        Block::Lms { .. } => makers::lms(alloc, block, format, frames),
        Block::Pid { .. } => makers::pid(alloc, block, format, channels, frames),
        Block::MatAdd { .. }
        | Block::MatSub { .. }
        | Block::MatScale { .. }
        | Block::MatTrans { .. } => makers::matrix(alloc, block, format, channels, frames),
        Block::MatMult { .. } => makers::product(alloc, block, channels, frames),
        Block::Power | Block::Dot | Block::CmplxDot | Block::Max | Block::Min => {
            Ok(BlockUnit::Measure(dsp_measure::MeasureUnit::new(
                alloc, block, format, channels, frames,
            )?))
        }
    }
}

impl AnyUnit for BlockUnit {
    fn of_block(
        alloc: Global,
        block: &Block,
        format: Fmt,
        channels: u8,
        frames: usize,
        banked: bool,
    ) -> Result<BlockUnit, AllocError> {
        match block {
            Block::Biquad { .. } if banked => makers::bank(alloc, block, format, channels, frames),
            _ => plain(alloc, block, format, channels, frames),
        }
    }
}
