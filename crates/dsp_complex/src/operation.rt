ghost use Rattle.std.specs.Prelude.{◌≡◌, ◌≤◌, ◌+◌, ◌*◌, length, take};
ghost use Rattle.dsp_defs.specs.Block.{frames_in, channels_after};
ghost use Rattle.dsp_defs.specs.Grammar.{Suits};
ghost use Rattle.dsp_unit.specs.Unit.{IsSignal};
ghost use Rattle.dsp_filter.specs.Memoryless.{Gives, price};

use crate::frames::{Conjugate, Product, RealProduct, SquaredMagnitude, give_frames};
use crate::scalars::ComplexSample;
use dsp_defs::{Block, Fmt, Steps};
use dsp_filter::FrameWork;
use dsp_shape::frame_count;
use std::alloc::{AllocError, Global};
use std::sync::ledger::Ledger;

/// What a block of this crate does with frames.
#[derive(Clone, Copy, Drop)]
pub enum Operation {
    Conj,
    CmplxMult,
    CmplxMultReal,
    MagSquared,
}

impl Operation {
    ghost use Rattle.dsp_complex.specs.ComplexUnit.{block_of};

    /// Writes what it gives of samples of the format of T, frame by frame, and answers their number.
    fn feed_as<T: ComplexSample, L: Ledger>(
        self,
        channels: usize,
        frames: &[i32],
        out: &mut [i32],
        steps: &mut Steps<L>,
    ) -> usize
        requires suits { Suits (record { format = T.format; channels = channels }) (block_of self) }
        requires some { 1 ≤ channels }
        requires signal { IsSignal T.format channels frames.now }
        requires room { length (frames_in channels frames.now) * channels_after channels
            (block_of self) ≤ length out.old }
        ensures within { result ≤ length out.old }
        ensures given { Gives T.format channels (block_of self) frames.now (take result out.new) }
        ensures multiplies { steps.new.multiplies ≡ steps.old.multiplies + length
            (frames_in channels frames.now) * price (block_of self) channels }
        ensures turns { steps.new.turns ≤ steps.old.turns + length
            (frames_in channels frames.now) * price (block_of self) channels }
    {
        let count = frame_count(frames.len(), channels);
        match self {
            Operation::Conj => give_frames::<T, Conjugate, L>(Conjugate, frames, count, out, steps),
            Operation::CmplxMult => give_frames::<T, Product, L>(
                Product, frames, count, out, steps,
            ),
            Operation::CmplxMultReal => {
                give_frames::<T, RealProduct, L>(RealProduct, frames, count, out, steps)
            }
            Operation::MagSquared => {
                give_frames::<T, SquaredMagnitude, L>(SquaredMagnitude, frames, count, out, steps)
            }
        }
    }
}

impl FrameWork for Operation {
    ghost use Rattle.dsp_complex.specs.ComplexUnit.{block_of, IsComplexBlock};
    ghost use Rattle.dsp_complex.specs.Laws.{gives-frames, gives-as-many};

    ghost block = { block_of };

    ghost IsOf = { IsComplexBlock };

    ghost memoryless = { λ o format channels. gives-frames format channels o };

    ghost as_many = { λ o n. gives-as-many n o };

    fn of_block(_alloc: Global, wanted: &Block) -> Result<Self, AllocError> {
        match wanted {
            Block::Conj => Ok(Operation::Conj),
            Block::CmplxMult => Ok(Operation::CmplxMult),
            Block::CmplxMultReal => Ok(Operation::CmplxMultReal),
            Block::MagSquared => Ok(Operation::MagSquared),
            _ => unreachable!(),
        }
    }

    fn feed<L: Ledger>(
        &self,
        format: Fmt,
        channels: usize,
        frames: &[i32],
        out: &mut [i32],
        steps: &mut Steps<L>,
    ) -> usize {
        match format {
            Fmt::Q7 => unreachable!(),
            Fmt::Q15 => self.feed_as::<i16, L>(channels, frames, out, steps),
            Fmt::Q31 => self.feed_as::<i32, L>(channels, frames, out, steps),
        }
    }
}
