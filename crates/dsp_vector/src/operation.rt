ghost use Rattle.std.specs.Prelude.{◌≡◌, ◌≤◌, ◌+◌, ◌*◌, IfOk, length, take};
ghost use Rattle.dsp_defs.specs.Block.{frames_in, channels_after};
ghost use Rattle.dsp_defs.specs.Grammar.{Suits};
ghost use Rattle.dsp_unit.specs.Unit.{IsSignal};
ghost use Rattle.dsp_filter.specs.Memoryless.{Gives, price};

use crate::VectorSample;
use crate::changes::{Abs, Clip, Convert, Negate, Offset, Shift, change_each};
use crate::joins::{Difference, Product, Sum, join_pairs};
use crate::routes::route_frames;
use dsp_defs::{Block, Fmt, List, Steps};
use dsp_filter::FrameWork;
use dsp_shape::frame_count;
use std::alloc::{AllocError, Global};
use std::sync::ledger::Ledger;

/// What a block of this crate does with frames, with its parameters.
#[derive(Drop)]
pub enum Operation {
    Offset { value: i32 },
    Negate,
    Abs,
    Scale { fract: i32, shift: i32 },
    Shift { shift: i32 },
    Clip { low: i32, high: i32 },
    To { format: Fmt },
    Add,
    Sub,
    Mult,
    Route { channels: List },
}

/// A list of the same numbers.
pub(crate) fn list_of(alloc: Global, numbers: &[i32]) -> Result<List, AllocError>
    ensures { IfOk result (λ list. list ≡ numbers.now) }
{
    let mut list = List::new(alloc);
    for number in numbers {
        list.push(*number)?;
    }
    Ok(list)
}

impl Operation {
    ghost use Rattle.dsp_vector.specs.Vector.{block_of};

    /// Writes what it gives of samples of the format of T, frame by frame, and answers their number.
    fn feed_as<T: VectorSample, L: Ledger>(
        &self,
        channels: usize,
        frames: &[i32],
        out: &mut [i32],
        steps: &mut Steps<L>,
    ) -> usize
        requires suits { Suits (record { format = T.format; channels = channels }) (block_of self.now) }
        requires some { 1 ≤ channels }
        requires signal { IsSignal T.format channels frames.now }
        requires room { length (frames_in channels frames.now) * channels_after channels
            (block_of self.now) ≤ length out.old }
        ensures within { result ≤ length out.old }
        ensures given { Gives T.format channels (block_of self.now) frames.now (take result out.new) }
        ensures multiplies { steps.new.multiplies ≡ steps.old.multiplies + length
            (frames_in channels frames.now) * price (block_of self.now) channels }
        ensures turns { steps.new.turns ≤ steps.old.turns + length
            (frames_in channels frames.now) * price (block_of self.now) channels }
    {
        match self {
            Operation::Offset { value } => {
                change_each::<T, T, Offset, L>(Offset { value: *value }, frames, out, steps)
            }
            Operation::Negate => change_each::<T, T, Negate, L>(Negate, frames, out, steps),
            Operation::Abs => change_each::<T, T, Abs, L>(Abs, frames, out, steps),
            Operation::Scale { fract, shift } => {
                T::scale_numbers(*fract, *shift, frames, out, steps)
            }
            Operation::Shift { shift } => {
                change_each::<T, T, Shift, L>(Shift { shift: *shift }, frames, out, steps)
            }
            Operation::Clip { low, high } => {
                let clip = Clip {
                    low: *low,
                    high: *high,
                };
                change_each::<T, T, Clip, L>(clip, frames, out, steps)
            }
            Operation::To { format } => match format {
                Fmt::Q7 => change_each::<T, i8, Convert, L>(Convert, frames, out, steps),
                Fmt::Q15 => change_each::<T, i16, Convert, L>(Convert, frames, out, steps),
                Fmt::Q31 => change_each::<T, i32, Convert, L>(Convert, frames, out, steps),
            },
            Operation::Add => join_pairs::<T, Sum, L>(Sum, frames, out, steps),
            Operation::Sub => join_pairs::<T, Difference, L>(Difference, frames, out, steps),
            Operation::Mult => join_pairs::<T, Product, L>(Product, frames, out, steps),
            Operation::Route { channels: list } => {
                let list = list.as_slice();
                let count = frame_count(frames.len(), channels);
                route_frames(list, frames, count, channels, out);
                count * list.len()
            }
        }
    }
}

impl FrameWork for Operation {
    ghost use Rattle.dsp_vector.specs.Vector.{block_of, IsVectorBlock};
    ghost use Rattle.dsp_vector.specs.Laws.{gives-frames, gives-as-many};

    ghost block = { block_of };

    ghost IsOf = { IsVectorBlock };

    ghost memoryless = { λ o format channels. gives-frames format channels o };

    ghost as_many = { λ o n. gives-as-many n o };

    fn of_block(alloc: Global, wanted: &Block) -> Result<Self, AllocError> {
        match wanted {
            Block::Offset { value } => Ok(Operation::Offset { value: *value }),
            Block::Negate => Ok(Operation::Negate),
            Block::Abs => Ok(Operation::Abs),
            Block::Scale { fract, shift } => Ok(Operation::Scale {
                fract: *fract,
                shift: *shift,
            }),
            Block::Shift { shift } => Ok(Operation::Shift { shift: *shift }),
            Block::Clip { low, high } => Ok(Operation::Clip {
                low: *low,
                high: *high,
            }),
            Block::To { format } => Ok(Operation::To { format: *format }),
            Block::Add => Ok(Operation::Add),
            Block::Sub => Ok(Operation::Sub),
            Block::Mult => Ok(Operation::Mult),
            Block::Route { channels } => Ok(Operation::Route {
                channels: list_of(alloc, channels.as_slice())?,
            }),
            _ => unreachable!(),
        }
    }

    fn feed<L: Ledger>(
        &self,
        format: Fmt,
        channels: usize,
        frames: &[i32],
        out: &mut [i32],
        steps: &mut Steps<L>,
    ) -> usize {
        match format {
            Fmt::Q7 => self.feed_as::<i8, L>(channels, frames, out, steps),
            Fmt::Q15 => self.feed_as::<i16, L>(channels, frames, out, steps),
            Fmt::Q31 => self.feed_as::<i32, L>(channels, frames, out, steps),
        }
    }
}
