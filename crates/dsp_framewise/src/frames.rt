//! What a block gives of one frame.
ghost use Rattle.std.specs.Prelude.{◌≡◌, ◌+◌, ◌*◌, ◌≤◌, ◌<◌, All, FitsSigned, length};
ghost use Rattle.dsp_defs.specs.Block.{channels_after, format_after, given_frame};
ghost use Rattle.dsp_defs.specs.Cost.{whole_block_cost};
ghost use Rattle.dsp_defs.specs.Formats.{word};
ghost use Rattle.dsp_defs.specs.Grammar.{Suits};
ghost use Rattle.dsp_defs.specs.Signal.{sample};
ghost use Rattle.dsp_framewise.specs.Framewise.{IsFramewise, sample_price};

use crate::complex::{imaginary_part, mag_squared, real_part};
use crate::samples::{abs, clip, negate};
use dsp_defs::{Block, Fmt, Steps};
use dsp_exact::{add, convert, mult, sample, scale, shift_in, sub};
use std::sync::ledger::Ledger;

/// Sample j of the frame that a block gives for this one.
fn given_sample<L: Ledger>(
    format: Fmt,
    block: &Block,
    frame: &[i32],
    j: usize,
    steps: &mut Steps<L>,
) -> i32
    requires framewise { IsFramewise block.now }
    requires suits { Suits (record { format = format; channels = length frame.now }) block.now }
    requires format { All (FitsSigned (word format)) frame.now }
    requires channel { j < channels_after (length frame.now) block.now }
    ensures value { result ≡ sample (given_frame format block.now frame.now) j }
    ensures fits { FitsSigned (word (format_after format block.now)) result }
    ensures products { steps.new.multiplies ≤ steps.old.multiplies + sample_price block.now }
{
    let x = sample(frame, j);
    match block {
        Block::Offset { value } => add(format, x, *value),
        Block::Negate => negate(format, x),
        Block::Abs => abs(format, x),
        Block::Scale { fract, shift } => scale(format, *fract, *shift, x, steps),
        Block::Shift { shift } => shift_in(format, x, *shift),
        Block::Clip { low, high } => clip(*low, *high, x),
        Block::To { format: to } => convert(format, *to, x),
        Block::Add => add(format, sample(frame, 0), sample(frame, 1)),
        Block::Sub => sub(format, sample(frame, 0), sample(frame, 1)),
        Block::Mult => mult(format, sample(frame, 0), sample(frame, 1), steps),
        Block::Conj if j == 1 => negate(format, x),
        Block::CmplxMult if j == 0 => real_part(format, frame, steps),
        Block::CmplxMult => imaginary_part(format, frame, steps),
        Block::CmplxMultReal => mult(Fmt::Q15, x, sample(frame, 2), steps),
        Block::MagSquared => mag_squared(format, frame, steps),
        Block::Route { channels } => {
            sample(frame, channels.as_slice()[j].unsigned_abs() as usize)
        }
        Block::Conj => x,
        Block::Power | Block::Dot | Block::CmplxDot | Block::Max | Block::Min => x,
        _ => unreachable!(),
    }
}

/// Writes the frame that a block gives for this one, over a frame of as many samples as there are
/// channels behind the block. A measure passes its frames on.
pub fn given_frame<L: Ledger>(
    format: Fmt,
    block: &Block,
    frame: &[i32],
    given: &mut [i32],
    steps: &mut Steps<L>,
)
    requires framewise { IsFramewise block.now }
    requires suits { Suits (record { format = format; channels = length frame.now }) block.now }
    requires format { All (FitsSigned (word format)) frame.now }
    requires room { length given.old ≡ channels_after (length frame.now) block.now }
    ensures value { given.new ≡ given_frame format block.now frame.now }
    ensures fits { All (FitsSigned (word (format_after format block.now))) given.new }
    ensures products { steps.new.multiplies ≤ steps.old.multiplies
        + whole_block_cost format (length frame.now) block.now 1 }
{
    for (j, y) in given.iter_mut().enumerate() {
        *y = given_sample(format, block, frame, j, steps);
    }
}
