//! The blocks that work on each channel by itself, and the adaptive filter, on whole signals.
ghost use Rattle.std.specs.Prelude.{◌≡◌, ◌+◌, ◌*◌, ◌≤◌, [], ◌∷◌, IfOk, IsSome, length};
ghost use Rattle.dsp_defs.specs.Block.{whole_channel};
ghost use Rattle.dsp_defs.specs.Cost.{whole_block_cost};
ghost use Rattle.dsp_defs.specs.Grammar.{Suits};
ghost use Rattle.dsp_defs.specs.Sizes.{IsSmall};
ghost use Rattle.dsp_defs.specs.declared.script.Block.TheVariants as Blocks;
ghost use Rattle.dsp_check.specs.Channels.{InFormat, frame_count};
ghost use Rattle.dsp_check.specs.Evaluating.{Gives};

use crate::signal::{Channel, Signal};
use dsp_channelwise::{lms, whole_channel};
use dsp_defs::{Block, Flow, Fmt, Steps};
use std::alloc::{AllocError, Global};
use std::sync::ledger::Ledger;

/// What a block gives that works on each channel by itself.
pub fn each_channel<L: Ledger>(
    alloc: Global,
    flow: Flow,
    block: &Block,
    x: &Signal,
    steps: &mut Steps<L>,
) -> Result<Signal, AllocError>
    requires channel { IsSome (whole_channel flow.format block.now) }
    requires suits { Suits flow block.now }
    requires channels { flow.channels ≡ length x.now }
    requires small { IsSmall (frame_count x.now) }
    requires format { InFormat flow.format x.now }
    ensures given { IfOk result (Gives flow block.now x.now) }
    ensures products { steps.new.multiplies ≤ steps.old.multiplies
        + whole_block_cost flow.format (length x.now) block.now (frame_count x.now) }
{
    let mut channels = Vec::with_capacity(alloc, x.channels())?;
    for c in 0..x.channels() {
        let y = whole_channel(alloc, flow.format, block, x.channel(c), steps)?;
        channels.push(Channel::of(y))?;
    }
    Ok(Signal::of(channels))
}

/// A signal of two channels.
fn of_two(alloc: Global, first: Vec<i32>, second: Vec<i32>) -> Result<Signal, AllocError>
    requires { length second.items ≡ length first.items }
    ensures { IfOk result (λ s. s ≡ first.items ∷ second.items ∷ []) }
{
    let mut channels = Vec::with_capacity(alloc, 2)?;
    channels.push(Channel::of(first))?;
    channels.push(Channel::of(second))?;
    Ok(Signal::of(channels))
}

/// What an adaptive filter gives: the output and the error.
pub fn adapt<L: Ledger>(
    alloc: Global,
    format: Fmt,
    post_shift: u8,
    mu: i32,
    taps: &[i32],
    x: &Signal,
    steps: &mut Steps<L>,
) -> Result<Signal, AllocError>
    requires suits { Suits (record { format = format; channels = 2 })
        (Blocks.Lms post_shift mu taps.now) }
    requires channels { length x.now ≡ 2 }
    requires format { InFormat format x.now }
    ensures given { IfOk result (Gives (record { format = format; channels = 2 })
        (Blocks.Lms post_shift mu taps.now) x.now) }
    ensures products { steps.new.multiplies ≤ steps.old.multiplies
        + frame_count x.now * (2 * length taps.now + 1) }
{
    let (input, reference) = (x.channel(0), x.channel(1));
    let (output, error) = lms(alloc, format, post_shift, mu, taps, input, reference, steps)?;
    of_two(alloc, output, error)
}
