//! A script on a whole signal, block after whole block.
ghost use Rattle.std.specs.Prelude.{◌≡◌, ◌+◌, ◌≤◌, IfOk, None, length};
ghost use Rattle.dsp_defs.specs.Block.{frames_of, whole_chain};
ghost use Rattle.dsp_defs.specs.Cost.{cost, whole_block_cost};
ghost use Rattle.dsp_defs.specs.Grammar.{IsSound, Suits};
ghost use Rattle.dsp_defs.specs.Output.{channels_of, format_of};
ghost use Rattle.dsp_defs.specs.Shape.{window_at};
ghost use Rattle.dsp_defs.specs.Sizes.{IsSmall, size_at};
ghost use Rattle.dsp_check.specs.Channels.{InFormat, frame_count};
ghost use Rattle.dsp_check.specs.Evaluating.{Gives};

use crate::channels::{adapt, each_channel};
use crate::frames::each_frame;
use crate::signal::Signal;
use dsp_defs::{Block, Flow, Script, Steps};
use dsp_shape::input_flow;
use std::alloc::{AllocError, Global};
use std::sync::ledger::Ledger;

/// What a block gives of a whole signal.
fn whole<L: Ledger>(
    alloc: Global,
    flow: Flow,
    block: &Block,
    x: &Signal,
    steps: &mut Steps<L>,
) -> Result<Signal, AllocError>
    requires suits { Suits flow block.now }
    requires channels { flow.channels ≡ length x.now }
    requires small { IsSmall (frame_count x.now) }
    requires format { InFormat flow.format x.now }
    ensures given { IfOk result (Gives flow block.now x.now) }
    ensures products { steps.new.multiplies ≤ steps.old.multiplies
        + whole_block_cost flow.format (length x.now) block.now (frame_count x.now) }
{
    match block {
        Block::Lms {
            post_shift,
            mu,
            taps,
        } => {
            let taps = taps.as_slice();
            adapt(alloc, flow.format, *post_shift, *mu, taps, x, steps)
        }
        Block::Fir { .. }
        | Block::Sparse { .. }
        | Block::Decimate { .. }
        | Block::Interpolate { .. }
        | Block::LatticeFir { .. }
        | Block::LatticeIir { .. }
        | Block::Biquad { .. }
        | Block::Biquad64 { .. }
        | Block::Conv { .. }
        | Block::ConvPartial { .. }
        | Block::Correlate { .. }
        | Block::Pid { .. }
        | Block::MatAdd { .. }
        | Block::MatSub { .. }
        | Block::MatScale { .. }
        | Block::MatTrans { .. }
        | Block::MatMult { .. } => each_channel(alloc, flow, block, x, steps),
        _ => each_frame(alloc, flow, block, x, steps),
    }
}

/// What a script gives of a whole signal, block after whole block. The signal
/// is to have the script's channels, samples in the script's input format, and no window that ends past
/// its convolution, and at each place there are to be at most `MAX_CHECKED` samples of all channels.
pub fn evaluate<L: Ledger>(
    alloc: Global,
    script: &Script,
    signal: &Signal,
    steps: &mut Steps<L>,
) -> Result<Signal, AllocError>
    requires sound { IsSound script.now }
    requires channels { length signal.now ≡ script.now.input.channels }
    requires format { InFormat script.now.input.format signal.now }
    requires no_window { window_at script.now.blocks (frame_count signal.now) ≡ None }
    requires small { size_at script.now.input.channels script.now.blocks (frame_count signal.now)
        ≡ None }
    ensures values { IfOk result (λ y. frames_of y ≡ whole_chain script.now.input.format
        script.now.input.channels script.now.blocks (frames_of signal.now)) }
    ensures channels { IfOk result (λ y. length y ≡ channels_of script.now) }
    ensures format { IfOk result (InFormat (format_of script.now)) }
    ensures products { steps.new.multiplies ≤ steps.old.multiplies + cost script.now.input.format
        script.now.input.channels script.now.blocks (frame_count signal.now) }
{
    let mut flow = input_flow(script.input);
    let mut y = signal.copy(alloc)?;
    for block in script.blocks.as_slice() {
        y = whole(alloc, flow, block, &y, steps)?;
        flow = flow.after(block);
    }
    Ok(y)
}
