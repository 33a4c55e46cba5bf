//! The blocks that give a frame for each frame alone, on whole signals.
ghost use Rattle.std.specs.Prelude.{◌≡◌, ◌+◌, ◌≤◌, IfOk, length};
ghost use Rattle.dsp_defs.specs.Cost.{whole_block_cost};
ghost use Rattle.dsp_defs.specs.Grammar.{Suits};
ghost use Rattle.dsp_check.specs.Channels.{InFormat, frame_count};
ghost use Rattle.dsp_check.specs.Evaluating.{Gives};
ghost use Rattle.dsp_framewise.specs.Framewise.{IsFramewise};

use crate::signal::Signal;
use dsp_defs::{Block, Flow, Steps};
use dsp_framewise::given_frame;
use std::alloc::{AllocError, Global};
use std::sync::ledger::Ledger;

/// What a block gives that gives a frame for each frame alone.
pub fn each_frame<L: Ledger>(
    alloc: Global,
    flow: Flow,
    block: &Block,
    x: &Signal,
    steps: &mut Steps<L>,
) -> Result<Signal, AllocError>
    requires framewise { IsFramewise block.now }
    requires suits { Suits flow block.now }
    requires channels { flow.channels ≡ length x.now }
    requires format { InFormat flow.format x.now }
    ensures given { IfOk result (Gives flow block.now x.now) }
    ensures products { steps.new.multiplies ≤ steps.old.multiplies
        + whole_block_cost flow.format (length x.now) block.now (frame_count x.now) }
{
    let behind = flow.after(block).channels;
    let mut frame_room = vec![in alloc; 0; x.channels()]?;
    let frame = frame_room.as_mut_slice();
    let mut given_room = vec![in alloc; 0; usize::from(behind)]?;
    let given = given_room.as_mut_slice();
    let mut y = Signal::new(alloc, behind)?;
    for n in 0..x.frames() {
        x.write_frame(n, frame);
        given_frame(flow.format, block, frame, given, steps);
        y.put(given)?;
    }
    Ok(y)
}
