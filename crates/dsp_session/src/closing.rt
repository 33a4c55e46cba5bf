ghost use Rattle.std.specs.Prelude.{◌≡◌, ◌+◌, ◌<◌, ◌≤◌, ℕ, List, [], length, take, IfOk};
ghost use Rattle.std.specs.Prelude.{IfErr, MatchResult, OnOk};
ghost use Rattle.dsp_ports.specs.Ports.{CountsFaults, IsSettled, Took};
ghost use Rattle.dsp_defs.specs.Block.{Frame};
ghost use Rattle.dsp_defs.specs.Output.{output_pad};
ghost use Rattle.dsp_session.specs.Session.{IsReady, StandsFor, SameSession, measured};
ghost use Rattle.dsp_session.specs.Session.{TurnsByProducts, measures_of, products_of, whole_values};
ghost use Rattle.dsp_chain.specs.Chain.{made_of};
ghost use Rattle.dsp_session.specs.Passing.{WritesTail, WroteTail, TailCosts};
ghost use Rattle.dsp_session.specs.Advancing.{Closed, FailsToClose, MayClose, whole_front};

use crate::fault::{LengthFault, StreamFault};
use crate::streaming::{Last, pass_block};
use crate::worker::Worker;
use dsp_defs::{Container, Header, MAX_INPUT, Script, Steps, WindowFault};
use dsp_input::{frame_bytes, known_frames};
use dsp_ports::{Failed, Sink, write_all};
use dsp_script::{frames_given, output_flow};
use dsp_unit::AnyUnit;
use dsp_wave::pad;
use std::sync::ledger::Ledger;

/// Writes the tail piece by piece. The whole signal has at most `frames` frames.
fn write_tail<U: AnyUnit + Drop, K: Sink, L: Ledger>(
    worker: &mut Worker<U>,
    frames: u64,
    output: &mut K,
    steps: &mut Steps<L>,
) -> Result<(), Failed>
    requires { (x : List Frame) → StandsFor worker.old x
        → length (whole_values worker.old.script x) ≤ frames }
    ensures { WroteTail result worker.old worker.new (K.state output.old) (K.state output.new)
        steps.old steps.new }
{
    // Each piece has at least one of the whole signal's frames.
    for _ in 0..frames {
        if worker.end(steps) == 0 {
            return Ok(());
        }
        worker.write_out(output)?;
    }
    let _spent = worker.end(steps);
    Ok(())
}

/// Writes the pad byte behind the samples, where the output has one.
fn write_pad<K: Sink>(script: &Script, header: Header, output: &mut K) -> Result<(), Failed>
    requires { (block : ℕ) × IsReady script.now block }
    ensures took { MatchResult result
        (λ _. Took (K.state output.old) (K.state output.new) (output_pad script.now header))
        (λ _. (count : ℕ) × (count < length (output_pad script.now header))
        × Took (K.state output.old) (K.state output.new)
        (take count (output_pad script.now header))) }
    ensures faults { CountsFaults result (K.state output.old).faults (K.state output.new).faults }
{
    if script.output == Container::Raw {
        return Ok(());
    }
    let flow = output_flow(script);
    let known = known_frames(script, header);
    write_all(output, pad(flow.format, flow.channels, known))
}

/// Writes the tail and the pad byte, and makes sure of the output.
fn write_end<U: AnyUnit + Drop, K: Sink, L: Ledger>(
    worker: &mut Worker<U>,
    frames: u64,
    header: Header,
    output: &mut K,
    steps: &mut Steps<L>,
) -> Result<(), Failed>
    requires { (x : List Frame) → StandsFor worker.old x
        → length (whole_values worker.old.script x) ≤ frames }
    ensures same { SameSession worker.old worker.new }
    ensures written { WritesTail result worker.old (output_pad worker.old.script header)
        (K.state output.old) (K.state output.new) }
    ensures costs { (x : List Frame) → StandsFor worker.old x
        → TailCosts result worker.old.script (length x) steps.old steps.new }
    ensures limit { steps.new.multiplies + made_of worker.old.chain
        ≤ steps.old.multiplies + products_of worker.old.script worker.old.chain.frames }
    ensures turned { TurnsByProducts steps.old steps.new }
    ensures measures { (x : List Frame) → StandsFor worker.old x
        → OnOk result (measured worker.new ≡ measures_of worker.old.script x) }
    ensures settled { OnOk result (IsSettled (K.state output.new)) }
    ensures faults { CountsFaults result (K.state output.old).faults (K.state output.new).faults }
{
    write_tail(worker, frames, output, steps)?;
    write_pad(worker.script(), header, output)?;
    output.flush()?;
    Ok(())
}

/// Works on the last bytes of the input, gives the tail, and makes sure of the output.
pub fn close<U: AnyUnit + Drop, K: Sink, L: Ledger>(
    worker: &mut Worker<U>,
    block: &[u8],
    last: Last,
    header: Header,
    output: &mut K,
    steps: &mut Steps<L>,
) -> Result<(), StreamFault>
    requires { MayClose worker.old header block.now last }
    ensures same { SameSession worker.old worker.new }
    ensures ok { IfOk result (λ _. Closed worker.old worker.new header
        (whole_front worker.old.script header last.count block.now) (K.state output.old)
        (K.state output.new) steps.old steps.new) }
    ensures err { IfErr result (λ fault. FailsToClose worker.old worker.new header
        (whole_front worker.old.script header last.count block.now) fault (K.state output.old)
        (K.state output.new) steps.old steps.new) }
{
    let frame = frame_bytes(worker.script(), header.coding) as usize;
    let count = last.count / frame;
    if let Some(WindowFault { end, length }) = worker.window_fault(count as u64) {
        return Err(StreamFault::Lengths(LengthFault::Window { end, length }));
    }
    pass_block(worker, &block[..count * frame], output, steps)?;
    let taken = (last.before + last.count as u64) / frame as u64;
    let frames = frames_given(worker.script(), taken);
    match write_end(worker, frames, header, output, steps) {
        Ok(()) => Ok(()),
        Err(_) => Err(StreamFault::Output),
    }
}
