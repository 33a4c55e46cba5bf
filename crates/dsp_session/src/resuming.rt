//! A stream over a part of an input: the first frames, or all behind them.

ghost use Rattle.std.specs.Prelude.{◌≡◌, ◌<◌, ◌≤◌, [], ℕ, Some, length, IfOk, IfErr, IfSome, IfNone};
ghost use Rattle.dsp_ports.specs.Ports.{SourceState, SinkState};
ghost use Rattle.dsp_defs.specs.Output.{declared_frames};
ghost use Rattle.dsp_defs.specs.Shape.{frames_given};
ghost use Rattle.dsp_input.specs.Taking.{Fits, Opened, PartLost, frame_bytes};
ghost use Rattle.dsp_session.specs.Session.{StandsFor, SameScript, SameSession, block_bytes, cost_of};
ghost use Rattle.dsp_session.specs.Session.{measured};
ghost use Rattle.dsp_session.specs.Opening.{Begun};
ghost use Rattle.dsp_session.specs.Advancing.{Runs};
ghost use Rattle.dsp_session.specs.declared.fault.PartFault.TheVariants.{Behind};
ghost use Rattle.dsp_session.specs.Resuming.{FirstDone, FirstStopped, RestDone, RestStopped, Skipped};

use crate::closing::close;
use crate::fault::{PartFault, StreamFault};
use crate::opening::{take_header, write_output_header};
use crate::session::Session;
use crate::streaming::{Span, Totals, pass_block, pass_blocks};
use crate::worker::Worker;
use dsp_defs::{Header, MAX_INPUT, Script, Steps};
use dsp_input::{InputFault, frame_bytes, read_block};
use dsp_ports::{Sink, Source};
use dsp_script::{cost, frames_given};
use dsp_unit::AnyUnit;
use std::sync::ledger::Ledger;

/// Samples are passed over in pieces of so many bytes.
const PIECE: usize = 4096;

/// The frames that a header declares, where they are fewer than these.
fn declared_behind(script: &Script, header: Header, frames: u32) -> Option<PartFault>
    requires { 1 ≤ frame_bytes script.now header.coding }
    ensures some { IfSome result (λ fault. (got : ℕ) × (fault ≡ Behind frames got)
        × (got < frames) × (declared_frames script.now header ≡ Some got)) }
    ensures none { IfNone result (IfSome (declared_frames script.now header) (λ got. frames ≤ got)) }
{
    let got = u64::from(header.size?) / frame_bytes(script, header.coding);
    if got < u64::from(frames) {
        Some(PartFault::Behind { at: frames, got })
    } else {
        None
    }
}

/// Passes over the first bytes of the samples, up to so many, and answers how many came.
fn skip_samples<S: Source>(
    script: &Script,
    header: Header,
    end: u64,
    input: &mut S,
) -> Result<u64, InputFault>
    requires limit { header.start ≤ MAX_INPUT }
    requires frame { 1 ≤ frame_bytes script.now header.coding }
    ensures ok { IfOk result (λ taken. Skipped script.now header end taken (S.state input.old)
        (S.state input.new)) }
    ensures err { IfErr result (λ fault. PartLost script.now header end fault (S.state input.old)
        (S.state input.new)) }
{
    let mut piece = [0; PIECE];
    let mut taken = 0;
    'skipping: loop {
        let count = read_block(script, header, end, taken, &mut piece, input)?;
        taken += count as u64;
        if count < PIECE {
            return Ok(taken);
        }
    }
}

/// Works on the first frames behind the header, and makes sure of the output. The room holds a block of the input.
fn pass_first<U: AnyUnit + Drop, S: Source, K: Sink, L: Ledger>(
    worker: &mut Worker<U>,
    room: &mut [u8],
    header: Header,
    frames: u32,
    input: &mut S,
    output: &mut K,
    steps: &mut Steps<L>,
) -> Result<(), PartFault>
    requires new { StandsFor worker.old [] }
    requires room { block_bytes worker.old.script worker.old.coding worker.old.block ≤ length room.old }
    requires coding { worker.old.coding ≡ header.coding }
    requires start { header.start ≤ MAX_INPUT }
    requires enough { IfSome (declared_frames worker.old.script header) (λ got. frames ≤ got) }
    ensures same { SameSession worker.old worker.new }
    ensures ok { (before : SourceState) (empty : SinkState)
        → Begun worker.old.script header before (S.state input.old) empty (K.state output.old)
        → IfOk result (λ _. FirstDone worker.old.script frames worker.new before (S.state input.new)
        empty (K.state output.new) steps.old steps.new) }
    ensures err { (before : SourceState) (empty : SinkState)
        → Begun worker.old.script header before (S.state input.old) empty (K.state output.old)
        → IfErr result (λ fault. FirstStopped worker.old.banked worker.old.script worker.old.block frames
        fault before
        (S.state input.new) empty (K.state output.new) steps.old steps.new) }
{
    let frame = frame_bytes(worker.script(), header.coding);
    let span = Span {
        from: 0,
        end: u64::from(frames) * frame,
    };
    let size = worker.block_bytes();
    let block = &mut room[..size];
    let last = pass_blocks(worker, block, header, span, input, output, steps)?;
    let came = last.before + last.count as u64;
    if came < span.end {
        return Err(PartFault::Behind {
            at: frames,
            got: came / frame,
        });
    }
    pass_block(worker, &block[..last.count], output, steps)?;
    match output.flush() {
        Ok(()) => Ok(()),
        Err(_) => Err(PartFault::Stream(StreamFault::Output)),
    }
}

/// Passes over the first frames behind the header, and works on the rest; it answers the frames of all. The room holds
/// a block of the input.
fn pass_rest<U: AnyUnit + Drop, S: Source, K: Sink, L: Ledger>(
    worker: &mut Worker<U>,
    room: &mut [u8],
    header: Header,
    frames: u32,
    input: &mut S,
    output: &mut K,
    steps: &mut Steps<L>,
) -> Result<u64, PartFault>
    requires runs { Runs worker.old }
    requires frames { worker.old.chain.frames ≡ frames }
    requires room { block_bytes worker.old.script worker.old.coding worker.old.block ≤ length room.old }
    requires coding { worker.old.coding ≡ header.coding }
    requires start { header.start ≤ MAX_INPUT }
    requires enough { IfSome (declared_frames worker.old.script header) (λ got. frames ≤ got) }
    ensures same { SameSession worker.old worker.new }
    ensures ok { (before : SourceState) → Opened worker.old.script header before (S.state input.old)
        → Fits worker.old.script header
        → IfOk result (λ total. RestDone worker.old.script worker.old frames total before
        (S.state input.new) (K.state output.old) (K.state output.new) steps.old steps.new
        (measured worker.new)) }
    ensures err { (before : SourceState) → Opened worker.old.script header before (S.state input.old)
        → Fits worker.old.script header
        → IfErr result (λ fault. RestStopped worker.old.script worker.old.block worker.old frames
        fault before (S.state input.new) (K.state output.old) (K.state output.new) steps.old
        steps.new) }
    ensures few { IfOk result (λ total. total ≤ MAX_INPUT) }
{
    let frame = frame_bytes(worker.script(), header.coding);
    let span = Span {
        from: u64::from(frames) * frame,
        end: u64::MAX,
    };
    let skipped = skip_samples(worker.script(), header, span.from, input)?;
    if skipped < span.from {
        return Err(PartFault::Behind {
            at: frames,
            got: skipped / frame,
        });
    }
    let size = worker.block_bytes();
    let block = &mut room[..size];
    let last = pass_blocks(worker, block, header, span, input, output, steps)?;
    close(worker, block, last, header, output, steps)?;
    Ok((last.before + last.count as u64) / frame)
}

/// Goes over the first frames of an input: takes its header and so many frames, and writes the header
/// of the output and what the script gives of these frames while the signal goes on, and makes sure of
/// it. It writes no tail. It takes no memory, and the session then stands for these frames.
pub fn stream_first<U: AnyUnit + Drop, S: Source, K: Sink, L: Ledger>(
    session: &mut Session<U>,
    frames: u32,
    input: &mut S,
    output: &mut K,
    steps: &mut Steps<L>,
) -> Result<(), PartFault>
    requires new { StandsFor session.old [] }
    ensures ok { IfOk result (λ _. FirstDone session.old.script frames session.new
        (S.state input.old) (S.state input.new) (K.state output.old) (K.state output.new) steps.old
        steps.new) }
    ensures err { IfErr result (λ fault. FirstStopped session.old.banked session.old.script
        session.old.block frames fault (S.state input.old) (S.state input.new) (K.state output.old) (K.state output.new)
        steps.old steps.new) }
    ensures same { SameScript session.old session.new }
{
    let script = session.worker.script();
    let header = take_header(script, input)?;
    if let Some(fault) = declared_behind(script, header, frames) {
        return Err(fault);
    }
    write_output_header(script, header, output)?;
    session.worker.set_coding(header.coding);
    pass_first(
        &mut session.worker,
        session.block.as_mut_slice(),
        header,
        frames,
        input,
        output,
        steps,
    )
}

/// Goes over the rest of an input, behind the frames that the session has taken of the same signal or
/// of another one: takes its header and passes over so many frames, works on all that follow, and
/// writes what the script gives of them, the tail and the pad byte, and makes sure of it. It writes
/// no header. It takes no memory.
pub fn stream_rest<U: AnyUnit + Drop, S: Source, K: Sink, L: Ledger>(
    session: &mut Session<U>,
    frames: u32,
    input: &mut S,
    output: &mut K,
    steps: &mut Steps<L>,
) -> Result<Totals, PartFault>
    requires runs { Runs session.old }
    requires frames { session.old.chain.frames ≡ frames }
    ensures ok { IfOk result (λ totals. RestDone session.old.script session.old frames
        totals.frames_taken (S.state input.old) (S.state input.new) (K.state output.old)
        (K.state output.new) steps.old steps.new (measured session.new)) }
    ensures given { IfOk result (λ totals.
        totals.frames_given ≡ frames_given session.old.script.blocks totals.frames_taken) }
    ensures multiplies { IfOk result (λ totals.
        totals.multiplies ≡ cost_of session.old.script totals.frames_taken) }
    ensures err { IfErr result (λ fault. RestStopped session.old.script session.old.block session.old
        frames fault (S.state input.old) (S.state input.new) (K.state output.old)
        (K.state output.new) steps.old steps.new) }
    ensures same { SameScript session.old session.new }
{
    let script = session.worker.script();
    let header = take_header(script, input)?;
    if let Some(fault) = declared_behind(script, header, frames) {
        return Err(fault);
    }
    session.worker.set_coding(header.coding);
    let frames_taken = pass_rest(
        &mut session.worker,
        session.block.as_mut_slice(),
        header,
        frames,
        input,
        output,
        steps,
    )?;
    let script = session.worker.script();
    Ok(Totals {
        frames_taken,
        frames_given: frames_given(script, frames_taken),
        multiplies: cost(script, frames_taken),
    })
}
