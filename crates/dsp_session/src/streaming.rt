ghost use Rattle.std.specs.Prelude.{◌≡◌, ◌+◌, ◌*◌, ◌/◌, ◌≤◌, ℕ, List, [], length, IfOk, IfErr};
ghost use Rattle.dsp_defs.specs.Counts.{Counts};
ghost use Rattle.dsp_ports.specs.Ports.{SourceState, SinkState};
ghost use Rattle.dsp_defs.specs.Shape.{frames_given};
ghost use Rattle.dsp_input.specs.Taking.{InDeclared, declared_bytes, frame_bytes};
ghost use Rattle.dsp_session.specs.Session.{StandsFor, SameScript, SameSession, signal, block_bytes, cost_of};
ghost use Rattle.dsp_session.specs.Session.{measured};
ghost use Rattle.dsp_session.specs.Opening.{Begun};
ghost use Rattle.dsp_session.specs.SessionState.{SessionState};
ghost use Rattle.dsp_session.specs.Feeding.{IsFed};
ghost use Rattle.dsp_session.specs.Stream.{Stopped, StaysRefused, Done};
ghost use Rattle.dsp_session.specs.Advancing.{Runs, PassesOn, PassesLent, FailsToPassOn, Reached, Breaks, Broke};

use crate::closing::close;
use crate::fault::{LengthFault, StreamFault};
use crate::opening::open;
use crate::session::Session;
use crate::worker::Worker;
use dsp_defs::{GatherFull, Header, MAX_INPUT, Steps};
use dsp_input::{frame_bytes, has_block, read_block};
use dsp_ports::{Sink, Source};
use dsp_script::{cost, frames_given};
use dsp_unit::AnyUnit;
use std::sync::ledger::Ledger;

/// What a stream did: the frames of the input that it took, those of the output that it gave, and
/// the products that its blocks made.
#[derive(Clone, Copy, Debug, PartialEq, Eq)]
pub struct Totals {
    pub frames_taken: u64,
    pub frames_given: u64,
    pub multiplies: u128,
}

/// Where the samples ended: after so many bytes in whole blocks, and so many of one more.
#[derive(Clone, Copy)]
pub struct Last {
    pub before: u64,
    pub count: usize,
}

/// A part of the samples: so many of their bytes lie before it, and it ends behind so many.
#[derive(Clone, Copy)]
pub struct Span {
    pub from: u64,
    pub end: u64,
}

/// All samples.
pub const WHOLE: Span = Span {
    from: 0,
    end: u64::MAX,
};

/// Writes what a call of the worker gave, or says why it was refused.
fn pass_on<U: AnyUnit + Drop, K: Sink>(
    worker: &mut Worker<U>,
    fed: Result<usize, GatherFull>,
    output: &mut K,
) -> Result<(), StreamFault>
    ensures ok { (old : SessionState) (bytes : List ℕ) (before after : Counts) → Runs old
        → IsFed fed old worker.old bytes before after
        → IfOk result (λ _. PassesOn old worker.new bytes (K.state output.old) (K.state output.new)
        before after) }
    ensures err { (old : SessionState) (bytes : List ℕ) (before after : Counts) → Runs old
        → IsFed fed old worker.old bytes before after
        → IfErr result (λ fault. FailsToPassOn fault old worker.new bytes (K.state output.old)
        (K.state output.new) before after) }
    ensures same { worker.new ≡ worker.old }
{
    if let Err(GatherFull { held, more }) = fed {
        return Err(StreamFault::Lengths(LengthFault::Gather { held, more }));
    }
    match worker.write_out(output) {
        Ok(()) => Ok(()),
        Err(_) => Err(StreamFault::Output),
    }
}

/// Works on the frames of some bytes, and writes the live values that they add.
pub fn pass_block<U: AnyUnit + Drop, K: Sink, L: Ledger>(
    worker: &mut Worker<U>,
    bytes: &[u8],
    output: &mut K,
    steps: &mut Steps<L>,
) -> Result<(), StreamFault>
    requires runs { Runs worker.old }
    requires whole { length bytes.now ≡ length
        (signal worker.old.script worker.old.coding bytes.now) * frame_bytes worker.old.script
        worker.old.coding }
    requires block { length (signal worker.old.script worker.old.coding bytes.now) ≤ worker.old.block }
    requires count { worker.old.chain.frames + length
        (signal worker.old.script worker.old.coding bytes.now) ≤ MAX_INPUT }
    ensures same { SameSession worker.old worker.new }
    ensures ok { IfOk result (λ _. PassesOn worker.old worker.new bytes.now (K.state output.old)
        (K.state output.new) steps.old steps.new) }
    ensures err { IfErr result (λ fault. FailsToPassOn fault worker.old worker.new bytes.now
        (K.state output.old) (K.state output.new) steps.old steps.new) }
{
    let fed = worker.feed(bytes, steps);
    pass_on(worker, fed, output)
}

/// Where the next block of samples stands: of a part that ends behind `end` bytes of samples, behind `taken`.
#[derive(Clone, Copy)]
struct Next {
    header: Header,
    end: u64,
    taken: u64,
}

/// Works on the next block of so many bytes where the input lends them, and answers whether it did: else nothing has
/// changed.
fn pass_lent<U: AnyUnit + Drop, S: Source, K: Sink, L: Ledger>(
    worker: &mut Worker<U>,
    size: usize,
    next: Next,
    input: &mut S,
    output: &mut K,
    steps: &mut Steps<L>,
) -> Result<bool, StreamFault>
    requires runs { Runs worker.old }
    requires size { size ≡ block_bytes worker.old.script worker.old.coding worker.old.block }
    requires coding { worker.old.coding ≡ next.header.coding }
    requires limit { next.header.start + next.taken ≤ MAX_INPUT }
    requires frames { worker.old.chain.frames * frame_bytes worker.old.script worker.old.coding
        ≤ next.taken }
    requires part { next.taken ≤ next.end }
    ensures ok { IfOk result (λ passed. PassesLent passed worker.old worker.new size next
        (S.state input.old) (S.state input.new) (K.state output.old) (K.state output.new) steps.old
        steps.new) }
    ensures err { IfErr result (λ fault. Breaks worker.old worker.new next.header next.end next.taken
        fault (S.state input.old) (S.state input.new) (K.state output.old) (K.state output.new) steps.old
        steps.new) }
{
    let Next { header, end, taken } = next;
    if !has_block(worker.script(), header, end, taken, size) {
        return Ok(false);
    }
    let Some(fed) = worker.feed_from(input, size, steps) else {
        return Ok(false);
    };
    pass_on(worker, fed, output)?;
    Ok(true)
}

/// Works on block after block until the samples end, or the part of them.
pub fn pass_blocks<U: AnyUnit + Drop, S: Source, K: Sink, L: Ledger>(
    worker: &mut Worker<U>,
    block: &mut [u8],
    header: Header,
    span: Span,
    input: &mut S,
    output: &mut K,
    steps: &mut Steps<L>,
) -> Result<Last, StreamFault>
    requires runs { Runs worker.old }
    requires block { length block.old ≡ block_bytes worker.old.script worker.old.coding worker.old.block }
    requires coding { worker.old.coding ≡ header.coding }
    requires start { header.start + span.from ≤ MAX_INPUT }
    requires declared { InDeclared (declared_bytes worker.old.script header) span.from }
    requires frames { worker.old.chain.frames * frame_bytes worker.old.script header.coding ≤ span.from }
    requires part { span.from ≤ span.end }
    ensures same { SameSession worker.old worker.new }
    ensures ok { IfOk result (λ last. Reached worker.old worker.new header span block.new last
        (S.state input.old) (S.state input.new) (K.state output.old) (K.state output.new) steps.old
        steps.new) }
    ensures err { IfErr result (λ fault. Broke worker.old worker.new header span fault
        (S.state input.old) (S.state input.new) (K.state output.old) (K.state output.new) steps.old
        steps.new) }
{
    let mut taken = span.from;
    'passing: loop {
        let next = Next {
            header,
            end: span.end,
            taken,
        };
        if pass_lent(worker, block.len(), next, input, output, steps)? {
            taken += block.len() as u64;
            continue 'passing;
        }
        let count = read_block(worker.script(), header, span.end, taken, block, input)?;
        if count < block.len() {
            return Ok(Last {
                before: taken,
                count,
            });
        }
        pass_block(worker, block, output, steps)?;
        taken += count as u64;
    }
}

/// Works on the samples behind the header, gives the tail, and makes sure of the output; it answers
/// the frames that it took. The room holds a block of the input.
fn stream_samples<U: AnyUnit + Drop, S: Source, K: Sink, L: Ledger>(
    worker: &mut Worker<U>,
    room: &mut [u8],
    header: Header,
    input: &mut S,
    output: &mut K,
    steps: &mut Steps<L>,
) -> Result<u64, StreamFault>
    requires new { StandsFor worker.old [] }
    requires room { block_bytes worker.old.script worker.old.coding worker.old.block ≤ length room.old }
    requires coding { worker.old.coding ≡ header.coding }
    requires start { header.start ≤ MAX_INPUT }
    requires begun { (before : SourceState) × (empty : SinkState)
        × Begun worker.old.script header before (S.state input.old) empty (K.state output.old) }
    ensures same { SameSession worker.old worker.new }
    ensures ok { (before : SourceState) (empty : SinkState)
        → Begun worker.old.script header before (S.state input.old) empty (K.state output.old)
        → IfOk result (λ frames. Done worker.old.banked worker.old.script worker.old.block frames
        before (S.state input.new) empty (K.state output.new) steps.old steps.new (measured worker.new)) }
    ensures err { (before : SourceState) (empty : SinkState)
        → Begun worker.old.script header before (S.state input.old) empty (K.state output.old)
        → IfErr result (λ fault. Stopped worker.old.banked worker.old.script worker.old.block fault before
        (S.state input.new) empty (K.state output.new) steps.old steps.new) }
    ensures refused { IfErr result (λ fault. StaysRefused fault worker.new) }
    ensures few { IfOk result (λ frames. frames ≤ MAX_INPUT) }
{
    let size = worker.block_bytes();
    let block = &mut room[..size];
    let last = pass_blocks(worker, block, header, WHOLE, input, output, steps)?;
    close(worker, block, last, header, output, steps)?;
    Ok((last.before + last.count as u64) / frame_bytes(worker.script(), header.coding))
}

/// Goes over a whole input: takes its header, works on block after block of its samples, and writes
/// the output of the script, which it flushes once at the end. It takes no memory. Where a
/// correlation was full, the session answers the same fault from then on.
///
/// The output of a block is accepted wholly before a byte of the next block is asked for.
pub fn stream<U: AnyUnit + Drop, S: Source, K: Sink, L: Ledger>(
    session: &mut Session<U>,
    input: &mut S,
    output: &mut K,
    steps: &mut Steps<L>,
) -> Result<Totals, StreamFault>
    requires new { StandsFor session.old [] }
    ensures ok { IfOk result (λ totals.
        Done session.old.banked session.old.script session.old.block totals.frames_taken
        (S.state input.old) (S.state input.new) (K.state output.old) (K.state output.new) steps.old steps.new
        (measured session.new)) }
    ensures given { IfOk result (λ totals.
        totals.frames_given ≡ frames_given session.old.script.blocks totals.frames_taken) }
    ensures multiplies { IfOk result (λ totals.
        totals.multiplies ≡ cost_of session.old.script totals.frames_taken) }
    ensures err { IfErr result (λ fault.
        Stopped session.old.banked session.old.script session.old.block fault (S.state input.old)
        (S.state input.new) (K.state output.old) (K.state output.new) steps.old steps.new) }
    ensures refused { IfErr result (λ fault. StaysRefused fault session.new) }
    ensures same { SameScript session.old session.new }
{
    let header = open(session.worker.script(), input, output)?;
    session.worker.set_coding(header.coding);
    let frames_taken = stream_samples(
        &mut session.worker,
        session.block.as_mut_slice(),
        header,
        input,
        output,
        steps,
    )?;
    let script = session.worker.script();
    Ok(Totals {
        frames_taken,
        frames_given: frames_given(script, frames_taken),
        multiplies: cost(script, frames_taken),
    })
}
