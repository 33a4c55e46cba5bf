ghost use Rattle.std.specs.Prelude.{◌≡◌, ◌+◌, ◌*◌, ◌<◌, ◌≤◌, ◌↔◌, List, [], true, false, Some, None};
ghost use Rattle.std.specs.Prelude.{length, slice_get, IfOk, IfErr, IsErr, IsFalse, IsTrue};
ghost use Rattle.std.specs.Option.{option_map};
ghost use Rattle.dsp_defs.specs.Bytes.{format_in};
ghost use Rattle.dsp_defs.specs.Shape.{gathered, held, window_at};
ghost use Rattle.dsp_defs.specs.declared.fault.GatherFull.{GatherFull};
ghost use Rattle.dsp_defs.specs.declared.fault.WindowFault.{WindowFault};
ghost use Rattle.dsp_chain.specs.Line.{measure_counts};
ghost use Rattle.dsp_defs.specs.KeptOfScript.{Fits, kept, kept_count};
ghost use Rattle.dsp_input.specs.Taking.{frame_bytes};
ghost use Rattle.dsp_session.specs.Keeping.{Restores};
ghost use Rattle.dsp_session.specs.Advancing.{Runs};
ghost use Rattle.dsp_chain.specs.Restored.{kept_of};
ghost use Rattle.dsp_defs.specs.Block.{Frame};
ghost use Rattle.dsp_session.specs.Session.{IsReady, IsNew, SameSession, StandsFor, Feeds, Fails, IsTooMuch};
ghost use Rattle.dsp_session.specs.Session.{Ends, call_room, given_bytes, measured, signal, tail_bytes};

use crate::worker::Worker;
use dsp_defs::{Coding, GatherFull, MAX_INPUT, Measure, Script, Steps, WindowFault};
use dsp_unit::{AnyUnit, Unit};
use dsp_wave::Coded;
use std::alloc::{AllocError, Global};
use std::marker::Model;
use std::sync::ledger::Ledger;

/// A script at work, which the session owns: it takes bytes of the input's samples and gives bytes of the
/// output's samples. A stream also reads the headers of files and writes them.
#[derive(Drop)]
pub struct Session<U: Unit + Drop> {
    pub(crate) worker: Worker<U>,
    /// The block that a stream reads into.
    pub(crate) block: Vec<u8>,
}

impl<U: Unit + Drop> Model for Session<U> {
    ghost use Rattle.std.specs.Prelude.{◌≡◌, vec_len};
    ghost use Rattle.dsp_session.specs.Session.{block_bytes, input_coding};
    ghost use Rattle.dsp_session.specs.SessionState.{SessionState};

    ghost Value = { SessionState };

    ghost view = { λ s. s.worker };

    ghost invariant = { λ s.
        vec_len s.block ≡ block_bytes s.worker.script
        (input_coding s.worker.script) s.worker.block };
}

impl<U: AnyUnit + Drop> Session<U> {
    /// A session of the script, for blocks of at most `block` frames, that has taken nothing. All
    /// memory of a run is taken here.
    pub fn new(alloc: Global, script: Script, block: u64) -> Result<Self, AllocError>
        requires { IsReady script block }
        ensures { IfOk result (IsNew false script block) }
    {
        Self::made(alloc, script, block, false)
    }

    /// The same with the biquads of the script as banks, which work on all channels of a frame at once.
    pub fn banked(alloc: Global, script: Script, block: u64) -> Result<Self, AllocError>
        requires { IsReady script block }
        ensures { IfOk result (IsNew true script block) }
    {
        Self::made(alloc, script, block, true)
    }

    /// A session of the script, banked or not.
    fn made(alloc: Global, script: Script, block: u64, banked: bool) -> Result<Self, AllocError>
        requires { IsReady script block }
        ensures { IfOk result (IsNew banked script block) }
    {
        let worker = Worker::new(alloc, script, block, banked)?;
        let block = vec![in alloc; 0; worker.block_bytes()]?;
        Ok(Session { worker, block })
    }

    /// The samples of the input stand in this coding, one of its format; without the call it is
    /// that of all bits in its container. Nothing was fed before.
    pub fn set_coding(&mut self, coding: Coding)
        requires new { StandsFor self.old [] }
        requires coding { format_in coding ≡ self.old.script.input.format }
        ensures { self.new ≡ record self.old { coding = coding } }
    {
        self.worker.set_coding(coding);
    }

    /// The script.
    pub fn script(&self) -> &Script
        ensures script { result.now ≡ self.now.script }
        ensures ready { IsReady self.now.script self.now.block }
    {
        self.worker.script()
    }

    /// Whether its biquads work on all channels of a frame at once.
    pub fn is_banked(&self) -> bool
        ensures { result ≡ self.now.banked }
    {
        self.worker.is_banked()
    }

    /// The most frames of a call.
    pub fn block(&self) -> usize
        ensures { result ≡ self.now.block }
    {
        self.worker.block()
    }

    /// The bytes of a frame of the input, at least one.
    pub fn frame_bytes(&self) -> usize
        ensures value { result ≡ frame_bytes self.now.script self.now.coding }
        ensures some { 0 < result }
    {
        self.worker.frame_bytes()
    }

    /// The bytes that one call gives at most.
    pub fn room(&self) -> usize
        ensures { result ≡ call_room self.now }
    {
        self.worker.room()
    }

    /// The bytes of a frame of the output.
    pub fn given_bytes(&self) -> usize
        ensures { result ≡ given_bytes self.now.script }
    {
        self.worker.given_bytes()
    }

    /// The bytes of the tail, where the frames fed so far are the whole input.
    pub fn tail_bytes(&self) -> u128
        requires { self.now.chain.frames ≤ MAX_INPUT }
        ensures { result ≡ tail_bytes self.now.script self.now.chain.frames }
    {
        self.worker.tail_bytes()
    }

    /// How many frames were taken.
    pub fn frames(&self) -> u64
        ensures { result ≡ self.now.chain.frames }
    {
        self.worker.frames()
    }

    /// Whether the input has ended.
    pub fn has_ended(&self) -> bool
        ensures { result ≡ self.now.chain.ended }
    {
        self.worker.has_ended()
    }

    /// The fault that the session answers from now on, if it has answered one.
    pub fn fault(&self) -> Option<GatherFull>
        ensures { result ≡ self.now.chain.failed }
    {
        self.worker.fault()
    }

    /// The bytes that the last call gave, which `write_to` makes where the caller wants them.
    pub fn out(&self) -> Coded<'_>
        ensures { result ≡ self.now.out }
    {
        self.worker.out()
    }

    /// Takes the whole frames of some bytes in the coding of the input, at most a block, gives the
    /// bytes of the live values that they add, and answers their number. It refuses where a
    /// correlation would gather more than `MAX_GATHERED` samples of a channel, and then answers the same
    /// fault from then on.
    pub fn feed<L: Ledger>(
        &mut self,
        bytes: &[u8],
        steps: &mut Steps<L>,
    ) -> Result<usize, GatherFull>
        requires running { IsFalse self.old.chain.ended }
        requires whole { length bytes.now
            ≡ length (signal self.old.script self.old.coding bytes.now) * frame_bytes
            self.old.script self.old.coding }
        requires block { length (signal self.old.script self.old.coding bytes.now) ≤ self.old.block }
        requires count { self.old.chain.frames + length
            (signal self.old.script self.old.coding bytes.now) ≤ MAX_INPUT }
        ensures same { SameSession self.old self.new }
        ensures given { IfOk result (λ given. given ≡ length self.new.out) }
        ensures within { IfOk result (λ given. given ≤ call_room self.old) }
        ensures fed { IfOk result (λ _. Feeds self.old self.new bytes.now steps.old steps.new) }
        ensures full { IsErr result ↔ IsTooMuch self.old
            (length (signal self.old.script self.old.coding bytes.now)) }
        ensures numbers { self.old.chain.failed ≡ None
            → IfErr result (λ (fault : GatherFull).
            (fault.held ≡ held self.old.script.blocks self.old.chain.frames)
            × (fault.held + fault.more ≡ gathered self.old.script.blocks
            (self.old.chain.frames + length (signal self.old.script self.old.coding bytes.now)))) }
        ensures refused { IfErr result (λ fault. Fails self.old self.new fault steps.old steps.new) }
    {
        self.worker.feed(bytes, steps)
    }

    /// The first partial convolution whose window ends past the full one, where the frames fed so
    /// far and `more` frames are the whole input.
    pub fn window_fault(&self, more: u64) -> Option<WindowFault>
        requires { self.now.chain.frames + more ≤ MAX_INPUT }
        ensures { option_map (λ (fault : WindowFault). (fault.end, fault.length)) result
            ≡ window_at self.now.script.blocks (self.now.chain.frames + more) }
    {
        self.worker.window_fault(more)
    }

    /// Ends the input, gives the bytes of the next frames of the tail, and answers their number: 0
    /// where the tail is spent or the session has failed.
    pub fn end<L: Ledger>(&mut self, steps: &mut Steps<L>) -> usize
        ensures same { SameSession self.old self.new }
        ensures given { result ≡ length self.new.out }
        ensures within { result ≤ call_room self.old }
        ensures ends { Ends self.old self.new result steps.old steps.new }
    {
        self.worker.end(steps)
    }

    /// How many numbers the script's blocks keep of so many frames.
    pub fn kept_count_of(&self, frames: u64) -> u128
        requires { frames ≤ MAX_INPUT }
        ensures { result ≡ kept_count self.now.script frames }
    {
        self.worker.kept_count_of(frames)
    }

    /// The samples of a channel that the correlation would gather of so many frames, or 0 without one.
    pub fn gathered(&self, frames: u64) -> u64
        requires { frames ≤ MAX_INPUT }
        ensures { result ≡ gathered self.now.script.blocks frames }
    {
        self.worker.gathered(frames)
    }

    /// How many numbers the script's blocks keep of what they have taken.
    pub fn kept_count(&self) -> usize
        ensures count { result ≡ length (kept_of self.now.chain) }
        ensures frames { IsFalse self.now.chain.ended
            → result ≡ kept_count self.now.script self.now.chain.frames }
    {
        self.worker.kept_count()
    }

    /// Writes these numbers, block after block.
    pub fn keep(&self, out: &mut [i64])
        requires runs { Runs self.now }
        requires length { length out.old ≡ length (kept_of self.now.chain) }
        ensures { (x : List Frame) → StandsFor self.now x → out.new ≡ kept self.now.script x }
    {
        self.worker.keep(out);
    }

    /// Whether the script's blocks can keep these numbers of so many frames, at most 2^40.
    pub fn fits(&self, frames: u64, numbers: &[i64]) -> bool
        ensures { IsTrue result ↔ (frames ≤ MAX_INPUT) × Fits self.now.script frames numbers.now }
    {
        self.worker.fits(frames, numbers)
    }

    /// Gives a new session the numbers that the blocks keep of so many frames, which count as taken.
    pub fn restore(&mut self, frames: u64, numbers: &[i64])
        requires new { StandsFor self.old [] }
        requires few { frames ≤ MAX_INPUT }
        requires fits { Fits self.old.script frames numbers.now }
        ensures { Restores self.old self.new frames numbers.now }
    {
        self.worker.restore(frames, numbers);
    }

    /// How many measures the script has: in the order of its blocks, then by channel.
    pub fn measures(&self) -> usize
        ensures count { result ≡ length (measured self.now) }
        ensures stays { result ≡ measure_counts self.now.script.input.channels self.now.script.blocks }
    {
        self.worker.measures()
    }

    /// The measure at this index, of what its block has taken: of the whole signal at its place once
    /// the tail is spent, as after a stream.
    pub fn measure(&self, index: usize) -> Measure
        requires { index < length (measured self.now) }
        ensures { slice_get (measured self.now) index ≡ Some result }
    {
        self.worker.measure(index)
    }
}
