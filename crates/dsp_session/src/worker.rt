ghost use Rattle.std.specs.Prelude.{◌≡◌, ◌+◌, ◌*◌, ◌/◌, ◌<◌, ◌≤◌, ◌↔◌, List, [], length, take, drop};
ghost use Rattle.std.specs.Prelude.{IfOk, IfErr, IfSome, IsErr, IsFalse, IsNone, IsTrue, MatchResult, Some, None, ℕ};
ghost use Rattle.std.specs.Prelude.{slice_get};
ghost use Rattle.std.specs.Option.{option_map};
ghost use Rattle.dsp_defs.specs.Bytes.{format_in};
ghost use Rattle.dsp_defs.specs.Shape.{gathered, held, window_at};
ghost use Rattle.dsp_defs.specs.declared.fault.GatherFull.{GatherFull};
ghost use Rattle.dsp_defs.specs.declared.fault.WindowFault.{WindowFault};
ghost use Rattle.dsp_ports.specs.Ports.{CountsFaults, Took};
ghost use Rattle.dsp_chain.specs.Chain.{IsNewChain, input_place};
ghost use Rattle.dsp_chain.specs.Line.{measure_counts};
ghost use Rattle.dsp_defs.specs.KeptOfScript.{Fits, kept, kept_count};
ghost use Rattle.dsp_input.specs.Taking.{frame_bytes};
ghost use Rattle.dsp_session.specs.Keeping.{Restores};
ghost use Rattle.dsp_session.specs.Advancing.{Runs};
ghost use Rattle.dsp_session.specs.Feeding.{IsFed, IsFedFrom, MayTake};
ghost use Rattle.dsp_chain.specs.Restored.{kept_of};
ghost use Rattle.dsp_defs.specs.Block.{Frame};
ghost use Rattle.dsp_session.specs.Session.{IsReady, IsNew, StandsFor, SameScript, SameSession, Feeds, Fails};
ghost use Rattle.dsp_session.specs.Session.{IsTooMuch, Ends, block_bytes, call_room, given_bytes, measured};
ghost use Rattle.dsp_session.specs.Session.{signal, tail_bytes};
ghost use Rattle.dsp_session.specs.Working.{row_of};

use crate::samples::Samples;
use dsp_chain::Chain;
use dsp_defs::{GatherFull, MAX_INPUT, Measure, Script, Steps, WindowFault};
use dsp_input::frame_bytes;
use dsp_ports::{Failed, LentSource, Sink, Source, write_piece};
use dsp_script::output_flow;
use dsp_unit::{AnyUnit, Unit};
use dsp_wave::{Coded, Coding, coding_of, whole_samples, width};
use std::alloc::{AllocError, Global};
use std::marker::Model;
use std::sync::ledger::Ledger;

/// The chain of a script, banked or not.
fn chain_of<U: AnyUnit + Drop>(
    alloc: Global,
    script: &Script,
    block: u64,
    banked: bool,
) -> Result<Chain<U>, AllocError>
    requires { IsReady script.now block }
    ensures { IfOk result (IsNewChain banked (input_place script.now block) script.now.blocks) }
{
    match banked {
        true => Chain::banked(alloc, script, block),
        false => Chain::new(alloc, script, block),
    }
}

/// The samples that a call gave: so many at the front of the row that was read, where they are given as they were
/// taken, and else of the one that was written.
fn given_samples<'a>(
    as_taken: bool,
    taken: &'a Samples,
    written: &'a [i32],
    count: usize,
) -> &'a [i32]
    requires { count ≤ length (row_of as_taken taken.now.row written.now) }
    ensures { result.now ≡ take count (row_of as_taken taken.now.row written.now) }
{
    match as_taken {
        true => taken.front(count),
        false => &written[..count],
    }
}

/// The blocks of a script at work on bytes. What a call gave stands as samples at the front of `values`, or where it is
/// given as it was taken at that of `samples`, and `bytes` has room for their bytes.
#[derive(Drop)]
pub struct Worker<U: Unit + Drop> {
    script: Script,
    banked: bool,
    chain: Chain<U>,
    samples: Samples,
    output: Coding,
    block: usize,
    values: Vec<i32>,
    bytes: Vec<u8>,
    given: usize,
    as_taken: bool,
}

impl<U: Unit + Drop> Model for Worker<U> {
    ghost use Rattle.std.specs.Prelude.{flat_map, length, take, vec_len};
    ghost use Rattle.dsp_defs.specs.Bytes.{bytes_of};
    ghost use Rattle.dsp_session.specs.SessionState.{SessionState};
    ghost use Rattle.dsp_session.specs.Working.{IsWorking, row_of};

    ghost Value = { SessionState };

    ghost view = { λ w. record {
      script = w.script;
      banked = w.banked;
      block = w.block;
      coding = w.samples.coding;
      chain = w.chain;
      out = flat_map (bytes_of w.output) (take w.given (row_of w.as_taken w.samples.row w.values.items));
    } };

    ghost invariant = { λ w. IsWorking
        (record {
          script = w.script;
          banked = w.banked;
          block = w.block;
          coding = w.samples.coding;
          chain = w.chain;
          out = flat_map (bytes_of w.output) (take w.given (row_of w.as_taken w.samples.row w.values.items));
        })
        w.output (length w.samples.row) (vec_len w.values) (vec_len w.bytes) w.given
        (take w.given (row_of w.as_taken w.samples.row w.values.items)) };
}

impl<U: AnyUnit + Drop> Worker<U> {
    /// A worker for blocks of at most `block` frames, that has taken nothing. All memory of a run is
    /// taken here.
    pub fn new(alloc: Global, script: Script, block: u64, banked: bool) -> Result<Self, AllocError>
        requires { IsReady script block }
        ensures { IfOk result (IsNew banked script block) }
    {
        let chain = chain_of(alloc, &script, block, banked)?;
        let flow = output_flow(&script);
        let input = coding_of(script.input.kind.container(), script.input.format);
        let output = coding_of(script.output, flow.format);
        let block = block as usize;
        let room = chain.room();
        let samples = Samples::new(alloc, input, block * usize::from(script.input.channels))?;
        let values = vec![in alloc; 0; room]?;
        let bytes = vec![in alloc; 0; room * width(output)]?;
        Ok(Worker {
            script,
            banked,
            chain,
            samples,
            output,
            block,
            values,
            bytes,
            given: 0,
            as_taken: false,
        })
    }

    /// The script.
    pub fn script(&self) -> &Script
        ensures script { result.now ≡ self.now.script }
        ensures ready { IsReady self.now.script self.now.block }
    {
        &self.script
    }

    /// Whether its biquads are banks.
    pub fn is_banked(&self) -> bool
        ensures { result ≡ self.now.banked }
    {
        self.banked
    }

    /// The most frames of a call.
    pub fn block(&self) -> usize
        ensures { result ≡ self.now.block }
    {
        self.block
    }

    /// The bytes of a frame of the input.
    pub fn frame_bytes(&self) -> usize
        ensures value { result ≡ frame_bytes self.now.script self.now.coding }
        ensures some { 0 < result }
    {
        frame_bytes(&self.script, self.samples.coding()) as usize
    }

    /// The bytes that one call gives at most.
    pub fn room(&self) -> usize
        ensures { result ≡ call_room self.now }
    {
        self.bytes.len()
    }

    /// The bytes of a frame of the output.
    pub fn given_bytes(&self) -> usize
        ensures { result ≡ given_bytes self.now.script }
    {
        usize::from(output_flow(&self.script).channels) * width(self.output)
    }

    /// The bytes of the tail, where the frames fed so far are the whole input.
    pub fn tail_bytes(&self) -> u128
        requires { self.now.chain.frames ≤ MAX_INPUT }
        ensures { result ≡ tail_bytes self.now.script self.now.chain.frames }
    {
        u128::from(self.chain.tail_frames()) * self.given_bytes() as u128
    }

    /// How many frames were taken.
    pub fn frames(&self) -> u64
        ensures { result ≡ self.now.chain.frames }
    {
        self.chain.frames()
    }

    /// Whether the input has ended.
    pub fn has_ended(&self) -> bool
        ensures { result ≡ self.now.chain.ended }
    {
        self.chain.has_ended()
    }

    /// The fault that the chain answers from now on, if it has answered one.
    pub fn fault(&self) -> Option<GatherFull>
        ensures { result ≡ self.now.chain.failed }
    {
        self.chain.fault()
    }

    /// The bytes of a block of the input.
    pub fn block_bytes(&self) -> usize
        ensures { result ≡ block_bytes self.now.script self.now.coding self.now.block }
    {
        self.block * frame_bytes(&self.script, self.samples.coding()) as usize
    }

    /// The samples of the input stand in this coding of its format.
    pub fn set_coding(&mut self, coding: Coding)
        requires { format_in coding ≡ self.old.script.input.format }
        ensures coding { self.new ≡ record self.old { coding = coding } }
        ensures same { SameScript self.old self.new }
    {
        self.samples.set_coding(coding);
    }

    /// The bytes that the last call gave.
    pub fn out(&self) -> Coded<'_>
        ensures { result ≡ self.now.out }
    {
        let given = given_samples(self.as_taken, &self.samples, &self.values, self.given);
        Coded::new(self.output, given)
    }

    /// Writes the bytes that the last call gave, or a front of them where the sink fails.
    pub fn write_out<K: Sink>(&mut self, output: &mut K) -> Result<(), Failed>
        ensures same { self.new ≡ self.old }
        ensures took { MatchResult result
            (λ _. Took (K.state output.old) (K.state output.new) self.old.out)
            (λ _. (count : ℕ) × (count < length self.old.out)
            × Took (K.state output.old) (K.state output.new) (take count self.old.out)) }
        ensures faults { CountsFaults result (K.state output.old).faults (K.state output.new).faults }
    {
        let given = given_samples(self.as_taken, &self.samples, &self.values, self.given);
        write_piece(
            output,
            &Coded::new(self.output, given),
            self.bytes.as_mut_slice(),
        )
    }

    /// Takes the frames of the next `size` bytes of a source, at most a block, where it lends them, gives the bytes of
    /// the live values that they add, and answers their number. Where it does not, the answer is `None`, and nothing
    /// has changed.
    pub fn feed_from<S: Source, L: Ledger>(
        &mut self,
        input: &mut S,
        size: usize,
        steps: &mut Steps<L>,
    ) -> Option<Result<usize, GatherFull>>
        requires { MayTake self.old size }
        ensures none { IsNone result → (self.new ≡ self.old) × (input.new ≡ input.old)
            × (steps.new ≡ steps.old) × S.Refuses input.old size }
        ensures some { IfSome result (λ fed. IsFedFrom fed self.old self.new size (S.state input.old)
            (S.state input.new) steps.old steps.new) }
    {
        if !input.lend(size, &mut self.samples) {
            return None;
        }
        self.given = 0;
        let count = whole_samples(self.samples.coding(), size);
        let samples = self.samples.front(count);
        match self.chain.feed(samples, self.values.as_mut_slice(), steps) {
            Ok(given) => {
                self.as_taken = given.is_none();
                self.given = given.unwrap_or(count);
                Some(Ok(self.given * width(self.output)))
            }
            Err(fault) => Some(Err(fault)),
        }
    }

    /// Takes the frames of some bytes, at most a block, gives the bytes of the live values that they
    /// add, and answers their number.
    pub fn feed<L: Ledger>(
        &mut self,
        bytes: &[u8],
        steps: &mut Steps<L>,
    ) -> Result<usize, GatherFull>
        requires { MayTake self.old (length bytes.now) }
        ensures { IsFed result self.old self.new bytes.now steps.old steps.new }
    {
        match self.feed_from(&mut LentSource::new(bytes), bytes.len(), steps) {
            Some(fed) => fed,
            None => unreachable!(),
        }
    }

    /// The first partial convolution whose window ends past the full one, where the frames fed so
    /// far and `more` frames are the whole input.
    pub fn window_fault(&self, more: u64) -> Option<WindowFault>
        requires { self.now.chain.frames + more ≤ MAX_INPUT }
        ensures { option_map (λ (fault : WindowFault). (fault.end, fault.length)) result
            ≡ window_at self.now.script.blocks (self.now.chain.frames + more) }
    {
        self.chain.window_fault(more)
    }

    /// Ends the input, gives the bytes of the next frames of the tail, and answers their number: 0
    /// where the tail is spent or the chain has failed.
    pub fn end<L: Ledger>(&mut self, steps: &mut Steps<L>) -> usize
        ensures same { SameSession self.old self.new }
        ensures given { result ≡ length self.new.out }
        ensures within { result ≤ call_room self.old }
        ensures ends { Ends self.old self.new result steps.old steps.new }
    {
        self.as_taken = false;
        self.given = self.chain.finish(self.values.as_mut_slice(), steps);
        self.given * width(self.output)
    }

    /// How many numbers the blocks keep of so many frames.
    pub fn kept_count_of(&self, frames: u64) -> u128
        requires { frames ≤ MAX_INPUT }
        ensures { result ≡ kept_count self.now.script frames }
    {
        self.chain.kept_count_of(frames)
    }

    /// The samples of a channel that the correlation would gather of so many frames.
    pub fn gathered(&self, frames: u64) -> u64
        requires { frames ≤ MAX_INPUT }
        ensures { result ≡ gathered self.now.script.blocks frames }
    {
        self.chain.gathered(frames)
    }

    /// Writes the numbers that the blocks keep.
    pub fn keep(&self, out: &mut [i64])
        requires runs { Runs self.now }
        requires length { length out.old ≡ length (kept_of self.now.chain) }
        ensures { (x : List Frame) → StandsFor self.now x → out.new ≡ kept self.now.script x }
    {
        self.chain.keep(out);
    }

    /// How many numbers the blocks keep.
    pub fn kept_count(&self) -> usize
        ensures count { result ≡ length (kept_of self.now.chain) }
        ensures frames { IsFalse self.now.chain.ended
            → result ≡ kept_count self.now.script self.now.chain.frames }
    {
        self.chain.kept_count()
    }

    /// Whether the blocks can keep these numbers of so many frames.
    pub fn fits(&self, frames: u64, numbers: &[i64]) -> bool
        ensures { IsTrue result ↔ (frames ≤ MAX_INPUT) × Fits self.now.script frames numbers.now }
    {
        self.chain.fits(frames, numbers)
    }

    /// Gives a new worker the numbers that the blocks keep of so many frames, which count as taken.
    pub fn restore(&mut self, frames: u64, numbers: &[i64])
        requires new { StandsFor self.old [] }
        requires few { frames ≤ MAX_INPUT }
        requires fits { Fits self.old.script frames numbers.now }
        ensures { Restores self.old self.new frames numbers.now }
    {
        self.chain.restore(frames, numbers);
    }

    /// How many measures the blocks have.
    pub fn measures(&self) -> usize
        ensures count { result ≡ length (measured self.now) }
        ensures stays { result ≡ measure_counts self.now.script.input.channels self.now.script.blocks }
    {
        self.chain.measures()
    }

    /// The measure at this index, of what its block has taken.
    pub fn measure(&self, index: usize) -> Measure
        requires { index < length (measured self.now) }
        ensures { slice_get (measured self.now) index ≡ Some result }
    {
        self.chain.measure(index)
    }
}
