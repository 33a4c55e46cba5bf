use crate::counting::{gather_fault, gathered, tail_frames, window_fault};
use crate::keeping::{count_kept, count_line, fits_line, keep_line, restore_line};
use crate::line::{count_measures, feed_line, find_measure, finish_line};
use crate::link::Link;
use crate::signal::Signal;
use dsp_defs::{
    Flow, Fmt, GatherFull, Input, MAX_GATHERED, MAX_INPUT, Measure, Script, Steps, WindowFault,
};
use dsp_shape::{FrameRule, KeptRule, frame_count, most_frames};
use dsp_unit::{AnyUnit, Unit};
use std::alloc::{AllocError, Global};
use std::marker::Model;
use std::sync::ledger::Ledger;

/// The units of a script.
#[derive(Drop)]
pub struct Chain<U: Unit + Drop> {
    links: Vec<Link<U>>,
    format: Fmt,
    channels: usize,
    capacity: usize,
    room: usize,
    frames: u64,
    ended: bool,
    failed: Option<GatherFull>,
}

impl<U: Unit + Drop> Model for Chain<U> {
    ghost use Rattle.dsp_chain.specs.Chain.{ChainState, HasRoom};

    ghost Value = { ChainState };

    ghost view = { λ c.
        record {
          input = record { format = c.format; channels = c.channels; capacity = c.capacity };
          units = c.links.items;
          frames = c.frames;
          ended = c.ended;
          failed = c.failed;
        } };

    ghost invariant = { λ c. HasRoom c.room
        (record {
          input = record { format = c.format; channels = c.channels; capacity = c.capacity };
          units = c.links.items;
          frames = c.frames;
          ended = c.ended;
          failed = c.failed;
        }) };
}

impl<U: AnyUnit + Drop> Chain<U> {
    ghost use Rattle.std.specs.Prelude.{◌≡◌, ◌≤◌, ◌<◌, ◌+◌, ◌↔◌, List, true, false, IsTrue, IsFalse};
    ghost use Rattle.std.specs.Prelude.{IfOk, IfErr, IfSome, IsErr, None, Some, length, take, slice_get};
    ghost use Rattle.std.specs.Option.{option_map};
    ghost use Rattle.dsp_defs.specs.Shape.{frames_behind, gathered, held, live_frames, whole_frames};
    ghost use Rattle.dsp_defs.specs.Shape.{window_at, is_legal};
    ghost use Rattle.dsp_defs.specs.Grammar.{IsChain, correlates, input_flow};
    ghost use Rattle.dsp_defs.specs.declared.fault.GatherFull.{GatherFull};
    ghost use Rattle.dsp_defs.specs.declared.fault.WindowFault.{WindowFault};
    ghost use Rattle.dsp_unit.specs.Line.{Passes, place_room, blocks_of, measured_by};
    ghost use Rattle.dsp_unit.specs.Unit.{frames_in};
    ghost use Rattle.dsp_chain.specs.Restored.{kept_of, FitsChain, RestoresChain};
    ghost use Rattle.dsp_chain.specs.Line.{given_by, measure_counts};
    ghost use Rattle.dsp_defs.specs.Block.{Frame};
    ghost use Rattle.dsp_defs.specs.Kept.{kept_of_chain, kept_count_of_chain};
    ghost use Rattle.dsp_chain.specs.Chain.{ChainState, ChainStandsFor, output_of, IsTooMuch, FeedsChain};
    ghost use Rattle.dsp_chain.specs.Chain.{FailsChain, FinishesChain, input_place, IsNewChain};
    ghost use Rattle.dsp_defs.specs.declared.limits.TheConstants.{MAX_BLOCKS, MAX_CHANNELS, MAX_CORRELATES};

    /// The chain of a script, for a legal block length, the most frames of a call. All memory of the
    /// chain is taken here, and it errs only where memory is wanting.
    pub fn new(alloc: Global, script: &Script, block: u64) -> Result<Self, AllocError>
        requires chain { IsChain (input_flow script.now.input) script.now.blocks }
        requires channels { 1 ≤ script.now.input.channels }
        requires few_channels { script.now.input.channels ≤ MAX_CHANNELS }
        requires few_blocks { length script.now.blocks ≤ MAX_BLOCKS }
        requires one_correlate { correlates script.now.blocks ≤ MAX_CORRELATES }
        requires legal { IsTrue (is_legal script.now.input.channels script.now.blocks block) }
        ensures { IfOk result (IsNewChain false (input_place script.now block) script.now.blocks) }
    {
        Self::made(alloc, script, block, false)
    }

    /// The same with the biquads of the script as banks, which work on all channels of a frame at once.
    pub fn banked(alloc: Global, script: &Script, block: u64) -> Result<Self, AllocError>
        requires chain { IsChain (input_flow script.now.input) script.now.blocks }
        requires channels { 1 ≤ script.now.input.channels }
        requires few_channels { script.now.input.channels ≤ MAX_CHANNELS }
        requires few_blocks { length script.now.blocks ≤ MAX_BLOCKS }
        requires one_correlate { correlates script.now.blocks ≤ MAX_CORRELATES }
        requires legal { IsTrue (is_legal script.now.input.channels script.now.blocks block) }
        ensures { IfOk result (IsNewChain true (input_place script.now block) script.now.blocks) }
    {
        Self::made(alloc, script, block, true)
    }

    /// The chain of a script, banked or not.
    fn made(alloc: Global, script: &Script, block: u64, banked: bool) -> Result<Self, AllocError>
        requires chain { IsChain (input_flow script.now.input) script.now.blocks }
        requires channels { 1 ≤ script.now.input.channels }
        requires few_channels { script.now.input.channels ≤ MAX_CHANNELS }
        requires few_blocks { length script.now.blocks ≤ MAX_BLOCKS }
        requires one_correlate { correlates script.now.blocks ≤ MAX_CORRELATES }
        requires legal { IsTrue (is_legal script.now.input.channels script.now.blocks block) }
        ensures { IfOk result (IsNewChain banked (input_place script.now block) script.now.blocks) }
    {
        let Input {
            format,
            channels,
            ..
        } = script.input;
        let capacity = block as usize;
        let mut frames = capacity;
        let mut flow = Flow { format, channels };
        let blocks = script.blocks.as_slice();
        let mut links = Vec::with_capacity(alloc, blocks.len())?;
        for block in blocks {
            let unit = U::of_block(alloc, block, flow.format, flow.channels, frames, banked)?;
            let rule = FrameRule::of(block);
            let kept = KeptRule::of_block(block, flow.channels, unit.kept_count() as u64);
            flow = flow.after(block);
            frames = most_frames(block, frames);
            let room = frames * usize::from(flow.channels);
            links.push(Link::new(alloc, unit, rule, kept, room)?)?;
        }
        Ok(Chain {
            links,
            format,
            channels: usize::from(channels),
            capacity,
            room: frames * usize::from(flow.channels),
            frames: 0,
            ended: false,
            failed: None,
        })
    }

    /// Writes the next live frames, and answers the number of their samples, or `None` where they are the
    /// frames that it takes, which it does not write. It refuses where the correlation would gather more than
    /// `MAX_GATHERED` samples of a channel, and then answers the same fault from then on.
    pub fn feed<L: Ledger>(
        &mut self,
        frames: &[i32],
        out: &mut [i32],
        steps: &mut Steps<L>,
    ) -> Result<Option<usize>, GatherFull>
        requires running { IsFalse self.old.ended }
        requires passes { Passes self.old.input frames.now }
        requires room { place_room (output_of self.old) ≤ length out.old }
        requires count { self.old.frames + length (frames_in self.old.input.channels frames.now) ≤ MAX_INPUT }
        ensures within { IfOk result (λ given. IfSome given (λ count. count ≤ length out.old)) }
        ensures fed { IfOk result (λ given. FeedsChain self.old self.new frames.now
            (given_by given frames.now out.new) steps.old steps.new) }
        ensures full { IsErr result ↔ IsTooMuch self.old
            (length (frames_in self.old.input.channels frames.now)) }
        ensures numbers { self.old.failed ≡ None
            → IfErr result (λ fault. (fault.held ≡ held (blocks_of self.old.units) self.old.frames)
            × (fault.held + fault.more ≡ gathered (blocks_of self.old.units)
            (self.old.frames + length (frames_in self.old.input.channels frames.now)))) }
        ensures refused { IfErr result (λ fault. FailsChain self.old self.new fault steps.old steps.new) }
        ensures untouched { IfErr result (λ _. out.new ≡ out.old) }
    {
        if let Some(fault) = self.failed {
            return Err(fault);
        }
        let fed = self.frames + frame_count(frames.len(), self.channels) as u64;
        if let Some(fault) = gather_fault(&self.links, self.frames, fed) {
            self.failed = Some(fault);
            return Err(fault);
        }
        self.frames = fed;
        Ok(feed_line(self.links.as_mut_slice(), frames, out, steps))
    }

    /// How many frames were fed.
    pub fn frames(&self) -> u64
        ensures { result ≡ self.now.frames }
    {
        self.frames
    }

    /// Whether its tail was begun.
    pub fn has_ended(&self) -> bool
        ensures { result ≡ self.now.ended }
    {
        self.ended
    }

    /// The fault that it answers from now on, if it has answered one.
    pub fn fault(&self) -> Option<GatherFull>
        ensures { result ≡ self.now.failed }
    {
        self.failed
    }

    /// The samples of `out` that one call needs at most.
    pub fn room(&self) -> usize
        ensures { result ≡ place_room (output_of self.now) }
    {
        self.room
    }

    /// The first partial convolution whose window ends past the full one, where the frames fed so
    /// far and `more` frames are the whole input.
    pub fn window_fault(&self, more: u64) -> Option<WindowFault>
        requires { self.now.frames + more ≤ MAX_INPUT }
        ensures { option_map (λ (fault : WindowFault). (fault.end, fault.length)) result
            ≡ window_at (blocks_of self.now.units) (self.now.frames + more) }
    {
        window_fault(&self.links, self.frames + more)
    }

    /// How many frames the tail has, where the frames fed so far are the whole input.
    pub fn tail_frames(&self) -> u64
        requires { self.now.frames ≤ MAX_INPUT }
        ensures { frames_behind live_frames (blocks_of self.now.units) self.now.frames + result
            ≡ frames_behind whole_frames (blocks_of self.now.units) self.now.frames }
    {
        tail_frames(&self.links, self.frames)
    }

    /// Writes the next frames of the tail, and answers the number of their samples: 0 where it is spent
    /// or the chain has failed.
    pub fn finish<L: Ledger>(&mut self, out: &mut [i32], steps: &mut Steps<L>) -> usize
        requires room { place_room (output_of self.old) ≤ length out.old }
        ensures within { result ≤ length out.old }
        ensures finished { FinishesChain self.old self.new (take result out.new) steps.old steps.new }
    {
        self.ended = true;
        if self.failed.is_some() {
            return 0;
        }
        finish_line(self.links.as_mut_slice(), out, steps)
    }

    /// How many measures the chain has: in the order of the script, then by channel.
    pub fn measures(&self) -> usize
        ensures count { result ≡ length (measured_by 1 self.now.units) }
        ensures stays { result ≡ measure_counts self.now.input.channels (blocks_of self.now.units) }
    {
        count_measures(&self.links)
    }

    /// The measure at this index, of what its block has taken: of the whole signal there once the tail is spent.
    pub fn measure(&self, index: usize) -> Measure
        requires { index < length (measured_by 1 self.now.units) }
        ensures { slice_get (measured_by 1 self.now.units) index ≡ Some result }
    {
        match find_measure(&self.links, 1, index) {
            Some(measure) => measure,
            None => unreachable!(),
        }
    }

    /// How many numbers the chain keeps: those of its blocks, one after another, and in a block those of
    /// its channels or measures.
    pub fn kept_count(&self) -> usize
        ensures count { result ≡ length (kept_of self.now) }
        ensures frames { IsFalse self.now.ended → result ≡ kept_count_of_chain self.now.input.format
            self.now.input.channels (blocks_of self.now.units) self.now.frames }
    {
        count_kept(&self.links)
    }

    /// Writes the numbers that the chain keeps.
    pub fn keep(&self, out: &mut [i64])
        requires running { IsFalse self.now.ended }
        requires works { self.now.failed ≡ None }
        requires length { length out.old ≡ length (kept_of self.now) }
        ensures kept { out.new ≡ kept_of self.now }
        ensures stands { (x : List Frame) → ChainStandsFor self.now x → out.new ≡ kept_of_chain
            self.now.input.format self.now.input.channels (blocks_of self.now.units) x }
    {
        keep_line(&self.links, out);
    }

    /// How many numbers a chain of these blocks keeps of so many frames.
    pub fn kept_count_of(&self, frames: u64) -> u128
        requires { frames ≤ MAX_INPUT }
        ensures { result ≡ kept_count_of_chain self.now.input.format self.now.input.channels
            (blocks_of self.now.units) frames }
    {
        count_line(&self.links, frames)
    }

    /// The samples of a channel that the correlation would gather where so many frames are the whole
    /// input, or 0 without one.
    pub fn gathered(&self, frames: u64) -> u64
        requires { frames ≤ MAX_INPUT }
        ensures { result ≡ gathered (blocks_of self.now.units) frames }
    {
        gathered(&self.links, Signal::Whole, frames)
    }

    /// Whether a chain of these blocks can keep these numbers of so many frames: at most 2^40, whose
    /// correlation gathers no more than it may, and each count, length, phase and flag is theirs.
    pub fn fits(&self, frames: u64, numbers: &[i64]) -> bool
        ensures { IsTrue result ↔ FitsChain self.now frames numbers.now }
    {
        if frames > MAX_INPUT {
            return false;
        }
        if gathered(&self.links, Signal::Whole, frames) > MAX_GATHERED as u64 {
            return false;
        }
        fits_line(&self.links, frames, numbers)
    }

    /// Gives a new chain these numbers, and counts so many frames as fed: it goes on as one that was fed
    /// with frames that left it with these numbers.
    pub fn restore(&mut self, frames: u64, numbers: &[i64])
        requires fresh { self.old.frames ≡ 0 }
        requires running { IsFalse self.old.ended }
        requires works { self.old.failed ≡ None }
        requires fits { FitsChain self.old frames numbers.now }
        ensures { RestoresChain self.old self.new frames numbers.now }
    {
        restore_line(self.links.as_mut_slice(), frames, numbers);
        self.frames = frames;
    }
}
