use crate::making::delays_of;
use crate::window_rows::{Delays, past_of, window_rows};
use dsp_defs::{Block, MAX_SAMPLES, Steps};
use dsp_filter::{Filter, samples_of};
use dsp_lanes::{FormatLanes, LaneSample};
use dsp_window::Window;
use std::alloc::{AllocError, Global};
use std::marker::{Model, PhantomData};
use std::sync::ledger::Ledger;

/// A filter on one channel that gives one value for each sample, by taps on that and on the last samples
/// before it: a sparse filter where it has delays, else a FIR filter. `L` is the number of lanes; `K`
/// only tells apart how it was made: `()` where it was of a block.
#[derive(Drop)]
pub struct WindowFilter<T: LaneSample<L>, const L: usize, K: Copy> {
    taps: Vec<T>,
    delays: Option<Delays>,
    past: usize,
    window: Window<T>,
    ended: bool,
    kind: PhantomData<K>,
}

impl<T: LaneSample<L>, const L: usize, K: Copy> Model for WindowFilter<T, L, K> {
    ghost use Rattle.std.specs.Prelude.{◌≡◌, ◌≤◌, length, map, IfSome};
    ghost use Rattle.dsp_window.specs.Rolling.{last_samples};
    ghost use Rattle.dsp_fir.specs.ByChannel.{IsWindowIn};
    ghost use Rattle.dsp_fir.specs.WindowState.{WindowState, block_of, past_count};

    ghost Value = { WindowState };

    ghost view = { λ f. record {
      block = block_of (map T.number f.taps.items) f.delays;
      past = last_samples f.window.past f.window.samples;
      capacity = f.window.room;
      ended = f.ended;
    } };

    ghost invariant = { λ f. IsWindowIn T.format (block_of (map T.number f.taps.items) f.delays)
        × (f.past ≡ past_count (block_of (map T.number f.taps.items) f.delays))
        × (f.window.past ≡ f.past) × (f.window.past ≤ length f.window.samples)
        × IfSome f.delays (λ d. d.room ≡ f.window.room) };
}

impl<T: LaneSample<L>, const L: usize, K: Copy> WindowFilter<T, L, K> {
    ghost use Rattle.std.specs.Prelude.{◌≡◌, ◌≤◌, ◌+◌, ◌*◌, ◌++◌, ℕ, List, [], ℤ, true, length, map, take, drop};
    ghost use Rattle.std.specs.Prelude.{IfOk, IfSome, IsFalse, IsTrue, ◌↔◌, All, FitsSigned};
    ghost use Rattle.dsp_defs.specs.Formats.{word};
    ghost use Rattle.dsp_defs.specs.Kept.{FitsChannel};
    ghost use Rattle.dsp_defs.specs.Streaming.{Continues};
    ghost use Rattle.dsp_lanes.specs.Turns.{lane_turns};
    ghost use Rattle.dsp_unit.specs.Filter.{IsNewFilter, of_channel};
    ghost use Rattle.dsp_fir.specs.ByChannel.{IsWindowIn};
    ghost use Rattle.dsp_fir.specs.WindowState.{StandsFor, block_of, channel_state, new_filter, past_count};
    ghost use Rattle.dsp_fir.specs.WindowState.{tap_count};

    /// A filter that has taken nothing, of taps, and of their delays if it has any. All its memory is
    /// taken here.
    pub(crate) fn of_taps(
        alloc: Global,
        taps: Vec<T>,
        delays: Option<Delays>,
        capacity: usize,
    ) -> Result<Self, AllocError>
        requires block { IsWindowIn T.format (block_of (map T.number taps.items) delays) }
        requires capacity { capacity ≤ MAX_SAMPLES }
        requires room { IfSome delays (λ d. d.room ≡ capacity) }
        ensures made { IfOk result (λ f.
            f ≡ new_filter (block_of (map T.number taps.items) delays)
            (past_count (block_of (map T.number taps.items) delays)) capacity) }
        ensures stands { IfOk result (λ f. StandsFor T.format f []) }
        ensures fresh { IfOk result (λ f.
            IsNewFilter (block_of (map T.number taps.items) delays) T.format capacity
            (channel_state T.format f)) }
    {
        let past = past_of(&taps, &delays);
        let window = Window::new(alloc, past, capacity)?;
        Ok(WindowFilter {
            taps,
            delays,
            past,
            window,
            ended: false,
            kind: PhantomData,
        })
    }

    /// How many samples a block of `n` samples gives at most.
    pub fn room(&self, n: usize) -> usize
        requires { n ≤ self.now.capacity }
        ensures { result ≡ n }
    {
        n
    }

    /// Writes the values of the next block to the front of the output, and answers their number. The
    /// rest of the output stays.
    pub fn process<M: Ledger>(
        &mut self,
        input: &[T],
        output: &mut [T],
        steps: &mut Steps<M>,
    ) -> usize
        requires running { IsFalse self.old.ended }
        requires block { length input.now ≤ self.old.capacity }
        requires room { length input.now ≤ length output.old }
        ensures given { result ≡ length input.now }
        ensures values { (x : List ℤ) → StandsFor T.format self.old x
            → Continues (of_channel T.format self.old.block) x (map T.number input.now)
            (map T.number (take result output.new)) }
        ensures stands { (x : List ℤ) → StandsFor T.format self.old x
            → StandsFor T.format self.new (x ++ map T.number input.now) }
        ensures same { self.new ≡ record self.old { past = self.new.past } }
        ensures kept { length self.new.past ≡ length self.old.past }
        ensures running { IsFalse self.new.ended }
        ensures rest { drop result output.new ≡ drop result output.old }
        ensures multiplies { steps.new.multiplies
            ≡ steps.old.multiplies + length input.now * tap_count self.old.block }
        ensures turns { steps.new.turns ≤ steps.old.turns + tap_count self.old.block * lane_turns L
            (length input.now) }
    {
        let count = input.len();
        self.window.push_block(input);
        let window = self.window.slice();
        let output = &mut output[..count];
        window_rows::<T, L, M>(&self.taps, &mut self.delays, window, output, steps);
        count
    }

    /// Ends the signal. This filter has no tail, so the answer is 0.
    pub fn finish<M: Ledger>(&mut self, output: &mut [T], steps: &mut Steps<M>) -> usize
        ensures given { result ≡ 0 }
        ensures ended { self.new ≡ record self.old { ended = true } }
        ensures output { output.new ≡ output.old }
        ensures steps { steps.new ≡ steps.old }
    {
        self.ended = true;
        0
    }

    /// Whether `finish` was called.
    pub fn is_ended(&self) -> bool
        ensures { result ≡ self.now.ended }
    {
        self.ended
    }

    /// How many numbers the filter keeps from block to block: as many as it reads samples of the past.
    pub fn kept_count(&self) -> usize
        ensures { result ≡ length self.now.past }
    {
        self.past
    }

    /// Writes the kept numbers, the oldest first.
    pub fn keep(&self, out: &mut [i64])
        requires running { IsFalse self.now.ended }
        requires length { length out.old ≡ length self.now.past }
        ensures { out.new ≡ self.now.past }
    {
        self.window.keep(out);
    }

    /// Whether these can be the kept numbers of a filter: as many, and each in the range of the format.
    pub fn fits(&self, numbers: &[i64]) -> bool
        ensures { IsTrue result ↔ (length numbers.now ≡ length self.now.past)
            × All (FitsSigned (word T.format)) numbers.now }
    {
        self.window.fits(numbers)
    }

    /// Keeps these numbers from now on, and no others.
    pub fn restore(&mut self, numbers: &[i64])
        requires running { IsFalse self.old.ended }
        requires length { length numbers.now ≡ length self.old.past }
        requires samples { All (FitsSigned (word T.format)) numbers.now }
        ensures { self.new ≡ record self.old { past = numbers.now } }
    {
        self.window.restore(numbers);
    }

    /// Does nothing at run time: a proof learns that numbers which a filter can keep fit.
    fn fits_if_kept(&self, numbers: &[i64])
        requires { (n : ℕ) × FitsChannel T.format self.now.block n numbers.now }
        ensures count { length numbers.now ≡ length self.now.past }
        ensures samples { All (FitsSigned (word T.format)) numbers.now }
    {
        let _taps = &self.taps;
    }
}

impl<T: FormatLanes<L>, const L: usize, K: Copy> Filter<T> for WindowFilter<T, L, K> {
    ghost use Rattle.dsp_fir.specs.ByChannel.{IsWindowIn};
    ghost use Rattle.dsp_fir.specs.Laws.{windowed};
    ghost use Rattle.dsp_fir.specs.WindowState.{channel_state};

    ghost filter = { channel_state T.format };

    ghost IsOf = { IsWindowIn T.format };

    ghost by_channel = { λ block is. (windowed T.format block is).samples.by_channel };

    ghost groups = { λ block is. (windowed T.format block is).no_group };

    fn of_block(alloc: Global, block: &Block, capacity: usize) -> Result<Self, AllocError> {
        match block {
            Block::Fir { taps } => {
                let taps = samples_of::<T>(alloc, taps.as_slice())?;
                WindowFilter::of_taps(alloc, taps, None, capacity)
            }
            Block::Sparse { taps, delays } => {
                let taps = samples_of::<T>(alloc, taps.as_slice())?;
                let delays = delays_of(alloc, delays.as_slice())?;
                let delays = Delays::new(alloc, delays, capacity)?;
                WindowFilter::of_taps(alloc, taps, Some(delays), capacity)
            }
            _ => unreachable!(),
        }
    }

    fn process<M: Ledger>(&mut self, input: &[T], output: &mut [T], steps: &mut Steps<M>) -> usize {
        // The proof has what block it is of from the invariant.
        let _taps = &self.taps;
        WindowFilter::process(self, input, output, steps)
    }

    fn finish<M: Ledger>(&mut self, output: &mut [T], steps: &mut Steps<M>) -> usize {
        let _taps = &self.taps;
        WindowFilter::finish(self, output, steps)
    }

    fn kept_count(&self) -> usize {
        self.past
    }

    fn keep(&self, out: &mut [i64]) {
        WindowFilter::keep(self, out);
    }

    fn place(&self, numbers: &[i64]) -> Option<u64> {
        if self.window.fits(numbers) {
            Some(0)
        } else {
            None
        }
    }

    fn restore(&mut self, numbers: &[i64]) {
        let _taps = &self.taps;
        self.fits_if_kept(numbers);
        WindowFilter::restore(self, numbers);
    }
}
