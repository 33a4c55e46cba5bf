use crate::extent::{Extent, as_place};
use crate::making::{reversed, taps_of, zeros};
use dsp_defs::{Block, Steps};
use dsp_filter::{Filter, samples_of};
use dsp_lanes::{FormatLanes, LaneSample, Lanes};
use dsp_window::Window;
use std::alloc::{AllocError, Global};
use std::marker::{Model, PhantomData};
use std::sync::ledger::Ledger;

/// The convolution of one channel with a list of taps as a stream: of the values that are wanted each
/// comes with its sample, and the others in a tail. `L` is the number of lanes; `K` only tells apart
/// how it was made: `()` where it was of a block.
#[derive(Drop)]
pub struct Convolution<T: LaneSample<L>, const L: usize, K: Copy> {
    extent: Extent,
    reversed: Vec<T>,
    zeros: Vec<T>,
    window: Window<T>,
    block: usize,
    place: u64,
    skip: usize,
    left: usize,
    ended: bool,
    kind: PhantomData<K>,
}

impl<T: LaneSample<L>, const L: usize, K: Copy> Model for Convolution<T, L, K> {
    ghost use Rattle.std.specs.Prelude.{drop, map, reverse, vec_len};
    ghost use Rattle.dsp_defs.specs.Streaming.{rows};
    ghost use Rattle.dsp_window.specs.Rolling.{last_samples};
    ghost use Rattle.dsp_conv.specs.Extent.{greatest_place};
    ghost use Rattle.dsp_conv.specs.ConvState.{ConvState, IsSound};

    ghost Value = { ConvState };

    ghost view = { λ c. record {
      extent = c.extent;
      taps = reverse (map T.number c.reversed.items);
      past = last_samples c.window.past c.window.samples;
      place = c.place;
      tail = rows T.format (map T.number c.reversed.items)
          (drop c.skip (last_samples c.window.past c.window.samples)) c.left;
      block = c.block;
      ended = c.ended;
    } };

    ghost invariant = { λ c.
        IsSound (vec_len c.reversed) c.block c.window
        (map T.number c.zeros.items) c.skip c.left c.place (greatest_place c.extent) };
}

impl<T: LaneSample<L>, const L: usize, K: Copy> Convolution<T, L, K> {
    ghost use Rattle.std.specs.Prelude.{◌≡◌, ◌≤◌, ◌<◌, ◌+◌, ◌*◌, ◌++◌, ℕ, List, [], ℤ, true, min, length};
    ghost use Rattle.std.specs.Prelude.{map, take, drop, IfOk, IsFalse, IsTrue, ◌↔◌};
    ghost use Rattle.dsp_defs.specs.Streaming.{Continues};
    ghost use Rattle.dsp_defs.specs.declared.limits.TheConstants.{MAX_TAPS, MAX_SAMPLES};
    ghost use Rattle.dsp_lanes.specs.Turns.{lane_turns};
    ghost use Rattle.dsp_conv.specs.Extent.{given_in, place_in, zeros_behind};
    ghost use Rattle.dsp_conv.specs.ConvState.{StandsFor, CountsFor, Fits, kept, kept_of, live_count};
    ghost use Rattle.dsp_conv.specs.ConvState.{conv_channel, live_of, new_conv, tail_behind, TakesIn};
    ghost use Rattle.dsp_defs.specs.Kept.{FitsChannel};

    /// A convolution that has taken nothing. All its memory is taken here.
    pub(crate) fn of_taps(
        alloc: Global,
        extent: Extent,
        taps: &[T],
        block: usize,
    ) -> Result<Self, AllocError>
        requires some { 1 ≤ length taps.now }
        requires few { length taps.now ≤ MAX_TAPS }
        requires block { 1 ≤ block }
        requires most { block ≤ MAX_SAMPLES }
        ensures made { IfOk result (λ c. c ≡ new_conv extent (map T.number taps.now) block) }
        ensures stands { IfOk result (λ c. StandsFor T.format c []) }
    {
        let past = taps.len() - 1;
        let window = Window::new(alloc, past, block.max(past))?;
        let zeros = zeros(alloc, past)?;
        let reversed = reversed(alloc, taps)?;
        Ok(Convolution {
            extent,
            reversed,
            zeros,
            window,
            block,
            place: 0,
            skip: 0,
            left: 0,
            ended: false,
            kind: PhantomData,
        })
    }

    /// How many values a block of `n` samples gives at most.
    pub fn room(&self, n: usize) -> usize
        requires { n ≤ self.now.block }
        ensures { result ≡ n }
    {
        n
    }

    /// Writes the values of the next block to the front of the output, and answers their number: of the
    /// values that are wanted those with an index of a sample of the block. The rest of the output stays.
    pub fn process<M: Ledger>(
        &mut self,
        input: &[T],
        output: &mut [T],
        steps: &mut Steps<M>,
    ) -> usize
        requires running { IsFalse self.old.ended }
        requires block { length input.now ≤ self.old.block }
        requires room { length input.now ≤ length output.old }
        ensures within { result ≤ length input.now }
        ensures count { (n : ℕ) → CountsFor self.old n → live_count self.old (n + length input.now)
            ≡ live_count self.old n + result }
        ensures values { (x : List ℤ) → StandsFor T.format self.old x
            → Continues (live_of T.format self.old) x (map T.number input.now)
            (map T.number (take result output.new)) }
        ensures stands { (x : List ℤ) → StandsFor T.format self.old x
            → StandsFor T.format self.new (x ++ map T.number input.now) }
        ensures counts { (n : ℕ) → CountsFor self.old n → CountsFor self.new (n + length input.now) }
        ensures same { self.new ≡ record self.old {
          past = self.new.past;
          place = self.new.place;
          tail = self.new.tail;
        } }
        ensures kept { length self.new.past ≡ length self.old.past }
        ensures rest { drop result output.new ≡ drop result output.old }
        ensures multiplies { steps.new.multiplies ≡ steps.old.multiplies + result * length self.old.taps }
        ensures turns { steps.new.turns ≤ steps.old.turns + length self.old.taps * lane_turns L result }
    {
        let given = self.extent.given(self.place, input.len());
        let count = given.end - given.start;
        if count == 0 {
            self.pass_over(input);
            return 0;
        }
        self.window.push_block(input);
        let window = &self.window.slice()[given.start..given.end + self.zeros.len()];
        Lanes::<T, L>::rows(&self.reversed, window, &mut output[..count], steps);
        self.place = self.extent.place_after(self.place, input.len());
        self.owe();
        count
    }

    /// Takes a block of which no value is given: of its samples only the last go into the window.
    fn pass_over(&mut self, input: &[T])
        requires block { length input.now ≤ self.old.block }
        requires none { given_in self.old.extent self.old.place (length input.now) ≡ 0 }
        ensures { TakesIn T.format self.old self.new (map T.number input.now) [] (length input.now) 0 }
    {
        let from = input.len().saturating_sub(self.zeros.len());
        self.window.push_block(&input[from..]);
        self.place = self.extent.place_after(self.place, input.len());
        self.owe();
    }

    /// How many zeros behind the last sample make values.
    fn zeros_behind(&self) -> usize
        ensures value { result ≡ zeros_behind self.now.place (length self.now.taps) }
        ensures few { result ≤ length self.now.past }
    {
        match self.place {
            0 => 0,
            _ => self.zeros.len(),
        }
    }

    /// The tail becomes what the last samples leave to be given.
    fn owe(&mut self)
        ensures { self.new
            ≡ record self.old {
              tail = tail_behind T.format self.old.extent self.old.taps
                  self.old.past self.old.place;
            } }
    {
        let given = self.extent.given(self.place, self.zeros_behind());
        self.skip = given.start;
        self.left = given.end - given.start;
    }

    /// Ends the signal: writes the next values of the tail to the front of the output, as many as fit
    /// in it, and answers their number. The rest of the output stays. The answer for an output that
    /// is not empty is 0 exactly where the tail is spent.
    pub fn finish<M: Ledger>(&mut self, output: &mut [T], steps: &mut Steps<M>) -> usize
        ensures given { result ≡ min (length self.old.tail) (length output.old) }
        ensures tail { self.old.tail ≡ map T.number (take result output.new) ++ self.new.tail }
        ensures ended { IsTrue self.new.ended }
        ensures kept { length self.new.past ≡ length self.old.past }
        ensures same { self.new ≡ record self.old {
          past = self.new.past;
          tail = self.new.tail;
          ended = true;
        } }
        ensures spent { 0 < length output.old → (result ≡ 0 ↔ self.old.tail ≡ []) }
        ensures rest { drop result output.new ≡ drop result output.old }
        ensures multiplies { steps.new.multiplies ≡ steps.old.multiplies + result * length self.old.taps }
        ensures turns { steps.new.turns ≤ steps.old.turns + length self.old.taps * lane_turns L result }
    {
        self.window.push_block(&self.zeros[..self.skip]);
        self.skip = 0;
        let count = self.left.min(output.len());
        self.window.push_block(&self.zeros[..count]);
        let output = &mut output[..count];
        Lanes::<T, L>::rows(&self.reversed, self.window.slice(), output, steps);
        self.left -= count;
        self.ended = true;
        count
    }

    /// Whether `finish` was called.
    pub fn is_ended(&self) -> bool
        ensures { result ≡ self.now.ended }
    {
        self.ended
    }

    /// How many numbers the convolution keeps from block to block: T-1 samples, and its place.
    pub fn kept_count(&self) -> usize
        ensures count { result ≡ length (kept self.now) }
        ensures few { result ≤ MAX_TAPS }
    {
        self.reversed.len()
    }

    /// Writes the kept numbers, the oldest sample first, and the place last.
    pub fn keep(&self, out: &mut [i64])
        requires running { IsFalse self.now.ended }
        requires length { length out.old ≡ length (kept self.now) }
        ensures { out.new ≡ kept self.now }
    {
        let last = out.len() - 1;
        self.window.keep(&mut out[..last]);
        out[last] = self.place as i64;
    }

    /// Whether these can be the kept numbers of a convolution: as many, each sample in the range of the
    /// format, and a place last.
    pub fn fits(&self, numbers: &[i64]) -> bool
        ensures { IsTrue result ↔ Fits T.format self.now numbers.now }
    {
        let last = self.zeros.len();
        if numbers.len() != last + 1 {
            return false;
        }
        let place = numbers[last];
        if place < 0 || self.extent.greatest_place() < as_place(place) {
            return false;
        }
        self.window.fits(&numbers[..last])
    }

    /// Keeps these numbers from now on, and no others.
    pub fn restore(&mut self, numbers: &[i64])
        requires running { IsFalse self.old.ended }
        requires fits { Fits T.format self.old numbers.now }
        ensures kept { kept self.new ≡ numbers.now }
        ensures count { length self.new.past ≡ length self.old.past }
        ensures tail { self.new.tail
            ≡ tail_behind T.format self.old.extent self.old.taps self.new.past self.new.place }
        ensures stands { (x : List ℤ) → numbers.now
            ≡ kept_of T.format self.old.extent self.old.taps x → StandsFor T.format self.new x }
        ensures counts { (n : ℕ) → self.new.place ≡ place_in self.old.extent n → CountsFor self.new n }
        ensures same { self.new ≡ record self.old {
          past = self.new.past;
          place = self.new.place;
          tail = self.new.tail;
        } }
    {
        let last = numbers.len() - 1;
        self.window.restore(&numbers[..last]);
        self.place = as_place(numbers[last]);
        self.owe();
    }

    /// Does nothing at run time: a proof learns that numbers which a filter can keep fit.
    fn fits_if_kept(&self, numbers: &[i64])
        requires { (n : ℕ) × FitsChannel T.format (conv_channel T.format self.now).block n numbers.now }
        ensures { Fits T.format self.now numbers.now }
    {
        let _ = &self.block;
    }
}

impl<T: FormatLanes<L>, const L: usize, K: Copy> Filter<T> for Convolution<T, L, K> {
    ghost use Rattle.dsp_conv.specs.ConvState.{conv_channel};
    ghost use Rattle.dsp_conv.specs.ByChannel.{IsConvIn};
    ghost use Rattle.dsp_conv.specs.Laws.{conv-by-channel, conv-groups};

    ghost filter = { conv_channel T.format };

    ghost IsOf = { IsConvIn T.format };

    ghost by_channel = { conv-by-channel T.format };

    ghost groups = { conv-groups T.format };

    #[tactic(auto, using(crate::proofs::FilterCalls::tap_counts))]
    fn of_block(alloc: Global, block: &Block, capacity: usize) -> Result<Self, AllocError> {
        let taps = samples_of::<T>(alloc, taps_of(block))?;
        Convolution::of_taps(alloc, Extent::of_block(block), &taps, capacity)
    }

    fn process<M: Ledger>(&mut self, input: &[T], output: &mut [T], steps: &mut Steps<M>) -> usize {
        // The proof has the length of the past from the invariant.
        let _ = &self.block;
        Convolution::process(self, input, output, steps)
    }

    fn finish<M: Ledger>(&mut self, output: &mut [T], steps: &mut Steps<M>) -> usize {
        let block = self.block;
        Convolution::finish(self, &mut output[..block], steps)
    }

    fn kept_count(&self) -> usize {
        Convolution::kept_count(self)
    }

    fn keep(&self, out: &mut [i64]) {
        Convolution::keep(self, out);
    }

    fn place(&self, numbers: &[i64]) -> Option<u64> {
        let _ = &self.block;
        if self.fits(numbers) {
            Some(as_place(numbers[numbers.len() - 1]))
        } else {
            None
        }
    }

    fn restore(&mut self, numbers: &[i64]) {
        let _ = &self.block;
        self.fits_if_kept(numbers);
        Convolution::restore(self, numbers);
    }
}
