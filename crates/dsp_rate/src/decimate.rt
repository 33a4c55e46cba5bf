use dsp_defs::{Block, MAX_TAPS, MakeFault, Steps};
use dsp_filter::{Filter, check_block, check_taps, samples_of};
use dsp_lanes::{FormatLanes, LaneSample, Lanes};
use dsp_sat::WideSample;
use dsp_window::Window;
use std::alloc::{AllocError, Global};
use std::marker::Model;
use std::sync::ledger::Ledger;

/// A decimator on one channel (`arm_fir_decimate_q15`, `arm_fir_decimate_q31`): of each group of
/// `factor` samples it gives the filtered value at the group's first sample, once the group is whole.
/// `L` is the number of lanes.
#[derive(Drop)]
pub struct Decimate<T: LaneSample<L> + WideSample, const L: usize> {
    factor: usize,
    taps: Vec<T>,
    window: Window<T>,
    phase: usize,
    ended: bool,
}

impl<T: LaneSample<L> + WideSample, const L: usize> Model for Decimate<T, L> {
    ghost use Rattle.std.specs.Prelude.{◌≡◌, ◌≤◌, ◌<◌, ◌+◌, length, map, vec_len};
    ghost use Rattle.dsp_window.specs.Rolling.{last_samples};
    ghost use Rattle.dsp_defs.specs.declared.limits.TheConstants.{MAX_SAMPLES, MAX_TAPS};
    ghost use Rattle.dsp_rate.specs.DecimateState.{DecimateState};

    ghost Value = { DecimateState };

    ghost view = { λ d.
        record {
          factor = d.factor;
          taps = map T.number d.taps.items;
          past = last_samples d.window.past d.window.samples;
          phase = d.phase;
          block = d.window.room;
          ended = d.ended;
        } };

    ghost invariant = { λ d. (d.window.past + 2 ≡ vec_len d.taps + d.factor) × (1 ≤ vec_len d.taps)
        × (vec_len d.taps ≤ MAX_TAPS) × (d.phase < d.factor) × (d.factor ≤ 255)
        × (d.window.room ≤ MAX_SAMPLES) × (d.window.past ≤ length d.window.samples) };
}

impl<T: LaneSample<L> + WideSample, const L: usize> Decimate<T, L> {
    ghost use Rattle.std.specs.Prelude.{◌≡◌, ◌≤◌, ◌+◌, ◌*◌, ◌/◌, ◌++◌, ℕ, List, [], ℤ, true, length, map};
    ghost use Rattle.std.specs.Prelude.{take, drop, IfOk, OnOk, IfErr, IsFalse, IsTrue, ◌↔◌, MatchOption};
    ghost use Rattle.std.specs.Int.{div_ceil};
    ghost use Rattle.dsp_defs.specs.Streaming.{Continues};
    ghost use Rattle.dsp_defs.specs.Sums.{decimate};
    ghost use Rattle.dsp_lanes.specs.Turns.{lane_turns};
    ghost use Rattle.dsp_rate.specs.DecimateState.{StandsFor, CountsFor, Fits, kept, kept_of, new_decimate};
    ghost use Rattle.dsp_rate.specs.DecimateState.{decimate_channel, decimate_fault};
    ghost use Rattle.dsp_defs.specs.Kept.{FitsChannel};
    ghost use Rattle.dsp_unit.specs.Filter.{filter_room};

    /// A decimator that has taken nothing, from its factor M and the taps in time-reversed order,
    /// `b[T-1]` to `b[0]`, for blocks of at most `block` samples. `Length` where the taps are not
    /// 1..`MAX_TAPS`, then `Range` where the factor is 0, `Range` where the block is not in 1..`MAX_SAMPLES`,
    /// then `Memory`. No later call takes memory.
    pub fn new(alloc: Global, factor: u8, taps: &[T], block: usize) -> Result<Self, MakeFault>
        ensures made { IfOk result (λ d. d ≡ new_decimate factor (map T.number taps.now) block) }
        ensures stands { IfOk result (λ d. StandsFor d []) }
        ensures factor { OnOk result (1 ≤ factor) }
        ensures fault { MatchOption (decimate_fault factor (length taps.now) block)
            (IfErr result (λ e. e ≡ MakeFault.Memory)) (λ e. result ≡ Err e) }
    {
        check_taps(taps.len())?;
        if factor == 0 {
            return Err(MakeFault::Range { value: 0 });
        }
        check_block(block)?;
        let factor = usize::from(factor);
        let Ok(window) = Window::new(alloc, taps.len() + factor - 2, block) else {
            return Err(MakeFault::Memory);
        };
        let Ok(taps) = Vec::from_slice(alloc, taps) else {
            return Err(MakeFault::Memory);
        };
        Ok(Decimate {
            factor,
            taps,
            window,
            phase: 0,
            ended: false,
        })
    }

    /// How many values a block of `n` samples gives at most: one for each M, and one more that an
    /// open group may give.
    pub fn room(&self, n: usize) -> usize
        requires { n ≤ self.now.block }
        ensures exact { result ≡ n / self.now.factor + 1 }
        ensures enough { div_ceil n self.now.factor ≤ result }
    {
        n / self.factor + 1
    }

    /// Takes the next block, of any number of samples, and writes the values of the groups that it
    /// makes whole to the front of the output. Answers their number; the rest of the output stays.
    pub fn process<M: Ledger>(
        &mut self,
        input: &[T],
        output: &mut [T],
        steps: &mut Steps<M>,
    ) -> usize
        requires running { IsFalse self.old.ended }
        requires block { length input.now ≤ self.old.block }
        requires room { div_ceil (length input.now) self.old.factor ≤ length output.old }
        ensures given { result ≡ (self.old.phase + length input.now) / self.old.factor }
        ensures within { result ≤ div_ceil (length input.now) self.old.factor }
        ensures values { (x : List ℤ) → StandsFor self.old x
            → Continues (decimate T.format self.old.factor self.old.taps) x (map T.number input.now)
            (map T.number (take result output.new)) }
        ensures stands { (x : List ℤ) → StandsFor self.old x
            → StandsFor self.new (x ++ map T.number input.now) }
        ensures count { (n : ℕ) → CountsFor self.old n
            → n / self.old.factor + result ≡ (n + length input.now) / self.old.factor }
        ensures counts { (n : ℕ) → CountsFor self.old n → CountsFor self.new (n + length input.now) }
        ensures same { self.new ≡ record self.old { past = self.new.past; phase = self.new.phase } }
        ensures kept { length self.new.past ≡ length self.old.past }
        ensures rest { drop result output.new ≡ drop result output.old }
        ensures multiplies { steps.new.multiplies ≡ steps.old.multiplies + result * length self.old.taps }
        ensures turns { steps.new.turns ≤ steps.old.turns + result * lane_turns L (length self.old.taps) }
    {
        let total = self.phase + input.len();
        let count = total / self.factor;
        let first = self.factor - 1 - self.phase;
        self.window.push_block(input);
        let output = &mut output[..count];
        Lanes::<T, L>::strided_rows(
            &self.taps,
            self.window.slice(),
            first,
            self.factor,
            output,
            steps,
        );
        self.phase = total % self.factor;
        count
    }

    /// Ends the signal. An open group gives nothing, so the answer is 0.
    pub fn finish<M: Ledger>(&mut self, output: &mut [T], steps: &mut Steps<M>) -> usize
        ensures given { result ≡ 0 }
        ensures ended { self.new ≡ record self.old { ended = true } }
        ensures output { output.new ≡ output.old }
        ensures steps { steps.new ≡ steps.old }
    {
        self.ended = true;
        0
    }

    /// Whether `finish` was called.
    pub fn is_ended(&self) -> bool
        ensures { result ≡ self.now.ended }
    {
        self.ended
    }

    /// How many numbers the decimator keeps from block to block: T+M-2 samples, and the phase.
    pub fn kept_count(&self) -> usize
        ensures count { result ≡ length (kept self.now) }
        ensures few { result ≤ MAX_TAPS + 254 }
    {
        self.taps.len() + self.factor - 1
    }

    /// Writes the kept numbers, the oldest sample first and the phase last.
    pub fn keep(&self, out: &mut [i64])
        requires running { IsFalse self.now.ended }
        requires length { length out.old ≡ length (kept self.now) }
        ensures { out.new ≡ kept self.now }
    {
        let last = out.len() - 1;
        self.window.keep(&mut out[..last]);
        out[last] = self.phase as i64;
    }

    /// Whether these can be the kept numbers of a decimator: as many, each sample in the range of the
    /// format, and a phase from 0 to M-1.
    pub fn fits(&self, numbers: &[i64]) -> bool
        ensures { IsTrue result ↔ Fits T.format self.now numbers.now }
    {
        let last = self.taps.len() + self.factor - 2;
        if numbers.len() != last + 1 {
            return false;
        }
        let phase = numbers[last];
        0 <= phase && phase < self.factor as i64 && self.window.fits(&numbers[..last])
    }

    /// Keeps these numbers from now on, and no others.
    pub fn restore(&mut self, numbers: &[i64])
        requires running { IsFalse self.old.ended }
        requires fits { Fits T.format self.old numbers.now }
        ensures kept { kept self.new ≡ numbers.now }
        ensures count { length self.new.past ≡ length self.old.past }
        ensures stands { (x : List ℤ) → numbers.now
            ≡ kept_of T.format self.old.factor self.old.taps x → StandsFor self.new x }
        ensures same { self.new ≡ record self.old { past = self.new.past; phase = self.new.phase } }
    {
        let last = numbers.len() - 1;
        self.window.restore(&numbers[..last]);
        self.phase = numbers[last] as usize;
    }

    /// Does nothing at run time: a proof learns that numbers which a filter can keep fit.
    fn fits_if_kept(&self, numbers: &[i64])
        requires { (n : ℕ) × FitsChannel T.format (decimate_channel T.format self.now).block n
            numbers.now }
        ensures { Fits T.format self.now numbers.now }
    {
        let _taps = &self.taps;
    }

    /// Does nothing at run time: a proof learns that the room of any call is enough for a block.
    fn has_room(&self, input: &[T], output: &[T])
        requires block { length input.now ≤ self.now.block }
        requires room { filter_room (decimate_channel T.format self.now) ≤ length output.now }
        ensures { div_ceil (length input.now) self.now.factor ≤ length output.now }
    {}
}

impl<T: FormatLanes<L> + WideSample, const L: usize> Filter<T> for Decimate<T, L> {
    ghost use Rattle.dsp_rate.specs.DecimateState.{decimate_channel};
    ghost use Rattle.dsp_rate.specs.ByChannel.{IsDecimateIn};
    ghost use Rattle.dsp_rate.specs.Laws.{decimate-by-channel, decimate-groups};

    ghost filter = { decimate_channel T.format };

    ghost IsOf = { IsDecimateIn T.format };

    ghost by_channel = { decimate-by-channel T.format };

    ghost groups = { decimate-groups T.format };

    fn of_block(alloc: Global, block: &Block, capacity: usize) -> Result<Self, AllocError> {
        let Block::Decimate { factor, taps } = block else {
            unreachable!();
        };
        let taps = samples_of::<T>(alloc, taps.as_slice())?;
        match Decimate::new(alloc, *factor, &taps, capacity) {
            Ok(filter) => Ok(filter),
            Err(MakeFault::Memory) => Err(AllocError),
            Err(_) => unreachable!(),
        }
    }

    fn process<M: Ledger>(&mut self, input: &[T], output: &mut [T], steps: &mut Steps<M>) -> usize {
        // The proof has the length of the past from the invariant.
        let _taps = &self.taps;
        self.has_room(input, output);
        Decimate::process(self, input, output, steps)
    }

    fn finish<M: Ledger>(&mut self, output: &mut [T], steps: &mut Steps<M>) -> usize {
        Decimate::finish(self, output, steps)
    }

    fn kept_count(&self) -> usize {
        Decimate::kept_count(self)
    }

    fn keep(&self, out: &mut [i64]) {
        Decimate::keep(self, out);
    }

    fn place(&self, numbers: &[i64]) -> Option<u64> {
        let _taps = &self.taps;
        if self.fits(numbers) {
            Some(numbers[numbers.len() - 1] as u64)
        } else {
            None
        }
    }

    fn restore(&mut self, numbers: &[i64]) {
        let _taps = &self.taps;
        self.fits_if_kept(numbers);
        Decimate::restore(self, numbers);
    }
}
