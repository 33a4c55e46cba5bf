use crate::phases::{phase_rows, sort_by_phase};
use dsp_defs::{Block, MAX_TAPS, MakeFault, Steps};
use dsp_filter::{Filter, check_block, check_multiple, samples_of};
use dsp_lanes::{FormatLanes, LaneSample};
use dsp_sat::WideSample;
use dsp_window::Window;
use std::alloc::{AllocError, Global};
use std::marker::Model;
use std::sync::ledger::Ledger;

/// An interpolator on one channel (`arm_fir_interpolate_q15`, `arm_fir_interpolate_q31`): for each
/// sample it gives `factor` values, one of each phase. `L` is the number of lanes.
#[derive(Drop)]
pub struct Interpolate<T: LaneSample<L> + WideSample, const L: usize> {
    factor: usize,
    phases: Vec<T>,
    window: Window<T>,
    row: Vec<T>,
    ended: bool,
}

impl<T: LaneSample<L> + WideSample, const L: usize> Model for Interpolate<T, L> {
    ghost use Rattle.std.specs.Prelude.{◌≡◌, map, vec_len};
    ghost use Rattle.dsp_window.specs.Rolling.{last_samples};
    ghost use Rattle.dsp_rate.specs.InterpolateState.{InterpolateState, IsPhased, unsorted};

    ghost Value = { InterpolateState };

    ghost view = { λ f.
        record {
          factor = f.factor;
          taps = unsorted f.factor (map T.number f.phases.items);
          past = last_samples f.window.past f.window.samples;
          block = f.window.room;
          ended = f.ended;
        } };

    ghost invariant = { λ f. (vec_len f.row ≡ f.window.room)
        × IsPhased f.factor (map T.number f.phases.items) f.window };
}

impl<T: LaneSample<L> + WideSample, const L: usize> Interpolate<T, L> {
    ghost use Rattle.std.specs.Prelude.{◌≡◌, ◌≤◌, ◌+◌, ◌*◌, ◌++◌, ℕ, List, [], ℤ, true, length, map, take};
    ghost use Rattle.std.specs.Prelude.{drop};
    ghost use Rattle.std.specs.Prelude.{IfOk, OnOk, IfErr, IsFalse, IsTrue, ◌↔◌, All, FitsSigned};
    ghost use Rattle.std.specs.Prelude.{MatchOption};
    ghost use Rattle.dsp_defs.specs.Formats.{word};
    ghost use Rattle.dsp_defs.specs.Streaming.{Continues};
    ghost use Rattle.dsp_defs.specs.Sums.{interpolate};
    ghost use Rattle.dsp_lanes.specs.Turns.{lane_turns};
    ghost use Rattle.dsp_rate.specs.InterpolateState.{StandsFor, interpolate_channel, interpolate_fault};
    ghost use Rattle.dsp_rate.specs.InterpolateState.{new_interpolate};
    ghost use Rattle.dsp_defs.specs.Kept.{FitsChannel};

    /// An interpolator that has taken nothing, from its factor and the taps in time-reversed order,
    /// `b[T-1]` to `b[0]`, for blocks of at most `block` samples. `Length` where the taps are not
    /// 1..`MAX_TAPS` or no multiple of the factor, then `Range` where the factor is 0, `Range` where the
    /// block is not in 1..`MAX_SAMPLES`, then `Memory`. No later call takes memory.
    pub fn new(alloc: Global, factor: u8, taps: &[T], block: usize) -> Result<Self, MakeFault>
        ensures made { IfOk result (λ f. f ≡ new_interpolate factor (map T.number taps.now) block) }
        ensures stands { IfOk result (λ f. StandsFor f []) }
        ensures factor { OnOk result (1 ≤ factor) }
        ensures fault { MatchOption (interpolate_fault factor (length taps.now) block)
            (IfErr result (λ e. e ≡ MakeFault.Memory)) (λ e. result ≡ Err e) }
    {
        check_multiple(taps.len(), usize::from(factor).max(1), MAX_TAPS)?;
        if factor == 0 {
            return Err(MakeFault::Range { value: 0 });
        }
        check_block(block)?;
        let factor = usize::from(factor);
        let Ok(window) = Window::new(alloc, taps.len() / factor - 1, block) else {
            return Err(MakeFault::Memory);
        };
        let Ok(phases) = sort_by_phase(alloc, factor, taps) else {
            return Err(MakeFault::Memory);
        };
        let Ok(row) = vec![in alloc; T::zero(); block] else {
            return Err(MakeFault::Memory);
        };
        Ok(Interpolate {
            factor,
            phases,
            window,
            row,
            ended: false,
        })
    }

    /// How many values a block of `n` samples gives: `factor` for each.
    pub fn room(&self, n: usize) -> usize
        requires { n ≤ self.now.block }
        ensures { result ≡ n * self.now.factor }
    {
        n * self.factor
    }

    /// Writes the values of the next block to the front of the output, and answers their number: `factor`
    /// for each sample. The rest of the output stays.
    pub fn process<M: Ledger>(
        &mut self,
        input: &[T],
        output: &mut [T],
        steps: &mut Steps<M>,
    ) -> usize
        requires running { IsFalse self.old.ended }
        requires block { length input.now ≤ self.old.block }
        requires room { length input.now * self.old.factor ≤ length output.old }
        ensures given { result ≡ length input.now * self.old.factor }
        ensures values { (x : List ℤ) → StandsFor self.old x
            → Continues (interpolate T.format self.old.factor self.old.taps) x
            (map T.number input.now) (map T.number (take result output.new)) }
        ensures stands { (x : List ℤ) → StandsFor self.old x
            → StandsFor self.new (x ++ map T.number input.now) }
        ensures same { self.new ≡ record self.old { past = self.new.past } }
        ensures kept { length self.new.past ≡ length self.old.past }
        ensures rest { drop result output.new ≡ drop result output.old }
        ensures multiplies { steps.new.multiplies
            ≡ steps.old.multiplies + length input.now * length self.old.taps }
        ensures turns { steps.new.turns ≤ steps.old.turns + length self.old.taps * lane_turns L
            (length input.now) }
    {
        let count = input.len() * self.factor;
        self.window.push_block(input);
        let output = &mut output[..count];
        phase_rows::<T, L, M>(
            &self.phases,
            self.factor,
            self.window.slice(),
            input.len(),
            self.row.as_mut_slice(),
            output,
            steps,
        );
        count
    }

    /// Ends the signal. An interpolator has no tail, so the answer is 0.
    pub fn finish<M: Ledger>(&mut self, output: &mut [T], steps: &mut Steps<M>) -> usize
        ensures given { result ≡ 0 }
        ensures ended { self.new ≡ record self.old { ended = true } }
        ensures output { output.new ≡ output.old }
        ensures steps { steps.new ≡ steps.old }
    {
        self.ended = true;
        0
    }

    /// Whether `finish` was called.
    pub fn is_ended(&self) -> bool
        ensures { result ≡ self.now.ended }
    {
        self.ended
    }

    /// How many numbers the interpolator keeps from block to block: `T / factor - 1` samples.
    pub fn kept_count(&self) -> usize
        ensures count { result ≡ length self.now.past }
        ensures few { result ≤ MAX_TAPS }
    {
        self.phases.len() / self.factor - 1
    }

    /// Writes the kept numbers, the oldest first.
    pub fn keep(&self, out: &mut [i64])
        requires running { IsFalse self.now.ended }
        requires length { length out.old ≡ length self.now.past }
        ensures { out.new ≡ self.now.past }
    {
        self.window.keep(out);
    }

    /// Whether these can be the kept numbers of an interpolator: as many, and each in the range of the
    /// format.
    pub fn fits(&self, numbers: &[i64]) -> bool
        ensures { IsTrue result ↔ (length numbers.now ≡ length self.now.past)
            × All (FitsSigned (word T.format)) numbers.now }
    {
        self.window.fits(numbers)
    }

    /// Keeps these numbers from now on, and no others.
    pub fn restore(&mut self, numbers: &[i64])
        requires running { IsFalse self.old.ended }
        requires length { length numbers.now ≡ length self.old.past }
        requires samples { All (FitsSigned (word T.format)) numbers.now }
        ensures { self.new ≡ record self.old { past = numbers.now } }
    {
        self.window.restore(numbers);
    }

    /// Does nothing at run time: a proof learns that numbers which a filter can keep fit.
    fn fits_if_kept(&self, numbers: &[i64])
        requires { (n : ℕ) × FitsChannel T.format (interpolate_channel T.format self.now).block n
            numbers.now }
        ensures length { length numbers.now ≡ length self.now.past }
        ensures samples { All (FitsSigned (word T.format)) numbers.now }
    {
        let _phases = &self.phases;
    }
}

impl<T: FormatLanes<L> + WideSample, const L: usize> Filter<T> for Interpolate<T, L> {
    ghost use Rattle.dsp_rate.specs.InterpolateState.{interpolate_channel};
    ghost use Rattle.dsp_rate.specs.ByChannel.{IsInterpolateIn};
    ghost use Rattle.dsp_rate.specs.Laws.{interpolate-by-channel, interpolate-groups};

    ghost filter = { interpolate_channel T.format };

    ghost IsOf = { IsInterpolateIn T.format };

    ghost by_channel = { interpolate-by-channel T.format };

    ghost groups = { interpolate-groups T.format };

    fn of_block(alloc: Global, block: &Block, capacity: usize) -> Result<Self, AllocError> {
        let Block::Interpolate { factor, taps } = block else {
            unreachable!();
        };
        let taps = samples_of::<T>(alloc, taps.as_slice())?;
        match Interpolate::new(alloc, *factor, &taps, capacity) {
            Ok(filter) => Ok(filter),
            Err(MakeFault::Memory) => Err(AllocError),
            Err(_) => unreachable!(),
        }
    }

    fn process<M: Ledger>(&mut self, input: &[T], output: &mut [T], steps: &mut Steps<M>) -> usize {
        // The proof has the length of the past from the invariant.
        let _phases = &self.phases;
        Interpolate::process(self, input, output, steps)
    }

    fn finish<M: Ledger>(&mut self, output: &mut [T], steps: &mut Steps<M>) -> usize {
        Interpolate::finish(self, output, steps)
    }

    fn kept_count(&self) -> usize {
        Interpolate::kept_count(self)
    }

    fn keep(&self, out: &mut [i64]) {
        Interpolate::keep(self, out);
    }

    fn place(&self, numbers: &[i64]) -> Option<u64> {
        let _phases = &self.phases;
        if self.fits(numbers) { Some(0) } else { None }
    }

    fn restore(&mut self, numbers: &[i64]) {
        let _phases = &self.phases;
        self.fits_if_kept(numbers);
        Interpolate::restore(self, numbers);
    }
}
