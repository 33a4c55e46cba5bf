use crate::Gather;
use crate::making::taps_of;
use crate::sums::correlation_values;
use dsp_defs::{Block, GatherFull, MAX_GATHERED, MAX_SAMPLES, MakeFault, Steps};
use dsp_filter::{Filter, are_samples, check_taps, samples_of};
use dsp_lanes::OwnLanes;
use std::alloc::{AllocError, Global};
use std::marker::Model;
use std::sync::ledger::Ledger;

/// The correlation of one channel with a list of taps (`arm_correlate_q7`, `arm_correlate_q15`,
/// `arm_correlate_q31`): it gathers the samples, and gives all values once they have ended. Of N
/// samples and T taps there are `2 * max(N, T) - 1` values, and none without a sample. As the filter of
/// a channel it gives at most `block` of them in a call.
#[derive(Drop)]
pub struct Correlate<T: OwnLanes> {
    taps: Vec<T>,
    gather: Gather<T>,
    given: usize,
    block: usize,
    ended: bool,
}

impl<T: OwnLanes> Model for Correlate<T> {
    ghost use Rattle.std.specs.Prelude.{length, map, vec_len};
    ghost use Rattle.dsp_conv.specs.CorrelateState.{CorrelateState, IsGathered};

    ghost Value = { CorrelateState };

    ghost view = { λ c. record {
      taps = map T.number c.taps.items;
      samples = c.gather;
      given = c.given;
      block = c.block;
      ended = c.ended;
    } };

    ghost invariant = { λ c. IsGathered (vec_len c.taps) (length c.gather) c.given c.block c.ended };
}

impl<T: OwnLanes> Correlate<T> {
    ghost use Rattle.std.specs.Prelude.{◌≡◌, ◌≤◌, ◌<◌, ◌+◌, ◌++◌, ◌↔◌, [], true, min, length, map, take};
    ghost use Rattle.std.specs.Prelude.{drop, IfOk, OnOk, IfErr, IsErr, IsFalse, IsTrue, MatchOption};
    ghost use Rattle.dsp_filter.specs.Making.{taps_fault};
    ghost use Rattle.dsp_defs.specs.declared.fault.GatherFull.{GatherFull};
    ghost use Rattle.dsp_defs.specs.declared.limits.TheConstants.{MAX_GATHERED, MAX_TAPS};
    ghost use Rattle.dsp_defs.specs.Formats.{word};
    ghost use Rattle.dsp_defs.specs.Kept.{Each, IsOfKind, in_words};
    ghost use Rattle.dsp_conv.specs.CorrelateState.{new_correlate, tail_of, made_of};

    /// A correlation that has taken nothing, with the taps `b[0]` to `b[T-1]`. `Length` where there are
    /// no taps or more than `MAX_TAPS`, then `Memory`. No later call takes memory.
    pub fn new(alloc: Global, taps: &[T]) -> Result<Self, MakeFault>
        ensures made { IfOk result (λ c. c ≡ new_correlate (map T.number taps.now)) }
        ensures fault { MatchOption (taps_fault (length taps.now))
            (IfErr result (λ e. e ≡ MakeFault.Memory)) (λ e. result ≡ Err e) }
    {
        check_taps(taps.len())?;
        let Ok(correlate) = Correlate::of_taps(alloc, taps, MAX_SAMPLES) else {
            return Err(MakeFault::Memory);
        };
        Ok(correlate)
    }

    /// A correlation that has taken nothing, with 1 to `MAX_TAPS` taps. All its memory is taken here.
    fn of_taps(alloc: Global, taps: &[T], block: usize) -> Result<Self, AllocError>
        requires some { 1 ≤ length taps.now }
        requires few { length taps.now ≤ MAX_TAPS }
        requires block { 1 ≤ block }
        ensures { IfOk result (λ c.
            c ≡ record (new_correlate (map T.number taps.now)) { block = block }) }
    {
        let gather = Gather::new(alloc)?;
        let taps = Vec::from_slice(alloc, taps)?;
        Ok(Correlate {
            taps,
            gather,
            given: 0,
            block,
            ended: false,
        })
    }

    /// Takes samples. `GatherFull` where it would hold more than `MAX_GATHERED`; then nothing changes.
    pub fn put(&mut self, input: &[T]) -> Result<(), GatherFull>
        requires running { IsFalse self.old.ended }
        ensures full { IsErr result ↔ MAX_GATHERED < length self.old.samples + length input.now }
        ensures held { IfErr result (λ (fault : GatherFull). fault.held ≡ length self.old.samples) }
        ensures more { IfErr result (λ (fault : GatherFull). fault.more ≡ length input.now) }
        ensures refused { IfErr result (λ _. self.new ≡ self.old) }
        ensures taken { OnOk result (self.new
            ≡ record self.old { samples = self.old.samples ++ map T.number input.now }) }
    {
        self.gather.put(input)
    }

    /// Ends the signal: writes the next values of the correlation to the front of the output, as many
    /// as fit in it, and answers their number. The rest of the output stays. The answer for an output
    /// that is not empty is 0 exactly where all values were given.
    pub fn finish<M: Ledger>(&mut self, output: &mut [T], steps: &mut Steps<M>) -> usize
        ensures given { result ≡ min (length (tail_of T.format self.old)) (length output.old) }
        ensures tail { tail_of T.format self.old ≡ map T.number (take result output.new)
            ++ tail_of T.format self.new }
        ensures same { self.new ≡ record self.old { given = self.old.given + result; ended = true } }
        ensures spent { 0 < length output.old → (result ≡ 0 ↔ tail_of T.format self.old ≡ []) }
        ensures rest { drop result output.new ≡ drop result output.old }
        ensures multiplies { made_of self.old + steps.new.multiplies
            ≡ made_of self.new + steps.old.multiplies }
        ensures turns { made_of self.old + steps.new.turns ≤ made_of self.new + steps.old.turns }
    {
        self.ended = true;
        let samples = self.gather.slice();
        if samples.is_empty() {
            return 0;
        }
        let whole = 2 * samples.len().max(self.taps.len()) - 1;
        let count = (whole - self.given).min(output.len());
        let output = &mut output[..count];
        correlation_values(samples, &self.taps, self.given, output, steps);
        self.given += count;
        count
    }

    /// Whether `finish` was called.
    pub fn is_ended(&self) -> bool
        ensures { result ≡ self.now.ended }
    {
        self.ended
    }

    /// How many samples came: so many numbers are kept.
    pub fn kept_count(&self) -> usize
        ensures count { result ≡ length self.now.samples }
        ensures few { result ≤ MAX_GATHERED }
    {
        self.gather.slice().len()
    }

    /// Writes the kept numbers: the samples that came, the oldest first.
    pub fn keep(&self, out: &mut [i64])
        requires { length out.old ≡ length self.now.samples }
        ensures { out.new ≡ self.now.samples }
    {
        self.gather.keep(out);
    }

    /// Whether these can be kept numbers: at most `MAX_GATHERED` of them, each in the range of the format.
    pub fn fits(&self, numbers: &[i64]) -> bool
        ensures { IsTrue result ↔ (length numbers.now ≤ MAX_GATHERED)
            × Each IsOfKind (in_words (word T.format) (length numbers.now)) numbers.now }
    {
        numbers.len() <= MAX_GATHERED && are_samples::<T>(numbers, numbers.len())
    }

    /// Has taken the samples of these numbers from now on, and no others.
    pub fn restore(&mut self, numbers: &[i64])
        requires running { IsFalse self.old.ended }
        requires few { length numbers.now ≤ MAX_GATHERED }
        requires samples { Each IsOfKind (in_words (word T.format) (length numbers.now)) numbers.now }
        ensures { self.new ≡ record self.old { samples = numbers.now } }
    {
        self.gather.restore(numbers);
    }
}

impl<T: OwnLanes> Filter<T> for Correlate<T> {
    ghost use Rattle.dsp_conv.specs.CorrelateState.{correlate_channel};
    ghost use Rattle.dsp_conv.specs.ByChannel.{IsCorrelateIn};
    ghost use Rattle.dsp_conv.specs.Laws.{correlate-by-channel, correlate-groups};

    ghost filter = { correlate_channel T.format };

    ghost IsOf = { IsCorrelateIn T.format };

    ghost by_channel = { correlate-by-channel T.format };

    ghost groups = { correlate-groups T.format };

    fn of_block(alloc: Global, block: &Block, capacity: usize) -> Result<Self, AllocError> {
        let taps = samples_of::<T>(alloc, taps_of(block))?;
        Correlate::of_taps(alloc, &taps, capacity)
    }

    fn process<M: Ledger>(
        &mut self,
        input: &[T],
        _output: &mut [T],
        _steps: &mut Steps<M>,
    ) -> usize {
        // The proof has that no value was given from the invariant.
        let _ = &self.given;
        match self.put(input) {
            Ok(()) => 0,
            Err(_) => unreachable!(),
        }
    }

    fn finish<M: Ledger>(&mut self, output: &mut [T], steps: &mut Steps<M>) -> usize {
        let block = self.block;
        Correlate::finish(self, &mut output[..block], steps)
    }

    fn kept_count(&self) -> usize {
        Correlate::kept_count(self)
    }

    fn keep(&self, out: &mut [i64]) {
        Correlate::keep(self, out);
    }

    fn place(&self, numbers: &[i64]) -> Option<u64> {
        if self.fits(numbers) {
            Some(numbers.len() as u64)
        } else {
            None
        }
    }

    fn restore(&mut self, numbers: &[i64]) {
        let _ = &self.given;
        Correlate::restore(self, numbers);
    }
}
