use crate::{Filter, Stepwise};
use dsp_defs::{Block, Steps};
use dsp_sat::Sample;
use std::alloc::{AllocError, Global};
use std::marker::{Model, PhantomData};
use std::sync::ledger::Ledger;

/// A filter that gives one value for each sample, by the work of its block.
#[derive(Drop)]
pub struct StepFilter<T: Sample, W: Stepwise<T> + Drop> {
    work: W,
    capacity: usize,
    ended: bool,
    marker: PhantomData<T>,
}

impl<T: Sample, W: Stepwise<T> + Drop> Model for StepFilter<T, W> {
    ghost use Rattle.dsp_unit.specs.Filter.{FilterState, steady_filter};

    ghost Value = { FilterState };

    ghost view = { λ f. steady_filter T.format (W.block f.work) f.capacity (W.kept f.work) f.ended };

    ghost invariant = { λ f. W.IsOf (W.block f.work) };
}

impl<T: Sample, W: Stepwise<T> + Drop> StepFilter<T, W> {
    ghost use Rattle.std.specs.Prelude.{◌≡◌, ◌≤◌, ◌+◌, ◌*◌, ◌↔◌, [], true, IsFalse, IsTrue, length, map};
    ghost use Rattle.std.specs.Prelude.{take, drop};
    ghost use Rattle.dsp_unit.specs.Filter.{FilterFeeds, FilterFinishes, FilterRestores, IsNewFilter};
    ghost use Rattle.dsp_defs.specs.Kept.{kept_of_channel, kinds_by, Each, IsOfKind};

    /// A filter that has taken nothing, for at most `capacity` samples a call, from work where nothing
    /// was taken.
    pub fn of_work(work: W, capacity: usize) -> Self
        requires block { W.IsOf (W.block work) }
        requires kept { W.kept work ≡ kept_of_channel T.format (W.block work) [] }
        ensures { IsNewFilter (W.block work) T.format capacity result }
    {
        StepFilter {
            work,
            capacity,
            ended: false,
            marker: PhantomData,
        }
    }

    /// What it does with one sample after another.
    pub fn work(&self) -> &W
        ensures block { W.block result.now ≡ self.now.block }
        ensures kept { W.kept result.now ≡ self.now.kept }
    {
        &self.work
    }

    /// How many samples a block of `n` samples gives.
    pub fn room(&self, n: usize) -> usize
        requires { n ≤ self.now.capacity }
        ensures { result ≡ n }
    {
        n
    }

    /// Writes the next values to the front of the output, and answers their number. The rest of the
    /// output stays.
    pub fn process<L: Ledger>(
        &mut self,
        input: &[T],
        output: &mut [T],
        steps: &mut Steps<L>,
    ) -> usize
        requires running { IsFalse self.old.ended }
        requires block { length input.now ≤ self.old.capacity }
        requires room { length input.now ≤ length output.old }
        ensures given { result ≡ length input.now }
        ensures running { IsFalse self.new.ended }
        ensures fed { FilterFeeds self.old self.new (map T.number input.now)
            (map T.number (take result output.new)) steps.old steps.new }
        ensures multiplies { steps.new.multiplies ≡ steps.old.multiplies + result * W.price self.old.block }
        ensures rest { drop result output.new ≡ drop result output.old }
    {
        let work = &mut self.work;
        let count = input.len();
        let output = &mut output[..count];
        output.copy_from_slice(input);
        work.run(output, steps);
        count
    }

    /// Ends the signal. There is no tail, so the answer is 0.
    pub fn finish<L: Ledger>(&mut self, output: &mut [T], steps: &mut Steps<L>) -> usize
        ensures given { result ≡ 0 }
        ensures ended { self.new ≡ record self.old { ended = true } }
        ensures output { output.new ≡ output.old }
        ensures steps { steps.new ≡ steps.old }
        ensures finished { FilterFinishes self.old self.new [] steps.old steps.new }
    {
        self.ended = true;
        0
    }

    /// Whether `finish` was called.
    pub fn is_ended(&self) -> bool
        ensures { result ≡ self.now.ended }
    {
        self.ended
    }

    /// How many numbers the filter keeps from block to block.
    pub fn kept_count(&self) -> usize
        ensures count { result ≡ length self.now.kept }
        ensures few { result ≤ 4294967295 }
    {
        self.work.kept_count()
    }

    /// Writes the kept numbers.
    pub fn keep(&self, out: &mut [i64])
        requires running { IsFalse self.now.ended }
        requires length { length out.old ≡ length self.now.kept }
        ensures { out.new ≡ self.now.kept }
    {
        self.work.keep(out);
    }

    /// Whether these can be the kept numbers of a filter: as many, each in the range of its width.
    pub fn fits(&self, numbers: &[i64]) -> bool
        ensures { IsTrue result ↔ Each IsOfKind (kinds_by T.format self.now.block 0) numbers.now }
    {
        self.work.fits(numbers)
    }

    /// Keeps these numbers from now on, and no others.
    pub fn restore(&mut self, numbers: &[i64])
        requires running { IsFalse self.old.ended }
        requires fits { Each IsOfKind (kinds_by T.format self.old.block 0) numbers.now }
        ensures { FilterRestores self.old self.new numbers.now }
    {
        self.work.restore(numbers);
    }
}

impl<T: Sample, W: Stepwise<T> + Drop> Filter<T> for StepFilter<T, W> {
    ghost filter = { λ f. f };

    ghost IsOf = { W.IsOf };

    ghost by_channel = { λ b is. (W.stepwise b is).steady.by_channel };

    ghost groups = { λ b is. (W.stepwise b is).no_group };

    fn of_block(alloc: Global, block: &Block, capacity: usize) -> Result<Self, AllocError> {
        let work = W::of_block(alloc, block)?;
        Ok(StepFilter::of_work(work, capacity))
    }

    fn process<L: Ledger>(&mut self, input: &[T], output: &mut [T], steps: &mut Steps<L>) -> usize {
        // A call needs as much room as it may have samples: the proof has this from the invariant.
        let _work = &self.work;
        StepFilter::process(self, input, output, steps)
    }

    fn finish<L: Ledger>(&mut self, output: &mut [T], steps: &mut Steps<L>) -> usize {
        StepFilter::finish(self, output, steps)
    }

    fn kept_count(&self) -> usize {
        StepFilter::kept_count(self)
    }

    fn keep(&self, out: &mut [i64]) {
        StepFilter::keep(self, out);
    }

    fn place(&self, numbers: &[i64]) -> Option<u64> {
        if self.work.fits(numbers) {
            Some(0)
        } else {
            None
        }
    }

    fn restore(&mut self, numbers: &[i64]) {
        let _work = &self.work;
        StepFilter::restore(self, numbers);
    }
}
