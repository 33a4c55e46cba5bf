ghost use Rattle.std.specs.Prelude.{◌≡◌, ◌≤◌, ◌<◌, ◌+◌, ◌*◌, ◌/◌, ◌++◌, ◌↔◌, IsTrue, length, map, take, drop};
ghost use Rattle.dsp_defs.specs.Formats.{word};
ghost use Rattle.dsp_defs.specs.Kept.{Each, IsOfKind, in_words};
ghost use Rattle.dsp_matrix.specs.Groups.{given_group, given_groups, left_open, RisesJust, given_count};
ghost use Rattle.dsp_matrix.specs.Groups.{product_count};

use crate::GroupWork;
use crate::open_group::OpenGroup;
use dsp_defs::{Block, MAX_MATRIX_SIDE, MAX_SAMPLES, Steps};
use dsp_filter::{Filter, are_samples};
use dsp_sat::Sample;
use std::alloc::{AllocError, Global};
use std::marker::Model;
use std::sync::ledger::Ledger;

/// A filter of one channel that works on whole groups of samples, and keeps the group that is open.
#[derive(Drop)]
pub struct GroupFilter<T: Sample, W: GroupWork<T> + Drop> {
    work: W,
    begun: OpenGroup<T>,
    capacity: usize,
    ended: bool,
}

impl<T: Sample, W: GroupWork<T> + Drop> Model for GroupFilter<T, W> {
    ghost use Rattle.std.specs.Prelude.{◌≤◌};
    ghost use Rattle.dsp_defs.specs.declared.limits.TheConstants.{MAX_SAMPLES};
    ghost use Rattle.dsp_unit.specs.Filter.{FilterState, steady_filter};
    ghost use Rattle.dsp_matrix.specs.Groups.{IsBegun};

    ghost Value = { FilterState };

    ghost view = { λ f. steady_filter T.format (W.block f.work) f.capacity f.begun.numbers f.ended };

    ghost invariant = { λ f. (W.IsOf (W.block f.work)) × IsBegun (W.group (W.block f.work)) f.begun
        × (f.capacity ≤ MAX_SAMPLES) };
}

/// Writes what each whole group of the input becomes, one group after another.
fn transform_groups<T: Sample, W: GroupWork<T>, L: Ledger>(
    work: &W,
    input: &[T],
    output: &mut [T],
    steps: &mut Steps<L>,
)
    requires work { W.IsOf (W.block work.now) }
    requires room { length output.old ≡ given_count (W.group (W.block work.now)) (length input.now) }
    ensures out { map T.number output.new ≡ given_groups (W.group (W.block work.now))
        (map T.number input.now) }
    ensures steps { RisesJust steps.old steps.new
        (product_count (W.group (W.block work.now)) (length input.now)) }
{
    let taken = work.taken();
    let given = work.given();
    for group in 0..input.len() / taken {
        let start = group * taken;
        let at = group * given;
        work.transform(
            &input[start..start + taken],
            &mut output[at..at + given],
            steps,
        );
    }
}

/// Writes what each whole group of the input becomes, straight from the input: all at once where the
/// work can.
fn transform_whole<T: Sample, W: GroupWork<T>, L: Ledger>(
    work: &W,
    input: &[T],
    output: &mut [T],
    steps: &mut Steps<L>,
)
    requires work { W.IsOf (W.block work.now) }
    requires room { length output.old ≡ given_count (W.group (W.block work.now)) (length input.now) }
    ensures out { map T.number output.new ≡ given_groups (W.group (W.block work.now))
        (map T.number input.now) }
    ensures steps { RisesJust steps.old steps.new
        (product_count (W.group (W.block work.now)) (length input.now)) }
{
    if work.transform_at_once(input, output, steps) {
        return;
    }
    transform_groups(work, input, output, steps)
}

/// Works on an input that begins a group: writes what its whole groups become to the front of the
/// output, answers their length, and begins the open group with the rest of the input.
fn feed_whole<T: Sample, W: GroupWork<T>, L: Ledger>(
    work: &W,
    begun: &mut OpenGroup<T>,
    input: &[T],
    output: &mut [T],
    steps: &mut Steps<L>,
) -> usize
    requires work { W.IsOf (W.block work.now) }
    requires size { begun.old.size ≡ (W.group (W.block work.now)).taken }
    requires room { given_count (W.group (W.block work.now)) (length input.now) ≤ length output.old }
    ensures given { result ≡ given_count (W.group (W.block work.now)) (length input.now) }
    ensures out { map T.number (take result output.new) ≡ given_groups (W.group (W.block work.now))
        (map T.number input.now) }
    ensures begun { begun.new ≡ record begun.old {
      numbers = left_open (W.group (W.block work.now))
          (map T.number input.now);
    } }
    ensures rest { drop result output.new ≡ drop result output.old }
    ensures steps { RisesJust steps.old steps.new
        (product_count (W.group (W.block work.now)) (length input.now)) }
{
    let groups = input.len() / work.taken();
    let count = groups * work.given();
    transform_whole(work, input, &mut output[..count], steps);
    begun.start(&input[groups * work.taken()..]);
    count
}

/// Writes what a group that is whole becomes to the front of the output, and answers its length.
fn complete_group<T: Sample, W: GroupWork<T>, L: Ledger>(
    work: &W,
    begun: &OpenGroup<T>,
    output: &mut [T],
    steps: &mut Steps<L>,
) -> usize
    requires work { W.IsOf (W.block work.now) }
    requires whole { length begun.now.numbers ≡ (W.group (W.block work.now)).taken }
    requires room { (W.group (W.block work.now)).given ≤ length output.old }
    ensures given { result ≡ (W.group (W.block work.now)).given }
    ensures out { map T.number (take result output.new)
        ≡ given_group (W.group (W.block work.now)) begun.now.numbers }
    ensures rest { drop result output.new ≡ drop result output.old }
    ensures steps { RisesJust steps.old steps.new (W.group (W.block work.now)).products }
{
    let given = work.given();
    work.transform(begun.as_slice(), &mut output[..given], steps);
    given
}

/// `feed_whole` behind what stands in front of a place of the output.
fn feed_behind<T: Sample, W: GroupWork<T>, L: Ledger>(
    work: &W,
    begun: &mut OpenGroup<T>,
    input: &[T],
    output: &mut [T],
    place: usize,
    steps: &mut Steps<L>,
) -> usize
    requires work { W.IsOf (W.block work.now) }
    requires size { begun.old.size ≡ (W.group (W.block work.now)).taken }
    requires room { place + given_count (W.group (W.block work.now))
        (length input.now) ≤ length output.old }
    ensures given { result ≡ given_count (W.group (W.block work.now)) (length input.now) }
    ensures out { map T.number (take (place + result) output.new)
        ≡ map T.number (take place output.old) ++ given_groups (W.group (W.block work.now))
        (map T.number input.now) }
    ensures begun { begun.new ≡ record begun.old {
      numbers = left_open (W.group (W.block work.now))
          (map T.number input.now);
    } }
    ensures rest { drop (place + result) output.new ≡ drop (place + result) output.old }
    ensures steps { RisesJust steps.old steps.new
        (product_count (W.group (W.block work.now)) (length input.now)) }
{
    feed_whole(work, begun, input, &mut output[place..], steps)
}

/// Works on an input that goes on where the open group ends: writes what the whole groups become to the
/// front of the output, answers their length, and leaves the group that is then open.
fn feed_groups<T: Sample, W: GroupWork<T>, L: Ledger>(
    work: &W,
    begun: &mut OpenGroup<T>,
    input: &[T],
    output: &mut [T],
    steps: &mut Steps<L>,
) -> usize
    requires work { W.IsOf (W.block work.now) }
    requires size { begun.old.size ≡ (W.group (W.block work.now)).taken }
    requires begun { length begun.old.numbers < begun.old.size }
    requires room { given_count (W.group (W.block work.now))
        (length begun.old.numbers + length input.now) ≤ length output.old }
    ensures given { result ≡ given_count (W.group (W.block work.now))
        (length begun.old.numbers + length input.now) }
    ensures out { map T.number (take result output.new) ≡ given_groups (W.group (W.block work.now))
        (begun.old.numbers ++ map T.number input.now) }
    ensures begun { begun.new ≡ record begun.old {
      numbers = left_open (W.group (W.block work.now))
          (begun.old.numbers ++ map T.number input.now);
    } }
    ensures rest { drop result output.new ≡ drop result output.old }
    ensures steps { RisesJust steps.old steps.new
        (product_count (W.group (W.block work.now)) (length begun.old.numbers + length input.now)) }
{
    if begun.len() == 0 {
        return feed_whole(work, begun, input, output, steps);
    }
    let start = begun.fill(input);
    if !begun.is_whole() {
        return 0;
    }
    let given = complete_group(work, begun, output, steps);
    given + feed_behind(work, begun, &input[start..], output, given, steps)
}

/// Whether these can be the numbers of an open group: fewer than a group has samples, each in the range
/// of the format.
fn are_open<T: Sample, W: GroupWork<T>>(work: &W, numbers: &[i64]) -> bool
    requires { W.IsOf (W.block work.now) }
    ensures { IsTrue result ↔ (length numbers.now < (W.group (W.block work.now)).taken)
        × Each IsOfKind (in_words (word T.format) (length numbers.now)) numbers.now }
{
    numbers.len() < work.taken() && are_samples::<T>(numbers, numbers.len())
}

impl<T: Sample, W: GroupWork<T> + Drop> GroupFilter<T, W> {
    ghost use Rattle.std.specs.Prelude.{◌≡◌, ◌≤◌, ◌<◌, ◌+◌, ◌*◌, ◌/◌, ◌++◌, ◌↔◌, ℕ, [], true, IfOk, IsFalse};
    ghost use Rattle.std.specs.Prelude.{IsTrue, length, map, take, drop};
    ghost use Rattle.dsp_unit.specs.Filter.{FilterFeeds, FilterFinishes, FilterRestores, IsNewFilter};
    ghost use Rattle.dsp_defs.specs.Kept.{FitsChannel};
    ghost use Rattle.dsp_unit.specs.Unit.{most_frames};
    ghost use Rattle.dsp_matrix.specs.Groups.{given_count, given_groups, left_open, product_count};

    /// A filter that has taken nothing, for at most `capacity` samples a call. All its memory is taken
    /// here.
    pub fn of_work(alloc: Global, work: W, capacity: usize) -> Result<Self, AllocError>
        requires block { W.IsOf (W.block work) }
        requires capacity { capacity ≤ MAX_SAMPLES }
        ensures { IfOk result (IsNewFilter (W.block work) T.format capacity) }
    {
        let begun = OpenGroup::new(alloc, work.taken())?;
        Ok(GroupFilter {
            work,
            begun,
            capacity,
            ended: false,
        })
    }

    /// How many values a block of `n` samples gives at most: those of the groups that it has whole, and
    /// of one more that an open group may become.
    pub fn room(&self, n: usize) -> usize
        requires { n ≤ self.now.capacity }
        ensures exact { result ≡ (n / (W.group self.now.block).taken + 1) * (W.group self.now.block).given }
        ensures enough { most_frames self.now.block n ≤ result }
    {
        (n / self.work.taken() + 1) * self.work.given()
    }

    /// Takes the next block, of any number of samples, and writes what the groups that it makes whole
    /// become to the front of the output. Answers the number of these values; the rest of the output
    /// stays.
    pub fn process<L: Ledger>(
        &mut self,
        input: &[T],
        output: &mut [T],
        steps: &mut Steps<L>,
    ) -> usize
        requires running { IsFalse self.old.ended }
        requires block { length input.now ≤ self.old.capacity }
        requires room { most_frames self.old.block (length input.now) ≤ length output.old }
        ensures given { result ≡ given_count (W.group self.old.block)
            (length self.old.kept + length input.now) }
        ensures within { result ≤ most_frames self.old.block (length input.now) }
        ensures values { map T.number (take result output.new)
            ≡ given_groups (W.group self.old.block) (self.old.kept ++ map T.number input.now) }
        ensures kept { self.new ≡ record self.old {
          kept = left_open (W.group self.old.block)
              (self.old.kept ++ map T.number input.now);
        } }
        ensures fed { FilterFeeds self.old self.new (map T.number input.now)
            (map T.number (take result output.new)) steps.old steps.new }
        ensures multiplies { steps.new.multiplies ≡ steps.old.multiplies + product_count
            (W.group self.old.block) (length self.old.kept + length input.now) }
        ensures rest { drop result output.new ≡ drop result output.old }
    {
        feed_groups(&self.work, &mut self.begun, input, output, steps)
    }

    /// Ends the signal. An open group gives nothing, so the answer is 0.
    pub fn finish<L: Ledger>(&mut self, output: &mut [T], steps: &mut Steps<L>) -> usize
        ensures given { result ≡ 0 }
        ensures ended { self.new ≡ record self.old { ended = true } }
        ensures output { output.new ≡ output.old }
        ensures steps { steps.new ≡ steps.old }
        ensures finished { FilterFinishes self.old self.new [] steps.old steps.new }
    {
        self.ended = true;
        0
    }

    /// Whether `finish` was called.
    pub fn is_ended(&self) -> bool
        ensures { result ≡ self.now.ended }
    {
        self.ended
    }

    /// How many numbers the filter keeps from block to block: as many as its open group has samples.
    pub fn kept_count(&self) -> usize
        ensures count { result ≡ length self.now.kept }
        ensures few { result < MAX_MATRIX_SIDE * MAX_MATRIX_SIDE }
    {
        self.begun.len()
    }

    /// Writes the kept numbers: the samples of the open group, the oldest first.
    pub fn keep(&self, out: &mut [i64])
        requires running { IsFalse self.now.ended }
        requires length { length out.old ≡ length self.now.kept }
        ensures { out.new ≡ self.now.kept }
    {
        self.begun.keep(out);
    }

    /// Whether these can be the kept numbers of the filter: fewer than a group has samples, each in the
    /// range of the format.
    pub fn fits(&self, numbers: &[i64]) -> bool
        ensures { IsTrue result ↔ ((n : ℕ) × FitsChannel self.now.format self.now.block n numbers.now) }
    {
        are_open(&self.work, numbers)
    }

    /// Keeps these numbers from now on, and no others.
    pub fn restore(&mut self, numbers: &[i64])
        requires running { IsFalse self.old.ended }
        requires fits { (n : ℕ) × FitsChannel self.old.format self.old.block n numbers.now }
        ensures restored { FilterRestores self.old self.new numbers.now }
        ensures same { self.new ≡ record self.old { kept = numbers.now } }
    {
        self.begun.restore(numbers);
    }
}

impl<T: Sample, W: GroupWork<T> + Drop> Filter<T> for GroupFilter<T, W> {
    ghost use Rattle.dsp_matrix.specs.Laws.{has-groups};

    ghost filter = { λ f. f };

    ghost IsOf = { W.IsOf };

    ghost by_channel = { λ b is. (W.grouped b is).by_channel };

    ghost groups = { λ b is. has-groups T.format b (W.group b) (W.grouped b is) };

    fn of_block(alloc: Global, block: &Block, capacity: usize) -> Result<Self, AllocError> {
        let work = W::of_block(alloc, block)?;
        GroupFilter::of_work(alloc, work, capacity)
    }

    fn process<L: Ledger>(&mut self, input: &[T], output: &mut [T], steps: &mut Steps<L>) -> usize {
        feed_groups(&self.work, &mut self.begun, input, output, steps)
    }

    fn finish<L: Ledger>(&mut self, output: &mut [T], steps: &mut Steps<L>) -> usize {
        GroupFilter::finish(self, output, steps)
    }

    fn kept_count(&self) -> usize {
        GroupFilter::kept_count(self)
    }

    fn keep(&self, out: &mut [i64]) {
        GroupFilter::keep(self, out);
    }

    fn place(&self, numbers: &[i64]) -> Option<u64> {
        if are_open(&self.work, numbers) {
            Some(numbers.len() as u64)
        } else {
            None
        }
    }

    fn restore(&mut self, numbers: &[i64]) {
        GroupFilter::restore(self, numbers);
    }
}
