//! Sums of products that go on, of samples wherever they stand.
ghost use Rattle.std.specs.Prelude.{◌≡◌, ◌+◌, ◌*◌, ◌/◌, ◌<◌, ◌≤◌, ℕ, ℤ, All, FitsSigned, List, length, map};
ghost use Rattle.std.specs.Prelude.{get_or};
ghost use Rattle.dsp_defs.specs.Counts.{Rises};
ghost use Rattle.dsp_defs.specs.Formats.{accumulator, word};
ghost use Rattle.dsp_defs.specs.Signal.{sample};
ghost use Rattle.dsp_measure.specs.Sums.{with_channels, with_products};

use crate::MeasureSample;
use dsp_defs::Steps;
use dsp_sat::Sample;
use dsp_shape::frame_count;
use std::sync::ledger::Ledger;

/// A sum that goes on by `count` products, where `at` gives the two samples of each place. It stays in
/// the accumulator, so that the compiler can take the samples in lanes.
#[inline(always)]
fn add_products<T: MeasureSample, F: Fn(usize) -> (T, T), L: Ledger>(
    start: i64,
    count: usize,
    at: F,
    steps: &mut Steps<L>,
) -> i64
    requires places { (n : ℕ) → n < count → F.pre at n }
    requires start { FitsSigned (accumulator T.format) start }
    ensures sum { (x y : List ℤ) → length x ≡ count
        → ((n : ℕ) (s : _) → n < count → F.post at n s → (T.number s.0 ≡ sample x n)
        × (T.number s.1 ≡ sample y n)) → result ≡ with_products T.format start x y }
    ensures fits { FitsSigned (accumulator T.format) result }
    ensures steps { Rises steps.old steps.new count count }
{
    let mut sum = T::sum_of_number(start);
    for n in 0..count {
        let (a, b) = at(n);
        sum = T::add_measured(sum, a, b, steps);
    }
    T::number_of_sum(sum)
}

/// A sum that goes on by the products of two slices of one length.
pub fn add_slices<T: MeasureSample, L: Ledger>(
    start: i64,
    a: &[T],
    b: &[T],
    steps: &mut Steps<L>,
) -> i64
    requires same { length a.now ≡ length b.now }
    requires start { FitsSigned (accumulator T.format) start }
    ensures sum { result ≡ with_products T.format start (map T.number a.now) (map T.number b.now) }
    ensures fits { FitsSigned (accumulator T.format) result }
    ensures steps { Rises steps.old steps.new (length a.now) (length a.now) }
{
    let at = |n: usize| -> (T, T)
        requires left { n < length a.now }
        requires right { n < length b.now }
        ensures left { result.0 ≡ get_or a.entry.now n result.0 }
        ensures right { result.1 ≡ get_or b.entry.now n result.1 }
    { (a[n], b[n]) };
    add_products::<T, _, L>(start, a.len(), at, steps)
}

/// A sum that goes on by the products of two channels, a frame after another.
#[inline(always)]
fn add_strided<T: MeasureSample, L: Ledger>(
    start: i64,
    frames: &[i32],
    channels: usize,
    first: usize,
    second: usize,
    steps: &mut Steps<L>,
) -> i64
    requires first { first < channels }
    requires second { second < channels }
    requires in_format { All (FitsSigned (word T.format)) frames.now }
    requires start { FitsSigned (accumulator T.format) start }
    ensures sum { result ≡ with_channels T.format start channels frames.now first second }
    ensures fits { FitsSigned (accumulator T.format) result }
    ensures steps { Rises steps.old steps.new (length frames.now / channels)
        (length frames.now / channels) }
{
    let at = |n: usize| -> (T, T)
        requires first { n * channels + first < length frames.now }
        requires second { n * channels + second < length frames.now }
        requires in_format { All (FitsSigned (word T.format)) frames.now }
        ensures first { T.number result.0 ≡ sample frames.entry.now (n * channels + first) }
        ensures second { T.number result.1 ≡ sample frames.entry.now (n * channels + second) }
    {
        let place = n * channels;
        (
            T::of_number(frames[place + first]),
            T::of_number(frames[place + second]),
        )
    };
    add_products::<T, _, L>(start, frame_count(frames.len(), channels), at, steps)
}

/// A sum that goes on by the products of two channels of the frames.
pub fn add_channels<T: MeasureSample, L: Ledger>(
    start: i64,
    frames: &[i32],
    channels: usize,
    first: usize,
    second: usize,
    steps: &mut Steps<L>,
) -> i64
    requires first { first < channels }
    requires second { second < channels }
    requires in_format { All (FitsSigned (word T.format)) frames.now }
    requires start { FitsSigned (accumulator T.format) start }
    ensures sum { result ≡ with_channels T.format start channels frames.now first second }
    ensures fits { FitsSigned (accumulator T.format) result }
    ensures steps { Rises steps.old steps.new (length frames.now / channels)
        (length frames.now / channels) }
{
    if channels == 1 {
        // Numbers that stand one after another are taken in lanes.
        T::add_squares(start, frames, steps)
    } else if channels == 2 {
        // So can frames of a known length.
        add_strided::<T, L>(start, frames, 2, first, second, steps)
    } else {
        add_strided::<T, L>(start, frames, channels, first, second, steps)
    }
}
