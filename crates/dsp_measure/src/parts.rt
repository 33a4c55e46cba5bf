//! What the measures of a unit do with the numbers that they keep, one after another.
ghost use Rattle.std.specs.Prelude.{◌≡◌, ◌+◌, ◌++◌, ◌*◌, ◌/◌, ◌<◌, ◌≤◌, ◌∷◌, [], ℕ, ℤ, All, FitsSigned, List};
ghost use Rattle.std.specs.Prelude.{length};
ghost use Rattle.dsp_unit.specs.Channels.{samples_in};
ghost use Rattle.dsp_defs.specs.Kept.{Each, IsOfKind, extreme_kept, extreme_kinds, in_words};
ghost use Rattle.dsp_defs.specs.Counts.{Rises};
ghost use Rattle.dsp_defs.specs.Formats.{accumulator, word};
ghost use Rattle.dsp_defs.specs.Signal.{sample};
ghost use Rattle.dsp_measure.specs.Extremes.{extreme, IsFew, KeepsExtreme};
ghost use Rattle.dsp_measure.specs.Measures.{AllCanTake, CanTake, PartFeeds, PartsFeed, RisesFor};
ghost use Rattle.dsp_measure.specs.Measures.{channels_of, parts_of, price_of};
ghost use Rattle.dsp_measure.specs.Sums.{with_channels, with_complex_channels};

use crate::complex_products::add_complex_channels;
use crate::measure_block::MeasureBlock;
use crate::products::add_channels;
use crate::{Extreme, Greatest, Least, MeasureSample, Order};
use dsp_defs::{Fmt, Steps};
use std::sync::ledger::Ledger;

/// One sum takes the products of two channels of the frames.
fn feed_sum<T: MeasureSample, L: Ledger>(
    numbers: &mut [i64],
    frames: &[i32],
    channels: usize,
    first: usize,
    second: usize,
    steps: &mut Steps<L>,
)
    requires first { first < channels }
    requires second { second < channels }
    requires in_format { All (FitsSigned (word T.format)) frames.now }
    requires kept { Each IsOfKind (in_words (accumulator T.format) 1) numbers.old }
    ensures sum { numbers.new ≡ with_channels T.format
        (sample numbers.old 0) channels frames.now first second ∷ [] }
    ensures kept { Each IsOfKind (in_words (accumulator T.format) 1) numbers.new }
    ensures steps { Rises steps.old steps.new (length frames.now / channels)
        (length frames.now / channels) }
{
    numbers[0] = add_channels::<T, L>(numbers[0], frames, channels, first, second, steps);
}

/// Two sums take the complex products of the first four channels of the frames.
fn feed_complex<T: MeasureSample, L: Ledger>(
    numbers: &mut [i64],
    frames: &[i32],
    channels: usize,
    steps: &mut Steps<L>,
)
    requires channels { 4 ≤ channels }
    requires in_format { All (FitsSigned (word T.format)) frames.now }
    requires kept { Each IsOfKind (in_words (accumulator T.format) 2) numbers.old }
    ensures re { sample numbers.new 0 ≡
        (with_complex_channels T.format
        (sample numbers.old 0, sample numbers.old 1) channels frames.now).0 }
    ensures im { sample numbers.new 1 ≡
        (with_complex_channels T.format
        (sample numbers.old 0, sample numbers.old 1) channels frames.now).1 }
    ensures kept { Each IsOfKind (in_words (accumulator T.format) 2) numbers.new }
    ensures steps { Rises steps.old steps.new (4 * (length frames.now / channels))
        (4 * (length frames.now / channels)) }
{
    let sums = (numbers[0], numbers[1]);
    let (re, im) = add_complex_channels::<T, L>(sums, frames, channels, steps);
    numbers[0] = re;
    numbers[1] = im;
}

/// An extreme takes one channel of the frames.
fn feed_extreme<T: MeasureSample, O: Order>(
    numbers: &mut [i64],
    frames: &[i32],
    channels: usize,
    channel: usize,
)
    requires inside { channel < channels }
    requires in_format { All (FitsSigned (word T.format)) frames.now }
    requires kept { (n : ℕ) × Each IsOfKind (extreme_kinds T.format n) numbers.old
        × IsFew (n + length frames.now / channels) }
    ensures stands { (x : List ℤ) → numbers.old ≡ extreme_kept (extreme O.least x) (length x)
        → numbers.new
        ≡ extreme_kept (extreme O.least
        (x ++ samples_in channels (length frames.now / channels) frames.now channel))
        (length x + length frames.now / channels) }
    ensures kept { (n : ℕ) → Each IsOfKind (extreme_kinds T.format n) numbers.old
        → Each IsOfKind (extreme_kinds T.format (n + length frames.now / channels)) numbers.new }
{
    let mut extreme = Extreme::<T, O>::new();
    extreme.restore(numbers);
    extreme.put_channel(frames, channels, channel);
    extreme.keep(numbers);
}

/// One measure takes the frames.
fn feed_part<T: MeasureSample, L: Ledger>(
    measure: MeasureBlock,
    numbers: &mut [i64],
    frames: &[i32],
    channels: usize,
    part: usize,
    steps: &mut Steps<L>,
)
    requires part { part < parts_of measure channels }
    requires channels { channels_of measure ≤ channels }
    requires in_format { All (FitsSigned (word T.format)) frames.now }
    requires kept { CanTake T.format measure (length frames.now / channels) numbers.old }
    ensures fed { PartFeeds T.format measure channels part frames.now numbers.old numbers.new }
    ensures steps { Rises steps.old steps.new (price_of measure * (length frames.now / channels))
        (price_of measure * (length frames.now / channels)) }
{
    match measure {
        MeasureBlock::Power => feed_sum::<T, L>(numbers, frames, channels, part, part, steps),
        MeasureBlock::Dot => feed_sum::<T, L>(numbers, frames, channels, 0, 1, steps),
        MeasureBlock::CmplxDot => feed_complex::<T, L>(numbers, frames, channels, steps),
        MeasureBlock::Max => feed_extreme::<T, Greatest>(numbers, frames, channels, part),
        MeasureBlock::Min => feed_extreme::<T, Least>(numbers, frames, channels, part),
    }
}

/// Each measure takes the frames.
fn feed_each<T: MeasureSample, L: Ledger>(
    measure: MeasureBlock,
    kept: &mut [i64],
    frames: &[i32],
    channels: usize,
    steps: &mut Steps<L>,
)
    requires channels { channels_of measure ≤ channels }
    requires in_format { All (FitsSigned (word T.format)) frames.now }
    requires kept { AllCanTake T.format channels measure (length frames.now / channels) kept.old }
    ensures fed { PartsFeed T.format measure channels frames.now kept.old kept.new }
    ensures steps { RisesFor measure (parts_of measure channels)
        (length frames.now / channels) steps.old steps.new }
{
    let size = measure.size();
    for part in 0..measure.parts(channels) {
        let start = part * size;
        let numbers = &mut kept[start..start + size];
        feed_part::<T, L>(measure, numbers, frames, channels, part, steps);
    }
}

/// Each measure takes the frames, which are of this format.
pub fn feed_parts<L: Ledger>(
    measure: MeasureBlock,
    format: Fmt,
    kept: &mut [i64],
    frames: &[i32],
    channels: usize,
    steps: &mut Steps<L>,
)
    requires channels { channels_of measure ≤ channels }
    requires in_format { All (FitsSigned (word format)) frames.now }
    requires kept { AllCanTake format channels measure (length frames.now / channels) kept.old }
    ensures fed { PartsFeed format measure channels frames.now kept.old kept.new }
    ensures steps { RisesFor measure (parts_of measure channels)
        (length frames.now / channels) steps.old steps.new }
{
    match format {
        Fmt::Q7 => feed_each::<i8, L>(measure, kept, frames, channels, steps),
        Fmt::Q15 => feed_each::<i16, L>(measure, kept, frames, channels, steps),
        Fmt::Q31 => feed_each::<i32, L>(measure, kept, frames, channels, steps),
    }
}
