ghost use Rattle.std.specs.Prelude.{◌≡◌, ◌≢◌, ◌≤◌, ◌<◌, ◌+◌, ◌*◌, ℕ, All, FitsSigned, IsFalse, length, map};
ghost use Rattle.dsp_unit.specs.Channels.{AreFed, AreFinished, samples_in};
ghost use Rattle.dsp_unit.specs.Filter.{AreFilters, FilterAccepts, filter_at, filter_room};
ghost use Rattle.dsp_defs.specs.Formats.{word};
ghost use Rattle.dsp_defs.specs.Signal.{sample};

use crate::Filter;
use dsp_defs::Steps;
use dsp_sat::Sample;
use std::sync::ledger::Ledger;

/// Reads one channel of frames.
#[inline(always)]
fn take_strided<T: Sample>(frames: &[i32], channels: usize, channel: usize, input: &mut [T])
    requires inside { channel < channels }
    requires whole { length frames.now ≡ length input.old * channels }
    requires in_format { All (FitsSigned (word T.format)) frames.now }
    ensures { map T.number input.new ≡ samples_in channels (length input.old) frames.now channel }
{
    for (n, sample) in input.iter_mut().enumerate() {
        *sample = T::of_number(frames[n * channels + channel]);
    }
}

/// Reads one channel of frames; of one or two channels by a loop whose stride is known.
fn take_channel<T: Sample>(frames: &[i32], channels: usize, channel: usize, input: &mut [T])
    requires inside { channel < channels }
    requires whole { length frames.now ≡ length input.old * channels }
    requires in_format { All (FitsSigned (word T.format)) frames.now }
    ensures { map T.number input.new ≡ samples_in channels (length input.old) frames.now channel }
{
    match channels {
        1 => take_strided(frames, 1, 0, input),
        2 => take_strided(frames, 2, channel, input),
        _ => take_strided(frames, channels, channel, input),
    }
}

/// Writes one channel of frames.
#[inline(always)]
fn put_strided<T: Sample>(output: &[T], channels: usize, channel: usize, out: &mut [i32])
    requires inside { channel < channels }
    requires room { length output.now * channels ≤ length out.old }
    ensures here { (n : ℕ) → n < length output.now → sample out.new (n * channels + channel)
        ≡ sample (map T.number output.now) n }
    ensures fits { (n : ℕ) → n < length output.now
        → FitsSigned (word T.format) (sample out.new (n * channels + channel)) }
    ensures elsewhere { (n c : ℕ) → c < channels → c ≢ channel → sample out.new (n * channels + c)
        ≡ sample out.old (n * channels + c) }
{
    for (n, sample) in output.iter().enumerate() {
        out[n * channels + channel] = sample.number();
    }
}

/// Writes one channel of frames; of one or two channels by a loop whose stride is known.
fn put_channel<T: Sample>(output: &[T], channels: usize, channel: usize, out: &mut [i32])
    requires inside { channel < channels }
    requires room { length output.now * channels ≤ length out.old }
    ensures here { (n : ℕ) → n < length output.now → sample out.new (n * channels + channel)
        ≡ sample (map T.number output.now) n }
    ensures fits { (n : ℕ) → n < length output.now
        → FitsSigned (word T.format) (sample out.new (n * channels + channel)) }
    ensures elsewhere { (n c : ℕ) → c < channels → c ≢ channel → sample out.new (n * channels + c)
        ≡ sample out.old (n * channels + c) }
{
    match channels {
        1 => put_strided(output, 1, 0, out),
        2 => put_strided(output, 2, channel, out),
        _ => put_strided(output, channels, channel, out),
    }
}

/// Feeds each channel of frames to its filter, and answers the number of frames given.
fn feed_channels<T: Sample, F: Filter<T>, L: Ledger>(
    filters: &mut [F],
    frames: &[i32],
    input: &mut [T],
    output: &mut [T],
    out: &mut [i32],
    steps: &mut Steps<L>,
) -> usize
    requires alike { AreFilters T.format (filter_at (map F.filter filters.old) 0).capacity
        (map F.filter filters.old) }
    requires running { IsFalse (filter_at (map F.filter filters.old) 0).ended }
    requires whole { length frames.now ≡ length input.old * length filters.old }
    requires in_format { All (FitsSigned (word T.format)) frames.now }
    requires capacity { length input.old ≤ (filter_at (map F.filter filters.old) 0).capacity }
    requires accepts { All (λ f. FilterAccepts f (length input.old)) (map F.filter filters.old) }
    requires output { length output.old ≡ filter_room (filter_at (map F.filter filters.old) 0) }
    requires room { length output.old * length filters.old ≤ length out.old }
    ensures within { result ≤ length output.old }
    ensures fed { AreFed (map F.filter filters.old) (map F.filter filters.new)
        (length input.old) frames.now result out.new steps.old steps.new }
    ensures fits { (n c : ℕ) → n < result → c < length filters.old
        → FitsSigned (word T.format) (sample out.new (n * length filters.old + c)) }
{
    let channels = filters.len();
    let mut given = 0;
    for channel in 0..channels {
        take_channel(frames, channels, channel, input);
        given = filters[channel].process(input, output, steps);
        put_channel(&output[..given], channels, channel, out);
    }
    given
}

/// Feeds `count` frames, by way of a row that holds a call's samples of a channel and one that holds
/// the values that a call gives of it, and answers the number of frames given.
pub fn feed_block<T: Sample, F: Filter<T>, L: Ledger>(
    filters: &mut [F],
    frames: &[i32],
    count: usize,
    input: &mut [T],
    output: &mut [T],
    out: &mut [i32],
    steps: &mut Steps<L>,
) -> usize
    requires alike { AreFilters T.format (length input.old) (map F.filter filters.old) }
    requires running { IsFalse (filter_at (map F.filter filters.old) 0).ended }
    requires whole { length frames.now ≡ count * length filters.old }
    requires in_format { All (FitsSigned (word T.format)) frames.now }
    requires input { count ≤ length input.old }
    requires accepts { All (λ f. FilterAccepts f count) (map F.filter filters.old) }
    requires output { length output.old ≡ filter_room (filter_at (map F.filter filters.old) 0) }
    requires room { length output.old * length filters.old ≤ length out.old }
    ensures within { result ≤ length output.old }
    ensures fed { AreFed (map F.filter filters.old)
        (map F.filter filters.new) count frames.now result out.new steps.old steps.new }
    ensures fits { (n c : ℕ) → n < result → c < length filters.old
        → FitsSigned (word T.format) (sample out.new (n * length filters.old + c)) }
{
    feed_channels(filters, frames, &mut input[..count], output, out, steps)
}

/// Writes the next frames of the tails, by way of a row that holds the values that a call gives of a
/// channel, and answers their number.
pub fn finish_channels<T: Sample, F: Filter<T>, L: Ledger>(
    filters: &mut [F],
    output: &mut [T],
    out: &mut [i32],
    steps: &mut Steps<L>,
) -> usize
    requires alike { AreFilters T.format (filter_at (map F.filter filters.old) 0).capacity
        (map F.filter filters.old) }
    requires output { length output.old ≡ filter_room (filter_at (map F.filter filters.old) 0) }
    requires room { length output.old * length filters.old ≤ length out.old }
    ensures within { result ≤ length output.old }
    ensures finished { AreFinished (map F.filter filters.old)
        (map F.filter filters.new) result out.new steps.old steps.new }
    ensures fits { (n c : ℕ) → n < result → c < length filters.old
        → FitsSigned (word T.format) (sample out.new (n * length filters.old + c)) }
{
    let channels = filters.len();
    let mut given = 0;
    for channel in 0..channels {
        given = filters[channel].finish(output, steps);
        put_channel(&output[..given], channels, channel, out);
    }
    given
}
