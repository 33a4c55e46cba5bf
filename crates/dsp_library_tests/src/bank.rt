//! Callers of dsp_bank: banks beside a cascade for each channel, and worked rows.
ghost use Rattle.std.specs.Prelude.{◌≡◌, ◌≤◌, ◌<◌, ◌-◌, ◌*◌, ◌%◌, IsFalse, length};
ghost use Rattle.dsp_lanes.specs.Turns.{RisesWithin};

use crate::refusals::{refuses_length, refuses_range};
use crate::same::same_count;
use dsp_bank::{Bank, BankSample};
use dsp_biquad::{BiquadCalls, Biquads, Section};
use dsp_defs::Steps;
use dsp_lanes::FormatLanes;
use std::alloc::Global;
use std::fmt::Debug;
use std::process::Abort;
use std::sync::ledger::Ledger;

/// The next number of a generator, in 32 bits.
fn next(seed: &mut i32) -> i32 {
    *seed = seed.wrapping_mul(1664525).wrapping_add(1013904223);
    *seed ^ (*seed >> 15)
}

/// Samples of 16 bits: of any size, or often the ends of the range.
fn samples15(rt: &impl Abort, alloc: Global, seed: &mut i32, count: usize, ends: bool) -> Vec<i16> {
    let mut samples = Vec::with_capacity(alloc, count).expect(rt, "memory");
    for _ in 0..count {
        let value = (next(seed) >> 16) as i16;
        let sample = match value % 3 {
            0 if ends => i16::MIN,
            1 if ends => i16::MAX,
            _ => value,
        };
        samples.push(sample).expect(rt, "memory");
    }
    samples
}

/// Samples of 32 bits.
fn samples31(rt: &impl Abort, alloc: Global, seed: &mut i32, count: usize, ends: bool) -> Vec<i32> {
    let mut samples = Vec::with_capacity(alloc, count).expect(rt, "memory");
    for _ in 0..count {
        let value = next(seed);
        let sample = match value % 3 {
            0 if ends => i32::MIN,
            1 if ends => i32::MAX,
            _ => value,
        };
        samples.push(sample).expect(rt, "memory");
    }
    samples
}

/// As many copies of a value.
fn copies<T: Copy>(rt: &impl Abort, alloc: Global, value: T, count: usize) -> Vec<T>
    ensures { length result.items ≡ count }
{
    vec![in alloc; value; count].expect(rt, "memory")
}

/// A bank in any format, for blocks of at most so many frames.
fn bank_of<T: BankSample + FormatLanes<L>, const L: usize>(
    rt: &impl Abort,
    alloc: Global,
    post_shift: u8,
    coefficients: &[T],
    channels: u8,
    block: usize,
) -> Bank<T, L>
    ensures channels { result.channels ≡ channels }
    ensures capacity { result.capacity ≡ block }
{
    Bank::<T, L>::new(alloc, post_shift, coefficients, channels, block).expect(rt, "a bank")
}

/// Where a piece of so many frames ends that begins at a place of a whole signal, within its length and
/// that of its output.
fn piece_end(
    rt: &impl Abort,
    at: usize,
    frames: usize,
    row: usize,
    length: usize,
    room: usize,
) -> usize
    ensures some { at < result }
    ensures few { result - at ≤ 7 * row }
    ensures whole { (result - at) % row ≡ 0 }
    ensures within { result ≤ length }
    ensures room { result ≤ room }
{
    assert_holds!(rt; 1 <= row);
    assert_holds!(rt; row <= 16);
    let end = length.min(at.saturating_add(frames.saturating_mul(row)));
    assert_holds!(rt; at < end);
    assert_holds!(rt; end - at <= 7 * row);
    assert_holds!(rt; (end - at) % row == 0);
    assert_holds!(rt; end <= room);
    end
}

/// Feeds frames to a bank in pieces of 1, 2, .. 7 frames, and returns what it keeps then.
fn feed_pieces<T: BankSample + FormatLanes<L>, const L: usize, M: Ledger>(
    rt: &impl Abort,
    alloc: Global,
    bank: &mut Bank<T, L>,
    row: usize,
    frames: &[T],
    out: &mut [T],
    steps: &mut Steps<M>,
) -> Vec<i64>
    requires channels { bank.old.channels ≡ row }
    requires capacity { bank.old.capacity ≡ 7 }
    ensures { length bank.new.kept ≡ length bank.old.kept }
{
    let mut at = 0;
    let mut size = 1;
    while at < frames.len() {
        let end = piece_end(rt, at, size, row, frames.len(), out.len());
        bank.process(&frames[at..end], &mut out[at..end], steps);
        at = end;
        size = size % 7 + 1;
    }
    let mut kept = copies(rt, alloc, 0, bank.kept_count());
    bank.keep(kept.as_mut_slice());
    kept
}

/// Reads a channel of frames.
fn channel_of<T: Copy>(
    rt: &impl Abort,
    row: usize,
    channel: usize,
    frames: &[T],
    values: &mut [T],
) {
    let mut at = channel;
    for value in values {
        assert_holds!(rt; at < frames.len());
        *value = frames[at];
        at = at.saturating_add(row);
    }
}

/// How many frames of so many channels a signal has, of which a cascade takes all at once.
fn frame_count(rt: &impl Abort, samples: usize, row: usize) -> usize
    ensures { result ≤ 4096 }
{
    assert_holds!(rt; 1 <= row);
    assert_holds!(rt; row <= 16);
    assert_holds!(rt; samples <= 4096);
    samples / row
}

/// Compares what a bank gave and keeps of a channel with a cascade.
fn compare_cascade<T: BankSample + PartialEq + Debug, M: Ledger>(
    rt: &impl Abort,
    alloc: Global,
    cascade: &mut Biquads<T, Section<T>>,
    row: usize,
    channel: usize,
    frames: &[T],
    given: &[T],
    kept: &[i64],
    steps: &mut Steps<M>,
)
    requires running { IsFalse cascade.old.ended }
    requires capacity { cascade.old.capacity ≡ 4096 }
{
    let count = frame_count(rt, frames.len(), row);
    let mut values = copies(rt, alloc, T::zero(), count);
    let mut outputs = copies(rt, alloc, T::zero(), count);
    channel_of(rt, row, channel, frames, values.as_mut_slice());
    cascade.process(values.as_slice(), outputs.as_mut_slice(), steps);
    channel_of(rt, row, channel, given, values.as_mut_slice());
    assert_same!(rt; outputs.as_slice(), values.as_slice());
    let mut numbers = copies(rt, alloc, 0, cascade.kept_count());
    cascade.keep(numbers.as_mut_slice());
    assert_same!(rt; numbers.as_slice(), kept);
}

/// Compares what a bank gave and keeps with a cascade for each channel.
fn compare<T: BankSample + PartialEq + Debug, M: Ledger>(
    rt: &impl Abort,
    alloc: Global,
    post_shift: u8,
    coefficients: &[T],
    row: usize,
    frames: &[T],
    given: &[T],
    kept: &[i64],
    steps: &mut Steps<M>,
) {
    assert_holds!(rt; 1 <= row);
    let each = kept.len() / row;
    for (channel, numbers) in kept.chunks(each.max(1)).enumerate() {
        let mut cascade = Biquads::<T, Section<T>>::new(
            alloc,
            post_shift,
            coefficients,
            4096,
        ).expect(rt, "a cascade");
        compare_cascade(
            rt,
            alloc,
            &mut cascade,
            row,
            channel,
            frames,
            given,
            numbers,
            steps,
        );
    }
}

/// Runs a bank over half of the frames, and another one, from the numbers that it kept, over the rest.
fn run<T: BankSample + FormatLanes<L> + PartialEq + Debug, const L: usize, M: Ledger>(
    rt: &impl Abort,
    alloc: Global,
    post_shift: u8,
    coefficients: &[T],
    channels: u8,
    frames: &[T],
    steps: &mut Steps<M>,
) {
    let row = usize::from(channels);
    let mut first = bank_of::<T, L>(rt, alloc, post_shift, coefficients, channels, 7);
    let mut second = bank_of::<T, L>(rt, alloc, post_shift, coefficients, channels, 7);
    let mut given = copies(rt, alloc, T::zero(), frames.len());
    let half = 19 * row;
    assert_holds!(rt; half <= frames.len());
    let (early, late) = frames.split_at(half);
    let (early_out, late_out) = given.as_mut_slice().split_at_mut(half);
    let kept = feed_pieces(rt, alloc, &mut first, row, early, early_out, steps);
    assert_holds!(rt; second.fits(kept.as_slice()));
    second.restore(kept.as_slice());
    let kept = feed_pieces(rt, alloc, &mut second, row, late, late_out, steps);
    compare(
        rt,
        alloc,
        post_shift,
        coefficients,
        row,
        frames,
        given.as_slice(),
        kept.as_slice(),
        steps,
    );
}

/// One case in both formats.
fn case<M: Ledger>(
    rt: &impl Abort,
    alloc: Global,
    seed: &mut i32,
    sections: u8,
    channels: u8,
    kind: u8,
    steps: &mut Steps<M>,
) {
    let sections = usize::from(sections);
    let count = 40 * usize::from(channels);
    {
        let coefficients = samples15(rt, alloc, seed, 6 * sections, kind > 0);
        let frames = samples15(rt, alloc, seed, count, kind > 1);
        let shift = [0, 7, 13][usize::from(kind % 3)];
        run::<i16, 8, M>(rt, alloc, shift, &coefficients, channels, &frames, steps);
    }
    let coefficients = samples31(rt, alloc, seed, 5 * sections, kind > 0);
    let frames = samples31(rt, alloc, seed, count, kind > 1);
    let shift = [0, 7, 30][usize::from(kind % 3)];
    run::<i32, 4, M>(rt, alloc, shift, &coefficients, channels, &frames, steps);
}

/// On 1 to 16 channels, of 1, 2, 3 and 64 sections.
fn all_cases<M: Ledger>(rt: &impl Abort, alloc: Global, steps: &mut Steps<M>) {
    let mut seed = 7;
    for channels in 1..17 {
        for kind in 0..3 {
            for sections in 1..4 {
                case(rt, alloc, &mut seed, sections, channels, kind, steps);
            }
        }
        case(rt, alloc, &mut seed, 64, channels, 1, steps);
    }
}

/// Four frames of 8 channels, of which three are not silent.
const EIGHT_CHANNELS: [i16; 32] = [
    800, 0, 0, 0, 0, 0, -1600, 3200, // the first frame
    0, 0, 0, 0, 0, 0, 0, -32768, // the second one
    0, 0, 0, 0, 0, 0, 0, 0, // and silence
    0, 0, 0, 0, 0, 0, 0, 0,
];

/// What a section gives of them, whose feedback halves.
const EIGHT_HALVED: [i16; 32] = [
    400, 0, 0, 0, 0, 0, -800, 1600, // half of the input
    200, 0, 0, 0, 0, 0, -400, -15584, // and half of the output before
    100, 0, 0, 0, 0, 0, -200, -7792, // and so on
    50, 0, 0, 0, 0, 0, -100, -3896,
];

/// And what it keeps.
const EIGHT_KEPT: [i64; 32] = [
    0, 0, 50, 100, 0, 0, 0, 0, 0, 0, 0, 0, 0, 0, 0, 0, 0, 0, 0, 0, 0, 0, 0, 0, 0, 0, -100, -200, 0,
    0, -3896, -7792,
];

/// A section on 8 channels and 4 frames: 160 products, in 20 turns.
fn eight_channels<M: Ledger>(rt: &impl Abort, alloc: Global, steps: &mut Steps<M>)
    ensures { RisesWithin steps.old steps.new 160 20 }
{
    let mut bank = Bank::<i16, 8>::new(alloc, 0, &[16384, 0, 0, 0, 16384, 0], 8, 4).expect(
        rt, "a bank",
    );
    let mut out = [7i16; 32];
    bank.process(&EIGHT_CHANNELS, &mut out, steps);
    assert_same!(rt; out, EIGHT_HALVED);
    let mut kept = [7i64; 32];
    same_count(rt, bank.kept_count(), 32);
    bank.keep(&mut kept);
    assert_same!(rt; kept, EIGHT_KEPT);
}

/// The same in Q31 on 3 channels, none of which is a whole group.
fn three_channels<M: Ledger>(rt: &impl Abort, alloc: Global, steps: &mut Steps<M>)
    ensures { RisesWithin steps.old steps.new 30 30 }
{
    let coefficients = [1073741824, 0, 0, 1073741824, 0];
    let mut bank = Bank::<i32, 4>::new(alloc, 0, &coefficients, 3, 2).expect(rt, "a bank");
    let mut out = [7i32; 6];
    bank.process(&[800, -1600, i32::MIN, 0, 0, 0], &mut out, steps);
    assert_same!(rt; out, [400, -800, -1073741824, 200, -400, -536870912]);
}

/// The calls that count their products.
pub(crate) fn counted<M: Ledger>(rt: &impl Abort, alloc: Global, steps: &mut Steps<M>) {
    all_cases(rt, alloc, steps);
    eight_channels(rt, alloc, steps);
    three_channels(rt, alloc, steps);
}

#[test]
fn faults(rt: HostRuntime) {
    let alloc = rt.alloc();
    refuses_length(&rt, Bank::<i16, 8>::new(alloc, 14, &[0; 5], 17, 0), 5, 6);
    refuses_range(&rt, Bank::<i16, 8>::new(alloc, 14, &[0; 6], 17, 0), 14);
    refuses_range(&rt, Bank::<i32, 4>::new(alloc, 30, &[0; 5], 17, 0), 17);
    refuses_range(&rt, Bank::<i32, 4>::new(alloc, 30, &[0; 5], 16, 0), 0);
    let bank = bank_of::<i16, 8>(&rt, alloc, 13, &[0; 6], 2, 4);
    let few = bank.fits(&[0; 4]);
    let wide = bank.fits(&[0, 0, 0, 0, 0, 0, 0, 32768]);
    assert_same!(&rt; (few, wide, bank.fits(&[-32768; 8])), (false, false, true));
}
