//! Callers of dsp_conv.
ghost use Rattle.std.specs.Prelude.{◌≡◌, ◌≤◌, ◌+◌, ◌-◌, IsFalse, length};

use crate::refusals::{refuses_length, refuses_range};
use crate::same::same_count;
use dsp_conv::{
    Conv, ConvPartial, Convolution, Correlate, Gather, conv_partial_slices, conv_slices,
    correlate_slices,
};
use dsp_defs::{GatherFull, MAX_GATHERED, MAX_SAMPLES, MAX_TAPS, Steps, WindowFault};
use dsp_lanes::LaneSample;
use std::alloc::Global;
use std::fmt::Debug;
use std::process::Abort;
use std::sync::ledger::Ledger;

/// In blocks of one sample each value takes two turns, and the tail is one value.
fn few_turns<M: Ledger>(rt: &impl Abort, alloc: Global, steps: &mut Steps<M>)
    ensures multiplies { steps.new.multiplies ≡ steps.old.multiplies + 6 }
    ensures turns { steps.new.turns ≤ steps.old.turns + 6 }
{
    let mut filter = Conv::<i16, 8>::new(alloc, &[16384, 16384], 1).expect(rt, "a convolution");
    let mut output = [7i16; 3];
    assert_gives!(rt; filter.process(&[2], &mut output, steps), 1, output, [1, 7, 7]);
    assert_gives!(rt; filter.process(&[4], &mut output, steps), 1, output, [3, 7, 7]);
    assert_gives!(rt; filter.finish(&mut output, steps), 1, output, [2, 7, 7]);
    assert_gives!(rt; filter.finish(&mut output, steps), 0, output, [2, 7, 7]);
}

/// A convolution in any format, for blocks of at most so many samples.
fn conv_of<T: LaneSample<L>, const L: usize>(
    rt: &impl Abort,
    alloc: Global,
    taps: &[T],
    block: usize,
) -> Conv<T, L>
    ensures running { IsFalse result.ended }
    ensures block { result.block ≡ block }
    ensures past { length result.past ≡ length taps.now - 1 }
{
    Conv::<T, L>::new(alloc, taps, block).expect(rt, "a convolution")
}

/// Feeds a convolution, and compares how many values it gives and its output, of which the rest stays as
/// it was.
fn gives<T: LaneSample<L> + PartialEq + Debug, const L: usize, K: Copy, M: Ledger>(
    rt: &impl Abort,
    filter: &mut Convolution<T, L, K>,
    input: &[T],
    output: &mut [T],
    count: usize,
    wanted: &[T],
    steps: &mut Steps<M>,
)
    requires running { IsFalse filter.old.ended }
    requires block { length input.now ≤ filter.old.block }
{
    assert_holds!(rt; input.len() <= output.len());
    assert_same!(rt; filter.process(input, output, steps), count);
    assert_same!(rt; &*output, wanted);
}

/// A convolution of four taps, for blocks of two samples.
fn of_four_taps(rt: &impl Abort, alloc: Global) -> Conv<i16, 8>
    ensures running { IsFalse result.ended }
    ensures block { result.block ≡ 2 }
    ensures past { length result.past ≡ 3 }
{
    conv_of(rt, alloc, &[16384, 0, 16384, 8192], 2)
}

/// A convolution keeps its last samples, and its place behind them.
fn keeps<M: Ledger>(rt: &impl Abort, alloc: Global, steps: &mut Steps<M>) {
    let mut filter = of_four_taps(rt, alloc);
    let mut kept = [7i64; 4];
    same_count(rt, filter.kept_count(), 4);
    filter.keep(&mut kept);
    assert_same!(rt; (filter.room(2), kept), (2, [0, 0, 0, 0]));
    filter.process(&[2, 4], &mut [0; 2], steps);
    same_count(rt, filter.kept_count(), 4);
    filter.keep(&mut kept);
    assert_same!(rt; kept, [0, 2, 4, 1]);
}

/// Gives the next piece of a tail, as much as fits in two samples.
fn tail_gives<M: Ledger>(
    rt: &impl Abort,
    filter: &mut Conv<i16, 8>,
    count: usize,
    wanted: [i16; 2],
    steps: &mut Steps<M>,
) {
    let mut piece = [7i16; 2];
    assert_gives!(rt; filter.finish(&mut piece, steps), count, piece, wanted);
}

/// A convolution takes no numbers that none keeps: too few, one that is no sample, and places that it
/// never has. It goes on where another one was kept, and its tail comes as it fits.
fn goes_on<M: Ledger>(rt: &impl Abort, alloc: Global, steps: &mut Steps<M>) {
    let mut filter = of_four_taps(rt, alloc);
    let (few, wide) = (filter.fits(&[0, 2, 4]), filter.fits(&[0, 2, 32768, 1]));
    let (late, early) = (filter.fits(&[0, 2, 4, 2]), filter.fits(&[0, 2, 4, -1]));
    assert_same!(rt; (few, wide, late, early), (false, false, false, false));
    let kept = [0i64, 2, 4, 1];
    assert_holds!(rt; filter.fits(&kept));
    filter.restore(&kept);
    let running = !filter.is_ended();
    let given = filter.finish(&mut [], steps);
    assert_same!(rt; (running, given, filter.is_ended()), (true, 0, true));
    tail_gives(rt, &mut filter, 2, [1, 2], steps);
    tail_gives(rt, &mut filter, 1, [1, 7], steps);
    tail_gives(rt, &mut filter, 0, [7, 7], steps);
}

/// A correlation gathers its samples, and gives all its values at the end, as they fit.
fn gathered<M: Ledger>(rt: &impl Abort, alloc: Global, steps: &mut Steps<M>) {
    let mut correlate = Correlate::new(alloc, &[16384i16]).expect(rt, "a correlation");
    assert_holds!(rt; correlate.put(&[2, 4]).is_ok());
    assert_holds!(rt; correlate.put(&[6]).is_ok());
    assert_holds!(rt; !correlate.is_ended());
    let mut output = [7i16; 3];
    assert_gives!(rt; correlate.finish(&mut output, steps), 3, output, [0, 0, 1]);
    assert_gives!(rt; correlate.finish(&mut output, steps), 2, output, [2, 3, 1]);
    assert_same!(rt; (correlate.finish(&mut output, steps), correlate.is_ended()), (0, true));
}

/// The calls over slices.
fn sliced<M: Ledger>(rt: &impl Abort, steps: &mut Steps<M>) {
    {
        let mut full = [7i16; 3];
        conv_slices(&[2, 4], &[16384, 16384], &mut full, steps);
        assert_same!(rt; full, [1, 3, 2]);
    }
    {
        let mut part = [7i16; 2];
        let done = conv_partial_slices(&[2, 4], &[16384, 16384], 1, &mut part, steps);
        assert_same!(rt; (done, part), (Ok(()), [3, 2]));
        let fault = conv_partial_slices(&[2, 4], &[16384, 16384], 2, &mut part, steps);
        assert_same!(rt; fault, Err(WindowFault { end: 4, length: 3 }));
    }
    let mut values = [7i16; 5];
    correlate_slices(&[2, 4, 6], &[16384], &mut values, steps);
    assert_same!(rt; values, [0, 0, 1, 2, 3]);
}

/// A part of a convolution gives its window alone, here the values behind the first.
fn part<M: Ledger>(rt: &impl Abort, alloc: Global, steps: &mut Steps<M>) {
    let mut filter = ConvPartial::<i16, 8>::new(alloc, 1, 2, &[16384, 16384], 2).expect(
        rt, "a part",
    );
    let mut output = [7i16; 2];
    assert_gives!(rt; filter.process(&[2, 4], &mut output, steps), 1, output, [3, 7]);
    assert_gives!(rt; filter.finish(&mut output, steps), 1, output, [2, 7]);
    assert_same!(rt; filter.finish(&mut output, steps), 0);
}

/// Convolutions in the other formats.
fn other_formats<M: Ledger>(rt: &impl Abort, alloc: Global, steps: &mut Steps<M>) {
    {
        let mut narrow = conv_of::<i8, 16>(rt, alloc, &[127], 1);
        gives(rt, &mut narrow, &[126], &mut [0], 1, &[125], steps);
    }
    let mut wide = conv_of::<i32, 4>(rt, alloc, &[i32::MIN, i32::MIN], 3);
    let input = [i32::MIN, i32::MIN];
    gives(
        rt,
        &mut wide,
        &input,
        &mut [0; 3],
        2,
        &[i32::MIN, 0, 0],
        steps,
    );
}

/// The calls that count their products.
pub(crate) fn counted<M: Ledger>(rt: &impl Abort, alloc: Global, steps: &mut Steps<M>) {
    few_turns(rt, alloc, steps);
    keeps(rt, alloc, steps);
    goes_on(rt, alloc, steps);
    part(rt, alloc, steps);
    other_formats(rt, alloc, steps);
    gathered(rt, alloc, steps);
    sliced(rt, steps);
}

#[test]
fn faults(rt: HostRuntime) {
    let alloc = rt.alloc();
    refuses_length(&rt, Conv::<i16, 8>::new(alloc, &[], 0), 0, 1);
    refuses_length(
        &rt,
        Conv::<i8, 16>::new(alloc, &[1; MAX_TAPS + 1], 1),
        16_385,
        1,
    );
    refuses_range(&rt, Conv::<i32, 4>::new(alloc, &[1], 1048577), 1048577);
    refuses_range(
        &rt,
        ConvPartial::<i16, 8>::new(alloc, 4294967296, 0, &[1], 0),
        4294967296,
    );
    refuses_range(
        &rt,
        ConvPartial::<i16, 8>::new(alloc, 4294967295, 0, &[1], 0),
        0,
    );
    assert_holds!(&rt; Correlate::<i8>::new(alloc, &[]).is_err());
    assert_holds!(&rt; Conv::<i16, 8>::new(alloc, &[1; MAX_TAPS], MAX_SAMPLES).is_ok());
}

/// A gather holds 1,048,576 samples and no more.
#[test]
fn full_gather(rt: HostRuntime) {
    let mut gather = Gather::<i16>::new(rt.alloc()).expect(&rt, "a gather");
    for _ in 0..MAX_GATHERED / 4096 {
        assert_holds!(&rt; gather.put(&[5; 4096]).is_ok());
    }
    assert_same!(&rt; gather.slice().len(), MAX_GATHERED);
    let fault = GatherFull {
        held: 1048576,
        more: 1,
    };
    assert_same!(&rt; gather.put(&[5]), Err(fault));
    assert_holds!(&rt; gather.put(&[]).is_ok());
}
