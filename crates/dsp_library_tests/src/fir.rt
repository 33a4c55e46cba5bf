//! Callers of dsp_fir.
ghost use Rattle.std.specs.Prelude.{◌≡◌, ◌≤◌, ◌+◌, IsFalse, length};

use crate::refusals::{refuses_length, refuses_range};
use crate::same::same_count;
use dsp_defs::Steps;
use dsp_fir::{Fir, Sparse, WindowFilter};
use dsp_lanes::LaneSample;
use std::alloc::Global;
use std::fmt::Debug;
use std::process::Abort;
use std::sync::ledger::Ledger;

/// A FIR filter in any format, for blocks of at most so many samples.
fn fir_of<T: LaneSample<L>, const L: usize>(
    rt: &impl Abort,
    alloc: Global,
    taps: &[T],
    block: usize,
) -> Fir<T, L>
    ensures running { IsFalse result.ended }
    ensures block { result.capacity ≡ block }
{
    Fir::<T, L>::new(alloc, taps, block).expect(rt, "a filter")
}

/// Feeds a filter, and compares its output, of which the rest stays as it was.
fn gives<T: LaneSample<L> + PartialEq + Debug, const L: usize, K: Copy, M: Ledger>(
    rt: &impl Abort,
    filter: &mut WindowFilter<T, L, K>,
    input: &[T],
    output: &mut [T],
    wanted: &[T],
    steps: &mut Steps<M>,
)
    requires running { IsFalse filter.old.ended }
    requires block { length input.now ≤ filter.old.capacity }
{
    assert_holds!(rt; input.len() <= output.len());
    assert_same!(rt; filter.process(input, output, steps), input.len());
    assert_same!(rt; &*output, wanted);
}

/// What a moving sum of three samples gives of 37 of 1024 each: whole groups of lanes and a rest.
const THREE_QUARTERS: [i16; 37] = [
    256, 512, 768, 768, 768, 768, 768, 768, 768, 768, 768, 768, 768, 768, 768, 768, 768, 768, 768,
    768, 768, 768, 768, 768, 768, 768, 768, 768, 768, 768, 768, 768, 768, 768, 768, 768, 768,
];

fn long_block<M: Ledger>(rt: &impl Abort, alloc: Global, steps: &mut Steps<M>) {
    let mut fir = Fir::<i16, 8>::new(alloc, &[8192; 3], 37).expect(rt, "a filter");
    gives(
        rt,
        &mut fir,
        &[1024; 37],
        &mut [0; 37],
        &THREE_QUARTERS,
        steps,
    );
}

fn long_sparse_block<M: Ledger>(rt: &impl Abort, alloc: Global, steps: &mut Steps<M>) {
    let mut sparse = Sparse::<i16, 8>::new(alloc, &[8192; 3], &[2, 0, 1], 37).expect(
        rt, "a filter",
    );
    gives(
        rt,
        &mut sparse,
        &[1024; 37],
        &mut [0; 37],
        &THREE_QUARTERS,
        steps,
    );
}

/// A sample by three taps takes three turns, and no samples take none.
fn few_turns<M: Ledger>(rt: &impl Abort, alloc: Global, steps: &mut Steps<M>)
    ensures { steps.new.turns ≤ steps.old.turns + 3 }
{
    let mut filter = Fir::<i16, 8>::new(alloc, &[16384, 0, 8192], 1).expect(rt, "a filter");
    assert_same!(rt; filter.room(1), 1);
    let mut output = [7, 7];
    assert_gives!(rt; filter.process(&[4], &mut output, steps), 1, output, [1, 7]);
    assert_gives!(rt; filter.process(&[], &mut output, steps), 0, output, [1, 7]);
}

/// A FIR filter of two taps, for blocks of two samples.
fn of_two_taps(rt: &impl Abort, alloc: Global) -> Fir<i16, 8>
    ensures running { IsFalse result.ended }
    ensures block { result.capacity ≡ 2 }
    ensures past { length result.past ≡ 1 }
{
    Fir::<i16, 8>::new(alloc, &[8192, 16384], 2).expect(rt, "a filter")
}

/// A FIR filter keeps the last samples, as many numbers as its past has.
fn fir_keeps<M: Ledger>(rt: &impl Abort, alloc: Global, steps: &mut Steps<M>) -> [i64; 1] {
    let mut output = [0i16; 2];
    let mut kept = [0i64; 1];
    let mut filter = of_two_taps(rt, alloc);
    assert_same!(rt; filter.kept_count(), 1);
    assert_gives!(rt; filter.process(&[4, 8], &mut output, steps), 2, output, [2, 5]);
    assert_same!(rt; filter.kept_count(), 1);
    filter.keep(&mut kept);
    assert_same!(rt; kept, [8]);
    kept
}

/// Another FIR filter of the same taps goes on from what that one kept, and gives what the first would
/// have given. It keeps no number of another format, and has no tail.
fn fir_goes_on<M: Ledger>(rt: &impl Abort, alloc: Global, kept: &[i64; 1], steps: &mut Steps<M>) {
    let mut output = [7i16; 2];
    let mut filter = of_two_taps(rt, alloc);
    assert_holds!(rt; !filter.fits(&[32768]));
    assert_holds!(rt; !filter.fits(&[]));
    assert_holds!(rt; filter.fits(kept));
    filter.restore(kept);
    assert_gives!(rt; filter.process(&[0], &mut output, steps), 1, output, [2, 7]);
    assert_gives!(rt; filter.finish(&mut [], steps), 0, output, [2, 7]);
    assert_holds!(rt; filter.is_ended());
}

/// A sparse filter of two delays, for blocks of two samples.
fn of_two_delays(rt: &impl Abort, alloc: Global) -> Sparse<i16, 8>
    ensures running { IsFalse result.ended }
    ensures block { result.capacity ≡ 2 }
    ensures past { length result.past ≡ 1 }
{
    Sparse::<i16, 8>::new(alloc, &[19950, -32193], &[0, 1], 2).expect(rt, "a filter")
}

/// A sparse filter keeps the sample that its greatest delay still wants.
fn sparse_keeps<M: Ledger>(rt: &impl Abort, alloc: Global, steps: &mut Steps<M>) {
    let mut filter = of_two_delays(rt, alloc);
    assert_same!(rt; filter.room(2), 2);
    let mut output = [0i16; 2];
    assert_gives!(rt;
        filter.process(&[16384, 16385], &mut output, steps),
        2, output, [9975, -6121]
    );
    let mut kept = [0i64; 1];
    same_count(rt, filter.kept_count(), 1);
    filter.keep(&mut kept);
    assert_same!(rt; kept, [16385]);
}

/// Another sparse filter goes on from what that one kept. It takes no number of another format, and has
/// no tail.
fn sparse_goes_on<M: Ledger>(rt: &impl Abort, alloc: Global, steps: &mut Steps<M>) {
    let mut filter = of_two_delays(rt, alloc);
    assert_holds!(rt; !filter.fits(&[-32769]));
    let kept = [16385i64];
    assert_holds!(rt; filter.fits(&kept));
    filter.restore(&kept);
    let mut output = [0i16; 2];
    assert_gives!(rt; filter.process(&[32767], &mut output, steps), 1, output, [3851, 0]);
    let running = !filter.is_ended();
    let given = filter.finish(&mut [], steps);
    assert_same!(rt; (running, given, output, filter.is_ended()), (true, 0, [3851, 0], true));
}

/// In the other formats: twice the least number does not saturate in Q31, and is the greatest in Q7.
fn other_formats<M: Ledger>(rt: &impl Abort, alloc: Global, steps: &mut Steps<M>) {
    {
        let mut wide = fir_of::<i32, 4>(rt, alloc, &[i32::MIN; 2], 2);
        gives(
            rt,
            &mut wide,
            &[i32::MIN; 2],
            &mut [7; 2],
            &[i32::MIN, 0],
            steps,
        );
    }
    let mut narrow = fir_of::<i8, 16>(rt, alloc, &[-128; 2], 2);
    gives(rt, &mut narrow, &[-128; 2], &mut [0; 2], &[127, 127], steps);
}

/// The sum of a sparse filter has 32 bits, and that of a FIR filter 64.
fn sums<M: Ledger>(rt: &impl Abort, alloc: Global, steps: &mut Steps<M>) {
    {
        let mut sparse = Sparse::<i16, 8>::new(alloc, &[-32768; 2], &[0, 1], 2).expect(
            rt, "a filter",
        );
        gives(
            rt,
            &mut sparse,
            &[-32768; 2],
            &mut [0; 2],
            &[32767, -32768],
            steps,
        );
    }
    let mut fir = fir_of::<i16, 8>(rt, alloc, &[-32768; 2], 2);
    gives(
        rt,
        &mut fir,
        &[-32768; 2],
        &mut [0; 2],
        &[32767, 32767],
        steps,
    );
}

/// The calls that count their products.
pub(crate) fn counted<M: Ledger>(rt: &impl Abort, alloc: Global, steps: &mut Steps<M>) {
    long_block(rt, alloc, steps);
    long_sparse_block(rt, alloc, steps);
    few_turns(rt, alloc, steps);
    let kept = fir_keeps(rt, alloc, steps);
    fir_goes_on(rt, alloc, &kept, steps);
    sparse_keeps(rt, alloc, steps);
    sparse_goes_on(rt, alloc, steps);
    other_formats(rt, alloc, steps);
    sums(rt, alloc, steps);
}

#[test]
fn faults(rt: HostRuntime) {
    let alloc = rt.alloc();
    refuses_length(&rt, Fir::<i16, 8>::new(alloc, &[], 4), 0, 1);
    refuses_range(&rt, Fir::<i16, 8>::new(alloc, &[1], 0), 0);
    refuses_length(&rt, Sparse::<i8, 16>::new(alloc, &[1], &[0], 4), 1, 2);
    refuses_length(
        &rt,
        Sparse::<i16, 8>::new(alloc, &[1, 2], &[0, 1, 2], 4),
        3,
        2,
    );
    refuses_range(
        &rt,
        Sparse::<i32, 4>::new(alloc, &[1, 2], &[65535, 65537], 0),
        65537,
    );
}
