//! Callers of dsp_rate.
ghost use Rattle.std.specs.Prelude.{◌≡◌, ◌≤◌, ◌+◌, IsFalse, length};

use crate::refusals::{refuses_length, refuses_range};
use crate::same::same_count;
use dsp_defs::{MAX_SAMPLES, MAX_TAPS, Steps};
use dsp_rate::{Decimate, Interpolate};
use std::alloc::Global;
use std::process::Abort;
use std::sync::ledger::Ledger;

/// A decimator by two with one tap, for blocks of four samples.
fn by_two(rt: &impl Abort, alloc: Global) -> Decimate<i16, 8>
    ensures running { IsFalse result.ended }
    ensures block { result.block ≡ 4 }
    ensures factor { result.factor ≡ 2 }
    ensures past { length result.past ≡ 1 }
{
    Decimate::<i16, 8>::new(alloc, 2, &[16384], 4).expect(rt, "a decimator")
}

/// A decimator keeps its last samples, and how many the open group has.
fn keeps<M: Ledger>(rt: &impl Abort, alloc: Global, steps: &mut Steps<M>) {
    let mut filter = by_two(rt, alloc);
    assert_same!(rt; filter.room(3), 2);
    let mut output = [7i16; 3];
    assert_gives!(rt; filter.process(&[2, 4, 6], &mut output, steps), 1, output, [1, 7, 7]);
    let mut kept = [0i64; 2];
    same_count(rt, filter.kept_count(), 2);
    filter.keep(&mut kept);
    assert_same!(rt; kept, [6, 1]);
}

/// A decimator takes no numbers that none keeps: too few, one that is no sample, and groups that are not
/// open. An open group goes on in another one, and gives nothing where it is open at the end.
fn goes_on<M: Ledger>(rt: &impl Abort, alloc: Global, steps: &mut Steps<M>) {
    let mut filter = by_two(rt, alloc);
    let (few, wide) = (filter.fits(&[6]), filter.fits(&[32768, 1]));
    let (late, early) = (filter.fits(&[6, 2]), filter.fits(&[6, -1]));
    assert_same!(rt; (few, wide, late, early), (false, false, false, false));
    let kept = [6i64, 1];
    assert_holds!(rt; filter.fits(&kept));
    filter.restore(&kept);
    let mut output = [7i16; 3];
    assert_gives!(rt; filter.process(&[8], &mut output, steps), 1, output, [3, 7, 7]);
    assert_gives!(rt; filter.process(&[10], &mut output, steps), 0, output, [3, 7, 7]);
    assert_gives!(rt; filter.finish(&mut output, steps), 0, output, [3, 7, 7]);
    assert_holds!(rt; filter.is_ended());
}

/// A value by three taps takes three turns at eight lanes, and an open group takes none.
fn few_turns<M: Ledger>(rt: &impl Abort, alloc: Global, steps: &mut Steps<M>)
    ensures multiplies { steps.new.multiplies ≡ steps.old.multiplies + 3 }
    ensures turns { steps.new.turns ≤ steps.old.turns + 3 }
{
    let mut filter = Decimate::<i16, 8>::new(alloc, 2, &[16384, 0, 8192], 3).expect(
        rt,
        "a decimator",
    );
    let mut output = [7i16; 2];
    assert_gives!(rt; filter.process(&[4], &mut output, steps), 0, output, [7, 7]);
    assert_gives!(rt; filter.process(&[5], &mut output, steps), 1, output, [1, 7]);
    assert_gives!(rt; filter.process(&[6], &mut output, steps), 0, output, [1, 7]);
}

/// Two values for each sample: the last tap, then the one before it.
fn phases<M: Ledger>(rt: &impl Abort, alloc: Global, steps: &mut Steps<M>) {
    let mut first = Interpolate::<i16, 8>::new(alloc, 2, &[0, 16384, 8192, 16384], 2).expect(
        rt,
        "an interpolator",
    );
    assert_same!(rt; first.room(2), 4);
    let mut output = [7i16; 5];
    assert_gives!(rt; first.process(&[4, 8], &mut output, steps), 4, output, [2, 1, 6, 2, 7]);
    let mut kept = [0i64; 1];
    same_count(rt, first.kept_count(), 1);
    first.keep(&mut kept);
    assert_same!(rt; kept, [8]);
    assert_same!(rt;
        (first.finish(&mut output, steps), first.is_ended()),
        (0, true)
    );
}

/// Another interpolator goes on from what that one kept.
fn phases_go_on<M: Ledger>(rt: &impl Abort, alloc: Global, steps: &mut Steps<M>) {
    let mut second = Interpolate::<i16, 8>::new(alloc, 2, &[0, 16384, 8192, 16384], 1).expect(
        rt,
        "an interpolator",
    );
    assert_same!(rt; (second.fits(&[]), second.fits(&[32768])), (false, false));
    let kept = [8i64];
    assert_holds!(rt; second.fits(&kept));
    second.restore(&kept);
    let mut output = [7i16; 3];
    assert_gives!(rt; second.process(&[0], &mut output, steps), 2, output, [4, 0, 7]);
}

pub(crate) fn counted<M: Ledger>(rt: &impl Abort, alloc: Global, steps: &mut Steps<M>) {
    keeps(rt, alloc, steps);
    goes_on(rt, alloc, steps);
    few_turns(rt, alloc, steps);
    phases(rt, alloc, steps);
    phases_go_on(rt, alloc, steps);
}

#[test]
fn faults(rt: HostRuntime) {
    let alloc = rt.alloc();
    refuses_length(&rt, Decimate::<i16, 8>::new(alloc, 0, &[], 0), 0, 1);
    refuses_range(&rt, Decimate::<i16, 8>::new(alloc, 0, &[1], 1048577), 0);
    refuses_range(
        &rt,
        Decimate::<i32, 4>::new(alloc, 255, &[1], 1048577),
        1048577,
    );
    assert_holds!(&rt; Decimate::<i16, 8>::new(alloc, 255, &[1; MAX_TAPS], MAX_SAMPLES).is_ok());
    refuses_length(
        &rt,
        Interpolate::<i16, 8>::new(alloc, 2, &[1, 2, 3], 0),
        3,
        2,
    );
    refuses_length(&rt, Interpolate::<i32, 4>::new(alloc, 0, &[], 4), 0, 1);
    refuses_range(&rt, Interpolate::<i32, 4>::new(alloc, 0, &[1], 0), 0);
    let made = Interpolate::<i16, 8>::new(alloc, 255, &[1; MAX_TAPS / 255 * 255], 1);
    assert_holds!(&rt; made.is_ok());
}
