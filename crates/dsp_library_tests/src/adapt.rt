//! Callers of dsp_adapt.
ghost use Rattle.std.specs.Prelude.{◌≡◌};

use crate::refusals::{refuses_length, refuses_range};
use crate::same::same_count;
use crate::step_filters;
use dsp_adapt::{Lms, Lms15, Lms31, LmsSample, Pid15, Pid31, PidCalls};
use dsp_defs::Steps;
use dsp_lanes::LaneSample;
use std::alloc::Global;
use std::process::Abort;
use std::sync::ledger::Ledger;

/// A controller keeps its last two inputs, and its last output.
fn pid_keeps<M: Ledger>(rt: &impl Abort, steps: &mut Steps<M>) {
    let mut pid = Pid15::new(-27827, -1468, -1, 2).expect(rt, "a controller");
    step_filters::keeps(
        rt,
        &mut pid,
        &[32767, 16384],
        &mut [7; 3],
        &[-29296, -16116, 7],
        &mut [0; 3],
        &[16384, 32767, -16116],
        steps,
    );
}

/// Another controller goes on from what that one kept.
fn pid_goes_on<M: Ledger>(rt: &impl Abort, steps: &mut Steps<M>) {
    let mut pid = Pid15::new(-27827, -1468, -1, 2).expect(rt, "a controller");
    step_filters::goes_on(
        rt,
        &mut pid,
        &[16384, 32767, -16116],
        &[-32767, -32768],
        &mut [7; 3],
        &[27092, 28559, 7],
        steps,
    );
}

/// A controller in Q31 wraps.
fn pid_wraps<M: Ledger>(rt: &impl Abort, steps: &mut Steps<M>) {
    let mut pid = Pid31::new(i32::MAX - 1, i32::MIN, i32::MAX, 4).expect(rt, "a controller");
    let mut output = [0i32; 4];
    assert_gives!(rt;
        pid.process(&[i32::MIN; 4], &mut output, steps),
        4, output, [-2147483645, -2147483643, 8, -2147483637]
    );
}

/// An adaptive filter in any format, for blocks of at most so many samples.
fn lms_of<T: LmsSample + LaneSample<L>, const L: usize>(
    rt: &impl Abort,
    alloc: Global,
    mu: T,
    weights: &[T],
    block: usize,
) -> Lms<T, L>
    ensures { result.block ≡ block }
{
    Lms::<T, L>::new(alloc, 0, mu, weights, block).expect(rt, "a filter")
}

/// An adaptive filter keeps its last input and its weights. Its taps stand from the last weight to the
/// first.
fn lms_keeps<M: Ledger>(rt: &impl Abort, alloc: Global, steps: &mut Steps<M>) {
    let mut lms: Lms15 = lms_of(rt, alloc, 16384, &[8192, 16384], 2);
    let mut output = [0i16; 2];
    let mut error = [0i16; 2];
    lms.process(&[16384, 0], &[8192, 12288], &mut output, &mut error, steps);
    assert_same!(rt; (output, error), ([8192, 4096], [0, 8192]));
    let mut kept = [0i64; 3];
    same_count(rt, lms.kept_count(), 3);
    lms.keep(&mut kept);
    assert_same!(rt; kept, [0, 16384, 10240]);
}

/// Another adaptive filter goes on from what that one kept.
fn lms_goes_on<M: Ledger>(rt: &impl Abort, alloc: Global, steps: &mut Steps<M>) {
    let mut lms: Lms15 = lms_of(rt, alloc, 16384, &[0, 0], 1);
    let kept = [0i64, 16384, 10240];
    assert_holds!(rt; lms.fits(&kept));
    lms.restore(&kept);
    let mut output = [0i16];
    let mut error = [7i16];
    lms.process(&[16384], &[8192], &mut output, &mut error, steps);
    assert_same!(rt; (output, error), ([8192], [0]));
}

/// An adaptive filter comes nearer to its reference, and its error wraps.
fn lms_adapts<M: Ledger>(rt: &impl Abort, alloc: Global, steps: &mut Steps<M>) {
    {
        let mut lms: Lms15 = lms_of(rt, alloc, 16384, &[0], 2);
        let mut output = [7i16; 2];
        let mut error = [7i16; 2];
        lms.process(&[16384; 2], &[8192; 2], &mut output, &mut error, steps);
        assert_same!(rt; (output, error), ([0, 1024], [8192, 7168]));
    }
    let mut lms: Lms31 = lms_of(rt, alloc, 1073741824, &[0], 1);
    let mut output = [7i32];
    let mut error = [7i32];
    lms.process(&[i32::MAX], &[i32::MIN], &mut output, &mut error, steps);
    assert_same!(rt; (output, error), ([0], [i32::MIN]));
}

/// The calls that count their products.
pub(crate) fn counted<M: Ledger>(rt: &impl Abort, alloc: Global, steps: &mut Steps<M>) {
    pid_keeps(rt, steps);
    pid_goes_on(rt, steps);
    pid_wraps(rt, steps);
    lms_keeps(rt, alloc, steps);
    lms_goes_on(rt, alloc, steps);
    lms_adapts(rt, alloc, steps);
}

#[test]
fn gains_and_faults(rt: HostRuntime) {
    refuses_range(&rt, Pid15::new(1, 2, 3, 0), 0);
    refuses_range(&rt, Pid31::new(1, 2, 3, 1048577), 1048577);
    {
        let pid = Pid15::new(16384, 0, 32767, 4).expect(&rt, "a controller");
        assert_same!(&rt; pid.gains(), (32767, -32768, 32767));
        assert_same!(&rt; (pid.fits(&[0, 0, 32768]), pid.fits(&[0, 0])), (false, false));
    }
    let pid = Pid31::new(-2147483648, 2147483647, -2147483648, 4).expect(&rt, "a controller");
    assert_same!(&rt; pid.gains(), (-2147483648, -2147483648, -2147483648));
}

#[test]
fn faults_of_adaptive_filters(rt: HostRuntime) {
    refuses_length(&rt, Lms15::new(rt.alloc(), 15, 1, &[], 1), 0, 1);
    refuses_range(&rt, Lms15::new(rt.alloc(), 15, 1, &[1], 0), 15);
    refuses_range(&rt, Lms31::new(rt.alloc(), 30, 1, &[1], 0), 0);
}
