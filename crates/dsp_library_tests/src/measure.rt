//! Callers of dsp_measure.
ghost use Rattle.std.specs.Prelude.{◌≡◌, length};

use dsp_defs::Steps;
use dsp_measure::{CmplxDot, Dot, Max, MeasureSample, Min, Power};
use std::process::Abort;
use std::sync::ledger::Ledger;

/// What is kept of the power of the first piece of a signal.
fn kept_power<T: MeasureSample, L: Ledger>(
    rt: &impl Abort,
    front: &[T],
    steps: &mut Steps<L>,
) -> [i64; 1] {
    let mut first = Power::<T>::new();
    first.put(front, steps);
    assert_same!(rt; first.kept_count(), 1);
    let mut kept = [0i64; 1];
    first.keep(&mut kept);
    kept
}

/// Takes a signal in two pieces, the second after the sum was kept and restored, and compares its power.
fn power_is<T: MeasureSample, L: Ledger>(
    rt: &impl Abort,
    front: &[T],
    rest: &[T],
    wanted: i64,
    steps: &mut Steps<L>,
) {
    let kept = kept_power(rt, front, steps);
    let mut second = Power::<T>::new();
    assert_holds!(rt; !second.fits(&[]));
    assert_holds!(rt; second.fits(&kept));
    second.restore(&kept);
    second.put(rest, steps);
    assert_same!(rt; second.value(), wanted);
}

fn powers<L: Ledger>(rt: &impl Abort, steps: &mut Steps<L>) {
    power_is::<i8, L>(rt, &[-6], &[23, 118], 14489, steps);
    power_is::<i16, L>(rt, &[3], &[-4], 25, steps);
    power_is::<i16, L>(rt, &[], &[], 0, steps);
    power_is::<i32, L>(
        rt,
        &[-2147483648, 17],
        &[-15, -16, 1073741824],
        351843720888320,
        steps,
    );
}

/// What is kept of the dot product of the first pieces of two signals.
fn kept_dot<T: MeasureSample, L: Ledger>(
    rt: &impl Abort,
    front: (&[T], &[T]),
    steps: &mut Steps<L>,
) -> [i64; 1]
    requires { length front.0.now ≡ length front.1.now }
{
    let mut first = Dot::<T>::new();
    first.put(front.0, front.1, steps);
    assert_same!(rt; first.kept_count(), 1);
    let mut kept = [0i64; 1];
    first.keep(&mut kept);
    kept
}

/// The dot product of two signals that come in two pieces, the second after the sum was kept and
/// restored.
fn dot_is<T: MeasureSample, L: Ledger>(
    rt: &impl Abort,
    front: (&[T], &[T]),
    rest: (&[T], &[T]),
    wanted: i64,
    steps: &mut Steps<L>,
)
    requires front { length front.0.now ≡ length front.1.now }
    requires rest { length rest.0.now ≡ length rest.1.now }
{
    let kept = kept_dot(rt, front, steps);
    let mut second = Dot::<T>::new();
    assert_holds!(rt; !second.fits(&[]));
    assert_holds!(rt; second.fits(&kept));
    second.restore(&kept);
    second.put(rest.0, rest.1, steps);
    assert_same!(rt; second.value(), wanted);
}

fn dots<L: Ledger>(rt: &impl Abort, steps: &mut Steps<L>) {
    dot_is::<i8, L>(
        rt,
        (&[65, -1], &[-121, -13]),
        (&[127, -128], &[-87, 103]),
        -32085,
        steps,
    );
    dot_is::<i16, L>(
        rt,
        (&[32766], &[-1]),
        (&[32766, 32766], &[-1, -1]),
        -98298,
        steps,
    );
    dot_is::<i32, L>(
        rt,
        (&[1073741824], &[1073741824]),
        (&[], &[]),
        70368744177664,
        steps,
    );
}

fn complex_dots<L: Ledger>(rt: &impl Abort, steps: &mut Steps<L>) {
    let mut kept = [0i64; 2];
    {
        let mut first = CmplxDot::<i16>::new();
        first.put(&[16384, 0], &[16384, 0], steps);
        assert_same!(rt; (first.value(), first.kept_count()), ((4194304, 0), 2));
        first.keep(&mut kept);
    }
    {
        let mut second = CmplxDot::<i16>::new();
        assert_holds!(rt; !second.fits(&[0]));
        assert_holds!(rt; second.fits(&kept));
        second.restore(&kept);
        assert_same!(rt; second.value(), (4194304, 0));
    }
    let mut wide = CmplxDot::<i32>::new();
    wide.put(&[3, 2147483647], &[-4, 2147483647], steps);
    assert_same!(rt; wide.value(), (-281474976448513, -131073));
}

#[test]
fn extremes_of_signals(rt: HostRuntime) {
    {
        let mut least = Min::<i8>::new();
        assert_holds!(&rt; least.value().is_none());
        least.put(&[-128, 5]);
        let mut kept = [0i64; 4];
        least.keep(&mut kept);
        assert_same!(&rt; (least.kept_count(), kept), (4, [1, -128, 0, 2]));
    }
    let mut greatest = Max::<i8>::new();
    greatest.put(&[-128, 5, -128]);
    assert_same!(&rt; greatest.value(), Some((5, 1)));
}

/// Numbers that an extreme keeps, and those that it never does.
#[test]
fn kept_extremes(rt: HostRuntime) {
    let least = Min::<i8>::new();
    let found: &[(&[i64], bool)] = &[
        (&[1, -128, 0, 2], true),
        (&[0, 0, 0, 0], true),
        (&[1, -129, 0, 2], false),
        (&[1, 5, 2, 2], false),
        (&[0, 0, 0, 1], false),
        (&[0], false),
    ];
    for (numbers, fits) in found {
        assert_same!(&rt; least.fits(numbers), *fits);
    }
}

/// An extreme goes on where another one was kept, and the first of two that are as good stays.
#[test]
fn an_extreme_goes_on(rt: HostRuntime) {
    let kept = [1i64, -128, 0, 2];
    let mut least = Min::<i8>::new();
    assert_holds!(&rt; least.fits(&kept));
    least.restore(&kept);
    least.put(&[-128]);
    assert_same!(&rt; least.value(), Some((-128, 0)));
}

/// The calls that count their products.
pub(crate) fn counted<L: Ledger>(rt: &impl Abort, steps: &mut Steps<L>) {
    powers(rt, steps);
    dots(rt, steps);
    complex_dots(rt, steps);
}
