//! Callers of dsp_biquad.
ghost use Rattle.std.specs.Prelude.{◌≡◌, IsFalse};

use crate::refusals::{refuses_length, refuses_range};
use crate::step_filters;
use dsp_biquad::{Biquad15, Biquad31, Biquad64, BiquadCalls, Biquads, CascadeSection};
use dsp_defs::Steps;
use dsp_sat::Sample;
use std::alloc::Global;
use std::process::Abort;
use std::sync::ledger::Ledger;

/// Two sections, the first of which feeds back.
const TWO_SECTIONS: [i16; 12] = [16384, 0, 0, 0, 16384, 0, 16384, 0, 0, 0, 0, 0];

/// A cascade in any format, for blocks of at most so many samples.
fn cascade_of<T: Sample, S: CascadeSection<T>>(
    rt: &impl Abort,
    alloc: Global,
    post_shift: u8,
    coefficients: &[T],
    block: usize,
) -> Biquads<T, S>
    ensures running { IsFalse result.ended }
    ensures capacity { result.capacity ≡ block }
{
    Biquads::<T, S>::new(alloc, post_shift, coefficients, block).expect(rt, "a cascade")
}

/// A cascade keeps the last two inputs and outputs of each section.
fn keeps<M: Ledger>(rt: &impl Abort, alloc: Global, steps: &mut Steps<M>) {
    let mut cascade: Biquad15 = cascade_of(rt, alloc, 0, &TWO_SECTIONS, 1);
    step_filters::keeps(
        rt,
        &mut cascade,
        &[1000],
        &mut [7; 2],
        &[250, 7],
        &mut [0; 8],
        &[1000, 0, 500, 0, 500, 0, 250, 0],
        steps,
    );
}

/// Another cascade goes on from what that one kept.
fn goes_on<M: Ledger>(rt: &impl Abort, alloc: Global, steps: &mut Steps<M>) {
    let mut cascade: Biquad15 = cascade_of(rt, alloc, 0, &TWO_SECTIONS, 1);
    step_filters::goes_on(
        rt,
        &mut cascade,
        &[1000, 0, 500, 0, 500, 0, 250, 0],
        &[0],
        &mut [7; 2],
        &[125, 7],
        steps,
    );
}

/// A section that adds a quarter of each sample to its last output.
const FEEDBACK: [i32; 5] = [268435456, 0, 0, 1073741824, 0];

/// The wide feedback keeps what a sample has no room for.
fn feedback<M: Ledger>(rt: &impl Abort, alloc: Global, steps: &mut Steps<M>) {
    {
        let mut narrow: Biquad31 = cascade_of(rt, alloc, 1, &FEEDBACK, 4);
        step_filters::gives(rt, &mut narrow, &[1; 4], &mut [7; 4], &[0; 4], steps);
    }
    let mut wide: Biquad64 = cascade_of(rt, alloc, 1, &FEEDBACK, 4);
    step_filters::gives(rt, &mut wide, &[1; 4], &mut [7; 4], &[0, 0, 0, 1], steps);
}

/// The calls that count their products.
pub(crate) fn counted<M: Ledger>(rt: &impl Abort, alloc: Global, steps: &mut Steps<M>) {
    keeps(rt, alloc, steps);
    goes_on(rt, alloc, steps);
    feedback(rt, alloc, steps);
}

#[test]
fn faults(rt: HostRuntime) {
    let alloc = rt.alloc();
    refuses_range(&rt, Biquad15::new(alloc, 14, &[0; 6], 4), 14);
    refuses_length(&rt, Biquad15::new(alloc, 14, &[0; 5], 0), 5, 6);
    refuses_length(&rt, Biquad31::new(alloc, 0, &[0; 325], 4), 325, 5);
    refuses_range(&rt, Biquad64::new(alloc, 31, &[0; 5], 0), 31);
    refuses_range(&rt, Biquad64::new(alloc, 30, &[0; 5], 0), 0);
}

/// Too few numbers, one that is no sample, and feedback of more than a sample, which the wide one keeps.
#[test]
fn numbers_that_fit(rt: HostRuntime) {
    {
        let cascade: Biquad15 = cascade_of(&rt, rt.alloc(), 13, &[0; 6], 1048576);
        step_filters::fits(
            &rt,
            &cascade,
            &[(&[0; 3], false), (&[0, 0, 0, 32768], false)],
        );
    }
    let cascade: Biquad64 = cascade_of(&rt, rt.alloc(), 30, &[0; 5], 4);
    step_filters::fits(
        &rt,
        &cascade,
        &[
            (&[0, 0, 4294967296, 0], true),
            (&[0, 4294967296, 0, 0], false),
        ],
    );
}
