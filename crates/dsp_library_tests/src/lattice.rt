//! Callers of dsp_lattice.
use crate::refusals::{refuses_length, refuses_range};
use crate::step_filters;
use dsp_defs::Steps;
use dsp_lattice::{FirLattice15, FirLatticeCalls, IirLattice, IirLatticeCalls};
use std::alloc::Global;
use std::process::Abort;
use std::sync::ledger::Ledger;

/// More samples than the sections work on at once: the coefficient 0 changes nothing, and -1 takes away
/// the sample before the last one.
fn long_block<M: Ledger>(rt: &impl Abort, alloc: Global, steps: &mut Steps<M>) {
    let mut lattice = FirLattice15::new(alloc, &[0, -32768], 600).expect(rt, "a lattice");
    let mut output = [0i16; 601];
    let mut wanted = [0i16; 601];
    wanted[0] = 1;
    wanted[1] = 1;
    assert_gives!(rt; lattice.process(&[1; 600], &mut output, steps), 600, output, wanted);
}

/// A lattice keeps a number a section.
fn fir_keeps<M: Ledger>(rt: &impl Abort, alloc: Global, steps: &mut Steps<M>) {
    let mut lattice = FirLattice15::new(alloc, &[16384], 2).expect(rt, "a lattice");
    step_filters::keeps(
        rt,
        &mut lattice,
        &[1000],
        &mut [7; 2],
        &[1000, 7],
        &mut [0; 1],
        &[1000],
        steps,
    );
}

/// Another lattice goes on from what that one kept.
fn fir_goes_on<M: Ledger>(rt: &impl Abort, alloc: Global, steps: &mut Steps<M>) {
    let mut lattice = FirLattice15::new(alloc, &[16384], 2).expect(rt, "a lattice");
    step_filters::fits(rt, &lattice, &[(&[], false), (&[-32769], false)]);
    step_filters::goes_on(
        rt,
        &mut lattice,
        &[1000],
        &[0],
        &mut [7; 2],
        &[500, 7],
        steps,
    );
}

/// A lattice that feeds back keeps a number a section.
fn iir_keeps<M: Ledger>(rt: &impl Abort, alloc: Global, steps: &mut Steps<M>) {
    let mut lattice = IirLattice::<i16>::new(alloc, &[16384], &[0, 16384], 2).expect(
        rt,
        "a lattice",
    );
    step_filters::keeps(
        rt,
        &mut lattice,
        &[1000],
        &mut [7; 2],
        &[500, 7],
        &mut [0; 1],
        &[1000],
        steps,
    );
}

/// And another one goes on from that.
fn iir_goes_on<M: Ledger>(rt: &impl Abort, alloc: Global, steps: &mut Steps<M>) {
    let mut lattice = IirLattice::<i16>::new(alloc, &[16384], &[0, 16384], 2).expect(
        rt,
        "a lattice",
    );
    step_filters::fits(rt, &lattice, &[(&[0, 0], false)]);
    step_filters::goes_on(
        rt,
        &mut lattice,
        &[1000],
        &[0],
        &mut [7; 2],
        &[-250, 7],
        steps,
    );
}

/// The ladder alone in Q31, halved and rounded down.
fn ladder<M: Ledger>(rt: &impl Abort, alloc: Global, steps: &mut Steps<M>) {
    let mut lattice = IirLattice::<i32>::new(alloc, &[0], &[0, 1073741824], 2).expect(
        rt,
        "a lattice",
    );
    let mut output = [0i32; 2];
    assert_gives!(rt; lattice.process(&[2, -1], &mut output, steps), 2, output, [1, -1]);
}

/// The calls that count their products.
pub(crate) fn counted<M: Ledger>(rt: &impl Abort, alloc: Global, steps: &mut Steps<M>) {
    long_block(rt, alloc, steps);
    fir_keeps(rt, alloc, steps);
    fir_goes_on(rt, alloc, steps);
    iir_keeps(rt, alloc, steps);
    iir_goes_on(rt, alloc, steps);
    ladder(rt, alloc, steps);
}

#[test]
fn faults(rt: HostRuntime) {
    let alloc = rt.alloc();
    refuses_length(&rt, FirLattice15::new(alloc, &[], 0), 0, 1);
    refuses_length(&rt, FirLattice15::new(alloc, &[0; 256], 4), 256, 1);
    refuses_range(&rt, FirLattice15::new(alloc, &[0], 0), 0);
    refuses_length(&rt, IirLattice::<i32>::new(alloc, &[], &[], 0), 0, 1);
    refuses_length(
        &rt,
        IirLattice::<i16>::new(alloc, &[1, 2], &[0, 1], 0),
        2,
        3,
    );
    let long = IirLattice::<i16>::new(alloc, &[1; 255], &[1; 256], 1048577);
    refuses_range(&rt, long, 1048577);
}
