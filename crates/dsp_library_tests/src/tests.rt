ghost use Rattle.std.specs.Prelude.{◌≡◌};

use crate::{
    adapt, bank, biquad, complex, conv, fir, lanes, lattice, matrix, measure, rate, sat, vector,
};
use dsp_defs::Steps;
use std::alloc::Global;
use std::marker::Brand;
use std::process::Abort;
use std::sync::ledger::{Blank, Ledger};

/// All calls that count their products, with one counter.
fn counted<M: Ledger>(rt: &impl Abort, alloc: Global, blank: Blank)
    requires name { blank.name ≡ M.name }
    requires parts { blank.parts ≡ M.parts }
    requires two { M.parts ≡ 2 }
{
    let mut steps = Steps::<M>::new(blank);
    sat::counted(rt, &mut steps);
    lanes::counted(rt, &mut steps);
    vector::counted(rt, &mut steps);
    complex::counted(rt, &mut steps);
    fir::counted(rt, alloc, &mut steps);
    rate::counted(rt, alloc, &mut steps);
    lattice::counted(rt, alloc, &mut steps);
    biquad::counted(rt, alloc, &mut steps);
    bank::counted(rt, alloc, &mut steps);
    adapt::counted(rt, alloc, &mut steps);
    conv::counted(rt, alloc, &mut steps);
    matrix::counted(rt, alloc, &mut steps);
    measure::counted(rt, &mut steps);
}

#[test]
fn counted_calls(rt: HostRuntime) {
    counted::<Brand>(&rt, rt.alloc(), Blank::new(2));
}
