//! Single samples, as another implementation of the definitions has them.
ghost use Rattle.std.specs.Prelude.{◌≡◌};

use dsp_defs::{Fmt, Steps};
use dsp_exact::{convert, mult, scale, shift_in, wrap};
use std::marker::Brand;
use std::process::Abort;
use std::sync::ledger::{Blank, Ledger};

#[test]
fn one_sample(rt: HostRuntime) {
    assert_same!(rt; shift_in(Fmt::Q31, 7, 31), 2_147_483_647);
    assert_same!(rt; shift_in(Fmt::Q31, -3, -31), -1);
    assert_same!(rt; shift_in(Fmt::Q15, -18_426, -15), -1);
    assert_same!(rt; convert(Fmt::Q7, Fmt::Q31, -10), -167_772_160);
    assert_same!(rt; convert(Fmt::Q31, Fmt::Q7, 1_358_540_973), 80);
    assert_same!(rt; wrap(Fmt::Q15, 32_768), -32_768);
}

/// Products.
fn products<M: Ledger>(rt: &impl Abort, blank: Blank)
    requires name { blank.name ≡ M.name }
    requires parts { blank.parts ≡ 2 }
    requires ledger_parts { M.parts ≡ 2 }
{
    let mut steps = Steps::<M>::new(blank);
    assert_same!(*rt; mult(Fmt::Q15, 16_384, -5, &mut steps), -3);
    assert_same!(*rt; mult(Fmt::Q31, -3, -2_147_483_648, &mut steps), 2);
    assert_same!(*rt; mult(Fmt::Q7, -66, 127, &mut steps), -66);
    assert_same!(*rt; scale(Fmt::Q7, -50, 7, 37, &mut steps), -128);
    assert_same!(*rt; scale(Fmt::Q31, -1_446_540_298, -31, 1, &mut steps), -1);
    assert_same!(*rt; scale(Fmt::Q15, 1, -16, 32_767, &mut steps), 0);
}

#[test]
fn counted_products(rt: HostRuntime) {
    products::<Brand>(&rt, Blank::new(2));
}
