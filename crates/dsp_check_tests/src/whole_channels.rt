//! Whole channels, as another implementation of the definitions has them.
ghost use Rattle.std.specs.Prelude.{◌≡◌};

use dsp_channelwise::{
    conv, conv_partial, correlate, decimate, fir, interpolate, lattice_iir, lms, pid, sparse,
};
use dsp_defs::{Fmt, Steps};
use std::alloc::{AllocError, Global};
use std::marker::Brand;
use std::process::Abort;
use std::sync::ledger::{Blank, Ledger};

/// Ends the test where a block gives other values.
fn gives(rt: &impl Abort, found: Result<Vec<i32>, AllocError>, wanted: &[i32]) {
    let y = found.expect(rt, "values");
    assert_same!(*rt; y.as_slice(), wanted);
}

/// Sums of products.
fn sums<M: Ledger>(rt: &impl Abort, alloc: Global, steps: &mut Steps<M>) {
    let x = [-105, 127, 7, -33, -13, 4];
    gives(
        rt,
        fir(alloc, Fmt::Q7, &[73, -95], &x, steps),
        &[77, -128, 67, 28, -10, -11],
    );
    let taps = [28108, 30270, -11666, 30748];
    gives(
        rt,
        decimate(alloc, Fmt::Q15, 2, &taps, &[-1, 2, 5, 8, 11, 14], steps),
        &[-1, 3, 13],
    );
    let x = [16385, 32766, -16384];
    gives(
        rt,
        conv(alloc, Fmt::Q15, &[16383, -32767], &x, steps),
        &[8191, -3, -32768, 16383],
    );
    let x = [-7, 9, 8, -8, 19, -13];
    gives(
        rt,
        conv_partial(alloc, Fmt::Q7, 4, 3, &[-91, -128], &x, steps),
        &[-6, -10, 13],
    );
    let taps = [-32768, 32767, -16384, 32767, -1, 32767];
    gives(
        rt,
        interpolate(alloc, Fmt::Q15, 3, &taps, &[2981], steps),
        &[2980, -1, 2980],
    );
    let (taps, delays) = ([-117, -121, 19, -20], [2, 0, 0, 1]);
    gives(
        rt,
        sparse(
            alloc,
            Fmt::Q7,
            &taps,
            &delays,
            &[127, 127, -64, -128],
            steps,
        ),
        &[-102, -122, -85, -5],
    );
}

/// A correlation has a value for each place, also before the first sample.
fn correlation<M: Ledger>(rt: &impl Abort, alloc: Global, steps: &mut Steps<M>) {
    gives(
        rt,
        correlate(alloc, Fmt::Q15, &[-3, -1], &[17, -11, -15], steps),
        &[0, -1, -1, 0, 0],
    );
    gives(rt, correlate(alloc, Fmt::Q15, &[-3, -1], &[], steps), &[]);
}

/// Recursions.
fn recursions<M: Ledger>(rt: &impl Abort, alloc: Global, steps: &mut Steps<M>) {
    let x = [32767, 16384, -32767, -32768];
    gives(
        rt,
        pid(alloc, Fmt::Q15, -27827, -1468, -1, &x, steps),
        &[-29296, -16116, 27092, 28559],
    );
    let (k, v) = ([2147483647, 2147483647], [3, -5, 4]);
    let x = [-2, 998, 1998, 2998, 3998];
    gives(
        rt,
        lattice_iir(alloc, Fmt::Q31, &k, &v, &x, steps),
        &[-1, 0, 0, 0, 0],
    );
}

/// The adaptive filter.
fn adaptation<M: Ledger>(rt: &impl Abort, alloc: Global, steps: &mut Steps<M>) {
    let taps = [-30605, -32768, -32768, 16383];
    let (x, reference) = ([-4, -1, 2], [-4, 996, 1996]);
    let found = lms(alloc, Fmt::Q15, 9, -25763, &taps, &x, &reference, steps);
    let (y, e) = found.expect(rt, "values");
    gives(rt, Ok(y), &[-1024, 1792, 3071]);
    gives(rt, Ok(e), &[1020, -796, -1075]);
}

/// All calls, with one counter.
fn counted<M: Ledger>(rt: &impl Abort, alloc: Global, blank: Blank)
    requires name { blank.name ≡ M.name }
    requires parts { blank.parts ≡ 2 }
    requires ledger_parts { M.parts ≡ 2 }
{
    let mut steps = Steps::<M>::new(blank);
    sums(rt, alloc, &mut steps);
    correlation(rt, alloc, &mut steps);
    recursions(rt, alloc, &mut steps);
    adaptation(rt, alloc, &mut steps);
}

#[test]
fn outside_vectors(rt: HostRuntime) {
    counted::<Brand>(&rt, rt.alloc(), Blank::new(2));
}
