ghost use Rattle.std.specs.Prelude.{◌≡◌, ◌≤◌, All, FitsSigned, length, map, take};
ghost use Rattle.std.specs.Simd.Lanes.{zip2};
ghost use Rattle.dsp_defs.specs.Cost.{lane_turns};
ghost use Rattle.dsp_defs.specs.Elementwise.{mult, scale, IsScaleShift};
ghost use Rattle.dsp_defs.specs.Formats.{word};
ghost use Rattle.dsp_lanes.specs.Turns.{RisesWithin};

use crate::changes::{Scale, change_each};
use dsp_defs::Steps;
use dsp_lanes::{LaneSample, Lanes, q31_fit};
use std::sync::ledger::Ledger;

/// A sample with the lanes of its vectors: 16 in Q7, 8 in Q15, 4 in Q31. Calls that make no product
/// are the same at any number of lanes.
pub trait VectorSample: LaneSample<4> {
    /// The saturated products of two slices of equal lengths.
    fn mult_slices<M: Ledger>(a: &[Self], b: &[Self], out: &mut [Self], steps: &mut Steps<M>)
        requires left { length a.now ≡ length out.old }
        requires right { length b.now ≡ length out.old }
        ensures out { map Self.number out.new ≡ zip2 (mult Self.format) (map Self.number a.now)
            (map Self.number b.now) }
        ensures steps { RisesWithin steps.old steps.new (length out.old)
            (lane_turns Self.format (length out.old)) };

    /// Times a fraction and 2^places, for slices of equal lengths.
    fn scale_slices<M: Ledger>(
        a: &[Self],
        factor: Self,
        places: i32,
        out: &mut [Self],
        steps: &mut Steps<M>,
    )
        requires places { IsScaleShift Self.format places }
        requires same { length a.now ≡ length out.old }
        ensures out { map Self.number out.new ≡ map (scale Self.format (Self.number factor) places)
            (map Self.number a.now) }
        ensures steps { RisesWithin steps.old steps.new (length out.old)
            (lane_turns Self.format (length out.old)) };

    /// `scale` of numbers of the format, to the front of the output. The answer is their number.
    fn scale_numbers<M: Ledger>(
        fract: i32,
        places: i32,
        numbers: &[i32],
        out: &mut [i32],
        steps: &mut Steps<M>,
    ) -> usize
        requires fract { FitsSigned (word Self.format) fract }
        requires places { IsScaleShift Self.format places }
        requires in_format { All (FitsSigned (word Self.format)) numbers.now }
        requires room { length numbers.now ≤ length out.old }
        ensures count { result ≡ length numbers.now }
        ensures values { take (length numbers.now) out.new ≡ map (scale Self.format fract places) numbers.now }
        ensures fits { All (FitsSigned (word Self.format)) (take (length numbers.now) out.new) }
        ensures steps { RisesWithin steps.old steps.new (length numbers.now) (length numbers.now) };
}

impl VectorSample for i8 {
    fn mult_slices<M: Ledger>(a: &[i8], b: &[i8], out: &mut [i8], steps: &mut Steps<M>) {
        Lanes::<i8, 16>::mult(a, b, out, steps)
    }

    fn scale_slices<M: Ledger>(
        a: &[i8],
        factor: i8,
        places: i32,
        out: &mut [i8],
        steps: &mut Steps<M>,
    ) {
        Lanes::<i8, 16>::scale(a, factor, places, out, steps)
    }

    fn scale_numbers<M: Ledger>(
        fract: i32,
        places: i32,
        numbers: &[i32],
        out: &mut [i32],
        steps: &mut Steps<M>,
    ) -> usize {
        let shift = places;
        change_each::<i8, i8, Scale, M>(Scale { fract, shift }, numbers, out, steps)
    }
}

impl VectorSample for i16 {
    fn mult_slices<M: Ledger>(a: &[i16], b: &[i16], out: &mut [i16], steps: &mut Steps<M>) {
        Lanes::<i16, 8>::mult(a, b, out, steps)
    }

    fn scale_slices<M: Ledger>(
        a: &[i16],
        factor: i16,
        places: i32,
        out: &mut [i16],
        steps: &mut Steps<M>,
    ) {
        Lanes::<i16, 8>::scale(a, factor, places, out, steps)
    }

    fn scale_numbers<M: Ledger>(
        fract: i32,
        places: i32,
        numbers: &[i32],
        out: &mut [i32],
        steps: &mut Steps<M>,
    ) -> usize {
        let shift = places;
        change_each::<i16, i16, Scale, M>(Scale { fract, shift }, numbers, out, steps)
    }
}

impl VectorSample for i32 {
    fn mult_slices<M: Ledger>(a: &[i32], b: &[i32], out: &mut [i32], steps: &mut Steps<M>) {
        Lanes::<i32, 4>::mult(a, b, out, steps)
    }

    fn scale_slices<M: Ledger>(
        a: &[i32],
        factor: i32,
        places: i32,
        out: &mut [i32],
        steps: &mut Steps<M>,
    ) {
        Lanes::<i32, 4>::scale(a, factor, places, out, steps)
    }

    fn scale_numbers<M: Ledger>(
        fract: i32,
        places: i32,
        numbers: &[i32],
        out: &mut [i32],
        steps: &mut Steps<M>,
    ) -> usize {
        let out = &mut out[..numbers.len()];
        Lanes::<i32, 4>::scale(numbers, fract, places, out, steps);
        q31_fit(out);
        out.len()
    }
}
