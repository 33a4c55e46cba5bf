ghost use Rattle.std.specs.Prelude.{◌≡◌, ◌≢◌, length, map};
ghost use Rattle.std.specs.Simd.Lanes.{zip2};
ghost use Rattle.dsp_defs.specs.Cost.{lane_turns};
ghost use Rattle.dsp_defs.specs.Elementwise.{add, sub, scale, IsMatrixScaleShift};
ghost use Rattle.dsp_lanes.specs.Turns.{RisesWithin};
ghost use Rattle.dsp_defs.specs.declared.format.Fmt.TheVariants.{Q7};
ghost use Rattle.dsp_matrix.specs.Faults.{is_matrix_shift, q15-wide, q31-wide};

use dsp_defs::Steps;
use dsp_lanes::Lanes;
use dsp_sat::WideSample;
use std::sync::ledger::Ledger;

/// A sample of matrices, in Q15 or Q31, which works on slices by the lanes of its vectors: 8 in Q15,
/// 4 in Q31.
pub trait MatrixSample: WideSample {
    /// Whether a product may be moved by so many places: by -16 to 15 in Q15, and by 0 to 30 in Q31.
    fn is_matrix_shift(places: i32) -> bool
        ensures { result ≡ is_matrix_shift Self.format places };

    /// The saturating sums of two slices of equal lengths.
    fn add_slices(a: &[Self], b: &[Self], out: &mut [Self])
        requires left { length a.now ≡ length out.old }
        requires right { length b.now ≡ length out.old }
        ensures { map Self.number out.new ≡ zip2 (add Self.format) (map Self.number a.now)
            (map Self.number b.now) };

    /// The saturating differences of two slices of equal lengths.
    fn sub_slices(a: &[Self], b: &[Self], out: &mut [Self])
        requires left { length a.now ≡ length out.old }
        requires right { length b.now ≡ length out.old }
        ensures { map Self.number out.new ≡ zip2 (sub Self.format) (map Self.number a.now)
            (map Self.number b.now) };

    /// Times a fraction and 2^places, for slices of equal lengths.
    fn scale_slices<M: Ledger>(
        a: &[Self],
        factor: Self,
        places: i32,
        out: &mut [Self],
        steps: &mut Steps<M>,
    )
        requires places { IsMatrixScaleShift Self.format places }
        requires same { length a.now ≡ length out.old }
        ensures out { map Self.number out.new ≡ map (scale Self.format (Self.number factor) places)
            (map Self.number a.now) }
        ensures steps { RisesWithin steps.old steps.new (length out.old)
            (lane_turns Self.format (length out.old)) };

    ghost is_wide: { Self.format ≢ Q7 };
}

impl MatrixSample for i16 {
    ghost is_wide = { q15-wide };

    fn is_matrix_shift(places: i32) -> bool {
        -16 <= places && places <= 15
    }

    fn add_slices(a: &[i16], b: &[i16], out: &mut [i16]) {
        Lanes::<i16, 8>::add(a, b, out)
    }

    fn sub_slices(a: &[i16], b: &[i16], out: &mut [i16]) {
        Lanes::<i16, 8>::sub(a, b, out)
    }

    fn scale_slices<M: Ledger>(
        a: &[i16],
        factor: i16,
        places: i32,
        out: &mut [i16],
        steps: &mut Steps<M>,
    ) {
        Lanes::<i16, 8>::scale(a, factor, places, out, steps)
    }
}

impl MatrixSample for i32 {
    ghost is_wide = { q31-wide };

    fn is_matrix_shift(places: i32) -> bool {
        0 <= places && places <= 30
    }

    fn add_slices(a: &[i32], b: &[i32], out: &mut [i32]) {
        Lanes::<i32, 4>::add(a, b, out)
    }

    fn sub_slices(a: &[i32], b: &[i32], out: &mut [i32]) {
        Lanes::<i32, 4>::sub(a, b, out)
    }

    fn scale_slices<M: Ledger>(
        a: &[i32],
        factor: i32,
        places: i32,
        out: &mut [i32],
        steps: &mut Steps<M>,
    ) {
        Lanes::<i32, 4>::scale(a, factor, places, out, steps)
    }
}
