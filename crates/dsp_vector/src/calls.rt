ghost use Rattle.std.specs.Prelude.{◌≡◌, ◌≤ℤ◌, length, map};
ghost use Rattle.std.specs.Simd.Lanes.{zip2};
ghost use Rattle.dsp_defs.specs.Cost.{lane_turns};
ghost use Rattle.dsp_defs.specs.Elementwise.{abs, add, clip, mult, negate, scale, shift, sub, IsScaleShift};
ghost use Rattle.dsp_defs.specs.Elementwise.{IsShift};
ghost use Rattle.dsp_lanes.specs.Turns.{RisesWithin};

use crate::VectorSample;
use dsp_defs::Steps;
use dsp_lanes::Lanes;
use std::sync::ledger::Ledger;

/// The saturating sums of samples: `arm_add_q7`, `arm_add_q15`, `arm_add_q31`. Lengths are equal.
pub fn vec_add<T: VectorSample>(a: &[T], b: &[T], out: &mut [T])
    requires left { length a.now ≡ length out.old }
    requires right { length b.now ≡ length out.old }
    ensures { map T.number out.new ≡ zip2 (add T.format) (map T.number a.now) (map T.number b.now) }
{
    Lanes::<T, 4>::add(a, b, out)
}

/// The saturating differences of samples: `arm_sub_q7`, `arm_sub_q15`, `arm_sub_q31`. Lengths are
/// equal.
pub fn vec_sub<T: VectorSample>(a: &[T], b: &[T], out: &mut [T])
    requires left { length a.now ≡ length out.old }
    requires right { length b.now ≡ length out.old }
    ensures { map T.number out.new ≡ zip2 (sub T.format) (map T.number a.now) (map T.number b.now) }
{
    Lanes::<T, 4>::sub(a, b, out)
}

/// The saturated products of samples, each counted: `arm_mult_q7`, `arm_mult_q15`, `arm_mult_q31`.
/// Lengths are equal.
pub fn vec_mult<T: VectorSample, M: Ledger>(a: &[T], b: &[T], out: &mut [T], steps: &mut Steps<M>)
    requires left { length a.now ≡ length out.old }
    requires right { length b.now ≡ length out.old }
    ensures out { map T.number out.new ≡ zip2 (mult T.format) (map T.number a.now) (map T.number b.now) }
    ensures steps { RisesWithin steps.old steps.new (length out.old)
        (lane_turns T.format (length out.old)) }
{
    T::mult_slices(a, b, out, steps)
}

/// Adds a constant to each sample and saturates: `arm_offset_q7`, `arm_offset_q15`,
/// `arm_offset_q31`. Lengths are equal.
pub fn vec_offset<T: VectorSample>(a: &[T], constant: T, out: &mut [T])
    requires { length a.now ≡ length out.old }
    ensures { map T.number out.new ≡ map (λ x. add T.format x (T.number constant)) (map T.number a.now) }
{
    Lanes::<T, 4>::offset(a, constant, out)
}

/// The saturating negatives of samples: `arm_negate_q7`, `arm_negate_q15`, `arm_negate_q31`. Lengths
/// are equal.
pub fn vec_negate<T: VectorSample>(a: &[T], out: &mut [T])
    requires { length a.now ≡ length out.old }
    ensures { map T.number out.new ≡ map (negate T.format) (map T.number a.now) }
{
    Lanes::<T, 4>::negate(a, out)
}

/// The saturating absolute values of samples: `arm_abs_q7`, `arm_abs_q15`, `arm_abs_q31`. Lengths are
/// equal.
pub fn vec_abs<T: VectorSample>(a: &[T], out: &mut [T])
    requires { length a.now ≡ length out.old }
    ensures { map T.number out.new ≡ map (abs T.format) (map T.number a.now) }
{
    Lanes::<T, 4>::abs(a, out)
}

/// Times a fraction and 2^places, each product counted: `arm_scale_q7`, `arm_scale_q15`,
/// `arm_scale_q31`. Lengths are equal; the places are -8 to 7 in Q7, -16 to 15 in Q15 and -31 to 30
/// in Q31.
pub fn vec_scale<T: VectorSample, M: Ledger>(
    a: &[T],
    factor: T,
    places: i32,
    out: &mut [T],
    steps: &mut Steps<M>,
)
    requires places { IsScaleShift T.format places }
    requires same { length a.now ≡ length out.old }
    ensures out { map T.number out.new ≡ map (scale T.format (T.number factor) places)
        (map T.number a.now) }
    ensures steps { RisesWithin steps.old steps.new (length out.old)
        (lane_turns T.format (length out.old)) }
{
    T::scale_slices(a, factor, places, out, steps)
}

/// Times 2^places, saturated where it grows and rounded down where it shrinks: `arm_shift_q7`,
/// `arm_shift_q15`, `arm_shift_q31`. Lengths are equal; the places are -7 to 7 in Q7, -15 to 15 in
/// Q15 and -31 to 31 in Q31.
pub fn vec_shift<T: VectorSample>(a: &[T], places: i32, out: &mut [T])
    requires places { IsShift T.format places }
    requires same { length a.now ≡ length out.old }
    ensures { map T.number out.new ≡ map (shift T.format places) (map T.number a.now) }
{
    Lanes::<T, 4>::shift(a, places, out)
}

/// Clamps each sample to `low..=high`: `arm_clip_q7`, `arm_clip_q15`, `arm_clip_q31`. Lengths are
/// equal.
pub fn vec_clip<T: VectorSample>(a: &[T], low: T, high: T, out: &mut [T])
    requires limits { T.number low ≤ℤ T.number high }
    requires same { length a.now ≡ length out.old }
    ensures { map T.number out.new ≡ map (clip (T.number low) (T.number high)) (map T.number a.now) }
{
    Lanes::<T, 4>::clip(a, low, high, out)
}
