ghost use Rattle.std.specs.Prelude.{◌≡◌, ◌≤◌, ◌<◌, ◌+◌, ◌*◌, ℕ, All, FitsSigned, length};
ghost use Rattle.dsp_defs.specs.Block.{Frame, one_sample, pair_frame};
ghost use Rattle.dsp_defs.specs.Complex.{cmplx_conj, cmplx_mag_squared, cmplx_mult, cmplx_mult_real};
ghost use Rattle.dsp_defs.specs.Counts.{Rises};
ghost use Rattle.dsp_defs.specs.Formats.{word};
ghost use Rattle.dsp_defs.specs.Signal.{sample, values};
ghost use Rattle.dsp_defs.specs.declared.format.Fmt.TheVariants.{Q15};
ghost use Rattle.dsp_lanes.specs.Turns.{RisesWithin};
ghost use Rattle.std.proofs.Common.{lit<};

use crate::scalars::{Complex, ComplexSample, conjugate, product, squared};
use dsp_defs::Steps;
use std::sync::ledger::Ledger;

/// An operation on one frame of TAKEN numbers, which gives GIVEN numbers.
pub(crate) trait FrameOperation<T: ComplexSample>: Copy {
    const TAKEN: usize;

    const GIVEN: usize;

    ghost TAKEN: { ℕ };

    ghost GIVEN: { ℕ };

    ghost HasForm: { Type 0 };

    ghost value: { Frame → Frame };

    ghost price: { ℕ };

    fn give<L: Ledger>(self, frame: &[i32], out: &mut [i32], steps: &mut Steps<L>)
        requires form { HasForm }
        requires taken { length frame.now ≡ TAKEN }
        requires in_format { All (FitsSigned (word T.format)) frame.now }
        requires room { length out.old ≡ GIVEN }
        ensures value { out.new ≡ value frame.now }
        ensures in_format { All (FitsSigned (word T.format)) out.new }
        ensures steps { Rises steps.old steps.new price price };

    ghost some_taken: { 0 < TAKEN };

    ghost some_given: { 0 < GIVEN };
}

/// The conjugate.
#[derive(Clone, Copy)]
pub(crate) struct Conjugate;

impl<T: ComplexSample> FrameOperation<T> for Conjugate {
    const TAKEN: usize = 2;

    const GIVEN: usize = 2;

    ghost TAKEN = { 2 };

    ghost GIVEN = { 2 };

    ghost HasForm = { Unit {0} };

    ghost value = { λ f. pair_frame (cmplx_conj T.format (sample f 0) (sample f 1)) };

    ghost price = { 0 };

    #[inline(always)]
    fn give<L: Ledger>(self, frame: &[i32], out: &mut [i32], _steps: &mut Steps<L>) {
        let given = conjugate(Complex {
            re: T::of_number(frame[0]),
            im: T::of_number(frame[1]),
        });
        out[0] = given.re.number();
        out[1] = given.im.number();
    }

    ghost some_taken = { lit< tt };

    ghost some_given = { lit< tt };
}

/// The product of two complex numbers.
#[derive(Clone, Copy)]
pub(crate) struct Product;

impl<T: ComplexSample> FrameOperation<T> for Product {
    const TAKEN: usize = 4;

    const GIVEN: usize = 2;

    ghost TAKEN = { 4 };

    ghost GIVEN = { 2 };

    ghost HasForm = { Unit {0} };

    ghost value = { λ f.
        pair_frame (cmplx_mult T.format (sample f 0) (sample f 1) (sample f 2) (sample f 3)) };

    ghost price = { 4 };

    #[inline(always)]
    fn give<L: Ledger>(self, frame: &[i32], out: &mut [i32], steps: &mut Steps<L>) {
        let left = Complex {
            re: T::of_number(frame[0]),
            im: T::of_number(frame[1]),
        };
        let right = Complex {
            re: T::of_number(frame[2]),
            im: T::of_number(frame[3]),
        };
        let given = product(left, right, steps);
        out[0] = given.re.number();
        out[1] = given.im.number();
    }

    ghost some_taken = { lit< tt };

    ghost some_given = { lit< tt };
}

/// A complex number times a real one, in Q15.
#[derive(Clone, Copy)]
pub(crate) struct RealProduct;

impl<T: ComplexSample> FrameOperation<T> for RealProduct {
    const TAKEN: usize = 3;

    const GIVEN: usize = 2;

    ghost TAKEN = { 3 };

    ghost GIVEN = { 2 };

    ghost HasForm = { T.format ≡ Q15 };

    ghost value = { λ f. pair_frame (cmplx_mult_real (sample f 0) (sample f 1) (sample f 2)) };

    ghost price = { 2 };

    #[inline(always)]
    fn give<L: Ledger>(self, frame: &[i32], out: &mut [i32], steps: &mut Steps<L>) {
        let factor = T::of_number(frame[2]);
        out[0] = T::mult(T::of_number(frame[0]), factor, steps).number();
        out[1] = T::mult(T::of_number(frame[1]), factor, steps).number();
    }

    ghost some_taken = { lit< tt };

    ghost some_given = { lit< tt };
}

/// The squared magnitude.
#[derive(Clone, Copy)]
pub(crate) struct SquaredMagnitude;

impl<T: ComplexSample> FrameOperation<T> for SquaredMagnitude {
    const TAKEN: usize = 2;

    const GIVEN: usize = 1;

    ghost TAKEN = { 2 };

    ghost GIVEN = { 1 };

    ghost HasForm = { Unit {0} };

    ghost value = { λ f. one_sample (cmplx_mag_squared T.format (sample f 0) (sample f 1)) };

    ghost price = { 2 };

    #[inline(always)]
    fn give<L: Ledger>(self, frame: &[i32], out: &mut [i32], steps: &mut Steps<L>) {
        let taken = Complex {
            re: T::of_number(frame[0]),
            im: T::of_number(frame[1]),
        };
        out[0] = squared(taken, steps).number();
    }

    ghost some_taken = { lit< tt };

    ghost some_given = { lit< tt };
}

/// Writes what the operation gives of each of `count` frames, and answers the number of samples.
#[inline(always)]
pub(crate) fn give_frames<T: ComplexSample, O: FrameOperation<T>, L: Ledger>(
    operation: O,
    frames: &[i32],
    count: usize,
    out: &mut [i32],
    steps: &mut Steps<L>,
) -> usize
    requires form { O.HasForm }
    requires whole { length frames.now ≡ count * O.TAKEN }
    requires in_format { All (FitsSigned (word T.format)) frames.now }
    requires room { count * O.GIVEN ≤ length out.old }
    ensures count { result ≡ count * O.GIVEN }
    ensures values { (n c : ℕ) → n < count → c < O.GIVEN
        → sample out.new (n * O.GIVEN + c)
        ≡ sample (O.value (values O.TAKEN (λ k. sample frames.now (n * O.TAKEN + k)))) c }
    ensures fits { (n c : ℕ) → n < count → c < O.GIVEN
        → FitsSigned (word T.format) (sample out.new (n * O.GIVEN + c)) }
    ensures steps { RisesWithin steps.old steps.new (count * O.price) (count * O.price) }
{
    let taken = O::TAKEN;
    let given = O::GIVEN;
    for n in 0..count {
        let frame = &frames[n * taken..n * taken + taken];
        operation.give(frame, &mut out[n * given..n * given + given], steps);
    }
    count * given
}
