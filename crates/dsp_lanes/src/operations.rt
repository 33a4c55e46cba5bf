ghost use Rattle.std.specs.Prelude.{◌≡◌, ◌≤ℤ◌, ℤ, length, map};
ghost use Rattle.std.specs.Simd.Lanes.{zip2};
ghost use Rattle.dsp_defs.specs.Elementwise.{abs, add, clip, negate, shift, sub, IsShift};

use dsp_sat::Sample;

/// An operation on one sample.
pub(crate) trait Change<T: Sample>: Copy {
    ghost CanChange: { Self → Type 0 };

    ghost value: { Self → ℤ → ℤ };

    fn change(self, x: T) -> T
        requires { CanChange self }
        ensures { T.number result ≡ value self (T.number x) };
}

/// Adds a constant.
#[derive(Clone, Copy)]
pub(crate) struct Offset<T> {
    pub constant: T,
}

impl<T: Sample> Change<T> for Offset<T> {
    ghost CanChange = { λ _. Unit {0} };

    ghost value = { λ offset x. add T.format x (T.number offset.constant) };

    fn change(self, x: T) -> T {
        T::add(x, self.constant)
    }
}

/// The negative.
#[derive(Clone, Copy)]
pub(crate) struct Negate;

impl<T: Sample> Change<T> for Negate {
    ghost CanChange = { λ _. Unit {0} };

    ghost value = { λ _. negate T.format };

    fn change(self, x: T) -> T {
        T::negate(x)
    }
}

/// The absolute value.
#[derive(Clone, Copy)]
pub(crate) struct Abs;

impl<T: Sample> Change<T> for Abs {
    ghost CanChange = { λ _. Unit {0} };

    ghost value = { λ _. abs T.format };

    fn change(self, x: T) -> T {
        T::abs(x)
    }
}

/// A power of two.
#[derive(Clone, Copy)]
pub(crate) struct Shift {
    pub places: i32,
}

impl<T: Sample> Change<T> for Shift {
    ghost CanChange = { λ moved. IsShift T.format moved.places };

    ghost value = { λ moved. shift T.format moved.places };

    fn change(self, x: T) -> T {
        T::shift(x, self.places)
    }
}

/// A clamp to `low..=high`.
#[derive(Clone, Copy)]
pub(crate) struct Clip<T> {
    pub low: T,
    pub high: T,
}

impl<T: Sample> Change<T> for Clip<T> {
    ghost CanChange = { λ limits. T.number limits.low ≤ℤ T.number limits.high };

    ghost value = { λ limits. clip (T.number limits.low) (T.number limits.high) };

    fn change(self, x: T) -> T {
        T::clip(x, self.low, self.high)
    }
}

/// An operation on two samples.
pub(crate) trait Join<T: Sample>: Copy {
    ghost value: { ℤ → ℤ → ℤ };

    fn join(self, a: T, b: T) -> T
        ensures { T.number result ≡ value (T.number a) (T.number b) };
}

/// The sum.
#[derive(Clone, Copy)]
pub(crate) struct Sum;

impl<T: Sample> Join<T> for Sum {
    ghost value = { add T.format };

    fn join(self, a: T, b: T) -> T {
        T::add(a, b)
    }
}

/// The difference.
#[derive(Clone, Copy)]
pub(crate) struct Difference;

impl<T: Sample> Join<T> for Difference {
    ghost value = { sub T.format };

    fn join(self, a: T, b: T) -> T {
        T::sub(a, b)
    }
}

/// Writes what the operation makes of each sample.
#[inline(always)]
pub(crate) fn change_each<T: Sample, O: Change<T>>(operation: O, a: &[T], out: &mut [T])
    requires can { O.CanChange operation }
    requires same { length a.now ≡ length out.old }
    ensures { map T.number out.new ≡ map (O.value operation) (map T.number a.now) }
{
    for (i, value) in out.iter_mut().enumerate() {
        *value = operation.change(a[i]);
    }
}

/// Writes what the operation makes of each pair of samples.
#[inline(always)]
pub(crate) fn join_each<T: Sample, O: Join<T>>(operation: O, a: &[T], b: &[T], out: &mut [T])
    requires left { length a.now ≡ length out.old }
    requires right { length b.now ≡ length out.old }
    ensures { map T.number out.new ≡ zip2 O.value (map T.number a.now) (map T.number b.now) }
{
    for (i, value) in out.iter_mut().enumerate() {
        *value = operation.join(a[i], b[i]);
    }
}
