use crate::row_form::RowForm;
use dsp_sat::Sample;
use std::marker::PhantomData;

/// Two groups of outputs, one behind the other.
pub(crate) struct Doubled<F> {
    marker: PhantomData<F>,
}

/// The sums of two groups.
#[derive(Clone, Copy)]
pub(crate) struct Two<S> {
    first: S,
    second: S,
}

impl<T: Sample, F: RowForm<T>> RowForm<T> for Doubled<F> {
    type Sums = Two<F::Sums>;

    ghost use Rattle.std.specs.Prelude.{◌≡◌, ◌+◌, ◌++◌, length};

    ghost size = { F.size + F.size };

    ghost width = { F.width };

    ghost lanes = { λ s. F.lanes s.first ++ F.lanes s.second };

    ghost AreSums = { λ s n. (F.AreSums s.first n) × (F.AreSums s.second n)
        × (length (F.lanes s.first) ≡ F.size) × (length (F.lanes s.second) ≡ F.size) };

    ghost Takes = { F.Takes };

    ghost shut = { F.shut };

    #[inline(always)]
    fn behind(at: usize) -> usize {
        F::behind(F::behind(at))
    }

    #[inline(always)]
    fn no_sums() -> Two<F::Sums> {
        Two {
            first: F::no_sums(),
            second: F::no_sums(),
        }
    }

    #[inline(always)]
    fn add_tap(sums: Two<F::Sums>, taps: &[T], j: usize, window: &[T], at: usize) -> Two<F::Sums> {
        Two {
            first: F::add_tap(sums.first, taps, j, window, at),
            second: F::add_tap(sums.second, taps, j, window, F::behind(at)),
        }
    }

    #[inline(always)]
    fn add_pair(sums: Two<F::Sums>, taps: &[T], j: usize, window: &[T], at: usize) -> Two<F::Sums> {
        Two {
            first: F::add_pair(sums.first, taps, j, window, at),
            second: F::add_pair(sums.second, taps, j, window, F::behind(at)),
        }
    }

    #[inline(always)]
    fn closes(taps: &[T], window: &[T]) {
        F::closes(taps, window)
    }

    #[inline(always)]
    fn close(sums: Two<F::Sums>, out: &mut [T], at: usize) {
        F::close(sums.first, out, at);
        F::close(sums.second, out, F::behind(at));
    }
}
