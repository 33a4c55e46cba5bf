use crate::dot_form::DotForm;
use crate::kernels::LaneKernels;
use crate::row_form::RowForm;

/// A lane of the accumulator's width for each output or product, of any number L.
pub struct Plain<const L: usize>;

impl<T: LaneKernels<L>, const L: usize> RowForm<T> for Plain<L> {
    type Sums = T::Sums;

    ghost use Rattle.std.specs.Prelude.{◌≡◌, length};
    ghost use Rattle.dsp_defs.specs.Formats.{accumulator, close};

    ghost size = { L };

    ghost width = { accumulator T.format };

    ghost lanes = { T.lanes };

    ghost AreSums = { λ s n. T.AreSums s };

    ghost Takes = { λ taps. Unit {0} };

    ghost shut = { close T.format };

    #[inline(always)]
    fn behind(at: usize) -> usize {
        at + L
    }

    #[inline(always)]
    fn no_sums() -> T::Sums {
        T::no_sums()
    }

    #[inline(always)]
    fn add_tap(sums: T::Sums, taps: &[T], j: usize, window: &[T], at: usize) -> T::Sums {
        T::add_multiples(sums, taps[j], window, at)
    }

    #[inline(always)]
    fn add_pair(sums: T::Sums, taps: &[T], j: usize, window: &[T], at: usize) -> T::Sums {
        let sums = T::add_multiples(sums, taps[j], window, at);
        T::add_multiples(sums, taps[j + 1], window, at + 1)
    }

    #[inline(always)]
    fn closes(_taps: &[T], _window: &[T]) {}

    #[inline(always)]
    fn close(sums: T::Sums, out: &mut [T], at: usize) {
        T::close_group(sums, out, at)
    }
}

impl<T: LaneKernels<L>, const L: usize> DotForm<T> for Plain<L> {
    type Sums = T::Sums;

    ghost use Rattle.std.specs.Prelude.{◌≡◌, length};
    ghost use Rattle.dsp_defs.specs.Formats.{accumulator};
    ghost use Rattle.dsp_lanes.specs.Regrouped.{list_sum};

    ghost size = { L };

    ghost width = { accumulator T.format };

    ghost value = { λ s. list_sum (T.lanes s) };

    ghost AreSums = { λ s. (T.AreSums s) × (length (T.lanes s) ≡ L) };

    #[inline(always)]
    fn size() -> usize {
        L
    }

    #[inline(always)]
    fn no_sums() -> T::Sums {
        T::no_sums()
    }

    #[inline(always)]
    fn add_products(sums: T::Sums, taps: &[T], window: &[T], at: usize) -> T::Sums {
        T::add_products(sums, taps, window, at)
    }

    #[inline(always)]
    fn total(sums: T::Sums) -> T::Acc {
        T::sum_lanes(sums)
    }
}
