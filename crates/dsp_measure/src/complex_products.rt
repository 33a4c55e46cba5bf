//! Sums of complex products that go on, of samples wherever they stand.
ghost use Rattle.std.specs.Prelude.{◌≡◌, ◌+◌, ◌*◌, ◌/◌, ◌<◌, ◌≤◌, ℕ, ℤ, ◌+ℤ◌, ◌-ℤ◌, All, FitsSigned, List};
ghost use Rattle.std.specs.Prelude.{length, map, get_or};
ghost use Rattle.dsp_defs.specs.Counts.{Rises};
ghost use Rattle.dsp_defs.specs.Formats.{accumulator, word};
ghost use Rattle.dsp_defs.specs.Measure.{measured_product};
ghost use Rattle.dsp_defs.specs.Numbers.{wrap};
ghost use Rattle.dsp_defs.specs.Signal.{sample};
ghost use Rattle.dsp_measure.specs.Sums.{with_complex, with_complex_channels, with_complex_slices};

use crate::MeasureSample;
use dsp_defs::Steps;
use dsp_sat::Sample;
use dsp_shape::frame_count;
use std::sync::ledger::Ledger;

/// The sums with one complex product more, of a+ib and c+id.
fn add_complex_product<T: MeasureSample, L: Ledger>(
    sums: (T::Acc, T::Acc),
    numbers: (T, T, T, T),
    steps: &mut Steps<L>,
) -> (T::Acc, T::Acc)
    ensures re { T.total result.0 ≡ wrap (accumulator T.format)
        (T.total sums.0 +ℤ (measured_product T.format (T.number numbers.0)
        (T.number numbers.2) -ℤ measured_product T.format (T.number numbers.1)
        (T.number numbers.3))) }
    ensures im { T.total result.1 ≡ wrap (accumulator T.format)
        (T.total sums.1 +ℤ (measured_product T.format (T.number numbers.0)
        (T.number numbers.3) +ℤ measured_product T.format (T.number numbers.1)
        (T.number numbers.2))) }
    ensures steps { Rises steps.old steps.new 4 4 }
{
    let (a, b, c, d) = numbers;
    let ac = T::add_measured(sums.0, a, c, steps);
    let re = T::subtract_measured(ac, b, d, steps);
    let ad = T::add_measured(sums.1, a, d, steps);
    let im = T::add_measured(ad, b, c, steps);
    (re, im)
}

/// Two sums, of the real and of the imaginary parts, that go on by `count` complex products of a+ib
/// and c+id, where `at` gives a, b, c and d of each place.
fn add_complex<T: MeasureSample, F: Fn(usize) -> (T, T, T, T), L: Ledger>(
    start: (i64, i64),
    count: usize,
    at: F,
    steps: &mut Steps<L>,
) -> (i64, i64)
    requires places { (n : ℕ) → n < count → F.pre at n }
    requires start_re { FitsSigned (accumulator T.format) start.0 }
    requires start_im { FitsSigned (accumulator T.format) start.1 }
    ensures sums { (a b c d : List ℤ) → length a ≡ count
        → ((n : ℕ) (s : _) → n < count → F.post at n s → (T.number s.0 ≡ sample a n)
        × (T.number s.1 ≡ sample b n) × (T.number s.2 ≡ sample c n) × (T.number s.3 ≡ sample d n))
        → result ≡ with_complex T.format start a b c d }
    ensures fits_re { FitsSigned (accumulator T.format) result.0 }
    ensures fits_im { FitsSigned (accumulator T.format) result.1 }
    ensures steps { Rises steps.old steps.new (4 * count) (4 * count) }
{
    let mut sums = (T::sum_of_number(start.0), T::sum_of_number(start.1));
    for n in 0..count {
        sums = add_complex_product(sums, at(n), steps);
    }
    (T::number_of_sum(sums.0), T::number_of_sum(sums.1))
}

/// The sums go on by two slices of complex numbers, each the real part first.
pub fn add_complex_slices<T: MeasureSample, L: Ledger>(
    start: (i64, i64),
    a: &[T],
    b: &[T],
    steps: &mut Steps<L>,
) -> (i64, i64)
    requires same { length a.now ≡ length b.now }
    requires start_re { FitsSigned (accumulator T.format) start.0 }
    requires start_im { FitsSigned (accumulator T.format) start.1 }
    ensures sums { result ≡ with_complex_slices T.format start (map T.number a.now) (map T.number b.now) }
    ensures fits_re { FitsSigned (accumulator T.format) result.0 }
    ensures fits_im { FitsSigned (accumulator T.format) result.1 }
    ensures steps { Rises steps.old steps.new (4 * (length a.now / 2)) (4 * (length a.now / 2)) }
{
    let at = |n: usize| -> (T, T, T, T)
        requires left { n * 2 + 1 < length a.now }
        requires right { n * 2 + 1 < length b.now }
        ensures left_re { result.0 ≡ get_or a.entry.now (n * 2) result.0 }
        ensures left_im { result.1 ≡ get_or a.entry.now (n * 2 + 1) result.1 }
        ensures right_re { result.2 ≡ get_or b.entry.now (n * 2) result.2 }
        ensures right_im { result.3 ≡ get_or b.entry.now (n * 2 + 1) result.3 }
    { (a[n * 2], a[n * 2 + 1], b[n * 2], b[n * 2 + 1]) };
    add_complex::<T, _, L>(start, a.len() / 2, at, steps)
}

/// The sums go on by frames of four channels or more: a+ib in the first two, c+id in the next.
pub fn add_complex_channels<T: MeasureSample, L: Ledger>(
    start: (i64, i64),
    frames: &[i32],
    channels: usize,
    steps: &mut Steps<L>,
) -> (i64, i64)
    requires channels { 4 ≤ channels }
    requires in_format { All (FitsSigned (word T.format)) frames.now }
    requires start_re { FitsSigned (accumulator T.format) start.0 }
    requires start_im { FitsSigned (accumulator T.format) start.1 }
    ensures sums { result ≡ with_complex_channels T.format start channels frames.now }
    ensures fits_re { FitsSigned (accumulator T.format) result.0 }
    ensures fits_im { FitsSigned (accumulator T.format) result.1 }
    ensures steps { Rises steps.old steps.new (4 * (length frames.now / channels))
        (4 * (length frames.now / channels)) }
{
    let at = |n: usize| -> (T, T, T, T)
        requires inside { n * channels + 3 < length frames.now }
        requires in_format { All (FitsSigned (word T.format)) frames.now }
        ensures left_re { T.number result.0 ≡ sample frames.entry.now (n * channels + 0) }
        ensures left_im { T.number result.1 ≡ sample frames.entry.now (n * channels + 1) }
        ensures right_re { T.number result.2 ≡ sample frames.entry.now (n * channels + 2) }
        ensures right_im { T.number result.3 ≡ sample frames.entry.now (n * channels + 3) }
    {
        let place = n * channels;
        (
            T::of_number(frames[place]),
            T::of_number(frames[place + 1]),
            T::of_number(frames[place + 2]),
            T::of_number(frames[place + 3]),
        )
    };
    add_complex::<T, _, L>(start, frame_count(frames.len(), channels), at, steps)
}
