ghost use Rattle.std.specs.Prelude.{◌≡◌, ◌≤◌, ◌<◌, ◌+◌, ◌-◌, ◌*◌, ◌*ℤ◌, ◌^◌, length, map, max, pos, reverse};
ghost use Rattle.dsp_defs.specs.Formats.{close};
ghost use Rattle.dsp_defs.specs.Counts.{Rises};
ghost use Rattle.dsp_defs.specs.Signal.{sample, sum_below, values};
ghost use Rattle.dsp_defs.specs.Sums.{convolution_at};
ghost use Rattle.dsp_lanes.specs.Turns.{RisesWithin};
ghost use Rattle.dsp_conv.specs.Sums.{convolution_stretch, correlation_at, correlation_stretch};
ghost use Rattle.dsp_conv.specs.Sums.{correlation_terms, CorrelationRises, RisesAtMost};

use dsp_defs::Steps;
use dsp_lanes::OwnLanes;
use dsp_sat::{Sample, product};
use std::ops::Range;
use std::sync::ledger::Ledger;

/// The closed sum of the products of two lists of samples, of which the second is read from its end.
fn closed_backwards<T: Sample, M: Ledger>(a: &[T], b: &[T], steps: &mut Steps<M>) -> T
    requires { length b.now ≡ length a.now }
    ensures value { T.number result ≡ close T.format
        (sum_below (length a.now) (λ k.
        sample (map T.number a.now) k *ℤ sample (reverse (map T.number b.now)) k)) }
    ensures steps { Rises steps.old steps.new (length a.now) (length a.now) }
{
    let mut sum = T::empty();
    for (k, x) in a.iter().enumerate() {
        sum = T::accumulate(sum, product(*x, b[b.len() - 1 - k], steps));
    }
    T::close(sum)
}

/// The closed sum of the products of two lists of samples.
fn closed_sum<T: OwnLanes, M: Ledger>(a: &[T], b: &[T], steps: &mut Steps<M>) -> T
    requires { length b.now ≡ length a.now }
    ensures value { T.number result ≡ close T.format
        (sum_below (length a.now) (λ k.
        sample (map T.number a.now) k *ℤ sample (map T.number b.now) k)) }
    ensures steps { RisesWithin steps.old steps.new (length a.now) (length a.now) }
{
    T::close(T::dot(a, b, steps))
}

/// The value with index `n` of the full convolution of `a` and `b`: the sum of those products whose
/// samples are there.
fn convolution_value<T: Sample, M: Ledger>(a: &[T], b: &[T], n: usize, steps: &mut Steps<M>) -> T
    requires inside { n + 1 < length a.now + length b.now }
    requires few { n + 1 < 2 ^ 64 }
    ensures value { T.number result ≡ close T.format
        (convolution_at (map T.number b.now) (map T.number a.now) n) }
    ensures steps { RisesAtMost steps.old steps.new (length b.now) }
{
    let start = (n + 1).saturating_sub(a.len());
    let end = b.len().min(n + 1);
    closed_backwards(&b[start..end], &a[n + 1 - end..n + 1 - start], steps)
}

/// Of `count` values from the one with index `first` on those whose index is one of `whole` from
/// `from` on.
fn middle_of(first: usize, count: usize, from: usize, whole: usize) -> Range<usize>
    ensures order { result.start ≤ result.end }
    ensures within { result.end ≤ count }
    ensures from { result.start < result.end → from ≤ first + result.start }
    ensures whole { result.start < result.end → first + result.end ≤ from + whole }
    ensures before { 0 < result.start → first + result.start ≤ from }
    ensures behind { result.end < count → from + whole ≤ first + result.end }
{
    let start = from.saturating_sub(first).min(count);
    let left = whole.saturating_sub(first.saturating_sub(from));
    start..start + left.min(count - start)
}

/// Writes the values from the one with index `first` on of the full convolution, one after another.
fn convolution_edge<T: Sample, M: Ledger>(
    a: &[T],
    b: &[T],
    first: usize,
    out: &mut [T],
    steps: &mut Steps<M>,
)
    requires some { 1 ≤ length a.now }
    requires taps { 1 ≤ length b.now }
    requires window { first + length out.old < length a.now + length b.now }
    requires few { first + length out.old < 2 ^ 64 }
    ensures values { map T.number out.new ≡ convolution_stretch T.format (map T.number b.now)
        (map T.number a.now) first (length out.old) }
    ensures steps { RisesAtMost steps.old steps.new (length out.old * length b.now) }
{
    for (i, value) in out.iter_mut().enumerate() {
        *value = convolution_value(a, b, first + i, steps);
    }
}

/// Writes the values from the one with index `first` on of the full convolution, each of which is a sum
/// over all of `b`. The front of `scratch` takes the samples of `b` in the other order.
fn convolution_middle<T: OwnLanes, M: Ledger>(
    a: &[T],
    b: &[T],
    first: usize,
    scratch: &mut [T],
    out: &mut [T],
    steps: &mut Steps<M>,
)
    requires taps { 1 ≤ length b.now }
    requires scratch { 0 < length out.old → length b.now ≤ length scratch.old }
    requires from { 0 < length out.old → length b.now ≤ first + 1 }
    requires whole { 0 < length out.old → first + length out.old ≤ length a.now }
    ensures values { map T.number out.new ≡ convolution_stretch T.format (map T.number b.now)
        (map T.number a.now) first (length out.old) }
    ensures steps { RisesAtMost steps.old steps.new (length out.old * length b.now) }
{
    if out.is_empty() {
        return;
    }
    let taps = &mut scratch[..b.len()];
    taps.copy_from_slice(b);
    taps.reverse();
    let start = first - (b.len() - 1);
    let end = first + out.len();
    T::rows(taps, &a[start..end], out, steps);
}

/// Writes the values from the one with index `first` on of the full convolution: those that are sums
/// over all of `b` in lanes, and those before and behind them one after another. While the former are
/// written, the taps stand in the output in front of them.
fn convolution_by_taps<T: OwnLanes, M: Ledger>(
    a: &[T],
    b: &[T],
    first: usize,
    out: &mut [T],
    steps: &mut Steps<M>,
)
    requires some { 1 ≤ length a.now }
    requires taps { 1 ≤ length b.now }
    requires window { first + length out.old < length a.now + length b.now }
    requires few { first + length out.old < 2 ^ 64 }
    ensures values { map T.number out.new ≡ convolution_stretch T.format (map T.number b.now)
        (map T.number a.now) first (length out.old) }
    ensures steps { RisesAtMost steps.old steps.new (length out.old * length b.now) }
{
    let from = b.len() - 1;
    let whole = a.len().saturating_sub(from);
    let middle = middle_of(first, out.len(), from, whole);
    let start = middle.start.max(b.len()).min(middle.end);
    let (before, rest) = out.split_at_mut(start);
    let (inside, behind) = rest.split_at_mut(middle.end - start);
    convolution_middle(a, b, first + start, before, inside, steps);
    convolution_edge(a, b, first, before, steps);
    convolution_edge(a, b, first + middle.end, behind, steps);
}

/// Writes the values from the one with index `first` on of the full convolution, with the shorter list
/// as the taps.
pub(crate) fn convolution_values<T: OwnLanes, M: Ledger>(
    a: &[T],
    b: &[T],
    first: usize,
    out: &mut [T],
    steps: &mut Steps<M>,
)
    requires some { 1 ≤ length a.now }
    requires taps { 1 ≤ length b.now }
    requires window { first + length out.old < length a.now + length b.now }
    requires few { first + length out.old < 2 ^ 64 }
    ensures values { map T.number out.new ≡ convolution_stretch T.format (map T.number b.now)
        (map T.number a.now) first (length out.old) }
    ensures steps { RisesAtMost steps.old steps.new (length out.old * length b.now) }
{
    if a.len() < b.len() {
        return convolution_by_taps(b, a, first, out, steps);
    }
    convolution_by_taps(a, b, first, out, steps)
}

/// The value with index `n` of the correlation of `a` with `b`: the sum of those products whose
/// samples are there.
fn correlation_value<T: OwnLanes, M: Ledger>(a: &[T], b: &[T], n: usize, steps: &mut Steps<M>) -> T
    requires some { 1 ≤ length a.now }
    requires taps { 1 ≤ length b.now }
    requires few { n + 1 < 2 ^ 64 }
    ensures value { T.number result ≡ close T.format
        (correlation_at (map T.number b.now) (map T.number a.now) n) }
    ensures steps { RisesWithin steps.old steps.new
        (correlation_terms (length a.now) (length b.now) n)
        (correlation_terms (length a.now) (length b.now) n) }
{
    let longest = a.len().max(b.len());
    let end = a.len().min((n + 1).saturating_sub(longest - b.len()));
    let start = (n + 1).saturating_sub(longest).min(end);
    let from = (longest - 1).saturating_sub(n).min(b.len());
    closed_sum(&a[start..end], &b[from..from + (end - start)], steps)
}

/// Writes the values from the one with index `first` on of the correlation, one after another.
fn correlation_edge<T: OwnLanes, M: Ledger>(
    a: &[T],
    b: &[T],
    first: usize,
    out: &mut [T],
    steps: &mut Steps<M>,
)
    requires some { 1 ≤ length a.now }
    requires taps { 1 ≤ length b.now }
    requires few { first + length out.old < 2 ^ 64 }
    ensures values { map T.number out.new ≡ correlation_stretch T.format (map T.number b.now)
        (map T.number a.now) first (length out.old) }
    ensures steps { CorrelationRises (length a.now) (length b.now) first
        (first + length out.old) steps.old steps.new }
{
    for (i, value) in out.iter_mut().enumerate() {
        *value = correlation_value(a, b, first + i, steps);
    }
}

/// Writes the values from the one with index `first` on of the correlation, each of which is a sum over
/// all of `b`.
fn correlation_middle<T: OwnLanes, M: Ledger>(
    a: &[T],
    b: &[T],
    first: usize,
    out: &mut [T],
    steps: &mut Steps<M>,
)
    requires some { 1 ≤ length a.now }
    requires taps { 1 ≤ length b.now }
    requires from { 0 < length out.old → length a.now ≤ first + 1 }
    requires whole { 0 < length out.old → first + length out.old + length b.now ≤ 2 * length a.now }
    ensures values { map T.number out.new ≡ correlation_stretch T.format (map T.number b.now)
        (map T.number a.now) first (length out.old) }
    ensures steps { CorrelationRises (length a.now) (length b.now) first
        (first + length out.old) steps.old steps.new }
{
    if out.is_empty() {
        return;
    }
    let start = first - (a.len() - 1);
    let end = start + (out.len() - 1) + b.len();
    T::rows(b, &a[start..end], out, steps);
}

/// Writes the values from the one with index `first` on of the correlation: those that are sums over
/// all of `b` in lanes, and those before and behind them one after another.
fn correlation_sums<T: OwnLanes, M: Ledger>(
    a: &[T],
    b: &[T],
    first: usize,
    out: &mut [T],
    steps: &mut Steps<M>,
)
    requires some { 1 ≤ length a.now }
    requires taps { 1 ≤ length b.now }
    requires few { first + length out.old < 2 ^ 64 }
    ensures values { map T.number out.new ≡ correlation_stretch T.format (map T.number b.now)
        (map T.number a.now) first (length out.old) }
    ensures steps { CorrelationRises (length a.now) (length b.now) first
        (first + length out.old) steps.old steps.new }
{
    let from = a.len() - 1;
    let whole = a.len().saturating_sub(b.len() - 1);
    let middle = middle_of(first, out.len(), from, whole);
    let (before, rest) = out.split_at_mut(middle.start);
    let (inside, behind) = rest.split_at_mut(middle.end - middle.start);
    correlation_edge(a, b, first, before, steps);
    correlation_middle(a, b, first + middle.start, inside, steps);
    correlation_edge(a, b, first + middle.end, behind, steps);
}

/// Writes zeros.
fn clear<T: Sample>(out: &mut [T])
    ensures { map T.number out.new ≡ values (length out.old) (λ _. pos 0) }
{
    for value in out.iter_mut() {
        *value = T::zero();
    }
}

/// Writes the values from the one with index `first` on of the correlation. Where one list is longer
/// than the other, as many of all values as it is longer are sums of nothing, and so 0.
pub(crate) fn correlation_values<T: OwnLanes, M: Ledger>(
    a: &[T],
    b: &[T],
    first: usize,
    out: &mut [T],
    steps: &mut Steps<M>,
)
    requires some { 1 ≤ length a.now }
    requires taps { 1 ≤ length b.now }
    requires few { first + length out.old < 2 ^ 64 }
    ensures values { map T.number out.new ≡ correlation_stretch T.format (map T.number b.now)
        (map T.number a.now) first (length out.old) }
    ensures steps { CorrelationRises (length a.now) (length b.now) first
        (first + length out.old) steps.old steps.new }
{
    let from = a.len().saturating_sub(b.len());
    let whole = b.len().saturating_add(a.len() - 1);
    let sums = middle_of(first, out.len(), from, whole);
    let (before, rest) = out.split_at_mut(sums.start);
    let (inside, behind) = rest.split_at_mut(sums.end - sums.start);
    clear(before);
    correlation_sums(a, b, first + sums.start, inside, steps);
    clear(behind);
}
