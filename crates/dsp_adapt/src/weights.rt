ghost use Rattle.std.specs.Prelude.{◌≡◌, ◌+◌, All, FitsSigned, drop, length, map, reverse, take};
ghost use Rattle.dsp_defs.specs.Formats.{word};

use dsp_filter::number_of;
use dsp_sat::Sample;
use dsp_window::Window;

/// Writes the numbers of weights, the last one first.
pub(crate) fn keep_reversed<T: Sample>(weights: &[T], out: &mut [i64])
    requires { length out.old ≡ length weights.now }
    ensures { out.new ≡ reverse (map T.number weights.now) }
{
    for (k, slot) in out.iter_mut().enumerate() {
        *slot = number_of(weights[weights.len() - 1 - k]);
    }
}

/// Reads weights from their numbers, the last one first.
pub(crate) fn restore_reversed<T: Sample>(weights: &mut [T], numbers: &[i64])
    requires same { length numbers.now ≡ length weights.old }
    requires samples { All (FitsSigned (word T.format)) numbers.now }
    ensures { map T.number weights.new ≡ reverse numbers.now }
{
    for (k, weight) in weights.iter_mut().enumerate() {
        *weight = T::of_number(numbers[numbers.len() - 1 - k] as i32);
    }
}

/// Reads a past, and then weights, from their numbers.
pub(crate) fn restore_parts<T: Sample>(window: &mut Window<T>, weights: &mut [T], numbers: &[i64])
    requires length { length numbers.now ≡ window.old.past + length weights.old }
    requires samples { All (FitsSigned (word T.format)) numbers.now }
    ensures window { window.new ≡ record window.old { samples = take window.old.past numbers.now } }
    ensures weights { map T.number weights.new ≡ reverse (drop window.old.past numbers.now) }
{
    let past = numbers.len() - weights.len();
    window.restore(&numbers[..past]);
    restore_reversed(weights, &numbers[past..]);
}
