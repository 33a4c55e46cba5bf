//! Frames of numbers as samples, and samples as numbers.
ghost use Rattle.std.specs.Prelude.{◌≡◌, All, FitsSigned, length, map};
ghost use Rattle.dsp_defs.specs.Formats.{word};

use dsp_sat::Sample;

/// Writes the samples of numbers.
pub(crate) fn take_numbers<T: Sample>(numbers: &[i32], samples: &mut [T])
    requires size { length samples.old ≡ length numbers.now }
    requires in_format { All (FitsSigned (word T.format)) numbers.now }
    ensures { map T.number samples.new ≡ numbers.now }
{
    for (k, number) in numbers.iter().enumerate() {
        samples[k] = T::of_number(*number);
    }
}

/// Writes the numbers of samples.
pub(crate) fn put_numbers<T: Sample>(samples: &[T], numbers: &mut [i32])
    requires { length numbers.old ≡ length samples.now }
    ensures value { numbers.new ≡ map T.number samples.now }
    ensures in_format { All (FitsSigned (word T.format)) numbers.new }
{
    for (k, sample) in samples.iter().enumerate() {
        numbers[k] = sample.number();
    }
}
