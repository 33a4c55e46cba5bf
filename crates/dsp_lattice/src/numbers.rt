//! The numbers that a lattice keeps.
ghost use Rattle.std.specs.Prelude.{◌≡◌, ◌+◌, length, map, replicate, reverse, drop, pos, All, FitsSigned};
ghost use Rattle.std.specs.Prelude.{IfOk};
ghost use Rattle.dsp_defs.specs.Formats.{word};

use dsp_filter::number_of;
use dsp_sat::Sample;
use std::alloc::{AllocError, Global};

/// So many zeros.
pub(crate) fn zeros<T: Sample>(alloc: Global, count: usize) -> Result<Vec<T>, AllocError>
    ensures { IfOk result (λ v. map T.number v.items ≡ replicate count (pos 0)) }
{
    let mut zeros = Vec::with_capacity(alloc, count)?;
    for _ in 0..count {
        zeros.push(T::zero())?;
    }
    Ok(zeros)
}

/// Writes the numbers of samples.
pub(crate) fn write_numbers<T: Sample>(samples: &[T], out: &mut [i64])
    requires { length out.old ≡ length samples.now }
    ensures { out.new ≡ map T.number samples.now }
{
    for (k, sample) in samples.iter().enumerate() {
        out[k] = number_of(*sample);
    }
}

/// Makes the samples those of the numbers.
pub(crate) fn read_numbers<T: Sample>(samples: &mut [T], numbers: &[i64])
    requires length { length numbers.now ≡ length samples.old }
    requires samples { All (FitsSigned (word T.format)) numbers.now }
    ensures { map T.number samples.new ≡ numbers.now }
{
    for (k, number) in numbers.iter().enumerate() {
        samples[k] = T::of_number(*number as i32);
    }
}

/// Makes the samples behind the first those of the numbers, the last of them first.
pub(crate) fn read_reversed<T: Sample>(samples: &mut [T], numbers: &[i64])
    requires length { length samples.old ≡ length numbers.now + 1 }
    requires samples { All (FitsSigned (word T.format)) numbers.now }
    ensures { reverse (drop 1 (map T.number samples.new)) ≡ numbers.now }
{
    let rest = &mut samples[1..];
    read_numbers(rest, numbers);
    rest.reverse();
}
