//! The numbers that a bank keeps, as samples.
ghost use Rattle.std.specs.Prelude.{◌≡◌, ◌<◌, length, map, pos, replicate, IfOk};
ghost use Rattle.dsp_defs.specs.Formats.{word};
ghost use Rattle.dsp_defs.specs.Signal.{sample};
ghost use Rattle.dsp_defs.specs.Kept.{Each, IsOfKind, in_words};

use dsp_filter::number_of;
use dsp_sat::Sample;
use std::alloc::{AllocError, Global};

/// A list of zeros.
pub(crate) fn zeros<T: Sample>(alloc: Global, count: usize) -> Result<Vec<T>, AllocError>
    ensures zeros { IfOk result (λ v. map T.number v.items ≡ replicate count (pos 0)) }
    ensures size { IfOk result (λ v. length v.items ≡ count) }
{
    let mut zeros = Vec::with_capacity(alloc, count)?;
    for _ in 0..count {
        zeros.push(T::zero())?;
    }
    Ok(zeros)
}

/// Writes the numbers of samples.
pub(crate) fn keep_samples<T: Sample>(samples: &[T], out: &mut [i64])
    requires { length out.old ≡ length samples.now }
    ensures { out.new ≡ map T.number samples.now }
{
    for (k, sample) in samples.iter().enumerate() {
        out[k] = number_of(*sample);
    }
}

/// One of the numbers, as a sample.
fn sample_at<T: Sample>(numbers: &[i64], k: usize) -> T
    requires inside { k < length numbers.now }
    requires fits { Each IsOfKind (in_words (word T.format) (length numbers.now)) numbers.now }
    ensures { T.number result ≡ sample numbers.now k }
{
    T::of_number(numbers[k] as i32)
}

/// Writes over samples those of numbers.
pub(crate) fn restore_samples<T: Sample>(numbers: &[i64], samples: &mut [T])
    requires { Each IsOfKind (in_words (word T.format) (length samples.old)) numbers.now }
    ensures { map T.number samples.new ≡ numbers.now }
{
    for k in 0..samples.len() {
        samples[k] = sample_at(numbers, k);
    }
}
