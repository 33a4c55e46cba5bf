ghost use Rattle.std.specs.Prelude.{◌≡◌, ◌↔◌, [], ◌∷◌, length, map, All, FitsSigned, IfOk, IsTrue};
ghost use Rattle.dsp_defs.specs.Formats.{word};
ghost use Rattle.dsp_defs.specs.Kept.{Each, IsOfKind, in_words};

use dsp_sat::Sample;
use dsp_window::is_sample;
use std::alloc::{AllocError, Global};

/// The samples of a list of numbers of the format, as a script has them.
pub fn samples_of<T: Sample>(alloc: Global, numbers: &[i32]) -> Result<Vec<T>, AllocError>
    requires { All (FitsSigned (word T.format)) numbers.now }
    ensures { IfOk result (λ v. map T.number v.items ≡ numbers.now) }
{
    let mut samples = Vec::with_capacity(alloc, numbers.len())?;
    for number in numbers {
        samples.push(T::of_number(*number))?;
    }
    Ok(samples)
}

/// `are_samples`, of lists by their length and their numbers.
fn are_words<T: Sample>(numbers: &[i64], count: usize) -> bool
    ensures { IsTrue result ↔ (length numbers.now ≡ count) × All (FitsSigned (word T.format)) numbers.now }
{
    numbers.len() == count && numbers.iter().all(|n| is_sample::<T>(*n))
}

/// Whether these are so many numbers, each a sample of the format.
pub fn are_samples<T: Sample>(numbers: &[i64], count: usize) -> bool
    ensures { IsTrue result ↔ Each IsOfKind (in_words (word T.format) count) numbers.now }
{
    are_words::<T>(numbers, count)
}

/// The number of a sample.
pub fn number_of<T: Sample>(x: T) -> i64
    ensures { result ≡ T.number x }
{
    i64::from(x.number())
}

/// Writes three numbers.
pub fn write_three(out: &mut [i64], first: i64, second: i64, third: i64)
    requires { length out.old ≡ 3 }
    ensures { out.new ≡ first ∷ second ∷ third ∷ [] }
{
    out[0] = first;
    out[1] = second;
    out[2] = third;
}

/// Writes four numbers.
pub fn write_four(out: &mut [i64], first: i64, second: i64, third: i64, fourth: i64)
    requires { length out.old ≡ 4 }
    ensures { out.new ≡ first ∷ second ∷ third ∷ fourth ∷ [] }
{
    out[0] = first;
    out[1] = second;
    out[2] = third;
    out[3] = fourth;
}

/// Does nothing at run time: a proof learns that samples are numbers of the format.
pub fn all_fit<T: Sample>(samples: &[T])
    ensures { All (FitsSigned (word T.format)) (map T.number samples.now) }
{
    for sample in samples {
        let _number = sample.number();
    }
}
