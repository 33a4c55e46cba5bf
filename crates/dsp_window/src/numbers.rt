ghost use Rattle.std.specs.Prelude.{◌≡◌, ◌≤◌, ◌+◌, ◌++◌, ◌↔◌, length, map, take, drop, replicate, pos, IfOk};
ghost use Rattle.std.specs.Prelude.{IsTrue, All, FitsSigned};
ghost use Rattle.dsp_defs.specs.Formats.{word};

use dsp_sat::Sample;
use std::alloc::{AllocError, Global};

/// A list of zeros.
pub fn zeros<T: Sample>(alloc: Global, count: usize) -> Result<Vec<T>, AllocError>
    ensures { IfOk result (λ v. map T.number v.items ≡ replicate count (pos 0)) }
{
    let mut zeros = Vec::with_capacity(alloc, count)?;
    for _ in 0..count {
        zeros.push(T::zero())?;
    }
    Ok(zeros)
}

/// Whether a number is a sample of the format.
pub fn is_sample<T: Sample>(number: i64) -> bool
    ensures { IsTrue result ↔ FitsSigned (word T.format) number }
{
    let half = 1i64 << (T::WORD_BITS - 1);
    -half <= number && number < half
}

/// Writes numbers to the front of the samples.
pub fn load_numbers<T: Sample>(samples: &mut [T], numbers: &[i64])
    requires room { length numbers.now ≤ length samples.old }
    requires samples { All (FitsSigned (word T.format)) numbers.now }
    ensures { map T.number (take (length numbers.now) samples.new) ≡ numbers.now }
{
    for (k, number) in numbers.iter().enumerate() {
        samples[k] = T::of_number(*number as i32);
    }
}

/// Moves `past` samples to the front, and writes the block after them.
pub fn roll<T: Copy>(samples: &mut [T], from: usize, past: usize, block: &[T])
    requires from { from + past ≤ length samples.old }
    requires block { past + length block.now ≤ length samples.old }
    ensures { take (past + length block.now) samples.new ≡ take past (drop from samples.old) ++ block.now }
{
    samples.copy_within(from..from + past, 0);
    samples[past..past + block.len()].copy_from_slice(block);
}
