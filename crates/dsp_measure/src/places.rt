//! Which numbers the measures of a unit can keep.
ghost use Rattle.std.specs.Prelude.{◌≡◌, ◌+◌, ◌*◌, ◌≤◌, ◌↔◌, ℕ, Some, All, FitsSigned, IfSome, IsTrue};
ghost use Rattle.std.specs.Prelude.{length};
ghost use Rattle.dsp_unit.specs.Channels.{numbers_in};
ghost use Rattle.dsp_defs.specs.Kept.{Each, FitsAfter, FitsChannel, IsOfKind, in_words, place_of};
ghost use Rattle.dsp_defs.specs.Formats.{accumulator};
ghost use Rattle.dsp_measure.specs.Measures.{block_of, channels_of, size_of};

use crate::MeasureSample;
use crate::extreme_numbers::place_extreme;
use crate::measure_block::MeasureBlock;
use dsp_defs::Fmt;

/// Whether the numbers are in the range of the accumulator.
fn are_sums<T: MeasureSample>(numbers: &[i64]) -> bool
    ensures { IsTrue result ↔ All (FitsSigned (accumulator T.format)) numbers.now }
{
    numbers.iter().all(|number| T::is_sum(*number))
}

/// The least count of frames of which these can be the sums: 0, since sums are those of any count.
fn place_sums<T: MeasureSample>(size: usize, numbers: &[i64]) -> Option<u64>
    ensures fits { IfSome result (λ n. (n ≡ 0)
        × Each IsOfKind (in_words (accumulator T.format) size) numbers.now) }
    ensures least { Each IsOfKind (in_words (accumulator T.format) size) numbers.now → result ≡ Some 0 }
{
    if numbers.len() == size && are_sums::<T>(numbers) {
        Some(0)
    } else {
        None
    }
}

/// The least number of frames of which one measure can keep these numbers, if there is one.
fn place_part<T: MeasureSample>(measure: MeasureBlock, numbers: &[i64]) -> Option<u64>
    ensures fits { IfSome result (λ n. FitsChannel T.format (block_of measure) n numbers.now) }
    ensures least { (n : ℕ) → FitsChannel T.format (block_of measure) n numbers.now
        → result ≡ Some (place_of (block_of measure) n) }
{
    match measure {
        MeasureBlock::Power | MeasureBlock::Dot => place_sums::<T>(1, numbers),
        MeasureBlock::CmplxDot => place_sums::<T>(2, numbers),
        MeasureBlock::Max | MeasureBlock::Min => place_extreme::<T>(numbers),
    }
}

/// The numbers of one measure.
fn numbers_of(numbers: &[i64], size: usize, part: usize) -> &[i64]
    requires { (part + 1) * size ≤ length numbers.now }
    ensures { result.now ≡ numbers_in size numbers.now part }
{
    let start = part * size;
    &numbers[start..start + size]
}

/// The least number of frames of which all measures can keep these numbers, if there is one.
fn place_each<T: MeasureSample>(measure: MeasureBlock, channels: u8, numbers: &[i64]) -> Option<u64>
    requires { channels_of measure ≤ channels }
    ensures fits { IfSome result (λ n. FitsAfter T.format channels (block_of measure) n numbers.now) }
    ensures least { (n : ℕ) → FitsAfter T.format channels (block_of measure) n numbers.now
        → result ≡ Some (place_of (block_of measure) n) }
{
    let size = measure.size();
    let parts = measure.parts(usize::from(channels));
    if numbers.len() != parts * size {
        return None;
    }
    let Some(place) = place_part::<T>(measure, numbers_of(numbers, size, 0)) else {
        return None;
    };
    for part in 0..parts {
        let Some(other) = place_part::<T>(measure, numbers_of(numbers, size, part)) else {
            return None;
        };
        if other != place {
            return None;
        }
    }
    Some(place)
}

/// The same of numbers in a format.
pub fn place_parts(measure: MeasureBlock, format: Fmt, channels: u8, numbers: &[i64]) -> Option<u64>
    requires { channels_of measure ≤ channels }
    ensures fits { IfSome result (λ n. FitsAfter format channels (block_of measure) n numbers.now) }
    ensures least { (n : ℕ) → FitsAfter format channels (block_of measure) n numbers.now
        → result ≡ Some (place_of (block_of measure) n) }
{
    match format {
        Fmt::Q7 => place_each::<i8>(measure, channels, numbers),
        Fmt::Q15 => place_each::<i16>(measure, channels, numbers),
        Fmt::Q31 => place_each::<i32>(measure, channels, numbers),
    }
}
