//! The four numbers that an extreme keeps: 1 where there was a sample, the best one, its index, and the
//! count of samples; all are 0 where there was none.
ghost use Rattle.std.specs.Prelude.{◌≡◌, ◌↔◌, ℕ, suc, Some, IfSome, IsTrue, length};
ghost use Rattle.dsp_defs.specs.Kept.{Below, Each, Fixed, IsOfKind, extreme_kept, extreme_kinds};
ghost use Rattle.dsp_measure.specs.Extremes.{IsFew, IsFound, KeepsExtreme};

use crate::MeasureSample;

/// The most samples among which an extreme is found.
const MAX_COUNT: i64 = (1 << 62) - 1;

/// Whether these are the numbers where there was no sample.
fn are_of_none<T: MeasureSample>(numbers: &[i64]) -> bool
    ensures { IsTrue result ↔ Each IsOfKind (extreme_kinds T.format 0) numbers.now }
{
    match *numbers {
        [put, value, index, count] => put == 0 && value == 0 && index == 0 && count == 0,
        _ => false,
    }
}

/// Whether the index is below the count, and the count not too great.
fn is_index(index: i64, count: i64) -> bool
    ensures { IsTrue result ↔ ((n : ℕ) × IsFew (suc n) × IsOfKind (Below (suc n)) index
        × IsOfKind (Fixed (suc n)) count) }
{
    0 <= index && index < count && count <= MAX_COUNT
}

/// Whether these can be the numbers where there were samples.
fn are_of_some<T: MeasureSample>(numbers: &[i64]) -> bool
    ensures { IsTrue result ↔ ((n : ℕ) × KeepsExtreme T.format (suc n) numbers.now) }
{
    match *numbers {
        [put, value, index, count] => { put == 1 && T::is_word(value) && is_index(index, count) }
        _ => false,
    }
}

/// The count of samples of which these can be the numbers, if there is one.
pub fn place_extreme<T: MeasureSample>(numbers: &[i64]) -> Option<u64>
    ensures fits { IfSome result (λ n. KeepsExtreme T.format n numbers.now) }
    ensures least { (n : ℕ) → KeepsExtreme T.format n numbers.now → result ≡ Some n }
{
    if are_of_none::<T>(numbers) {
        Some(0)
    } else if are_of_some::<T>(numbers) {
        Some(numbers[3] as u64)
    } else {
        None
    }
}

/// The extreme and the count of samples that these numbers say.
pub fn read_extreme<T: MeasureSample>(numbers: &[i64]) -> (Option<(i32, u64)>, u64)
    requires { (n : ℕ) × KeepsExtreme T.format n numbers.now }
    ensures numbers { numbers.now ≡ extreme_kept result.0 result.1 }
    ensures count { (n : ℕ) → KeepsExtreme T.format n numbers.now → result.1 ≡ n }
    ensures few { IsFew result.1 }
    ensures found { IsFound T.format result.0 result.1 }
{
    if numbers[0] == 0 {
        return (None, 0);
    }
    let best = (numbers[1] as i32, numbers[2] as u64);
    (Some(best), numbers[3] as u64)
}

/// Writes the numbers.
pub fn write_extreme<T: MeasureSample>(found: Option<(i32, u64)>, count: u64, out: &mut [i64])
    requires room { length out.old ≡ 4 }
    requires few { IsFew count }
    requires found { IsFound T.format found count }
    ensures numbers { out.new ≡ extreme_kept found count }
    ensures fits { KeepsExtreme T.format count out.new }
{
    match found {
        Some((value, index)) => {
            out[0] = 1;
            out[1] = i64::from(value);
            out[2] = index as i64;
            out[3] = count as i64;
        }
        None => out.fill(0),
    }
}
