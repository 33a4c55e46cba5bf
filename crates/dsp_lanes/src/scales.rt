//! `scale` of two groups of samples, and the parts of `scale` in Q31.
ghost use Rattle.std.specs.Prelude.{◌≡◌, ◌+◌, ◌*◌, ◌≤◌, ◌≤ℤ◌, ◌*ℤ◌, pos, negsuc, FitsSigned, length, map};
ghost use Rattle.std.specs.Simd.Lanes.{Each1, chunk, put_chunk};
ghost use Rattle.dsp_defs.specs.Elementwise.{scale, shift_in, IsScaleShift};
ghost use Rattle.dsp_defs.specs.Numbers.{floor_shift, w32, w64};
ghost use Rattle.dsp_defs.specs.Signal.{sample, values};
ghost use Rattle.dsp_defs.specs.declared.format.Fmt.TheVariants.{Q31};
ghost use Rattle.dsp_lanes.specs.Pairs.{in_turn};

use crate::fits::q31_fit;
use crate::kernels::LaneKernels;
use std::simd::prelude::*;

/// `scale` of two groups, one after the other.
#[inline(always)]
pub(crate) fn scale_groups<T: LaneKernels<L>, const L: usize>(
    a: &[T],
    factor: T,
    places: i32,
    out: &mut [T],
    at: usize,
)
    requires places { IsScaleShift T.format places }
    requires input { at + 2 * L ≤ length a.now }
    requires room { at + 2 * L ≤ length out.old }
    ensures { map T.number out.new ≡ put_chunk at (map T.number out.old)
        (map (scale T.format (T.number factor) places) (chunk at (2 * L) (map T.number a.now))) }
{
    T::scale_group(a, factor, places, out, at);
    T::scale_group(a, factor, places, out, at + L);
}

/// Numbers times 2^places, saturated, where places are 1 to 31. A number that is too great becomes the
/// least one, less 1, which is the greatest.
#[inline(always)]
fn grown<const N: usize>(numbers: Simd<i32, N>, places: i32) -> Simd<i32, N>
    requires places { (pos 1 ≤ℤ places) × (places ≤ℤ pos 31) }
    requires long { length numbers ≡ N }
    requires fit { Each1 (FitsSigned w32) numbers }
    ensures value { result ≡ map (λ h. shift_in 32 h places) numbers.entry }
    ensures fit { Each1 (FitsSigned w32) result }
{
    let most = i32::MAX >> places;
    let least = i32::MIN >> places;
    let kept = numbers
        .simd_min(Simd::splat(most + 1))
        .simd_max(Simd::splat(least));
    (kept << Simd::splat(places)) + ((Simd::splat(most) - kept) >> Simd::splat(31))
}

/// Numbers times 2^places, saturated where they grow and rounded down where they shrink.
#[inline(always)]
pub(crate) fn moved<const N: usize>(numbers: Simd<i32, N>, places: i32) -> Simd<i32, N>
    requires places { (negsuc 29 ≤ℤ places) × (places ≤ℤ pos 31) }
    requires long { length numbers ≡ N }
    requires fit { Each1 (FitsSigned w32) numbers }
    ensures { result ≡ map (λ h. shift_in 32 h places) numbers.entry }
{
    if places >= 1 {
        grown(numbers, places)
    } else {
        numbers >> Simd::splat(-places)
    }
}

/// The even ones of eight words, in lanes of 64 bits.
#[inline(always)]
pub(crate) fn even_words(words: i32x8) -> i64x4
    requires long { length words ≡ 8 }
    requires fit { Each1 (FitsSigned w32) words }
    ensures words { result ≡ values 4 (λ i. sample words (2 * i)) }
    ensures fit { Each1 (FitsSigned w32) result }
{
    let word = Simd::splat(32);
    (i64x4::from_le_bytes(words.to_le_bytes()) << word) >> word
}

/// The odd ones of eight words, in lanes of 64 bits.
#[inline(always)]
pub(crate) fn odd_words(words: i32x8) -> i64x4
    requires long { length words ≡ 8 }
    requires fit { Each1 (FitsSigned w32) words }
    ensures words { result ≡ values 4 (λ i. sample words (2 * i + 1)) }
    ensures fit { Each1 (FitsSigned w32) result }
{
    i64x4::from_le_bytes(words.to_le_bytes()) >> Simd::splat(32)
}

/// The high words of two times four lanes, in turn.
#[inline(always)]
fn high_words(even: i64x4, odd: i64x4) -> i32x8
    requires four_even { length even ≡ 4 }
    requires four_odd { length odd ≡ 4 }
    requires fit_even { Each1 (FitsSigned w64) even }
    requires fit_odd { Each1 (FitsSigned w64) odd }
    ensures words { result ≡ map (λ p. floor_shift p 32) (in_turn even odd) }
    ensures fit { Each1 (FitsSigned w32) result }
{
    let odd = i32x8::from_le_bytes(odd.to_le_bytes());
    i32x8::from_le_bytes(even.to_le_bytes()).shuffle(odd, [1, 9, 3, 11, 5, 13, 7, 15])
}

/// The high words of the products of eight samples and a factor. A product of 64 bits takes each sample
/// where it lies. The factor is a word of a lane too, so that the compiler sees its 32 bits at each
/// product, and makes one multiplication of it.
#[inline(always)]
pub(crate) fn high_products(samples: i32x8, factor: i32) -> i32x8
    requires long { length samples ≡ 8 }
    requires fit { Each1 (FitsSigned w32) samples }
    ensures words { result ≡ map (λ x. floor_shift (x *ℤ factor) 32) samples }
    ensures fit { Each1 (FitsSigned w32) result }
{
    let factors = even_words(Simd::splat(factor));
    high_words(even_words(samples) * factors, odd_words(samples) * factors)
}

/// `scale` of eight samples in Q31.
#[inline(always)]
pub(crate) fn scale_eight(a: &[i32], factor: i32, places: i32, out: &mut [i32], at: usize)
    requires places { IsScaleShift Q31 places }
    requires input { at + 8 ≤ length a.now }
    requires room { at + 8 ≤ length out.old }
    ensures { out.new ≡ put_chunk at out.old (map (scale Q31 factor places) (chunk at 8 a.now)) }
{
    q31_fit(a);
    let high = high_products(i32x8::from_slice(&a[at..]), factor);
    moved(high, places + 1).copy_to_slice(&mut out[at..]);
}
