//! Arithmetic on numbers of a format that stays in 32 bits: the compiler puts four of them into a
//! vector as they are.
ghost use Rattle.std.specs.Prelude.{◌≡◌, ◌<◌, ◌-◌, ◌-ℤ◌, pos, nat_abs, FitsSigned};
ghost use Rattle.dsp_defs.specs.Counts.{Rises};
ghost use Rattle.dsp_defs.specs.Elementwise.{add, mult, scale, shift, sub, IsScaleShift, IsShift};
ghost use Rattle.dsp_defs.specs.Formats.{word, word_bits};

use dsp_defs::Steps;
use dsp_sat::{Sample, clamped, narrow_product};
use std::sync::ledger::Ledger;

/// The saturating sum: of numbers of 8 or 16 bits no sum leaves 32.
#[inline(always)]
pub(crate) fn sum<T: Sample>(a: i32, b: i32) -> i32
    requires first { FitsSigned (word T.format) a }
    requires second { FitsSigned (word T.format) b }
    ensures value { result ≡ add T.format a b }
    ensures fits { FitsSigned (word T.format) result }
{
    if T::WORD_BITS < 32 {
        clamped::<T>(a + b)
    } else {
        T::add(T::of_number(a), T::of_number(b)).number()
    }
}

/// The saturating difference, in the same way.
#[inline(always)]
pub(crate) fn difference<T: Sample>(a: i32, b: i32) -> i32
    requires first { FitsSigned (word T.format) a }
    requires second { FitsSigned (word T.format) b }
    ensures value { result ≡ sub T.format a b }
    ensures fits { FitsSigned (word T.format) result }
{
    if T::WORD_BITS < 32 {
        clamped::<T>(a - b)
    } else {
        T::sub(T::of_number(a), T::of_number(b)).number()
    }
}

/// The product, shifted down and saturated; it is counted. Numbers of 8 bits are multiplied as those of
/// 16, which takes the compiler fewer steps.
#[inline(always)]
pub(crate) fn multiplied<T: Sample, L: Ledger>(a: i32, b: i32, steps: &mut Steps<L>) -> i32
    requires first { FitsSigned (word T.format) a }
    requires second { FitsSigned (word T.format) b }
    ensures value { result ≡ mult T.format a b }
    ensures fits { FitsSigned (word T.format) result }
    ensures steps { Rises steps.old steps.new 1 1 }
{
    if T::WORD_BITS < 32 {
        let product = i16::product(i16::of_number(a), i16::of_number(b), steps);
        clamped::<T>(product >> (T::WORD_BITS - 1))
    } else {
        T::mult(T::of_number(a), T::of_number(b), steps).number()
    }
}

/// By how many places the product of a number of 8 or 16 bits and a fraction is shifted down.
#[inline(always)]
fn places_down<T: Sample>(places: i32) -> u32
    requires narrow { word_bits T.format < 32 }
    requires places { IsScaleShift T.format places }
    ensures value { result ≡ nat_abs (pos (word_bits T.format - 1) -ℤ places) }
    ensures few { result < 32 }
{
    (T::WORD_BITS as i32 - 1 - places).unsigned_abs()
}

/// The number times a fraction and 2^places, saturated; the product is counted.
#[inline(always)]
pub(crate) fn scaled<T: Sample, L: Ledger>(
    x: i32,
    fract: i32,
    places: i32,
    steps: &mut Steps<L>,
) -> i32
    requires in_format { FitsSigned (word T.format) x }
    requires fract { FitsSigned (word T.format) fract }
    requires places { IsScaleShift T.format places }
    ensures value { result ≡ scale T.format fract places x }
    ensures fits { FitsSigned (word T.format) result }
    ensures steps { Rises steps.old steps.new 1 1 }
{
    if T::WORD_BITS < 32 {
        let product = narrow_product(x, fract, steps);
        clamped::<T>(product >> places_down::<T>(places))
    } else {
        T::scale(T::of_number(x), T::of_number(fract), places, steps).number()
    }
}

/// The number times 2^places, saturated, or shifted down.
#[inline(always)]
pub(crate) fn shifted<T: Sample>(x: i32, places: i32) -> i32
    requires in_format { FitsSigned (word T.format) x }
    requires places { IsShift T.format places }
    ensures value { result ≡ shift T.format places x }
    ensures fits { FitsSigned (word T.format) result }
{
    if places < 0 {
        x >> -places
    } else if T::WORD_BITS < 32 {
        clamped::<T>(x << places)
    } else {
        T::shift(T::of_number(x), places).number()
    }
}
