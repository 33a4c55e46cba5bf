//! The formulas of blocks without memory, on exact numbers.
ghost use Rattle.std.specs.Prelude.{◌≡◌, ◌+◌, ◌+ℤ◌, ◌-ℤ◌, ◌≤◌, ◌≤ℤ◌, ◌^◌, FitsSigned, nat_abs, negsuc, pos};
ghost use Rattle.dsp_defs.specs.Elementwise.{IsScaleShift, IsShift, add, convert, mult, scale, shift};
ghost use Rattle.dsp_defs.specs.Elementwise.{shift_in, sub};
ghost use Rattle.dsp_defs.specs.Formats.{word, word_bits};
ghost use Rattle.dsp_defs.specs.Numbers.{floor_shift};
ghost use Rattle.dsp_defs.specs.declared.format.Fmt.TheVariants.{Q31};

use crate::numbers::{product, saturate, word_bits};
use dsp_defs::{Fmt, Steps};
use dsp_sat::{floor_shift, sat31, shift};
use std::sync::ledger::Ledger;

/// a + b, saturated.
pub fn add(format: Fmt, a: i32, b: i32) -> i32
    ensures value { result ≡ add format a b }
    ensures fits { FitsSigned (word format) result }
{
    saturate(format, i128::from(a) + i128::from(b))
}

/// a - b, saturated.
pub fn sub(format: Fmt, a: i32, b: i32) -> i32
    ensures value { result ≡ sub format a b }
    ensures fits { FitsSigned (word format) result }
{
    saturate(format, i128::from(a) - i128::from(b))
}

/// x * 2^s, saturated, where it grows, and x >> -s where it shrinks.
pub fn shift_in(format: Fmt, x: i32, s: i32) -> i32
    requires low { negsuc 30 ≤ℤ s }
    requires high { s ≤ℤ pos 31 }
    requires fits { FitsSigned (word format) x }
    ensures value { result ≡ shift_in (word_bits format) x s }
    ensures fits { FitsSigned (word format) result }
{
    saturate(format, i128::from(shift(x, s)))
}

/// The product as a sample.
pub fn mult<L: Ledger>(format: Fmt, a: i32, b: i32, steps: &mut Steps<L>) -> i32
    ensures value { result ≡ mult format a b }
    ensures fits { FitsSigned (word format) result }
    ensures products { steps.new.multiplies ≡ steps.old.multiplies + 1 }
{
    let p = product(a, b, steps);
    match format {
        Fmt::Q7 => saturate(format, p >> 7),
        Fmt::Q15 => saturate(format, p >> 15),
        Fmt::Q31 => 2 * sat31(floor_shift(p, 32) as i64),
    }
}

/// The places by which a product is shifted down, s fewer than these.
fn places_to(places: i32, s: i32) -> u32
    requires most { places ≤ℤ pos 15 }
    requires some { pos 7 ≤ℤ places }
    requires low { negsuc 15 ≤ℤ s }
    requires high { s ≤ℤ places }
    ensures value { result ≡ nat_abs (places -ℤ s) }
    ensures few { result ≤ 31 }
{
    (places - s).unsigned_abs()
}

/// The high word of a product.
fn high_word(p: i128) -> i32
    requires { nat_abs p ≤ 2 ^ 62 }
    ensures { result ≡ floor_shift p 32 }
{
    floor_shift(p, 32) as i32
}

/// The high word of a product, times 2^(s+1), as a sample.
fn moved(p: i128, s: i32) -> i32
    requires small { nat_abs p ≤ 2 ^ 62 }
    requires few { IsScaleShift Q31 s }
    ensures { result ≡ shift_in 32 (floor_shift p 32) (s +ℤ pos 1) }
{
    shift(high_word(p), s + 1)
}

/// A sample times a fraction and a power of two.
pub fn scale<L: Ledger>(format: Fmt, fract: i32, s: i32, x: i32, steps: &mut Steps<L>) -> i32
    requires { IsScaleShift format s }
    ensures value { result ≡ scale format fract s x }
    ensures fits { FitsSigned (word format) result }
    ensures products { steps.new.multiplies ≡ steps.old.multiplies + 1 }
{
    let p = product(x, fract, steps);
    match format {
        Fmt::Q7 => saturate(format, floor_shift(p, places_to(7, s))),
        Fmt::Q15 => saturate(format, floor_shift(p, places_to(15, s))),
        Fmt::Q31 => moved(p, s),
    }
}

/// The same fraction in another format.
pub fn convert(from: Fmt, to: Fmt, x: i32) -> i32
    requires { FitsSigned (word from) x }
    ensures value { result ≡ convert from to x }
    ensures fits { FitsSigned (word to) result }
{
    if word_bits(from) <= word_bits(to) {
        x * 2i32.pow(word_bits(to) - word_bits(from))
    } else {
        x >> (word_bits(from) - word_bits(to))
    }
}
