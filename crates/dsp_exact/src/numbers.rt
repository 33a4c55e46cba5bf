//! Exact numbers of 128 bits, and how they become samples.
ghost use Rattle.std.specs.Prelude.{◌≡◌, ◌+◌, ◌+ℤ◌, ◌-ℤ◌, ◌*ℤ◌, ◌^◌, ◌≤◌, FitsSigned, nat_abs};
ghost use Rattle.dsp_defs.specs.Formats.{close, word, word_bits};
ghost use Rattle.dsp_defs.specs.Numbers.{saturate, wrap};

use dsp_defs::{Fmt, Steps};
use dsp_sat::{sat32, wide_product, wrap32, wrap64};
use std::sync::ledger::Ledger;

/// The bits of a format's word.
pub fn word_bits(format: Fmt) -> u32
    ensures { result ≡ word_bits format }
{
    match format {
        Fmt::Q7 => 8,
        Fmt::Q15 => 16,
        Fmt::Q31 => 32,
    }
}

/// The number of the format's word that is nearest.
pub fn saturate(format: Fmt, v: i128) -> i32
    ensures value { result ≡ saturate (word_bits format) v }
    ensures fits { FitsSigned (word format) result }
{
    match format {
        Fmt::Q7 => v.clamp(-0x80, 0x7f) as i32,
        Fmt::Q15 => v.clamp(-0x8000, 0x7fff) as i32,
        Fmt::Q31 => sat32(v),
    }
}

/// The number of the format's word with the same low bits.
pub fn wrap(format: Fmt, v: i128) -> i32
    ensures value { result ≡ wrap (word format) v }
    ensures fits { FitsSigned (word format) result }
{
    match format {
        Fmt::Q7 => i32::from((v.rem_euclid(0x100) as u8).cast_signed()),
        Fmt::Q15 => i32::from((v.rem_euclid(0x1_0000) as u16).cast_signed()),
        Fmt::Q31 => wrap32(v),
    }
}

/// A sum of products as a sample.
pub fn close(format: Fmt, sum: i128) -> i32
    ensures value { result ≡ close format sum }
    ensures fits { FitsSigned (word format) result }
{
    match format {
        Fmt::Q7 => saturate(Fmt::Q7, i128::from(wrap32(sum)) >> 7),
        Fmt::Q15 => saturate(Fmt::Q15, i128::from(wrap64(sum)) >> 15),
        Fmt::Q31 => wrap32(i128::from(wrap64(sum)) >> 31),
    }
}

/// The exact sum of numbers far within 128 bits.
pub fn sum(a: i128, b: i128) -> i128
    requires left { nat_abs a ≤ 2 ^ 125 }
    requires right { nat_abs b ≤ 2 ^ 125 }
    ensures value { result ≡ a +ℤ b }
    ensures small { nat_abs result ≤ nat_abs a + nat_abs b }
{
    a + b
}

/// The exact difference of such numbers.
pub fn difference(a: i128, b: i128) -> i128
    requires left { nat_abs a ≤ 2 ^ 125 }
    requires right { nat_abs b ≤ 2 ^ 125 }
    ensures value { result ≡ a -ℤ b }
    ensures small { nat_abs result ≤ nat_abs a + nat_abs b }
{
    a - b
}

/// The exact product, counted.
pub fn product<L: Ledger>(a: i32, b: i32, steps: &mut Steps<L>) -> i128
    ensures value { result ≡ a *ℤ b }
    ensures small { nat_abs result ≤ 2 ^ 62 }
    ensures products { steps.new.multiplies ≡ steps.old.multiplies + 1 }
{
    i128::from(wide_product(a, b, steps))
}
