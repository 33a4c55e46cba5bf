//! Sums of five products, and how a section closes them.
ghost use Rattle.std.specs.Prelude.{◌≡◌, ◌+◌, ◌-◌, ◌^◌, ◌≤◌, ◌+ℤ◌, pos};
ghost use Rattle.dsp_defs.specs.Numbers.{floor_shift, wrap, w32, w64};
ghost use Rattle.dsp_defs.specs.Biquad.{fed_back};

use dsp_sat::low_word;

/// The sum of three numbers, wrapped.
#[inline(always)]
fn wrapped_sum(first: i64, second: i64, third: i64) -> i64
    ensures { result ≡ wrap w64 (first +ℤ second +ℤ third) }
{
    first.wrapping_add(second).wrapping_add(third)
}

/// The sum of five numbers, wrapped. The fourth is added last: it is the product of the last output,
/// which the next output waits for.
#[inline(always)]
pub(crate) fn wrapped_five(first: i64, second: i64, third: i64, fourth: i64, fifth: i64) -> i64
    ensures paired { result ≡ wrap w64 (first +ℤ second +ℤ third +ℤ (fourth +ℤ fifth)) }
    ensures in_turn { result ≡ wrap w64 (first +ℤ second +ℤ third +ℤ fourth +ℤ fifth) }
{
    let past = wrapped_sum(second, third, fifth);
    wrapped_sum(first, past, fourth)
}

/// A sum as a fraction, wrapped.
#[inline(always)]
pub(crate) fn fraction31(sum: i64, post_shift: u8) -> i32
    ensures { result ≡ wrap w32 (floor_shift sum (31 - post_shift)) }
{
    low_word(sum >> 31u32.saturating_sub(u32::from(post_shift)))
}

/// The power of two that a sum is fed back by.
#[inline(always)]
fn power(post_shift: u8) -> i64
    requires { post_shift ≤ 30 }
    ensures { result ≡ pos (2 ^ (post_shift + 1)) }
{
    1i64 << (post_shift + 1)
}

/// What is fed back of a sum.
#[inline(always)]
pub(crate) fn fed_back(sum: i64, post_shift: u8) -> i64
    requires { post_shift ≤ 30 }
    ensures { result ≡ fed_back post_shift sum }
{
    sum.wrapping_mul(power(post_shift))
}
