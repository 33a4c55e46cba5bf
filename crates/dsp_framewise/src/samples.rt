//! The formulas of one sample that only negate or compare.
ghost use Rattle.std.specs.Prelude.{◌≡◌, ◌≤ℤ◌, FitsSigned};
ghost use Rattle.dsp_defs.specs.Elementwise.{abs, clip, negate};
ghost use Rattle.dsp_defs.specs.Formats.{word};

use dsp_defs::Fmt;
use dsp_exact::saturate;

/// -x, saturated.
pub fn negate(format: Fmt, x: i32) -> i32
    ensures value { result ≡ negate format x }
    ensures fits { FitsSigned (word format) result }
{
    saturate(format, -i128::from(x))
}

/// |x|, saturated.
pub fn abs(format: Fmt, x: i32) -> i32
    ensures value { result ≡ abs format x }
    ensures fits { FitsSigned (word format) result }
{
    saturate(format, i128::from(x).abs())
}

/// x clamped to `low..=high`.
pub fn clip(low: i32, high: i32, x: i32) -> i32
    requires { low ≤ℤ high }
    ensures value { result ≡ clip low high x }
    ensures low { low ≤ℤ result }
    ensures high { result ≤ℤ high }
{
    x.max(low).min(high)
}
