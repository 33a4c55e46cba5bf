ghost use Rattle.std.specs.Prelude.{◌≡◌, ◌+ℤ◌, neg_ℤ};
ghost use Rattle.dsp_defs.specs.Numbers.{floor_shift, wrap, w32, w64};
ghost use Rattle.dsp_defs.specs.Adaptive.{pid_gains, pid_close};

use dsp_sat::{Sample, WideSample, low_word, sat16};

/// The sum of three products.
#[inline(always)]
fn exact_sum(a: i32, b: i32, c: i32) -> i64
    ensures { result ≡ a +ℤ b +ℤ c }
{
    i64::from(a) + i64::from(b) + i64::from(c)
}

/// The sum of three products, wrapped.
#[inline(always)]
fn wrapped_sum(a: i64, b: i64, c: i64) -> i64
    ensures { result ≡ wrap w64 (a +ℤ b +ℤ c) }
{
    a.wrapping_add(b).wrapping_add(c)
}

/// A sum as a fraction, and what was given before, wrapped.
#[inline(always)]
fn wrapped_fraction(sum: i64, before: i32) -> i32
    ensures { result ≡ wrap w32 (floor_shift sum 31 +ℤ before) }
{
    low_word((sum >> 31) + i64::from(before))
}

/// The negative, wrapped.
fn wrapped_negative(x: i32) -> i32
    ensures { result ≡ wrap w32 (neg_ℤ x) }
{
    low_word(-i64::from(x))
}

/// The samples of a controller.
pub trait PidSample: WideSample {
    /// The gains A0, A1 and A2 from Kp, Ki and Kd.
    fn gains(kp: Self, ki: Self, kd: Self) -> (Self, Self, Self)
        ensures { (record {
          a0 = Self.number result.0;
          a1 = Self.number result.1;
          a2 = Self.number result.2;
        }) ≡ pid_gains Self.format (Self.number kp) (Self.number ki)
            (Self.number kd) };

    /// The output from the products of the gains and samples, the newest first, and the output before.
    fn controlled(newest: Self::Wide, second: Self::Wide, third: Self::Wide, before: Self) -> Self
        ensures { Self.number result ≡ pid_close Self.format
            (Self.wide newest +ℤ Self.wide second +ℤ Self.wide third) (Self.number before) };
}

impl PidSample for i16 {
    fn gains(kp: i16, ki: i16, kd: i16) -> (i16, i16, i16) {
        let (p, i, d) = (i64::from(kp), i64::from(ki), i64::from(kd));
        (sat16(p + i + d), sat16(-(d + d + p)), kd)
    }

    #[inline(always)]
    fn controlled(newest: i32, second: i32, third: i32, before: i16) -> i16 {
        let sum = exact_sum(newest, second, third);
        sat16((sum + (i64::from(before) << 15)) >> 15)
    }
}

impl PidSample for i32 {
    fn gains(kp: i32, ki: i32, kd: i32) -> (i32, i32, i32) {
        let first = Self::add(Self::add(kp, ki), kd);
        let second = wrapped_negative(Self::add(Self::add(kd, kd), kp));
        (first, second, kd)
    }

    #[inline(always)]
    fn controlled(newest: i64, second: i64, third: i64, before: i32) -> i32 {
        wrapped_fraction(wrapped_sum(newest, second, third), before)
    }
}
