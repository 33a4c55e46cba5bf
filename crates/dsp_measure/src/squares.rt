//! Sums that go on by the squares of the numbers of a format, which the compiler takes in lanes.
ghost use Rattle.std.specs.Prelude.{◌≡◌, ◌≤ℤ◌, ◌*ℤ◌, pos, All, FitsSigned, length};
ghost use Rattle.dsp_defs.specs.Counts.{Rises};
ghost use Rattle.dsp_defs.specs.Numbers.{w8, w16, w32};
ghost use Rattle.dsp_defs.specs.declared.format.Fmt.TheVariants.{Q7, Q15, Q31};
ghost use Rattle.dsp_measure.specs.Sums.{with_products};

use dsp_defs::Steps;
use dsp_sat::Sample;
use std::sync::ledger::Ledger;

/// The square of a number of 16 bits, counted.
#[inline(always)]
fn square<L: Ledger>(x: i32, steps: &mut Steps<L>) -> i32
    requires { FitsSigned w16 x }
    ensures value { result ≡ x *ℤ x }
    ensures low { pos 0 ≤ℤ result }
    ensures high { result ≤ℤ pos 1073741824 }
    ensures steps { Rises steps.old steps.new 1 1 }
{
    let x = i16::of_number(x);
    i16::product(x, x, steps)
}

/// A sum in Q7 that goes on by squares. It stays in 32 bits, to which it wraps.
pub fn add_squares7<L: Ledger>(start: i64, numbers: &[i32], steps: &mut Steps<L>) -> i64
    requires in_format { All (FitsSigned w8) numbers.now }
    requires start { FitsSigned w32 start }
    ensures sum { result ≡ with_products Q7 start numbers.now numbers.now }
    ensures fits { FitsSigned w32 result }
    ensures steps { Rises steps.old steps.new (length numbers.now) (length numbers.now) }
{
    let mut sum = start as i32;
    for x in numbers {
        sum = sum.wrapping_add(square(*x, steps));
    }
    i64::from(sum)
}

/// A sum in Q15 that goes on by squares. Two of them make one number of 32 bits without a sign.
pub fn add_squares15<L: Ledger>(start: i64, numbers: &[i32], steps: &mut Steps<L>) -> i64
    requires { All (FitsSigned w16) numbers.now }
    ensures sum { result ≡ with_products Q15 start numbers.now numbers.now }
    ensures steps { Rises steps.old steps.new (length numbers.now) (length numbers.now) }
{
    let mut sum = start;
    for n in 0..numbers.len() / 2 {
        let first = square(numbers[n * 2], steps) as u32;
        let second = square(numbers[n * 2 + 1], steps) as u32;
        sum = sum.wrapping_add(i64::from(first + second));
    }
    if numbers.len() % 2 == 1 {
        sum = sum.wrapping_add(i64::from(square(numbers[numbers.len() - 1], steps)));
    }
    sum
}

/// A sum in Q31 that goes on by squares, each shifted right by 14.
pub fn add_squares31<L: Ledger>(start: i64, numbers: &[i32], steps: &mut Steps<L>) -> i64
    ensures sum { result ≡ with_products Q31 start numbers.now numbers.now }
    ensures steps { Rises steps.old steps.new (length numbers.now) (length numbers.now) }
{
    let mut sum = start;
    for x in numbers {
        sum = sum.wrapping_add(i32::product(*x, *x, steps) >> 14);
    }
    sum
}
