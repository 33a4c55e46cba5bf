ghost use Rattle.std.specs.Prelude.{◌≡◌, ◌+ℤ◌, ◌-ℤ◌, ◌↔◌, IsTrue, All, FitsSigned, length};
ghost use Rattle.dsp_defs.specs.Counts.{Rises};
ghost use Rattle.dsp_defs.specs.Formats.{accumulator, word};
ghost use Rattle.dsp_defs.specs.Measure.{cmplx_dot_close, measured_product};
ghost use Rattle.dsp_defs.specs.Numbers.{wrap};
ghost use Rattle.dsp_measure.specs.Sums.{with_products};

use crate::squares::{add_squares7, add_squares15, add_squares31};
use dsp_defs::Steps;
use dsp_sat::{Sample, low_word};
use std::sync::ledger::Ledger;

/// A sample that can be measured.
pub trait MeasureSample: Sample {
    /// A sum in the accumulator of the format.
    fn sum_of_number(number: i64) -> Self::Acc
        requires { FitsSigned (accumulator Self.format) number }
        ensures { Self.total result ≡ number };

    /// The sum as a number.
    fn number_of_sum(sum: Self::Acc) -> i64
        ensures value { result ≡ Self.total sum }
        ensures fits { FitsSigned (accumulator Self.format) result };

    /// Adds a product to a sum and wraps it to the accumulator of the format. In Q31 the product is
    /// shifted right by 14 first.
    fn add_measured<L: Ledger>(sum: Self::Acc, a: Self, b: Self, steps: &mut Steps<L>) -> Self::Acc
        ensures value { Self.total result ≡ wrap (accumulator Self.format)
            (Self.total sum +ℤ measured_product Self.format (Self.number a) (Self.number b)) }
        ensures steps { Rises steps.old steps.new 1 1 };

    /// Takes a product away in the same way.
    fn subtract_measured<L: Ledger>(
        sum: Self::Acc,
        a: Self,
        b: Self,
        steps: &mut Steps<L>,
    ) -> Self::Acc
        ensures value { Self.total result ≡ wrap (accumulator Self.format)
            (Self.total sum -ℤ measured_product Self.format (Self.number a) (Self.number b)) }
        ensures steps { Rises steps.old steps.new 1 1 };

    /// A sum that goes on by the squares of numbers of the format.
    fn add_squares<L: Ledger>(start: i64, numbers: &[i32], steps: &mut Steps<L>) -> i64
        requires in_format { All (FitsSigned (word Self.format)) numbers.now }
        requires start { FitsSigned (accumulator Self.format) start }
        ensures sum { result ≡ with_products Self.format start numbers.now numbers.now }
        ensures fits { FitsSigned (accumulator Self.format) result }
        ensures steps { Rises steps.old steps.new (length numbers.now) (length numbers.now) };

    /// A sum of complex products as a result: in Q15 it is shifted right by 6 and wrapped to 32 bits.
    fn close_complex(sum: i64) -> i64
        ensures { result ≡ cmplx_dot_close Self.format sum };

    /// Whether a number is in the range of the accumulator.
    fn is_sum(number: i64) -> bool
        ensures { IsTrue result ↔ FitsSigned (accumulator Self.format) number };

    /// Whether a number is in the range of the format's word.
    fn is_word(number: i64) -> bool
        ensures { IsTrue result ↔ FitsSigned (word Self.format) number };
}

impl MeasureSample for i8 {
    fn sum_of_number(number: i64) -> i32 {
        number as i32
    }

    fn number_of_sum(sum: i32) -> i64 {
        i64::from(sum)
    }

    fn add_measured<L: Ledger>(sum: i32, a: i8, b: i8, steps: &mut Steps<L>) -> i32 {
        let product = Self::product(a, b, steps);
        sum.wrapping_add(product)
    }

    fn subtract_measured<L: Ledger>(sum: i32, a: i8, b: i8, steps: &mut Steps<L>) -> i32 {
        let product = Self::product(a, b, steps);
        sum.wrapping_sub(product)
    }

    fn add_squares<L: Ledger>(start: i64, numbers: &[i32], steps: &mut Steps<L>) -> i64 {
        add_squares7(start, numbers, steps)
    }

    fn close_complex(sum: i64) -> i64 {
        sum
    }

    fn is_sum(number: i64) -> bool {
        i32::try_from(number).is_ok()
    }

    fn is_word(number: i64) -> bool {
        i8::try_from(number).is_ok()
    }
}

impl MeasureSample for i16 {
    fn sum_of_number(number: i64) -> i64 {
        number
    }

    fn number_of_sum(sum: i64) -> i64 {
        sum
    }

    fn add_measured<L: Ledger>(sum: i64, a: i16, b: i16, steps: &mut Steps<L>) -> i64 {
        let product = Self::product(a, b, steps);
        sum.wrapping_add(i64::from(product))
    }

    fn subtract_measured<L: Ledger>(sum: i64, a: i16, b: i16, steps: &mut Steps<L>) -> i64 {
        let product = Self::product(a, b, steps);
        sum.wrapping_sub(i64::from(product))
    }

    fn add_squares<L: Ledger>(start: i64, numbers: &[i32], steps: &mut Steps<L>) -> i64 {
        add_squares15(start, numbers, steps)
    }

    fn close_complex(sum: i64) -> i64 {
        i64::from(low_word(sum >> 6))
    }

    fn is_sum(_number: i64) -> bool {
        true
    }

    fn is_word(number: i64) -> bool {
        i16::try_from(number).is_ok()
    }
}

impl MeasureSample for i32 {
    fn sum_of_number(number: i64) -> i64 {
        number
    }

    fn number_of_sum(sum: i64) -> i64 {
        sum
    }

    fn add_measured<L: Ledger>(sum: i64, a: i32, b: i32, steps: &mut Steps<L>) -> i64 {
        let product = Self::product(a, b, steps);
        sum.wrapping_add(product >> 14)
    }

    fn subtract_measured<L: Ledger>(sum: i64, a: i32, b: i32, steps: &mut Steps<L>) -> i64 {
        let product = Self::product(a, b, steps);
        sum.wrapping_sub(product >> 14)
    }

    fn add_squares<L: Ledger>(start: i64, numbers: &[i32], steps: &mut Steps<L>) -> i64 {
        add_squares31(start, numbers, steps)
    }

    fn close_complex(sum: i64) -> i64 {
        sum
    }

    fn is_sum(_number: i64) -> bool {
        true
    }

    fn is_word(number: i64) -> bool {
        i32::try_from(number).is_ok()
    }
}
