ghost use Rattle.std.specs.Prelude.{◌≡◌, refl, ℕ, ℤ, pos, ◌+ℤ◌, ◌*ℤ◌, ◌≤ℤ◌, FitsSigned};
ghost use Rattle.dsp_defs.specs.Numbers.{wrap};
ghost use Rattle.dsp_defs.specs.Formats.{word, word_bits, accumulator, close};
ghost use Rattle.dsp_defs.specs.Elementwise.{add, sub, clip, mult, scale, IsScaleShift, shift, IsShift};
ghost use Rattle.dsp_defs.specs.Elementwise.{negate, abs};
ghost use Rattle.dsp_defs.specs.Sums.{sparse_term, sparse_close};
ghost use Rattle.dsp_defs.specs.Counts.{Rises};
ghost use Rattle.dsp_defs.specs.declared.format.Fmt.{Fmt};
ghost use Rattle.dsp_defs.specs.declared.format.Fmt.TheVariants.{Q7, Q15, Q31};

use dsp_defs::Steps;
use std::sync::ledger::Ledger;

/// A sample of one of the formats: i8 in Q7, i16 in Q15, i32 in Q31. What is counted is one product and one turn.
pub trait Sample: Copy {
    /// The product of two samples.
    type Wide: Copy;

    /// The accumulator of the format: i32 in Q7, else i64. Sums of products wrap to it.
    type Acc: Copy;

    /// The bits of a sample: 8, 16 or 32.
    const WORD_BITS: u32;

    ghost WORD_BITS: { ℕ };

    ghost format: { Fmt };

    ghost number: { Self → ℤ };

    ghost wide: { Self.Wide → ℤ };

    ghost total: { Self.Acc → ℤ };

    /// The sample 0.
    fn zero() -> Self
        ensures { number result ≡ pos 0 };

    /// The sum of nothing.
    fn empty() -> Self::Acc
        ensures { total result ≡ pos 0 };

    /// The sample as a number.
    fn number(self) -> i32
        ensures value { result ≡ number self }
        ensures fits { FitsSigned (word format) result };

    /// The sample of a number in the range of its word.
    fn of_number(value: i32) -> Self
        requires { FitsSigned (word format) value }
        ensures { number result ≡ value };

    /// A product as a number.
    fn wide(p: Self::Wide) -> i64
        ensures { result ≡ wide p };

    /// The sum and one more product, wrapped to the accumulator.
    fn accumulate(sum: Self::Acc, p: Self::Wide) -> Self::Acc
        ensures { total result ≡ wrap (accumulator format) (total sum +ℤ wide p) };

    /// A sum of products as a sample: shifted down by the fraction bits, saturated in Q7 and Q15, wrapped in Q31.
    fn close(sum: Self::Acc) -> Self
        ensures { number result ≡ close format (total sum) };

    /// The exact product, counted.
    fn product<L: Ledger>(a: Self, b: Self, steps: &mut Steps<L>) -> Self::Wide
        ensures value { wide result ≡ number a *ℤ number b }
        ensures steps { Rises steps.old steps.new 1 1 };

    /// The product as a sample, counted (`arm_mult_q7`, `_q15`, `_q31`).
    fn mult<L: Ledger>(a: Self, b: Self, steps: &mut Steps<L>) -> Self
        ensures value { number result ≡ mult format (number a) (number b) }
        ensures steps { Rises steps.old steps.new 1 1 };

    /// The sample times a fraction and 2^places, saturated; the product is counted (`arm_scale_q7`, `_q15`, `_q31`).
    fn scale<L: Ledger>(x: Self, factor: Self, places: i32, steps: &mut Steps<L>) -> Self
        requires { IsScaleShift format places }
        ensures value { number result ≡ scale format (number factor) places (number x) }
        ensures steps { Rises steps.old steps.new 1 1 };

    /// The sample times 2^places, saturated, or shifted down (`arm_shift_q7`, `_q15`, `_q31`).
    fn shift(x: Self, places: i32) -> Self
        requires { IsShift format places }
        ensures { number result ≡ shift format places (number x) };

    /// The sample with its sign turned, saturated (`arm_negate_q7`, `_q15`, `_q31`).
    fn negate(x: Self) -> Self
        ensures { number result ≡ negate format (number x) };

    /// The absolute value, saturated (`arm_abs_q7`, `_q15`, `_q31`).
    fn abs(x: Self) -> Self
        ensures { number result ≡ abs format (number x) };

    /// The saturating sum.
    fn add(a: Self, b: Self) -> Self
        ensures { number result ≡ add format (number a) (number b) };

    /// The saturating difference.
    fn sub(a: Self, b: Self) -> Self
        ensures { number result ≡ sub format (number a) (number b) };

    /// `x` clamped to `low..=high`.
    fn clip(x: Self, low: Self, high: Self) -> Self
        requires { number low ≤ℤ number high }
        ensures { number result ≡ clip (number low) (number high) (number x) };

    /// A product as a term of a sparse filter, counted: in Q31 its high word.
    fn sparse_term<L: Ledger>(b: Self, x: Self, steps: &mut Steps<L>) -> i32
        ensures value { result ≡ sparse_term format (number b) (number x) }
        ensures steps { Rises steps.old steps.new 1 1 };

    /// A sum of such terms, wrapped to 32 bits, as a sample (`arm_fir_sparse_q7`, `_q15`, `_q31`).
    fn sparse_close(sum: i32) -> Self
        ensures { number result ≡ sparse_close format sum };

    ghost has_word_bits: { WORD_BITS ≡ word_bits format };
}

/// A sample of more than 8 bits: those blocks that Q7 does not have ask for it.
pub trait WideSample: Sample {}

/// The exact product of two samples, counted.
pub fn product<T: Sample, L: Ledger>(a: T, b: T, steps: &mut Steps<L>) -> T::Wide
    ensures value { T.wide result ≡ T.number a *ℤ T.number b }
    ensures steps { Rises steps.old steps.new 1 1 }
{
    T::product(a, b, steps)
}

/// The product of two samples as a sample, counted (`arm_mult_q7`, `_q15`, `_q31`).
pub fn mult<T: Sample, L: Ledger>(a: T, b: T, steps: &mut Steps<L>) -> T
    ensures value { T.number result ≡ mult T.format (T.number a) (T.number b) }
    ensures steps { Rises steps.old steps.new 1 1 }
{
    T::mult(a, b, steps)
}

/// The sample times a fraction and 2^places, saturated; the product is counted (`arm_scale_q7`, `_q15`, `_q31`).
pub fn scale<T: Sample, L: Ledger>(x: T, factor: T, places: i32, steps: &mut Steps<L>) -> T
    requires { IsScaleShift T.format places }
    ensures value { T.number result ≡ scale T.format (T.number factor) places (T.number x) }
    ensures steps { Rises steps.old steps.new 1 1 }
{
    T::scale(x, factor, places, steps)
}

/// The sample times 2^places, saturated, or shifted down (`arm_shift_q7`, `_q15`, `_q31`).
pub fn shift<T: Sample>(x: T, places: i32) -> T
    requires { IsShift T.format places }
    ensures { T.number result ≡ shift T.format places (T.number x) }
{
    T::shift(x, places)
}

/// The sample with its sign turned, saturated (`arm_negate_q7`, `_q15`, `_q31`).
pub fn negate<T: Sample>(x: T) -> T
    ensures { T.number result ≡ negate T.format (T.number x) }
{
    T::negate(x)
}

/// The absolute value, saturated (`arm_abs_q7`, `_q15`, `_q31`).
pub fn abs<T: Sample>(x: T) -> T
    ensures { T.number result ≡ abs T.format (T.number x) }
{
    T::abs(x)
}
