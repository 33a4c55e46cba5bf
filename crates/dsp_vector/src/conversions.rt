ghost use Rattle.std.specs.Prelude.{◌≡◌, length, map};
ghost use Rattle.dsp_defs.specs.Elementwise.{convert};
ghost use Rattle.dsp_defs.specs.declared.format.Fmt.TheVariants.{Q7, Q15, Q31};

use dsp_sat::Sample;

/// The same fraction in another format: shifted up to more bits, or rounded down to fewer.
#[inline(always)]
pub(crate) fn converted<T: Sample, U: Sample>(x: T) -> U
    ensures { U.number result ≡ convert T.format U.format (T.number x) }
{
    if T::WORD_BITS <= U::WORD_BITS {
        U::of_number(x.number() << (U::WORD_BITS - T::WORD_BITS))
    } else {
        U::of_number(x.number() >> (T::WORD_BITS - U::WORD_BITS))
    }
}

/// Writes each sample in another format.
#[inline(always)]
fn convert_each<T: Sample, U: Sample>(a: &[T], out: &mut [U])
    requires { length a.now ≡ length out.old }
    ensures { map U.number out.new ≡ map (convert T.format U.format) (map T.number a.now) }
{
    for (i, value) in out.iter_mut().enumerate() {
        *value = converted(a[i]);
    }
}

/// Q7 samples in Q15: `arm_q7_to_q15`. Lengths are equal.
pub fn convert_7_15(a: &[i8], out: &mut [i16])
    requires { length a.now ≡ length out.old }
    ensures { out.new ≡ map (convert Q7 Q15) a.now }
{
    convert_each(a, out)
}

/// Q7 samples in Q31: `arm_q7_to_q31`. Lengths are equal.
pub fn convert_7_31(a: &[i8], out: &mut [i32])
    requires { length a.now ≡ length out.old }
    ensures { out.new ≡ map (convert Q7 Q31) a.now }
{
    convert_each(a, out)
}

/// Q15 samples in Q31: `arm_q15_to_q31`. Lengths are equal.
pub fn convert_15_31(a: &[i16], out: &mut [i32])
    requires { length a.now ≡ length out.old }
    ensures { out.new ≡ map (convert Q15 Q31) a.now }
{
    convert_each(a, out)
}

/// Q15 samples in Q7, rounded down: `arm_q15_to_q7`. Lengths are equal.
pub fn convert_15_7(a: &[i16], out: &mut [i8])
    requires { length a.now ≡ length out.old }
    ensures { out.new ≡ map (convert Q15 Q7) a.now }
{
    convert_each(a, out)
}

/// Q31 samples in Q7, rounded down: `arm_q31_to_q7`. Lengths are equal.
pub fn convert_31_7(a: &[i32], out: &mut [i8])
    requires { length a.now ≡ length out.old }
    ensures { out.new ≡ map (convert Q31 Q7) a.now }
{
    convert_each(a, out)
}

/// Q31 samples in Q15, rounded down: `arm_q31_to_q15`. Lengths are equal.
pub fn convert_31_15(a: &[i32], out: &mut [i16])
    requires { length a.now ≡ length out.old }
    ensures { out.new ≡ map (convert Q31 Q15) a.now }
{
    convert_each(a, out)
}
