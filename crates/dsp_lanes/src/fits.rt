//! Functions that do nothing at run time. A proof learns the range of a slice's numbers from a read
//! of each.

ghost use Rattle.std.specs.Prelude.{All, FitsSigned};
ghost use Rattle.std.specs.Int.{w8, w16, w32, w64};

#[inline(always)]
pub(crate) fn q7_fit(samples: &[i8])
    ensures { All (FitsSigned w8) samples.now }
{
    for sample in samples {
        let _value = *sample;
    }
}

/// For samples in Q15.
#[inline(always)]
pub fn q15_fit(samples: &[i16])
    ensures { All (FitsSigned w16) samples.now }
{
    for sample in samples {
        let _value = *sample;
    }
}

/// For samples in Q31, and for sums in Q7.
#[inline(always)]
pub fn q31_fit(samples: &[i32])
    ensures { All (FitsSigned w32) samples.now }
{
    for sample in samples {
        let _value = *sample;
    }
}

#[inline(always)]
pub(crate) fn sums_64_fit(sums: &[i64])
    ensures { All (FitsSigned w64) sums.now }
{
    for sum in sums {
        let _value = *sum;
    }
}
