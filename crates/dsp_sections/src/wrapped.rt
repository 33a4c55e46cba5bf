ghost use Rattle.std.specs.Prelude.{◌≡◌, ◌*ℤ◌};
ghost use Rattle.dsp_defs.specs.Counts.{Rises};
ghost use Rattle.dsp_defs.specs.Numbers.{wrap, w64};

use dsp_defs::Steps;
use std::sync::ledger::Ledger;

/// The product of two numbers of 64 bits, wrapped to 64 bits and counted.
#[inline(always)]
pub fn wrapped_product<L: Ledger>(a: i64, b: i64, steps: &mut Steps<L>) -> i64
    ensures value { result ≡ wrap w64 (a *ℤ b) }
    ensures steps { Rises steps.old steps.new 1 1 }
{
    steps.count(1, 1);
    a.wrapping_mul(b)
}
