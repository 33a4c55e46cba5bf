ghost use Rattle.std.specs.Prelude.{◌≡◌, ◌*◌, ◌+ℤ◌, ◌-ℤ◌, ◌∷◌, [], length, map, refl};
ghost use Rattle.std.specs.List.{zip};
ghost use Rattle.dsp_defs.specs.Counts.{Rises};
ghost use Rattle.dsp_defs.specs.Lattice.{lattice_section};
ghost use Rattle.dsp_defs.specs.Numbers.{saturate};
ghost use Rattle.dsp_defs.specs.Streaming.{GoesOn};
ghost use Rattle.dsp_defs.specs.Formats.{word_bits};
ghost use Rattle.dsp_defs.specs.declared.format.Fmt.TheVariants.{Q15};
ghost use Rattle.dsp_lattice.specs.LatticeState.{HasLattice, reflection, section_kept};

use dsp_defs::Steps;
use dsp_sat::{Sample, low_word};
use dsp_sections::{LadderSample, reflect};
use std::sync::ledger::Ledger;

/// The samples of a lattice.
pub trait LatticeSample: LadderSample {
    /// A value less a product of it and a reflection coefficient, saturated.
    fn lowered(f: Self, reflected: Self::Wide) -> Self
        ensures { Self.number result ≡ saturate (word_bits Self.format)
            (Self.number f -ℤ reflection Self.format (Self.wide reflected)) };

    /// A product of a value and a reflection coefficient, and a value, saturated.
    fn raised(reflected: Self::Wide, g: Self) -> Self
        ensures { Self.number result ≡ saturate (word_bits Self.format)
            (reflection Self.format (Self.wide reflected) +ℤ Self.number g) };

    ghost has_lattice: { HasLattice Self.format };
}

/// The samples of a lattice without feedback.
pub trait NarrowSample: LatticeSample {
    /// Writes over the values f and g of each sample those that a section with the coefficient `k` gives
    /// for them, and answers the last g that it was given. `before` is that of the samples before.
    fn run_section<L: Ledger>(
        k: Self,
        before: Self,
        forward: &mut [Self],
        backward: &mut [Self],
        steps: &mut Steps<L>,
    ) -> Self
        requires { length backward.old ≡ length forward.old }
        ensures goes { GoesOn (λ x. lattice_section x (Self.number k)) section_kept
            (Self.number before ∷ []) (Self.number result ∷ [])
            (zip (map Self.number forward.old) (map Self.number backward.old))
            (zip (map Self.number forward.new) (map Self.number backward.new)) }
        ensures steps { Rises steps.old steps.new (length forward.old * 2) (length forward.old * 2) };

    ghost is_q15: { Self.format ≡ Q15 };
}

/// The sample in Q15 that is nearest to a number.
#[inline(always)]
fn nearest15(v: i32) -> i16
    ensures { result ≡ saturate 16 v }
{
    v.clamp(i32::from(i16::MIN), i32::from(i16::MAX)) as i16
}

/// The sample in Q31 that is nearest to a number.
#[inline(always)]
fn nearest31(v: i64) -> i32
    ensures { result ≡ saturate 32 v }
{
    v.clamp(i64::from(i32::MIN), i64::from(i32::MAX)) as i32
}

impl LatticeSample for i16 {
    #[inline(always)]
    fn lowered(f: i16, reflected: i32) -> i16 {
        nearest15(i32::from(f) - (reflected >> 15))
    }

    #[inline(always)]
    fn raised(reflected: i32, g: i16) -> i16 {
        nearest15((reflected >> 15) + i32::from(g))
    }

    ghost has_lattice = { tt };
}

impl NarrowSample for i16 {
    ghost is_q15 = { refl };

    fn run_section<L: Ledger>(
        k: i16,
        before: i16,
        forward: &mut [i16],
        backward: &mut [i16],
        steps: &mut Steps<L>,
    ) -> i16 {
        reflect(k, before, forward, backward, steps)
    }
}

impl LatticeSample for i32 {
    #[inline(always)]
    fn lowered(f: i32, reflected: i64) -> i32 {
        nearest31(i64::from(f) - i64::from(low_word(reflected >> 31)))
    }

    #[inline(always)]
    fn raised(reflected: i64, g: i32) -> i32 {
        nearest31(i64::from(low_word(reflected >> 31)) + i64::from(g))
    }

    ghost has_lattice = { tt };
}
