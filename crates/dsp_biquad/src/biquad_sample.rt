ghost use Rattle.std.specs.Prelude.{◌≡◌, ℕ, refl};
ghost use Rattle.dsp_defs.specs.Biquad.{section_close};
ghost use Rattle.dsp_defs.specs.Counts.{Rises};
ghost use Rattle.dsp_defs.specs.Parameters.{greatest_biquad_shift};
ghost use Rattle.dsp_sections.specs.SectionWaves.{AreSections, LanesTurn};
ghost use Rattle.dsp_biquad.specs.Sections.{size_in};

use crate::closing::fraction31;
use dsp_defs::Steps;
use dsp_sat::{Sample, WideSample, sat16};
use dsp_sections::{WaveLanes, turn_sections};
use std::sync::ledger::Ledger;

/// The samples of a cascade.
pub trait BiquadSample: WideSample {
    // How many numbers a section has in a list, and the greatest post shift.
    const SIZE: usize;

    const GREATEST_SHIFT: u8;

    ghost SIZE: { ℕ };

    ghost GREATEST_SHIFT: { ℕ };

    /// A section's output from the sum of its products, which have the post shift in their coefficients.
    fn closed(sum: i64) -> Self
        ensures { Self.number result ≡ section_close Self.format 0 sum };

    /// A turn of four sections in lanes: gives the first x, and each other what was given to it, and counts
    /// the five products of each. The value is the output of the last.
    fn turn<L: Ledger>(lanes: &mut WaveLanes, x: Self, steps: &mut Steps<L>) -> Self
        requires { AreSections Self.format lanes.old }
        ensures whole { AreSections Self.format lanes.new }
        ensures turn { LanesTurn Self.format lanes.old lanes.new (Self.number x) (Self.number result) }
        ensures steps { Rises steps.old steps.new 20 20 };

    ghost has_size: { SIZE ≡ size_in Self.format };

    ghost has_shift: { GREATEST_SHIFT ≡ greatest_biquad_shift Self.format };
}

impl BiquadSample for i16 {
    const SIZE: usize = 6;

    const GREATEST_SHIFT: u8 = 13;

    ghost SIZE = { 6 };

    ghost GREATEST_SHIFT = { 13 };

    ghost has_size = { refl };

    ghost has_shift = { refl };

    #[inline(always)]
    fn closed(sum: i64) -> i16 {
        sat16(sum >> 15)
    }

    #[inline(always)]
    fn turn<L: Ledger>(lanes: &mut WaveLanes, x: i16, steps: &mut Steps<L>) -> i16 {
        turn_sections(lanes, x, steps)
    }
}

impl BiquadSample for i32 {
    const SIZE: usize = 5;

    const GREATEST_SHIFT: u8 = 30;

    ghost SIZE = { 5 };

    ghost GREATEST_SHIFT = { 30 };

    ghost has_size = { refl };

    ghost has_shift = { refl };

    #[inline(always)]
    fn closed(sum: i64) -> i32 {
        fraction31(sum, 0)
    }

    #[inline(always)]
    fn turn<L: Ledger>(lanes: &mut WaveLanes, x: i32, steps: &mut Steps<L>) -> i32 {
        turn_sections(lanes, x, steps)
    }
}
