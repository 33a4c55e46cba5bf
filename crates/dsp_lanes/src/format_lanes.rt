ghost use Rattle.std.specs.Prelude.{◌≡◌, refl};
ghost use Rattle.dsp_defs.specs.Formats.{lanes};

use crate::LaneSample;

/// A type of samples at as many lanes as its format has: i8 at 16, i16 at 8, i32 at 4.
pub trait FormatLanes<const L: usize>: LaneSample<L> {
    ghost own: { L ≡ lanes Self.format };
}

impl FormatLanes<16> for i8 {
    ghost own = { refl };
}

impl FormatLanes<8> for i16 {
    ghost own = { refl };
}

impl FormatLanes<4> for i32 {
    ghost own = { refl };
}
