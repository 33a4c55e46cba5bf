ghost use Rattle.std.specs.Prelude.{◌*◌, ◌<◌, ◌^◌};
ghost use Rattle.std.specs.Mem.{type_size};

use dsp_biquad::BiquadSample;
use dsp_sections::SectionSample;

/// The samples of a bank.
pub trait BankSample: BiquadSample + SectionSample {
    // The numbers of a section fit in memory.
    ghost small: { 5 * type_size Self.row < 2 ^ 63 };
}

impl BankSample for i16 {
    ghost use Rattle.std.proofs.Common.{lit<};

    ghost small = { lit< tt };
}

impl BankSample for i32 {
    ghost use Rattle.std.proofs.Common.{lit<};

    ghost small = { lit< tt };
}
