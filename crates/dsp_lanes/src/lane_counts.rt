ghost use Rattle.std.proofs.Common.{lit<};

use crate::kernels::LaneSample;

impl LaneSample<4> for i8 {
    ghost some = { lit< tt };

    ghost few = { lit< tt };
}

impl LaneSample<8> for i8 {
    ghost some = { lit< tt };

    ghost few = { lit< tt };
}

impl LaneSample<16> for i8 {
    ghost some = { lit< tt };

    ghost few = { lit< tt };
}

impl LaneSample<4> for i16 {
    ghost some = { lit< tt };

    ghost few = { lit< tt };
}

impl LaneSample<8> for i16 {
    ghost some = { lit< tt };

    ghost few = { lit< tt };
}

impl LaneSample<16> for i16 {
    ghost some = { lit< tt };

    ghost few = { lit< tt };
}

impl LaneSample<4> for i32 {
    ghost some = { lit< tt };

    ghost few = { lit< tt };
}

impl LaneSample<8> for i32 {
    ghost some = { lit< tt };

    ghost few = { lit< tt };
}

impl LaneSample<16> for i32 {
    ghost some = { lit< tt };

    ghost few = { lit< tt };
}
