//! Four sections side by side, in lanes.
use crate::BiquadSample;
use dsp_defs::Steps;
use dsp_filter::Turning;
use dsp_sections::WaveLanes;
use std::marker::PhantomData;
use std::sync::ledger::Ledger;

/// Four sections and the values between them.
#[derive(Clone, Copy)]
pub struct FourSections<T> {
    pub(crate) lanes: WaveLanes,
    pub(crate) sample: PhantomData<T>,
}

impl<T: BiquadSample> Turning<T> for FourSections<T> {
    ghost use Rattle.dsp_sections.specs.SectionWaves.{AreSections};
    ghost use Rattle.dsp_biquad.specs.Waves.{wave_in};

    ghost wave = { λ f. wave_in T.format f.lanes };

    ghost IsWhole = { λ f. AreSections T.format f.lanes };

    ghost price = { 5 };

    #[inline(always)]
    fn turn<L: Ledger>(&mut self, x: T, steps: &mut Steps<L>) -> T {
        T::turn(&mut self.lanes, x, steps)
    }
}
