use crate::{Drive, Held, Look};
use dsp_biquad::{Cascade, CascadeSection};
use dsp_defs::Block;
use dsp_filter::{EachChannel, StepFilter};
use dsp_sat::Sample;
use std::alloc::{AllocError, Global};

/// A cascade on each channel.
#[derive(Drop)]
pub struct Cascades<T: Sample, S: CascadeSection<T>> {
    pub unit: EachChannel<T, StepFilter<T, Cascade<T, S>>>,
}

impl<T: Sample, S: CascadeSection<T>> Cascades<T, S> {
    ghost use Rattle.std.specs.Prelude.{IfOk};
    ghost use Rattle.dsp_unit.specs.Unit.{IsNew};
    ghost use Rattle.dsp_blocks.specs.BlockUnit.{HasRoom};

    /// A cascade for each channel that has taken nothing.
    pub fn new(
        alloc: Global,
        block: &Block,
        channels: u8,
        frames: usize,
    ) -> Result<Self, AllocError>
        requires block { S.IsOf block.now }
        requires room { HasRoom block.now channels frames }
        ensures { IfOk result (λ u. IsNew block.now T.format channels frames u.unit) }
    {
        Ok(Cascades {
            unit: EachChannel::new(alloc, block, channels, frames)?,
        })
    }
}

impl<T: Sample, S: CascadeSection<T>> Held for Cascades<T, S> {
    ghost state = { λ u. u.unit };

    fn drive<D: Drive>(
        &mut self,
        given: &[D::Given],
        out: &mut [i32],
        counter: &mut D::Counter,
    ) -> usize {
        self.unit.drive::<D>(given, out, counter)
    }

    fn look<K: Look>(&self, look: &K, out: &mut [i64]) -> K::Answer {
        self.unit.look(look, out)
    }
}
