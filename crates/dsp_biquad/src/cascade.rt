ghost use Rattle.std.specs.Prelude.{◌≡◌, ◌≤◌, ◌%◌, ◌/◌, [], length, map, flat_map, IfOk};
ghost use Rattle.dsp_defs.specs.Streaming.{chained};
ghost use Rattle.dsp_biquad.specs.Sections.{block_acts};

use crate::CascadeSection;
use crate::kept::{fits_sections, keep_sections, restore_sections};
use crate::parameters::{coefficients_of, post_shift_of};
use dsp_defs::{Block, Steps};
use dsp_filter::{Stepwise, run_chain, samples_of};
use dsp_sat::Sample;
use std::alloc::{AllocError, Global};
use std::marker::Model;
use std::sync::ledger::Ledger;

/// Sections one after another, and the parameters that they were made from.
#[derive(Drop)]
pub struct Cascade<T: Sample, S: CascadeSection<T>> {
    post_shift: u8,
    coefficients: Vec<T>,
    sections: Vec<S>,
}

impl<T: Sample, S: CascadeSection<T>> Model for Cascade<T, S> {
    ghost use Rattle.std.specs.Prelude.{◌≡◌, ◌≤◌, length, map, flat_map};
    ghost use Rattle.dsp_defs.specs.Cost.{section_count};
    ghost use Rattle.dsp_defs.specs.Streaming.{chained};
    ghost use Rattle.dsp_biquad.specs.Sections.{CascadeState, block_acts};

    ghost Value = { CascadeState };

    ghost view = { λ c.
        record {
          post_shift = c.post_shift;
          coefficients = map T.number c.coefficients.items;
          kept = flat_map S.kept c.sections.items;
        } };

    ghost invariant = { λ c.
        (chained (map S.acts c.sections.items)
        ≡ block_acts T.format (S.block c.post_shift (map T.number c.coefficients.items)))
        × (length c.sections.items ≡ section_count T.format (map T.number c.coefficients.items))
        × (length c.sections.items ≤ 64) };
}

/// New sections of the coefficients, one after another.
fn sections_of<T: Sample, S: CascadeSection<T>>(
    alloc: Global,
    post_shift: u8,
    coefficients: &[T],
) -> Result<Vec<S>, AllocError>
    requires shift { post_shift ≤ S.GREATEST_SHIFT }
    requires whole { length coefficients.now % S.SIZE ≡ 0 }
    ensures acts { IfOk result (λ v. chained (map S.acts v.items)
        ≡ block_acts T.format (S.block post_shift (map T.number coefficients.now))) }
    ensures kept { IfOk result (λ v. flat_map S.kept v.items ≡ (chained (map S.acts v.items)).keeps []) }
    ensures count { IfOk result (λ v. length v.items ≡ length coefficients.now / S.SIZE) }
{
    let size = S::SIZE;
    let count = coefficients.len() / size;
    let mut sections = Vec::with_capacity(alloc, count)?;
    for k in 0..count {
        let at = k * size;
        sections.push(S::new(post_shift, &coefficients[at..at + size]))?;
    }
    Ok(sections)
}

impl<T: Sample, S: CascadeSection<T>> Cascade<T, S> {
    ghost use Rattle.std.specs.Prelude.{◌≡◌, ◌≤◌, ◌*◌, ◌%◌, [], length, map, IfOk};
    ghost use Rattle.dsp_defs.specs.Kept.{kept_of_channel};

    /// Sections of the coefficients that have taken nothing.
    pub fn new(alloc: Global, post_shift: u8, coefficients: Vec<T>) -> Result<Self, AllocError>
        requires shift { post_shift ≤ S.GREATEST_SHIFT }
        requires whole { length coefficients.items % S.SIZE ≡ 0 }
        requires few { length coefficients.items ≤ 64 * S.SIZE }
        ensures post_shift { IfOk result (λ c. c.post_shift ≡ post_shift) }
        ensures coefficients { IfOk result (λ c. c.coefficients ≡ map T.number coefficients.items) }
        ensures kept { IfOk result (λ c.
            c.kept ≡ kept_of_channel T.format
            (S.block post_shift (map T.number coefficients.items)) []) }
    {
        let sections = sections_of(alloc, post_shift, &coefficients)?;
        Ok(Cascade {
            post_shift,
            coefficients,
            sections,
        })
    }
}

impl<T: Sample, S: CascadeSection<T>> Stepwise<T> for Cascade<T, S> {
    ghost use Rattle.std.specs.Prelude.{◌*◌};
    ghost use Rattle.dsp_defs.specs.Cost.{section_count};
    ghost use Rattle.dsp_biquad.specs.Sections.{coefficients_of};

    ghost block = { λ c. S.block c.post_shift c.coefficients };

    ghost kept = { λ c. c.kept };

    ghost IsOf = { S.IsOf };

    ghost price = { λ b. 5 * section_count T.format (coefficients_of b) };

    ghost stepwise = { λ b is. S.stepwise b is };

    fn of_block(alloc: Global, from: &Block) -> Result<Self, AllocError> {
        let coefficients = samples_of::<T>(alloc, coefficients_of(from))?;
        Cascade::new(alloc, post_shift_of(from), coefficients)
    }

    fn run<L: Ledger>(&mut self, samples: &mut [T], steps: &mut Steps<L>) {
        let sections = self.sections.as_mut_slice();
        run_chain(sections, samples, steps);
    }

    fn kept_count(&self) -> usize {
        self.sections.len() * 4
    }

    fn keep(&self, out: &mut [i64]) {
        keep_sections::<T, S>(self.sections.as_slice(), out);
    }

    fn fits(&self, numbers: &[i64]) -> bool {
        fits_sections::<T, S>(self.sections.len(), numbers)
    }

    fn restore(&mut self, numbers: &[i64]) {
        restore_sections::<T, S>(self.sections.as_mut_slice(), numbers);
    }
}
