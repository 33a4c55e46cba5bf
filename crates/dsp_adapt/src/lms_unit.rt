ghost use Rattle.std.specs.Prelude.{◌≡◌, IfOk, vec_len};

use crate::pairs::feed_pairs;
use crate::{Lms, LmsSample};
use dsp_defs::{Block, MAX_SAMPLES, MakeFault, Measure, Steps};
use dsp_filter::samples_of;
use dsp_lanes::LaneSample;
use dsp_sat::Sample;
use dsp_unit::Unit;
use std::alloc::{AllocError, Global};
use std::marker::Model;
use std::sync::ledger::Ledger;

/// An LMS filter at its place, on frames of an input and its reference. It gives frames of an output
/// and its error.
#[derive(Drop)]
pub struct LmsUnit<T: LmsSample + LaneSample<L>, const L: usize> {
    lms: Lms<T, L>,
    inputs: Vec<T>,
    references: Vec<T>,
    outputs: Vec<T>,
    errors: Vec<T>,
    ended: bool,
}

impl<T: LmsSample + LaneSample<L>, const L: usize> Model for LmsUnit<T, L> {
    ghost use Rattle.std.specs.Prelude.{◌≡◌, ◌≤◌, ◌*◌, length, vec_len};
    ghost use Rattle.dsp_unit.specs.Unit.{UnitState};
    ghost use Rattle.dsp_defs.specs.declared.limits.TheConstants.{MAX_SAMPLES, MAX_TAPS};
    ghost use Rattle.dsp_adapt.specs.LmsUnit.{HasRows, unit_of_lms};

    ghost Value = { UnitState };

    ghost view = { λ u. unit_of_lms T.format u.lms u.ended };

    ghost invariant = { λ u. HasRows u.lms (vec_len u.inputs) (vec_len u.references)
        (vec_len u.outputs) (vec_len u.errors) };
}

/// Rows of as many zeros each.
fn zero_rows<T: Sample>(
    alloc: Global,
    count: usize,
) -> Result<(Vec<T>, Vec<T>, Vec<T>, Vec<T>), AllocError>
    ensures { IfOk result (λ r. (vec_len r.0 ≡ count) × (vec_len r.1 ≡ count)
        × (vec_len r.2 ≡ count) × (vec_len r.3 ≡ count)) }
{
    Ok((
        vec![in alloc; T::zero(); count]?,
        vec![in alloc; T::zero(); count]?,
        vec![in alloc; T::zero(); count]?,
        vec![in alloc; T::zero(); count]?,
    ))
}

impl<T: LmsSample + LaneSample<L>, const L: usize> LmsUnit<T, L> {
    ghost use Rattle.std.specs.Prelude.{◌≤◌, ◌*◌, IfOk};
    ghost use Rattle.dsp_unit.specs.Unit.{IsNew};
    ghost use Rattle.dsp_defs.specs.declared.limits.TheConstants.{MAX_SAMPLES};
    ghost use Rattle.dsp_adapt.specs.LmsUnit.{IsLmsIn};

    /// A unit that has taken nothing, for at most `frames` frames a call. All its memory is taken here.
    pub fn new(alloc: Global, block: &Block, frames: usize) -> Result<Self, AllocError>
        requires block { IsLmsIn T.format block.now }
        requires frames { 1 ≤ frames }
        requires samples { frames * 2 ≤ MAX_SAMPLES }
        ensures { IfOk result (IsNew block.now T.format 2 frames) }
    {
        let Block::Lms {
            post_shift,
            mu,
            taps,
        } = block
        else {
            unreachable!();
        };
        let taps = samples_of::<T>(alloc, taps.as_slice())?;
        let mu = T::of_number(*mu);
        let lms = match Lms::new(alloc, *post_shift, mu, &taps, frames) {
            Ok(lms) => lms,
            Err(MakeFault::Memory) => return Err(AllocError),
            Err(_) => unreachable!(),
        };
        let (inputs, references, outputs, errors) = zero_rows(alloc, frames)?;
        Ok(LmsUnit {
            lms,
            inputs,
            references,
            outputs,
            errors,
            ended: false,
        })
    }
}

impl<T: LmsSample + LaneSample<L>, const L: usize> Unit for LmsUnit<T, L> {
    ghost unit = { λ u. u };

    fn feed<M: Ledger>(&mut self, frames: &[i32], out: &mut [i32], steps: &mut Steps<M>) -> usize {
        feed_pairs(
            &mut self.lms,
            frames,
            self.inputs.as_mut_slice(),
            self.references.as_mut_slice(),
            self.outputs.as_mut_slice(),
            self.errors.as_mut_slice(),
            out,
            steps,
        );
        frames.len()
    }

    fn finish<M: Ledger>(&mut self, _out: &mut [i32], _steps: &mut Steps<M>) -> usize {
        self.ended = true;
        0
    }

    fn kept_count(&self) -> usize {
        self.lms.kept_count()
    }

    fn keep(&self, out: &mut [i64]) {
        self.lms.keep(out);
    }

    fn place(&self, numbers: &[i64]) -> Option<u64> {
        if self.lms.fits(numbers) {
            Some(0)
        } else {
            None
        }
    }

    #[tactic(auto, using(crate::proofs::LmsUnits::words))]
    fn restore(&mut self, numbers: &[i64]) {
        self.lms.restore(numbers);
    }

    fn measures(&self) -> usize {
        let _lms = &self.lms;
        0
    }

    fn measure(&self, _number: u8, _index: usize) -> Option<Measure> {
        let _lms = &self.lms;
        None
    }
}
