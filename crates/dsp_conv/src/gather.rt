ghost use Rattle.std.specs.Prelude.{◌≡◌, ◌≤◌, ◌+◌, ◌++◌, length, take};

use crate::making::zeros;
use dsp_defs::{GatherFull, MAX_GATHERED};
use dsp_sat::Sample;
use dsp_window::load_numbers;
use std::alloc::{AllocError, Global};
use std::marker::Model;

/// Writes samples behind the first `held`.
fn put_behind<T: Copy>(samples: &mut [T], held: usize, input: &[T])
    requires { held + length input.now ≤ length samples.old }
    ensures { take (held + length input.now) samples.new ≡ take held samples.old ++ input.now }
{
    samples[held..held + input.len()].copy_from_slice(input);
}

/// The samples of one channel that came so far, up to `MAX_GATHERED`.
#[derive(Drop)]
pub struct Gather<T: Sample> {
    samples: Vec<T>,
    held: usize,
}

impl<T: Sample> Model for Gather<T> {
    ghost use Rattle.std.specs.Prelude.{◌≡◌, ◌≤◌, ℤ, List, map, take, vec_len};
    ghost use Rattle.dsp_defs.specs.declared.limits.TheConstants.{MAX_GATHERED};

    ghost Value = { List ℤ };

    ghost view = { λ g. map T.number (take g.held g.samples.items) };

    ghost invariant = { λ g. (vec_len g.samples ≡ MAX_GATHERED) × (g.held ≤ MAX_GATHERED) };
}

impl<T: Sample> Gather<T> {
    ghost use Rattle.std.specs.Prelude.{◌≡◌, ◌<◌, ◌≤◌, ◌+◌, ◌++◌, ◌↔◌, [], length, map, IfOk, OnOk, IfErr};
    ghost use Rattle.std.specs.Prelude.{IsErr, All, FitsSigned};
    ghost use Rattle.dsp_defs.specs.Formats.{word};
    ghost use Rattle.dsp_defs.specs.declared.fault.GatherFull.{GatherFull};
    ghost use Rattle.dsp_defs.specs.declared.limits.TheConstants.{MAX_GATHERED};

    /// No samples, and the memory for `MAX_GATHERED` of them.
    pub fn new(alloc: Global) -> Result<Self, AllocError>
        ensures { IfOk result (λ g. g ≡ []) }
    {
        let samples = zeros(alloc, MAX_GATHERED)?;
        Ok(Gather { samples, held: 0 })
    }

    /// The samples that came.
    pub fn slice(&self) -> &[T]
        ensures samples { map T.number result.now ≡ self.now }
        ensures length { length result.now ≡ length self.now }
        ensures few { length result.now ≤ MAX_GATHERED }
    {
        &self.samples[..self.held]
    }

    /// Puts samples behind those that came. `GatherFull` where there would be more than `MAX_GATHERED`;
    /// then nothing changes.
    pub fn put(&mut self, input: &[T]) -> Result<(), GatherFull>
        ensures full { IsErr result ↔ MAX_GATHERED < length self.old + length input.now }
        ensures held { IfErr result (λ (fault : GatherFull). fault.held ≡ length self.old) }
        ensures more { IfErr result (λ (fault : GatherFull). fault.more ≡ length input.now) }
        ensures refused { IfErr result (λ _. self.new ≡ self.old) }
        ensures taken { OnOk result (self.new ≡ self.old ++ map T.number input.now) }
    {
        let held = self.held;
        if input.len() > MAX_GATHERED - held {
            return Err(GatherFull {
                held: held as u64,
                more: input.len() as u64,
            });
        }
        put_behind(&mut self.samples, held, input);
        self.held = held + input.len();
        Ok(())
    }

    /// Writes the numbers of the samples that came, the oldest first.
    pub fn keep(&self, out: &mut [i64])
        requires { length out.old ≡ length self.now }
        ensures { out.new ≡ self.now }
    {
        for (k, slot) in out.iter_mut().enumerate() {
            *slot = i64::from(self.samples[k].number());
        }
    }

    /// Holds the samples of these numbers from now on, and no others.
    pub fn restore(&mut self, numbers: &[i64])
        requires few { length numbers.now ≤ MAX_GATHERED }
        requires samples { All (FitsSigned (word T.format)) numbers.now }
        ensures { self.new ≡ numbers.now }
    {
        load_numbers(&mut self.samples, numbers);
        self.held = numbers.len();
    }
}
