use crate::LatticeSample;
use crate::ladder::ladder_step;
use crate::numbers::{read_reversed, write_numbers, zeros};
use dsp_defs::{Block, Steps};
use dsp_filter::{Stepwise, are_samples, samples_of};
use dsp_sat::Sample;
use std::alloc::{AllocError, Global};
use std::marker::Model;
use std::sync::ledger::Ledger;

/// What a lattice with feedback does with one sample after another: its coefficients and the last values
/// g, from the last section to the first, and that of the input of the first behind them.
#[derive(Drop)]
pub struct IirLatticeWork<T: LatticeSample> {
    reflections: Vec<T>,
    ladder: Vec<T>,
    backward: Vec<T>,
}

impl<T: LatticeSample> Model for IirLatticeWork<T> {
    ghost use Rattle.std.specs.Prelude.{◌≡◌, ◌≤◌, ◌+◌, length, map, reverse, drop, All, FitsSigned};
    ghost use Rattle.dsp_defs.specs.Formats.{word};
    ghost use Rattle.dsp_lattice.specs.LatticeState.{IirLatticeState};

    ghost Value = { IirLatticeState };

    ghost view = { λ w.
        record {
          k = map T.number w.reflections.items;
          v = map T.number w.ladder.items;
          kept = reverse (drop 1 (map T.number w.backward.items));
        } };

    ghost invariant = { λ w. (length w.ladder.items ≡ length w.reflections.items + 1)
        × (length w.backward.items ≡ length w.reflections.items + 1)
        × (length w.reflections.items ≤ 255)
        × All (FitsSigned (word T.format)) (map T.number w.ladder.items) };
}

impl<T: LatticeSample> IirLatticeWork<T> {
    ghost use Rattle.std.specs.Prelude.{◌≡◌, ◌≤◌, ◌+◌, length, map, All, FitsSigned, IfOk};
    ghost use Rattle.dsp_defs.specs.Formats.{word};
    ghost use Rattle.dsp_lattice.specs.LatticeState.{new_iir_lattice};

    /// The work of a lattice that has taken nothing.
    pub fn new(alloc: Global, reflections: Vec<T>, ladder: Vec<T>) -> Result<Self, AllocError>
        requires few { length reflections.items ≤ 255 }
        requires ladder { length ladder.items ≡ length reflections.items + 1 }
        requires in_format { All (FitsSigned (word T.format)) (map T.number ladder.items) }
        ensures { IfOk result (λ w. w ≡ new_iir_lattice T.format (map T.number reflections.items)
            (map T.number ladder.items)) }
    {
        let backward = zeros(alloc, ladder.len())?;
        Ok(IirLatticeWork {
            reflections,
            ladder,
            backward,
        })
    }
}

impl<T: LatticeSample> Stepwise<T> for IirLatticeWork<T> {
    ghost use Rattle.std.specs.Prelude.{◌*◌, ◌+◌, length};
    ghost use Rattle.dsp_lattice.specs.LatticeState.{iir_block_of, iir_kept_of, IsIirLatticeIn};
    ghost use Rattle.dsp_lattice.specs.LatticeState.{coefficients_of};
    ghost use Rattle.dsp_lattice.specs.Laws.{iir-stepwise};

    ghost block = { iir_block_of };

    ghost kept = { iir_kept_of };

    ghost IsOf = { IsIirLatticeIn T.format };

    ghost price = { λ b. 3 * length (coefficients_of b) + 1 };

    ghost stepwise = { iir-stepwise T.format };

    fn of_block(alloc: Global, from: &Block) -> Result<Self, AllocError> {
        let Block::LatticeIir { k, v } = from else {
            unreachable!()
        };
        let reflections = samples_of::<T>(alloc, k.as_slice())?;
        let ladder = samples_of::<T>(alloc, v.as_slice())?;
        IirLatticeWork::new(alloc, reflections, ladder)
    }

    fn run<L: Ledger>(&mut self, samples: &mut [T], steps: &mut Steps<L>) {
        let reflections = self.reflections.as_slice();
        let ladder = self.ladder.as_slice();
        let backward = self.backward.as_mut_slice();
        for sample in samples.iter_mut() {
            *sample = ladder_step(reflections, ladder, backward, *sample, steps);
        }
    }

    fn kept_count(&self) -> usize {
        self.reflections.len()
    }

    fn keep(&self, out: &mut [i64]) {
        write_numbers(&self.backward[1..], out);
        out.reverse();
    }

    fn fits(&self, numbers: &[i64]) -> bool {
        are_samples::<T>(numbers, self.reflections.len())
    }

    fn restore(&mut self, numbers: &[i64]) {
        read_reversed(self.backward.as_mut_slice(), numbers);
    }
}
