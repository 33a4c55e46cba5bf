use crate::NarrowSample;
use crate::fir_sections::run_lattice;
use crate::numbers::{read_numbers, write_numbers, zeros};
use dsp_defs::{Block, Steps};
use dsp_filter::{Stepwise, are_samples, samples_of};
use dsp_sat::Sample;
use std::alloc::{AllocError, Global};
use std::marker::Model;
use std::sync::ledger::Ledger;

/// How many samples all sections work on before the next ones.
const PIECE: usize = 256;

/// What a lattice without feedback does with one sample after another.
#[derive(Drop)]
pub struct FirLatticeWork<T: NarrowSample> {
    coefficients: Vec<T>,
    states: Vec<T>,
    backward: Vec<T>,
}

impl<T: NarrowSample> Model for FirLatticeWork<T> {
    ghost use Rattle.std.specs.Prelude.{◌≡◌, ◌≤◌, length, map};
    ghost use Rattle.dsp_lattice.specs.LatticeState.{FirLatticeState};

    ghost Value = { FirLatticeState };

    ghost view = { λ w.
        record { k = map T.number w.coefficients.items; kept = map T.number w.states.items } };

    ghost invariant = { λ w. (length w.states.items ≡ length w.coefficients.items)
        × (length w.backward.items ≡ 256) × (length w.coefficients.items ≤ 255) };
}

impl<T: NarrowSample> FirLatticeWork<T> {
    ghost use Rattle.std.specs.Prelude.{◌≡◌, ◌≤◌, length, map, IfOk};
    ghost use Rattle.dsp_lattice.specs.LatticeState.{new_fir_lattice};

    /// The work of a lattice that has taken nothing.
    pub fn new(alloc: Global, coefficients: Vec<T>) -> Result<Self, AllocError>
        requires { length coefficients.items ≤ 255 }
        ensures { IfOk result (λ w. w ≡ new_fir_lattice (map T.number coefficients.items)) }
    {
        let states = zeros(alloc, coefficients.len())?;
        let backward = zeros(alloc, PIECE)?;
        Ok(FirLatticeWork {
            coefficients,
            states,
            backward,
        })
    }
}

impl<T: NarrowSample> Stepwise<T> for FirLatticeWork<T> {
    ghost use Rattle.std.specs.Prelude.{◌*◌, length};
    ghost use Rattle.dsp_lattice.specs.LatticeState.{fir_block_of, fir_kept_of, IsFirLatticeIn};
    ghost use Rattle.dsp_lattice.specs.LatticeState.{coefficients_of};
    ghost use Rattle.dsp_lattice.specs.Laws.{fir-stepwise};

    ghost block = { fir_block_of };

    ghost kept = { fir_kept_of };

    ghost IsOf = { IsFirLatticeIn T.format };

    ghost price = { λ b. 2 * length (coefficients_of b) };

    ghost stepwise = { fir-stepwise T.format };

    fn of_block(alloc: Global, from: &Block) -> Result<Self, AllocError> {
        let Block::LatticeFir { k } = from else {
            unreachable!()
        };
        let coefficients = samples_of::<T>(alloc, k.as_slice())?;
        FirLatticeWork::new(alloc, coefficients)
    }

    fn run<L: Ledger>(&mut self, samples: &mut [T], steps: &mut Steps<L>) {
        let coefficients = self.coefficients.as_slice();
        let states = self.states.as_mut_slice();
        let backward = self.backward.as_mut_slice();
        let mut start = 0;
        while start < samples.len() {
            let end = start + PIECE.min(samples.len() - start);
            run_lattice(
                coefficients,
                states,
                backward,
                &mut samples[start..end],
                steps,
            );
            start = end;
        }
    }

    fn kept_count(&self) -> usize {
        self.states.len()
    }

    fn keep(&self, out: &mut [i64]) {
        write_numbers(self.states.as_slice(), out);
    }

    fn fits(&self, numbers: &[i64]) -> bool {
        are_samples::<T>(numbers, self.states.len())
    }

    fn restore(&mut self, numbers: &[i64]) {
        read_numbers(self.states.as_mut_slice(), numbers);
    }
}
