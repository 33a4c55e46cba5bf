//! Lattice filters.
#![tactic(auto)]

mod fir_lattice;
mod fir_sections;
mod fir_work;
mod iir_lattice;
mod iir_work;
mod ladder;
mod lattice_sample;
mod making;
mod numbers;

pub use fir_lattice::{FirLattice, FirLattice15, FirLatticeCalls};
pub use fir_work::FirLatticeWork;
pub use iir_lattice::{IirLattice, IirLatticeCalls};
pub use iir_work::IirLatticeWork;
pub use lattice_sample::{LatticeSample, NarrowSample};
