ghost use Rattle.std.specs.Prelude.{◌≡◌, IfOk, IfErr, MatchOption, length, map};
ghost use Rattle.dsp_unit.specs.Filter.{FilterState, IsNewFilter};
ghost use Rattle.dsp_defs.specs.declared.script.Block.TheVariants.{LatticeFir};
ghost use Rattle.dsp_lattice.specs.Making.{fir_lattice_fault};

use crate::making::check_reflections;
use crate::{FirLatticeWork, NarrowSample};
use dsp_defs::MakeFault;
use dsp_filter::{StepFilter, all_fit, check_block};
use dsp_sat::Sample;
use std::alloc::Global;

/// A lattice filter without feedback on one channel. It keeps one number for each section, g_0 to g_{S-1}
/// of the last sample.
pub type FirLattice<T> = StepFilter<T, FirLatticeWork<T>>;

/// A lattice filter in Q15 (`arm_fir_lattice_q15`).
pub type FirLattice15 = FirLattice<i16>;

/// What a lattice without feedback has besides the calls of every `StepFilter`.
pub trait FirLatticeCalls<T: NarrowSample> {
    ghost filter: { Self → FilterState };

    /// A lattice that has taken nothing, from its reflection coefficients k_1 to k_S, for blocks of at
    /// most `block` samples. `Length` where they are not 1 to 255, then `Range` where the block is not in
    /// 1..`MAX_SAMPLES`, then `Memory`. No later call takes memory.
    fn new(alloc: Global, k: &[T], block: usize) -> Result<Self, MakeFault>
        ensures made { IfOk result (λ lattice. IsNewFilter
            (LatticeFir (map T.number k.now)) T.format block (filter lattice)) }
        ensures fault { MatchOption (fir_lattice_fault (length k.now) block)
            (IfErr result (λ e. e ≡ MakeFault.Memory)) (λ e. result ≡ Err e) };
}

impl<T: NarrowSample> FirLatticeCalls<T> for FirLattice<T> {
    ghost filter = { λ f. f };

    fn new(alloc: Global, k: &[T], block: usize) -> Result<Self, MakeFault> {
        check_reflections(k.len())?;
        check_block(block)?;
        all_fit(k);
        let Ok(coefficients) = Vec::from_slice(alloc, k) else {
            return Err(MakeFault::Memory);
        };
        let Ok(work) = FirLatticeWork::new(alloc, coefficients) else {
            return Err(MakeFault::Memory);
        };
        Ok(StepFilter::of_work(work, block))
    }
}
