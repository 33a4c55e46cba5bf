ghost use Rattle.std.specs.Prelude.{◌≡◌, IfOk, IfErr, MatchOption, length, map};
ghost use Rattle.dsp_unit.specs.Filter.{FilterState, IsNewFilter};
ghost use Rattle.dsp_defs.specs.declared.script.Block.TheVariants.{LatticeIir};
ghost use Rattle.dsp_lattice.specs.Making.{iir_lattice_fault};

use crate::making::{check_ladder, check_reflections};
use crate::{IirLatticeWork, LatticeSample};
use dsp_defs::MakeFault;
use dsp_filter::{StepFilter, all_fit, check_block};
use dsp_sat::Sample;
use std::alloc::Global;

/// A lattice filter with feedback and a ladder on one channel (`arm_iir_lattice_q15`,
/// `arm_iir_lattice_q31`). It keeps one number for each section, g_0 to g_{S-1} of the last sample.
pub type IirLattice<T> = StepFilter<T, IirLatticeWork<T>>;

/// What a lattice with feedback has besides the calls of every `StepFilter`.
pub trait IirLatticeCalls<T: LatticeSample> {
    ghost filter: { Self → FilterState };

    /// A lattice that has taken nothing, from its reflection coefficients k_S to k_1 and its ladder
    /// coefficients v_S to v_0, for blocks of at most `block` samples. `Length` where the first are not 1
    /// to 255, `Length` where the second are not one more, then `Range` where the block is not in
    /// 1..`MAX_SAMPLES`, then `Memory`. No later call takes memory.
    fn new(alloc: Global, k: &[T], v: &[T], block: usize) -> Result<Self, MakeFault>
        ensures made { IfOk result (λ lattice. IsNewFilter
            (LatticeIir (map T.number k.now) (map T.number v.now)) T.format block (filter lattice)) }
        ensures fault { MatchOption (iir_lattice_fault (length k.now) (length v.now) block)
            (IfErr result (λ e. e ≡ MakeFault.Memory)) (λ e. result ≡ Err e) };
}

impl<T: LatticeSample> IirLatticeCalls<T> for IirLattice<T> {
    ghost filter = { λ f. f };

    fn new(alloc: Global, k: &[T], v: &[T], block: usize) -> Result<Self, MakeFault> {
        check_reflections(k.len())?;
        check_ladder(k.len(), v.len())?;
        check_block(block)?;
        all_fit(k);
        all_fit(v);
        let Ok(reflections) = Vec::from_slice(alloc, k) else {
            return Err(MakeFault::Memory);
        };
        let Ok(ladder) = Vec::from_slice(alloc, v) else {
            return Err(MakeFault::Memory);
        };
        let Ok(work) = IirLatticeWork::new(alloc, reflections, ladder) else {
            return Err(MakeFault::Memory);
        };
        Ok(StepFilter::of_work(work, block))
    }
}
