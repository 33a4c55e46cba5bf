use crate::WindowFilter;
use dsp_defs::MakeFault;
use dsp_filter::{all_fit, check_block, check_taps};
use dsp_lanes::LaneSample;
use std::alloc::Global;

/// Says that each tap of a filter reads the sample next to that of the one before.
#[derive(Clone, Copy, Debug)]
pub struct Dense;

/// A finite impulse response filter on one channel (`arm_fir_q7`, `arm_fir_q15`, `arm_fir_q31`); `L` is
/// the number of lanes.
pub type Fir<T, const L: usize> = WindowFilter<T, L, Dense>;

impl<T: LaneSample<L>, const L: usize> WindowFilter<T, L, Dense> {
    ghost use Rattle.std.specs.Prelude.{◌≡◌, ◌-◌, [], length, map, IfOk, IfErr, MatchOption};
    ghost use Rattle.dsp_filter.specs.Making.{filter_fault};
    ghost use Rattle.dsp_defs.specs.declared.script.Block.TheVariants.{Fir};
    ghost use Rattle.dsp_fir.specs.WindowState.{StandsFor, new_filter};

    /// A filter that has taken nothing, from the taps in time-reversed order, `b[T-1]` to `b[0]`, for
    /// blocks of at most `block` samples. `Length` where there are no taps or more than `MAX_TAPS`, then
    /// `Range` where the block is not in 1..`MAX_SAMPLES`, then `Memory`. No later call takes memory.
    pub fn new(alloc: Global, taps: &[T], block: usize) -> Result<Self, MakeFault>
        ensures made { IfOk result (λ f.
            f ≡ new_filter (Fir (map T.number taps.now)) (length taps.now - 1) block) }
        ensures stands { IfOk result (λ f. StandsFor T.format f []) }
        ensures fault { MatchOption (filter_fault (length taps.now) block)
            (IfErr result (λ e. e ≡ MakeFault.Memory)) (λ e. result ≡ Err e) }
    {
        check_taps(taps.len())?;
        check_block(block)?;
        all_fit(taps);
        let Ok(taps) = Vec::from_slice(alloc, taps) else {
            return Err(MakeFault::Memory);
        };
        let Ok(filter) = WindowFilter::of_taps(alloc, taps, None, block) else {
            return Err(MakeFault::Memory);
        };
        Ok(filter)
    }
}
