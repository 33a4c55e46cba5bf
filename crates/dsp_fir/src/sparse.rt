use crate::WindowFilter;
use crate::making::check_delays;
use crate::window_rows::Delays;
use dsp_defs::{MAX_TAPS, MakeFault};
use dsp_filter::{all_fit, check_block};
use dsp_lanes::LaneSample;
use std::alloc::Global;

/// Says that each tap of a filter has a delay of its own.
#[derive(Clone, Copy, Debug)]
pub struct Delayed;

/// A sparse finite impulse response filter on one channel (`arm_fir_sparse_q7`,
/// `arm_fir_sparse_q15`, `arm_fir_sparse_q31`): each tap reads the sample that came its delay
/// before. `L` is the number of lanes.
pub type Sparse<T, const L: usize> = WindowFilter<T, L, Delayed>;

impl<T: LaneSample<L>, const L: usize> WindowFilter<T, L, Delayed> {
    ghost use Rattle.std.specs.Prelude.{◌≡◌, [], length, map, pos, IfOk, IfErr, MatchOption};
    ghost use Rattle.dsp_defs.specs.declared.script.Block.TheVariants.{Sparse};
    ghost use Rattle.dsp_fir.specs.WindowState.{StandsFor, new_filter};
    ghost use Rattle.dsp_fir.specs.Delays.{greatest_delay, sparse_fault};

    /// A filter that has taken nothing, from the taps `b[0]` to `b[T-1]` and their delays in samples,
    /// for blocks of at most `block` samples. `Length` where the taps are not 2..`MAX_TAPS` or the delays
    /// not as many, then `Range` of the first delay over `MAX_DELAY`, `Range` where the block is not in
    /// 1..`MAX_SAMPLES`, then `Memory`. No later call takes memory.
    pub fn new(alloc: Global, taps: &[T], delays: &[u32], block: usize) -> Result<Self, MakeFault>
        ensures made { IfOk result (λ f.
            f ≡ new_filter (Sparse (map T.number taps.now) (map pos delays.now))
            (greatest_delay delays.now) block) }
        ensures stands { IfOk result (λ f. StandsFor T.format f []) }
        ensures fault { MatchOption (sparse_fault (length taps.now) delays.now block)
            (IfErr result (λ e. e ≡ MakeFault.Memory)) (λ e. result ≡ Err e) }
    {
        if taps.len() < 2 || taps.len() > MAX_TAPS {
            return Err(MakeFault::Length {
                taps: taps.len() as u64,
                factor: 2,
            });
        }
        if delays.len() != taps.len() {
            return Err(MakeFault::Length {
                taps: delays.len() as u64,
                factor: taps.len() as u64,
            });
        }
        check_delays(delays)?;
        check_block(block)?;
        all_fit(taps);
        let Ok(taps) = Vec::from_slice(alloc, taps) else {
            return Err(MakeFault::Memory);
        };
        let Ok(delays) = Vec::from_slice(alloc, delays) else {
            return Err(MakeFault::Memory);
        };
        let Ok(delays) = Delays::new(alloc, delays, block) else {
            return Err(MakeFault::Memory);
        };
        let Ok(filter) = WindowFilter::of_taps(alloc, taps, Some(delays), block) else {
            return Err(MakeFault::Memory);
        };
        Ok(filter)
    }
}
