use crate::Convolution;
use crate::extent::Extent;
use dsp_defs::MakeFault;
use dsp_filter::{check_block, check_taps};
use dsp_lanes::LaneSample;
use std::alloc::Global;

/// Says that a convolution gives all its values.
#[derive(Clone, Copy, Debug)]
pub struct Everything;

/// The convolution of one channel with a list of taps (`arm_conv_q7`, `arm_conv_q15`, `arm_conv_q31`)
/// as a stream: a value for each sample, and then a tail. `L` is the number of lanes.
pub type Conv<T, const L: usize> = Convolution<T, L, Everything>;

impl<T: LaneSample<L>, const L: usize> Convolution<T, L, Everything> {
    ghost use Rattle.std.specs.Prelude.{◌≡◌, ◌≤◌, [], length, map, IfOk, OnOk, IfErr, MatchOption};
    ghost use Rattle.dsp_filter.specs.Making.{filter_fault};
    ghost use Rattle.dsp_conv.specs.declared.extent.Extent.TheVariants.{Full};
    ghost use Rattle.dsp_conv.specs.ConvState.{StandsFor, new_conv};

    /// A convolution that has taken nothing, with the taps `b[0]` to `b[T-1]`, for blocks of at most
    /// `block` samples. `Length` where there are no taps or more than `MAX_TAPS`, then `Range` where the
    /// block is not in 1..`MAX_SAMPLES`, then `Memory`. No later call takes memory.
    pub fn new(alloc: Global, taps: &[T], block: usize) -> Result<Self, MakeFault>
        ensures made { IfOk result (λ c. c ≡ new_conv Full (map T.number taps.now) block) }
        ensures stands { IfOk result (λ c. StandsFor T.format c []) }
        ensures fault { MatchOption (filter_fault (length taps.now) block)
            (IfErr result (λ e. e ≡ MakeFault.Memory)) (λ e. result ≡ Err e) }
    {
        check_taps(taps.len())?;
        check_block(block)?;
        let Ok(convolution) = Convolution::of_taps(alloc, Extent::Full, taps, block) else {
            return Err(MakeFault::Memory);
        };
        Ok(convolution)
    }
}
