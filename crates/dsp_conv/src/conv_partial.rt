use crate::Convolution;
use crate::extent::Extent;
use crate::making::{check_count, check_first};
use dsp_defs::MakeFault;
use dsp_filter::{check_block, check_taps};
use dsp_lanes::LaneSample;
use std::alloc::Global;

/// Says that a convolution gives a part of its values.
#[derive(Clone, Copy, Debug)]
pub struct Stretch;

/// A part of the convolution of one channel with a list of taps (`arm_conv_partial_q7`,
/// `arm_conv_partial_q15`, `arm_conv_partial_q31`) as a stream: those of its values that have an index
/// of a sample come with it, and the others in a tail. `L` is the number of lanes.
pub type ConvPartial<T, const L: usize> = Convolution<T, L, Stretch>;

impl<T: LaneSample<L>, const L: usize> Convolution<T, L, Stretch> {
    ghost use Rattle.std.specs.Prelude.{◌≡◌, [], length, map, IfOk, IfErr, MatchOption};
    ghost use Rattle.dsp_conv.specs.Making.{partial_fault};
    ghost use Rattle.dsp_conv.specs.declared.extent.Extent.TheVariants.{Within};
    ghost use Rattle.dsp_conv.specs.ConvState.{StandsFor, new_conv};

    /// The `count` values from the one with index `first` on of a convolution that has taken nothing,
    /// with the taps `b[0]` to `b[T-1]`, for blocks of at most `block` samples. `Length` where there
    /// are no taps or more than `MAX_TAPS`, then `Range` where `first` is over 4,294,967,295, `Range` where
    /// `count` is not in 1..4,294,967,295, `Range` where the block is not in 1..`MAX_SAMPLES`, then
    /// `Memory`. No later call takes memory.
    pub fn new(
        alloc: Global,
        first: u64,
        count: u64,
        taps: &[T],
        block: usize,
    ) -> Result<Self, MakeFault>
        ensures made { IfOk result (λ c. c ≡ new_conv (Within first count) (map T.number taps.now) block) }
        ensures stands { IfOk result (λ c. StandsFor T.format c []) }
        ensures fault { MatchOption (partial_fault (length taps.now) first count block)
            (IfErr result (λ e. e ≡ MakeFault.Memory)) (λ e. result ≡ Err e) }
    {
        check_taps(taps.len())?;
        let first = check_first(first)?;
        let count = check_count(count)?;
        check_block(block)?;
        let extent = Extent::Within { first, count };
        let Ok(convolution) = Convolution::of_taps(alloc, extent, taps, block) else {
            return Err(MakeFault::Memory);
        };
        Ok(convolution)
    }
}
