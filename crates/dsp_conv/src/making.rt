ghost use Rattle.std.specs.Prelude.{◌≡◌, Err, Ok, IfOk, MatchOption, length, map, pos, replicate, reverse};
ghost use Rattle.dsp_defs.specs.declared.script.Block.{Block};
ghost use Rattle.dsp_conv.specs.ByChannel.{IsConvBlock, taps_of};
ghost use Rattle.dsp_conv.specs.Making.{first_fault, count_fault};

use dsp_defs::{Block, MakeFault};
use dsp_sat::Sample;
use std::alloc::{AllocError, Global};

/// The samples in the other order.
pub fn reversed<T: Copy>(alloc: Global, samples: &[T]) -> Result<Vec<T>, AllocError>
    ensures { IfOk result (λ v. v.items ≡ reverse samples.now) }
{
    samples.iter().rev().copied().collect(alloc)
}

/// So many zeros.
pub fn zeros<T: Sample>(alloc: Global, count: usize) -> Result<Vec<T>, AllocError>
    ensures { IfOk result (λ v. map T.number v.items ≡ replicate count (pos 0)) }
{
    let mut zeros = Vec::with_capacity(alloc, count)?;
    zeros.resize(count, T::zero())?;
    Ok(zeros)
}

/// The taps of a block of this crate.
pub fn taps_of(block: &Block) -> &[i32]
    requires { IsConvBlock block.now }
    ensures { result.now ≡ taps_of block.now }
{
    match block {
        Block::Conv { taps } | Block::ConvPartial { taps, .. } | Block::Correlate { taps } => {
            taps.as_slice()
        }
        _ => unreachable!(),
    }
}

/// The index of a first value; refused where it is over 4,294,967,295.
pub fn check_first(first: u64) -> Result<u32, MakeFault>
    ensures { MatchOption (first_fault first) (result ≡ Ok first) (λ e. result ≡ Err e) }
{
    u32::try_from(first).map_err(|_| MakeFault::Range {
        value: i128::from(first),
    })
}

/// A number of values; refused where it is not in 1..4,294,967,295.
pub fn check_count(count: u64) -> Result<u32, MakeFault>
    ensures { MatchOption (count_fault count) (result ≡ Ok count) (λ e. result ≡ Err e) }
{
    match u32::try_from(count) {
        Ok(some) if some > 0 => Ok(some),
        _ => Err(MakeFault::Range {
            value: i128::from(count),
        }),
    }
}
