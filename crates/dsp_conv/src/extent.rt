ghost use Rattle.std.specs.Prelude.{◌≡◌, ◌≤◌, ◌<◌, ◌+◌, ◌*◌, ◌^◌, ◌≤ℤ◌, pos};
ghost use Rattle.dsp_conv.specs.ByChannel.{HasExtent, taps_of};

use dsp_defs::Block;
use std::ops::Range;

/// Which values of a full convolution a stream gives. What it has to know of the number of its samples
/// is its place: of all values, 1 once a sample came and else 0; of a part of them, the number of
/// samples, up to the end of that part.
#[derive(Clone, Copy, Debug)]
pub enum Extent {
    /// All values.
    Full,
    /// `count` values from the one with index `first` on.
    Within { first: u32, count: u32 },
}

/// The index behind `count` values from the one with index `first` on.
fn end_of(first: u32, count: u32) -> u64
    ensures { result ≡ first + count }
{
    u64::from(first) + u64::from(count)
}

/// A kept number as the place that it is.
pub fn as_place(number: i64) -> u64
    requires { pos 0 ≤ℤ number }
    ensures place { pos result ≡ number }
    ensures fits { result < 2 ^ 63 }
{
    number as u64
}

impl Extent {
    ghost use Rattle.dsp_conv.specs.Extent.{block_of, greatest_place, place_after, start_in, stop_in};

    /// What a convolution, or a part of one, gives.
    pub fn of_block(block: &Block) -> Extent
        requires { HasExtent block.now }
        ensures { block_of result (taps_of block.now) ≡ block.now }
    {
        match block {
            Block::Conv { .. } => Extent::Full,
            Block::ConvPartial { first, count, .. } => Extent::Within {
                first: *first,
                count: *count,
            },
            _ => unreachable!(),
        }
    }

    /// Of `more` samples behind the place those whose values are given.
    pub fn given(self, place: u64, more: usize) -> Range<usize>
        ensures start { result.start ≡ start_in self place more }
        ensures end { result.end ≡ stop_in self place more }
        ensures order { result.start ≤ result.end }
        ensures within { result.end ≤ more }
    {
        match self {
            Extent::Full => 0..more,
            Extent::Within { first, count } => {
                let start = u64::from(first).saturating_sub(place) as usize;
                let end = end_of(first, count).saturating_sub(place) as usize;
                more.min(start)..more.min(end)
            }
        }
    }

    /// The place behind them.
    pub fn place_after(self, place: u64, more: usize) -> u64
        ensures place { result ≡ place_after self place more }
        ensures few { result ≤ 2 * u32.MAX }
    {
        match self {
            Extent::Full => u64::from(place > 0 || more > 0),
            Extent::Within { first, count } => {
                place.saturating_add(more as u64).min(end_of(first, count))
            }
        }
    }

    /// The greatest place.
    pub fn greatest_place(self) -> u64
        ensures greatest { result ≡ greatest_place self }
        ensures few { result ≤ 2 * u32.MAX }
    {
        match self {
            Extent::Full => 1,
            Extent::Within { first, count } => end_of(first, count),
        }
    }
}
