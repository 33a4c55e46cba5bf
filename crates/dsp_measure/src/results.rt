//! The results of a unit's measures, from the numbers that they keep.
ghost use Rattle.std.specs.Prelude.{◌≡◌, ◌+◌, ◌*◌, ◌<◌, ◌≤◌, ℕ, Some, drop, length, slice_get};
ghost use Rattle.dsp_defs.specs.Measure.{cmplx_dot_close};
ghost use Rattle.dsp_defs.specs.Kept.{Each, FitsAfter, IsOfKind, extreme_kinds, kept_extreme, kept_measures};
ghost use Rattle.dsp_defs.specs.declared.format.Fmt.TheVariants.{Q31};
ghost use Rattle.dsp_unit.specs.Channels.{numbers_in};
ghost use Rattle.dsp_measure.specs.Extremes.{KeepsExtreme};
ghost use Rattle.dsp_measure.specs.Measures.{block_of, channels_of, parts_of};

use crate::MeasureSample;
use crate::extreme_numbers::read_extreme;
use crate::measure_block::MeasureBlock;
use dsp_defs::{Fmt, Measure};

/// A sum of complex products as a result.
fn close_complex(format: Fmt, sum: i64) -> i64
    ensures { result ≡ cmplx_dot_close format sum }
{
    match format {
        Fmt::Q7 => i8::close_complex(sum),
        Fmt::Q15 => i16::close_complex(sum),
        Fmt::Q31 => i32::close_complex(sum),
    }
}

/// The extreme of one channel, among the numbers of all.
fn extreme_of(kept: &[i64], channel: usize) -> Option<(i32, u64)>
    requires room { (channel + 1) * 4 ≤ length kept.now }
    requires kept { (n : ℕ) × KeepsExtreme Q31 n (numbers_in 4 kept.now channel) }
    ensures { result ≡ kept_extreme (drop (4 * channel) kept.now) }
{
    let start = channel * 4;
    let (found, _count) = read_extreme::<i32>(&kept[start..start + 4]);
    found
}

/// The measure at an index below their number, of the block with this number in the script.
pub fn result_of(
    measure: MeasureBlock,
    format: Fmt,
    kept: &[i64],
    number: u8,
    index: usize,
    channels: u8,
) -> Measure
    requires inside { index < parts_of measure channels }
    requires kept { (n : ℕ) × FitsAfter format channels (block_of measure) n kept.now }
    ensures { Some result ≡ slice_get (kept_measures format channels number
        (block_of measure) kept.now) index }
{
    let channel = index as u8;
    match measure {
        MeasureBlock::Power => Measure::Power {
            number,
            channel,
            value: kept[index],
        },
        MeasureBlock::Dot => Measure::Dot {
            number,
            value: kept[0],
        },
        MeasureBlock::CmplxDot => Measure::CmplxDot {
            number,
            re: close_complex(format, kept[0]),
            im: close_complex(format, kept[1]),
        },
        MeasureBlock::Max => Measure::Max {
            number,
            channel,
            found: extreme_of(kept, index),
        },
        MeasureBlock::Min => Measure::Min {
            number,
            channel,
            found: extreme_of(kept, index),
        },
    }
}
