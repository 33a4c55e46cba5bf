//! A block of frames through the sections, by way of rows.
ghost use Rattle.std.specs.Prelude.{◌≡◌, ◌+◌, ◌*◌, ◌/◌, ◌%◌, ◌<◌, ◌≤◌, ℕ, length, map};
ghost use Rattle.dsp_defs.specs.Formats.{lanes};
ghost use Rattle.dsp_defs.specs.Parameters.{greatest_biquad_shift};
ghost use Rattle.dsp_defs.specs.declared.script.Block.TheVariants.{Biquad};
ghost use Rattle.dsp_lanes.specs.Turns.{RisesWithin, lane_turns};
ghost use Rattle.dsp_biquad.specs.Sections.{block_acts};
ghost use Rattle.dsp_bank.specs.Rows.{ChannelsTake};

use crate::BankSample;
use crate::sections::run_sections;
use dsp_defs::Steps;
use std::sync::ledger::Ledger;

/// Writes the next values of each channel of `count` frames. `inner` and `outputs` have room for two
/// frames more, for what the sections keep.
fn run_frames<T: BankSample, M: Ledger>(
    coefficients: &[T],
    post_shift: u8,
    kept: &mut [T],
    row: usize,
    count: usize,
    inner: &mut [T],
    outputs: &mut [T],
    frames: &[T],
    out: &mut [T],
    steps: &mut Steps<M>,
)
    requires shift { post_shift ≤ greatest_biquad_shift T.format }
    requires whole { length coefficients.now % T.SIZE ≡ 0 }
    requires few { length coefficients.now ≤ 64 * T.SIZE }
    requires size { length kept.old ≡ row * (length coefficients.now / T.SIZE) * 4 }
    requires inner { length inner.old ≡ (count + 2) * row }
    requires outputs { length outputs.old ≡ (count + 2) * row }
    requires frames { length frames.now ≡ count * row }
    requires out { length out.old ≡ count * row }
    ensures goes { ChannelsTake
        (block_acts T.format (Biquad post_shift (map T.number coefficients.now)))
        (4 * (length coefficients.now / T.SIZE)) row count
        (map T.number kept.old) (map T.number kept.new)
        (map T.number frames.now) (map T.number out.new) }
    ensures steps { RisesWithin steps.old steps.new
        ((length coefficients.now / T.SIZE) * (count * (5 * row)))
        ((length coefficients.now / T.SIZE) * (count * (5 * lane_turns (lanes T.format) row))) }
{
    inner[2 * row..].copy_from_slice(frames);
    run_sections(
        coefficients,
        post_shift,
        kept,
        row,
        count,
        inner,
        outputs,
        steps,
    );
    out.copy_from_slice(&outputs[2 * row..]);
}

/// Writes the next values of each channel, by way of rows with room for two frames more than those of
/// a call.
pub(crate) fn run_block<T: BankSample, M: Ledger>(
    coefficients: &[T],
    post_shift: u8,
    kept: &mut [T],
    row: usize,
    inner: &mut [T],
    outputs: &mut [T],
    frames: &[T],
    out: &mut [T],
    steps: &mut Steps<M>,
)
    requires shift { post_shift ≤ greatest_biquad_shift T.format }
    requires coefficients { length coefficients.now % T.SIZE ≡ 0 }
    requires few { length coefficients.now ≤ 64 * T.SIZE }
    requires size { length kept.old ≡ row * (length coefficients.now / T.SIZE) * 4 }
    requires some { 1 ≤ row }
    requires whole { length frames.now % row ≡ 0 }
    requires inner { length frames.now + 2 * row ≤ length inner.old }
    requires outputs { length frames.now + 2 * row ≤ length outputs.old }
    requires out { length out.old ≡ length frames.now }
    ensures goes { ChannelsTake
        (block_acts T.format (Biquad post_shift (map T.number coefficients.now)))
        (4 * (length coefficients.now / T.SIZE)) row (length frames.now / row)
        (map T.number kept.old) (map T.number kept.new)
        (map T.number frames.now) (map T.number out.new) }
    ensures steps { RisesWithin steps.old steps.new
        ((length coefficients.now / T.SIZE) * ((length frames.now / row) * (5 * row)))
        ((length coefficients.now / T.SIZE)
        * ((length frames.now / row) * (5 * lane_turns (lanes T.format) row))) }
{
    let count = frames.len() / row;
    let long = (count + 2) * row;
    run_frames(
        coefficients,
        post_shift,
        kept,
        row,
        count,
        &mut inner[..long],
        &mut outputs[..long],
        frames,
        out,
        steps,
    );
}
