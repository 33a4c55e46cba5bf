//! Sections one after another, on rows of samples.
ghost use Rattle.std.specs.Prelude.{◌≡◌, ◌+◌, ◌*◌, ◌/◌, ◌%◌, ◌<◌, ◌≤◌, length, map};
ghost use Rattle.dsp_defs.specs.Formats.{lanes};
ghost use Rattle.dsp_defs.specs.Parameters.{greatest_biquad_shift};
ghost use Rattle.dsp_defs.specs.declared.script.Block.TheVariants.{Biquad};
ghost use Rattle.dsp_sections.specs.Sections.{five_of};
ghost use Rattle.dsp_lanes.specs.Turns.{RisesWithin, lane_turns};
ghost use Rattle.dsp_biquad.specs.Sections.{block_acts, section_acts};
ghost use Rattle.dsp_bank.specs.Rows.{ChannelsGo, SectionGoes, section_at};

use crate::BankSample;
use crate::past::{load_past, save_past};
use dsp_defs::Steps;
use std::sync::ledger::Ledger;

/// The numbers of a section in a list: b0, b1, b2, a1, a2.
fn numbers_at<T: BankSample>(coefficients: &[T], section: usize) -> [T; 5]
    requires { (section + 1) * T.SIZE ≤ length coefficients.now }
    ensures { five_of (map T.number result)
        ≡ section_at T.SIZE (map T.number coefficients.now) section }
{
    let size = T::SIZE;
    let at = section * size;
    let numbers = &coefficients[at..at + size];
    [
        numbers[0],
        numbers[size - 4],
        numbers[size - 3],
        numbers[size - 2],
        numbers[size - 1],
    ]
}

/// Gives the frames after the first two to a section, and writes its outputs. The first two frames of
/// both slices are for what the section keeps.
fn run_section<T: BankSample, M: Ledger>(
    five: &[T],
    post_shift: u8,
    sections: usize,
    section: usize,
    kept: &mut [T],
    row: usize,
    count: usize,
    frames: &mut [T],
    outputs: &mut [T],
    steps: &mut Steps<M>,
)
    requires five { length five.now ≡ 5 }
    requires shift { post_shift ≤ greatest_biquad_shift T.format }
    requires size { length kept.old ≡ row * sections * 4 }
    requires section { section < sections }
    requires frames { length frames.old ≡ (count + 2) * row }
    requires outputs { length outputs.old ≡ (count + 2) * row }
    ensures goes { SectionGoes (section_acts T.format post_shift (five_of (map T.number five.now)))
        sections section row count (map T.number kept.old) (map T.number kept.new)
        (map T.number frames.old) (map T.number outputs.new) }
    ensures steps { RisesWithin steps.old steps.new (count * (5 * row))
        (count * (5 * lane_turns (lanes T.format) row)) }
{
    load_past(kept, sections, section, row, frames, outputs);
    T::section_rows(five, post_shift, row, count, frames, outputs, steps);
    save_past(frames, outputs, count, row, sections, section, kept);
}

/// Gives the frames after the first two to the sections of a list, one after another, and writes the
/// outputs of the last. Those of the others stand over the frames.
pub(crate) fn run_sections<T: BankSample, M: Ledger>(
    coefficients: &[T],
    post_shift: u8,
    kept: &mut [T],
    row: usize,
    count: usize,
    frames: &mut [T],
    outputs: &mut [T],
    steps: &mut Steps<M>,
)
    requires shift { post_shift ≤ greatest_biquad_shift T.format }
    requires whole { length coefficients.now % T.SIZE ≡ 0 }
    requires few { length coefficients.now ≤ 64 * T.SIZE }
    requires size { length kept.old ≡ row * (length coefficients.now / T.SIZE) * 4 }
    requires frames { length frames.old ≡ (count + 2) * row }
    requires outputs { length outputs.old ≡ (count + 2) * row }
    ensures goes { ChannelsGo
        (block_acts T.format (Biquad post_shift (map T.number coefficients.now)))
        (4 * (length coefficients.now / T.SIZE)) row count
        (map T.number kept.old) (map T.number kept.new)
        (map T.number frames.old) (map T.number outputs.new) }
    ensures steps { RisesWithin steps.old steps.new
        ((length coefficients.now / T.SIZE) * (count * (5 * row)))
        ((length coefficients.now / T.SIZE) * (count * (5 * lane_turns (lanes T.format) row))) }
{
    let sections = coefficients.len() / T::SIZE;
    let Some(last) = sections.checked_sub(1) else {
        outputs.copy_from_slice(frames);
        return;
    };
    for section in 0..last {
        let five = numbers_at(coefficients, section);
        run_section(
            &five, post_shift, sections, section, kept, row, count, frames, outputs, steps,
        );
        frames.copy_from_slice(outputs);
    }
    let five = numbers_at(coefficients, last);
    run_section(
        &five, post_shift, sections, last, kept, row, count, frames, outputs, steps,
    );
}
