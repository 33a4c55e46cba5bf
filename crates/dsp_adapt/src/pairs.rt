ghost use Rattle.std.specs.Prelude.{◌≡◌, ◌≤◌, ◌+◌, ◌*◌, ◌/◌, ◌++◌, ℤ, List, All, FitsSigned, length, map};
ghost use Rattle.std.specs.Prelude.{take};
ghost use Rattle.dsp_defs.specs.Block.{input_pairs, pair_frame};
ghost use Rattle.dsp_defs.specs.Formats.{word};
ghost use Rattle.dsp_defs.specs.Signal.{sample, values};
ghost use Rattle.dsp_defs.specs.Streaming.{Continues};
ghost use Rattle.dsp_adapt.specs.LmsState.{StandsFor, kept};
ghost use Rattle.dsp_adapt.specs.LmsUnit.{lms_frames};
ghost use Rattle.dsp_unit.specs.Unit.{frames_in};

use crate::{Lms, LmsSample};
use dsp_defs::Steps;
use dsp_lanes::LaneSample;
use dsp_sat::Sample;
use std::sync::ledger::Ledger;

/// Reads both channels of frames.
pub(crate) fn split_pairs<T: Sample>(frames: &[i32], first: &mut [T], second: &mut [T])
    requires whole { length frames.now ≡ length first.old * 2 }
    requires same { length second.old ≡ length first.old }
    requires in_format { All (FitsSigned (word T.format)) frames.now }
    ensures first { map T.number first.new ≡ values (length first.old) (λ n. sample frames.now (n * 2)) }
    ensures second { map T.number second.new ≡ values (length first.old)
        (λ n. sample frames.now (n * 2 + 1)) }
{
    for n in 0..first.len() {
        first[n] = T::of_number(frames[n * 2]);
        second[n] = T::of_number(frames[n * 2 + 1]);
    }
}

/// Writes both channels of frames.
pub(crate) fn join_pairs<T: Sample>(first: &[T], second: &[T], out: &mut [i32])
    requires whole { length out.old ≡ length first.now * 2 }
    requires same { length second.now ≡ length first.now }
    ensures frames { frames_in 2 out.new ≡ values (length first.now) (λ n.
        pair_frame (sample (map T.number first.now) n, sample (map T.number second.now) n)) }
    ensures in_format { All (FitsSigned (word T.format)) out.new }
{
    for n in 0..first.len() {
        out[n * 2] = first[n].number();
        out[n * 2 + 1] = second[n].number();
    }
}

/// Feeds frames of an input and its reference to a filter, by way of a row for each channel that it
/// takes and gives, and writes as many frames of its output and error.
#[tactic(auto, using(crate::proofs::LmsUnits::rows))]
pub(crate) fn feed_pairs<T: LmsSample + LaneSample<L>, const L: usize, M: Ledger>(
    lms: &mut Lms<T, L>,
    frames: &[i32],
    inputs: &mut [T],
    references: &mut [T],
    outputs: &mut [T],
    errors: &mut [T],
    out: &mut [i32],
    steps: &mut Steps<M>,
)
    requires whole { length frames.now ≡ length frames.now / 2 * 2 }
    requires in_format { All (FitsSigned (word T.format)) frames.now }
    requires capacity { length frames.now / 2 ≤ lms.old.block }
    requires inputs { length inputs.old ≡ lms.old.block }
    requires references { length references.old ≡ lms.old.block }
    requires outputs { length outputs.old ≡ lms.old.block }
    requires errors { length errors.old ≡ lms.old.block }
    requires room { length frames.now ≤ length out.old }
    ensures frames { (x : List (ℤ × ℤ)) → StandsFor T.format lms.old x
        → Continues (lms_frames T.format lms.old) x (input_pairs (frames_in 2 frames.now))
        (frames_in 2 (take (length frames.now) out.new)) }
    ensures in_format { All (FitsSigned (word T.format)) (take (length frames.now) out.new) }
    ensures stands { (x : List (ℤ × ℤ)) → StandsFor T.format lms.old x
        → StandsFor T.format lms.new (x ++ input_pairs (frames_in 2 frames.now)) }
    ensures same { lms.new ≡ record lms.old { weights = lms.new.weights; past = lms.new.past } }
    ensures past { length lms.new.past ≡ length lms.old.past }
    ensures weights { length lms.new.weights ≡ length lms.old.weights }
    ensures multiplies { steps.new.multiplies ≡ steps.old.multiplies + length frames.now / 2 *
        (2 * length lms.old.taps + 1) }
    ensures turns { steps.new.turns ≤ steps.old.turns + length frames.now / 2 *
        (2 * length lms.old.taps + 1) }
{
    let count = frames.len() / 2;
    let inputs = &mut inputs[..count];
    let references = &mut references[..count];
    split_pairs(frames, inputs, references);
    let outputs = &mut outputs[..count];
    let errors = &mut errors[..count];
    lms.process(inputs, references, outputs, errors, steps);
    join_pairs(outputs, errors, &mut out[..frames.len()]);
}
