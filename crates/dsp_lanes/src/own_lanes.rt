ghost use Rattle.std.specs.Prelude.{◌≡◌, ◌+◌, ◌*◌, ◌<◌, ◌*ℤ◌, length, map};
ghost use Rattle.dsp_defs.specs.Numbers.{wrap};
ghost use Rattle.dsp_defs.specs.Formats.{accumulator, lanes};
ghost use Rattle.dsp_defs.specs.Signal.{sample, sum_below};
ghost use Rattle.dsp_defs.specs.Streaming.{rows};
ghost use Rattle.dsp_lanes.specs.Turns.{RisesWithin, lane_turns};

use crate::lanes::Lanes;
use dsp_defs::Steps;
use dsp_sat::Sample;
use std::sync::ledger::Ledger;

/// A type of samples with the calls of `Lanes` at its own number of lanes, as many as a vector of 128
/// bits holds: 16 of 8 bits, 8 of 16 bits, 4 of 32 bits.
pub trait OwnLanes: Sample {
    /// `Lanes::rows` at this number of lanes.
    fn rows<M: Ledger>(taps: &[Self], window: &[Self], out: &mut [Self], steps: &mut Steps<M>)
        requires taps { 0 < length taps.now }
        requires window { length window.now + 1 ≡ length out.old + length taps.now }
        ensures out { map Self.number out.new ≡ rows Self.format (map Self.number taps.now)
            (map Self.number window.now) (length out.old) }
        ensures steps { RisesWithin steps.old steps.new (length taps.now * length out.old)
            (length taps.now * lane_turns (lanes Self.format) (length out.old)) };

    /// `Lanes::dot` at this number of lanes.
    fn dot<M: Ledger>(taps: &[Self], window: &[Self], steps: &mut Steps<M>) -> Self::Acc
        requires { length window.now ≡ length taps.now }
        ensures sum { Self.total result ≡ wrap (accumulator Self.format)
            (sum_below (length taps.now) (λ k.
            sample (map Self.number taps.now) k *ℤ sample (map Self.number window.now) k)) }
        ensures steps { RisesWithin steps.old steps.new (length taps.now)
            (lane_turns (lanes Self.format) (length taps.now)) };
}

impl OwnLanes for i8 {
    fn rows<M: Ledger>(taps: &[i8], window: &[i8], out: &mut [i8], steps: &mut Steps<M>) {
        Lanes::<i8, 16>::rows(taps, window, out, steps)
    }

    fn dot<M: Ledger>(taps: &[i8], window: &[i8], steps: &mut Steps<M>) -> i32 {
        Lanes::<i8, 16>::dot(taps, window, steps)
    }
}

impl OwnLanes for i16 {
    fn rows<M: Ledger>(taps: &[i16], window: &[i16], out: &mut [i16], steps: &mut Steps<M>) {
        Lanes::<i16, 8>::rows(taps, window, out, steps)
    }

    fn dot<M: Ledger>(taps: &[i16], window: &[i16], steps: &mut Steps<M>) -> i64 {
        Lanes::<i16, 8>::dot(taps, window, steps)
    }
}

impl OwnLanes for i32 {
    fn rows<M: Ledger>(taps: &[i32], window: &[i32], out: &mut [i32], steps: &mut Steps<M>) {
        Lanes::<i32, 4>::rows(taps, window, out, steps)
    }

    fn dot<M: Ledger>(taps: &[i32], window: &[i32], steps: &mut Steps<M>) -> i64 {
        Lanes::<i32, 4>::dot(taps, window, steps)
    }
}
