//! Four machines side by side: in a turn each takes what the one before it gave a turn ago.
ghost use Rattle.std.specs.Prelude.{◌≡◌, ◌≤◌, ◌-◌, ◌*◌, [], ℕ, length, map, take};
ghost use Rattle.dsp_defs.specs.Counts.{Rises};
ghost use Rattle.dsp_filter.specs.Waves.{Flows, Four, Turns, Wave};

use crate::{InFlight, Machine};
use dsp_defs::Steps;
use dsp_sat::Sample;
use std::sync::ledger::Ledger;

/// Four machines that work side by side.
pub trait Turning<T: Sample>: Copy {
    ghost wave: { Self → Wave };

    // Holds between the turns.
    ghost IsWhole: { Self → Type 0 };

    // The products of a turn of each.
    ghost price: { ℕ };

    /// Gives the first machine x, and each other what was given to it. The value is that of the fourth.
    fn turn<L: Ledger>(&mut self, x: T, steps: &mut Steps<L>) -> T
        requires { IsWhole self.old }
        ensures whole { IsWhole self.new }
        ensures turns { Turns (wave self.old) (wave self.new) (T.number x) (T.number result) }
        ensures steps { Rises steps.old steps.new (4 * price) (4 * price) };
}

impl<T: Sample, M: Machine<T> + Copy> Turning<T> for InFlight<T, M> {
    ghost use Rattle.std.specs.Prelude.{⊤};
    ghost use Rattle.dsp_filter.specs.Waves.{wave_of};

    ghost wave = { λ m. wave_of M.acts M.kept T.number m };

    ghost IsWhole = { λ m. ⊤ };

    ghost price = { M.price };

    #[inline(always)]
    fn turn<L: Ledger>(&mut self, x: T, steps: &mut Steps<L>) -> T {
        let z = self.fourth.step(self.to_fourth, steps);
        self.to_fourth = self.third.step(self.to_third, steps);
        self.to_third = self.second.step(self.to_second, steps);
        self.to_second = self.first.step(x, steps);
        z
    }
}

/// Gives the samples from the fourth on to machines that have the first three in flight. What they give
/// for a sample is written three places before it.
#[inline(always)]
pub(crate) fn run_turns<T: Sample, W: Turning<T>, L: Ledger>(
    machines: &mut W,
    samples: &mut [T],
    steps: &mut Steps<L>,
)
    requires whole { W.IsWhole machines.old }
    requires some { 3 ≤ length samples.old }
    ensures whole { W.IsWhole machines.new }
    ensures flows { (from : Four) → Flows from (W.wave machines.old) (map T.number (take 3 samples.old)) []
        → Flows from (W.wave machines.new) (map T.number samples.old)
        (map T.number (take (length samples.old - 3) samples.new)) }
    ensures rest { length samples.new ≡ length samples.old }
    ensures steps { Rises steps.old steps.new ((length samples.old - 3) * (4 * W.price))
        ((length samples.old - 3) * (4 * W.price)) }
{
    let mut at = 3;
    // What a turn leaves stands in other registers: after two the compiler moves none of them back.
    'pairs: while samples.len() - at >= 2 {
        samples[at - 3] = machines.turn(samples[at], steps);
        at += 1;
        samples[at - 3] = machines.turn(samples[at], steps);
        at += 1;
    }
    if at < samples.len() {
        samples[at - 3] = machines.turn(samples[at], steps);
    }
}
