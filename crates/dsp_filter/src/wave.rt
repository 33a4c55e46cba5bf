//! Four machines one after another over a block, each a sample behind the one before it.
ghost use Rattle.std.specs.Prelude.{◌≡◌, ◌≤◌, ◌+◌, ◌-◌, ◌*◌, ◌∷◌, ◌++◌, [], ℤ, List, length, map, take, drop};
ghost use Rattle.std.specs.Prelude.{IfSome};
ghost use Rattle.dsp_defs.specs.Counts.{Rises};
ghost use Rattle.dsp_filter.specs.Waves.{Flows, Four, Passes, four_of, wave_of};

use crate::turning::run_turns;
use crate::{InFlight, Machine, Turning};
use dsp_defs::Steps;
use dsp_sat::Sample;
use std::sync::ledger::Ledger;

/// A machine of which four may be able to work in the lanes of a vector.
pub trait WaveMachine<T: Sample>: Machine<T> + Copy {
    /// Four machines and the values between them, in lanes.
    type Lanes: Turning<T>;

    /// The machines in lanes, where they can work so.
    fn pack(machines: &InFlight<T, Self>) -> Option<Self::Lanes>
        ensures wave { IfSome result (λ l. Self.Lanes.wave l ≡ wave_of Self.acts Self.kept T.number
            machines.now) }
        ensures whole { IfSome result (λ l. Self.Lanes.IsWhole l) };

    fn unpack(lanes: &Self::Lanes) -> InFlight<T, Self>
        requires { Self.Lanes.IsWhole lanes.now }
        ensures { wave_of Self.acts Self.kept T.number result ≡ Self.Lanes.wave lanes.now };

    ghost same_price: { Self.Lanes.price ≡ Self.price };
}

/// Takes the first three samples: the first machine all of them, the second what it gave for two, and the
/// third what that gave for one.
#[inline(always)]
fn fill<T: Sample, M: Machine<T>, L: Ledger>(
    machines: &mut InFlight<T, M>,
    first: T,
    second: T,
    third: T,
    steps: &mut Steps<L>,
)
    ensures flows { Flows (four_of M.acts M.kept machines.old)
        (wave_of M.acts M.kept T.number machines.new)
        (T.number first ∷ T.number second ∷ T.number third ∷ []) [] }
    ensures steps { Rises steps.old steps.new (6 * M.price) (6 * M.price) }
{
    let one = machines.first.step(first, steps);
    let two = machines.first.step(second, steps);
    machines.to_second = machines.first.step(third, steps);
    let early = machines.second.step(one, steps);
    machines.to_third = machines.second.step(two, steps);
    machines.to_fourth = machines.third.step(early, steps);
}

/// Each machine takes what was given to it, and the fourth gives the last three values.
#[inline(always)]
fn drain<T: Sample, M: Machine<T>, L: Ledger>(
    machines: &mut InFlight<T, M>,
    steps: &mut Steps<L>,
) -> (T, T, T)
    ensures passes { (from : Four) (xs zs : List ℤ)
        → Flows from (wave_of M.acts M.kept T.number machines.old) xs zs
        → Passes from (four_of M.acts M.kept machines.new) xs
        (zs ++ T.number result.0 ∷ T.number result.1 ∷ T.number result.2 ∷ []) }
    ensures steps { Rises steps.old steps.new (6 * M.price) (6 * M.price) }
{
    let first = machines.fourth.step(machines.to_fourth, steps);
    let late = machines.third.step(machines.to_third, steps);
    let second = machines.fourth.step(late, steps);
    let last = machines.second.step(machines.to_second, steps);
    let last = machines.third.step(last, steps);
    let third = machines.fourth.step(last, steps);
    (first, second, third)
}

/// The turns, in lanes where the machines can work so.
#[inline(always)]
fn run_waves<T: Sample, M: WaveMachine<T>, L: Ledger>(
    machines: &mut InFlight<T, M>,
    samples: &mut [T],
    steps: &mut Steps<L>,
)
    requires { 3 ≤ length samples.old }
    ensures flows { (from : Four) → Flows from (wave_of M.acts M.kept T.number machines.old)
        (map T.number (take 3 samples.old)) []
        → Flows from (wave_of M.acts M.kept T.number machines.new) (map T.number samples.old)
        (map T.number (take (length samples.old - 3) samples.new)) }
    ensures rest { length samples.new ≡ length samples.old }
    ensures steps { Rises steps.old steps.new ((length samples.old - 3) * (4 * M.price))
        ((length samples.old - 3) * (4 * M.price)) }
{
    let Some(mut lanes) = M::pack(machines) else {
        run_turns(machines, samples, steps);
        return;
    };
    run_turns(&mut lanes, samples, steps);
    *machines = M::unpack(&lanes);
}

/// Writes over each sample the value that four machines give for it, one after another.
pub(crate) fn run_four<T: Sample, M: WaveMachine<T>, L: Ledger>(
    machines: &mut InFlight<T, M>,
    samples: &mut [T],
    steps: &mut Steps<L>,
)
    requires { 3 ≤ length samples.old }
    ensures passes { Passes (four_of M.acts M.kept machines.old) (four_of M.acts M.kept machines.new)
        (map T.number samples.old) (map T.number samples.new) }
    ensures steps { Rises steps.old steps.new (length samples.old * (4 * M.price))
        (length samples.old * (4 * M.price)) }
{
    fill(machines, samples[0], samples[1], samples[2], steps);
    run_waves(machines, samples, steps);
    let last = samples.len() - 3;
    let (first, second, third) = drain(machines, steps);
    samples[last] = first;
    samples[last + 1] = second;
    samples[last + 2] = third;
}
