ghost use Rattle.std.specs.Prelude.{◌≡◌, ◌+◌, ◌*◌, length, map, flat_map};
ghost use Rattle.dsp_defs.specs.Counts.{Rises};
ghost use Rattle.dsp_defs.specs.Streaming.{GoesOn, chained};

use crate::wave::run_four;
use crate::{InFlight, Machine, WaveMachine, run_machine};
use dsp_defs::Steps;
use dsp_sat::Sample;
use std::sync::ledger::Ledger;

/// Two machines, of which the second takes what the first gives.
#[derive(Clone, Copy)]
struct Pair<A, B> {
    first: A,
    second: B,
}

impl<T: Sample, A: Machine<T>, B: Machine<T>> Machine<T> for Pair<A, B> {
    ghost use Rattle.std.specs.Prelude.{◌+◌, ◌++◌};
    ghost use Rattle.dsp_defs.specs.Streaming.{then};
    ghost use Rattle.dsp_unit.proofs.GoingOn.{then-size};

    ghost acts = { λ p. then (A.acts p.first) (B.acts p.second) };

    ghost kept = { λ p. A.kept p.first ++ B.kept p.second };

    ghost price = { A.price + B.price };

    ghost size = { λ p x. then-size (A.acts p.first) (B.acts p.second) _ _ (A.size p.first)
        (B.size p.second) x };

    #[inline(always)]
    fn step<L: Ledger>(&mut self, x: T, steps: &mut Steps<L>) -> T {
        let between = self.first.step(x, steps);
        self.second.step(between, steps)
    }
}

/// Writes over each sample the value that the machines give for it, one after another. Four of them
/// work side by side, or two, since each has to wait for its own last value.
pub fn run_chain<T: Sample, M: WaveMachine<T>, L: Ledger>(
    machines: &mut [M],
    samples: &mut [T],
    steps: &mut Steps<L>,
)
    ensures acts { chained (map M.acts machines.new) ≡ chained (map M.acts machines.old) }
    ensures goes { GoesOn (chained (map M.acts machines.old)).gives
        (chained (map M.acts machines.old)).keeps (flat_map M.kept machines.old)
        (flat_map M.kept machines.new) (map T.number samples.old) (map T.number samples.new) }
    ensures steps { Rises steps.old steps.new (length samples.old * (length machines.old * M.price))
        (length samples.old * (length machines.old * M.price)) }
{
    let mut at = 0;
    'fours: while samples.len() >= 3 && machines.len() - at >= 4 {
        let mut four = InFlight {
            first: machines[at],
            second: machines[at + 1],
            third: machines[at + 2],
            fourth: machines[at + 3],
            to_second: T::zero(),
            to_third: T::zero(),
            to_fourth: T::zero(),
        };
        run_four(&mut four, samples, steps);
        machines[at] = four.first;
        machines[at + 1] = four.second;
        machines[at + 2] = four.third;
        machines[at + 3] = four.fourth;
        at += 4;
    }
    'pairs: while machines.len() - at >= 2 {
        let mut pair = Pair {
            first: machines[at],
            second: machines[at + 1],
        };
        run_machine(&mut pair, samples, steps);
        machines[at] = pair.first;
        machines[at + 1] = pair.second;
        at += 2;
    }
    if at < machines.len() {
        let mut last = machines[at];
        run_machine(&mut last, samples, steps);
        machines[at] = last;
    }
}
