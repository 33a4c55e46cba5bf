use crate::PidSample;
use crate::pid_machine::PidMachine;
use dsp_defs::{Block, Steps};
use dsp_filter::{Stepwise, are_samples, number_of, run_machine, write_three};
use dsp_sat::Sample;
use std::alloc::{AllocError, Global};
use std::marker::Model;
use std::sync::ledger::Ledger;

/// What a controller does with one sample after another.
#[derive(Drop)]
pub struct PidWork<T: PidSample> {
    kp: T,
    ki: T,
    kd: T,
    machine: PidMachine<T>,
}

impl<T: PidSample> Model for PidWork<T> {
    ghost use Rattle.std.specs.Prelude.{◌≡◌};
    ghost use Rattle.dsp_defs.specs.Adaptive.{pid_gains};
    ghost use Rattle.dsp_adapt.specs.PidState.{PidState, pid_acts};

    ghost Value = { PidState };

    ghost view = { λ p. record {
      kp = T.number p.kp;
      ki = T.number p.ki;
      kd = T.number p.kd;
      x1 = T.number p.machine.x1;
      x2 = T.number p.machine.x2;
      y1 = T.number p.machine.y1;
    } };

    ghost invariant = { λ p.
        pid_acts T.format (record {
          a0 = T.number p.machine.a0;
          a1 = T.number p.machine.a1;
          a2 = T.number p.machine.a2;
        }) ≡ pid_acts T.format
        (pid_gains T.format (T.number p.kp) (T.number p.ki) (T.number p.kd)) };
}

impl<T: PidSample> PidWork<T> {
    ghost use Rattle.std.specs.Prelude.{◌≡◌};
    ghost use Rattle.dsp_defs.specs.Adaptive.{pid_gains};
    ghost use Rattle.dsp_adapt.specs.PidState.{new_pid};

    /// The work of a controller that has taken nothing.
    pub fn new(kp: T, ki: T, kd: T) -> Self
        ensures { result ≡ new_pid (T.number kp) (T.number ki) (T.number kd) }
    {
        let (a0, a1, a2) = T::gains(kp, ki, kd);
        PidWork {
            kp,
            ki,
            kd,
            machine: PidMachine {
                a0,
                a1,
                a2,
                x1: T::zero(),
                x2: T::zero(),
                y1: T::zero(),
            },
        }
    }

    /// The gains A0, A1 and A2.
    pub fn gains(&self) -> (T, T, T)
        ensures { (record {
          a0 = T.number result.0;
          a1 = T.number result.1;
          a2 = T.number result.2;
        }) ≡ pid_gains T.format self.now.kp self.now.ki self.now.kd }
    {
        T::gains(self.kp, self.ki, self.kd)
    }
}

impl<T: PidSample> Stepwise<T> for PidWork<T> {
    ghost use Rattle.dsp_adapt.specs.PidState.{block_of, kept_of, IsPidIn};
    ghost use Rattle.dsp_adapt.specs.Laws.{pid-stepwise};

    ghost block = { block_of };

    ghost kept = { kept_of };

    ghost IsOf = { IsPidIn T.format };

    ghost price = { λ b. 3 };

    ghost stepwise = { pid-stepwise T.format };

    fn of_block(_alloc: Global, from: &Block) -> Result<Self, AllocError> {
        let Block::Pid { kp, ki, kd } = from else {
            unreachable!()
        };
        Ok(PidWork::new(T::of_number(*kp), T::of_number(*ki), T::of_number(*kd)))
    }

    fn run<L: Ledger>(&mut self, samples: &mut [T], steps: &mut Steps<L>) {
        let mut machine = self.machine;
        run_machine(&mut machine, samples, steps);
        self.machine = machine;
    }

    fn kept_count(&self) -> usize {
        3
    }

    fn keep(&self, out: &mut [i64]) {
        let machine = &self.machine;
        write_three(
            out,
            number_of(machine.x1),
            number_of(machine.x2),
            number_of(machine.y1),
        );
    }

    fn fits(&self, numbers: &[i64]) -> bool {
        are_samples::<T>(numbers, 3)
    }

    fn restore(&mut self, numbers: &[i64]) {
        self.machine.x1 = T::of_number(numbers[0] as i32);
        self.machine.x2 = T::of_number(numbers[1] as i32);
        self.machine.y1 = T::of_number(numbers[2] as i32);
    }
}
