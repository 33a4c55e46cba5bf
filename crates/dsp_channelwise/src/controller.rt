//! The controller.
#![tactic(auto, using(crate::proofs::Gains::controls))]

ghost use Rattle.std.specs.Prelude.{◌≡◌, ◌≢◌, ◌+◌, ◌*◌, ◌≤◌, ◌^◌, All, FitsSigned, IfOk, length, nat_abs};
ghost use Rattle.dsp_defs.specs.Adaptive.{pid, pid_close, pid_gains, pid_output};
ghost use Rattle.dsp_defs.specs.Formats.{word};
ghost use Rattle.dsp_defs.specs.declared.format.Fmt.TheVariants.{Q7};
ghost use Rattle.dsp_channelwise.specs.Recursions.{gains_of};

use crate::newest::Weighted;
use dsp_defs::{Fmt, Steps};
use dsp_exact::{Recurrence, add, back, outputs, saturate, sum, sum_below};
use dsp_sat::{floor_shift, wrap32, wrap64};
use std::alloc::{AllocError, Global};
use std::sync::ledger::Ledger;

/// The gains A0, A1 and A2: sat(kp+ki+kd), sat(-(2*kd+kp)), kd, and in Q31 step by step.
fn gains_by(format: Fmt, kp: i32, ki: i32, kd: i32) -> [i32; 3]
    ensures { gains_of result ≡ pid_gains format kp ki kd }
{
    let (p, i, d) = (i128::from(kp), i128::from(ki), i128::from(kd));
    match format {
        Fmt::Q31 => [
            add(format, add(format, kp, ki), kd),
            wrap32(-i128::from(add(format, add(format, kd, kd), kp))),
            kd,
        ],
        _ => [
            saturate(format, p + i + d),
            saturate(format, -sum(d + d, p)),
            kd,
        ],
    }
}

/// A sum and the value before it as a sample.
fn pid_close(format: Fmt, sum: i128, y1: i32) -> i32
    requires wide { format ≢ Q7 }
    requires small { nat_abs sum ≤ 2 ^ 100 }
    ensures value { result ≡ pid_close format sum y1 }
    ensures fits { FitsSigned (word format) result }
{
    let y1 = i128::from(y1);
    match format {
        Fmt::Q31 => wrap32((i128::from(wrap64(sum)) >> 31) + y1),
        _ => saturate(Fmt::Q15, floor_shift(sum + y1 * 32768, 15)),
    }
}

/// y from A0*x + A1*x1 + A2*x2 and y1.
#[derive(Clone, Copy)]
struct Controller {
    format: Fmt,
    gains: [i32; 3],
    ghost wide: { format ≢ Q7 },
}

impl Recurrence for Controller {
    type In = i32;

    type Out = i32;

    ghost next = { λ r. pid_output r.format (gains_of r.gains) };

    ghost IsValue = { λ r y. FitsSigned (word r.format) y };

    ghost cost = { λ r. 3 };

    fn next<L: Ledger>(&self, x: &[i32], y: &[i32], steps: &mut Steps<L>) -> i32 {
        let terms = Weighted { w: &self.gains, x };
        let sum = sum_below(3, &terms, steps);
        pid_close(self.format, sum, back(y, 0))
    }
}

/// The controller of a whole signal, as many values as x has samples, by its proportional, integral and
/// derivative gain; each in the format of the samples. The source is `arm_pid_q15` and `arm_pid_q31` of
/// CMSIS-DSP.
pub fn pid<L: Ledger>(
    alloc: Global,
    format: Fmt,
    kp: i32,
    ki: i32,
    kd: i32,
    x: &[i32],
    steps: &mut Steps<L>,
) -> Result<Vec<i32>, AllocError>
    requires wide { format ≢ Q7 }
    ensures values { IfOk result (λ y. y.items ≡ pid format kp ki kd x.now) }
    ensures fits { IfOk result (λ y. All (FitsSigned (word format)) y.items) }
    ensures products { steps.new.multiplies ≤ steps.old.multiplies + length x.now * 3 }
{
    let controller = Controller {
        format,
        gains: gains_by(format, kp, ki, kd),
    };
    outputs(alloc, &controller, x, steps)
}
