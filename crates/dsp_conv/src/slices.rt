ghost use Rattle.std.specs.Prelude.{◌≡◌, ◌≤◌, ◌<◌, ◌+◌, ◌-◌, ◌*◌, ◌^◌, ◌↔◌, length, map, max, IfErr, OnOk};
ghost use Rattle.std.specs.Prelude.{IsErr};
ghost use Rattle.dsp_defs.specs.Sums.{conv, conv_partial, correlate};
ghost use Rattle.dsp_defs.specs.declared.fault.WindowFault.{WindowFault};
ghost use Rattle.dsp_conv.specs.Sums.{RisesAtMost};

use crate::sums::{convolution_values, correlation_values};
use dsp_defs::{Steps, WindowFault};
use dsp_lanes::OwnLanes;
use dsp_sat::Sample;
use std::sync::ledger::Ledger;

/// The full convolution of two lists of samples: `arm_conv_q7`, `arm_conv_q15`, `arm_conv_q31`.
/// Neither is empty, and the output has one value less than both have samples.
pub fn conv_slices<T: OwnLanes, M: Ledger>(a: &[T], b: &[T], out: &mut [T], steps: &mut Steps<M>)
    requires a { 1 ≤ length a.now }
    requires b { 1 ≤ length b.now }
    requires out { length out.old + 1 ≡ length a.now + length b.now }
    ensures out { map T.number out.new ≡ conv T.format (map T.number b.now) (map T.number a.now) }
    ensures steps { RisesAtMost steps.old steps.new (length out.old * length b.now) }
{
    convolution_values(a, b, 0, out, steps);
}

/// The values of the full convolution of two lists of samples from the one with index `first` on, as
/// many as the output has: `arm_conv_partial_q7`, `arm_conv_partial_q15`, `arm_conv_partial_q31`.
/// Neither list is empty, and the lengths add up within 64 bits, as all do of samples in memory.
/// `WindowFault` where they would end past the full convolution; then the
/// output stays.
pub fn conv_partial_slices<T: OwnLanes, M: Ledger>(
    a: &[T],
    b: &[T],
    first: u64,
    out: &mut [T],
    steps: &mut Steps<M>,
) -> Result<(), WindowFault>
    requires a { 1 ≤ length a.now }
    requires b { 1 ≤ length b.now }
    requires first { first ≤ u32.MAX }
    requires lengths { length a.now + length b.now < 2 ^ 64 }
    requires end { first + length out.old < 2 ^ 64 }
    ensures past { IsErr result ↔ length a.now + length b.now - 1 < first + length out.old }
    ensures end { IfErr result (λ (fault : WindowFault). fault.end ≡ first + length out.old) }
    ensures length { IfErr result (λ (fault : WindowFault). fault.length
        ≡ length a.now + length b.now - 1) }
    ensures refused { IfErr result (λ _. out.new ≡ out.old) }
    ensures unmade { IfErr result (λ _. steps.new ≡ steps.old) }
    ensures out { OnOk result (map T.number out.new ≡ conv_partial T.format first (length out.old)
        (map T.number b.now) (map T.number a.now)) }
    ensures steps { RisesAtMost steps.old steps.new (length out.old * length b.now) }
{
    let end = first + out.len() as u64;
    let length = (a.len() + b.len() - 1) as u64;
    if end > length {
        return Err(WindowFault { end, length });
    }
    convolution_values(a, b, first as usize, out, steps);
    Ok(())
}

/// The correlation of two lists of samples: `arm_correlate_q7`, `arm_correlate_q15`,
/// `arm_correlate_q31`. Neither is empty, and the output has one value less than twice the longer one.
pub fn correlate_slices<T: OwnLanes, M: Ledger>(
    a: &[T],
    b: &[T],
    out: &mut [T],
    steps: &mut Steps<M>,
)
    requires a { 1 ≤ length a.now }
    requires b { 1 ≤ length b.now }
    requires out { length out.old + 1 ≡ 2 * max (length a.now) (length b.now) }
    ensures out { map T.number out.new ≡ correlate T.format (map T.number b.now) (map T.number a.now) }
    ensures steps { RisesAtMost steps.old steps.new (length a.now * length b.now) }
{
    correlation_values(a, b, 0, out, steps);
}
