//! What filters of all kinds that are a `StepFilter` have in common: they keep numbers, and go on from them.
ghost use Rattle.std.specs.Prelude.{◌≤◌, IsFalse, length};

use crate::same::same_count;
use dsp_defs::Steps;
use dsp_filter::{StepFilter, Stepwise};
use dsp_sat::Sample;
use std::fmt::Debug;
use std::process::Abort;
use std::sync::ledger::Ledger;

/// Feeds a filter, and compares its output, of which the rest stays as it was.
pub fn gives<T: Sample + PartialEq + Debug, W: Stepwise<T> + Drop, M: Ledger>(
    rt: &impl Abort,
    filter: &mut StepFilter<T, W>,
    input: &[T],
    output: &mut [T],
    wanted: &[T],
    steps: &mut Steps<M>,
)
    requires running { IsFalse filter.old.ended }
    requires block { length input.now ≤ filter.old.capacity }
    ensures { IsFalse filter.new.ended }
{
    assert_holds!(rt; input.len() <= output.len());
    assert_same!(rt; filter.process(input, output, steps), input.len());
    assert_same!(rt; &*output, wanted);
}

/// Feeds a filter, and compares its output and the numbers that it keeps then.
pub fn keeps<T: Sample + PartialEq + Debug, W: Stepwise<T> + Drop, M: Ledger>(
    rt: &impl Abort,
    filter: &mut StepFilter<T, W>,
    input: &[T],
    output: &mut [T],
    wanted: &[T],
    kept: &mut [i64],
    numbers: &[i64],
    steps: &mut Steps<M>,
)
    requires running { IsFalse filter.old.ended }
    requires block { length input.now ≤ filter.old.capacity }
{
    assert_same!(rt; filter.room(input.len()), input.len());
    gives(rt, filter, input, output, wanted, steps);
    same_count(rt, filter.kept_count(), kept.len());
    filter.keep(kept);
    assert_same!(rt; &*kept, numbers);
}

/// Lets a filter go on from such numbers, compares its output, and ends it: it has no tail.
pub fn goes_on<T: Sample + PartialEq + Debug, W: Stepwise<T> + Drop, M: Ledger>(
    rt: &impl Abort,
    filter: &mut StepFilter<T, W>,
    numbers: &[i64],
    input: &[T],
    output: &mut [T],
    wanted: &[T],
    steps: &mut Steps<M>,
)
    requires running { IsFalse filter.old.ended }
    requires block { length input.now ≤ filter.old.capacity }
{
    assert_holds!(rt; filter.fits(numbers));
    filter.restore(numbers);
    gives(rt, filter, input, output, wanted, steps);
    assert_same!(rt; (filter.finish(output, steps), filter.is_ended()), (0, true));
    assert_same!(rt; &*output, wanted);
}

/// Compares which lists of numbers fit a filter.
pub fn fits<T: Sample, W: Stepwise<T> + Drop>(
    rt: &impl Abort,
    filter: &StepFilter<T, W>,
    cases: &[(&[i64], bool)],
) {
    for (numbers, wanted) in cases {
        assert_same!(rt; filter.fits(numbers), *wanted);
    }
}
