ghost use Rattle.std.specs.Prelude.{◌≡◌, ◌≤◌, ◌+◌, ◌-◌, ◌*◌, ◌-ℤ◌, ◌*ℤ◌, ◌++◌, ℕ, ℤ, List, [], length, map};
ghost use Rattle.dsp_defs.specs.Numbers.{wrap};
ghost use Rattle.dsp_defs.specs.Formats.{word};
ghost use Rattle.dsp_defs.specs.Adaptive.{lms_close, step_size, weight_after};
ghost use Rattle.dsp_defs.specs.Counts.{Rises};
ghost use Rattle.dsp_defs.specs.Signal.{sample, sum_below, values};
ghost use Rattle.dsp_defs.specs.Streaming.{last_of};
ghost use Rattle.dsp_lanes.specs.Turns.{RisesWithin};
ghost use Rattle.dsp_adapt.specs.LmsState.{Adapts, inputs_of, pairs};

use crate::LmsSample;
use dsp_defs::Steps;
use dsp_lanes::{LaneSample, Lanes, update_weights};
use dsp_sat::product;
use std::sync::ledger::Ledger;

/// The output and the error of one sample, the last of a window of as many samples as there are
/// weights. Then the weights are updated.
fn adapt<T: LmsSample + LaneSample<L>, const L: usize, M: Ledger>(
    post_shift: u8,
    mu: T,
    weights: &mut [T],
    window: &[T],
    reference: T,
    steps: &mut Steps<M>,
) -> (T, T)
    requires { length window.now ≡ length weights.old }
    ensures output { T.number result.0 ≡ lms_close T.format post_shift
        (sum_below (length weights.old) (λ j.
        sample (map T.number weights.old) j *ℤ sample (map T.number window.now) j)) }
    ensures error { T.number result.1 ≡ wrap (word T.format) (T.number reference -ℤ T.number result.0) }
    ensures weights { map T.number weights.new ≡ values (length weights.old) (λ j.
        weight_after T.format (step_size T.format (T.number mu) (T.number result.1))
        (sample (map T.number weights.old) j) (sample (map T.number window.now) j)) }
    ensures steps { RisesWithin steps.old steps.new (2 * length weights.old + 1)
        (2 * length weights.old + 1) }
{
    let sum = Lanes::<T, L>::dot(weights, window, steps);
    let output = T::closed(sum, post_shift);
    let error = T::error(reference, output);
    let change = product(error, mu, steps);
    let alpha = T::step_size(change);
    update_weights(alpha, window, weights, steps);
    (output, error)
}

/// Writes the output and the error of each sample of a window behind its first T-1, and updates the
/// T weights after each. The weights stand from `w_{T-1}` to `w_0`.
pub(crate) fn adapt_block<T: LmsSample + LaneSample<L>, const L: usize, M: Ledger>(
    post_shift: u8,
    mu: T,
    weights: &mut [T],
    window: &[T],
    references: &[T],
    outputs: &mut [T],
    errors: &mut [T],
    steps: &mut Steps<M>,
)
    requires some { 1 ≤ length weights.old }
    requires window { length window.now + 1 ≡ length references.now + length weights.old }
    requires outputs { length outputs.old ≡ length references.now }
    requires errors { length errors.old ≡ length references.now }
    ensures adapts { (taps inputs : List ℤ) (x : List (ℤ × ℤ)) → length taps ≡ length weights.old
        → length inputs ≡ length references.now
        → map T.number window.now ≡ last_of (length taps - 1) (inputs_of x) ++ inputs
        → Adapts T.format post_shift (T.number mu) taps x [] (map T.number weights.old) [] []
        → Adapts T.format post_shift (T.number mu) taps x
        (pairs inputs (map T.number references.now)) (map T.number weights.new)
        (map T.number outputs.new) (map T.number errors.new) }
    ensures steps { RisesWithin steps.old steps.new
        (length references.now * (2 * length weights.old + 1))
        (length references.now * (2 * length weights.old + 1)) }
{
    let count = weights.len();
    for (i, reference) in references.iter().enumerate() {
        let seen = &window[i..i + count];
        let (output, error) = adapt::<T, L, M>(post_shift, mu, weights, seen, *reference, steps);
        outputs[i] = output;
        errors[i] = error;
    }
}
