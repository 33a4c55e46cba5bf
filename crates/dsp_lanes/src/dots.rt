ghost use Rattle.std.specs.Prelude.{◌≡◌, ◌<◌, ◌*ℤ◌, length, map};
ghost use Rattle.dsp_defs.specs.Numbers.{wrap};
ghost use Rattle.dsp_defs.specs.Formats.{accumulator};
ghost use Rattle.dsp_defs.specs.Signal.{sample, sum_below};
ghost use Rattle.dsp_lanes.specs.Turns.{RisesWithin, lane_turns};

use crate::dot_form::DotForm;
use dsp_defs::Steps;
use dsp_sat::Sample;
use std::sync::ledger::Ledger;

/// The sum of the products, a group a turn and then one after another.
#[inline(always)]
pub(crate) fn dot_groups<T: Sample, F: DotForm<T>, M: Ledger>(
    taps: &[T],
    window: &[T],
    steps: &mut Steps<M>,
) -> T::Acc
    requires some { 0 < F.size }
    requires width { F.width ≡ accumulator T.format }
    requires same { length window.now ≡ length taps.now }
    ensures sum { T.total result ≡ wrap (accumulator T.format)
        (sum_below (length taps.now) (λ k.
        sample (map T.number taps.now) k *ℤ sample (map T.number window.now) k)) }
    ensures steps { RisesWithin steps.old steps.new (length taps.now)
        (lane_turns F.size (length taps.now)) }
{
    let size = F::size();
    let mut sums = F::no_sums();
    let mut at = 0;
    'groups: while taps.len() - at >= size {
        sums = F::add_products(sums, taps, window, at);
        steps.count(size as u64, 1);
        at += size;
    }
    let mut sum = F::total(sums);
    'rest: while at < taps.len() {
        let product = T::product(taps[at], window[at], steps);
        sum = T::accumulate(sum, product);
        at += 1;
    }
    sum
}
