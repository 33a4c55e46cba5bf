ghost use Rattle.std.specs.Prelude.{◌≡◌, ◌≤◌, ◌+◌, ◌*◌, All, length, map, pos};
ghost use Rattle.dsp_defs.specs.Numbers.{wrap, w32};
ghost use Rattle.dsp_defs.specs.Signal.{sample, values};
ghost use Rattle.dsp_defs.specs.Sums.{sparse_close};
ghost use Rattle.dsp_lanes.specs.Turns.{RisesWithin, lane_turns};
ghost use Rattle.dsp_fir.specs.Delays.{delayed_sum, sparse_rows};

use dsp_defs::Steps;
use dsp_lanes::{LaneSample, Lanes, q31_fit};
use dsp_sat::Sample;
use std::sync::ledger::Ledger;

/// Adds the terms of tap after tap to empty sums, each from the place in the window that its delay names.
fn add_taps<T: LaneSample<L>, const L: usize, M: Ledger>(
    taps: &[T],
    delays: &[u32],
    past: usize,
    window: &[T],
    sums: &mut [i32],
    steps: &mut Steps<M>,
)
    requires same { length delays.now ≡ length taps.now }
    requires within { All (λ d. d ≤ past) delays.now }
    requires window { length window.now ≡ past + length sums.old }
    requires empty { sums.old ≡ values (length sums.old) (λ _. pos 0) }
    ensures sums { sums.new ≡ values (length sums.old) (λ i.
        wrap w32 (delayed_sum T.format (map T.number taps.now) delays.now past
        (map T.number window.now) (length taps.now) i)) }
    ensures steps { RisesWithin steps.old steps.new (length taps.now * length sums.old)
        (length taps.now * lane_turns L (length sums.old)) }
{
    let count = sums.len();
    for (k, tap) in taps.iter().enumerate() {
        let from = past - delays[k] as usize;
        Lanes::<T, L>::delayed(*tap, &window[from..from + count], sums, steps);
    }
}

/// Writes each sum as a sample.
fn close_sums<T: Sample>(sums: &[i32], out: &mut [T])
    requires { length out.old ≡ length sums.now }
    ensures { map T.number out.new ≡ values (length out.old) (λ i.
        sparse_close T.format (sample sums.now i)) }
{
    q31_fit(sums);
    for (i, value) in out.iter_mut().enumerate() {
        *value = T::sparse_close(sums[i]);
    }
}

/// Writes the outputs of a sparse filter over a window of its past and a block, by way of a row of
/// at least as many sums.
pub fn delayed_rows<T: LaneSample<L>, const L: usize, M: Ledger>(
    taps: &[T],
    delays: &[u32],
    past: usize,
    window: &[T],
    sums: &mut [i32],
    out: &mut [T],
    steps: &mut Steps<M>,
)
    requires same { length delays.now ≡ length taps.now }
    requires within { All (λ d. d ≤ past) delays.now }
    requires window { length window.now ≡ past + length out.old }
    requires sums { length out.old ≤ length sums.old }
    ensures out { map T.number out.new ≡ sparse_rows T.format
        (map T.number taps.now) delays.now past (map T.number window.now) (length out.old) }
    ensures steps { RisesWithin steps.old steps.new (length taps.now * length out.old)
        (length taps.now * lane_turns L (length out.old)) }
{
    let sums = &mut sums[..out.len()];
    sums.fill(0);
    add_taps::<T, L, M>(taps, delays, past, window, sums, steps);
    close_sums::<T>(sums, out);
}
