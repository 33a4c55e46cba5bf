ghost use Rattle.std.specs.Prelude.{◌≡◌, ◌≤◌, ◌<◌, ◌*◌, ◌+◌, ◌/◌, ◌%◌, ◌≢◌, ℕ, length, map, IfOk};
ghost use Rattle.dsp_defs.specs.Signal.{sample};
ghost use Rattle.dsp_lanes.specs.Turns.{RisesWithin, lane_turns};
ghost use Rattle.dsp_rate.specs.InterpolateState.{phase_rows, sorted};

use dsp_defs::Steps;
use dsp_lanes::{LaneSample, Lanes};
use dsp_sat::Sample;
use std::alloc::{AllocError, Global};
use std::sync::ledger::Ledger;

/// The taps by phases: first those of phase 0, in the order in which a window shows its samples, then
/// those of phase 1, and so on.
pub(crate) fn sort_by_phase<T: Sample>(
    alloc: Global,
    factor: usize,
    taps: &[T],
) -> Result<Vec<T>, AllocError>
    requires factor { 1 ≤ factor }
    requires whole { length taps.now % factor ≡ 0 }
    ensures { IfOk result (λ v. map T.number v.items ≡ sorted factor (map T.number taps.now)) }
{
    let count = taps.len() / factor;
    let mut phases = Vec::with_capacity(alloc, taps.len())?;
    for i in 0..taps.len() {
        phases.push(taps[factor - 1 - i / count + i % count * factor])?;
    }
    Ok(phases)
}

/// Writes the values of one phase to their places: every `factor`-th, from the phase on.
pub(crate) fn write_phase<T: Sample>(row: &[T], factor: usize, phase: usize, out: &mut [T])
    requires phase { phase < factor }
    requires room { length out.old ≡ length row.now * factor }
    ensures written { (i : ℕ) → i < length row.now
        → sample (map T.number out.new) (i * factor + phase) ≡ sample (map T.number row.now) i }
    ensures others { (k : ℕ) → k % factor ≢ phase
        → sample (map T.number out.new) k ≡ sample (map T.number out.old) k }
{
    for (i, value) in row.iter().enumerate() {
        out[i * factor + phase] = *value;
    }
}

/// Writes the values of all phases for `n` samples over a window. `row` has room for those of one phase.
pub(crate) fn phase_rows<T: LaneSample<L>, const L: usize, M: Ledger>(
    phases: &[T],
    factor: usize,
    window: &[T],
    n: usize,
    row: &mut [T],
    out: &mut [T],
    steps: &mut Steps<M>,
)
    requires factor { 1 ≤ factor }
    requires taps { factor ≤ length phases.now }
    requires whole { length phases.now % factor ≡ 0 }
    requires window { length window.now + 1 ≡ n + length phases.now / factor }
    requires row { n ≤ length row.old }
    requires room { length out.old ≡ n * factor }
    ensures out { map T.number out.new ≡ phase_rows T.format factor (map T.number phases.now)
        (map T.number window.now) (length out.old) }
    ensures steps { RisesWithin steps.old steps.new (n * length phases.now)
        (length phases.now * lane_turns L n) }
{
    let count = phases.len() / factor;
    let row = &mut row[..n];
    for phase in 0..factor {
        let taps = &phases[phase * count..phase * count + count];
        Lanes::<T, L>::rows(taps, window, row, steps);
        write_phase(row, factor, phase, out);
    }
}
