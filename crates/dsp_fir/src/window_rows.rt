ghost use Rattle.std.specs.Prelude.{◌≡◌, ◌≤◌, ◌+◌, ◌*◌, ◌++◌, ℤ, List, length, map, IfOk, IfSome};
ghost use Rattle.dsp_defs.specs.Streaming.{Continues};
ghost use Rattle.dsp_lanes.specs.Turns.{RisesWithin, lane_turns};
ghost use Rattle.dsp_unit.specs.Filter.{of_channel};
ghost use Rattle.dsp_defs.specs.Kept.{kept_of_channel};
ghost use Rattle.dsp_fir.specs.ByChannel.{IsWindowIn};
ghost use Rattle.dsp_fir.specs.WindowState.{block_of, past_count, tap_count};

use crate::delayed_rows::delayed_rows;
use crate::making::greatest;
use dsp_defs::Steps;
use dsp_lanes::{LaneSample, Lanes};
use dsp_sat::Sample;
use std::alloc::{AllocError, Global};
use std::marker::Model;
use std::sync::ledger::Ledger;

/// The delays of a sparse filter's taps, in samples, and room for its sums.
#[derive(Drop)]
pub struct Delays {
    delays: Vec<u32>,
    sums: Vec<i32>,
}

impl Model for Delays {
    ghost use Rattle.std.specs.Prelude.{vec_len};
    ghost use Rattle.dsp_fir.specs.WindowState.{DelayState};

    ghost Value = { DelayState };

    ghost view = { λ d. record { delays = d.delays.items; room = vec_len d.sums } };
}

impl Delays {
    ghost use Rattle.std.specs.Prelude.{◌≡◌, IfOk};

    /// For blocks of at most `room` samples.
    pub fn new(alloc: Global, delays: Vec<u32>, room: usize) -> Result<Self, AllocError>
        ensures { IfOk result (λ d. d ≡ record { delays = delays.items; room = room }) }
    {
        let sums = vec![in alloc; 0; room]?;
        Ok(Delays { delays, sums })
    }
}

/// How many samples of the past a filter reads: one less than it has taps, or its greatest delay.
pub fn past_of<T: Sample>(taps: &[T], delays: &Option<Delays>) -> usize
    requires { IsWindowIn T.format (block_of (map T.number taps.now) delays.now) }
    ensures { result ≡ past_count (block_of (map T.number taps.now) delays.now) }
{
    match delays {
        None => taps.len() - 1,
        Some(Delays { delays, .. }) => greatest(delays) as usize,
    }
}

/// Writes a value for each sample of a window behind those of the past: those of a sparse filter where
/// there are delays, else of a FIR filter.
pub fn window_rows<T: LaneSample<L>, const L: usize, M: Ledger>(
    taps: &[T],
    delays: &mut Option<Delays>,
    window: &[T],
    out: &mut [T],
    steps: &mut Steps<M>,
)
    requires block { IsWindowIn T.format (block_of (map T.number taps.now) delays.old) }
    requires room { IfSome delays.old (λ d. length out.old ≤ d.room) }
    requires window { length window.now
        ≡ past_count (block_of (map T.number taps.now) delays.old) + length out.old }
    ensures delays { delays.new ≡ delays.old }
    ensures values { (x taken : List ℤ) → length taken ≡ length out.old
        → map T.number window.now
        ≡ kept_of_channel T.format (block_of (map T.number taps.now) delays.old) x ++ taken
        → Continues (of_channel T.format (block_of (map T.number taps.now) delays.old))
        x taken (map T.number out.new) }
    ensures steps { RisesWithin steps.old steps.new (length taps.now * length out.old)
        (length taps.now * lane_turns L (length out.old)) }
{
    match delays {
        None => Lanes::<T, L>::rows(taps, window, out, steps),
        Some(Delays { delays, sums }) => {
            let past = window.len() - out.len();
            delayed_rows::<T, L, M>(taps, delays, past, window, sums.as_mut_slice(), out, steps);
        }
    }
}
