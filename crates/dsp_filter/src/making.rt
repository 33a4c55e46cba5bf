ghost use Rattle.std.specs.Prelude.{◌≡◌, ◌≤◌, Err, Ok, MatchOption};
ghost use Rattle.dsp_filter.specs.Making.{block_fault, multiple_fault, taps_fault};

use dsp_defs::{MAX_SAMPLES, MAX_TAPS, MakeFault};

/// Refuses a count of taps that is not in 1..`MAX_TAPS`.
pub fn check_taps(taps: usize) -> Result<(), MakeFault>
    ensures { MatchOption (taps_fault taps) (result ≡ Ok tt) (λ e. result ≡ Err e) }
{
    if taps == 0 || taps > MAX_TAPS {
        return Err(MakeFault::Length {
            taps: taps as u64,
            factor: 1,
        });
    }
    Ok(())
}

/// Refuses a count of numbers that is not in 1..`most`, or no multiple of `factor`.
pub fn check_multiple(count: usize, factor: usize, most: usize) -> Result<(), MakeFault>
    requires { 1 ≤ factor }
    ensures { MatchOption (multiple_fault most factor count) (result ≡ Ok tt) (λ e. result ≡ Err e) }
{
    if count == 0 || count > most || count % factor != 0 {
        return Err(MakeFault::Length {
            taps: count as u64,
            factor: factor as u64,
        });
    }
    Ok(())
}

/// Refuses a greatest block length that is not in 1..`MAX_SAMPLES` samples.
pub fn check_block(block: usize) -> Result<(), MakeFault>
    ensures { MatchOption (block_fault block) (result ≡ Ok tt) (λ e. result ≡ Err e) }
{
    if block == 0 || block > MAX_SAMPLES {
        return Err(MakeFault::Range {
            value: block as i128,
        });
    }
    Ok(())
}
