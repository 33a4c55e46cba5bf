ghost use Rattle.std.specs.Prelude.{◌≡◌, ◌≤ℤ◌, Err, Ok, All, IfOk, OnOk, MatchOption, map, pos};
ghost use Rattle.dsp_fir.specs.Delays.{delays_fault, greatest_delay};

use dsp_defs::{MAX_DELAY, MakeFault};
use std::alloc::{AllocError, Global};

/// Refuses the first delay over 65,535 samples.
pub fn check_delays(delays: &[u32]) -> Result<(), MakeFault>
    ensures fault { MatchOption (delays_fault delays.now) (result ≡ Ok tt) (λ e. result ≡ Err e) }
    ensures some { OnOk result (All (λ d. pos 0 ≤ℤ d) (map pos delays.now)) }
    ensures few { OnOk result (All (λ d. d ≤ℤ pos MAX_DELAY) (map pos delays.now)) }
{
    for delay in delays {
        if *delay > MAX_DELAY {
            return Err(MakeFault::Range {
                value: i128::from(*delay),
            });
        }
    }
    Ok(())
}

/// The greatest delay, in samples.
pub fn greatest(delays: &[u32]) -> u32
    ensures { result ≡ greatest_delay delays.now }
{
    let mut greatest = 0;
    for delay in delays {
        greatest = greatest.max(*delay);
    }
    greatest
}

/// The delays of a list of numbers.
pub fn delays_of(alloc: Global, numbers: &[i32]) -> Result<Vec<u32>, AllocError>
    requires { All (λ d. pos 0 ≤ℤ d) numbers.now }
    ensures { IfOk result (λ v. map pos v.items ≡ numbers.now) }
{
    let mut delays = Vec::with_capacity(alloc, numbers.len())?;
    for number in numbers {
        delays.push(*number as u32)?;
    }
    Ok(delays)
}
