ghost use Rattle.std.specs.Prelude.{◌≡◌, ◌≤◌, ◌*◌, ◌%◌, Err, Ok, IfOk, MatchOption};
ghost use Rattle.dsp_defs.specs.declared.limits.TheConstants.{MAX_SAMPLES};
ghost use Rattle.dsp_bank.specs.Making.{bank_fault, channels_fault};

use dsp_biquad::{check_coefficients, check_shift};
use dsp_defs::{MAX_CHANNELS, MakeFault};
use dsp_filter::check_block;

/// Refuses a number of channels that is not in 1..`MAX_CHANNELS`.
pub(crate) fn check_channels(channels: u8) -> Result<(), MakeFault>
    ensures { MatchOption (channels_fault channels) (result ≡ Ok tt) (λ e. result ≡ Err e) }
{
    if channels == 0 || channels > MAX_CHANNELS {
        return Err(MakeFault::Range {
            value: i128::from(channels),
        });
    }
    Ok(())
}

/// Refuses the first fault of what a bank is made of: so many numbers for sections of `size`, a post
/// shift, channels and the greatest block.
pub(crate) fn check_bank(
    count: usize,
    size: usize,
    post_shift: u8,
    greatest: u8,
    channels: u8,
    block: usize,
) -> Result<(), MakeFault>
    requires some { 1 ≤ size }
    requires few { size ≤ 6 }
    ensures fault { MatchOption (bank_fault size greatest count post_shift channels block)
        (result ≡ Ok tt) (λ e. result ≡ Err e) }
    ensures sound { IfOk result (λ _. (count % size ≡ 0) × (count ≤ 64 * size)
        × (post_shift ≤ greatest) × (1 ≤ channels) × (block ≤ MAX_SAMPLES)) }
{
    check_coefficients(count, size)?;
    check_shift(post_shift, greatest)?;
    check_channels(channels)?;
    check_block(block)
}
