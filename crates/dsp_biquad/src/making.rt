ghost use Rattle.std.specs.Prelude.{◌≡◌, ◌≤◌, ◌*◌, ◌%◌, Err, Ok, IfOk, MatchOption};
ghost use Rattle.dsp_biquad.specs.Making.{cascade_fault, coefficients_fault, shift_fault};

use dsp_defs::{MAX_SECTIONS, MakeFault};
use dsp_filter::{check_block, check_multiple};

/// Refuses a count of numbers that is not that of 1..64 sections of `size`.
pub fn check_coefficients(count: usize, size: usize) -> Result<(), MakeFault>
    requires some { 1 ≤ size }
    requires few { size ≤ 6 }
    ensures { MatchOption (coefficients_fault size count) (result ≡ Ok tt) (λ e. result ≡ Err e) }
{
    check_multiple(count, size, MAX_SECTIONS * size)
}

/// Refuses a post shift that is too great.
pub fn check_shift(post_shift: u8, greatest: u8) -> Result<(), MakeFault>
    ensures { MatchOption (shift_fault greatest post_shift) (result ≡ Ok tt) (λ e. result ≡ Err e) }
{
    if post_shift > greatest {
        return Err(MakeFault::Range {
            value: i128::from(post_shift),
        });
    }
    Ok(())
}

/// Refuses the first fault of what a cascade is made of: so many numbers for sections of `size`, a post
/// shift and the greatest block.
pub(crate) fn check_cascade(
    count: usize,
    size: usize,
    post_shift: u8,
    greatest: u8,
    block: usize,
) -> Result<(), MakeFault>
    requires some { 1 ≤ size }
    requires few { size ≤ 6 }
    ensures fault { MatchOption (cascade_fault size greatest count post_shift block)
        (result ≡ Ok tt) (λ e. result ≡ Err e) }
    ensures sound { IfOk result (λ _. (count % size ≡ 0) × (count ≤ 64 * size)
        × (post_shift ≤ greatest)) }
{
    check_coefficients(count, size)?;
    check_shift(post_shift, greatest)?;
    check_block(block)
}
