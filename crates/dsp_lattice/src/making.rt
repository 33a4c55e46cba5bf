ghost use Rattle.std.specs.Prelude.{◌≡◌, ◌≤◌, Err, Ok, MatchOption};
ghost use Rattle.dsp_lattice.specs.Making.{reflections_fault, ladder_fault};

use dsp_defs::{MAX_LATTICE_SECTIONS, MakeFault};

/// Refuses a count of reflection coefficients that is not in 1..255.
pub(crate) fn check_reflections(count: usize) -> Result<(), MakeFault>
    ensures { MatchOption (reflections_fault count) (result ≡ Ok tt) (λ e. result ≡ Err e) }
{
    if count == 0 || count > MAX_LATTICE_SECTIONS {
        return Err(MakeFault::Length {
            taps: count as u64,
            factor: 1,
        });
    }
    Ok(())
}

/// Refuses a count of ladder coefficients that is not one more than that of the sections.
pub(crate) fn check_ladder(sections: usize, count: usize) -> Result<(), MakeFault>
    requires { sections ≤ 255 }
    ensures { MatchOption (ladder_fault sections count) (result ≡ Ok tt) (λ e. result ≡ Err e) }
{
    let wanted = sections + 1;
    if count != wanted {
        return Err(MakeFault::Length {
            taps: count as u64,
            factor: wanted as u64,
        });
    }
    Ok(())
}
