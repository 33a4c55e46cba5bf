ghost use Rattle.std.specs.Prelude.{◌≡◌, ◌≤◌, ◌*◌, ◌^◌, ◌↔◌, IsTrue, length};
ghost use Rattle.dsp_defs.specs.declared.limits.TheConstants.{MAX_BLOCKS};
ghost use Rattle.dsp_unit.specs.Unit.{most_kept};
ghost use Rattle.dsp_defs.specs.Kept.{kept_count_of_chain};
ghost use Rattle.dsp_unit.specs.Line.{Place, InLine, AllRun, AllFew, blocks_of};
ghost use Rattle.dsp_chain.specs.Restored.{kept_by, FitsUnits, AllRestores};

use crate::link::Link;
use crate::signal::Signal;
use dsp_unit::Unit;

/// How many numbers the units of a line keep.
pub fn count_kept<S: Unit + Drop>(links: &[Link<S>]) -> usize
    requires few { length links.now ≤ MAX_BLOCKS }
    ensures count { result ≡ length (kept_by links.now) }
    ensures few { result ≤ most_kept * length links.now }
{
    let Some((link, behind)) = links.split_first() else {
        return 0;
    };
    link.unit.kept_count() + count_kept(behind)
}

/// How many numbers the units of a line keep of so many frames that come to it.
pub fn count_line<S: Unit + Drop>(links: &[Link<S>], frames: u64) -> u128
    requires frames { AllFew (blocks_of links.now) frames }
    requires few { length links.now ≤ MAX_BLOCKS }
    ensures count { (p : Place) → InLine p links.now
        → result ≡ kept_count_of_chain p.format p.channels (blocks_of links.now) frames }
    ensures few { result ≤ 2 ^ 73 * length links.now }
{
    let Some((link, behind)) = links.split_first() else {
        return 0;
    };
    link.count(frames) + count_line(behind, link.gives(Signal::Live, frames))
}

/// Writes the numbers that the units of a line keep, one after another.
pub fn keep_line<S: Unit + Drop>(links: &[Link<S>], out: &mut [i64])
    requires running { AllRun links.now }
    requires length { length out.old ≡ length (kept_by links.now) }
    ensures { out.new ≡ kept_by links.now }
{
    let Some((link, behind)) = links.split_first() else {
        return;
    };
    let (here, later) = out.split_at_mut(link.unit.kept_count());
    link.unit.keep(here);
    keep_line(behind, later);
}

/// Whether the units of a line can keep these numbers, one after another, where so many frames come to the line.
pub fn fits_line<S: Unit + Drop>(links: &[Link<S>], frames: u64, numbers: &[i64]) -> bool
    requires { AllFew (blocks_of links.now) frames }
    ensures { IsTrue result ↔ FitsUnits links.now frames numbers.now }
{
    let Some((link, behind)) = links.split_first() else {
        return numbers.is_empty();
    };
    let count = link.count(frames);
    if count > numbers.len() as u128 {
        return false;
    }
    let (here, later) = numbers.split_at(count as usize);
    let Some(place) = link.unit.place(here) else {
        return false;
    };
    if place != link.place(frames) {
        return false;
    }
    fits_line(behind, link.gives(Signal::Live, frames), later)
}

/// Gives the units of a line these numbers, one after another, where so many frames came to the line.
pub fn restore_line<S: Unit + Drop>(links: &mut [Link<S>], frames: u64, numbers: &[i64])
    requires running { AllRun links.old }
    requires frames { AllFew (blocks_of links.old) frames }
    requires fits { FitsUnits links.old frames numbers.now }
    ensures { AllRestores links.old links.new frames numbers.now }
{
    let Some((link, behind)) = links.split_first_mut() else {
        return;
    };
    let count = link.count(frames) as usize;
    let given = link.gives(Signal::Live, frames);
    let (here, later) = numbers.split_at(count);
    link.unit.restore(here);
    restore_line(behind, given, later);
}
