ghost use Rattle.std.specs.Prelude.{◌≡◌, ◌≤◌, ◌+◌, ◌*◌, All, IfSome, length, take, slice_get};
ghost use Rattle.dsp_defs.specs.declared.limits.TheConstants.{MAX_BLOCKS, MAX_CHANNELS};
ghost use Rattle.dsp_unit.specs.Unit.{measures_of};
ghost use Rattle.dsp_unit.specs.Line.{Place, Passes, InLine, AllRun, AllSpent, FirstSpent, IsFed, IsFinished};
ghost use Rattle.dsp_unit.specs.Line.{measured_by};
ghost use Rattle.dsp_chain.specs.Line.{MayTake, MayFinish, given_by};

use crate::link::Link;
use dsp_defs::{Measure, Steps};
use dsp_unit::Unit;
use std::sync::ledger::Ledger;

/// Answers how many samples were given, and writes them where they are the frames.
fn write_given(given: Option<usize>, frames: &[i32], out: &mut [i32]) -> usize
    requires within { length (given_by given frames.now out.old) ≤ length out.old }
    requires written { IfSome given (λ count. count ≤ length out.old) }
    ensures within { result ≤ length out.old }
    ensures given { take result out.new ≡ given_by given frames.now out.old }
{
    let Some(count) = given else {
        out[..frames.len()].copy_from_slice(frames);
        return frames.len();
    };
    count
}

/// Feeds a line of units, and writes what the last one gives. It answers how many samples these are, or `None` where
/// the line gives the frames as they are.
pub fn feed_line<S: Unit + Drop, L: Ledger>(
    links: &mut [Link<S>],
    frames: &[i32],
    out: &mut [i32],
    steps: &mut Steps<L>,
) -> Option<usize>
    requires running { AllRun links.old }
    requires passes { MayTake links.old frames.now (length out.old) }
    ensures within { IfSome result (λ count. count ≤ length out.old) }
    ensures fed { (p : Place) → InLine p links.old → Passes p frames.now
        → IsFed p links.old links.new frames.now (given_by result frames.now out.new)
        steps.old steps.new }
{
    let (link, behind) = links.split_first_mut()?;
    if link.unit.pass(frames, steps) {
        return feed_line(behind, frames, out, steps);
    }
    if behind.is_empty() {
        return Some(link.unit.feed(frames, out, steps));
    }
    let count = link.unit.feed(frames, &mut link.written, steps);
    let written = &link.written[..count];
    let given = feed_line(behind, written, out, steps);
    Some(write_given(given, written, out))
}

/// Writes the next frames that come of the first unit's tail: none where it is spent.
fn finish_first<S: Unit + Drop, L: Ledger>(
    links: &mut [Link<S>],
    out: &mut [i32],
    steps: &mut Steps<L>,
) -> usize
    requires { MayFinish links.old (length out.old) }
    ensures within { result ≤ length out.old }
    ensures finished { (p : Place) → InLine p links.old
        → IsFinished p links.old links.new (take result out.new) steps.old steps.new }
    ensures spent { result ≡ 0 → FirstSpent links.new }
{
    let Some((link, behind)) = links.split_first_mut() else {
        return 0;
    };
    let count = link.unit.finish(&mut link.written, steps);
    if count == 0 {
        return 0;
    }
    let written = &link.written[..count];
    let fed = feed_line(behind, written, out, steps);
    let given = write_given(fed, written, out);
    if given > 0 {
        return given;
    }
    finish_first(links, out, steps)
}

/// Writes the next frames of the line's tail: none where it is spent.
pub fn finish_line<S: Unit + Drop, L: Ledger>(
    links: &mut [Link<S>],
    out: &mut [i32],
    steps: &mut Steps<L>,
) -> usize
    requires { MayFinish links.old (length out.old) }
    ensures within { result ≤ length out.old }
    ensures finished { (p : Place) → InLine p links.old
        → IsFinished p links.old links.new (take result out.new) steps.old steps.new }
    ensures spent { result ≡ 0 → AllSpent links.new }
{
    let given = finish_first(links, out, steps);
    if given > 0 {
        return given;
    }
    let Some((_spent, behind)) = links.split_first_mut() else {
        return 0;
    };
    finish_line(behind, out, steps)
}

/// How many measures a line of units has.
pub fn count_measures<S: Unit + Drop>(links: &[Link<S>]) -> usize
    requires few { length links.now ≤ MAX_BLOCKS }
    requires each { All (λ u. length (measures_of 0 u) ≤ MAX_CHANNELS) links.now }
    ensures count { result ≡ length (measured_by 1 links.now) }
    ensures few { result ≤ MAX_CHANNELS * length links.now }
{
    let Some((link, behind)) = links.split_first() else {
        return 0;
    };
    link.unit.measures() + count_measures(behind)
}

/// The measure of a line at this index, where there is one. The first unit has this number in the script.
pub fn find_measure<S: Unit + Drop>(links: &[Link<S>], number: u8, index: usize) -> Option<Measure>
    requires few { number + length links.now ≤ 255 }
    ensures { result ≡ slice_get (measured_by number links.now) index }
{
    let (link, behind) = links.split_first()?;
    let count = link.unit.measures();
    if index < count {
        return link.unit.measure(number, index);
    }
    find_measure(behind, number + 1, index - count)
}
