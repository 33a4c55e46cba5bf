//! How many frames stand at the places of a chain.
ghost use Rattle.std.specs.Prelude.{◌≡◌, ◌+◌, ◌≤◌, ◌<◌, IfNone, IfSome};
ghost use Rattle.std.specs.Option.{option_map};
ghost use Rattle.dsp_defs.specs.Shape.{frames_at_correlate, frames_behind, gathered, held, whole_frames};
ghost use Rattle.dsp_defs.specs.Shape.{live_frames, window_at};
ghost use Rattle.dsp_defs.specs.declared.fault.GatherFull.{GatherFull};
ghost use Rattle.dsp_defs.specs.declared.fault.WindowFault.{WindowFault};
ghost use Rattle.dsp_defs.specs.declared.limits.TheConstants.{MAX_GATHERED};
ghost use Rattle.dsp_unit.specs.Line.{blocks_of, AllFew};
ghost use Rattle.dsp_chain.specs.Counting.{frames_of};

use crate::link::Link;
use crate::signal::Signal;
use dsp_defs::{GatherFull, MAX_GATHERED, WindowFault};
use dsp_unit::Unit;

/// The frames of such a signal at the place of the correlation, or 0 without one.
pub fn gathered<S: Unit + Drop>(links: &[Link<S>], signal: Signal, frames: u64) -> u64
    requires { AllFew (blocks_of links.now) frames }
    ensures { result ≡ frames_at_correlate (frames_of signal) (blocks_of links.now) frames }
{
    let Some((link, behind)) = links.split_first() else {
        return 0;
    };
    if link.gathers() {
        return frames;
    }
    gathered(behind, signal, link.gives(signal, frames))
}

/// The fault of an input that goes on from `before` frames to `frames`, where the correlation would
/// gather too many.
pub fn gather_fault<S: Unit + Drop>(
    links: &[Link<S>],
    before: u64,
    frames: u64,
) -> Option<GatherFull>
    requires more { before ≤ frames }
    requires few { AllFew (blocks_of links.now) frames }
    ensures none { IfNone result (gathered (blocks_of links.now) frames ≤ MAX_GATHERED) }
    ensures full { IfSome result (λ _. MAX_GATHERED < gathered (blocks_of links.now) frames) }
    ensures held { IfSome result (λ (fault : GatherFull). fault.held
        ≡ held (blocks_of links.now) before) }
    ensures more { IfSome result (λ (fault : GatherFull). fault.held + fault.more
        ≡ gathered (blocks_of links.now) frames) }
{
    let all = gathered(links, Signal::Whole, frames);
    if all <= MAX_GATHERED as u64 {
        return None;
    }
    let held = gathered(links, Signal::Live, before);
    Some(GatherFull {
        held,
        more: all - held,
    })
}

/// The frames that come of so many of such a signal behind all blocks.
fn frames_behind<S: Unit + Drop>(links: &[Link<S>], signal: Signal, frames: u64) -> u64
    requires { AllFew (blocks_of links.now) frames }
    ensures { result ≡ frames_behind (frames_of signal) (blocks_of links.now) frames }
{
    let Some((link, behind)) = links.split_first() else {
        return frames;
    };
    frames_behind(behind, signal, link.gives(signal, frames))
}

/// The frames of the tail of a whole input of so many.
pub fn tail_frames<S: Unit + Drop>(links: &[Link<S>], frames: u64) -> u64
    requires { AllFew (blocks_of links.now) frames }
    ensures { frames_behind live_frames (blocks_of links.now) frames + result
        ≡ frames_behind whole_frames (blocks_of links.now) frames }
{
    frames_behind(links, Signal::Whole, frames) - frames_behind(links, Signal::Live, frames)
}

/// The first partial convolution whose window ends past the full one when so many frames are the
/// whole input.
pub fn window_fault<S: Unit + Drop>(links: &[Link<S>], frames: u64) -> Option<WindowFault>
    requires { AllFew (blocks_of links.now) frames }
    ensures { option_map (λ (fault : WindowFault). (fault.end, fault.length)) result
        ≡ window_at (blocks_of links.now) frames }
{
    let Some((link, behind)) = links.split_first() else {
        return None;
    };
    if let Some(fault) = link.window(frames) {
        return Some(fault);
    }
    window_fault(behind, link.gives(Signal::Whole, frames))
}
