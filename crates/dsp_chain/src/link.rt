ghost use Rattle.std.specs.Prelude.{◌≡◌, ◌≤◌, ◌<◌, ◌^◌, IfOk};
ghost use Rattle.std.specs.Option.{option_map};
ghost use Rattle.dsp_defs.specs.Kept.{kept_count, place_of};
ghost use Rattle.dsp_defs.specs.Shape.{whole_frames, window_end};
ghost use Rattle.dsp_defs.specs.declared.fault.WindowFault.{WindowFault};
ghost use Rattle.dsp_shape.specs.FrameRule.{rule_of, gathers};
ghost use Rattle.dsp_chain.specs.Link.{IsLink};
ghost use Rattle.dsp_chain.specs.Counting.{frames_of};

use crate::signal::Signal;
use dsp_defs::WindowFault;
use dsp_shape::{FrameRule, KeptRule};
use dsp_unit::Unit;
use std::alloc::{AllocError, Global};
use std::marker::Model;

/// A unit with the samples that it wrote last, and the rules by which it counts frames and numbers.
#[derive(Drop)]
pub struct Link<S: Unit + Drop> {
    pub(crate) unit: S,
    pub(crate) written: Vec<i32>,
    frame_rule: FrameRule,
    kept_rule: KeptRule,
}

impl<S: Unit + Drop> Model for Link<S> {
    ghost use Rattle.std.specs.Prelude.{vec_len};
    ghost use Rattle.dsp_unit.specs.Unit.{UnitState};
    ghost use Rattle.dsp_chain.specs.Link.{IsLink};

    ghost Value = { UnitState };

    ghost view = { λ l. S.unit l.unit };

    ghost invariant = { λ l. IsLink l.frame_rule l.kept_rule (vec_len l.written) (S.unit l.unit) };
}

impl<S: Unit + Drop> Link<S> {
    /// A unit with its rules, and with room for what it writes, so many samples.
    pub fn new(
        alloc: Global,
        unit: S,
        frame_rule: FrameRule,
        kept_rule: KeptRule,
        room: usize,
    ) -> Result<Self, AllocError>
        requires { IsLink frame_rule kept_rule room (S.unit unit) }
        ensures { IfOk result (λ l. l ≡ S.unit unit) }
    {
        let written = vec![in alloc; 0; room]?;
        Ok(Link {
            unit,
            written,
            frame_rule,
            kept_rule,
        })
    }

    /// The frames that it gives of so many of such a signal.
    pub fn gives(&self, signal: Signal, frames: u64) -> u64
        requires taken { frames < 2 ^ 62 }
        requires given { whole_frames self.now.block frames < 2 ^ 62 }
        ensures { result ≡ frames_of signal self.now.block frames }
    {
        match signal {
            Signal::Whole => self.frame_rule.whole(frames),
            Signal::Live => self.frame_rule.live(frames),
        }
    }

    /// Whether it gathers what comes.
    pub fn gathers(&self) -> bool
        ensures { result ≡ gathers (rule_of self.now.block) }
    {
        self.frame_rule.gathers()
    }

    /// Its window, where that ends past the convolution.
    pub fn window(&self, frames: u64) -> Option<WindowFault>
        requires { frames < 2 ^ 62 }
        ensures { option_map (λ (fault : WindowFault). (fault.end, fault.length)) result
            ≡ window_end self.now.block frames }
    {
        self.frame_rule.window(frames)
    }

    /// How many numbers it keeps of so many frames.
    pub fn count(&self, frames: u64) -> u128
        requires { frames < 2 ^ 62 }
        ensures count { result ≡ kept_count self.now.format self.now.channels self.now.block frames }
        ensures few { result ≤ 2 ^ 73 }
    {
        self.kept_rule.count(frames)
    }

    /// The least number of frames of which it keeps such numbers as of so many.
    pub fn place(&self, frames: u64) -> u64
        requires { frames < 2 ^ 62 }
        ensures { result ≡ place_of self.now.block frames }
    {
        self.kept_rule.place(frames)
    }
}
