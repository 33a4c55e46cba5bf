ghost use Rattle.std.specs.Prelude.{◌≤◌, ◌*◌, IfOk};
ghost use Rattle.dsp_defs.specs.Grammar.{Suits};
ghost use Rattle.dsp_unit.specs.Unit.{IsMade};

use crate::unit::Unit;
use dsp_defs::{Block, Fmt, MAX_SAMPLES};
use std::alloc::{AllocError, Global};

/// A unit that can be that of any block of a script.
pub trait AnyUnit: Unit {
    /// A unit of the block that has taken nothing, for frames of `channels` samples of the format, at most
    /// `frames` of them a call. Where it is banked, a biquad works on all channels of a frame at once. All
    /// its memory is taken here; it errs only where memory is wanting.
    fn of_block(
        alloc: Global,
        block: &Block,
        format: Fmt,
        channels: u8,
        frames: usize,
        banked: bool,
    ) -> Result<Self, AllocError>
        requires suits { Suits (record { format = format; channels = channels }) block.now }
        requires channels { 1 ≤ channels }
        requires frames { 1 ≤ frames }
        requires samples { frames * channels ≤ MAX_SAMPLES }
        ensures { IfOk result (λ u. IsMade banked block.now format channels frames (Self.unit u)) };
}
