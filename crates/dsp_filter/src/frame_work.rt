ghost use Rattle.std.specs.Prelude.{◌≡◌, ◌≤◌, ◌+◌, ◌*◌, ℕ, length, take, IfOk};
ghost use Rattle.dsp_defs.specs.Block.{frames_in, given_frame, channels_after};
ghost use Rattle.dsp_defs.specs.Grammar.{Suits};
ghost use Rattle.dsp_unit.specs.Unit.{IsSignal, most_frames};
ghost use Rattle.dsp_defs.specs.declared.format.Fmt.{Fmt};
ghost use Rattle.dsp_defs.specs.declared.script.Block.{Block};
ghost use Rattle.dsp_unit.specs.Memoryless.{IsMemoryless};
ghost use Rattle.dsp_filter.specs.Memoryless.{Gives, price};

use dsp_defs::{Block, Fmt, Steps};
use std::alloc::{AllocError, Global};
use std::sync::ledger::Ledger;

/// The work of a block that gives a frame for each frame, of that frame alone.
pub trait FrameWork {
    ghost block: { Self → Block };

    // The blocks whose work it is.
    ghost IsOf: { Block → Type 0 };

    /// The work of a block. All its memory is taken here.
    fn of_block(alloc: Global, wanted: &Block) -> Result<Self, AllocError>
        requires { IsOf wanted.now }
        ensures { IfOk result (λ w. block w ≡ wanted.now) };

    /// Writes what it gives of the frames, one after the other, and answers the number of samples.
    fn feed<L: Ledger>(
        &self,
        format: Fmt,
        channels: usize,
        frames: &[i32],
        out: &mut [i32],
        steps: &mut Steps<L>,
    ) -> usize
        requires suits { Suits (record { format = format; channels = channels }) (block self.now) }
        requires some { 1 ≤ channels }
        requires signal { IsSignal format channels frames.now }
        requires room { length (frames_in channels frames.now) * channels_after channels
            (block self.now) ≤ length out.old }
        ensures within { result ≤ length out.old }
        ensures given { Gives format channels (block self.now) frames.now (take result out.new) }
        ensures multiplies { steps.new.multiplies ≡ steps.old.multiplies + length
            (frames_in channels frames.now) * price (block self.now) channels }
        ensures turns { steps.new.turns ≤ steps.old.turns + length
            (frames_in channels frames.now) * price (block self.now) channels };

    ghost memoryless: { (w : Self) (format : Fmt) (channels : ℕ)
        → IsMemoryless format channels (block w) (price (block w) channels)
        (given_frame format (block w)) };

    ghost as_many: { (w : Self) (n : ℕ) → most_frames (block w) n ≡ n };
}
