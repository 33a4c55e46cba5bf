ghost use Rattle.std.specs.Prelude.{◌≡◌, ◌≤◌, ℕ, Some, length, take, slice_get, IfSome, IsFalse, IsTrue};
ghost use Rattle.dsp_defs.specs.Block.{channels_after};
ghost use Rattle.dsp_defs.specs.Kept.{Fits, FitsAfter, place_of};
ghost use Rattle.dsp_unit.specs.Unit.{UnitState, frames_in, room_of, IsSignal, IsOutput, Accepts, Feeds};
ghost use Rattle.dsp_unit.specs.Unit.{Finishes, Restores, measures_of, most_frames, most_kept};

use dsp_defs::{Measure, Steps};
use std::sync::ledger::Ledger;

/// One block of a chain at its place, on all channels of a frame.
pub trait Unit {
    ghost unit: { Self → UnitState };

    /// Writes the next live frames, and answers the number of their samples.
    fn feed<L: Ledger>(&mut self, frames: &[i32], out: &mut [i32], steps: &mut Steps<L>) -> usize
        requires running { IsFalse (unit self.old).ended }
        requires signal { IsSignal (unit self.old).format (unit self.old).channels frames.now }
        requires capacity { length (frames_in (unit self.old).channels frames.now) ≤
            (unit self.old).capacity }
        requires accepts { Accepts (unit self.old)
            (length (frames_in (unit self.old).channels frames.now)) }
        requires room { room_of (unit self.old) ≤ length out.old }
        ensures running { IsFalse (unit self.new).ended }
        ensures within { result ≤ length out.old }
        ensures output { IsOutput (unit self.old)
            (most_frames (unit self.old).block (unit self.old).capacity) (take result out.new) }
        ensures fed { Feeds (unit self.old) (unit self.new)
            (frames_in (unit self.old).channels frames.now)
            (frames_in (channels_after (unit self.old).channels (unit self.old).block)
            (take result out.new)) steps.old steps.new };

    /// Takes the frames where it gives them as they are, and answers whether it did. Where it did not, nothing has
    /// changed, and they are still to be fed. A measure does, so that no frame is copied.
    fn pass<L: Ledger>(&mut self, frames: &[i32], steps: &mut Steps<L>) -> bool
        requires running { IsFalse (unit self.old).ended }
        requires signal { IsSignal (unit self.old).format (unit self.old).channels frames.now }
        requires capacity { length (frames_in (unit self.old).channels frames.now) ≤
            (unit self.old).capacity }
        requires accepts { Accepts (unit self.old)
            (length (frames_in (unit self.old).channels frames.now)) }
        ensures running { IsFalse (unit self.new).ended }
        ensures refused { IsFalse result
            → (unit self.new ≡ unit self.old) × (steps.new ≡ steps.old) }
        ensures output { IsTrue result → IsOutput (unit self.old)
            (most_frames (unit self.old).block (unit self.old).capacity) frames.now }
        ensures fed { IsTrue result → Feeds (unit self.old) (unit self.new)
            (frames_in (unit self.old).channels frames.now)
            (frames_in (channels_after (unit self.old).channels (unit self.old).block) frames.now)
            steps.old steps.new }
    {
        false
    }

    /// Writes the next frames of the tail, and answers the number of their samples: 0 where it is spent.
    fn finish<L: Ledger>(&mut self, out: &mut [i32], steps: &mut Steps<L>) -> usize
        requires room { room_of (unit self.old) ≤ length out.old }
        ensures within { result ≤ length out.old }
        ensures output { IsOutput (unit self.old)
            (most_frames (unit self.old).block (unit self.old).capacity) (take result out.new) }
        ensures finished { Finishes (unit self.old) (unit self.new)
            (frames_in (channels_after (unit self.old).channels (unit self.old).block)
            (take result out.new)) steps.old steps.new };

    /// How many numbers it keeps from call to call.
    fn kept_count(&self) -> usize
        ensures count { result ≡ length (unit self.now).kept }
        ensures few { result ≤ most_kept };

    /// Writes the numbers that it keeps.
    fn keep(&self, out: &mut [i64])
        requires running { IsFalse (unit self.now).ended }
        requires count { length out.old ≡ length (unit self.now).kept }
        ensures { out.new ≡ (unit self.now).kept };

    /// The least number of frames of which these can be the numbers that it keeps, if there is one.
    fn place(&self, numbers: &[i64]) -> Option<u64>
        ensures fits { IfSome result (λ n.
            FitsAfter (unit self.now).format (unit self.now).channels
            (unit self.now).block n numbers.now) }
        ensures least { (n : ℕ) → FitsAfter (unit self.now).format (unit self.now).channels
            (unit self.now).block n numbers.now
            → result ≡ Some (place_of (unit self.now).block n) };

    /// Keeps these numbers from now on, and no others.
    fn restore(&mut self, numbers: &[i64])
        requires running { IsFalse (unit self.old).ended }
        requires fits { Fits (unit self.old).format (unit self.old).channels
            (unit self.old).block numbers.now }
        ensures { Restores (unit self.old) (unit self.new) numbers.now };

    /// How many measures it has of what it took.
    fn measures(&self) -> usize
        ensures { result ≡ length (measures_of 0 (unit self.now)) };

    /// The measure at this index, where there is one, of the block with this number in the script.
    fn measure(&self, number: u8, index: usize) -> Option<Measure>
        ensures { result ≡ slice_get (measures_of number (unit self.now)) index };
}
