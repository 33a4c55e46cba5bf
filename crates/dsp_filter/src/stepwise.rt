ghost use Rattle.std.specs.Prelude.{◌≡◌, ◌≤◌, ◌*◌, ◌↔◌, ℕ, ℤ, List, [], length, map, IfOk, IsTrue};
ghost use Rattle.dsp_defs.specs.Counts.{Rises};
ghost use Rattle.dsp_unit.specs.Filter.{IsStepwise, of_channel};
ghost use Rattle.dsp_defs.specs.Kept.{kept_of_channel, kinds_by, Each, IsOfKind};
ghost use Rattle.dsp_defs.specs.Streaming.{GoesOn};
ghost use Rattle.dsp_defs.specs.declared.script.Block.{Block};

use dsp_defs::{Block, Steps};
use dsp_sat::Sample;
use std::alloc::{AllocError, Global};
use std::sync::ledger::Ledger;

/// The work of a block that gives one value for each sample of a channel, has no tail, and keeps as
/// many numbers at all times.
pub trait Stepwise<T: Sample> {
    ghost block: { Self → Block };

    ghost kept: { Self → List ℤ };

    // The blocks whose work it is.
    ghost IsOf: { Block → Type 0 };

    // The products for a sample.
    ghost price: { Block → ℕ };

    /// The work of the block, where nothing was taken. All its memory is taken here.
    fn of_block(alloc: Global, from: &Block) -> Result<Self, AllocError>
        requires { IsOf from.now }
        ensures block { IfOk result (λ w. block w ≡ from.now) }
        ensures kept { IfOk result (λ w. kept w ≡ kept_of_channel T.format from.now []) };

    /// Writes over each sample the value that the block gives for it.
    fn run<L: Ledger>(&mut self, samples: &mut [T], steps: &mut Steps<L>)
        ensures block { block self.new ≡ block self.old }
        ensures goes { GoesOn (of_channel T.format (block self.old))
            (kept_of_channel T.format (block self.old)) (kept self.old) (kept self.new)
            (map T.number samples.old) (map T.number samples.new) }
        ensures size { length (kept self.new) ≡ length (kept self.old) }
        ensures steps { Rises steps.old steps.new (length samples.old * price (block self.old))
            (length samples.old * price (block self.old)) };

    /// How many numbers it keeps from call to call.
    fn kept_count(&self) -> usize
        ensures count { result ≡ length (kept self.now) }
        ensures few { result ≤ 4294967295 };

    /// Writes the numbers that it keeps.
    fn keep(&self, out: &mut [i64])
        requires { length out.old ≡ length (kept self.now) }
        ensures { out.new ≡ kept self.now };

    /// Whether it can keep these numbers: as many, each of its width.
    fn fits(&self, numbers: &[i64]) -> bool
        ensures { IsTrue result ↔ Each IsOfKind (kinds_by T.format (block self.now) 0) numbers.now };

    /// Keeps these numbers from now on, and no others.
    fn restore(&mut self, numbers: &[i64])
        requires { Each IsOfKind (kinds_by T.format (block self.old) 0) numbers.now }
        ensures block { block self.new ≡ block self.old }
        ensures kept { kept self.new ≡ numbers.now };

    ghost stepwise: { (b : Block) → IsOf b → IsStepwise T.format b (price b) };
}
