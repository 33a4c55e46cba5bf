ghost use Rattle.std.specs.Prelude.{◌≡◌, length, map, IfOk, IsTrue, IsFalse};
ghost use Rattle.dsp_matrix.specs.Groups.{Group, IsGrouped, given_group, given_groups, given_count};
ghost use Rattle.dsp_matrix.specs.Groups.{product_count, RisesJust};
ghost use Rattle.dsp_defs.specs.declared.script.Block.{Block};

use dsp_defs::{Block, Steps};
use dsp_sat::Sample;
use std::alloc::{AllocError, Global};
use std::sync::ledger::Ledger;

/// The work of a block on one whole group of samples after another.
pub trait GroupWork<T: Sample> {
    ghost block: { Self → Block };

    // The blocks whose work it is.
    ghost IsOf: { Block → Type 0 };

    ghost group: { Block → Group };

    /// The work of the block. All its memory is taken here.
    fn of_block(alloc: Global, from: &Block) -> Result<Self, AllocError>
        requires { IsOf from.now }
        ensures { IfOk result (λ w. block w ≡ from.now) };

    /// How many samples a group takes.
    fn taken(&self) -> usize
        requires { IsOf (block self.now) }
        ensures { result ≡ (group (block self.now)).taken };

    /// How many samples a whole group becomes.
    fn given(&self) -> usize
        requires { IsOf (block self.now) }
        ensures { result ≡ (group (block self.now)).given };

    /// Writes what a whole group becomes.
    fn transform<L: Ledger>(&self, samples: &[T], out: &mut [T], steps: &mut Steps<L>)
        requires work { IsOf (block self.now) }
        requires taken { length samples.now ≡ (group (block self.now)).taken }
        requires given { length out.old ≡ (group (block self.now)).given }
        ensures out { map T.number out.new ≡ given_group (group (block self.now))
            (map T.number samples.now) }
        ensures steps { RisesJust steps.old steps.new (group (block self.now)).products };

    /// Transforms all whole groups of the input at once where the work can, and answers whether it did.
    fn transform_at_once<L: Ledger>(
        &self,
        input: &[T],
        output: &mut [T],
        steps: &mut Steps<L>,
    ) -> bool
        requires work { IsOf (block self.now) }
        requires room { length output.old ≡ given_count (group (block self.now)) (length input.now) }
        ensures out { IsTrue result → map T.number output.new ≡ given_groups (group (block self.now))
            (map T.number input.now) }
        ensures steps { IsTrue result → RisesJust steps.old steps.new
            (product_count (group (block self.now)) (length input.now)) }
        ensures output { IsFalse result → output.new ≡ output.old }
        ensures uncounted { IsFalse result → steps.new ≡ steps.old };

    ghost grouped: { (b : Block) → IsOf b → IsGrouped T.format b (group b) };
}
