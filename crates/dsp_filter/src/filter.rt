ghost use Rattle.std.specs.Prelude.{◌≡◌, ◌≤◌, ◌<◌, ℕ, Some, length, map, take, IfOk, IfSome, IsFalse};
ghost use Rattle.dsp_defs.specs.Kept.{FitsChannel, place_of};
ghost use Rattle.dsp_defs.specs.Shape.{group_of};
ghost use Rattle.dsp_unit.specs.Filter.{FilterState, FilterAccepts, FilterFeeds, FilterFinishes};
ghost use Rattle.dsp_unit.specs.Filter.{FilterRestores, IsByChannel, IsNewFilter, filter_room};
ghost use Rattle.dsp_defs.specs.declared.script.Block.{Block};

use dsp_defs::{Block, MAX_SAMPLES, Steps};
use dsp_sat::Sample;
use std::alloc::{AllocError, Global};
use std::sync::ledger::Ledger;

/// A filter of one channel: it is fed with samples, call after call, and then gives its tail.
pub trait Filter<T: Sample> {
    ghost filter: { Self → FilterState };

    // The blocks whose filter it is.
    ghost IsOf: { Block → Type 0 };

    /// A filter of the block that has taken nothing, for at most `capacity` samples a call. All its
    /// memory is taken here; it errs only where memory is wanting.
    fn of_block(alloc: Global, block: &Block, capacity: usize) -> Result<Self, AllocError>
        requires block { IsOf block.now }
        requires some { 1 ≤ capacity }
        requires few { capacity ≤ MAX_SAMPLES }
        ensures { IfOk result (λ f. IsNewFilter block.now T.format capacity (filter f)) };

    /// Writes the next live values, and answers their number.
    fn process<L: Ledger>(&mut self, input: &[T], output: &mut [T], steps: &mut Steps<L>) -> usize
        requires running { IsFalse (filter self.old).ended }
        requires block { length input.now ≤ (filter self.old).capacity }
        requires accepts { FilterAccepts (filter self.old) (length input.now) }
        requires room { filter_room (filter self.old) ≤ length output.old }
        ensures running { IsFalse (filter self.new).ended }
        ensures within { result ≤ length output.old }
        ensures fed { FilterFeeds (filter self.old) (filter self.new) (map T.number input.now)
            (map T.number (take result output.new)) steps.old steps.new };

    /// Writes the next values of the tail, as many as there are and one call gives, and answers their
    /// number: 0 where it is spent.
    fn finish<L: Ledger>(&mut self, output: &mut [T], steps: &mut Steps<L>) -> usize
        requires room { filter_room (filter self.old) ≤ length output.old }
        ensures within { result ≤ length output.old }
        ensures finished { FilterFinishes (filter self.old) (filter self.new)
            (map T.number (take result output.new)) steps.old steps.new };

    /// How many numbers it keeps from call to call.
    fn kept_count(&self) -> usize
        ensures count { result ≡ length (filter self.now).kept }
        ensures few { result ≤ 4294967295 };

    /// Writes the numbers that it keeps.
    fn keep(&self, out: &mut [i64])
        requires running { IsFalse (filter self.now).ended }
        requires count { length out.old ≡ length (filter self.now).kept }
        ensures { out.new ≡ (filter self.now).kept };

    /// The least number of samples of which these can be the numbers that it keeps, if there is one.
    fn place(&self, numbers: &[i64]) -> Option<u64>
        ensures fits { IfSome result (λ n.
            FitsChannel (filter self.now).format (filter self.now).block n numbers.now) }
        ensures least { (n : ℕ) → FitsChannel (filter self.now).format
            (filter self.now).block n numbers.now
            → result ≡ Some (place_of (filter self.now).block n) };

    /// Keeps these numbers from now on, and no others.
    fn restore(&mut self, numbers: &[i64])
        requires running { IsFalse (filter self.old).ended }
        requires fits { (n : ℕ) × FitsChannel (filter self.old).format
            (filter self.old).block n numbers.now }
        ensures { FilterRestores (filter self.old) (filter self.new) numbers.now };

    ghost by_channel: { (block : Block) → IsOf block → IsByChannel T.format block };

    ghost groups: { (block : Block) → IsOf block → IfSome (group_of block) (λ g. 0 < g.0) };
}
