use crate::FrameWork;
use dsp_defs::{Block, Fmt, MAX_SAMPLES, Measure, Steps};
use dsp_unit::Unit;
use std::alloc::{AllocError, Global};
use std::marker::Model;
use std::sync::ledger::Ledger;

/// A block without memory at its place, on all channels of a frame.
#[derive(Drop)]
pub struct Memoryless<W: FrameWork + Drop> {
    work: W,
    format: Fmt,
    channels: usize,
    capacity: usize,
    ended: bool,
}

impl<W: FrameWork + Drop> Model for Memoryless<W> {
    ghost use Rattle.std.specs.Prelude.{◌≤◌, ◌*◌, [], false};
    ghost use Rattle.dsp_defs.specs.Grammar.{Suits};
    ghost use Rattle.dsp_unit.specs.Unit.{UnitState};
    ghost use Rattle.dsp_defs.specs.declared.limits.TheConstants.{MAX_SAMPLES};

    ghost Value = { UnitState };

    ghost view = { λ u. record {
      block = W.block u.work;
      format = u.format;
      channels = u.channels;
      capacity = u.capacity;
      kept = [];
      tail = [];
      banked = false;
      ended = u.ended;
    } };

    ghost invariant = { λ u.
        (Suits (record { format = u.format; channels = u.channels }) (W.block u.work))
        × (1 ≤ u.channels) × (u.capacity * u.channels ≤ MAX_SAMPLES) };
}

impl<W: FrameWork + Drop> Memoryless<W> {
    ghost use Rattle.std.specs.Prelude.{◌≡◌, ◌≤◌, ◌*◌, ◌↔◌, ℕ, ℤ, List, [], IfOk, IsFalse};
    ghost use Rattle.dsp_defs.specs.Kept.{Fits, FitsAfter, place_of};
    ghost use Rattle.dsp_defs.specs.Grammar.{Suits};
    ghost use Rattle.dsp_unit.specs.Unit.{IsNew, Restores, measures_of};

    /// A unit of the block that has taken nothing, for at most `frames` frames a call; all its memory is
    /// taken here.
    pub fn new(
        alloc: Global,
        block: &Block,
        format: Fmt,
        channels: u8,
        frames: usize,
    ) -> Result<Self, AllocError>
        requires block { W.IsOf block.now }
        requires suits { Suits (record { format = format; channels = channels }) block.now }
        requires channels { 1 ≤ channels }
        requires frames { 1 ≤ frames }
        requires samples { frames * channels ≤ MAX_SAMPLES }
        ensures { IfOk result (IsNew block.now format channels frames) }
    {
        Ok(Memoryless {
            work: W::of_block(alloc, block)?,
            format,
            channels: usize::from(channels),
            capacity: frames,
            ended: false,
        })
    }

    /// It keeps and measures nothing of what it took.
    fn keeps_nothing(&self)
        ensures kept { self.now.kept ≡ [] }
        ensures fits { (numbers : List ℤ)
            → Fits self.now.format self.now.channels self.now.block numbers ↔ (numbers ≡ []) }
        ensures after { FitsAfter self.now.format self.now.channels self.now.block 0 [] }
        ensures place { (n : ℕ) → place_of self.now.block n ≡ 0 }
        ensures restores { (numbers : List ℤ) → IsFalse self.now.ended
            → Fits self.now.format self.now.channels self.now.block numbers
            → Restores self.now self.now numbers }
        ensures measures { (number : ℕ) → measures_of number self.now ≡ [] }
    {
        let _work = &self.work;
    }
}

impl<W: FrameWork + Drop> Unit for Memoryless<W> {
    ghost unit = { λ u. u };

    fn feed<L: Ledger>(&mut self, frames: &[i32], out: &mut [i32], steps: &mut Steps<L>) -> usize {
        self.work
            .feed(self.format, self.channels, frames, out, steps)
    }

    fn finish<L: Ledger>(&mut self, _out: &mut [i32], _steps: &mut Steps<L>) -> usize {
        self.ended = true;
        0
    }

    fn kept_count(&self) -> usize {
        self.keeps_nothing();
        0
    }

    fn keep(&self, _out: &mut [i64]) {
        self.keeps_nothing();
    }

    fn place(&self, numbers: &[i64]) -> Option<u64> {
        self.keeps_nothing();
        if numbers.is_empty() { Some(0) } else { None }
    }

    fn restore(&mut self, _numbers: &[i64]) {
        self.keeps_nothing();
    }

    fn measures(&self) -> usize {
        self.keeps_nothing();
        0
    }

    fn measure(&self, _number: u8, _index: usize) -> Option<Measure> {
        self.keeps_nothing();
        None
    }
}
