ghost use Rattle.std.specs.Prelude.{◌≡◌, IfOk, pos, replicate};

use crate::measure_block::MeasureBlock;
use crate::parts::feed_parts;
use crate::places::place_parts;
use crate::results::result_of;
use dsp_defs::{Block, Fmt, MAX_SAMPLES, Measure, Steps};
use dsp_unit::Unit;
use std::alloc::{AllocError, Global};
use std::marker::Model;
use std::sync::ledger::Ledger;

/// A measure at its place, on all channels of a frame. It gives the frames as it takes them.
#[derive(Drop)]
pub struct MeasureUnit {
    measure: MeasureBlock,
    format: Fmt,
    channels: u8,
    capacity: usize,
    kept: Vec<i64>,
    ended: bool,
}

impl Model for MeasureUnit {
    ghost use Rattle.std.specs.Prelude.{[], false};
    ghost use Rattle.dsp_unit.specs.Unit.{UnitState};
    ghost use Rattle.dsp_measure.specs.Measures.{IsWhole, block_of};

    ghost Value = { UnitState };

    ghost view = { λ u. record {
      block = block_of u.measure;
      format = u.format;
      channels = u.channels;
      capacity = u.capacity;
      kept = u.kept.items;
      tail = [];
      banked = false;
      ended = u.ended;
    } };

    ghost invariant = { λ u. IsWhole u.format u.measure u.channels u.capacity u.kept.items };
}

/// So many zeros.
fn zeros(alloc: Global, count: usize) -> Result<Vec<i64>, AllocError>
    ensures { IfOk result (λ v. v.items ≡ replicate count (pos 0)) }
{
    let mut numbers = Vec::with_capacity(alloc, count)?;
    numbers.resize(count, 0)?;
    Ok(numbers)
}

impl MeasureUnit {
    ghost use Rattle.std.specs.Prelude.{◌≤◌, ◌*◌, IfOk, IsFalse, length};
    ghost use Rattle.dsp_defs.specs.Block.{channels_after};
    ghost use Rattle.dsp_defs.specs.Grammar.{Suits};
    ghost use Rattle.dsp_unit.specs.Unit.{Accepts, Feeds, IsNew, IsOutput, IsSignal, frames_in, most_frames};
    ghost use Rattle.dsp_unit.specs.Unit.{room_of};
    ghost use Rattle.dsp_measure.specs.Measures.{IsMeasureBlock};

    /// A unit that has taken nothing, of a block that measures and suits its place, for at most
    /// `frames` frames a call; all its memory is taken here.
    pub fn new(
        alloc: Global,
        block: &Block,
        format: Fmt,
        channels: u8,
        frames: usize,
    ) -> Result<MeasureUnit, AllocError>
        requires block { IsMeasureBlock block.now }
        requires suits { Suits (record { format = format; channels = channels }) block.now }
        requires channels { 1 ≤ channels }
        requires samples { frames * channels ≤ MAX_SAMPLES }
        ensures { IfOk result (IsNew block.now format channels frames) }
    {
        let measure = MeasureBlock::of(block);
        let count = measure.parts(usize::from(channels)) * measure.size();
        let kept = zeros(alloc, count)?;
        Ok(MeasureUnit {
            measure,
            format,
            channels,
            capacity: frames,
            kept,
            ended: false,
        })
    }

    /// Takes the frames, which it gives as they are.
    fn take<L: Ledger>(&mut self, frames: &[i32], steps: &mut Steps<L>)
        requires running { IsFalse self.old.ended }
        requires signal { IsSignal self.old.format self.old.channels frames.now }
        requires capacity { length (frames_in self.old.channels frames.now) ≤ self.old.capacity }
        requires accepts { Accepts self.old (length (frames_in self.old.channels frames.now)) }
        ensures running { IsFalse self.new.ended }
        ensures room { length frames.now ≤ room_of self.old }
        ensures output { IsOutput self.old (most_frames self.old.block self.old.capacity) frames.now }
        ensures fed { Feeds self.old self.new (frames_in self.old.channels frames.now)
            (frames_in (channels_after self.old.channels self.old.block) frames.now)
            steps.old steps.new }
    {
        let channels = usize::from(self.channels);
        let kept = self.kept.as_mut_slice();
        feed_parts(self.measure, self.format, kept, frames, channels, steps);
    }
}

impl Unit for MeasureUnit {
    ghost unit = { λ u. u };

    fn feed<L: Ledger>(&mut self, frames: &[i32], out: &mut [i32], steps: &mut Steps<L>) -> usize {
        self.take(frames, steps);
        out[..frames.len()].copy_from_slice(frames);
        frames.len()
    }

    fn pass<L: Ledger>(&mut self, frames: &[i32], steps: &mut Steps<L>) -> bool {
        self.take(frames, steps);
        true
    }

    fn finish<L: Ledger>(&mut self, _out: &mut [i32], _steps: &mut Steps<L>) -> usize {
        self.ended = true;
        0
    }

    fn kept_count(&self) -> usize {
        self.kept.len()
    }

    fn keep(&self, out: &mut [i64]) {
        out.copy_from_slice(&self.kept);
    }

    fn place(&self, numbers: &[i64]) -> Option<u64> {
        place_parts(self.measure, self.format, self.channels, numbers)
    }

    fn restore(&mut self, numbers: &[i64]) {
        self.kept.as_mut_slice().copy_from_slice(numbers);
    }

    fn measures(&self) -> usize {
        self.measure.parts(usize::from(self.channels))
    }

    fn measure(&self, number: u8, index: usize) -> Option<Measure> {
        if index >= self.measures() {
            return None;
        }
        Some(result_of(
            self.measure,
            self.format,
            &self.kept,
            number,
            index,
            self.channels,
        ))
    }
}
