use crate::kept::{count_kept, keep_channels, place_channels, restore_channels};
use crate::{Filter, feed_block, finish_channels};
use dsp_defs::{Block, MAX_SAMPLES, Measure, Steps};
use dsp_sat::Sample;
use dsp_shape::{frame_count, most_frames};
use dsp_unit::Unit;
use std::alloc::{AllocError, Global};
use std::marker::Model;
use std::sync::ledger::Ledger;

/// A block that gives each channel to a filter of its own.
#[derive(Drop)]
pub struct EachChannel<T: Sample, F: Filter<T> + Drop> {
    filters: Vec<F>,
    input: Vec<T>,
    output: Vec<T>,
    capacity: usize,
}

impl<T: Sample, F: Filter<T> + Drop> Model for EachChannel<T, F> {
    ghost use Rattle.std.specs.Prelude.{◌≡◌, ◌≤◌, ◌*◌, map, vec_len};
    ghost use Rattle.dsp_unit.specs.Unit.{UnitState};
    ghost use Rattle.dsp_unit.specs.Filter.{filter_at, filter_room, AreFilters};
    ghost use Rattle.dsp_unit.specs.Channels.{unit_of_filters};

    ghost Value = { UnitState };

    ghost view = { λ u. unit_of_filters T.format u.capacity (map F.filter u.filters.items) };

    ghost invariant = { λ u. (AreFilters T.format u.capacity (map F.filter u.filters.items))
        × (vec_len u.input ≡ u.capacity)
        × (vec_len u.output ≡ filter_room (filter_at (map F.filter u.filters.items) 0))
        × (vec_len u.filters ≤ 255) };
}

impl<T: Sample, F: Filter<T> + Drop> EachChannel<T, F> {
    ghost use Rattle.std.specs.Prelude.{◌≡◌, ◌≤◌, ◌*◌, map, length, All, IfOk};
    ghost use Rattle.dsp_unit.specs.Unit.{IsNew, most_frames, most_room};
    ghost use Rattle.dsp_unit.specs.Filter.{IsNewFilter, filter_at, AreFilters};

    /// A unit of filters that have taken nothing, one for each channel, for at most `frames` frames a
    /// call, of which a call gives at most `room`. All its memory is taken here.
    fn of_filters(
        alloc: Global,
        filters: Vec<F>,
        frames: usize,
        room: usize,
    ) -> Result<Self, AllocError>
        requires alike { AreFilters T.format frames (map F.filter filters.items) }
        requires fresh { All (IsNewFilter
            (filter_at (map F.filter filters.items) 0).block T.format frames)
            (map F.filter filters.items) }
        requires room { room ≡ most_frames (filter_at (map F.filter filters.items) 0).block frames }
        requires channels { length filters.items ≤ 255 }
        ensures { IfOk result (IsNew (filter_at (map F.filter filters.items) 0).block T.format
            (length filters.items) frames) }
    {
        let input = vec![in alloc; T::zero(); frames]?;
        let output = vec![in alloc; T::zero(); room]?;
        Ok(EachChannel {
            filters,
            input,
            output,
            capacity: frames,
        })
    }

    /// A unit of the block that has taken nothing, with a filter for each channel, for at most
    /// `frames` frames a call. All its memory is taken here.
    pub fn new(
        alloc: Global,
        block: &Block,
        channels: u8,
        frames: usize,
    ) -> Result<Self, AllocError>
        requires block { F.IsOf block.now }
        requires channels { 1 ≤ channels }
        requires frames { 1 ≤ frames }
        requires samples { frames * channels ≤ MAX_SAMPLES }
        requires room { most_frames block.now frames * channels ≤ most_room }
        ensures { IfOk result (IsNew block.now T.format channels frames) }
    {
        let mut filters = Vec::with_capacity(alloc, usize::from(channels))?;
        for _ in 0..channels {
            filters.push(F::of_block(alloc, block, frames)?)?;
        }
        EachChannel::of_filters(alloc, filters, frames, most_frames(block, frames))
    }
}

impl<T: Sample, F: Filter<T> + Drop> Unit for EachChannel<T, F> {
    ghost unit = { λ u. u };

    fn feed<L: Ledger>(&mut self, frames: &[i32], out: &mut [i32], steps: &mut Steps<L>) -> usize {
        let count = frame_count(frames.len(), self.filters.len());
        let given = feed_block(
            self.filters.as_mut_slice(),
            frames,
            count,
            self.input.as_mut_slice(),
            self.output.as_mut_slice(),
            out,
            steps,
        );
        given * self.filters.len()
    }

    fn finish<L: Ledger>(&mut self, out: &mut [i32], steps: &mut Steps<L>) -> usize {
        let given = finish_channels(
            self.filters.as_mut_slice(),
            self.output.as_mut_slice(),
            out,
            steps,
        );
        given * self.filters.len()
    }

    fn kept_count(&self) -> usize {
        count_kept(self.filters.as_slice())
    }

    fn keep(&self, out: &mut [i64]) {
        keep_channels(self.filters.as_slice(), out);
    }

    fn place(&self, numbers: &[i64]) -> Option<u64> {
        place_channels(self.filters.as_slice(), numbers)
    }

    fn restore(&mut self, numbers: &[i64]) {
        restore_channels(self.filters.as_mut_slice(), numbers);
    }

    fn measures(&self) -> usize {
        // A filter measures nothing: the proof has this from the invariant, which it sees at a field.
        let _filters = &self.filters;
        0
    }

    fn measure(&self, _number: u8, _index: usize) -> Option<Measure> {
        let _filters = &self.filters;
        None
    }
}
