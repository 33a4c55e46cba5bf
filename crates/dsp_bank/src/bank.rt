use crate::BankSample;
use crate::block::run_block;
use crate::kept::{keep_samples, restore_samples, zeros};
use crate::making::check_bank;
use dsp_defs::{MakeFault, Steps};
use dsp_filter::are_samples;
use dsp_lanes::FormatLanes;
use dsp_sat::Sample;
use std::alloc::{AllocError, Global};
use std::marker::Model;
use std::sync::ledger::Ledger;

/// A cascade of biquads for each channel of a frame, in groups of L channels: banks of
/// `arm_biquad_cascade_df1_q15` and `arm_biquad_cascade_df1_q31`.
#[derive(Drop)]
pub struct Bank<T: BankSample + FormatLanes<L>, const L: usize> {
    post_shift: u8,
    coefficients: Vec<T>,
    // Channel after channel and section after section: the last two samples and the last two outputs,
    // the newest first.
    kept: Vec<T>,
    // Two frames for what a section keeps, and then the frames of a call and what a section gives.
    frames: Vec<T>,
    outputs: Vec<T>,
    channels: usize,
    capacity: usize,
}

impl<T: BankSample + FormatLanes<L>, const L: usize> Model for Bank<T, L> {
    ghost use Rattle.std.specs.Prelude.{◌≡◌, ◌≤◌, ◌+◌, ◌*◌, ◌/◌, ◌%◌, length, map};
    ghost use Rattle.dsp_defs.specs.declared.limits.TheConstants.{MAX_SAMPLES};
    ghost use Rattle.dsp_bank.specs.Bank.{BankState};

    ghost Value = { BankState };

    ghost view = { λ b.
        record {
          post_shift = b.post_shift;
          coefficients = map T.number b.coefficients.items;
          channels = b.channels;
          capacity = b.capacity;
          kept = map T.number b.kept.items;
        } };

    ghost invariant = { λ b.
        (b.post_shift ≤ T.GREATEST_SHIFT)
        × (length b.coefficients.items % T.SIZE ≡ 0)
        × (length b.coefficients.items ≤ 64 * T.SIZE)
        × (1 ≤ b.channels)
        × (b.channels ≤ 255)
        × (b.capacity ≤ MAX_SAMPLES)
        × (length b.kept.items ≡ b.channels * (length b.coefficients.items / T.SIZE) * 4)
        × (length b.frames.items ≡ (b.capacity + 2) * b.channels)
        × (length b.outputs.items ≡ (b.capacity + 2) * b.channels) };
}

impl<T: BankSample + FormatLanes<L>, const L: usize> Bank<T, L> {
    ghost use Rattle.std.specs.Prelude.{◌≡◌, ◌≤◌, ◌+◌, ◌*◌, ◌/◌, ◌%◌, ◌↔◌, IfOk, IfErr, IsTrue, MatchOption};
    ghost use Rattle.std.specs.Prelude.{false, length, map};
    ghost use Rattle.dsp_defs.specs.Formats.{word};
    ghost use Rattle.dsp_lanes.specs.Turns.{lane_turns};
    ghost use Rattle.dsp_unit.specs.Channels.{AreFed};
    ghost use Rattle.dsp_defs.specs.Kept.{Each, IsOfKind, in_words};
    ghost use Rattle.dsp_defs.specs.declared.limits.TheConstants.{MAX_SAMPLES};
    ghost use Rattle.dsp_bank.specs.Bank.{BankState, IsNewBank, bank_filters, sections_of};
    ghost use Rattle.dsp_bank.specs.Making.{bank_fault};

    /// A bank that has taken nothing, from the post shift and the numbers of its sections one after
    /// another, for frames of `channels` samples, at most `block` frames a call. `Length` where the
    /// numbers are none, no whole sections or those of more than 64. Then `Range` where the post shift
    /// is too great, where the channels are not in 1..`MAX_CHANNELS`, or where the block is not in
    /// 1..`MAX_SAMPLES`, in this order, each with its value. Then `Memory`. No later call takes memory.
    pub fn new(
        alloc: Global,
        post_shift: u8,
        coefficients: &[T],
        channels: u8,
        block: usize,
    ) -> Result<Self, MakeFault>
        ensures made { IfOk result
            (IsNewBank T.format post_shift (map T.number coefficients.now) channels block) }
        ensures fault { MatchOption (bank_fault T.SIZE T.GREATEST_SHIFT
            (length coefficients.now) post_shift channels block)
            (IfErr result (λ e. e ≡ MakeFault.Memory)) (λ e. result ≡ Err e) }
    {
        check_bank(
            coefficients.len(),
            T::SIZE,
            post_shift,
            T::GREATEST_SHIFT,
            channels,
            block,
        )?;
        let Ok(coefficients) = Vec::from_slice(alloc, coefficients) else {
            return Err(MakeFault::Memory);
        };
        let Ok(bank) = Bank::of_coefficients(alloc, post_shift, coefficients, channels, block)
        else {
            return Err(MakeFault::Memory);
        };
        Ok(bank)
    }

    /// A bank of checked coefficients.
    pub(crate) fn of_coefficients(
        alloc: Global,
        post_shift: u8,
        coefficients: Vec<T>,
        channels: u8,
        block: usize,
    ) -> Result<Self, AllocError>
        requires shift { post_shift ≤ T.GREATEST_SHIFT }
        requires whole { length coefficients.items % T.SIZE ≡ 0 }
        requires few { length coefficients.items ≤ 64 * T.SIZE }
        requires channels { 1 ≤ channels }
        requires block { block ≤ MAX_SAMPLES }
        ensures { IfOk result
            (IsNewBank T.format post_shift (map T.number coefficients.items) channels block) }
    {
        let channels = usize::from(channels);
        let long = (block + 2) * channels;
        let count = channels * (coefficients.len() / T::SIZE) * 4;
        let kept = zeros(alloc, count)?;
        let frames = zeros(alloc, long)?;
        let outputs = zeros(alloc, long)?;
        Ok(Bank {
            post_shift,
            coefficients,
            kept,
            frames,
            outputs,
            channels,
            capacity: block,
        })
    }

    /// Writes the next values of each channel: those of a cascade on this channel alone. A frame has
    /// one sample for each channel, and the frames are one after another. It counts five products a
    /// sample and section, and at most five turns a frame and section for each group of L channels and
    /// for each channel of the rest.
    pub fn process<M: Ledger>(&mut self, frames: &[T], out: &mut [T], steps: &mut Steps<M>)
        requires whole { length frames.now % self.old.channels ≡ 0 }
        requires block { length frames.now ≤ self.old.capacity * self.old.channels }
        requires same { length out.old ≡ length frames.now }
        ensures made { self.new ≡ record self.old { kept = self.new.kept } }
        ensures size { length self.new.kept ≡ length self.old.kept }
        ensures fed { AreFed
            (bank_filters T.format false self.old) (bank_filters T.format false self.new)
            (length frames.now / self.old.channels) (map T.number frames.now)
            (length frames.now / self.old.channels) (map T.number out.new) steps.old steps.new }
        ensures multiplies { steps.new.multiplies ≡ steps.old.multiplies
            + 5 * sections_of T.format self.old * length frames.now }
        ensures turns { steps.new.turns ≤ steps.old.turns + 5 * sections_of T.format self.old
            * (length frames.now / self.old.channels) * lane_turns L self.old.channels }
    {
        run_block(
            self.coefficients.as_slice(),
            self.post_shift,
            self.kept.as_mut_slice(),
            self.channels,
            self.frames.as_mut_slice(),
            self.outputs.as_mut_slice(),
            frames,
            out,
            steps,
        );
    }

    /// How many numbers the bank keeps: four for each section of each channel.
    pub fn kept_count(&self) -> usize
        ensures { result ≡ length self.now.kept }
    {
        self.kept.len()
    }

    /// Writes the kept numbers, channel after channel and section after section: the last two samples
    /// and the last two outputs, the newest first.
    pub fn keep(&self, out: &mut [i64])
        requires { length out.old ≡ length self.now.kept }
        ensures { out.new ≡ self.now.kept }
    {
        keep_samples(self.kept.as_slice(), out);
    }

    /// Whether these can be the kept numbers of the bank: as many, each in the range of its width.
    pub fn fits(&self, numbers: &[i64]) -> bool
        ensures { IsTrue result
            ↔ Each IsOfKind (in_words (word T.format) (length self.now.kept)) numbers.now }
    {
        are_samples::<T>(numbers, self.kept.len())
    }

    /// Keeps these numbers from now on, and no others.
    pub fn restore(&mut self, numbers: &[i64])
        requires { Each IsOfKind (in_words (word T.format) (length self.old.kept)) numbers.now }
        ensures { self.new ≡ record self.old { kept = numbers.now } }
    {
        restore_samples(numbers, self.kept.as_mut_slice());
    }
}
