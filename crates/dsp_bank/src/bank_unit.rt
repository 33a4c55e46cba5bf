ghost use Rattle.std.specs.Prelude.{◌≡◌, ◌≤◌, ◌+◌, ◌*◌, ◌/◌, ◌%◌, All, FitsSigned, false, length, take};
ghost use Rattle.dsp_defs.specs.Formats.{word};
ghost use Rattle.dsp_lanes.specs.Turns.{lane_turns};
ghost use Rattle.dsp_unit.specs.Channels.{AreFed};
ghost use Rattle.dsp_bank.specs.Bank.{bank_filters, sections_of};

use crate::kept::zeros;
use crate::numbers::{put_numbers, take_numbers};
use crate::{Bank, BankSample};
use dsp_defs::{Block, MAX_SAMPLES, Measure, Steps};
use dsp_filter::samples_of;
use dsp_lanes::FormatLanes;
use dsp_sat::Sample;
use dsp_unit::Unit;
use std::alloc::{AllocError, Global};
use std::marker::Model;
use std::sync::ledger::Ledger;

/// A bank at its place: a cascade of biquads on all channels of a frame at once.
#[derive(Drop)]
pub struct BankUnit<T: BankSample + FormatLanes<L>, const L: usize> {
    bank: Bank<T, L>,
    input: Vec<T>,
    output: Vec<T>,
    ended: bool,
}

impl<T: BankSample + FormatLanes<L>, const L: usize> Model for BankUnit<T, L> {
    ghost use Rattle.std.specs.Prelude.{◌≡◌, ◌≤◌, ◌*◌, length};
    ghost use Rattle.dsp_unit.specs.Unit.{UnitState};
    ghost use Rattle.dsp_defs.specs.declared.limits.TheConstants.{MAX_SAMPLES};
    ghost use Rattle.dsp_bank.specs.Bank.{IsWholeBank, unit_of_bank};

    ghost Value = { UnitState };

    ghost view = { λ u. unit_of_bank T.format u.ended u.bank };

    ghost invariant = { λ u. (IsWholeBank T.format u.bank)
        × (u.bank.capacity * u.bank.channels ≤ MAX_SAMPLES)
        × (length u.input.items ≡ u.bank.capacity * u.bank.channels)
        × (length u.output.items ≡ u.bank.capacity * u.bank.channels) };
}

/// Feeds whole frames to a bank, by way of slices of as many samples.
fn feed_samples<T: BankSample + FormatLanes<L>, const L: usize, M: Ledger>(
    bank: &mut Bank<T, L>,
    frames: &[i32],
    input: &mut [T],
    output: &mut [T],
    out: &mut [i32],
    steps: &mut Steps<M>,
)
    requires whole { length frames.now % bank.old.channels ≡ 0 }
    requires block { length frames.now ≤ bank.old.capacity * bank.old.channels }
    requires in_format { All (FitsSigned (word T.format)) frames.now }
    requires input { length input.old ≡ length frames.now }
    requires output { length output.old ≡ length frames.now }
    requires out { length out.old ≡ length frames.now }
    ensures made { bank.new ≡ record bank.old { kept = bank.new.kept } }
    ensures size { length bank.new.kept ≡ length bank.old.kept }
    ensures fed { AreFed (bank_filters T.format false bank.old) (bank_filters T.format false bank.new)
        (length frames.now / bank.old.channels) frames.now
        (length frames.now / bank.old.channels) out.new steps.old steps.new }
    ensures turns { steps.new.turns ≤ steps.old.turns + 5 * sections_of T.format bank.old
        * (length frames.now / bank.old.channels) * lane_turns L bank.old.channels }
    ensures in_format { All (FitsSigned (word T.format)) out.new }
{
    take_numbers(frames, input);
    bank.process(input, output, steps);
    put_numbers(output, out);
}

/// Feeds whole frames to a bank, by way of slices of at least as many samples.
fn feed_bank<T: BankSample + FormatLanes<L>, const L: usize, M: Ledger>(
    bank: &mut Bank<T, L>,
    frames: &[i32],
    input: &mut [T],
    output: &mut [T],
    out: &mut [i32],
    steps: &mut Steps<M>,
)
    requires whole { length frames.now % bank.old.channels ≡ 0 }
    requires block { length frames.now ≤ bank.old.capacity * bank.old.channels }
    requires in_format { All (FitsSigned (word T.format)) frames.now }
    requires input { length frames.now ≤ length input.old }
    requires output { length frames.now ≤ length output.old }
    requires out { length frames.now ≤ length out.old }
    ensures made { bank.new ≡ record bank.old { kept = bank.new.kept } }
    ensures size { length bank.new.kept ≡ length bank.old.kept }
    ensures fed { AreFed (bank_filters T.format false bank.old) (bank_filters T.format false bank.new)
        (length frames.now / bank.old.channels) frames.now
        (length frames.now / bank.old.channels) (take (length frames.now) out.new)
        steps.old steps.new }
    ensures turns { steps.new.turns ≤ steps.old.turns + 5 * sections_of T.format bank.old
        * (length frames.now / bank.old.channels) * lane_turns L bank.old.channels }
    ensures in_format { All (FitsSigned (word T.format)) (take (length frames.now) out.new) }
{
    let count = frames.len();
    feed_samples(
        bank,
        frames,
        &mut input[..count],
        &mut output[..count],
        &mut out[..count],
        steps,
    );
}

impl<T: BankSample + FormatLanes<L>, const L: usize> BankUnit<T, L> {
    ghost use Rattle.std.specs.Prelude.{◌≡◌, ◌≤◌, ◌*◌, IfOk};
    ghost use Rattle.dsp_defs.specs.declared.limits.TheConstants.{MAX_SAMPLES};
    ghost use Rattle.dsp_biquad.specs.Sections.{IsBiquadIn};
    ghost use Rattle.dsp_bank.specs.Bank.{IsNewBanked};

    /// A unit of a biquad block that has taken nothing, for frames of `channels` samples, at most
    /// `frames` of them a call. All its memory is taken here; it errs only where memory is wanting.
    pub fn new(
        alloc: Global,
        block: &Block,
        channels: u8,
        frames: usize,
    ) -> Result<Self, AllocError>
        requires block { IsBiquadIn T.format block.now }
        requires channels { 1 ≤ channels }
        requires frames { 1 ≤ frames }
        requires samples { frames * channels ≤ MAX_SAMPLES }
        ensures { IfOk result (IsNewBanked block.now T.format channels frames) }
    {
        let Block::Biquad {
            post_shift,
            coefficients,
        } = block
        else {
            unreachable!();
        };
        let coefficients = samples_of::<T>(alloc, coefficients.as_slice())?;
        let bank = Bank::of_coefficients(alloc, *post_shift, coefficients, channels, frames)?;
        let room = frames * usize::from(channels);
        let input = zeros(alloc, room)?;
        let output = zeros(alloc, room)?;
        Ok(BankUnit {
            bank,
            input,
            output,
            ended: false,
        })
    }
}

impl<T: BankSample + FormatLanes<L>, const L: usize> Unit for BankUnit<T, L> {
    ghost unit = { λ u. u };

    #[tactic(auto, using(crate::proofs::Amounts::frames))]
    fn feed<M: Ledger>(&mut self, frames: &[i32], out: &mut [i32], steps: &mut Steps<M>) -> usize {
        feed_bank(
            &mut self.bank,
            frames,
            self.input.as_mut_slice(),
            self.output.as_mut_slice(),
            out,
            steps,
        );
        frames.len()
    }

    fn finish<M: Ledger>(&mut self, _out: &mut [i32], _steps: &mut Steps<M>) -> usize {
        self.ended = true;
        0
    }

    fn kept_count(&self) -> usize {
        self.bank.kept_count()
    }

    fn keep(&self, out: &mut [i64]) {
        self.bank.keep(out);
    }

    fn place(&self, numbers: &[i64]) -> Option<u64> {
        if self.bank.fits(numbers) {
            Some(0)
        } else {
            None
        }
    }

    #[tactic(auto, using(crate::proofs::BankUnits::words))]
    fn restore(&mut self, numbers: &[i64]) {
        self.bank.restore(numbers);
    }

    fn measures(&self) -> usize {
        let _bank = &self.bank;
        0
    }

    fn measure(&self, _number: u8, _index: usize) -> Option<Measure> {
        let _bank = &self.bank;
        None
    }
}
