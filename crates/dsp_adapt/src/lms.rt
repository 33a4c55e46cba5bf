ghost use Rattle.std.specs.Prelude.{◌≡◌, Err, MatchOption, Ok};
ghost use Rattle.dsp_adapt.specs.LmsState.{shift_fault};

use crate::LmsSample;
use crate::adapting::adapt_block;
use crate::weights::{keep_reversed, restore_parts};
use dsp_defs::{MAX_TAPS, MakeFault, Steps};
use dsp_filter::{are_samples, check_block, check_taps};
use dsp_lanes::LaneSample;
use dsp_window::Window;
use std::alloc::Global;
use std::marker::Model;
use std::sync::ledger::Ledger;

/// Refuses a post shift that is too great.
fn check_shift(post_shift: u8, greatest: u8) -> Result<(), MakeFault>
    ensures { MatchOption (shift_fault greatest post_shift) (result ≡ Ok tt) (λ e. result ≡ Err e) }
{
    if post_shift > greatest {
        return Err(MakeFault::Range {
            value: i128::from(post_shift),
        });
    }
    Ok(())
}

/// An adaptive filter of one signal, which brings its output near to a reference (`arm_lms_q15`,
/// `arm_lms_q31`). `L` is the number of lanes.
#[derive(Drop)]
pub struct Lms<T: LmsSample + LaneSample<L>, const L: usize> {
    post_shift: u8,
    mu: T,
    taps: Vec<T>,
    weights: Vec<T>,
    window: Window<T>,
}

/// A filter of samples in Q15.
pub type Lms15 = Lms<i16, 8>;

/// A filter of samples in Q31.
pub type Lms31 = Lms<i32, 4>;

impl<T: LmsSample + LaneSample<L>, const L: usize> Model for Lms<T, L> {
    ghost use Rattle.std.specs.Prelude.{◌≡◌, ◌≤◌, ◌+◌, length, map, vec_len};
    ghost use Rattle.dsp_window.specs.Rolling.{last_samples};
    ghost use Rattle.dsp_defs.specs.declared.limits.TheConstants.{MAX_SAMPLES, MAX_TAPS};
    ghost use Rattle.dsp_adapt.specs.LmsState.{LmsState};

    ghost Value = { LmsState };

    ghost view = { λ f.
        record {
          post_shift = f.post_shift;
          mu = T.number f.mu;
          taps = map T.number f.taps.items;
          weights = map T.number f.weights.items;
          past = last_samples f.window.past f.window.samples;
          block = f.window.room;
        } };

    ghost invariant = { λ f. (f.window.past + 1 ≡ vec_len f.taps)
        × (vec_len f.weights ≡ vec_len f.taps) × (vec_len f.taps ≤ MAX_TAPS)
        × (f.window.room ≤ MAX_SAMPLES) × (f.window.past ≤ length f.window.samples) };
}

impl<T: LmsSample + LaneSample<L>, const L: usize> Lms<T, L> {
    ghost use Rattle.std.specs.Prelude.{◌≡◌, ◌≤◌, ◌+◌, ◌-◌, ◌*◌, ◌++◌, ◌↔◌, ℤ, List, [], length, map, IfOk};
    ghost use Rattle.std.specs.Prelude.{IfErr, IsTrue, MatchOption};
    ghost use Rattle.dsp_defs.specs.Formats.{word};
    ghost use Rattle.dsp_defs.specs.Streaming.{Continues};
    ghost use Rattle.dsp_defs.specs.Kept.{Each, IsOfKind, in_words, lms_kept};
    ghost use Rattle.dsp_adapt.specs.LmsState.{StandsFor, kept, lms_errors, lms_fault, lms_outputs, new_lms};
    ghost use Rattle.dsp_adapt.specs.LmsState.{pairs};

    /// A filter that has taken nothing, from its first weights in time-reversed order, `w[T-1]` to
    /// `w[0]`, for blocks of at most `block` samples. `Length` where the weights are not 1..`MAX_TAPS`, then
    /// `Range` where the post shift is over 14 in Q15 or over 30 in Q31, `Range` where the block is not
    /// in 1..`MAX_SAMPLES`, then `Memory`. No later call takes memory.
    pub fn new(
        alloc: Global,
        post_shift: u8,
        mu: T,
        taps: &[T],
        block: usize,
    ) -> Result<Self, MakeFault>
        ensures made { IfOk result (λ f.
            f ≡ new_lms post_shift (T.number mu) (map T.number taps.now) block) }
        ensures stands { IfOk result (λ f. StandsFor T.format f []) }
        ensures fault { MatchOption (lms_fault T.GREATEST_SHIFT post_shift (length taps.now) block)
            (IfErr result (λ e. e ≡ MakeFault.Memory)) (λ e. result ≡ Err e) }
    {
        check_taps(taps.len())?;
        check_shift(post_shift, T::GREATEST_SHIFT)?;
        check_block(block)?;
        let Ok(window) = Window::new(alloc, taps.len() - 1, block) else {
            return Err(MakeFault::Memory);
        };
        let Ok(weights) = Vec::from_slice(alloc, taps) else {
            return Err(MakeFault::Memory);
        };
        let Ok(taps) = Vec::from_slice(alloc, taps) else {
            return Err(MakeFault::Memory);
        };
        Ok(Lms {
            post_shift,
            mu,
            taps,
            weights,
            window,
        })
    }

    /// Writes the outputs and the errors of the next block, with its reference, and updates the weights
    /// after each sample. The four lengths are equal.
    pub fn process<M: Ledger>(
        &mut self,
        input: &[T],
        reference: &[T],
        output: &mut [T],
        error: &mut [T],
        steps: &mut Steps<M>,
    )
        requires block { length input.now ≤ self.old.block }
        requires reference { length reference.now ≡ length input.now }
        requires output { length output.old ≡ length input.now }
        requires error { length error.old ≡ length input.now }
        ensures outputs { (x : List (ℤ × ℤ)) → StandsFor T.format self.old x
            → Continues (lms_outputs T.format self.old) x
            (pairs (map T.number input.now) (map T.number reference.now))
            (map T.number output.new) }
        ensures errors { (x : List (ℤ × ℤ)) → StandsFor T.format self.old x
            → Continues (lms_errors T.format self.old) x
            (pairs (map T.number input.now) (map T.number reference.now)) (map T.number error.new) }
        ensures stands { (x : List (ℤ × ℤ)) → StandsFor T.format self.old x
            → StandsFor T.format self.new
            (x ++ pairs (map T.number input.now) (map T.number reference.now)) }
        ensures same { self.new ≡ record self.old { weights = self.new.weights; past = self.new.past } }
        ensures past { length self.new.past ≡ length self.old.past }
        ensures weights { length self.new.weights ≡ length self.old.weights }
        ensures multiplies { steps.new.multiplies ≡ steps.old.multiplies + length input.now *
            (2 * length self.old.taps + 1) }
        ensures turns { steps.new.turns ≤ steps.old.turns + length input.now *
            (2 * length self.old.taps + 1) }
    {
        self.window.push_block(input);
        adapt_block::<T, L, M>(
            self.post_shift,
            self.mu,
            self.weights.as_mut_slice(),
            self.window.slice(),
            reference,
            output,
            error,
            steps,
        );
    }

    /// How many numbers the filter keeps from block to block: T-1 samples and T weights.
    pub fn kept_count(&self) -> usize
        ensures count { result ≡ length (kept self.now) }
        ensures few { result ≤ 2 * MAX_TAPS }
    {
        self.taps.len() - 1 + self.taps.len()
    }

    /// Writes the kept numbers: the last inputs, the oldest first, and then `w[0]` to `w[T-1]`.
    pub fn keep(&self, out: &mut [i64])
        requires length { length out.old ≡ length (kept self.now) }
        ensures { out.new ≡ kept self.now }
    {
        let past = self.taps.len() - 1;
        self.window.keep(&mut out[..past]);
        keep_reversed(&self.weights, &mut out[past..]);
    }

    /// Whether these can be the kept numbers of a filter: as many, and each in the range of the format.
    pub fn fits(&self, numbers: &[i64]) -> bool
        ensures { IsTrue result ↔ Each IsOfKind
            (in_words (word T.format)
            (length self.now.taps - 1 + length self.now.taps)) numbers.now }
    {
        are_samples::<T>(numbers, self.taps.len() - 1 + self.taps.len())
    }

    /// Keeps these numbers from now on, and no others.
    pub fn restore(&mut self, numbers: &[i64])
        requires fits { Each IsOfKind (in_words (word T.format)
            (length self.old.taps - 1 + length self.old.taps)) numbers.now }
        ensures kept { kept self.new ≡ numbers.now }
        ensures stands { (x : List (ℤ × ℤ))
            → numbers.now ≡ lms_kept T.format self.old.post_shift self.old.mu self.old.taps x
            → StandsFor T.format self.new x }
        ensures same { self.new ≡ record self.old { weights = self.new.weights; past = self.new.past } }
        ensures past { length self.new.past ≡ length self.old.past }
        ensures weights { length self.new.weights ≡ length self.old.weights }
    {
        restore_parts(&mut self.window, self.weights.as_mut_slice(), numbers);
    }
}
