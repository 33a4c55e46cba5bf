use crate::numbers::{is_sample, load_numbers, roll, zeros};
use dsp_defs::{MAX_DELAY, MAX_SAMPLES};
use dsp_sat::Sample;
use std::alloc::{AllocError, Global};
use std::marker::Model;

/// The last `past` samples of what was pushed before, and then the block that was pushed last.
#[derive(Drop)]
pub struct Window<T: Sample> {
    samples: Vec<T>,
    past: usize,
    filled: usize,
}

impl<T: Sample> Model for Window<T> {
    ghost use Rattle.std.specs.Prelude.{◌≤◌, ◌-◌, map, take, vec_len};
    ghost use Rattle.dsp_window.specs.Rolling.{Rolling};

    ghost Value = { Rolling };

    ghost view = { λ w.
        record {
          past = w.past;
          room = vec_len w.samples - w.past;
          samples = map T.number (take w.filled w.samples.items);
        } };

    ghost invariant = { λ w. (w.past ≤ w.filled) × (w.filled ≤ vec_len w.samples) };
}

impl<T: Sample> Window<T> {
    ghost use Rattle.std.specs.Prelude.{◌≡◌, ◌≤◌, ◌++◌, ◌↔◌, ℤ, List, [], length, map, replicate, pos, IfOk};
    ghost use Rattle.std.specs.Prelude.{IsTrue, All, FitsSigned};
    ghost use Rattle.dsp_defs.specs.Formats.{word};
    ghost use Rattle.dsp_window.specs.Rolling.{Shows, last_samples};

    /// A past of zeros and an empty block. `past` and `block` are numbers of samples; all memory is taken here.
    pub fn new(alloc: Global, past: usize, block: usize) -> Result<Self, AllocError>
        requires past { past ≤ MAX_DELAY }
        requires block { block ≤ MAX_SAMPLES }
        ensures made { IfOk result (λ w.
            w ≡ record { past = past; room = block; samples = replicate past (pos 0) }) }
        ensures shows { IfOk result (λ w. Shows w [] []) }
    {
        let samples = zeros(alloc, past + block)?;
        Ok(Window {
            samples,
            past,
            filled: past,
        })
    }

    /// The last samples become the past, and the block follows them.
    pub fn push_block(&mut self, block: &[T])
        requires { length block.now ≤ self.old.room }
        ensures rolls { self.new
            ≡ record self.old {
              samples = last_samples self.old.past self.old.samples
                  ++ map T.number block.now;
            } }
        ensures shows { (before last : List ℤ) → Shows self.old before last
            → Shows self.new (before ++ last) (map T.number block.now) }
    {
        let from = self.filled - self.past;
        roll(&mut self.samples, from, self.past, block);
        self.filled = self.past + block.len();
    }

    /// The past and the block.
    pub fn slice(&self) -> &[T]
        ensures samples { map T.number result.now ≡ self.now.samples }
        ensures past { self.now.past ≤ length result.now }
    {
        &self.samples[..self.filled]
    }

    /// Writes the numbers of what a next block will find as its past, the oldest first.
    pub fn keep(&self, out: &mut [i64])
        requires { length out.old ≡ self.now.past }
        ensures { out.new ≡ last_samples self.now.past self.now.samples }
    {
        let from = self.filled - self.past;
        for (k, slot) in out.iter_mut().enumerate() {
            *slot = i64::from(self.samples[from + k].number());
        }
    }

    /// Whether these can be the numbers of a past.
    pub fn fits(&self, numbers: &[i64]) -> bool
        ensures { IsTrue result ↔ (length numbers.now ≡ self.now.past)
            × All (FitsSigned (word T.format)) numbers.now }
    {
        numbers.len() == self.past && numbers.iter().all(|n| is_sample::<T>(*n))
    }

    /// Makes these numbers the past, with an empty block behind them.
    pub fn restore(&mut self, numbers: &[i64])
        requires length { length numbers.now ≡ self.old.past }
        requires samples { All (FitsSigned (word T.format)) numbers.now }
        ensures { self.new ≡ record self.old { samples = numbers.now } }
    {
        load_numbers(self.samples.as_mut_slice(), numbers);
        self.filled = self.past;
    }
}
