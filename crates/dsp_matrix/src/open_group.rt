ghost use Rattle.std.specs.Prelude.{◌≡◌, ◌≤◌, ◌+◌, ◌++◌, length, take};

use dsp_sat::Sample;
use dsp_window::load_numbers;
use std::alloc::{AllocError, Global};
use std::marker::Model;

/// The samples of a group that is not whole yet, or has just become whole.
#[derive(Drop)]
pub(crate) struct OpenGroup<T: Sample> {
    samples: Vec<T>,
    count: usize,
}

impl<T: Sample> Model for OpenGroup<T> {
    ghost use Rattle.std.specs.Prelude.{◌≤◌, map, take, vec_len};
    ghost use Rattle.dsp_matrix.specs.Groups.{OpenState};

    ghost Value = { OpenState };

    ghost view = { λ o.
        record {
          size = vec_len o.samples;
          numbers = map T.number (take o.count o.samples.items);
        } };

    ghost invariant = { λ o. o.count ≤ vec_len o.samples };
}

/// Writes a block from a place on.
fn write_at<T: Copy>(samples: &mut [T], at: usize, block: &[T])
    requires { at + length block.now ≤ length samples.old }
    ensures { take (at + length block.now) samples.new ≡ take at samples.old ++ block.now }
{
    samples[at..at + block.len()].copy_from_slice(block);
}

impl<T: Sample> OpenGroup<T> {
    ghost use Rattle.std.specs.Prelude.{◌≡◌, ◌≤◌, ◌-◌, ◌++◌, ◌↔◌, [], min, length, map, take, IfOk, IsTrue};
    ghost use Rattle.std.specs.Prelude.{All, FitsSigned};
    ghost use Rattle.dsp_defs.specs.Formats.{word};

    /// A group of so many samples, of which there are none yet. All its memory is taken here.
    pub(crate) fn new(alloc: Global, size: usize) -> Result<Self, AllocError>
        ensures { IfOk result (λ o. o ≡ record { size = size; numbers = [] }) }
    {
        let samples = vec![in alloc; T::zero(); size]?;
        Ok(OpenGroup { samples, count: 0 })
    }

    /// How many samples it has.
    pub(crate) fn len(&self) -> usize
        ensures count { result ≡ length self.now.numbers }
        ensures within { result ≤ self.now.size }
    {
        self.count
    }

    /// Whether it has all its samples.
    pub(crate) fn is_whole(&self) -> bool
        ensures { IsTrue result ↔ (length self.now.numbers ≡ self.now.size) }
    {
        self.count == self.samples.len()
    }

    /// Its samples.
    pub(crate) fn as_slice(&self) -> &[T]
        ensures { map T.number result.now ≡ self.now.numbers }
    {
        &self.samples[..self.count]
    }

    /// Takes as many samples of the input as it still wants, and answers their number.
    pub(crate) fn fill(&mut self, input: &[T]) -> usize
        ensures count { result ≡ min (self.old.size - length self.old.numbers) (length input.now) }
        ensures filled { self.new ≡ record self.old {
          numbers = self.old.numbers ++ map T.number
              (take result input.now);
        } }
    {
        let count = input.len().min(self.samples.len() - self.count);
        write_at(&mut self.samples, self.count, &input[..count]);
        self.count += count;
        count
    }

    /// Begins a new group with these samples.
    pub(crate) fn start(&mut self, input: &[T])
        requires { length input.now ≤ self.old.size }
        ensures { self.new ≡ record self.old { numbers = map T.number input.now } }
    {
        write_at(&mut self.samples, 0, input);
        self.count = input.len();
    }

    /// Writes the numbers of its samples, the oldest first.
    pub(crate) fn keep(&self, out: &mut [i64])
        requires { length out.old ≡ length self.now.numbers }
        ensures { out.new ≡ self.now.numbers }
    {
        for (k, slot) in out.iter_mut().enumerate() {
            *slot = i64::from(self.samples[k].number());
        }
    }

    /// Begins a new group with the samples of these numbers.
    pub(crate) fn restore(&mut self, numbers: &[i64])
        requires room { length numbers.now ≤ self.old.size }
        requires samples { All (FitsSigned (word T.format)) numbers.now }
        ensures { self.new ≡ record self.old { numbers = numbers.now } }
    {
        load_numbers(&mut self.samples, numbers);
        self.count = numbers.len();
    }
}
