ghost use Rattle.std.specs.Prelude.{◌≡◌, ◌+◌, ◌++◌, ◌<◌, ℕ, ℤ, List, length, IsFalse};
ghost use Rattle.dsp_defs.specs.Signal.{sample};
ghost use Rattle.dsp_measure.specs.Extremes.{better_behind, extreme, wins, IsFew, IsFound};

use crate::extreme_numbers::{place_extreme, read_extreme, write_extreme};
use crate::{Greatest, Least, MeasureSample, Order};
use std::marker::{Model, PhantomData};

/// The best sample so far, or this one where it wins.
fn better<O: Order>(found: Option<(i32, u64)>, value: i32, index: u64) -> (i32, u64)
    ensures { result ≡ better_behind O.least found value index }
{
    match found {
        Some(best) => {
            if O::wins(value, best.0) {
                (value, index)
            } else {
                best
            }
        }
        None => (value, index),
    }
}

/// Whether one of the samples wins, where `at` gives the sample of each place.
fn any_wins<T: MeasureSample, O: Order, F: Fn(usize) -> T>(best: i32, more: usize, at: &F) -> bool
    requires { (n : ℕ) → n < more → F.pre at.now n }
    ensures { (y : List ℤ) → length y ≡ more
        → ((n : ℕ) (s : _) → n < more → F.post at.now n s → T.number s ≡ sample y n)
        → IsFalse result → (n : ℕ) → n < more → IsFalse (wins O.least (sample y n) best) }
{
    let mut any = false;
    for n in 0..more {
        any |= O::wins(at(n).number(), best);
    }
    any
}

/// The best of a signal that goes on by `more` samples, where `at` gives the sample of each place.
fn best_of<T: MeasureSample, O: Order, F: Fn(usize) -> T>(
    found: Option<(i32, u64)>,
    count: u64,
    more: usize,
    at: F,
) -> Option<(i32, u64)>
    requires places { (n : ℕ) → n < more → F.pre at n }
    requires few { IsFew (count + more) }
    requires found { IsFound T.format found count }
    ensures stands { (x y : List ℤ) → found ≡ extreme O.least x → count ≡ length x → length y ≡ more
        → ((n : ℕ) (s : _) → n < more → F.post at n s → T.number s ≡ sample y n)
        → result ≡ extreme O.least (x ++ y) }
    ensures found { IsFound T.format result (count + more) }
{
    // Few blocks have a sample that wins, and lanes tell which.
    if let Some(best) = found
        && !any_wins::<T, O, F>(best.0, more, &at)
    {
        return found;
    }
    let mut best = found;
    for n in 0..more {
        let value = at(n).number();
        best = Some(better::<O>(best, value, count + n as u64));
    }
    best
}

/// The best sample of a signal by an order, with the index of the first that is as good.
#[derive(Drop)]
pub struct Extreme<T: MeasureSample, O: Order> {
    found: Option<(i32, u64)>,
    count: u64,
    marker: PhantomData<(T, O)>,
}

/// The greatest sample of a signal (`arm_max_q7`, `arm_max_q15`, `arm_max_q31`).
pub type Max<T> = Extreme<T, Greatest>;

/// The least sample of a signal (`arm_min_q7`, `arm_min_q15`, `arm_min_q31`).
pub type Min<T> = Extreme<T, Least>;

impl<T: MeasureSample, O: Order> Model for Extreme<T, O> {
    ghost use Rattle.dsp_measure.specs.Extremes.{ExtremeState, IsFew, IsFound};

    ghost Value = { ExtremeState };

    ghost view = { λ e. record { found = e.found; count = e.count } };

    ghost invariant = { λ e. IsFew e.count × IsFound T.format e.found e.count };
}

impl<T: MeasureSample, O: Order> Extreme<T, O> {
    ghost use Rattle.std.specs.Prelude.{◌≡◌, ◌+◌, ◌++◌, ◌*◌, ◌<◌, ◌/◌, ◌↔◌, [], ℕ, ℤ, List, Some, length};
    ghost use Rattle.std.specs.Prelude.{map, get_or, All, FitsSigned, IfSome, IsTrue};
    ghost use Rattle.dsp_defs.specs.Formats.{word};
    ghost use Rattle.dsp_defs.specs.Signal.{sample};
    ghost use Rattle.dsp_unit.specs.Channels.{samples_in};
    ghost use Rattle.dsp_defs.specs.Kept.{extreme_kept};
    ghost use Rattle.dsp_measure.specs.Extremes.{ExtremeState, extreme_of, IsFew, KeepsExtreme};

    /// The extreme of no samples.
    pub fn new() -> Self
        ensures { result ≡ extreme_of O.least [] }
    {
        Extreme {
            found: None,
            count: 0,
            marker: PhantomData,
        }
    }

    /// Takes the next samples of the signal. In all there may be fewer than 2^62.
    pub fn put(&mut self, samples: &[T])
        requires { IsFew (self.old.count + length samples.now) }
        ensures stands { (x : List ℤ) → self.old ≡ extreme_of O.least x
            → self.new ≡ extreme_of O.least (x ++ map T.number samples.now) }
        ensures count { self.new.count ≡ self.old.count + length samples.now }
    {
        let at = |n: usize| -> T
            requires { n < length samples.now }
            ensures { result ≡ get_or samples.entry.now n result }
        { samples[n] };
        self.found = best_of::<T, O, _>(self.found, self.count, samples.len(), at);
        self.count += samples.len() as u64;
    }

    /// Takes the next frames, which are of one channel.
    fn put_frames(&mut self, frames: &[i32])
        requires in_format { All (FitsSigned (word T.format)) frames.now }
        requires few { IsFew (self.old.count + length frames.now) }
        ensures stands { (x : List ℤ) → self.old ≡ extreme_of O.least x
            → self.new ≡ extreme_of O.least (x ++ frames.now) }
        ensures count { self.new.count ≡ self.old.count + length frames.now }
    {
        let at = |n: usize| -> T
            requires inside { n < length frames.now }
            requires in_format { All (FitsSigned (word T.format)) frames.now }
            ensures { T.number result ≡ sample frames.entry.now n }
        { T::of_number(frames[n]) };
        self.found = best_of::<T, O, _>(self.found, self.count, frames.len(), at);
        self.count += frames.len() as u64;
    }

    /// Takes one channel of the next frames.
    pub(crate) fn put_channel(&mut self, frames: &[i32], channels: usize, channel: usize)
        requires inside { channel < channels }
        requires in_format { All (FitsSigned (word T.format)) frames.now }
        requires few { IsFew (self.old.count + length frames.now / channels) }
        ensures stands { (x : List ℤ) → self.old ≡ extreme_of O.least x
            → self.new ≡ extreme_of O.least
            (x ++ samples_in channels (length frames.now / channels) frames.now channel) }
        ensures count { self.new.count ≡ self.old.count + length frames.now / channels }
    {
        if channels == 1 {
            self.put_frames(frames);
            return;
        }
        let at = |n: usize| -> T
            requires inside { n * channels + channel < length frames.now }
            requires in_format { All (FitsSigned (word T.format)) frames.now }
            ensures { T.number result ≡ sample frames.entry.now (n * channels + channel) }
        { T::of_number(frames[n * channels + channel]) };
        let more = frames.len() / channels;
        self.found = best_of::<T, O, _>(self.found, self.count, more, at);
        self.count += more as u64;
    }

    /// The best sample of all that was put and its first index, counted from 0, or none where nothing
    /// was put.
    pub fn value(&self) -> Option<(i32, u64)>
        ensures { result ≡ self.now.found }
    {
        self.found
    }

    /// How many numbers it keeps: 1 where a sample was put, the value, its index, and the count of
    /// samples; all are 0 where none was put.
    pub fn kept_count(&self) -> usize
        ensures { result ≡ 4 }
    {
        4
    }

    /// Writes the four numbers.
    pub fn keep(&self, out: &mut [i64])
        requires { length out.old ≡ 4 }
        ensures numbers { out.new ≡ extreme_kept self.now.found self.now.count }
        ensures fits { KeepsExtreme T.format self.now.count out.new }
    {
        write_extreme::<T>(self.found, self.count, out);
    }

    /// Whether these can be its four numbers.
    pub fn fits(&self, numbers: &[i64]) -> bool
        ensures { IsTrue result ↔ ((n : ℕ) × KeepsExtreme T.format n numbers.now) }
    {
        place_extreme::<T>(numbers).is_some()
    }

    /// Keeps these numbers from now on.
    pub fn restore(&mut self, numbers: &[i64])
        requires { (n : ℕ) × KeepsExtreme T.format n numbers.now }
        ensures numbers { numbers.now ≡ extreme_kept self.new.found self.new.count }
        ensures count { (n : ℕ) → KeepsExtreme T.format n numbers.now → self.new.count ≡ n }
    {
        (self.found, self.count) = read_extreme::<T>(numbers);
    }
}
