//! A whole signal, channel by channel.
ghost use Rattle.std.specs.Prelude.{◌≡◌, ◌≤◌, ◌<◌, ℕ, ℤ, List, [], ◌∷◌, ◌++◌, length, take, get_or};
ghost use Rattle.std.specs.Prelude.{IfOk, OnOk, OnErr};
ghost use Rattle.dsp_check.specs.Channels.{AreChannels, frame_at, frame_count, no_frames, with_frame};

use dsp_exact::sample;
use std::alloc::{AllocError, Global};
use std::marker::Model;

/// The samples of one channel.
#[derive(Drop)]
pub struct Channel {
    samples: Vec<i32>,
}

impl Model for Channel {
    ghost use Rattle.std.specs.Prelude.{List, ℤ};

    ghost Value = { List ℤ };

    ghost view = { λ c. c.samples.items };
}

impl Channel {
    /// A channel of these samples.
    pub fn of(samples: Vec<i32>) -> Channel
        ensures { result ≡ samples.items }
    {
        Channel { samples }
    }

    /// The samples in order.
    pub fn as_slice(&self) -> &[i32]
        ensures { result.now ≡ self.now }
    {
        &self.samples
    }

    /// Adds a sample. Where memory is wanting the channel stays.
    fn push(&mut self, sample: i32) -> Result<(), AllocError>
        ensures ok { OnOk result (self.new ≡ self.old ++ sample ∷ []) }
        ensures err { OnErr result (self.new ≡ self.old) }
    {
        self.samples.push(sample)?;
        Ok(())
    }

    /// Keeps the first n samples.
    fn truncate(&mut self, n: usize)
        ensures { self.new ≡ take n self.old }
    {
        self.samples.truncate(n);
    }
}

/// Keeps the first n samples of each channel.
fn cut_back(channels: &mut [Channel], n: usize)
    ensures { (k : ℕ) → k < length channels.old
        → get_or channels.new k [] ≡ take n (get_or channels.old k []) }
{
    for channel in channels.iter_mut() {
        channel.truncate(n);
    }
}

/// Adds a sample to each channel, or to none where memory is wanting.
fn add_frame(channels: &mut [Channel], frame: &[i32]) -> Result<(), AllocError>
    requires are { AreChannels channels.old }
    requires wide { length frame.now ≡ length channels.old }
    ensures ok { OnOk result (channels.new ≡ with_frame channels.old frame.now) }
    ensures err { OnErr result (channels.new ≡ channels.old) }
    ensures are { AreChannels channels.new }
{
    let frames = channels[0].as_slice().len();
    for c in 0..channels.len() {
        if let Err(error) = channels[c].push(frame[c]) {
            cut_back(channels, frames);
            return Err(error);
        }
    }
    Ok(())
}

/// A signal: 1 to 16 channels of equally many samples. It is seen as the list of its channels.
#[derive(Drop)]
pub struct Signal {
    channels: Vec<Channel>,
}

impl Model for Signal {
    ghost use Rattle.std.specs.Prelude.{List, ℤ};
    ghost use Rattle.dsp_check.specs.Channels.{AreChannels};

    ghost Value = { List (List ℤ) };

    ghost view = { λ s. s.channels.items };

    ghost invariant = { λ s. AreChannels s.channels.items };
}

impl Signal {
    /// A signal of no frames. It is to have 1 to 16 channels.
    pub fn new(alloc: Global, channels: u8) -> Result<Signal, AllocError>
        requires some { 1 ≤ channels }
        requires few { channels ≤ 16 }
        ensures value { IfOk result (λ s. s ≡ no_frames channels) }
        ensures are { IfOk result AreChannels }
    {
        let mut empty = Vec::with_capacity(alloc, usize::from(channels))?;
        for _ in 0..channels {
            empty.push(Channel::of(Vec::new(alloc)))?;
        }
        Ok(Signal { channels: empty })
    }

    /// A signal of these channels.
    pub(crate) fn of(channels: Vec<Channel>) -> Signal
        requires { AreChannels channels.items }
        ensures { result ≡ channels.items }
    {
        Signal { channels }
    }

    /// Adds a frame, which is to have a sample for each channel. Where memory is wanting the signal
    /// stays.
    pub fn put(&mut self, frame: &[i32]) -> Result<(), AllocError>
        requires { length frame.now ≡ length self.old }
        ensures ok { OnOk result (self.new ≡ with_frame self.old frame.now) }
        ensures err { OnErr result (self.new ≡ self.old) }
        ensures are { AreChannels self.new }
    {
        add_frame(self.channels.as_mut_slice(), frame)
    }

    /// How many channels there are, 1 to 16.
    pub fn channels(&self) -> usize
        ensures count { result ≡ length self.now }
        ensures some { 1 ≤ result }
        ensures few { result ≤ 16 }
        ensures are { AreChannels self.now }
    {
        self.channels.len()
    }

    /// How many frames there are.
    pub fn frames(&self) -> usize
        ensures { result ≡ frame_count self.now }
    {
        self.channels[0].as_slice().len()
    }

    /// The samples of a channel.
    pub fn channel(&self, c: usize) -> &[i32]
        requires { c < length self.now }
        ensures value { result.now ≡ get_or self.now c [] }
        ensures alike { length result.now ≡ frame_count self.now }
    {
        self.channels[c].as_slice()
    }

    /// Writes frame n over a slice of as many samples as there are channels.
    pub(crate) fn write_frame(&self, n: usize, frame: &mut [i32])
        requires { length frame.old ≡ length self.now }
        ensures { frame.new ≡ frame_at self.now n }
    {
        for (c, x) in frame.iter_mut().enumerate() {
            *x = sample(self.channel(c), n);
        }
    }

    /// The same signal again.
    pub(crate) fn copy(&self, alloc: Global) -> Result<Signal, AllocError>
        ensures { IfOk result (λ s. s ≡ self.now) }
    {
        let mut channels = Vec::with_capacity(alloc, self.channels.len())?;
        for c in 0..self.channels.len() {
            channels.push(Channel::of(self.channel(c).to_vec(alloc)?))?;
        }
        Ok(Signal::of(channels))
    }
}
