//! The samples of a block, read from its bytes.
ghost use Rattle.std.specs.Prelude.{◌≡◌, ◌*◌, ◌/◌, ◌≤◌, length, take, drop, All, IfOk};
ghost use Rattle.dsp_defs.specs.Bytes.{IsValue, sample_of, width};
ghost use Rattle.dsp_defs.specs.Signal.{values};
ghost use Rattle.dsp_session.specs.SampleRow.{SampleRow};

use dsp_ports::Taker;
use dsp_wave::{Coding, decode, whole_samples, width};
use std::alloc::{AllocError, Global};
use std::marker::Model;

/// Reads the samples of some bytes to the front, and answers their number.
fn decode_front(coding: Coding, bytes: &[u8], samples: &mut [i32]) -> usize
    requires { length bytes.now ≤ length samples.old * width coding }
    ensures count { result ≡ length bytes.now / width coding }
    ensures within { result ≤ length samples.old }
    ensures values { take result samples.new ≡ values (length bytes.now / width coding) (λ i.
        sample_of coding (take (width coding) (drop (i * width coding) bytes.now))) }
    ensures fits { All (IsValue coding) (take result samples.new) }
{
    let count = whole_samples(coding, bytes.len());
    decode(
        coding,
        &bytes[..count * width(coding)],
        &mut samples[..count],
    );
    count
}

/// Room for samples, to the front of which the samples of bytes in a coding are read.
#[derive(Drop)]
pub struct Samples {
    coding: Coding,
    row: Vec<i32>,
}

impl Model for Samples {
    ghost use Rattle.dsp_session.specs.SampleRow.{SampleRow};

    ghost Value = { SampleRow };

    ghost view = { λ s. record { coding = s.coding; row = s.row.items } };
}

impl Samples {
    /// Room for so many samples.
    pub fn new(alloc: Global, coding: Coding, count: usize) -> Result<Self, AllocError>
        ensures { IfOk result (λ s. (s.coding ≡ coding) × (length s.row ≡ count)) }
    {
        let row = vec![in alloc; 0; count]?;
        Ok(Samples { coding, row })
    }

    /// How the samples stand as bytes.
    pub fn coding(&self) -> Coding
        ensures { result ≡ self.now.coding }
    {
        self.coding
    }

    /// The samples stand in this coding from now on.
    pub fn set_coding(&mut self, coding: Coding)
        ensures { self.new ≡ record self.old { coding = coding } }
    {
        self.coding = coding;
    }

    /// The first samples.
    pub fn front(&self, count: usize) -> &[i32]
        requires { count ≤ length self.now.row }
        ensures { result.now ≡ take count self.now.row }
    {
        &self.row[..count]
    }
}

impl Taker for Samples {
    ghost use Rattle.dsp_defs.specs.Bytes.{width};
    ghost use Rattle.dsp_session.specs.SampleRow.{HasRead};

    ghost room = { λ s. length s.row * width s.coding };

    ghost Takes = { HasRead };

    fn take(&mut self, bytes: &[u8]) {
        decode_front(self.coding, bytes, self.row.as_mut_slice());
    }
}
