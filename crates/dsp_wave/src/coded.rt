ghost use Rattle.std.specs.Prelude.{◌≡◌, ◌*◌, ◌^◌, ◌<◌, length, flat_map, All};
ghost use Rattle.dsp_defs.specs.Bytes.{IsValue, bytes_of, width};

use crate::coding::width;
use crate::slices::encode;
use dsp_defs::Coding;
use dsp_ports::Piece;
use std::marker::Model;

/// Samples as their bytes in a coding, which are made where they are wanted.
#[derive(Drop)]
pub struct Coded<'a> {
    coding: Coding,
    samples: &'a [i32],
}

impl<'a> Model for Coded<'a> {
    ghost use Rattle.std.specs.Prelude.{◌*◌, ◌^◌, ◌<◌, ℕ, List, length, flat_map, All};
    ghost use Rattle.dsp_defs.specs.Bytes.{IsValue, bytes_of, width};

    ghost Value = { List ℕ };

    ghost view = { λ c. flat_map (bytes_of c.coding) c.samples.now };

    ghost invariant = { λ c. All (IsValue c.coding) c.samples.now
        × (length c.samples.now * width c.coding < 2 ^ 64) };
}

impl<'a> Coded<'a> {
    /// The bytes of these samples, each of which is to be one that the coding has bytes for.
    pub fn new(coding: Coding, samples: &'a [i32]) -> Coded<'a>
        requires fits { All (IsValue coding) samples.now }
        requires few { length samples.now * width coding < 2 ^ 64 }
        ensures { result ≡ flat_map (bytes_of coding) samples.now }
    {
        Coded { coding, samples }
    }
}

impl<'a> Piece for Coded<'a> {
    ghost bytes = { λ b. b };

    #[tactic(auto, using(crate::proofs::CodedSizes::size_of_coded))]
    fn size(&self) -> usize {
        self.samples.len() * width(self.coding)
    }

    #[tactic(auto, using(crate::proofs::CodedSizes::size_of_coded))]
    fn write_to(&self, room: &mut [u8]) {
        encode(self.coding, self.samples, room);
    }
}
