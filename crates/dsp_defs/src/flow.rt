ghost use Rattle.std.specs.Prelude.{◌≡◌, ◌<◌, ◌^◌};
ghost use Rattle.dsp_defs.specs.Block.{channels_after};
ghost use Rattle.dsp_defs.specs.Table.{flow_after};

use crate::{Block, Fmt};

/// What flows at a place of a chain: frames of this many samples in this format.
#[derive(Clone, Copy, Debug, PartialEq, Eq)]
pub struct Flow {
    pub format: Fmt,
    pub channels: u8,
}

impl Flow {
    /// What flows behind a block: `to` changes the format; pair, complex and route blocks change the
    /// number of channels.
    pub fn after(self, block: &Block) -> Flow
        requires { channels_after self.channels block.now < 2 ^ 8 }
        ensures { result ≡ flow_after block.now self }
    {
        let format = match block {
            Block::To { format } => *format,
            _ => self.format,
        };
        let channels = match block {
            Block::Add | Block::Sub | Block::Mult | Block::MagSquared => 1,
            Block::CmplxMult | Block::CmplxMultReal => 2,
            Block::Route { channels } => channels.as_slice().len() as u8,
            _ => self.channels,
        };
        Flow { format, channels }
    }
}
