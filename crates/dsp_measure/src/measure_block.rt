ghost use Rattle.std.specs.Prelude.{◌≡◌};
ghost use Rattle.dsp_measure.specs.Measures.{IsMeasureBlock, block_of, parts_of, size_of};

use dsp_defs::Block;

/// A block that measures.
#[derive(Clone, Copy, Debug, PartialEq, Eq)]
pub enum MeasureBlock {
    Power,
    Dot,
    CmplxDot,
    Max,
    Min,
}

impl MeasureBlock {
    /// Which one a block is.
    pub fn of(block: &Block) -> MeasureBlock
        requires { IsMeasureBlock block.now }
        ensures { block_of result ≡ block.now }
    {
        match block {
            Block::Power => MeasureBlock::Power,
            Block::Dot => MeasureBlock::Dot,
            Block::CmplxDot => MeasureBlock::CmplxDot,
            Block::Max => MeasureBlock::Max,
            Block::Min => MeasureBlock::Min,
            _ => unreachable!(),
        }
    }

    /// How many measures it has: one for each channel, or one in all.
    pub fn parts(self, channels: usize) -> usize
        ensures { result ≡ parts_of self channels }
    {
        match self {
            MeasureBlock::Power | MeasureBlock::Max | MeasureBlock::Min => channels,
            MeasureBlock::Dot | MeasureBlock::CmplxDot => 1,
        }
    }

    /// How many numbers each of them keeps.
    pub fn size(self) -> usize
        ensures { result ≡ size_of self }
    {
        match self {
            MeasureBlock::Power | MeasureBlock::Dot => 1,
            MeasureBlock::CmplxDot => 2,
            MeasureBlock::Max | MeasureBlock::Min => 4,
        }
    }
}
