ghost use Rattle.std.specs.Prelude.{◌≡◌, ◌<◌, ◌≤◌, ◌^◌};
ghost use Rattle.dsp_shape.specs.KeptRule.{kept_rule, count_by, place_by};

use dsp_defs::Block;

/// More frames than any place of a chain may have.
const ENDLESS: u64 = 1 << 62;

/// How many numbers a block keeps, by the frames that it took, and the least number of frames of which
/// it would keep such.
#[derive(Clone, Copy, Debug)]
pub struct KeptRule {
    /// The numbers of a new unit.
    fixed: u64,
    /// And for each frame of the open group.
    each: u8,
    /// The frames of a group; a block without groups has an endless one.
    period: u64,
    /// The most frames of a group that can be told from more.
    limit: u64,
}

impl KeptRule {
    /// The rule of a block over so many channels, a new unit of which keeps so many numbers.
    pub fn of_block(block: &Block, channels: u8, fixed: u64) -> KeptRule
        ensures { result ≡ kept_rule fixed channels block.now }
    {
        let (each, period, limit) = match block {
            Block::Decimate { factor, .. } => (0, u64::from(*factor), ENDLESS),
            Block::Conv { .. } => (0, ENDLESS, 1),
            Block::ConvPartial { first, count, .. } => {
                (0, ENDLESS, u64::from(*first) + u64::from(*count))
            }
            Block::Correlate { .. } => (channels, ENDLESS, ENDLESS),
            Block::MatAdd { rows, columns, .. }
            | Block::MatSub { rows, columns, .. }
            | Block::MatScale { rows, columns, .. }
            | Block::MatTrans { rows, columns }
            | Block::MatMult { rows, columns, .. } => {
                (channels, u64::from(*rows) * u64::from(*columns), ENDLESS)
            }
            Block::Max | Block::Min => (0, ENDLESS, ENDLESS),
            _ => (0, ENDLESS, 0),
        };
        KeptRule {
            fixed,
            each,
            period,
            limit,
        }
    }

    /// How many numbers a unit keeps of so many frames.
    pub fn count(self, frames: u64) -> u128
        requires { 0 < self.period }
        ensures count { result ≡ count_by self frames }
        ensures few { result ≤ 2 ^ 73 }
    {
        u128::from(self.fixed) + u128::from(self.each) * u128::from(frames % self.period)
    }

    /// The least number of frames of which a unit keeps such numbers as of so many.
    pub fn place(self, frames: u64) -> u64
        requires { 0 < self.period }
        ensures { result ≡ place_by self frames }
    {
        (frames % self.period).min(self.limit)
    }
}
