ghost use Rattle.std.specs.Prelude.{◌≡◌, ◌+◌, ◌<◌, ◌^◌};
ghost use Rattle.std.specs.Option.{option_map};
ghost use Rattle.dsp_defs.specs.Sums.{full_length};
ghost use Rattle.dsp_defs.specs.declared.fault.WindowFault.{WindowFault};
ghost use Rattle.dsp_shape.specs.FrameRule.{rule_of, matrix_rule, groups_by, steady_by, most_by, given_by};
ghost use Rattle.dsp_shape.specs.FrameRule.{whole_by, live_by, gathers, window_of, HasGroup, IsRule};

use dsp_defs::{Block, WindowFault};

/// How many frames a block gives of those that it takes.
#[derive(Clone, Copy, Debug)]
pub enum FrameRule {
    /// So many for each group of so many.
    Groups { taken: u64, given: u64 },
    /// A convolution.
    Conv { taps: u64 },
    /// A part of one.
    ConvPartial { first: u64, count: u64, taps: u64 },
    /// A correlation, which gathers its input.
    Correlate { taps: u64 },
}

impl FrameRule {
    /// The rule of a block.
    pub fn of(block: &Block) -> FrameRule
        ensures { result ≡ rule_of block.now }
    {
        match block {
            Block::Interpolate { factor, .. } => FrameRule::Groups {
                taken: 1,
                given: u64::from(*factor),
            },
            Block::Decimate { factor, .. } => FrameRule::Groups {
                taken: u64::from(*factor),
                given: 1,
            },
            Block::MatAdd { rows, columns, .. }
            | Block::MatSub { rows, columns, .. }
            | Block::MatScale { rows, columns, .. }
            | Block::MatTrans { rows, columns } => FrameRule::of_matrix(*rows, *columns, *columns),
            Block::MatMult {
                rows,
                columns,
                given,
                ..
            } => FrameRule::of_matrix(*rows, *columns, *given),
            Block::Conv { taps } => FrameRule::Conv {
                taps: taps.as_slice().len() as u64,
            },
            Block::ConvPartial { first, count, taps } => FrameRule::ConvPartial {
                first: u64::from(*first),
                count: u64::from(*count),
                taps: taps.as_slice().len() as u64,
            },
            Block::Correlate { taps } => FrameRule::Correlate {
                taps: taps.as_slice().len() as u64,
            },
            _ => FrameRule::Groups { taken: 1, given: 1 },
        }
    }

    /// The rule of matrices of so many rows and columns that give so many columns.
    fn of_matrix(rows: u8, columns: u8, given: u8) -> FrameRule
        ensures { result ≡ matrix_rule rows columns given }
    {
        let rows = u64::from(rows);
        FrameRule::Groups {
            taken: rows * u64::from(columns),
            given: rows * u64::from(given),
        }
    }

    /// The frames of a group, and those that it gives for one, where the convolutions and the
    /// correlation count as giving as many as they take.
    pub fn groups(self) -> (u64, u64)
        ensures { result ≡ groups_by self }
    {
        match self {
            FrameRule::Groups { taken, given } => (taken, given),
            _ => (1, 1),
        }
    }

    /// The frames that it gives of so many, where the convolutions and the correlation count so.
    pub fn steady(self, frames: u64) -> u64
        requires group { HasGroup self }
        requires few { steady_by self frames < 2 ^ 63 }
        ensures { result ≡ steady_by self frames }
    {
        let (taken, given) = self.groups();
        frames / taken * given
    }

    /// The most frames that it gives in a call of at most so many.
    pub fn most(self, frames: u64) -> u64
        requires group { HasGroup self }
        requires fits { most_by self frames < 2 ^ 64 }
        ensures { result ≡ most_by self frames }
    {
        let (taken, given) = self.groups();
        frames.div_ceil(taken) * given
    }

    /// The frames that it is to give of so many: a partial convolution gives all of its window.
    pub fn given(self, frames: u64) -> u64
        requires group { HasGroup self }
        requires few { given_by self frames < 2 ^ 63 }
        ensures { result ≡ given_by self frames }
    {
        match self {
            FrameRule::Groups { .. } => self.steady(frames),
            FrameRule::Conv { taps } => convolution_length(frames, taps),
            FrameRule::ConvPartial { count, .. } => count,
            FrameRule::Correlate { taps } => match frames {
                0 => 0,
                _ => 2 * frames.max(taps) - 1,
            },
        }
    }

    /// The frames that it gives of a whole signal.
    pub fn whole(self, frames: u64) -> u64
        requires rule { IsRule self }
        requires taken { frames < 2 ^ 62 }
        requires given { whole_by self frames < 2 ^ 62 }
        ensures { result ≡ whole_by self frames }
    {
        let FrameRule::ConvPartial { first, count, taps } = self else {
            return self.given(frames);
        };
        count.min(convolution_length(frames, taps).saturating_sub(first))
    }

    /// The frames that it has given of a signal that may go on.
    pub fn live(self, frames: u64) -> u64
        requires rule { IsRule self }
        requires taken { frames < 2 ^ 62 }
        requires given { whole_by self frames < 2 ^ 62 }
        ensures { result ≡ live_by self frames }
    {
        match self {
            FrameRule::Groups { .. } => self.whole(frames),
            FrameRule::Conv { .. } => frames.min(self.whole(frames)),
            FrameRule::ConvPartial { first, .. } => {
                frames.saturating_sub(first).min(self.whole(frames))
            }
            FrameRule::Correlate { .. } => 0,
        }
    }

    /// Whether it gathers what comes.
    pub fn gathers(self) -> bool
        ensures { result ≡ gathers self }
    {
        matches!(self, FrameRule::Correlate { .. })
    }

    /// Its window, where that ends past the convolution.
    pub fn window(self, frames: u64) -> Option<WindowFault>
        requires rule { IsRule self }
        requires taken { frames < 2 ^ 62 }
        ensures { option_map (λ (fault : WindowFault). (fault.end, fault.length)) result
            ≡ window_of self frames }
    {
        let FrameRule::ConvPartial { first, count, taps } = self else {
            return None;
        };
        let (end, length) = (first + count, convolution_length(frames, taps));
        if length < end {
            Some(WindowFault { end, length })
        } else {
            None
        }
    }
}

/// The values of a full convolution.
pub(crate) fn convolution_length(frames: u64, taps: u64) -> u64
    requires { frames + taps < 2 ^ 64 }
    ensures { result ≡ full_length frames taps }
{
    match frames {
        0 => 0,
        _ => frames + taps - 1,
    }
}
