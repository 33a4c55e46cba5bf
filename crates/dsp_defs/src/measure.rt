/// A measure of a whole signal: the number of its block in the script, counted from 1, the channel,
/// counted from 0, and the value. `found` is the extreme and the index of its first sample; a
/// signal without samples has none.
#[derive(Clone, Copy, Debug, PartialEq, Eq)]
pub enum Measure {
    /// The sum of the squares of a channel.
    Power {
        number: u8,
        channel: u8,
        value: i64,
    },
    /// The sum of the products of two channels.
    Dot {
        number: u8,
        value: i64,
    },
    /// The sum of the complex products of two pairs of channels.
    CmplxDot {
        number: u8,
        re: i64,
        im: i64,
    },
    /// The greatest sample of a channel.
    Max {
        number: u8,
        channel: u8,
        found: Option<(i32, u64)>,
    },
    /// The least sample of a channel.
    Min {
        number: u8,
        channel: u8,
        found: Option<(i32, u64)>,
    },
}
