/// When a list may end.
#[derive(Clone, Copy, Debug, PartialEq, Eq)]
pub enum Count {
    /// At some numbers, as many as a multiple of this.
    MultipleOf(u64),
    /// At this many numbers or more.
    AtLeast(u64),
}

/// What a list may hold: the range of its numbers, how many they are at most, and when it may end.
#[derive(Clone, Copy, Debug, PartialEq, Eq)]
pub struct ListRule {
    pub low: i32,
    pub high: i32,
    pub limit: u64,
    pub count: Count,
}
