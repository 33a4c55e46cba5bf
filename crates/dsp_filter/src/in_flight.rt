/// Four machines one after another, and the last value that each gave to the next, which has not taken
/// it yet.
#[derive(Clone, Copy)]
pub struct InFlight<T, M> {
    pub first: M,
    pub second: M,
    pub third: M,
    pub fourth: M,
    pub to_second: T,
    pub to_third: T,
    pub to_fourth: T,
}
