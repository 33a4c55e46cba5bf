//! Exact numbers of 128 bits and how they become samples, and lists that are made by a formula: the
//! values at 0, 1, .., sums of terms, and recursions over a whole signal.
#![tactic(auto)]

mod elementwise;
mod formula;
mod numbers;
mod reads;
mod recurrence;

pub use elementwise::{add, convert, mult, scale, shift_in, sub};
pub use formula::{Formula, Terms, sum_below, values};
pub use numbers::{close, difference, product, saturate, sum, word_bits, wrap};
pub use reads::{back, back_wide, delayed, sample};
pub use recurrence::{Recurrence, outputs};
