//! A script for a host program that has its samples in memory: each call judges all that it is given, and a
//! signal goes on from call to call by the numbers that its blocks keep, which the host holds. Such calls share
//! nothing, and what they take they free. For small calls a host can hold a signal itself, as an `Ongoing`.
#![tactic(auto)]

mod ongoing;
mod opening;
mod pieces;
mod refusal;
mod tail;

pub use ongoing::{Ongoing, held_is_text};
pub use opening::open;
pub use pieces::{Piece, feed, feed_piece, judge, reopen, save};
pub use refusal::{OpenFault, Refusal};
pub use tail::finish;
