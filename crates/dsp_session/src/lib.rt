//! A script at work on bytes: a session takes blocks of the input's samples and gives bytes of the
//! output, and a stream goes over a whole input.
#![tactic(auto)]

mod closing;
mod fault;
mod opening;
mod resuming;
mod samples;
mod session;
mod streaming;
mod worker;

pub use fault::{LengthFault, PartFault, StreamFault};
pub use resuming::{stream_first, stream_rest};
pub use session::Session;
pub use streaming::{Totals, stream};
