//! Filters of one channel on all channels of a frame, as units, blocks that give a frame for each frame
//! alone, and what makers share.
#![tactic(auto)]

mod chain;
mod channels;
mod each_channel;
mod filter;
mod frame_work;
mod in_flight;
mod kept;
mod machine;
mod making;
mod memoryless;
mod samples;
mod step_filter;
mod stepwise;
mod turning;
mod wave;

pub use chain::run_chain;
pub use channels::{feed_block, finish_channels};
pub use each_channel::EachChannel;
pub use filter::Filter;
pub use frame_work::FrameWork;
pub use in_flight::InFlight;
pub use machine::{Machine, run_machine};
pub use making::{check_block, check_multiple, check_taps};
pub use memoryless::Memoryless;
pub use samples::{all_fit, are_samples, number_of, samples_of, write_four, write_three};
pub use step_filter::StepFilter;
pub use stepwise::Stepwise;
pub use turning::Turning;
pub use wave::WaveMachine;
