//! The shape of a run: how many frames, numbers and products its blocks take and give.
#![tactic(auto)]

mod frame_rule;
mod frames;
mod kept_rule;
mod lengths;
mod output;

pub use frame_rule::FrameRule;
pub use frames::frame_count;
pub use kept_rule::KeptRule;
pub use lengths::{cost, default_block, frames_given, given_frames, legal, most_frames, unit};
pub use output::{input_flow, output_flow, output_rate};
