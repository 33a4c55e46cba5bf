//! The blocks that give a frame for each frame alone, by the formulas on exact numbers.
#![tactic(auto)]

mod complex;
mod frames;
mod samples;

pub use frames::given_frame;
