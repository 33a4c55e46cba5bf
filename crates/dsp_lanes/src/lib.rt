//! Kernels on slices of samples that work on several samples at a time, in lanes of a vector.
#![tactic(auto)]

mod dot_form;
mod dots;
mod doubled;
mod eights;
mod fits;
mod format_lanes;
mod four_dots;
mod halves;
mod high_pairs;
mod high_sums;
mod kernels;
mod lane_counts;
mod lanes;
mod matrix_rows;
mod narrow_dots;
mod operations;
mod own_lanes;
mod pair_dots;
mod pair_samples;
mod pairs;
mod plain;
mod q15;
mod q31;
mod q7;
mod regroup;
mod row_form;
mod rows;
mod scales;
mod updates;
mod weights;

pub use dot_form::DotForm;
pub use fits::{q15_fit, q31_fit};
pub use format_lanes::FormatLanes;
pub use four_dots::Four;
pub use kernels::{FilterKernels, LaneKernels, LaneSample};
pub use lanes::Lanes;
pub use matrix_rows::multiply_two_rows;
pub use own_lanes::OwnLanes;
pub use pair_dots::PairDots;
pub use plain::Plain;
pub use regroup::sums_regroup;
pub use weights::{WeightSample, saturating_sum, update_weights};
