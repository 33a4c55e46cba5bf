//! Convolutions.
#![tactic(auto)]

mod conv;
mod conv_partial;
mod convolution;
mod correlate;
mod extent;
mod gather;
mod making;
mod slices;
mod sums;

pub use conv::{Conv, Everything};
pub use conv_partial::{ConvPartial, Stretch};
pub use convolution::Convolution;
pub use correlate::Correlate;
pub use extent::Extent;
pub use gather::Gather;
pub use slices::{conv_partial_slices, conv_slices, correlate_slices};
