//! Cascades of second-order sections.
#![tactic(auto)]

mod biquad_sample;
mod biquads;
mod cascade;
mod cascade_section;
mod closing;
mod four_sections;
mod kept;
mod lane_numbers;
mod making;
mod parameters;
mod section;
mod section64;

pub use biquad_sample::BiquadSample;
pub use biquads::{Biquad15, Biquad31, Biquad64, BiquadCalls, Biquads};
pub use cascade::Cascade;
pub use cascade_section::CascadeSection;
pub use four_sections::FourSections;
pub use making::{check_coefficients, check_shift};
pub use section::Section;
pub use section64::Section64;
