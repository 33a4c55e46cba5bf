//! Kernels of the sections of cascades and lattices, several sections or channels at a time, in lanes of
//! a vector.
#![tactic(auto)]

mod ladder_lanes;
mod ladders;
mod reflections;
mod section_waves;
mod sections;
mod wave_lanes;
mod wrapped;

pub use ladders::{LadderGroups, LadderSample};
pub use reflections::reflect;
pub use section_waves::{WaveSample, turn_sections};
pub use sections::{SectionKernels, SectionSample};
pub use wave_lanes::WaveLanes;
pub use wrapped::wrapped_product;
