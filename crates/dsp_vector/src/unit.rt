use crate::Operation;
use dsp_filter::Memoryless;

/// A block of this crate at its place, on all channels of a frame.
pub type VectorUnit = Memoryless<Operation>;
