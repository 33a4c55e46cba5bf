//! Blocks that work on each sample, or on each frame alone: calls on slices, and the unit of a chain.
#![tactic(auto)]

mod calls;
mod changes;
mod clamped;
mod conversions;
mod joins;
mod operation;
mod routes;
mod sample;
mod unit;

pub use calls::{
    vec_abs, vec_add, vec_clip, vec_mult, vec_negate, vec_offset, vec_scale, vec_shift, vec_sub,
};
pub use conversions::{
    convert_7_15, convert_7_31, convert_15_7, convert_15_31, convert_31_7, convert_31_15,
};
pub use operation::Operation;
pub use sample::VectorSample;
pub use unit::VectorUnit;
