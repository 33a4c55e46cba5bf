//! A run that is stopped after any frame, saved, and goes on from there: what it writes in both parts
//! together is what one run writes.
#![tactic(auto)]

mod laws;
mod resume;

pub use laws::{first_part_is_told, parts_make_the_whole, rest_is_told};
pub use resume::Resume;
