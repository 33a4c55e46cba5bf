//! The library for C and, through it, for Python. Each export answers a status; `include/tozbirem.h` declares
//! them and says what a caller must uphold. Between two calls a handle keeps a signal, and nothing else is kept.
#![tactic(auto)]

mod answer;
mod exports;
mod handles;
mod held;
mod hidden;
mod loose;
mod measures;
mod pieces;
mod plan;
mod program;
mod text;

pub use answer::Answer;
pub use exports::{
    tozbirem_explain, tozbirem_feed, tozbirem_finish, tozbirem_plan, tozbirem_program,
    tozbirem_version,
};
pub use handles::{tozbirem_hold, tozbirem_keep, tozbirem_let_go, tozbirem_push};
pub use held::Handle;
pub use measures::MeasureRow;
pub use plan::Plan;
pub use program::Lengths;
pub use text::texts_name_the_fault;
