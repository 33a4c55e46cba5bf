//! LMS filters and controllers.
#![tactic(auto)]

mod adapting;
mod lms;
mod lms_sample;
mod lms_unit;
mod pairs;
mod pid;
mod pid_machine;
mod pid_sample;
mod pid_work;
mod weights;

pub use lms::{Lms, Lms15, Lms31};
pub use lms_sample::LmsSample;
pub use lms_unit::LmsUnit;
pub use pid::{Pid, Pid15, Pid31, PidCalls};
pub use pid_sample::PidSample;
pub use pid_work::PidWork;
