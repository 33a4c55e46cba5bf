//! Cascades of biquads on all channels of a frame at once.
#![tactic(auto)]

mod bank;
mod bank_sample;
mod bank_unit;
mod block;
mod kept;
mod making;
mod numbers;
mod past;
mod sections;

pub use bank::Bank;
pub use bank_sample::BankSample;
pub use bank_unit::BankUnit;
