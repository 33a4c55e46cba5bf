//! The unit of any block of a script.
#![tactic(auto)]

mod block_unit;
mod cascades;
mod drive;
mod drives;
mod held;
mod look;
mod looks;
mod makers;
mod of_block;

pub use block_unit::BlockUnit;
use cascades::Cascades;
use drive::Drive;
use drives::{Feed, Finish, Pass, Restore};
use held::Held;
use look::Look;
use looks::{Keep, KeptCount, MeasureAt, Measures, Place};
