//! Matrices over groups of samples: a channel is cut into groups, and each whole group is a matrix,
//! row by row.
#![tactic(auto)]

mod calls;
mod group_filter;
mod group_work;
mod grouped;
mod making;
mod matrix_sample;
mod matrix_work;
mod open_group;
mod paired_products;
mod product_work;
mod products;
mod turned_rows;

pub use calls::{mat_add, mat_mult, mat_scale, mat_sub, mat_trans};
pub use group_filter::GroupFilter;
pub use group_work::GroupWork;
pub use grouped::{GroupOp, Grouped, GroupedMult};
pub use matrix_sample::MatrixSample;
pub use matrix_work::MatrixWork;
pub use product_work::ProductWork;
