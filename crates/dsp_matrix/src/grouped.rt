ghost use Rattle.std.specs.Prelude.{◌≡◌};
ghost use Rattle.dsp_matrix.specs.Faults.{block_of_op};

use crate::making::{check_count, check_op, check_side, check_sides};
use crate::{GroupFilter, MatrixSample, MatrixWork, ProductWork};
use dsp_defs::{Block, List, MakeFault};
use dsp_filter::{Filter, all_fit, check_block};
use std::alloc::Global;

/// What becomes of the elements of each group of `rows` rows and `columns` columns. A list has an element
/// of each row and column, row by row.
#[derive(Drop)]
pub enum GroupOp {
    /// A group plus a matrix: `arm_mat_add_q15`, `arm_mat_add_q31`.
    Add {
        rows: u8,
        columns: u8,
        list: List,
    },
    /// A group less a matrix: `arm_mat_sub_q15`, `arm_mat_sub_q31`.
    Sub {
        rows: u8,
        columns: u8,
        list: List,
    },
    /// A group times a fraction and a power of two: `arm_mat_scale_q15`, `arm_mat_scale_q31`.
    Scale {
        rows: u8,
        columns: u8,
        fract: i32,
        shift: i32,
    },
    /// A group transposed: `arm_mat_trans_q15`, `arm_mat_trans_q31`.
    Trans {
        rows: u8,
        columns: u8,
    },
}

/// A matrix operation on each group of samples of one channel, in Q15 or Q31.
pub type Grouped<T> = GroupFilter<T, MatrixWork<T>>;

/// The product of each group of samples of one channel with a matrix (`arm_mat_mult_q15`).
pub type GroupedMult = GroupFilter<i16, ProductWork>;

/// The block of an operation.
fn block_of(op: GroupOp) -> Block
    ensures { result ≡ block_of_op op }
{
    match op {
        GroupOp::Add {
            rows,
            columns,
            list,
        } => Block::MatAdd {
            rows,
            columns,
            matrix: list,
        },
        GroupOp::Sub {
            rows,
            columns,
            list,
        } => Block::MatSub {
            rows,
            columns,
            matrix: list,
        },
        GroupOp::Scale {
            rows,
            columns,
            fract,
            shift,
        } => Block::MatScale {
            rows,
            columns,
            fract,
            shift,
        },
        GroupOp::Trans { rows, columns } => Block::MatTrans { rows, columns },
    }
}

impl<T: MatrixSample> GroupFilter<T, MatrixWork<T>> {
    ghost use Rattle.std.specs.Prelude.{◌≡◌, IfOk, IfErr, MatchOption};
    ghost use Rattle.dsp_unit.specs.Filter.{IsNewFilter};
    ghost use Rattle.dsp_matrix.specs.Faults.{block_of_op, grouped_fault};

    /// A filter that has taken nothing, from its operation, for blocks of at most `block` samples.
    /// `Range` where the rows or the columns are not in 1..64, then `Length` where a list has not as many
    /// numbers as rows times columns, then `Range` where a fraction, a shift or a number of a list is out
    /// of its range, `Range` where the block is not in 1..`MAX_SAMPLES`, then `Memory`. No later call takes
    /// memory.
    pub fn new(alloc: Global, op: GroupOp, block: usize) -> Result<Self, MakeFault>
        ensures made { IfOk result (IsNewFilter (block_of_op op) T.format block) }
        ensures fault { MatchOption (grouped_fault T.format op block)
            (IfErr result (λ e. e ≡ MakeFault.Memory)) (λ e. result ≡ Err e) }
    {
        check_op::<T>(&op)?;
        check_block(block)?;
        let Ok(filter) = GroupFilter::of_block(alloc, &block_of(op), block) else {
            return Err(MakeFault::Memory);
        };
        Ok(filter)
    }
}

impl GroupFilter<i16, ProductWork> {
    ghost use Rattle.std.specs.Prelude.{◌≡◌, IfOk, IfErr, MatchOption, length, map};
    ghost use Rattle.dsp_unit.specs.Filter.{IsNewFilter};
    ghost use Rattle.dsp_defs.specs.declared.format.Fmt.TheVariants.{Q15};
    ghost use Rattle.dsp_defs.specs.declared.script.Block.TheVariants.{MatMult};
    ghost use Rattle.dsp_matrix.specs.Faults.{product_fault};

    /// A filter that has taken nothing, from the rows and columns of a group and the `given` columns of a
    /// matrix, whose list stands row by row, for blocks of at most `block` samples. `Range` where a side is
    /// not in 1..64, then `Length` where the list has not as many numbers as columns times given, `Range`
    /// where the block is not in 1..`MAX_SAMPLES`, then `Memory`. No later call takes memory.
    pub fn new(
        alloc: Global,
        rows: u8,
        columns: u8,
        given: u8,
        list: &[i16],
        block: usize,
    ) -> Result<Self, MakeFault>
        ensures made { IfOk result (IsNewFilter (MatMult rows columns given list.now) Q15 block) }
        ensures fault { MatchOption (product_fault rows columns given (length list.now) block)
            (IfErr result (λ e. e ≡ MakeFault.Memory)) (λ e. result ≡ Err e) }
    {
        check_sides(rows, columns)?;
        check_side(given)?;
        check_count(list.len(), usize::from(columns) * usize::from(given))?;
        check_block(block)?;
        all_fit(list);
        let Ok(matrix) = Vec::from_slice(alloc, list) else {
            return Err(MakeFault::Memory);
        };
        let Ok(work) = ProductWork::new(alloc, rows, columns, given, matrix) else {
            return Err(MakeFault::Memory);
        };
        let Ok(filter) = GroupFilter::of_work(alloc, work, block) else {
            return Err(MakeFault::Memory);
        };
        Ok(filter)
    }
}
