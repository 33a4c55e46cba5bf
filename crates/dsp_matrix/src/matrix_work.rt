ghost use Rattle.std.specs.Prelude.{◌≡◌};
ghost use Rattle.dsp_matrix.specs.Matrices.{block_of, sides_of};

use crate::{GroupWork, MatrixSample, mat_add, mat_scale, mat_sub, mat_trans};
use dsp_defs::{Block, Steps};
use dsp_filter::samples_of;
use dsp_sat::Sample;
use std::alloc::{AllocError, Global};
use std::sync::ledger::Ledger;

/// What becomes of the elements of a group of `rows` rows and `columns` columns: `mat_add`, `mat_sub`,
/// `mat_scale` or `mat_trans`.
#[derive(Drop)]
pub enum MatrixWork<T: Copy> {
    Add {
        rows: u8,
        columns: u8,
        matrix: Vec<T>,
    },
    Sub {
        rows: u8,
        columns: u8,
        matrix: Vec<T>,
    },
    Scale {
        rows: u8,
        columns: u8,
        fract: T,
        shift: i32,
    },
    Trans {
        rows: u8,
        columns: u8,
    },
}

impl<T: MatrixSample> MatrixWork<T> {
    /// The rows and columns of a group.
    fn sides(&self) -> (usize, usize)
        ensures { result ≡ sides_of (block_of T.number self.now) }
    {
        match self {
            MatrixWork::Add { rows, columns, .. }
            | MatrixWork::Sub { rows, columns, .. }
            | MatrixWork::Scale { rows, columns, .. }
            | MatrixWork::Trans { rows, columns } => { (usize::from(*rows), usize::from(*columns)) }
        }
    }
}

impl<T: MatrixSample> GroupWork<T> for MatrixWork<T> {
    ghost use Rattle.dsp_matrix.specs.Matrices.{block_of, group, IsElementwiseIn};
    ghost use Rattle.dsp_matrix.specs.Laws.{elementwise-grouped};

    ghost block = { block_of T.number };

    ghost IsOf = { IsElementwiseIn T.format };

    ghost group = { group T.format };

    ghost grouped = { elementwise-grouped T.format };

    fn of_block(alloc: Global, from: &Block) -> Result<Self, AllocError> {
        Ok(match from {
            Block::MatAdd {
                rows,
                columns,
                matrix,
            } => MatrixWork::Add {
                rows: *rows,
                columns: *columns,
                matrix: samples_of(alloc, matrix.as_slice())?,
            },
            Block::MatSub {
                rows,
                columns,
                matrix,
            } => MatrixWork::Sub {
                rows: *rows,
                columns: *columns,
                matrix: samples_of(alloc, matrix.as_slice())?,
            },
            Block::MatScale {
                rows,
                columns,
                fract,
                shift,
            } => MatrixWork::Scale {
                rows: *rows,
                columns: *columns,
                fract: T::of_number(*fract),
                shift: *shift,
            },
            Block::MatTrans { rows, columns } => MatrixWork::Trans {
                rows: *rows,
                columns: *columns,
            },
            _ => unreachable!(),
        })
    }

    fn taken(&self) -> usize {
        let (rows, columns) = self.sides();
        rows * columns
    }

    fn given(&self) -> usize {
        let (rows, columns) = self.sides();
        rows * columns
    }

    #[inline(always)]
    fn transform<L: Ledger>(&self, samples: &[T], out: &mut [T], steps: &mut Steps<L>) {
        match self {
            MatrixWork::Add { matrix, .. } => mat_add(samples, matrix, out),
            MatrixWork::Sub { matrix, .. } => mat_sub(samples, matrix, out),
            MatrixWork::Scale { fract, shift, .. } => {
                mat_scale(samples, *fract, *shift, out, steps)
            }
            MatrixWork::Trans { rows, columns } => {
                mat_trans(samples, usize::from(*rows), usize::from(*columns), out)
            }
        }
    }

    fn transform_at_once<L: Ledger>(
        &self,
        input: &[T],
        output: &mut [T],
        steps: &mut Steps<L>,
    ) -> bool {
        // Each element is scaled by itself, so the groups need not be told apart.
        match self {
            MatrixWork::Scale { fract, shift, .. } => {
                let count = output.len();
                mat_scale(&input[..count], *fract, *shift, output, steps);
                true
            }
            _ => false,
        }
    }
}
