use crate::paired_products::{are_paired, multiply_in_pairs};
use crate::products::{ByColumns, multiply};
use crate::{GroupWork, mat_trans};
use dsp_defs::{Block, Steps};
use dsp_filter::samples_of;
use std::alloc::{AllocError, Global};
use std::marker::Model;
use std::sync::ledger::Ledger;

/// The product of a group of `rows` rows and `columns` columns with a matrix of `columns` rows and
/// `given` columns. The matrix is also kept column by column, so that a row of the group and a column
/// of the matrix are slices. Where the columns are narrow, rows are multiplied two at once.
#[derive(Drop)]
pub struct ProductWork {
    rows: u8,
    columns: u8,
    given: u8,
    matrix: Vec<i16>,
    turned: Vec<i16>,
    paired: bool,
}

impl Model for ProductWork {
    ghost use Rattle.std.specs.Prelude.{◌≡◌, ◌*◌, vec_len, IsTrue};
    ghost use Rattle.dsp_defs.specs.Matrix.{transposed};
    ghost use Rattle.dsp_defs.specs.Signal.{values};
    ghost use Rattle.dsp_matrix.specs.Matrices.{IsPaired, ProductState};

    ghost Value = { ProductState };

    ghost view = { λ p.
        record { rows = p.rows; columns = p.columns; given = p.given; matrix = p.matrix.items } };

    ghost invariant = { λ p.
        (p.turned.items ≡ values (p.columns * p.given)
        (transposed p.columns p.given p.matrix.items))
        × (IsTrue p.paired → IsPaired p.rows p.columns p.given p.matrix.items) };
}

impl ProductWork {
    ghost use Rattle.std.specs.Prelude.{◌≡◌, ◌*◌, length, IfOk};

    /// The work of a product with a matrix that stands row by row.
    pub fn new(
        alloc: Global,
        rows: u8,
        columns: u8,
        given: u8,
        matrix: Vec<i16>,
    ) -> Result<Self, AllocError>
        requires { length matrix.items ≡ columns * given }
        ensures { IfOk result (λ p. p ≡ record {
          rows = rows;
          columns = columns;
          given = given;
          matrix = matrix.items;
        }) }
    {
        let mut turned = vec![in alloc; 0; matrix.len()]?;
        mat_trans(
            &matrix,
            usize::from(columns),
            usize::from(given),
            &mut turned,
        );
        let paired = are_paired(
            usize::from(rows),
            usize::from(columns),
            usize::from(given),
            &turned,
        );
        Ok(ProductWork {
            rows,
            columns,
            given,
            matrix,
            turned,
            paired,
        })
    }
}

impl GroupWork<i16> for ProductWork {
    ghost use Rattle.dsp_defs.specs.declared.format.Fmt.TheVariants.{Q15};
    ghost use Rattle.dsp_matrix.specs.Matrices.{block_of_product, group, IsProductIn};
    ghost use Rattle.dsp_matrix.specs.Laws.{product-grouped};

    ghost block = { block_of_product };

    ghost IsOf = { IsProductIn Q15 };

    ghost group = { group Q15 };

    ghost grouped = { product-grouped Q15 };

    fn of_block(alloc: Global, from: &Block) -> Result<Self, AllocError> {
        let Block::MatMult {
            rows,
            columns,
            given,
            matrix,
        } = from
        else {
            unreachable!()
        };
        let matrix = samples_of::<i16>(alloc, matrix.as_slice())?;
        ProductWork::new(alloc, *rows, *columns, *given, matrix)
    }

    fn taken(&self) -> usize {
        usize::from(self.rows) * usize::from(self.columns)
    }

    fn given(&self) -> usize {
        usize::from(self.rows) * usize::from(self.given)
    }

    fn transform<L: Ledger>(&self, samples: &[i16], out: &mut [i16], steps: &mut Steps<L>) {
        let rows = usize::from(self.rows);
        let columns = usize::from(self.columns);
        let given = usize::from(self.given);
        if self.paired {
            return multiply_in_pairs(samples, &self.matrix, rows, columns, given, out, steps);
        }
        multiply::<i16, ByColumns, L>(samples, &self.turned, rows, columns, given, out, steps)
    }

    fn transform_at_once<L: Ledger>(
        &self,
        _input: &[i16],
        _output: &mut [i16],
        _steps: &mut Steps<L>,
    ) -> bool {
        false
    }
}
