ghost use Rattle.std.specs.Prelude.{◌≡◌, ◌<◌, ◌+◌, ◌*◌, ℕ, length, map};
ghost use Rattle.dsp_defs.specs.Formats.{accumulator, close};
ghost use Rattle.dsp_defs.specs.Numbers.{wrap};
ghost use Rattle.dsp_defs.specs.Signal.{values};
ghost use Rattle.dsp_matrix.specs.Matrices.{product_element, row_times};
ghost use Rattle.dsp_matrix.specs.Groups.{RisesJust};

use dsp_defs::Steps;
use dsp_lanes::{LaneSample, Lanes};
use dsp_sat::{Sample, product};
use std::sync::ledger::Ledger;

/// The order in which the elements of a matrix stand.
pub(crate) trait Order<T: Sample> {
    // The place of row k and column l in a matrix of so many rows and columns.
    ghost place: { ℕ → ℕ → ℕ → ℕ → ℕ };

    /// The sum of the products of a row with one column of a matrix of `given` columns.
    fn column_sum<L: Ledger>(
        row: &[T],
        matrix: &[T],
        given: usize,
        column: usize,
        steps: &mut Steps<L>,
    ) -> T::Acc
        requires inside { column < given }
        requires whole { length matrix.now ≡ length row.now * given }
        ensures sum { T.total result ≡ wrap (accumulator T.format)
            (row_times place (length row.now) given (map T.number row.now)
            (map T.number matrix.now) column) }
        ensures steps { RisesJust steps.old steps.new (length row.now) };
}

/// Row by row.
pub(crate) struct ByRows;

impl<T: Sample> Order<T> for ByRows {
    ghost use Rattle.std.specs.Prelude.{◌+◌, ◌*◌};

    ghost place = { λ rows columns k l. k * columns + l };

    fn column_sum<L: Ledger>(
        row: &[T],
        matrix: &[T],
        given: usize,
        column: usize,
        steps: &mut Steps<L>,
    ) -> T::Acc {
        let mut sum = T::empty();
        for (k, x) in row.iter().enumerate() {
            sum = T::accumulate(sum, product(*x, matrix[k * given + column], steps));
        }
        sum
    }
}

/// Column by column.
pub(crate) struct ByColumns;

impl<T: LaneSample<8>> Order<T> for ByColumns {
    ghost use Rattle.std.specs.Prelude.{◌+◌, ◌*◌};

    ghost place = { λ rows columns k l. l * rows + k };

    #[inline(always)]
    fn column_sum<L: Ledger>(
        row: &[T],
        matrix: &[T],
        _given: usize,
        column: usize,
        steps: &mut Steps<L>,
    ) -> T::Acc {
        let start = column * row.len();
        Lanes::<T, 8>::dot(row, &matrix[start..start + row.len()], steps)
    }
}

/// A row times a matrix, which has as many columns as the output has elements.
#[inline(always)]
fn multiply_row<T: Sample, O: Order<T>, L: Ledger>(
    row: &[T],
    matrix: &[T],
    out: &mut [T],
    steps: &mut Steps<L>,
)
    requires { length matrix.now ≡ length row.now * length out.old }
    ensures out { map T.number out.new ≡ values (length out.old) (λ l.
        close T.format (row_times O.place (length row.now) (length out.old) (map T.number row.now)
        (map T.number matrix.now) l)) }
    ensures steps { RisesJust steps.old steps.new (length out.old * length row.now) }
{
    let given = out.len();
    for (l, value) in out.iter_mut().enumerate() {
        let sum = O::column_sum(row, matrix, given, l, steps);
        *value = T::close(sum);
    }
}

/// Rows one after another times a matrix (`columns` by `given`).
#[inline(always)]
pub(crate) fn multiply<T: Sample, O: Order<T>, L: Ledger>(
    a: &[T],
    matrix: &[T],
    rows: usize,
    columns: usize,
    given: usize,
    out: &mut [T],
    steps: &mut Steps<L>,
)
    requires a { length a.now ≡ rows * columns }
    requires matrix { length matrix.now ≡ columns * given }
    requires out { length out.old ≡ rows * given }
    ensures out { map T.number out.new ≡ values (rows * given)
        (product_element T.format O.place columns given (map T.number a.now)
        (map T.number matrix.now)) }
    ensures steps { RisesJust steps.old steps.new (rows * (given * columns)) }
{
    for row in 0..rows {
        let start = row * columns;
        let at = row * given;
        multiply_row::<T, O, L>(
            &a[start..start + columns],
            matrix,
            &mut out[at..at + given],
            steps,
        );
    }
}
