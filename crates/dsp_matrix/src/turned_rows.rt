//! Rows of a matrix, written as columns.
ghost use Rattle.std.specs.Prelude.{◌≡◌, ◌≤◌, ◌<◌, ◌+◌, ◌*◌, ℕ, length, map};
ghost use Rattle.dsp_matrix.specs.Turning.{IsTurned, StaysTurned};

use dsp_sat::Sample;

/// Writes what stands at a column in N rows from `row` on, side by side.
#[inline(always)]
fn turn_column<T: Sample, const N: usize>(
    a: &[T],
    rows: usize,
    columns: usize,
    row: usize,
    column: usize,
    out: &mut [T],
)
    requires a { length a.now ≡ rows * columns }
    requires out { length out.old ≡ rows * columns }
    requires rows { row + N ≤ rows }
    requires inside { column < columns }
    ensures kept { StaysTurned rows columns (map T.number a.now) (map T.number out.old)
        (map T.number out.new) }
    ensures turned { (k : ℕ) → k < N → IsTurned rows columns (map T.number a.now)
        (map T.number out.new) (row + k) column }
{
    let at = column * rows + row;
    for k in 0..N {
        out[at + k] = a[(row + k) * columns + column];
    }
}

/// Writes N rows from `row` on as columns, column by column of the matrix, so that what is written stands
/// in groups of N.
#[inline(always)]
pub(crate) fn turn_rows<T: Sample, const N: usize>(
    a: &[T],
    rows: usize,
    columns: usize,
    row: usize,
    out: &mut [T],
)
    requires a { length a.now ≡ rows * columns }
    requires out { length out.old ≡ rows * columns }
    requires rows { row + N ≤ rows }
    ensures kept { StaysTurned rows columns (map T.number a.now) (map T.number out.old)
        (map T.number out.new) }
    ensures turned { (k j : ℕ) → k < N → j < columns
        → IsTurned rows columns (map T.number a.now) (map T.number out.new) (row + k) j }
{
    for column in 0..columns {
        turn_column::<T, N>(a, rows, columns, row, column, out);
    }
}
