//! Products with a matrix of narrow columns, two rows at once.
ghost use Rattle.std.specs.Prelude.{◌≡◌, ◌<◌, ◌+◌, ◌*◌, ◌%◌, ℕ, IsTrue, length, slice_range};
ghost use Rattle.dsp_defs.specs.Matrix.{multiplied};
ghost use Rattle.dsp_defs.specs.Signal.{values};
ghost use Rattle.dsp_lanes.specs.Narrow.{IsNarrow};
ghost use Rattle.dsp_matrix.specs.Groups.{RisesJust};
ghost use Rattle.dsp_matrix.specs.Matrices.{IsPaired};

use dsp_defs::Steps;
use dsp_lanes::{FilterKernels, multiply_two_rows};
use std::sync::ledger::Ledger;

/// Whether each column of a matrix that stands column by column is narrow.
fn are_narrow(turned: &[i16], columns: usize, given: usize) -> bool
    requires { length turned.now ≡ columns * given }
    ensures { IsTrue result → (l : ℕ) → l < given
        → IsNarrow (slice_range turned.now (l * columns) (l * columns + columns)) }
{
    for l in 0..given {
        let start = l * columns;
        if !<i16 as FilterKernels<8>>::are_small(&turned[start..start + columns]) {
            return false;
        }
    }
    true
}

/// Whether rows can be multiplied two at once: where there are an even number of them, of an even number
/// of elements, and the matrix, which stands column by column here, has narrow columns in fours.
pub(crate) fn are_paired(rows: usize, columns: usize, given: usize, turned: &[i16]) -> bool
    requires { length turned.now ≡ columns * given }
    ensures rows { IsTrue result → rows % 2 ≡ 0 }
    ensures columns { IsTrue result → columns % 2 ≡ 0 }
    ensures fours { IsTrue result → given % 4 ≡ 0 }
    ensures narrow { IsTrue result → (l : ℕ) → l < given
        → IsNarrow (slice_range turned.now (l * columns) (l * columns + columns)) }
{
    if rows % 2 != 0 || columns % 2 != 0 || given % 4 != 0 {
        return false;
    }
    are_narrow(turned, columns, given)
}

/// Rows one after another times a matrix (`columns` by `given`) that stands row by row, two at once.
pub(crate) fn multiply_in_pairs<L: Ledger>(
    a: &[i16],
    matrix: &[i16],
    rows: usize,
    columns: usize,
    given: usize,
    out: &mut [i16],
    steps: &mut Steps<L>,
)
    requires paired { IsPaired rows columns given matrix.now }
    requires a { length a.now ≡ rows * columns }
    requires matrix { length matrix.now ≡ columns * given }
    requires out { length out.old ≡ rows * given }
    ensures out { out.new ≡ values (rows * given) (multiplied columns given matrix.now a.now) }
    ensures steps { RisesJust steps.old steps.new (rows * given * columns) }
{
    for pair in 0..rows / 2 {
        let start = pair * (2 * columns);
        let at = pair * (2 * given);
        multiply_two_rows(
            &a[start..start + 2 * columns],
            columns,
            matrix,
            given,
            &mut out[at..at + 2 * given],
            steps,
        );
    }
}
