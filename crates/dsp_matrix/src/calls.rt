ghost use Rattle.std.specs.Prelude.{◌≡◌, ◌*◌, length, map};
ghost use Rattle.dsp_defs.specs.Cost.{lane_turns};
ghost use Rattle.dsp_defs.specs.Elementwise.{IsMatrixScaleShift};
ghost use Rattle.dsp_defs.specs.Matrix.{added, subtracted, scaled, transposed, multiplied};
ghost use Rattle.dsp_defs.specs.Signal.{values};
ghost use Rattle.dsp_lanes.specs.Turns.{RisesWithin};
ghost use Rattle.dsp_matrix.specs.Groups.{RisesJust};

use crate::MatrixSample;
use crate::products::{ByRows, multiply};
use crate::turned_rows::turn_rows;
use dsp_defs::Steps;
use dsp_sat::{Sample, WideSample};
use std::sync::ledger::Ledger;

/// A matrix plus a matrix, saturated: `arm_mat_add_q15`, `arm_mat_add_q31`. All are stored row by row,
/// with equal lengths.
pub fn mat_add<T: MatrixSample>(a: &[T], b: &[T], out: &mut [T])
    requires left { length a.now ≡ length out.old }
    requires right { length b.now ≡ length out.old }
    ensures { map T.number out.new ≡ values (length out.old)
        (added T.format (map T.number b.now) (map T.number a.now)) }
{
    T::add_slices(a, b, out)
}

/// A matrix less a matrix, saturated: `arm_mat_sub_q15`, `arm_mat_sub_q31`. All are stored row by row,
/// with equal lengths.
pub fn mat_sub<T: MatrixSample>(a: &[T], b: &[T], out: &mut [T])
    requires left { length a.now ≡ length out.old }
    requires right { length b.now ≡ length out.old }
    ensures { map T.number out.new ≡ values (length out.old)
        (subtracted T.format (map T.number b.now) (map T.number a.now)) }
{
    T::sub_slices(a, b, out)
}

/// A matrix times a fraction and 2^s, saturated, each product counted: `arm_mat_scale_q15`,
/// `arm_mat_scale_q31`. Lengths are equal; s is -16 to 15 in Q15 and 0 to 30 in Q31.
pub fn mat_scale<T: MatrixSample, L: Ledger>(
    a: &[T],
    f: T,
    s: i32,
    out: &mut [T],
    steps: &mut Steps<L>,
)
    requires shift { IsMatrixScaleShift T.format s }
    requires same { length a.now ≡ length out.old }
    ensures out { map T.number out.new ≡ values (length out.old)
        (scaled T.format (T.number f) s (map T.number a.now)) }
    ensures steps { RisesWithin steps.old steps.new (length out.old)
        (lane_turns T.format (length out.old)) }
{
    T::scale_slices(a, f, s, out, steps)
}

/// A matrix of `rows` rows and `columns` columns, transposed: `arm_mat_trans_q15`, `arm_mat_trans_q31`.
/// Both are stored row by row; `out` has `columns` rows.
pub fn mat_trans<T: WideSample>(a: &[T], rows: usize, columns: usize, out: &mut [T])
    requires a { length a.now ≡ rows * columns }
    requires out { length out.old ≡ rows * columns }
    ensures { map T.number out.new ≡ values (rows * columns)
        (transposed rows columns (map T.number a.now)) }
{
    let mut row = 0;
    'fours: while rows - row >= 4 {
        turn_rows::<T, 4>(a, rows, columns, row, out);
        row += 4;
    }
    'rest: while row < rows {
        turn_rows::<T, 1>(a, rows, columns, row, out);
        row += 1;
    }
}

/// A matrix (`rows` by `columns`) times a matrix (`columns` by `given`), each product counted:
/// `arm_mat_mult_q15`. All are stored row by row.
pub fn mat_mult<L: Ledger>(
    a: &[i16],
    b: &[i16],
    rows: usize,
    columns: usize,
    given: usize,
    out: &mut [i16],
    steps: &mut Steps<L>,
)
    requires a { length a.now ≡ rows * columns }
    requires b { length b.now ≡ columns * given }
    requires out { length out.old ≡ rows * given }
    ensures out { out.new ≡ values (rows * given) (multiplied columns given b.now a.now) }
    ensures steps { RisesJust steps.old steps.new (rows * columns * given) }
{
    multiply::<i16, ByRows, L>(a, b, rows, columns, given, out, steps)
}
