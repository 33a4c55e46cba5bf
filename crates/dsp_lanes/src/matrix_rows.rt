//! Rows times a matrix, two rows and four columns at once: two elements of a row and those two of each
//! column are one multiply-add. The sums are of 32 bits, so the columns have to be narrow.
ghost use Rattle.std.specs.Prelude.{◌≡◌, ◌≤◌, ◌<◌, ◌+◌, ◌*◌, ◌%◌, ℕ, FitsSigned, length, map, take, drop};
ghost use Rattle.std.specs.Simd.Lanes.{Each1, chunk, put_chunk};
ghost use Rattle.dsp_defs.specs.Formats.{close};
ghost use Rattle.dsp_defs.specs.Signal.{values};
ghost use Rattle.dsp_defs.specs.Numbers.{wrap, w16, w32};
ghost use Rattle.dsp_defs.specs.declared.format.Fmt.TheVariants.{Q15};
ghost use Rattle.dsp_lanes.specs.Narrow.{IsNarrow};
ghost use Rattle.dsp_lanes.specs.Pairs.{four, pair_sum, in_turn};
ghost use Rattle.dsp_lanes.specs.MatrixRows.{column_of, column_sum, shut};
ghost use Rattle.dsp_lanes.specs.Turns.{RisesWithin};

use crate::fits::q15_fit;
use crate::pairs::PairSample;
use dsp_defs::Steps;
use std::simd::prelude::*;
use std::sync::ledger::Ledger;

/// Four elements from `at` on and four from `next` on, in turn.
#[inline(always)]
fn interleaved(matrix: &[i16], at: usize, next: usize) -> i32x8
    requires first { at + 4 ≤ length matrix.now }
    requires second { next + 4 ≤ length matrix.now }
    ensures values { result ≡ in_turn (chunk at 4 matrix.now) (chunk next 4 matrix.now) }
    ensures fit { Each1 (FitsSigned w16) result }
{
    q15_fit(matrix);
    let second = i16x4::from_slice(&matrix[next..]);
    i16x4::from_slice(&matrix[at..])
        .shuffle(second, [0, 4, 1, 5, 2, 6, 3, 7])
        .cast::<i32>()
}

/// What two elements of a row give to four sums, with the elements of their columns in turn.
#[inline(always)]
fn pair_products(elements: i32x8, rows: &[i16], j: usize) -> i32x4
    requires long { length elements ≡ 8 }
    requires fit { Each1 (FitsSigned w16) elements }
    requires rows { j + 2 ≤ length rows.now }
    ensures { result ≡ four (pair_sum rows.now elements j) 0 }
{
    let products = elements * <i16 as PairSample>::pair(rows, j);
    products.swizzle([0, 2, 4, 6]) + products.swizzle([1, 3, 5, 7])
}

/// The sums of two rows at four columns.
#[derive(Clone, Copy)]
struct TwoSums {
    upper: i32x4,
    lower: i32x4,
}

/// The sums of two rows of `columns` elements, one behind the other, at the four columns of the matrix
/// from `column` on.
#[inline(always)]
fn four_columns<M: Ledger>(
    rows: &[i16],
    columns: usize,
    matrix: &[i16],
    given: usize,
    column: usize,
    steps: &mut Steps<M>,
) -> TwoSums
    requires rows { length rows.now ≡ 2 * columns }
    requires even { columns % 2 ≡ 0 }
    requires matrix { length matrix.now ≡ columns * given }
    requires room { column + 4 ≤ given }
    ensures upper { result.upper ≡ values 4 (λ i.
        wrap w32 (column_sum rows.now matrix.now columns given 0 (column + i))) }
    ensures lower { result.lower ≡ values 4 (λ i.
        wrap w32 (column_sum rows.now matrix.now columns given columns (column + i))) }
    ensures steps { RisesWithin steps.old steps.new (8 * columns) (8 * columns) }
{
    let mut sums = TwoSums {
        upper: i32x4::splat(0),
        lower: i32x4::splat(0),
    };
    let mut j = 0;
    'pairs: while j < columns {
        let at = j * given + column;
        let elements = interleaved(matrix, at, at + given);
        sums = TwoSums {
            upper: sums.upper + pair_products(elements, rows, j),
            lower: sums.lower + pair_products(elements, rows, columns + j),
        };
        steps.count(16, 1);
        j += 2;
    }
    sums
}

/// Shuts four sums.
#[inline(always)]
fn close_four(sums: i32x4, out: &mut [i16], at: usize)
    requires fit { Each1 (FitsSigned w32) sums }
    requires long { length sums ≡ 4 }
    requires room { at + 4 ≤ length out.old }
    ensures { out.new ≡ put_chunk at out.old (map shut sums) }
{
    (sums >> Simd::splat(15))
        .simd_min(Simd::splat(0x7fff))
        .simd_max(Simd::splat(-0x8000))
        .cast::<i16>()
        .copy_to_slice(&mut out[at..]);
}

/// Two rows of `columns` elements, one behind the other, times a matrix of `columns` rows and `given`
/// columns, which stands row by row and has narrow columns; the products stand one behind the other
/// too. `columns` is even, and `given` a multiple of 4.
pub fn multiply_two_rows<M: Ledger>(
    rows: &[i16],
    columns: usize,
    matrix: &[i16],
    given: usize,
    out: &mut [i16],
    steps: &mut Steps<M>,
)
    requires rows { length rows.now ≡ 2 * columns }
    requires even { columns % 2 ≡ 0 }
    requires fours { given % 4 ≡ 0 }
    requires matrix { length matrix.now ≡ columns * given }
    requires narrow { (l : ℕ) → l < given → IsNarrow (column_of matrix.now columns given l) }
    requires out { length out.old ≡ 2 * given }
    ensures upper { take given out.new ≡ values given (λ l.
        close Q15 (column_sum rows.now matrix.now columns given 0 l)) }
    ensures lower { drop given out.new ≡ values given (λ l.
        close Q15 (column_sum rows.now matrix.now columns given columns l)) }
    ensures steps { RisesWithin steps.old steps.new (2 * given * columns) (2 * given * columns) }
{
    q15_fit(rows);
    let (upper, lower) = out.split_at_mut(given);
    let mut column = 0;
    'fours: while column < given {
        let sums = four_columns(rows, columns, matrix, given, column, steps);
        close_four(sums.upper, upper, column);
        close_four(sums.lower, lower, column);
        column += 4;
    }
}
