ghost use Rattle.std.specs.Prelude.{◌≡◌, Err, Ok, MatchOption, length};
ghost use Rattle.dsp_matrix.specs.Faults.{side_fault, sides_fault, count_fault, number_fault, numbers_fault};
ghost use Rattle.dsp_matrix.specs.Faults.{shift_fault, scale_fault, matrix_fault, op_fault};

use crate::{GroupOp, MatrixSample};
use dsp_defs::{MAX_MATRIX_SIDE, MakeFault};
use dsp_sat::Sample;
use dsp_window::is_sample;

/// Refuses a side that is not in 1..64.
pub(crate) fn check_side(side: u8) -> Result<(), MakeFault>
    ensures { MatchOption (side_fault side) (result ≡ Ok tt) (λ e. result ≡ Err e) }
{
    if side == 0 || side > MAX_MATRIX_SIDE {
        return Err(MakeFault::Range {
            value: i128::from(side),
        });
    }
    Ok(())
}

/// Refuses sides that are not in 1..64.
pub(crate) fn check_sides(rows: u8, columns: u8) -> Result<(), MakeFault>
    ensures { MatchOption (sides_fault rows columns) (result ≡ Ok tt) (λ e. result ≡ Err e) }
{
    check_side(rows)?;
    check_side(columns)
}

/// Refuses a count of numbers that is not the wanted one.
pub(crate) fn check_count(count: usize, wanted: usize) -> Result<(), MakeFault>
    ensures { MatchOption (count_fault wanted count) (result ≡ Ok tt) (λ e. result ≡ Err e) }
{
    if count != wanted {
        return Err(MakeFault::Length {
            taps: count as u64,
            factor: wanted as u64,
        });
    }
    Ok(())
}

/// Refuses a number outside of the format's word.
fn check_number<T: Sample>(number: i32) -> Result<(), MakeFault>
    ensures { MatchOption (number_fault T.format number) (result ≡ Ok tt) (λ e. result ≡ Err e) }
{
    if !is_sample::<T>(i64::from(number)) {
        return Err(MakeFault::Range {
            value: i128::from(number),
        });
    }
    Ok(())
}

/// Refuses the first number outside of the format's word.
fn check_numbers<T: Sample>(numbers: &[i32]) -> Result<(), MakeFault>
    ensures { MatchOption (numbers_fault T.format numbers.now) (result ≡ Ok tt) (λ e. result ≡ Err e) }
{
    for number in numbers {
        check_number::<T>(*number)?;
    }
    Ok(())
}

/// Refuses a shift that a matrix cannot be scaled by.
fn check_shift<T: MatrixSample>(shift: i32) -> Result<(), MakeFault>
    ensures { MatchOption (shift_fault T.format shift) (result ≡ Ok tt) (λ e. result ≡ Err e) }
{
    if !T::is_matrix_shift(shift) {
        return Err(MakeFault::Range {
            value: i128::from(shift),
        });
    }
    Ok(())
}

/// Refuses a matrix of other sides, as many numbers or other numbers than a format has.
fn check_matrix<T: Sample>(rows: u8, columns: u8, list: &[i32]) -> Result<(), MakeFault>
    ensures { MatchOption (matrix_fault T.format rows columns list.now) (result ≡ Ok tt)
        (λ e. result ≡ Err e) }
{
    check_sides(rows, columns)?;
    check_count(list.len(), usize::from(rows) * usize::from(columns))?;
    check_numbers::<T>(list)
}

/// Refuses a fraction or a shift that a matrix cannot be scaled by.
fn check_scale<T: MatrixSample>(fract: i32, shift: i32) -> Result<(), MakeFault>
    ensures { MatchOption (scale_fault T.format fract shift) (result ≡ Ok tt) (λ e. result ≡ Err e) }
{
    check_number::<T>(fract)?;
    check_shift::<T>(shift)
}

/// Refuses an operation that no matrix of the format has.
pub(crate) fn check_op<T: MatrixSample>(op: &GroupOp) -> Result<(), MakeFault>
    ensures { MatchOption (op_fault T.format op.now) (result ≡ Ok tt) (λ e. result ≡ Err e) }
{
    match op {
        GroupOp::Add {
            rows,
            columns,
            list,
        }
        | GroupOp::Sub {
            rows,
            columns,
            list,
        } => { check_matrix::<T>(*rows, *columns, list.as_slice()) }
        GroupOp::Scale {
            rows,
            columns,
            fract,
            shift,
        } => {
            check_sides(*rows, *columns)?;
            check_scale::<T>(*fract, *shift)
        }
        GroupOp::Trans { rows, columns } => check_sides(*rows, *columns),
    }
}
