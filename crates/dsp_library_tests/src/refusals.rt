use dsp_defs::MakeFault;
use std::process::Abort;

/// Ends the test where a maker has not refused a list of so many numbers for this factor.
pub fn refuses_length<F: Drop>(
    rt: &impl Abort,
    made: Result<F, MakeFault>,
    taps: u64,
    factor: u64,
) {
    match made {
        Err(
            MakeFault::Length {
                taps: count,
                factor: wanted,
            },
        ) => assert_same!(rt; (count, wanted), (taps, factor)),
        _ => panic!(rt; "no fault of a length"),
    }
}

/// Ends the test where a maker has not refused this value as out of its range.
pub fn refuses_range<F: Drop>(rt: &impl Abort, made: Result<F, MakeFault>, value: i128) {
    match made {
        Err(MakeFault::Range { value: found }) => assert_same!(rt; found, value),
        _ => panic!(rt; "no fault of a range"),
    }
}
