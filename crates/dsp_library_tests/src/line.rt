//! Callers of dsp_line.
use arrayvec::ArrayVec;
use dsp_defs::Measure;
use dsp_line::{integer, measure_line, natural, text, wide_natural};
use std::process::Abort;

#[test]
fn a_line_of_all_pieces(rt: HostRuntime) {
    let mut line = ArrayVec::<u8, 96>::new();
    text(&mut line, b"a ");
    natural(&mut line, 18446744073709551615);
    text(&mut line, b" ");
    integer(&mut line, -7);
    assert_same!(&rt; line.as_slice(), b"a 18446744073709551615 -7".as_slice());
}

#[test]
fn a_wide_number_fills_its_line(rt: HostRuntime) {
    let mut line = ArrayVec::<u8, 39>::new();
    wide_natural(&mut line, 340282366920938463463374607431768211455);
    assert_same!(&rt;
        line.as_slice(),
        b"340282366920938463463374607431768211455".as_slice()
    );
}

/// Compares the line of a measure.
fn line_is(rt: &impl Abort, measure: Measure, wanted: &[u8]) {
    assert_same!(rt; measure_line(&measure).as_slice(), wanted);
}

#[test]
fn lines_of_measures(rt: HostRuntime) {
    let power = Measure::Power {
        number: 1,
        channel: 0,
        value: 25,
    };
    line_is(&rt, power, b"power 1 channel 0 = 25\n");
    let found = Measure::Max {
        number: 2,
        channel: 0,
        found: Some((3, 0)),
    };
    line_is(&rt, found, b"max 2 channel 0 = 3 at 0\n");
    let none = Measure::Min {
        number: 12,
        channel: 15,
        found: None,
    };
    line_is(&rt, none, b"min 12 channel 15 = none\n");
    let dot = Measure::Dot {
        number: 3,
        value: -4,
    };
    line_is(&rt, dot, b"dot 3 = -4\n");
    let sums = Measure::CmplxDot {
        number: 4,
        re: -1,
        im: 7,
    };
    line_is(&rt, sums, b"cmplx_dot 4 = -1 7\n");
}
