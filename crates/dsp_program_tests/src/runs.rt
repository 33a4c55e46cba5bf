ghost use Rattle.std.specs.Prelude.{◌≡◌};

use crate::memory::{sink_of, source_of, words_of};
use crate::same::same_count;
use dsp_blocks::BlockUnit;
use dsp_cli::{Words, places, run};
use dsp_defs::Steps;
use dsp_ports::{CleanSource, MemSink, MemSource};
use std::alloc::Global;
use std::marker::Brand;
use std::process::Abort;
use std::sync::ledger::{Blank, Ledger};

/// A run over these ports with a counter of its own.
fn counted<L: Ledger>(
    alloc: Global,
    words: &Words,
    script: &mut MemSource,
    input: &mut CleanSource,
    output: &mut MemSink,
    report: &mut MemSink,
    other: &mut MemSource,
    blank: Blank,
) -> u8
    requires name { blank.name ≡ L.name }
    requires parts { blank.parts ≡ 2 }
    requires ledger_parts { L.parts ≡ 2 }
{
    let mut steps: Steps<L> = Steps::new(blank);
    run::<BlockUnit, _, _, _, _, _, _>(
        alloc, words, script, input, output, report, other, &mut steps,
    )
}

const RUN: &[&str] = &["run", "s", "i", "o"];

const HALVES: &[u8] = b"dspfx 1 input raw q15 1 8000 fir {16384} output raw";

const EXAMPLE: &[u8] = &[0xE8, 0x03, 0x18, 0xFC, 0xFF, 0xFF];

/// Runs the program of these words over an input that never fails, and compares its status with 0.
fn runs_to_its_end(
    rt: &impl Abort,
    alloc: Global,
    texts: &[&str],
    script: &mut MemSource,
    input: &mut CleanSource,
    output: &mut MemSink,
    report: &mut MemSink,
) {
    let words = words_of(rt, alloc, texts);
    let mut other = source_of(rt, alloc, &[], 1, &[]);
    let status = counted::<Brand>(
        alloc,
        &words,
        script,
        input,
        output,
        report,
        &mut other,
        Blank::new(2),
    );
    assert_same!(rt; status, 0);
}

#[test]
fn an_input_that_never_fails_is_run(rt: HostRuntime) {
    let alloc = rt.alloc();
    let mut script = source_of(&rt, alloc, HALVES, 7, &[]);
    let mut input = CleanSource::new(alloc, EXAMPLE, 3).expect(&rt, "memory");
    let mut output = sink_of(&rt, alloc, 64, 64, &[]);
    let mut report = sink_of(&rt, alloc, 512, 500, &[]);
    runs_to_its_end(
        &rt,
        alloc,
        RUN,
        &mut script,
        &mut input,
        &mut output,
        &mut report,
    );
    assert_same!(&rt;
        output.bytes(),
        [0xF4, 0x01, 0x0C, 0xFE, 0xFF, 0xFF].as_slice()
    );
}

/// What a gen of 100,000 frames of noise from 7 writes and reports.
fn long_gen(alloc: Global, rt: &impl Abort, script: &[u8]) -> (MemSink, MemSink) {
    let mut script = source_of(rt, alloc, script, 100, &[]);
    let mut input = CleanSource::new(alloc, &[], 1).expect(rt, "memory");
    let mut output = sink_of(rt, alloc, 200_000, 4096, &[]);
    let mut report = sink_of(rt, alloc, 512, 500, &[]);
    runs_to_its_end(
        rt,
        alloc,
        &["gen", "7", "100000", "s", "o"],
        &mut script,
        &mut input,
        &mut output,
        &mut report,
    );
    (output, report)
}

/// The sums of squares were computed by the formulas, sample by sample.
const LONG_REPORT: &[u8] =
    b"dspfx: done\nin 100000 frames of 2 channels q15\nout 50000 frames of 2 channels q15\nmultiplies 4100000\npower 4 channel 0 = 131228\npower 4 channel 1 = 127901\n";

const LONG_SCRIPTS: &[&[u8]] = &[
    b"dspfx 1 input raw q15 2 48000 block 64 biquad 0 {16384 0 0 0 8192 0 16384 0 0 0 8192 0} fir {1 2 3 4 4 3 2 1} decimate 2 {4096 8192 8192 4096} power output raw",
    b"dspfx 1 input raw q15 2 48000 block 4096 biquad 0 {16384 0 0 0 8192 0 16384 0 0 0 8192 0} fir {1 2 3 4 4 3 2 1} decimate 2 {4096 8192 8192 4096} power output raw",
    b"dspfx 1 input raw q15 2 48000 biquad 0 {16384 0 0 0 8192 0 16384 0 0 0 8192 0} fir {1 2 3 4 4 3 2 1} decimate 2 {4096 8192 8192 4096} power output raw",
];

#[test]
fn a_long_gen_is_the_same_in_any_blocks(rt: HostRuntime) {
    let (first, _report) = long_gen(rt.alloc(), &rt, LONG_SCRIPTS[0]);
    assert_same!(&rt; first.bytes().len(), 200_000);
    for script in LONG_SCRIPTS {
        let (output, report) = long_gen(rt.alloc(), &rt, script);
        assert_holds!(&rt; output.bytes() == first.bytes());
        assert_same!(&rt; report.bytes(), LONG_REPORT);
    }
}

#[test]
fn words_are_kept_in_order(rt: HostRuntime) {
    let words = words_of(&rt, rt.alloc(), RUN);
    same_count(&rt, words.len(), 4);
    assert_same!(&rt; words.word(3), "o");
    assert_same!(&rt; places(&words).and_then(|places| places.output), Some(3));
}
