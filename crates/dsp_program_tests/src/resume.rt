//! Runs that are stopped after each frame, loaded, and go on, beside one run. States and outputs of an
//! independent implementation, and states at fault, are lines of dsp_replay.
ghost use Rattle.std.specs.Prelude.{◌≡◌, IfSome};
ghost use Rattle.dsp_session.specs.Session.{IsReady};

use crate::memory::{sink_of, source_of};
use dsp_blocks::BlockUnit;
use dsp_defs::{Measure, Script, StateKind, Steps};
use dsp_resume::Resume;
use dsp_script::{legal, parse};
use dsp_session::{Session, stream};
use dsp_state::{LoadFault, load};
use dsp_unit::AnyUnit;
use std::alloc::Global;
use std::marker::Brand;
use std::process::Abort;
use std::sync::ledger::{Blank, Ledger};

/// Blocks with a state of each kind, on two channels.
const EVERY_STATE: &[u8] =
    b"dspfx 1 input raw q15 2 8000 sparse {16384 -8192} {0 3} mat_add 1 2 {100 -200} mat_sub 2 1 {5 7} mat_scale 1 2 16384 1 mat_trans 2 2 mat_mult 1 2 2 {16384 8192 -8192 16384} lattice_fir {8192 -4096} lattice_iir {16384 8192} {0 16384 8192} pid 16384 8192 4096 biquad 0 {16384 0 0 0 16384 0} interpolate 2 {16384 8192 4096 -4096} to q31 biquad 0 {1073741824 0 0 536870912 0} biquad64 1 {268435456 0 0 1073741824 0} conv_partial 1 6 {1073741824 536870912} power dot min output wave";

/// Nine frames of two channels, of which the last is in no whole group.
const INPUT: &[u8] = &[
    0xE8, 0x03, 0x0C, 0xFE, 0x30, 0xF8, 0xB8, 0x0B, 0xFF, 0x7F, 0x00, 0x80, 0x39, 0x30, 0x85, 0x1A,
    0x6C, 0xD9, 0xE1, 0x10, 0x05, 0x00, 0xF9, 0xFF, 0x30, 0x75, 0x20, 0x4E, 0x01, 0x00, 0xFF, 0xFF,
    0x10, 0x27, 0xF0, 0xD8,
];

/// The state of the first frame of a biquad: a text of 71 bytes, 1 frame, and 1000, 0, 500, 0.
const STATE: &[u8] =
    b"DSPSTATE\x01\0\0\0\x47\0\0\0dspfx 1\ninput raw q15 1 8000\nbiquad 0 {16384 0 0 0 16384 0}\noutput raw\n\x01\0\0\0\xE8\x03\0\0\0\0\0\0\0\0\0\0\0\0\0\0\xF4\x01\0\0\0\0\0\0\0\0\0\0\0\0\0\0";

/// The script of a text, where it can run in blocks of four frames.
fn script_of(alloc: Global, text: &[u8]) -> Option<Script>
    ensures { IfSome result (λ script. IsReady script 4) }
{
    let script = parse(alloc, text).ok()?;
    if legal(&script, 4) {
        Some(script)
    } else {
        None
    }
}

/// What was written of a signal, and the measures that were found.
#[derive(Drop)]
struct Written {
    output: Vec<u8>,
    measures: Vec<Measure>,
}

/// A copy of bytes.
fn copied(rt: &impl Abort, alloc: Global, bytes: &[u8]) -> Vec<u8> {
    bytes.to_vec(alloc).expect(rt, "memory")
}

/// What one run of a script writes and finds.
fn run_whole<U: AnyUnit + Drop, L: Ledger>(
    rt: &impl Abort,
    alloc: Global,
    text: &[u8],
    input: &[u8],
    steps: &mut Steps<L>,
) -> Written {
    let script = script_of(alloc, text).expect(rt, "a script");
    let mut source = source_of(rt, alloc, input, 64, &[]);
    let mut sink = sink_of(rt, alloc, 512, 64, &[]);
    let mut session = Session::<U>::new(alloc, script, 4).expect(rt, "memory");
    assert_holds!(rt; stream(&mut session, &mut source, &mut sink, steps).is_ok());
    let mut measures = Vec::new(alloc);
    for index in 0..session.measures() {
        measures.push(session.measure(index)).expect(rt, "memory");
    }
    Written {
        output: copied(rt, alloc, sink.bytes()),
        measures,
    }
}

/// Stops a run after so many frames, and returns what it wrote, and its state.
fn run_first<U: AnyUnit + Drop, L: Ledger>(
    rt: &impl Abort,
    alloc: Global,
    text: &[u8],
    frames: u32,
    input: &[u8],
    steps: &mut Steps<L>,
) -> (Vec<u8>, Vec<u8>) {
    let script = script_of(alloc, text).expect(rt, "a script");
    let mut source = source_of(rt, alloc, input, 3, &[]);
    let mut sink = sink_of(rt, alloc, 512, 5, &[]);
    let Ok(mut run) = Resume::<U>::new(alloc, script, 4, frames) else {
        panic!(rt; "memory");
    };
    assert_holds!(rt; run.stop(&mut source, &mut sink, steps).is_ok());
    (
        copied(rt, alloc, sink.bytes()),
        copied(rt, alloc, run.state()),
    )
}

/// Loads a state, compares its frames, and goes on from it over the same input.
fn run_rest<U: AnyUnit + Drop, L: Ledger>(
    rt: &impl Abort,
    alloc: Global,
    state: &[u8],
    frames: u32,
    input: &[u8],
    steps: &mut Steps<L>,
) -> Written {
    let Ok(saved) = load::<U>(alloc, state) else {
        panic!(rt; "a state");
    };
    assert_holds!(rt; saved.frames() == frames);
    let mut source = source_of(rt, alloc, input, 5, &[]);
    let mut sink = sink_of(rt, alloc, 512, 3, &[]);
    assert_holds!(rt; legal(saved.script(), 4));
    let mut run = Resume::<U>::from_saved(alloc, saved, 4).expect(rt, "memory");
    assert_holds!(rt; run.go(&mut source, &mut sink, steps).is_ok());
    let mut measures = Vec::new(alloc);
    for index in 0..run.measures() {
        measures.push(run.measure(index)).expect(rt, "memory");
    }
    Written {
        output: copied(rt, alloc, sink.bytes()),
        measures,
    }
}

/// Stops blocks with states of all kinds after each number of frames, and compares both parts with one run.
fn play_states<U: AnyUnit + Drop, L: Ledger>(rt: &impl Abort, alloc: Global, blank: Blank)
    requires name { blank.name ≡ L.name }
    requires parts { blank.parts ≡ 2 }
    requires ledger_parts { L.parts ≡ 2 }
{
    let mut steps = Steps::<L>::new(blank);
    let whole = run_whole::<U, L>(rt, alloc, EVERY_STATE, INPUT, &mut steps);
    for frames in 0..10 {
        let (mut both, state) = run_first::<U, L>(
            rt,
            alloc,
            EVERY_STATE,
            frames,
            INPUT,
            &mut steps,
        );
        let rest = run_rest::<U, L>(rt, alloc, &state, frames, INPUT, &mut steps);
        both.extend_from_slice(&rest.output).expect(rt, "memory");
        assert_same!(rt; both.as_slice(), whole.output.as_slice());
        assert_same!(rt; rest.measures.as_slice(), whole.measures.as_slice());
    }
}

#[test]
fn states_of_all_kinds_go_on(rt: HostRuntime) {
    play_states::<BlockUnit, Brand>(&rt, rt.alloc(), Blank::new(2));
}

/// Loads bytes, and compares what is wrong with them.
fn is_wrong(rt: &impl Abort, alloc: Global, bytes: &[u8], wanted: (StateKind, u64)) {
    match load::<BlockUnit>(alloc, bytes) {
        Err(LoadFault::State { kind, offset }) => assert_same!(rt; (kind, offset), wanted),
        _ => panic!(rt; "no fault of the state"),
    }
}

#[test]
fn a_state_is_loaded_or_refused(rt: HostRuntime) {
    let Ok(saved) = load::<BlockUnit>(rt.alloc(), STATE) else {
        panic!(rt; "a state");
    };
    assert_same!(&rt; saved.frames(), 1);
    assert_same!(&rt; saved.numbers(), [1000, 0, 500, 0].as_slice());
    assert_holds!(&rt; STATE.len() == 123);
    is_wrong(&rt, rt.alloc(), &STATE[..122], (StateKind::Cut, 122));
}
