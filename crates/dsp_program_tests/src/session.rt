ghost use Rattle.std.specs.Prelude.{◌≡◌};

use crate::memory::{sink_of, source_of};
use dsp_blocks::BlockUnit;
use dsp_defs::{HeaderFault, Steps, WindowFault};
use dsp_ports::{MemSink, MemSource, Piece};
use dsp_script::{legal, parse};
use dsp_session::{Session, StreamFault, Totals, stream};
use dsp_unit::AnyUnit;
use std::alloc::Global;
use std::marker::Brand;
use std::sync::ledger::{Blank, Ledger};

/// What a stream of a script in blocks of two frames answers over these ports, where the script can run.
fn streamed<L: Ledger>(
    alloc: Global,
    script: &[u8],
    input: &mut MemSource,
    output: &mut MemSink,
    blank: Blank,
) -> Option<Result<Totals, StreamFault>>
    requires name { blank.name ≡ L.name }
    requires parts { blank.parts ≡ 2 }
    requires ledger_parts { L.parts ≡ 2 }
{
    let mut steps: Steps<L> = Steps::new(blank);
    let script = parse(alloc, script).ok()?;
    if !legal(&script, 2) {
        return None;
    }
    let mut session = Session::<BlockUnit>::new(alloc, script, 2).ok()?;
    Some(stream(&mut session, input, output, &mut steps))
}

/// A stream over these bytes, and what it answers and writes. The calls of these numbers fail.
struct Case {
    script: &'static [u8],
    input: &'static [u8],
    failing_reads: &'static [u32],
    failing_writes: &'static [u32],
    answer: Result<Totals, StreamFault>,
    output: &'static [u8],
}

const CASES: &[Case] = &[
    // Three samples are halved: 1000, -1000 and -1.
    Case {
        script: b"dspfx 1 input raw q15 1 8000 fir {16384} output raw",
        input: &[0xE8, 0x03, 0x18, 0xFC, 0xFF, 0xFF],
        failing_reads: &[],
        failing_writes: &[],
        answer: Ok(Totals {
            frames_taken: 3,
            frames_given: 3,
            multiplies: 3,
        }),
        output: &[0xF4, 0x01, 0x0C, 0xFE, 0xFF, 0xFF],
    },
    // Three Q7 samples with the pad byte of an odd number of them on both sides; what stands behind is not read.
    Case {
        script: b"dspfx 1 input wave q7 1 output wave",
        input: b"RIFF\x28\0\0\0WAVEfmt \x10\0\0\0\x01\0\x01\0\x40\x1F\0\0\x40\x1F\0\0\x01\0\x08\0data\x03\0\0\0\x80\x81\x7F\0",
        failing_reads: &[],
        failing_writes: &[],
        answer: Ok(Totals {
            frames_taken: 3,
            frames_given: 3,
            multiplies: 0,
        }),
        output: b"RIFF\x28\0\0\0WAVEfmt \x10\0\0\0\x01\0\x01\0\x40\x1F\0\0\x40\x1F\0\0\x01\0\x08\0data\x03\0\0\0\x80\x81\x7F\0",
    },
    // Eight bytes are declared, and five came: a block of two samples was written, and the header of all.
    Case {
        script: b"dspfx 1 input wave q15 1 output wave",
        input: b"RIFF\x2C\0\0\0WAVEfmt \x10\0\0\0\x01\0\x01\0\x40\x1F\0\0\x80\x3E\0\0\x02\0\x10\0data\x08\0\0\0\x01\0\x02\0\x03",
        failing_reads: &[],
        failing_writes: &[],
        answer: Err(StreamFault::Header {
            fault: HeaderFault::Short {
                declared: 8,
                got: 5,
            },
            offset: 49,
        }),
        output: b"RIFF\x2C\0\0\0WAVEfmt \x10\0\0\0\x01\0\x01\0\x40\x1F\0\0\x80\x3E\0\0\x02\0\x10\0data\x08\0\0\0\x01\0\x02\0",
    },
    // The second block is not read.
    Case {
        script: b"dspfx 1 input raw q15 1 8000 output raw",
        input: &[1, 0, 2, 0, 3, 0],
        failing_reads: &[2],
        failing_writes: &[],
        answer: Err(StreamFault::Input),
        output: &[1, 0, 2, 0],
    },
    // The flush fails.
    Case {
        script: b"dspfx 1 input raw q15 1 8000 output raw",
        input: &[1, 0, 2, 0],
        failing_reads: &[],
        failing_writes: &[2],
        answer: Err(StreamFault::Output),
        output: &[1, 0, 2, 0],
    },
];

#[test]
fn each_stream_answers_and_writes(rt: HostRuntime) {
    for case in CASES {
        let mut input = source_of(&rt, rt.alloc(), case.input, 64, case.failing_reads);
        let mut output = sink_of(&rt, rt.alloc(), 64, 64, case.failing_writes);
        let answer = streamed::<Brand>(
            rt.alloc(),
            case.script,
            &mut input,
            &mut output,
            Blank::new(2),
        );
        assert_same!(&rt; answer, Some(case.answer));
        assert_same!(&rt; output.bytes(), case.output);
    }
}

/// How many bytes a new session of a script has given, and its window fault where nothing comes, and where
/// one frame does.
fn first_windows<U: AnyUnit + Drop>(
    alloc: Global,
    script: &[u8],
) -> Option<(usize, Option<WindowFault>, Option<WindowFault>)> {
    let script = parse(alloc, script).ok()?;
    if !legal(&script, 2) {
        return None;
    }
    let session = Session::<U>::new(alloc, script, 2).ok()?;
    Some((
        session.out().size(),
        session.window_fault(0),
        session.window_fault(1),
    ))
}

#[test]
fn a_window_of_one_value_wants_one_frame(rt: HostRuntime) {
    assert_same!(&rt;
        first_windows::<BlockUnit>(
            rt.alloc(),
            b"dspfx 1 input raw q15 1 8000 conv_partial 0 1 {1} output raw"
        ),
        Some((0, Some(WindowFault { end: 1, length: 0 }), None))
    );
}
