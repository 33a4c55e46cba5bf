//! Scripts on whole signals of raw Q15 samples, as another implementation of the definitions has them;
//! and bytes that are compared.
ghost use Rattle.std.specs.Prelude.{◌≡◌, IfSome};
ghost use Rattle.dsp_defs.specs.Grammar.{IsSound};
ghost use Rattle.dsp_shape.specs.Lengths.{HasLegalBlock};

use dsp_check::{Mismatch, add_coded, compare, evaluate, signal_of, size_fault, window_fault};
use dsp_defs::{Coding, Container, Fmt, Script, Steps};
use dsp_ports::{CleanSource, Source};
use dsp_script::{legal, output_flow, parse};
use std::alloc::{AllocError, Global};
use std::marker::Brand;
use std::process::Abort;
use std::sync::ledger::{Blank, Ledger};
use std::test::Fail;

/// A script, samples of its input frame by frame, and those of its output.
struct Row {
    script: &'static [u8],
    input: &'static [i16],
    output: &'static [i16],
}

const ROWS: &[Row] = &[
    Row {
        script: b"dspfx 1 input raw q15 3 8000 cmplx_mult_real output raw",
        input: &[
            -32768, 32767, -32768, -32768, -32767, -32768, 0, -32768, -32768,
        ],
        output: &[32767, -32767, 32767, 32767, 0, 32767],
    },
    Row {
        script: b"dspfx 1 input raw q15 2 8000 fir {14 -19 16385 -14 10} output raw",
        input: &[-24222, -1, -16184, 0, -32567, 1, -10000, 2, -32767, 3, 0, 4],
        output: &[-8, -1, 5, 0, -12115, -1, -8068, 0, -16292, 0, -4975, 0],
    },
    Row {
        script: b"dspfx 1 input raw q15 2 8000 lms 8 -21114 {16383 16383 0} output raw",
        input: &[
            -15690, 27028, -12574, 4, 3638, 32766, -1371, 11, -13692, -32767,
        ],
        output: &[
            0, 27028, -32768, -32764, -32768, -2, -32768, -32757, 32767, 2,
        ],
    },
    Row {
        script: b"dspfx 1 input raw q15 1 8000 mat_scale 2 2 7 2 output raw",
        input: &[
            32767, 619, 5266, 11, 5749, 17, 16384, 16334, -16161, -5, 32767, 7, -8,
        ],
        output: &[27, 0, 4, 0, 4, 0, 14, 13, -14, -1, 27, 0],
    },
];

/// The script of a text, where some block length is legal.
pub(crate) fn script_of(alloc: Global, text: &[u8]) -> Option<Script>
    ensures sound { IfSome result IsSound }
    ensures legal { IfSome result HasLegalBlock }
{
    let script = parse(alloc, text).ok()?;
    if legal(&script, 256) {
        Some(script)
    } else {
        None
    }
}

/// The bytes of samples.
fn bytes_of(alloc: Global, samples: &[i16]) -> Result<Vec<u8>, AllocError> {
    let mut bytes = Vec::new(alloc);
    for sample in samples {
        bytes.extend_from_slice(&sample.to_le_bytes())?;
    }
    Ok(bytes)
}

/// The output bytes of a script of raw Q15 samples, where it can be worked out.
fn worked_out<L: Ledger>(
    alloc: Global,
    script: &Script,
    bytes: &[u8],
    steps: &mut Steps<L>,
) -> Result<Option<Vec<u8>>, AllocError>
    requires sound { IsSound script.now }
    requires legal { HasLegalBlock script.now }
{
    if script.input.format != Fmt::Q15 || bytes.len() > 1024 {
        return Ok(None);
    }
    let signal = signal_of(alloc, Coding::Raw15, script.input.channels, bytes)?;
    let frames = signal.frames() as u64;
    if frames > 1024
        || window_fault(script, frames).is_some()
        || size_fault(script, frames).is_some()
    {
        return Ok(None);
    }
    let given = evaluate(alloc, script, &signal, steps)?;
    let mut out = Vec::new(alloc);
    add_coded(
        alloc,
        Container::Raw,
        output_flow(script).format,
        &given,
        &mut out,
    )?;
    Ok(Some(out))
}

/// Each row.
fn rows<L: Ledger>(rt: &impl Abort, alloc: Global, blank: Blank) -> Result<(), Fail>
    requires name { blank.name ≡ L.name }
    requires parts { blank.parts ≡ 2 }
    requires ledger_parts { L.parts ≡ 2 }
{
    let mut steps = Steps::<L>::new(blank);
    for row in ROWS {
        let script = script_of(alloc, row.script).ok_or("a script")?;
        let input = bytes_of(alloc, row.input)?;
        let output = bytes_of(alloc, row.output)?;
        let found = worked_out(alloc, &script, &input, &mut steps)?.ok_or("a signal")?;
        assert_same!(*rt; found.as_slice(), output.as_slice());
    }
    Ok(())
}

#[test]
fn scripts_are_worked_out(rt: HostRuntime) -> Result<(), Fail> {
    rows::<Brand>(&rt, rt.alloc(), Blank::new(2))
}

#[test]
fn bytes_are_compared_up_to_the_first_that_differs(rt: HostRuntime) -> Result<(), Fail> {
    let alloc = rt.alloc();
    let mut other = CleanSource::new(alloc, b"RIFF", 3)?;
    assert_same!(rt; compare(&mut other, b"RIFF"), Ok(4));
    let mut other = CleanSource::new(alloc, b"RIFX..", 3)?;
    assert_same!(rt; compare(&mut other, b"RIFF.."), Err(Mismatch::Differs { offset: 3 }));
    let mut left = [0; 8];
    assert_same!(rt; other.read(&mut left).ok(), Some(2));
    let mut other = CleanSource::new(alloc, b"RIF", 3)?;
    assert_same!(rt; compare(&mut other, b"RIFF"), Err(Mismatch::Differs { offset: 3 }));
    let mut other = CleanSource::new(alloc, b"RIFFs", 3)?;
    assert_same!(rt; compare(&mut other, b"RIFF"), Err(Mismatch::Differs { offset: 4 }));
    Ok(())
}
