ghost use Rattle.std.specs.Prelude.{IfOk};
ghost use Rattle.dsp_defs.specs.Grammar.{IsSound};

use dsp_defs::{Fmt, MAX_INPUT, Script};
use dsp_script::{
    ParseFault, ScriptFault, ScriptKind, cost, default_block, frames_given, legal, parse, print,
    unit,
};
use std::alloc::{AllocError, Global};
use std::process::Abort;
use std::test::Fail;

mod vectors;

/// The name of a kind of fault, as in a report.
fn name_of(kind: &ScriptKind) -> &'static str {
    match kind {
        ScriptKind::TooLong => "TooLong",
        ScriptKind::BadByte => "BadByte",
        ScriptKind::UnknownWord => "UnknownWord",
        ScriptKind::BadNumber => "BadNumber",
        ScriptKind::OutOfRange { .. } => "OutOfRange",
        ScriptKind::Missing => "Missing",
        ScriptKind::NoSuchForm { .. } => "NoSuchForm",
        ScriptKind::ChannelsHere { .. } => "ChannelsHere",
        ScriptKind::Length { .. } => "Length",
        ScriptKind::TooMany { .. } => "TooMany",
        ScriptKind::BadName => "BadName",
        ScriptKind::NameTaken => "NameTaken",
    }
}

/// The name of a format in a script.
fn format_name(format: Fmt) -> &'static str {
    match format {
        Fmt::Q7 => "q7",
        Fmt::Q15 => "q15",
        Fmt::Q31 => "q31",
    }
}

/// What stands of a fault in a report.
fn described(alloc: Global, fault: ScriptFault) -> Result<String, AllocError> {
    let name = name_of(&fault.kind);
    let offset = fault.offset;
    match fault.kind {
        ScriptKind::OutOfRange { low, high } => {
            format!(in alloc; "{name} at {offset}, low {low}, high {high}")
        }
        ScriptKind::NoSuchForm { format } => {
            let format = format_name(format);
            format!(in alloc; "{name} at {offset}, format {format}")
        }
        ScriptKind::ChannelsHere { got, wanted } => {
            format!(in alloc; "{name} at {offset}, got {got}, wanted {wanted}")
        }
        ScriptKind::Length { taps, factor } => {
            format!(in alloc; "{name} at {offset}, taps {taps}, factor {factor}")
        }
        ScriptKind::TooMany { limit } => format!(in alloc; "{name} at {offset}, limit {limit}"),
        _ => format!(in alloc; "{name} at {offset}"),
    }
}

/// The canonical text of a text, or its first fault.
fn outcome(alloc: Global, text: &[u8]) -> Result<String, Fail> {
    match parse(alloc, text) {
        Ok(script) => Ok(
            String::from_utf8(print(alloc, &script)?)
                .ok()
                .ok_or("no text")?,
        ),
        Err(ParseFault::Script(fault)) => Ok(described(alloc, fault)?),
        Err(ParseFault::Memory) => Err(AllocError)?,
    }
}

fn script(alloc: Global, text: &[u8]) -> Result<Script, Fail>
    ensures { IfOk result IsSound }
{
    match parse(alloc, text) {
        Ok(script) => Ok(script),
        Err(fault) => Err(fault)?,
    }
}

fn number(field: Option<&[u8]>) -> Result<u64, Fail> {
    let text = str::from_utf8(field.ok_or("a field")?)?;
    Ok(text.parse()?)
}

/// Compares the outcome of some text so many times.
fn repeated_gives(
    rt: &impl Abort,
    alloc: Global,
    begins: &str,
    each: &str,
    times: usize,
    wanted: &str,
) -> Result<(), Fail> {
    let mut text = String::from_str(alloc, begins)?;
    for _ in 0..times {
        text.push_str(each)?;
    }
    let given = outcome(alloc, text.as_bytes())?;
    assert_same!(rt; given.as_str(), wanted);
    Ok(())
}

/// Texts with the outcome of each.
const ROWS: [(&str, &str); 13] = [
    (
        "dspfx 1 input raw q15 1 8000 fir { 40000 } output raw",
        "OutOfRange at 35, low -32768, high 32767",
    ),
    (
        "dspfx 1 input raw q15 1 8000 interpolate 2 {1 2 3} output raw",
        "Length at 49, taps 3, factor 2",
    ),
    (
        "dspfx 1 input raw q7 1 8000 decimate",
        "NoSuchForm at 28, format q7",
    ),
    (
        "dspfx 1 input raw q15 1 8000 add output raw",
        "ChannelsHere at 29, got 1, wanted 2",
    ),
    ("", "Missing at 0"),
    (
        "dspfx 1 input raw q15 1 8000 fir {}",
        "Length at 34, taps 0, factor 1",
    ),
    ("dspfx 1 input raw q15 1 8000 fir {--1}", "BadNumber at 34"),
    (
        "dspfx 1 input raw q15 1 8000 fir {000000000000000000001}",
        "BadNumber at 34",
    ),
    (
        "dspfx 1 input raw q15 1 8000 fir {99999999999999999999}",
        "OutOfRange at 34, low -32768, high 32767",
    ),
    ("dspfx 1 input raw q15 1 8000 Fir", "BadByte at 29"),
    ("dspfx 3", "OutOfRange at 6, low 1, high 2"),
    (
        "dspfx 1 input raw q15 1 8000 fir {16384} output raw",
        "dspfx 1\ninput raw q15 1 8000\nfir {16384}\noutput raw\n",
    ),
    (
        "dspfx 1 input wave q7 1 block 007 correlate{-0}#\noutput raw",
        "dspfx 1\ninput wave q7 1\nblock 7\ncorrelate {0}\noutput raw\n",
    ),
];

#[test]
fn worked_texts(rt: HostRuntime) -> Result<(), Fail> {
    for (text, wanted) in &ROWS {
        let given = outcome(rt.alloc(), text.as_bytes())?;
        assert_same!(&rt; given.as_str(), *wanted);
    }
    Ok(())
}

#[test]
fn texts_at_their_limits(rt: HostRuntime) -> Result<(), Fail> {
    let head = "dspfx 1 input raw q15 1 8000 ";
    let alloc = rt.alloc();
    repeated_gives(&rt, alloc, "", " ", 1_048_576, "Missing at 1048576")?;
    repeated_gives(&rt, alloc, "", " ", 1_048_577, "TooLong at 1048576")?;
    repeated_gives(&rt, alloc, head, "abs ", 65, "TooMany at 285, limit 64")?;
    let taps = "dspfx 1 input raw q15 1 8000 fir{";
    repeated_gives(
        &rt,
        alloc,
        taps,
        "1 ",
        16_385,
        "TooMany at 32801, limit 16384",
    )?;
    repeated_gives(
        &rt,
        alloc,
        head,
        "correlate {1} ",
        2,
        "TooMany at 43, limit 1",
    )
}

/// How many cases hold, each a text with its canonical text or its first fault.
fn texts_that_hold(alloc: Global, cases: &[u8]) -> Result<u32, Fail> {
    let mut count = 0u32;
    for case in cases.split(|byte| *byte == 0xfe) {
        let mut fields = case.split(|byte| *byte == 0xfd);
        if let (Some(text), Some(wanted)) = (fields.next(), fields.next()) {
            let given = outcome(alloc, text)?;
            if given.as_bytes() != wanted {
                Err(given)?;
            }
            count = count.saturating_add(1);
        }
    }
    Ok(count)
}

#[test]
fn texts_of_the_vectors(rt: HostRuntime) -> Result<(), Fail> {
    assert_same!(&rt; texts_that_hold(rt.alloc(), vectors::TEXTS)?, 232);
    Ok(())
}

/// A script, a block length that is not legal, and the unit.
fn unit_holds(alloc: Global, case: &[u8]) -> Result<bool, Fail> {
    let mut fields = case.split(|byte| *byte == 0xfd);
    let script = script(alloc, fields.next().ok_or("a text")?)?;
    let length = number(fields.next())?;
    Ok(unit(&script) == number(fields.next())? && !legal(&script, length))
}

/// A script, the frames of a run taken and given, and the products.
fn run_holds(alloc: Global, case: &[u8]) -> Result<bool, Fail> {
    let mut fields = case.split(|byte| *byte == 0xfd);
    let script = script(alloc, fields.next().ok_or("a text")?)?;
    let frames = number(fields.next())?;
    let given = number(fields.next())?;
    let products = number(fields.next())?;
    if frames > MAX_INPUT || !legal(&script, default_block(&script)) {
        return Ok(false);
    }
    Ok(frames_given(&script, frames) == given && cost(&script, frames) == u128::from(products))
}

/// What a case is of.
#[derive(Clone, Copy)]
enum Lengths {
    Unit,
    Run,
}

/// How many cases hold of these lengths.
fn lengths_that_hold(alloc: Global, lengths: Lengths, cases: &[u8]) -> Result<u32, Fail> {
    let mut count = 0u32;
    for case in cases.split(|byte| *byte == 0xfe) {
        if case.is_empty() {
            continue;
        }
        let holds = match lengths {
            Lengths::Unit => unit_holds(alloc, case)?,
            Lengths::Run => run_holds(alloc, case)?,
        };
        count = count.saturating_add(u32::from(holds));
    }
    Ok(count)
}

#[test]
fn lengths_of_the_vectors(rt: HostRuntime) -> Result<(), Fail> {
    let units = lengths_that_hold(rt.alloc(), Lengths::Unit, vectors::UNITS)?;
    let runs = lengths_that_hold(rt.alloc(), Lengths::Run, vectors::RUNS)?;
    assert_same!(&rt; (units, runs), (17, 38));
    Ok(())
}

#[test]
fn worked_lengths(rt: HostRuntime) -> Result<(), Fail> {
    {
        let halved = b"dspfx 1 input raw q15 1 8000 decimate 2 {16384} output raw";
        let halved = script(rt.alloc(), halved)?;
        assert_same!(&rt; (unit(&halved), legal(&halved, 5)), (2, false));
    }
    let third = b"dspfx 1 input raw q15 1 8000 decimate 3 {16384} output raw";
    let third = script(rt.alloc(), third)?;
    assert_same!(&rt; default_block(&third), 258);
    Ok(())
}
