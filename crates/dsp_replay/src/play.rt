//! Commands over ports in memory.
ghost use Rattle.std.specs.Prelude.{◌≡◌};

use crate::case::{Case, Ports};
use dsp_blocks::BlockUnit;
use dsp_cli::{Words, run};
use dsp_defs::Steps;
use dsp_ports::{MemSink, MemSource, Source};
use std::alloc::{AllocError, Global};
use std::marker::Brand;
use std::sync::ledger::{Blank, Ledger};

/// How many bytes a report holds at most.
const REPORT: usize = 1 << 20;

/// A run over these ports with a counter of its own.
fn counted<L: Ledger>(
    alloc: Global,
    words: &Words,
    script: &mut MemSource,
    input: &mut MemSource,
    output: &mut MemSink,
    report: &mut MemSink,
    other: &mut MemSource,
    blank: Blank,
) -> u8
    requires name { blank.name ≡ L.name }
    requires parts { blank.parts ≡ 2 }
    requires ledger_parts { L.parts ≡ 2 }
{
    let mut steps: Steps<L> = Steps::new(blank);
    run::<BlockUnit, _, _, _, _, _, _>(
        alloc, words, script, input, output, report, other, &mut steps,
    )
}

/// The words of a command, where `-` is a command without words.
fn words_of(alloc: Global, command: &str) -> Result<Words, AllocError> {
    let mut words = Words::new(alloc);
    if command != "-" {
        for word in command.split(' ') {
            words.push(word)?;
        }
    }
    Ok(words)
}

/// What a command answered, and its ports behind it.
#[derive(Drop)]
struct Ended {
    status: u8,
    input: MemSource,
    output: MemSink,
    report: MemSink,
    other: MemSource,
}

/// Does what a command says, over the script and the input of the case and these bytes of another file.
fn end(
    alloc: Global,
    case: &Case,
    command: &str,
    other: &[u8],
    ports: Ports,
) -> Result<Ended, AllocError> {
    let words = words_of(alloc, command)?;
    let piece = ports.piece.max(1);
    let mut script = MemSource::new(alloc, &case.script, 61, &[ports.script])?;
    let mut input = MemSource::new(alloc, &case.input, piece, &[ports.input])?;
    let mut output = MemSink::new(alloc, ports.room, piece, &[ports.output])?;
    let mut report = MemSink::new(alloc, REPORT, 500, &[ports.report])?;
    let mut other = MemSource::new(alloc, other, piece, &[ports.other])?;
    let status = counted::<Brand>(
        alloc,
        &words,
        &mut script,
        &mut input,
        &mut output,
        &mut report,
        &mut other,
        Blank::new(2),
    );
    Ok(Ended {
        status,
        input,
        output,
        report,
        other,
    })
}

/// How many of so many bytes were taken of a source: all but those that it still gives.
fn taken_of(source: &mut MemSource, bytes: usize) -> usize {
    let mut taken = bytes;
    for _ in 0..bytes {
        let mut byte = [0];
        match source.read(&mut byte) {
            Ok(count) => taken = taken.saturating_sub(count),
            Err(_) => {}
        }
    }
    taken
}

/// Whether as many of so many bytes were taken of a source as there were to be, where that is told.
fn is_taken(source: &mut MemSource, bytes: usize, wanted: Option<usize>) -> bool {
    match wanted {
        Some(wanted) => taken_of(source, bytes) == wanted,
        None => true,
    }
}

/// Whether a command is a check: then the output of its case is the other file, and nothing is written.
fn is_check(command: &str) -> bool {
    command.starts_with("check")
}

/// Whether a command of the case answers, reports, writes and takes what it must.
pub fn agrees(alloc: Global, case: &Case, command: &str) -> Result<bool, AllocError> {
    let (other, output) = if is_check(command) {
        (case.output.as_slice(), [].as_slice())
    } else {
        ([].as_slice(), case.output.as_slice())
    };
    let ports = case.ports;
    let mut ended = end(alloc, case, command, other, ports)?;
    Ok(
        is_taken(&mut ended.input, case.input.len(), ports.taken)
            && is_taken(&mut ended.other, other.len(), ports.seen)
            && ended.status == case.status
            && ended.report.bytes() == case.report.as_slice()
            && ended.output.bytes() == output,
    )
}

/// Whether a check of these bytes answers and reports so.
fn checks(
    alloc: Global,
    case: &Case,
    other: &[u8],
    status: u8,
    report: &str,
) -> Result<bool, AllocError> {
    let ended = end(alloc, case, "check s i o", other, Ports::GOOD)?;
    Ok(
        ended.status == status
            && ended.report.bytes() == report.as_bytes()
            && ended.output.bytes().is_empty(),
    )
}

/// Whether a case is a run that is done.
pub fn has_output(case: &Case) -> bool {
    case.status == 0
        && case
            .commands
            .as_str()
            .split(',')
            .any(|command| command.starts_with("run "))
}

/// Whether a check says of the output of the case that it is that of its script, and of the output with
/// another byte, which the number chooses, at which place it differs.
pub fn is_found(alloc: Global, case: &Case, number: u64) -> Result<bool, AllocError> {
    let size = case.output.len();
    let same = format!(in alloc; "dspfx: same\nbytes {size}\n")?;
    if !checks(alloc, case, &case.output, 0, &same)? {
        return Ok(false);
    }
    let mut changed = case.output.to_vec(alloc)?;
    let place = changed_place(&mut changed, number)?;
    let differs = format!(in alloc; "dspfx: differs at {place}\n")?;
    checks(alloc, case, &changed, 11, &differs)
}

/// Changes a byte that the number chooses, or adds one to none, and returns its place.
fn changed_place(bytes: &mut Vec<u8>, number: u64) -> Result<usize, AllocError> {
    if bytes.is_empty() {
        bytes.push(0)?;
        return Ok(0);
    }
    let place = (number % bytes.len() as u64) as usize;
    bytes[place] ^= 1 << (number % 8) as u32;
    Ok(place)
}
