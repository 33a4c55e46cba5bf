ghost use Rattle.std.specs.Prelude.{◌≡◌, IfOk, IsTrue};
ghost use Rattle.dsp_files.specs.OverFiles.{Answers, IsStopped, RanOver, name_at, new_ports};

use crate::ports::{FileSink, FileSource};
use crate::report::OutSink;
use dsp_cli::{Places, Words, output_line, places, run};
use dsp_defs::Steps;
use dsp_ports::Sink;
use dsp_unit::AnyUnit;
use std::alloc::{AllocError, Global};
use std::fs::Files;
use std::io::Print;
use std::marker::Model;
use std::os::fd::AsRawFd;
use std::sync::ledger::{Blank, Ledger};

/// How many bytes of an input are read ahead. A script is read whole, by large reads.
const AHEAD: usize = 65_536;

/// How many bytes a conversion reads ahead, which has no script: it takes so many more at a time that each read goes
/// to the file itself.
const CONVERSION_AHEAD: usize = 16_384;

/// The status of what was done and could not be reported.
const NOT_REPORTED: u8 = 9;

/// The status of an output that isn't written.
const NOT_WRITTEN: u8 = 8;

/// The ports of a run over files: the files that its words name, and standard output for the report.
#[derive(Drop)]
pub struct FilePorts<'a, R: Files + Print> {
    script: FileSource<'a, R>,
    input: FileSource<'a, R>,
    output: FileSink<'a, R>,
    other: FileSource<'a, R>,
    report: OutSink<'a, R>,
}

impl<'a, R: Files + Print> Model for FilePorts<'a, R> {
    ghost use Rattle.dsp_files.specs.OverFiles.{PortStates};

    ghost Value = { PortStates };

    ghost view = { λ s. record {
      script = s.script;
      input = s.input;
      output = s.output;
      other =
          s.other;
      report = s.report;
    } };
}

/// The word that names a place, or an empty name where none does.
fn named(words: &Words, place: Option<usize>) -> &str
    ensures { result.now ≡ name_at words.now place }
{
    match place {
        Some(index) if index < words.len() => words.word(index),
        _ => "",
    }
}

impl<'a, R: Files + Print> FilePorts<'a, R> {
    /// The ports of the files that the words name, each at its place; none is opened yet. An output that is the file
    /// of the script or of the input, by whatever name, will not be written. It errs where memory is wanting, and
    /// takes none for a place that the words do not name.
    pub fn new(alloc: Global, rt: &'a R, words: &'a Words) -> Result<FilePorts<'a, R>, AllocError>
        ensures { IfOk result (λ ports. ports ≡ new_ports words.now) }
    {
        let Places {
            script,
            input,
            output,
            other,
        } = places(words).unwrap_or(Places {
            script: None,
            input: None,
            output: None,
            other: None,
        });
        let script = named(words, script);
        let input = named(words, input);
        let ahead = if script.is_empty() {
            CONVERSION_AHEAD
        } else {
            AHEAD
        };
        let output = FileSink::new(alloc, rt, named(words, output), script, input)?;
        Ok(FilePorts {
            script: FileSource::new(alloc, rt, script, 0)?,
            input: FileSource::new(alloc, rt, input, ahead)?,
            output,
            other: FileSource::new(alloc, rt, named(words, other), ahead)?,
            report: OutSink::new(rt),
        })
    }
}

/// The stream was begun, and stopped before its end.
fn is_stopped(status: u8) -> bool
    ensures { IsTrue result → IsStopped status }
{
    status == 4 || status == 5 || status == 7 || status == 8
}

/// Writes what is left of the output of a run that has ended with this status, and its report, and answers the exit
/// status.
fn conclude<R: Files + Print>(
    status: u8,
    output: &mut FileSink<'_, R>,
    report: &mut OutSink<'_, R>,
) -> u8
    ensures answers { Answers status result }
    ensures output { output.new ≡ output.old }
{
    if is_stopped(status) && output.spill().is_err() {
        report.clear();
        let _ = report.write(output_line());
        let _ = report.release();
        return NOT_WRITTEN;
    }
    match report.release() {
        Err(_) if status == 0 => NOT_REPORTED,
        _ => status,
    }
}

/// Does what the words say over new ports of the files that they name, and answers the exit status of
/// `dsp_cli::run`. Where a run stopped and what it had accepted before cannot be written, it reports in place of the
/// run's line that the output is not written, and answers 8; where a command was done and cannot report it, 9.
pub fn run_files<U: AnyUnit + Drop, R: Files<File: AsRawFd> + Print, L: Ledger>(
    alloc: Global,
    words: &Words,
    ports: &mut FilePorts<'_, R>,
    blank: Blank,
) -> u8
    requires named { ports.old ≡ new_ports words.now }
    requires name { blank.name ≡ L.name }
    requires parts { blank.parts ≡ 2 }
    requires ledger_parts { L.parts ≡ 2 }
    ensures { RanOver words.now ports.old ports.new result }
{
    let mut steps: Steps<L> = Steps::new(blank);
    let status = run::<U, _, _, _, _, _, _>(
        alloc,
        words,
        &mut ports.script,
        &mut ports.input,
        &mut ports.output,
        &mut ports.report,
        &mut ports.other,
        &mut steps,
    );
    conclude(status, &mut ports.output, &mut ports.report)
}
