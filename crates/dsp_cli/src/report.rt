//! The report of a run that is done. It is built in place and takes no memory.
ghost use Rattle.std.specs.Prelude.{◌≡◌, ◌+◌, ◌≤◌, ◌++◌, [], length, vec_capacity};
ghost use Rattle.arrayvec.specs.ArrayVec.{array_vec_len};
ghost use Rattle.dsp_command.specs.Report.{bytes_line, converted_line, converted_text, frames_line};
ghost use Rattle.dsp_command.specs.Report.{multiplies_line, same_text};
ghost use Rattle.dsp_chain.specs.Line.{measure_counts};
ghost use Rattle.dsp_session.specs.Session.{measured};
ghost use Rattle.dsp_cli.specs.Fault.{head_text};

use crate::line::{Line, format_name};
use arrayvec::ArrayVec;
use dsp_au::Converted;
use dsp_defs::{Flow, Measure};
use dsp_line::{natural, text, wide_natural};
use dsp_session::{Session, Totals};
use dsp_unit::AnyUnit;

/// The bytes of a report at most.
const REPORT: usize = 1024;

pub type Report = ArrayVec<u8, REPORT>;

/// What a run that is done says of itself.
#[derive(Drop)]
pub struct Summary {
    pub input: Flow,
    pub output: Flow,
    pub totals: Totals,
    pub measures: Vec<Measure>,
}

/// The measures of a session, into a list that was made with room for them.
pub fn find_measures<U: AnyUnit + Drop>(session: &Session<U>, measures: &mut Vec<Measure>)
    requires empty { measures.old.items ≡ [] }
    requires room { measure_counts session.now.script.input.channels session.now.script.blocks
        ≤ vec_capacity measures.old }
    ensures { measures.new.items ≡ measured session.now }
{
    for index in 0..session.measures() {
        let Ok(()) = measures.push(session.measure(index)) else {
            unreachable!()
        };
    }
}

fn frames_line(word: &[u8], frames: u64, flow: Flow) -> Line
    requires { length word.now ≤ 3 }
    ensures { result.items ≡ frames_line word.now frames flow.channels flow.format }
{
    let mut line = ArrayVec::new();
    text(&mut line, word);
    text(&mut line, b" ");
    natural(&mut line, frames);
    text(&mut line, b" frames of ");
    natural(&mut line, u64::from(flow.channels));
    text(&mut line, b" channels ");
    text(&mut line, format_name(flow.format));
    text(&mut line, b"\n");
    line
}

fn multiplies_line(multiplies: u128) -> Line
    ensures { result.items ≡ multiplies_line multiplies }
{
    let mut line = ArrayVec::new();
    text(&mut line, b"multiplies ");
    wide_natural(&mut line, multiplies);
    text(&mut line, b"\n");
    line
}

fn push(report: &mut Report, line: &[u8])
    requires room { array_vec_len report.old ≤ 768 }
    requires line { length line.now ≤ 256 }
    ensures items { report.new.items ≡ report.old.items ++ line.now }
    ensures len { array_vec_len report.new ≡ array_vec_len report.old + length line.now }
{
    report.try_extend_from_slice(line).unwrap();
}

/// `N frames of C channels, W bits`
fn converted_line(totals: Converted) -> Line
    ensures { result.items ≡ converted_line totals.frames totals.channels totals.bits }
{
    let mut line = ArrayVec::new();
    natural(&mut line, totals.frames);
    text(&mut line, b" frames of ");
    natural(&mut line, u64::from(totals.channels));
    text(&mut line, b" channels, ");
    natural(&mut line, u64::from(totals.bits));
    text(&mut line, b" bits\n");
    line
}

/// The report of a conversion.
pub fn converted_report(totals: Converted) -> Report
    ensures { result.items ≡ converted_text totals.frames totals.channels totals.bits }
{
    let mut report = ArrayVec::new();
    push(&mut report, b"dspfx: done\n");
    push(&mut report, &converted_line(totals));
    report
}

/// `bytes N`
fn bytes_line(size: u64) -> Line
    ensures { result.items ≡ bytes_line size }
{
    let mut line = ArrayVec::new();
    text(&mut line, b"bytes ");
    natural(&mut line, size);
    text(&mut line, b"\n");
    line
}

/// The report of a check, over a file of so many bytes that is the output.
pub fn same_report(size: u64) -> Report
    ensures { result.items ≡ same_text size }
{
    let mut report = ArrayVec::new();
    push(&mut report, b"dspfx: same\n");
    push(&mut report, &bytes_line(size));
    report
}

/// The head of the report of a run: what came in, what went out, and the multiplies, a line each.
pub fn head_of(summary: &Summary) -> Report
    ensures { result.items ≡ head_text summary.now }
{
    let totals = summary.totals;
    let mut report = ArrayVec::new();
    push(&mut report, b"dspfx: done\n");
    push(
        &mut report,
        &frames_line(b"in", totals.frames_taken, summary.input),
    );
    push(
        &mut report,
        &frames_line(b"out", totals.frames_given, summary.output),
    );
    push(&mut report, &multiplies_line(totals.multiplies));
    report
}
