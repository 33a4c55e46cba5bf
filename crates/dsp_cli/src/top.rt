ghost use Rattle.std.specs.Prelude.{◌≡◌, ◌+◌, ◌≤◌, ℕ, Some, IfOk, IfErr, OnOk, flat_map};
ghost use Rattle.dsp_ports.specs.Ports.{CountsFaults, IsSettled};
ghost use Rattle.dsp_defs.specs.Grammar.{IsSound};
ghost use Rattle.dsp_defs.specs.Generator.{generated_bytes};
ghost use Rattle.dsp_defs.specs.Output.{input_signal};
ghost use Rattle.dsp_command.specs.Report.{measure_line, report_text};
ghost use Rattle.dsp_command.specs.Words.{command_of};
ghost use Rattle.dsp_command.specs.declared.command.Command.TheVariants.{Gen};
ghost use Rattle.dsp_defs.specs.declared.limits.TheConstants.{MAX_GENERATED, MAX_SCRIPT, MAX_STATE};
ghost use Rattle.dsp_session.specs.Session.{IsNew, IsReady, cost_of, measures_of};
ghost use Rattle.dsp_cli.specs.Asking.{AsksInOrder, Draws};
ghost use Rattle.dsp_cli.specs.Call.{Ended, Happened, HasDone, Spares, Stopped, Untouched, call};
ghost use Rattle.dsp_cli.specs.Causes.{Causes, Completes};
ghost use Rattle.dsp_cli.specs.Fault.{summary_text};
ghost use Rattle.dsp_cli.specs.Script.{chosen, most_of_script, IfScript};
ghost use Rattle.dsp_cli.specs.Perform.{Compared, FailsToCompare, ReadsAs, Ran, RanGenerated, Performed};
ghost use Rattle.dsp_cli.specs.Perform.{FailsToLoad, FailsToRun, FailsToGenerate, HasStatus, LoadsState};
ghost use Rattle.dsp_cli.specs.Perform.{FailsToLoadState, RanFirst, FailsToStop, RanRest, FailsToGoOn};
ghost use Rattle.dsp_cli.specs.Run.{HasOutput, Wrote, Tells, ReportsText, IsDone, IsRefused};

use crate::command::command;
use crate::conversion::convert;
use crate::fault::Fault;
use crate::fault_line::{line_of, status_of};
use crate::report::{Report, Summary, converted_report, find_measures, head_of, same_report};
use crate::script::{ReadFault, read_whole};
use crate::words::Words;
use dsp_check::check;
use dsp_command::Command;
use dsp_defs::{Flow, MAX_SCRIPT, MAX_STATE, Measure, Script, StateKind, Steps};
use dsp_line::measure_line;
use dsp_ports::{Failed, Sink, Source, write_all};
use dsp_resume::Resume;
use dsp_script::{ParseFault, default_block, legal, output_flow, parse, print, unit};
use dsp_session::{Session, stream};
use dsp_state::{LoadFault, NewFault, Saved, load};
use dsp_unit::AnyUnit;
use dsp_wave::GenSource;
use std::alloc::{AllocError, Global};
use std::sync::ledger::Ledger;

/// What was done.
#[derive(Drop)]
enum Outcome {
    /// A run went over the whole input.
    Ran(Summary),
    /// The text of the script, or a state, is to be reported.
    Printed(Vec<u8>),
    /// A text that needs no memory is to be reported.
    Noted(Report),
}

/// Reads and parses the script.
fn load_script<P: Source>(alloc: Global, script: &mut P) -> Result<Script, Fault>
    ensures ok { IfOk result (λ loaded. ReadsAs (P.state script.old) (P.state script.new) loaded) }
    ensures err { IfErr result (λ fault. FailsToLoad fault (P.state script.old) (P.state script.new)) }
    ensures taken { (P.state script.new).taken ≤ (P.state script.old).taken + MAX_SCRIPT + 1 }
    ensures asks { Draws P.Reads (λ s. (P.state s).taken) (MAX_SCRIPT + 1) script.old script.new }
{
    let text = match read_whole(alloc, MAX_SCRIPT, script) {
        Ok(text) => text,
        Err(ReadFault::Failed) => return Err(Fault::ScriptRead),
        Err(ReadFault::Memory) => return Err(Fault::Memory),
    };
    match parse(alloc, &text) {
        Ok(script) => Ok(script),
        Err(ParseFault::Script(fault)) => Err(Fault::Script(fault)),
        Err(ParseFault::Memory) => Err(Fault::Memory),
    }
}

/// The block length that is named, else that of the script, else the default.
fn chosen(named: Option<u32>, script: &Script) -> u64
    requires { IsSound script.now }
    ensures { result ≡ chosen named script.now }
{
    match named.or(script.block) {
        Some(frames) => u64::from(frames),
        None => default_block(script),
    }
}

/// A session of the script, banked or not.
fn session_of<U: AnyUnit + Drop>(
    alloc: Global,
    script: Script,
    block: u64,
    banked: bool,
) -> Result<Session<U>, AllocError>
    requires { IsReady script block }
    ensures { IfOk result (IsNew banked script block) }
{
    match banked {
        true => Session::banked(alloc, script, block),
        false => Session::new(alloc, script, block),
    }
}

/// Runs a script, banked or not, over the input.
fn run_script<U: AnyUnit + Drop, S: Source, K: Sink, L: Ledger>(
    alloc: Global,
    named: Option<u32>,
    banked: bool,
    script: Script,
    input: &mut S,
    output: &mut K,
    steps: &mut Steps<L>,
) -> Result<Summary, Fault>
    requires { IsSound script }
    ensures ok { IfOk result (λ summary.
        Ran named banked script summary (S.state input.old) (S.state input.new) (K.state output.old)
        (K.state output.new) steps.old steps.new) }
    ensures err { IfErr result (λ fault.
        FailsToRun fault named banked script (S.state input.old) (S.state input.new)
        (K.state output.old) (K.state output.new) steps.old steps.new) }
{
    let block = chosen(named, &script);
    if !legal(&script, block) {
        let unit = unit(&script);
        return Err(Fault::BlockLength { block, unit });
    }
    let Ok(mut session) = session_of::<U>(alloc, script, block, banked) else {
        return Err(Fault::Memory);
    };
    // The list has all the room that it will need, so that no memory is wanted behind the stream.
    let Ok(mut measures) = Vec::with_capacity(alloc, session.measures()) else {
        return Err(Fault::Memory);
    };
    let totals = match stream(&mut session, input, output, steps) {
        Ok(totals) => totals,
        Err(fault) => return Err(Fault::Stream(fault)),
    };
    find_measures(&session, &mut measures);
    let script = session.script();
    Ok(Summary {
        input: Flow {
            format: script.input.format,
            channels: script.input.channels,
        },
        output: output_flow(script),
        totals,
        measures,
    })
}

/// Runs a script over so many frames that are made from a seed, in blocks of the script's length.
fn generate<U: AnyUnit + Drop, K: Sink, L: Ledger>(
    alloc: Global,
    seed: u32,
    frames: u32,
    script: Script,
    output: &mut K,
    steps: &mut Steps<L>,
) -> Result<Summary, Fault>
    requires sound { IsSound script }
    requires few { frames ≤ MAX_GENERATED }
    ensures ok { IfOk result (λ summary.
        RanGenerated seed frames script summary (K.state output.old)
        (K.state output.new) steps.old steps.new) }
    ensures err { IfErr result (λ fault.
        FailsToGenerate fault seed frames script (K.state output.old)
        (K.state output.new) steps.old steps.new) }
{
    let mut input = GenSource::new(&script.input, seed, frames);
    run_script::<U, _, _, _>(alloc, None, false, script, &mut input, output, steps)
}

/// Reads a saved state.
fn load_state<U: AnyUnit + Drop, P: Source>(alloc: Global, source: &mut P) -> Result<Saved, Fault>
    ensures ok { IfOk result (λ saved. LoadsState (P.state source.old) (P.state source.new) saved) }
    ensures err { IfErr result (λ fault. FailsToLoadState fault (P.state source.old) (P.state source.new)) }
    ensures taken { (P.state source.new).taken ≤ (P.state source.old).taken + MAX_STATE + 1 }
    ensures asks { Draws P.Reads (λ s. (P.state s).taken) (MAX_STATE + 1) source.old source.new }
{
    let bytes = match read_whole(alloc, MAX_STATE, source) {
        Ok(bytes) => bytes,
        Err(ReadFault::Failed) => return Err(Fault::ScriptRead),
        Err(ReadFault::Memory) => return Err(Fault::Memory),
    };
    match load::<U>(alloc, &bytes) {
        Ok(saved) => Ok(saved),
        Err(LoadFault::State { kind, offset }) => Err(Fault::State { kind, offset }),
        Err(LoadFault::Memory) => Err(Fault::Memory),
    }
}

/// Works on the first frames of the input, and answers the state behind them.
fn run_first<U: AnyUnit + Drop, S: Source, K: Sink, L: Ledger>(
    alloc: Global,
    frames: u32,
    script: Script,
    input: &mut S,
    output: &mut K,
    steps: &mut Steps<L>,
) -> Result<Vec<u8>, Fault>
    requires { IsSound script }
    ensures ok { IfOk result (λ state.
        RanFirst frames script state.items (S.state input.old) (S.state input.new)
        (K.state output.old) (K.state output.new) steps.old steps.new) }
    ensures err { IfErr result (λ fault.
        FailsToStop fault frames script (S.state input.old) (S.state input.new)
        (K.state output.old) (K.state output.new) steps.old steps.new) }
{
    let block = chosen(None, &script);
    if !legal(&script, block) {
        let unit = unit(&script);
        return Err(Fault::BlockLength { block, unit });
    }
    let mut resume = match Resume::<U>::new(alloc, script, block, frames) {
        Ok(resume) => resume,
        Err(NewFault::LongText { size }) => {
            let kind = StateKind::LongText { size };
            return Err(Fault::State { kind, offset: 0 });
        }
        Err(NewFault::Memory) => return Err(Fault::Memory),
    };
    match resume.stop(input, output, steps) {
        Ok(()) => Ok(resume.into_state()),
        Err(fault) => Err(Fault::Part(fault)),
    }
}

/// Goes on from a state, over the frames of the input behind those that it has taken.
fn run_rest<U: AnyUnit + Drop, S: Source, K: Sink, L: Ledger>(
    alloc: Global,
    saved: Saved,
    input: &mut S,
    output: &mut K,
    steps: &mut Steps<L>,
) -> Result<Summary, Fault>
    ensures ok { IfOk result (λ summary.
        RanRest saved summary (S.state input.old) (S.state input.new) (K.state output.old)
        (K.state output.new) steps.old steps.new) }
    ensures err { IfErr result (λ fault.
        FailsToGoOn fault saved (S.state input.old) (S.state input.new)
        (K.state output.old) (K.state output.new) steps.old steps.new) }
{
    let block = chosen(None, saved.script());
    if !legal(saved.script(), block) {
        let unit = unit(saved.script());
        return Err(Fault::BlockLength { block, unit });
    }
    let Ok(mut resume) = Resume::<U>::from_saved(alloc, saved, block) else {
        return Err(Fault::Memory);
    };
    // The list has all the room that it will need, so that no memory is wanted behind the stream.
    let Ok(mut measures) = Vec::with_capacity(alloc, resume.measures()) else {
        return Err(Fault::Memory);
    };
    let totals = match resume.go(input, output, steps) {
        Ok(totals) => totals,
        Err(fault) => return Err(Fault::Part(fault)),
    };
    find_measures(resume.session(), &mut measures);
    let script = resume.session().script();
    Ok(Summary {
        input: Flow {
            format: script.input.format,
            channels: script.input.channels,
        },
        output: output_flow(script),
        totals,
        measures,
    })
}

/// Compares a file with what the script gives of the input, and answers its length.
fn check_script<S: Source, O: Source, L: Ledger>(
    alloc: Global,
    script: &Script,
    input: &mut S,
    other: &mut O,
    steps: &mut Steps<L>,
) -> Result<u64, Fault>
    requires { IsSound script.now }
    ensures ok { IfOk result (λ size.
        Compared script.now size (S.state input.old) (S.state input.new) (O.state other.old)
        (O.state other.new) steps.old steps.new) }
    ensures err { IfErr result (λ fault.
        FailsToCompare fault script.now (S.state input.old) (S.state input.new)
        (O.state other.old) (O.state other.new) steps.old steps.new) }
{
    let block = chosen(None, script);
    if !legal(script, block) {
        let unit = unit(script);
        return Err(Fault::BlockLength { block, unit });
    }
    match check(alloc, script, input, other, steps) {
        Ok(size) => Ok(size),
        Err(fault) => Err(Fault::Comparison(fault)),
    }
}

/// Does what the words say, but for the report.
fn perform<U: AnyUnit + Drop, P: Source, S: Source, K: Sink, O: Source, L: Ledger>(
    alloc: Global,
    words: &Words,
    script: &mut P,
    input: &mut S,
    output: &mut K,
    other: &mut O,
    steps: &mut Steps<L>,
) -> Result<Outcome, Fault>
    ensures ok { IfOk result (λ outcome. Performed outcome
        (call words.now (P.state script.old) (P.state script.new) (S.state input.old)
        (S.state input.new) (K.state output.old) (K.state output.new) (O.state other.old)
        (O.state other.new) steps.old steps.new)) }
    ensures err { IfErr result (λ fault. Happened (Stopped fault)
        (call words.now (P.state script.old) (P.state script.new) (S.state input.old)
        (S.state input.new) (K.state output.old) (K.state output.new) (O.state other.old)
        (O.state other.new) steps.old steps.new)) }
    ensures taken { (P.state script.new).taken
        ≤ (P.state script.old).taken + most_of_script (command_of words.now) + 1 }
    ensures asks { Draws P.Reads (λ s. (P.state s).taken) (most_of_script (command_of words.now) + 1)
        script.old script.new }
{
    let Some(command) = command(words) else {
        return Err(Fault::Usage);
    };
    match command {
        Command::Convert { direction } => match convert(direction, input, output) {
            Ok(totals) => Ok(Outcome::Noted(converted_report(totals))),
            Err(fault) => Err(Fault::Conversion(fault)),
        },
        Command::Print => {
            let script = load_script(alloc, script)?;
            match print(alloc, &script) {
                Ok(text) => Ok(Outcome::Printed(text)),
                Err(_) => Err(Fault::Memory),
            }
        }
        Command::Run { block, banked } => {
            let script = load_script(alloc, script)?;
            let summary = run_script::<U, _, _, _>(
                alloc, block, banked, script, input, output, steps,
            )?;
            Ok(Outcome::Ran(summary))
        }
        Command::Stop { frames } => {
            let script = load_script(alloc, script)?;
            let state = run_first::<U, _, _, _>(alloc, frames, script, input, output, steps)?;
            Ok(Outcome::Printed(state))
        }
        Command::Go => {
            let saved = load_state::<U, _>(alloc, script)?;
            let summary = run_rest::<U, _, _, _>(alloc, saved, input, output, steps)?;
            Ok(Outcome::Ran(summary))
        }
        Command::Gen { seed, frames } => {
            let script = load_script(alloc, script)?;
            let summary = generate::<U, _, _>(alloc, seed, frames, script, output, steps)?;
            Ok(Outcome::Ran(summary))
        }
        Command::Check => {
            let script = load_script(alloc, script)?;
            let size = check_script(alloc, &script, input, other, steps)?;
            Ok(Outcome::Noted(same_report(size)))
        }
    }
}

/// Reports a text and makes sure of it.
fn tell<R: Sink>(report: &mut R, text: &[u8]) -> Result<(), Failed>
    ensures tells { Tells text.now (R.state report.old) (R.state report.new) }
    ensures wrote { OnOk result (Wrote text.now (R.state report.old) (R.state report.new)) }
    ensures settled { OnOk result (IsSettled (R.state report.new)) }
    ensures faults { CountsFaults result (R.state report.old).faults (R.state report.new).faults }
{
    write_all(report, text)?;
    report.flush()?;
    Ok(())
}

/// Reports a line for each measure.
fn tell_measures<R: Sink>(report: &mut R, measures: &[Measure]) -> Result<(), Failed>
    ensures tells { Tells (flat_map measure_line measures.now) (R.state report.old) (R.state report.new) }
    ensures wrote { OnOk result (Wrote (flat_map measure_line measures.now) (R.state report.old)
        (R.state report.new)) }
    ensures faults { CountsFaults result (R.state report.old).faults (R.state report.new).faults }
{
    for measure in measures {
        write_all(report, &measure_line(measure))?;
    }
    Ok(())
}

/// Reports what a run says of itself, and makes sure of it.
fn tell_summary<R: Sink>(report: &mut R, summary: &Summary) -> Result<(), Failed>
    ensures tells { Tells (summary_text summary.now) (R.state report.old) (R.state report.new) }
    ensures wrote { OnOk result (Wrote (summary_text summary.now) (R.state report.old)
        (R.state report.new)) }
    ensures settled { OnOk result (IsSettled (R.state report.new)) }
    ensures faults { CountsFaults result (R.state report.old).faults (R.state report.new).faults }
{
    write_all(report, &head_of(summary))?;
    tell_measures(report, &summary.measures)?;
    report.flush()?;
    Ok(())
}

/// Reports a run, and answers its exit status.
fn finish_run<R: Sink>(report: &mut R, summary: &Summary) -> u8
    ensures { ReportsText (summary_text summary.now) result (R.state report.old) (R.state report.new) }
{
    match tell_summary(report, summary) {
        Ok(()) => 0,
        Err(_) => 9,
    }
}

/// Reports a text, and answers the exit status of what was done.
fn finish<R: Sink>(report: &mut R, text: &[u8]) -> u8
    ensures { ReportsText text.now result (R.state report.old) (R.state report.new) }
{
    match tell(report, text) {
        Ok(()) => 0,
        Err(_) => 9,
    }
}

/// Reports how a run went, and answers its exit status. A fault's status stands where its line isn't reported.
fn settle<R: Sink>(outcome: Result<Outcome, Fault>, report: &mut R) -> u8
    ensures { HasStatus outcome result (R.state report.old) (R.state report.new) }
{
    match outcome {
        Ok(Outcome::Ran(summary)) => finish_run(report, &summary),
        Ok(Outcome::Printed(text)) => finish(report, &text),
        Ok(Outcome::Noted(text)) => finish(report, &text),
        Err(fault) => {
            let _ = tell(report, &line_of(&fault));
            status_of(&fault)
        }
    }
}

/// The top call: does what the words say over five ports, and answers the exit status. A run that is done reports what
/// came in, what went out and the multiplies; after a fault one line is tried on the report. A run takes its blocks in
/// the length that the words name, else the script, else the default; a gen names none. A gen takes its
/// input from the generator, and leaves the port `input` alone. A check compares the port `other` with what the script
/// gives of the input, and leaves the port `output` alone.
pub fn run<U: AnyUnit + Drop, P: Source, S: Source, K: Sink, R: Sink, O: Source, L: Ledger>(
    alloc: Global,
    words: &Words,
    script: &mut P,
    input: &mut S,
    output: &mut K,
    report: &mut R,
    other: &mut O,
    steps: &mut Steps<L>,
) -> u8
    // How it ended: a script, its frames and what its stream did, or the fault; and the report of just that.
    ensures ended { Ended (call words.now (P.state script.old) (P.state script.new)
        (S.state input.old) (S.state input.new) (K.state output.old) (K.state output.new)
        (O.state other.old) (O.state other.new) steps.old steps.new) result
        (R.state report.old) (R.state report.new) }

    // A command that is done has written exactly what it is to write for all the input, or has found it in the
    // other file.
    ensures done { IsDone result → HasDone (command_of words.now)
        (call words.now (P.state script.old) (P.state script.new) (S.state input.old)
        (S.state input.new) (K.state output.old) (K.state output.new) (O.state other.old)
        (O.state other.new) steps.old steps.new) }
    ensures settled { HasOutput (command_of words.now) → IsDone result → IsSettled (K.state output.new) }

    // What is left alone, and what a gen goes over.
    ensures untouched { IsRefused (command_of words.now) result
        → Untouched (call words.now (P.state script.old) (P.state script.new)
        (S.state input.old) (S.state input.new) (K.state output.old) (K.state output.new)
        (O.state other.old) (O.state other.new) steps.old steps.new) }
    ensures spared { Spares (command_of words.now)
        (call words.now (P.state script.old) (P.state script.new) (S.state input.old)
        (S.state input.new) (K.state output.old) (K.state output.new) (O.state other.old)
        (O.state other.new) steps.old steps.new) }
    ensures counted { (seed frames : ℕ) → command_of words.now ≡ Some (Gen seed frames)
        → IsDone result → IfScript (P.state script.old).left (λ s.
        (steps.new.multiplies ≡ steps.old.multiplies + cost_of s frames)
        × Tells (report_text s frames (measures_of s
        (input_signal s (generated_bytes s.input seed frames)))) (R.state report.old)
        (R.state report.new)) }
    ensures script_taken { (P.state script.new).taken
        ≤ (P.state script.old).taken + most_of_script (command_of words.now) + 1 }
    ensures script_asks { Draws P.Reads (λ s. (P.state s).taken)
        (most_of_script (command_of words.now) + 1) script.old script.new }
    ensures in_order { AsksInOrder (call words.now (P.state script.old) (P.state script.new)
        (S.state input.old) (S.state input.new) (K.state output.old) (K.state output.new)
        (O.state other.old) (O.state other.new) steps.old steps.new)
        (R.state report.old) (R.state report.new) }

    // Which statuses may come, which must, and that nothing else stands in the way of 0, or of a check's verdict.
    ensures causes { Causes (call words.now (P.state script.old) (P.state script.new)
        (S.state input.old) (S.state input.new) (K.state output.old) (K.state output.new)
        (O.state other.old) (O.state other.new) steps.old steps.new) result }
    ensures completes { Completes (call words.now (P.state script.old) (P.state script.new)
        (S.state input.old) (S.state input.new) (K.state output.old) (K.state output.new)
        (O.state other.old) (O.state other.new) steps.old steps.new) result
        (R.state report.old) (R.state report.new) }
{
    let outcome = perform::<U, _, _, _, _, _>(alloc, words, script, input, output, other, steps);
    settle(outcome, report)
}
