//! The exit status and the one line of a run that isn't done.
ghost use Rattle.std.specs.Prelude.{◌≡◌, ◌+◌, ◌≤◌, ◌++◌, [], length};
ghost use Rattle.arrayvec.specs.ArrayVec.{array_vec_len};
ghost use Rattle.dsp_command.specs.Report.{output_line, au_line, au_text, block_length_line, differs_line};
ghost use Rattle.dsp_command.specs.Report.{header_line, header_text, kind_text, lengths_line, located};
ghost use Rattle.dsp_command.specs.Report.{script_line, state_line, state_text};
ghost use Rattle.dsp_cli.specs.Fault.{fault_line, length_fault_line, status_of, stream_line, stream_status};

use crate::fault::Fault;
use crate::line::{Line, field_name, format_name, integer_field, natural_field};
use arrayvec::ArrayVec;
use dsp_au::ConvertFault;
use dsp_check::CheckFault;
use dsp_defs::{AuFault, HeaderFault, StateKind};
use dsp_line::{natural, text, wide_natural};
use dsp_script::{ScriptFault, ScriptKind};
use dsp_session::{LengthFault, PartFault, StreamFault};

/// The exit status of a run that ends so.
pub fn status_of(fault: &Fault) -> u8
    ensures { result ≡ status_of fault.now }
{
    match fault {
        Fault::Usage => 1,
        Fault::Script(_) => 2,
        Fault::BlockLength { .. } => 3,
        Fault::ScriptRead => 6,
        Fault::Memory => 10,
        Fault::State { .. } => 13,
        Fault::Stream(fault) => stream_status(fault),
        Fault::Part(PartFault::Behind { .. }) => 5,
        Fault::Part(PartFault::Stream(fault)) => stream_status(fault),
        Fault::Conversion(fault) => conversion_status(fault),
        Fault::Comparison(fault) => comparison_status(fault),
    }
}

fn stream_status(fault: &StreamFault) -> u8
    ensures { result ≡ stream_status fault.now }
{
    match fault {
        StreamFault::Header { .. } => 4,
        StreamFault::Lengths(_) => 5,
        StreamFault::Input => 7,
        StreamFault::Output => 8,
    }
}

fn conversion_status(fault: &ConvertFault) -> u8
    ensures { result ≡ status_of (Fault.Conversion fault.now) }
{
    match fault {
        ConvertFault::Wave { .. } | ConvertFault::Au { .. } => 4,
        ConvertFault::Input { .. } | ConvertFault::Riff { .. } => 5,
        ConvertFault::Read => 7,
        ConvertFault::Write => 8,
    }
}

fn comparison_status(fault: &CheckFault) -> u8
    ensures { result ≡ status_of (Fault.Comparison fault.now) }
{
    match fault {
        CheckFault::Header { .. } => 4,
        CheckFault::Input { .. }
        | CheckFault::Window { .. }
        | CheckFault::Riff { .. }
        | CheckFault::Size { .. } => 5,
        CheckFault::Read => 7,
        CheckFault::Memory => 10,
        CheckFault::Differs { .. } => 11,
        CheckFault::Other => 14,
    }
}

fn kind_name(kind: ScriptKind) -> &'static [u8]
    ensures name { result.now ≡ (kind_text kind).0 }
    ensures short { length result.now ≤ 12 }
{
    match kind {
        ScriptKind::TooLong => b"TooLong",
        ScriptKind::BadByte => b"BadByte",
        ScriptKind::UnknownWord => b"UnknownWord",
        ScriptKind::BadNumber => b"BadNumber",
        ScriptKind::OutOfRange { .. } => b"OutOfRange",
        ScriptKind::Missing => b"Missing",
        ScriptKind::NoSuchForm { .. } => b"NoSuchForm",
        ScriptKind::ChannelsHere { .. } => b"ChannelsHere",
        ScriptKind::Length { .. } => b"Length",
        ScriptKind::TooMany { .. } => b"TooMany",
        ScriptKind::BadName => b"BadName",
        ScriptKind::NameTaken => b"NameTaken",
    }
}

fn kind_fields(line: &mut Line, kind: ScriptKind)
    requires { array_vec_len line.old ≤ 65 }
    ensures items { line.new.items ≡ line.old.items ++ (kind_text kind).1 }
    ensures len { array_vec_len line.new ≤ array_vec_len line.old + 62 }
{
    match kind {
        ScriptKind::OutOfRange { low, high } => {
            integer_field(line, b"low", low);
            integer_field(line, b"high", high);
        }
        ScriptKind::NoSuchForm { format } => {
            field_name(line, b"format");
            text(line, format_name(format));
        }
        ScriptKind::ChannelsHere { got, wanted } => {
            natural_field(line, b"got", u64::from(got));
            natural_field(line, b"wanted", u64::from(wanted));
        }
        ScriptKind::Length { taps, factor } => {
            natural_field(line, b"taps", taps);
            natural_field(line, b"factor", factor);
        }
        ScriptKind::TooMany { limit } => natural_field(line, b"limit", limit),
        _ => {}
    }
}

fn header_name(fault: HeaderFault) -> &'static [u8]
    ensures name { result.now ≡ (header_text fault).0 }
    ensures short { length result.now ≤ 12 }
{
    match fault {
        HeaderFault::NotRiff => b"NotRiff",
        HeaderFault::NotWave => b"NotWave",
        HeaderFault::NoFormat => b"NoFormat",
        HeaderFault::FormatSize { .. } => b"FormatSize",
        HeaderFault::Tag { .. } => b"Tag",
        HeaderFault::Bits { .. } => b"Bits",
        HeaderFault::Channels { .. } => b"Channels",
        HeaderFault::Align { .. } => b"Align",
        HeaderFault::NoSamples => b"NoSamples",
        HeaderFault::Short { .. } => b"Short",
    }
}

fn header_fields(line: &mut Line, fault: HeaderFault)
    requires { array_vec_len line.old ≤ 65 }
    ensures items { line.new.items ≡ line.old.items ++ (header_text fault).1 }
    ensures len { array_vec_len line.new ≤ array_vec_len line.old + 62 }
{
    match fault {
        HeaderFault::FormatSize { got } => natural_field(line, b"got", u64::from(got)),
        HeaderFault::Tag { got } => natural_field(line, b"got", u64::from(got)),
        HeaderFault::Bits { got, wanted }
        | HeaderFault::Channels { got, wanted }
        | HeaderFault::Align { got, wanted } => {
            natural_field(line, b"got", u64::from(got));
            natural_field(line, b"wanted", u64::from(wanted));
        }
        HeaderFault::Short { declared, got } => {
            natural_field(line, b"declared", u64::from(declared));
            natural_field(line, b"got", got);
        }
        _ => {}
    }
}

fn au_name(fault: AuFault) -> &'static [u8]
    ensures name { result.now ≡ (au_text fault).0 }
    ensures short { length result.now ≤ 12 }
{
    match fault {
        AuFault::NotAu => b"NotAu",
        AuFault::Offset { .. } => b"Offset",
        AuFault::Encoding { .. } => b"Encoding",
        AuFault::Channels { .. } => b"Channels",
        AuFault::Ended => b"Ended",
        AuFault::Short { .. } => b"Short",
    }
}

fn au_fields(line: &mut Line, fault: AuFault)
    requires { array_vec_len line.old ≤ 65 }
    ensures items { line.new.items ≡ line.old.items ++ (au_text fault).1 }
    ensures len { array_vec_len line.new ≤ array_vec_len line.old + 62 }
{
    match fault {
        AuFault::Offset { got } | AuFault::Encoding { got } | AuFault::Channels { got } => {
            natural_field(line, b"got", u64::from(got));
        }
        AuFault::Short { declared, got } => {
            natural_field(line, b"declared", u64::from(declared));
            natural_field(line, b"got", got);
        }
        AuFault::NotAu | AuFault::Ended => {}
    }
}

fn state_name(kind: StateKind) -> &'static [u8]
    ensures name { result.now ≡ (state_text kind).0 }
    ensures short { length result.now ≤ 12 }
{
    match kind {
        StateKind::NotState => b"NotState",
        StateKind::Version { .. } => b"Version",
        StateKind::Text => b"Text",
        StateKind::Cut => b"Cut",
        StateKind::Value => b"Value",
        StateKind::Extra => b"Extra",
        StateKind::TooLong => b"TooLong",
        StateKind::LongText { .. } => b"LongText",
    }
}

fn state_fields(line: &mut Line, kind: StateKind)
    requires { array_vec_len line.old ≤ 65 }
    ensures items { line.new.items ≡ line.old.items ++ (state_text kind).1 }
    ensures len { array_vec_len line.new ≤ array_vec_len line.old + 62 }
{
    match kind {
        StateKind::Version { got } => natural_field(line, b"got", u64::from(got)),
        StateKind::LongText { size } => natural_field(line, b"size", size),
        _ => {}
    }
}

fn located(line: &mut Line, kind: &[u8], offset: u64)
    requires kind { length kind.now ≤ 12 }
    requires room { array_vec_len line.old ≤ 15 }
    ensures items { line.new.items ≡ line.old.items ++ located (kind.now, []) offset }
    ensures len { array_vec_len line.new ≤ array_vec_len line.old + 36 }
{
    text(line, kind);
    text(line, b" at ");
    natural(line, offset);
}

fn script_line(line: &mut Line, fault: ScriptFault)
    requires { array_vec_len line.old ≡ 0 }
    ensures { line.new.items ≡ line.old.items ++ script_line fault }
{
    text(line, b"dspfx: script: ");
    located(line, kind_name(fault.kind), fault.offset);
    kind_fields(line, fault.kind);
    text(line, b"\n");
}

fn header_line(line: &mut Line, fault: HeaderFault, offset: u64)
    requires { array_vec_len line.old ≡ 0 }
    ensures { line.new.items ≡ line.old.items ++ header_line fault offset }
{
    text(line, b"dspfx: header: ");
    located(line, header_name(fault), offset);
    header_fields(line, fault);
    text(line, b"\n");
}

fn au_line(line: &mut Line, fault: AuFault, offset: u64)
    requires { array_vec_len line.old ≡ 0 }
    ensures { line.new.items ≡ line.old.items ++ au_line fault offset }
{
    text(line, b"dspfx: header: ");
    located(line, au_name(fault), offset);
    au_fields(line, fault);
    text(line, b"\n");
}

fn state_line(line: &mut Line, kind: StateKind, offset: u64)
    requires { array_vec_len line.old ≡ 0 }
    ensures { line.new.items ≡ line.old.items ++ state_line kind offset }
{
    text(line, b"dspfx: state: ");
    located(line, state_name(kind), offset);
    state_fields(line, kind);
    text(line, b"\n");
}

fn differs_line(line: &mut Line, offset: u64)
    requires { array_vec_len line.old ≡ 0 }
    ensures { line.new.items ≡ line.old.items ++ differs_line offset }
{
    text(line, b"dspfx: differs at ");
    natural(line, offset);
    text(line, b"\n");
}

fn block_length_line(line: &mut Line, block: u64, unit: u64)
    requires { array_vec_len line.old ≡ 0 }
    ensures { line.new.items ≡ line.old.items ++ block_length_line block unit }
{
    text(line, b"dspfx: block length ");
    natural(line, block);
    natural_field(line, b"unit", unit);
    text(line, b"\n");
}

/// `first` and `second` are the names of the numbers.
fn lengths_line(line: &mut Line, first: &[u8], a: u128, second: &[u8], b: u64)
    requires first { length first.now ≤ 12 }
    requires second { length second.now ≤ 8 }
    requires empty { array_vec_len line.old ≡ 0 }
    ensures { line.new.items ≡ line.old.items ++ lengths_line first.now a second.now b }
{
    text(line, b"dspfx: lengths: ");
    text(line, first);
    text(line, b" ");
    wide_natural(line, a);
    natural_field(line, second, b);
    text(line, b"\n");
}

fn length_fault_line(line: &mut Line, fault: LengthFault)
    requires { array_vec_len line.old ≡ 0 }
    ensures { line.new.items ≡ line.old.items ++ length_fault_line fault }
{
    match fault {
        LengthFault::Input { taken, limit } => {
            lengths_line(line, b"input taken", u128::from(taken), b"limit", limit);
        }
        LengthFault::Gather { held, more } => {
            lengths_line(line, b"gather held", u128::from(held), b"more", more);
        }
        LengthFault::Window { end, length } => {
            lengths_line(line, b"window end", u128::from(end), b"length", length);
        }
        LengthFault::Riff { size, limit } => {
            lengths_line(line, b"riff size", size, b"limit", limit);
        }
    }
}

fn stream_line(line: &mut Line, fault: StreamFault)
    requires { array_vec_len line.old ≡ 0 }
    ensures { line.new.items ≡ line.old.items ++ stream_line fault }
{
    match fault {
        StreamFault::Header { fault, offset } => header_line(line, fault, offset),
        StreamFault::Lengths(fault) => length_fault_line(line, fault),
        StreamFault::Input => text(line, b"dspfx: input not read\n"),
        StreamFault::Output => text(line, output_line()),
    }
}

fn part_line(line: &mut Line, fault: PartFault)
    requires { array_vec_len line.old ≡ 0 }
    ensures { line.new.items ≡ line.old.items ++ fault_line (Fault.Part fault) }
{
    match fault {
        PartFault::Behind { at, got } => {
            lengths_line(line, b"resume at", u128::from(at), b"input", got);
        }
        PartFault::Stream(fault) => stream_line(line, fault),
    }
}

fn conversion_line(line: &mut Line, fault: ConvertFault)
    requires { array_vec_len line.old ≡ 0 }
    ensures { line.new.items ≡ line.old.items ++ fault_line (Fault.Conversion fault) }
{
    match fault {
        ConvertFault::Wave { fault, offset } => header_line(line, fault, offset),
        ConvertFault::Au { fault, offset } => au_line(line, fault, offset),
        ConvertFault::Input { taken, limit } => {
            length_fault_line(line, LengthFault::Input { taken, limit });
        }
        ConvertFault::Riff { size, limit } => {
            length_fault_line(line, LengthFault::Riff { size, limit });
        }
        ConvertFault::Read => text(line, b"dspfx: input not read\n"),
        ConvertFault::Write => text(line, output_line()),
    }
}

fn comparison_line(line: &mut Line, fault: CheckFault)
    requires { array_vec_len line.old ≡ 0 }
    ensures { line.new.items ≡ line.old.items ++ fault_line (Fault.Comparison fault) }
{
    match fault {
        CheckFault::Header { fault, offset } => header_line(line, fault, offset),
        CheckFault::Input { taken, limit } => {
            length_fault_line(line, LengthFault::Input { taken, limit });
        }
        CheckFault::Window { end, length } => {
            length_fault_line(line, LengthFault::Window { end, length });
        }
        CheckFault::Riff { size, limit } => {
            length_fault_line(line, LengthFault::Riff { size, limit });
        }
        CheckFault::Size { size, limit } => {
            lengths_line(line, b"check size", size, b"limit", limit);
        }
        CheckFault::Differs { offset } => differs_line(line, offset),
        CheckFault::Read => text(line, b"dspfx: input not read\n"),
        CheckFault::Other => text(line, b"dspfx: other input not read\n"),
        CheckFault::Memory => text(line, b"dspfx: want of memory\n"),
    }
}

/// The line of an output that is not written.
pub fn output_line() -> &'static [u8]
    ensures line { result.now ≡ output_line }
    ensures short { length result.now ≤ 26 }
{
    b"dspfx: output not written\n"
}

/// The line that a run which ends so reports.
pub fn line_of(fault: &Fault) -> Line
    ensures { result.items ≡ fault_line fault.now }
{
    let mut line = ArrayVec::new();
    match fault {
        Fault::Usage => text(
            &mut line,
            b"dspfx: usage: run SCRIPT IN OUT [block N], gen SEED FRAMES SCRIPT OUT, print SCRIPT, resume stop K SCRIPT IN OUT, resume go STATE IN OUT, bank SCRIPT IN OUT [block N], convert wave au IN OUT, convert au wave IN OUT, check SCRIPT IN OUT\n",
        ),
        Fault::ScriptRead => text(&mut line, b"dspfx: script not read\n"),
        Fault::Script(fault) => script_line(&mut line, *fault),
        Fault::BlockLength { block, unit } => block_length_line(&mut line, *block, *unit),
        Fault::Memory => text(&mut line, b"dspfx: want of memory\n"),
        Fault::State { kind, offset } => state_line(&mut line, *kind, *offset),
        Fault::Stream(fault) => stream_line(&mut line, *fault),
        Fault::Part(fault) => part_line(&mut line, *fault),
        Fault::Conversion(fault) => conversion_line(&mut line, *fault),
        Fault::Comparison(fault) => comparison_line(&mut line, *fault),
    }
    line
}
