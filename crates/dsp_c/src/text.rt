ghost use Rattle.std.specs.Prelude.{◌≡◌, ◌≤◌, length};
ghost use Rattle.dsp_cli.specs.Fault.{fault_line};
ghost use Rattle.dsp_c.specs.Text.{NamesTheFault, Writes, bare, channels_of, count_of, counted, fault_of};
ghost use Rattle.dsp_c.specs.Text.{format_of, kind_of, text_of};

use crate::answer::{
    Answer, BLOCK, EMPTY, FRAMES, FULL, GATHER, INPUT, KEPT_ROOM, LENGTH, MEMORY, OK, ROOM, SCRIPT,
    STATE, WINDOW,
};
use arrayvec::ArrayVec;
use dsp_cli::{Fault, Line, line_of};
use dsp_defs::{Fmt, ScriptFault, ScriptKind};
use dsp_line::{natural, text};
use dsp_session::{LengthFault, StreamFault};

/// Statuses that the header's own functions answer.
const NULL: u32 = 27;

const OVERLAP: u32 = 29;

const ENDED: u32 = 30;

/// A field that is a count.
fn count_of(field: i64) -> u64
    ensures { result ≡ count_of field }
{
    field.max(0) as u64
}

fn format_of(bits: u64) -> Fmt
    ensures { result ≡ format_of bits }
{
    match bits {
        7 => Fmt::Q7,
        15 => Fmt::Q15,
        _ => Fmt::Q31,
    }
}

/// A field that counts channels.
fn channels_of(field: i64) -> u8
    ensures { result ≡ channels_of field }
{
    count_of(field).min(255) as u8
}

fn kind_of(number: u32, low: i64, high: i64) -> ScriptKind
    ensures { result ≡ kind_of number low high }
{
    match number {
        1 => ScriptKind::TooLong,
        2 => ScriptKind::BadByte,
        3 => ScriptKind::UnknownWord,
        4 => ScriptKind::BadNumber,
        5 => ScriptKind::OutOfRange { low, high },
        6 => ScriptKind::Missing,
        7 => ScriptKind::NoSuchForm {
            format: format_of(count_of(low)),
        },
        8 => ScriptKind::ChannelsHere {
            got: channels_of(low),
            wanted: channels_of(high),
        },
        9 => ScriptKind::Length {
            taps: count_of(low),
            factor: count_of(high),
        },
        10 => ScriptKind::TooMany {
            limit: count_of(low),
        },
        11 => ScriptKind::BadName,
        _ => ScriptKind::NameTaken,
    }
}

/// The fault of a script that an answer tells.
fn fault_of(answer: &Answer) -> ScriptFault
    ensures { result ≡ fault_of answer.now }
{
    ScriptFault {
        offset: answer.first,
        kind: kind_of(answer.kind, answer.low, answer.high),
    }
}

/// The line of a fault that the program `dspfx` reports, without its first word and its end.
fn bare_line(fault: &Fault) -> Line
    ensures { result.items ≡ bare (fault_line fault.now) }
{
    let line = line_of(fault);
    let end = line.len().saturating_sub(1);
    let mut bare = ArrayVec::new();
    text(&mut bare, &line[end.min(7)..end]);
    bare
}

/// A text alone.
fn plain(words: &[u8]) -> Line
    requires { length words.now ≤ 100 }
    ensures { result.items ≡ words.now }
{
    let mut line = ArrayVec::new();
    text(&mut line, words);
    line
}

/// A number between two texts.
fn counted(before: &[u8], number: u64, behind: &[u8]) -> Line
    requires before { length before.now ≤ 100 }
    requires behind { length behind.now ≤ 100 }
    ensures { result.items ≡ counted before.now number behind.now }
{
    let mut line = ArrayVec::new();
    text(&mut line, before);
    natural(&mut line, number);
    text(&mut line, behind);
    line
}

/// What a status and its numbers say.
fn text_of(status: u32, answer: &Answer) -> Line
    ensures { result.items ≡ text_of status answer.now }
{
    let Answer { first, second, .. } = *answer;
    match status {
        OK => plain(b"done"),
        SCRIPT => bare_line(&Fault::Script(fault_of(answer))),
        BLOCK => bare_line(&Fault::BlockLength {
            block: first,
            unit: second,
        }),
        MEMORY => bare_line(&Fault::Memory),
        FRAMES => counted(b"the input has no whole frames, of ", first, b" bytes each"),
        LENGTH => counted(b"the input has more than a block of ", first, b" frames"),
        INPUT => counted(b"the signal would have more than ", first, b" frames"),
        ROOM => counted(b"the output is too short: it needs ", first, b" bytes"),
        GATHER => bare_line(&Fault::Stream(StreamFault::Lengths(LengthFault::Gather {
            held: first,
            more: second,
        }))),
        WINDOW => bare_line(&Fault::Stream(StreamFault::Lengths(LengthFault::Window {
            end: first,
            length: second,
        }))),
        STATE => plain(b"these blocks keep no such numbers after so many frames"),
        NULL => plain(b"a null pointer"),
        KEPT_ROOM => counted(
            b"too little room for the kept numbers: ",
            first,
            b" are needed",
        ),
        OVERLAP => plain(b"the output overlaps the input"),
        ENDED => plain(b"the signal has ended"),
        FULL => counted(b"too many samples for correlate: ", first, b" of a channel"),
        EMPTY => plain(b"the handle holds no signal"),
        _ => plain(b"no status of tozbirem"),
    }
}

/// Writes what a status and its numbers say to the front of a buffer, where there is room for all of it, and
/// answers how many bytes it has.
pub fn write_text(status: u32, answer: &Answer, buffer: &mut [u8]) -> u64
    ensures length { result ≡ length (text_of status answer.now) }
    ensures bytes { Writes (text_of status answer.now) buffer.old buffer.new }
{
    let line = text_of(status, answer);
    let count = line.len();
    if count <= buffer.len() {
        buffer[..count].copy_from_slice(&line);
    }
    count as u64
}

/// The text of a script's fault is that of the very fault that the answer was made of.
pub fn texts_name_the_fault()
    ensures { NamesTheFault }
{}
