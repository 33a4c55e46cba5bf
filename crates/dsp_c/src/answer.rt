ghost use Rattle.std.specs.Prelude.{◌≡◌, ◌≢◌, ◌^◌, ◌-◌, pos, min};
ghost use Rattle.dsp_c.specs.Answer.{answer_of, format_number, kind_parts, status_of, unopened_answer};
ghost use Rattle.dsp_c.specs.Answer.{unopened_status};

use dsp_defs::{Fmt, ScriptFault, ScriptKind};
use dsp_host::{OpenFault, Refusal};

/// The statuses, as `include/tozbirem.h` names them.
pub const OK: u32 = 0;

pub const SCRIPT: u32 = 2;

pub const BLOCK: u32 = 3;

pub const MEMORY: u32 = 10;

pub const FRAMES: u32 = 20;

pub const LENGTH: u32 = 21;

pub const INPUT: u32 = 22;

pub const ROOM: u32 = 23;

pub const GATHER: u32 = 24;

pub const WINDOW: u32 = 25;

pub const STATE: u32 = 26;

pub const KEPT_ROOM: u32 = 28;

pub const FULL: u32 = 31;

/// A handle that holds nothing.
pub const EMPTY: u32 = 32;

/// What a call answers beside its status.
#[repr(C)]
#[derive(Clone, Copy)]
pub struct Answer {
    pub given: u64,
    pub kept: u64,
    pub first: u64,
    pub second: u64,
    pub low: i64,
    pub high: i64,
    pub kind: u32,
    pub unused: u32,
}

impl Answer {
    /// Nothing was given, and nothing is to be said.
    pub const NOTHING: Answer = Answer {
        given: 0,
        kept: 0,
        first: 0,
        second: 0,
        low: 0,
        high: 0,
        kind: 0,
        unused: 0,
    };
}

/// The number of a format: its bits but the sign.
pub fn number_of(format: Fmt) -> u32
    ensures { result ≡ format_number format }
{
    match format {
        Fmt::Q7 => 7,
        Fmt::Q15 => 15,
        Fmt::Q31 => 31,
    }
}

/// A count as a field, or the greatest that there is.
fn field(count: u64) -> i64
    ensures { result ≡ pos (min count (2 ^ 63 - 1)) }
{
    count.min(i64::MAX as u64) as i64
}

/// A count of more bits, or the greatest that there is.
pub fn saturated(count: u128) -> u64
    ensures { result ≡ min count (2 ^ 64 - 1) }
{
    count.min(u64::MAX as u128) as u64
}

/// The number of a fault's kind, and its fields.
fn parts_of(kind: ScriptKind) -> (u32, i64, i64)
    ensures { result ≡ kind_parts kind }
{
    match kind {
        ScriptKind::TooLong => (1, 0, 0),
        ScriptKind::BadByte => (2, 0, 0),
        ScriptKind::UnknownWord => (3, 0, 0),
        ScriptKind::BadNumber => (4, 0, 0),
        ScriptKind::OutOfRange { low, high } => (5, low, high),
        ScriptKind::Missing => (6, 0, 0),
        ScriptKind::NoSuchForm { format } => (7, i64::from(number_of(format)), 0),
        ScriptKind::ChannelsHere { got, wanted } => (8, i64::from(got), i64::from(wanted)),
        ScriptKind::Length { taps, factor } => (9, field(taps), field(factor)),
        ScriptKind::TooMany { limit } => (10, field(limit), 0),
        ScriptKind::BadName => (11, 0, 0),
        ScriptKind::NameTaken => (12, 0, 0),
    }
}

/// The status of a text that gives no session.
pub fn unopened_status(fault: OpenFault) -> u32
    ensures value { result ≡ unopened_status fault }
    ensures some { result ≢ 0 }
{
    match fault {
        OpenFault::Script(_) => SCRIPT,
        OpenFault::BlockLength { .. } => BLOCK,
        OpenFault::Memory => MEMORY,
    }
}

/// What there is to say of it.
pub fn unopened_answer(fault: OpenFault) -> Answer
    ensures { result ≡ unopened_answer fault }
{
    match fault {
        OpenFault::Script(ScriptFault { offset, kind }) => {
            let (kind, low, high) = parts_of(kind);
            Answer {
                first: offset,
                low,
                high,
                kind,
                ..Answer::NOTHING
            }
        }
        OpenFault::BlockLength { block, unit } => Answer {
            first: block,
            second: unit,
            ..Answer::NOTHING
        },
        OpenFault::Memory => Answer::NOTHING,
    }
}

/// The status of a call that did nothing.
pub fn status_of(why: Refusal) -> u32
    ensures value { result ≡ status_of why }
    ensures some { result ≢ 0 }
{
    match why {
        Refusal::Open(fault) => unopened_status(fault),
        Refusal::State => STATE,
        Refusal::Frames { .. } => FRAMES,
        Refusal::Length { .. } => LENGTH,
        Refusal::Input { .. } => INPUT,
        Refusal::Room { .. } => ROOM,
        Refusal::KeptRoom { .. } => KEPT_ROOM,
        Refusal::Gather { .. } => GATHER,
        Refusal::Full { .. } => FULL,
        Refusal::Window { .. } => WINDOW,
    }
}

/// An answer with one number, or two.
fn numbers(first: u64, second: u64) -> Answer
    ensures { result ≡ record Answer.NOTHING { first = first; second = second } }
{
    Answer {
        first,
        second,
        ..Answer::NOTHING
    }
}

/// What there is to say of it.
pub fn answer_of(why: Refusal) -> Answer
    ensures { result ≡ answer_of why }
{
    match why {
        Refusal::Open(fault) => unopened_answer(fault),
        Refusal::State => Answer::NOTHING,
        Refusal::Frames { frame } => numbers(frame, 0),
        Refusal::Length { block } => numbers(block, 0),
        Refusal::Input { limit } => numbers(limit, 0),
        Refusal::Room { bytes } => numbers(saturated(bytes), 0),
        Refusal::KeptRoom { numbers: count } => numbers(saturated(count), 0),
        Refusal::Gather { held, more } => numbers(held, more),
        Refusal::Full { samples } => numbers(samples, 0),
        Refusal::Window { end, length } => numbers(end, length),
    }
}
