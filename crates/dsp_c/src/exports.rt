//! What C calls. A slice is a pointer and a length.

ghost use Rattle.std.specs.Prelude.{◌≡◌, ◌≢◌, ◌≤◌, ◌⊎◌, ◌+◌, ◌*◌, ◌^◌, ◌++◌, length, take, drop};
ghost use Rattle.dsp_host.specs.Pieces.{FailsToGoOn, GoesOn};
ghost use Rattle.dsp_host.specs.declared.refusal.Refusal.{Refusal};
ghost use Rattle.dsp_c.specs.Answer.{answer_of, status_of};
ghost use Rattle.dsp_c.specs.Pieces.{EndsWith, FailsToEnd};
ghost use Rattle.dsp_c.specs.Plan.{FailsToPlan, IsPlanned};
ghost use Rattle.dsp_c.specs.Program.{NotPlayed, Played};
ghost use Rattle.dsp_c.specs.Text.{Writes, text_of};

use crate::answer::{Answer, MEMORY, OK, answer_of, status_of};
use crate::measures::MeasureRow;
use crate::pieces::{counted_piece, counted_tail};
use crate::plan::{Plan, planned};
use crate::program::{Lengths, Outcome, play};
use crate::text::write_text;
use dsp_blocks::BlockUnit;
use dsp_host::Piece;
use std::alloc::Global;
use std::marker::Brand;
use std::sync::ledger::Blank;

/// The version of the library, three numbers.
const MAJOR: u32 = 0;

const MINOR: u32 = 1;

const PATCH: u32 = 0;

/// The version of the library: 65,536 for each major one, 256 for each minor one, and the patch.
#[unsafe(no_mangle)]
pub extern "C" fn tozbirem_version() -> u32
    ensures { result ≡ MAJOR * 2 ^ 16 + MINOR * 2 ^ 8 + PATCH }
{
    (MAJOR << 16) + (MINOR << 8) + PATCH
}

/// Says in one line of text what a status and the numbers beside it mean, and answers how many bytes the line
/// has. Where the buffer has less room than that it stays as it is.
#[unsafe(no_mangle)]
pub extern "C" fn tozbirem_explain(status: u32, answer: &Answer, text: &mut [u8]) -> u64
    ensures length { result ≡ length (text_of status answer.now) }
    ensures bytes { Writes (text_of status answer.now) text.old text.new }
{
    write_text(status, answer, text)
}

/// Says what a script is, and what a run of it over so many frames does.
#[unsafe(no_mangle)]
pub extern "C" fn tozbirem_plan(
    alloc: Global,
    script: &[u8],
    block: u64,
    frames: u64,
    plan: &mut Plan,
    answer: &mut Answer,
) -> u32
    // The plan is that of the script that the text reads as.
    ensures ok { result ≡ 0 → IsPlanned script.now block frames plan.new }
    ensures told { result ≡ 0 → answer.new ≡ Answer.NOTHING }

    // Each other status has its cause, with its numbers, and the plan is as it was.
    ensures err { result ≢ 0 → (why : Refusal) × (result ≡ status_of why)
        × (answer.new ≡ answer_of why) × FailsToPlan why script.now block frames }
    ensures unwritten { result ≢ 0 → plan.new ≡ plan.old }
{
    match planned::<BlockUnit>(alloc, script, block, frames) {
        Ok(made) => {
            *answer = Answer::NOTHING;
            *plan = made;
            OK
        }
        Err(why) => {
            *answer = answer_of(why);
            status_of(why)
        }
    }
}

/// Feeds the next frames of a signal, of which so many came before and left these numbers.
#[unsafe(no_mangle)]
pub extern "C" fn tozbirem_feed(
    alloc: Global,
    script: &[u8],
    block: u64,
    frames: u64,
    kept: &[i64],
    input: &[u8],
    output: &mut [u8],
    kept_out: &mut [i64],
    answer: &mut Answer,
) -> u32
    // The script of the text, behind each signal of so many frames that left these numbers: the bytes
    // given are what the frames of the input add to the output, and the numbers kept are what they leave.
    ensures ok { result ≡ 0 → GoesOn script.now block frames kept.now input.now (length output.old)
        (length kept_out.old) (take answer.new.given output.new)
        (take answer.new.kept kept_out.new) }
    ensures within { result ≡ 0 → (answer.new.given ≤ length output.old)
        × (answer.new.kept ≤ length kept_out.old) }
    ensures rest { result ≡ 0
        → (output.new ≡ take answer.new.given output.new ++ drop answer.new.given output.old)
        × (kept_out.new ≡ take answer.new.kept kept_out.new ++ drop answer.new.kept kept_out.old) }

    // Each other status has its cause, with its numbers, and nothing was written.
    ensures err { result ≢ 0 → (why : Refusal) × (result ≡ status_of why)
        × (answer.new ≡ answer_of why) × FailsToGoOn why script.now block frames kept.now input.now
        (length output.old) (length kept_out.old) }
    ensures unwritten { result ≢ 0 → (output.new ≡ output.old) × (kept_out.new ≡ kept_out.old) }
{
    let done = counted_piece::<BlockUnit, Brand>(
        alloc,
        script,
        block,
        frames,
        kept,
        input,
        output,
        kept_out,
        Blank::new(2),
    );
    match done {
        Ok(Piece { given, kept }) => {
            *answer = Answer {
                given: given as u64,
                kept: kept as u64,
                ..Answer::NOTHING
            };
            OK
        }
        Err(why) => {
            *answer = answer_of(why);
            status_of(why)
        }
    }
}

/// Ends a signal, of which so many frames came and left these numbers: gives its tail and its measures, as
/// many as there is room for.
#[unsafe(no_mangle)]
pub extern "C" fn tozbirem_finish(
    alloc: Global,
    script: &[u8],
    block: u64,
    frames: u64,
    kept: &[i64],
    output: &mut [u8],
    measures: &mut [MeasureRow],
    answer: &mut Answer,
) -> u32
    // The script of the text, for each signal of so many frames that left these numbers: the bytes given
    // are what the whole output has behind the live one, and the rows are the measures of the signal.
    ensures ok { result ≡ 0 → EndsWith script.now block frames kept.now (length output.old)
        (length measures.old) (take answer.new.given output.new)
        (take answer.new.kept measures.new) }
    ensures within { result ≡ 0 → (answer.new.given ≤ length output.old)
        × (answer.new.kept ≤ length measures.old) }
    ensures rest { result ≡ 0
        → (output.new ≡ take answer.new.given output.new ++ drop answer.new.given output.old)
        × (measures.new ≡ take answer.new.kept measures.new ++ drop answer.new.kept measures.old) }

    // Each other status has its cause, with its numbers, and nothing was written.
    ensures err { result ≢ 0 → (why : Refusal) × (result ≡ status_of why)
        × (answer.new ≡ answer_of why) × FailsToEnd why script.now block frames kept.now
        (length output.old) }
    ensures unwritten { result ≢ 0 → (output.new ≡ output.old) × (measures.new ≡ measures.old) }
{
    let done = counted_tail::<BlockUnit, Brand>(
        alloc,
        script,
        block,
        frames,
        kept,
        output,
        measures,
        Blank::new(2),
    );
    match done {
        Ok(Piece { given, kept }) => {
            *answer = Answer {
                given: given as u64,
                kept: kept as u64,
                ..Answer::NOTHING
            };
            OK
        }
        Err(why) => {
            *answer = answer_of(why);
            status_of(why)
        }
    }
}

/// Does what the words of the program `dspfx` say, over bytes in memory in place of files, and answers its
/// exit status. `other` is the other file that a command reads.
#[unsafe(no_mangle)]
pub extern "C" fn tozbirem_program(
    alloc: Global,
    words: &[u8],
    script: &[u8],
    input: &[u8],
    other: &[u8],
    output: &mut [u8],
    report: &mut [u8],
    lengths: &mut Lengths,
) -> u32
    // The top call of these words over these bytes ended with this status, and what it wrote stands in the
    // buffers; or memory was wanting for the words or for what is written, and nothing was written.
    ensures { Played words.now script.now input.now other.now output.old output.new report.old
        report.new result lengths.new ⊎ NotPlayed output.old output.new report.old report.new result lengths.new }
{
    match play::<BlockUnit, Brand>(
        alloc,
        words,
        script,
        input,
        other,
        output,
        report,
        Blank::new(2),
    ) {
        Ok(
            Outcome {
                status,
                lengths: done,
            },
        ) => {
            *lengths = done;
            u32::from(status)
        }
        Err(_) => {
            *lengths = Lengths {
                output: 0,
                report: 0,
            };
            MEMORY
        }
    }
}
