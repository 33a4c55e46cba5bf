ghost use Rattle.std.specs.Prelude.{◌≡◌, ◌++◌, IfErr, IfOk, length, take, drop};
ghost use Rattle.dsp_c.specs.Program.{AreWords, Played, words_in};

use dsp_cli::{Words, run};
use dsp_defs::Steps;
use dsp_ports::{LentSource, MemSink};
use dsp_unit::AnyUnit;
use std::alloc::{AllocError, Global};
use std::sync::ledger::{Blank, Ledger};

/// How many bytes a program has written.
#[repr(C)]
#[derive(Clone, Copy)]
pub struct Lengths {
    pub output: u64,
    pub report: u64,
}

/// How many bytes a sink takes at a time.
const PIECE: usize = 1 << 16;

/// The words of a text, apart by single spaces.
fn split_words(alloc: Global, text: &str) -> Result<Words, AllocError>
    ensures { IfOk result (λ words. words ≡ words_in text.now) }
{
    let parts: Vec<&str> = text.split(' ').collect(alloc)?;
    let mut words = Words::new(alloc);
    for part in parts.as_slice() {
        words.push(part)?;
    }
    Ok(words)
}

/// The words of bytes that are a text; other bytes have none.
fn words_of(alloc: Global, bytes: &[u8]) -> Result<Words, AllocError>
    ensures { IfOk result (AreWords bytes.now) }
{
    match str::from_utf8(bytes) {
        Ok(text) => split_words(alloc, text),
        Err(_) => Ok(Words::new(alloc)),
    }
}

/// Writes bytes to the front of a slice, as many as fit.
fn copy_front(bytes: &[u8], out: &mut [u8])
    ensures { out.new ≡ take (length out.old) bytes.now ++ drop (length bytes.now) out.old }
{
    let count = bytes.len().min(out.len());
    out[..count].copy_from_slice(&bytes[..count]);
}

/// What a program has done: its exit status, and how much it has written.
#[derive(Clone, Copy)]
pub struct Outcome {
    pub status: u8,
    pub lengths: Lengths,
}

/// Runs the program that the words ask for over bytes in memory, and writes what it wrote to the front of the
/// output and of the report. `other` is the other file that a command reads.
pub fn play<U: AnyUnit + Drop, L: Ledger>(
    alloc: Global,
    words: &[u8],
    script: &[u8],
    input: &[u8],
    other: &[u8],
    output: &mut [u8],
    report: &mut [u8],
    blank: Blank,
) -> Result<Outcome, AllocError>
    requires name { blank.name ≡ L.name }
    requires parts { blank.parts ≡ 2 }
    requires ledger_parts { L.parts ≡ 2 }
    ensures ok { IfOk result (λ outcome. Played words.now script.now input.now other.now output.old
        output.new report.old report.new outcome.status outcome.lengths) }
    ensures err { IfErr result (λ _. (output.new ≡ output.old) × (report.new ≡ report.old)) }
{
    let words = words_of(alloc, words)?;
    let mut script = LentSource::new(script);
    let mut input = LentSource::new(input);
    let mut other = LentSource::new(other);

    // A port tells the bytes that it took, and not where they are: so a sink owns them, and they are copied out.
    let mut written = MemSink::new(alloc, output.len(), PIECE, &[])?;
    let mut told = MemSink::new(alloc, report.len(), PIECE, &[])?;
    let mut steps: Steps<L> = Steps::new(blank);
    let status = run::<U, _, _, _, _, _, _>(
        alloc,
        &words,
        &mut script,
        &mut input,
        &mut written,
        &mut told,
        &mut other,
        &mut steps,
    );
    copy_front(written.bytes(), output);
    copy_front(told.bytes(), report);
    Ok(Outcome {
        status,
        lengths: Lengths {
            output: written.bytes().len() as u64,
            report: told.bytes().len() as u64,
        },
    })
}
