//! A file against what a script gives of an input.
ghost use Rattle.std.specs.Prelude.{◌≡◌, ◌≤◌, ◌<◌, ◌^◌, IfOk, IfErr};
ghost use Rattle.dsp_defs.specs.Block.{frames_of};
ghost use Rattle.dsp_defs.specs.Grammar.{IsSound};
ghost use Rattle.dsp_defs.specs.Output.{format_of};
ghost use Rattle.dsp_shape.specs.Lengths.{HasLegalBlock};
ghost use Rattle.dsp_input.specs.Taking.{Fits, PartTaken};
ghost use Rattle.dsp_check.specs.Channels.{InFormat};
ghost use Rattle.dsp_check.specs.Check.{Done, KeepsLimits, Stopped, frames_past_limit};
ghost use Rattle.dsp_check.specs.Steps.{IsLengthFault, Unread, bytes_past_limit, output_around};

use crate::bytes::{add_coded, signal_of};
use crate::comparing::compare;
use crate::evaluating::evaluate;
use crate::fault::CheckFault;
use crate::lengths::{size_fault, window_fault};
use crate::signal::Signal;
use dsp_defs::{
    Container, Header, MAX_CHECKED, MAX_INPUT, MAX_RIFF_SIZE, Script, Steps, WindowFault,
};
use dsp_input::{
    frame_bytes, known_frames, long_riff, output_header, read_block, read_input_header,
};
use dsp_ports::Source;
use dsp_script::output_flow;
use dsp_wave::pad;
use std::alloc::{AllocError, Global};
use std::sync::ledger::Ledger;

/// How many bytes of the input are asked for at a time.
const PIECE: usize = 16_384;

/// The frames of an input up to and with the first one past the limit.
fn frames_past_limit(script: &Script) -> u64
    requires { 1 ≤ script.now.input.channels }
    ensures value { result ≡ frames_past_limit script.now }
    ensures few { result ≤ 2 ^ 25 }
{
    MAX_CHECKED as u64 / u64::from(script.input.channels) + 1
}

/// The bytes of the samples up to and with the first frame past the limit.
fn bytes_past_limit(script: &Script, header: Header) -> u64
    requires { IsSound script.now }
    ensures { result ≡ bytes_past_limit script.now header }
{
    frames_past_limit(script) * frame_bytes(script, header.coding)
}

/// The samples behind the header: all of them, or the part of them that ends after `most` bytes.
fn read_samples<S: Source>(
    alloc: Global,
    script: &Script,
    header: Header,
    most: u64,
    input: &mut S,
) -> Result<Vec<u8>, CheckFault>
    requires sound { IsSound script.now }
    requires start { header.start ≤ MAX_INPUT }
    ensures ok { IfOk result (λ bytes. PartTaken script.now header most bytes.items
        (S.state input.old) (S.state input.new)) }
    ensures err { IfErr result (λ fault.
        Unread script.now header most fault (S.state input.old) (S.state input.new)) }
{
    let mut bytes = Vec::new(alloc);
    let mut piece = [0; PIECE];
    'reading: loop {
        let taken = bytes.len() as u64;
        let count = read_block(script, header, most, taken, &mut piece, input)?;
        bytes.extend_from_slice(&piece[..count])?;
        if count < PIECE {
            return Ok(bytes);
        }
    }
}

/// Refuses an input of so many frames where a length is past its limit: the first in the order in which
/// they are looked for.
fn check_lengths(script: &Script, header: Header, frames: u64) -> Result<(), CheckFault>
    requires sound { IsSound script.now }
    requires legal { HasLegalBlock script.now }
    requires taken { frames ≤ frames_past_limit script.now }
    ensures ok { IfOk result (λ _. KeepsLimits script.now header frames) }
    ensures few { IfOk result (λ _. frames < frames_past_limit script.now) }
    ensures err { IfErr result (λ fault. IsLengthFault fault script.now header frames) }
{
    if frames == frames_past_limit(script) {
        return Err(CheckFault::Size {
            size: u128::from(frames) * u128::from(script.input.channels),
            limit: MAX_CHECKED as u64,
        });
    }
    if let Some(WindowFault { end, length }) = window_fault(script, frames) {
        return Err(CheckFault::Window { end, length });
    }
    if let Some(size) = long_riff(script, known_frames(script, header)) {
        return Err(CheckFault::Riff {
            size,
            limit: u64::from(MAX_RIFF_SIZE),
        });
    }
    if let Some(size) = size_fault(script, frames) {
        return Err(CheckFault::Size {
            size: u128::from(size),
            limit: MAX_CHECKED as u64,
        });
    }
    Ok(())
}

/// The bytes of the output around what the script gives.
fn output_bytes(
    alloc: Global,
    script: &Script,
    header: Header,
    given: &Signal,
) -> Result<Vec<u8>, AllocError>
    requires sound { IsSound script.now }
    requires legal { HasLegalBlock script.now }
    requires fits { Fits script.now header }
    requires format { InFormat (format_of script.now) given.now }
    ensures { IfOk result (λ out. out.items ≡ output_around script.now header (frames_of given.now)) }
{
    let known = known_frames(script, header);
    let flow = output_flow(script);
    let mut out = Vec::new(alloc);
    out.extend_from_slice(&output_header(script, header, known))?;
    add_coded(alloc, script.output, flow.format, given, &mut out)?;
    if script.output != Container::Raw {
        out.extend_from_slice(pad(flow.format, flow.channels, known))?;
    }
    Ok(out)
}

/// Reads the input whole, works out what the script gives of it by the formulas, and reads the other
/// port as long as its bytes are those of that output: no byte behind the first one that decides. It
/// answers the bytes of the output where the other port has just these. The input may have 16,777,216
/// samples at each place of the script, all channels together.
pub fn check<S: Source, O: Source, L: Ledger>(
    alloc: Global,
    script: &Script,
    input: &mut S,
    other: &mut O,
    steps: &mut Steps<L>,
) -> Result<u64, CheckFault>
    requires sound { IsSound script.now }
    requires legal { HasLegalBlock script.now }
    ensures ok { IfOk result (λ size. Done script.now size (S.state input.old) (S.state input.new)
        (O.state other.old) (O.state other.new) steps.old steps.new) }
    ensures err { IfErr result (λ fault. Stopped script.now fault (S.state input.old)
        (S.state input.new) (O.state other.old) (O.state other.new) steps.old steps.new) }
{
    let header = read_input_header(script, input)?;
    let most = bytes_past_limit(script, header);
    let samples = read_samples(alloc, script, header, most, input)?;
    let bytes = samples.as_slice();
    let frames = bytes.len() as u64 / frame_bytes(script, header.coding);
    check_lengths(script, header, frames)?;
    let signal = signal_of(alloc, header.coding, script.input.channels, bytes)?;
    let given = evaluate(alloc, script, &signal, steps)?;
    let wanted = output_bytes(alloc, script, header, &given)?;
    let size = compare(other, wanted.as_slice())?;
    Ok(size)
}
