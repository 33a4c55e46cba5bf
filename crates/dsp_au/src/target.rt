//! The file that is written: its header, and what stands behind its samples.

ghost use Rattle.std.specs.Prelude.{◌≡◌, ◌≢◌, ◌*◌, ◌/◌, ◌-◌, ◌^◌, ◌<◌, ◌≤◌, ℕ, length, take, MatchResult};
ghost use Rattle.std.specs.Prelude.{IfSome, IsNone};
ghost use Rattle.dsp_ports.specs.Ports.{CountsFaults, Took, IsSettled};
ghost use Rattle.dsp_defs.specs.Au.{FormFits, form_header, form_pad, open_declared_frames, open_frame_bytes};
ghost use Rattle.dsp_defs.specs.Au.{target_form};
ghost use Rattle.dsp_defs.specs.Open.{IsOpenGood};
ghost use Rattle.dsp_au.specs.Convert.{Closed, TooLong};

use crate::fault::ConvertFault;
use crate::source::frame_bytes;
use crate::writer::write_au;
use dsp_defs::{Direction, MAX_RIFF_SIZE, OpenHeader};
use dsp_ports::{Failed, Sink, write_all};
use dsp_wave::{open_pad, open_riff_size, write_open_header};

/// The whole frames among so many bytes.
fn whole_frames(header: OpenHeader, size: u32) -> u64
    requires frame { 1 ≤ open_frame_bytes header }
    requires told { size ≢ 2 ^ 32 - 1 }
    ensures value { result ≡ size / open_frame_bytes header }
    ensures few { result * open_frame_bytes header < 2 ^ 32 - 1 }
{
    u64::from(size) / frame_bytes(header) as u64
}

/// The whole frames that a header declares, if it does.
pub(crate) fn declared_frames(header: OpenHeader) -> Option<u64>
    requires { IsOpenGood header }
    ensures value { result ≡ open_declared_frames header }
    ensures few { IfSome result (λ frames. frames * open_frame_bytes header < 2 ^ 32 - 1) }
{
    Some(whole_frames(header, header.size?))
}

/// What is at fault where a WAVE file would be too long for its sizes.
pub(crate) fn riff_fault(direction: Direction, header: OpenHeader) -> Option<ConvertFault>
    requires { IsOpenGood header }
    ensures some { IfSome result (λ fault. TooLong direction header fault) }
    ensures none { IsNone result → FormFits (target_form direction) header }
{
    let frames = declared_frames(header)?;
    let size = match direction {
        Direction::WaveToAu => return None,
        Direction::AuToWave => open_riff_size(header.coding, header.channels, frames),
    };
    if size <= u128::from(MAX_RIFF_SIZE) {
        return None;
    }
    Some(ConvertFault::Riff {
        size,
        limit: u64::from(MAX_RIFF_SIZE),
    })
}

/// Writes what stands in the output before the samples.
pub(crate) fn write_target_header<K: Sink>(
    direction: Direction,
    header: OpenHeader,
    output: &mut K,
) -> Result<(), Failed>
    requires header { IsOpenGood header }
    requires fits { FormFits (target_form direction) header }
    ensures took { MatchResult result
        (λ _. Took (K.state output.old) (K.state output.new)
        (form_header (target_form direction) header))
        (λ _. (count : ℕ) × (count < length (form_header (target_form direction) header))
        × Took (K.state output.old) (K.state output.new)
        (take count (form_header (target_form direction) header))) }
    ensures faults { CountsFaults result (K.state output.old).faults (K.state output.new).faults }
{
    let frames = declared_frames(header);
    let OpenHeader {
        rate,
        coding,
        channels,
        ..
    } = header;
    match direction {
        Direction::WaveToAu => write_all(output, &write_au(coding, channels, rate, frames)),
        Direction::AuToWave => {
            write_all(output, &write_open_header(coding, channels, rate, frames))
        }
    }
}

/// Writes what stands behind the samples, and makes sure of the output.
pub(crate) fn close<K: Sink>(
    direction: Direction,
    header: OpenHeader,
    output: &mut K,
) -> Result<(), Failed>
    requires { IsOpenGood header }
    ensures closed { Closed result (form_pad (target_form direction) header)
        (K.state output.old) (K.state output.new) }
    ensures faults { CountsFaults result (K.state output.old).faults (K.state output.new).faults }
{
    let pad = match direction {
        Direction::WaveToAu => &[],
        Direction::AuToWave => open_pad(header.coding, header.channels, declared_frames(header)),
    };
    write_all(output, pad)?;
    output.flush()
}
