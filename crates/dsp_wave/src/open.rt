//! WAVE files of which nothing is wanted: a header is judged by what its own `fmt ` chunk says.

ghost use Rattle.std.specs.Prelude.{◌≡◌, ◌+◌, ◌≤◌, length, IfOk, IfErr};
ghost use Rattle.dsp_defs.specs.Open.{opened, own_wanted};
ghost use Rattle.dsp_wave.specs.Reading.{Stopped};
ghost use Rattle.dsp_wave.specs.Taking.{IsFormatHead};
ghost use Rattle.dsp_wave.specs.Opening.{OpenHeaded, OwnRead, own_header_of, own_said_behind};

use crate::extension::EXTENSIBLE_SIZE;
use crate::format::{rest_of_format, take_format};
use crate::reader::{FormatHead, HeaderOr, first_format, format_size, read_chunks, read_riff};
use byteorder::{ByteOrder, LittleEndian};
use dsp_defs::{Fmt, Header, MAX_CHANNELS, MAX_INPUT, OpenHeader, Sampling, Wanted};
use dsp_ports::Source;

/// What a `fmt ` chunk wants of its own samples, where its first 16 bytes are there.
fn own_wanted(body: &[u8]) -> Wanted
    requires { 16 ≤ length body.now }
    ensures { result ≡ own_wanted body.now }
{
    let bits = LittleEndian::read_u16(&body[14..16]);
    let channels = LittleEndian::read_u16(&body[2..4]);
    Wanted {
        format: match bits {
            8 => Fmt::Q7,
            16 => Fmt::Q15,
            _ => Fmt::Q31,
        },
        channels: if 1 <= channels && channels <= u16::from(MAX_CHANNELS) {
            channels as u8
        } else {
            MAX_CHANNELS
        },
    }
}

/// Reads the first `fmt ` chunk, at the offset, behind its id and size, to its end, and wants of it
/// what it wants of itself.
fn read_own_format<S: Source>(
    source: &mut S,
    head: &[u8],
    offset: u64,
) -> Result<(Wanted, Sampling), HeaderOr>
    requires head { IsFormatHead head.now }
    requires offset { offset + 8 ≤ MAX_INPUT }
    ensures ok { IfOk result (λ own. OwnRead offset head.now (S.state source.old)
        (S.state source.new) own.0 own.1) }
    ensures err { IfErr result (λ error.
        Stopped (own_said_behind offset head.now) (offset + 8) (S.state source.old)
        (S.state source.new) error) }
{
    let mut bytes = [0; EXTENSIBLE_SIZE];
    let count = take_format(source, head, offset, &mut bytes)?;
    let body = &bytes[..count];
    let wanted = own_wanted(body);
    let known = rest_of_format(source, wanted, head, offset, body)?;
    Ok((wanted, known))
}

/// Adds the channels to what a header says.
fn opened(wanted: Wanted, header: Header) -> OpenHeader
    ensures { result ≡ opened wanted header }
{
    OpenHeader {
        rate: header.rate,
        start: header.start,
        size: header.size,
        coding: header.coding,
        channels: wanted.channels,
    }
}

/// Reads the header of any WAVE file of linear PCM with 8, 16, 24 or 32 bits and 1 to 16 channels
/// from its begin, and takes the bytes up to the first sample and no more. It takes no memory.
///
/// Its faults are those of `read_header`, where the file is wanted to have what it says: other bits
/// are a fault that wants 32, and other channels one that wants 16.
pub fn read_open_header<S: Source>(source: &mut S) -> Result<OpenHeader, HeaderOr>
    ensures ok { IfOk result (λ header.
        OpenHeaded (S.state source.old) (S.state source.new) header) }
    ensures err { IfErr result (λ error.
        Stopped own_header_of 0 (S.state source.old) (S.state source.new) error) }
{
    read_riff(source)?;
    let FormatHead { head, offset } = first_format(source)?;
    let (wanted, known) = read_own_format(source, &head, offset)?;
    let header = read_chunks(source, known, offset + 8 + format_size(&head))?;
    Ok(opened(wanted, header))
}
