//! The `fmt ` chunk of a file.

ghost use Rattle.std.specs.Prelude.{◌≡◌, ℕ, ◌+◌, ◌≤◌, ◌++◌, List, length, take, IfOk, IfErr};
ghost use Rattle.dsp_defs.specs.Wave.{first_failed, format_fault, padded, pcm_tests, sample_tests, sampling};
ghost use Rattle.dsp_defs.specs.Wave.{u32_at};
ghost use Rattle.dsp_wave.specs.Reading.{Says, Stopped};
ghost use Rattle.dsp_wave.specs.Taking.{Came, FormatRead, FormatRest, IsEnough, IsFormatHead, IsSaidBehind};
ghost use Rattle.dsp_wave.specs.Taking.{format_chunk, said_behind};

use crate::coding::{coding_of, width};
use crate::extension::{EXTENSIBLE_SIZE, EXTENSIBLE_TAG, PCM_SUBFORMAT, PCM_TAG, PLAIN_SIZE};
use crate::reader::{HeaderOr, padded, skip, take};
use byteorder::{ByteOrder, LittleEndian};
use dsp_defs::{Coding, Container, Fmt, HeaderFault, MAX_INPUT, Sampling, Wanted};
use dsp_ports::Source;

/// What a `fmt ` chunk says of the samples, where its first 16 bytes are there.
fn sampling(wanted: Wanted, body: &[u8]) -> Sampling
    requires { 16 ≤ length body.now }
    ensures { result ≡ sampling wanted (format_chunk 0 0 body.now) }
{
    let bits = LittleEndian::read_u16(&body[14..16]);
    Sampling {
        rate: LittleEndian::read_u32(&body[4..8]),
        coding: match wanted.format {
            Fmt::Q31 if bits == 24 => Coding::Wave24,
            format => coding_of(Container::Wave, format),
        },
    }
}

/// Why a `fmt ` chunk of so many bytes at the offset does not say linear PCM.
fn pcm_fault(offset: u64, size: u32, body: &[u8]) -> Option<(HeaderFault, u64)>
    requires enough { IsEnough size body.now }
    requires offset { offset ≤ MAX_INPUT }
    ensures { result ≡ first_failed (pcm_tests 0 (format_chunk offset size body.now)) }
{
    let tag = LittleEndian::read_u16(&body[..2]);
    if tag == PCM_TAG {
        return None;
    }
    if tag != EXTENSIBLE_TAG {
        return Some((HeaderFault::Tag { got: tag }, offset + 8));
    }
    if size < EXTENSIBLE_SIZE as u32 {
        return Some((HeaderFault::FormatSize { got: size }, offset + 4));
    }
    if &body[24..40] != PCM_SUBFORMAT.as_slice() {
        let got = LittleEndian::read_u16(&body[24..26]);
        return Some((HeaderFault::Tag { got }, offset + 32));
    }
    None
}

/// Which field of a `fmt ` chunk at the offset says other samples than are wanted.
fn sample_fault(wanted: Wanted, offset: u64, body: &[u8]) -> Option<(HeaderFault, u64)>
    requires size { 16 ≤ length body.now }
    requires offset { offset ≤ MAX_INPUT }
    ensures { result ≡ first_failed (sample_tests wanted (format_chunk offset 0 body.now)) }
{
    let width = width(sampling(wanted, body).coding) as u16;
    let (got, channels) = (
        LittleEndian::read_u16(&body[2..4]),
        u16::from(wanted.channels),
    );
    if got != channels {
        let fault = HeaderFault::Channels {
            got,
            wanted: channels,
        };
        return Some((fault, offset + 10));
    }
    let (got, bits) = (LittleEndian::read_u16(&body[14..16]), 8 * width);
    if got != bits {
        return Some((HeaderFault::Bits { got, wanted: bits }, offset + 22));
    }
    let (got, align) = (LittleEndian::read_u16(&body[12..14]), channels * width);
    if got != align {
        return Some((HeaderFault::Align { got, wanted: align }, offset + 20));
    }
    None
}

/// What is at fault in a `fmt ` chunk of so many bytes at the offset, by as much of it as is judged.
fn format_fault(wanted: Wanted, offset: u64, size: u32, body: &[u8]) -> Option<(HeaderFault, u64)>
    requires enough { IsEnough size body.now }
    requires offset { offset ≤ MAX_INPUT }
    ensures { result ≡ format_fault wanted 0 (format_chunk offset size body.now) }
{
    match pcm_fault(offset, size, body) {
        Some(fault) => Some(fault),
        None => sample_fault(wanted, offset, body),
    }
}

/// Takes as much of a `fmt ` chunk at the offset as is judged, behind its id and size: 16 bytes, and
/// of one with an extension 40. It answers how many.
pub(crate) fn take_format<S: Source>(
    source: &mut S,
    head: &[u8],
    offset: u64,
    body: &mut [u8],
) -> Result<usize, HeaderOr>
    requires head { IsFormatHead head.now }
    requires room { length body.old ≡ 40 }
    requires offset { offset + 8 ≤ MAX_INPUT }
    ensures ok { IfOk result (λ count. Came (offset + 8) count (S.state source.old)
        (S.state source.new) (take count body.new)
        × IsEnough (u32_at head.now 4) (take count body.new)) }
    ensures err { (says : Says) → IsSaidBehind offset head.now says → IfErr result (λ error.
        Stopped says (offset + 8) (S.state source.old) (S.state source.new) error) }
{
    let size = LittleEndian::read_u32(&head[4..]);
    if size < PLAIN_SIZE as u32 {
        return Err(HeaderOr::Fault {
            fault: HeaderFault::FormatSize { got: size },
            offset: offset + 4,
        });
    }
    take(source, &mut body[..PLAIN_SIZE], offset + 8)?;
    if LittleEndian::read_u16(&body[..2]) != EXTENSIBLE_TAG || size < EXTENSIBLE_SIZE as u32 {
        return Ok(PLAIN_SIZE);
    }
    take(source, &mut body[PLAIN_SIZE..], offset + 24)?;
    Ok(EXTENSIBLE_SIZE)
}

/// Judges what was taken of the first `fmt ` chunk, at the offset, and skips the rest of it.
pub(crate) fn rest_of_format<S: Source>(
    source: &mut S,
    wanted: Wanted,
    head: &[u8],
    offset: u64,
    body: &[u8],
) -> Result<Sampling, HeaderOr>
    requires head { IsFormatHead head.now }
    requires enough { IsEnough (u32_at head.now 4) body.now }
    requires offset { offset + 8 + length body.now ≤ MAX_INPUT }
    ensures ok { IfOk result (λ sampling. FormatRest wanted offset head.now body.now
        (S.state source.old) (S.state source.new) sampling) }
    ensures err { IfErr result (λ error.
        Stopped (λ more. said_behind wanted offset head.now (body.now ++ more))
        (offset + 8 + length body.now) (S.state source.old) (S.state source.new) error) }
{
    let size = LittleEndian::read_u32(&head[4..]);
    if let Some((fault, offset)) = format_fault(wanted, offset, size, body) {
        return Err(HeaderOr::Fault { fault, offset });
    }
    let count = body.len() as u64;
    skip(source, padded(size) - count, offset + 8 + count)?;
    Ok(sampling(wanted, body))
}

/// Reads the first `fmt ` chunk, at the offset, behind its id and size, to its end.
pub(crate) fn read_format<S: Source>(
    source: &mut S,
    wanted: Wanted,
    head: &[u8],
    offset: u64,
) -> Result<Sampling, HeaderOr>
    requires head { IsFormatHead head.now }
    requires offset { offset + 8 ≤ MAX_INPUT }
    ensures ok { IfOk result (λ sampling.
        FormatRead wanted offset head.now (S.state source.old) (S.state source.new) sampling) }
    ensures err { IfErr result (λ error.
        Stopped (said_behind wanted offset head.now) (offset + 8) (S.state source.old)
        (S.state source.new) error) }
{
    let mut bytes = [0; EXTENSIBLE_SIZE];
    let count = take_format(source, head, offset, &mut bytes)?;
    let known = rest_of_format(source, wanted, head, offset, &bytes[..count])?;
    Ok(known)
}
