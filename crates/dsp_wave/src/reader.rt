ghost use Rattle.std.specs.Prelude.{◌≡◌, ℕ, ◌+◌, ◌<◌, ◌≤◌, ◌^◌, List, Some, length, IfOk, IfErr};
ghost use Rattle.dsp_defs.specs.Wave.{header_of, declared_size, padded, u32_at};
ghost use Rattle.dsp_defs.specs.declared.wave.Wanted.{Wanted};
ghost use Rattle.dsp_wave.specs.Reading.{Headed, IsHeaderOf, IsSaidFrom, Says, Stopped, said_from};
ghost use Rattle.dsp_wave.specs.Taking.{Came, Missing, Chunked, FormatFound, RiffRead};

use crate::format::read_format;
use byteorder::{ByteOrder, LittleEndian};
use dsp_defs::{Header, HeaderFault, MAX_INPUT, Sampling, Wanted};
use dsp_ports::{FillFault, Source, fill};
use thiserror::Error;

/// Why a header is not read.
#[derive(Clone, Copy, Debug, PartialEq, Eq, Error)]
pub enum HeaderOr {
    /// The bytes are no such file; the offset is in bytes from the file's begin.
    #[error("{fault} at {offset}")]
    Fault { fault: HeaderFault, offset: u64 },
    /// The source failed.
    #[error("the source failed")]
    Read,
    /// 2^40 bytes were taken, and another is needed.
    #[error("the header is too long")]
    Long,
}

/// What a chunk behind the format was, and where the next one begins.
#[derive(Clone, Copy, Debug, PartialEq, Eq)]
enum Next {
    Samples(Header),
    Other { taken: u64 },
}

/// The id and the size of the first `fmt ` chunk, and where it begins.
#[derive(Clone, Copy)]
pub(crate) struct FormatHead {
    pub head: [u8; 8],
    pub offset: u64,
}

/// Fills the piece. That the file ends before is a fault of it.
pub(crate) fn take<S: Source>(source: &mut S, piece: &mut [u8], taken: u64) -> Result<(), HeaderOr>
    requires { taken ≤ MAX_INPUT }
    ensures ok { IfOk result (λ _. Came taken (length piece.new) (S.state source.old)
        (S.state source.new) piece.new) }
    ensures err { IfErr result (λ error.
        Missing taken (length piece.new) (S.state source.old) (S.state source.new) error) }
{
    match fill(source, piece, MAX_INPUT - taken) {
        Ok(count) if count < piece.len() => Err(HeaderOr::Fault {
            fault: HeaderFault::NoSamples,
            offset: taken + count as u64,
        }),
        Ok(_) => Ok(()),
        Err(FillFault::Failed) => Err(HeaderOr::Read),
        Err(FillFault::LimitReached) => Err(HeaderOr::Long),
    }
}

/// Takes so many bytes and forgets them.
pub(crate) fn skip<S: Source>(source: &mut S, count: u64, taken: u64) -> Result<(), HeaderOr>
    requires limit { taken ≤ MAX_INPUT }
    requires count { count ≤ 2 ^ 33 }
    ensures ok { IfOk result (λ _. (bytes : List ℕ)
        × Came taken count (S.state source.old) (S.state source.new) bytes) }
    ensures err { IfErr result (λ error.
        Missing taken count (S.state source.old) (S.state source.new) error) }
{
    match dsp_ports::skip(source, count, MAX_INPUT - taken) {
        Ok(came) if came < count => Err(HeaderOr::Fault {
            fault: HeaderFault::NoSamples,
            offset: taken + came,
        }),
        Ok(_) => Ok(()),
        Err(FillFault::Failed) => Err(HeaderOr::Read),
        Err(FillFault::LimitReached) => Err(HeaderOr::Long),
    }
}

/// What a `data` chunk at the offset heads, where a `fmt ` chunk before it has said this of the samples.
fn samples_at(known: Sampling, size: u32, offset: u64) -> Header
    requires { offset ≤ MAX_INPUT }
    ensures { result ≡ record {
      rate = known.rate;
      start = offset + 8;
      size = declared_size size;
      coding = known.coding;
    } }
{
    Header {
        rate: known.rate,
        start: offset + 8,
        size: if size == u32::MAX { None } else { Some(size) },
        coding: known.coding,
    }
}

/// A size with the pad byte of an odd one.
pub(crate) fn padded(size: u32) -> u64
    ensures { result ≡ padded size }
{
    u64::from(size) + u64::from(size % 2)
}

/// The size of the chunk with this id and size, with its pad byte.
pub(crate) fn format_size(head: &[u8]) -> u64
    requires { length head.now ≡ 8 }
    ensures { result ≡ padded (u32_at head.now 4) }
{
    padded(LittleEndian::read_u32(&head[4..]))
}

/// Reads the chunk that begins at the offset, and of a `data` chunk its id and size alone. A `fmt ` chunk
/// before it has said this of the samples.
fn next_chunk<S: Source>(source: &mut S, known: Sampling, offset: u64) -> Result<Next, HeaderOr>
    requires { offset ≤ MAX_INPUT }
    ensures ok { IfOk result (λ next.
        Chunked offset known (S.state source.old) (S.state source.new) next) }
    ensures err { (wanted : Wanted) → IfErr result (λ error.
        Stopped (said_from wanted offset (Some known)) offset (S.state source.old)
        (S.state source.new) error) }
{
    let mut head = [0; 8];
    take(source, &mut head, offset)?;
    let size = LittleEndian::read_u32(&head[4..]);
    if &head[..4] == b"data".as_slice() {
        return Ok(Next::Samples(samples_at(known, size, offset)));
    }
    skip(source, padded(size), offset + 8)?;
    Ok(Next::Other {
        taken: offset + 8 + padded(size),
    })
}

/// Reads the `RIFF` and `WAVE` with which the file begins.
pub(crate) fn read_riff<S: Source>(source: &mut S) -> Result<(), HeaderOr>
    ensures ok { IfOk result (λ _. RiffRead (S.state source.old) (S.state source.new)) }
    ensures err { (says : Says) → IsHeaderOf says → IfErr result (λ error.
        Stopped says 0 (S.state source.old) (S.state source.new) error) }
{
    let mut first = [0; 12];
    let count = match fill(source, &mut first, MAX_INPUT) {
        Ok(count) => count,
        Err(_) => return Err(HeaderOr::Read),
    };
    if count < 4 || &first[..4] != b"RIFF".as_slice() {
        return Err(HeaderOr::Fault {
            fault: HeaderFault::NotRiff,
            offset: 0,
        });
    }
    if count < 12 || &first[8..] != b"WAVE".as_slice() {
        return Err(HeaderOr::Fault {
            fault: HeaderFault::NotWave,
            offset: 8,
        });
    }
    Ok(())
}

/// Reads chunk after chunk behind the first twelve bytes, up to the id and the size of the first `fmt `
/// chunk.
pub(crate) fn first_format<S: Source>(source: &mut S) -> Result<FormatHead, HeaderOr>
    ensures ok { IfOk result (FormatFound (S.state source.old) (S.state source.new)) }
    ensures err { (says : Says) → IsSaidFrom 12 says → IfErr result (λ error.
        Stopped says 12 (S.state source.old) (S.state source.new) error) }
{
    let mut offset = 12;
    'chunks: loop {
        let mut head = [0; 8];
        take(source, &mut head, offset)?;
        if &head[..4] == b"data".as_slice() {
            return Err(HeaderOr::Fault {
                fault: HeaderFault::NoFormat,
                offset,
            });
        }
        if &head[..4] == b"fmt ".as_slice() {
            return Ok(FormatHead { head, offset });
        }
        let size = padded(LittleEndian::read_u32(&head[4..]));
        skip(source, size, offset + 8)?;
        offset += 8 + size;
    }
}

/// Reads chunk after chunk, from the offset on, up to the samples. A `fmt ` chunk before them has said
/// this of the samples.
pub(crate) fn read_chunks<S: Source>(
    source: &mut S,
    known: Sampling,
    offset: u64,
) -> Result<Header, HeaderOr>
    requires { offset ≤ MAX_INPUT }
    ensures ok { (wanted : Wanted) → IfOk result (λ header.
        Headed (said_from wanted offset (Some known)) offset (S.state source.old)
        (S.state source.new) header) }
    ensures err { (wanted : Wanted) → IfErr result (λ error.
        Stopped (said_from wanted offset (Some known)) offset (S.state source.old)
        (S.state source.new) error) }
{
    let mut offset = offset;
    'header: loop {
        match next_chunk(source, known, offset)? {
            Next::Samples(header) => return Ok(header),
            Next::Other { taken } => offset = taken,
        }
    }
}

/// Reads the header of a WAVE file from its begin, and takes the bytes up to the first sample and no
/// more. It takes no memory.
///
/// A fault has its offset in bytes from the file's begin. The declared size of the samples is in bytes, and no size
/// means that they go to the end of the file.
pub fn read_header<S: Source>(source: &mut S, wanted: Wanted) -> Result<Header, HeaderOr>
    ensures ok { IfOk result (λ header.
        Headed (λ bytes. header_of bytes wanted) 0 (S.state source.old)
        (S.state source.new) header) }
    ensures err { IfErr result (λ error.
        Stopped (λ bytes. header_of bytes wanted) 0 (S.state source.old)
        (S.state source.new) error) }
{
    read_riff(source)?;
    let FormatHead { head, offset } = first_format(source)?;
    let known = read_format(source, wanted, &head, offset)?;
    let header = read_chunks(source, known, offset + 8 + format_size(&head))?;
    Ok(header)
}
