ghost use Rattle.std.specs.Prelude.{◌≡◌, ◌+◌, ◌<◌, ◌≤◌, ◌^◌, ◌&&◌, nat_le, ℕ, List, length, IfOk, IfErr};
ghost use Rattle.dsp_defs.specs.Au.{au_said, coding_of_encoding};
ghost use Rattle.dsp_defs.specs.declared.limits.TheConstants.{MAX_CHANNELS};
ghost use Rattle.dsp_au.specs.Reading.{AuCame, AuHeaded, AuMissing, AuStopped};

use crate::fault::AuOr;
use crate::writer::AU_FIELDS;
use byteorder::{BigEndian, ByteOrder};
use dsp_defs::{AuFault, Coding, MAX_CHANNELS, MAX_INPUT, OpenHeader};
use dsp_ports::{FillFault, Source, fill};

/// How samples of an encoding stand, where it is linear.
fn coding_of(encoding: u32) -> Option<Coding>
    ensures { result ≡ coding_of_encoding encoding }
{
    match encoding {
        2 => Some(Coding::Wave7),
        3 => Some(Coding::Wave15),
        4 => Some(Coding::Wave24),
        5 => Some(Coding::Wave31),
        _ => None,
    }
}

/// Whether a file may have so many channels.
fn are_channels(count: u32) -> bool
    ensures { result ≡ (nat_le 1 count && nat_le count MAX_CHANNELS) }
{
    1 <= count && count <= u32::from(MAX_CHANNELS)
}

/// What the fields of a header behind `.snd` say, or their fault with its offset.
fn read_fields(fields: &[u8]) -> Result<OpenHeader, (AuFault, u64)>
    requires { length fields.now ≡ 24 }
    ensures said { result ≡ au_said fields.now }
    ensures few { IfOk result (λ header. header.start < 2 ^ 32) }
{
    let start = BigEndian::read_u32(&fields[4..8]);
    if start < AU_FIELDS as u32 {
        return Err((AuFault::Offset { got: start }, 4));
    }
    let encoding = BigEndian::read_u32(&fields[12..16]);
    let Some(coding) = coding_of(encoding) else {
        return Err((AuFault::Encoding { got: encoding }, 12));
    };
    let channels = BigEndian::read_u32(&fields[20..24]);
    let size = BigEndian::read_u32(&fields[8..12]);
    if are_channels(channels) {
        Ok(OpenHeader {
            rate: BigEndian::read_u32(&fields[16..20]),
            start: u64::from(start),
            size: if size == u32::MAX { None } else { Some(size) },
            coding,
            channels: channels as u8,
        })
    } else {
        Err((AuFault::Channels { got: channels }, 20))
    }
}

/// Takes so many bytes behind those that were taken, and forgets them.
fn skip<S: Source>(source: &mut S, count: u64, taken: u64) -> Result<(), AuOr>
    requires { taken + count ≤ 2 ^ 32 }
    ensures ok { IfOk result (λ _. (bytes : List ℕ)
        × AuCame taken count (S.state source.old) (S.state source.new) bytes) }
    ensures err { IfErr result (λ error.
        AuMissing taken count (S.state source.old) (S.state source.new) error) }
{
    match dsp_ports::skip(source, count, MAX_INPUT - taken) {
        Ok(came) if came < count => Err(AuOr::Fault {
            fault: AuFault::Ended,
            offset: taken + came,
        }),
        Ok(_) => Ok(()),
        Err(FillFault::Failed) => Err(AuOr::Read),
        Err(FillFault::LimitReached) => unreachable!(),
    }
}

/// Reads the header of an AU file of linear samples with 8, 16, 24 or 32 bits and 1 to 16 channels
/// from its begin, and takes the bytes up to the first sample and no more. It takes no memory.
///
/// A fault has its offset in bytes from the file's begin. The declared size of the samples is in
/// bytes, and no size means that they go to the end of the file.
pub fn read_au<S: Source>(source: &mut S) -> Result<OpenHeader, AuOr>
    ensures ok { IfOk result (λ header.
        AuHeaded (S.state source.old) (S.state source.new) header) }
    ensures err { IfErr result (λ error.
        AuStopped (S.state source.old) (S.state source.new) error) }
{
    let mut fields = [0; AU_FIELDS];
    let count = match fill(source, &mut fields, MAX_INPUT) {
        Ok(count) => count,
        Err(_) => return Err(AuOr::Read),
    };
    if count < 4 || &fields[..4] != b".snd".as_slice() {
        return Err(AuOr::Fault {
            fault: AuFault::NotAu,
            offset: 0,
        });
    }
    if count < AU_FIELDS {
        return Err(AuOr::Fault {
            fault: AuFault::Ended,
            offset: count as u64,
        });
    }
    match read_fields(&fields) {
        Ok(header) => {
            skip(source, header.start - AU_FIELDS as u64, AU_FIELDS as u64)?;
            Ok(header)
        }
        Err((fault, offset)) => Err(AuOr::Fault { fault, offset }),
    }
}
