ghost use Rattle.std.specs.Prelude.{◌≡◌, ◌≢◌, ◌+◌, ◌*◌, ◌≤◌, ◌++◌, ℕ, List, length, Some, Ok};
ghost use Rattle.arrayvec.specs.ArrayVec.{array_vec_len};
ghost use Rattle.dsp_defs.specs.Bytes.{word_bytes, width};
ghost use Rattle.dsp_defs.specs.Open.{IsWave, OpenFits, open_header_of, open_wave_header};
ghost use Rattle.dsp_defs.specs.Open.{open_written_header};
ghost use Rattle.dsp_defs.specs.Wave.{HeaderFits, Heads, WidthFits, data_bytes, data_size, extension};
ghost use Rattle.dsp_defs.specs.Wave.{format_size, format_tag, header_of_width, pad, pad_of_width};
ghost use Rattle.dsp_defs.specs.Wave.{riff_bytes, riff_size, wave_header, written_header};
ghost use Rattle.dsp_defs.specs.declared.format.Container.TheVariants as container;
ghost use Rattle.dsp_defs.specs.declared.limits.TheConstants.{MAX_CHANNELS};

use crate::coding::width;
use crate::extension::{EXTENSIBLE_SIZE, EXTENSIBLE_TAG, PCM_SUBFORMAT, PCM_TAG, PLAIN_SIZE};
use arrayvec::ArrayVec;
use dsp_defs::{Coding, Container, Fmt};

/// The most bytes that stand before the samples of a file that is written.
pub const HEADER_ROOM: usize = 68;

fn word_bytes(format: Fmt) -> u8
    ensures { result ≡ word_bytes format }
{
    match format {
        Fmt::Q7 => 1,
        Fmt::Q15 => 2,
        Fmt::Q31 => 4,
    }
}

/// The bytes of the samples of so many frames, whose samples have so many bytes each.
fn data_bytes(width: u8, channels: u8, frames: u64) -> u128
    ensures { result ≡ data_bytes width channels (Some frames) }
{
    u128::from(frames) * u128::from(channels) * u128::from(width)
}

/// The bytes of the samples of so many frames.
pub(crate) fn data_size(format: Fmt, channels: u8, frames: u64) -> u128
    ensures { result ≡ data_size format channels (Some frames) }
{
    data_bytes(word_bytes(format), channels, frames)
}

/// The size and the tag of the `fmt ` chunk of a file.
fn format_of(container: Container) -> (u32, u16)
    ensures { result ≡ (format_size container, format_tag container) }
{
    match container {
        Container::Wavex => (EXTENSIBLE_SIZE as u32, EXTENSIBLE_TAG),
        Container::Wave | Container::Raw => (PLAIN_SIZE as u32, PCM_TAG),
    }
}

/// The size that a header says of a file of so many frames, whose samples have so many bytes each.
fn riff_bytes(container: Container, width: u8, channels: u8, frames: u64) -> u128
    requires width { width ≤ 4 }
    ensures { result ≡ riff_bytes container width channels (Some frames) }
{
    let data = data_bytes(width, channels, frames);
    20 + u128::from(format_of(container).0) + data + data % 2
}

/// The size that the header of a WAVE file of so many frames says of the file, in bytes: the rest of
/// the header behind the first eight bytes, which is 36 bytes and with the extension 60, the samples,
/// and the pad byte behind an odd number of them.
pub fn riff_size(container: Container, format: Fmt, channels: u8, frames: u64) -> u128
    requires wave { container ≢ Container.Raw }
    ensures { result ≡ riff_size container format channels (Some frames) }
{
    riff_bytes(container, word_bytes(format), channels, frames)
}

/// The size that `write_open_header` says of a file of so many frames.
pub fn open_riff_size(coding: Coding, channels: u8, frames: u64) -> u128
    ensures { result ≡ riff_bytes container.Wave (width coding) channels (Some frames) }
{
    riff_bytes(Container::Wave, width(coding) as u8, channels, frames)
}

/// What stands behind samples that have so many bytes each.
fn pad_of_width(width: u8, channels: u8, frames: Option<u64>) -> &'static [u8]
    ensures { result.now ≡ pad_of_width width channels frames }
{
    match frames {
        Some(frames) if data_bytes(width, channels, frames) % 2 != 0 => &[0],
        _ => &[],
    }
}

/// What stands behind the samples of a WAVE file: the byte 0 where their number is known and they
/// have an odd number of bytes, else nothing.
pub fn pad(format: Fmt, channels: u8, frames: Option<u64>) -> &'static [u8]
    ensures { result.now ≡ pad format channels frames }
{
    pad_of_width(word_bytes(format), channels, frames)
}

/// What stands behind the samples of a WAVE file whose samples stand in a coding.
pub fn open_pad(coding: Coding, channels: u8, frames: Option<u64>) -> &'static [u8]
    ensures { result.now ≡ pad_of_width (width coding) channels frames }
{
    pad_of_width(width(coding) as u8, channels, frames)
}

pub(crate) fn append(header: &mut ArrayVec<u8, HEADER_ROOM>, field: &[u8])
    requires { array_vec_len header.old + length field.now ≤ 68 }
    ensures items { header.new.items ≡ header.old.items ++ field.now }
    ensures length { array_vec_len header.new ≡ array_vec_len header.old + length field.now }
{
    header.try_extend_from_slice(field).unwrap();
}

/// Appends the extension of the `fmt ` chunk, where the container has one.
fn append_extension(header: &mut ArrayVec<u8, HEADER_ROOM>, container: Container, bits: u16)
    requires { array_vec_len header.old ≤ 36 }
    ensures items { header.new.items ≡ header.old.items ++ extension container bits }
    ensures length { array_vec_len header.new ≤ array_vec_len header.old + 24 }
{
    if container == Container::Wavex {
        append(header, &22u16.to_le_bytes());
        append(header, &bits.to_le_bytes());
        append(header, &0u32.to_le_bytes());
        append(header, &PCM_SUBFORMAT);
    }
}

/// What a header says of the sizes: that of the file and that of the samples.
fn sizes(container: Container, width: u8, channels: u8, frames: Option<u64>) -> (u32, u32)
    requires width { width ≤ 4 }
    requires size { WidthFits container width channels frames }
    ensures { result ≡ (riff_bytes container width channels frames, data_bytes width channels frames) }
{
    match frames {
        None => (u32::MAX, u32::MAX),
        Some(frames) => (
            riff_bytes(container, width, channels, frames) as u32,
            data_bytes(width, channels, frames) as u32,
        ),
    }
}

/// The bytes before the samples of a file whose samples have so many bytes each.
fn header_of_width(
    container: Container,
    width: u8,
    channels: u8,
    rate: u32,
    frames: Option<u64>,
) -> ArrayVec<u8, HEADER_ROOM>
    requires width { width ≤ 4 }
    requires channels { channels ≤ MAX_CHANNELS }
    requires size { WidthFits container width channels frames }
    ensures { result.items ≡ header_of_width container width channels rate frames }
{
    let (riff, data) = sizes(container, width, channels, frames);
    let (size, tag) = format_of(container);
    let align = u16::from(channels) * u16::from(width);
    let bytes_a_second = rate.wrapping_mul(u32::from(align));
    let bits = 8 * u16::from(width);
    let mut header = ArrayVec::new();
    append(&mut header, b"RIFF");
    append(&mut header, &riff.to_le_bytes());
    append(&mut header, b"WAVEfmt ");
    append(&mut header, &size.to_le_bytes());
    append(&mut header, &tag.to_le_bytes());
    append(&mut header, &u16::from(channels).to_le_bytes());
    append(&mut header, &rate.to_le_bytes());
    append(&mut header, &bytes_a_second.to_le_bytes());
    append(&mut header, &align.to_le_bytes());
    append(&mut header, &bits.to_le_bytes());
    append_extension(&mut header, container, bits);
    append(&mut header, b"data");
    append(&mut header, &data.to_le_bytes());
    header
}

/// The header of a WAVE file, the 44 bytes before its samples, with the extension 68: samples of the
/// format, `channels` of them a frame, `rate` frames a second. Where the number of frames is not
/// known, both sizes are 2^32 - 1. A known length is to have a RIFF size of at most 4,294,967,294.
pub fn write_header(
    container: Container,
    format: Fmt,
    channels: u8,
    rate: u32,
    frames: Option<u64>,
) -> ArrayVec<u8, HEADER_ROOM>
    requires wave { container ≢ Container.Raw }
    requires channels { channels ≤ MAX_CHANNELS }
    requires size { HeaderFits container format channels frames }
    ensures bytes { result.items ≡ wave_header container format channels rate frames }
    ensures heads { (rest : List ℕ) → Heads (result.items ++ rest)
        (record { format = format; channels = channels })
        (written_header container format channels rate frames) }
{
    header_of_width(container, word_bytes(format), channels, rate, frames)
}

/// The header of a WAVE file, the 44 bytes before its samples, which stand in a coding of WAVE:
/// `channels` of them a frame, `rate` frames a second. Where the number of frames is not known, both
/// sizes are 2^32 - 1. A known length is to have a RIFF size of at most 4,294,967,294.
pub fn write_open_header(
    coding: Coding,
    channels: u8,
    rate: u32,
    frames: Option<u64>,
) -> ArrayVec<u8, HEADER_ROOM>
    requires wave { IsWave coding }
    requires some { 1 ≤ channels }
    requires channels { channels ≤ MAX_CHANNELS }
    requires size { OpenFits coding channels frames }
    ensures bytes { result.items ≡ open_wave_header coding channels rate frames }
    ensures heads { (rest : List ℕ) → open_header_of (result.items ++ rest)
        ≡ Ok (open_written_header coding channels rate frames) }
{
    header_of_width(Container::Wave, width(coding) as u8, channels, rate, frames)
}
