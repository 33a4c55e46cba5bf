ghost use Rattle.std.specs.Prelude.{◌≡◌, ◌/◌, length};
ghost use Rattle.dsp_defs.specs.Bytes.{IsValue, bytes_of, coding_of, format_in, sample_of, width};

use byteorder::{ByteOrder, LittleEndian};
use dsp_defs::{Coding, Container, Fmt};

/// The coding of samples of a format in a container, with all bits of their word.
pub fn coding_of(container: Container, format: Fmt) -> Coding
    ensures { result ≡ coding_of container format }
{
    match (container, format) {
        (Container::Raw, Fmt::Q7) => Coding::Raw7,
        (Container::Raw, Fmt::Q15) => Coding::Raw15,
        (Container::Raw, Fmt::Q31) => Coding::Raw31,
        (Container::Wave | Container::Wavex, Fmt::Q7) => Coding::Wave7,
        (Container::Wave | Container::Wavex, Fmt::Q15) => Coding::Wave15,
        (Container::Wave | Container::Wavex, Fmt::Q31) => Coding::Wave31,
    }
}

/// The format of the samples that a coding is for.
pub fn format_in(coding: Coding) -> Fmt
    ensures { result ≡ format_in coding }
{
    match coding {
        Coding::Raw7 | Coding::Wave7 => Fmt::Q7,
        Coding::Raw15 | Coding::Wave15 => Fmt::Q15,
        Coding::Raw31 | Coding::Wave24 | Coding::Wave31 => Fmt::Q31,
    }
}

/// How many bytes a sample has: 1, 2, 3 or 4.
pub fn width(coding: Coding) -> usize
    ensures { result ≡ width coding }
{
    match coding {
        Coding::Raw7 | Coding::Wave7 => 1,
        Coding::Raw15 | Coding::Wave15 => 2,
        Coding::Wave24 => 3,
        Coding::Raw31 | Coding::Wave31 => 4,
    }
}

/// How many whole samples so many bytes have. The compiler sees each width, and divides by none.
pub fn whole_samples(coding: Coding, bytes: usize) -> usize
    ensures { result ≡ bytes / width coding }
{
    match coding {
        Coding::Raw7 | Coding::Wave7 => bytes,
        Coding::Raw15 | Coding::Wave15 => bytes / 2,
        Coding::Wave24 => bytes / 3,
        Coding::Raw31 | Coding::Wave31 => bytes / 4,
    }
}

/// The sample of its bytes, of which there are to be `width(coding)`. A sample of 24 bits has them as
/// its upper bytes, above a byte 0.
pub fn sample_of(coding: Coding, bytes: &[u8]) -> i32
    requires { length bytes.now ≡ width coding }
    ensures value { result ≡ sample_of coding bytes.now }
    ensures fits { IsValue coding result }
{
    match coding {
        Coding::Raw7 => i32::from(bytes[0].cast_signed()),
        Coding::Wave7 => i32::from(bytes[0]) - 128,
        Coding::Raw15 | Coding::Wave15 => i32::from(LittleEndian::read_i16(bytes)),
        Coding::Wave24 => i32::from_le_bytes([0, bytes[0], bytes[1], bytes[2]]),
        Coding::Raw31 | Coding::Wave31 => LittleEndian::read_i32(bytes),
    }
}

/// Writes the bytes of a sample, `width(coding)` of them. The sample is to be one that the coding has
/// bytes for: of 24 bits a multiple of 256.
pub fn bytes_of(coding: Coding, value: i32, out: &mut [u8])
    requires width { length out.old ≡ width coding }
    requires fits { IsValue coding value }
    ensures { out.new ≡ bytes_of coding value }
{
    match coding {
        Coding::Raw7 => out[0] = (value as i8).cast_unsigned(),
        Coding::Wave7 => out[0] = (value + 128) as u8,
        Coding::Raw15 | Coding::Wave15 => LittleEndian::write_i16(out, value as i16),
        Coding::Wave24 => out.copy_from_slice(&value.to_le_bytes()[1..]),
        Coding::Raw31 | Coding::Wave31 => LittleEndian::write_i32(out, value),
    }
}
