ghost use Rattle.std.specs.Prelude.{◌≡◌, ◌+◌, ◌≤◌, ◌++◌, ℕ, List, length, Ok};
ghost use Rattle.arrayvec.specs.ArrayVec.{array_vec_len};
ghost use Rattle.dsp_defs.specs.Au.{AuFits, au_header, au_header_of, au_written_header};
ghost use Rattle.dsp_defs.specs.Bytes.{width};
ghost use Rattle.dsp_defs.specs.Open.{IsWave};
ghost use Rattle.dsp_defs.specs.Wave.{data_bytes};
ghost use Rattle.dsp_defs.specs.declared.limits.TheConstants.{MAX_CHANNELS};

use arrayvec::ArrayVec;
use dsp_defs::Coding;
use dsp_wave::width;

/// The bytes of an AU header that say something: `.snd` and five numbers.
pub const AU_FIELDS: usize = 24;

fn append(header: &mut ArrayVec<u8, AU_FIELDS>, field: &[u8])
    requires { array_vec_len header.old + length field.now ≤ 24 }
    ensures items { header.new.items ≡ header.old.items ++ field.now }
    ensures length { array_vec_len header.new ≡ array_vec_len header.old + length field.now }
{
    header.try_extend_from_slice(field).unwrap();
}

/// The bytes of the samples of so many frames, and 2^32 - 1 where their number is not known.
fn data_size(coding: Coding, channels: u8, frames: Option<u64>) -> u32
    requires { AuFits coding channels frames }
    ensures { result ≡ data_bytes (width coding) channels frames }
{
    match frames {
        None => u32::MAX,
        Some(frames) => {
            (u128::from(frames) * u128::from(channels) * width(coding) as u128) as u32
        }
    }
}

/// The header of an AU file, the 24 bytes before its samples, which have as many bits as in the
/// coding of WAVE: `channels` of them a frame, `rate` frames a second. Where the number of frames is
/// not known, the size of the samples is 2^32 - 1; a known one is to be less.
pub fn write_au(
    coding: Coding,
    channels: u8,
    rate: u32,
    frames: Option<u64>,
) -> ArrayVec<u8, AU_FIELDS>
    requires wave { IsWave coding }
    requires some { 1 ≤ channels }
    requires channels { channels ≤ MAX_CHANNELS }
    requires size { AuFits coding channels frames }
    ensures bytes { result.items ≡ au_header coding channels rate frames }
    ensures heads { (rest : List ℕ) → au_header_of (result.items ++ rest)
        ≡ Ok (au_written_header coding channels rate frames) }
{
    let size = data_size(coding, channels, frames);
    let encoding = width(coding) as u32 + 1;
    let mut header = ArrayVec::new();
    append(&mut header, b".snd");
    append(&mut header, &(AU_FIELDS as u32).to_be_bytes());
    append(&mut header, &size.to_be_bytes());
    append(&mut header, &encoding.to_be_bytes());
    append(&mut header, &rate.to_be_bytes());
    append(&mut header, &u32::from(channels).to_be_bytes());
    header
}
