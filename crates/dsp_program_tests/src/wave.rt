use crate::memory::source_of;
use crate::same::same_count;
use dsp_defs::{Container, Fmt, Input, InputKind, Wanted};
use dsp_ports::{Source, fill};
use dsp_wave::{
    Coding, GenSource, HeaderOr, bytes_of, decode, encode, read_header, riff_size, sample_of,
    whole_samples, width, write_header,
};
use std::process::Abort;

mod headers;

/// Three samples are read from their bytes and written back, in whole slices and one alone.
fn both_ways(rt: &impl Abort, coding: Coding, bytes: &[u8], values: [i32; 3]) {
    let width = width(coding);
    same_count(rt, bytes.len(), 3 * width);
    same_count(rt, whole_samples(coding, bytes.len() + width - 1), 3);
    {
        let mut samples = [0; 3];
        decode(coding, bytes, &mut samples);
        assert_same!(rt; samples, values);
        let mut written = [0; 12];
        assert_holds!(rt; bytes.len() <= 12);
        encode(coding, &samples, &mut written[..bytes.len()]);
        assert_same!(rt; &written[..bytes.len()], bytes);
    }
    let first = sample_of(coding, &bytes[..width]);
    assert_same!(rt; first, values[0]);
    let mut again = [0; 12];
    bytes_of(coding, first, &mut again[..width]);
    assert_same!(rt; &again[..width], &bytes[..width]);
}

#[test]
fn samples_are_little_endian_and_wave_bytes_unsigned(rt: HostRuntime) {
    let ends16 = b"\x00\x80\xFE\xFF\xFF\x7F";
    let ends32 = b"\x00\x00\x00\x80\xFE\xFF\xFF\xFF\xFF\xFF\xFF\x7F";
    both_ways(&rt, Coding::Raw7, b"\x80\xFE\x7F", [-128, -2, 127]);
    both_ways(&rt, Coding::Wave7, b"\x00\x7E\xFF", [-128, -2, 127]);
    both_ways(&rt, Coding::Raw15, ends16, [-32768, -2, 32767]);
    both_ways(&rt, Coding::Wave15, ends16, [-32768, -2, 32767]);
    both_ways(&rt, Coding::Raw31, ends32, [i32::MIN, -2, i32::MAX]);
    both_ways(&rt, Coding::Wave31, ends32, [i32::MIN, -2, i32::MAX]);
    let ends24 = b"\x00\x00\x80\xFE\xFF\xFF\xFF\xFF\x7F";
    both_ways(&rt, Coding::Wave24, ends24, [i32::MIN, -512, 0x7FFF_FF00]);
}

#[test]
fn riff_sizes_count_the_pad_byte(rt: HostRuntime) {
    for (format, channels, frames, size) in [
        (Fmt::Q7, 1, 3, 40),
        (Fmt::Q7, 2, 3, 42),
        (Fmt::Q15, 2, 0, 36),
        (Fmt::Q15, 1, 2_147_483_629, 4_294_967_294),
        (Fmt::Q31, 16, u64::MAX, 1_180_591_620_717_411_303_396),
    ] {
        assert_same!(&rt; riff_size(Container::Wave, format, channels, frames), size);
        assert_same!(&rt;
            riff_size(Container::Wavex, format, channels, frames),
            size + 24
        );
    }
}

/// As python's `wave` module writes it, for 100 frames of two channels of 16 bits.
const STEREO: [u8; 44] =
    *b"RIFF\xB4\x01\x00\x00WAVEfmt \x10\x00\x00\x00\x01\x00\x02\x00\x44\xAC\x00\x00\x10\xB1\x02\x00\x04\x00\x10\x00data\x90\x01\x00\x00";

#[test]
fn headers_are_those_of_another_writer(rt: HostRuntime) {
    let known = write_header(Container::Wave, Fmt::Q15, 2, 44100, Some(100));
    assert_same!(&rt; known.as_slice(), STEREO.as_slice());
    let unknown = write_header(Container::Wave, Fmt::Q15, 2, 44100, None);
    let mut want = STEREO;
    for place in [4, 5, 6, 7, 40, 41, 42, 43] {
        want[place] = 0xFF;
    }
    assert_same!(&rt; unknown.as_slice(), want.as_slice());
}

/// As sox writes it, but for the chunk `fact` that it has besides, for one frame of a channel of 16 bits.
const EXTENSIBLE: [u8; 68] =
    *b"RIFF\x3E\x00\x00\x00WAVEfmt \x28\x00\x00\x00\xFE\xFF\x01\x00\x40\x1F\x00\x00\x80\x3E\x00\x00\x02\x00\x10\x00\x16\x00\x10\x00\x00\x00\x00\x00\x01\x00\x00\x00\x00\x00\x10\x00\x80\x00\x00\xAA\x00\x38\x9B\x71data\x02\x00\x00\x00";

#[test]
fn an_extensible_header_names_linear_pcm(rt: HostRuntime) {
    let header = write_header(Container::Wavex, Fmt::Q15, 1, 8000, Some(1));
    assert_same!(&rt; header.as_slice(), EXTENSIBLE.as_slice());
    let wanted = Wanted {
        format: Fmt::Q15,
        channels: 1,
    };
    let mut source = source_of(&rt, rt.alloc(), &EXTENSIBLE, 7, &[]);
    let read = read_header(&mut source, wanted).ok();
    assert_same!(&rt; read.map(|header| header.start), Some(68));
}

/// 4,000,000,000 frames of 64 bytes are 59 * 2^32 + 2,596,929,536 bytes a second.
#[test]
fn a_byte_rate_is_kept_modulo_two_to_the_32(rt: HostRuntime) {
    let header = write_header(Container::Wave, Fmt::Q31, 16, 4_000_000_000, Some(0));
    let said = b"\x10\x00\x00\x28\x6B\xEE\x00\x00\xCA\x9A\x40\x00\x20\x00";
    same_count(&rt, header.len(), 44);
    assert_same!(&rt; &header.as_slice()[22..36], said.as_slice());
}

/// The state 0 goes to 3C6EF35F, 47502932 and D1CCF6E9.
#[test]
fn a_generator_gives_the_high_bits_of_its_states(rt: HostRuntime) {
    let kind = InputKind::Raw { rate: 8000 };
    let mut block = [0; 16];
    for (format, count, bytes) in [
        (Fmt::Q7, 3, b"\x3C\x47\xD1".as_slice()),
        (Fmt::Q15, 6, b"\x6E\x3C\x50\x47\xCC\xD1".as_slice()),
        (
            Fmt::Q31,
            12,
            b"\x5F\xF3\x6E\x3C\x32\x29\x50\x47\xE9\xF6\xCC\xD1".as_slice(),
        ),
    ] {
        let input = Input {
            kind,
            format,
            channels: 1,
        };
        let mut source = GenSource::new(&input, 0, 3);
        assert_same!(&rt; fill(&mut source, &mut block, 100).ok(), Some(count));
        assert_holds!(&rt; block.as_slice().starts_with(bytes));
    }
}

#[test]
fn a_generated_wave_file_has_a_header_and_a_pad_byte(rt: HostRuntime) {
    let input = Input {
        kind: InputKind::Wave,
        format: Fmt::Q7,
        channels: 1,
    };
    let want =
        b"RIFF\x28\x00\x00\x00WAVEfmt \x10\x00\x00\x00\x01\x00\x01\x00\x80\xBB\x00\x00\x80\xBB\x00\x00\x01\x00\x08\x00data\x03\x00\x00\x00\xBC\xC7\x51\x00";
    {
        let mut source = GenSource::new(&input, 0, 3);
        let mut block = [0; 64];
        assert_same!(&rt; fill(&mut source, &mut block, 100).ok(), Some(48));
        assert_same!(&rt; &block[..48], want.as_slice());
    }
    let mut pieces = GenSource::new(&input, 0, 3);
    let mut piece = [0; 5];
    for start in [0, 5, 10, 15, 20, 25, 30, 35, 40] {
        assert_same!(&rt; fill(&mut pieces, &mut piece, 100).ok(), Some(5));
        assert_holds!(&rt; want.get(start..start + 5) == Some(piece.as_slice()));
    }
    assert_same!(&rt; fill(&mut pieces, &mut piece, 100).ok(), Some(3));
    assert_same!(&rt; pieces.read(&mut piece).ok(), Some(0));
}

/// Samples of two channels follow one another in the order of the file.
#[test]
fn a_long_generated_input_ends_where_its_frames_end(rt: HostRuntime) {
    let input = Input {
        kind: InputKind::Raw { rate: 48000 },
        format: Fmt::Q15,
        channels: 2,
    };
    let mut source = GenSource::new(&input, 7, 100_000);
    let mut block = [0; 8];
    assert_same!(&rt; fill(&mut source, &mut block, 100).ok(), Some(8));
    assert_same!(&rt;
        block.as_slice(),
        b"\x20\x3D\xDA\xE9\xCC\x9C\x4E\xED".as_slice()
    );
    for _ in 1..50_000 {
        assert_same!(&rt; fill(&mut source, &mut block, 100).ok(), Some(8));
    }
    assert_same!(&rt;
        block.as_slice(),
        b"\x32\xCD\x49\xEA\xDD\x9E\x20\xE6".as_slice()
    );
    assert_same!(&rt; fill(&mut source, &mut block, 100).ok(), Some(0));
}
