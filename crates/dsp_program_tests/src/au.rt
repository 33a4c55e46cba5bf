use crate::memory::{sink_of, source_of};
use dsp_au::{AuFault, AuOr, ConvertFault, Converted, Direction, convert, read_au, write_au};
use dsp_defs::HeaderFault;
use dsp_wave::{Coding, HeaderOr, OpenHeader, read_open_header, write_open_header};
use std::alloc::Global;
use std::process::Abort;

/// One frame of a channel of 16 bits at 8000 frames a second.
const WAVE: [u8; 46] =
    *b"RIFF\x26\x00\x00\x00WAVEfmt \x10\x00\x00\x00\x01\x00\x01\x00\x40\x1F\x00\x00\x80\x3E\x00\x00\x02\x00\x10\x00data\x02\x00\x00\x00\xE8\x03";

/// The same as an AU file.
const AU: [u8; 26] =
    *b".snd\x00\x00\x00\x18\x00\x00\x00\x02\x00\x00\x00\x03\x00\x00\x1F\x40\x00\x00\x00\x01\x03\xE8";

/// What is answered, and what is written, over ports that pass a few bytes a call.
fn converts(
    rt: &impl Abort,
    alloc: Global,
    direction: Direction,
    input: &[u8],
    answer: Result<Converted, ConvertFault>,
    output: &[u8],
) {
    for piece in [1, 7, 1000] {
        let mut source = source_of(rt, alloc, input, piece, &[]);
        let mut sink = sink_of(rt, alloc, 1000, piece, &[]);
        let found = convert(direction, &mut source, &mut sink);
        assert_same!(rt; found, answer);
        assert_same!(rt; sink.bytes(), output);
    }
}

#[test]
fn a_wave_file_becomes_an_au_file_and_back(rt: HostRuntime) {
    let done = Converted {
        frames: 1,
        channels: 1,
        bits: 16,
    };
    converts(&rt, rt.alloc(), Direction::WaveToAu, &WAVE, Ok(done), &AU);
    converts(&rt, rt.alloc(), Direction::AuToWave, &AU, Ok(done), &WAVE);
}

/// The byte 7F of a WAVE file is -1, and the samples of 24 bits have a pad byte behind them.
#[test]
fn samples_keep_their_values(rt: HostRuntime) {
    {
        let mut wave = [0; 45];
        wave[..44].copy_from_slice(&write_open_header(Coding::Wave7, 1, 8000, Some(1)));
        wave[44] = 0x7F;
        let mut au = [0; 25];
        au[..24].copy_from_slice(&write_au(Coding::Wave7, 1, 8000, Some(1)));
        au[24] = 0xFF;
        let done = Converted {
            frames: 1,
            channels: 1,
            bits: 8,
        };
        converts(&rt, rt.alloc(), Direction::WaveToAu, &wave, Ok(done), &au);
    }
    let mut au = [0; 27];
    au[..24].copy_from_slice(&write_au(Coding::Wave24, 1, 8000, Some(1)));
    au[24..].copy_from_slice(b"\x80\x00\x01");
    let mut wave = [0; 48];
    wave[..44].copy_from_slice(&write_open_header(Coding::Wave24, 1, 8000, Some(1)));
    wave[44..].copy_from_slice(b"\x01\x00\x80\x00");
    let done = Converted {
        frames: 1,
        channels: 1,
        bits: 24,
    };
    converts(&rt, rt.alloc(), Direction::AuToWave, &au, Ok(done), &wave);
    converts(&rt, rt.alloc(), Direction::WaveToAu, &wave, Ok(done), &au);
}

/// The fault of an AU header, some of whose bytes are others.
fn au_fault(
    rt: &impl Abort,
    alloc: Global,
    place: usize,
    bytes: &[u8],
    fault: AuFault,
    offset: u64,
) {
    let mut file = AU;
    if place <= 26 && bytes.len() <= 26 - place {
        file[place..place + bytes.len()].copy_from_slice(bytes);
    }
    let mut source = source_of(rt, alloc, &file, 7, &[]);
    let found = read_au(&mut source);
    assert_same!(rt; found, Err(AuOr::Fault { fault, offset }));
}

#[test]
fn faults_of_an_au_header_are_named(rt: HostRuntime) {
    let alloc = rt.alloc();
    au_fault(&rt, alloc, 0, b"\x2F", AuFault::NotAu, 0);
    au_fault(&rt, alloc, 7, b"\x17", AuFault::Offset { got: 23 }, 4);
    au_fault(&rt, alloc, 15, b"\x01", AuFault::Encoding { got: 1 }, 12);
    au_fault(&rt, alloc, 23, b"\x11", AuFault::Channels { got: 17 }, 20);
    au_fault(&rt, alloc, 7, b"\x1B", AuFault::Ended, 26);
    for (size, fault, offset) in [
        (0, AuFault::NotAu, 0),
        (3, AuFault::NotAu, 0),
        (4, AuFault::Ended, 4),
        (23, AuFault::Ended, 23),
    ] {
        let mut source = source_of(&rt, alloc, &AU[..size], 7, &[]);
        let found = read_au(&mut source);
        assert_same!(&rt; found, Err(AuOr::Fault { fault, offset }));
    }
}

/// A file that says 12 bits, and one that says 17 channels.
#[test]
fn faults_of_an_open_header_want_the_most_that_there_is(rt: HostRuntime) {
    for (place, byte, fault, offset) in [
        (
            34,
            12,
            HeaderFault::Bits {
                got: 12,
                wanted: 32,
            },
            34,
        ),
        (
            22,
            17,
            HeaderFault::Channels {
                got: 17,
                wanted: 16,
            },
            22,
        ),
        (22, 0, HeaderFault::Channels { got: 0, wanted: 16 }, 22),
        (32, 3, HeaderFault::Align { got: 3, wanted: 2 }, 32),
    ] {
        let mut file = WAVE;
        file[place] = byte;
        let mut source = source_of(&rt, rt.alloc(), &file, 7, &[]);
        let found = read_open_header(&mut source);
        assert_same!(&rt; found, Err(HeaderOr::Fault { fault, offset }));
    }
    let mut source = source_of(&rt, rt.alloc(), &WAVE, 7, &[]);
    let header = OpenHeader {
        rate: 8000,
        start: 44,
        size: Some(2),
        coding: Coding::Wave15,
        channels: 1,
    };
    let found = read_open_header(&mut source);
    assert_same!(&rt; found, Ok(header));
}

/// The input ends within its second frame, which is not written.
#[test]
fn a_short_input_is_named(rt: HostRuntime) {
    let mut au = AU;
    au[11] = 4;
    let fault = AuFault::Short {
        declared: 4,
        got: 2,
    };
    let header = write_open_header(Coding::Wave15, 1, 8000, Some(2));
    let answer = Err(ConvertFault::Au { fault, offset: 26 });
    converts(&rt, rt.alloc(), Direction::AuToWave, &au, answer, &header);
}

/// 4,294,967,260 sample bytes are more than a WAVE file says.
#[test]
fn too_long_a_wave_file_is_refused(rt: HostRuntime) {
    let mut au = AU;
    au[8..12].copy_from_slice(b"\xFF\xFF\xFF\xDC");
    let answer = Err(ConvertFault::Riff {
        size: 4_294_967_296,
        limit: 4_294_967_294,
    });
    converts(&rt, rt.alloc(), Direction::AuToWave, &au, answer, &[]);
}

#[test]
fn ports_that_fail_are_named(rt: HostRuntime) {
    for call in [1, 2, 3] {
        let mut source = source_of(&rt, rt.alloc(), &AU, 24, &[call]);
        let mut sink = sink_of(&rt, rt.alloc(), 1000, 1000, &[]);
        let found = convert(Direction::AuToWave, &mut source, &mut sink);
        let wanted = if call == 3 {
            None
        } else {
            Some(ConvertFault::Read)
        };
        assert_same!(&rt; found.err(), wanted);
    }
    for call in [1, 2, 3] {
        let mut source = source_of(&rt, rt.alloc(), &AU, 1000, &[]);
        let mut sink = sink_of(&rt, rt.alloc(), 1000, 1000, &[call]);
        let found = convert(Direction::AuToWave, &mut source, &mut sink);
        assert_same!(&rt; found, Err(ConvertFault::Write));
    }
}
