use super::*;
use crate::memory::source_of;
use dsp_defs::{Header, HeaderFault, Wanted};
use std::alloc::Global;

const STEREO_Q15: Wanted = Wanted {
    format: Fmt::Q15,
    channels: 2,
};

/// A `LIST` chunk of an odd size stands before the samples, which begin at 58.
const LISTED: &[u8] =
    b"RIFF\x3A\x00\x00\x00WAVEfmt \x10\x00\x00\x00\x01\x00\x02\x00\x44\xAC\x00\x00\x10\xB1\x02\x00\x04\x00\x10\x00LIST\x05\x00\x00\x00INFO!\x00data\x08\x00\x00\x00\xE8\x03\x18\xFC\x00\x00\x00\x00";

/// Reads the header in small pieces and in one, and answers what both give.
fn read(rt: &impl Abort, alloc: Global, bytes: &[u8], wanted: Wanted) -> Result<Header, HeaderOr> {
    let mut pieces = source_of(rt, alloc, bytes, 7, &[]);
    let mut whole = source_of(rt, alloc, bytes, 1000, &[]);
    let first = read_header(&mut pieces, wanted);
    let second = read_header(&mut whole, wanted);
    assert_same!(rt; first, second);
    first
}

#[test]
fn a_header_is_read_up_to_the_first_sample(rt: HostRuntime) {
    let mut source = source_of(&rt, rt.alloc(), LISTED, 5, &[]);
    let header = read_header(&mut source, STEREO_Q15);
    let wanted = Header {
        rate: 44100,
        start: 58,
        size: Some(8),
        coding: Coding::Wave15,
    };
    assert_same!(&rt; header, Ok(wanted));
    let mut samples = [0; 9];
    assert_same!(&rt; fill(&mut source, &mut samples, 100).ok(), Some(8));
    assert_same!(&rt; &samples[..4], b"\xE8\x03\x18\xFC".as_slice());
}

#[test]
fn a_cut_file_is_named_where_it_is_cut(rt: HostRuntime) {
    for (length, fault, offset) in [
        (0, HeaderFault::NotRiff, 0),
        (3, HeaderFault::NotRiff, 0),
        (4, HeaderFault::NotWave, 8),
        (11, HeaderFault::NotWave, 8),
        (12, HeaderFault::NoSamples, 12),
        (57, HeaderFault::NoSamples, 57),
    ] {
        let read = read(&rt, rt.alloc(), &LISTED[..length], STEREO_Q15);
        assert_same!(&rt; read, Err(HeaderOr::Fault { fault, offset }));
    }
}

#[test]
fn a_source_that_fails_gives_no_header(rt: HostRuntime) {
    for number in [1, 2, 3, 4, 5] {
        let mut source = source_of(&rt, rt.alloc(), LISTED, 12, &[number]);
        assert_same!(&rt; read_header(&mut source, STEREO_Q15), Err(HeaderOr::Read));
    }
}

/// A `fmt ` chunk of 17 bytes with its pad byte, a second one that is not judged, and a size that is not known.
const ACCEPTED: &[u8] =
    b"RIFF\x00\x00\x00\x00WAVEfmt \x11\x00\x00\x00\x01\x00\x02\x00\x40\x1F\x00\x00\x00\x7D\x00\x00\x04\x00\x10\x00!\x00fmt \x02\x00\x00\x00\x03\x00data\xFF\xFF\xFF\xFF";

#[test]
fn a_longer_format_and_a_second_one_are_accepted(rt: HostRuntime) {
    let header = Header {
        rate: 8000,
        start: 56,
        size: None,
        coding: Coding::Wave15,
    };
    let read = read(&rt, rt.alloc(), ACCEPTED, STEREO_Q15);
    assert_same!(&rt; read, Ok(header));
}

/// A file that is no input.
struct Cut {
    format: Fmt,
    channels: u8,
    bytes: &'static [u8],
    fault: HeaderFault,
    offset: u64,
}

/// The first four stand alone; the others are an independent implementation's.
const CUTS: &[Cut] = &[
    Cut {
        format: Fmt::Q15,
        channels: 1,
        bytes: b"RIFF\x00\x00\x00\x00WAVEdata\x02\x00\x00\x00\x00\x00",
        fault: HeaderFault::NoFormat,
        offset: 12,
    },
    Cut {
        format: Fmt::Q15,
        channels: 1,
        bytes: b"RIFF\x00\x00\x00\x00WAVEfmt \x0F\x00\x00\x00\x01\x00\x01\x00\x40\x1F\x00\x00\x80\x3E\x00\x00\x02\x00\x10\x00",
        fault: HeaderFault::FormatSize { got: 15 },
        offset: 16,
    },
    Cut {
        format: Fmt::Q15,
        channels: 1,
        bytes: b"RIFF\x00\x00\x00\x00WAVEfmt \x10\x00\x00\x00\x03\x00\x01\x00\x40\x1F\x00\x00\x80\x3E\x00\x00\x02\x00\x10\x00",
        fault: HeaderFault::Tag { got: 3 },
        offset: 20,
    },
    Cut {
        format: Fmt::Q15,
        channels: 1,
        bytes: b"RIFF\x00\x00\x00\x00WAVEfmt \x10\x00\x00\x00\x01\x00\x01\x00\x40\x1F\x00\x00\x80\x3E\x00\x00\x02\x00\x10\x00LIST\xFF\xFF\xFF\xFFINFO!!",
        fault: HeaderFault::NoSamples,
        offset: 50,
    },
    Cut {
        format: Fmt::Q7,
        channels: 2,
        bytes: b"RIFF\x00\x00\x00\x00WAVEfmt \x10\x00\x00\x00\x01\x00\x02\x00D\xAC\x00\x00\xD7i\x14*)\x00\x01\x00JUNK\x03\x00\x00\x00e#\xA1\x00data\x0E\x00\x00\x00@\x92",
        fault: HeaderFault::Bits { got: 1, wanted: 8 },
        offset: 34,
    },
    Cut {
        format: Fmt::Q7,
        channels: 2,
        bytes: b"RIFFX\x00\x00\x00WAVEData\x08\x00\x00\x00cx\x85\xB4Q\xE8\xBFmfmt (\x00\x00\x00\x00\x00\x88X\x01\x00\x02\x00\x08\x00\xA3\x0E\xBD^\x14\x0A6\x93\x98\x02\xB9\x80\xEC\xF4",
        fault: HeaderFault::Tag { got: 0 },
        offset: 36,
    },
    Cut {
        format: Fmt::Q15,
        channels: 3,
        bytes: b"RIFF\xF4\xDC+\xC2WAVEfmt\x00\x02\x00\x00\x00\xC7\x19JUNK\x10\x00\x00\x00\x0A\x22\xB8pu\x96\xFBCI]B\xAB\xDB\xA8p\xEDfmt \x11\x00\x00\x00\x01\x00\x01\x00\x01\x00\x00\x00\x13\xB6.\x9E\x06\x00\x10\x00\xD7\x00data\xFF\xFF\xFF\xFF",
        fault: HeaderFault::Channels { got: 1, wanted: 3 },
        offset: 56,
    },
    Cut {
        format: Fmt::Q31,
        channels: 4,
        bytes: b"RIFF\x00\x00\x00\x00WAVEfmt \x10\x00\x00\x00\x02\x00\x04\x00D\xAC\x00\x00\x07\xD4\x88\xF0\x10\x00 \x00fmt\x00\x03\x00\x00\x00",
        fault: HeaderFault::Tag { got: 2 },
        offset: 20,
    },
    Cut {
        format: Fmt::Q15,
        channels: 4,
        bytes: b"RIFF\x5C\x00\x00\x00WAVEDATA\x03\x00\x00\x00\x90a\x98\xFFDATA\x13\x00\x00\x00\xA2\xEC&+\xCF\x1B\x11\xB3\x03\x9CCRy\x5C\xB3]\xC6M\xE4\xFFfmt \x10\x00\x00\x00\x04\x00\x00\x00\x00\x00\x06\xEC\x1AA\x08\x00\x10\x00data\x10\x00\x00\x00Gd",
        fault: HeaderFault::Tag { got: 4 },
        offset: 60,
    },
    Cut {
        format: Fmt::Q15,
        channels: 1,
        bytes: b"RIFF\x00\x00\x00\x00WAVEDATA\x02\x00\x00\x00Oafmt \x10\x00\x00\x00\x01\x00\x01\x00\xB0P\xF3' \x00\x00\x00\x00\x00\x10\x00data\x08\x00\x00\x00\xFD\xFF\x00\x00\x03\x00\x06\x00",
        fault: HeaderFault::Align { got: 0, wanted: 2 },
        offset: 42,
    },
    Cut {
        format: Fmt::Q31,
        channels: 4,
        bytes: b"RIFF\x5C\x00\x00\x00WAVEfmt (\x00\x00\x00\x01\x00\x04\x00\xF4-\x13\xFD\x92v\xAD\xA7\x10\x00\x00\x008_\x9E\xAB\xECg\x1Er\xAD9]p\x13\xDC\x80\xCB\xBF|\x06\xC0\xBD>",
        fault: HeaderFault::Bits { got: 0, wanted: 32 },
        offset: 34,
    },
    Cut {
        format: Fmt::Q7,
        channels: 1,
        bytes: b"RIFFL\x00\x00\x00WAVEdat \x02\x00\x00\x00u\xA4f",
        fault: HeaderFault::NoSamples,
        offset: 23,
    },
    Cut {
        format: Fmt::Q15,
        channels: 14,
        bytes: b"RIFF\xCC\x01\x22\x09WAVEDATA\x08\x00\x00\x00\xB460\x9D\xBBj\x91RRIFF\x00\x00\x00\x00fmt (\x00\x00\x00\x01\x00\x11\x00\x01\x00\x00\x00\x1C\x00\x00\x00\x1C\x00\x10\x00v\xF9\xD8q\xDF\x97\x17\xD2\xB1\x11",
        fault: HeaderFault::Channels {
            got: 17,
            wanted: 14,
        },
        offset: 46,
    },
    Cut {
        format: Fmt::Q15,
        channels: 2,
        bytes: b"RIFF\x0A\x1CChWAVELIST\x00\x00\x00\x00fmt (\x00\x00\x00\xBA\xD7\xA0\x84\xA8\x04\x00\x10\x006F\xE0.\xB5A\xB86\xE9\xB8#Q\xAB%(",
        fault: HeaderFault::Tag { got: 55226 },
        offset: 28,
    },
    Cut {
        format: Fmt::Q15,
        channels: 1,
        bytes: b"RIFF\xE4\xE9\x886WAVEfmt \x12\x00\x00\x00\x01\x00\x01\x00@\x1F\x00\x00\x80>\x00\x00\x02\x00\x04\x00J\xF5data\x16\x00\x00\x00\xDD!\x00\x00\x00\x00\x02\x00\x04\x00\x06\x00",
        fault: HeaderFault::Bits { got: 4, wanted: 16 },
        offset: 34,
    },
    Cut {
        format: Fmt::Q7,
        channels: 4,
        bytes: b"RIFF\x00\x00\x00\x00WAVEfmt \x11\x00\x00\x00\x01\x00\x04\x00D\xAC\x00\x00\x10\xB1\x02\x00\x04\x00\x08\x00j\x00fact\x01\x00\x00",
        fault: HeaderFault::NoSamples,
        offset: 45,
    },
    Cut {
        format: Fmt::Q7,
        channels: 1,
        bytes: b"RIFFH\x00\x00\x00WAVEfmt \x10\x00\x00\x00\x01\x00\x01\x00\xD6",
        fault: HeaderFault::NoSamples,
        offset: 25,
    },
    Cut {
        format: Fmt::Q7,
        channels: 2,
        bytes: b"RIFF\xFF\xFF\xFF\xFFWAVERIFF\x03\x00\x00\x00p\x8D\x07\xFFData\x03\x00\x00\x00\xDE\xB8D\xFFf\x01t \x10\x00\x00\x00\x01\x00\x02\x00\x01\x00\x00\x00T\xD9\xDDP\x02\x00\x08\x00JUNK\x03\x00\x00\x00\x0B\xEE\xD4\xFFdata\x14\x00\x00\x00\x8C\x00\xD1\xFF\xF0\x00\x8D\x00\xAF\x00\xE5\xFF\xD2\x00\x9A\x00",
        fault: HeaderFault::NoFormat,
        offset: 72,
    },
    Cut {
        format: Fmt::Q31,
        channels: 8,
        bytes: b"RIFF\x00\x00\x00\x00WAVELIST\x08\x00\x00\x00~h\xBC8\xD4\xCCf\x0Cfmt\x00\x02\x00\x00\x00<)fmt \x12\x00\x00\x00\x01\x00\x08\x00D\xAC\x00\x00(g\xBD4 \x00\x10\x00{[dat \x05\x00\x00\x00\xFE\xB8Y\xF0\x8F\x00data@\x01",
        fault: HeaderFault::Bits {
            got: 16,
            wanted: 32,
        },
        offset: 60,
    },
    Cut {
        format: Fmt::Q7,
        channels: 7,
        bytes: b"RIFF\x00\x00:\xAC\x7FZfmt (\x00\x00\x00\x01\x00\x07\x00ULb\xA6_\xD8R\x7F\x07\x00",
        fault: HeaderFault::NotWave,
        offset: 8,
    },
    Cut {
        format: Fmt::Q15,
        channels: 3,
        bytes: b"RIFF6\x00\x00\x00WAVELIST\x01\x00\x00\x00e\x00fmt \x10\x00\x00\x00\x01\x00\x03\x00\x00\x00\x00\x00\xA1\xBD\x14o)\x00\x10\x00fact\x00\x00\x00\x00data\x00\x00\x00\x00",
        fault: HeaderFault::Align { got: 41, wanted: 6 },
        offset: 42,
    },
    Cut {
        format: Fmt::Q7,
        channels: 14,
        bytes: b"RIFF\xDE&'\xB7WAVEJUNK\x02\x00\x00\x00\xBE`fmt \x13\x00\x00\x00\x01\x00\x18\x00\xA5\x81\xF8\x9E\x8C\x9AP\xDC\x0E\x00\x08\x00j\xB6\x12\x00datap\x00",
        fault: HeaderFault::Channels {
            got: 24,
            wanted: 14,
        },
        offset: 32,
    },
    Cut {
        format: Fmt::Q15,
        channels: 1,
        bytes: b"RIFF\xA5\xC7D\xAAWAVEfmt \x10\x00\x00\x00\x01\x00\x18\x00\xFF\xFF\xFF\xFF\xFE\xFF\xFF\xFF\x02\x00\x10\x00data\x12\x00\x00\x00\x00\x00",
        fault: HeaderFault::Channels { got: 24, wanted: 1 },
        offset: 22,
    },
    Cut {
        format: Fmt::Q7,
        channels: 2,
        bytes: b"RIFFZ\x00\x00\xEF\x9D\x13\x83fmt \x10\x00\x00\x00\x01\x00\x02\x00D\xAC\x00\x00aG\xDF\xF8\x02",
        fault: HeaderFault::NotWave,
        offset: 8,
    },
    Cut {
        format: Fmt::Q15,
        channels: 5,
        bytes: b"RIFF\x00\x00\x00\x00WAVEfmt \x10\x00\x00\x00\x01\x00\x05\x00@\x1F\x00\x00\x808\x01\x00\x0A\x00\x10\x00fmt \x12\x00\x00\x00\x01\x00\x0E\x00\x01\x00\x00\x008\x5Cm\xFF\x0E\x00\x08\x00\xCF\x8C\xFFata\x14\x00\x00\x00\x01\x00\x02\x00\xFD\xFF\xFE\x7F\x00\x00ku\xEA\x03\xFE\xFF\xFE\x7F\xFF?",
        fault: HeaderFault::NoSamples,
        offset: 90,
    },
    Cut {
        format: Fmt::Q7,
        channels: 2,
        bytes: b"RIFF\xFF\xFF\xFF\xFFWAVEfmtC\x13\x00\x00\x00\x01\x00\x02\x00D\xAC\x00\x00\xF9\x92A\xCB\x02\x00\x08\x00\x1A\xED\x95\x00fac!\x05\x00\x00\x00\x22\x04\xD3\x11\x04\x00data\x04\x00\x01\x00\x84\x8Dn\x92",
        fault: HeaderFault::NoFormat,
        offset: 54,
    },
    Cut {
        format: Fmt::Q7,
        channels: 1,
        bytes: b"RIFFI\x04W\x1Cfmt \x10\x00\x00\x00\x01\x00\x01\x00\x1Ar\x9F\x05\xF4E\xB9\x91\x01\x00\x08\x00",
        fault: HeaderFault::NotWave,
        offset: 8,
    },
    Cut {
        format: Fmt::Q7,
        channels: 1,
        bytes: b"RIFFF\x00\x00\x00WAVEfmt (\x00\x00\x00\x01\x00\x01\x00\xFF\xFF\xFF\xFF\xFF\xFF\xFF\xFF\x03\x00\x08\x005|:\x9Eo\xAF9\xA4e\xCF\x16M\xB6\x03]\x0C\xC1&G\xAE",
        fault: HeaderFault::Align { got: 3, wanted: 1 },
        offset: 32,
    },
    Cut {
        format: Fmt::Q15,
        channels: 1,
        bytes: b"RI",
        fault: HeaderFault::NotRiff,
        offset: 0,
    },
    Cut {
        format: Fmt::Q15,
        channels: 16,
        bytes: b"RIFF\xFF\xFF\xFF\xFFWAP\x8E\xBDBfmt \x10\x00\x00\x00\x01\x00\x10\x00\x01\x00\x00\x00 \x00",
        fault: HeaderFault::NotWave,
        offset: 8,
    },
    Cut {
        format: Fmt::Q7,
        channels: 1,
        bytes: b"\x1F\x89\xA0\x18fmt \x11\x00\x00\x00\x01\x00\x01\x00@\x1F\x00\x00W\xDD\xF4r",
        fault: HeaderFault::NotRiff,
        offset: 0,
    },
    Cut {
        format: Fmt::Q15,
        channels: 2,
        bytes: b"RIFF\xB9\x91\xB6\xCEWAVEfmt \x12\x00\x00\x00\x01\x00\x02\x00D\xAC\x00\x00\x10\xB1\x02\x00\x18\x00\x10\x00\x11)\x10\x00t \x01\x00\x00\x00:\x00data\x1C\x00\x00\x00",
        fault: HeaderFault::Align { got: 24, wanted: 4 },
        offset: 32,
    },
    Cut {
        format: Fmt::Q15,
        channels: 2,
        bytes: b"\xFE3[\xB9Data\x00\x00\x00\x00fmt\x00\x06\x00\x00\x00\x19ws(",
        fault: HeaderFault::NotRiff,
        offset: 0,
    },
    Cut {
        format: Fmt::Q7,
        channels: 1,
        bytes: b"RIFF\xFF\xFF\xFF\xFFWAVEdat \x03\x00\x00\x00\x08\x96 \x00data\x08\x00\x00\x00\x80\x01\xFF\x81\x7F\x80\x81@",
        fault: HeaderFault::NoFormat,
        offset: 24,
    },
    Cut {
        format: Fmt::Q31,
        channels: 1,
        bytes: b"RI\xBBf\x06\x13LIST\x03\x00\x00\x00b\x1B\xC8\x00fmt \x10\x00",
        fault: HeaderFault::NotRiff,
        offset: 0,
    },
];

#[test]
fn each_fault_is_named_at_its_place(rt: HostRuntime) {
    for cut in CUTS {
        let wanted = Wanted {
            format: cut.format,
            channels: cut.channels,
        };
        let fault = HeaderOr::Fault {
            fault: cut.fault,
            offset: cut.offset,
        };
        assert_same!(&rt; read(&rt, rt.alloc(), cut.bytes, wanted), Err(fault));
    }
}
