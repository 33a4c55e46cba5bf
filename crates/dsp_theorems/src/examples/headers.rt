//! Headers of WAVE files, and their faults.

ghost use Rattle.std.specs.Prelude.{◌≡◌, [], ◌∷◌, ◌++◌, take, drop, replicate, length, slice_set, codes};
ghost use Rattle.std.specs.Prelude.{Some, None};
ghost use Rattle.dsp_defs.specs.Wave.{Heads, header_fault, header_of, riff_size, wave_header};
ghost use Rattle.dsp_defs.specs.Output.{input_signal, input_header, known_frames};
ghost use Rattle.dsp_theorems.specs.Given.{wave_script};

use dsp_defs::{Coding, Container, Fmt, HeaderFault};

/// The header of a mono file of 16 bits that says 100 bytes of samples.
const MONO_HEADER: [u8; 44] = [
    b'R', b'I', b'F', b'F', 136, 0, 0, 0, b'W', b'A', b'V', b'E', b'f', b'm', b't', b' ', 16, 0, 0,
    0, 1, 0, 1, 0, 0x40, 0x1F, 0, 0, 0x80, 0x3E, 0, 0, 2, 0, 16, 0, b'd', b'a', b't', b'a', 100, 0,
    0, 0,
];

/// A stereo file with a `LIST` chunk of odd size and its pad byte.
const STEREO_FILE: [u8; 66] = [
    b'R', b'I', b'F', b'F', 58, 0, 0, 0, b'W', b'A', b'V', b'E', b'f', b'm', b't', b' ', 16, 0, 0,
    0, 1, 0, 2, 0, 0x44, 0xAC, 0, 0, 0x10, 0xB1, 2, 0, 4, 0, 16, 0, b'L', b'I', b'S', b'T', 5, 0,
    0, 0, 1, 2, 3, 4, 5, 0, b'd', b'a', b't', b'a', 8, 0, 0, 0, 0xE8, 0x03, 0x18, 0xFC, 0, 0, 0, 0,
];

/// A mono file of 16 bits with an extension and one sample.
const EXTENSIBLE_FILE: [u8; 70] = [
    b'R', b'I', b'F', b'F', 62, 0, 0, 0, b'W', b'A', b'V', b'E', b'f', b'm', b't', b' ', 40, 0, 0,
    0, 0xFE, 0xFF, 1, 0, 0x40, 0x1F, 0, 0, 0x80, 0x3E, 0, 0, 2, 0, 16, 0, 22, 0, 16, 0, 0, 0, 0, 0,
    1, 0, 0, 0, 0, 0, 0x10, 0, 0x80, 0, 0, 0xAA, 0, 0x38, 0x9B, 0x71, b'd', b'a', b't', b'a', 2, 0,
    0, 0, 0xE8, 0x03,
];

pub fn good_headers()
    ensures stereo { Heads STEREO_FILE (record { format = Fmt.Q15; channels = 2 })
        (record { rate = 44100; start = 58; size = Some 8; coding = Coding.Wave15 }) }
    ensures mono { Heads MONO_HEADER (record { format = Fmt.Q15; channels = 1 })
        (record { rate = 8000; start = 44; size = Some 100; coding = Coding.Wave15 }) }
    ensures no_fault { header_fault MONO_HEADER (record { format = Fmt.Q15; channels = 1 }) ≡ None }
    ensures to_the_end { Heads (take 40 MONO_HEADER ++ replicate 4 255)
        (record { format = Fmt.Q15; channels = 1 }) (record
        { rate = 8000; start = 44; size = None; coding = Coding.Wave15 }) }
    ensures written { wave_header Container.Wave Fmt.Q15 1 8000 (Some 50) ≡ MONO_HEADER }
{}

pub fn longer_formats_and_later_ones()
    ensures odd_format { Heads (slice_set (take 36 MONO_HEADER) 16 17 ++ 7 ∷ 0 ∷ drop 36 MONO_HEADER)
        (record { format = Fmt.Q15; channels = 1 }) (record
        { rate = 8000; start = 46; size = Some 100; coding = Coding.Wave15 }) }
    ensures second_format { Heads (take 36 MONO_HEADER ++ slice_set (take 24 (drop 12 MONO_HEADER)) 8 3 ++
        drop 36 MONO_HEADER) (record { format = Fmt.Q15; channels = 1 })
        (record { rate = 8000; start = 68; size = Some 100; coding = Coding.Wave15 }) }
{}

pub fn cut_files()
    ensures empty { header_fault [] (record { format = Fmt.Q15; channels = 2 }) ≡ Some
        (HeaderFault.NotRiff, 0) }
    ensures three_bytes { header_fault (take 3 STEREO_FILE) (record { format = Fmt.Q15; channels = 2 }) ≡ Some
        (HeaderFault.NotRiff, 0) }
    ensures eleven_bytes { header_fault (take 11 STEREO_FILE) (record { format = Fmt.Q15; channels = 2 }) ≡
        Some (HeaderFault.NotWave, 8) }
    ensures twelve_bytes { header_fault (take 12 STEREO_FILE) (record { format = Fmt.Q15; channels = 2 }) ≡
        Some (HeaderFault.NoSamples, 12) }
    ensures in_the_format { header_fault (take 35 STEREO_FILE) (record { format = Fmt.Q15; channels = 1 }) ≡
        Some (HeaderFault.NoSamples, 35) }
    ensures in_the_last_size { header_fault (take 57 STEREO_FILE) (record { format = Fmt.Q15; channels = 2 })
        ≡ Some (HeaderFault.NoSamples, 57) }
    ensures past_the_end { header_fault (take 36 MONO_HEADER ++ codes "LIST" ++ replicate 4 255 ++ replicate 6
        0) (record { format = Fmt.Q15; channels = 1 }) ≡ Some (HeaderFault.NoSamples, 50) }
{}

pub fn faulty_fields()
    ensures samples_first { header_fault (take 12 MONO_HEADER ++ drop 36 MONO_HEADER)
        (record { format = Fmt.Q15; channels = 1 }) ≡ Some (HeaderFault.NoFormat, 12) }
    ensures size { header_fault (slice_set MONO_HEADER 16 15) (record { format = Fmt.Q15; channels = 1 }) ≡
        Some (HeaderFault.FormatSize 15, 16) }
    ensures tag { header_fault (slice_set MONO_HEADER 20 3) (record { format = Fmt.Q15; channels = 1 }) ≡ Some
        (HeaderFault.Tag 3, 20) }
    ensures channels { header_fault MONO_HEADER (record { format = Fmt.Q15; channels = 2 }) ≡ Some
        (HeaderFault.Channels 1 2, 22) }
    ensures bits { header_fault (slice_set MONO_HEADER 34 24) (record { format = Fmt.Q15; channels = 1 }) ≡
        Some (HeaderFault.Bits 24 16, 34) }
    ensures align { header_fault (slice_set MONO_HEADER 32 4) (record { format = Fmt.Q15; channels = 1 }) ≡
        Some (HeaderFault.Align 4 2, 32) }
    ensures tag_before_channels { header_fault (slice_set MONO_HEADER 20 3)
        (record { format = Fmt.Q15; channels = 2 }) ≡ Some (HeaderFault.Tag 3, 20) }
    ensures bits_before_align { header_fault (slice_set (slice_set MONO_HEADER 32 4) 34 24)
        (record { format = Fmt.Q15; channels = 1 }) ≡ Some (HeaderFault.Bits 24 16, 34) }
{}

// Neither the valid bits nor the mask of channels is tested.
pub fn extensible_headers()
    ensures good { Heads EXTENSIBLE_FILE (record { format = Fmt.Q15; channels = 1 })
        (record { rate = 8000; start = 68; size = Some 2; coding = Coding.Wave15 }) }
    ensures written { wave_header Container.Wavex Fmt.Q15 1 8000 (Some 1) ≡ take 68 EXTENSIBLE_FILE }
    ensures other_fields { Heads (slice_set (slice_set EXTENSIBLE_FILE 38 12) 40 4)
        (record { format = Fmt.Q15; channels = 1 }) (record
        { rate = 8000; start = 68; size = Some 2; coding = Coding.Wave15 }) }
    ensures subformat { header_fault (slice_set EXTENSIBLE_FILE 44 3)
        (record { format = Fmt.Q15; channels = 1 }) ≡ Some (HeaderFault.Tag 3, 44) }
    ensures its_end { header_fault (slice_set EXTENSIBLE_FILE 59 0)
        (record { format = Fmt.Q15; channels = 1 }) ≡ Some (HeaderFault.Tag 1, 44) }
    ensures size { header_fault (slice_set EXTENSIBLE_FILE 16 18) (record { format = Fmt.Q15; channels = 1 })
        ≡ Some (HeaderFault.FormatSize 18, 16) }
    ensures cut { header_fault (take 59 EXTENSIBLE_FILE) (record { format = Fmt.Q15; channels = 1 }) ≡ Some
        (HeaderFault.NoSamples, 59) }
    ensures subformat_before_channels { header_fault (slice_set EXTENSIBLE_FILE 44 3)
        (record { format = Fmt.Q15; channels = 2 }) ≡ Some (HeaderFault.Tag 3, 44) }
{}

// Q31 takes 24 bits and 32.
pub fn bits_of_q31()
    ensures less { Heads (slice_set (slice_set MONO_HEADER 32 3) 34 24)
        (record { format = Fmt.Q31; channels = 1 }) (record
        { rate = 8000; start = 44; size = Some 100; coding = Coding.Wave24 }) }
    ensures all { Heads (slice_set (slice_set MONO_HEADER 32 4) 34 32)
        (record { format = Fmt.Q31; channels = 1 }) (record
        { rate = 8000; start = 44; size = Some 100; coding = Coding.Wave31 }) }
    ensures others { header_fault MONO_HEADER (record { format = Fmt.Q31; channels = 1 }) ≡ Some
        (HeaderFault.Bits 16 32, 34) }
    ensures align { header_fault (slice_set (slice_set MONO_HEADER 32 4) 34 24)
        (record { format = Fmt.Q31; channels = 1 }) ≡ Some (HeaderFault.Align 4 3, 32) }
{}

// The file says 50 frames and has 30; the output is to have 50.
pub fn declared_and_given_frames()
    ensures there { length (input_signal (wave_script Fmt.Q15 1 [] Container.Wave)
        (MONO_HEADER ++ replicate 60 0)) ≡ 30 }
    ensures declared { known_frames (wave_script Fmt.Q15 1 [] Container.Wave)
        (input_header (wave_script Fmt.Q15 1 [] Container.Wave) MONO_HEADER) ≡ Some 50 }
    ensures too_long { riff_size Container.Wave Fmt.Q15 1 (Some 2147483647) ≡ 4294967330 }
{}
