//! Bytes in and bytes out.

ghost use Rattle.std.specs.Prelude.{◌≡◌, [], ◌∷◌, pos, take, Some, None};
ghost use Rattle.dsp_defs.specs.Numbers.{neg};
ghost use Rattle.dsp_defs.specs.Bytes.{coded, samples};
ghost use Rattle.dsp_defs.specs.Generator.{generated_bytes};
ghost use Rattle.dsp_defs.specs.Output.{output, part, input_signal};
ghost use Rattle.dsp_theorems.specs.Given.{raw_script, wave_script};

use dsp_defs::{Block, Coding, Container, Fmt, InputKind};

const SIX_BYTES: [u8; 6] = [0xE8, 0x03, 0x18, 0xFC, 0xFF, 0xFF];

const HALVED: [u8; 6] = [0xF4, 0x01, 0x0C, 0xFE, 0xFF, 0xFF];

const SIX_AND_A_HALF_FRAMES: [u8; 13] = [
    0xE8, 3, 0xE8, 3, 0xE8, 3, 0xE8, 3, 0xE8, 3, 0xE8, 3, 0xE8,
];

const FOUR_HALVED_FRAMES: [u8; 8] = [0xF4, 1, 0xF4, 1, 0xF4, 1, 0xF4, 1];

const HALF: [i16; 1] = [16384];

const TWO_SECTIONS: [i16; 12] = [16384, 0, 0, 0, 16384, 0, 16384, 0, 0, 0, 0, 0];

/// A stereo file with a `LIST` chunk of odd size and its pad byte.
const STEREO_FILE: [u8; 66] = [
    b'R', b'I', b'F', b'F', 58, 0, 0, 0, b'W', b'A', b'V', b'E', b'f', b'm', b't', b' ', 16, 0, 0,
    0, 1, 0, 2, 0, 0x44, 0xAC, 0, 0, 0x10, 0xB1, 2, 0, 4, 0, 16, 0, b'L', b'I', b'S', b'T', 5, 0,
    0, 0, 1, 2, 3, 4, 5, 0, b'd', b'a', b't', b'a', 8, 0, 0, 0, 0xE8, 0x03, 0x18, 0xFC, 0, 0, 0, 0,
];

const STEREO_OUTPUT: [u8; 52] = [
    b'R', b'I', b'F', b'F', 44, 0, 0, 0, b'W', b'A', b'V', b'E', b'f', b'm', b't', b' ', 16, 0, 0,
    0, 1, 0, 2, 0, 0x44, 0xAC, 0, 0, 0x10, 0xB1, 2, 0, 4, 0, 16, 0, b'd', b'a', b't', b'a', 8, 0,
    0, 0, 0xFA, 0x00, 0x06, 0xFF, 0x7D, 0x00, 0x83, 0xFF,
];

const EMPTY_FILE: [u8; 44] = [
    b'R', b'I', b'F', b'F', 36, 0, 0, 0, b'W', b'A', b'V', b'E', b'f', b'm', b't', b' ', 16, 0, 0,
    0, 1, 0, 2, 0, 0x44, 0xAC, 0, 0, 0x10, 0xB1, 2, 0, 4, 0, 16, 0, b'd', b'a', b't', b'a', 0, 0,
    0, 0,
];

const ODD_FILE: [u8; 48] = [
    b'R', b'I', b'F', b'F', 40, 0, 0, 0, b'W', b'A', b'V', b'E', b'f', b'm', b't', b' ', 16, 0, 0,
    0, 1, 0, 1, 0, 0x40, 0x1F, 0, 0, 0x40, 0x1F, 0, 0, 1, 0, 8, 0, b'd', b'a', b't', b'a', 3, 0, 0,
    0, 0x80, 0xFF, 0x00, 0,
];

const ODD_OUTPUT: [u8; 48] = [
    b'R', b'I', b'F', b'F', 40, 0, 0, 0, b'W', b'A', b'V', b'E', b'f', b'm', b't', b' ', 16, 0, 0,
    0, 1, 0, 1, 0, 0x40, 0x1F, 0, 0, 0x40, 0x1F, 0, 0, 1, 0, 8, 0, b'd', b'a', b't', b'a', 3, 0, 0,
    0, 0x80, 0x01, 0xFF, 0,
];

const THREE_BYTES: [u8; 3] = [1, 0, 0x80];

const FILE_OF_24_BITS: [u8; 48] = [
    b'R', b'I', b'F', b'F', 40, 0, 0, 0, b'W', b'A', b'V', b'E', b'f', b'm', b't', b' ', 16, 0, 0,
    0, 1, 0, 1, 0, 0x40, 0x1F, 0, 0, 0xC0, 0x5D, 0, 0, 3, 0, 24, 0, b'd', b'a', b't', b'a', 3, 0,
    0, 0, 1, 0, 0x80, 0,
];

const OUTPUT_OF_32_BITS: [u8; 48] = [
    b'R', b'I', b'F', b'F', 40, 0, 0, 0, b'W', b'A', b'V', b'E', b'f', b'm', b't', b' ', 16, 0, 0,
    0, 1, 0, 1, 0, 0x40, 0x1F, 0, 0, 0x00, 0x7D, 0, 0, 4, 0, 32, 0, b'd', b'a', b't', b'a', 4, 0,
    0, 0, 0, 0xFF, 0xFF, 0x7F,
];

const EXTENSIBLE_OUTPUT: [u8; 72] = [
    b'R', b'I', b'F', b'F', 64, 0, 0, 0, b'W', b'A', b'V', b'E', b'f', b'm', b't', b' ', 40, 0, 0,
    0, 0xFE, 0xFF, 1, 0, 0x40, 0x1F, 0, 0, 0x00, 0x7D, 0, 0, 4, 0, 32, 0, 22, 0, 32, 0, 0, 0, 0, 0,
    1, 0, 0, 0, 0, 0, 0x10, 0, 0x80, 0, 0, 0xAA, 0, 0x38, 0x9B, 0x71, b'd', b'a', b't', b'a', 4, 0,
    0, 0, 0, 0xFF, 0xFF, 0x7F,
];

const UNKNOWN_LENGTH: [u8; 45] = [
    b'R', b'I', b'F', b'F', 255, 255, 255, 255, b'W', b'A', b'V', b'E', b'f', b'm', b't', b' ', 16,
    0, 0, 0, 1, 0, 1, 0, 0x40, 0x1F, 0, 0, 0x40, 0x1F, 0, 0, 1, 0, 8, 0, b'd', b'a', b't', b'a',
    255, 255, 255, 255, 0x80,
];

pub fn raw_samples()
    ensures samples { samples Coding.Raw15 1 SIX_BYTES ≡ (pos 1000 ∷ []) ∷ (neg 1000 ∷ []) ∷ (neg 1 ∷ []) ∷ [] }
    ensures coded { coded Coding.Raw15 ((pos 500 ∷ []) ∷ (neg 500 ∷ []) ∷ (neg 1 ∷ []) ∷ []) ≡ HALVED }
    ensures wave_24 { samples Coding.Wave24 1 THREE_BYTES ≡ (neg 2147483392 ∷ []) ∷ [] }
    ensures coded_24 { coded Coding.Wave24 ((neg 2147483392 ∷ []) ∷ []) ≡ THREE_BYTES }
    ensures wave_q7 { coded Coding.Wave7 ((neg 128 ∷ []) ∷ (pos 127 ∷ []) ∷ []) ≡ 0 ∷ 255 ∷ [] }
{}

pub fn fir_of_a_raw_file()
    ensures { output (raw_script Fmt.Q15 1 (Block.Fir HALF ∷ [])) SIX_BYTES ≡ HALVED }
{}

// Four of six frames stand in two whole blocks of two when five were taken.
pub fn part_of_a_raw_file()
    ensures { part (raw_script Fmt.Q15 1 (Block.Fir HALF ∷ [])) 2 (take 11 SIX_AND_A_HALF_FRAMES) ≡
        FOUR_HALVED_FRAMES }
{}

pub fn conversions_change_the_width()
    ensures wider { output (raw_script Fmt.Q15 1 (Block.To Fmt.Q31 ∷ [])) (0 ∷ 1 ∷ []) ≡ 0 ∷ 0 ∷ 0 ∷ 1 ∷ [] }
    ensures narrower { output (raw_script Fmt.Q15 1 (Block.To Fmt.Q7 ∷ [])) (255 ∷ 255 ∷ []) ≡ 255 ∷ [] }
{}

pub fn biquad_of_a_stereo_file()
    ensures whole { output (wave_script Fmt.Q15 2 (Block.Biquad 0 TWO_SECTIONS ∷ []) Container.Wave)
        STEREO_FILE ≡ STEREO_OUTPUT }
    ensures part { part (wave_script Fmt.Q15 2 (Block.Biquad 0 TWO_SECTIONS ∷ []) Container.Wave) 1
        (take 64 STEREO_FILE) ≡ take 48 STEREO_OUTPUT }
    ensures raw { input_signal (wave_script Fmt.Q15 2 [] Container.Raw) (take 63 STEREO_FILE) ≡
        (pos 1000 ∷ neg 1000 ∷ []) ∷ [] }
{}

pub fn biquad_of_an_empty_file()
    ensures { output (wave_script Fmt.Q15 2 (Block.Biquad 0 TWO_SECTIONS ∷ []) Container.Wave) EMPTY_FILE ≡
        EMPTY_FILE }
{}

// A pad byte follows the odd samples.
pub fn negate_of_odd_bytes()
    ensures { output (wave_script Fmt.Q7 1 (Block.Negate ∷ []) Container.Wave) ODD_FILE ≡ ODD_OUTPUT }
{}

// A file of 24 bits is read, and one of 32 bits written, without an extension and with one.
pub fn negate_of_24_bits()
    ensures plain { output (wave_script Fmt.Q31 1 (Block.Negate ∷ []) Container.Wave) FILE_OF_24_BITS ≡
        OUTPUT_OF_32_BITS }
    ensures extensible { output (wave_script Fmt.Q31 1 (Block.Negate ∷ []) Container.Wavex) FILE_OF_24_BITS ≡
        EXTENSIBLE_OUTPUT }
{}

// Raw input tells no length, so none is written, and no pad byte.
pub fn wave_file_of_a_raw_one()
    ensures { output (record {
      version = 1;
      input = record { kind = InputKind.Raw 8000; format = Fmt.Q7; channels = 1 };
      block = None;
      blocks = [];
      output = Container.Wave;
    }) (0 ∷ []) ≡ UNKNOWN_LENGTH }
{}

const GENERATED: [u8; 6] = [0x6E, 0x3C, 0x50, 0x47, 0xCC, 0xD1];

const GENERATED_FILE: [u8; 48] = [
    b'R', b'I', b'F', b'F', 40, 0, 0, 0, b'W', b'A', b'V', b'E', b'f', b'm', b't', b' ', 16, 0, 0,
    0, 1, 0, 1, 0, 0x80, 0xBB, 0, 0, 0x80, 0xBB, 0, 0, 1, 0, 8, 0, b'd', b'a', b't', b'a', 3, 0, 0,
    0, 0xBC, 0xC7, 0x51, 0,
];

pub fn first_generated_samples()
    ensures raw { generated_bytes (record { kind = InputKind.Raw 8000; format = Fmt.Q15; channels = 1 }) 0 3 ≡
        GENERATED }
    ensures wave { generated_bytes (record { kind = InputKind.Wave; format = Fmt.Q7; channels = 1 }) 0 3 ≡
        GENERATED_FILE }
{}
