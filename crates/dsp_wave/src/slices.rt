ghost use Rattle.std.specs.Prelude.{◌≡◌, ◌≤◌, ◌+◌, ◌*◌, length, take, drop, flat_map, All};
ghost use Rattle.std.specs.Simd.Lanes.{chunk, put_chunk};
ghost use Rattle.dsp_defs.specs.Signal.{values};
ghost use Rattle.dsp_defs.specs.Bytes.{IsValue, bytes_of, sample_of, width};
ghost use Rattle.dsp_wave.specs.Packed.{IsLastByte};

use crate::coding::{bytes_of, sample_of, width};
use dsp_defs::Coding;
use std::simd::prelude::*;

/// How many samples of 8 bits are packed at a time.
const PACKED: usize = 32;

#[inline(always)]
fn decode_by(coding: Coding, bytes: &[u8], samples: &mut [i32])
    requires { length bytes.now ≡ length samples.old * width coding }
    ensures values { samples.new ≡ values (length samples.old) (λ i.
        sample_of coding (take (width coding) (drop (i * width coding) bytes.now))) }
    ensures fits { All (IsValue coding) samples.new }
{
    let width = width(coding);
    for (i, sample) in samples.iter_mut().enumerate() {
        let from = i * width;
        *sample = sample_of(coding, &bytes[from..from + width]);
    }
}

/// The sample as it is. In Q15 it is clamped to the range that it is in: the compiler then packs eight
/// samples at a time.
#[inline(always)]
fn in_range(coding: Coding, value: i32) -> i32
    requires { IsValue coding value }
    ensures { result ≡ value }
{
    match coding {
        Coding::Raw15 | Coding::Wave15 => value.clamp(-0x8000, 0x7fff),
        _ => value,
    }
}

#[inline(always)]
fn encode_by(coding: Coding, samples: &[i32], bytes: &mut [u8])
    requires room { length bytes.old ≡ length samples.now * width coding }
    requires fits { All (IsValue coding) samples.now }
    ensures { bytes.new ≡ flat_map (bytes_of coding) samples.now }
{
    let width = width(coding);
    for (i, sample) in samples.iter().enumerate() {
        let from = i * width;
        let value = in_range(coding, *sample);
        bytes_of(coding, value, &mut bytes[from..from + width]);
    }
}

/// Writes the bytes of the group of samples from `at` on. The compiler packs no loop over single ones as well.
#[inline(always)]
fn encode_group(coding: Coding, above: i32, samples: &[i32], bytes: &mut [u8], at: usize)
    requires last { IsLastByte coding above }
    requires inside { at + PACKED ≤ length samples.now }
    requires room { at + PACKED ≤ length bytes.old }
    requires fits { All (IsValue coding) samples.now }
    ensures { bytes.new ≡ put_chunk at bytes.old
        (flat_map (bytes_of coding) (chunk at PACKED samples.now)) }
{
    let words = Simd::<i32, PACKED>::from_slice(&samples[at..]) + Simd::splat(above);
    (words & Simd::splat(0xff))
        .cast::<u8>()
        .copy_to_slice(&mut bytes[at..]);
}

/// Writes the bytes of the whole groups of samples, and answers how many samples these are.
#[inline(always)]
fn encode_groups(coding: Coding, above: i32, samples: &[i32], bytes: &mut [u8]) -> usize
    requires last { IsLastByte coding above }
    requires room { length bytes.old ≡ length samples.now }
    requires fits { All (IsValue coding) samples.now }
    ensures within { result ≤ length samples.now }
    ensures written { take result bytes.new ≡ flat_map (bytes_of coding) (take result samples.now) }
{
    let groups = samples.len() / PACKED;
    for group in 0..groups {
        encode_group(coding, above, samples, bytes, group * PACKED);
    }
    groups * PACKED
}

/// Writes the bytes of samples of 8 bits: each is the last byte of its sample and `above`.
#[inline(always)]
fn encode_packed(coding: Coding, above: i32, samples: &[i32], bytes: &mut [u8])
    requires last { IsLastByte coding above }
    requires width { width coding ≡ 1 }
    requires room { length bytes.old ≡ length samples.now }
    requires fits { All (IsValue coding) samples.now }
    ensures { bytes.new ≡ flat_map (bytes_of coding) samples.now }
{
    let done = encode_groups(coding, above, samples, bytes);
    encode_by(coding, &samples[done..], &mut bytes[done..]);
}

/// Reads as many samples as there is room for from their bytes, one after another: there are to be
/// `width(coding)` bytes for each sample of `samples`.
pub fn decode(coding: Coding, bytes: &[u8], samples: &mut [i32])
    requires { length bytes.now ≡ length samples.old * width coding }
    ensures values { samples.new ≡ values (length samples.old) (λ i.
        sample_of coding (take (width coding) (drop (i * width coding) bytes.now))) }
    ensures fits { All (IsValue coding) samples.new }
{
    match coding {
        Coding::Raw7 => decode_by(Coding::Raw7, bytes, samples),
        Coding::Raw15 => decode_by(Coding::Raw15, bytes, samples),
        Coding::Raw31 => decode_by(Coding::Raw31, bytes, samples),
        Coding::Wave7 => decode_by(Coding::Wave7, bytes, samples),
        Coding::Wave15 => decode_by(Coding::Wave15, bytes, samples),
        Coding::Wave24 => decode_by(Coding::Wave24, bytes, samples),
        Coding::Wave31 => decode_by(Coding::Wave31, bytes, samples),
    }
}

/// Writes the bytes of samples, one sample after another: there is to be room for exactly
/// `width(coding)` bytes a sample. Each sample is to be one that the coding has bytes for.
pub fn encode(coding: Coding, samples: &[i32], bytes: &mut [u8])
    requires room { length bytes.old ≡ length samples.now * width coding }
    requires fits { All (IsValue coding) samples.now }
    ensures { bytes.new ≡ flat_map (bytes_of coding) samples.now }
{
    match coding {
        Coding::Raw7 => encode_packed(Coding::Raw7, 0, samples, bytes),
        Coding::Raw15 => encode_by(Coding::Raw15, samples, bytes),
        Coding::Raw31 => encode_by(Coding::Raw31, samples, bytes),
        Coding::Wave7 => encode_packed(Coding::Wave7, 128, samples, bytes),
        Coding::Wave15 => encode_by(Coding::Wave15, samples, bytes),
        Coding::Wave24 => encode_by(Coding::Wave24, samples, bytes),
        Coding::Wave31 => encode_by(Coding::Wave31, samples, bytes),
    }
}
