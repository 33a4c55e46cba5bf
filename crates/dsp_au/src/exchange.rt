//! Samples from the bytes of one form of file to those of the other: the bytes of a sample change
//! their order, and a sample of 8 bits its offset of 128.

ghost use Rattle.std.specs.Prelude.{◌≡◌, ◌*◌, ◌/◌, ◌≤◌, ◌++◌, drop, length};
ghost use Rattle.dsp_au.specs.Exchange.{exchanged, exchanged_first, exchanged_sample};

use std::simd::prelude::*;

/// The bytes of one sample in the other form of file.
#[inline(always)]
fn exchange_sample(width: usize, bytes: &mut [u8])
    requires some { 1 ≤ width }
    requires few { width ≤ 4 }
    requires long { length bytes.old ≡ width }
    ensures { bytes.new ≡ exchanged_sample bytes.old }
{
    match width {
        1 => bytes[0] = bytes[0].wrapping_add(128),
        2 => bytes.swap(0, 1),
        3 => bytes.swap(0, 2),
        _ => {
            bytes.swap(0, 3);
            bytes.swap(1, 2);
        }
    }
}

/// Takes sample after sample into the other form of file, in place.
#[inline(always)]
fn exchange_by(width: usize, bytes: &mut [u8])
    requires some { 1 ≤ width }
    requires few { width ≤ 4 }
    requires whole { length bytes.old / width * width ≡ length bytes.old }
    ensures { bytes.new ≡ exchanged width bytes.old }
{
    let count = bytes.len() / width;
    for i in 0..count {
        let from = i * width;
        exchange_sample(width, &mut bytes[from..from + width]);
    }
}

/// The bytes that `exchange_groups` takes at a time: whole samples of 2, 3 and 4 bytes.
const GROUP: usize = 48;

/// The first 15 of 16 bytes as five samples in the other order, and the last byte as it is.
#[inline(always)]
fn five_exchanged(bytes: &[u8]) -> u8x16
    requires full { length bytes.now ≡ 16 }
    ensures lanes { result ≡ exchanged_first 5 3 bytes.now ++ drop 15 bytes.now }
{
    u8x16::from_slice(bytes).swizzle([2, 1, 0, 5, 4, 3, 8, 7, 6, 11, 10, 9, 14, 13, 12, 15])
}

/// A group of samples of three bytes, for which the compiler finds no instruction by itself: fifteen
/// of them in three vectors, which all are read before one is written, and the last by itself.
#[inline(always)]
fn exchange_threes(bytes: &mut [u8])
    requires full { length bytes.old ≡ GROUP }
    ensures { bytes.new ≡ exchanged 3 bytes.old }
{
    let first = five_exchanged(&bytes[..16]);
    let second = five_exchanged(&bytes[15..31]);
    let third = five_exchanged(&bytes[30..46]);
    first.copy_to_slice(&mut bytes[..16]);
    second.copy_to_slice(&mut bytes[15..31]);
    third.copy_to_slice(&mut bytes[30..46]);
    bytes.swap(45, 47);
}

/// One group.
#[inline(always)]
fn exchange_group(width: usize, bytes: &mut [u8])
    requires some { 1 ≤ width }
    requires few { width ≤ 4 }
    requires group { GROUP / width * width ≡ GROUP }
    requires full { length bytes.old ≡ GROUP }
    ensures { bytes.new ≡ exchanged width bytes.old }
{
    match width {
        3 => exchange_threes(bytes),
        _ => exchange_by(width, bytes),
    }
}

/// The same by groups, for which the compiler has a few instructions a group.
#[inline(always)]
fn exchange_groups(width: usize, bytes: &mut [u8])
    requires some { 1 ≤ width }
    requires few { width ≤ 4 }
    requires group { GROUP / width * width ≡ GROUP }
    requires whole { length bytes.old / width * width ≡ length bytes.old }
    ensures { bytes.new ≡ exchanged width bytes.old }
{
    let count = bytes.len() / GROUP;
    for i in 0..count {
        let from = i * GROUP;
        exchange_group(width, &mut bytes[from..from + GROUP]);
    }
    exchange_by(width, &mut bytes[count * GROUP..]);
}

/// Takes samples of so many bytes each into the other form of file, in place.
pub(crate) fn exchange(width: usize, bytes: &mut [u8])
    requires some { 1 ≤ width }
    requires few { width ≤ 4 }
    requires whole { length bytes.old / width * width ≡ length bytes.old }
    ensures { bytes.new ≡ exchanged width bytes.old }
{
    match width {
        1 => exchange_by(1, bytes),
        2 => exchange_groups(2, bytes),
        3 => exchange_groups(3, bytes),
        _ => exchange_groups(4, bytes),
    }
}
