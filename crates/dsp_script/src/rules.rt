//! The ranges of a block's numbers, and the rules of its lists.

ghost use Rattle.std.specs.Prelude.{◌≡◌, pos, negsuc};
ghost use Rattle.dsp_defs.specs.Numbers.{neg};
ghost use Rattle.dsp_defs.specs.Elementwise.{greatest_scale, greatest_shift, least_matrix_shift};
ghost use Rattle.dsp_defs.specs.Elementwise.{greatest_matrix_shift};
ghost use Rattle.dsp_defs.specs.Parameters.{least, greatest, greatest_biquad_shift, greatest_lms_shift};
ghost use Rattle.dsp_defs.specs.Parameters.{is_complete, factor_of, coefficients, taps, sparse_taps, delays};
ghost use Rattle.dsp_defs.specs.Parameters.{section_numbers, reflections, exactly, routes};
ghost use Rattle.dsp_defs.specs.Tables.{table_rule};

use dsp_defs::{
    Count, Flow, Fmt, ListRule, MAX_CHANNELS, MAX_DELAY, MAX_LATTICE_SECTIONS, MAX_SECTIONS,
    MAX_TAPS,
};

// ---- ranges

/// The least number of a format's word.
pub fn least(format: Fmt) -> i32
    ensures { result ≡ least format }
{
    match format {
        Fmt::Q7 => -128,
        Fmt::Q15 => -32768,
        Fmt::Q31 => -2147483648,
    }
}

/// The greatest number of a format's word.
pub fn greatest(format: Fmt) -> i32
    ensures { result ≡ greatest format }
{
    match format {
        Fmt::Q7 => 127,
        Fmt::Q15 => 32767,
        Fmt::Q31 => 2147483647,
    }
}

/// The least shift of `scale`.
pub fn least_scale(format: Fmt) -> i32
    ensures { result ≡ negsuc (greatest_scale format) }
{
    match format {
        Fmt::Q7 => -8,
        Fmt::Q15 => -16,
        Fmt::Q31 => -31,
    }
}

/// The greatest shift of `scale`.
pub fn greatest_scale(format: Fmt) -> i32
    ensures { result ≡ pos (greatest_scale format) }
{
    match format {
        Fmt::Q7 => 7,
        Fmt::Q15 => 15,
        Fmt::Q31 => 30,
    }
}

/// The least shift of `shift`.
pub fn least_shift(format: Fmt) -> i32
    ensures { result ≡ neg (greatest_shift format) }
{
    match format {
        Fmt::Q7 => -7,
        Fmt::Q15 => -15,
        Fmt::Q31 => -31,
    }
}

/// The greatest shift of `shift`.
pub fn greatest_shift(format: Fmt) -> i32
    ensures { result ≡ pos (greatest_shift format) }
{
    match format {
        Fmt::Q7 => 7,
        Fmt::Q15 => 15,
        Fmt::Q31 => 31,
    }
}

/// The least shift of `mat_scale`.
pub fn least_matrix_shift(format: Fmt) -> i32
    ensures { result ≡ least_matrix_shift format }
{
    match format {
        Fmt::Q31 => 0,
        _ => -16,
    }
}

/// The greatest shift of `mat_scale`.
pub fn greatest_matrix_shift(format: Fmt) -> i32
    ensures { result ≡ greatest_matrix_shift format }
{
    match format {
        Fmt::Q31 => 30,
        _ => 15,
    }
}

/// The greatest post shift of `biquad`.
pub fn greatest_biquad_shift(format: Fmt) -> u8
    ensures { result ≡ greatest_biquad_shift format }
{
    match format {
        Fmt::Q31 => 30,
        _ => 13,
    }
}

/// The greatest post shift of `lms`.
pub fn greatest_lms_shift(format: Fmt) -> u8
    ensures { result ≡ greatest_lms_shift format }
{
    match format {
        Fmt::Q31 => 30,
        _ => 14,
    }
}

// ---- lists

/// A list may end at this count.
pub fn is_complete(rule: Count, count: u64) -> bool
    ensures { result ≡ is_complete rule count }
{
    match rule {
        Count::MultipleOf(factor) => count >= 1 && count.checked_rem(factor) == Some(0),
        Count::AtLeast(wanted) => count >= wanted,
    }
}

/// The number that a fault of the count names.
pub fn factor_of(rule: Count) -> u64
    ensures { result ≡ factor_of rule }
{
    match rule {
        Count::MultipleOf(factor) => factor,
        Count::AtLeast(wanted) => wanted,
    }
}

/// Any count of numbers of 32 bits.
pub fn table() -> ListRule
    ensures { result ≡ table_rule }
{
    ListRule {
        low: least(Fmt::Q31),
        high: greatest(Fmt::Q31),
        limit: MAX_TAPS as u64,
        count: Count::AtLeast(0),
    }
}

/// Numbers of the format's word.
fn coefficients(flow: Flow, limit: u64, count: Count) -> ListRule
    ensures { result ≡ coefficients flow limit count }
{
    ListRule {
        low: least(flow.format),
        high: greatest(flow.format),
        limit,
        count,
    }
}

/// Some taps, as many as a multiple.
pub fn taps(flow: Flow, factor: u64) -> ListRule
    ensures { result ≡ taps flow factor }
{
    coefficients(flow, MAX_TAPS as u64, Count::MultipleOf(factor))
}

/// Two taps or more.
pub fn sparse_taps(flow: Flow) -> ListRule
    ensures { result ≡ sparse_taps flow }
{
    coefficients(flow, MAX_TAPS as u64, Count::AtLeast(2))
}

/// One delay for each tap.
pub fn delays(count: u64) -> ListRule
    ensures { result ≡ delays count }
{
    ListRule {
        low: 0,
        high: MAX_DELAY as i32,
        limit: count,
        count: Count::AtLeast(count),
    }
}

/// The coefficients of some sections of a biquad, up to 64.
pub fn sections(flow: Flow) -> ListRule
    ensures { result ≡ section_numbers flow }
{
    let length = match flow.format {
        Fmt::Q31 => 5,
        _ => 6,
    };
    let limit = MAX_SECTIONS as u64 * length;
    coefficients(flow, limit, Count::MultipleOf(length))
}

/// Some reflection coefficients of a lattice, up to 255.
pub fn reflections(flow: Flow) -> ListRule
    ensures { result ≡ reflections flow }
{
    coefficients(flow, MAX_LATTICE_SECTIONS as u64, Count::MultipleOf(1))
}

/// So many numbers.
pub fn exactly(flow: Flow, count: u64) -> ListRule
    ensures { result ≡ exactly flow count }
{
    coefficients(flow, count, Count::AtLeast(count))
}

/// Some of the channels that flow, up to 16.
pub fn routes(flow: Flow) -> ListRule
    ensures { result ≡ routes flow }
{
    ListRule {
        low: 0,
        high: i32::from(flow.channels.saturating_sub(1)),
        limit: u64::from(MAX_CHANNELS),
        count: Count::MultipleOf(1),
    }
}
