//! Four sections of a cascade side by side, in lanes. Each takes what the one before it gave a turn ago.
ghost use Rattle.std.specs.Prelude.{◌≡◌, ◌≤◌, ◌+ℤ◌, ◌*ℤ◌, ◌∷◌, [], ℕ, FitsSigned, length, map};
ghost use Rattle.std.specs.Int.{w64};
ghost use Rattle.std.specs.Simd.Lanes.{Each1};
ghost use Rattle.dsp_defs.specs.Biquad.{section_close};
ghost use Rattle.dsp_defs.specs.Counts.{Rises};
ghost use Rattle.dsp_defs.specs.Numbers.{floor_shift, saturate, wrap, w32};
ghost use Rattle.dsp_defs.specs.Parameters.{greatest_biquad_shift};
ghost use Rattle.dsp_defs.specs.Signal.{sample, values};
ghost use Rattle.dsp_defs.specs.declared.format.Fmt.TheVariants.{Q15};
ghost use Rattle.dsp_sections.specs.SectionWaves.{AreSections, AreWords, IsSum, LanesTurn, low};

use crate::WaveLanes;
use dsp_defs::Steps;
use dsp_sat::{Sample, low_word};
use std::simd::prelude::*;
use std::sync::ledger::Ledger;

/// The products of the low words.
#[inline(always)]
fn low_products(a: Simd<i64, 4>, b: Simd<i64, 4>) -> Simd<i64, 4>
    requires four_a { length a ≡ 4 }
    requires four_b { length b ≡ 4 }
    requires fit_a { Each1 (FitsSigned w64) a }
    requires fit_b { Each1 (FitsSigned w64) b }
    ensures value { result ≡ values 4 (λ i. low a i *ℤ low b i) }
    ensures fit { Each1 (FitsSigned w64) result }
{
    let word = Simd::splat(32);
    ((a << word) >> word) * ((b << word) >> word)
}

/// The sums of five lanes, wrapped.
#[inline(always)]
fn sums_of_five(
    first: Simd<i64, 4>,
    second: Simd<i64, 4>,
    third: Simd<i64, 4>,
    fourth: Simd<i64, 4>,
    fifth: Simd<i64, 4>,
) -> Simd<i64, 4>
    requires four_1 { length first ≡ 4 }
    requires four_2 { length second ≡ 4 }
    requires four_3 { length third ≡ 4 }
    requires four_4 { length fourth ≡ 4 }
    requires four_5 { length fifth ≡ 4 }
    requires fit_1 { Each1 (FitsSigned w64) first }
    requires fit_2 { Each1 (FitsSigned w64) second }
    requires fit_3 { Each1 (FitsSigned w64) third }
    requires fit_4 { Each1 (FitsSigned w64) fourth }
    requires fit_5 { Each1 (FitsSigned w64) fifth }
    ensures value { result ≡ values 4 (λ i. wrap w64 (sample first i +ℤ sample second i
        +ℤ sample third i +ℤ (sample fourth i +ℤ sample fifth i))) }
    ensures fit { Each1 (FitsSigned w64) result }
{
    second + third + fifth + (first + fourth)
}

/// The lanes moved up by one, with a number in the first.
#[inline(always)]
fn moved_up(first: i64, lanes: Simd<i64, 4>) -> Simd<i64, 4>
    requires four { length lanes ≡ 4 }
    requires fit { Each1 (FitsSigned w64) lanes }
    ensures value { result ≡ first ∷ sample lanes 0 ∷ sample lanes 1 ∷ sample lanes 2 ∷ [] }
    ensures fit { Each1 (FitsSigned w64) result }
{
    Simd::splat(first).shuffle(lanes, [0, 4, 5, 6])
}

/// Lanes that are moved down without their signs, of which the low words count.
#[inline(always)]
fn shifted_words(lanes: Simd<i64, 4>, places: u8) -> Simd<i64, 4>
    requires few { places ≤ 32 }
    requires four { length lanes ≡ 4 }
    requires fit { Each1 (FitsSigned w64) lanes }
    ensures value { map (wrap w32) result
        ≡ values 4 (λ i. wrap w32 (floor_shift (sample lanes i) places)) }
    ensures four { length result ≡ 4 }
    ensures fit { Each1 (FitsSigned w64) result }
{
    let unsigned = u64x4::from_le_bytes(lanes.to_le_bytes());
    let moved = unsigned >> Simd::splat(u64::from(places));
    i64x4::from_le_bytes(moved.to_le_bytes())
}

/// The numbers of the low words, clamped to 16 bits. What stands in a high word is clamped too.
#[inline(always)]
fn clamped_words(words: Simd<i64, 4>) -> Simd<i64, 4>
    requires four { length words ≡ 4 }
    requires fit { Each1 (FitsSigned w64) words }
    ensures value { map (wrap w32) result ≡ values 4 (λ i. saturate 16 (low words i)) }
    ensures fit { AreWords Q15 result }
{
    let numbers = i32x8::from_le_bytes(words.to_le_bytes())
        .simd_min(Simd::splat(0x7fff))
        .simd_max(Simd::splat(-0x8000));
    i64x4::from_le_bytes(numbers.to_le_bytes())
}

/// The samples of four sections in lanes.
pub trait WaveSample: Sample {
    /// The outputs of the sections from their sums.
    fn close_four(sums: Simd<i64, 4>, post_shift: u8) -> Simd<i64, 4>
        requires shift { post_shift ≤ greatest_biquad_shift Self.format }
        requires four { length sums ≡ 4 }
        requires fit { Each1 (FitsSigned w64) sums }
        requires sums { (i : ℕ) → IsSum Self.format (sample sums i) }
        ensures value { map (wrap w32) result
            ≡ values 4 (λ i. section_close Self.format post_shift (sample sums i)) }
        ensures fit { AreWords Self.format result };
}

impl WaveSample for i32 {
    #[inline(always)]
    fn close_four(sums: Simd<i64, 4>, post_shift: u8) -> Simd<i64, 4> {
        shifted_words(sums, 31 - post_shift)
    }
}

impl WaveSample for i16 {
    #[inline(always)]
    fn close_four(sums: Simd<i64, 4>, post_shift: u8) -> Simd<i64, 4> {
        clamped_words(shifted_words(sums, 15 - post_shift))
    }
}

/// Gives the first section x and each other what was given to it, and counts the five products of each.
/// The value is the output of the last.
#[inline(always)]
pub fn turn_sections<T: WaveSample, L: Ledger>(
    lanes: &mut WaveLanes,
    x: T,
    steps: &mut Steps<L>,
) -> T
    requires { AreSections T.format lanes.old }
    ensures whole { AreSections T.format lanes.new }
    ensures turn { LanesTurn T.format lanes.old lanes.new (T.number x) (T.number result) }
    ensures steps { Rises steps.old steps.new 20 20 }
{
    steps.count(20, 20);
    // A sign above the sample's word would cost an instruction.
    let x0 = moved_up(i64::from(x.number().cast_unsigned()), lanes.y1);
    let sums = sums_of_five(
        low_products(lanes.b0, x0),
        low_products(lanes.b1, lanes.x1),
        low_products(lanes.b2, lanes.x2),
        low_products(lanes.a1, lanes.y1),
        low_products(lanes.a2, lanes.y2),
    );
    let y = T::close_four(sums, lanes.post_shift);
    lanes.x2 = lanes.x1;
    lanes.x1 = x0;
    lanes.y2 = lanes.y1;
    lanes.y1 = y;
    T::of_number(low_word(y[3]))
}
