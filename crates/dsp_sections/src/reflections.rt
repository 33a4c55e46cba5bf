//! A section of a lattice without feedback over samples in Q15, eight at a time.
ghost use Rattle.std.specs.Prelude.{◌≡◌, ◌≢◌, ◌+◌, ◌-◌, ◌*◌, ◌≤◌, ◌*ℤ◌, ◌+ℤ◌, ◌∷◌, pos, negsuc, length, map};
ghost use Rattle.std.specs.Prelude.{FitsSigned};
ghost use Rattle.std.specs.Int.{w16};
ghost use Rattle.std.specs.Simd.Lanes.{Each1, zip2, chunk, put_chunk};
ghost use Rattle.dsp_defs.specs.Numbers.{floor_shift, saturate};
ghost use Rattle.dsp_defs.specs.Counts.{Rises};
ghost use Rattle.dsp_defs.specs.Signal.{sample};
ghost use Rattle.dsp_sections.specs.Reflected.{reflected};

use dsp_defs::Steps;
use dsp_lanes::q15_fit;
use dsp_sat::{product, sat16};
use std::simd::prelude::*;
use std::sync::ledger::Ledger;

/// Twice a coefficient, as a factor of 16 bits and a multiple of 2^16, which is 1, 0 or -1 of it.
#[inline(always)]
fn folded(k: i16) -> (i16, i16)
    ensures double { result.0 +ℤ result.1 *ℤ pos 65536 ≡ pos 2 *ℤ k }
{
    let double = 2 * i32::from(k);
    if double > 0x7fff {
        ((double - 0x1_0000) as i16, 1)
    } else if double < -0x8000 {
        ((double + 0x1_0000) as i16, -1)
    } else {
        (double as i16, 0)
    }
}

/// The high words of the products of samples and a factor. It counts the products, and as many turns.
#[inline(always)]
fn high_words<L: Ledger>(samples: i16x8, factor: i16, steps: &mut Steps<L>) -> i16x8
    requires long { length samples ≡ 8 }
    requires fit { Each1 (FitsSigned w16) samples }
    ensures value { result ≡ map (λ x. floor_shift (x *ℤ factor) 16) samples }
    ensures fit { Each1 (FitsSigned w16) result }
    ensures steps { Rises steps.old steps.new 8 8 }
{
    let products = samples.cast::<i32>() * i16x8::splat(factor).cast::<i32>();
    steps.count(8, 8);
    (products >> i32x8::splat(16)).cast::<i16>()
}

/// The products of samples and a coefficient as fractions, by the high words of products: a shift by 15
/// is one by 16 of twice the product. The multiple of 2^16 in twice the coefficient makes no product: it
/// adds or takes off each sample once.
#[inline(always)]
fn fractions<L: Ledger>(k: i16, samples: i16x8, steps: &mut Steps<L>) -> i16x8
    requires apart { k ≢ negsuc 32767 }
    requires long { length samples ≡ 8 }
    requires fit { Each1 (FitsSigned w16) samples }
    ensures value { result ≡ map (λ x. floor_shift (k *ℤ x) 15) samples }
    ensures fit { Each1 (FitsSigned w16) result }
    ensures steps { Rises steps.old steps.new 8 8 }
{
    let (factor, whole) = folded(k);
    let high = high_words(samples, factor, steps);
    if whole > 0 {
        high + samples
    } else if whole < 0 {
        high - samples
    } else {
        high
    }
}

/// The saturated sums.
#[inline(always)]
pub(crate) fn saturated_sums(x: i16x8, y: i16x8) -> i16x8
    requires long_x { length x ≡ 8 }
    requires long_y { length y ≡ 8 }
    requires fit_x { Each1 (FitsSigned w16) x }
    requires fit_y { Each1 (FitsSigned w16) y }
    ensures value { result ≡ zip2 (λ a b. saturate 16 (a +ℤ b)) x y }
    ensures fit { Each1 (FitsSigned w16) result }
{
    (x.cast::<i32>() + y.cast::<i32>())
        .simd_min(Simd::splat(0x7fff))
        .simd_max(Simd::splat(-0x8000))
        .cast::<i16>()
}

/// A value and the fraction of a product, saturated.
#[inline(always)]
fn reflected_value(product: i32, value: i16) -> i16
    ensures { result ≡ saturate 16 (floor_shift product 15 +ℤ value) }
{
    sat16(i64::from((product >> 15) + i32::from(value)))
}

/// Writes over the eight values f and g from `at` on those that the section gives for them, and answers
/// the values g that stood there. The last of `before` is the value g before them. It comes in lanes, since
/// one shuffle of two groups then moves the values g on by a place, where a number put before them takes
/// three instructions of the one port that shuffles.
#[inline(always)]
fn reflect_group<L: Ledger>(
    k: i16,
    before: i16x8,
    forward: &mut [i16],
    backward: &mut [i16],
    at: usize,
    steps: &mut Steps<L>,
) -> i16x8
    requires apart { k ≢ negsuc 32767 }
    requires long { length before ≡ 8 }
    requires fit { Each1 (FitsSigned w16) before }
    requires forward { at + 8 ≤ length forward.old }
    requires backward { at + 8 ≤ length backward.old }
    ensures forward { forward.new ≡ put_chunk at forward.old
        (zip2 (λ f g. reflected k g f) (chunk at 8 forward.old)
        (sample before 7 ∷ chunk at 7 backward.old)) }
    ensures backward { backward.new ≡ put_chunk at backward.old
        (zip2 (λ f g. reflected k f g) (chunk at 8 forward.old)
        (sample before 7 ∷ chunk at 7 backward.old)) }
    ensures value { result ≡ chunk at 8 backward.old }
    ensures fit { Each1 (FitsSigned w16) result }
    ensures steps { Rises steps.old steps.new 16 16 }
{
    q15_fit(forward);
    q15_fit(backward);
    let f = i16x8::from_slice(&forward[at..]);
    let stored = i16x8::from_slice(&backward[at..]);
    let g = before.shuffle(stored, [7, 8, 9, 10, 11, 12, 13, 14]);
    saturated_sums(fractions(k, g, steps), f).copy_to_slice(&mut forward[at..]);
    saturated_sums(fractions(k, f, steps), g).copy_to_slice(&mut backward[at..]);
    stored
}

/// Writes over the values f and g of each sample those that a section of a lattice without feedback
/// gives for them, and answers the last g that it was given: the inner step of `arm_fir_lattice_q15`,
/// over a block. `before` is the value g of the sample before. Lengths are equal. It counts two
/// products for each sample, and as many turns.
pub fn reflect<L: Ledger>(
    k: i16,
    before: i16,
    forward: &mut [i16],
    backward: &mut [i16],
    steps: &mut Steps<L>,
) -> i16
    requires { length backward.old ≡ length forward.old }
    ensures forward { forward.new ≡ zip2 (λ f g. reflected k g f) forward.old (before ∷ backward.old) }
    ensures backward { backward.new ≡ zip2 (λ f g. reflected k f g) forward.old (before ∷ backward.old) }
    ensures last { result ≡ sample (before ∷ backward.old) (length forward.old) }
    ensures steps { Rises steps.old steps.new (length forward.old * 2) (length forward.old * 2) }
{
    let mut lanes = i16x8::splat(before);
    let mut at = 0;
    'groups: while k != i16::MIN && forward.len() - at >= 8 {
        lanes = reflect_group(k, lanes, forward, backward, at, steps);
        at += 8;
    }
    let numbers = lanes.to_array();
    let mut last = numbers[7];
    'rest: while at < forward.len() {
        let f = forward[at];
        let g = backward[at];
        let down = product(k, last, steps);
        let up = product(k, f, steps);
        forward[at] = reflected_value(down, f);
        backward[at] = reflected_value(up, last);
        last = g;
        at += 1;
    }
    last
}
