ghost use Rattle.std.specs.Prelude.{◌≡◌, ◌≤◌, ◌<◌, ◌^◌, ◌*ℤ◌, pos, FitsSigned};
ghost use Rattle.dsp_defs.specs.Formats.{word};
ghost use Rattle.dsp_defs.specs.Parameters.{greatest_biquad_shift};
ghost use Rattle.dsp_sections.specs.SectionWaves.{AreSections, low};
ghost use Rattle.dsp_biquad.specs.Scaled.{IsScaled};

use crate::closing::wrapped_five;
use crate::lane_numbers::{in_lanes, number_in, plain_in_lanes};
use crate::{BiquadSample, CascadeSection, FourSections};
use dsp_defs::Steps;
use dsp_filter::{InFlight, Machine, WaveMachine, are_samples, write_four};
use dsp_sections::{WaveLanes, wrapped_product};
use std::alloc::AllocError;
use std::marker::PhantomData;
use std::sync::ledger::Ledger;

/// A section: its coefficients times 2^post_shift, its last two samples and its last two outputs, all
/// of them in 64 bits, so that a step widens its sample alone and shifts by a constant.
pub struct Section<T: BiquadSample> {
    b0: i64,
    b1: i64,
    b2: i64,
    a1: i64,
    a2: i64,
    x1: i64,
    x2: i64,
    y1: i64,
    y2: i64,
    post_shift: u8,
    sample: PhantomData<T>,
    ghost shift: { post_shift ≤ greatest_biquad_shift T.format },
    ghost b0_fits: { IsScaled T.format post_shift b0 },
    ghost b1_fits: { IsScaled T.format post_shift b1 },
    ghost b2_fits: { IsScaled T.format post_shift b2 },
    ghost a1_fits: { IsScaled T.format post_shift a1 },
    ghost a2_fits: { IsScaled T.format post_shift a2 },
    ghost x1_fits: { FitsSigned (word T.format) x1 },
    ghost x2_fits: { FitsSigned (word T.format) x2 },
    ghost y1_fits: { FitsSigned (word T.format) y1 },
    ghost y2_fits: { FitsSigned (word T.format) y2 },
}

impl<T: BiquadSample> Clone for Section<T> {
    fn clone(&self) -> Result<Self, AllocError> {
        Ok(*self)
    }
}

impl<T: BiquadSample> Copy for Section<T> {}

/// A coefficient times 2^post_shift.
fn scaled<T: BiquadSample>(coefficient: T, post_shift: u8) -> i64
    requires { post_shift ≤ greatest_biquad_shift T.format }
    ensures value { result ≡ T.number coefficient *ℤ pos (2 ^ post_shift) }
    ensures fits { IsScaled T.format post_shift result }
{
    i64::from(coefficient.number()) << post_shift
}

impl<T: BiquadSample> Machine<T> for Section<T> {
    ghost use Rattle.std.specs.Prelude.{◌∷◌, [], refl};
    ghost use Rattle.dsp_biquad.specs.Sections.{section_acts};

    // The post shift is in the coefficients.
    ghost acts = { λ s.
        section_acts T.format 0
        (record { b0 = s.b0; b1 = s.b1; b2 = s.b2; a1 = s.a1; a2 = s.a2 }) };

    ghost kept = { λ s. s.x1 ∷ s.x2 ∷ s.y1 ∷ s.y2 ∷ [] };

    ghost price = { 5 };

    ghost size = { λ s x. refl };

    #[inline(always)]
    fn step<L: Ledger>(&mut self, x: T, steps: &mut Steps<L>) -> T {
        let x0 = i64::from(x.number());
        let newest = wrapped_product(self.b0, x0, steps);
        let second = wrapped_product(self.b1, self.x1, steps);
        let third = wrapped_product(self.b2, self.x2, steps);
        let fourth = wrapped_product(self.a1, self.y1, steps);
        let fifth = wrapped_product(self.a2, self.y2, steps);
        let y = T::closed(wrapped_five(newest, second, third, fourth, fifth));
        self.x2 = self.x1;
        self.x1 = x0;
        self.y2 = self.y1;
        self.y1 = i64::from(y.number());
        y
    }
}

/// The section of a lane.
fn section_in<T: BiquadSample>(lanes: &WaveLanes, lane: usize) -> Section<T>
    requires whole { AreSections T.format lanes.now }
    requires inside { lane < 4 }
    ensures b0 { result.b0 ≡ low lanes.now.b0 lane *ℤ pos (2 ^ lanes.now.post_shift) }
    ensures b1 { result.b1 ≡ low lanes.now.b1 lane *ℤ pos (2 ^ lanes.now.post_shift) }
    ensures b2 { result.b2 ≡ low lanes.now.b2 lane *ℤ pos (2 ^ lanes.now.post_shift) }
    ensures a1 { result.a1 ≡ low lanes.now.a1 lane *ℤ pos (2 ^ lanes.now.post_shift) }
    ensures a2 { result.a2 ≡ low lanes.now.a2 lane *ℤ pos (2 ^ lanes.now.post_shift) }
    ensures x1 { result.x1 ≡ low lanes.now.x1 lane }
    ensures x2 { result.x2 ≡ low lanes.now.x2 lane }
    ensures y1 { result.y1 ≡ low lanes.now.y1 lane }
    ensures y2 { result.y2 ≡ low lanes.now.y2 lane }
{
    let post_shift = lanes.post_shift;
    Section {
        b0: number_in(lanes.b0, lane) << post_shift,
        b1: number_in(lanes.b1, lane) << post_shift,
        b2: number_in(lanes.b2, lane) << post_shift,
        a1: number_in(lanes.a1, lane) << post_shift,
        a2: number_in(lanes.a2, lane) << post_shift,
        x1: number_in(lanes.x1, lane),
        x2: number_in(lanes.x2, lane),
        y1: number_in(lanes.y1, lane),
        y2: number_in(lanes.y2, lane),
        post_shift,
        sample: PhantomData,
    }
}

impl<T: BiquadSample> WaveMachine<T> for Section<T> {
    type Lanes = FourSections<T>;

    ghost use Rattle.std.specs.Prelude.{refl};

    ghost same_price = { refl };

    fn pack(machines: &InFlight<T, Self>) -> Option<FourSections<T>> {
        let InFlight {
            first: a,
            second: b,
            third: c,
            fourth: d,
            to_second,
            to_third,
            to_fourth,
        } = *machines;
        let p = a.post_shift;
        if b.post_shift != p || c.post_shift != p || d.post_shift != p {
            return None;
        }
        // In lanes a section's last output is what it gives to the next.
        if a.y1 != i64::from(to_second.number())
            || b.y1 != i64::from(to_third.number())
            || c.y1 != i64::from(to_fourth.number())
        {
            return None;
        }
        Some(FourSections {
            lanes: WaveLanes {
                b0: plain_in_lanes(a.b0, b.b0, c.b0, d.b0, p),
                b1: plain_in_lanes(a.b1, b.b1, c.b1, d.b1, p),
                b2: plain_in_lanes(a.b2, b.b2, c.b2, d.b2, p),
                a1: plain_in_lanes(a.a1, b.a1, c.a1, d.a1, p),
                a2: plain_in_lanes(a.a2, b.a2, c.a2, d.a2, p),
                x1: in_lanes(a.x1, b.x1, c.x1, d.x1),
                x2: in_lanes(a.x2, b.x2, c.x2, d.x2),
                y1: in_lanes(a.y1, b.y1, c.y1, d.y1),
                y2: in_lanes(a.y2, b.y2, c.y2, d.y2),
                post_shift: p,
            },
            sample: PhantomData,
        })
    }

    fn unpack(lanes: &FourSections<T>) -> InFlight<T, Self> {
        let given = lanes.lanes.y1;
        InFlight {
            first: section_in(&lanes.lanes, 0),
            second: section_in(&lanes.lanes, 1),
            third: section_in(&lanes.lanes, 2),
            fourth: section_in(&lanes.lanes, 3),
            to_second: T::of_number(number_in(given, 0) as i32),
            to_third: T::of_number(number_in(given, 1) as i32),
            to_fourth: T::of_number(number_in(given, 2) as i32),
        }
    }
}

impl<T: BiquadSample> CascadeSection<T> for Section<T> {
    const SIZE: usize = T::SIZE;

    const GREATEST_SHIFT: u8 = T::GREATEST_SHIFT;

    ghost use Rattle.std.specs.Prelude.{refl};
    ghost use Rattle.dsp_defs.specs.Formats.{word};
    ghost use Rattle.dsp_defs.specs.Kept.{in_words};
    ghost use Rattle.dsp_defs.specs.declared.script.Block.TheVariants.{Biquad};
    ghost use Rattle.dsp_biquad.specs.Sections.{IsBiquadIn, section_acts, section_of};
    ghost use Rattle.dsp_biquad.specs.Laws.{some-size, few-size, of-numbers, empty-at, cascade-at};
    ghost use Rattle.dsp_biquad.specs.Laws.{count-at, parameters-at, words-of_sections, is-biquad};
    ghost use Rattle.dsp_biquad.specs.Laws.{biquad-stepwise};
    ghost use Rattle.dsp_defs.specs.Cost.{section_count};

    ghost SIZE = { T.SIZE };

    ghost GREATEST_SHIFT = { T.GREATEST_SHIFT };

    ghost block = { λ p numbers. Biquad p numbers };

    ghost section = { λ p numbers. section_acts T.format p (section_of T.SIZE numbers) };

    ghost kinds = { in_words (word T.format) 4 };

    ghost IsOf = { IsBiquadIn T.format };

    ghost some = { some-size T.format T.SIZE T.has_size };

    ghost few = { few-size T.format T.SIZE T.has_size };

    ghost five = { refl };

    ghost four = { λ m. refl };

    ghost four_kinds = { refl };

    ghost quiet = { λ p numbers. refl };

    ghost empty = { λ p. empty-at T.format p };

    ghost cascade = { λ p. cascade-at T.format T.SIZE T.has_size p };

    ghost count = { λ numbers. count-at T.format T.SIZE T.has_size numbers };

    ghost numbers = { λ p numbers. refl };

    ghost of_numbers = { λ p numbers.
        of-numbers T.format T.GREATEST_SHIFT T.SIZE T.has_shift T.has_size p numbers };

    ghost is_block = { is-biquad T.format };

    ghost parameters = { λ b is.
        parameters-at T.format T.GREATEST_SHIFT T.SIZE T.has_shift T.has_size b is };

    ghost kinds_are = { λ p numbers. words-of_sections (word T.format) (section_count T.format numbers) 0 };

    ghost stepwise = { biquad-stepwise T.format };

    fn new(post_shift: u8, numbers: &[T]) -> Self {
        Section {
            b0: scaled(numbers[0], post_shift),
            b1: scaled(numbers[T::SIZE - 4], post_shift),
            b2: scaled(numbers[T::SIZE - 3], post_shift),
            a1: scaled(numbers[T::SIZE - 2], post_shift),
            a2: scaled(numbers[T::SIZE - 1], post_shift),
            x1: 0,
            x2: 0,
            y1: 0,
            y2: 0,
            post_shift,
            sample: PhantomData,
        }
    }

    fn keep(&self, out: &mut [i64]) {
        write_four(out, self.x1, self.x2, self.y1, self.y2);
    }

    fn fits(numbers: &[i64]) -> bool {
        are_samples::<T>(numbers, 4)
    }

    fn restore(&mut self, numbers: &[i64]) {
        self.x1 = numbers[0];
        self.x2 = numbers[1];
        self.y1 = numbers[2];
        self.y2 = numbers[3];
    }
}
