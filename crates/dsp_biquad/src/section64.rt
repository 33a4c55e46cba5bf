ghost use Rattle.std.specs.Prelude.{◌≤◌};

use crate::CascadeSection;
use crate::closing::{fed_back, fraction31, wrapped_five};
use dsp_defs::Steps;
use dsp_filter::{InFlight, Machine, WaveMachine, are_samples, write_four};
use dsp_sat::{mult32x64, product};
use std::sync::ledger::Ledger;

/// A section in Q31 with its feedback in 64 bits: its coefficients, its last two samples and the last
/// two values that are fed back.
#[derive(Clone, Copy)]
pub struct Section64 {
    b0: i32,
    b1: i32,
    b2: i32,
    a1: i32,
    a2: i32,
    x1: i32,
    x2: i32,
    y1: i64,
    y2: i64,
    post_shift: u8,
    ghost small: { post_shift ≤ 30 },
}

impl Machine<i32> for Section64 {
    ghost use Rattle.std.specs.Prelude.{◌∷◌, [], refl};
    ghost use Rattle.dsp_biquad.specs.Sections.{wide_acts};

    ghost acts = { λ s.
        wide_acts s.post_shift (record { b0 = s.b0; b1 = s.b1; b2 = s.b2; a1 = s.a1; a2 = s.a2 }) };

    ghost kept = { λ s. s.x1 ∷ s.x2 ∷ s.y1 ∷ s.y2 ∷ [] };

    ghost price = { 5 };

    ghost size = { λ s x. refl };

    #[inline(always)]
    fn step<L: Ledger>(&mut self, x: i32, steps: &mut Steps<L>) -> i32 {
        let newest = product(self.b0, x, steps);
        let second = product(self.b1, self.x1, steps);
        let third = product(self.b2, self.x2, steps);
        let fourth = mult32x64(self.y1, self.a1, steps);
        let fifth = mult32x64(self.y2, self.a2, steps);
        let sum = wrapped_five(newest, second, third, fourth, fifth);
        self.x2 = self.x1;
        self.x1 = x;
        self.y2 = self.y1;
        self.y1 = fed_back(sum, self.post_shift);
        fraction31(sum, self.post_shift)
    }
}

// The lanes of a vector have no products of 64 bits.
impl WaveMachine<i32> for Section64 {
    type Lanes = InFlight<i32, Section64>;

    ghost use Rattle.std.specs.Prelude.{refl};

    ghost same_price = { refl };

    fn pack(_machines: &InFlight<i32, Section64>) -> Option<InFlight<i32, Section64>> {
        None
    }

    fn unpack(lanes: &InFlight<i32, Section64>) -> InFlight<i32, Section64> {
        *lanes
    }
}

impl CascadeSection<i32> for Section64 {
    const SIZE: usize = 5;

    const GREATEST_SHIFT: u8 = 30;

    ghost use Rattle.std.specs.Prelude.{refl};
    ghost use Rattle.dsp_defs.specs.declared.script.Block.TheVariants.{Biquad64};
    ghost use Rattle.dsp_biquad.specs.Sections.{IsBiquad64, wide_acts, wide_kinds, section_of};
    ghost use Rattle.dsp_biquad.specs.Laws.{one-le-five, five-le-six, parameters64};
    ghost use Rattle.dsp_biquad.specs.Laws.{is-biquad64, is-cascade64, biquad64-stepwise};

    ghost SIZE = { 5 };

    ghost GREATEST_SHIFT = { 30 };

    ghost block = { λ p numbers. Biquad64 p numbers };

    ghost section = { λ p numbers. wide_acts p (section_of 5 numbers) };

    ghost kinds = { wide_kinds };

    ghost IsOf = { IsBiquad64 };

    ghost some = { one-le-five };

    ghost few = { five-le-six };

    ghost five = { refl };

    ghost four = { λ m. refl };

    ghost four_kinds = { refl };

    ghost quiet = { λ p numbers. refl };

    ghost empty = { λ p. refl };

    ghost cascade = { is-cascade64 };

    ghost count = { λ numbers. refl };

    ghost numbers = { λ p numbers. refl };

    ghost of_numbers = { λ p numbers fits. fits };

    ghost is_block = { is-biquad64 };

    ghost parameters = { parameters64 };

    ghost kinds_are = { λ p numbers. refl };

    ghost stepwise = { biquad64-stepwise };

    fn new(post_shift: u8, numbers: &[i32]) -> Self {
        Section64 {
            b0: numbers[0],
            b1: numbers[1],
            b2: numbers[2],
            a1: numbers[3],
            a2: numbers[4],
            x1: 0,
            x2: 0,
            y1: 0,
            y2: 0,
            post_shift,
        }
    }

    fn keep(&self, out: &mut [i64]) {
        write_four(
            out,
            i64::from(self.x1),
            i64::from(self.x2),
            self.y1,
            self.y2,
        );
    }

    fn fits(numbers: &[i64]) -> bool {
        if numbers.len() != 4 {
            return false;
        }
        let _wide = (numbers[2], numbers[3]);
        are_samples::<i32>(&numbers[..2], 2)
    }

    fn restore(&mut self, numbers: &[i64]) {
        self.x1 = numbers[0] as i32;
        self.x2 = numbers[1] as i32;
        self.y1 = numbers[2];
        self.y2 = numbers[3];
    }
}
