//! A section of a cascade on all channels at once. Samples stand frame by frame, and the samples of a
//! frame do not wait for each other: neighbouring channels work in lanes, and what a section keeps of
//! them stays in registers from frame to frame.
ghost use Rattle.std.specs.Prelude.{◌≡◌, ◌+◌, ◌*◌, ◌<◌, ◌≤◌, ℕ, ℤ, List, length, map};
ghost use Rattle.std.specs.Simd.Lanes.{chunk, put_chunk};
ghost use Rattle.dsp_defs.specs.Formats.{lanes};
ghost use Rattle.dsp_defs.specs.Numbers.{wrap, w32};
ghost use Rattle.dsp_defs.specs.Parameters.{greatest_biquad_shift};
ghost use Rattle.dsp_defs.specs.Signal.{sample, values};
ghost use Rattle.dsp_sections.specs.Sections.{five_of, next_output, Follows, Stays};
ghost use Rattle.dsp_lanes.specs.Turns.{RisesWithin, lane_turns};

use dsp_defs::Steps;
use dsp_lanes::{q15_fit, q31_fit};
use dsp_sat::{Sample, WideSample};
use std::simd::prelude::*;
use std::sync::ledger::Ledger;

/// How a section works on L neighbouring channels.
pub trait SectionKernels<const L: usize>: Sample {
    /// One number of each of L channels.
    type Channels: Copy;

    ghost channels: { Self.Channels → List ℤ };

    ghost AreChannels: { Self.Channels → Type 0 };

    /// The samples of L channels.
    fn load(samples: &[Self], at: usize) -> Self::Channels
        requires few { L ≤ 64 }
        requires inside { at + L ≤ length samples.now }
        ensures value { channels result ≡ chunk at L (map Self.number samples.now) }
        ensures fit { AreChannels result };

    /// Writes the samples of L channels.
    fn store(numbers: Self::Channels, samples: &mut [Self], at: usize)
        requires few { L ≤ 64 }
        requires fit { AreChannels numbers }
        requires inside { at + L ≤ length samples.old }
        ensures { map Self.number samples.new ≡ put_chunk at (map Self.number samples.old)
            (channels numbers) };

    /// The outputs for samples x, the two samples before them and the last two outputs.
    fn next(
        five: &[Self],
        post_shift: u8,
        x: Self::Channels,
        x1: Self::Channels,
        x2: Self::Channels,
        y1: Self::Channels,
        y2: Self::Channels,
    ) -> Self::Channels
        requires few { L ≤ 64 }
        requires five { length five.now ≡ 5 }
        requires shift { post_shift ≤ greatest_biquad_shift Self.format }
        requires fit_x { AreChannels x }
        requires fit_x1 { AreChannels x1 }
        requires fit_x2 { AreChannels x2 }
        requires fit_y1 { AreChannels y1 }
        requires fit_y2 { AreChannels y2 }
        ensures value { channels result ≡ values L (λ i.
            next_output Self.format post_shift (five_of (map Self.number five.now))
            (sample (channels x) i) (sample (channels x1) i) (sample (channels x2) i)
            (sample (channels y1) i) (sample (channels y2) i)) }
        ensures fit { AreChannels result };
}

impl<const L: usize> SectionKernels<L> for i16 {
    type Channels = Simd<i16, L>;

    ghost use Rattle.std.specs.Prelude.{FitsSigned};
    ghost use Rattle.std.specs.Simd.Lanes.{Each1};
    ghost use Rattle.std.specs.Int.{w16};

    ghost channels = { λ c. c };

    ghost AreChannels = { λ c. Each1 (FitsSigned w16) c };

    #[inline(always)]
    fn load(samples: &[i16], at: usize) -> Simd<i16, L> {
        q15_fit(samples);
        Simd::from_slice(&samples[at..])
    }

    #[inline(always)]
    fn store(numbers: Simd<i16, L>, samples: &mut [i16], at: usize) {
        numbers.copy_to_slice(&mut samples[at..]);
    }

    #[inline(always)]
    fn next(
        five: &[i16],
        post_shift: u8,
        x: Simd<i16, L>,
        x1: Simd<i16, L>,
        x2: Simd<i16, L>,
        y1: Simd<i16, L>,
        y2: Simd<i16, L>,
    ) -> Simd<i16, L> {
        q15_fit(five);
        let p0 = Simd::<i16, L>::splat(five[0]).cast::<i32>() * x.cast::<i32>();
        let p1 = Simd::<i16, L>::splat(five[1]).cast::<i32>() * x1.cast::<i32>();
        let p2 = Simd::<i16, L>::splat(five[2]).cast::<i32>() * x2.cast::<i32>();
        let p3 = Simd::<i16, L>::splat(five[3]).cast::<i32>() * y1.cast::<i32>();
        let p4 = Simd::<i16, L>::splat(five[4]).cast::<i32>() * y2.cast::<i32>();
        // Two products come to at most 2^31, which is one more than a lane holds.
        let less = Simd::splat(-1);
        let half = Simd::splat(16);
        let first = p0 + p1;
        let second = p2 + p4;
        let low = first + second + p3;
        let high = ((first + less) >> half) + ((second + less) >> half) + (p3 >> half);
        let rest = low - (high << half);
        let up = high << Simd::splat(i32::from(post_shift) + 1);
        let down = rest >> Simd::splat(15 - i32::from(post_shift));
        (up + down)
            .simd_min(Simd::splat(0x7fff))
            .simd_max(Simd::splat(-0x8000))
            .cast::<i16>()
    }
}

impl<const L: usize> SectionKernels<L> for i32 {
    // A number stands in the low word of its lane.
    type Channels = Simd<i64, L>;

    ghost use Rattle.std.specs.Prelude.{FitsSigned};
    ghost use Rattle.std.specs.Simd.Lanes.{Each1};
    ghost use Rattle.std.specs.Int.{w64};

    ghost channels = { λ c. map (wrap w32) c };

    ghost AreChannels = { λ c. Each1 (FitsSigned w64) c };

    #[inline(always)]
    fn load(samples: &[i32], at: usize) -> Simd<i64, L> {
        q31_fit(samples);
        // A product reads the low word alone, and the compiler is not to keep the sign above it.
        Simd::<i32, L>::from_slice(&samples[at..]).cast::<i64>() & Simd::splat(0xffff_ffff)
    }

    #[inline(always)]
    fn store(numbers: Simd<i64, L>, samples: &mut [i32], at: usize) {
        ((numbers << Simd::splat(32)) >> Simd::splat(32))
            .cast::<i32>()
            .copy_to_slice(&mut samples[at..]);
    }

    #[inline(always)]
    fn next(
        five: &[i32],
        post_shift: u8,
        x: Simd<i64, L>,
        x1: Simd<i64, L>,
        x2: Simd<i64, L>,
        y1: Simd<i64, L>,
        y2: Simd<i64, L>,
    ) -> Simd<i64, L> {
        q31_fit(five);
        let low = Simd::splat(32);
        let sum = Simd::<i32, L>::splat(five[0]).cast::<i64>() * ((x << low) >> low)
            + Simd::<i32, L>::splat(five[1]).cast::<i64>() * ((x1 << low) >> low)
            + Simd::<i32, L>::splat(five[2]).cast::<i64>() * ((x2 << low) >> low)
            + Simd::<i32, L>::splat(five[4]).cast::<i64>() * ((y2 << low) >> low)
            + Simd::<i32, L>::splat(five[3]).cast::<i64>() * ((y1 << low) >> low);
        ((sum << Simd::splat(i64::from(post_shift) + 1)) >> low) & Simd::splat(0xffff_ffff)
    }
}

/// The numbers of a section as values of their own, which the compiler keeps in registers: it sees
/// that no output is written over them.
#[inline(always)]
fn own_numbers<T: Sample>(five: &[T]) -> [T; 5]
    requires { length five.now ≡ 5 }
    ensures { result ≡ five.now }
{
    [five[0], five[1], five[2], five[3], five[4]]
}

/// Writes the outputs of N channels, those from `first` on, in all frames behind the first two.
#[inline(always)]
fn section_channels<T: SectionKernels<N>, const N: usize, M: Ledger>(
    five: &[T],
    post_shift: u8,
    row: usize,
    count: usize,
    first: usize,
    inputs: &[T],
    outputs: &mut [T],
    steps: &mut Steps<M>,
)
    requires some { 0 < N }
    requires few { N ≤ 64 }
    requires five { length five.now ≡ 5 }
    requires shift { post_shift ≤ greatest_biquad_shift T.format }
    requires rows { length outputs.old ≡ (count + 2) * row }
    requires inputs { length inputs.now ≡ length outputs.old }
    requires channels { first + N ≤ row }
    ensures follows { (i : ℕ) → first ≤ i → i < first + N
        → Follows T.format post_shift (five_of (map T.number five.now)) row
        (map T.number inputs.now) (map T.number outputs.new) count i }
    ensures past { (i : ℕ) → i < row
        → Stays row (map T.number outputs.old) (map T.number outputs.new) 2 i }
    ensures before { (i : ℕ) → i < first
        → Stays row (map T.number outputs.old) (map T.number outputs.new) (count + 2) i }
    ensures steps { RisesWithin steps.old steps.new (count * (5 * N)) (count * 5) }
{
    // The compiler orders the sum by these lines. With the last output after the one before it, fewer
    // sums stand between its product and the next output.
    let mut y2 = T::load(outputs, first);
    let mut x1 = T::load(inputs, row + first);
    let mut x2 = T::load(inputs, first);
    let mut y1 = T::load(outputs, row + first);
    for frame in 0..count {
        let at = (frame + 2) * row + first;
        let x = T::load(inputs, at);
        let y = T::next(five, post_shift, x, x1, x2, y1, y2);
        T::store(y, outputs, at);
        steps.count(5 * N as u64, 5);
        x2 = x1;
        x1 = x;
        y2 = y1;
        y1 = y;
    }
}

/// Samples of the sections of a cascade.
pub trait SectionSample: WideSample {
    /// Writes the outputs of a section on frames of `row` samples: `inputs` are the last two frames
    /// before these and `count` frames, `outputs` the last two frames that the section gave and room
    /// for `count` frames. It counts five products a sample, and five turns for each group of samples in
    /// a row and for each sample of the rest: the inner loop of a bank of `arm_biquad_cascade_df1_q15` or
    /// `arm_biquad_cascade_df1_q31`.
    fn section_rows<M: Ledger>(
        five: &[Self],
        post_shift: u8,
        row: usize,
        count: usize,
        inputs: &[Self],
        outputs: &mut [Self],
        steps: &mut Steps<M>,
    )
        requires five { length five.now ≡ 5 }
        requires shift { post_shift ≤ greatest_biquad_shift Self.format }
        requires rows { length outputs.old ≡ (count + 2) * row }
        requires inputs { length inputs.now ≡ length outputs.old }
        ensures follows { (i : ℕ) → i < row
            → Follows Self.format post_shift (five_of (map Self.number five.now)) row
            (map Self.number inputs.now) (map Self.number outputs.new) count i }
        ensures past { (i : ℕ) → i < row
            → Stays row (map Self.number outputs.old) (map Self.number outputs.new) 2 i }
        ensures steps { RisesWithin steps.old steps.new (count * (5 * row))
            (count * (5 * lane_turns (lanes Self.format) row)) };
}

impl SectionSample for i16 {
    fn section_rows<M: Ledger>(
        five: &[i16],
        post_shift: u8,
        row: usize,
        count: usize,
        inputs: &[i16],
        outputs: &mut [i16],
        steps: &mut Steps<M>,
    ) {
        let numbers = own_numbers(five);
        let mut first = 0;
        'eights: while row - first >= 8 {
            section_channels::<i16, 8, M>(
                &numbers, post_shift, row, count, first, inputs, outputs, steps,
            );
            first += 8;
        }
        'fours: while row - first >= 4 {
            section_channels::<i16, 4, M>(
                &numbers, post_shift, row, count, first, inputs, outputs, steps,
            );
            first += 4;
        }
        'twos: while row - first >= 2 {
            section_channels::<i16, 2, M>(
                &numbers, post_shift, row, count, first, inputs, outputs, steps,
            );
            first += 2;
        }
        'ones: while row - first >= 1 {
            section_channels::<i16, 1, M>(
                &numbers, post_shift, row, count, first, inputs, outputs, steps,
            );
            first += 1;
        }
    }
}

impl SectionSample for i32 {
    fn section_rows<M: Ledger>(
        five: &[i32],
        post_shift: u8,
        row: usize,
        count: usize,
        inputs: &[i32],
        outputs: &mut [i32],
        steps: &mut Steps<M>,
    ) {
        let numbers = own_numbers(five);
        let mut first = 0;
        'fours: while row - first >= 4 {
            section_channels::<i32, 4, M>(
                &numbers, post_shift, row, count, first, inputs, outputs, steps,
            );
            first += 4;
        }
        'twos: while row - first >= 2 {
            section_channels::<i32, 2, M>(
                &numbers, post_shift, row, count, first, inputs, outputs, steps,
            );
            first += 2;
        }
        'rest: while row - first >= 1 {
            section_channels::<i32, 1, M>(
                &numbers, post_shift, row, count, first, inputs, outputs, steps,
            );
            first += 1;
        }
    }
}
