//! The sections of a lattice with feedback, a group at a time. What a section passes on is what it was
//! given less a product that is known before, saturated: the values of a group are guessed as if no step
//! saturates, and the guess is tested.
ghost use Rattle.std.specs.Prelude.{◌≡◌, ◌+◌, ◌-◌, ◌*◌, ◌<◌, ◌≤◌, ◌+ℤ◌, ◌-ℤ◌, ◌*ℤ◌, length, map, All, FitsSigned};
ghost use Rattle.std.specs.Simd.Lanes.{Each1, zip2, chunk, put_chunk};
ghost use Rattle.dsp_defs.specs.Counts.{Rises};
ghost use Rattle.dsp_defs.specs.Formats.{accumulator, word_bits};
ghost use Rattle.dsp_defs.specs.Lattice.{reflected};
ghost use Rattle.dsp_defs.specs.Numbers.{saturate, wrap};
ghost use Rattle.dsp_defs.specs.Signal.{sample, sum_below};
ghost use Rattle.dsp_sections.specs.Ladders.{lowered_values, raised_values, SectionsDone};

use crate::ladder_lanes::LadderLanes;
use dsp_defs::Steps;
use dsp_lanes::{DotForm, PairDots, Plain};
use dsp_sat::{Sample, WideSample};
use std::sync::ledger::Ledger;

/// What each section of a group passes on: the guess if it is right. From any other, each step sets one
/// value more right.
#[inline(always)]
fn passed_on<T: LadderLanes>(front: T::Lanes, products: T::Lanes) -> T::Lanes
    requires fit_front { T.AreLanes front }
    requires fit_products { T.AreLanes products }
    ensures value { T.lanes result ≡ lowered_values (word_bits T.format)
        (sample (T.lanes front) (T.size - 1)) (T.lanes products) }
    ensures fit { T.AreLanes result }
{
    let (mut values, is_right) = T::guess(front, products);
    if !is_right {
        for right in 0..T::size() {
            values = T::lowered(T::behind(front, values), products);
        }
    }
    values
}

/// Writes over the values g from `at` on those that a group of sections gives which passes on `values`, and
/// adds their products with the ladder to the sums. `before` are the values g of the sections before them.
/// It counts two products for each section, and as many turns.
#[inline(always)]
fn raise_group<T: LadderLanes, D: DotForm<T>, L: Ledger>(
    k: T::Lanes,
    before: T::Lanes,
    values: T::Lanes,
    ladder: &[T],
    backward: &mut [T],
    at: usize,
    sums: D::Sums,
    steps: &mut Steps<L>,
) -> D::Sums
    requires size { D.size ≡ T.size }
    requires exact { Each1 T.IsExact (T.lanes k) }
    requires fit_k { T.AreLanes k }
    requires fit_before { T.AreLanes before }
    requires fit_values { T.AreLanes values }
    requires fit_sums { D.AreSums sums }
    requires inside { at + T.size < length backward.old }
    requires ladder { length ladder.now ≡ length backward.old }
    ensures backward { map T.number backward.new ≡ put_chunk at (map T.number backward.old)
        (raised_values T.format (T.lanes k) (T.lanes values) (T.lanes before)) }
    ensures sums { wrap D.width (D.value result) ≡ wrap D.width (D.value sums +ℤ sum_below T.size
        (λ j. sample (map T.number ladder.now) (at + j)
        *ℤ sample (map T.number backward.new) (at + j))) }
    ensures fit_sums { D.AreSums result }
    ensures steps { Rises steps.old steps.new (2 * T.size) (2 * T.size) }
{
    let reflected = T::reflected(k, values, steps);
    T::store(T::sums(reflected, before), backward, at);
    let size = T::size() as u64;
    steps.count(size, size);
    D::add_products(sums, ladder, backward, at)
}

/// Where the groups of the sections end: the place of the next section, what it is given and the sum of
/// the products so far.
#[derive(Drop)]
pub struct LadderGroups<T: Sample> {
    pub at: usize,
    pub f: T,
    pub sum: T::Acc,
}

/// Takes the next sample through groups of sections, two a turn, as long as they are whole and their
/// coefficients are taken in lanes.
#[inline(always)]
fn section_groups<T: LadderLanes, D: DotForm<T>, L: Ledger>(
    reflections: &[T],
    ladder: &[T],
    backward: &mut [T],
    x: T,
    steps: &mut Steps<L>,
) -> LadderGroups<T>
    requires size { D.size ≡ T.size }
    requires width { D.width ≡ accumulator T.format }
    requires ladder { length ladder.now ≡ length reflections.now + 1 }
    requires backward { length backward.old ≡ length reflections.now + 1 }
    ensures within { result.at ≤ length reflections.now }
    ensures done { SectionsDone T.format (T.number x) (map T.number reflections.now)
        (map T.number ladder.now) (map T.number backward.old) (map T.number backward.new) result.at
        (T.number result.f) (T.total result.sum) }
    ensures steps { Rises steps.old steps.new (3 * result.at) (3 * result.at) }
{
    let size = T::size();
    let mut front = T::splat(x);
    let mut sums = D::no_sums();
    let mut at = 0;
    'pairs: while (reflections.len() - at) / 2 >= size {
        let k = T::load(reflections, at);
        let next = T::load(reflections, at + size);
        if !T::are_exact(k) || !T::are_exact(next) {
            break 'pairs;
        }
        // The products of both groups are known before what the first passes on.
        let before = T::load_next(backward, at);
        let behind = T::load_next(backward, at + size);
        let products = T::reflected(k, before, steps);
        let further = T::reflected(next, behind, steps);
        let values = passed_on::<T>(front, products);
        front = passed_on::<T>(values, further);
        let sum = raise_group::<T, D, L>(k, before, values, ladder, backward, at, sums, steps);
        sums = raise_group::<T, D, L>(next, behind, front, ladder, backward, at + size, sum, steps);
        at += 2 * size;
    }
    'groups: while reflections.len() - at >= size {
        let k = T::load(reflections, at);
        if !T::are_exact(k) {
            break 'groups;
        }
        let before = T::load_next(backward, at);
        let products = T::reflected(k, before, steps);
        front = passed_on::<T>(front, products);
        sums = raise_group::<T, D, L>(k, before, front, ladder, backward, at, sums, steps);
        at += size;
    }
    LadderGroups {
        at,
        f: T::last(front),
        sum: D::total(sums),
    }
}

/// Samples of a lattice with feedback and a ladder.
pub trait LadderSample: WideSample {
    /// Takes the next sample through the first sections, a group at a time: the loop of
    /// `arm_iir_lattice_q15` and `arm_iir_lattice_q31`. It chooses where it stops, and may take none: the
    /// caller goes on from there. Coefficients and values g stand from the last section to the first,
    /// and behind them the last coefficient of the ladder and the value of the input. It counts three
    /// products for each section that is done, and as many turns.
    fn ladder_groups<L: Ledger>(
        reflections: &[Self],
        ladder: &[Self],
        backward: &mut [Self],
        x: Self,
        steps: &mut Steps<L>,
    ) -> LadderGroups<Self>
        requires ladder { length ladder.now ≡ length reflections.now + 1 }
        requires backward { length backward.old ≡ length reflections.now + 1 }
        ensures within { result.at ≤ length reflections.now }
        ensures done { SectionsDone Self.format (Self.number x) (map Self.number reflections.now)
            (map Self.number ladder.now) (map Self.number backward.old) (map Self.number backward.new)
            result.at (Self.number result.f) (Self.total result.sum) }
        ensures steps { Rises steps.old steps.new (3 * result.at) (3 * result.at) };
}

impl LadderSample for i16 {
    #[inline(always)]
    fn ladder_groups<L: Ledger>(
        reflections: &[i16],
        ladder: &[i16],
        backward: &mut [i16],
        x: i16,
        steps: &mut Steps<L>,
    ) -> LadderGroups<i16> {
        section_groups::<i16, PairDots, L>(reflections, ladder, backward, x, steps)
    }
}

impl LadderSample for i32 {
    #[inline(always)]
    fn ladder_groups<L: Ledger>(
        reflections: &[i32],
        ladder: &[i32],
        backward: &mut [i32],
        x: i32,
        steps: &mut Steps<L>,
    ) -> LadderGroups<i32> {
        section_groups::<i32, Plain<4>, L>(reflections, ladder, backward, x, steps)
    }
}
