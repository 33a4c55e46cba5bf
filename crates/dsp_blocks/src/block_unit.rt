ghost use Rattle.dsp_blocks.specs.BlockUnit.{state_of};

use crate::{
    Cascades, Drive, Feed, Finish, Held, Keep, KeptCount, Look, MeasureAt, Measures, Pass, Place,
    Restore,
};
use dsp_adapt::{LmsUnit, PidWork};
use dsp_bank::BankUnit;
use dsp_biquad::{Section, Section64};
use dsp_complex::ComplexUnit;
use dsp_conv::{Convolution, Correlate};
use dsp_defs::{Measure, Steps};
use dsp_filter::{EachChannel, StepFilter};
use dsp_fir::WindowFilter;
use dsp_lattice::{FirLatticeWork, IirLatticeWork};
use dsp_matrix::{Grouped, GroupedMult};
use dsp_rate::{Decimate, Interpolate};
use dsp_unit::Unit;
use dsp_vector::VectorUnit;
use std::sync::ledger::Ledger;

/// A work of one value for each sample, on each channel.
type EachStep<T, W> = EachChannel<T, StepFilter<T, W>>;

/// A FIR or sparse filter on each channel.
type EachWindow<T, const L: usize> = EachChannel<T, WindowFilter<T, L, ()>>;

/// A convolution on each channel.
type EachConvolution<T, const L: usize> = EachChannel<T, Convolution<T, L, ()>>;

/// The unit of any block, in one of the formats that it has.
pub enum BlockUnit {
    Vector(VectorUnit),
    Complex(ComplexUnit),
    // These three hold sparse filters too.
    Fir7(EachWindow<i8, 16>),
    Fir15(EachWindow<i16, 8>),
    Fir31(EachWindow<i32, 4>),
    Decimate15(EachChannel<i16, Decimate<i16, 8>>),
    Decimate31(EachChannel<i32, Decimate<i32, 4>>),
    Interpolate15(EachChannel<i16, Interpolate<i16, 8>>),
    Interpolate31(EachChannel<i32, Interpolate<i32, 4>>),
    LatticeFir15(EachStep<i16, FirLatticeWork<i16>>),
    LatticeIir15(EachStep<i16, IirLatticeWork<i16>>),
    LatticeIir31(EachStep<i32, IirLatticeWork<i32>>),
    Biquad15(Cascades<i16, Section<i16>>),
    Biquad31(Cascades<i32, Section<i32>>),
    Biquad64(Cascades<i32, Section64>),
    Bank15(BankUnit<i16, 8>),
    Bank31(BankUnit<i32, 4>),
    Conv7(EachConvolution<i8, 16>),
    Conv15(EachConvolution<i16, 8>),
    Conv31(EachConvolution<i32, 4>),
    Correlate7(EachChannel<i8, Correlate<i8>>),
    Correlate15(EachChannel<i16, Correlate<i16>>),
    Correlate31(EachChannel<i32, Correlate<i32>>),
    Lms15(LmsUnit<i16, 8>),
    Lms31(LmsUnit<i32, 4>),
    Pid15(EachStep<i16, PidWork<i16>>),
    Pid31(EachStep<i32, PidWork<i32>>),
    Matrix15(EachChannel<i16, Grouped<i16>>),
    Matrix31(EachChannel<i32, Grouped<i32>>),
    MatMult15(EachChannel<i16, GroupedMult>),
    Measure(dsp_measure::MeasureUnit),
}

/// Evaluates one expression where the unit itself is there, and another where it is held.
macro_rules! for_unit {
    ($value:expr, $unit:ident => $result:expr, $held:ident => $held_result:expr) => {
        match $value {
            BlockUnit::Vector($unit) => $result,
            BlockUnit::Complex($unit) => $result,
            BlockUnit::Fir7($held) => $held_result,
            BlockUnit::Fir15($held) => $held_result,
            BlockUnit::Fir31($held) => $held_result,
            BlockUnit::Decimate15($held) => $held_result,
            BlockUnit::Decimate31($held) => $held_result,
            BlockUnit::Interpolate15($held) => $held_result,
            BlockUnit::Interpolate31($held) => $held_result,
            BlockUnit::LatticeFir15($held) => $held_result,
            BlockUnit::LatticeIir15($held) => $held_result,
            BlockUnit::LatticeIir31($held) => $held_result,
            BlockUnit::Biquad15($held) => $held_result,
            BlockUnit::Biquad31($held) => $held_result,
            BlockUnit::Biquad64($held) => $held_result,
            BlockUnit::Bank15($unit) => $result,
            BlockUnit::Bank31($unit) => $result,
            BlockUnit::Conv7($held) => $held_result,
            BlockUnit::Conv15($held) => $held_result,
            BlockUnit::Conv31($held) => $held_result,
            BlockUnit::Correlate7($held) => $held_result,
            BlockUnit::Correlate15($held) => $held_result,
            BlockUnit::Correlate31($held) => $held_result,
            BlockUnit::Lms15($unit) => $result,
            BlockUnit::Lms31($unit) => $result,
            BlockUnit::Pid15($held) => $held_result,
            BlockUnit::Pid31($held) => $held_result,
            BlockUnit::Matrix15($held) => $held_result,
            BlockUnit::Matrix31($held) => $held_result,
            BlockUnit::MatMult15($held) => $held_result,
            BlockUnit::Measure($unit) => $result,
        }
    };
}

// Written out, so that it is proved here and not in each crate that drops a unit.
impl Drop for BlockUnit {
    fn drop(self) {
        for_unit!(self, _unit => {}, _held => {})
    }
}

impl Held for BlockUnit {
    ghost state = { state_of };

    fn drive<D: Drive>(
        &mut self,
        given: &[D::Given],
        out: &mut [i32],
        counter: &mut D::Counter,
    ) -> usize {
        for_unit!(
            self,
            unit => D::drive(unit, given, out, counter),
            held => held.drive::<D>(given, out, counter)
        )
    }

    fn look<K: Look>(&self, look: &K, out: &mut [i64]) -> K::Answer {
        for_unit!(self, unit => look.look(unit, out), held => held.look(look, out))
    }
}

impl Unit for BlockUnit {
    ghost unit = { state_of };

    fn feed<L: Ledger>(&mut self, frames: &[i32], out: &mut [i32], steps: &mut Steps<L>) -> usize {
        self.drive::<Feed<L>>(frames, out, steps)
    }

    fn pass<L: Ledger>(&mut self, frames: &[i32], steps: &mut Steps<L>) -> bool {
        self.drive::<Pass<L>>(frames, &mut [], steps) > 0
    }

    fn finish<L: Ledger>(&mut self, out: &mut [i32], steps: &mut Steps<L>) -> usize {
        self.drive::<Finish<L>>(&[], out, steps)
    }

    fn kept_count(&self) -> usize {
        self.look(&KeptCount, &mut [])
    }

    fn keep(&self, out: &mut [i64]) {
        self.look(&Keep, out)
    }

    fn place(&self, numbers: &[i64]) -> Option<u64> {
        self.look(&Place { numbers }, &mut [])
    }

    fn restore(&mut self, numbers: &[i64]) {
        self.drive::<Restore>(numbers, &mut [], &mut ());
    }

    fn measures(&self) -> usize {
        self.look(&Measures, &mut [])
    }

    fn measure(&self, number: u8, index: usize) -> Option<Measure> {
        self.look(&MeasureAt { number, index }, &mut [])
    }
}
