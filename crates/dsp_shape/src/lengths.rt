//! The block lengths that a script may have, and the frames and products of a run.

ghost use Rattle.std.specs.Prelude.{◌≡◌, ℕ, ◌*◌, ◌/◌, ◌<◌, ◌≤◌, ◌^◌, false, length, IfSome, IfNone};
ghost use Rattle.dsp_defs.specs.Grammar.{IsSound};
ghost use Rattle.dsp_defs.specs.Shape.{gcd, group_of, given_frames};
ghost use Rattle.dsp_defs.specs.Shape.{frames_given, pace_after, whole_unit, fits_everywhere};
ghost use Rattle.dsp_defs.specs.Shape.{is_legal, unit, default_block};
ghost use Rattle.dsp_defs.specs.Cost.{section_count, block_cost, cost};
ghost use Rattle.dsp_unit.specs.Unit.{most_frames};
ghost use Rattle.dsp_shape.specs.FrameRule.{IsRule, rule_of};
ghost use Rattle.dsp_shape.specs.Lengths.{HasLegalBlock, IsGroup, IsSmall, is_small};

use crate::frame_rule::FrameRule;
use crate::output::input_flow;
use dsp_defs::{
    Block, DEFAULT_BLOCK_LENGTH, Flow, Fmt, List, MAX_BLOCK_LENGTH, MAX_INPUT, MAX_SAMPLES, Script,
};
use std::marker::Model;

/// The greatest common divisor.
fn gcd(mut a: u64, mut b: u64) -> u64
    ensures value { result ≡ gcd a b }
    ensures some { 0 < b → 0 < result }
{
    while b != 0 {
        let rest = a % b;
        a = b;
        b = rest;
    }
    a
}

/// The frames that a block is to give of so many: a partial convolution gives all of its window.
pub fn given_frames(block: &Block, frames: u64) -> u64
    requires group { IsGroup (group_of block.now) }
    requires few { given_frames block.now frames < 2 ^ 63 }
    ensures { result ≡ given_frames block.now frames }
{
    FrameRule::of(block).given(frames)
}

/// The most frames that a block gives in a call of at most so many.
pub fn most_frames(block: &Block, frames: usize) -> usize
    requires groups { IfSome (group_of block.now) (λ g. 0 < g.0) }
    requires fits { most_frames block.now frames < 2 ^ 64 }
    ensures { result ≡ most_frames block.now frames }
{
    FrameRule::of(block).most(frames as u64) as usize
}

/// The unit so far, and the frames that so many input frames give here.
#[derive(Drop)]
struct Pace {
    unit: u64,
    frames: u64,
}

impl Model for Pace {
    ghost use Rattle.dsp_defs.specs.Shape.{Pace as Paced};

    ghost Value = { Paced };

    ghost view = { λ pace. record { unit = pace.unit; frames = pace.frames } };
}

impl Pace {
    /// At the input of a chain.
    fn new() -> Pace
        ensures { result ≡ record { unit = 1; frames = 1 } }
    {
        Pace { unit: 1, frames: 1 }
    }

    /// After a block.
    fn after(self, block: &Block) -> Pace
        requires rule { IsRule (rule_of block.now) }
        requires small { IsSmall self }
        ensures { result ≡ pace_after self block.now }
    {
        let Pace { unit, frames } = self;
        let (taken, given) = FrameRule::of(block).groups();
        let times = taken / gcd(frames, taken);
        Pace {
            unit: unit * times,
            frames: frames * times / taken * given,
        }
    }

    /// A legal block may have this pace.
    fn is_small(&self) -> bool
        ensures { result ≡ is_small self.now }
    {
        self.unit <= u64::from(MAX_BLOCK_LENGTH) && self.frames <= MAX_SAMPLES as u64
    }
}

/// The least number of input frames at which each group of the chain is whole, or none where no
/// block length is legal.
fn whole_unit(script: &Script) -> Option<u64>
    requires { IsSound script.now }
    ensures found { IfSome result (λ unit. unit ≡ whole_unit script.now.blocks) }
    ensures range { IfSome result (λ unit. (1 ≤ unit) × (unit ≤ MAX_BLOCK_LENGTH)) }
    ensures none { IfNone result ((length : ℕ)
        → is_legal script.now.input.channels script.now.blocks length ≡ false) }
{
    let mut pace = Pace::new();
    for block in script.blocks.as_slice() {
        pace = pace.after(block);
        if !pace.is_small() {
            return None;
        }
    }
    Some(pace.unit)
}

/// At each place the samples of a block of so many frames are within the limit.
fn fits_everywhere(script: &Script, mut frames: u64) -> bool
    requires sound { IsSound script.now }
    requires few { frames ≤ MAX_BLOCK_LENGTH }
    ensures { result ≡ fits_everywhere script.now.input.channels script.now.blocks frames }
{
    let mut flow = input_flow(script.input);
    for block in script.blocks.as_slice() {
        if frames * u64::from(flow.channels) > MAX_SAMPLES as u64 {
            return false;
        }
        frames = FrameRule::of(block).steady(frames);
        flow = flow.after(block);
    }
    frames * u64::from(flow.channels) <= MAX_SAMPLES as u64
}

/// A block length is legal where this is the unit.
fn is_legal(script: &Script, unit: u64, block: u64) -> bool
    requires sound { IsSound script.now }
    requires unit { unit ≡ whole_unit script.now.blocks }
    requires some { 1 ≤ unit }
    ensures { result ≡ is_legal script.now.input.channels script.now.blocks block }
{
    if block < 1 || block > u64::from(MAX_BLOCK_LENGTH) {
        return false;
    }
    block % unit == 0 && fits_everywhere(script, block)
}

/// The least block length of a script, in frames: the least number of input frames at which each
/// group of a decimator or a matrix block is whole. It is 0 where no block length is legal.
pub fn unit(script: &Script) -> u64
    requires { IsSound script.now }
    ensures { result ≡ unit script.now.input.channels script.now.blocks }
{
    match whole_unit(script) {
        Some(unit) if is_legal(script, unit, unit) => unit,
        _ => 0,
    }
}

/// A run may take blocks of so many frames: 1 to 65,536, a multiple of the unit, and at most
/// `MAX_SAMPLES` samples at each place of the chain.
pub fn legal(script: &Script, block: u64) -> bool
    requires { IsSound script.now }
    ensures { result ≡ is_legal script.now.input.channels script.now.blocks block }
{
    match whole_unit(script) {
        Some(unit) => is_legal(script, unit, block),
        None => false,
    }
}

/// The block length, in frames, of a run that names none: the least multiple of the unit that is
/// at least 256, where it is legal, else the unit.
pub fn default_block(script: &Script) -> u64
    requires { IsSound script.now }
    ensures { result ≡ default_block script.now.input.channels script.now.blocks }
{
    let Some(unit) = whole_unit(script) else {
        return 0;
    };
    let length = u64::from(DEFAULT_BLOCK_LENGTH).div_ceil(unit) * unit;
    if is_legal(script, unit, length) {
        return length;
    }
    if is_legal(script, unit, unit) {
        unit
    } else {
        0
    }
}

/// The frames that a run gives of so many frames of input.
pub fn frames_given(script: &Script, mut frames: u64) -> u64
    requires sound { IsSound script.now }
    requires legal { HasLegalBlock script.now }
    requires taken { frames ≤ MAX_INPUT }
    ensures { result ≡ frames_given script.now.blocks frames }
{
    for block in script.blocks.as_slice() {
        frames = given_frames(block, frames);
    }
    frames
}

/// The numbers of a list.
fn count_of(list: &List) -> u128
    ensures value { result ≡ length list.now }
    ensures range { result < 2 ^ 64 }
{
    list.as_slice().len() as u128
}

/// The sections that a list of biquad coefficients has.
fn section_count(format: Fmt, coefficients: &List) -> u128
    ensures value { result ≡ section_count format coefficients.now }
    ensures range { result < 2 ^ 62 }
{
    match format {
        Fmt::Q15 => count_of(coefficients) / 6,
        _ => count_of(coefficients) / 5,
    }
}

/// The products of a block that takes and gives so many frames.
fn block_cost(flow: Flow, block: &Block, taken: u64, given: u64) -> u128
    requires group { IsGroup (group_of block.now) }
    requires few { block_cost flow.format flow.channels block.now taken given < 2 ^ 127 }
    ensures { result ≡ block_cost flow.format flow.channels block.now taken given }
{
    let frames = u128::from(taken);
    let samples = u128::from(flow.channels) * frames;
    let outputs = u128::from(flow.channels) * u128::from(given);
    match block {
        Block::Scale { .. } | Block::Power => samples,
        Block::MatScale { .. } => outputs,
        Block::Mult | Block::Dot => frames,
        Block::CmplxMultReal | Block::MagSquared => 2 * frames,
        Block::CmplxMult | Block::CmplxDot => 4 * frames,
        Block::Pid { .. } => samples * 3,
        Block::Fir { taps } | Block::Correlate { taps } => samples * count_of(taps),
        Block::Sparse { taps, .. } | Block::Interpolate { taps, .. } => samples * count_of(taps),
        Block::Conv { taps } => outputs * count_of(taps),
        Block::Decimate { taps, .. } | Block::ConvPartial { taps, .. } => outputs * count_of(taps),
        Block::LatticeFir { k } => samples * (2 * count_of(k)),
        Block::LatticeIir { k, .. } => samples * (3 * count_of(k) + 1),
        Block::Biquad { coefficients, .. } | Block::Biquad64 { coefficients, .. } => {
            samples * (5 * section_count(flow.format, coefficients))
        }
        Block::Lms { taps, .. } => frames * (2 * count_of(taps) + 1),
        Block::MatMult {
            rows,
            columns,
            given,
            ..
        } => matrix_cost(flow.channels, frames, *rows, *columns, *given),
        _ => 0,
    }
}

/// The products of matrices of so many rows and columns by one that gives so many columns.
fn matrix_cost(channels: u8, frames: u128, rows: u8, columns: u8, given: u8) -> u128
    requires group { 1 ≤ rows * columns }
    requires few { frames < 2 ^ 64 }
    requires fits { channels * (frames / (rows * columns)) * rows * columns * given < 2 ^ 127 }
    ensures { result ≡ channels * (frames / (rows * columns)) * rows * columns * given }
{
    let rows = u128::from(rows);
    let columns = u128::from(columns);
    u128::from(channels) * (frames / (rows * columns)) * rows * columns * u128::from(given)
}

/// The products of a run over so many frames of input: the sum over the blocks, each by the frames
/// that it takes and gives.
pub fn cost(script: &Script, mut frames: u64) -> u128
    requires sound { IsSound script.now }
    requires legal { HasLegalBlock script.now }
    requires taken { frames ≤ MAX_INPUT }
    ensures { result ≡ cost script.now.input.format script.now.input.channels script.now.blocks frames }
{
    let mut flow = input_flow(script.input);
    let mut total = 0;
    for block in script.blocks.as_slice() {
        let given = given_frames(block, frames);
        total += block_cost(flow, block, frames, given);
        frames = given;
        flow = flow.after(block);
    }
    total
}
