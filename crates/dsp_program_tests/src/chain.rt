ghost use Rattle.std.specs.Prelude.{◌≡◌, ◌≤◌, ◌+◌, ◌*◌, ◌/◌, None, [], ◌∷◌, ◌++◌, length, IsTrue};
ghost use Rattle.std.specs.Prelude.{IsFalse, All, FitsSigned};
ghost use Rattle.dsp_unit.specs.Line.{place_room, blocks_of};
ghost use Rattle.dsp_chain.specs.Chain.{output_of};
ghost use Rattle.dsp_defs.specs.Numbers.{w32};
ghost use Rattle.dsp_defs.specs.Grammar.{IsChain, correlates, input_flow};
ghost use Rattle.dsp_defs.specs.Shape.{is_legal};
ghost use Rattle.dsp_defs.specs.declared.limits.TheConstants.{MAX_BLOCKS, MAX_CORRELATES};
ghost use Rattle.dsp_defs.specs.declared.format.Fmt.TheVariants.{Q31};
ghost use Rattle.dsp_defs.specs.declared.script.Block.TheVariants.{Fir};

use crate::same::same_count;
use dsp_blocks::BlockUnit;
use dsp_chain::Chain;
use dsp_defs::{Block, Blocks, Container, Fmt, Input, InputKind, List, MAX_INPUT, Script, Steps};
use dsp_shape::frame_count;
use dsp_unit::AnyUnit;
use std::alloc::Global;
use std::marker::Brand;
use std::process::Abort;
use std::sync::ledger::{Blank, Ledger};

const HALF: i32 = 1 << 30;

const QUARTER: i32 = 1 << 29;

/// Stereo Q31 frames through these blocks.
fn stereo(blocks: Blocks) -> Script
    ensures blocks { result.blocks ≡ blocks }
    ensures format { result.input.format ≡ Q31 }
    ensures channels { result.input.channels ≡ 2 }
{
    Script {
        version: 1,
        input: Input {
            kind: InputKind::Wave,
            format: Fmt::Q31,
            channels: 2,
        },
        block: None,
        blocks,
        output: Container::Wave,
    }
}

/// Adds a `fir` of two taps behind the blocks.
fn push_fir(rt: &impl Abort, alloc: Global, blocks: &mut Blocks, first: i32, second: i32)
    ensures { blocks.new ≡ blocks.old ++ Fir (first ∷ second ∷ []) ∷ [] }
{
    let mut taps = List::new(alloc);
    taps.push(first).expect(rt, "memory");
    taps.push(second).expect(rt, "memory");
    blocks.push(Block::Fir { taps }).expect(rt, "memory");
}

/// The numbers, each seen to be a word.
fn words(rt: &impl Abort, alloc: Global, numbers: &[i32]) -> Vec<i32>
    ensures same { result.items ≡ numbers.now }
    ensures fits { All (FitsSigned w32) result.items }
{
    let mut words = Vec::new(alloc);
    for number in numbers {
        words.push(*number).expect(rt, "memory");
    }
    words
}

/// Feeds the chain one piece, and answers how many samples it gave, which stand at the front of `out`.
fn feed_piece<U: AnyUnit + Drop, L: Ledger>(
    rt: &impl Abort,
    alloc: Global,
    chain: &mut Chain<U>,
    piece: &[i32],
    out: &mut [i32],
    steps: &mut Steps<L>,
) -> usize
    requires running { IsFalse chain.old.ended }
    requires format { chain.old.input.format ≡ Q31 }
    requires channels { chain.old.input.channels ≡ 2 }
    requires room { place_room (output_of chain.old) ≤ length out.old }
    requires whole { length piece.now ≡ length piece.now / 2 * 2 }
    requires capacity { length piece.now / 2 ≤ chain.old.input.capacity }
    requires count { chain.old.frames + length piece.now / 2 ≤ MAX_INPUT }
    ensures running { IsFalse chain.new.ended }
    ensures works { chain.new.failed ≡ None }
    ensures input { chain.new.input ≡ chain.old.input }
    ensures blocks { blocks_of chain.new.units ≡ blocks_of chain.old.units }
    ensures frames { chain.new.frames ≡ chain.old.frames + length piece.now / 2 }
    ensures within { result ≤ length out.old }
{
    let samples = words(rt, alloc, piece);
    let Ok(given) = chain.feed(&samples, out, steps) else {
        panic!(rt; "no block gathers");
    };
    let Some(count) = given else {
        assert_holds!(rt; samples.len() <= out.len());
        out[..samples.len()].copy_from_slice(&samples);
        return samples.len();
    };
    count
}

/// Feeds a chain of the script the frames, `block` of them a call, and compares what it gives of them
/// and of their tail, which is none.
fn gives<U: AnyUnit + Drop, L: Ledger>(
    rt: &impl Abort,
    alloc: Global,
    blank: Blank,
    script: &Script,
    block: u64,
    frames: &[i32],
    wanted: &[i32],
)
    requires name { blank.name ≡ L.name }
    requires parts { blank.parts ≡ 2 }
    requires ledger_parts { L.parts ≡ 2 }
    requires format { script.now.input.format ≡ Q31 }
    requires channels { script.now.input.channels ≡ 2 }
    requires chain { IsChain (input_flow script.now.input) script.now.blocks }
    requires few_blocks { length script.now.blocks ≤ MAX_BLOCKS }
    requires one_correlate { correlates script.now.blocks ≤ MAX_CORRELATES }
    requires legal { IsTrue (is_legal 2 script.now.blocks block) }
{
    let mut steps = Steps::<L>::new(blank);
    let mut chain = Chain::<U>::new(alloc, script, block).expect(rt, "memory");
    let mut out = vec![in alloc; 0; chain.room()].expect(rt, "memory");
    let mut given = Vec::new(alloc);
    let mut taken = 0;
    for piece in frames.chunks(2 * block as usize) {
        assert_holds!(rt; piece.len() % 2 == 0);
        assert_holds!(rt; piece.len() as u64 <= 2 * block);
        let count = feed_piece(rt, alloc, &mut chain, piece, &mut out, &mut steps);
        taken += piece.len() as u64 / 2;
        assert_holds!(rt; taken < 100);
        given.extend_from_slice(&out[..count]).expect(rt, "memory");
    }
    assert_same!(rt; given.as_slice(), wanted);
    assert_holds!(rt; chain.window_fault(0).is_none());
    assert_same!(rt; chain.finish(&mut out, &mut steps), 0);
}

/// What a chain of the script keeps of two frames.
fn kept_of_two_frames<U: AnyUnit + Drop, L: Ledger>(
    rt: &impl Abort,
    alloc: Global,
    script: &Script,
    steps: &mut Steps<L>,
) -> Vec<i64>
    requires format { script.now.input.format ≡ Q31 }
    requires channels { script.now.input.channels ≡ 2 }
    requires chain { IsChain (input_flow script.now.input) script.now.blocks }
    requires few_blocks { length script.now.blocks ≤ MAX_BLOCKS }
    requires one_correlate { correlates script.now.blocks ≤ MAX_CORRELATES }
    requires legal { IsTrue (is_legal 2 script.now.blocks 2) }
{
    let mut chain = Chain::<U>::new(alloc, script, 2).expect(rt, "memory");
    let mut out = vec![in alloc; 0; chain.room()].expect(rt, "memory");
    let piece = [1000, 8, -1000, 3];
    let count = feed_piece(rt, alloc, &mut chain, &piece, &mut out, steps);
    assert_same!(rt; &out[..count], [250, 2, -125, 1].as_slice());
    let mut kept = vec![in alloc; 0; chain.kept_count()].expect(rt, "memory");
    chain.keep(&mut kept);
    kept
}

/// Feeds a chain of the script two frames, gives the numbers that it keeps of them to a new one, and feeds
/// that with the next frame.
fn resumes<U: AnyUnit + Drop, L: Ledger>(
    rt: &impl Abort,
    alloc: Global,
    blank: Blank,
    script: &Script,
)
    requires name { blank.name ≡ L.name }
    requires parts { blank.parts ≡ 2 }
    requires ledger_parts { L.parts ≡ 2 }
    requires format { script.now.input.format ≡ Q31 }
    requires channels { script.now.input.channels ≡ 2 }
    requires chain { IsChain (input_flow script.now.input) script.now.blocks }
    requires few_blocks { length script.now.blocks ≤ MAX_BLOCKS }
    requires one_correlate { correlates script.now.blocks ≤ MAX_CORRELATES }
    requires legal { IsTrue (is_legal 2 script.now.blocks 2) }
{
    let mut steps = Steps::<L>::new(blank);
    let kept = kept_of_two_frames::<U, L>(rt, alloc, script, &mut steps);
    // Each filter keeps the last frame that came to it, the left channel before the right one.
    same_count(rt, kept.len(), 4);
    assert_same!(rt; kept.as_slice(), [-1000, 3, -500, 1].as_slice());
    let mut next = Chain::<U>::new(alloc, script, 2).expect(rt, "memory");
    assert_holds!(rt; !next.fits(2, &kept[..3]));
    assert_holds!(rt; next.fits(2, &kept));
    next.restore(2, &kept);
    let mut out = vec![in alloc; 0; next.room()].expect(rt, "memory");
    let count = feed_piece(rt, alloc, &mut next, &[400, -16], &mut out, &mut steps);
    assert_same!(rt; &out[..count], [-25, -4].as_slice());
}

/// With one channel, with two and with more; a rest is no frame.
#[test]
fn samples_make_frames(rt: HostRuntime) {
    same_count(&rt, frame_count(7, 1), 7);
    same_count(&rt, frame_count(7, 2), 3);
    same_count(&rt, frame_count(7, 3), 2);
}

#[test]
fn a_new_chain_goes_on(rt: HostRuntime) {
    let alloc = rt.alloc();
    let mut blocks = Blocks::new(alloc);
    push_fir(&rt, alloc, &mut blocks, 0, HALF);
    push_fir(&rt, alloc, &mut blocks, QUARTER, HALF);
    resumes::<BlockUnit, Brand>(&rt, alloc, Blank::new(2), &stereo(blocks));
}

#[test]
fn two_filters_in_any_blocks(rt: HostRuntime) {
    let alloc = rt.alloc();
    let mut blocks = Blocks::new(alloc);
    push_fir(&rt, alloc, &mut blocks, 0, HALF);
    push_fir(&rt, alloc, &mut blocks, QUARTER, HALF);
    let script = stereo(blocks);
    for block in 1..4 {
        // Half of the frames is 500 4, -500 1, 200 -8; then half of each and a quarter of the one before.
        gives::<BlockUnit, Brand>(
            &rt,
            alloc,
            Blank::new(2),
            &script,
            block,
            &[1000, 8, -1000, 3, 400, -16],
            &[250, 2, -125, 1, -25, -4],
        );
    }
}

#[test]
fn no_blocks_pass_frames_on(rt: HostRuntime) {
    let alloc = rt.alloc();
    let script = stereo(Blocks::new(alloc));
    gives::<BlockUnit, Brand>(
        &rt,
        alloc,
        Blank::new(2),
        &script,
        2,
        &[1, 2, 3, 4, 5, 6],
        &[1, 2, 3, 4, 5, 6],
    );
}
