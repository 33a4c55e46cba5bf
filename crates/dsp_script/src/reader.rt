//! Reading a script.

ghost use Rattle.std.specs.Prelude.{◌≡◌, ◌||◌, ℕ, false, Some, Ok, Err, IfOk};
ghost use Rattle.dsp_defs.specs.declared.script.Script.{Script};
ghost use Rattle.dsp_defs.specs.declared.script_fault.ScriptFault.{ScriptFault};
ghost use Rattle.dsp_defs.specs.Table.{is_correlate};
ghost use Rattle.dsp_defs.specs.Grammar.{input_flow, Reads};
ghost use Rattle.dsp_defs.specs.Reading.{block_at, blocks_at, length_at, kind_at, input_at, script_at};
ghost use Rattle.dsp_defs.specs.Reading.{reading, first_fault};
ghost use Rattle.dsp_script.specs.Answers.{Gives, GivesUnlessMemory, parameters};

use crate::fault::ParseFault;
use crate::places::{byte, container, format, natural, next_block, word};
use crate::table::{INPUT_CONTAINERS, OUTPUT_CONTAINERS};
use crate::tables::ListSource;
use crate::token::Cursor;
use crate::{rows, table};
use dsp_defs::{
    Block, Blocks, Container, Flow, Input, InputKind, MAX_BLOCK_LENGTH, MAX_BLOCKS, MAX_CHANNELS,
    MAX_SCRIPT, MAX_VERSION, Script, ScriptFault, ScriptKind, Word,
};
use dsp_shape::input_flow;
use std::alloc::Global;

/// The parameters of a block, behind its word.
#[tactic(auto, unfolding(dsp_defs::specs::Reading::block_at))]
fn block(
    lists: &ListSource<'_>,
    cursor: &mut Cursor<'_>,
    word: Word,
    flow: Flow,
) -> Result<Block, ParseFault>
    ensures { GivesUnlessMemory (λ b. (b, cursor.new)) result
        (block_at lists.now.tables (parameters word flow) cursor.old) }
{
    match word {
        Word::Offset => rows::offset(cursor, flow),
        Word::Negate => Ok(Block::Negate),
        Word::Abs => Ok(Block::Abs),
        Word::Scale => rows::scale(cursor, flow),
        Word::Shift => rows::shift(cursor, flow),
        Word::Clip => rows::clip(cursor, flow),
        Word::To => rows::to(cursor, flow),
        Word::Add => Ok(Block::Add),
        Word::Sub => Ok(Block::Sub),
        Word::Mult => Ok(Block::Mult),
        Word::Conj => Ok(Block::Conj),
        Word::CmplxMult => Ok(Block::CmplxMult),
        Word::CmplxMultReal => Ok(Block::CmplxMultReal),
        Word::MagSquared => Ok(Block::MagSquared),
        Word::Fir => rows::fir(lists, cursor, flow),
        Word::Sparse => rows::sparse(lists, cursor, flow),
        Word::Decimate => rows::decimate(lists, cursor, flow),
        Word::Interpolate => rows::interpolate(lists, cursor, flow),
        Word::LatticeFir => rows::lattice_fir(lists, cursor, flow),
        Word::LatticeIir => rows::lattice_iir(lists, cursor, flow),
        Word::Biquad => rows::biquad(lists, cursor, flow),
        Word::Biquad64 => rows::biquad64(lists, cursor, flow),
        Word::Conv => rows::conv(lists, cursor, flow),
        Word::ConvPartial => rows::conv_partial(lists, cursor, flow),
        Word::Correlate => rows::correlate(lists, cursor, flow),
        Word::Lms => rows::lms(lists, cursor, flow),
        Word::Pid => rows::pid(cursor, flow),
        Word::MatAdd => rows::mat_add(lists, cursor, flow),
        Word::MatSub => rows::mat_sub(lists, cursor, flow),
        Word::MatScale => rows::mat_scale(cursor, flow),
        Word::MatTrans => rows::mat_trans(cursor, flow),
        Word::MatMult => rows::mat_mult(lists, cursor, flow),
        Word::Power => Ok(Block::Power),
        Word::Dot => Ok(Block::Dot),
        Word::CmplxDot => Ok(Block::CmplxDot),
        Word::Max => Ok(Block::Max),
        Word::Min => Ok(Block::Min),
        Word::Route => rows::route(lists, cursor, flow),
    }
}

/// A `correlate` stands before the next block.
fn correlated_after(correlated: bool, word: Word) -> bool
    ensures { result ≡ (correlated || is_correlate word) }
{
    correlated || table::is_correlate(word)
}

/// The blocks up to the output.
fn blocks(
    lists: &ListSource<'_>,
    cursor: &mut Cursor<'_>,
    input: Input,
) -> Result<Blocks, ParseFault>
    ensures { GivesUnlessMemory (λ b. (b, cursor.new)) result
        (blocks_at lists.now.tables MAX_BLOCKS false (input_flow input) cursor.old) }
{
    let mut blocks = Blocks::new(lists.alloc);
    let mut left = MAX_BLOCKS;
    let mut correlated = false;
    let mut flow = input_flow(input);
    while let Some(word) = next_block(cursor, left, correlated, flow)? {
        let block = block(lists, cursor, word, flow)?;
        left -= 1;
        correlated = correlated_after(correlated, word);
        flow = flow.after(&block);
        blocks.push(block)?;
    }
    Ok(blocks)
}

/// The block length, if there is one.
#[tactic(auto, unfolding(dsp_defs::specs::Reading::length_at))]
fn length(cursor: &mut Cursor<'_>) -> Result<Option<u32>, ScriptFault>
    ensures { Gives (λ n. (n, cursor.new)) result (length_at cursor.old) }
{
    if cursor.begins_with("block") {
        word(cursor, "block")?;
        let frames = natural(cursor, 1, MAX_BLOCK_LENGTH)?;
        Ok(Some(frames))
    } else {
        Ok(None)
    }
}

/// The rate of raw samples.
#[tactic(auto, unfolding(dsp_defs::specs::Reading::kind_at))]
fn kind(cursor: &mut Cursor<'_>, container: Container) -> Result<InputKind, ScriptFault>
    ensures { Gives (λ k. (k, cursor.new)) result (kind_at container cursor.old) }
{
    match container {
        Container::Raw => {
            let rate = natural(cursor, 1, u32::MAX)?;
            Ok(InputKind::Raw { rate })
        }
        _ => Ok(InputKind::Wave),
    }
}

/// The line of the input.
#[tactic(auto, unfolding(dsp_defs::specs::Reading::input_at))]
fn input(cursor: &mut Cursor<'_>) -> Result<Input, ScriptFault>
    ensures { Gives (λ i. (i, cursor.new)) result (input_at cursor.old) }
{
    word(cursor, "input")?;
    let container = container(cursor, &INPUT_CONTAINERS)?;
    let format = format(cursor)?;
    let channels = byte(cursor, 1, MAX_CHANNELS)?;
    let kind = kind(cursor, container)?;
    Ok(Input {
        kind,
        format,
        channels,
    })
}

/// A whole script.
#[tactic(auto, unfolding(dsp_defs::specs::Reading::script_at))]
fn script(alloc: Global, cursor: &mut Cursor<'_>) -> Result<Script, ParseFault>
    ensures { GivesUnlessMemory (λ s. s) result (script_at cursor.old) }
{
    word(cursor, "dspfx")?;
    let version = byte(cursor, 1, MAX_VERSION)?;
    let input = input(cursor)?;
    let block = length(cursor)?;
    let lists = ListSource::read(alloc, cursor, version)?;
    let blocks = blocks(&lists, cursor, input)?;
    let output = container(cursor, &OUTPUT_CONTAINERS)?;
    cursor.end()?;
    Ok(Script {
        version,
        input,
        block,
        blocks,
        output,
    })
}

#[tactic(auto, unfolding(dsp_defs::specs::Reading::reading))]
fn read(alloc: Global, text: &[u8]) -> Result<Script, ParseFault>
    ensures { GivesUnlessMemory (λ s. s) result (reading text.now) }
{
    if text.len() > MAX_SCRIPT {
        return Err(ParseFault::Script(ScriptFault {
            offset: MAX_SCRIPT as u64,
            kind: ScriptKind::TooLong,
        }));
    }
    script(alloc, &mut Cursor::new(text))
}

/// The script that a text of any bytes reads as, in version 1 or 2 of the language, or the text's first
/// fault: the first token, or the end, that can't stand after the tokens before it, with its
/// offset in bytes. A text of more than `MAX_SCRIPT` bytes is too long before all else. Want of memory
/// is `ParseFault::Memory`, and no fault of the text.
pub fn parse(alloc: Global, text: &[u8]) -> Result<Script, ParseFault>
    ensures reads { IfOk result (Reads text.now) }
    ensures fault { (f : ScriptFault) → result ≡ Err (ParseFault.Script f) → first_fault text.now ≡ Some f }

    // A text is answered by its script, or by its first fault, unless memory runs out.
    ensures read { (s : Script) → Reads text.now s → GivesUnlessMemory (λ s. s) result (Ok s) }
    ensures faulty { (f : ScriptFault) → first_fault text.now ≡ Some f
        → GivesUnlessMemory (λ s. s) result (Err f) }
{
    read(alloc, text)
}
