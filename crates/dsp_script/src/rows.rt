//! The rows of the table: the parameters of each block that has some, behind its word.
#![tactic(auto, unfolding(dsp_defs::specs::Reading::block_at))]

ghost use Rattle.dsp_defs.specs.Places.{Environment};
ghost use Rattle.dsp_defs.specs.Reading.{block_at};
ghost use Rattle.dsp_script.specs.Answers.{GivesUnlessMemory, parameters};

use crate::fault::ParseFault;
use crate::places::{byte, coefficient, conversion, factor, integer, list, natural, side};
use crate::rules;
use crate::tables::ListSource;
use crate::token::Cursor;
use dsp_defs::{Block, Flow, Word};

/// `offset VALUE`
pub fn offset(cursor: &mut Cursor<'_>, flow: Flow) -> Result<Block, ParseFault>
    ensures { (tables : Environment) → GivesUnlessMemory (λ b. (b, cursor.new)) result
        (block_at tables (parameters Word.Offset flow) cursor.old) }
{
    let value = coefficient(cursor, flow.format)?;
    Ok(Block::Offset { value })
}

/// `scale FRACT SHIFT`
pub fn scale(cursor: &mut Cursor<'_>, flow: Flow) -> Result<Block, ParseFault>
    ensures { (tables : Environment) → GivesUnlessMemory (λ b. (b, cursor.new)) result
        (block_at tables (parameters Word.Scale flow) cursor.old) }
{
    let fract = coefficient(cursor, flow.format)?;
    let least = rules::least_scale(flow.format);
    let greatest = rules::greatest_scale(flow.format);
    let shift = integer(cursor, least, greatest)?;
    Ok(Block::Scale { fract, shift })
}

/// `shift SHIFT`
pub fn shift(cursor: &mut Cursor<'_>, flow: Flow) -> Result<Block, ParseFault>
    ensures { (tables : Environment) → GivesUnlessMemory (λ b. (b, cursor.new)) result
        (block_at tables (parameters Word.Shift flow) cursor.old) }
{
    let least = rules::least_shift(flow.format);
    let greatest = rules::greatest_shift(flow.format);
    let shift = integer(cursor, least, greatest)?;
    Ok(Block::Shift { shift })
}

/// `clip LOW HIGH`
pub fn clip(cursor: &mut Cursor<'_>, flow: Flow) -> Result<Block, ParseFault>
    ensures { (tables : Environment) → GivesUnlessMemory (λ b. (b, cursor.new)) result
        (block_at tables (parameters Word.Clip flow) cursor.old) }
{
    let low = coefficient(cursor, flow.format)?;
    let high = integer(cursor, low, rules::greatest(flow.format))?;
    Ok(Block::Clip { low, high })
}

/// `to FORMAT`
pub fn to(cursor: &mut Cursor<'_>, flow: Flow) -> Result<Block, ParseFault>
    ensures { (tables : Environment) → GivesUnlessMemory (λ b. (b, cursor.new)) result
        (block_at tables (parameters Word.To flow) cursor.old) }
{
    let format = conversion(cursor, flow.format)?;
    Ok(Block::To { format })
}

/// `fir {TAPS}`
pub fn fir(lists: &ListSource<'_>, cursor: &mut Cursor<'_>, flow: Flow) -> Result<Block, ParseFault>
    ensures { GivesUnlessMemory (λ b. (b, cursor.new)) result
        (block_at lists.now.tables (parameters Word.Fir flow) cursor.old) }
{
    let taps = list(lists, cursor, rules::taps(flow, 1))?;
    Ok(Block::Fir { taps })
}

/// `sparse {TAPS} {DELAYS}`
pub fn sparse(
    lists: &ListSource<'_>,
    cursor: &mut Cursor<'_>,
    flow: Flow,
) -> Result<Block, ParseFault>
    ensures { GivesUnlessMemory (λ b. (b, cursor.new)) result
        (block_at lists.now.tables (parameters Word.Sparse flow) cursor.old) }
{
    let taps = list(lists, cursor, rules::sparse_taps(flow))?;
    let count = taps.as_slice().len() as u64;
    let delays = list(lists, cursor, rules::delays(count))?;
    Ok(Block::Sparse { taps, delays })
}

/// `decimate FACTOR {TAPS}`
pub fn decimate(
    lists: &ListSource<'_>,
    cursor: &mut Cursor<'_>,
    flow: Flow,
) -> Result<Block, ParseFault>
    ensures { GivesUnlessMemory (λ b. (b, cursor.new)) result
        (block_at lists.now.tables (parameters Word.Decimate flow) cursor.old) }
{
    let factor = factor(cursor)?;
    let taps = list(lists, cursor, rules::taps(flow, 1))?;
    Ok(Block::Decimate { factor, taps })
}

/// `interpolate FACTOR {TAPS}`
pub fn interpolate(
    lists: &ListSource<'_>,
    cursor: &mut Cursor<'_>,
    flow: Flow,
) -> Result<Block, ParseFault>
    ensures { GivesUnlessMemory (λ b. (b, cursor.new)) result
        (block_at lists.now.tables (parameters Word.Interpolate flow) cursor.old) }
{
    let factor = factor(cursor)?;
    let taps = list(lists, cursor, rules::taps(flow, u64::from(factor)))?;
    Ok(Block::Interpolate { factor, taps })
}

/// `lattice_fir {K}`
pub fn lattice_fir(
    lists: &ListSource<'_>,
    cursor: &mut Cursor<'_>,
    flow: Flow,
) -> Result<Block, ParseFault>
    ensures { GivesUnlessMemory (λ b. (b, cursor.new)) result
        (block_at lists.now.tables (parameters Word.LatticeFir flow) cursor.old) }
{
    let k = list(lists, cursor, rules::reflections(flow))?;
    Ok(Block::LatticeFir { k })
}

/// `lattice_iir {K} {V}`
pub fn lattice_iir(
    lists: &ListSource<'_>,
    cursor: &mut Cursor<'_>,
    flow: Flow,
) -> Result<Block, ParseFault>
    ensures { GivesUnlessMemory (λ b. (b, cursor.new)) result
        (block_at lists.now.tables (parameters Word.LatticeIir flow) cursor.old) }
{
    let k = list(lists, cursor, rules::reflections(flow))?;
    let count = k.as_slice().len() as u64 + 1;
    let v = list(lists, cursor, rules::exactly(flow, count))?;
    Ok(Block::LatticeIir { k, v })
}

/// `biquad POST_SHIFT {COEFFICIENTS}`
pub fn biquad(
    lists: &ListSource<'_>,
    cursor: &mut Cursor<'_>,
    flow: Flow,
) -> Result<Block, ParseFault>
    ensures { GivesUnlessMemory (λ b. (b, cursor.new)) result
        (block_at lists.now.tables (parameters Word.Biquad flow) cursor.old) }
{
    let post_shift = byte(cursor, 0, rules::greatest_biquad_shift(flow.format))?;
    let coefficients = list(lists, cursor, rules::sections(flow))?;
    Ok(Block::Biquad {
        post_shift,
        coefficients,
    })
}

/// `biquad64 POST_SHIFT {COEFFICIENTS}`
pub fn biquad64(
    lists: &ListSource<'_>,
    cursor: &mut Cursor<'_>,
    flow: Flow,
) -> Result<Block, ParseFault>
    ensures { GivesUnlessMemory (λ b. (b, cursor.new)) result
        (block_at lists.now.tables (parameters Word.Biquad64 flow) cursor.old) }
{
    let post_shift = byte(cursor, 0, 30)?;
    let coefficients = list(lists, cursor, rules::sections(flow))?;
    Ok(Block::Biquad64 {
        post_shift,
        coefficients,
    })
}

/// `conv {TAPS}`
pub fn conv(
    lists: &ListSource<'_>,
    cursor: &mut Cursor<'_>,
    flow: Flow,
) -> Result<Block, ParseFault>
    ensures { GivesUnlessMemory (λ b. (b, cursor.new)) result
        (block_at lists.now.tables (parameters Word.Conv flow) cursor.old) }
{
    let taps = list(lists, cursor, rules::taps(flow, 1))?;
    Ok(Block::Conv { taps })
}

/// `conv_partial FIRST COUNT {TAPS}`
pub fn conv_partial(
    lists: &ListSource<'_>,
    cursor: &mut Cursor<'_>,
    flow: Flow,
) -> Result<Block, ParseFault>
    ensures { GivesUnlessMemory (λ b. (b, cursor.new)) result
        (block_at lists.now.tables (parameters Word.ConvPartial flow) cursor.old) }
{
    let first = natural(cursor, 0, u32::MAX)?;
    let count = natural(cursor, 1, u32::MAX)?;
    let taps = list(lists, cursor, rules::taps(flow, 1))?;
    Ok(Block::ConvPartial { first, count, taps })
}

/// `correlate {TAPS}`
pub fn correlate(
    lists: &ListSource<'_>,
    cursor: &mut Cursor<'_>,
    flow: Flow,
) -> Result<Block, ParseFault>
    ensures { GivesUnlessMemory (λ b. (b, cursor.new)) result
        (block_at lists.now.tables (parameters Word.Correlate flow) cursor.old) }
{
    let taps = list(lists, cursor, rules::taps(flow, 1))?;
    Ok(Block::Correlate { taps })
}

/// `lms POST_SHIFT MU {TAPS}`
pub fn lms(lists: &ListSource<'_>, cursor: &mut Cursor<'_>, flow: Flow) -> Result<Block, ParseFault>
    ensures { GivesUnlessMemory (λ b. (b, cursor.new)) result
        (block_at lists.now.tables (parameters Word.Lms flow) cursor.old) }
{
    let post_shift = byte(cursor, 0, rules::greatest_lms_shift(flow.format))?;
    let mu = coefficient(cursor, flow.format)?;
    let taps = list(lists, cursor, rules::taps(flow, 1))?;
    Ok(Block::Lms {
        post_shift,
        mu,
        taps,
    })
}

/// `pid KP KI KD`
pub fn pid(cursor: &mut Cursor<'_>, flow: Flow) -> Result<Block, ParseFault>
    ensures { (tables : Environment) → GivesUnlessMemory (λ b. (b, cursor.new)) result
        (block_at tables (parameters Word.Pid flow) cursor.old) }
{
    let kp = coefficient(cursor, flow.format)?;
    let ki = coefficient(cursor, flow.format)?;
    let kd = coefficient(cursor, flow.format)?;
    Ok(Block::Pid { kp, ki, kd })
}

/// `mat_add ROWS COLUMNS {MATRIX}`
pub fn mat_add(
    lists: &ListSource<'_>,
    cursor: &mut Cursor<'_>,
    flow: Flow,
) -> Result<Block, ParseFault>
    ensures { GivesUnlessMemory (λ b. (b, cursor.new)) result
        (block_at lists.now.tables (parameters Word.MatAdd flow) cursor.old) }
{
    let rows = side(cursor)?;
    let columns = side(cursor)?;
    let count = u64::from(rows) * u64::from(columns);
    let matrix = list(lists, cursor, rules::exactly(flow, count))?;
    Ok(Block::MatAdd {
        rows,
        columns,
        matrix,
    })
}

/// `mat_sub ROWS COLUMNS {MATRIX}`
pub fn mat_sub(
    lists: &ListSource<'_>,
    cursor: &mut Cursor<'_>,
    flow: Flow,
) -> Result<Block, ParseFault>
    ensures { GivesUnlessMemory (λ b. (b, cursor.new)) result
        (block_at lists.now.tables (parameters Word.MatSub flow) cursor.old) }
{
    let rows = side(cursor)?;
    let columns = side(cursor)?;
    let count = u64::from(rows) * u64::from(columns);
    let matrix = list(lists, cursor, rules::exactly(flow, count))?;
    Ok(Block::MatSub {
        rows,
        columns,
        matrix,
    })
}

/// `mat_scale ROWS COLUMNS FRACT SHIFT`
pub fn mat_scale(cursor: &mut Cursor<'_>, flow: Flow) -> Result<Block, ParseFault>
    ensures { (tables : Environment) → GivesUnlessMemory (λ b. (b, cursor.new)) result
        (block_at tables (parameters Word.MatScale flow) cursor.old) }
{
    let rows = side(cursor)?;
    let columns = side(cursor)?;
    let fract = coefficient(cursor, flow.format)?;
    let least = rules::least_matrix_shift(flow.format);
    let greatest = rules::greatest_matrix_shift(flow.format);
    let shift = integer(cursor, least, greatest)?;
    Ok(Block::MatScale {
        rows,
        columns,
        fract,
        shift,
    })
}

/// `mat_trans ROWS COLUMNS`
pub fn mat_trans(cursor: &mut Cursor<'_>, flow: Flow) -> Result<Block, ParseFault>
    ensures { (tables : Environment) → GivesUnlessMemory (λ b. (b, cursor.new)) result
        (block_at tables (parameters Word.MatTrans flow) cursor.old) }
{
    let rows = side(cursor)?;
    let columns = side(cursor)?;
    Ok(Block::MatTrans { rows, columns })
}

/// `mat_mult ROWS COLUMNS GIVEN {MATRIX}`
pub fn mat_mult(
    lists: &ListSource<'_>,
    cursor: &mut Cursor<'_>,
    flow: Flow,
) -> Result<Block, ParseFault>
    ensures { GivesUnlessMemory (λ b. (b, cursor.new)) result
        (block_at lists.now.tables (parameters Word.MatMult flow) cursor.old) }
{
    let rows = side(cursor)?;
    let columns = side(cursor)?;
    let given = side(cursor)?;
    let count = u64::from(columns) * u64::from(given);
    let matrix = list(lists, cursor, rules::exactly(flow, count))?;
    Ok(Block::MatMult {
        rows,
        columns,
        given,
        matrix,
    })
}

/// `route {CHANNELS}`
pub fn route(
    lists: &ListSource<'_>,
    cursor: &mut Cursor<'_>,
    flow: Flow,
) -> Result<Block, ParseFault>
    ensures { GivesUnlessMemory (λ b. (b, cursor.new)) result
        (block_at lists.now.tables (parameters Word.Route flow) cursor.old) }
{
    let channels = list(lists, cursor, rules::routes(flow))?;
    Ok(Block::Route { channels })
}
