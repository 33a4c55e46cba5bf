//! Printing a script.

ghost use Rattle.std.specs.Prelude.{◌≡◌, ◌++◌, OnOk, IfOk, codes, [], ◌∷◌, pos, map};
ghost use Rattle.std.specs.String.{string_bytes};
ghost use Rattle.std.specs.Fmt.{signed_decimal};
ghost use Rattle.std.specs.List.{flat_map, join_by};
ghost use Rattle.dsp_defs.specs.Table.{format_name};
ghost use Rattle.dsp_defs.specs.Grammar.{Name, Numeral, Whole, argument_symbol, arguments, block_symbols};
ghost use Rattle.dsp_defs.specs.Grammar.{rate_symbols, input_symbols, length_symbols, output_symbols};
ghost use Rattle.dsp_defs.specs.Canon.{symbol_text, line_of, canon};
ghost use Rattle.dsp_script.specs.Printed.{behind_spaces};

use crate::table;
use dsp_defs::{Block, Container, Fmt, Input, InputKind, List, Script};
use std::alloc::{AllocError, Global};
use std::fmt::Write;

/// Each number, behind a space.
fn spaced(out: &mut String, numbers: &[i32]) -> Result<(), AllocError>
    ensures { OnOk result (string_bytes out.new ≡ string_bytes out.old ++ flat_map
        (λ n. codes " " ++ signed_decimal n) numbers.now) }
{
    for number in numbers {
        write!(out, " {number}")?;
    }
    Ok(())
}

/// Numbers with a space between them.
fn joined(out: &mut String, numbers: &[i32]) -> Result<(), AllocError>
    ensures { OnOk result (string_bytes out.new ≡ string_bytes out.old ++ join_by signed_decimal
        (codes " ") numbers.now) }
{
    let Some((first, others)) = numbers.split_first() else {
        return Ok(());
    };
    write!(out, "{first}")?;
    spaced(out, others)
}

/// Numbers in braces.
fn braced(out: &mut String, numbers: &[i32]) -> Result<(), AllocError>
    ensures { OnOk result (string_bytes out.new ≡ string_bytes out.old ++ symbol_text
        (Whole numbers.now)) }
{
    out.push_str("{")?;
    joined(out, numbers)?;
    out.push_str("}")
}

/// A number as an argument.
fn number(out: &mut String, n: i64) -> Result<(), AllocError>
    ensures { OnOk result (string_bytes out.new ≡ string_bytes out.old ++ behind_spaces (Numeral n ∷ [])) }
{
    write!(out, " {n}")?;
    Ok(())
}

/// Two numbers as arguments.
fn pair(out: &mut String, first: i64, second: i64) -> Result<(), AllocError>
    ensures { OnOk result (string_bytes out.new ≡ string_bytes out.old ++ behind_spaces
        (Numeral first ∷ Numeral second ∷ [])) }
{
    write!(out, " {first} {second}")?;
    Ok(())
}

/// Three numbers as arguments.
fn triple(out: &mut String, first: i64, second: i64, third: i64) -> Result<(), AllocError>
    ensures { OnOk result (string_bytes out.new ≡ string_bytes out.old ++ behind_spaces
        (Numeral first ∷ Numeral second ∷ Numeral third ∷ [])) }
{
    number(out, first)?;
    pair(out, second, third)
}

/// Four numbers as arguments.
fn quadruple(
    out: &mut String,
    first: i64,
    second: i64,
    third: i64,
    fourth: i64,
) -> Result<(), AllocError>
    ensures { OnOk result (string_bytes out.new ≡ string_bytes out.old ++ behind_spaces
        (Numeral first ∷ Numeral second ∷ Numeral third ∷ Numeral fourth ∷ [])) }
{
    write!(out, " {first} {second} {third} {fourth}")?;
    Ok(())
}

/// A format as an argument.
fn format(out: &mut String, format: Fmt) -> Result<(), AllocError>
    ensures { OnOk result (string_bytes out.new ≡ string_bytes out.old ++ behind_spaces
        (Name (format_name format) ∷ [])) }
{
    out.push_str(" ")?;
    out.push_str(table::format_name(format))
}

/// A list as an argument.
fn list(out: &mut String, numbers: &List) -> Result<(), AllocError>
    ensures { OnOk result (string_bytes out.new ≡ string_bytes out.old ++ behind_spaces
        (Whole numbers.now ∷ [])) }
{
    out.push_str(" ")?;
    braced(out, numbers.as_slice())
}

/// Two lists as arguments.
fn lists(out: &mut String, first: &List, second: &List) -> Result<(), AllocError>
    ensures { OnOk result (string_bytes out.new ≡ string_bytes out.old ++ behind_spaces
        (Whole first.now ∷ Whole second.now ∷ [])) }
{
    list(out, first)?;
    list(out, second)
}

/// A number and a list as arguments.
fn number_and_list(out: &mut String, n: u8, numbers: &List) -> Result<(), AllocError>
    ensures { OnOk result (string_bytes out.new ≡ string_bytes out.old ++ behind_spaces
        (Numeral (pos n) ∷ Whole numbers.now ∷ [])) }
{
    number(out, i64::from(n))?;
    list(out, numbers)
}

/// Two numbers and a list as arguments.
fn pair_and_list(
    out: &mut String,
    first: i64,
    second: i64,
    numbers: &List,
) -> Result<(), AllocError>
    ensures { OnOk result (string_bytes out.new ≡ string_bytes out.old ++ behind_spaces
        (Numeral first ∷ Numeral second ∷ Whole numbers.now ∷ [])) }
{
    pair(out, first, second)?;
    list(out, numbers)
}

/// The sides of a matrix, and the matrix.
fn matrix(out: &mut String, rows: u8, columns: u8, matrix: &List) -> Result<(), AllocError>
    ensures { OnOk result (string_bytes out.new ≡ string_bytes out.old ++ behind_spaces
        (Numeral (pos rows) ∷ Numeral (pos columns) ∷ Whole matrix.now ∷ [])) }
{
    pair_and_list(out, i64::from(rows), i64::from(columns), matrix)
}

/// The arguments of a block.
fn arguments(out: &mut String, block: &Block) -> Result<(), AllocError>
    ensures { OnOk result (string_bytes out.new ≡ string_bytes out.old ++ behind_spaces
        (map argument_symbol (arguments block.now))) }
{
    match block {
        Block::Offset { value } => number(out, i64::from(*value)),
        Block::Scale { fract, shift } => pair(out, i64::from(*fract), i64::from(*shift)),
        Block::Shift { shift } => number(out, i64::from(*shift)),
        Block::Clip { low, high } => pair(out, i64::from(*low), i64::from(*high)),
        Block::To { format: target } => format(out, *target),
        Block::Fir { taps } | Block::Conv { taps } | Block::Correlate { taps } => list(out, taps),
        Block::LatticeFir { k } => list(out, k),
        Block::Route { channels } => list(out, channels),
        Block::Sparse { taps, delays } => lists(out, taps, delays),
        Block::LatticeIir { k, v } => lists(out, k, v),
        Block::Decimate { factor, taps } | Block::Interpolate { factor, taps } => {
            number_and_list(out, *factor, taps)
        }
        Block::Biquad {
            post_shift,
            coefficients,
        }
        | Block::Biquad64 {
            post_shift,
            coefficients,
        } => number_and_list(out, *post_shift, coefficients),
        Block::ConvPartial { first, count, taps } => {
            pair_and_list(out, i64::from(*first), i64::from(*count), taps)
        }
        Block::Lms {
            post_shift,
            mu,
            taps,
        } => pair_and_list(out, i64::from(*post_shift), i64::from(*mu), taps),
        Block::Pid { kp, ki, kd } => triple(out, i64::from(*kp), i64::from(*ki), i64::from(*kd)),
        Block::MatAdd {
            rows,
            columns,
            matrix: entries,
        }
        | Block::MatSub {
            rows,
            columns,
            matrix: entries,
        } => matrix(out, *rows, *columns, entries),
        Block::MatScale {
            rows,
            columns,
            fract,
            shift,
        } => quadruple(
            out,
            i64::from(*rows),
            i64::from(*columns),
            i64::from(*fract),
            i64::from(*shift),
        ),
        Block::MatTrans { rows, columns } => pair(out, i64::from(*rows), i64::from(*columns)),
        Block::MatMult {
            rows,
            columns,
            given,
            matrix: entries,
        } => {
            number(out, i64::from(*rows))?;
            matrix(out, *columns, *given, entries)
        }
        _ => Ok(()),
    }
}

/// The line of a block.
fn block(out: &mut String, block: &Block) -> Result<(), AllocError>
    ensures { OnOk result (string_bytes out.new ≡ string_bytes out.old ++ line_of (block_symbols block.now)) }
{
    out.push_str(table::row_of(table::word_of(block)).name)?;
    arguments(out, block)?;
    out.push_str("\n")
}

/// The lines of the blocks.
fn blocks(out: &mut String, blocks: &[Block]) -> Result<(), AllocError>
    ensures { OnOk result (string_bytes out.new ≡ string_bytes out.old ++ flat_map
        (λ b. line_of (block_symbols b)) blocks.now) }
{
    for each in blocks {
        block(out, each)?;
    }
    Ok(())
}

/// The rate of raw samples, as it ends the line of the input.
fn rate(out: &mut String, kind: InputKind) -> Result<(), AllocError>
    ensures { OnOk result (string_bytes out.new ≡ string_bytes out.old ++ behind_spaces (rate_symbols kind)) }
{
    if let InputKind::Raw { rate } = kind {
        write!(out, " {rate}")?;
    }
    Ok(())
}

/// The line of the input.
fn input(out: &mut String, input: &Input) -> Result<(), AllocError>
    ensures { OnOk result (string_bytes out.new ≡ string_bytes out.old ++ line_of (input_symbols input.now)) }
{
    let container = table::container_name(input.kind.container());
    let format = table::format_name(input.format);
    let channels = input.channels;
    write!(out, "input {container} {format} {channels}")?;
    rate(out, input.kind)?;
    out.push_str("\n")
}

/// The line of the block length, where there is one.
fn length(out: &mut String, block: Option<u32>) -> Result<(), AllocError>
    ensures { OnOk result (string_bytes out.new ≡ string_bytes out.old ++ line_of (length_symbols block)) }
{
    if let Some(frames) = block {
        write!(out, "block {frames}\n")?;
    }
    Ok(())
}

/// The line of the output.
fn output(out: &mut String, output: Container) -> Result<(), AllocError>
    ensures { OnOk result (string_bytes out.new ≡ string_bytes out.old ++ line_of (output_symbols output)) }
{
    let container = table::container_name(output);
    write!(out, "output {container}\n")?;
    Ok(())
}

/// The canonical text of a script: one line each for the version, the input, the block length if
/// there is one, each block and the output, each ended by a line feed, with one space between two
/// tokens and none next to a brace.
pub fn print(alloc: Global, script: &Script) -> Result<Vec<u8>, AllocError>
    ensures { IfOk result (λ text. text.items ≡ canon script.now) }
{
    let mut out = String::new(alloc);
    let version = script.version;
    write!(out, "dspfx {version}\n")?;
    input(&mut out, &script.input)?;
    length(&mut out, script.block)?;
    blocks(&mut out, script.blocks.as_slice())?;
    output(&mut out, script.output)?;
    Ok(out.into_bytes())
}
