//! The places of a text: what is wanted there is read, or its fault is answered.

ghost use Rattle.std.specs.Prelude.{◌≡◌, ◌≤◌, ◌≤ℤ◌, ◌<◌, IfOk, IfSome};
ghost use Rattle.std.specs.Option.{option_map};
ghost use Rattle.dsp_defs.specs.Parameters.{least, greatest};
ghost use Rattle.dsp_defs.specs.Places.{next_at, choice, named, number, natural_at, next_number, list_end};
ghost use Rattle.dsp_defs.specs.Places.{judged, opening, entry, entries_at, list_at, conversion};
ghost use Rattle.dsp_defs.specs.Reading.{next_block};
ghost use Rattle.dsp_defs.specs.Table.{by_name, every_format, format_name, container_name};
ghost use Rattle.dsp_script.specs.Answers.{Gives, GivesUnlessMemory};

use crate::fault::ParseFault;
use crate::tables::ListSource;
use crate::token::{Cursor, Item, Token};
use crate::{numeral, rules, table};
use dsp_defs::{
    Container, Flow, Fmt, List, ListRule, MAX_BLOCKS, MAX_CORRELATES, MAX_FACTOR, MAX_MATRIX_SIDE,
    ScriptFault, ScriptKind, Word,
};
use std::alloc::{AllocError, Global};

/// This word.
#[tactic(auto, unfolding(dsp_defs::specs::Places::next_at))]
pub fn word(cursor: &mut Cursor<'_>, name: &str) -> Result<(), ScriptFault>
    ensures { Gives (λ _. (tt, cursor.new)) result (next_at (choice (named name.now)) cursor.old) }
{
    let item = cursor.token()?;
    match item.token {
        Token::Run(run) if run == name.as_bytes() => Ok(()),
        _ => Err(item.fault(ScriptKind::UnknownWord)),
    }
}

/// A format's word.
#[tactic(auto, unfolding(dsp_defs::specs::Places::next_at))]
pub fn format(cursor: &mut Cursor<'_>) -> Result<Fmt, ScriptFault>
    ensures { Gives (λ f. (f, cursor.new)) result
        (next_at (choice (by_name format_name every_format)) cursor.old) }
{
    let item = cursor.token()?;
    if let Token::Run(run) = item.token {
        if let Some(format) = table::format_by_name(run) {
            return Ok(format);
        }
    }
    Err(item.fault(ScriptKind::UnknownWord))
}

/// The word of one of these containers.
#[tactic(auto, unfolding(dsp_defs::specs::Places::next_at))]
pub fn container(
    cursor: &mut Cursor<'_>,
    containers: &[Container],
) -> Result<Container, ScriptFault>
    ensures { Gives (λ c. (c, cursor.new)) result
        (next_at (choice (by_name container_name containers.now)) cursor.old) }
{
    let item = cursor.token()?;
    if let Token::Run(run) = item.token {
        if let Some(container) = table::container_by_name(containers, run) {
            return Ok(container);
        }
    }
    Err(item.fault(ScriptKind::UnknownWord))
}

/// A number in a range.
#[tactic(auto, unfolding(dsp_defs::specs::Places::next_at))]
pub fn number(cursor: &mut Cursor<'_>, low: i64, high: i64) -> Result<i64, ScriptFault>
    ensures value { Gives (λ n. (n, cursor.new)) result (next_at (number low high) cursor.old) }
    ensures range { IfOk result (λ n. (low ≤ℤ n) × (n ≤ℤ high)) }
{
    let item = cursor.token()?;
    if let Token::Run(run) = item.token {
        if let Some(value) = numeral::value(run) {
            if i128::from(low) <= value && value <= i128::from(high) {
                return Ok(value as i64);
            }
            return Err(item.fault(ScriptKind::OutOfRange { low, high }));
        }
    }
    Err(item.fault(ScriptKind::BadNumber))
}

/// A number in a range that has no negative ones.
#[tactic(auto, unfolding(dsp_defs::specs::Places::natural_at))]
pub fn natural(cursor: &mut Cursor<'_>, low: u32, high: u32) -> Result<u32, ScriptFault>
    ensures value { Gives (λ n. (n, cursor.new)) result (natural_at low high cursor.old) }
    ensures range { IfOk result (λ n. (low ≤ n) × (n ≤ high)) }
{
    let value = number(cursor, i64::from(low), i64::from(high))?;
    Ok(value as u32)
}

/// A number in a range within that of `u8`.
pub fn byte(cursor: &mut Cursor<'_>, low: u8, high: u8) -> Result<u8, ScriptFault>
    ensures { Gives (λ n. (n, cursor.new)) result (natural_at low high cursor.old) }
{
    let value = natural(cursor, u32::from(low), u32::from(high))?;
    Ok(value as u8)
}

/// A number in a range within that of `i32`.
#[tactic(auto, unfolding(dsp_defs::specs::Places::next_at))]
pub fn integer(cursor: &mut Cursor<'_>, low: i32, high: i32) -> Result<i32, ScriptFault>
    ensures { Gives (λ n. (n, cursor.new)) result (next_at (number low high) cursor.old) }
{
    let value = number(cursor, i64::from(low), i64::from(high))?;
    Ok(value as i32)
}

/// A number of the format's word.
pub fn coefficient(cursor: &mut Cursor<'_>, format: Fmt) -> Result<i32, ScriptFault>
    ensures { Gives (λ n. (n, cursor.new)) result
        (next_at (number (least format) (greatest format)) cursor.old) }
{
    integer(cursor, rules::least(format), rules::greatest(format))
}

/// A side of a matrix.
pub fn side(cursor: &mut Cursor<'_>) -> Result<u8, ScriptFault>
    ensures { Gives (λ n. (n, cursor.new)) result (natural_at 1 MAX_MATRIX_SIDE cursor.old) }
{
    byte(cursor, 1, MAX_MATRIX_SIDE)
}

/// The factor of a decimator or an interpolator.
pub fn factor(cursor: &mut Cursor<'_>) -> Result<u8, ScriptFault>
    ensures { Gives (λ n. (n, cursor.new)) result (natural_at 1 MAX_FACTOR cursor.old) }
{
    byte(cursor, 1, MAX_FACTOR)
}

/// A number as the next of a list that has `count` numbers, at the place of an item.
fn next_number(item: &Item<'_>, rule: ListRule, count: u64, value: i128) -> Result<i32, ScriptFault>
    ensures value { Gives (λ n. n) result (next_number rule count item.now.offset value) }
    ensures room { IfOk result (λ _. count < rule.limit) }
{
    if rule.limit <= count {
        return Err(item.fault(ScriptKind::TooMany { limit: rule.limit }));
    }
    if i128::from(rule.low) <= value && value <= i128::from(rule.high) {
        return Ok(value as i32);
    }
    Err(item.fault(ScriptKind::OutOfRange {
        low: i64::from(rule.low),
        high: i64::from(rule.high),
    }))
}

/// The end of a list that has `count` numbers, at the place of an item.
fn list_end(item: &Item<'_>, rule: ListRule, count: u64) -> Result<(), ScriptFault>
    ensures { Gives (λ _. tt) result (list_end rule count item.now.offset) }
{
    if rules::is_complete(rule.count, count) {
        Ok(())
    } else {
        Err(item.fault(ScriptKind::Length {
            taps: count,
            factor: rules::factor_of(rule.count),
        }))
    }
}

/// The numbers of a list and its end, all at the place of an item.
#[tactic(auto, unfolding(dsp_defs::specs::Places::judged))]
fn judged(item: &Item<'_>, rule: ListRule, numbers: &[i32]) -> Result<(), ScriptFault>
    ensures { Gives (λ _. tt) result (judged rule 0 item.now.offset numbers.now) }
{
    for (count, number) in numbers.iter().enumerate() {
        next_number(item, rule, count as u64, i128::from(*number))?;
    }
    list_end(item, rule, numbers.len() as u64)
}

/// The brace that opens a list, or the numbers of the table that is named in its place.
#[tactic(auto, unfolding(dsp_defs::specs::Places::next_at))]
fn open<'t>(
    lists: &'t ListSource<'_>,
    cursor: &mut Cursor<'_>,
    rule: ListRule,
) -> Result<Option<&'t [i32]>, ScriptFault>
    ensures { Gives (λ n. (option_map (λ s. s.now) n, cursor.new)) result
        (next_at (opening lists.now.tables rule) cursor.old) }
{
    let item = cursor.token()?;
    match (item.token, &lists.tables) {
        (Token::Open, _) => Ok(None),
        (Token::Run(name), Some(tables)) => {
            let Some(numbers) = tables.numbers_of(name) else {
                return Err(item.fault(ScriptKind::UnknownWord));
            };
            judged(&item, rule, numbers)?;
            Ok(Some(numbers))
        }
        _ => Err(item.fault(ScriptKind::Missing)),
    }
}

/// The next number of a list that has `count` numbers, or its end.
#[tactic(auto, unfolding(dsp_defs::specs::Places::next_at))]
pub fn entry(
    cursor: &mut Cursor<'_>,
    rule: ListRule,
    count: u64,
) -> Result<Option<i32>, ScriptFault>
    ensures value { Gives (λ n. (n, cursor.new)) result (next_at (entry rule count) cursor.old) }
    ensures room { IfOk result (λ n. IfSome n (λ _. count < rule.limit)) }
{
    let item = cursor.token()?;
    match item.token {
        Token::Close => {
            list_end(&item, rule, count)?;
            Ok(None)
        }
        Token::Open => Err(item.fault(ScriptKind::BadNumber)),
        Token::Run(run) => {
            let Some(value) = numeral::value(run) else {
                return Err(item.fault(ScriptKind::BadNumber));
            };
            let number = next_number(&item, rule, count, value)?;
            Ok(Some(number))
        }
    }
}

/// The format after a conversion, which is another than the present one.
#[tactic(auto, unfolding(dsp_defs::specs::Places::next_at))]
pub fn conversion(cursor: &mut Cursor<'_>, from: Fmt) -> Result<Fmt, ScriptFault>
    ensures { Gives (λ f. (f, cursor.new)) result (next_at (conversion from) cursor.old) }
{
    let item = cursor.token()?;
    if let Token::Run(run) = item.token {
        if let Some(format) = table::format_by_name(run) {
            if format == from {
                return Err(item.fault(ScriptKind::NoSuchForm { format }));
            }
            return Ok(format);
        }
    }
    Err(item.fault(ScriptKind::UnknownWord))
}

/// The word of the next block, or none where the output comes; so many more blocks may come.
#[tactic(auto, unfolding(dsp_defs::specs::Places::next_at, dsp_defs::specs::Reading::place_of))]
pub fn next_block(
    cursor: &mut Cursor<'_>,
    left: usize,
    correlated: bool,
    flow: Flow,
) -> Result<Option<Word>, ScriptFault>
    ensures value { Gives (λ w. (w, cursor.new)) result
        (next_at (next_block left correlated flow) cursor.old) }
    ensures room { IfOk result (λ w. IfSome w (λ _. 0 < left)) }
{
    let item = cursor.token()?;
    let Token::Run(run) = item.token else {
        return Err(item.fault(ScriptKind::UnknownWord));
    };
    if run == "output".as_bytes() {
        return Ok(None);
    }
    let Some(word) = table::word_by_name(run) else {
        return Err(item.fault(ScriptKind::UnknownWord));
    };
    if left == 0 {
        return Err(item.fault(ScriptKind::TooMany {
            limit: MAX_BLOCKS as u64,
        }));
    }
    if table::is_correlate(word) && correlated {
        return Err(item.fault(ScriptKind::TooMany {
            limit: MAX_CORRELATES as u64,
        }));
    }
    let row = table::row_of(word);
    if !table::admits(row.formats, flow.format) {
        let format = flow.format;
        return Err(item.fault(ScriptKind::NoSuchForm { format }));
    }
    if let Some(wanted) = row.channels {
        let got = flow.channels;
        if got != wanted {
            return Err(item.fault(ScriptKind::ChannelsHere { got, wanted }));
        }
    }
    Ok(Some(word))
}

/// The numbers of a list up to its end.
fn entries(alloc: Global, cursor: &mut Cursor<'_>, rule: ListRule) -> Result<List, ParseFault>
    ensures { GivesUnlessMemory (λ l. (l, cursor.new)) result
        (entries_at rule 0 cursor.old.end cursor.old.items) }
{
    let mut numbers = List::new(alloc);
    let mut count = 0;
    while let Some(number) = entry(cursor, rule, count)? {
        numbers.push(number)?;
        count += 1;
    }
    Ok(numbers)
}

/// A list of these numbers.
fn copied(alloc: Global, numbers: &[i32]) -> Result<List, AllocError>
    ensures { IfOk result (λ l. l ≡ numbers.now) }
{
    let mut copy = List::new(alloc);
    for number in numbers {
        copy.push(*number)?;
    }
    Ok(copy)
}

/// A list in its braces, or by the name of a table.
#[tactic(auto, unfolding(dsp_defs::specs::Places::list_at))]
pub fn list(
    lists: &ListSource<'_>,
    cursor: &mut Cursor<'_>,
    rule: ListRule,
) -> Result<List, ParseFault>
    ensures { GivesUnlessMemory (λ l. (l, cursor.new)) result (list_at lists.now.tables rule cursor.old) }
{
    match open(lists, cursor, rule)? {
        None => entries(lists.alloc, cursor, rule),
        Some(numbers) => Ok(copied(lists.alloc, numbers)?),
    }
}
