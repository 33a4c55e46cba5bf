//! The tables of a text.

ghost use Rattle.std.specs.Prelude.{◌≡◌, [], ◌∷◌, ◌++◌, OnOk, OnErr, IfOk, ◌<◌};
ghost use Rattle.std.specs.Option.{option_map};
ghost use Rattle.dsp_defs.specs.Tables.{numbers_of, is_table_name, table_rule};
ghost use Rattle.dsp_defs.specs.Places.{table_word, new_name, next_at, table_at, tables_at, environment_at};
ghost use Rattle.dsp_script.specs.Answers.{Gives, GivesUnlessMemory};

use crate::fault::ParseFault;
use crate::token::{Cursor, Token};
use crate::{places, rules};
use dsp_defs::{List, MAX_NAME, MAX_TABLES, ScriptFault, ScriptKind};
use std::alloc::{AllocError, Global};
use std::marker::Model;

/// A table: numbers that have a name.
#[derive(Drop)]
pub struct Named<'a> {
    name: &'a [u8],
    numbers: List,
}

impl<'a> Model for Named<'a> {
    ghost use Rattle.dsp_defs.specs.Tables.{Named};

    ghost Value = { Named };

    ghost view = { λ t. record { name = t.name.now; numbers = t.numbers } };
}

/// The tables of a text, in order.
#[derive(Drop)]
pub struct Tables<'a> {
    tables: Vec<Named<'a>>,
}

impl<'a> Model for Tables<'a> {
    ghost use Rattle.std.specs.Prelude.{List as Sequence};
    ghost use Rattle.dsp_defs.specs.Tables.{Named};

    ghost Value = { Sequence Named };

    ghost view = { λ t. t.tables.items };
}

impl<'a> Tables<'a> {
    fn new(alloc: Global) -> Tables<'a>
        ensures { result ≡ [] }
    {
        Tables {
            tables: Vec::new(alloc),
        }
    }

    fn push(&mut self, table: Named<'a>) -> Result<(), AllocError>
        ensures ok { OnOk result (self.new ≡ self.old ++ table.entry ∷ []) }
        ensures err { OnErr result (self.new ≡ self.old) }
    {
        self.tables.push(table)?;
        Ok(())
    }

    /// The numbers of the table of this name, if there is one.
    #[tactic(auto, unfolding(dsp_defs::specs::Tables::numbers_of))]
    pub fn numbers_of(&self, name: &[u8]) -> Option<&[i32]>
        ensures { option_map (λ n. n.now) result ≡ numbers_of self.now name.now }
    {
        match self.tables.iter().find(|table| name == table.name) {
            Some(table) => Some(table.numbers.as_slice()),
            None => None,
        }
    }
}

/// Where the lists of a script are from: their memory, and the tables whose names may stand for
/// them, in a version that has tables.
#[derive(Drop)]
pub struct ListSource<'a> {
    pub alloc: Global,
    pub tables: Option<Tables<'a>>,
}

/// A run is a name.
fn is_table_name(run: &[u8]) -> bool
    ensures { result ≡ is_table_name run.now }
{
    matches!(run, [b'a'..=b'z', ..]) && run.len() <= MAX_NAME
}

/// The word `table`, where so many more may come.
#[tactic(auto, unfolding(dsp_defs::specs::Places::next_at))]
fn table_word(cursor: &mut Cursor<'_>, left: usize) -> Result<(), ScriptFault>
    ensures value { Gives (λ _. (tt, cursor.new)) result (next_at (table_word left) cursor.old) }
    ensures room { IfOk result (λ _. 0 < left) }
{
    let item = cursor.token()?;
    match item.token {
        Token::Run(run) if run == "table".as_bytes() => {
            if left == 0 {
                return Err(item.fault(ScriptKind::TooMany {
                    limit: MAX_TABLES as u64,
                }));
            }
            Ok(())
        }
        _ => Err(item.fault(ScriptKind::UnknownWord)),
    }
}

/// A name that none of these tables has.
#[tactic(auto, unfolding(dsp_defs::specs::Places::next_at))]
fn new_name<'a>(cursor: &mut Cursor<'a>, tables: &Tables<'_>) -> Result<&'a [u8], ScriptFault>
    ensures { Gives (λ n. (n.now, cursor.new)) result (next_at (new_name tables.now) cursor.old) }
{
    let item = cursor.token()?;
    let Token::Run(run) = item.token else {
        return Err(item.fault(ScriptKind::BadName));
    };
    if !is_table_name(run) {
        return Err(item.fault(ScriptKind::BadName));
    }
    if tables.numbers_of(run).is_some() {
        return Err(item.fault(ScriptKind::NameTaken));
    }
    Ok(run)
}

/// A table, behind these, where so many more may come.
#[tactic(auto, unfolding(dsp_defs::specs::Places::table_at))]
fn table<'a>(
    alloc: Global,
    cursor: &mut Cursor<'a>,
    left: usize,
    tables: &Tables<'_>,
) -> Result<Named<'a>, ParseFault>
    ensures value { GivesUnlessMemory (λ t. (t, cursor.new)) result (table_at left tables.now cursor.old) }
    ensures room { IfOk result (λ _. 0 < left) }
{
    table_word(cursor, left)?;
    let name = new_name(cursor, tables)?;
    let braces = ListSource {
        alloc,
        tables: None,
    };
    let numbers = places::list(&braces, cursor, rules::table())?;
    Ok(Named { name, numbers })
}

impl<'a> Tables<'a> {
    /// The tables that come next.
    pub fn read(alloc: Global, cursor: &mut Cursor<'a>) -> Result<Tables<'a>, ParseFault>
        ensures { GivesUnlessMemory (λ t. (t, cursor.new)) result (tables_at MAX_TABLES [] cursor.old) }
    {
        let mut tables = Tables::new(alloc);
        let mut left = MAX_TABLES;
        while cursor.begins_with("table") {
            let table = table(alloc, cursor, left, &tables)?;
            tables.push(table)?;
            left -= 1;
        }
        Ok(tables)
    }
}

impl<'a> ListSource<'a> {
    /// Where the lists of a script of this version are from: its tables come next, if it has them.
    #[tactic(auto, unfolding(dsp_defs::specs::Places::environment_at))]
    pub fn read(
        alloc: Global,
        cursor: &mut Cursor<'a>,
        version: u8,
    ) -> Result<ListSource<'a>, ParseFault>
        ensures { GivesUnlessMemory (λ e. (e.tables, cursor.new)) result
            (environment_at version cursor.old) }
    {
        let tables = if version == 1 {
            None
        } else {
            Some(Tables::read(alloc, cursor)?)
        };
        Ok(ListSource { alloc, tables })
    }
}
