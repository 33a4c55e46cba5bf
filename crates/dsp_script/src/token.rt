//! A place in a text, and the tokens from there on.

ghost use Rattle.std.specs.Prelude.{◌≡◌, ◌<◌, ◌≤◌, ◌+◌, ℕ, Bool, true, false, IsTrue, length, take, drop};
ghost use Rattle.std.specs.Prelude.{slice_index, List, [], ◌∷◌, IfOk};
ghost use Rattle.dsp_defs.specs.Token.{items_from, is_white, is_run_byte, rest_of, Rest};
ghost use Rattle.dsp_script.specs.View.{item_view};
ghost use Rattle.dsp_script.specs.Answers.{Gives};
ghost use Rattle.dsp_defs.specs.Places.{begins_with, first_of};
ghost use Rattle.dsp_defs.specs.Reading.{nothing_of};

use dsp_defs::{ScriptFault, ScriptKind};
use std::marker::Model;

/// A token.
#[derive(Clone, Copy, Debug)]
pub enum Token<'a> {
    Open,
    Close,
    Run(&'a [u8]),
}

/// A token, and where it begins.
#[derive(Clone, Copy, Debug)]
pub struct Item<'a> {
    pub offset: u64,
    pub token: Token<'a>,
}

impl Item<'_> {
    /// This is wrong with the token.
    pub fn fault(&self, kind: ScriptKind) -> ScriptFault
        ensures { result ≡ record { offset = self.now.offset; kind = kind } }
    {
        ScriptFault {
            offset: self.offset,
            kind,
        }
    }
}

pub fn is_white(byte: u8) -> bool
    ensures { result ≡ is_white byte }
{
    matches!(byte, b'\t' | b'\n' | b'\r' | b' ')
}

pub fn is_run_byte(byte: u8) -> bool
    ensures { result ≡ is_run_byte byte }
{
    matches!(byte, b'a'..=b'z' | b'0'..=b'9' | b'_' | b'-')
}

/// The end of the comment that a text is within.
fn comment_end(text: &[u8], from: usize) -> usize
    requires { from ≤ length text.now }
    ensures bounds { (from ≤ result) × (result ≤ length text.now) }
    ensures same { items_from true from (drop from text.now) ≡ items_from false result
        (drop result text.now) }
{
    let mut at = from;
    while at < text.len() && text[at] != b'\n' {
        at += 1;
    }
    at
}

/// The place of the next token, or the end.
fn token_start(text: &[u8], from: usize) -> usize
    requires { from ≤ length text.now }
    ensures bounds { (from ≤ result) × (result ≤ length text.now) }
    ensures same { items_from false from (drop from text.now) ≡ items_from false result
        (drop result text.now) }
    ensures white { result < length text.now → is_white (slice_index text.now result) ≡ false }
    ensures comment { result < length text.now → slice_index text.now result ≡ 35 → ⊥ }
{
    let mut at = from;
    while at < text.len() {
        if text[at] == b'#' {
            at = comment_end(text, at + 1);
        } else if is_white(text[at]) {
            at += 1;
        } else {
            return at;
        }
    }
    at
}

/// The end of the run that begins here.
fn run_end(text: &[u8], from: usize) -> usize
    requires { from ≤ length text.now }
    ensures bounds { (from ≤ result) × (result ≤ length text.now) }
    ensures run { (k : ℕ) → from ≤ k → k < result → is_run_byte (slice_index text.now k) ≡ true }
    ensures ends { result < length text.now → is_run_byte (slice_index text.now result) ≡ false }
{
    let mut at = from;
    while at < text.len() && is_run_byte(text[at]) {
        at += 1;
    }
    at
}

/// The next token, and the place behind it.
fn token_from(text: &[u8], from: usize) -> Result<(Item<'_>, usize), ScriptFault>
    requires { from ≤ length text.now }
    ensures bounds { IfOk result (λ x. x.1 ≤ length text.now) }
    ensures token { Gives (λ x. (item_view x.0, rest_of x.1 text.now)) result
        (first_of (length text.now) (items_from false from (drop from text.now))) }
{
    let at = token_start(text, from);
    let offset = at as u64;
    if at == text.len() {
        return Err(ScriptFault {
            offset,
            kind: ScriptKind::Missing,
        });
    }
    let byte = text[at];
    if byte == b'{' {
        return Ok((
            Item {
                offset,
                token: Token::Open,
            },
            at + 1,
        ));
    }
    if byte == b'}' {
        return Ok((
            Item {
                offset,
                token: Token::Close,
            },
            at + 1,
        ));
    }
    let end = run_end(text, at);
    if end == at {
        return Err(ScriptFault {
            offset,
            kind: ScriptKind::BadByte,
        });
    }
    Ok((
        Item {
            offset,
            token: Token::Run(&text[at..end]),
        },
        end,
    ))
}

/// A place in a text.
#[derive(Drop)]
pub struct Cursor<'a> {
    text: &'a [u8],
    at: usize,
}

impl<'a> Model for Cursor<'a> {
    ghost use Rattle.std.specs.Prelude.{◌≤◌, length};
    ghost use Rattle.dsp_defs.specs.Token.{Rest, rest_of};

    ghost Value = { Rest };

    ghost view = { λ c. rest_of c.at c.text.now };

    ghost invariant = { λ c. c.at ≤ length c.text.now };
}

impl<'a> Cursor<'a> {
    pub fn new(text: &'a [u8]) -> Cursor<'a>
        ensures { result ≡ rest_of 0 text.now }
    {
        Cursor { text, at: 0 }
    }

    /// The next token.
    pub fn token(&mut self) -> Result<Item<'a>, ScriptFault>
        ensures { Gives (λ item. (item_view item, self.new)) result
            (first_of self.old.end self.old.items) }
    {
        let (item, at) = token_from(self.text, self.at)?;
        self.at = at;
        Ok(item)
    }

    /// The next token is this word.
    #[tactic(auto, unfolding(dsp_defs::specs::Places::first_of))]
    pub fn begins_with(&self, name: &str) -> bool
        ensures { result ≡ begins_with name.now self.now.items }
    {
        match token_from(self.text, self.at) {
            Ok((item, _)) => matches!(item.token, Token::Run(run) if run == name.as_bytes()),
            Err(_) => false,
        }
    }

    /// Nothing is left, but for bytes that begin no token.
    #[tactic(auto, unfolding(dsp_defs::specs::Places::first_of))]
    pub fn end(&self) -> Result<(), ScriptFault>
        ensures { Gives (λ _. tt) result (nothing_of self.now.items) }
    {
        match token_from(self.text, self.at) {
            Ok((item, _)) => Err(item.fault(ScriptKind::UnknownWord)),
            Err(
                ScriptFault {
                    kind: ScriptKind::Missing,
                    ..
                },
            ) => Ok(()),
            Err(stopped) => Err(stopped),
        }
    }
}
