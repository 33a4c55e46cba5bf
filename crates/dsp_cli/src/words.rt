ghost use Rattle.std.specs.Prelude.{◌≡◌, ◌<◌, ◌++◌, [], ◌∷◌, Some, length, slice_get, OnOk, OnErr};

use std::alloc::{AllocError, Global};
use std::marker::Model;

/// The words of a command line, seen as a list of texts.
#[derive(Drop)]
pub struct Words {
    alloc: Global,
    words: Vec<String>,
}

impl Model for Words {
    ghost use Rattle.std.specs.Prelude.{List, ℕ, map, string_bytes};

    ghost Value = { List (List ℕ) };

    ghost view = { λ w. map string_bytes w.words.items };
}

impl Words {
    /// No words. It takes no memory.
    pub fn new(alloc: Global) -> Words
        ensures { result ≡ [] }
    {
        Words {
            alloc,
            words: Vec::new(alloc),
        }
    }

    /// Adds a word last. After a refusal the list is unchanged.
    pub fn push(&mut self, word: &str) -> Result<(), AllocError>
        ensures ok { OnOk result (self.new ≡ self.old ++ word.now ∷ []) }
        ensures err { OnErr result (self.new ≡ self.old) }
    {
        let word = String::from_str(self.alloc, word)?;
        self.words.push(word)?;
        Ok(())
    }

    /// The number of words.
    pub fn len(&self) -> usize
        ensures { result ≡ length self.now }
    {
        self.words.len()
    }

    /// The word at an index, counted from 0.
    pub fn word(&self, index: usize) -> &str
        requires { index < length self.now }
        ensures { slice_get self.now index ≡ Some result.now }
    {
        self.words[index].as_str()
    }
}
