// The words of a command line, after the program's name.
ghost use Rattle.std.specs.Prelude.{◌≡◌, List, ℕ, [], ◌∷◌, ◌++◌, length, slice_get, option_map, OnOk, OnErr};
ghost use Rattle.wcv_main.specs.Words.{texts};

use std::alloc::Global;
use std::marker::Model;
use wcv_core::OutOfMemory;

/// The words after the program's name, in order. Contracts see them as a list of texts, each the
/// list of its bytes.
#[derive(Drop)]
pub struct Words {
    alloc: Global,
    words: Vec<String>,
}

impl Model for Words {
    ghost Value = { List (List ℕ) };

    ghost view = { λ w. texts w.words.items };
}

impl Words {
    /// No words.
    pub fn new(alloc: Global) -> Words
        ensures { result ≡ [] }
    {
        Words {
            alloc,
            words: Vec::new(alloc),
        }
    }

    /// Adds a word at the end. Out of memory, the words stay as they were.
    pub fn push(&mut self, word: &str) -> Result<(), OutOfMemory>
        ensures ok { OnOk result (self.new ≡ self.old ++ word.now ∷ []) }
        ensures err { OnErr result (self.new ≡ self.old) }
    {
        let word = String::from_str(self.alloc, word)?;
        self.words.push(word)?;
        Ok(())
    }

    /// How many words there are.
    pub fn len(&self) -> usize
        ensures { result ≡ length self.now }
    {
        self.words.len()
    }

    /// The word at position `k`, counted from 0, where there is one.
    pub fn get(&self, k: usize) -> Option<&str>
        ensures { option_map (λ word. word.now) result ≡ slice_get self.now k }
    {
        match self.words.get(k) {
            Some(word) => Some(word.as_str()),
            None => None,
        }
    }
}
