// The keys of the names of one list.
ghost use Rattle.std.specs.Prelude.{◌≡◌, [], ◌∷◌, ◌++◌, false, length, bytes_eq, is_some, slice_get, option_copied, string_bytes, OnOk, OnErr};
ghost use Rattle.std.specs.List.{IsDistinct};
ghost use Rattle.wcv_core.specs.Label.{is_among};
ghost use Rattle.wcv_names.specs.KeySet.{HasKeys};
ghost use Rattle.wcv_core.specs.TextSet.{with_text};

use std::alloc::Global;
use std::marker::Model;
use wcv_core::{OutOfMemory, TextSet};

/// The keys of the names of one list, each once, in the order in which they came. Contracts see it as the list
/// of their texts.
///
/// The position of a key is that of its name in a list that grew with the set.
#[derive(Drop)]
pub struct NameSet {
    keys: TextSet,
}

impl Model for NameSet {
    ghost use Rattle.std.specs.Prelude.{ℕ, List};

    ghost Value = { List (List ℕ) };

    ghost view = { λ s. s.keys };
}

impl NameSet {
    /// No key. It takes no memory.
    pub fn new(alloc: Global) -> NameSet
        ensures empty { result ≡ [] }
        ensures keys { HasKeys result [] }
    {
        NameSet {
            keys: TextSet::new(alloc),
        }
    }

    /// How many keys there are. No two of them are one.
    pub fn len(&self) -> usize
        ensures value { result ≡ length self.now }
        ensures unique { IsDistinct bytes_eq self.now }
    {
        self.keys.len()
    }

    /// Appends a key. A set that has it stays as it is.
    pub fn push(&mut self, key: String) -> Result<(), OutOfMemory>
        ensures ok { OnOk result (self.new ≡ with_text (string_bytes key) self.old) }
        ensures err { OnErr result (self.new ≡ self.old) }
    {
        self.keys.insert(key)?;
        Ok(())
    }

    /// The key at this position.
    pub fn get_index(&self, k: usize) -> Option<&str>
        ensures { option_copied result ≡ slice_get self.now k }
    {
        self.keys.get_index(k)
    }

    /// Whether the key is there.
    pub fn contains(&self, key: &str) -> bool
        ensures { result ≡ is_among key.now self.now }
    {
        self.find(key).is_some()
    }

    /// Appends a key that is new.
    pub(crate) fn append(&mut self, key: String) -> Result<(), OutOfMemory>
        requires { is_among (string_bytes key) self.old ≡ false }
        ensures ok { OnOk result (self.new ≡ self.old ++ string_bytes key ∷ []) }
        ensures err { OnErr result (self.new ≡ self.old) }
    {
        self.keys.append(key)?;
        Ok(())
    }

    /// The position of a key.
    pub(crate) fn find(&self, key: &str) -> Option<usize>
        ensures { is_some result ≡ is_among key.now self.now }
    {
        self.keys.find(key)
    }
}
