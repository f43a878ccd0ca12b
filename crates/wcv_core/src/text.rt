// Texts and places that own their memory.
ghost use Rattle.std.specs.Prelude.{◌≡◌, IfOk};

use crate::memory::OutOfMemory;
use std::alloc::Global;
use std::marker::Model;

/// A text that owns its bytes. Contracts see it as the list of its bytes, in UTF-8.
#[derive(Drop)]
pub struct Text {
    text: String,
}

impl Model for Text {
    ghost use Rattle.std.specs.Prelude.{ℕ, List, string_bytes};

    ghost Value = { List ℕ };

    ghost view = { λ t. string_bytes t.text };
}

impl Text {
    /// A copy of the text `s`.
    pub fn new(alloc: Global, s: &str) -> Result<Text, OutOfMemory>
        ensures { IfOk result (λ t. t ≡ s.now) }
    {
        let text = String::from_str(alloc, s)?;
        Ok(Text { text })
    }

    /// The text, lent.
    pub fn as_str(&self) -> &str
        ensures { result.now ≡ self.now }
    {
        self.text.as_str()
    }
}

impl From<String> for Text {
    ghost use Rattle.std.specs.Prelude.{◌≡◌, string_bytes};

    ghost from_gives = { λ s t. t ≡ string_bytes s };

    /// The text itself, with no copy.
    fn from(text: String) -> Text {
        Text { text }
    }
}

/// A place in a listing: the positions that lead from the root's items to an item, or to a
/// declaration inside a type item. Contracts see it as that list of numbers.
#[derive(Drop)]
pub struct Place {
    positions: Vec<u64>,
}

impl Model for Place {
    ghost use Rattle.std.specs.Prelude.{ℕ, List};

    ghost Value = { List ℕ };

    ghost view = { λ p. p.positions.items };
}

impl Place {
    /// The place with these positions, the outermost first.
    pub fn new(alloc: Global, positions: &[u64]) -> Result<Place, OutOfMemory>
        ensures { IfOk result (λ p. p ≡ positions.now) }
    {
        let positions = Vec::from_slice(alloc, positions)?;
        Ok(Place { positions })
    }

    /// The positions, the outermost first.
    pub fn positions(&self) -> &[u64]
        ensures { result.now ≡ self.now }
    {
        &self.positions
    }
}
