// Texts, each once, in the order in which they came.
ghost use Rattle.std.specs.Prelude.{◌≡◌, [], ◌∷◌, ◌++◌, ℕ, List, Some, false, length, slice_get, option_copied, is_some, bytes_eq, string_bytes, IfSome, OnOk, OnErr, IfOk};
ghost use Rattle.std.specs.List.{IsDistinct};
ghost use Rattle.wcv_core.specs.Label.{is_among};
ghost use Rattle.wcv_core.specs.TextSet.{is_text, checked, with_text, LeadsTo};

use crate::label_set::mix;
use crate::memory::OutOfMemory;
use std::alloc::Global;
use std::collections::BTreeMap;
use std::marker::Model;

/// Texts, each once, in the order in which they came. Contracts see it as the list of them.
///
/// A text is found by the number that its bytes give, so that texts are mostly told apart without a look at
/// their bytes. Of texts with one number, whoever chose them, the first is found so, and the others by their
/// bytes: a look-up among `n` texts never makes more than some `log n` comparisons, and it copies nothing.
#[derive(Drop)]
pub struct TextSet {
    texts: Vec<String>,
    by_number: BTreeMap<u64, usize>,
    by_bytes: BTreeMap<String, usize>,
    alloc: Global,
}

impl Model for TextSet {
    ghost use Rattle.std.specs.Prelude.{ℕ, List};
    ghost use Rattle.wcv_core.specs.TextSet.{texts_of, IsIndexed};

    ghost Value = { List (List ℕ) };

    ghost view = { λ s. texts_of s.texts.items };

    ghost invariant = { λ s. IsIndexed s.by_number s.by_bytes (texts_of s.texts.items) };
}

/// The number of the text leads to the place from then on, or, where it leads to another, its bytes.
fn lead(
    by_number: &mut BTreeMap<u64, usize>,
    by_bytes: &mut BTreeMap<String, usize>,
    alloc: Global,
    text: &str,
    place: usize,
) -> Result<(), OutOfMemory>
    ensures leads { OnOk result (LeadsTo by_number.new by_bytes.new text.now place) }
    ensures others { (t : List ℕ) (k : ℕ) → bytes_eq text.now t ≡ false → LeadsTo by_number.old by_bytes.old t k → LeadsTo by_number.new by_bytes.new t k }
{
    let number = mix(text);
    if by_number.contains_key(&number) {
        let key = String::from_str(alloc, text)?;
        by_bytes.insert(key, place)?;
    } else {
        by_number.insert(number, place)?;
    }
    Ok(())
}

impl TextSet {
    /// No text. It takes no memory.
    pub fn new(alloc: Global) -> TextSet
        ensures { result ≡ [] }
    {
        TextSet {
            texts: Vec::new(alloc),
            by_number: BTreeMap::new(alloc),
            by_bytes: BTreeMap::new(alloc),
            alloc,
        }
    }

    /// How many texts there are. No two of them are one.
    pub fn len(&self) -> usize
        ensures value { result ≡ length self.now }
        ensures unique { IsDistinct bytes_eq self.now }
    {
        self.texts.len()
    }

    /// The text at this position.
    pub fn get_index(&self, k: usize) -> Option<&str>
        ensures { option_copied result ≡ slice_get self.now k }
    {
        match self.texts.get(k) {
            Some(text) => Some(text.as_str()),
            None => None,
        }
    }

    /// Whether the text stands at this position.
    pub fn is_at(&self, k: usize, text: &str) -> bool
        ensures { result ≡ is_text text.now (slice_get self.now k) }
    {
        match self.get_index(k) {
            Some(found) => found == text,
            None => false,
        }
    }

    /// The place, where the text stands there.
    fn check(&self, place: Option<&usize>, text: &str) -> Option<usize>
        ensures { result ≡ checked self.now text.now (option_copied place.entry) }
    {
        match place {
            Some(place) if self.is_at(*place, text) => Some(*place),
            _ => None,
        }
    }

    /// The position of the text.
    #[tactic(auto, using(crate::proofs::Texts::checked_stands, crate::proofs::Texts::checked_among, crate::proofs::Texts::found))]
    pub fn find(&self, text: &str) -> Option<usize>
        ensures stands { IfSome result (λ k. slice_get self.now k ≡ Some text.now) }
        ensures among { is_some result ≡ is_among text.now self.now }
    {
        let number = mix(text);
        match self.check(self.by_number.get(&number), text) {
            Some(place) => Some(place),
            None => self.check(self.by_bytes.get(text), text),
        }
    }

    /// Appends a text that is new.
    pub fn append(&mut self, text: String) -> Result<(), OutOfMemory>
        requires { is_among (string_bytes text) self.old ≡ false }
        ensures ok { OnOk result (self.new ≡ self.old ++ string_bytes text ∷ []) }
        ensures err { OnErr result (self.new ≡ self.old) }
    {
        let place = self.texts.len();
        lead(
            &mut self.by_number,
            &mut self.by_bytes,
            self.alloc,
            text.as_str(),
            place,
        )?;
        self.texts.push(text)?;
        Ok(())
    }

    /// Adds the text. The answer is the position at which it stood already.
    #[tactic(auto, using(crate::proofs::Texts::with_old, crate::proofs::Texts::with_new))]
    pub fn insert(&mut self, text: String) -> Result<Option<usize>, OutOfMemory>
        ensures stood { IfOk result (λ place. is_some place ≡ is_among (string_bytes text) self.old) }
        ensures ok { OnOk result (self.new ≡ with_text (string_bytes text) self.old) }
        ensures err { OnErr result (self.new ≡ self.old) }
    {
        match self.find(text.as_str()) {
            Some(place) => Ok(Some(place)),
            None => {
                self.append(text)?;
                Ok(None)
            }
        }
    }

    /// The position of the text, of which a copy joins where it is new.
    #[tactic(auto, using(crate::proofs::Texts::with_old, crate::proofs::Texts::with_new, crate::proofs::Texts::last_of))]
    pub fn place_of(&mut self, text: &str) -> Result<usize, OutOfMemory>
        ensures stands { IfOk result (λ k. slice_get self.new k ≡ Some text.now) }
        ensures ok { OnOk result (self.new ≡ with_text text.now self.old) }
        ensures err { OnErr result (self.new ≡ self.old) }
    {
        match self.find(text) {
            Some(place) => Ok(place),
            None => {
                let place = self.len();
                let copy = String::from_str(self.alloc, text)?;
                self.append(copy)?;
                Ok(place)
            }
        }
    }
}
