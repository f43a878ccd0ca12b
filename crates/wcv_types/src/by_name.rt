// Looking up by text what stands in a list of pairs.
ghost use Rattle.std.specs.Prelude.{◌≡◌, [], ◌∷◌, ◌++◌, true, false, slice_get, option_copied, bytes_eq, IfOk, IfSome, OnOk};
ghost use Rattle.std.specs.BTreeMap.{get};
ghost use Rattle.std.specs.Map.{lookup};
ghost use Rattle.std.specs.Ordering.{nat_cmp};
ghost use Rattle.wcv_core.specs.LabelSet.{mixed};
ghost use Rattle.wcv_core.specs.TextSet.{checked, is_text};
ghost use Rattle.wcv_types.specs.ByName.{AreFirsts, first_place, texts_in, value_at as value_in};

use std::alloc::Global;
use std::collections::BTreeMap;
use std::marker::Model;
use std::rc::Rc;
use wcv_core::{OutOfMemory, Text, mix};

/// Whether the text stands at this position.
fn is_at<V>(entries: &[(Text, V)], k: usize, text: &str) -> bool
    ensures { result ≡ is_text text.now (slice_get (texts_in entries.now) k) }
{
    match entries.get(k) {
        Some(entry) => entry.0.as_str() == text,
        None => false,
    }
}

/// The place, where the text stands there.
fn check<V>(entries: &[(Text, V)], place: Option<usize>, text: &str) -> Option<usize>
    ensures { result ≡ checked (texts_in entries.now) text.now place }
{
    match place {
        Some(k) if is_at(entries, k, text) => Some(k),
        _ => None,
    }
}

/// Where each text of a list stands first.
///
/// It has no copy of them: it leads from the number that the bytes of a text give to a place in the list, which has
/// the text or another with that number. Of texts with one number, whoever chose them, only the first is led to so,
/// and the others by copies of their bytes: a look-up among `n` never makes more than some `log n` comparisons.
#[derive(Drop)]
pub(crate) struct Firsts {
    by_number: BTreeMap<u64, usize>,
    by_bytes: BTreeMap<String, usize>,
}

impl Firsts {
    /// Where the text stands first, which this place, the one of its number, or its bytes lead to.
    fn place_from<V>(
        &self,
        entries: &[(Text, V)],
        place: Option<usize>,
        text: &str,
    ) -> Option<usize>
        ensures { AreFirsts self.now.by_number self.now.by_bytes (texts_in entries.now) → place ≡ get nat_cmp self.now.by_number (mixed text.now) → result ≡ first_place text.now (texts_in entries.now) }
    {
        match check(entries, place, text) {
            Some(k) => Some(k),
            None => check(entries, self.by_bytes.get(text).copied(), text),
        }
    }

    /// Where the text stands first in the list.
    pub(crate) fn find<V>(&self, entries: &[(Text, V)], text: &str) -> Option<usize>
        ensures { AreFirsts self.now.by_number self.now.by_bytes (texts_in entries.now) → result ≡ first_place text.now (texts_in entries.now) }
    {
        let number = mix(text);
        self.place_from(entries, self.by_number.get(&number).copied(), text)
    }

    /// One more text behind those of the list.
    fn join<V>(
        &mut self,
        alloc: Global,
        before: &[(Text, V)],
        text: &str,
    ) -> Result<(), OutOfMemory>
        ensures { OnOk result (AreFirsts self.old.by_number self.old.by_bytes (texts_in before.now) → AreFirsts self.new.by_number self.new.by_bytes (texts_in before.now ++ text.now ∷ [])) }
    {
        let number = mix(text);
        let place = self.by_number.get(&number).copied();
        if self.place_from(before, place, text).is_some() {
            return Ok(());
        }
        if place.is_none() {
            self.by_number.insert(number, before.len())?;
            return Ok(());
        }
        let key = String::from_str(alloc, text)?;
        self.by_bytes.insert(key, before.len())?;
        Ok(())
    }
}

/// Where the texts of the pairs stand first.
pub(crate) fn firsts_of<V>(alloc: Global, entries: &[(Text, V)]) -> Result<Firsts, OutOfMemory>
    ensures { IfOk result (λ f. AreFirsts f.by_number f.by_bytes (texts_in entries.now)) }
{
    let mut firsts = Firsts {
        by_number: BTreeMap::new(alloc),
        by_bytes: BTreeMap::new(alloc),
    };
    for place in 0..entries.len() {
        firsts.join(alloc, &entries[..place], entries[place].0.as_str())?;
    }
    Ok(firsts)
}

/// The value of the first pair with this text, by a walk through the list.
#[tactic(auto, using(crate::proofs::FirstPlaces::next_entry, crate::proofs::FirstPlaces::no_entry))]
pub(crate) fn walk<'a, V>(entries: &'a [(Text, V)], key: &Text) -> Option<&'a V>
    ensures { option_copied result ≡ lookup (bytes_eq key.now) entries.now }
{
    for entry in entries {
        if key.as_str() == entry.0.as_str() {
            return Some(&entry.1);
        }
    }
    None
}

/// The value of the pair at this position, where there is one.
pub(crate) fn value_at<V>(entries: &[(Text, V)], place: Option<usize>) -> Option<&V>
    ensures { option_copied result ≡ value_in entries.now place }
{
    match place {
        Some(place) => match entries.get(place) {
            Some(entry) => Some(&entry.1),
            None => None,
        },
        None => None,
    }
}

/// Of up to so many pairs a text is looked up by a walk. That takes about as long as a look-up in a set, and most types
/// export no more, so they keep no places of their names.
pub(crate) const MAX_WALKED: usize = 32;

/// The value of the first pair with this text.
#[tactic(auto, using(crate::proofs::FirstPlaces::found))]
pub(crate) fn look_up<'a, V>(
    firsts: &Option<Rc<Firsts>>,
    entries: &'a [(Text, V)],
    key: &Text,
) -> Option<&'a V>
    requires { IfSome firsts.now (λ f. AreFirsts f.value.by_number f.value.by_bytes (texts_in entries.now)) }
    ensures { option_copied result ≡ lookup (bytes_eq key.now) entries.now }
{
    match firsts {
        Some(firsts) => value_at(entries, firsts.find(entries, key.as_str())),
        None => walk(entries, key),
    }
}

/// Whether the pairs have the same texts, in the same order.
pub(crate) fn have_names<V, W>(pairs: &[(Text, V)], others: &[(Text, W)]) -> bool
    ensures same { result ≡ true → texts_in pairs.now ≡ texts_in others.now }
    ensures others { result ≡ false → texts_in pairs.now ≡ texts_in others.now → ⊥ }
{
    if pairs.len() != others.len() {
        return false;
    }
    for k in 0..pairs.len() {
        if pairs[k].0.as_str() != others[k].0.as_str() {
            return false;
        }
    }
    true
}

/// The pairs of a list, by their texts. Contracts see it as the list.
///
/// It lends the list, and keeps where each text stands first, but no text. So a look-up takes the time of one in a
/// set, however long the list is.
#[derive(Drop)]
pub struct ByName<'a, V> {
    entries: &'a [(Text, V)],
    firsts: Rc<Firsts>,
}

impl<'a, V> Model for ByName<'a, V> {
    ghost use Rattle.std.specs.Prelude.{List};
    ghost use Rattle.wcv_types.specs.ByName.{AreFirsts, texts_in};
    ghost use Rattle.wcv_types.specs.Tree.{Text};

    ghost Value = { List (Text × V) };

    ghost view = { λ m. m.entries.now };

    ghost invariant = { λ m. AreFirsts m.firsts.value.by_number m.firsts.value.by_bytes (texts_in m.entries.now) };
}

impl<'a, V> ByName<'a, V> {
    /// The list by its texts.
    pub fn new(alloc: Global, entries: &'a [(Text, V)]) -> Result<ByName<'a, V>, OutOfMemory>
        ensures { IfOk result (λ m. m ≡ entries.now) }
    {
        let firsts = Rc::new(alloc, firsts_of(alloc, entries)?)?;
        Ok(ByName { entries, firsts })
    }

    /// The same, where the places of the texts are known.
    pub(crate) fn kept(
        entries: &'a [(Text, V)],
        firsts: &Rc<Firsts>,
    ) -> Result<ByName<'a, V>, OutOfMemory>
        requires { AreFirsts firsts.now.value.by_number firsts.now.value.by_bytes (texts_in entries.now) }
        ensures { IfOk result (λ m. m ≡ entries.now) }
    {
        let firsts = firsts.clone()?;
        Ok(ByName { entries, firsts })
    }

    /// The value of the first pair with this text.
    #[tactic(auto, using(crate::proofs::FirstPlaces::found))]
    pub fn get(&self, key: &Text) -> Option<&V>
        ensures { option_copied result ≡ lookup (bytes_eq key.now) self.now }
    {
        value_at(self.entries, self.firsts.find(self.entries, key.as_str()))
    }
}
