// Imports and exports by name.
ghost use Rattle.std.specs.Prelude.{◌≡◌, [], ◌∷◌, ◌++◌, true, false, length, slice_get, option_copied, bytes_eq, IfOk, IfSome, OnOk, OnErr};
ghost use Rattle.std.specs.Map.{lookup};
ghost use Rattle.wcv_types.specs.ByName.{AreFirsts, texts_in};
ghost use Rattle.wcv_types.specs.Entities.{retyped};

use crate::by_name::{ByName, Firsts, have_names};
use crate::entries_again::copy_option;
use crate::named_items::{NamedItems, copy_pair};
use crate::same_entities::have_types;
use crate::shapes::ComponentEntityType;
use std::alloc::Global;
use std::marker::Model;
use std::rc::Rc;
use wcv_core::{OutOfMemory, Text};

/// What is imported or exported under a name, with what the name says beside it.
#[derive(Drop)]
pub struct ComponentItem {
    pub ty: ComponentEntityType,
    pub implements: Option<Text>,
    pub version_suffix: Option<Text>,
    pub external_id: Option<Text>,
}

impl ComponentItem {
    /// An equal item, but for its type.
    pub(crate) fn copy_with(
        &self,
        alloc: Global,
        ty: ComponentEntityType,
    ) -> Result<ComponentItem, OutOfMemory>
        ensures { IfOk result (λ copied. copied ≡ record self.now { ty = ty }) }
    {
        Ok(ComponentItem {
            ty,
            implements: copy_option(alloc, &self.implements)?,
            version_suffix: copy_option(alloc, &self.version_suffix)?,
            external_id: copy_option(alloc, &self.external_id)?,
        })
    }
}

/// Items by name, in order. A name may stand more than once. Contracts see it as the list of its pairs.
///
/// A copy shares what it is a copy of, until a pair is appended to one of them.
#[derive(Drop)]
pub struct ItemMap {
    items: Option<Rc<NamedItems>>,
    alloc: Global,
}

impl Model for ItemMap {
    ghost use Rattle.std.specs.Prelude.{List, []};
    ghost use Rattle.std.specs.Option.{option_map_or};
    ghost use Rattle.wcv_types.specs.Tree.{Text};
    ghost use Rattle.wcv_types.specs.declared.item_map.ComponentItem.{ComponentItem};

    ghost Value = { List (Text × ComponentItem) };

    ghost view = { λ m. option_map_or (λ r. r.value) m.items [] };
}

/// Appends a pair to items that may be shared: then to a copy of them.
fn push_onto(
    alloc: Global,
    shared: &mut Rc<NamedItems>,
    entry: (Text, ComponentItem),
) -> Result<(), OutOfMemory>
    ensures ok { OnOk result (shared.new.value ≡ shared.old.value ++ entry ∷ []) }
    ensures err { OnErr result (shared.new.value ≡ shared.old.value) }
{
    if let Some(items) = Rc::get_mut(shared) {
        return items.push(entry);
    }
    let mut items = shared.copy(alloc)?;
    items.push(entry)?;
    *shared = Rc::new(alloc, items)?;
    Ok(())
}

/// A list of the one pair.
fn one_item(alloc: Global, entry: (Text, ComponentItem)) -> Result<Rc<NamedItems>, OutOfMemory>
    ensures { IfOk result (λ r. r.value ≡ entry ∷ []) }
{
    let mut items = NamedItems::new(alloc);
    items.push(entry)?;
    Ok(Rc::new(alloc, items)?)
}

impl ItemMap {
    /// A map with no pair.
    pub fn new(alloc: Global) -> ItemMap
        ensures { result ≡ [] }
    {
        ItemMap { items: None, alloc }
    }

    /// Appends a pair.
    pub fn push(&mut self, entry: (Text, ComponentItem)) -> Result<(), OutOfMemory>
        ensures ok { OnOk result (self.new ≡ self.old ++ entry ∷ []) }
        ensures err { OnErr result (self.new ≡ self.old) }
    {
        match &mut self.items {
            Some(shared) => push_onto(self.alloc, shared, entry),
            None => {
                self.items = Some(one_item(self.alloc, entry)?);
                Ok(())
            }
        }
    }

    /// Appends a copy of a pair, but for its type.
    pub(crate) fn push_copy(
        &mut self,
        alloc: Global,
        entry: &(Text, ComponentItem),
        ty: ComponentEntityType,
    ) -> Result<(), OutOfMemory>
        ensures { OnOk result (self.new ≡ self.old ++ (entry.now.0, record entry.now.1 { ty = ty }) ∷ []) }
    {
        self.push(copy_pair(alloc, entry, ty)?)
    }

    /// An equal map. It takes no memory.
    pub fn copy(&self, alloc: Global) -> Result<ItemMap, OutOfMemory>
        ensures { IfOk result (λ copied. copied ≡ self.now) }
    {
        match &self.items {
            Some(shared) => Ok(ItemMap {
                items: Some(shared.clone()?),
                alloc,
            }),
            None => Ok(ItemMap::new(alloc)),
        }
    }

    /// The same entries with these types. Where no type is another, and of the places of the names, it shares what is there.
    pub fn with_types(
        &self,
        alloc: Global,
        tys: &[ComponentEntityType],
    ) -> Result<ItemMap, OutOfMemory>
        requires { length tys.now ≡ length self.now }
        ensures { IfOk result (λ made. made ≡ retyped self.now tys.now) }
    {
        match &self.items {
            Some(shared) if have_types(shared.as_slice(), tys) => self.copy(alloc),
            Some(shared) => Ok(ItemMap {
                items: Some(Rc::new(alloc, shared.copy_with(alloc, tys)?)?),
                alloc,
            }),
            None => Ok(ItemMap::new(alloc)),
        }
    }

    /// How many pairs there are.
    pub fn len(&self) -> usize
        ensures { result ≡ length self.now }
    {
        self.as_slice().len()
    }

    /// All pairs, lent.
    pub fn as_slice(&self) -> &[(Text, ComponentItem)]
        ensures { result.now ≡ self.now }
    {
        match &self.items {
            Some(shared) => shared.as_slice(),
            None => &[],
        }
    }

    /// The pair at this position.
    pub fn get_index(&self, k: usize) -> Option<&(Text, ComponentItem)>
        ensures { option_copied result ≡ slice_get self.now k }
    {
        self.as_slice().get(k)
    }

    /// The places of the names, where they are known.
    fn firsts(&self) -> Option<&Rc<Firsts>>
        ensures { IfSome (option_copied result) (λ f. AreFirsts f.value.by_number f.value.by_bytes (texts_in self.now)) }
    {
        match &self.items {
            Some(shared) => shared.firsts(),
            None => None,
        }
    }

    /// From then on the places of the names are known, where they are many. What is shared stays as it is.
    pub(crate) fn index(&mut self) -> Result<(), OutOfMemory>
        ensures { self.new ≡ self.old }
    {
        match &mut self.items {
            Some(shared) => match Rc::get_mut(shared) {
                Some(items) => items.index(self.alloc),
                None => Ok(()),
            },
            None => Ok(()),
        }
    }

    /// The same pairs, by their names. Who will ask for many names asks there.
    pub fn by_name(&self, alloc: Global) -> Result<ByName<'_, ComponentItem>, OutOfMemory>
        ensures { IfOk result (λ m. m ≡ self.now) }
    {
        match self.firsts() {
            Some(firsts) => ByName::kept(self.as_slice(), firsts),
            None => ByName::new(alloc, self.as_slice()),
        }
    }

    /// The same. Where another map has the same names, in the same order, and their places are known, these serve.
    pub fn by_name_beside(
        &self,
        alloc: Global,
        other: &ItemMap,
    ) -> Result<ByName<'_, ComponentItem>, OutOfMemory>
        ensures { IfOk result (λ m. m ≡ self.now) }
    {
        match other.firsts() {
            Some(firsts) if have_names(self.as_slice(), other.as_slice()) => {
                ByName::kept(self.as_slice(), firsts)
            }
            _ => self.by_name(alloc),
        }
    }

    /// Whether the pairs have the names of these, in the same order.
    pub fn has_names<V>(&self, pairs: &[(Text, V)]) -> bool
        ensures same { result ≡ true → texts_in pairs.now ≡ texts_in self.now }
        ensures others { result ≡ false → texts_in pairs.now ≡ texts_in self.now → ⊥ }
    {
        have_names(pairs, self.as_slice())
    }

    /// The item of the first pair with this name.
    pub fn get(&self, key: &Text) -> Option<&ComponentItem>
        ensures { option_copied result ≡ lookup (bytes_eq key.now) self.now }
    {
        match &self.items {
            Some(shared) => shared.get(key),
            None => None,
        }
    }
}
