// A list of named items, and where its names stand in it.
ghost use Rattle.std.specs.Prelude.{◌≡◌, List, [], ◌∷◌, ◌++◌, length, option_copied, bytes_eq, IfOk, IfSome, OnOk, OnErr};
ghost use Rattle.std.specs.Map.{lookup};
ghost use Rattle.wcv_types.specs.ByName.{AreFirsts, texts_in};
ghost use Rattle.wcv_types.specs.Entities.{retyped};
ghost use Rattle.wcv_types.specs.Tree.{Text};

use crate::again::copy_text;
use crate::by_name::{Firsts, MAX_WALKED, firsts_of, look_up};
use crate::item_map::ComponentItem;
use crate::shapes::ComponentEntityType;
use std::alloc::Global;
use std::marker::Model;
use std::rc::Rc;
use wcv_core::{OutOfMemory, Text};

/// Items by name, in order, and the places of their names, where these were asked for. Contracts see it as the list
/// of its pairs.
#[derive(Drop)]
pub struct NamedItems {
    pairs: Vec<(Text, ComponentItem)>,
    firsts: Option<Rc<Firsts>>,
}

impl Model for NamedItems {
    ghost use Rattle.std.specs.Prelude.{List, IfSome};
    ghost use Rattle.wcv_types.specs.ByName.{AreFirsts, texts_in};
    ghost use Rattle.wcv_types.specs.Tree.{Text};
    ghost use Rattle.wcv_types.specs.declared.item_map.ComponentItem.{ComponentItem};

    ghost Value = { List (Text × ComponentItem) };

    ghost view = { λ x. x.pairs.items };

    ghost invariant = { λ x. IfSome x.firsts (λ f. AreFirsts f.value.by_number f.value.by_bytes (texts_in x.pairs.items)) };
}

/// A copy of the pair, but for its type.
pub fn copy_pair(
    alloc: Global,
    pair: &(Text, ComponentItem),
    ty: ComponentEntityType,
) -> Result<(Text, ComponentItem), OutOfMemory>
    ensures { IfOk result (λ copied. copied ≡ (pair.now.0, record pair.now.1 { ty = ty })) }
{
    let item = pair.1.copy_with(alloc, ty)?;
    let name = copy_text(alloc, &pair.0)?;
    Ok((name, item))
}

/// The same places, shared.
fn share(firsts: &Option<Rc<Firsts>>) -> Result<Option<Rc<Firsts>>, OutOfMemory>
    ensures { IfOk result (λ shared. (us : List Text) → IfSome firsts.now (λ f. AreFirsts f.value.by_number f.value.by_bytes us) → IfSome shared (λ f. AreFirsts f.value.by_number f.value.by_bytes us)) }
{
    match firsts {
        Some(firsts) => Ok(Some(firsts.clone()?)),
        None => Ok(None),
    }
}

impl NamedItems {
    /// None.
    pub fn new(alloc: Global) -> NamedItems
        ensures { result ≡ [] }
    {
        NamedItems {
            pairs: Vec::new(alloc),
            firsts: None,
        }
    }

    /// Appends a pair. The places of the names are forgotten.
    pub fn push(&mut self, entry: (Text, ComponentItem)) -> Result<(), OutOfMemory>
        ensures ok { OnOk result (self.new ≡ self.old ++ entry ∷ []) }
        ensures err { OnErr result (self.new ≡ self.old) }
    {
        self.firsts = None;
        self.pairs.push(entry)?;
        Ok(())
    }

    /// All pairs, lent.
    pub fn as_slice(&self) -> &[(Text, ComponentItem)]
        ensures { result.now ≡ self.now }
    {
        self.pairs.as_slice()
    }

    /// The places of the names, where they are known.
    pub fn firsts(&self) -> Option<&Rc<Firsts>>
        ensures { IfSome (option_copied result) (λ f. AreFirsts f.value.by_number f.value.by_bytes (texts_in self.now)) }
    {
        self.firsts.as_ref()
    }

    /// From then on the places of the names are known, where they are many. Out of memory nothing changes.
    pub fn index(&mut self, alloc: Global) -> Result<(), OutOfMemory>
        ensures { self.new ≡ self.old }
    {
        if self.pairs.len() > MAX_WALKED && self.firsts.is_none() {
            let firsts = firsts_of(alloc, self.pairs.as_slice())?;
            self.firsts = Some(Rc::new(alloc, firsts)?);
        }
        Ok(())
    }

    /// The item of the first pair with this name.
    pub fn get(&self, key: &Text) -> Option<&ComponentItem>
        ensures { option_copied result ≡ lookup (bytes_eq key.now) self.now }
    {
        look_up(&self.firsts, self.pairs.as_slice(), key)
    }

    /// Copies of the pairs.
    pub fn copy(&self, alloc: Global) -> Result<NamedItems, OutOfMemory>
        ensures { IfOk result (λ copied. copied ≡ self.now) }
    {
        let mut copied = NamedItems::new(alloc);
        for entry in &self.pairs {
            copied.push(copy_pair(alloc, entry, entry.1.ty)?)?;
        }
        Ok(copied)
    }

    /// Copies of the pairs with these types. The places of the names are shared.
    pub fn copy_with(
        &self,
        alloc: Global,
        tys: &[ComponentEntityType],
    ) -> Result<NamedItems, OutOfMemory>
        requires { length tys.now ≡ length self.now }
        ensures { IfOk result (λ made. made ≡ retyped self.now tys.now) }
    {
        let old = self.as_slice();
        let mut pairs = Vec::with_capacity(alloc, old.len())?;
        for k in 0..old.len() {
            pairs.push(copy_pair(alloc, &old[k], tys[k])?)?;
        }
        let firsts = share(&self.firsts)?;
        Ok(NamedItems { pairs, firsts })
    }
}
