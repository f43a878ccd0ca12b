// Entries that join a list of imports or of exports.
ghost use Rattle.std.specs.Prelude.{◌≡◌, ◌∷◌, ◌++◌, [], All, OnOk, OnErr, IfOk, IfErr};
ghost use Rattle.wcv_core.specs.Checks.{IsFree, MemoryOrCausedBy};
ghost use Rattle.wcv_types.specs.Entities.{entity_tree, entry_trees, EntityStands, EntryStands};
ghost use Rattle.wcv_types.specs.Unfold.{trees};
ghost use Rattle.wcv_names.specs.Externs.{IsLeft, extern_checks, with_entry, entry_of};
ghost use Rattle.wcv_names.specs.FuncTrees.{names_in};
ghost use Rattle.wcv_names.specs.KeySet.{HasKeys};
ghost use Rattle.wcv_names.specs.ResourceNames.{names_of};
ghost use Rattle.wcv_names.specs.WholeNames.{extern_name};

use crate::conflict::conflict;
use crate::context::ComponentNameContext;
use crate::entity::{is_instance, measured};
use crate::name_set::NameSet;
use crate::whole_name::check_whole_name;
use std::alloc::Global;
use wcv_core::{Error, ExternKind, OutOfMemory, Text, WasmFeatures};
use wcv_syntax::ComponentExternName;
use wcv_types::{ComponentEntityType, ComponentItem, ItemMap, TypeAlloc, TypeInfo};

/// A copy of a text that may be there.
fn copied(alloc: Global, text: &Option<Text>) -> Result<Option<Text>, OutOfMemory>
    ensures { IfOk result (λ t. t ≡ text.now) }
{
    match text {
        Some(text) => {
            let text = Text::new(alloc, text.as_str())?;
            Ok(Some(text))
        }
        None => Ok(None),
    }
}

/// The entry of an entity under a whole name.
fn new_entry(
    alloc: Global,
    name: &ComponentExternName,
    ty: &ComponentEntityType,
) -> Result<(Text, ComponentItem), OutOfMemory>
    ensures { IfOk result (λ e. e ≡ entry_of name.now ty.now) }
{
    let text = Text::new(alloc, name.name.as_str())?;
    let implements = copied(alloc, &name.implements)?;
    let version_suffix = copied(alloc, &name.version_suffix)?;
    let external_id = copied(alloc, &name.external_id)?;
    Ok((
        text,
        ComponentItem {
            ty: *ty,
            implements,
            version_suffix,
            external_id,
        },
    ))
}

impl ComponentNameContext {
    /// Whether an entity may join a list under a whole name. The set of keys gets that of the name, and the
    /// size and the depth those of the entity; after an error they are as they were. Refuses as `Name`
    /// and `Feature` what the name itself may not be, as `MethodName` an entity that does not look as the
    /// name says, as `Conflict` a key that is taken, as `Limit` what becomes too large.
    #[tactic(auto, using(crate::proofs::Entering::by_name, crate::proofs::Entering::by_member, crate::proofs::Entering::by_size_later, crate::proofs::Entering::by_memory))]
    pub fn check_extern(
        &self,
        name: &ComponentExternName,
        kind: ExternKind,
        ty: &ComponentEntityType,
        types: &mut TypeAlloc,
        offset: u64,
        kind_names: &mut NameSet,
        items: &ItemMap,
        info: &mut TypeInfo,
        features: &WasmFeatures,
    ) -> Result<(), Error>
        requires entity { EntityStands types.old ty.now }
        requires items { All (EntryStands types.old) items.now }
        requires keys { HasKeys kind_names.old (names_in items.now) }
        ensures ok { OnOk result (IsFree (extern_checks (names_of self.now) features.now (entry_trees (trees types.old.nodes) items.now) info.old (extern_name name.now) (entity_tree (trees types.old.nodes) ty.now))) }
        ensures keys { OnOk result (HasKeys kind_names.new (names_in items.now ++ name.now.name ∷ [])) }
        ensures info { OnOk result (info.new ≡ with_entry info.old (entity_tree (trees types.old.nodes) ty.now)) }
        ensures err { IfErr result (MemoryOrCausedBy (extern_checks (names_of self.now) features.now (entry_trees (trees types.old.nodes) items.now) info.old (extern_name name.now) (entity_tree (trees types.old.nodes) ty.now)) offset) }
        ensures same_keys { OnErr result (kind_names.new ≡ kind_names.old) }
        ensures same_info { OnErr result (info.new ≡ info.old) }
        ensures types { types.new ≡ types.old }
    {
        let text = name.name.as_str();
        let form = match check_whole_name(
            self.allocator(),
            name,
            is_instance(ty, types),
            offset,
            features,
        ) {
            Ok(form) => form,
            Err(error) => return Err(error),
        };
        self.check_member(&form, text, kind, ty, kind_names, items, types, offset)?;
        let key = form.key_text(self.allocator())?;
        match kind_names.find(key.as_str()) {
            Some(position) => Err(conflict(text, kind, kind_names, items, position, offset)),
            None => {
                let whole = measured(*info, ty, types, offset)?;
                kind_names.append(key)?;
                *info = whole;
                Ok(())
            }
        }
    }

    /// An entity joins a list under a whole name, as `check_extern` says. After a refusal nothing has changed;
    /// out of memory the list has not.
    #[tactic(auto, using(crate::proofs::Entering::keys_of_joined))]
    pub fn validate_extern(
        &self,
        name: &ComponentExternName,
        kind: ExternKind,
        ty: &ComponentEntityType,
        types: &mut TypeAlloc,
        offset: u64,
        kind_names: &mut NameSet,
        items: &mut ItemMap,
        info: &mut TypeInfo,
        features: &WasmFeatures,
    ) -> Result<(), Error>
        requires entity { EntityStands types.old ty.now }
        requires items { All (EntryStands types.old) items.old }
        requires keys { HasKeys kind_names.old (names_in items.old) }
        ensures ok { OnOk result (IsFree (extern_checks (names_of self.now) features.now (entry_trees (trees types.old.nodes) items.old) info.old (extern_name name.now) (entity_tree (trees types.old.nodes) ty.now))) }
        ensures joined { OnOk result (items.new ≡ items.old ++ entry_of name.now ty.now ∷ []) }
        ensures keys { OnOk result (HasKeys kind_names.new (names_in items.new)) }
        ensures info { OnOk result (info.new ≡ with_entry info.old (entity_tree (trees types.old.nodes) ty.now)) }
        ensures err { IfErr result (MemoryOrCausedBy (extern_checks (names_of self.now) features.now (entry_trees (trees types.old.nodes) items.old) info.old (extern_name name.now) (entity_tree (trees types.old.nodes) ty.now)) offset) }
        ensures kept { OnErr result (items.new ≡ items.old) }
        ensures left { IfErr result (IsLeft kind_names.old kind_names.new info.old info.new (names_in items.old) name.now.name (entity_tree (trees types.old.nodes) ty.now)) }
        ensures types { types.new ≡ types.old }
    {
        self.check_extern(
            name, kind, ty, types, offset, kind_names, items, info, features,
        )?;
        let entry = new_entry(self.allocator(), name, ty)?;
        items.push(entry)?;
        Ok(())
    }
}
