// Whether an entity looks as its name says.
ghost use Rattle.std.specs.Prelude.{◌≡◌, ◌⊎◌, All, true, false, bytes_eq, option_copied, OnOk, IfOk, IfErr};
ghost use Rattle.std.specs.Map.{lookup};
ghost use Rattle.wcv_core.specs.Refusal.{error_kind, error_offset};
ghost use Rattle.wcv_core.specs.declared.error.ErrorKind.TheVariants as kinds;
ghost use Rattle.wcv_syntax.specs.ExternName.{set as sets, access_of, getter_of};
ghost use Rattle.wcv_syntax.specs.NameViews.{kind_view};
ghost use Rattle.wcv_types.specs.Entities.{entity_tree, entry_trees, EntityStands, EntryStands};
ghost use Rattle.wcv_types.specs.Unfold.{trees};
ghost use Rattle.wcv_names.specs.Externs.{is_set};
ghost use Rattle.wcv_names.specs.FuncTrees.{names_in};
ghost use Rattle.wcv_names.specs.KeySet.{HasKeys};
ghost use Rattle.wcv_names.specs.ResourceNames.{names_of};
ghost use Rattle.wcv_names.specs.Rules as rules;
ghost use Rattle.wcv_names.specs.Rules.{follows};
ghost use Rattle.wcv_names.specs.Shapes.{option_tree, OptionStands};

use crate::context::ComponentNameContext;
use crate::functions::{func_of, func_part, gotten, taken};
use crate::name_set::NameSet;
use crate::wanted::Wanted;
use std::alloc::Global;
use wcv_core::{Error, ErrorKind, Excerpt, ExternKind, OutOfMemory, Text};
use wcv_syntax::ComponentNameKind;
use wcv_types::{ComponentEntityType, ComponentItem, ComponentValType, ItemMap, TypeAlloc};

fn is_setter(kind: &ComponentNameKind<'_>) -> bool
    ensures { result ≡ is_set (access_of (kind_view kind.now)) }
{
    match kind {
        ComponentNameKind::Setter(_)
        | ComponentNameKind::MethodSetter(_, _)
        | ComponentNameKind::StaticSetter(_, _) => true,
        _ => false,
    }
}

/// Whether an item of any sort may have the name.
fn is_for_any_sort(kind: &ComponentNameKind<'_>) -> bool
    ensures { result ≡ rules.is_for_any_sort (kind_view kind.now) }
{
    match kind {
        ComponentNameKind::Label(_) | ComponentNameKind::Interface(_) => true,
        _ => false,
    }
}

/// The getter of the same spelling.
fn getter_kind<'a>(kind: &ComponentNameKind<'a>) -> ComponentNameKind<'a>
    requires { access_of (kind_view kind.now) ≡ sets }
    ensures { kind_view result ≡ getter_of (kind_view kind.now) }
{
    match kind {
        ComponentNameKind::Setter(label) => ComponentNameKind::Getter(label),
        ComponentNameKind::MethodSetter(resource, function) => {
            ComponentNameKind::MethodGetter(resource, function)
        }
        ComponentNameKind::StaticSetter(resource, function) => {
            ComponentNameKind::StaticGetter(resource, function)
        }
        _ => unreachable!(),
    }
}

/// The item of the first entry of that name. What stands at the place where the key came is that entry, if it
/// has the name and there are as many keys as entries; else the list is looked through.
fn first_item<'a>(
    name: &Text,
    key: String,
    names: &NameSet,
    items: &'a ItemMap,
) -> Option<&'a ComponentItem>
    requires { HasKeys names.now (names_in items.now) }
    ensures { option_copied result ≡ lookup (bytes_eq name.now) items.now }
{
    if names.len() == items.len() {
        if let Some(place) = names.find(key.as_str()) {
            if let Some(entry) = items.get_index(place) {
                if name.as_str() == entry.0.as_str() {
                    return Some(&entry.1);
                }
            }
        }
    }
    items.get(name)
}

/// Whether a setter takes what the getter of the same spelling gives that stands before it. `wanted` is what it
/// takes.
fn is_paired(
    kind: &ComponentNameKind<'_>,
    wanted: Option<ComponentValType>,
    names: &NameSet,
    items: &ItemMap,
    types: &mut TypeAlloc,
    alloc: Global,
) -> Result<bool, OutOfMemory>
    requires wanted { OptionStands types.old wanted }
    requires items { All (EntryStands types.old) items.now }
    requires keys { HasKeys names.now (names_in items.now) }
    ensures paired { IfOk result (λ b. b ≡ rules.is_paired_by (access_of (kind_view kind.now)) (option_tree types.old wanted) (rules.getter_in (kind_view kind.now) (entry_trees (trees types.old.nodes) items.now))) }
    ensures types { types.new ≡ types.old }
{
    if !is_setter(kind) {
        return Ok(true);
    }
    let name = kind.getter_for_setter(alloc)?;
    let key = getter_kind(kind).key_text(alloc)?;
    let given = match first_item(&name, key, names, items) {
        Some(item) => gotten(&item.ty, types),
        None => return Ok(false),
    };
    let same = types.option_type_eq(wanted, given)?;
    Ok(same)
}

impl ComponentNameContext {
    /// Whether the entity looks as its name says.
    fn follows(
        &self,
        kind: &ComponentNameKind<'_>,
        ty: &ComponentEntityType,
        names: &NameSet,
        items: &ItemMap,
        types: &mut TypeAlloc,
    ) -> Result<bool, OutOfMemory>
        requires entity { EntityStands types.old ty.now }
        requires items { All (EntryStands types.old) items.now }
        requires keys { HasKeys names.now (names_in items.now) }
        ensures follows { IfOk result (λ b. b ≡ follows (names_of self.now) (entry_trees (trees types.old.nodes) items.now) (kind_view kind.now) (entity_tree (trees types.old.nodes) ty.now)) }
        ensures types { types.new ≡ types.old }
    {
        match func_part(ty) {
            Some(id) => {
                let func = func_of(types, id);
                if !self.function_fits(kind, func, types) {
                    return Ok(false);
                }
                let wanted = taken(kind, func, types);
                let paired = is_paired(kind, wanted, names, items, types, self.allocator())?;
                Ok(paired)
            }
            None => Ok(is_for_any_sort(kind)),
        }
    }

    /// Refuses as `MethodName` an entity that does not look as its name says.
    pub(crate) fn check_member(
        &self,
        kind: &ComponentNameKind<'_>,
        name: &str,
        list: ExternKind,
        ty: &ComponentEntityType,
        names: &NameSet,
        items: &ItemMap,
        types: &mut TypeAlloc,
        offset: u64,
    ) -> Result<(), Error>
        requires entity { EntityStands types.old ty.now }
        requires items { All (EntryStands types.old) items.now }
        requires keys { HasKeys names.now (names_in items.now) }
        ensures ok { OnOk result (follows (names_of self.now) (entry_trees (trees types.old.nodes) items.now) (kind_view kind.now) (entity_tree (trees types.old.nodes) ty.now) ≡ true) }
        ensures err { IfErr result (λ e. (error_kind e ≡ kinds.OutOfMemory) ⊎ ((error_kind e ≡ kinds.MethodName) × (error_offset e ≡ offset) × (follows (names_of self.now) (entry_trees (trees types.old.nodes) items.now) (kind_view kind.now) (entity_tree (trees types.old.nodes) ty.now) ≡ false))) }
        ensures types { types.new ≡ types.old }
    {
        if !self.follows(kind, ty, names, items, types)? {
            let word = list.desc();
            let excerpt = Excerpt(name);
            let wanted = Wanted(kind);
            return Err(Error::told(
                ErrorKind::MethodName,
                offset,
                format_args!("{word} `{excerpt}` must be {wanted}"),
            ));
        }
        Ok(())
    }
}
