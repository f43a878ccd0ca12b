// Aliases, and those of what core instances export.
ghost use Rattle.std.specs.Prelude.{◌≡◌, ◌∷◌, ◌<◌, [], true, false, not, length, List, All, Some, bytes_eq, OnOk, OnErr, IfOk, IfErr};
ghost use Rattle.std.specs.Map.{lookup};
ghost use Rattle.wcv_core.specs.CoreGroups.{total};
ghost use Rattle.wcv_core.specs.CoreSizes.{IsEntityWithin};
ghost use Rattle.wcv_core.specs.Names.{Place};
ghost use Rattle.wcv_core.specs.declared.error.ErrorKind.TheVariants as kinds;
ghost use Rattle.wcv_syntax.specs.Model.{alias_item};
ghost use Rattle.wcv_types.specs.Standing.{Stands};
ghost use Rattle.wcv_types.specs.Unfold.{tree_at};
ghost use Rattle.wcv_types.specs.declared.ids.Part.TheVariants as part;
ghost use Rattle.wcv_matching.specs.ModuleItems.{instance_exports};
ghost use Rattle.wcv_lower.specs.Checks.{IsFree};
ghost use Rattle.wcv_lower.specs.Context.{is_concrete};
ghost use Rattle.wcv_lower.specs.CoreInstances.{export_checks, core_alias_checks};
ghost use Rattle.wcv_lower.specs.CoreInstances.{is_of as is_sort_of};
ghost use Rattle.wcv_lower.specs.Growth.{call_checks};
ghost use Rattle.wcv_lower.specs.Names.{Names};
ghost use Rattle.wcv_lower.specs.Trees.{Tree_context, tree_maker};
ghost use Rattle.wcv_state.specs.Aliasing.{is_outer, AliasedOn};
ghost use Rattle.wcv_spaces.specs.Contents.{kind_of, context_of, stack_of, StateStands};
ghost use Rattle.wcv_spaces.specs.Looking.{AliasFinds};
ghost use Rattle.wcv_spaces.specs.Promises.{CausedBy, MemoryOrCausedBy, Keeps, Grew};
ghost use Rattle.wcv_state.specs.Stack.{IsOpen, ChangesLast, RefusedOn, KeepsOn, around, innermost, stack_on, stay};

use crate::marks::mark_all_spent;
use crate::outer_aliases::add_outer_alias;
use crate::state::ComponentState;
use wcv_core::{EntityType, Error, ErrorKind, Refusal, Text, Why};
use wcv_matching::core_export_of;
use wcv_spaces::core_sorts::{check_core_sort, check_item_room, is_of, sort_name};
use wcv_spaces::kind::ComponentKind;
use wcv_syntax::{ComponentAlias, ExternalKind};
use wcv_types::{ComponentCoreInstanceTypeId, TypeAlloc};

/// Whether what a core instance exports may be aliased where the item stands.
fn check_scope(kind: ComponentKind, offset: u64) -> Result<(), Refusal<'static>>
    ensures ok { OnOk result (IsFree ((kinds.AliasKind, not (is_concrete (kind_of kind))) ∷ [])) }
    ensures err { IfErr result (CausedBy ((kinds.AliasKind, not (is_concrete (kind_of kind))) ∷ []) offset) }
{
    match kind {
        ComponentKind::Component => Ok(()),
        _ => Err(Error::new(
            ErrorKind::AliasKind,
            offset,
            Why::new("a declared type may have no alias of what a core instance exports"),
        )),
    }
}

/// What the core instance exports under the name, which is to be of the sort.
fn core_export(
    types: &TypeAlloc,
    id: ComponentCoreInstanceTypeId,
    kind: ExternalKind,
    name: &Text,
    offset: u64,
) -> Result<EntityType, Error>
    requires { Stands types.now (part.CoreInstance id) }
    ensures ok { IfOk result (λ item. lookup (bytes_eq name.now) (instance_exports (tree_at types.now (part.CoreInstance id))) ≡ Some item) }
    ensures sort { IfOk result (λ item. is_sort_of kind item ≡ true) }
    ensures within { IfOk result (IsEntityWithin (total types.now.core)) }
    ensures err { IfErr result (CausedBy (export_checks kind (lookup (bytes_eq name.now) (instance_exports (tree_at types.now (part.CoreInstance id))))) offset) }
{
    match core_export_of(types, id, name) {
        Some(item) => {
            if is_of(kind, item) {
                return Ok(*item);
            }
            let why = Why::new("the core instance exports `%n`, which is no %w");
            let why = why.word(sort_name(kind)).name(name.as_str());
            Err(Error::from(Error::new(ErrorKind::WrongSort, offset, why)))
        }
        None => {
            let why = Why::new("the core instance has no export `%n`").name(name.as_str());
            Err(Error::from(Error::new(ErrorKind::UnknownExport, offset, why)))
        }
    }
}

impl ComponentState {
    /// What an alias of a core instance's export finds.
    fn aliased_item(
        &self,
        kind: ExternalKind,
        index: u32,
        name: &Text,
        types: &TypeAlloc,
        offset: u64,
    ) -> Result<EntityType, Error>
        requires { StateStands types.now self.now }
        ensures ok { IfOk result (AliasFinds types.now self.now.spaces kind index name.now) }
        ensures free { OnOk result (IsFree (core_alias_checks self.now.features (context_of types.now self.now) kind index name.now)) }
        ensures err { IfErr result (MemoryOrCausedBy (core_alias_checks self.now.features (context_of types.now self.now) kind index name.now) offset) }
    {
        check_scope(self.kind, offset)?;
        check_core_sort(kind, &self.features, offset)?;
        let id = self.core_instance_at(index, offset)?;
        let item = core_export(types, id, kind, name, offset)?;
        check_item_room(&self.spaces, kind, offset)?;
        Ok(item)
    }

    /// What a core instance exports joins the space of its sort.
    fn add_core_alias(
        &mut self,
        kind: ExternalKind,
        index: u32,
        name: Text,
        types: &TypeAlloc,
        offset: u64,
    ) -> Result<(), Error>
        requires live { self.old.spent ≡ false }
        requires stands { StateStands types.now self.old }
        ensures ok { OnOk result ((outer : List Tree_context) (p : Place) → Grew types.now types.now outer p self.old self.new (alias_item (ComponentAlias.CoreInstanceExport kind index name))) }
        ensures err { IfErr result (λ e. (outer : List Tree_context) (n : Names) (p : Place) → MemoryOrCausedBy (call_checks self.old.features (tree_maker n p) (stack_of types.now self.old outer) (alias_item (ComponentAlias.CoreInstanceExport kind index name))) offset e) }
        ensures keeps { Keeps types.now types.now self.old self.new }
    {
        let item = self.aliased_item(kind, index, &name, types, offset)?;
        self.push_core_item(item)?;
        Ok(())
    }

    /// An alias of what an instance or a core instance in this state exports.
    fn add_alias_here(
        &mut self,
        alias: ComponentAlias,
        types: &TypeAlloc,
        offset: u64,
    ) -> Result<(), Error>
        requires live { self.old.spent ≡ false }
        requires stands { StateStands types.now self.old }
        requires here { is_outer alias ≡ false }
        ensures ok { OnOk result ((outer : List Tree_context) (p : Place) → Grew types.now types.now outer p self.old self.new (alias_item alias)) }
        ensures err { IfErr result (λ e. (outer : List Tree_context) (n : Names) (p : Place) → MemoryOrCausedBy (call_checks self.old.features (tree_maker n p) (stack_of types.now self.old outer) (alias_item alias)) offset e) }
        ensures keeps { Keeps types.now types.now self.old self.new }
    {
        match alias {
            ComponentAlias::InstanceExport {
                kind,
                instance_index,
                name,
            } => self.add_export_alias(kind, instance_index, name, types, offset),
            ComponentAlias::CoreInstanceExport {
                kind,
                instance_index,
                name,
            } => self.add_core_alias(kind, instance_index, name, types, offset),
            ComponentAlias::Outer { .. } => unreachable!(),
        }
    }

    /// Reads an alias into the innermost state: what an instance or a core instance exports under a name, or what stands
    /// in a state further out, joins the space of its sort. Refuses an index that is not below the length of its space,
    /// and a count of states that is not below their number, as `OutOfBounds`, a name that the instance lacks as
    /// `UnknownExport`, an export of another sort as `WrongSort`, a tag or a value without its feature as `Feature`, an
    /// alias that a declared type may not have as `AliasKind`, a type or a component in which a resource is free and that
    /// would cross into a component as `ResourceScope`, and more items than there may be, or more that crosses, as
    /// `Limit`. What crosses is charged to the state right after the one that it stands in, where that is a component.
    /// After an error the states are spent. The length of the name is left to the caller.
    pub fn add_alias(
        components: &mut [ComponentState],
        alias: ComponentAlias,
        types: &mut TypeAlloc,
        offset: u64,
    ) -> Result<(), Error>
        requires some { 0 < length components.old }
        requires open { All (IsOpen types.old) components.old }
        ensures ok { OnOk result (AliasedOn types.old types.new components.old components.new alias) }
        ensures err { IfErr result (λ e. (p : Place) → RefusedOn types.old types.new p components.old components.new (alias_item alias) offset e) }
        ensures keeps { KeepsOn types.old types.new components.old components.new }
    {
        match add_alias_on(components, alias, types, offset) {
            Ok(()) => Ok(()),
            Err(error) => {
                mark_all_spent(components);
                Err(error)
            }
        }
    }
}

/// An alias in the innermost of the states. After an error the others are as they were.
fn add_alias_on(
    components: &mut [ComponentState],
    alias: ComponentAlias,
    types: &TypeAlloc,
    offset: u64,
) -> Result<(), Error>
    requires some { 0 < length components.old }
    requires open { All (IsOpen types.now) components.old }
    ensures ok { OnOk result (AliasedOn types.now types.now components.old components.new alias) }
    ensures err { IfErr result (λ e. (n : Names) (p : Place) → MemoryOrCausedBy (call_checks (innermost components.old).features (tree_maker n p) (stack_on types.now (around components.old) (innermost components.old)) (alias_item alias)) offset e) }
    ensures last { OnErr result (ChangesLast stay components.old components.new) }
    ensures keeps { KeepsOn types.now types.now components.old components.new }
{
    match alias {
        ComponentAlias::Outer { kind, count, index } => {
            add_outer_alias(components, kind, count, index, types, offset)
        }
        inside => {
            let last = components.len() - 1;
            components[last].add_alias_here(inside, types, offset)
        }
    }
}
