// Aliases of what instances export.
ghost use Rattle.std.specs.Prelude.{◌≡◌, ◌∷◌, ◌++◌, [], true, false, not, ◌&&◌, All, Some, List, OnOk, IfOk, IfErr};
ghost use Rattle.wcv_core.specs.Names.{Place};
ghost use Rattle.wcv_core.specs.declared.error.ErrorKind.TheVariants as kinds;
ghost use Rattle.wcv_syntax.specs.Model.{alias_item};
ghost use Rattle.wcv_types.specs.Entities.{entry_trees, EntryStands};
ghost use Rattle.wcv_types.specs.Exported.{exports_at};
ghost use Rattle.wcv_types.specs.Standing.{Stands};
ghost use Rattle.wcv_types.specs.Tree.{exports};
ghost use Rattle.wcv_types.specs.Unfold.{tree_at, trees};
ghost use Rattle.wcv_types.specs.declared.ids.Part.TheVariants as part;
ghost use Rattle.wcv_lower.specs.Aliases.{sort_named, export_alias_checks};
ghost use Rattle.wcv_lower.specs.Aliases.{is_admitted as is_sort_admitted};
ghost use Rattle.wcv_lower.specs.Checks.{IsFree, no_room};
ghost use Rattle.wcv_lower.specs.Context.{is_concrete};
ghost use Rattle.wcv_lower.specs.Growth.{call_checks};
ghost use Rattle.wcv_lower.specs.Names.{Names};
ghost use Rattle.wcv_lower.specs.Trees.{Tree_context, tree_maker};
ghost use Rattle.wcv_lower.specs.Values.{kind_checks};
ghost use Rattle.wcv_state.specs.Aliasing as aliasing;
ghost use Rattle.wcv_state.specs.Aliasing.{export_id, export_id_checks, ExportFinds};
ghost use Rattle.wcv_spaces.specs.Contents.{kind_of, context_of, stack_of, StateStands};
ghost use Rattle.wcv_spaces.specs.Entering.{room_counts};
ghost use Rattle.wcv_spaces.specs.Parts.{lists};
ghost use Rattle.wcv_spaces.specs.Promises.{CausedBy, MemoryOrCausedBy, Keeps, Grew};

use crate::state::ComponentState;
use std::fmt;
use wcv_core::limits::{MAX_ENTRIES, MAX_INSTANCES};
use wcv_core::{Error, ErrorKind, Excerpt, Refusal, Text, Why};
use wcv_spaces::entries::check_count;
use wcv_spaces::features::check_kind;
use wcv_spaces::kind::ComponentKind;
use wcv_spaces::labels::are_alike;
use wcv_spaces::spaces::{Spaces, both};
use wcv_syntax::{ComponentAlias, ComponentExternalKind};
use wcv_types::{ComponentEntityType, ComponentInstanceTypeId, ItemMap, TypeAlloc};

/// What an item of the sort is called in messages.
fn sort_name(kind: ComponentExternalKind) -> &'static str {
    match kind {
        ComponentExternalKind::Module => "core module",
        ComponentExternalKind::Func => "function",
        ComponentExternalKind::Value => "value",
        ComponentExternalKind::Ty => "type",
        ComponentExternalKind::Instance => "instance",
        ComponentExternalKind::Component => "component",
    }
}

/// Whether the entity is of the sort.
fn is_kind(kind: ComponentExternalKind, ty: &ComponentEntityType) -> bool
    ensures { result ≡ aliasing.is_kind kind ty.now }
{
    matches!(
        (kind, ty),
        (
            ComponentExternalKind::Module,
            ComponentEntityType::Module(_)
        ) | (ComponentExternalKind::Func, ComponentEntityType::Func(_))
            | (ComponentExternalKind::Value, ComponentEntityType::Value(_))
            | (ComponentExternalKind::Ty, ComponentEntityType::Ty { .. })
            | (
                ComponentExternalKind::Instance,
                ComponentEntityType::Instance(_)
            )
            | (
                ComponentExternalKind::Component,
                ComponentEntityType::Component(_)
            )
    )
}

/// Whether an export of that sort may be aliased where the item stands: a declared type may alias types and
/// instances alone.
fn check_sort(
    state: ComponentKind,
    kind: ComponentExternalKind,
    offset: u64,
) -> Result<(), Refusal<'static>>
    ensures ok { OnOk result (IsFree ((kinds.AliasKind, not (is_concrete (kind_of state)) && not (is_sort_admitted kind)) ∷ [])) }
    ensures err { IfErr result (CausedBy ((kinds.AliasKind, not (is_concrete (kind_of state)) && not (is_sort_admitted kind)) ∷ []) offset) }
{
    match (state, kind) {
        (ComponentKind::Component, _)
        | (_, ComponentExternalKind::Ty)
        | (_, ComponentExternalKind::Instance) => Ok(()),
        _ => {
            let why = Why::new("a declared type may alias types and instances, and no %w");
            Err(Error::new(ErrorKind::AliasKind, offset, why.word(sort_name(kind))))
        }
    }
}

/// Whether there is room for one more item of the sort.
#[tactic(auto, using(wcv_spaces::proofs::CoreItems::funcs_full, crate::proofs::ExportAliases::instances_full))]
pub fn check_sort_room(
    spaces: &Spaces,
    kind: ComponentExternalKind,
    offset: u64,
) -> Result<(), Refusal<'static>>
    ensures ok { OnOk result (IsFree (no_room (room_counts (lists spaces.now)) (sort_named kind))) }
    ensures err { IfErr result (MemoryOrCausedBy (no_room (room_counts (lists spaces.now)) (sort_named kind)) offset) }
{
    match kind {
        ComponentExternalKind::Module => {
            check_count(
                spaces.core_modules.len(),
                MAX_INSTANCES,
                "core module",
                offset,
            )
        }
        ComponentExternalKind::Func => {
            let count = both(spaces.core_funcs.len(), spaces.funcs.len());
            check_count(count, MAX_ENTRIES, "function or core function", offset)
        }
        ComponentExternalKind::Value => {
            check_count(spaces.values.len(), MAX_INSTANCES, "value", offset)
        }
        ComponentExternalKind::Ty => {
            check_count(spaces.types.len(), MAX_ENTRIES, "type", offset)
        }
        ComponentExternalKind::Instance => {
            let count = both(spaces.core_instances.len(), spaces.instances.len());
            check_count(count, MAX_INSTANCES, "instance or core instance", offset)
        }
        ComponentExternalKind::Component => {
            check_count(spaces.components.len(), MAX_INSTANCES, "component", offset)
        }
    }
}

/// Shows which names an instance exports in place of one that it lacks: one that differs in case alone, or the first.
#[derive(Clone, Copy)]
struct Others<'a> {
    exports: &'a ItemMap,
    name: &'a str,
}

impl fmt::Display for Others<'_> {
    fn fmt<W: fmt::Write>(&self, f: &mut fmt::Formatter<W>) -> fmt::Result {
        let exports = self.exports;
        for position in 0..exports.len() {
            if let Some((name, _)) = exports.get_index(position) {
                if are_alike(name.as_str(), self.name) {
                    let near = Excerpt(name.as_str());
                    return write!(f, ", but one that differs in case, `{near}`");
                }
            }
        }
        match exports.get_index(0) {
            Some((name, _)) => {
                let count = exports.len();
                let first = Excerpt(name.as_str());
                write!(f, ": it has {count}, of which the first is `{first}`")
            }
            None => f.write_str(": it has none"),
        }
    }
}

/// What the instance exports.
fn exports_of(types: &TypeAlloc, id: ComponentInstanceTypeId) -> &ItemMap
    requires { Stands types.now (part.Instance id) }
    ensures is { result.now ≡ exports_at types.now id }
    ensures trees { exports (tree_at types.now (part.Instance id)) ≡ entry_trees (trees types.now.nodes) (exports_at types.now id) }
    ensures stand { All (EntryStands types.now) (exports_at types.now id) }
{
    &types.get(id).exports
}

/// What is exported under the name, which is to be of the sort.
fn named_export(
    types: &TypeAlloc,
    id: ComponentInstanceTypeId,
    kind: ComponentExternalKind,
    name: &Text,
    offset: u64,
) -> Result<ComponentEntityType, Error>
    requires { Stands types.now (part.Instance id) }
    ensures ok { IfOk result (λ x. export_id (exports_at types.now id) name.now ≡ Some x) }
    ensures sort { IfOk result (λ x. aliasing.is_kind kind x ≡ true) }
    ensures err { IfErr result (CausedBy (export_id_checks kind (export_id (exports_at types.now id) name.now)) offset) }
{
    let named = Excerpt(name.as_str());
    match types.export_of(id, name) {
        Some(item) => {
            if is_kind(kind, &item.ty) {
                return Ok(item.ty);
            }
            let sort = sort_name(kind);
            Err(Error::told(
                ErrorKind::WrongSort,
                offset,
                format_args!("the instance exports `{named}`, which is no {sort}"),
            ))
        }
        None => {
            let others = Others {
                exports: exports_of(types, id),
                name: name.as_str(),
            };
            Err(Error::told(
                ErrorKind::UnknownExport,
                offset,
                format_args!("the instance has no export `{named}`{others}"),
            ))
        }
    }
}

impl ComponentState {
    /// What an alias of an instance's export finds.
    fn aliased_export(
        &self,
        kind: ComponentExternalKind,
        index: u32,
        name: &Text,
        types: &TypeAlloc,
        offset: u64,
    ) -> Result<ComponentEntityType, Error>
        requires { StateStands types.now self.now }
        ensures ok { IfOk result (ExportFinds types.now self.now.spaces kind index name.now) }
        ensures free { OnOk result (IsFree (kind_checks self.now.features kind ++ export_alias_checks (context_of types.now self.now) kind index name.now)) }
        ensures err { IfErr result (MemoryOrCausedBy (kind_checks self.now.features kind ++ export_alias_checks (context_of types.now self.now) kind index name.now) offset) }
    {
        check_kind(&self.features, kind, offset)?;
        check_sort(self.kind, kind, offset)?;
        let id = self.instance_at(index, offset)?;
        let _ = exports_of(types, id);
        let item = named_export(types, id, kind, name, offset)?;
        check_sort_room(&self.spaces, kind, offset)?;
        Ok(item)
    }

    /// What an instance exports joins the space of its sort.
    pub(crate) fn add_export_alias(
        &mut self,
        kind: ComponentExternalKind,
        index: u32,
        name: Text,
        types: &TypeAlloc,
        offset: u64,
    ) -> Result<(), Error>
        requires live { self.old.spent ≡ false }
        requires stands { StateStands types.now self.old }
        ensures ok { OnOk result ((outer : List Tree_context) (p : Place) → Grew types.now types.now outer p self.old self.new (alias_item (ComponentAlias.InstanceExport kind index name))) }
        ensures err { IfErr result (λ e. (outer : List Tree_context) (n : Names) (p : Place) → MemoryOrCausedBy (call_checks self.old.features (tree_maker n p) (stack_of types.now self.old outer) (alias_item (ComponentAlias.InstanceExport kind index name))) offset e) }
        ensures keeps { Keeps types.now types.now self.old self.new }
    {
        let item = self.aliased_export(kind, index, &name, types, offset)?;
        self.push_entity(item)?;
        Ok(())
    }
}
