// Outer aliases: of what stands in a state further out.
ghost use Rattle.std.specs.Prelude.{◌≡◌, ◌∷◌, ◌+◌, ◌<◌, ◌≤◌, ◌^◌, [], true, false, not, ◌&&◌, All, Some, length, option_to_list, OnOk, OnErr, IfOk, IfErr};
ghost use Rattle.wcv_core.specs.declared.error.ErrorKind.TheVariants as kinds;
ghost use Rattle.wcv_types.specs.Entities.{entity_tree, EntityStands};
ghost use Rattle.wcv_types.specs.Unfold.{trees};
ghost use Rattle.wcv_lower.specs.Aliases.{is_charged, outer_admitted, outer_room};
ghost use Rattle.wcv_lower.specs.Checks.{IsFree, if_found, missing};
ghost use Rattle.wcv_lower.specs.Context.{is_concrete};
ghost use Rattle.wcv_lower.specs.Trees.{tree_reader};
ghost use Rattle.wcv_state.specs.Aliasing.{outer_id, with_aliased, is_entity, aliased_tree, AliasedStands, charge_of, crossing_checks, boundary_checks, after_target, charge_in, outer_id_checks, OuterFinds, AliasedOn};
ghost use Rattle.wcv_spaces.specs.Contents.{kind_of, spent, with_charge};
ghost use Rattle.wcv_spaces.specs.Entering.{room_counts};
ghost use Rattle.wcv_spaces.specs.Parts.{lists};
ghost use Rattle.wcv_spaces.specs.Promises.{CausedBy, MemoryOrCausedBy};
ghost use Rattle.wcv_state.specs.Stack.{IsOpen, ChangesLast, KeepsOn, innermost, stay};

use crate::export_aliases::check_sort_room;
use crate::state::ComponentState;
use wcv_core::limits::{MAX_ENTRIES, MAX_SIZE};
use wcv_core::{Error, ErrorKind, OutOfMemory, Refusal, Why};
use wcv_names::entity_info;
use wcv_spaces::entries::check_count;
use wcv_spaces::kind::ComponentKind;
use wcv_spaces::spaces::{Spaces, both};
use wcv_syntax::{ComponentAlias, ComponentExternalKind, ComponentOuterAliasKind};
use wcv_types::{ComponentCoreTypeId, ComponentEntityType, ResourceSet, TypeAlloc};
use wcv_walks::FreeVariables;

/// What an outer alias brings, by its id: of a type both nodes are the one that stands there.
#[derive(Clone, Copy)]
pub enum Aliased {
    CoreType(ComponentCoreTypeId),
    Entity(ComponentEntityType),
}

/// What an item of the sort is called in messages.
fn kind_name(kind: ComponentOuterAliasKind) -> &'static str {
    match kind {
        ComponentOuterAliasKind::CoreModule => "core module",
        ComponentOuterAliasKind::CoreType => "core type",
        ComponentOuterAliasKind::Ty => "type",
        ComponentOuterAliasKind::Component => "component",
    }
}

/// Whether an item of that sort may be aliased where the item stands: a declared type may alias types and core types
/// alone.
fn check_kind(
    state: ComponentKind,
    kind: ComponentOuterAliasKind,
    offset: u64,
) -> Result<(), Refusal<'static>>
    ensures ok { OnOk result (IsFree ((kinds.AliasKind, not (is_concrete (kind_of state)) && not (outer_admitted kind)) ∷ [])) }
    ensures err { IfErr result (CausedBy ((kinds.AliasKind, not (is_concrete (kind_of state)) && not (outer_admitted kind)) ∷ []) offset) }
{
    match (state, kind) {
        (ComponentKind::Component, _)
        | (_, ComponentOuterAliasKind::Ty)
        | (_, ComponentOuterAliasKind::CoreType) => Ok(()),
        _ => {
            let why = Why::new("a declared type may alias types and core types, and no %w");
            Err(Error::new(ErrorKind::AliasKind, offset, why.word(kind_name(kind))))
        }
    }
}

/// Whether there is room for one more item of the sort.
#[tactic(auto, using(wcv_spaces::proofs::CoreItems::funcs_full, crate::proofs::OuterAliases::one_more))]
fn check_outer_room(
    spaces: &Spaces,
    kind: ComponentOuterAliasKind,
    offset: u64,
) -> Result<(), Refusal<'static>>
    ensures ok { OnOk result (IsFree (outer_room kind (room_counts (lists spaces.now)))) }
    ensures err { IfErr result (MemoryOrCausedBy (outer_room kind (room_counts (lists spaces.now))) offset) }
{
    match kind {
        ComponentOuterAliasKind::CoreModule => {
            check_sort_room(spaces, ComponentExternalKind::Module, offset)
        }
        ComponentOuterAliasKind::Component => {
            check_sort_room(spaces, ComponentExternalKind::Component, offset)
        }
        ComponentOuterAliasKind::CoreType | ComponentOuterAliasKind::Ty => {
            let count = both(spaces.core_types.len() as usize, spaces.types.len());
            check_count(count, MAX_ENTRIES, "type or core type", offset)
        }
    }
}

/// Whether a resource is free in the type of the entity.
#[tactic(auto, using(crate::proofs::FreeAtAll::free_told))]
fn has_free(types: &TypeAlloc, ty: &ComponentEntityType) -> Result<bool, OutOfMemory>
    requires { EntityStands types.now ty.now }
    ensures { IfOk result (λ b. b ≡ tree_reader.has_free (entity_tree (trees types.now.nodes) ty.now)) }
{
    let mut free = ResourceSet::new(types.allocator());
    types.free_variables_component_entity(ty, &mut free)?;
    Ok(free.len() > 0)
}

/// Whether an item of the sort is charged to such a state.
fn crosses(state: ComponentKind, kind: ComponentOuterAliasKind) -> bool
    ensures { result ≡ (is_charged kind && is_concrete (kind_of state)) }
{
    matches!(
        (state, kind),
        (ComponentKind::Component, ComponentOuterAliasKind::Ty)
            | (ComponentKind::Component, ComponentOuterAliasKind::Component)
    )
}

/// The refusal of a type or a component in which a resource is free.
fn free_at_boundary(kind: ComponentOuterAliasKind, offset: u64) -> Refusal<'static>
    ensures { CausedBy ((kinds.ResourceScope, true) ∷ []) offset result }
{
    let why = Why::new("the aliased %w refers to a resource of a component further out");
    Error::new(ErrorKind::ResourceScope, offset, why.word(kind_name(kind)))
}

impl ComponentState {
    /// What stands in this state for an outer alias.
    #[tactic(auto, using(wcv_spaces::proofs::CoreItems::missing_mapped))]
    fn outer_item(
        &self,
        kind: ComponentOuterAliasKind,
        index: u32,
        offset: u64,
    ) -> Result<Aliased, Refusal<'static>>
        ensures ok { IfOk result (λ x. outer_id kind self.now.spaces index ≡ Some x) }
        ensures err { IfErr result (CausedBy (missing (outer_id kind self.now.spaces index)) offset) }
    {
        match kind {
            ComponentOuterAliasKind::CoreModule => {
                let id = self.module_at(index, offset)?;
                Ok(Aliased::Entity(ComponentEntityType::Module(id)))
            }
            ComponentOuterAliasKind::CoreType => {
                Ok(Aliased::CoreType(self.core_type_at(index, offset)?))
            }
            ComponentOuterAliasKind::Ty => {
                let id = self.component_type_at(index, offset)?;
                Ok(Aliased::Entity(ComponentEntityType::Ty {
                    created: id,
                    referenced: id,
                }))
            }
            ComponentOuterAliasKind::Component => {
                let id = self.component_at(index, offset)?;
                Ok(Aliased::Entity(ComponentEntityType::Component(id)))
            }
        }
    }

    /// The size of a type or a component that crosses into this state, which is charged to it.
    fn crossing_size(
        &self,
        kind: ComponentOuterAliasKind,
        ty: &ComponentEntityType,
        types: &TypeAlloc,
        offset: u64,
    ) -> Result<u32, Error>
        requires { EntityStands types.now ty.now }
        ensures ok { IfOk result (λ n. n ≡ tree_reader.size (entity_tree (trees types.now.nodes) ty.now)) }
        ensures fits { IfOk result (λ n. self.now.aliased + n ≤ 4294967295) }
        ensures free { OnOk result (IsFree (crossing_checks self.now (entity_tree (trees types.now.nodes) ty.now))) }
        ensures err { IfErr result (MemoryOrCausedBy (crossing_checks self.now (entity_tree (trees types.now.nodes) ty.now)) offset) }
    {
        if has_free(types, ty)? {
            return Err(Error::from(free_at_boundary(kind, offset)));
        }
        let size = entity_info(ty, types).size;
        let total = self.aliased as u64 + size as u64;
        if total > MAX_SIZE {
            let why = Why::new(
                "what is aliased into the component has the size %1, at most %2 is allowed",
            );
            let why = why.numbers([total, MAX_SIZE, 0]);
            return Err(Error::from(Error::new(ErrorKind::Limit, offset, why)));
        }
        Ok(size)
    }

    /// The size that is charged to this state for what is aliased into it or through it, which is 0 where nothing
    /// crosses.
    fn charge_for(
        &self,
        kind: ComponentOuterAliasKind,
        item: &Aliased,
        types: &TypeAlloc,
        offset: u64,
    ) -> Result<u32, Error>
        requires stands { AliasedStands types.now item.now }
        requires sort { is_charged kind ≡ true → is_entity item.now ≡ true }
        ensures ok { IfOk result (λ n. n ≡ charge_of kind self.now (aliased_tree types.now item.now)) }
        ensures fits { IfOk result (λ n. 0 < n → self.now.aliased + n ≤ 4294967295) }
        ensures free { OnOk result (IsFree (boundary_checks kind self.now (aliased_tree types.now item.now))) }
        ensures err { IfErr result (MemoryOrCausedBy (boundary_checks kind self.now (aliased_tree types.now item.now)) offset) }
    {
        if !crosses(self.kind, kind) {
            return Ok(0);
        }
        match item {
            Aliased::Entity(ty) => self.crossing_size(kind, ty, types, offset),
            Aliased::CoreType(_) => unreachable!(),
        }
    }

    /// What was aliased joins its space, whatever the number of those there; a core type where 32 bits count it.
    fn push_aliased(&mut self, item: Aliased) -> Result<(), OutOfMemory>
        requires live { self.old.spent ≡ false }
        requires room { is_entity item ≡ false → length self.old.spaces.core_types + 1 < 2 ^ 32 }
        ensures ok { OnOk result (self.new ≡ with_aliased item self.old) }
        ensures err { OnErr result (self.new ≡ spent self.old) }
    {
        match item {
            Aliased::CoreType(id) => self.push_core_type(id),
            Aliased::Entity(ty) => self.push_entity(ty),
        }
    }

    /// Something of that size was aliased into the state.
    fn charge(&mut self, size: u32)
        requires { 0 < size → self.old.aliased + size ≤ 4294967295 }
        ensures { self.new ≡ with_charge size self.old }
    {
        self.aliased += size;
    }
}

/// The size that is charged to the state right after the target of an outer alias, which is 0 where there is none
/// between the two.
fn charge_after(
    components: &[ComponentState],
    reach: usize,
    kind: ComponentOuterAliasKind,
    item: &Aliased,
    types: &TypeAlloc,
    offset: u64,
) -> Result<u32, Error>
    requires within { reach < length components.now }
    requires stands { AliasedStands types.now item.now }
    requires sort { is_charged kind ≡ true → is_entity item.now ≡ true }
    ensures ok { IfOk result (λ n. n ≡ charge_in types.now components.now kind reach item.now) }
    ensures fits { IfOk result (λ n. 0 < n → All (λ s. s.aliased + n ≤ 4294967295) (option_to_list (after_target components.now reach))) }
    ensures free { OnOk result (IsFree (if_found (λ s. boundary_checks kind s (aliased_tree types.now item.now)) (after_target components.now reach))) }
    ensures err { IfErr result (MemoryOrCausedBy (if_found (λ s. boundary_checks kind s (aliased_tree types.now item.now)) (after_target components.now reach)) offset) }
{
    if reach == 0 {
        return Ok(0);
    }
    components[components.len() - reach].charge_for(kind, item, types, offset)
}

/// What an outer alias finds, and the size that is charged for it to the state right after its target.
fn look_out(
    components: &[ComponentState],
    kind: ComponentOuterAliasKind,
    count: u32,
    index: u32,
    types: &TypeAlloc,
    offset: u64,
) -> Result<(Aliased, u32), Error>
    requires some { 0 < length components.now }
    requires open { All (IsOpen types.now) components.now }
    ensures ok { IfOk result (λ r. OuterFinds types.now components.now kind count index r.0 r.1) }
    ensures within { OnOk result (count < length components.now) }
    ensures free { OnOk result (IsFree (outer_id_checks types.now components.now (innermost components.now) kind count index)) }
    ensures err { IfErr result (MemoryOrCausedBy (outer_id_checks types.now components.now (innermost components.now) kind count index) offset) }
{
    let last = components.len() - 1;
    let reach = count as usize;
    let state = &components[last];
    check_kind(state.kind, kind, offset)?;
    if reach > last {
        let why = Why::new("invalid outer alias count of %1").numbers([count as u64, 0, 0]);
        return Err(Error::from(Error::new(ErrorKind::OutOfBounds, offset, why)));
    }
    let item = components[last - reach].outer_item(kind, index, offset)?;
    let size = charge_after(components, reach, kind, &item, types, offset)?;
    check_outer_room(&state.spaces, kind, offset)?;
    Ok((item, size))
}

/// An outer alias in the innermost of the states. After an error the others are as they were.
pub fn add_outer_alias(
    components: &mut [ComponentState],
    kind: ComponentOuterAliasKind,
    count: u32,
    index: u32,
    types: &TypeAlloc,
    offset: u64,
) -> Result<(), Error>
    requires some { 0 < length components.old }
    requires open { All (IsOpen types.now) components.old }
    ensures ok { OnOk result (AliasedOn types.now types.now components.old components.new (ComponentAlias.Outer kind count index)) }
    ensures err { IfErr result (MemoryOrCausedBy (outer_id_checks types.now components.old (innermost components.old) kind count index) offset) }
    ensures last { OnErr result (ChangesLast stay components.old components.new) }
    ensures keeps { KeepsOn types.now types.now components.old components.new }
{
    let (item, size) = look_out(components, kind, count, index, types, offset)?;
    let last = components.len() - 1;
    components[last].push_aliased(item)?;
    if count == 0 {
        return Ok(());
    }
    components[last - (count as usize - 1)].charge(size);
    Ok(())
}
