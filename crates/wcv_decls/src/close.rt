// The ends of declared types: the state leaves, and its type joins the types of the state around it.
ghost use Rattle.std.specs.Prelude.{◌≡◌, ◌<◌, ◌≤◌, false, length, All, OnOk, OnErr, IfOk, IfErr};
ghost use Rattle.wcv_core.specs.Refusal.{error_kind};
ghost use Rattle.wcv_core.specs.declared.error.ErrorKind.TheVariants as kinds;
ghost use Rattle.wcv_types.specs.ByName.{NamesDiffer};
ghost use Rattle.wcv_types.specs.ComponentTrees.{ResourceStands};
ghost use Rattle.wcv_types.specs.Entities.{entry_trees, EntryStands};
ghost use Rattle.wcv_types.specs.Led.{HasPath};
ghost use Rattle.wcv_types.specs.Sets.{resource_names};
ghost use Rattle.wcv_types.specs.Standing.{Fits};
ghost use Rattle.wcv_types.specs.Tree.{firsts};
ghost use Rattle.wcv_types.specs.Unfold.{trees};
ghost use Rattle.wcv_types.specs.declared.arena.Node.TheVariants as node;
ghost use Rattle.wcv_lower.specs.Context.{in_types, declares_instance, declares_component};
ghost use Rattle.wcv_lower.specs.Ending.{end_checks};
ghost use Rattle.wcv_spaces.specs.Contents.{context_of, StateStands};
ghost use Rattle.wcv_spaces.specs.Promises.{MemoryOrCausedBy, Keeps, Finished};
ghost use Rattle.wcv_decls.specs.Declaring.{innermost, around, top_in, AreReady, DeclaresInstance, SameAround, Ends};
ghost use Rattle.wcv_decls.specs.Items.{Stored};
ghost use Rattle.wcv_decls.specs.Stack.{KeepsOn};

use std::alloc::Global;
use wcv_core::{Error, OutOfMemory};
use wcv_state::ComponentState;
use wcv_types::{
    ComponentAnyTypeId, ComponentInstanceType, ComponentInstanceTypeId, ComponentType,
    ComponentTypeId, Paths, ResourceSet, TypeAlloc, TypeInfo,
};

/// The type of what the state read, which is let go.
fn type_at_end(
    state: ComponentState,
    types: &TypeAlloc,
    offset: u64,
) -> Result<ComponentType, Error>
    requires live { state.spent ≡ false }
    requires stands { StateStands types.now state }
    ensures ok { IfOk result (Finished types.now state) }
    ensures err { IfErr result (MemoryOrCausedBy (end_checks (context_of types.now state)) offset) }
{
    let mut state = state;
    let taken = state.take_type(types, offset);
    drop(state);
    taken
}

/// The type of what the innermost state read, which leaves.
pub fn pop_type(
    components: &mut Vec<ComponentState>,
    types: &TypeAlloc,
    offset: u64,
) -> Result<ComponentType, Error>
    requires { AreReady types.now components.old.items }
    ensures left { components.new.items ≡ around components.old.items }
    ensures ok { IfOk result (Finished types.now (innermost components.old.items)) }
    ensures err { IfErr result (MemoryOrCausedBy (end_checks (top_in types.now components.old.items)) offset) }
{
    match components.pop() {
        Some(state) => type_at_end(state, types, offset),
        None => unreachable!(),
    }
}

/// The innermost state leaves, with what it read.
pub fn leave(components: &mut Vec<ComponentState>)
    ensures { components.new.items ≡ around components.old.items }
{
    match components.pop() {
        Some(state) => drop(state),
        None => (),
    }
}

/// A component type joins the types of a state.
#[tactic(auto, using(crate::proofs::Storing::unchanged))]
fn store_component(
    ty: ComponentType,
    state: &mut ComponentState,
    types: &mut TypeAlloc,
) -> Result<(), OutOfMemory>
    requires live { state.old.spent ≡ false }
    requires stands { StateStands types.old state.old }
    requires fits { Fits types.old (node.Component ty) }
    ensures ok { OnOk result (Stored in_types types.old types.new state.old state.new (node.Component ty)) }
    ensures keeps { OnErr result (Keeps types.old types.new state.old state.new) }
{
    let id: ComponentTypeId = types.push_ty(ty)?;
    state.push_type(ComponentAnyTypeId::Component(id))
}

/// So does an instance type.
#[tactic(auto, using(crate::proofs::Storing::unchanged))]
fn store_instance(
    ty: ComponentInstanceType,
    state: &mut ComponentState,
    types: &mut TypeAlloc,
) -> Result<(), OutOfMemory>
    requires live { state.old.spent ≡ false }
    requires stands { StateStands types.old state.old }
    requires fits { Fits types.old (node.Instance ty) }
    ensures ok { OnOk result (Stored in_types types.old types.new state.old state.new (node.Instance ty)) }
    ensures keeps { OnErr result (Keeps types.old types.new state.old state.new) }
{
    let id: ComponentInstanceTypeId = types.push_ty(ty)?;
    state.push_type(ComponentAnyTypeId::Instance(id))
}

/// The resources that have a path, in order.
fn resources_of(alloc: Global, paths: &Paths) -> Result<ResourceSet, OutOfMemory>
    ensures { IfOk result (λ s. s ≡ firsts paths.now) }
{
    let mut resources = ResourceSet::new(alloc);
    for k in 0..paths.len() {
        match paths.get_index(k) {
            Some((resource, _)) => resources.push(*resource)?,
            None => unreachable!(),
        }
    }
    Ok(resources)
}

/// The instance type with these exports, which owns the defined resources.
fn instance_of(ty: ComponentType, types: &TypeAlloc) -> Result<ComponentInstanceType, OutOfMemory>
    requires exports { All (EntryStands types.now) ty.exports }
    requires owned { All (λ p. ResourceStands types.now p.0) ty.defined_resources }
    requires led { All (HasPath (entry_trees (trees types.now.nodes) ty.exports)) (resource_names (firsts ty.defined_resources)) }
    requires apart { NamesDiffer ty.exports }
    ensures fits { IfOk result (λ made. Fits types.now (node.Instance made)) }
    ensures resources { IfOk result (λ made. made.defined_resources ≡ firsts ty.defined_resources) }
    ensures exports { IfOk result (λ made. made.exports ≡ ty.exports) }
{
    let owned = resources_of(types.allocator(), &ty.defined_resources)?;
    let ComponentType { exports, .. } = ty;
    Ok(ComponentInstanceType::over(types, owned, exports))
}

/// What the types of the two numbers say.
pub fn look_at(info: &TypeInfo)
    ensures size { info.now.size ≤ 4294967295 }
    ensures depth { info.now.depth ≤ 4294967295 }
{
    let _size = info.size;
    let _depth = info.depth;
}

/// Ends a component type.
pub fn end_component_type(
    components: &mut Vec<ComponentState>,
    types: &mut TypeAlloc,
    offset: u64,
) -> Result<(), Error>
    requires ready { AreReady types.old components.old.items }
    requires inside { 0 < length (around components.old.items) }
    ensures ok { OnOk result (Ends declares_component types.old types.new components.old.items components.new.items) }
    ensures err { IfErr result (MemoryOrCausedBy (end_checks (top_in types.old components.old.items)) offset) }
    ensures around { OnErr result (SameAround (around components.old.items) components.new.items) }
    ensures keeps { KeepsOn types.old types.new (around components.old.items) components.new.items }
{
    let ty = pop_type(components, types, offset)?;
    look_at(&ty.info);
    let last = components.len() - 1;
    store_component(ty, &mut components[last], types)?;
    Ok(())
}

/// Ends an instance type. Nothing but want of memory bars that.
pub fn end_instance_type(
    components: &mut Vec<ComponentState>,
    types: &mut TypeAlloc,
    offset: u64,
) -> Result<(), Error>
    requires ready { AreReady types.old components.old.items }
    requires inside { 0 < length (around components.old.items) }
    requires declares { DeclaresInstance types.old components.old.items }
    ensures ok { OnOk result (Ends declares_instance types.old types.new components.old.items components.new.items) }
    ensures err { IfErr result (λ e. error_kind e ≡ kinds.OutOfMemory) }
    ensures around { OnErr result (SameAround (around components.old.items) components.new.items) }
    ensures keeps { KeepsOn types.old types.new (around components.old.items) components.new.items }
{
    let ty = instance_of(pop_type(components, types, offset)?, types)?;
    let last = components.len() - 1;
    store_instance(ty, &mut components[last], types)?;
    Ok(())
}
