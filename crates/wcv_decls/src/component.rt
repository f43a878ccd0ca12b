// Components inside components: the state of one comes before its items and leaves at its end, and its type joins
// the components of the state around it.
ghost use Rattle.std.specs.Prelude.{◌≡◌, ◌<◌, false, length, OnOk, OnErr, IfOk, IfErr};
ghost use Rattle.wcv_types.specs.Standing.{Fits};
ghost use Rattle.wcv_types.specs.declared.arena.Node.TheVariants as node;
ghost use Rattle.wcv_lower.specs.Checks.{IsFree};
ghost use Rattle.wcv_lower.specs.Context.{concrete, in_components};
ghost use Rattle.wcv_lower.specs.Ending.{component_end_checks};
ghost use Rattle.wcv_lower.specs.Marks.{unused_checks};
ghost use Rattle.wcv_spaces.specs.Contents.{StateStands, spent};
ghost use Rattle.wcv_spaces.specs.Promises.{MemoryOrCausedBy, AddsComponent, Keeps, Finished};
ghost use Rattle.wcv_decls.specs.Declaring.{innermost, around, stack_in, top_in, component_room, AreReady, Opened, TypeKept, Ends};
ghost use Rattle.wcv_decls.specs.Items.{Stored};
ghost use Rattle.wcv_decls.specs.Stack.{KeepsOn, all_spent};

use crate::close::{leave, look_at, pop_type};
use crate::core_type::innermost;
use crate::limits::check_count;
use crate::open::{check_open, push_state};
use crate::room::check_components;
use crate::used::check_used;
use wcv_core::limits::MAX_LIST;
use wcv_core::{Error, OutOfMemory, Refusal};
use wcv_state::{ComponentKind, ComponentState, mark_all_spent};
use wcv_types::{ComponentType, ComponentTypeId, TypeAlloc};

/// Whether a component of that many items may be read: there is room for one more that is open, and for its own type
/// at the end, and there are not too many items.
fn check_component(
    count: usize,
    components: &[ComponentState],
    types: &TypeAlloc,
    offset: u64,
) -> Result<(), Refusal<'static>>
    requires { AreReady types.now components.now }
    ensures ok { OnOk result (IsFree (component_room (stack_in types.now components.now) count)) }
    ensures err { IfErr result (MemoryOrCausedBy (component_room (stack_in types.now components.now) count) offset) }
{
    check_open(components.len(), "component", offset)?;
    check_components(innermost(components), types, offset)?;
    check_count(count, MAX_LIST, "component", "item", offset)
}

/// Opens a component of that many items, where nothing bars it.
pub fn open_component(
    count: usize,
    components: &mut Vec<ComponentState>,
    types: &TypeAlloc,
    offset: u64,
) -> Result<(), Error>
    requires { AreReady types.now components.old.items }
    ensures ok { OnOk result (Opened concrete types.now components.old.items components.new.items) }
    ensures ready { OnOk result (AreReady types.now components.new.items) }
    ensures free { OnOk result (IsFree (component_room (stack_in types.now components.old.items) count)) }
    ensures err { IfErr result (MemoryOrCausedBy (component_room (stack_in types.now components.old.items) count) offset) }
    ensures same { OnErr result (components.new.items ≡ components.old.items) }
{
    check_component(count, components.as_slice(), types, offset)?;
    push_state(ComponentKind::Component, components, types)?;
    Ok(())
}

/// The type of a component joins the components of a state. Says where it stands in the arena.
fn join_component(
    ty: ComponentType,
    state: &mut ComponentState,
    types: &mut TypeAlloc,
) -> Result<ComponentTypeId, OutOfMemory>
    requires live { state.old.spent ≡ false }
    requires stands { StateStands types.old state.old }
    requires fits { Fits types.old (node.Component ty) }
    ensures ok { OnOk result (Stored in_components types.old types.new state.old state.new (node.Component ty)) }
    ensures added { IfOk result (AddsComponent types.old types.new ty) }
    ensures err { OnErr result (state.new ≡ spent state.old) }
    ensures keeps { OnErr result (Keeps types.old types.new state.old state.new) }
{
    let id = state.add_component(ty, types)?;
    Ok(id)
}

/// The type of the component that the innermost state read, which leaves. Each value has to be used.
fn pop_component(
    components: &mut Vec<ComponentState>,
    types: &TypeAlloc,
    offset: u64,
) -> Result<ComponentType, Error>
    requires { AreReady types.now components.old.items }
    ensures left { components.new.items ≡ around components.old.items }
    ensures ok { IfOk result (Finished types.now (innermost components.old.items)) }
    ensures used { OnOk result (IsFree (unused_checks (top_in types.now components.old.items))) }
    ensures err { IfErr result (MemoryOrCausedBy (component_end_checks (top_in types.now components.old.items)) offset) }
{
    match check_used(innermost(components.as_slice()), types, offset) {
        Ok(()) => pop_type(components, types, offset),
        Err(refusal) => {
            leave(components);
            Err(Error::from(refusal))
        }
    }
}

/// The innermost state leaves, and its type joins the components of the state around it. Says where the type stands.
fn end_innermost(
    components: &mut Vec<ComponentState>,
    types: &mut TypeAlloc,
    offset: u64,
) -> Result<ComponentTypeId, Error>
    requires ready { AreReady types.old components.old.items }
    requires inside { 0 < length (around components.old.items) }
    ensures ok { OnOk result (Ends concrete types.old types.new components.old.items components.new.items) }
    ensures kept { IfOk result (TypeKept types.old types.new (innermost components.old.items)) }
    ensures err { IfErr result (MemoryOrCausedBy (component_end_checks (top_in types.old components.old.items)) offset) }
    ensures left { OnErr result (all_spent components.new.items ≡ all_spent (around components.old.items)) }
    ensures keeps { KeepsOn types.old types.new (around components.old.items) components.new.items }
{
    let ty = pop_component(components, types, offset)?;
    look_at(&ty.info);
    let last = components.len() - 1;
    let id = join_component(ty, &mut components[last], types)?;
    Ok(id)
}

/// Ends a component, and says where its type stands in the arena. After an error, out of memory too, its state has
/// left, and those around it stay as they were, but spent.
pub fn end_component(
    components: &mut Vec<ComponentState>,
    types: &mut TypeAlloc,
    offset: u64,
) -> Result<ComponentTypeId, Error>
    requires ready { AreReady types.old components.old.items }
    requires inside { 0 < length (around components.old.items) }
    ensures ok { OnOk result (Ends concrete types.old types.new components.old.items components.new.items) }
    ensures kept { IfOk result (TypeKept types.old types.new (innermost components.old.items)) }
    ensures err { IfErr result (MemoryOrCausedBy (component_end_checks (top_in types.old components.old.items)) offset) }
    ensures left { OnErr result (components.new.items ≡ all_spent (around components.old.items)) }
    ensures keeps { KeepsOn types.old types.new (around components.old.items) components.new.items }
{
    match end_innermost(components, types, offset) {
        Ok(id) => Ok(id),
        Err(error) => {
            mark_all_spent(components.as_mut_slice());
            Err(error)
        }
    }
}
