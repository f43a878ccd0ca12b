// Core modules, and the types of modules that join a state.
ghost use Rattle.std.specs.Prelude.{◌≡◌, ◌+◌, ◌<◌, ◌^◌, length, suc, true, false, List, [], All, map, Some, IfOk, OnOk, OnErr, IfErr};
ghost use Rattle.wcv_core.specs.CoreGroups.{total};
ghost use Rattle.wcv_core.specs.CoreSizes.{IsEntityWithin};
ghost use Rattle.wcv_core.specs.Names.{Place};
ghost use Rattle.wcv_core.specs.Refusal.{error_kind};
ghost use Rattle.wcv_module.specs.Kept.{module_items};
ghost use Rattle.wcv_syntax.specs.Model.{core_module_item};
ghost use Rattle.wcv_syntax.specs.ModuleTypes.{empty_module, all_declared, module_checks};
ghost use Rattle.wcv_syntax.specs.View.{code_decl_view};
ghost use Rattle.wcv_types.specs.CoreCalls.{with_core};
ghost use Rattle.wcv_types.specs.Standing.{Extends, entity_sizes};
ghost use Rattle.wcv_lower.specs.Checks.{IsFree};
ghost use Rattle.wcv_lower.specs.Context.{core_modules};
ghost use Rattle.wcv_lower.specs.CoreItems.{core_module_made};
ghost use Rattle.wcv_lower.specs.Trees.{Tree_context};
ghost use Rattle.wcv_spaces.specs.Contents.{stack_of, StateStands, spent};
ghost use Rattle.wcv_spaces.specs.Promises.{MemoryOrCausedBy, Keeps, Grew, Refuses};
ghost use Rattle.wcv_decls.specs.CoreItems.{StoredModule, JoinedModule, JoinsWith, JoinsMade, core_space, with_module};

use wcv_core::{Error, ErrorKind, OutOfMemory};
use wcv_module::{Module, NoOuter};
use wcv_state::ComponentState;
use wcv_syntax::ModuleDecl;
use wcv_types::{ComponentCoreModuleTypeId, ComponentCoreTypeId, TypeAlloc};

/// The type of a module joins the arena.
fn store_module(
    made: Module,
    types: &mut TypeAlloc,
) -> Result<ComponentCoreModuleTypeId, OutOfMemory>
    requires within { All (IsEntityWithin (total types.old.core)) (module_items made) }
    requires size { made.size ≡ suc (entity_sizes types.old.core (module_items made)) }
    ensures ok { IfOk result (StoredModule types.old types.new made) }
    ensures err { OnErr result (types.new ≡ types.old) }
{
    let shape = made.into_type(types);
    let id: ComponentCoreModuleTypeId = types.push_ty(shape)?;
    Ok(id)
}

/// Where the type of a module joins a state: as a core type, or as a core module of that type.
#[derive(Clone, Copy)]
pub enum ModuleSpace {
    CoreTypes,
    CoreModules,
}

/// The module type of that id joins a space of the state.
fn push_module(
    id: ComponentCoreModuleTypeId,
    space: ModuleSpace,
    state: &mut ComponentState,
) -> Result<(), OutOfMemory>
    requires live { state.old.spent ≡ false }
    requires room { space ≡ ModuleSpace.CoreTypes → length state.old.spaces.core_types + 1 < 2 ^ 32 }
    ensures ok { OnOk result (state.new ≡ with_module space id state.old) }
    ensures err { OnErr result (state.new ≡ spent state.old) }
{
    match space {
        ModuleSpace::CoreTypes => state.push_core_type(ComponentCoreTypeId::Module(id)),
        ModuleSpace::CoreModules => state.push_core_module(id),
    }
}

/// The type of a module joins the arena and a space of the state, with the core types that it was given. After an
/// error the state is spent.
pub fn join_module(
    made: Module,
    space: ModuleSpace,
    state: &mut ComponentState,
    types: &mut TypeAlloc,
) -> Result<(), Error>
    requires live { state.old.spent ≡ false }
    requires stands { StateStands types.old state.old }
    requires within { All (IsEntityWithin (total types.old.core)) (module_items made) }
    requires size { made.size ≡ suc (entity_sizes types.old.core (module_items made)) }
    requires room { space ≡ ModuleSpace.CoreTypes → length state.old.spaces.core_types + 1 < 2 ^ 32 }
    ensures ok { OnOk result (JoinedModule (core_space space) types.old types.new state.old state.new made) }
    ensures types { OnOk result (JoinsWith (core_space space) types.new state.old state.new made.types) }
    ensures spent { OnErr result (state.new.spent ≡ true) }
    ensures err { IfErr result (λ e. error_kind e ≡ ErrorKind.OutOfMemory) }
    ensures keeps { Keeps types.old types.new state.old state.new }
{
    match store_module(made, types) {
        Ok(id) => {
            push_module(id, space, state)?;
            Ok(())
        }
        Err(err) => {
            state.mark_spent();
            Err(Error::from(err))
        }
    }
}

/// The module that declarations make, in no other.
fn declare_module(
    decls: Vec<ModuleDecl>,
    state: &ComponentState,
    types: &mut TypeAlloc,
    offset: u64,
) -> Result<Module, Error>
    ensures ok { IfOk result (λ made. all_declared [] types.old.core (empty_module state.now.features) (map code_decl_view decls.items) ≡ Some (types.new.core, made)) }
    ensures within { IfOk result (λ made. All (IsEntityWithin (total types.new.core)) (module_items made)) }
    ensures size { IfOk result (λ made. made.size ≡ suc (entity_sizes types.new.core (module_items made))) }
    ensures free { OnOk result (IsFree (module_checks [] types.old.core (empty_module state.now.features) (map code_decl_view decls.items))) }
    ensures err { IfErr result (MemoryOrCausedBy (module_checks [] types.old.core (empty_module state.now.features) (map code_decl_view decls.items)) offset) }
    ensures rest { types.new ≡ with_core types.old types.new.core }
    ensures grown { Extends types.old types.new }
{
    let alloc = types.allocator();
    let features = *state.features();
    Module::declare(alloc, features, decls, &NoOuter, types, offset)
}

/// A core module joins its space, with the core types that its declarations gave. After an error the state is spent.
pub fn add_core_module_to(
    decls: Vec<ModuleDecl>,
    state: &mut ComponentState,
    types: &mut TypeAlloc,
    offset: u64,
) -> Result<(), Error>
    requires live { state.old.spent ≡ false }
    requires stands { StateStands types.old state.old }
    ensures ok { OnOk result ((outer : List Tree_context) (p : Place) → Grew types.old types.new outer p state.old state.new (core_module_item (map code_decl_view decls.items))) }
    ensures types { OnOk result ((outer : List Tree_context) → JoinsMade core_modules types.new state.old state.new (core_module_made state.old.features (stack_of types.old state.old outer) (map code_decl_view decls.items))) }
    ensures err { IfErr result (λ e. (outer : List Tree_context) (p : Place) → Refuses types.old types.new outer p state.old state.new (core_module_item (map code_decl_view decls.items)) offset e) }
    ensures keeps { Keeps types.old types.new state.old state.new }
{
    match declare_module(decls, state, types, offset) {
        Ok(made) => match join_module(made, ModuleSpace::CoreModules, state, types) {
            Ok(()) => Ok(()),
            Err(err) => Err(err),
        },
        Err(err) => {
            state.mark_spent();
            Err(err)
        }
    }
}
