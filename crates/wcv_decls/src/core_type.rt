// Core type items, over the states that are open.
ghost use Rattle.std.specs.Prelude.{◌≡◌, ◌<◌, suc, false, List, [], ◌∷◌, ◌++◌, All, length, map, IfOk, OnOk, OnErr, IfErr};
ghost use Rattle.wcv_core.specs.CoreForm.{group_form};
ghost use Rattle.wcv_core.specs.CoreGroups.{total};
ghost use Rattle.wcv_core.specs.CoreSizes.{IsEntityWithin};
ghost use Rattle.wcv_core.specs.Names.{Place};
ghost use Rattle.wcv_module.specs.Kept.{module_items};
ghost use Rattle.wcv_syntax.specs.Model.{core_type_item, core_rec, core_module_type};
ghost use Rattle.wcv_syntax.specs.View.{module_decl_view, core_type_view};
ghost use Rattle.wcv_types.specs.CoreCalls.{with_core};
ghost use Rattle.wcv_types.specs.Standing.{Extends, entity_sizes};
ghost use Rattle.wcv_lower.specs.Growth.{call_checks};
ghost use Rattle.wcv_lower.specs.Names.{Names};
ghost use Rattle.wcv_lower.specs.Trees.{Tree_context, tree_maker};
ghost use Rattle.wcv_spaces.specs.Contents.{Contents, stack_of, StateStands};
ghost use Rattle.wcv_spaces.specs.Promises.{MemoryOrCausedBy, Keeps, Grew};
ghost use Rattle.wcv_decls.specs.CoreItems.{JoinsCoreType, MadeIn, FreeIn, CausedIn};
ghost use Rattle.wcv_decls.specs.Stack.{IsOpen, GrewOn, RefusedOn, KeepsOn};

use crate::core_module::{ModuleSpace, join_module};
use crate::room::{check_core_types, check_types};
use wcv_core::{Error, RecGroup};
use wcv_module::{Enclosing, Module};
use wcv_state::{ComponentState, mark_all_spent};
use wcv_syntax::{CoreType, ModuleTypeDeclaration};
use wcv_types::TypeAlloc;

/// A group of core types, where nothing bars it.
fn add_group(
    rec: RecGroup,
    state: &mut ComponentState,
    types: &mut TypeAlloc,
    offset: u64,
) -> Result<(), Error>
    requires live { state.old.spent ≡ false }
    requires stands { StateStands types.old state.old }
    ensures ok { OnOk result ((outer : List Tree_context) (p : Place) → Grew types.old types.new outer p state.old state.new (core_type_item (core_rec (group_form rec)))) }
    ensures err { IfErr result (λ e. (outer : List Tree_context) (n : Names) (p : Place) → MemoryOrCausedBy (call_checks state.old.features (tree_maker n p) (stack_of types.old state.old outer) (core_type_item (core_rec (group_form rec)))) offset e) }
    ensures keeps { Keeps types.old types.new state.old state.new }
{
    check_core_types(rec.types.len(), state, types, offset)?;
    match types.intern_rec_group(state, rec, offset) {
        Ok(()) => Ok(()),
        Err(err) => Err(Error::from(err)),
    }
}

/// The innermost of the states.
pub fn innermost(components: &[ComponentState]) -> &ComponentState
    requires { 0 < length components.now }
    ensures { (outer : List Contents) (s : Contents) → components.now ≡ outer ++ s ∷ [] → result.now ≡ s }
{
    &components[components.len() - 1]
}

/// The module that the declarations of a module type make, in what is open around it.
fn declare_type(
    decls: Vec<ModuleTypeDeclaration>,
    components: &[ComponentState],
    types: &mut TypeAlloc,
    offset: u64,
) -> Result<Module, Error>
    requires some { 0 < length components.now }
    requires open { All (IsOpen types.old) components.now }
    ensures ok { IfOk result (MadeIn types.old types.new components.now (map module_decl_view decls.items)) }
    ensures within { IfOk result (λ made. All (IsEntityWithin (total types.new.core)) (module_items made)) }
    ensures size { IfOk result (λ made. made.size ≡ suc (entity_sizes types.new.core (module_items made))) }
    ensures free { OnOk result (FreeIn types.old components.now (core_type_item (core_module_type (map module_decl_view decls.items)))) }
    ensures err { IfErr result (CausedIn types.old components.now (core_type_item (core_module_type (map module_decl_view decls.items))) offset) }
    ensures rest { types.new ≡ with_core types.old types.new.core }
    ensures grown { Extends types.old types.new }
{
    let alloc = types.allocator();
    let state = innermost(components);
    check_types(true, state, types, offset)?;
    let features = *state.features();
    let outers = Enclosing { groups: components };
    match Module::declare(alloc, features, decls, &outers, types, offset) {
        Ok(made) => Ok(made),
        Err(err) => Err(err),
    }
}

/// A group of core types joins those of the innermost state. After an error the states are spent.
fn add_group_on(
    rec: RecGroup,
    components: &mut [ComponentState],
    types: &mut TypeAlloc,
    offset: u64,
) -> Result<(), Error>
    requires some { 0 < length components.old }
    requires open { All (IsOpen types.old) components.old }
    ensures ok { OnOk result ((p : Place) → GrewOn types.old types.new p components.old components.new (core_type_item (core_rec (group_form rec)))) }
    ensures types { OnOk result (JoinsCoreType types.old types.new components.old components.new (core_rec (group_form rec))) }
    ensures err { IfErr result (λ e. (p : Place) → RefusedOn types.old types.new p components.old components.new (core_type_item (core_rec (group_form rec))) offset e) }
    ensures keeps { KeepsOn types.old types.new components.old components.new }
{
    let last = components.len() - 1;
    match add_group(rec, &mut components[last], types, offset) {
        Ok(()) => Ok(()),
        Err(error) => {
            mark_all_spent(components);
            Err(error)
        }
    }
}

/// A module type joins the core types of the innermost state, with those that its declarations gave. After an error
/// the states are spent.
fn add_module_type_on(
    decls: Vec<ModuleTypeDeclaration>,
    components: &mut [ComponentState],
    types: &mut TypeAlloc,
    offset: u64,
) -> Result<(), Error>
    requires some { 0 < length components.old }
    requires open { All (IsOpen types.old) components.old }
    ensures ok { OnOk result ((p : Place) → GrewOn types.old types.new p components.old components.new (core_type_item (core_module_type (map module_decl_view decls.items)))) }
    ensures types { OnOk result (JoinsCoreType types.old types.new components.old components.new (core_module_type (map module_decl_view decls.items))) }
    ensures err { IfErr result (λ e. (p : Place) → RefusedOn types.old types.new p components.old components.new (core_type_item (core_module_type (map module_decl_view decls.items))) offset e) }
    ensures keeps { KeepsOn types.old types.new components.old components.new }
{
    let last = components.len() - 1;
    match declare_type(decls, components, types, offset) {
        Ok(made) => match join_module(made, ModuleSpace::CoreTypes, &mut components[last], types) {
            Ok(()) => Ok(()),
            Err(error) => {
                mark_all_spent(components);
                Err(error)
            }
        },
        Err(error) => {
            mark_all_spent(components);
            Err(error)
        }
    }
}

/// A core type item joins the core types of the innermost state. After an error the states are spent.
pub fn add_core_type_on(
    components: &mut [ComponentState],
    ty: CoreType,
    types: &mut TypeAlloc,
    offset: u64,
) -> Result<(), Error>
    requires some { 0 < length components.old }
    requires open { All (IsOpen types.old) components.old }
    ensures ok { OnOk result ((p : Place) → GrewOn types.old types.new p components.old components.new (core_type_item (core_type_view ty))) }
    ensures types { OnOk result (JoinsCoreType types.old types.new components.old components.new (core_type_view ty)) }
    ensures err { IfErr result (λ e. (p : Place) → RefusedOn types.old types.new p components.old components.new (core_type_item (core_type_view ty)) offset e) }
    ensures keeps { KeepsOn types.old types.new components.old components.new }
{
    match ty {
        CoreType::Rec(rec) => add_group_on(rec, components, types, offset),
        CoreType::Module(decls) => add_module_type_on(decls, components, types, offset),
    }
}
