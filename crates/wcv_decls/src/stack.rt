// Items that declare types or core modules, over the states that are open.
ghost use Rattle.std.specs.Prelude.{◌≡◌, ◌<◌, ◌≤◌, suc, true, length, map, All, OnOk, OnErr, IfErr};
ghost use Rattle.wcv_core.specs.CoreGroups.{total};
ghost use Rattle.wcv_core.specs.CoreSizes.{IsEntityWithin};
ghost use Rattle.wcv_core.specs.Names.{Place};
ghost use Rattle.wcv_module.specs.Kept.{module_items};
ghost use Rattle.wcv_syntax.specs.Model.{core_type_item};
ghost use Rattle.wcv_syntax.specs.ModuleTypes.{whole_checks};
ghost use Rattle.wcv_syntax.specs.View.{type_view, core_type_view};
ghost use Rattle.wcv_types.specs.Standing.{entity_sizes};
ghost use Rattle.wcv_lower.specs.Checks.{IsFree};
ghost use Rattle.wcv_lower.specs.Context.{core_modules};
ghost use Rattle.wcv_spaces.specs.Promises.{MemoryOrCausedBy, Keeps};
ghost use Rattle.wcv_decls.specs.CoreItems.{JoinedModule, JoinsWith, JoinsCoreType};
ghost use Rattle.wcv_decls.specs.Stack.{IsOpen, AreCalm, DeclaresOn, RefusesOn, GrewOn, RefusedOn, KeepsOn};

use crate::core_module::{ModuleSpace, join_module};
use crate::core_type::add_core_type_on;
use crate::declared::declare_type;
use wcv_core::Error;
use wcv_module::Module;
use wcv_state::{ComponentState, mark_all_spent};
use wcv_syntax::{ComponentType, CoreType};
use wcv_types::TypeAlloc;

/// A state to which items that declare something are added. Those that are open around it stand before it.
pub trait Declare: Sized {
    ghost use Rattle.wcv_spaces.specs.Contents.{Contents};

    /// What the state holds.
    ghost contents: { Self → Contents };

    /// A type item joins the types of the innermost state: a declared type is read declaration by declaration, in a
    /// state of its own on top of the others. After an error the states are spent, and as many as before.
    fn add_type(
        components: &mut Vec<Self>,
        ty: ComponentType,
        types: &mut TypeAlloc,
        offset: u64,
        check_limit: bool,
    ) -> Result<(), Error>
        requires some { 0 < length components.old.items }
        requires open { All (IsOpen types.old) (map contents components.old.items) }
        requires calm { AreCalm types.old (map contents components.old.items) }
        ensures ok { OnOk result ((p : Place) → DeclaresOn check_limit types.old types.new p (map contents components.old.items) (map contents components.new.items) (type_view ty)) }
        ensures calm { OnOk result (AreCalm types.new (map contents components.new.items)) }
        ensures err { IfErr result (λ e. (p : Place) → RefusesOn check_limit types.old types.new p (map contents components.old.items) (map contents components.new.items) (type_view ty) offset e) }
        ensures keeps { KeepsOn types.old types.new (map contents components.old.items) (map contents components.new.items) };

    /// A core type item joins the core types of the innermost state, a module type with those that its declarations
    /// gave. After an error the states are spent.
    fn add_core_type(
        components: &mut [Self],
        ty: CoreType,
        types: &mut TypeAlloc,
        offset: u64,
    ) -> Result<(), Error>
        requires some { 0 < length components.old }
        requires open { All (IsOpen types.old) (map contents components.old) }
        ensures ok { OnOk result ((p : Place) → GrewOn types.old types.new p (map contents components.old) (map contents components.new) (core_type_item (core_type_view ty))) }
        ensures types { OnOk result (JoinsCoreType types.old types.new (map contents components.old) (map contents components.new) (core_type_view ty)) }
        ensures err { IfErr result (λ e. (p : Place) → RefusedOn types.old types.new p (map contents components.old) (map contents components.new) (core_type_item (core_type_view ty)) offset e) }
        ensures keeps { KeepsOn types.old types.new (map contents components.old) (map contents components.new) };

    /// One more core module, of the type of that module, in which no pair of names is imported twice. It keeps the
    /// core types that the module was given. After an error the state is spent.
    fn add_core_module(
        &mut self,
        made: Module,
        types: &mut TypeAlloc,
        offset: u64,
    ) -> Result<(), Error>
        requires open { IsOpen types.old (contents self.old) }
        requires within { All (IsEntityWithin (total types.old.core)) (module_items made) }
        requires size { made.size ≡ suc (entity_sizes types.old.core (module_items made)) }
        ensures ok { OnOk result (JoinedModule core_modules types.old types.new (contents self.old) (contents self.new) made) }
        ensures types { OnOk result (JoinsWith core_modules types.new (contents self.old) (contents self.new) made.types) }
        ensures free { OnOk result (IsFree (whole_checks made)) }
        ensures spent { OnErr result ((contents self.new).spent ≡ true) }
        ensures err { IfErr result (MemoryOrCausedBy (whole_checks made) offset) }
        ensures keeps { Keeps types.old types.new (contents self.old) (contents self.new) };
}

impl Declare for ComponentState {
    ghost use Rattle.wcv_spaces.specs.Contents.{Contents};

    ghost contents = { λ s. s };

    fn add_type(
        components: &mut Vec<ComponentState>,
        ty: ComponentType,
        types: &mut TypeAlloc,
        offset: u64,
        check_limit: bool,
    ) -> Result<(), Error> {
        match declare_type(ty, components, types, offset, check_limit) {
            Ok(()) => Ok(()),
            Err(error) => {
                mark_all_spent(components.as_mut_slice());
                Err(error)
            }
        }
    }

    fn add_core_type(
        components: &mut [ComponentState],
        ty: CoreType,
        types: &mut TypeAlloc,
        offset: u64,
    ) -> Result<(), Error> {
        add_core_type_on(components, ty, types, offset)
    }

    fn add_core_module(
        &mut self,
        made: Module,
        types: &mut TypeAlloc,
        offset: u64,
    ) -> Result<(), Error> {
        match made.check_whole(offset) {
            Ok(()) => join_module(made, ModuleSpace::CoreModules, self, types),
            Err(error) => {
                self.mark_spent();
                Err(error)
            }
        }
    }
}
