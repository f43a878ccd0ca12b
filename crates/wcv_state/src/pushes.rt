// One more entry in a space, or one more resource that is defined.
ghost use Rattle.std.specs.Prelude.{◌≡◌, ◌+◌, ◌<◌, ◌^◌, length, false, OnOk, OnErr, IfOk};
ghost use Rattle.wcv_types.specs.Standing.{Stands, Extends, Fits};
ghost use Rattle.wcv_types.specs.Unfold.{tree_at, tree_of, trees};
ghost use Rattle.wcv_types.specs.declared.arena.Node.TheVariants as node;
ghost use Rattle.wcv_types.specs.declared.ids.Part.TheVariants as part;
ghost use Rattle.wcv_lower.specs.Context.{in_types, in_funcs, in_values, in_instances, in_components, core_types, core_funcs, core_tags, core_modules, core_instances, core_memories, core_tables, core_globals};
ghost use Rattle.wcv_state.specs.Aliasing.{with_entity};
ghost use Rattle.wcv_spaces.specs.Contents.{with_id, with_core, with_defined, spent};
ghost use Rattle.wcv_spaces.specs.Looking.{has_resource};
ghost use Rattle.wcv_spaces.specs.Promises.{AddsComponent};

use crate::state::ComponentState;
use wcv_core::{CoreTypeId, GlobalType, MemoryType, OutOfMemory, TableType, ValType};
use wcv_spaces::spaces::append;
use wcv_types::{
    ComponentAnyTypeId, ComponentCoreInstanceTypeId, ComponentCoreModuleTypeId,
    ComponentCoreTypeId, ComponentEntityType, ComponentFuncTypeId, ComponentInstanceTypeId,
    ComponentType, ComponentTypeId, ComponentValType, ResourceId, TypeAlloc,
};

impl ComponentState {
    /// Appends a core type, where 32 bits count it, whatever the number of core types.
    pub fn push_core_type(&mut self, ty: ComponentCoreTypeId) -> Result<(), OutOfMemory>
        requires live { self.old.spent ≡ false }
        requires room { length self.old.spaces.core_types + 1 < 2 ^ 32 }
        ensures ok { OnOk result (self.new ≡ with_core core_types ty self.old) }
        ensures err { OnErr result (self.new ≡ spent self.old) }
    {
        match self.spaces.core_types.push(ty) {
            Ok(()) => Ok(()),
            Err(error) => {
                self.spent = true;
                Err(error)
            }
        }
    }

    /// Appends a core function of that type, whatever the number of core functions.
    pub fn push_core_func(&mut self, ty: CoreTypeId) -> Result<(), OutOfMemory>
        requires live { self.old.spent ≡ false }
        ensures ok { OnOk result (self.new ≡ with_core core_funcs ty self.old) }
        ensures err { OnErr result (self.new ≡ spent self.old) }
    {
        match append(&mut self.spaces.core_funcs, ty) {
            Ok(()) => Ok(()),
            Err(error) => {
                self.spent = true;
                Err(error)
            }
        }
    }

    /// Appends a core tag of that type, whatever the number of tags.
    pub fn push_core_tag(&mut self, ty: CoreTypeId) -> Result<(), OutOfMemory>
        requires live { self.old.spent ≡ false }
        ensures ok { OnOk result (self.new ≡ with_core core_tags ty self.old) }
        ensures err { OnErr result (self.new ≡ spent self.old) }
    {
        match append(&mut self.spaces.core_tags, ty) {
            Ok(()) => Ok(()),
            Err(error) => {
                self.spent = true;
                Err(error)
            }
        }
    }

    /// Appends a core module of that type, whatever the number of modules.
    pub fn push_core_module(&mut self, ty: ComponentCoreModuleTypeId) -> Result<(), OutOfMemory>
        requires live { self.old.spent ≡ false }
        ensures ok { OnOk result (self.new ≡ with_core core_modules ty self.old) }
        ensures err { OnErr result (self.new ≡ spent self.old) }
    {
        match append(&mut self.spaces.core_modules, ty) {
            Ok(()) => Ok(()),
            Err(error) => {
                self.spent = true;
                Err(error)
            }
        }
    }

    /// Appends a core instance of that type, whatever the number of core instances.
    pub fn push_core_instance(&mut self, ty: ComponentCoreInstanceTypeId) -> Result<(), OutOfMemory>
        requires live { self.old.spent ≡ false }
        ensures ok { OnOk result (self.new ≡ with_core core_instances ty self.old) }
        ensures err { OnErr result (self.new ≡ spent self.old) }
    {
        match append(&mut self.spaces.core_instances, ty) {
            Ok(()) => Ok(()),
            Err(error) => {
                self.spent = true;
                Err(error)
            }
        }
    }

    /// Appends a core memory, whatever the number of memories.
    pub fn push_core_memory(&mut self, ty: MemoryType) -> Result<(), OutOfMemory>
        requires live { self.old.spent ≡ false }
        ensures ok { OnOk result (self.new ≡ with_core core_memories ty self.old) }
        ensures err { OnErr result (self.new ≡ spent self.old) }
    {
        match append(&mut self.spaces.core_memories, ty) {
            Ok(()) => Ok(()),
            Err(error) => {
                self.spent = true;
                Err(error)
            }
        }
    }

    /// Appends a core table, whatever the number of tables.
    pub fn push_core_table(&mut self, ty: TableType) -> Result<(), OutOfMemory>
        requires live { self.old.spent ≡ false }
        ensures ok { OnOk result (self.new ≡ with_core core_tables ty self.old) }
        ensures err { OnErr result (self.new ≡ spent self.old) }
    {
        match append(&mut self.spaces.core_tables, ty) {
            Ok(()) => Ok(()),
            Err(error) => {
                self.spent = true;
                Err(error)
            }
        }
    }

    /// Appends a core global, whatever the number of globals.
    pub fn push_core_global(&mut self, ty: GlobalType) -> Result<(), OutOfMemory>
        requires live { self.old.spent ≡ false }
        ensures ok { OnOk result (self.new ≡ with_core core_globals ty self.old) }
        ensures err { OnErr result (self.new ≡ spent self.old) }
    {
        match append(&mut self.spaces.core_globals, ty) {
            Ok(()) => Ok(()),
            Err(error) => {
                self.spent = true;
                Err(error)
            }
        }
    }

    /// Appends a type, whatever the number of types.
    pub fn push_type(&mut self, ty: ComponentAnyTypeId) -> Result<(), OutOfMemory>
        requires live { self.old.spent ≡ false }
        ensures ok { OnOk result (self.new ≡ with_id in_types ty self.old) }
        ensures err { OnErr result (self.new ≡ spent self.old) }
    {
        match append(&mut self.spaces.types, ty) {
            Ok(()) => Ok(()),
            Err(error) => {
                self.spent = true;
                Err(error)
            }
        }
    }

    /// Appends a function of that type, whatever the number of functions.
    pub fn push_func(&mut self, ty: ComponentFuncTypeId) -> Result<(), OutOfMemory>
        requires live { self.old.spent ≡ false }
        ensures ok { OnOk result (self.new ≡ with_id in_funcs ty self.old) }
        ensures err { OnErr result (self.new ≡ spent self.old) }
    {
        match append(&mut self.spaces.funcs, ty) {
            Ok(()) => Ok(()),
            Err(error) => {
                self.spent = true;
                Err(error)
            }
        }
    }

    /// Appends a value of that type, whatever the number of values, and whether it counts as used.
    pub fn push_value(&mut self, ty: ComponentValType, used: bool) -> Result<(), OutOfMemory>
        requires live { self.old.spent ≡ false }
        ensures ok { OnOk result (self.new ≡ with_id in_values (ty, used) self.old) }
        ensures err { OnErr result (self.new ≡ spent self.old) }
    {
        match append(&mut self.spaces.values, (ty, used)) {
            Ok(()) => Ok(()),
            Err(error) => {
                self.spent = true;
                Err(error)
            }
        }
    }

    /// Appends an instance of that type, whatever the number of instances.
    pub fn push_instance(&mut self, ty: ComponentInstanceTypeId) -> Result<(), OutOfMemory>
        requires live { self.old.spent ≡ false }
        ensures ok { OnOk result (self.new ≡ with_id in_instances ty self.old) }
        ensures err { OnErr result (self.new ≡ spent self.old) }
    {
        match append(&mut self.spaces.instances, ty) {
            Ok(()) => Ok(()),
            Err(error) => {
                self.spent = true;
                Err(error)
            }
        }
    }

    /// Appends a component of that type, whatever the number of components.
    pub fn push_component(&mut self, ty: ComponentTypeId) -> Result<(), OutOfMemory>
        requires live { self.old.spent ≡ false }
        ensures ok { OnOk result (self.new ≡ with_id in_components ty self.old) }
        ensures err { OnErr result (self.new ≡ spent self.old) }
    {
        match append(&mut self.spaces.components, ty) {
            Ok(()) => Ok(()),
            Err(error) => {
                self.spent = true;
                Err(error)
            }
        }
    }

    /// The type of a component becomes the arena's next node, and joins the components, whatever their number. Says
    /// where it stands.
    pub fn add_component(
        &mut self,
        component: ComponentType,
        types: &mut TypeAlloc,
    ) -> Result<ComponentTypeId, OutOfMemory>
        requires live { self.old.spent ≡ false }
        requires fits { Fits types.old (node.Component component) }
        ensures ok { IfOk result (λ id. self.new ≡ with_id in_components id self.old) }
        ensures added { IfOk result (AddsComponent types.old types.new component) }
        ensures stands { IfOk result (λ id. Stands types.new (part.Component id)) }
        ensures tree { IfOk result (λ id. tree_at types.new (part.Component id) ≡ tree_of (trees types.old.nodes) (node.Component component)) }
        ensures err { OnErr result (self.new ≡ spent self.old) }
        ensures grown { OnErr result (Extends types.old types.new) }
    {
        let id: ComponentTypeId = match types.push_ty(component) {
            Ok(id) => id,
            Err(error) => {
                self.spent = true;
                return Err(error);
            }
        };
        self.push_component(id)?;
        Ok(id)
    }

    /// Appends an entity to the space of its sort, whatever the number of those there: of a type the created one. A
    /// value is not used yet.
    pub(crate) fn push_entity(&mut self, ty: ComponentEntityType) -> Result<(), OutOfMemory>
        requires live { self.old.spent ≡ false }
        ensures ok { OnOk result (self.new ≡ with_entity ty self.old) }
        ensures err { OnErr result (self.new ≡ spent self.old) }
    {
        match ty {
            ComponentEntityType::Module(id) => self.push_core_module(id),
            ComponentEntityType::Func(id) => self.push_func(id),
            ComponentEntityType::Ty { created, .. } => self.push_type(created),
            ComponentEntityType::Instance(id) => self.push_instance(id),
            ComponentEntityType::Component(id) => self.push_component(id),
            ComponentEntityType::Value(ty) => self.push_value(ty, false),
        }
    }

    /// Adds a resource to those that are defined, with its representation where that is known.
    pub fn define_resource(
        &mut self,
        resource: ResourceId,
        rep: Option<ValType>,
    ) -> Result<(), OutOfMemory>
        requires live { self.old.spent ≡ false }
        requires imported { has_resource resource self.old.imported_resources ≡ false }
        requires defined { has_resource resource self.old.defined_resources ≡ false }
        ensures ok { OnOk result (self.new ≡ with_defined resource rep self.old) }
        ensures err { OnErr result (self.new ≡ spent self.old) }
    {
        match self.defined_resources.insert(resource, rep) {
            Ok(()) => Ok(()),
            Err(error) => {
                self.spent = true;
                Err(error)
            }
        }
    }
}
