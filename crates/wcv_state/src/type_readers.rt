// What stands in the spaces of types and of functions.
ghost use Rattle.std.specs.Prelude.{◌≡◌, Some, slice_get, IfOk, IfErr};
ghost use Rattle.std.specs.Option.{option_map};
ghost use Rattle.wcv_types.specs.Tree.{is_func, is_resource, is_value};
ghost use Rattle.wcv_types.specs.declared.ids.ComponentAnyTypeId.TheVariants as any;
ghost use Rattle.wcv_lower.specs.Checks.{missing, missing_of};
ghost use Rattle.wcv_spaces.specs.Looking as looking;
ghost use Rattle.wcv_spaces.specs.Looking.{any_sort, local_rep_checks};
ghost use Rattle.wcv_spaces.specs.Promises.{CausedBy};

use crate::state::ComponentState;
use wcv_core::{Refusal, ValType};
use wcv_resources::resources::{local_rep, resource_at};
use wcv_spaces::indices::{defined_type_at, element_at, func_type_at};
use wcv_types::{
    AliasableResourceId, ComponentAnyTypeId, ComponentDefinedTypeId, ComponentFuncTypeId,
    ResourceId,
};

impl ComponentState {
    /// The type at that index. Refuses an index that is not below the length as `OutOfBounds`, and takes
    /// no memory.
    pub fn component_type_at(
        &self,
        idx: u32,
        offset: u64,
    ) -> Result<ComponentAnyTypeId, Refusal<'static>>
        ensures ok { IfOk result (λ id. slice_get self.now.spaces.types idx ≡ Some id) }
        ensures err { IfErr result (CausedBy (missing (slice_get self.now.spaces.types idx)) offset) }
    {
        element_at(&self.spaces.types, "type", idx, offset)
    }

    /// The type of the function at that index. Refuses an index that is not below the length as
    /// `OutOfBounds`, and takes no memory.
    pub fn function_at(
        &self,
        idx: u32,
        offset: u64,
    ) -> Result<ComponentFuncTypeId, Refusal<'static>>
        ensures ok { IfOk result (λ id. slice_get self.now.spaces.funcs idx ≡ Some id) }
        ensures err { IfErr result (CausedBy (missing (slice_get self.now.spaces.funcs idx)) offset) }
    {
        element_at(&self.spaces.funcs, "function", idx, offset)
    }

    /// The function type at that index of types. Refuses an index that is not below the length as
    /// `OutOfBounds`, and a type of another sort as `WrongSort`. It takes no memory.
    pub fn function_type_at(
        &self,
        idx: u32,
        offset: u64,
    ) -> Result<ComponentFuncTypeId, Refusal<'static>>
        ensures ok { IfOk result (λ id. slice_get self.now.spaces.types idx ≡ Some (any.Func id)) }
        ensures err { IfErr result (CausedBy (missing_of is_func (option_map any_sort (slice_get self.now.spaces.types idx))) offset) }
    {
        func_type_at(&self.spaces.types, idx, offset)
    }

    /// The defined type at that index of types. Refuses an index that is not below the length as
    /// `OutOfBounds`, and a type of another sort as `WrongSort`. It takes no memory.
    pub fn defined_type_at(
        &self,
        idx: u32,
        offset: u64,
    ) -> Result<ComponentDefinedTypeId, Refusal<'static>>
        ensures ok { IfOk result (λ id. slice_get self.now.spaces.types idx ≡ Some (any.Defined id)) }
        ensures err { IfErr result (CausedBy (missing_of is_value (option_map any_sort (slice_get self.now.spaces.types idx))) offset) }
    {
        defined_type_at(&self.spaces.types, idx, offset)
    }

    /// The reference to a resource at that index of types. Refuses an index that is not below the length as
    /// `OutOfBounds`, and a type of another sort as `WrongSort`. It takes no memory.
    pub fn resource_at(
        &self,
        idx: u32,
        offset: u64,
    ) -> Result<AliasableResourceId, Refusal<'static>>
        ensures ok { IfOk result (λ id. slice_get self.now.spaces.types idx ≡ Some (any.Resource id)) }
        ensures err { IfErr result (CausedBy (missing_of is_resource (option_map any_sort (slice_get self.now.spaces.types idx))) offset) }
    {
        resource_at(&self.spaces.types, idx, offset)
    }

    /// The resource at that index of types and its representation. Refuses what `resource_at` refuses, and as
    /// `ResourceScope` a resource that is not defined here with a representation. It takes no memory.
    pub fn local_rep(
        &self,
        idx: u32,
        offset: u64,
    ) -> Result<(ResourceId, ValType), Refusal<'static>>
        ensures ok { IfOk result (λ p. looking.local_rep self.now.spaces.types self.now.defined_resources idx ≡ Some p) }
        ensures err { IfErr result (CausedBy (local_rep_checks self.now.spaces.types self.now.defined_resources idx) offset) }
    {
        local_rep(&self.spaces.types, &self.defined_resources, idx, offset)
    }
}
