// Reading index spaces.
ghost use Rattle.std.specs.Prelude.{◌≡◌, Some, map, slice_get, IfOk, IfErr};
ghost use Rattle.std.specs.Option.{option_map};
ghost use Rattle.wcv_core.specs.Refusal.{error_kind, error_offset};
ghost use Rattle.wcv_core.specs.CoreWritten.{sub_entry, entry_checks};
ghost use Rattle.wcv_types.specs.Tree.{is_func, is_instance, is_component, is_module, is_value};
ghost use Rattle.wcv_types.specs.declared.ids.ComponentAnyTypeId.TheVariants as any;
ghost use Rattle.wcv_types.specs.declared.ids.ComponentCoreTypeId.TheVariants as core_type;
ghost use Rattle.wcv_lower.specs.Checks.{missing, missing_of};
ghost use Rattle.wcv_spaces.specs.Contents.{core_entry_of};
ghost use Rattle.wcv_spaces.specs.Looking.{any_sort, core_sort};
ghost use Rattle.wcv_spaces.specs.Promises.{CausedBy};

use wcv_core::{CoreTypeId, Error, ErrorKind, Refusal, Why};
use wcv_types::{
    ComponentAnyTypeId, ComponentCoreModuleTypeId, ComponentCoreTypeId, ComponentDefinedTypeId,
    ComponentFuncTypeId, ComponentInstanceTypeId, ComponentTypeId,
};

/// The element at that index of a space, whose name is for the message.
pub fn element_at<T: Copy>(
    space: &[T],
    name: &'static str,
    index: u32,
    offset: u64,
) -> Result<T, Refusal<'static>>
    ensures ok { IfOk result (λ x. slice_get space.now index ≡ Some x) }
    ensures err { IfErr result (CausedBy (missing (slice_get space.now index)) offset) }
{
    match space.get(index as usize) {
        Some(element) => Ok(*element),
        None => {
            let count = space.len() as u64;
            let why = match count {
                0 => Why::new("%w index %1 is out of bounds: no %w stands before this item"),
                1 => Why::new("%w index %1 is out of bounds: 1 %w stands before this item"),
                _ => Why::new("%w index %1 is out of bounds: %2 %ws stand before this item"),
            };
            let why = why.word(name).numbers([index as u64, count, 0]);
            Err(Error::new(ErrorKind::OutOfBounds, offset, why))
        }
    }
}

/// The refusal of an element of another sort, by words in which the index stands.
pub fn wrong_sort(words: &'static str, index: u32, offset: u64) -> Refusal<'static>
    ensures kind { error_kind result ≡ ErrorKind.WrongSort }
    ensures offset { error_offset result ≡ offset }
{
    let why = Why::new(words).numbers([index as u64, 0, 0]);
    Error::new(ErrorKind::WrongSort, offset, why)
}

/// The function type at that index of types.
pub fn func_type_at(
    types: &[ComponentAnyTypeId],
    index: u32,
    offset: u64,
) -> Result<ComponentFuncTypeId, Refusal<'static>>
    ensures ok { IfOk result (λ id. slice_get types.now index ≡ Some (any.Func id)) }
    ensures err { IfErr result (CausedBy (missing_of is_func (option_map any_sort (slice_get types.now index))) offset) }
{
    match element_at(types, "type", index, offset)? {
        ComponentAnyTypeId::Func(id) => Ok(id),
        _ => Err(wrong_sort("type index %1 is not of a function type", index, offset)),
    }
}

/// The defined type at that index of types.
pub fn defined_type_at(
    types: &[ComponentAnyTypeId],
    index: u32,
    offset: u64,
) -> Result<ComponentDefinedTypeId, Refusal<'static>>
    ensures ok { IfOk result (λ id. slice_get types.now index ≡ Some (any.Defined id)) }
    ensures err { IfErr result (CausedBy (missing_of is_value (option_map any_sort (slice_get types.now index))) offset) }
{
    match element_at(types, "type", index, offset)? {
        ComponentAnyTypeId::Defined(id) => Ok(id),
        _ => Err(wrong_sort("type index %1 is not of a value type", index, offset)),
    }
}

/// The instance type at that index of types.
pub fn instance_type_at(
    types: &[ComponentAnyTypeId],
    index: u32,
    offset: u64,
) -> Result<ComponentInstanceTypeId, Refusal<'static>>
    ensures ok { IfOk result (λ id. slice_get types.now index ≡ Some (any.Instance id)) }
    ensures err { IfErr result (CausedBy (missing_of is_instance (option_map any_sort (slice_get types.now index))) offset) }
{
    match element_at(types, "type", index, offset)? {
        ComponentAnyTypeId::Instance(id) => Ok(id),
        _ => Err(wrong_sort("type index %1 is not of an instance type", index, offset)),
    }
}

/// The component type at that index of types.
pub fn component_type_at(
    types: &[ComponentAnyTypeId],
    index: u32,
    offset: u64,
) -> Result<ComponentTypeId, Refusal<'static>>
    ensures ok { IfOk result (λ id. slice_get types.now index ≡ Some (any.Component id)) }
    ensures err { IfErr result (CausedBy (missing_of is_component (option_map any_sort (slice_get types.now index))) offset) }
{
    match element_at(types, "type", index, offset)? {
        ComponentAnyTypeId::Component(id) => Ok(id),
        _ => Err(wrong_sort("type index %1 is not of a component type", index, offset)),
    }
}

/// The module type at that index of core types.
pub fn module_type_at(
    types: &[ComponentCoreTypeId],
    index: u32,
    offset: u64,
) -> Result<ComponentCoreModuleTypeId, Refusal<'static>>
    ensures ok { IfOk result (λ id. slice_get types.now index ≡ Some (core_type.Module id)) }
    ensures err { IfErr result (CausedBy (missing_of is_module (option_map core_sort (slice_get types.now index))) offset) }
{
    match element_at(types, "core type", index, offset)? {
        ComponentCoreTypeId::Module(id) => Ok(id),
        _ => Err(wrong_sort("core type index %1 is not of a module type", index, offset)),
    }
}

/// The core type at that index of core types, which is no module type.
pub fn sub_type_at(
    types: &[ComponentCoreTypeId],
    index: u32,
    offset: u64,
) -> Result<CoreTypeId, Refusal<'static>>
    ensures ok { IfOk result (λ id. slice_get (map core_entry_of types.now) index ≡ Some (sub_entry id.index)) }
    ensures err { IfErr result (CausedBy (entry_checks (slice_get (map core_entry_of types.now) index)) offset) }
{
    match element_at(types, "core type", index, offset)? {
        ComponentCoreTypeId::Sub(id) => Ok(id),
        _ => Err(wrong_sort("core type index %1 is of a module type", index, offset)),
    }
}
