// The flat types of functions, and what stands in their parameters and their result.
ghost use Rattle.std.specs.Prelude.{◌≡◌, All, take};
ghost use Rattle.wcv_types.specs.Abi.{pointer, contains, any_contains};
ghost use Rattle.wcv_types.specs.Entities.{SlotStands};
ghost use Rattle.wcv_types.specs.Standing.{Stands};
ghost use Rattle.wcv_types.specs.Tree.{parts};
ghost use Rattle.wcv_types.specs.Unfold.{option_slot, parts_of, slot_tree, trees};
ghost use Rattle.wcv_types.specs.Open.{listed, open_all};
ghost use Rattle.wcv_types.specs.declared.arena.Node.TheVariants as n;
ghost use Rattle.wcv_flat.specs.Functions.{func_parts};
ghost use Rattle.wcv_flat.specs.Options as spec;
ghost use Rattle.wcv_flat.specs.Signature.{params_in, result_in};

use wcv_types::{ComponentFuncType, ComponentValType, LoweredTypes, TypeAlloc};

/// The flat types of the parameters, one behind another, until no more are kept.
pub fn params_types(types: &TypeAlloc, ty: &ComponentFuncType) -> LoweredTypes
    requires { All (Stands types.now) (parts_of (n.Func ty.now)) }
    ensures { listed result ≡ take 17 (open_all (params_in (func_parts types.now ty.now))) }
{
    let mut list = LoweredTypes::new();
    for param in &ty.params {
        if list.is_full() {
            return list;
        }
        list.append(&types.flat_types(Some(param.1)));
    }
    list
}

/// The flat types of the result.
pub fn result_types(types: &TypeAlloc, ty: &ComponentFuncType) -> LoweredTypes
    requires { All (Stands types.now) (parts_of (n.Func ty.now)) }
    ensures { listed result ≡ take 17 (open_all (result_in (func_parts types.now ty.now))) }
{
    types.flat_types(ty.result)
}

/// Whether a pointer stands in a value type, or in what is left out.
pub fn value_points(types: &TypeAlloc, ty: Option<ComponentValType>) -> bool
    requires { SlotStands types.now (option_slot ty) }
    ensures { result ≡ contains pointer (slot_tree (trees types.now.nodes) (option_slot ty)) }
{
    match ty {
        Some(ty) => types.abi_info(&ty).contains_ptr,
        None => false,
    }
}

/// Whether one stands in a parameter.
pub fn params_point(types: &TypeAlloc, ty: &ComponentFuncType) -> bool
    requires { All (Stands types.now) (parts_of (n.Func ty.now)) }
    ensures { result ≡ any_contains pointer (params_in (func_parts types.now ty.now)) }
{
    for param in &ty.params {
        if value_points(types, Some(param.1)) {
            return true;
        }
    }
    false
}

/// Whether one stands in the result.
pub fn result_points(types: &TypeAlloc, ty: &ComponentFuncType) -> bool
    requires { All (Stands types.now) (parts_of (n.Func ty.now)) }
    ensures { result ≡ spec.result_points (func_parts types.now ty.now) }
{
    value_points(types, ty.result)
}
