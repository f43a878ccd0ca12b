// What may stand in a type.
ghost use Rattle.std.specs.Prelude.{◌≡◌, OnOk, IfErr};
ghost use Rattle.wcv_core.specs.Refusal.{error_kind, error_offset};
ghost use Rattle.wcv_lower.specs.Checks.{IsFree};
ghost use Rattle.wcv_lower.specs.Defined.{bad_key, bad_map_value, bad_element, has_borrow};
ghost use Rattle.wcv_lower.specs.Trees.{tree_reader, primitive_of};
ghost use Rattle.wcv_spaces.specs.Promises.{MemoryOrCausedBy};
ghost use Rattle.wcv_types.specs.Entities.{SlotStands};
ghost use Rattle.wcv_types.specs.Unfold.{value_slot, option_slot, slot_tree, trees};
ghost use Rattle.wcv_decls.specs.Resolved.{shape_primitive};

use wcv_core::{Error, ErrorKind, PrimitiveValType, Refusal, Why};
use wcv_types::{ComponentDefinedType, ComponentValType, TypeAlloc};

/// The primitive that has a name there.
fn named_primitive(shape: &ComponentDefinedType) -> Option<PrimitiveValType>
    ensures { result ≡ shape_primitive shape.now }
{
    match shape {
        ComponentDefinedType::Primitive(primitive) => Some(*primitive),
        _ => None,
    }
}

/// The primitive that a value type is, under a name or not.
#[tactic(auto, using(crate::proofs::Contents::primitive_shape))]
fn primitive_in(ty: &ComponentValType, types: &TypeAlloc) -> Option<PrimitiveValType>
    requires { SlotStands types.now (value_slot ty.now) }
    ensures { result ≡ primitive_of (slot_tree (trees types.now.nodes) (value_slot ty.now)) }
{
    match ty {
        ComponentValType::Primitive(primitive) => Some(*primitive),
        ComponentValType::Ty(id) => named_primitive(types.get(*id)),
    }
}

/// The refusal of a part by what may stand in its place.
fn bad_shape(words: &'static str, offset: u64) -> Refusal<'static>
    ensures kind { error_kind result ≡ ErrorKind.Shape }
    ensures offset { error_offset result ≡ offset }
{
    Error::new(ErrorKind::Shape, offset, Why::new(words))
}

/// Whether keys of a map may have the type.
pub fn check_key(
    ty: &ComponentValType,
    types: &TypeAlloc,
    offset: u64,
) -> Result<(), Refusal<'static>>
    requires { SlotStands types.now (value_slot ty.now) }
    ensures ok { OnOk result (IsFree (bad_key tree_reader (slot_tree (trees types.now.nodes) (value_slot ty.now)))) }
    ensures err { IfErr result (MemoryOrCausedBy (bad_key tree_reader (slot_tree (trees types.now.nodes) (value_slot ty.now))) offset) }
{
    match primitive_in(ty, types) {
        None
        | Some(PrimitiveValType::F32)
        | Some(PrimitiveValType::F64)
        | Some(PrimitiveValType::ErrorContext) => Err(bad_shape(
            "the key of a map must be a primitive other than `f32`, `f64` and `error-context`",
            offset,
        )),
        Some(_) => Ok(()),
    }
}

/// Whether values of a map may have the type.
pub fn check_map_value(
    ty: &ComponentValType,
    types: &TypeAlloc,
    offset: u64,
) -> Result<(), Refusal<'static>>
    requires { SlotStands types.now (value_slot ty.now) }
    ensures ok { OnOk result (IsFree (bad_map_value tree_reader (slot_tree (trees types.now.nodes) (value_slot ty.now)))) }
    ensures err { IfErr result (MemoryOrCausedBy (bad_map_value tree_reader (slot_tree (trees types.now.nodes) (value_slot ty.now))) offset) }
{
    if types.abi_info(ty).contains_handle {
        return Err(bad_shape(
            "the value of a map may hold no handle, future, stream or `error-context`",
            offset,
        ));
    }
    Ok(())
}

/// Whether no borrowed handle stands in what may be left out. Where it stands is for the message.
pub fn check_borrow(
    ty: &Option<ComponentValType>,
    types: &TypeAlloc,
    place: &'static str,
    offset: u64,
) -> Result<(), Refusal<'static>>
    requires { SlotStands types.now (option_slot ty.now) }
    ensures ok { OnOk result (IsFree (has_borrow tree_reader (slot_tree (trees types.now.nodes) (option_slot ty.now)))) }
    ensures err { IfErr result (MemoryOrCausedBy (has_borrow tree_reader (slot_tree (trees types.now.nodes) (option_slot ty.now))) offset) }
{
    match ty {
        Some(ty) if types.abi_info(ty).contains_borrow => {
            let why = Why::new("%w may hold no borrowed handle").word(place);
            Err(Error::new(ErrorKind::Borrow, offset, why))
        }
        _ => Ok(()),
    }
}

/// Whether a stream may have elements of the type.
pub fn check_element(
    ty: &Option<ComponentValType>,
    types: &TypeAlloc,
    offset: u64,
) -> Result<(), Refusal<'static>>
    requires { SlotStands types.now (option_slot ty.now) }
    ensures ok { OnOk result (IsFree (bad_element tree_reader (slot_tree (trees types.now.nodes) (option_slot ty.now)))) }
    ensures err { IfErr result (MemoryOrCausedBy (bad_element tree_reader (slot_tree (trees types.now.nodes) (option_slot ty.now))) offset) }
{
    let Some(ty) = ty else {
        return Ok(());
    };
    match primitive_in(ty, types) {
        Some(PrimitiveValType::Char) => Err(bad_shape(
            "a stream of `char` is not allowed: a stream of `u8`, or of `string`, is",
            offset,
        )),
        _ => Ok(()),
    }
}
