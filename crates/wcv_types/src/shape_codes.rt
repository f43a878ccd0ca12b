// The codes of shapes of value types.
ghost use Rattle.std.specs.Prelude.{◌≡◌, ◌∷◌, ◌++◌, [], Some, option_copied, OnOk, IfOk};
ghost use Rattle.wcv_types.specs.NamedBySet.{handle_of};
ghost use Rattle.wcv_types.specs.ShapeNumbers.{IsWritten, label_mark, label_bytes, entry_numbers, entry_bytes, leaf_number as number_of_leaf, form_numbers, name_entries, handle_entries};
ghost use Rattle.wcv_types.specs.Alike.{form_names};
ghost use Rattle.wcv_types.specs.Unfold.{former_of};

use crate::ids::AliasableResourceId;
use crate::shapes::ComponentDefinedType;
use std::alloc::{AllocError, Global};
use wcv_core::{PrimitiveValType, Text};

fn primitive_number(ty: PrimitiveValType) -> u64
    ensures { result ≡ number_of_leaf (Some ty) }
{
    match ty {
        PrimitiveValType::Bool => 1,
        PrimitiveValType::S8 => 2,
        PrimitiveValType::U8 => 3,
        PrimitiveValType::S16 => 4,
        PrimitiveValType::U16 => 5,
        PrimitiveValType::S32 => 6,
        PrimitiveValType::U32 => 7,
        PrimitiveValType::S64 => 8,
        PrimitiveValType::U64 => 9,
        PrimitiveValType::F32 => 10,
        PrimitiveValType::F64 => 11,
        PrimitiveValType::Char => 12,
        PrimitiveValType::String => 13,
        PrimitiveValType::ErrorContext => 14,
    }
}

/// The number of a primitive, or of what is left out.
pub fn leaf_number(ty: Option<PrimitiveValType>) -> u64
    ensures { result ≡ number_of_leaf ty }
{
    match ty {
        Some(primitive) => primitive_number(primitive),
        None => 0,
    }
}

/// One more entry with a label.
fn push_labelled(
    code: &mut (Vec<u64>, Vec<u8>),
    label: &Text,
    number: u64,
) -> Result<(), AllocError>
    ensures numbers { OnOk result (code.new.0.items ≡ code.old.0.items ++ label_mark (Some label.now) ∷ number ∷ []) }
    ensures bytes { OnOk result (code.new.1.items ≡ code.old.1.items ++ label.now) }
{
    let bytes = label.as_str().as_bytes();
    code.0.extend_from_slice(&[bytes.len() as u64 + 1, number])?;
    code.1.extend_from_slice(bytes)?;
    Ok(())
}

/// One more entry with no label.
fn push_plain(code: &mut (Vec<u64>, Vec<u8>), number: u64) -> Result<(), AllocError>
    ensures numbers { OnOk result (code.new.0.items ≡ code.old.0.items ++ 0 ∷ number ∷ []) }
    ensures bytes { code.new.1 ≡ code.old.1 }
{
    code.0.extend_from_slice(&[0, number])?;
    Ok(())
}

/// One more entry: a label, if it has one, and a number.
#[tactic(auto, using(crate::proofs::ShapeCodes::nil_right))]
pub fn push_entry(
    code: &mut (Vec<u64>, Vec<u8>),
    label: Option<&Text>,
    number: u64,
) -> Result<(), AllocError>
    ensures numbers { OnOk result (code.new.0.items ≡ code.old.0.items ++ label_mark (option_copied label.entry) ∷ number ∷ []) }
    ensures bytes { OnOk result (code.new.1.items ≡ code.old.1.items ++ label_bytes (option_copied label.entry)) }
{
    match label {
        Some(text) => push_labelled(code, text, number)?,
        None => push_plain(code, number)?,
    }
    Ok(())
}

/// The names of flags or of an enum.
fn push_names(code: &mut (Vec<u64>, Vec<u8>), names: &[Text]) -> Result<(), AllocError>
    ensures numbers { OnOk result (code.new.0.items ≡ code.old.0.items ++ entry_numbers (name_entries names.now)) }
    ensures bytes { OnOk result (code.new.1.items ≡ code.old.1.items ++ entry_bytes (name_entries names.now)) }
{
    for name in names {
        push_labelled(code, name, 0)?;
    }
    Ok(())
}

/// The resource of a handle.
#[tactic(auto, using(crate::proofs::ShapeCodes::nil_right))]
fn push_resource(
    code: &mut (Vec<u64>, Vec<u8>),
    handle: Option<AliasableResourceId>,
) -> Result<(), AllocError>
    ensures numbers { OnOk result (code.new.0.items ≡ code.old.0.items ++ entry_numbers (handle_entries handle)) }
    ensures bytes { code.new.1 ≡ code.old.1 }
{
    match handle {
        Some(id) => push_plain(code, id.resource.index)?,
        None => {}
    }
    Ok(())
}

/// The numbers of the form alone.
fn start_code(
    alloc: Global,
    shape: &ComponentDefinedType,
) -> Result<(Vec<u64>, Vec<u8>), AllocError>
    ensures numbers { IfOk result (λ code. code.0.items ≡ form_numbers (former_of shape.now)) }
    ensures bytes { IfOk result (λ code. code.1.items ≡ []) }
{
    let form = shape.form() as u64;
    let len = shape.fixed_length() as u64;
    let names = shape.names().len() as u64;
    let numbers = Vec::from_slice(alloc, &[form, len, names])?;
    Ok((numbers, Vec::new(alloc)))
}

/// What is written of a defined type before the value types that it is made of: its form, its names, and the
/// resource of a handle.
pub fn form_code(
    alloc: Global,
    shape: &ComponentDefinedType,
) -> Result<(Vec<u64>, Vec<u8>), AllocError>
    ensures { IfOk result (λ code. IsWritten (form_numbers (former_of shape.now)) (name_entries (form_names (former_of shape.now)) ++ handle_entries (handle_of shape.now)) code) }
{
    let mut code = start_code(alloc, shape)?;
    push_names(&mut code, shape.names())?;
    push_resource(&mut code, shape.handle())?;
    Ok(code)
}
