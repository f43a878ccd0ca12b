// The flat types of a defined type, from those of its parts.
ghost use Rattle.std.specs.Prelude.{◌≡◌, List, take};
ghost use Rattle.wcv_types.specs.Unfold.{former_of};
ghost use Rattle.wcv_types.specs.Flat.{primitive_flat, former_flat};
ghost use Rattle.wcv_types.specs.Open.{open_words, listed};
ghost use Rattle.wcv_types.specs.declared.flat_type.FlatType.{FlatType};

use crate::flat_type::FlatType;
use crate::lowered_types::LoweredTypes;
use crate::shapes::ComponentDefinedType;
use wcv_core::PrimitiveValType;

/// A pointer and a length.
fn pointers() -> LoweredTypes
    ensures { listed result ≡ primitive_flat open_words PrimitiveValType.String }
{
    let mut list = LoweredTypes::of(FlatType::Pointer);
    list.append(&LoweredTypes::of(FlatType::Pointer));
    list
}

/// The flat types of a primitive.
pub fn primitive_types(ty: PrimitiveValType) -> LoweredTypes
    ensures { listed result ≡ take 17 (primitive_flat open_words ty) }
{
    match ty {
        PrimitiveValType::S64 | PrimitiveValType::U64 => LoweredTypes::of(FlatType::I64),
        PrimitiveValType::F32 => LoweredTypes::of(FlatType::F32),
        PrimitiveValType::F64 => LoweredTypes::of(FlatType::F64),
        PrimitiveValType::String => pointers(),
        _ => LoweredTypes::of(FlatType::I32),
    }
}

/// The flat types of a type, from those of its parts one behind another, and from those of its parts joined.
pub fn shape_types(
    shape: &ComponentDefinedType,
    all: &LoweredTypes,
    cases: &LoweredTypes,
) -> LoweredTypes
    ensures { (xs ys : List FlatType) → listed all.now ≡ take 17 xs → listed cases.now ≡ take 17 ys → listed result ≡ take 17 (former_flat open_words (former_of shape.now) xs ys) }
{
    match shape {
        ComponentDefinedType::Primitive(ty) => primitive_types(*ty),
        ComponentDefinedType::Record(_) | ComponentDefinedType::Tuple(_) => *all,
        ComponentDefinedType::FixedLengthList(_, len) => all.repeated(*len),
        ComponentDefinedType::Variant(_)
        | ComponentDefinedType::Option(_)
        | ComponentDefinedType::Result { .. } => {
            let mut list = LoweredTypes::of(FlatType::I32);
            list.append(cases);
            list
        }
        ComponentDefinedType::List(_) | ComponentDefinedType::Map(_, _) => pointers(),
        ComponentDefinedType::Flags(_)
        | ComponentDefinedType::Enum(_)
        | ComponentDefinedType::Own(_)
        | ComponentDefinedType::Borrow(_)
        | ComponentDefinedType::Future(_)
        | ComponentDefinedType::Stream(_) => LoweredTypes::of(FlatType::I32),
    }
}
