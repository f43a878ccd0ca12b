// What is kept of each node of the arena.
ghost use Rattle.std.specs.Prelude.{◌≡◌, ◌≤◌, false};
ghost use Rattle.wcv_core.specs.Names.{Name};
ghost use Rattle.wcv_types.specs.Abi as abi;
ghost use Rattle.wcv_types.specs.Abi.{IsAbiOf};
ghost use Rattle.wcv_types.specs.Facts.{IsFactsOf};
ghost use Rattle.wcv_types.specs.Tree.{Tree, primitive_type};
ghost use Rattle.wcv_types.specs.Sums.{HasAlign};
ghost use Rattle.wcv_types.specs.Unfold.{leaf_tree, reference};
ghost use Rattle.wcv_types.specs.declared.ids.AliasableResourceId.{AliasableResourceId};

use crate::abi::AbiInfo;
use crate::info::TypeInfo;
use crate::lowered_types::LoweredTypes;
use crate::shape_types::primitive_types;
use wcv_core::PrimitiveValType;

/// What the arena keeps of a node, so that no call reads a type through.
#[derive(Clone, Copy)]
pub struct Facts {
    pub info: TypeInfo,
    pub abi: AbiInfo,
    /// Nothing in the type has to be named by an import or an export.
    pub plain: bool,
    /// A reference to a resource stands in the type.
    pub refers: bool,
    /// The flat types of a value type. Other types have none.
    pub flat: LoweredTypes,
}

/// The size of a primitive in memory, where a pointer has that many bytes.
pub fn primitive_size(ty: PrimitiveValType, pointer: u64) -> u64
    requires { pointer ≤ 8 }
    ensures { result ≡ abi.primitive_size pointer ty }
{
    match ty {
        PrimitiveValType::Bool | PrimitiveValType::S8 | PrimitiveValType::U8 => 1,
        PrimitiveValType::S16 | PrimitiveValType::U16 => 2,
        PrimitiveValType::S32
        | PrimitiveValType::U32
        | PrimitiveValType::F32
        | PrimitiveValType::Char
        | PrimitiveValType::ErrorContext => 4,
        PrimitiveValType::S64 | PrimitiveValType::U64 | PrimitiveValType::F64 => 8,
        PrimitiveValType::String => 2 * pointer,
    }
}

/// Its alignment.
pub fn primitive_align(ty: PrimitiveValType, pointer: u64) -> u64
    requires { pointer ≤ 8 }
    ensures { result ≡ abi.primitive_align pointer ty }
{
    match ty {
        PrimitiveValType::String => pointer,
        _ => primitive_size(ty, pointer),
    }
}

/// How a primitive lies in memory.
pub fn primitive_abi(ty: PrimitiveValType) -> AbiInfo
    ensures { IsAbiOf result (primitive_type {R = Name} {I = Name} ty) }
{
    AbiInfo {
        size32: primitive_size(ty, 4),
        align32: primitive_align(ty, 4),
        size64: primitive_size(ty, 8),
        align64: primitive_align(ty, 8),
        contains_ptr: matches!(ty, PrimitiveValType::String),
        contains_handle: matches!(ty, PrimitiveValType::ErrorContext),
        contains_borrow: false,
    }
}

/// What is known of a primitive, or of what is left out.
pub fn leaf_facts(ty: Option<PrimitiveValType>) -> Facts
    ensures facts { IsFactsOf result (leaf_tree ty) }
    ensures align { HasAlign result }
{
    match ty {
        Some(primitive) => Facts {
            info: TypeInfo { size: 1, depth: 1 },
            abi: primitive_abi(primitive),
            plain: true,
            refers: false,
            flat: primitive_types(primitive),
        },
        None => Facts {
            info: TypeInfo { size: 0, depth: 0 },
            abi: nothing_abi(),
            plain: true,
            refers: false,
            flat: LoweredTypes::new(),
        },
    }
}

/// How what has no bytes lies in memory.
pub fn nothing_abi() -> AbiInfo
    ensures { result ≡ record { size32 = 0; align32 = 1; size64 = 0; align64 = 1; contains_ptr = false; contains_handle = false; contains_borrow = false } }
{
    AbiInfo {
        size32: 0,
        align32: 1,
        size64: 0,
        align64: 1,
        contains_ptr: false,
        contains_handle: false,
        contains_borrow: false,
    }
}

/// What is known of a reference to a resource.
pub fn reference_facts() -> Facts
    ensures facts { (r : AliasableResourceId) → IsFactsOf result (reference r) }
    ensures align { HasAlign result }
{
    Facts {
        info: TypeInfo { size: 1, depth: 1 },
        abi: nothing_abi(),
        plain: false,
        refers: true,
        flat: LoweredTypes::new(),
    }
}
