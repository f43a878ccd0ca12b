// How defined types lie in memory, from how their parts do.
ghost use Rattle.std.specs.Prelude.{◌≡◌, ◌≤◌, ℕ, false, length, min, List};
ghost use Rattle.wcv_types.specs.Abi as abi;
ghost use Rattle.wcv_types.specs.Facts.{IsFactsOf};
ghost use Rattle.wcv_types.specs.Measure.{former_weight, weigh};
ghost use Rattle.wcv_types.specs.Named.{named_by_itself};
ghost use Rattle.wcv_types.specs.Sums.{HasParts, IsSumOf};
ghost use Rattle.wcv_types.specs.Tree.{node};
ghost use Rattle.wcv_types.specs.Unfold.{Type_tree, capped, former_of, value_parts, slot_parts, head_of, defined_slots};
ghost use Rattle.wcv_types.specs.declared.arena.Node.TheVariants as n;

use crate::abi::AbiInfo;
use crate::facts::{Facts, primitive_align, primitive_size};
use crate::info::TypeInfo;
use crate::shape_types::shape_types;
use crate::shapes::ComponentDefinedType;
use crate::sum::{Extent, Sum, align_up};
use wcv_core::PrimitiveValType;

/// The size of what tells one of so many cases.
fn discriminant(cases: usize) -> u64
    ensures { result ≡ abi.discriminant cases }
{
    match cases {
        0..=256 => 1,
        257..=65536 => 2,
        _ => 4,
    }
}

/// The size of so many flags.
fn flags_size(flags: usize) -> u64
    ensures { result ≡ abi.flags_size flags }
{
    match flags {
        0..=8 => 1,
        9..=16 => 2,
        _ => 4,
    }
}

/// The size of a variant, from that of its discriminant and from its payloads.
fn variant_size(discriminant: u64, payloads: &Extent) -> u64
    requires some { 1 ≤ payloads.now.align }
    ensures { result ≡ min (abi.variant_size discriminant payloads.now.align payloads.now.greatest) 18446744073709551615 }
{
    let before = align_up(discriminant, payloads.align);
    let end = before.saturating_add(payloads.greatest);
    align_up(end, discriminant.max(payloads.align))
}

/// The size of a type, where a pointer has that many bytes.
fn size(shape: &ComponentDefinedType, parts: &Extent, pointer: u64) -> u64
    requires pointer { pointer ≤ 8 }
    requires some { 1 ≤ parts.now.align }
    ensures { result ≡ min (abi.former_size pointer (former_of shape.now) parts.now.end parts.now.align parts.now.greatest (length (value_parts shape.now))) 18446744073709551615 }
{
    match shape {
        ComponentDefinedType::Primitive(ty) => primitive_size(*ty, pointer),
        ComponentDefinedType::Record(_) | ComponentDefinedType::Tuple(_) => {
            align_up(parts.end, parts.align)
        }
        ComponentDefinedType::Variant(cases) => variant_size(discriminant(cases.len()), parts),
        ComponentDefinedType::Enum(names) => discriminant(names.len()),
        ComponentDefinedType::Option(_) | ComponentDefinedType::Result { .. } => {
            variant_size(1, parts)
        }
        ComponentDefinedType::Flags(names) => flags_size(names.len()),
        ComponentDefinedType::List(_) | ComponentDefinedType::Map(_, _) => 2 * pointer,
        ComponentDefinedType::FixedLengthList(_, len) => {
            parts.greatest.saturating_mul(*len as u64)
        }
        ComponentDefinedType::Own(_)
        | ComponentDefinedType::Borrow(_)
        | ComponentDefinedType::Future(_)
        | ComponentDefinedType::Stream(_) => 4,
    }
}

/// Its alignment.
fn align(shape: &ComponentDefinedType, parts: &Extent, pointer: u64) -> u64
    requires { pointer ≤ 8 }
    ensures { result ≡ abi.former_align pointer (former_of shape.now) parts.now.align (length (value_parts shape.now)) }
{
    match shape {
        ComponentDefinedType::Primitive(ty) => primitive_align(*ty, pointer),
        ComponentDefinedType::Variant(cases) => discriminant(cases.len()).max(parts.align),
        ComponentDefinedType::Enum(names) => discriminant(names.len()),
        ComponentDefinedType::Flags(names) => flags_size(names.len()),
        ComponentDefinedType::List(_) | ComponentDefinedType::Map(_, _) => pointer,
        ComponentDefinedType::Record(_)
        | ComponentDefinedType::Tuple(_)
        | ComponentDefinedType::Option(_)
        | ComponentDefinedType::Result { .. }
        | ComponentDefinedType::FixedLengthList(_, _) => parts.align,
        ComponentDefinedType::Own(_)
        | ComponentDefinedType::Borrow(_)
        | ComponentDefinedType::Future(_)
        | ComponentDefinedType::Stream(_) => 4,
    }
}

/// Whether a string, a list or a map stands in it, from whether one stands in a part.
fn contains_ptr(shape: &ComponentDefinedType, inner: bool) -> bool
    ensures { result ≡ abi.former_has abi.pointer (former_of shape.now) inner }
{
    match shape {
        ComponentDefinedType::Primitive(ty) => matches!(ty, PrimitiveValType::String),
        ComponentDefinedType::List(_) | ComponentDefinedType::Map(_, _) => true,
        ComponentDefinedType::Future(_) | ComponentDefinedType::Stream(_) => false,
        _ => inner,
    }
}

/// Whether a handle, a future, a stream or an error context does.
fn contains_handle(shape: &ComponentDefinedType, inner: bool) -> bool
    ensures { result ≡ abi.former_has abi.handle (former_of shape.now) inner }
{
    match shape {
        ComponentDefinedType::Primitive(ty) => matches!(ty, PrimitiveValType::ErrorContext),
        ComponentDefinedType::Own(_)
        | ComponentDefinedType::Borrow(_)
        | ComponentDefinedType::Future(_)
        | ComponentDefinedType::Stream(_) => true,
        _ => inner,
    }
}

/// Whether a borrowed handle does.
fn contains_borrow(shape: &ComponentDefinedType, inner: bool) -> bool
    ensures { result ≡ abi.former_has abi.borrow (former_of shape.now) inner }
{
    match shape {
        ComponentDefinedType::Primitive(_) => false,
        ComponentDefinedType::Borrow(_) => true,
        _ => inner,
    }
}

/// The size and the depth of the type, from those of its parts.
fn info(shape: &ComponentDefinedType, parts: &Sum) -> TypeInfo
    ensures size { result.size ≡ capped (weigh (former_weight (former_of shape.now)) 0 parts.now.size) }
    ensures depth { result.depth ≡ capped (weigh (former_weight (former_of shape.now)) 0 parts.now.depth) }
{
    match shape {
        ComponentDefinedType::Primitive(_)
        | ComponentDefinedType::Flags(_)
        | ComponentDefinedType::Enum(_)
        | ComponentDefinedType::Own(_)
        | ComponentDefinedType::Borrow(_) => TypeInfo { size: 1, depth: 1 },
        _ => TypeInfo {
            size: parts.size.saturating_add(1),
            depth: parts.depth.saturating_add(1),
        },
    }
}

/// Whether nothing in it has to be named, from whether nothing in a part has.
fn plain(shape: &ComponentDefinedType, inner: bool) -> bool
    ensures { result ≡ named_by_itself (former_of shape.now) false inner }
{
    match shape {
        ComponentDefinedType::Primitive(_) => true,
        ComponentDefinedType::Record(_)
        | ComponentDefinedType::Variant(_)
        | ComponentDefinedType::Flags(_)
        | ComponentDefinedType::Enum(_) => false,
        _ => inner,
    }
}

/// What is known of a type, from what is known of its parts.
pub fn facts(shape: &ComponentDefinedType, parts: &Sum) -> Facts
    requires { HasParts parts.now }
    ensures { (ts : List Type_tree) (k : ℕ) → IsSumOf parts.now (slot_parts ts (defined_slots shape.now)) → IsFactsOf result (node (head_of k (n.Defined shape.now)) (slot_parts ts (defined_slots shape.now))) }
{
    Facts {
        info: info(shape, parts),
        abi: AbiInfo {
            size32: size(shape, &parts.narrow, 4),
            align32: align(shape, &parts.narrow, 4),
            size64: size(shape, &parts.wide, 8),
            align64: align(shape, &parts.wide, 8),
            contains_ptr: contains_ptr(shape, parts.contains_ptr),
            contains_handle: contains_handle(shape, parts.contains_handle),
            contains_borrow: contains_borrow(shape, parts.contains_borrow),
        },
        plain: plain(shape, parts.plain),
        refers: parts.refers,
        flat: shape_types(shape, &parts.all, &parts.cases),
    }
}
