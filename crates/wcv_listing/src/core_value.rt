// Core value types.
ghost use Rattle.std.specs.Prelude.{◌≡◌, Bool, option_map};
ghost use Rattle.serde_json.specs.Find.{get};
ghost use Rattle.wcv_listing.specs.Core.{number_names, heap_names, named_heap, heap_of, ref_type_of, core_value_of};
ghost use Rattle.wcv_listing.specs.Fields.{both, named, mark};
ghost use Rattle.wcv_listing.specs.Seen.{view};

use crate::fields::{three_fields, two_fields};
use crate::list::named_in;
use crate::node::Node;
use crate::value::{bool_of, index_of, member_at, text_of};
use wcv_core::{AbstractHeap, HeapType, RefType, ValType};

/// A mark, which is false where it is absent, or `None` where what is there is no Boolean.
pub fn mark_of(value: Option<Node<'_, '_>>) -> Option<bool>
    ensures { result ≡ mark (option_map view value.entry) }
{
    match value {
        None => Some(false),
        Some(flag) => bool_of(flag),
    }
}

/// The mark under a key, which is false where it is absent, or `None` where what is there is no Boolean.
pub fn mark_at(value: Node<'_, '_>, key: &str) -> Option<bool>
    ensures { result ≡ mark (get key.now (view value.entry)) }
{
    mark_of(member_at(value, key))
}

/// Two marks, or `None` where one of them is no Boolean.
pub fn marks_of(first: Option<Node<'_, '_>>, second: Option<Node<'_, '_>>) -> Option<(bool, bool)>
    ensures { result ≡ both (λ (a b : Bool). (a, b)) (mark (option_map view first.entry)) (mark (option_map view second.entry)) }
{
    let Some(a) = mark_of(first) else {
        return None;
    };
    let Some(b) = mark_of(second) else {
        return None;
    };
    Some((a, b))
}

// The type of that name that is no reference.
fn number_named(name: &str) -> Option<ValType>
    ensures { result ≡ named number_names name.now }
{
    named_in(
        &[
            ("i32", ValType::I32),
            ("i64", ValType::I64),
            ("f32", ValType::F32),
            ("f64", ValType::F64),
            ("v128", ValType::V128),
        ],
        name,
    )
}

// The heap type of that name.
fn heap_named(name: &str) -> Option<AbstractHeap>
    ensures { result ≡ named heap_names name.now }
{
    named_in(
        &[
            ("func", AbstractHeap::Func),
            ("nofunc", AbstractHeap::NoFunc),
            ("extern", AbstractHeap::Extern),
            ("noextern", AbstractHeap::NoExtern),
            ("any", AbstractHeap::Any),
            ("eq", AbstractHeap::Eq),
            ("i31", AbstractHeap::I31),
            ("struct", AbstractHeap::Struct),
            ("array", AbstractHeap::Array),
            ("none", AbstractHeap::None),
            ("exn", AbstractHeap::Exn),
            ("noexn", AbstractHeap::NoExn),
        ],
        name,
    )
}

// A heap type by its name.
fn read_named_heap(value: Node<'_, '_>) -> Option<HeapType>
    ensures { result ≡ named_heap (view value.entry) }
{
    let name = text_of(value)?;
    heap_named(name).map(HeapType::Abstract)
}

// A heap type by its name, or a core type by its index.
fn read_heap(value: Node<'_, '_>) -> Option<HeapType>
    ensures { result ≡ heap_of (view value.entry) }
{
    match text_of(value) {
        Some(name) => heap_named(name).map(HeapType::Abstract),
        None => index_of(value).map(HeapType::Index),
    }
}

/// A reference type.
pub fn read_ref_type(value: Node<'_, '_>) -> Option<RefType>
    ensures { result ≡ ref_type_of (view value.entry) }
{
    if let Some((heap, null)) = two_fields(value, "ref", "null") {
        let Some(heap) = heap.and_then(read_heap) else {
            return None;
        };
        let Some(nullable) = mark_of(null) else {
            return None;
        };
        Some(RefType {
            nullable,
            shared: false,
            heap,
        })
    } else if let Some((heap, null, shared)) = three_fields(value, "ref", "null", "shared") {
        let Some(heap) = heap.and_then(read_named_heap) else {
            return None;
        };
        let Some((nullable, shared)) = marks_of(null, shared) else {
            return None;
        };
        Some(RefType {
            nullable,
            shared,
            heap,
        })
    } else {
        None
    }
}

/// A core value type.
pub fn read_core_value(value: Node<'_, '_>) -> Option<ValType>
    ensures { result ≡ core_value_of (view value.entry) }
{
    match text_of(value) {
        Some(name) => number_named(name),
        None => read_ref_type(value).map(ValType::Ref),
    }
}
