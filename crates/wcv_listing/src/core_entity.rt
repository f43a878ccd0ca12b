// What core modules import and export.
ghost use Rattle.std.specs.Prelude.{◌≡◌, ℕ, Option, option_map, option_and_then};
ghost use Rattle.wcv_listing.specs.CoreForms.{table_of, page_of, memory_of, global_of, entity_under, entity_of};
ghost use Rattle.wcv_listing.specs.Fields.{both, natural, optional};
ghost use Rattle.wcv_listing.specs.Seen.{view};

use crate::core_value::{marks_of, read_core_value, read_ref_type};
use crate::fields::{five_fields, three_fields};
use crate::node::Node;
use crate::value::{index_of, natural_of, sole_member};
use wcv_core::{GlobalType, MemoryType, TableType};
use wcv_syntax::TypeRef;

// The greatest number, where there is one, or `None` where what is there is no such number.
fn read_maximum(value: Option<Node<'_, '_>>) -> Option<Option<u64>>
    ensures { result ≡ optional natural (option_map view value.entry) }
{
    match value {
        None => Some(None),
        Some(number) => natural_of(number).map(Some),
    }
}

// The least number and the greatest.
fn read_limits(min: Option<Node<'_, '_>>, max: Option<Node<'_, '_>>) -> Option<(u64, Option<u64>)>
    ensures { result ≡ both (λ (min : ℕ) (max : Option ℕ). (min, max)) (option_and_then natural (option_map view min.entry)) (optional natural (option_map view max.entry)) }
{
    let Some(min) = min.and_then(natural_of) else {
        return None;
    };
    let Some(max) = read_maximum(max) else {
        return None;
    };
    Some((min, max))
}

// A table type.
fn read_table(value: Node<'_, '_>) -> Option<TableType>
    ensures { result ≡ table_of (view value.entry) }
{
    let Some((elem, min, max, table64, shared)) = five_fields(
        value, "elem", "min", "max", "64", "shared",
    ) else {
        return None;
    };
    let Some(element_type) = elem.and_then(read_ref_type) else {
        return None;
    };
    let Some((initial, maximum)) = read_limits(min, max) else {
        return None;
    };
    let Some((table64, shared)) = marks_of(table64, shared) else {
        return None;
    };
    Some(TableType {
        element_type,
        initial,
        maximum,
        table64,
        shared,
    })
}

// The exponent of the size of a page, which is 16 where nothing is said.
fn read_page(value: Option<Node<'_, '_>>) -> Option<u32>
    ensures { result ≡ page_of (option_map view value.entry) }
{
    match value {
        None => Some(16),
        Some(number) => index_of(number),
    }
}

// A memory type.
fn read_memory(value: Node<'_, '_>) -> Option<MemoryType>
    ensures { result ≡ memory_of (view value.entry) }
{
    let Some((min, max, memory64, shared, page)) = five_fields(
        value, "min", "max", "64", "shared", "page",
    ) else {
        return None;
    };
    let Some((initial, maximum)) = read_limits(min, max) else {
        return None;
    };
    let Some((memory64, shared)) = marks_of(memory64, shared) else {
        return None;
    };
    let Some(page_size_log2) = read_page(page) else {
        return None;
    };
    Some(MemoryType {
        initial,
        maximum,
        memory64,
        shared,
        page_size_log2,
    })
}

// A global type.
fn read_global(value: Node<'_, '_>) -> Option<GlobalType>
    ensures { result ≡ global_of (view value.entry) }
{
    let Some((content, mutable, shared)) = three_fields(value, "type", "mut", "shared") else {
        return None;
    };
    let Some(content_type) = content.and_then(read_core_value) else {
        return None;
    };
    let Some((mutable, shared)) = marks_of(mutable, shared) else {
        return None;
    };
    Some(GlobalType {
        content_type,
        mutable,
        shared,
    })
}

// What stands under the name of a sort.
fn read_under(name: &str, body: Node<'_, '_>) -> Option<TypeRef>
    ensures { result ≡ entity_under name.now (view body.entry) }
{
    match name {
        "func" => index_of(body).map(TypeRef::Func),
        "tag" => index_of(body).map(TypeRef::Tag),
        "table" => read_table(body).map(TypeRef::Table),
        "memory" => read_memory(body).map(TypeRef::Memory),
        "global" => read_global(body).map(TypeRef::Global),
        _ => None,
    }
}

/// What an import or an export of a core module is.
pub fn read_entity(value: Node<'_, '_>) -> Option<TypeRef>
    ensures { result ≡ entity_of (view value.entry) }
{
    match sole_member(value) {
        Some((key, body)) => read_under(key, body),
        None => None,
    }
}
