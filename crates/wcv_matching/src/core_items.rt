// Whether what one core module exports may stand where another imports something.
ghost use Rattle.std.specs.Prelude.{◌≡◌, List, OnOk, IfErr};
ghost use Rattle.std.specs.Bool.{Decides};
ghost use Rattle.wcv_core.specs.CoreForm.{Group};
ghost use Rattle.wcv_core.specs.CoreGroups.{IsHeapWithin, IsValWithin, total};
ghost use Rattle.wcv_core.specs.CoreSizes.{IsEntityWithin};
ghost use Rattle.wcv_core.specs.Refusal.{error_kind, error_offset};
ghost use Rattle.wcv_closed.specs.ClosedItems.{ItemMatches, MemoryMatches};
ghost use Rattle.wcv_closed.specs.ClosedTable.{IsTable};
ghost use Rattle.wcv_closed.specs.ClosedValue.{closed_item};
ghost use Rattle.wcv_matching.specs.ItemTests.{bound_within, content_matches, global_matches, item_matches, limits_match, memory_matches, same_heap, same_ref, same_val, table_matches};
ghost use Rattle.wcv_matching.specs.ItemTables.{AnyTableMatches};
ghost use Rattle.wcv_matching.specs.Refusals.{IsMismatch};

use std::fmt;
use wcv_core::{
    CoreTypes, EntityType, Error, ErrorKind, GlobalType, HeapType, MemoryType, RefType, TableType,
    ValType, closed_mark,
};

fn same_heap(a: HeapType, b: HeapType) -> bool
    ensures { result ≡ same_heap a b }
{
    match (a, b) {
        (HeapType::Id(x), HeapType::Id(y)) => x == y,
        (HeapType::Abstract(x), HeapType::Abstract(y)) => x == y,
        _ => false,
    }
}

/// Whether two references are equal. A reference to a type is shared as that type is, whatever its own mark.
fn same_ref(a: RefType, b: RefType) -> bool
    ensures { result ≡ same_ref a b }
{
    a.nullable == b.nullable
        && closed_mark(a.heap, a.shared) == closed_mark(b.heap, b.shared)
        && same_heap(a.heap, b.heap)
}

/// Whether two value types are equal.
pub fn same_val(a: ValType, b: ValType) -> bool
    ensures { result ≡ same_val a b }
{
    match (a, b) {
        (ValType::I32, ValType::I32) => true,
        (ValType::I64, ValType::I64) => true,
        (ValType::F32, ValType::F32) => true,
        (ValType::F64, ValType::F64) => true,
        (ValType::V128, ValType::V128) => true,
        (ValType::Ref(q), ValType::Ref(r)) => same_ref(q, r),
        _ => false,
    }
}

/// Whether there is a greatest count wherever one is asked for, and no greater one.
fn bound_within(a: Option<u64>, b: Option<u64>) -> bool
    ensures { result ≡ bound_within a b }
{
    match (a, b) {
        (_, None) => true,
        (Some(a), Some(b)) => a <= b,
        (None, Some(_)) => false,
    }
}

fn table_matches(a: &TableType, b: &TableType) -> bool
    ensures { result ≡ table_matches a.now b.now }
{
    same_ref(a.element_type, b.element_type)
        && a.table64 == b.table64
        && a.shared == b.shared
        && a.initial >= b.initial
        && bound_within(a.maximum, b.maximum)
}

fn memory_matches(a: &MemoryType, b: &MemoryType) -> bool
    ensures { result ≡ memory_matches a.now b.now }
{
    a.memory64 == b.memory64
        && a.shared == b.shared
        && a.page_size_log2 == b.page_size_log2
        && a.initial >= b.initial
        && bound_within(a.maximum, b.maximum)
}

/// Whether what a global holds matches. What is written too has to be of the same type.
fn content_matches(types: &CoreTypes, mutable: bool, a: ValType, b: ValType) -> bool
    requires a { IsValWithin (total types.now) 0 a }
    requires b { IsValWithin (total types.now) 0 b }
    ensures { result ≡ content_matches types.now mutable a b }
{
    if mutable {
        same_val(a, b)
    } else {
        types.val_type_matches(&a, &b)
    }
}

fn global_matches(types: &CoreTypes, a: &GlobalType, b: &GlobalType) -> bool
    requires a { IsValWithin (total types.now) 0 a.now.content_type }
    requires b { IsValWithin (total types.now) 0 b.now.content_type }
    ensures { result ≡ global_matches types.now a.now b.now }
{
    a.mutable == b.mutable
        && a.shared == b.shared
        && content_matches(types, a.mutable, a.content_type, b.content_type)
}

/// Whether one item matches another.
pub(crate) fn item_matches(types: &CoreTypes, a: &EntityType, b: &EntityType) -> bool
    requires a { IsEntityWithin (total types.now) a.now }
    requires b { IsEntityWithin (total types.now) b.now }
    ensures { result ≡ item_matches types.now a.now b.now }
{
    match (a, b) {
        (EntityType::Func(a), EntityType::Func(b)) => types.is_declared_subtype(*a, *b),
        (EntityType::Tag(a), EntityType::Tag(b)) => *a == *b,
        (EntityType::Table(a), EntityType::Table(b)) => table_matches(a, b),
        (EntityType::Memory(a), EntityType::Memory(b)) => memory_matches(a, b),
        (EntityType::Global(a), EntityType::Global(b)) => global_matches(types, a, b),
        _ => false,
    }
}

/// The refusal of what stands where another was expected.
fn unlike<T: fmt::Display>(found: &T, expected: &T, offset: u64) -> Error
    ensures kind { error_kind result ≡ ErrorKind.Mismatch }
    ensures offset { error_offset result ≡ offset }
{
    Error::told(
        ErrorKind::Mismatch,
        offset,
        format_args!("expected {expected}, found {found}"),
    )
}

/// Whether one item matches another. The ids in both are of the table.
pub fn entity_type(
    types: &CoreTypes,
    a: &EntityType,
    b: &EntityType,
    offset: u64,
) -> Result<(), Error>
    requires a { IsEntityWithin (total types.now) a.now }
    requires b { IsEntityWithin (total types.now) b.now }
    ensures ok { OnOk result (ItemMatches (closed_item types.now a.now) (closed_item types.now b.now)) }
    ensures err { IfErr result (IsMismatch offset (ItemMatches (closed_item types.now a.now) (closed_item types.now b.now))) }
{
    let _count = types.len();
    if item_matches(types, a, b) {
        Ok(())
    } else {
        Err(unlike(a, b, offset))
    }
}

/// Whether one table matches another, in each table of core types that the ids in both are of.
pub fn table_type(a: &TableType, b: &TableType, offset: u64) -> Result<(), Error>
    ensures ok { OnOk result ((gs : List Group) → ItemMatches (closed_item gs (EntityType.Table a.now)) (closed_item gs (EntityType.Table b.now))) }
    ensures err { IfErr result (IsMismatch offset (AnyTableMatches a.now b.now)) }
{
    if table_matches(a, b) {
        Ok(())
    } else {
        Err(unlike(a, b, offset))
    }
}

/// Whether one memory matches another.
pub fn memory_type(a: &MemoryType, b: &MemoryType, offset: u64) -> Result<(), Error>
    ensures ok { OnOk result (MemoryMatches a.now b.now) }
    ensures err { IfErr result (IsMismatch offset (MemoryMatches a.now b.now)) }
{
    if memory_matches(a, b) {
        Ok(())
    } else {
        Err(unlike(a, b, offset))
    }
}
