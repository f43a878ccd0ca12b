// The core types that others name, by their ids.
ghost use Rattle.std.specs.Prelude.{◌≡◌, ◌∷◌, ◌++◌, [], ◌<◌, length, map, slice_get, Some, Option, OnOk, IfOk};
ghost use Rattle.wcv_core.specs.CoreForm.{composite_form, sub_form};
ghost use Rattle.wcv_core.specs.CoreIds.{all_ids, heap_ids, val_ids, storage_ids, field_ids, composite_ids, super_ids, sub_ids, ids_in_group};
ghost use Rattle.wcv_types.specs.CoreText.{item_ids, group_at, older_ids};
ghost use Rattle.wcv_text.specs.Groups.{id_list};

use crate::core_place::place;
use std::alloc::{AllocError, Global};
use std::marker::Model;
use wcv_core::{
    CompositeInnerType, CoreTypeId, CoreTypes, EntityType, FieldType, HeapType, StorageType,
    SubType, SuperType, ValType,
};

/// Ids of core types, in order. Contracts see them as numbers.
#[derive(Drop)]
pub struct Ids {
    ids: Vec<CoreTypeId>,
}

impl Model for Ids {
    ghost use Rattle.std.specs.Prelude.{ℕ, List, map};
    ghost use Rattle.wcv_text.specs.Numbers.{first_of};

    ghost Value = { List ℕ };

    ghost view = { λ i. map first_of i.ids.items };
}

impl Ids {
    /// No id.
    pub fn new(alloc: Global) -> Ids
        ensures { result ≡ [] }
    {
        Ids {
            ids: Vec::new(alloc),
        }
    }

    /// One more, behind all others.
    fn push(&mut self, id: CoreTypeId) -> Result<(), AllocError>
        ensures { OnOk result (self.new ≡ self.old ++ id.index ∷ []) }
    {
        self.ids.push(id)?;
        Ok(())
    }

    /// How many there are.
    pub fn len(&self) -> usize
        ensures { result ≡ length self.now }
    {
        self.ids.len()
    }

    /// The id at that position.
    pub fn get(&self, k: usize) -> CoreTypeId
        requires { k < length self.now }
        ensures { slice_get self.now k ≡ Some result.index }
    {
        self.ids[k]
    }
}

/// The type that a reference points to joins the list, where it has an id.
fn push_heap(ids: &mut Ids, heap: HeapType) -> Result<(), AllocError>
    ensures { OnOk result (ids.new ≡ ids.old ++ heap_ids heap) }
{
    match heap {
        HeapType::Id(id) => ids.push(id),
        _ => Ok(()),
    }
}

/// So of a value type.
fn push_val(ids: &mut Ids, ty: ValType) -> Result<(), AllocError>
    ensures { OnOk result (ids.new ≡ ids.old ++ val_ids ty) }
{
    match ty {
        ValType::Ref(ty) => push_heap(ids, ty.heap),
        _ => Ok(()),
    }
}

/// So of a field.
fn push_field(ids: &mut Ids, field: FieldType) -> Result<(), AllocError>
    ensures { OnOk result (ids.new ≡ ids.old ++ field_ids field) }
{
    match field.storage {
        StorageType::Val(ty) => push_val(ids, ty),
        _ => Ok(()),
    }
}

/// So of each value type, in order.
fn push_vals(ids: &mut Ids, types: &[ValType]) -> Result<(), AllocError>
    ensures { OnOk result (ids.new ≡ ids.old ++ all_ids val_ids types.now) }
{
    for ty in types {
        push_val(ids, *ty)?;
    }
    Ok(())
}

/// So of each field, in order.
fn push_fields(ids: &mut Ids, fields: &[FieldType]) -> Result<(), AllocError>
    ensures { OnOk result (ids.new ≡ ids.old ++ all_ids field_ids fields.now) }
{
    for field in fields {
        push_field(ids, *field)?;
    }
    Ok(())
}

/// So of the form of a type.
fn push_composite(ids: &mut Ids, ty: &CompositeInnerType) -> Result<(), AllocError>
    ensures { OnOk result (ids.new ≡ ids.old ++ composite_ids (composite_form ty.now)) }
{
    match ty {
        CompositeInnerType::Func(func) => {
            push_vals(ids, &func.params)?;
            push_vals(ids, &func.results)
        }
        CompositeInnerType::Struct(ty) => push_fields(ids, &ty.fields),
        CompositeInnerType::Array(array) => push_field(ids, array.field),
    }
}

/// So of the declared supertype.
fn push_super(ids: &mut Ids, supertype: Option<SuperType>) -> Result<(), AllocError>
    ensures { OnOk result (ids.new ≡ ids.old ++ super_ids supertype) }
{
    match supertype {
        Some(SuperType::Id(id)) => ids.push(id),
        _ => Ok(()),
    }
}

/// So of a type.
fn push_sub(ids: &mut Ids, ty: &SubType) -> Result<(), AllocError>
    ensures { OnOk result (ids.new ≡ ids.old ++ sub_ids (sub_form ty.now)) }
{
    push_super(ids, ty.supertype)?;
    push_composite(ids, &ty.inner)
}

/// The types that the group of a core type names, in order.
fn named_in(alloc: Global, core: &CoreTypes, id: CoreTypeId) -> Result<Ids, AllocError>
    ensures { IfOk result (λ ids. ids ≡ ids_in_group (group_at core.now id.index)) }
{
    let mut ids = Ids::new(alloc);
    let (first, len) = place(core, id);
    for k in 0..len {
        let index = first.index + k;
        push_sub(&mut ids, core.get(CoreTypeId { index }))?;
    }
    Ok(ids)
}

/// Those of them that stand in older groups.
pub fn older_in(alloc: Global, core: &CoreTypes, id: CoreTypeId) -> Result<Ids, AllocError>
    ensures { IfOk result (λ ids. ids ≡ older_ids core.now id.index) }
{
    let named = named_in(alloc, core, id)?;
    let (first, _) = place(core, id);
    let mut older = Ids::new(alloc);
    for k in 0..named.len() {
        let named = named.get(k);
        if named.index < first.index {
            older.push(named)?;
        }
    }
    Ok(older)
}

/// The type that a reference points to, where it has an id.
fn heap_id(heap: HeapType) -> Option<CoreTypeId>
    ensures { id_list result ≡ heap_ids heap }
{
    match heap {
        HeapType::Id(id) => Some(id),
        _ => None,
    }
}

/// So of a value type.
fn val_id(ty: ValType) -> Option<CoreTypeId>
    ensures { id_list result ≡ val_ids ty }
{
    match ty {
        ValType::Ref(ty) => heap_id(ty.heap),
        _ => None,
    }
}

/// The type that a core item names, where it names one. None names more.
pub fn named_by(item: EntityType) -> Option<CoreTypeId>
    ensures { id_list result ≡ item_ids item }
{
    match item {
        EntityType::Func(id) | EntityType::Tag(id) => Some(id),
        EntityType::Table(table) => heap_id(table.element_type.heap),
        EntityType::Memory(_) => None,
        EntityType::Global(global) => val_id(global.content_type),
    }
}
