// Groups as they were written, put into closed form.
ghost use Rattle.std.specs.Prelude.{◌≡◌, map, IfOk, OnOk, IfErr};
ghost use Rattle.wcv_core.specs.Checks.{IsFree, CausedBy, all_checks};
ghost use Rattle.wcv_core.specs.CoreForm.{func_form, composite_form, sub_form};
ghost use Rattle.wcv_core.specs.CoreWritten.{heap_checks, closed_heap, closed_mark, val_checks, closed_val, field_checks, closed_field, super_heap, heap_super, super_index_checks, closed_super, form_checks, closed_form, index_checks, closed_sub, closed_group};

use crate::core_types::{
    CompositeInnerType, FieldType, FuncType, HeapType, RefType, StorageType, SubType, SuperType,
    ValType,
};
use crate::error::{Error, ErrorKind, Refusal, Why};
use crate::rec_group::InternRecGroup;

/// Where a group is put into closed form: how many types the table has, how many the group, and the offset
/// of its item.
#[derive(Clone, Copy)]
pub struct Site {
    pub known: u64,
    pub len: u64,
    pub offset: u64,
}

fn close_index<G: InternRecGroup>(
    group: &G,
    site: Site,
    index: u32,
) -> Result<HeapType, Refusal<'static>>
    ensures ok { IfOk result (λ h. h ≡ closed_heap (G.entries group.now) (HeapType.Index index)) }
    ensures free { OnOk result (IsFree (heap_checks site.known (G.entries group.now) site.len (HeapType.Index index))) }
    ensures err { IfErr result (CausedBy (heap_checks site.known (G.entries group.now) site.len (HeapType.Index index)) site.offset) }
{
    let own = group.types_len();
    if index < own {
        return match group.type_id_at(index, site.offset) {
            Ok(id) => Ok(HeapType::Id(id)),
            Err(err) => Err(err),
        };
    }
    let len = site.len;
    if ((index - own) as u64) < len {
        return Ok(HeapType::Index(index - own));
    }
    let why = Why::new(past_the_end(len)).numbers([index as u64, own as u64, len]);
    Err(Error::new(ErrorKind::OutOfBounds, site.offset, why))
}

/// The words for an index past the end, in a group of that length or in none.
fn past_the_end(len: u64) -> &'static str {
    if len == 0 {
        return "core type %1 is out of bounds: %2 types stand before it";
    }
    "core type %1 is out of bounds: %2 stand before the group, which has %3 more"
}

/// The heap in closed form.
pub fn close_heap<G: InternRecGroup>(
    group: &G,
    site: Site,
    heap: HeapType,
) -> Result<HeapType, Refusal<'static>>
    ensures ok { IfOk result (λ h. h ≡ closed_heap (G.entries group.now) heap) }
    ensures free { OnOk result (IsFree (heap_checks site.known (G.entries group.now) site.len heap)) }
    ensures err { IfErr result (CausedBy (heap_checks site.known (G.entries group.now) site.len heap) site.offset) }
{
    match heap {
        HeapType::Index(index) => close_index(group, site, index),
        HeapType::Abstract(name) => Ok(HeapType::Abstract(name)),
        HeapType::Id(id) => {
            if id.index < site.known {
                return Ok(HeapType::Id(id));
            }
            Err(Error::new(
                ErrorKind::OutOfBounds,
                site.offset,
                Why::new("a core type is named by an id that is not of the table"),
            ))
        }
    }
}

/// The own mark of a reference in closed form.
pub fn closed_mark(heap: HeapType, mark: bool) -> bool
    ensures { result ≡ closed_mark heap mark }
{
    match heap {
        HeapType::Abstract(_) => mark,
        _ => false,
    }
}

/// The value type in closed form.
pub fn close_val<G: InternRecGroup>(
    group: &G,
    site: Site,
    ty: ValType,
) -> Result<ValType, Refusal<'static>>
    ensures ok { IfOk result (λ v. v ≡ closed_val (G.entries group.now) ty) }
    ensures free { OnOk result (IsFree (val_checks site.known (G.entries group.now) site.len ty)) }
    ensures err { IfErr result (CausedBy (val_checks site.known (G.entries group.now) site.len ty) site.offset) }
{
    match ty {
        ValType::Ref(r) => {
            let shared = closed_mark(r.heap, r.shared);
            let heap = close_heap(group, site, r.heap)?;
            Ok(ValType::Ref(RefType {
                nullable: r.nullable,
                shared,
                heap,
            }))
        }
        ValType::I32 => Ok(ValType::I32),
        ValType::I64 => Ok(ValType::I64),
        ValType::F32 => Ok(ValType::F32),
        ValType::F64 => Ok(ValType::F64),
        ValType::V128 => Ok(ValType::V128),
    }
}

/// Puts the types into closed form, in their places. After a refusal some are in closed form.
fn close_vals<G: InternRecGroup>(
    group: &G,
    site: Site,
    types: &mut Vec<ValType>,
) -> Result<(), Refusal<'static>>
    ensures ok { OnOk result (types.new.items ≡ map (closed_val (G.entries group.now)) types.old.items) }
    ensures free { OnOk result (IsFree (all_checks (val_checks site.known (G.entries group.now) site.len) types.old.items)) }
    ensures err { IfErr result (CausedBy (all_checks (val_checks site.known (G.entries group.now) site.len) types.old.items) site.offset) }
{
    for i in 0..types.len() {
        match close_val(group, site, types[i]) {
            Ok(ty) => types[i] = ty,
            Err(err) => return Err(err),
        }
    }
    Ok(())
}

fn close_field<G: InternRecGroup>(
    group: &G,
    site: Site,
    field: FieldType,
) -> Result<FieldType, Refusal<'static>>
    ensures ok { IfOk result (λ f. f ≡ closed_field (G.entries group.now) field) }
    ensures free { OnOk result (IsFree (field_checks site.known (G.entries group.now) site.len field)) }
    ensures err { IfErr result (CausedBy (field_checks site.known (G.entries group.now) site.len field) site.offset) }
{
    match field.storage {
        StorageType::Val(ty) => match close_val(group, site, ty) {
            Ok(ty) => Ok(FieldType {
                storage: StorageType::Val(ty),
                mutable: field.mutable,
            }),
            Err(err) => Err(err),
        },
        StorageType::I8 => Ok(field),
        StorageType::I16 => Ok(field),
    }
}

fn close_fields<G: InternRecGroup>(
    group: &G,
    site: Site,
    types: &mut Vec<FieldType>,
) -> Result<(), Refusal<'static>>
    ensures ok { OnOk result (types.new.items ≡ map (closed_field (G.entries group.now)) types.old.items) }
    ensures free { OnOk result (IsFree (all_checks (field_checks site.known (G.entries group.now) site.len) types.old.items)) }
    ensures err { IfErr result (CausedBy (all_checks (field_checks site.known (G.entries group.now) site.len) types.old.items) site.offset) }
{
    for i in 0..types.len() {
        match close_field(group, site, types[i]) {
            Ok(ty) => types[i] = ty,
            Err(err) => return Err(err),
        }
    }
    Ok(())
}

fn super_heap(ty: SuperType) -> HeapType
    ensures { result ≡ super_heap ty }
{
    match ty {
        SuperType::Index(index) => HeapType::Index(index),
        SuperType::Id(id) => HeapType::Id(id),
    }
}

fn heap_super(heap: HeapType) -> Option<SuperType>
    ensures { result ≡ heap_super heap }
{
    match heap {
        HeapType::Index(index) => Some(SuperType::Index(index)),
        HeapType::Id(id) => Some(SuperType::Id(id)),
        HeapType::Abstract(_) => None,
    }
}

fn close_super<G: InternRecGroup>(
    group: &G,
    site: Site,
    supertype: Option<SuperType>,
) -> Result<Option<SuperType>, Refusal<'static>>
    ensures ok { IfOk result (λ t. t ≡ closed_super (G.entries group.now) supertype) }
    ensures free { OnOk result (IsFree (super_index_checks site.known (G.entries group.now) site.len supertype)) }
    ensures err { IfErr result (CausedBy (super_index_checks site.known (G.entries group.now) site.len supertype) site.offset) }
{
    match supertype {
        None => Ok(None),
        Some(ty) => match close_heap(group, site, super_heap(ty)) {
            Ok(heap) => Ok(heap_super(heap)),
            Err(err) => Err(err),
        },
    }
}

fn close_func<G: InternRecGroup>(
    group: &G,
    site: Site,
    func: &mut FuncType,
) -> Result<(), Refusal<'static>>
    ensures ok { OnOk result (func_form func.new.params.items func.new.results.items ≡ closed_form (G.entries group.now) (func_form func.old.params.items func.old.results.items)) }
    ensures free { OnOk result (IsFree (form_checks site.known (G.entries group.now) site.len (func_form func.old.params.items func.old.results.items))) }
    ensures err { IfErr result (CausedBy (form_checks site.known (G.entries group.now) site.len (func_form func.old.params.items func.old.results.items)) site.offset) }
{
    match close_vals(group, site, &mut func.params) {
        Ok(()) => match close_vals(group, site, &mut func.results) {
            Ok(()) => Ok(()),
            Err(err) => Err(err),
        },
        Err(err) => Err(err),
    }
}

fn close_form<G: InternRecGroup>(
    group: &G,
    site: Site,
    form: &mut CompositeInnerType,
) -> Result<(), Refusal<'static>>
    ensures ok { OnOk result (composite_form form.new ≡ closed_form (G.entries group.now) (composite_form form.old)) }
    ensures free { OnOk result (IsFree (form_checks site.known (G.entries group.now) site.len (composite_form form.old))) }
    ensures err { IfErr result (CausedBy (form_checks site.known (G.entries group.now) site.len (composite_form form.old)) site.offset) }
{
    match form {
        CompositeInnerType::Func(func) => close_func(group, site, func),
        CompositeInnerType::Struct(ty) => close_fields(group, site, &mut ty.fields),
        CompositeInnerType::Array(ty) => match close_field(group, site, ty.field) {
            Ok(field) => {
                ty.field = field;
                Ok(())
            }
            Err(err) => Err(err),
        },
    }
}

fn close_sub<G: InternRecGroup>(
    group: &G,
    site: Site,
    ty: &mut SubType,
) -> Result<(), Refusal<'static>>
    ensures ok { OnOk result (sub_form ty.new ≡ closed_sub (G.entries group.now) (sub_form ty.old)) }
    ensures free { OnOk result (IsFree (index_checks site.known (G.entries group.now) site.len (sub_form ty.old))) }
    ensures err { IfErr result (CausedBy (index_checks site.known (G.entries group.now) site.len (sub_form ty.old)) site.offset) }
{
    match close_super(group, site, ty.supertype) {
        Ok(supertype) => match close_form(group, site, &mut ty.inner) {
            Ok(()) => {
                ty.supertype = supertype;
                Ok(())
            }
            Err(err) => Err(err),
        },
        Err(err) => Err(err),
    }
}

/// Puts the types of a group into closed form, in their places. After a refusal some are in closed form.
pub fn close_subs<G: InternRecGroup>(
    group: &G,
    site: Site,
    types: &mut Vec<SubType>,
) -> Result<(), Refusal<'static>>
    ensures ok { OnOk result (map sub_form types.new.items ≡ closed_group (G.entries group.now) (map sub_form types.old.items)) }
    ensures free { OnOk result (IsFree (all_checks (index_checks site.known (G.entries group.now) site.len) (map sub_form types.old.items))) }
    ensures err { IfErr result (CausedBy (all_checks (index_checks site.known (G.entries group.now) site.len) (map sub_form types.old.items)) site.offset) }
{
    for i in 0..types.len() {
        match close_sub(group, site, &mut types[i]) {
            Ok(()) => {}
            Err(err) => return Err(err),
        }
    }
    Ok(())
}
