// Rules of core types, over the rows of a table.
ghost use Rattle.std.specs.Prelude.{◌≡◌, ◌+◌, ◌≤◌, ◌<◌, map, All, Some, get_or, OnOk, IfErr};
ghost use Rattle.std.specs.List.{list_all, range_with_len};
ghost use Rattle.std.specs.Str.{bytes_eq};
ghost use Rattle.wcv_core.specs.CoreCode.{val_code};
ghost use Rattle.wcv_core.specs.Checks.{IsFree, CausedBy, all_checks};
ghost use Rattle.wcv_core.specs.CoreForm.{func_form, composite_form};
ghost use Rattle.wcv_core.specs.CoreGroups.{IsHeapWithin, IsValWithin, IsStorageWithin, IsFieldWithin, IsFormWithin, total, place_from, parents_from};
ghost use Rattle.wcv_core.specs.CoreMatching.{val_matches};
ghost use Rattle.wcv_core.specs.CoreRules.{id_heap, id_val, id_storage, id_field, id_form, form_at, same_storage, storage_matches, field_matches, each_matches, front_matches, form_matches, val_shared, storage_shared, field_shared, form_shared, super_checks, type_checks};

use crate::core_closing::closed_mark;
use crate::core_codes::{heap_number, ref_mark};
use crate::core_rows::Rows;
use crate::core_types::{
    CompositeInnerType, CoreTypeId, FieldType, FuncType, HeapType, RefType, StorageType, ValType,
};
use crate::error::{Error, ErrorKind};

impl Rows {
    fn id_heap(&self, first: u64, heap: HeapType) -> HeapType
        requires { IsHeapWithin (total self.now) 0 (id_heap first heap) }
        ensures { result ≡ id_heap first heap }
    {
        match heap {
            HeapType::Index(n) => HeapType::Id(self.id_at(first, n as u64)),
            HeapType::Abstract(name) => HeapType::Abstract(name),
            HeapType::Id(id) => HeapType::Id(id),
        }
    }

    /// The value type with ids in place of positions in the group whose first id is `first`.
    fn id_val(&self, first: u64, ty: ValType) -> ValType
        requires { IsValWithin (total self.now) 0 (id_val first ty) }
        ensures { result ≡ id_val first ty }
    {
        match ty {
            ValType::Ref(r) => ValType::Ref(RefType {
                nullable: r.nullable,
                shared: closed_mark(r.heap, r.shared),
                heap: self.id_heap(first, r.heap),
            }),
            ValType::I32 => ValType::I32,
            ValType::I64 => ValType::I64,
            ValType::F32 => ValType::F32,
            ValType::F64 => ValType::F64,
            ValType::V128 => ValType::V128,
        }
    }

    fn id_field(&self, first: u64, field: FieldType) -> FieldType
        requires { IsFieldWithin (total self.now) 0 (id_field first field) }
        ensures { result ≡ id_field first field }
    {
        let storage = match field.storage {
            StorageType::Val(ty) => StorageType::Val(self.id_val(first, ty)),
            StorageType::I8 => StorageType::I8,
            StorageType::I16 => StorageType::I16,
        };
        FieldType {
            storage,
            mutable: field.mutable,
        }
    }

    fn storage_matches(&self, a: StorageType, b: StorageType) -> bool
        requires a { IsStorageWithin (total self.now) 0 a }
        requires b { IsStorageWithin (total self.now) 0 b }
        ensures { result ≡ storage_matches self.now a b }
    {
        match (a, b) {
            (StorageType::Val(v), StorageType::Val(w)) => self.val_type_matches(&v, &w),
            (StorageType::I8, StorageType::I8) => true,
            (StorageType::I16, StorageType::I16) => true,
            _ => false,
        }
    }

    fn field_matches(&self, a: FieldType, b: FieldType) -> bool
        requires a { IsFieldWithin (total self.now) 0 a }
        requires b { IsFieldWithin (total self.now) 0 b }
        ensures { result ≡ field_matches self.now a b }
    {
        a.mutable == b.mutable
            && (same_storage(a.storage, b.storage)
                || (!a.mutable && self.storage_matches(a.storage, b.storage)))
    }

    #[tactic(auto, using(crate::proofs::Pairing::each_end, crate::proofs::Pairing::each_unequal))]
    fn vals_match(&self, a: &[ValType], first_a: u64, b: &[ValType], first_b: u64) -> bool
        requires a { All (IsValWithin (total self.now) 0) (map (id_val first_a) a.now) }
        requires b { All (IsValWithin (total self.now) 0) (map (id_val first_b) b.now) }
        ensures { result ≡ each_matches (val_matches self.now) (map (id_val first_a) a.now) (map (id_val first_b) b.now) }
    {
        if a.len() != b.len() {
            return false;
        }
        for i in 0..a.len() {
            let v = self.id_val(first_a, a[i]);
            let w = self.id_val(first_b, b[i]);
            if !self.val_type_matches(&v, &w) {
                return false;
            }
        }
        true
    }

    #[tactic(auto, using(crate::proofs::Pairing::front_end, crate::proofs::Pairing::front_short))]
    fn fields_match(&self, a: &[FieldType], first_a: u64, b: &[FieldType], first_b: u64) -> bool
        requires a { All (IsFieldWithin (total self.now) 0) (map (id_field first_a) a.now) }
        requires b { All (IsFieldWithin (total self.now) 0) (map (id_field first_b) b.now) }
        ensures { result ≡ front_matches (field_matches self.now) (map (id_field first_a) a.now) (map (id_field first_b) b.now) }
    {
        if a.len() < b.len() {
            return false;
        }
        for i in 0..b.len() {
            let f = self.id_field(first_a, a[i]);
            let g = self.id_field(first_b, b[i]);
            if !self.field_matches(f, g) {
                return false;
            }
        }
        true
    }

    /// Whether a value type of a shared type may stand in it.
    fn val_shared(&self, ty: ValType) -> bool
        requires { IsValWithin (total self.now) 0 ty }
        ensures { result ≡ val_shared self.now ty }
    {
        match ty {
            ValType::Ref(r) => self.is_shared(r),
            _ => true,
        }
    }

    fn field_shared(&self, field: FieldType) -> bool
        requires { IsFieldWithin (total self.now) 0 field }
        ensures { result ≡ field_shared self.now field }
    {
        match field.storage {
            StorageType::Val(ty) => self.val_shared(ty),
            _ => true,
        }
    }

    #[tactic(auto, using(crate::proofs::Pairing::all_fails, crate::proofs::Pairing::all_goes))]
    fn vals_shared(&self, types: &[ValType], first: u64) -> bool
        requires { All (IsValWithin (total self.now) 0) (map (id_val first) types.now) }
        ensures { result ≡ list_all (val_shared self.now) (map (id_val first) types.now) }
    {
        for i in 0..types.len() {
            let ty = self.id_val(first, types[i]);
            if !self.val_shared(ty) {
                return false;
            }
        }
        true
    }

    #[tactic(auto, using(crate::proofs::Pairing::all_fails, crate::proofs::Pairing::all_goes))]
    fn fields_shared(&self, fields: &[FieldType], first: u64) -> bool
        requires { All (IsFieldWithin (total self.now) 0) (map (id_field first) fields.now) }
        ensures { result ≡ list_all (field_shared self.now) (map (id_field first) fields.now) }
    {
        for i in 0..fields.len() {
            let field = self.id_field(first, fields[i]);
            if !self.field_shared(field) {
                return false;
            }
        }
        true
    }

    /// Whether a form in the group whose first id is `first` holds no reference that is not shared.
    pub fn form_shared(&self, form: &CompositeInnerType, first: u64) -> bool
        requires { IsFormWithin (total self.now) 0 (id_form first (composite_form form.now)) }
        ensures { result ≡ form_shared self.now (id_form first (composite_form form.now)) }
    {
        match form {
            CompositeInnerType::Func(func) => {
                self.vals_shared(func.params.as_slice(), first)
                    && self.vals_shared(func.results.as_slice(), first)
            }
            CompositeInnerType::Struct(ty) => self.fields_shared(ty.fields.as_slice(), first),
            CompositeInnerType::Array(ty) => self.field_shared(self.id_field(first, ty.field)),
        }
    }

    fn funcs_match(&self, a: &FuncType, first_a: u64, b: &FuncType, first_b: u64) -> bool
        requires a { IsFormWithin (total self.now) 0 (id_form first_a (func_form a.now.params.items a.now.results.items)) }
        requires b { IsFormWithin (total self.now) 0 (id_form first_b (func_form b.now.params.items b.now.results.items)) }
        ensures { result ≡ form_matches self.now (id_form first_a (func_form a.now.params.items a.now.results.items)) (id_form first_b (func_form b.now.params.items b.now.results.items)) }
    {
        self.vals_match(b.params.as_slice(), first_b, a.params.as_slice(), first_a)
            && self.vals_match(a.results.as_slice(), first_a, b.results.as_slice(), first_b)
    }

    /// Whether a form matches another, each in the group with that first id.
    pub fn form_matches(
        &self,
        a: &CompositeInnerType,
        first_a: u64,
        b: &CompositeInnerType,
        first_b: u64,
    ) -> bool
        requires a { IsFormWithin (total self.now) 0 (id_form first_a (composite_form a.now)) }
        requires b { IsFormWithin (total self.now) 0 (id_form first_b (composite_form b.now)) }
        ensures { result ≡ form_matches self.now (id_form first_a (composite_form a.now)) (id_form first_b (composite_form b.now)) }
    {
        match (a, b) {
            (CompositeInnerType::Func(a), CompositeInnerType::Func(b)) => {
                self.funcs_match(a, first_a, b, first_b)
            }
            (CompositeInnerType::Struct(a), CompositeInnerType::Struct(b)) => {
                self.fields_match(a.fields.as_slice(), first_a, b.fields.as_slice(), first_b)
            }
            (CompositeInnerType::Array(a), CompositeInnerType::Array(b)) => self.field_matches(
                self.id_field(first_a, a.field),
                self.id_field(first_b, b.field),
            ),
            _ => false,
        }
    }
}

/// Whether value types are equal.
fn same_val(a: ValType, b: ValType) -> bool
    ensures { result ≡ bytes_eq (val_code a) (val_code b) }
{
    match (a, b) {
        (ValType::I32, ValType::I32) => true,
        (ValType::I64, ValType::I64) => true,
        (ValType::F32, ValType::F32) => true,
        (ValType::F64, ValType::F64) => true,
        (ValType::V128, ValType::V128) => true,
        (ValType::Ref(q), ValType::Ref(r)) => {
            ref_mark(q) == ref_mark(r) && heap_number(q.heap) == heap_number(r.heap)
        }
        _ => false,
    }
}

/// Whether fields are stored alike.
fn same_storage(a: StorageType, b: StorageType) -> bool
    ensures { result ≡ same_storage a b }
{
    match (a, b) {
        (StorageType::Val(v), StorageType::Val(w)) => same_val(v, w),
        (StorageType::I8, StorageType::I8) => true,
        (StorageType::I16, StorageType::I16) => true,
        _ => false,
    }
}
